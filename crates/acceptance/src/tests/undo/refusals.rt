//! What an undo refuses besides faulty tags, and in which order.

pub static ROWS: &str = "
# undo/refusals

NOTED = G UNDO_FRONT '+000,+000,N' UNDO_END
# What stands behind the header TOO_LONG, and what the value of `Title` in LONGEST is.
TOO_LONG_REST = 00*1048545
LONGEST_VALUE = 78*1048498

# No undo item.

# no tag
< a Z
$ gain -u a o
! 1 no undo item

# a tag without an undo item
< a Z TWO_ITEMS
$ gain -u a o
! 1 no undo item

# a tag without items
< a Z NO_ITEMS
$ gain -u a o
! 1 no undo item

# an undo item in the second tag alone
< a Z TWO_ITEMS UNDO_FRONT '+000,+000,N' UNDO_END
$ gain -u a o
! 1 no undo item

# Gains out of range, and what comes before.

# a gain that an undo moves out of range
< a Z G UNDO_FRONT '+001,+000,N' UNDO_END
$ gain -u a o
! 1 gain 255 out of range at 417, granule 1, channel 0

# the same at the bottom, of the right channel
< a G UNDO_FRONT '-100,-091,N' UNDO_END
$ gain -u a o
! 1 gain 90 out of range at 0, granule 1, channel 1

# no undo item before a gain out of range
< a G TWO_ITEMS
$ gain -u a o
! 1 no undo item

# a bad undo item before a gain out of range
< a G UNDO_FRONT '+001,+001,X' UNDO_END
$ gain -u a o
! 1 bad undo item at 449

# Tags that are too long.

# too long, before no undo item
< a TOO_LONG TOO_LONG_REST G
room 2000000
$ gain -u a o
! 1 tag too large, 1048577

# a fault of the frames before a tag that is too long: after 417 + 1,048,577 bytes
< a Z TOO_LONG TOO_LONG_REST 78
room 2000000
$ gain -u a o
! 1 a: lost synchronisation at 1048994

# the longest tag is read
< a Z LONGEST LONGEST_VALUE LONGEST_BACK
room 2000000
$ gain -u a o
! 1 no undo item

# Equal names and an absent input.

< a NOTED
$ gain -u a a
! 1 a: input is an output

< a NOTED
$ gain -u x o
! 3 x: absent
- x
";
