//! What an undo makes of gains, of tags and of what else is in a file.

pub static ROWS: &str = "
# undo/files

# G with the gains 75, 126, 230, 115. Modulo 256 these are 999 more of 100 and 255, and 999 less of
# 101 and 90: 999 is 3 * 256 + 231, or 4 * 256 - 25.
G_FAR = fffb9000 00000008002580000000010007e0000000002001cc0000000004001cc0 ~36 11223344 ~417
# G with the gains 104, 96, 3, 85: 4 steps up on the left, where 255 wraps, and 5 down on the right.
G_LOUDER_LOWER = fffb9000 0000000800340000000001000600000000002000060000000004001540 ~36 11223344 ~417
# What the value of `Title` in ROOM and FILLED is.
ROOM_VALUE = 78*1048466

# What an undo makes of gains.

# gains that wrapped at the top
< a G_WRAPPED_UP UNDO_FRONT '-001,-001,W' UNDO_END
$ gain -u a o
> o G

# gains that wrapped at the bottom
< a G_WRAPPED_DOWN UNDO_FRONT '+101,+101,W' UNDO_END
$ gain -u a o
> o G

# gains that wrap now
< a G UNDO_FRONT '+999,-999,W' UNDO_END
$ gain -u a o
> o G_FAR

# the channels by their own steps
< a G_LOUDER_LOWER UNDO_FRONT '-004,+005,W' UNDO_END
$ gain -u a o
> o G

# no step
< a G UNDO_FRONT '+000,-000,N' UNDO_END
$ gain -u a o
> o G

# silent granules
< a Z UNDO_FRONT '+999,-999,N' UNDO_END
$ gain -u a o
> o Z

# The same of each kind of file.

# MPEG-1, one channel, which is the left one
< a MONO_LOWER UNDO_FRONT '+005,-999,N' UNDO_END
$ gain -u a o
> o MONO

# MPEG-2, two channels
< a LOWER_QUIETER UNDO_FRONT '+005,+005,N' UNDO_END
$ gain -u a o
> o LOWER

# MPEG-2, one channel, protected
< a M_LOUDER UNDO_FRONT '-001,-001,N' UNDO_END
$ gain -u a o
> o M

# MPEG-2.5
< a LOWEST_LOUDER UNDO_FRONT '-001,-001,N' UNDO_END
$ gain -u a o
> o LOWEST

# MPEG-1, two channels, protected
< a PROTECTED_G_LOWER UNDO_FRONT '+005,+005,N' UNDO_END
$ gain -u a o
> o PROTECTED_G

# joint stereo
< a JOINT UNDO_FRONT '+005,-005,N' UNDO_END
$ gain -u a o
> o JOINT

# The same of tags and of what else is in a file.

# the item alone goes, with a key in other letters
< a G_LOWER THREE_FRONT '+005,+005,N' THREE_END
$ gain -u a o
> o G TWO_ITEMS

# a tag at the front
< a THREE_FRONT '+005,+005,N' THREE_END G_LOWER
$ gain -u a o
> o TWO_ITEMS G

# a tag that would have no item goes, before a block
< a ID3V2_BLOCK G_LOWER UNDO_FRONT '+005,+005,N' UNDO_END ID3V1_BLOCK
$ gain -u a o
> o ID3V2_BLOCK G ID3V1_BLOCK

# two tags, of which the second stays
< a G_LOWER UNDO_FRONT '+005,+005,N' UNDO_END UNDO_FRONT '+007,+007,N' UNDO_END
$ gain -u a o
> o G UNDO_FRONT '+007,+007,N' UNDO_END

# a head, zero bytes, and junk, which is dropped
< a ID3V2_BLOCK 00*2 55*10 HEAD G_LOWER PROTECTED_G_LOWER 00*3 THREE_FRONT '+005,+005,N' THREE_END
$ gain -u a o
> o ID3V2_BLOCK 00*2 HEAD G PROTECTED_G 00*3 TWO_ITEMS

# lost frames, which stay
< a LOST G_LOWER LONG_LOWER UNDO_FRONT '+005,+005,N' UNDO_END
$ gain -u a o
> o LOST G LONG

# and is full no more
< a G_LOWER FILLED ROOM_VALUE FILLED_BACK
room 2000000
$ gain -u a o
> o G ROOM ROOM_VALUE ROOM_BACK
";
