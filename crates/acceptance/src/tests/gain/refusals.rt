//! What `gain` refuses in its words and in a file with a tag, and in which order; not what `gain
//! -u` refuses.

pub static ROWS: &str = "
# gain/refusals

NOTED = G UNDO_FRONT '+000,+000,N' UNDO_END
# What stands behind the header TOO_LONG, and what the value of `Title` in LONGEST is.
TOO_LONG_REST = 00*1048545
LONGEST_VALUE = 78*1048498
# A tag as LONGEST, of 1,048,545 bytes: an undo item of 32 bytes has one byte too few. The size is
# 1,048,513, 0fffc1 (hex), and the value has 46 bytes less, 0fff93.
NO_ROOM = 'APETAGEX' d0070000c1ff0f0001000000000000a0 00*8 93ff0f0000000000 'Title' 00
NO_ROOM_VALUE = 78*1048467
NO_ROOM_BACK = 'APETAGEX' d0070000c1ff0f000100000000000080 00*8

# Refusals in their order.

# one channel only
< a M
$ gain -l 0 1 a o
! 1 one channel only

# joint stereo
< a G JOINT
$ gain -l 1 2 a o
! 1 joint stereo at 417

# a gain out of range
< a G
$ gain -g 1 a o
! 1 gain 255 out of range at 0, granule 1, channel 0

# a fault of the frames before one of the tag
< a Z 'APETAGEX' d00700002000000001000000000000a0 00*8 00*32 78
$ gain -g 1 a o
! 1 a: lost synchronisation at 481

# a fault of the tag before one channel only
< a M 'APETAGEX' d00700002000000001000000000000a0 00*8 00*32
$ gain -l 0 1 a o
! 1 bad tag at 56

# a bad undo item before one channel only
< a M UNDO_FRONT '+000,+000,X' UNDO_END
$ gain -l 0 1 a o
! 1 bad undo item at 56

# a bad undo item before joint stereo
< a JOINT UNDO_FRONT '+000,+000,X' UNDO_END
$ gain -l 0 1 a o
! 1 bad undo item at 449

# one channel only before a sum
< a M UNDO_FRONT '+999,+999,N' UNDO_END
$ gain -l 0 -1 a o
! 1 one channel only

# joint stereo before a sum
< a JOINT UNDO_FRONT '+999,+999,N' UNDO_END
$ gain -l 0 -1 a o
! 1 joint stereo at 0

# a sum before a gain out of range
< a G UNDO_FRONT '-999,-999,N' UNDO_END
$ gain -g 1 a o
! 1 undo sum -1000 is out of range

# the left sum before the right one
< a G UNDO_FRONT '+996,+999,N' UNDO_END
$ gain -g -5 a o
! 1 undo sum 1001 is out of range

# the right sum alone
< a Z UNDO_FRONT '+999,+999,N' UNDO_END
$ gain -l 1 -255 a o
! 1 undo sum 1254 is out of range

# Tags at fault. In `Z` and a tag the header is at 417, the first item at 449, and one after an item
# of 15 bytes at 464.

# two items Title, the second of which isn't whole
< a Z 'APETAGEX' d00700003d00000002000000000000a0 00*8 01 00*7 'Title' 007801 00*7 'Title' 00 'APETAGEX' d00700003d0000000200000000000080 00*8
$ gain -g 0 a o
! 1 bad tag at 464

# a tag whose size leaves no byte but the footer's, which is zeros
< a Z 'APETAGEX' d007000020 00*10 a0 00*8 00*32
$ gain -g 0 a o
! 1 bad tag at 449

# a value of no byte
< a Z 'APETAGEX' d00700003500000001000000000000a0 00*16 'MP3GAIN' 5f 'UNDO' 00 'APETAGEX' d0070000350000000100000000000080 00*8
$ gain -g 0 a o
! 1 bad undo item at 449

# Tags that are too long, or would be: 1,048,544 + 32 are as long as a tag may be.

# too long, before one channel only
< a MONO TOO_LONG TOO_LONG_REST
room 2000000
$ gain -l 0 1 a o
! 1 tag too large, 1048577

# no room for an undo item
< a Z LONGEST LONGEST_VALUE LONGEST_BACK
room 2000000
$ gain -g 0 a o
! 1 tag too large, 1048608

# room for all but a byte, before a gain out of range
< a G NO_ROOM NO_ROOM_VALUE NO_ROOM_BACK
room 2000000
$ gain -g 1 a o
! 1 tag too large, 1048577

# one channel only, before no room
< a MONO NO_ROOM NO_ROOM_VALUE NO_ROOM_BACK
room 2000000
$ gain -l 1 1 a o
! 1 one channel only

# Equal names and an absent input.

< a NOTED
$ gain -g 1 a a
! 1 a: input is an output

< a NOTED
$ gain -g 1 x o
! 3 x: absent
- x

< a G
to b
fail Find 1
fail Read 1
fail Create 1
fail Write 1
$ gain -s s -g 5 a a
! 1 a: input is an output

< g G
$ gain -s s -g 5 a o
! 3 a: absent
- a

< g G
$ gain -s s -g 5 a a
! 1 a: input is an output
- a
";
