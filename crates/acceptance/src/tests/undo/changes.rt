//! Several changes that are undone at once.

pub static ROWS: &str = "
# undo/changes

TWO_CHANNELS = G Z PROTECTED_G
PADDED_LAST = G PADDED
TAGGED = G LONG TWO_ITEMS ID3V1_BLOCK
TAG_IN_FRONT = TWO_ITEMS G
UNTAGGED = ID3V2_BLOCK 00*2 HEAD G 00*3 ID3V1_BLOCK
LOWER_FILE = LOWER PROTECTED_LOWER
M_FILE = M M_LOUDER
LOWEST_FILE = LOWEST
LOST_FIRST = LOST G
# All gains 100: 300 bytes of main data, and 400 that begin 81 bytes before the area of the second
# frame.
AT_100 = FIRST SECOND
# The same with all gains 103.
AT_103 = fffb9000 000002580033800000004b000670000000096000ce000000012c0019c0 ~36 55*381 fffb9000 28800320003380000000640006700000000c8000ce00000001900019c0 000000 55*319 ~834

# Three changes are undone at once.

# both channels
< a TWO_CHANNELS
to b c d o
$ gain -g -5 a b
$ gain -g 3 b c
$ gain -g -88 c d
$ gain -u d o
> o TWO_CHANNELS
~ b TWO_CHANNELS
~ c TWO_CHANNELS
~ d TWO_CHANNELS

# each channel, and gains that wrap in the midst
< a PADDED_LAST
to b c d o
$ gain -l 0 -5 a b
$ gain -w -g 255 b c
$ gain -l 1 -3 c d
$ gain -u d o
> o PADDED_LAST
~ b PADDED_LAST
~ c PADDED_LAST
~ d PADDED_LAST

# a tag with other items and an ID3v1 block
< a TAGGED
to b c d o
$ gain -g -1 a b
$ gain -w -g 1 b c
$ gain -g -2 c d
$ gain -u d o
> o TAGGED
~ b TAGGED
~ c TAGGED
~ d TAGGED

# a tag at the front
< a TAG_IN_FRONT
to b c d o
$ gain -g -1 a b
$ gain -l 0 1 b c
$ gain -g -2 c d
$ gain -u d o
> o TAG_IN_FRONT
~ b TAG_IN_FRONT
~ c TAG_IN_FRONT
~ d TAG_IN_FRONT

# no tag, an ID3v1 block and zero bytes
< a UNTAGGED
to b c d o
$ gain -g -1 a b
$ gain -g -1 b c
$ gain -l 1 2 c d
$ gain -u d o
> o UNTAGGED
~ b UNTAGGED
~ c UNTAGGED
~ d UNTAGGED

# MPEG-2
< a LOWER_FILE
to b c d o
$ gain -g -5 a b
$ gain -w -g 100 b c
$ gain -l 1 3 c d
$ gain -u d o
> o LOWER_FILE
~ b LOWER_FILE
~ c LOWER_FILE
~ d LOWER_FILE

# MPEG-2, one channel
< a M_FILE
to b c d o
$ gain -g -5 a b
$ gain -w -g 200 b c
$ gain -g -9 c d
$ gain -u d o
> o M_FILE
~ b M_FILE
~ c M_FILE
~ d M_FILE

# MPEG-2.5
< a LOWEST_FILE
to b c d o
$ gain -g 155 a b
$ gain -w -g 1 b c
$ gain -w -g 255 c d
$ gain -u d o
> o LOWEST_FILE
~ b LOWEST_FILE
~ c LOWEST_FILE
~ d LOWEST_FILE

# lost frames
< a LOST_FIRST
to b c d o
$ gain -g -5 a b
$ gain -g 3 b c
$ gain -g -88 c d
$ gain -u d o
> o LOST_FIRST
~ b LOST_FIRST
~ c LOST_FIRST
~ d LOST_FIRST

# Main data that begin in the frame before: the tag has what is left to undo after each change.
< a AT_100
to b c d
$ gain -g 3 a b
$ gain -g -5 b c
$ gain -u c d
> b AT_103 UNDO_FRONT '-003,-003,N' UNDO_END
> c A_AT_98 UNDO_FRONT '+002,+002,N' UNDO_END
> d AT_100

# The same files without any change.

# both channels
< a TWO_CHANNELS
to b
$ gain -u a b
! 1 no undo item

# each channel, and gains that wrap in the midst
< a PADDED_LAST
to b
$ gain -u a b
! 1 no undo item

# a tag with other items and an ID3v1 block
< a TAGGED
to b
$ gain -u a b
! 1 no undo item

# a tag at the front
< a TAG_IN_FRONT
to b
$ gain -u a b
! 1 no undo item

# no tag, an ID3v1 block and zero bytes
< a UNTAGGED
to b
$ gain -u a b
! 1 no undo item

# MPEG-2
< a LOWER_FILE
to b
$ gain -u a b
! 1 no undo item

# MPEG-2, one channel
< a M_FILE
to b
$ gain -u a b
! 1 no undo item

# MPEG-2.5
< a LOWEST_FILE
to b
$ gain -u a b
! 1 no undo item

# lost frames
< a LOST_FIRST
to b
$ gain -u a b
! 1 no undo item

# main data that begin in the frame before
< a AT_100
to b
$ gain -u a b
! 1 no undo item
";
