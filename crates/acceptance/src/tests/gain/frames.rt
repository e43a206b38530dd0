//! What a change of gains makes of frames, byte for byte: all gains, gains that wrap, and one
//! channel alone. The side information was worked out by hand.

pub static ROWS: &str = "
# gain/frames

# G with the gains 103, 101, 2, 90: 3 steps up on the left, and 255 wraps.
G_LEFT_WRAPPED = fffb9000 0000000800338000000001000650000000002000040000000004001680 ~36 11223344 ~417
# G with the gains 100, 96, 255, 85: 5 steps down on the right.
G_RIGHT_LOWER = fffb9000 0000000800320000000001000600000000002001fe0000000004001540 ~36 11223344 ~417
# The same with the text of a head.
JOINT_HEAD = fffb9040 ~36 'Info' ~417

# Gains move and all else stays.

< g G
$ gain -s s -g -5 g o
> o G_LOWER

< g G_LOWER
$ gain -s s -g +5 g o
> o G

< g G
$ gain -s s -g 0 g o
> o G

< g Z
$ gain -s s -g 5 g o
> o Z

< g LEFT_ALONE
$ gain -s s -g 55 g o
> o LEFT_ALONE_LOUDER

< g PADDED
$ gain -s s -g -5 g o
> o PADDED_LOWER

< g MONO
$ gain -s s -g -5 g o
> o MONO_LOWER

# Frames with full areas, at other frequencies, of MPEG-2, and with check words.

< g FULL
$ gain -s s -g 1 g o
> o FULL_LOUDER

< g G_AT_48_KHZ
$ gain -s s -g -5 g o
> o G_AT_48_KHZ_LOWER

< g G_AT_32_KHZ
$ gain -s s -g -5 g o
> o G_AT_32_KHZ_LOWER

< g LOWER
$ gain -s s -g -5 g o
> o LOWER_QUIETER

< g PROTECTED_LOWER_QUIETER
$ gain -s s -g 5 g o
> o PROTECTED_LOWER

< g PROTECTED_G
$ gain -s s -g -5 g o
> o PROTECTED_G_LOWER

< g PROTECTED_Z
$ gain -s s -g 5 g o
> o PROTECTED_Z

# Frames of other lengths and gains.

< g LONG QUIET Z PROTECTED_G PADDED G
$ gain -s s -g -5 g o
> o LONG_LOWER QUIETER Z PROTECTED_G_LOWER PADDED_LOWER G_LOWER

# Gains out of range. The first number in a line is the place of the frame: after a padded one 418.

< g G Z
$ gain -s s -g 1 g o
! 1 gain 255 out of range at 0, granule 1, channel 0

< g LOUD G
$ gain -s s -g 2 g o
! 1 gain 254 out of range at 0, granule 0, channel 1

< g PADDED G
$ gain -s s -g 1 g o
! 1 gain 255 out of range at 418, granule 1, channel 0

< g G LOW
$ gain -s s -g -5 g o
! 1 gain 4 out of range at 417, granule 1, channel 1

< g Z G
$ gain -s s -g -255 g o
! 1 gain 100 out of range at 417, granule 0, channel 0

< g LOWER_QUIETER LOWER
$ gain -s s -g 56 g o
! 1 gain 200 out of range at 209, granule 0, channel 1

# An output that was there holds only the new bytes.

< g G
< o 55*1000
< other 'kept'
$ gain -s s -g -5 g o
> o G_LOWER

# Gains wrap and one channel changes.

< g G
$ gain -s s -w -g 1 g o
> o G_WRAPPED_UP

< g G
$ gain -w -s s -g -101 g o
> o G_WRAPPED_DOWN

< g G_WRAPPED_UP
$ gain -w -s s -g -1 g o
> o G

< g Z G
$ gain -s s -w -l 0 3 g o
> o Z G_LEFT_WRAPPED

< g G
$ gain -s s -l 1 -5 g o
> o G_RIGHT_LOWER

< g G_RIGHT_LOWER
$ gain -w -s s -l 1 +5 g o
> o G

# A head is no frame of the stream.
< g JOINT_HEAD G
$ gain -s s -l 1 -5 g o
> o JOINT_HEAD G_RIGHT_LOWER

# Refused channels.

< g MONO
$ gain -s s -l 0 1 g o
! 1 one channel only

< g G Z JOINT JOINT
$ gain -s s -w -l 1 1 g o
! 1 joint stereo at 834

# A silent frame alone.
< z JOINT
$ gain -s s -l 1 2 z o
! 1 joint stereo at 0

# Before a gain that would leave its range.
< g G JOINT
$ gain -s s -l 0 1 g o
! 1 joint stereo at 417

< g G
$ gain -s s -l 0 1 g o
! 1 gain 255 out of range at 0, granule 1, channel 0

# Behind a fault of the bytes.
< g JOINT MONO
$ gain -s s -l 0 1 g o
! 1 g: mixed class at 417
";
