//! Files that fade, and that come back; the bytes were worked out by hand.

pub static ROWS: &str = "
# fade

# G, but that all four gains are 100.
AT_100 = fffb9000 0000000800320000000001000640000000002000c800000000040019 ~36 11223344 ~417
# 90.
AT_90 = fffb9000 00000008002d00000000010005a0000000002000b40000000004001680 ~36 11223344 ~417
# 94.
AT_94 = fffb9000 00000008002f00000000010005e0000000002000bc0000000004001780 ~36 11223344 ~417
# 96.
AT_96 = fffb9000 0000000800300000000001000600000000002000c000000000040018 ~36 11223344 ~417
# 97.
AT_97 = fffb9000 0000000800308000000001000610000000002000c20000000004001840 ~36 11223344 ~417
# 99.
AT_99 = fffb9000 0000000800318000000001000630000000002000c600000000040018c0 ~36 11223344 ~417
# 101.
AT_101 = fffb9000 0000000800328000000001000650000000002000ca0000000004001940 ~36 11223344 ~417
# Four frames at 100.
FLAT = AT_100 AT_100 AT_100 AT_100
# An APEv2 block of 76 bytes whose header has a count of two items, while there is one.
BAD_TAG = 'APETAGEX' d00700002c00000002000000000000a0 00*8 01 00*7 61620078 'APETAGEX' d00700002c0000000200000000000080 00*8

# Between points the steps are rounded toward zero: a third of -10 is -3, and two thirds are -6.

# down, and back
< a FLAT
< s '0_0' 0a '3_-10' 0a
to o b
$ fade a o s
$ fade --back o b s
> o AT_100 AT_97 AT_94 AT_90
> b FLAT

# from a step down to a step up: a third of a step is none
< a FLAT
< s '0_-1' 0a '3_1'
$ fade a o s
> o AT_99 AT_100 AT_100 AT_101

# the first point's steps before it, and the last one's from its own frame on
< a FLAT
< s '1_-3' 0a '2_1' 0a
$ fade a o s
> o AT_97 AT_97 AT_101 AT_101

# a byte order mark, a comment, a time and the end: six hundredths are 0.06 * 44,100 / 1,152, 2.3
# frames
< a FLAT
< s efbbbf '#_to_the_end' 0d 0a 0d 0a '_0.0.06_' 09 '+0' 0d 0a 09 'EOF_-8' 0d 0a
$ fade a o s
> o AT_100 AT_100 AT_100 AT_96

# What is in a file besides the frames whose gains move.

# lost and silent frames stay, and have numbers
< a LOST AT_100 Z AT_100
< s '0_200' 0a '1_-3' 0a '3_-6' 0a
to o b
$ fade a o s
$ fade --back o b s
> o LOST AT_97 Z AT_94
> b LOST AT_100 Z AT_100

# tags are neither read nor written
< a ID3V2 ID3V2_REST FLAT BAD_TAG ID3V1 ID3V1_REST
< s '0_-3'
$ fade a o s
> o ID3V2 ID3V2_REST AT_97 AT_97 AT_97 AT_97 BAD_TAG ID3V1 ID3V1_REST

# the head stays and has no number, and junk is left out
< a 55*10 HEAD FLAT
< s '0_0' 0a '3_-10' 0a
to o b
$ fade a o s
$ fade --back o b s
> o HEAD AT_100 AT_97 AT_94 AT_90
> b HEAD FLAT

# Kinds of frames.

# a check word
< a PROTECTED_G
< s '0_-5'
$ fade a o s
> o PROTECTED_G_LOWER

# one channel
< a MONO
< s '0_-5'
$ fade a o s
> o MONO_LOWER

# MPEG-2
< a LOWER
< s '0_-5'
$ fade a o s
> o LOWER_QUIETER

# 32 kHz: three and five hundredths are 0.03 * 32,000 / 1,152, 0.8, and 1.4 frames, so the points
# rise
< a G_AT_32_KHZ
< s '0.0.03_-5' 0a '0.0.05_1'
$ fade a o s
> o G_AT_32_KHZ_LOWER

# A line of four bytes, as if it were a frame, so that it can be repeated.
LINE = 3020310a ~4
# As many points as there may be, all at the same place.
MOST_POINTS = LINE*1000

# Gains out of range.

< a FLAT
< s '0_-101'
$ fade a o s
! 1 gain 100 out of range at 0, granule 0, channel 0

# 52, 104 and 156 steps up: the third one goes too far.
< a FLAT
< s '0_0' 0a '3_-156' 0a
$ fade --back a o s
! 1 gain 100 out of range at 1251, granule 0, channel 0

# Points that do not rise.

< a FLAT
< s '1_5' 0a '1_6'
$ fade a o s
! 1 s: not rising at line 2

# In front of any gain out of range.
< a FLAT
< s '1_255' 0a '1_6'
$ fade a o s
! 1 s: not rising at line 2

# Three and five hundredths are 1.1 and 1.9 frames.
< a FLAT
< s '0.0.03_-5' 0a '0.0.05_1'
$ fade a o s
! 1 s: not rising at line 2

# The end is the number of frames.
< a FLAT
< s '#_a_comment' 0a '3_0' 0a 'EOF_0' 0a 0a '4_1'
$ fade a o s
! 1 s: not rising at line 5

# The third line is no point, and the whole sheet is read in front of any place.
< a FLAT
< s '1_5' 0a '1_6' 0a '3'
$ fade a o s
! 1 s: bad line 3

# Sheets at fault.

< a FLAT
< s
$ fade a o s
! 1 s: no points

< a FLAT
< s '0_256'
$ fade a o s
! 1 s: bad line 1

< a FLAT
< s MOST_POINTS
$ fade a o s
! 1 s: not rising at line 2

# A point too many.
< a FLAT
< s MOST_POINTS 0a '0_1'
$ fade a o s
! 1 s: bad line 1002

< a FLAT
< s 0a*65536 30
$ fade a o s
! 1 s: sheet too large, 65537 bytes

< a FLAT
$ fade a o s
! 3 s: absent

# Names and the input.

< a FLAT
$ fade a a s
! 1 a: input is an output

# The sheet is the second input.
< a FLAT
$ fade --back a s s
! 1 s: input is an output

# The input is judged in front of the sheet.
$ fade a o s
! 3 a: absent

< a 00*5
$ fade a o s
! 1 a: no frame at 5

# Calls that read: the input of 400 silent frames, 166,800 bytes, is found and read to its end, then
# the sheet, and then the input again.

< g Z*400
< s '0_-5'
fail Find 2
$ fade g o s
! 3 s: read fault

< g Z*400
< s '0_-5'
fail Read 3
$ fade g o s
! 3 g: read fault

< g Z*400
< s '0_-5'
fail Read 4
$ fade g o s
! 3 s: read fault

# The input is read a second time, by 65,536, in the calls 5 to 7: what was read before the failing
# call is written, the 314 frames of 417 bytes that are whole in 131,072, so neither the input nor
# the output is held whole.
< g Z*400
< s '0_-5'
fail Read 7
$ fade g o s
! 3 g: read fault
> o Z*314

# 480 frames of 417 bytes: 200,160 bytes are written by the 157 frames that 65,536 hold whole.
< g G*480
< s '0_-5'
room 200160
$ fade g o s
> o G_LOWER*480
each Create 1 o: write fault
each Write 4 o: write fault

# The input is found and surveyed, then comes the sheet, and then the input once more.

< u G
< s '0_-5'
$ fade u o s
> o G_LOWER
each Find 2 u: read fault, s: read fault
each Read 3 u: read fault, s: read fault, u: read fault
each Create 1 o: write fault
each Write 1 o: write fault

< u G
< s '0_5'
$ fade --back u o s
> o G_LOWER
each Find 2 u: read fault, s: read fault
each Read 3 u: read fault, s: read fault, u: read fault
each Create 1 o: write fault
each Write 1 o: write fault

# 480 frames of 417 bytes are read by 65,536, in four calls for the survey and in four while the
# output is written.
< u G*480
< s '0_-5'
room 200160
$ fade u o s
> o G_LOWER*480
each Read 9 after 65536 u: read fault, u: read fault, u: read fault, u: read fault, s: read fault, u: read fault
";
