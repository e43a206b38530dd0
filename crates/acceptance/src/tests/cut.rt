//! Frames that are cut out, with the lead-ins that they need. The bytes were worked out by hand
//! from the standard's tables.

pub static ROWS: &str = "
# cut

# How lengths, areas, main_data_begin, Info frames and their tables come about is said in `names`. A
# frame that is cut out needs a lead-in where its main data don't fit in its own area. The lead-in
# is the shortest frame whose area has the bytes that are missing, and main data begin where that
# area does, so main_data_begin becomes the length of the area.

# SECOND with main data from 68 bytes before its own area on, so 332 in that: 68 is 000100010, 2200.
SECOND_FROM_68 = fffb9000 22000320003200000000640006400000000c8000c800000001900019 ~36 55*332 ~417
# A lead-in of 32 kbit/s, whose area of 68 bytes has main data of the frame behind it: of SECOND,
# which needs 400 - 381, 19 bytes.
LEAD_IN = fffb1000 ~36 55*68 ~104
# The fields in front of the table of an Info frame: 208 + 104 + 417 bytes. In the table are
# 256 * 208 / 729, 49 (hex), and 256 * 312 / 729, 6d.
TWO_OF_729 = 'Xing' 0000000f00000002000002d9
# SECOND at 160 kbit/s, where all its main data stand in its own area of 486 bytes.
SECOND_AT_160 = fffba000 00000320003200000000640006400000000c8000c800000001900019 ~36 55*400 ~522
# MPEG-2, one channel, 24,000 Hz, 8 kbit/s, with an area of 11 bytes.
SMALL = fff314c0 ~24
# The same with an area full of main data of a later frame: it is as silent.
SMALL_FULL = fff314c0 ~13 55*11 ~24
# 1,600 bits of main data, 200 bytes, which begin 189 bytes before its own area.
SMALL_LAST = fff314c0 bd32000190 ~13 55*11 ~24
# The same where they begin 227 bytes before it, where the area of the lead-in does. They end 27
# bytes before it, so its own area has none.
SMALL_FROM_227 = fff314c0 e332000190 ~24
# A lead-in of 80 kbit/s with an area of 227 bytes. 189 are needed, and the next lower slot, of 64
# kbit/s with padding, has 180.
SMALL_LEAD_IN = fff394c0 ~13 55*200 ~240
# The same where the first 189 of the bytes are 0.
SMALL_LEAD_IN_OF_0 = fff394c0 ~202 55*11 ~240

# Frames cut out.

# It has 400 bytes of main data and an area of 381.
# a frame that needs a lead-in
< a A
$ cut a 1 2 o
> o INFO_FRONT TWO_OF_729 49*50 6d*50 INFO_REST LEAD_IN SECOND_FROM_68

# the same with the least bit rate: 208 + 522 bytes, and 256 * 208 / 730 gives 48 (hex)
< a A
$ cut --least a 1 2 o
> o INFO_FRONT 'Info' 0000000f00000001000002da 48*100 INFO_REST SECOND_AT_160

# all frames, which keep their bit rates
< a A
$ cut a 0 2 o
> o INFO_FRONT TWO_OF_1042 33*50 99*50 INFO_REST FIRST SECOND

# A frame lasts 1,152 / 44,100, 2.6 hundredths of a second.
# by times: 256 * 208 / 625 gives 55 (hex)
< a Z Z
$ cut a 0.0.02 0.0.04 o
> o INFO_FRONT 'Info' 0000000f0000000100000271 55*100 INFO_REST Z

# A frame whose main data begin far back: 200 bytes, of which 11 are in its own area, so 189 before
# it, in the areas of 18 of the 29 silent frames before it. Of 720 bytes 433 are made: an Info frame
# of 169 (4 + 9 + 156 of one channel, and 56 kbit/s have 168 and 1 padded), 240 and 24. In the table
# are 256 * 169 / 433, 63 (hex), and 256 * 409 / 433, f1.

< a SMALL*29 SMALL_LAST
$ cut a 29 30 o
> o fff376c0 00*9 'Xing' 0000000f00000002000001b1 63*50 f1*50 00*40 SMALL_LEAD_IN_OF_0 SMALL_FROM_227

# the same with bytes that aren't 0 in these 18 areas
< a SMALL*11 SMALL_FULL*18 SMALL_LAST
$ cut a 29 30 o
> o fff376c0 00*9 'Xing' 0000000f00000002000001b1 63*50 f1*50 00*40 SMALL_LEAD_IN SMALL_FROM_227

# An Info frame of 64 kbit/s with its table of 100 entries, `Xing`, since the bit rates differ. Then
# a lead-in of 32 kbit/s, with an area of 68, and the second frame, whose main data begin 68 bytes
# before its own area.
SECOND_ALONE = INFO_FRONT 'Xing' 0000000f00000002000002d9 49*50 6d*50 INFO_REST fffb1000 00*32 22*68 fffb9000 22000c80 00*28 22*332 00*49

# the second frame
< a TWO_FRAMES
to b
$ cut a 1 EOF b
> b SECOND_ALONE

# A range without a frame is refused, and leaves what was written before.
< a TWO_FRAMES
to b
$ cut a 1 EOF b
$ cut a EOF EOF b
! 1 range 2 to 2 of 2 frames
> b SECOND_ALONE

# Classes of MPEG-1. The first frame of each file leaves the end of its area to the second, as one
# of 396 bytes with 300 leaves 96, which is the second's main_data_begin: 001100000, 300 with three
# more bits. The Info frame of one channel needs 4 + 17 + 156 bytes, 177, and 56 kbit/s have 182;
# that of 48 kHz 192, as many as 64 kbit/s have; that of 32 kHz gets 216 of 48 kbit/s.

# MPEG-1, 44,100 Hz, one channel, with an area of 396 bytes: 300 bytes of main data, and behind them
# 96 of the frame behind it.
MONO_0 = fffb90c0 000012c000c800000002580019 ~21 55*396 ~417
# 400 bytes of main data, which begin 96 bytes before its own area.
MONO_1 = fffb90c0 3000190000c800000003200019 ~21 55*304 ~417
# A lead-in: 4 bytes are needed, 400 - 396, and 32 kbit/s has 83.
MONO_LEAD_IN = fffb10c0 ~21 55*83 ~104
# MONO_1 behind it: 83 is 001010011, 298 with three more bits, and 317 are in its own area.
MONO_MOVED = fffb90c0 2980190000c800000003200019 ~21 55*317 ~417
# MPEG-1, 48,000 Hz, two channels, with an area of 348 bytes: 300 bytes of main data, and behind
# them 48 of the frame behind it.
AT_48_KHZ_0 = fffb9400 000002580032000000004b000640000000096000c8000000012c0019 ~36 55*348 ~384
# 380 bytes of main data, which begin 48 bytes before its own area.
AT_48_KHZ_1 = fffb9400 180002f80032000000005f0006400000000be000c8000000017c0019 ~36 55*332 ~384
# A lead-in: 32 bytes are needed, 380 - 348, and 32 kbit/s has 60.
AT_48_KHZ_LEAD_IN = fffb1400 ~36 55*60 ~96
# AT_48_KHZ_1 behind it.
AT_48_KHZ_MOVED = fffb9400 1e0002f80032000000005f0006400000000be000c8000000017c0019 ~36 55*320 ~384
# MPEG-1, 32,000 Hz, two channels, with an area of 540 bytes: 500 bytes of main data, and behind
# them 40 of the frame behind it.
AT_32_KHZ_0 = fffb9800 000003e80032000000007d0006400000000fa000c800000001f40019 ~36 55*540 ~576
# 560 bytes of main data, which begin 40 bytes before its own area.
AT_32_KHZ_1 = fffb9800 140004600032000000008c000640000000118000c800000002300019 ~36 55*520 ~576
# A lead-in: 20 bytes are needed, 560 - 540, and 32 kbit/s has 108.
AT_32_KHZ_LEAD_IN = fffb1800 ~36 55*108 ~144
# AT_32_KHZ_1 behind it.
AT_32_KHZ_MOVED = fffb9800 360004600032000000008c000640000000118000c800000002300019 ~36 55*452 ~576
# MPEG-1, 44,100 Hz, joint stereo with all other bits of the header set, with an area of 381 bytes:
# 300 bytes of main data, and behind them 81 of the frame behind it.
JOINT_0 = fffb916f 000002580032000000004b000640000000096000c8000000012c0019 ~36 55*381 ~417
# 400 bytes of main data, which begin 81 bytes before its own area.
JOINT_1 = fffb916f 28800320003200000000640006400000000c8000c800000001900019 ~36 55*319 ~417
# A lead-in: 19 bytes are needed, 400 - 381, and 32 kbit/s has 68.
JOINT_LEAD_IN = fffb116f ~36 55*68 ~104
# JOINT_1 behind it.
JOINT_MOVED = fffb916f 22000320003200000000640006400000000c8000c800000001900019 ~36 55*332 ~417

# MPEG-1, 44,100 Hz, one channel: 182 + 104 + 417 bytes
< a MONO_0 MONO_1
$ cut a 1 2 o
> o fffb40c0 00*17 'Xing' 0000000f00000002000002bf 42*50 68*50 00*45 MONO_LEAD_IN MONO_MOVED

# MPEG-1, 48,000 Hz, two channels: 192 + 96 + 384 bytes
< a AT_48_KHZ_0 AT_48_KHZ_1
$ cut a 1 2 o
> o fffb5400 00*32 'Xing' 0000000f00000002000002a0 49*50 6d*50 00*40 AT_48_KHZ_LEAD_IN AT_48_KHZ_MOVED

# MPEG-1, 32,000 Hz, two channels: 216 + 144 + 576 bytes
< a AT_32_KHZ_0 AT_32_KHZ_1
$ cut a 1 2 o
> o fffb3800 00*32 'Xing' 0000000f00000002000003a8 3b*50 62*50 00*64 AT_32_KHZ_LEAD_IN AT_32_KHZ_MOVED

# MPEG-1, 44,100 Hz, joint stereo with all other bits of the header set
< a JOINT_0 JOINT_1
$ cut a 1 2 o
> o fffb516f 00*32 'Xing' 0000000f00000002000002d9 49*50 6d*50 00*56 JOINT_LEAD_IN JOINT_MOVED

# Classes of MPEG-2 and MPEG-2.5, where main_data_begin is the first byte of the side information:
# 57 (hex) is 87, as 187 - 100. The Info frame of two channels needs 177 bytes, that of one channel
# 169.

# MPEG-2, 22,050 Hz, two channels, with an area of 208 - 4 - 17 bytes, 187: 100 bytes of main data,
# and behind them 87 of the frame behind it.
LOWER_0 = fff38000 00064000c8000000000c800190 ~21 55*187 ~208
# 200 bytes of main data, which begin 87 bytes before its own area.
LOWER_1 = fff38000 570c8000c80000000019000190 ~21 55*113 ~208
# A lead-in: 13 bytes are needed, 200 - 187, and 16 kbit/s has 52 - 21, 31.
LOWER_LEAD_IN = fff32000 ~21 55*31 ~52
# LOWER_1 behind it.
LOWER_MOVED = fff38000 1f0c8000c80000000019000190 ~21 55*169 ~208
# MPEG-2.5, 11,025 Hz, two channels, with an area of 187 bytes: 100 bytes of main data, and behind
# them 87 of the frame behind it.
LOWEST_0 = ffe34000 00064000c8000000000c800190 ~21 55*187 ~208
# 200 bytes of main data, which begin 87 bytes before its own area.
LOWEST_1 = ffe34000 570c8000c80000000019000190 ~21 55*113 ~208
# A lead-in: 13 bytes are needed, and 8 kbit/s has 52 - 21, 31.
LOWEST_LEAD_IN = ffe31000 ~21 55*31 ~52
# LOWEST_1 behind it.
LOWEST_MOVED = ffe34000 1f0c8000c80000000019000190 ~21 55*169 ~208
# MPEG-2.5, 12,000 Hz, one channel, with an area of 35 bytes: 20 bytes of main data, and behind them
# 15 of the frame behind it.
LOWEST_MONO_0 = ffe314c0 0005000190 ~13 55*35 ~48
# 40 bytes of main data, which begin 15 bytes before its own area.
LOWEST_MONO_1 = ffe314c0 0f0a000190 ~13 55*25 ~48
# A lead-in: 5 bytes are needed, 40 - 35, and 8 kbit/s has 35.
LOWEST_MONO_LEAD_IN = ffe314c0 ~13 55*35 ~48
# LOWEST_MONO_1 behind it.
LOWEST_MONO_MOVED = ffe314c0 230a000190 ~13 5555555555 ~48

# MPEG-2, 22,050 Hz, two channels: 182 + 52 + 208 bytes
< a LOWER_0 LOWER_1
$ cut a 1 2 o
> o fff37000 00*17 'Xing' 0000000f00000002000001ba 69*50 87*50 00*45 LOWER_LEAD_IN LOWER_MOVED

# MPEG-2.5, 11,025 Hz, two channels: 208 + 52 + 208 bytes
< a LOWEST_0 LOWEST_1
$ cut a 1 2 o
> o ffe34000 00*17 'Xing' 0000000f00000002000001d4 71*50 8e*50 00*71 LOWEST_LEAD_IN LOWEST_MOVED

# MPEG-2.5, 12,000 Hz, one channel: 192 + 48 + 48 bytes, all frames of 8 kbit/s
< a LOWEST_MONO_0 LOWEST_MONO_1
$ cut a 1 2 o
> o ffe344c0 00*9 'Info' 0000000f0000000200000120 aa*50 d5*50 00*63 LOWEST_MONO_LEAD_IN LOWEST_MONO_MOVED

# Check words are renewed.

# A lead-in: 68 bytes are needed, 447 - 379, and 32 kbit/s has 68. It has no check word, so that its
# area has two bytes more than one with a check word would have.
WORD_LEAD_IN = fffb1000 ~36 55*68 ~104
# WORD_1 behind it.
WORD_MOVED = fffa9000 fe68 2200037e0032000000006fc006400000000df800c800000001bf0019 ~38 55*379 ~417

# cut out
< a WORD_0 WORD_1
$ cut a 1 2 o
> o INFO_FRONT 'Xing' 0000000f00000002000002d9 49*50 6d*50 00*56 WORD_LEAD_IN WORD_MOVED

# Where tags are in a file whose main data are laid anew.

# An ID3v2 block of 12 bytes.
OTHER_ID3V2 = 'ID3' 030000000000027879

# other tags in front go behind the frames
< a APE ID3V1_BLOCK ID3V2_BLOCK Z Z
$ cut a 0 1 o
> o ID3V2_BLOCK INFO_FRONT ONE_OF_625 55*100 INFO_REST Z APE ID3V1_BLOCK

# ID3v2 behind a frame, and behind all frames, goes behind the frames
< a Z ID3V2_BLOCK Z APE OTHER_ID3V2
$ cut a 1 2 o
> o INFO_FRONT ONE_OF_625 55*100 INFO_REST Z ID3V2_BLOCK APE OTHER_ID3V2

# The head isn't a frame, and isn't written again.
# ID3v2 behind a head goes behind the frames
< a OTHER_ID3V2 ID3V2_BLOCK HEAD OTHER_ID3V2 Z
$ cut a 0 1 o
> o OTHER_ID3V2 ID3V2_BLOCK INFO_FRONT ONE_OF_625 55*100 INFO_REST Z OTHER_ID3V2

# What is refused. Nothing is created.

< a A
$ cut a EOF EOF o
! 1 range 2 to 2 of 2 frames

< a A
$ cut a 0 3 o
! 1 range 0 to 3 of 2 frames

< a A
$ cut a 1 1 o
! 1 range 1 to 1 of 2 frames

< a A
$ cut --least a 2 1 o
! 1 range 2 to 1 of 2 frames

# No frame ends so early.
< a A
$ cut a 0.0 0.0.02 o
! 1 range 0 to 0 of 2 frames

< a A
$ cut a 0 1 a
! 1 a: input is an output

< a A
$ cut x 0 1 o
! 3 x: absent
- x

# Calls of the outside that fail.

# Want of memory comes before the output is created.

< u A
$ cut u 0 2 o
> o INFO_FRONT TWO_OF_1042 33*50 99*50 INFO_REST FIRST SECOND

# The second write is that of the frames, so the Info frame is there before it.
< u A
fail Write 2
$ cut u 0 2 o
! 3 o: write fault
> o INFO_FRONT TWO_OF_1042 33*50 99*50 INFO_REST

# Each call fails in turn.

< u A
$ cut u 0 2 o
> o INFO_FRONT TWO_OF_1042 33*50 99*50 INFO_REST FIRST SECOND
each Find 1 u: read fault
each Read 2 u: read fault
each Create 1 o: write fault
each Write 2 o: write fault

< u A
$ cut u 1 2 o
> o INFO_FRONT TWO_OF_729 49*50 6d*50 INFO_REST LEAD_IN SECOND_FROM_68
each Find 1 u: read fault
each Read 2 u: read fault
each Create 1 o: write fault
each Write 1 o: write fault

# Each call fails in turn.
< u A
$ cut --least u 1 2 o
> o INFO_FRONT 'Info' 0000000f00000001000002da 48*100 INFO_REST SECOND_AT_160
each Find 1 u: read fault
each Read 2 u: read fault
each Create 1 o: write fault
each Write 1 o: write fault

# A long file, of which neither what is read nor what is written is held whole: 208 + 1,000 * 417
# are 417,208 bytes.

< h G*1000
room 417208
$ cut h 0 1000 o
> o INFO_FRONT 'Info' 0000000f000003e800065db8 000205070a0c0f121417191c1e212326292b2e303335383a3d404245474a4c4f525457595c5e616366696b6e707375787a7d808285878a8c8f919497999c9ea1a3a6a9abaeb0b3b5b8babdc0c2c5c7cacccfd1d4d7d9dcdee1e3e6e8ebeef0f3f5f8fafd INFO_REST G_FIRST G_SECOND G_AMONG*996 G_LAST*2
each Read 1 after 65536 h: read fault
";
