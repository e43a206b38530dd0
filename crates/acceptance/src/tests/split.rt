//! Files that are split at positions, and by a cue sheet; each piece is what `cut` writes for the
//! same frames, and was worked out by hand.

pub static ROWS: &str = "
# split

# How lengths, areas, main_data_begin, Info frames and their tables come about is said in `names`,
# and of lead-ins in `cut`.

# Frame 0 of four silent ones. It leaves its whole area of 381 bytes free, as the others do.
PIECE_1 = INFO_FRONT 'Info' 0000000f0000000100000271 55*100 INFO_REST Z
# The other three: 208 + 3 * 417 bytes.
PIECE_2 = INFO_FRONT 'Info' 0000000f00000003000005b3 24*34 6d*33 b6*33 INFO_REST Z Z_FROM_381 Z_FROM_511
# Four silent frames.
FOUR = Z Z Z Z

# Split at times. 5 hundredths of a second are 0.05 * 44,100 / 1,152, 1.9 frames.

< z FOUR
to p01.mp3 p02.mp3
$ split z p 0.0 0.00.05 EOF
> p01.mp3 PIECE_1
> p02.mp3 PIECE_2
- p03.mp3

# Twice two frames of MPEG-1, 44,100 Hz, 128 kbit/s, stereo, of 417 bytes with an area of 381. The
# first has 300 bytes of main data in its area; those of the second, 400, begin 81 bytes before its
# own.
TWICE_TWO = OF_300 11*300 22*81 OF_400 22*381 OF_300 33*300 44*81 OF_400 44*381
# A sheet of two tracks. The start of the second, at 2/75 second, is in the frame with number 1,
# since it is 1.02 frames.
SHORT_TRACKS = 'TRACK_01_AUDIO' 0a 'INDEX_01_00:00:00' 0a 'TRACK_02_AUDIO' 0a 'INDEX_01_00:00:02' 0a
# A lead-in of 32 kbit/s, up to its area of 68 bytes.
LEAD_IN_FRONT = fffb1000 00*32
# The frame with number 0, without the 81 bytes of the next.
FROM_0_TO_1 = INFO_FRONT 'Info' 0000000f0000000100000271 55*100 INFO_REST OF_300 11*300 00*81
# That with number 1 after a lead-in, from 68 bytes before its own area on: 332 of 400 bytes are in
# its area, and after them are 381 - 332, 49 of the next. 68 is 000100010, 2200.
FRAME_1_LED = LEAD_IN_FRONT 22*68 fffb9000 22000c80 00*28 22*332 33*49
# Those with the numbers 1 and 2: 208 + 104 + 2 * 417 bytes. 49 is 000110001, 1880, and 300 - 49 are
# 251.
FROM_1_TO_3 = INFO_FRONT 'Xing' 0000000f000000030000047a 2e*34 45*33 a2*33 INFO_REST FRAME_1_LED fffb9000 18800960 00*28 33*251 00*130
# That with number 3 after a lead-in.
FROM_3_TO_4 = INFO_FRONT 'Xing' 0000000f00000002000002d9 49*50 6d*50 INFO_REST LEAD_IN_FRONT 44*68 fffb9000 22000c80 00*28 44*332 00*49
# Those with the numbers 1 to 3: 208 + 104 + 3 * 417 bytes. The second leaves 381 - 251, 130 bytes,
# which is 010000010, 4100, and 400 - 130 are 270.
FROM_1_TO_4 = INFO_FRONT 'Xing' 0000000f000000040000061b 22*25 33*25 77*25 bb*25 INFO_REST FRAME_1_LED fffb9000 18800960 00*28 33*251 44*130 fffb9000 41000c80 00*28 44*270 00*111

# pieces
< a TWICE_TWO
to p01.mp3 p02.mp3 p03.mp3 c d e
$ split a p 0 1 3 EOF
$ cut a 0 1 c
$ cut a 1 3 d
$ cut a 3 4 e
> p01.mp3 FROM_0_TO_1
> p02.mp3 FROM_1_TO_3
> p03.mp3 FROM_3_TO_4
> c FROM_0_TO_1
> d FROM_1_TO_3
> e FROM_3_TO_4

# pieces of a sheet
< a TWICE_TWO
< sheet SHORT_TRACKS
to p01.mp3 p02.mp3 p03.mp3 c d
$ split a p -c sheet
$ cut a 0 1 c
$ cut a 1 4 d
> p01.mp3 FROM_0_TO_1
> p02.mp3 FROM_1_TO_4
> c FROM_0_TO_1
> d FROM_1_TO_4

# Split by a sheet.

# The second track begins at two seconds, which are 2 * 44,100 / 1,152, 76.6 frames.
TWO_TRACKS = 'FILE_\"a.mp3\"_MP3' 0a 'TRACK_01_AUDIO' 0a 'INDEX_01_00:00:00' 0a 'TRACK_02_AUDIO' 0a 'INDEX_01_00:02:00' 0a
# 76 silent frames: 208 + 76 * 417 bytes.
TRACK_1 = INFO_FRONT 'Info' 0000000f0000004c00007c9c 010105080b0b0f121515191c1f1f232629292d303333373a3d414144474b4b4e515555585c5f5f626669696c707373767a7d808084878a8a8e919494989b9e9ea2a5a8a8acafb3b3b6b9bdc0c0c3c7cacacdd1d4d4d7dbdedee1e5e8e8ebeff2f2f5f9fc INFO_REST Z Z_FROM_381 Z_FROM_511*74
# 24 silent frames: 208 + 24 * 417 bytes.
TRACK_2 = INFO_FRONT 'Info' 0000000f00000018000027e8 05050505050f0f0f0f1a1a1a1a242424242f2f2f2f3939393943434343434e4e4e4e58585858636363636d6d6d6d7878787882828282828d8d8d8d97979797a1a1a1a1acacacacb6b6b6b6c1c1c1c1c1cbcbcbcbd6d6d6d6e0e0e0e0ebebebebf5f5f5f5 INFO_REST Z Z_FROM_381 Z_FROM_511*22
# 100 silent frames.
HUNDRED = Z*100
# As many as stand before the second track.
BEFORE_TRACK_2 = Z*76

< z HUNDRED
< s TWO_TRACKS
to p01.mp3 p02.mp3
$ split z p -c s
> p01.mp3 TRACK_1
> p02.mp3 TRACK_2
- p03.mp3

# Behind `-n`: no piece is written where one of those that would be is there, and the first of these is
# named. Other names that pieces may have aren't asked for.

# A at frame 1: 208 + 417, 625 bytes, and 208 + 104 + 417, 729 bytes. The lead-in has the first 68 of the
# 400 bytes of SECOND, so main_data_begin is 68.
A_FROM_0 = INFO_FRONT ONE_OF_625 55*100 INFO_REST FIRST_ALONE
A_FROM_1 = INFO_FRONT 'Xing' 0000000f00000002000002d9 49*50 6d*50 INFO_REST fffb1000 ~244 55*68 ~312 fffb9000 22000320003200000000640006400000000c8000c800000001900019 ~348 55*332 ~729

< a A
< p02.mp3 'kept'
to p01.mp3
$ -n split a p 0 1 2
! 1 p02.mp3: exists

< a A
< p01.mp3 'kept'
< p02.mp3 'kept'
$ -n split a p 0 1 2
! 1 p01.mp3: exists

< a A
< p03.mp3 'kept'
< p99.mp3 'kept'
< p2.mp3 'kept'
< p 'kept'
to p01.mp3 p02.mp3
$ -n split a p 0 1 2
> p01.mp3 A_FROM_0
> p02.mp3 A_FROM_1

# By a sheet of two tracks.

< z HUNDRED
< s TWO_TRACKS
< p02.mp3 'kept'
to p01.mp3
$ -n split z p -c s
! 1 p02.mp3: exists

< z HUNDRED
< s TWO_TRACKS
< p03.mp3 'kept'
to p01.mp3 p02.mp3
$ -n split z p -c s
> p01.mp3 TRACK_1
> p02.mp3 TRACK_2

# None of the names that pieces may have can be an input, whether or not it is asked for.
< p07.mp3 A
to p01.mp3 p02.mp3
$ -n split p07.mp3 p 0 1 2
! 1 p07.mp3: input is an output

# Refused splits.

# Each of the 99 names that pieces may have, also of those that are not written.
< p99.mp3 FOUR
to p01.mp3 p02.mp3
$ split p99.mp3 p 0.0 0.00.05 EOF
! 1 p99.mp3: input is an output

< p01.mp3 FOUR
to p01.mp3 p02.mp3
$ split p01.mp3 p 0.0 0.00.05 EOF
! 1 p01.mp3: input is an output

< z FOUR
to p01.mp3 p02.mp3
$ split z p 0 5
! 1 range 0 to 5 of 4 frames

< z FOUR
to p01.mp3 p02.mp3
$ split z p 0 2 2 4
! 1 range 2 to 2 of 4 frames

< z FOUR
to p01.mp3 p02.mp3
$ split z p 0 1 EOF EOF
! 1 range 4 to 4 of 4 frames

# places out of order
< a TWICE_TWO
to p01.mp3 p02.mp3
$ split a p 0 2 2
! 1 range 2 to 2 of 4 frames

< a TWICE_TWO
to p01.mp3 p02.mp3
$ split a p 0 5 2
! 1 range 0 to 5 of 4 frames

# Names that pieces may have are refused before any file is looked for.
$ split p99.mp3 p 0 EOF
! 1 p99.mp3: input is an output
- p99.mp3

$ split p00.mp3 p -c p99.mp3
! 1 p99.mp3: input is an output
- p99.mp3

$ split p00.mp3 p -c p100.mp3
! 3 p00.mp3: absent
- p00.mp3
- p100.mp3

# Refused sheets.

# The second track begins where the file ends.
< z BEFORE_TRACK_2
< s TWO_TRACKS
to p01.mp3 p02.mp3
$ split z p -c s
! 1 range 76 to 76 of 76 frames

< z HUNDRED
< s 'FILE_\"a.mp3\"_MP3' 0a 'TRACK_01_AUDIO' 0a 'INDEX_01_00:60:00' 0a 'TRACK_02_AUDIO' 0a 'INDEX_01_00:02:00' 0a
to p01.mp3 p02.mp3
$ split z p -c s
! 1 s: bad line 3

< z HUNDRED
< s 'FILE_\"a.mp3\"_MP3' 0a 'TRACK_01_AUDIO' 0a 'INDEX_01_00:00:00' 0a 'TRACK_02_AUDIO' 0a 'INDEX_01_00:00:00' 0a
to p01.mp3 p02.mp3
$ split z p -c s
! 1 s: not rising at line 5

< z HUNDRED
< s 'FILE_\"a.mp3\"_MP3' 0a
to p01.mp3 p02.mp3
$ split z p -c s
! 1 s: no tracks

< z HUNDRED
< s 0a*65537
to p01.mp3 p02.mp3
$ split z p -c s
! 1 s: sheet too large, 65537 bytes

# the longest sheet
< a TWICE_TWO
< sheet 20*65536
to p01.mp3 p02.mp3
$ split a p -c sheet
! 1 sheet: no tracks

# a byte more
< a TWICE_TWO
< sheet 20*65537
to p01.mp3 p02.mp3
$ split a p -c sheet
! 1 sheet: sheet too large, 65537 bytes

# a bad line
< a TWICE_TWO
< sheet 0a 'TRACK_1'
to p01.mp3 p02.mp3
$ split a p -c sheet
! 1 sheet: bad line 2

# Absent files of a split. The input is looked at before the sheet.

< z FOUR
< s TWO_TRACKS
to p01.mp3 p02.mp3
$ split x p -c y
! 3 x: absent
- x
- y

< z FOUR
< s TWO_TRACKS
to p01.mp3 p02.mp3
$ split z p -c y
! 3 y: absent
- y

# no sheet
< a TWICE_TWO
to p01.mp3 p02.mp3
$ split a p -c sheet
! 3 sheet: absent
- sheet

# Calls of the outside that fail.

# The second piece can't be created.
< a TWICE_TWO
to p01.mp3 p02.mp3
fail Create 2
$ split a p 0 1 EOF
! 3 p02.mp3: write fault
> p01.mp3 FROM_0_TO_1

# Each line names the file of the call that failed.
< z FOUR
to p01.mp3 p02.mp3
$ split z p 0.0 0.00.05 EOF
> p01.mp3 PIECE_1
> p02.mp3 PIECE_2
each Find 1 z: read fault
each Read 2 z: read fault
each Create 2 p01.mp3: write fault, p02.mp3: write fault
each Write 4 p01.mp3: write fault, p01.mp3: write fault, p02.mp3: write fault

# Behind `-n` all questions come before the first piece is created.
< a A
to p01.mp3 p02.mp3
$ -n split a p 0 1 2
> p01.mp3 A_FROM_0
> p02.mp3 A_FROM_1
each There 2 p01.mp3: write fault, p02.mp3: write fault
each Create 2 p01.mp3: write fault, p02.mp3: write fault

< a A
to p01.mp3 p02.mp3
fail There 2
$ -n split a p 0 1 2
! 3 p02.mp3: write fault

< a A
to p01.mp3 p02.mp3
fail Create 2
$ -n split a p 0 1 2
! 3 p02.mp3: write fault
> p01.mp3 A_FROM_0

# Each line names the file of the call that failed. The survey comes first, and then the sheet.
< z HUNDRED
< s TWO_TRACKS
to p01.mp3 p02.mp3
$ split z p -c s
> p01.mp3 TRACK_1
> p02.mp3 TRACK_2
each Find 2 z: read fault, s: read fault
each Read 3 z: read fault, s: read fault, z: read fault
each Create 2 p01.mp3: write fault, p02.mp3: write fault
each Write 4 p01.mp3: write fault, p01.mp3: write fault, p02.mp3: write fault

# A long file, of which neither what is read nor what is written is held whole.

# Half of a file of a thousand frames, 208 + 500 * 417, 208,708 bytes.
HALF = INFO_FRONT 'Info' 0000000f000001f400032f44 000205070a0d0f121417191c1e212426292b2e303335383b3d404245474a4c4f525457595c5e616366696b6e707375787b7d808285878a8c8f929497999c9ea1a3a6a9abaeb0b3b5b8babdc0c2c5c7cacccfd1d4d7d9dcdee1e3e6e8ebeef0f3f5f8fafd INFO_REST G_FIRST G_SECOND G_AMONG*496 G_LAST*2

# The first piece is whole then, and of the second 65,536 bytes at least were written while the
# input was still read: 274,244 together.
< h G*1000
to p01.mp3 p02.mp3
room 208708
$ split h p 0 500 EOF
> p01.mp3 HALF
> p02.mp3 HALF
each Read 1 after 274244 h: read fault
";
