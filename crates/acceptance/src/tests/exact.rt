//! Exact pieces: the frames for some samples, with the delay and the padding by which players play
//! exactly these samples.

pub static ROWS: &str = "
# exact

# What is said in `names` and in the text of `cut` holds here too. A frame of MPEG-1 has 1,152
# positions, one of MPEG-2 and MPEG-2.5 576. A piece from position p on and before position q has the
# frames from that in which p - 1,056 is, or the first, to that in which q - 1 is; a lead-in is before
# them where p is below 529, also if their main data have room without one. The delay in its Info
# frame is how far p is from the beginning of its frames, the lead-in among them, less 529; the
# padding how far q is from their end, and 529. Both have 12 bits: 623 and 529 are 26f and 211 (hex),
# so 26f211. The music length is the number of bytes of the file. The last two bytes are the
# CRC-16/ARC of those before them, as another program than ours gives it.

# The extension up to the numbers, where no encoder wrote it that says them.
LAME = 'LAME' 00*17
# The same of a head that `names` doesn't have.
LAME_3_100 = 'LAME3.100' 11*12
# A lead-in without main data.
SILENT_LEAD_IN = fffb1000 ~104
# A lead-in whose area has 68 bytes of main data of the frame behind it.
FULL_LEAD_IN = fffb1000 ~36 55*68 ~104
# FIRST behind it: its main data begin 68 bytes before its own area, 000100010 with seven more bits,
# and 232 of the 300 bytes are in that.
FIRST_FROM_68 = fffb9000 220002580032000000004b000640000000096000c8000000012c0019 ~36 55*232 ~417
# The same with 149 bytes of the next frame behind its own, so that the area is full.
FILLED_FROM_68 = fffb9000 220002580032000000004b000640000000096000c8000000012c0019 ~36 55*381 ~417
# SECOND behind that: 149 is 010010101, 4a80. The other 251 of the 400 bytes are in its own area.
SECOND_FROM_149 = fffb9000 4a800320003200000000640006400000000c8000c800000001900019 ~36 55*251 ~417
# SECOND behind a lead-in alone.
SECOND_FROM_68 = fffb9000 22000320003200000000640006400000000c8000c800000001900019 ~36 55*332 ~417
# The fields of three frames, 208 + 104 + 417 + 417 bytes, and their table: 256 * 208 / 1,146 gives
# 46, 2e (hex), 256 * 312 / 1,146 69, and 256 * 729 / 1,146 162.
THREE_OF_1146 = 'Xing' 0000000f000000030000047a 2e*34 45*33 a2*33
# Those of a lead-in and a frame, 729 bytes, as in the text of `cut`.
TWO_OF_729 = 'Xing' 0000000f00000002000002d9 49*50 6d*50
# Those of FIRST and SECOND, or of two silent frames.
BOTH = TWO_OF_1042 33*50 99*50

# Files without a head, of which all positions are played.

# p is 1,152, and 1,152 - 1,056 is in frame 0; the delay is 1,152 - 529, 623.
# the second frame's samples
< a A
$ cut --exact a 1 2 o
> o INFO_FRONT BOTH 00*4 LAME 26f211 00*4 00000412 0000 8a70 00*16 FIRST SECOND

# p is 0, so a lead-in is before the frames: the delay is 1,152 - 529.
WHOLE = INFO_FRONT THREE_OF_1146 00*4 LAME 26f211 00*4 0000047a 0000 cf7d 00*16 FULL_LEAD_IN FILLED_FROM_68 SECOND_FROM_149
# all of it
< a A
$ cut --exact a 0 EOF o
> o WHOLE

# Times of hundredths are samples 882 and 1,323, before frames 0 and 2 end: 882 - 529 is 353, 161
# (hex), and 2,304 - 1,323 + 529 is 1,510, 5e6.
FROM_882 = INFO_FRONT BOTH 00*4 LAME 1615e6 00*4 00000412 0000 385f 00*16 FIRST SECOND
< a A
$ cut --exact a 0.00.02 0.00.03 o
> o FROM_882

# Samples 441 to 882 with a lead-in: 1,152 + 441 - 529 is 1,064, 428, and 1,152 - 882 + 529 is 799,
# 31f.
# one frame
< a A
$ cut --exact a 0.00.01 0.00.02 o
> o INFO_FRONT TWO_OF_729 00*4 LAME 42831f 00*4 000002d9 0000 bd86 00*16 FULL_LEAD_IN FIRST_FROM_68

# 0.13 s are 5,733 samples, and 5,733 - 1,056 is in frame 4, which needs a lead-in for its main data:
# 1,152 + 5,733 - 4 * 1,152 - 529 is 1,748, 6d4.
# a lead-in that the main data want
< r Z*3 A
$ cut --exact r 0.00.13 EOF o
> o INFO_FRONT TWO_OF_729 00*4 LAME 6d4211 00*4 000002d9 0000 b827 00*16 FULL_LEAD_IN SECOND_FROM_68

# Places among the samples. A frame of A ends 26.1 ms after it begins.

# samples
< a A
$ cut --exact a 1152samples 2304samples o
> o INFO_FRONT BOTH 00*4 LAME 26f211 00*4 00000412 0000 8a70 00*16 FIRST SECOND

# so long before the end, which is before the start
< a A
$ cut --exact a EOF-1.0 EOF o
> o WHOLE

# 20 ms are 882 samples, and 10 ms 441: samples 1,422 to 1,863. 893 is 37d, and 970 is 3ca.
FROM_1422 = INFO_FRONT BOTH 00*4 LAME 37d3ca 00*4 00000412 0000 00bd 00*16 FIRST SECOND
# hundredths before the end
< a A
$ cut --exact a EOF-0.00.02 EOF-0.00.01 o
> o FROM_1422

# thousandths before the end
< a A
$ cut --exact a EOF-0.0.020 EOF-0.0.010 o
> o FROM_1422

# 5 ms are 220.5 samples: 1,152 + 220 - 529 is 843, 34b.
FROM_220 = INFO_FRONT THREE_OF_1146 00*4 LAME 34b211 00*4 0000047a 0000 2245 00*16 FULL_LEAD_IN FILLED_FROM_68 SECOND_FROM_149
# thousandths
< a A
$ cut --exact a 0.0.005 EOF o
> o FROM_220

# 2,304 - 220 - 529 is 1,555, 613.
FROM_2084 = INFO_FRONT BOTH 00*4 LAME 613211 00*4 00000412 0000 4c86 00*16 FIRST SECOND
# a part of a sample before the end
< a A
$ cut --exact a EOF-0.0.005 EOF o
> o FROM_2084

# a sample and a time
< a A
$ cut --exact a 882samples 0.00.030 o
> o FROM_882

# 1,585 - 1,056 is 529, so the whole warm-up is in the frames: 1,056 is 420, and 2,304 - 1,586 + 529
# is 1,247, 4df.
# one sample
< a A
$ cut --exact a 1585samples 1586samples o
> o INFO_FRONT BOTH 00*4 LAME 4204df 00*4 00000412 0000 4c7c 00*16 FIRST SECOND

# Seconds are a decimal number: 0.02s is 20 ms, as 0.020s is.

< a A
$ cut --exact a 0.02s 0.03s o
> o FROM_882

# as many digits as there may be
< a A
$ cut --exact a 000000.020s 000000.03s o
> o FROM_882

< a A
$ cut --exact a 0.005s EOF o
> o FROM_220

# before the end
< a A
$ cut --exact a EOF-0.005s EOF o
> o FROM_2084

< a A
$ cut --exact a EOF-0.02s EOF-0.01s o
> o FROM_1422

# before the start
< a A
$ cut --exact a EOF-1s EOF o
> o WHOLE

# none
< a A
$ cut --exact a 0s EOF-0s o
> o WHOLE

# Samples 0 to 2,205: 2,304 - 2,205 + 529 is 628, 274 (hex). The last part of 0.0.5 is hundredths.
< a A
to o r
$ cut --exact a 0 0.05s o
$ cut --exact a 0 0.0.5 r
> o INFO_FRONT THREE_OF_1146 00*4 LAME 26f274 00*4 0000047a 0000 0292 00*16 FULL_LEAD_IN FILLED_FROM_68 SECOND_FROM_149
> r INFO_FRONT THREE_OF_1146 00*4 LAME 26f274 00*4 0000047a 0000 0292 00*16 FULL_LEAD_IN FILLED_FROM_68 SECOND_FROM_149

# Files with a head that counts: 4 frames, 2,085 bytes, the quality 57, the delay 576, 240 (hex), and
# the padding 720, 2d0. Positions 1,105 to 4,417 are played, 3,312 samples.

K_FRONT = fffb9000 ~36 'Info' 0000000f0000000400000825 00*100 00000039
K = K_FRONT LAME_3_100 2402d0 22*12 ~417 Z*4
# Its four frames behind an Info frame: 208 + 4 * 417 are 1,876 bytes, of which 256 * 208 / 1,876 are
# 28, 1c (hex), and so on.
FOUR_OF_1876 = 'Info' 0000000f0000000400000754 1c*25 55*25 8e*25 c7*25
FOUR = Z Z_FROM_381 Z_FROM_511 Z_FROM_511

# The frames are as they were, so both numbers are too.
# all of it
< k K
$ cut --exact k 0 EOF o
> o INFO_FRONT FOUR_OF_1876 00000039 LAME_3_100 2402d0 22*4 00000754 0000 304a 00*16 FOUR

# Samples 1,323 to 2,205 are positions 2,428 to 3,310, in frame 2, and 1,056 before in frame 1: 2,428
# - 1,152 - 529 is 747, 2eb (hex), and 3,456 - 3,310 + 529 is 675, 2a3. What is cut from a piece as
# a whole is the piece again.
# some of it, and all of that
< k K
to o r
$ cut --exact k 0.00.03 0.00.05 o
$ cut --exact o 0 EOF r
> o INFO_FRONT BOTH 00000039 LAME_3_100 2eb2a3 22*4 00000412 0000 1c9c 00*16 Z Z_FROM_381
> r INFO_FRONT BOTH 00000039 LAME_3_100 2eb2a3 22*4 00000412 0000 1c9c 00*16 Z Z_FROM_381

# The delay 1,679, 68f (hex): position 2,208 is the first, and the whole frame 0 is before 1,152. The
# new delay is 2,208 - 1,152 - 529, 527. Of 208 + 3 * 417 bytes 36 of 256 are before the first frame.
# a delay by which a frame isn't needed
< k K_FRONT LAME_3_100 68f2d0 22*12 ~417 Z*4
$ cut --exact k 0 EOF o
> o INFO_FRONT 'Info' 0000000f00000003000005b3 24*34 6d*33 b6*33 00000039 LAME_3_100 20f2d0 22*4 000005b3 0000 2f28 00*16 Z Z_FROM_381 Z_FROM_511

# one less
< k K_FRONT LAME_3_100 68e2d0 22*12 ~417 Z*4
$ cut --exact k 0 EOF o
> o INFO_FRONT FOUR_OF_1876 00000039 LAME_3_100 68e2d0 22*4 00000754 0000 c227 00*16 FOUR

# Players play to the end of the last frame at most.
# the padding 100
< k K_FRONT LAME_3_100 240064 22*12 ~417 Z*4
$ cut --exact k 0 EOF o
> o INFO_FRONT FOUR_OF_1876 00000039 LAME_3_100 240211 22*4 00000754 0000 cfb2 00*16 FOUR

# Played are 4,608 - 1,105 samples.
# more frames are counted than there are
< k fffb9000 ~36 'Info' 0000000f0000000500000825 00*100 00000039 LAME_3_100 2402d0 22*12 ~417 Z*4
$ cut --exact k EOF EOF o
! 1 range 3503 to 3503 of 3503 samples

# fewer are counted
< k fffb9000 ~36 'Info' 0000000f0000000300000825 00*100 00000039 LAME_3_100 2402d0 22*12 ~417 Z*4
$ cut --exact k EOF EOF o
! 1 range 3503 to 3503 of 3503 samples

# no frame is counted
< k fffb9000 ~36 'Info' 0000000f0000000000000825 00*100 00000039 LAME_3_100 2402d0 22*12 ~417 Z*4
$ cut --exact k EOF EOF o
! 1 range 4608 to 4608 of 4608 samples

# heads that count by other encoders
< k K_FRONT 'Lavf59.27' 11*12 2402d0 22*12 ~417 Z*4
$ cut --exact k EOF EOF o
! 1 range 3312 to 3312 of 3312 samples

< k K_FRONT 'Lavc59.37' 11*12 2402d0 22*12 ~417 Z*4
$ cut --exact k EOF EOF o
! 1 range 3312 to 3312 of 3312 samples

# one that doesn't
< k K_FRONT 'GOGO59.27' 11*12 2402d0 22*12 ~417 Z*4
$ cut --exact k EOF EOF o
! 1 range 4608 to 4608 of 4608 samples

# nothing but the quality is kept of it
< k K_FRONT 'GOGO59.27' 11*12 2402d0 22*12 ~417 Z*4
$ cut --exact k 1 EOF o
> o INFO_FRONT FOUR_OF_1876 00000039 LAME 26f211 00*4 00000754 0000 116c 00*16 FOUR

# 4,095 + 529 is after the last position.
# nothing is played
< k K_FRONT LAME_3_100 fff2d0 22*12 ~417 Z*4
$ cut --exact k 0 1 o
! 1 range 0 to 1152 of 0 samples

# Other classes.

# MPEG-2.5, 8,000 Hz, one channel, 8 kbit/s: an area of 59 bytes, 3b (hex); two are 118, 76. The Info
# frame has 144 bytes in 16 kbit/s, and 216 in 24.
EIGHT = ffe318c0 ~72
EIGHT_FROM_59 = ffe318c0 3b ~72
# MPEG-2, 22,050 Hz, one channel, 8 kbit/s: an area of 13 bytes, 0d; two are 26, 1a. The Info frame
# has 182 bytes.
SMALL = fff310c0 ~26
SMALL_FROM_13 = fff310c0 0d ~26

# 576 - 529 is 47, 02f.
# MPEG-2.5 with a lead-in: 216 + 3 * 72 bytes
< m EIGHT EIGHT
$ cut --exact m 0 EOF o
> o ffe338c0 00*9 'Info' 0000000f00000003000001b0 80*34 aa*33 d5*33 00*4 LAME 02f211 00*4 000001b0 0000 3ca7 00*47 EIGHT EIGHT_FROM_59 ffe318c0 76 00*67

# p is 576.
# without one: 216 + 2 * 72 bytes
< m EIGHT EIGHT
$ cut --exact m 1 EOF o
> o ffe338c0 00*9 'Info' 0000000f0000000200000168 99*50 cc*50 00*4 LAME 02f211 00*4 00000168 0000 351f 00*47 EIGHT EIGHT_FROM_59

# 10 ms are 220.5 samples: 576 + 220 - 529 is 267, 10b.
# MPEG-2: 182 + 3 * 26 bytes
< n SMALL SMALL
$ cut --exact n 0.00.01 EOF o
> o fff370c0 00*9 'Info' 0000000f0000000300000104 b3*34 cc*33 e6*33 00*4 LAME 10b211 00*4 00000104 0000 bb07 00*13 SMALL SMALL_FROM_13 fff310c0 1a 00*21

# The check word of a frame with the main_data_begin 11 is 50f1, by mp3check. One byte of main data is
# in the area of the lead-in, 11 bytes before the frame's own. The Info frame of 169 bytes has no byte
# behind the CRC, whose bytes before it are 167.
# MPEG-2 with a check word: 169 + 24 + 24 bytes
< m M
$ cut --exact m 0 1 o
> o fff376c0 00*9 'Info' 0000000f00000002000000d9 c7*50 e3*50 00*4 LAME 02f211 00*4 000000d9 0000 e1f0 fff314c0 ~182 aa ~193 fff214c0 50f1 0b00400190 ~217

# Lost frames are written as empty ones. Behind a lead-in the main data of such a frame could begin 68
# bytes before its area, and those of the next 449, 111000001 with seven more bits.

EMPTY_FROM_68 = fffb9000 2200 ~417
EMPTY_FROM_449 = fffb9000 e080 ~417
# The piece of a lost frame alone.
ONE_EMPTY = INFO_FRONT TWO_OF_729 00*4 LAME 26f211 00*4 000002d9 0000 cd81 00*16 SILENT_LEAD_IN EMPTY_FROM_68

# main data begin before all areas
< b SECOND
$ cut --exact b 0 1 o
> o ONE_EMPTY

# The area of the head isn't main data here: by the standard it is, and so it is for other commands.
# main data begin in the head
< b B
to o p
$ cut --exact b 0 EOF o
$ cut b 0 EOF p
> o ONE_EMPTY
> p INFO_FRONT TWO_OF_729 INFO_REST FULL_LEAD_IN SECOND_FROM_68

# Frames of 400 bytes of main data, which are 0 here as all of their areas. Their main_data_begin is
# 382, 363, 381, 362 and 400, each with seven more bits.
BACK_382 = fffb9000 bf000320003200000000640006400000000c8000c800000001900019 ~417
BACK_363 = fffb9000 b5800320003200000000640006400000000c8000c800000001900019 ~417
BACK_381 = fffb9000 be800320003200000000640006400000000c8000c800000001900019 ~417
BACK_362 = fffb9000 b5000320003200000000640006400000000c8000c800000001900019 ~417
BACK_400 = fffb9000 c8000320003200000000640006400000000c8000c800000001900019 ~417
# The same from 511, 449 and 430 bytes before their area on.
FROM_511 = fffb9000 ff800320003200000000640006400000000c8000c800000001900019 ~417
FROM_449 = fffb9000 e0800320003200000000640006400000000c8000c800000001900019 ~417
FROM_430 = fffb9000 d7000320003200000000640006400000000c8000c800000001900019 ~417
# 4 times 8 bits of main data, which begin in the head.
FAINT_IN_HEAD = fffb9000 be80000800320000000001000640000000002000c800000000040019 ~417
# The front of three frames behind a lead-in: 208 + 104 + 3 * 417 bytes.
FOUR_OF_1563 = INFO_FRONT 'Xing' 0000000f000000040000061b 22*25 33*25 77*25 bb*25 00*4 LAME 26f211 00*4 0000061b 0000 03b3 00*16 SILENT_LEAD_IN EMPTY_FROM_68

# The area of a silent frame has 381 bytes, so 382 is in the head, and 363 isn't.
# a lost frame behind a silent one
< w HEAD Z BACK_382 BACK_363
$ cut --exact w 0 EOF o
> o FOUR_OF_1563 EMPTY_FROM_449 FROM_511

# one byte less
< w HEAD Z BACK_381 BACK_362
$ cut --exact w 0 EOF o
> o FOUR_OF_1563 FROM_449 FROM_430

# 400 is more than 381 too, and 381 isn't more than 2 * 381.
# a lost frame behind a lost one
< w HEAD FAINT_IN_HEAD BACK_400 BACK_381
$ cut --exact w 0 EOF o
> o FOUR_OF_1563 EMPTY_FROM_449 FROM_511

# Its gains are 100, and it has no main data.
# a silent frame that points into the head is lost, and loses its gains
< w HEAD fffb9000 1400000000320000000000000640000000000000c8000000000000190000 ~834
$ cut --exact w 0 EOF o
> o ONE_EMPTY

# What is refused. Nothing is created.

< a A
$ cut --exact a 0 3 o
! 1 range 0 to 3456 of 2304 samples

< a A
$ cut --exact a 1 1 o
! 1 range 1152 to 1152 of 2304 samples

< a A
$ cut --exact a EOF EOF o
! 1 range 2304 to 2304 of 2304 samples

< a A
$ cut --exact a 0samples 2305samples o
! 1 range 0 to 2305 of 2304 samples

# the greatest number
< a A
$ cut --exact a 4294967295samples EOF o
! 1 range 4294967295 to 2304 of 2304 samples

< a A
$ cut --exact a EOF-0.0 EOF o
! 1 range 2304 to 2304 of 2304 samples

< a A
$ cut --exact a 0 EOF-1.0 o
! 1 range 0 to 0 of 2304 samples

# Seconds are times, and not samples: a second has 44,100.

< a A
$ cut --exact a 30s 60s o
! 1 range 1323000 to 2646000 of 2304 samples

< a A
$ cut --exact a 0 0.5s o
! 1 range 0 to 22050 of 2304 samples

< a A
$ cut --exact a 0 1.30s o
! 1 range 0 to 57330 of 2304 samples

< a A
$ cut --exact a 0 90.5s o
! 1 range 0 to 3991050 of 2304 samples

< a A
$ cut --exact a 44100samples 44100s o
! 1 range 44100 to 1944810000 of 2304 samples

< a A
$ cut --exact a 999999.999s EOF o
! 1 range 44099999955 to 2304 of 2304 samples

< a A
$ cut --exact a EOF-0s EOF o
! 1 range 2304 to 2304 of 2304 samples

# Names.

< a A
$ cut --exact a 0 1 a
! 1 a: input is an output

< a A
$ cut --exact x 0 1 o
! 3 x: absent
- x

# Tags are where those of a cut are.

< a APE ID3V1_BLOCK ID3V2_BLOCK SECOND
$ cut --exact a 0 1 o
> o ID3V2_BLOCK ONE_EMPTY APE ID3V1_BLOCK

# Each call of the outside fails in turn.

< u A
$ cut --exact u 0 EOF o
> o WHOLE
each Find 1 u: read fault
each Read 2 u: read fault
each Create 1 o: write fault
each Write 2 o: write fault

# the frame of the head is read too
< k K
$ cut --exact k 0 EOF o
> o INFO_FRONT FOUR_OF_1876 00000039 LAME_3_100 2402d0 22*4 00000754 0000 304a 00*16 FOUR
each Find 1 k: read fault
each Read 3 k: read fault
each Create 1 o: write fault
each Write 2 o: write fault

# A long file, of which neither what is read nor what is written is held whole: 208 + 104 + 1,000 *
# 417 are 417,312 bytes. The lead-in has the 8 bytes of the first two frames, so that 68 + 377 are
# free before the second, 445, which is de80 with seven more bits. Those of the others are 68 + 2 *
# 381 - 511 bytes behind the lead-in's beginning, 251 bytes into the area of a frame.
G_LEAD_IN = fffb1000 ~36 1122334411223344 ~104
G_FROM_68 = fffb9000 2200000800320000000001000650000000002001fe0000000004001680 ~287 11223344 ~417
G_FROM_445 = fffb9000 de80000800320000000001000650000000002001fe0000000004001680 ~287 11223344 ~417

< h G*1000
room 417312
$ cut --exact h 0 1000 o
> o INFO_FRONT 'Xing' 0000000f000003e900065e20 000205070a0c0f111416191c1e212326282b2d303335383a3d3f4245474a4c4f515456595c5e616366686b6d707375787a7d7f8284878a8c8f919496999b9ea1a3a6a8abadb0b3b5b8babdbfc2c4c7cacccfd1d4d6d9dbdee1e3e6e8ebedf0f2f5f8fafd 00*4 LAME 26f211 00*4 00065e20 0000 384a 00*16 G_LEAD_IN G_FROM_68 G_FROM_445 G_AMONG*996 G_LAST*2
each Read 1 after 65536 h: read fault

# Splits. A piece has the frames that it needs, so that neighbouring ones share some.

# Samples 0 to 2,205, and from there on: 2,304 - 2,205 + 529 is 628, 274 (hex), and 2,205 - 529 is
# 1,676, 68c.
TO_2205 = INFO_FRONT THREE_OF_1146 00*4 LAME 26f274 00*4 0000047a 0000 0292 00*16 SILENT_LEAD_IN EMPTY_FROM_68 EMPTY_FROM_449
FROM_2205 = INFO_FRONT FOUR_OF_1876 00*4 LAME 68c211 00*4 00000754 0000 19f1 00*16 FOUR
# at a time
< z Z*4
to p01.mp3 p02.mp3
$ split --exact z p 0.0 0.00.05 EOF
> p01.mp3 TO_2205
> p02.mp3 FROM_2205

# at samples
< z Z*4
to p01.mp3 p02.mp3
$ split --exact z p 0samples 2205samples EOF
> p01.mp3 TO_2205
> p02.mp3 FROM_2205

# at seconds
< z Z*4
to p01.mp3 p02.mp3
$ split --exact z p 0s 0.05s EOF
> p01.mp3 TO_2205
> p02.mp3 FROM_2205

# 441 samples before the end are position 3,976, 1,056 before in frame 2: 4,608 - 3,976 + 529 is
# 1,161, 489, and 3,976 - 2,304 - 529 is 1,143, 477.
# before the end of a file with a head
< k K
to p01.mp3 p02.mp3
$ split --exact k p 0samples EOF-0.0.010 3312samples
> p01.mp3 INFO_FRONT FOUR_OF_1876 00000039 LAME_3_100 240489 22*4 00000754 0000 a56d 00*16 FOUR
> p02.mp3 INFO_FRONT BOTH 00000039 LAME_3_100 4772d0 22*4 00000412 0000 b1a6 00*16 Z Z_FROM_381

# a frame that points into the head
< b B
to p01.mp3
$ split --exact b p 0 EOF
> p01.mp3 ONE_EMPTY

# Two seconds are 88,200 samples, in frame 76; 1,056 before is in frame 75. 77 * 1,152 - 88,200 + 529
# is 1,033, 409, and 88,200 - 75 * 1,152 - 529 is 1,271, 4f7.
TWO_TRACKS = 'FILE_\"a.mp3\"_MP3' 0a 'TRACK_01_AUDIO' 0a 'INDEX_01_00:00:00' 0a 'TRACK_02_AUDIO' 0a 'INDEX_01_00:02:00' 0a
# by a cue sheet
< z Z*100
< s TWO_TRACKS
to p01.mp3 p02.mp3
$ split --exact z p -c s
> p01.mp3 INFO_FRONT 'Xing' 0000000f0000004e00007ea5 0101020509090c0f121616191c20202326292d2d303337373a3d414444474a4e4e5154585b5b5e616565686b6f727275797c7f7f828689898c90939696999da0a0a3a7aaadadb0b4b7b7babec1c4c4c8cbceced1d5d8dbdbdfe2e5e5e8eceff2f2f6f9fc 00*4 LAME 26f409 00*4 00007ea5 0000 9945 00*16 SILENT_LEAD_IN EMPTY_FROM_68 EMPTY_FROM_449 Z_FROM_511*75
> p02.mp3 INFO_FRONT 'Info' 0000000f0000001900002989 050505050f0f0f0f19191919232323232d2d2d2d37373737414141414b4b4b4b555555555f5f5f5f69696969737373737d7d7d7d87878787919191919b9b9b9ba5a5a5a5afafafafb9b9b9b9c3c3c3c3cdcdcdcdd7d7d7d7e1e1e1e1ebebebebf5f5f5f5 00*4 LAME 4f7211 00*4 00002989 0000 fdb4 00*16 Z Z_FROM_381 Z_FROM_511*23

# Behind `-n` the names of the pieces are looked at, and no others.

# Samples 0 to 441 and 441 to 1,152 of A are in FIRST: 1,152 - 529 is 623, 26f (hex), and 1,152 - 441
# + 529 is 1,240, 4d8; 1,152 + 441 - 529 is 1,064, 428. The third piece is the second frame's samples.
< a A
< p04.mp3 'kept'
to p01.mp3 p02.mp3 p03.mp3
$ -n split --exact a p 0 0.00.01 1 EOF
> p01.mp3 INFO_FRONT TWO_OF_729 00*4 LAME 26f4d8 00*4 000002d9 0000 5a5b 00*16 FULL_LEAD_IN FIRST_FROM_68
> p02.mp3 INFO_FRONT TWO_OF_729 00*4 LAME 428211 00*4 000002d9 0000 964f 00*16 FULL_LEAD_IN FIRST_FROM_68
> p03.mp3 INFO_FRONT BOTH 00*4 LAME 26f211 00*4 00000412 0000 8a70 00*16 FIRST SECOND

< a A
< p03.mp3 'kept'
to p01.mp3 p02.mp3
$ -n split --exact a p 0 0.00.01 1 EOF
! 1 p03.mp3: exists

< z Z*100
< s TWO_TRACKS
< p02.mp3 'kept'
to p01.mp3
$ -n split --exact z p -c s
! 1 p02.mp3: exists

# 76 frames are 87,552 samples. Nothing is created.
< z Z*76
< s TWO_TRACKS
to p01.mp3 p02.mp3
$ split --exact z p -c s
! 1 range 0 to 88200 of 87552 samples

# The first piece is whole when the last read is made, and the second has 65,536 bytes at least:
# 274,348 together.
< h G*1000
to p01.mp3 p02.mp3
room 209125
$ split --exact h p 0 500 EOF
> p01.mp3 INFO_FRONT 'Xing' 0000000f000001f500032fac 000204070a0c0f111416191b1e212326282b2d303235383a3d3f4244474a4c4f515456595b5e616366686b6d707275787a7d7f828487898c8f919496999b9ea0a3a6a8abadb0b2b5b7babdbfc2c4c7c9ccced1d4d6d9dbdee0e3e5e8ebedf0f2f5f7fafc 00*4 LAME 26f211 00*4 00032fac 0000 bb54 00*16 G_LEAD_IN G_FROM_68 G_FROM_445 G_AMONG*496 G_LAST*2
> p02.mp3 INFO_FRONT 'Info' 0000000f000001f5000330e5 000205070a0d0f121417191c1e212326292b2e303335383a3d404245474a4c4f515457595c5e616366686b6e707375787a7d7f8284878a8c8f919496999b9ea1a3a6a8abadb0b2b5b8babdbfc2c4c7c9ccced1d4d6d9dbdee0e3e5e8ebedf0f2f5f7fafc 00*4 LAME 26f211 00*4 000330e5 0000 83a7 00*16 G_FIRST G_SECOND G_AMONG*497 G_LAST*2
each Read 1 after 274348 h: read fault

# Each call fails in turn, and each line names the file of the call that failed.

< a A
to p01.mp3 p02.mp3
$ split --exact a p 0 1 EOF
> p01.mp3 INFO_FRONT TWO_OF_729 00*4 LAME 26f211 00*4 000002d9 0000 cd81 00*16 FULL_LEAD_IN FIRST_FROM_68
> p02.mp3 INFO_FRONT BOTH 00*4 LAME 26f211 00*4 00000412 0000 8a70 00*16 FIRST SECOND
each Find 1 a: read fault
each Read 3 a: read fault
each Create 2 p01.mp3: write fault, p02.mp3: write fault
each Write 4 p01.mp3: write fault, p01.mp3: write fault, p02.mp3: write fault

# 2/75 s are 1,176 samples: 2,304 - 1,176 + 529 is 1,657, 679 (hex), and 1,176 - 529 is 647, 287. The
# survey comes first, and then the sheet.
< a A
< s 'TRACK_01_AUDIO' 0a 'INDEX_01_00:00:00' 0a 'TRACK_02_AUDIO' 0a 'INDEX_01_00:00:02' 0a
to p01.mp3 p02.mp3
$ split --exact a p -c s
> p01.mp3 INFO_FRONT THREE_OF_1146 00*4 LAME 26f679 00*4 0000047a 0000 6158 00*16 FULL_LEAD_IN FILLED_FROM_68 SECOND_FROM_149
> p02.mp3 INFO_FRONT BOTH 00*4 LAME 287211 00*4 00000412 0000 7a64 00*16 FIRST SECOND
each Find 2 a: read fault, s: read fault
each Read 4 a: read fault, s: read fault, a: read fault
each Create 2 p01.mp3: write fault, p02.mp3: write fault
each Write 4 p01.mp3: write fault, p01.mp3: write fault, p02.mp3: write fault

# Words that are refused.

< a A
to p01.mp3
$ split --exact a p 0
! 2 bad word 6

< a A
to p01.mp3
$ split -c --exact a p s
! 2 bad word 2
";
