//! Stretches that are taken out of a file. The bytes were worked out from the standard's tables,
//! without the program that is tested.

pub static ROWS: &str = "
# remove

# What is said in `names` and in the texts of `cut`, `exact` and `seamless` holds here too. The
# frames that stay are one run. The first frame behind a stretch takes the least slot, from its own
# on, in which it and all up to the next stretch have room if 511 bytes are free before the run.
# Where none is great enough, the lead-in that these frames alone want stands before them, and all
# keep their slots.

# Side information behind the two bytes of main_data_begin: four times so many bits of main data,
# and all gains 100. All bytes of areas are 0 here, but the main data of FIRST and SECOND, 55, and
# those of G.
OF_758 = 02f60032000000005ec006400000000bd800c8000000017b0019
OF_762 = 02fa0032000000005f4006400000000be800c8000000017d0019
OF_768 = 0300003200000000600006400000000c0000c800000001800019
OF_782 = 030e00320000000061c006400000000c3800c800000001870019
OF_786 = 0312003200000000624006400000000c4800c800000001890019
OF_800 = 0320003200000000640006400000000c8000c800000001900019
OF_962 = 03c2003200000000784006400000000f0800c800000001e10019
OF_1758 = 06de003200000000dbc006400000001b7800c8000000036f0019
OF_1762 = 06e2003200000000dc4006400000001b8800c800000003710019
OF_2200 = 089800320000000113000640000000226000c8000000044c0019
OF_3020 = 0bcc003200000001798006400000002f3000c800000005e60019

# A lead-in of 32 kbit/s: 104 bytes, of which 68 are its area. The same with main data of the frame
# behind it in the whole area.
LEAD_IN = fffb1000 ~104
FULL_LEAD_IN = fffb1000 ~36 55*68 ~104
# Silent frames.
Z_49 = fffb9000 1880 ~417
Z_492 = fffb9000 f600 ~417
TWO_Z = Z Z_FROM_381
THREE_Z = Z Z_FROM_381 Z_FROM_511
FOUR_Z = Z Z_FROM_381 Z_FROM_511*2
FIVE_Z = Z Z_FROM_381 Z_FROM_511*3
# Frames of 400 bytes of main data, by their main_data_begin.
Y_19 = fffb9000 0980 OF_800 ~417
Y_30 = fffb9000 0f00 OF_800 ~417
Y_38 = fffb9000 1300 OF_800 ~417
Y_49 = fffb9000 1880 OF_800 ~417
Y_57 = fffb9000 1c80 OF_800 ~417
Y_68 = fffb9000 2200 OF_800 ~417
Y_76 = fffb9000 2600 OF_800 ~417
Y_95 = fffb9000 2f80 OF_800 ~417
Y_116 = fffb9000 3a00 OF_800 ~417
Y_305 = fffb9000 9880 OF_800 ~417
Y_324 = fffb9000 a200 OF_800 ~417
Y_343 = fffb9000 ab80 OF_800 ~417
Y_362 = fffb9000 b500 OF_800 ~417
Y_381 = fffb9000 be80 OF_800 ~417
Y_392 = fffb9000 c400 OF_800 ~417
Y_449 = fffb9000 e080 OF_800 ~417
Y_511 = fffb9000 ff80 OF_800 ~417
# SECOND behind its lead-in: 332 of the 400 bytes are in its own area.
SECOND_FROM_68 = fffb9000 22000320003200000000640006400000000c8000c800000001900019 ~36 55*332 ~417

# Fields of Info frames up to their table. Frames of 417 bytes: one, 625 bytes with the Info frame;
# two, 1,042; and so on.
ONE = ONE_OF_625 55*100
TWO = TWO_OF_1042 33*50 99*50
THREE = 'Info' 0000000f00000003000005b3 24*34 6d*33 b6*33
FOUR = 'Info' 0000000f0000000400000754 1c*25 55*25 8e*25 c7*25
FIVE = 'Info' 0000000f00000005000008f5 17*20 45*20 74*20 a2*20 d1*20
# A lead-in of 104 bytes before such frames.
LED_ONE = 'Xing' 0000000f00000002000002d9 49*50 6d*50
LED_TWO = 'Xing' 0000000f000000030000047a 2e*34 45*33 a2*33
LED_THREE = 'Xing' 0000000f000000040000061b 22*25 33*25 77*25 bb*25

# Stretches.

# the last frame but one: the two that stay are like the first two
< i Z Z Z
to o c
$ cut i 0 2 c
$ remove i o 1 2
> c INFO_FRONT TWO INFO_REST TWO_Z
> o INFO_FRONT TWO INFO_REST TWO_Z

# from the front, so that a lead-in stands before what stays
< a A
to o c
$ cut a 1 EOF c
$ remove a o 0 1
> c INFO_FRONT LED_ONE INFO_REST FULL_LEAD_IN SECOND_FROM_68
> o INFO_FRONT LED_ONE INFO_REST FULL_LEAD_IN SECOND_FROM_68

# 0.03 s are 1,323 samples, in frame 1.
# to the end
< a A
to o p q c
$ cut a 0 1 c
$ remove a o 1 2
$ remove a p 1 EOF
$ remove a q 0.00.03 EOF
> c INFO_FRONT ONE INFO_REST FIRST_ALONE
> o INFO_FRONT ONE INFO_REST FIRST_ALONE
> p INFO_FRONT ONE INFO_REST FIRST_ALONE
> q INFO_FRONT ONE INFO_REST FIRST_ALONE

# 0.05 s are 2,205 samples, in frame 1, and 0.1 s 4,410, in frame 3.
# stretches that touch are one
< i Z*6
to o p q
$ remove i o 1 3 3 4
$ remove i p 1 4
$ remove i q 0.00.05 0.00.10
> o INFO_FRONT THREE INFO_REST THREE_Z
> p INFO_FRONT THREE INFO_REST THREE_Z
> q INFO_FRONT FOUR INFO_REST FOUR_Z

# SECOND wants 19 bytes of what the silent frames leave. From 511 bytes before its area on, 251
# bytes into that of the second, 130 of its 400 bytes are there, and 270 in that of the third, so
# that 492 are free before the last: 111101100, f600.
SECOND_OF_THREE = fffb9000 be80 ~287 55*130
LAST_OF_THREE = fffb9000 ff80 ~36 55*270 ~417
SECOND_FROM_511 = fffb9000 ff800320003200000000640006400000000c8000c800000001900019 ~417
AROUND_FIRST = Z SECOND_OF_THREE LAST_OF_THREE SECOND_FROM_511 Z_492
# what stays is what a split and a join without seams make of it, and has no lead-in
< s Z*3 A Z
to p01.mp3 p02.mp3 p03.mp3 j o
$ split s p 0 3 4 6
$ remove s o 3 4
$ join --seamless j p01.mp3 p03.mp3
| p03.mp3: lead-in left out
> p01.mp3 INFO_FRONT THREE INFO_REST THREE_Z
> p02.mp3 INFO_FRONT ONE INFO_REST FIRST_ALONE
> p03.mp3 INFO_FRONT LED_TWO INFO_REST FULL_LEAD_IN SECOND_FROM_68 Z_49
> j INFO_FRONT FIVE INFO_REST AROUND_FIRST
> o INFO_FRONT FIVE INFO_REST AROUND_FIRST

# from the front, up to a frame that has main data there
< s Z*3 A Z
$ remove s o 0 4
> o INFO_FRONT LED_TWO INFO_REST FULL_LEAD_IN SECOND_FROM_68 Z_49

# As many stretches as there may be, each of one frame: 53 frames of 103 stay.
# fifty
< z Z*103
$ remove z o 0 1 2 3 4 5 6 7 8 9 10 11 12 13 14 15 16 17 18 19 20 21 22 23 24 25 26 27 28 29 30 31 32 33 34 35 36 37 38 39 40 41 42 43 44 45 46 47 48 49 50 51 52 53 54 55 56 57 58 59 60 61 62 63 64 65 66 67 68 69 70 71 72 73 74 75 76 77 78 79 80 81 82 83 84 85 86 87 88 89 90 91 92 93 94 95 96 97 98 99
> o INFO_FRONT 'Info' 0000000f0000003500005725 020207070b0b101015151a1a1f1f2323282d2d323237373b3b404045454a4a4e4e5358585d5d626266666b6b707075757a7a7e838388888d8d919196969b9ba0a0a5a5a9aeaeb3b3b8b8bdbdc1c1c6c6cbcbd0d0d4d9d9dedee3e3e8e8ececf1f1f6f6fb INFO_REST THREE_Z Z_FROM_511*50

# Greater slots behind a stretch, and a lead-in where none is great enough.

# A frame of 881 bytes in the 511 before its area and the 381 in it leaves 11 bytes, 000001011,
# 0580. 392 is 110001000, c400.

FULL_FROM_511 = fffb9000 ff80 OF_1762 ~417
BEFORE_FULL = Z Z_FROM_381 FULL_FROM_511
# 400 bytes want 389 of the area behind that, and 160 kbit/s have 522 - 36.
Y_AT_160 = fffba000 0580 OF_800 ~522
# 160 kbit/s
< x Z Z FULL_FROM_511 Z Y_392
$ remove x o 3 4
> o INFO_FRONT 'Xing' 0000000f00000004000007bd 1a*25 50*25 86*25 bc*25 INFO_REST BEFORE_FULL Y_AT_160

# 393 bytes want 382, one more than the area has. The bit rates are all alike.
OF_393_FROM_392 = fffb9000 c400 OF_786 ~417
PADDED_FROM_11 = fffb9200 0580 OF_786 ~418
# a padded slot
< x Z Z FULL_FROM_511 Z OF_393_FROM_392
$ remove x o 3 4
> o INFO_FRONT 'Info' 0000000f0000000400000755 1c*25 55*25 8e*25 c6*25 INFO_REST BEFORE_FULL PADDED_FROM_11

# 381 bytes in its own slot would leave 11, and the frame behind it wants 19; of 486 they leave 116,
# 001110100, 3a00.
AREA_FROM_392 = fffb9000 c400 OF_762 ~417
AREA_FROM_11 = fffb9000 0580 OF_762 ~417
AREA_AT_160 = fffba000 0580 OF_762 ~522
# room for the frames behind the first
< x Z Z FULL_FROM_511 Z AREA_FROM_392 Y_392
$ remove x o 3 4
> o INFO_FRONT 'Xing' 0000000f000000050000095e 16*20 42*20 6f*20 9b*20 d3*20 INFO_REST BEFORE_FULL AREA_AT_160 Y_116

# What the frame before the second stretch leaves is what all before it have left.
# two stretches, of which the second wants a greater slot
< x Z Z FULL_FROM_511 Z AREA_FROM_392 Z Y_511
$ remove x o 3 4 5 6
> o INFO_FRONT 'Xing' 0000000f000000050000095e 16*20 42*20 6f*20 9b*20 c8*20 INFO_REST BEFORE_FULL AREA_FROM_11 Y_AT_160

# At 320 kbit/s, 1,044 bytes, 1,510 bytes of main data leave 511 + 1,008 - 1,510, 9 bytes, 0480.
# 1,100 want 92 more than that area, and the greatest slot has one more. Their lead-in is that of 40
# kbit/s, 130 bytes: 9 + 94 are 103, 001100111, 3380.
Z_AT_320 = fffbe000 ~1044
FULL_AT_320 = fffbe000 ff80 OF_3020 ~1044
SILENT_FROM_9 = fffbe000 0480 ~1044
LEAD_IN_40_FROM_9 = fffb2000 0480 ~130
OF_1100_FROM_103 = fffbe000 3380 OF_2200 ~1044
OF_1100_FROM_511 = fffbe000 ff80 OF_2200 ~1044
AT_320 = Z_AT_320 FULL_AT_320 SILENT_FROM_9 OF_1100_FROM_511
# 208 + 3 * 1,044 + 130 bytes.
FOUR_OF_3470 = 'Xing' 0000000f0000000400000d8e 0f*25 5c*25 a9*25 b2*25
WITH_LEAD_IN = Z_AT_320 FULL_AT_320 LEAD_IN_40_FROM_9 OF_1100_FROM_103
# no slot is great enough
< q AT_320
$ remove q o 2 3
> o INFO_FRONT FOUR_OF_3470 INFO_REST WITH_LEAD_IN

# Lead-ins in front. They come where main data of any part would begin before all areas.

# The first frame fills its area, and the last wants 19 bytes of it.
AREA = fffb9000 0000 OF_762 ~417
AREA_FROM_68 = fffb9000 2200 OF_762 ~417
# what a later part wants
< b AREA Z Y_381
$ remove b o 1 2
> o INFO_FRONT LED_TWO INFO_REST LEAD_IN AREA_FROM_68 Y_68

# Each frame takes 19 bytes of the reservoir, so the lead-in of five has to have 95, and that of 40
# kbit/s, padded, has: 131 - 36. That of three has to have 57.
LONGER_LEAD_IN = fffb2200 ~131
# all of one part, and all of two
< d Z Y_381 Y_362 Y_343 Y_324 Y_305
to o p
$ remove d o 0 1
$ remove d p 0 1 2 4
> o INFO_FRONT 'Xing' 0000000f0000000600000978 15*17 23*17 4f*16 7b*17 a7*17 d3*16 INFO_REST LONGER_LEAD_IN Y_95 Y_76 Y_57 Y_38 Y_19
> p INFO_FRONT LED_THREE INFO_REST LEAD_IN Y_68 Y_49 Y_30

# Check words, which are renewed: the area of a frame has 379 bytes, 101111011, bd80. 879 bytes in
# the 511 before it and in it leave 11. 391 want 380, one more than the area has. 390 is 110000110,
# c300.
WORD_379 = fffa9000 e363 bd80 ~417
WORD_FULL = fffa9000 121a ff80 OF_1758 ~417
WORD_391 = fffa9000 b99b c300 OF_782 ~417
WORD_391_PADDED = fffa9200 04b6 0580 OF_782 ~418
# a padded slot
< w PROTECTED_Z*2 WORD_FULL PROTECTED_Z WORD_391
$ remove w o 3 4
> o INFO_FRONT 'Info' 0000000f0000000400000755 1c*25 55*25 8e*25 c6*25 INFO_REST PROTECTED_Z WORD_379 WORD_FULL WORD_391_PADDED

# 384 bytes are 5 more than the area has. A lead-in has no check word.
WORD_AREA = fffa9000 d217 0000 OF_758 ~417
WORD_384 = fffa9000 4e31 bd80 OF_768 ~417
WORD_384_FROM_68 = fffa9000 8901 2200 OF_768 ~417
# a lead-in in front
< w WORD_AREA PROTECTED_Z WORD_384
$ remove w o 0 2
> o INFO_FRONT LED_ONE INFO_REST LEAD_IN WORD_384_FROM_68

# An empty frame of the file is no lead-in, and stays. From its piece it can't be told from one.
LEAD_IN_FROM_381 = fffb1000 be80 ~104
LED_Y = INFO_FRONT LED_ONE INFO_REST LEAD_IN Y_68
# a frame like a lead-in
< v Z Z LEAD_IN Y_68
to p01.mp3 p02.mp3 p03.mp3 j o
$ split v p 0 1 2 4
$ remove v o 1 2
$ join --seamless j p01.mp3 p03.mp3
| p03.mp3: lead-in left out
> p01.mp3 INFO_FRONT ONE INFO_REST Z
> p02.mp3 INFO_FRONT ONE INFO_REST Z
> p03.mp3 LED_Y
> j INFO_FRONT TWO INFO_REST Z Y_381
> o INFO_FRONT 'Xing' 0000000f000000030000047a 2e*34 8b*33 a2*33 INFO_REST Z LEAD_IN_FROM_381 Y_449

# Other classes.

# The area of M has 9 bytes, of which its main data take one; those of the other frame are behind
# them. The check word of M with the main_data_begin 8 is 5a51. The Info frame has 169 bytes.
M_BEFORE_M = fff214c0 e952 0000400190 ~15 aaaa ~24
M_FROM_8 = fff214c0 5a51 0800400190 ~24
# MPEG-2 with a check word
< m M*3
$ remove m o 1 2
> o fff376c0 00*9 'Info' 0000000f00000002000000d9 c7*50 e3*50 00*40 M_BEFORE_M M_FROM_8

# An area has 59 bytes, 3b (hex); two have 118, 76, three 177, b1, and four 236, ec. At most 255 are
# free. The Info frame has 216 bytes.
EIGHT = ffe318c0 ~72
EIGHT_59 = ffe318c0 3b ~72
EIGHT_118 = ffe318c0 76 ~72
EIGHT_177 = ffe318c0 b1 ~72
EIGHT_236 = ffe318c0 ec ~72
EIGHT_255 = ffe318c0 ff ~72
FOUR_EIGHTS = EIGHT EIGHT_59 EIGHT_118 EIGHT_177
FIVE_EIGHTS = FOUR_EIGHTS EIGHT_236
# 216 + 5 * 72 bytes.
FIVE_OF_576 = 'Info' 0000000f0000000500000240 60*20 80*20 a0*20 c0*20 e0*20
# MPEG-2.5
< m EIGHT*8
$ remove m o 2 5 6 7
> o ffe338c0 00*9 'Info' 0000000f00000004000001f8 6d*25 92*25 b6*25 db*25 00*87 FOUR_EIGHTS

# Numbers of the head. A position that was played is heard where its frame stays. The delay is how
# far the first of them is from the beginning of all frames that are written, less 529, and the
# padding how far the end of the last is from the end of these frames, and 529.

# 4 frames, the quality 57, the delay 576, 240 (hex), and the padding 720, 2d0: positions 1,105 to
# 4,417 of 4,608 are played. All else in the extension stays, peak and ReplayGain too, but its
# length.
LAME_3_100 = 'LAME3.100' 11*12
K_FRONT = fffb9000 ~36 'Info' 0000000f0000000400000825 00*100 00000039
K = K_FRONT LAME_3_100 2402d0 22*12 ~417 Z*4

# The first and the last position stay, so both numbers do.
# in the midst
< k K
to o p
$ remove k o 1 2
$ remove k p 1 2 2 3
> o INFO_FRONT THREE 00000039 LAME_3_100 2402d0 22*4 000005b3 0000 aa65 00*16 THREE_Z
> p INFO_FRONT TWO 00000039 LAME_3_100 2402d0 22*4 00000412 0000 ad63 00*16 TWO_Z

# 3,312 samples less a frame
< k K
to o
$ remove k o 1 2
$ cut --exact o EOF EOF q
! 1 range 2160 to 2160 of 2160 samples
> o INFO_FRONT THREE 00000039 LAME_3_100 2402d0 22*4 000005b3 0000 aa65 00*16 THREE_Z

# and less two
< k K
to o
$ remove k o 1 3
$ cut --exact o EOF EOF q
! 1 range 1008 to 1008 of 1008 samples
> o INFO_FRONT TWO 00000039 LAME_3_100 2402d0 22*4 00000412 0000 ad63 00*16 TWO_Z

# Where the front goes, the delay is 0, so that the first frame is played from its sample 529 on:
# less than 529 samples no delay leaves out. Where the end goes, all is played to the last frame's
# end: 529 is 211 (hex).
# one end, the other, and both
< k K
to o p q r
$ remove k o 0 1
$ remove k p 3 4
$ remove k q 3 EOF
$ remove k r 0 1 3 4
> o INFO_FRONT THREE 00000039 LAME_3_100 0002d0 22*4 000005b3 0000 4e14 00*16 THREE_Z
> p INFO_FRONT THREE 00000039 LAME_3_100 240211 22*4 000005b3 0000 559d 00*16 THREE_Z
> q INFO_FRONT THREE 00000039 LAME_3_100 240211 22*4 000005b3 0000 559d 00*16 THREE_Z
> r INFO_FRONT TWO 00000039 LAME_3_100 000211 22*4 00000412 0000 b6ea 00*16 TWO_Z

# The delay 2,000, 7d0 (hex): position 2,529 is the first, 225 behind the beginning of frame 2. As
# frame 1 of those that stay that is place 1,377, and 1,377 - 529 is 848, 350. Where frame 2 goes
# the first is 3,456, at place 2,304: 1,775, 6ef; and at 1,152 where frame 0 goes too: 623, 26f.
# what was not heard goes, or what was heard first
< k K_FRONT LAME_3_100 7d02d0 22*12 ~417 Z*4
to o p q r
$ remove k o 1 2
$ remove k p 0 1
$ remove k q 2 3
$ remove k r 0 1 2 3
> o INFO_FRONT THREE 00000039 LAME_3_100 3502d0 22*4 000005b3 0000 bb59 00*16 THREE_Z
> p INFO_FRONT THREE 00000039 LAME_3_100 3502d0 22*4 000005b3 0000 bb59 00*16 THREE_Z
> q INFO_FRONT THREE 00000039 LAME_3_100 6ef2d0 22*4 000005b3 0000 61c0 00*16 THREE_Z
> r INFO_FRONT TWO 00000039 LAME_3_100 26f2d0 22*4 00000412 0000 ee27 00*16 TWO_Z

# The padding 1,728, 6c0 (hex): position 3,409 is the end, 47 before that of frame 2. Where frame 2
# goes the end is 2,304, before the last of three frames: 1,152 + 529 is 1,681, 691. Where frame 3
# goes 47 + 529 are 576, 240.
# what was heard last goes, or what was not heard
< k K_FRONT LAME_3_100 2406c0 22*12 ~417 Z*4
to o p q
$ remove k o 1 2
$ remove k p 2 3
$ remove k q 3 4
> o INFO_FRONT THREE 00000039 LAME_3_100 2406c0 22*4 000005b3 0000 a5c0 00*16 THREE_Z
> p INFO_FRONT THREE 00000039 LAME_3_100 240691 22*4 000005b3 0000 58c5 00*16 THREE_Z
> q INFO_FRONT THREE 00000039 LAME_3_100 240240 22*4 000005b3 0000 a898 00*16 THREE_Z

# Where no position is heard, there are no numbers. 4,095 + 529 is behind the last one.
# nothing that was heard stays
< k K_FRONT LAME_3_100 7d02d0 22*12 ~417 Z*4
$ remove k o 2 4
> o INFO_FRONT TWO INFO_REST TWO_Z

< k K_FRONT LAME_3_100 2406c0 22*12 ~417 Z*4
$ remove k o 0 3
> o INFO_FRONT ONE INFO_REST Z

< k K_FRONT LAME_3_100 fff2d0 22*12 ~417 Z*4
$ remove k o 3 4
> o INFO_FRONT THREE INFO_REST THREE_Z

# Players play to the end of the last frame.
# the padding 100, more frames counted than there are, and fewer
< k K_FRONT LAME_3_100 240064 22*12 ~417 Z*4
< l fffb9000 ~36 'Info' 0000000f0000000500000825 00*100 00000039 LAME_3_100 2402d0 22*12 ~417 Z*4
< m fffb9000 ~36 'Info' 0000000f0000000300000825 00*100 00000039 LAME_3_100 2402d0 22*12 ~417 Z*4
to o p q
$ remove k o 1 2
$ remove l p 1 2
$ remove m q 1 2
> o INFO_FRONT THREE 00000039 LAME_3_100 240211 22*4 000005b3 0000 559d 00*16 THREE_Z
> p INFO_FRONT THREE 00000039 LAME_3_100 240211 22*4 000005b3 0000 559d 00*16 THREE_Z
> q INFO_FRONT THREE 00000039 LAME_3_100 240211 22*4 000005b3 0000 559d 00*16 THREE_Z

# Where the head doesn't count, no numbers are written, nor is the quality.
# no frame counted, an encoder that doesn't count, and a head without a number of frames
< k fffb9000 ~36 'Info' 0000000f0000000000000825 00*100 00000039 LAME_3_100 2402d0 22*12 ~417 Z*4
< l K_FRONT 'GOGO3.100' 11*12 2402d0 22*12 ~417 Z*4
< m fffb9000 ~36 'Info' 0000000e0000000400000825 00*100 00000039 LAME_3_100 2402d0 22*12 ~417 Z*4
to o p q
$ remove k o 1 2
$ remove l p 1 2
$ remove m q 1 2
> o INFO_FRONT THREE INFO_REST THREE_Z
> p INFO_FRONT THREE INFO_REST THREE_Z
> q INFO_FRONT THREE INFO_REST THREE_Z

# A lead-in in front is 1,152 positions more: 1,728 is 6c0 (hex). 2,943, b7f, becomes 4,095, as many
# as 12 bits can say, and one more is too many. Each frame of those that fill their area leaves the
# 68 bytes before it.
SEVEN_FRONT = fffb9000 ~36 'Info' 0000000f0000000700000825 00*100 00000039
SEVEN = AREA*5 Z Y_381
SEVEN_OF_2814 = 'Xing' 0000000f0000000700000afe 12*15 1c*14 42*14 68*15 8e*14 b4*14 da*14
SIX_LED = LEAD_IN AREA_FROM_68*5 Y_68
# a lead-in in front
< k SEVEN_FRONT LAME_3_100 2402d0 22*12 ~417 SEVEN
< l SEVEN_FRONT LAME_3_100 b7f2d0 22*12 ~417 SEVEN
< m SEVEN_FRONT LAME_3_100 b802d0 22*12 ~417 SEVEN
to o p q
$ remove k o 5 6
$ remove l p 5 6
$ remove m q 5 6
> o INFO_FRONT SEVEN_OF_2814 00000039 LAME_3_100 6c02d0 22*4 00000afe 0000 0f76 00*16 SIX_LED
> p INFO_FRONT SEVEN_OF_2814 00000039 LAME_3_100 fff2d0 22*4 00000afe 0000 9cf1 00*16 SIX_LED
> q INFO_FRONT SEVEN_OF_2814 INFO_REST SIX_LED

# SECOND is played from its first sample, behind the lead-in: 1,152 - 529 is 623, 26f (hex).
# a lead-in where the front goes
< k K_FRONT LAME_3_100 2402d0 22*12 ~417 Z A Z
$ remove k o 0 2
> o INFO_FRONT LED_TWO 00000039 LAME_3_100 26f2d0 22*4 0000047a 0000 ab2a 00*16 FULL_LEAD_IN SECOND_FROM_68 Z_49

# A lead-in in the midst is in the place of the frame that goes. The delay and the padding 3,000,
# bb8 (hex): position 3,529 is the first, in frame 3, and 2,137 the end, in frame 1.
# a lead-in among what is heard, before it, and behind it
< k K_FRONT LAME_3_100 2402d0 22*12 ~417 AT_320
< l K_FRONT LAME_3_100 bb82d0 22*12 ~417 AT_320
< m K_FRONT LAME_3_100 240bb8 22*12 ~417 AT_320
to o p q
$ remove k o 2 3
$ remove l p 2 3
$ remove m q 2 3
> o INFO_FRONT FOUR_OF_3470 00000039 LAME_3_100 2402d0 22*4 00000d8e 0000 2e88 00*16 WITH_LEAD_IN
> p INFO_FRONT FOUR_OF_3470 00000039 LAME_3_100 bb82d0 22*4 00000d8e 0000 0e5f 00*16 WITH_LEAD_IN
> q INFO_FRONT FOUR_OF_3470 00000039 LAME_3_100 240bb8 22*4 00000d8e 0000 5340 00*16 WITH_LEAD_IN

# as many samples are played as before
< k K_FRONT LAME_3_100 2402d0 22*12 ~417 AT_320
to o
$ remove k o 2 3
$ cut --exact o EOF EOF q
! 1 range 3312 to 3312 of 3312 samples
> o INFO_FRONT FOUR_OF_3470 00000039 LAME_3_100 2402d0 22*4 00000d8e 0000 2e88 00*16 WITH_LEAD_IN

# A frame has 576 positions, so 1,105 is in frame 1: where that goes the first is 1,152, at place
# 576, and 576 - 529 is 47, 02f (hex). The head has 360 bytes. The quality is 0.
EIGHT_K = ffe358c0 00*9 'Info' 0000000f0000000800000825 00*104 LAME_3_100 2402d0 22*12 ~360 EIGHT*8
# MPEG-2.5
< m EIGHT_K
to o p
$ remove m o 2 5
$ remove m p 1 2
> o ffe338c0 00*9 FIVE_OF_576 00*4 LAME_3_100 2402d0 22*4 00000240 0000 3bac 00*47 FIVE_EIGHTS
> p ffe338c0 00*9 'Info' 0000000f00000007000002d0 4c*15 66*14 80*14 99*15 b3*14 cc*14 e6*14 00*4 LAME_3_100 02f2d0 22*4 000002d0 0000 eb7e 00*47 FIVE_EIGHTS EIGHT_255*2

# Lost frames are written as empty ones. The area of the head isn't main data.

# The first frame points 100 bytes into the head, so it is lost; the other has 481 bytes, and wants
# a lead-in of 48 kbit/s, 156 bytes, whose area has 120: 001111000, 3c00.
POINTS_INTO_HEAD = fffb9000 3200 OF_762 ~417
OF_481_FROM_100 = fffb9000 3200 OF_962 ~417
LEAD_IN_48 = fffb3000 ~156
OF_481_FROM_120 = fffb9000 3c00 OF_962 ~417
# a frame that points into the head stays, or goes
< f HEAD POINTS_INTO_HEAD OF_481_FROM_100
to o p c
$ cut f 0 1 c
$ remove f o 1 2
$ remove f p 0 1
> c INFO_FRONT ONE INFO_REST AREA
> o INFO_FRONT ONE INFO_REST Z
> p INFO_FRONT 'Xing' 0000000f000000020000030d 44*50 77*50 INFO_REST LEAD_IN_48 OF_481_FROM_120

# The 4 bytes of G are at the front of the lost frame's area.
Z_BEFORE_G = fffb9000 ~36 11223344 ~417
G_FROM_381 = fffb9000 be80 000800320000000001000650000000002001fe0000000004001680 ~417
# main data that begin before all areas
< i SECOND Z G
$ remove i o 1 2
> o INFO_FRONT TWO INFO_REST Z_BEFORE_G G_FROM_381

# Blocks. ID3v2 before the frames stays there, and all others are behind them. Zeros and junk go.

# in front of the frames, and behind them
< t ID3V2_BLOCK 00*2 55*100 fffb9000 55*196 Z Z APE ID3V1_BLOCK
$ remove t o 0 1
> o ID3V2_BLOCK INFO_FRONT ONE INFO_REST Z APE ID3V1_BLOCK

# between frames
< i Z APE Z 00*2 Z ID3V1_BLOCK
$ remove i o 1 2
> o INFO_FRONT TWO INFO_REST TWO_Z APE ID3V1_BLOCK

# A at the gains 103.
A_AT_103 = fffb9000 000002580033800000004b000670000000096000ce000000012c0019c0 ~36 55*381 fffb9000 28800320003380000000640006700000000c8000ce00000001900019c0 ~453 55*319 ~834
# an undo item still undoes
< i Z A
to a b c o
$ gain -g 3 i a
$ remove a b 0 1
$ gain -u b c
$ remove i o 0 1
> a Z A_AT_103 UNDO_FRONT '-003,-003,N' UNDO_END
> b INFO_FRONT TWO INFO_REST A_AT_103 UNDO_FRONT '-003,-003,N' UNDO_END
> c INFO_FRONT TWO INFO_REST A
> o INFO_FRONT TWO INFO_REST A

# Places are those of `cut --exact`, but mean the frame in which they are, counted from the first
# one, also behind a head that says that positions in front aren't played.

# 0.03 s are 1,323 samples, in frame 1, and 0.06 s 2,646, in frame 2.
# frame 1
< i Z*6
to o p q
$ remove i o 0.0.030 0.0.060
$ remove i p 0.03s 0.06s
$ remove i q 1152samples 2304samples
> o INFO_FRONT FIVE INFO_REST FIVE_Z
> p INFO_FRONT FIVE INFO_REST FIVE_Z
> q INFO_FRONT FIVE INFO_REST FIVE_Z

# 0.06 s hold two whole frames.
# the two before the end
< i Z*6
to o p
$ remove i o EOF-0.0.060 EOF
$ remove i p EOF-0.06s EOF
> o INFO_FRONT FOUR INFO_REST FOUR_Z
> p INFO_FRONT FOUR INFO_REST FOUR_Z

# 0.026 s are 1,146 samples, in frame 0, and 0.027 s 1,190, in frame 1.
# frame 0, also from longer before the end than the file is
< i Z*6
to o p q
$ remove i o EOF-10s 1
$ remove i p 1151samples 1153samples
$ remove i q 0.0.026 0.0.027
> o INFO_FRONT FIVE INFO_REST FIVE_Z
> p INFO_FRONT FIVE INFO_REST FIVE_Z
> q INFO_FRONT FIVE INFO_REST FIVE_Z

# less than a frame before the end
< i Z*6
$ remove i o EOF-0.0.026 EOF
! 1 range 6 to 6 of 6 frames

# 30 s are 1,323,000 samples, in frame 1,148.
# places that are behind the end
< i Z*6
$ remove i o 30s 60s
! 1 range 1148 to 2296 of 6 frames

< i Z*6
$ remove i o 4294967295samples EOF
! 1 range 3728270 to 6 of 6 frames

# 0.079 s are 3,483 samples, and 0.105 s 4,630: three frames and four. 0.053 s are 2,337, two
# frames.
# frame 3
< s Z*3 A Z
to o p q r
$ remove s o 0.0.079 0.0.105
$ remove s p 0.079s 0.105s
$ remove s q 3456samples 4608samples
$ remove s r EOF-0.079s EOF-0.053s
> o INFO_FRONT FIVE INFO_REST AROUND_FIRST
> p INFO_FRONT FIVE INFO_REST AROUND_FIRST
> q INFO_FRONT FIVE INFO_REST AROUND_FIRST
> r INFO_FRONT FIVE INFO_REST AROUND_FIRST

< a A
$ remove a o 0s 1
> o INFO_FRONT LED_ONE INFO_REST FULL_LEAD_IN SECOND_FROM_68

< a A
$ remove a o 0 EOF-1.0
! 1 range 0 to 0 of 2 frames

# Samples 1,200 and 2,400, and 1,323 and 2,646, are in frames 1 and 2. As players play, sample 0 is
# position 2,529.
# behind a head
< k K_FRONT LAME_3_100 7d02d0 22*12 ~417 Z*4
to o p
$ remove k o 1200samples 2400samples
$ remove k p 0.0.030 0.0.060
> o INFO_FRONT THREE 00000039 LAME_3_100 3502d0 22*4 000005b3 0000 bb59 00*16 THREE_Z
> p INFO_FRONT THREE 00000039 LAME_3_100 3502d0 22*4 000005b3 0000 bb59 00*16 THREE_Z

# 0.027 s hold a whole frame.
# before the end of the last frame
< k K
$ remove k o EOF-0.027s EOF
> o INFO_FRONT THREE 00000039 LAME_3_100 240211 22*4 000005b3 0000 559d 00*16 THREE_Z

# 0.144 s are 1,152 samples, two frames, and 0.36 s 2,880, five.
# MPEG-2.5
< m EIGHT_K
to o p
$ remove m o 0.144s 0.36s
$ remove m p 1152samples 2880samples
> o ffe338c0 00*9 FIVE_OF_576 00*4 LAME_3_100 2402d0 22*4 00000240 0000 3bac 00*47 FIVE_EIGHTS
> p ffe338c0 00*9 FIVE_OF_576 00*4 LAME_3_100 2402d0 22*4 00000240 0000 3bac 00*47 FIVE_EIGHTS

# What is refused. Nothing is created.

# No frame would stay.

< a A
$ remove a o 0 2
! 1 range 0 to 2 of 2 frames

< a A
$ remove a o 0 EOF
! 1 range 0 to 2 of 2 frames

< a A
$ remove a o 0 1 1 2
! 1 range 0 to 2 of 2 frames

< a A
$ remove a o 0.0 EOF
! 1 range 0 to 2 of 2 frames

< i Z*6
$ remove i o 0 2 2 5 5 EOF
! 1 range 0 to 6 of 6 frames

# Numbers that aren't in order: the line names the first two neighbours that aren't.

# no frame goes
< i Z*6
$ remove i o 1 1
! 1 range 1 to 1 of 6 frames

< i Z*6
$ remove i o 2 1
! 1 range 2 to 1 of 6 frames

# behind the end
< i Z*6
$ remove i o 1 7
! 1 range 1 to 7 of 6 frames

< i Z*6
$ remove i o 6 EOF
! 1 range 6 to 6 of 6 frames

# stretches that overlap, or aren't in order
< i Z*6
$ remove i o 3 5 2 4
! 1 range 5 to 2 of 6 frames

< i Z*6
$ remove i o 1 3 2 4
! 1 range 3 to 2 of 6 frames

# the second is behind the end
< i Z*6
$ remove i o 1 2 7 8
! 1 range 7 to 8 of 6 frames

# a later stretch that is refused is named before the frames that stay are counted
< i Z*6
$ remove i o 0 6 6 7
! 1 range 6 to 7 of 6 frames

< i Z*6
$ remove i o 0 EOF 3 4
! 1 range 6 to 3 of 6 frames

# the first of two stretches that are refused
< i Z*6
$ remove i o 2 2 1 9
! 1 range 2 to 2 of 6 frames

# Both are in frame 0.
< i Z*6
$ remove i o 0.00.01 0.00.02
! 1 range 0 to 0 of 6 frames

# Names and faults of the input, before the stretches.

< a A
$ remove a a 0 9
! 1 a: input is an output

< a A
$ remove x o 0 9
! 3 x: absent
- x

# A without its last byte.
< a FIRST fffb9000 28800320003200000000640006400000000c8000c800000001900019 ~453 55*319 ~833
$ remove a o 0 9
! 1 a: truncated at 417

# An output that is there is written over.
< a A
< o 'kept'
$ remove a o 0 1
> o INFO_FRONT LED_ONE INFO_REST FULL_LEAD_IN SECOND_FROM_68

# Words.

< a A
$ remove
! 2 bad word 2

< a A
$ remove a
! 2 bad word 3

< a A
$ remove a o
! 2 bad word 4

# a place is missing
< a A
$ remove a o 1
! 2 bad word 5

< a A
$ remove a o 0 1 1
! 2 bad word 7

< a A
$ remove a -o 0 1
! 2 bad word 3

# all places are exact without a flag
< a A
$ remove --exact a o 0 1
! 2 bad word 2

# words that are no places
< a A
$ remove a o 0S 1
! 2 bad word 4

< a A
$ remove a o 1.5000s 1
! 2 bad word 4

< a A
$ remove a o 0 EOF-3
! 2 bad word 5

< a A
$ remove a o 0 1sample
! 2 bad word 5

# the output stands before the places
< a A
$ remove a 0 1 o
! 2 bad word 5

# -n stands before the command
< a A
$ remove a o 0 1 -n
! 2 bad word 6

# a stretch too many
< z Z*103
$ remove z o 0 1 2 3 4 5 6 7 8 9 10 11 12 13 14 15 16 17 18 19 20 21 22 23 24 25 26 27 28 29 30 31 32 33 34 35 36 37 38 39 40 41 42 43 44 45 46 47 48 49 50 51 52 53 54 55 56 57 58 59 60 61 62 63 64 65 66 67 68 69 70 71 72 73 74 75 76 77 78 79 80 81 82 83 84 85 86 87 88 89 90 91 92 93 94 95 96 97 98 99 100 101
! 2 bad word 104

# Each call of the outside fails in turn.

< u A
$ remove u o 0 1
> o INFO_FRONT LED_ONE INFO_REST FULL_LEAD_IN SECOND_FROM_68
each Find 1 u: read fault
each Read 2 u: read fault
each Create 1 o: write fault
each Write 1 o: write fault

# the frame of the head is read too
< k K
$ remove k o 1 2
> o INFO_FRONT THREE 00000039 LAME_3_100 2402d0 22*4 000005b3 0000 aa65 00*16 THREE_Z
each Find 1 k: read fault
each Read 3 k: read fault
each Create 1 o: write fault
each Write 2 o: write fault

# A long file, of which neither what is read nor what is written is held whole: 208 + 800 * 417 are
# 333,808 bytes.
< h G*1000
room 333808
$ remove h o 300 400 600 700
> o INFO_FRONT 'Info' 0000000f00000320000517f0 000205070a0c0f121417191c1e212326292b2e303335383b3d404245474a4c4f525457595c5e616366696b6e707375787a7d808285878a8c8f919497999c9ea1a3a6a9abaeb0b3b5b8babdc0c2c5c7cacccfd1d4d7d9dcdee1e3e6e8ebeef0f3f5f8fafd INFO_REST G_FIRST G_SECOND G_AMONG*796 G_LAST*2
each Read 1 after 250000 h: read fault
";
