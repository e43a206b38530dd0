//! Files that are joined without seams: what is left out of each input, in which slot its first frame
//! joins the others, and the numbers of the head.

pub static ROWS: &str = "
# seamless

# What is said in `names` and in the texts of `cut` and of `exact` holds here too. The frames of all
# inputs are one part. Before each there are at most 511 free bytes for main data, and before the
# first none, so that a lead-in is before all where they want one. The first frame of an input joins
# in the least slot, from its own on, in which all have room if 511 bytes are free before the first.

# Side information behind the two bytes of main_data_begin: four times so many bits of main data,
# and all gains 100. Four times 800 bits are 400 bytes, 19 more than the area of 128 kbit/s has.
# Main data are 0 here, as all bytes of areas, but those of FIRST and SECOND, 55, and of G.
OF_762 = 02fa0032000000005f4006400000000be800c8000000017d0019
OF_800 = 0320003200000000640006400000000c8000c800000001900019
OF_894 = 037e0032000000006fc006400000000df800c800000001bf0019
OF_962 = 03c2003200000000784006400000000f0800c800000001e10019
OF_992 = 03e00032000000007c0006400000000f8000c800000001f00019
OF_1762 = 06e2003200000000dc4006400000001b8800c800000003710019
OF_2200 = 089800320000000113000640000000226000c8000000044c0019
OF_2218 = 08aa0032000000011540064000000022a800c800000004550019
OF_3020 = 0bcc003200000001798006400000002f3000c800000005e60019

# A lead-in of 32 kbit/s: 104 bytes, of which 68 are its area. The same 381 bytes behind the main
# data before: 381 is 101111101, be80.
LEAD_IN = fffb1000 ~104
LEAD_IN_FROM_381 = fffb1000 be80 ~104
# The same with main data of the frame behind it in the whole area.
FULL_LEAD_IN = fffb1000 ~36 55*68 ~104
# Frames of 400 bytes, by their main_data_begin.
Y_19 = fffb9000 0980 OF_800 ~417
Y_30 = fffb9000 0f00 OF_800 ~417
Y_38 = fffb9000 1300 OF_800 ~417
Y_49 = fffb9000 1880 OF_800 ~417
Y_57 = fffb9000 1c80 OF_800 ~417
Y_66 = fffb9000 2100 OF_800 ~417
Y_68 = fffb9000 2200 OF_800 ~417
Y_69 = fffb9000 2280 OF_800 ~417
Y_76 = fffb9000 2600 OF_800 ~417
Y_81 = fffb9000 2880 OF_800 ~417
Y_95 = fffb9000 2f80 OF_800 ~417
Y_116 = fffb9000 3a00 OF_800 ~417
Y_305 = fffb9000 9880 OF_800 ~417
Y_324 = fffb9000 a200 OF_800 ~417
Y_343 = fffb9000 ab80 OF_800 ~417
Y_362 = fffb9000 b500 OF_800 ~417
Y_381 = fffb9000 be80 OF_800 ~417
Y_447 = fffb9000 df80 OF_800 ~417
Y_449 = fffb9000 e080 OF_800 ~417
Y_450 = fffb9000 e100 OF_800 ~417
Y_511 = fffb9000 ff80 OF_800 ~417
# FIRST from 68 bytes before its area on, 000100010, 2200, so that 232 of its 300 bytes are in that,
# and 149 of the next frame; and FIRST without those.
FILLED_FROM_68 = fffb9000 220002580032000000004b000640000000096000c8000000012c0019 ~36 55*381 ~417
FIRST_FROM_68 = fffb9000 220002580032000000004b000640000000096000c8000000012c0019 ~36 55*232 ~417
# SECOND from 68 bytes before its area on, so that 332 of its 400 bytes are in that; and behind the
# frame before: 149 is 010010101, 4a80, and 251 are in its area.
SECOND_FROM_68 = fffb9000 22000320003200000000640006400000000c8000c800000001900019 ~36 55*332 ~417
SECOND_FROM_149 = fffb9000 4a800320003200000000640006400000000c8000c800000001900019 ~36 55*251 ~417
# Silent frames, by their main_data_begin.
Z_11 = fffb9000 0580 ~417
Z_62 = fffb9000 1f00 ~417
Z_68 = fffb9000 2200 ~417

# Fields of Info frames up to their table. Frames of 417 bytes: one, 625 bytes with the Info frame;
# two, 1,042; three, 1,459; four, 1,876.
ONE = ONE_OF_625 55*100
TWO = TWO_OF_1042 33*50 99*50
THREE_OF_1459 = 'Info' 0000000f00000003000005b3 24*34 6d*33 b6*33
FOUR_OF_1876 = 'Info' 0000000f0000000400000754 1c*25 55*25 8e*25 c7*25
# A lead-in of 104 bytes before such frames: 729 bytes with one, 1,146 with two, 1,563 with three.
TWO_OF_729 = 'Xing' 0000000f00000002000002d9 49*50 6d*50
THREE_OF_1146 = 'Xing' 0000000f000000030000047a 2e*34 45*33 a2*33
FOUR_OF_1563 = 'Xing' 0000000f000000040000061b 22*25 33*25 77*25 bb*25
# The same between two frames: 256 * 625 / 1,146 gives 139, 8b (hex).
AMONG_1146 = 'Xing' 0000000f000000030000047a 2e*34 8b*33 a2*33

# Pieces of splits.

PIECE_OF_Z = INFO_FRONT ONE INFO_REST Z
# A frame of 400 bytes alone has a lead-in.
LED_Y = INFO_FRONT TWO_OF_729 INFO_REST LEAD_IN Y_68
PIECE_OF_FIRST = INFO_FRONT ONE INFO_REST FIRST_ALONE
PIECE_OF_SECOND = INFO_FRONT TWO_OF_729 INFO_REST FULL_LEAD_IN SECOND_FROM_68
WHOLE_A = INFO_FRONT TWO INFO_REST A

# The first frame leaves 81 bytes, of which the second wants 19. A join with seams keeps the
# lead-in, a silent frame, 81 bytes behind other main data: 001010001, 2880.
SILENT_FROM_81 = fffb1000 2880 ~36 55*68 ~104
# pieces in order
< a A
to p01.mp3 p02.mp3 c j o
$ split a p 0 1 2
$ cut a 0 2 c
$ join j p01.mp3 p02.mp3
$ join --seamless o p01.mp3 p02.mp3
| p02.mp3: lead-in left out
> p01.mp3 PIECE_OF_FIRST
> p02.mp3 PIECE_OF_SECOND
> c WHOLE_A
> j INFO_FRONT AMONG_1146 INFO_REST FIRST SILENT_FROM_81 SECOND_FROM_149
> o WHOLE_A

# SECOND leaves 49 bytes, 000110001, 1880, so 251 of the 300 of FIRST are in its own area.
FULL_SECOND = fffb9000 22000320003200000000640006400000000c8000c800000001900019 ~36 55*381
FIRST_FROM_49 = fffb9000 188002580032000000004b000640000000096000c8000000012c0019 ~36 55*251 ~417
# pieces in another order
< p01.mp3 PIECE_OF_FIRST
< p02.mp3 PIECE_OF_SECOND
$ join --seamless o p02.mp3 p01.mp3
| p01.mp3: whole
> o INFO_FRONT THREE_OF_1146 INFO_REST FULL_LEAD_IN FULL_SECOND FIRST_FROM_49

# Each frame takes 19 bytes of the reservoir, so the lead-in of five has to have 95, and that of 40
# kbit/s, padded, has: 131 - 36. 256 * 208 / 2,424 is 21, 15 (hex), then 35, 79, 123, 167 and 211.
LONGER_LEAD_IN = fffb2200 ~131
FIVE_LED = INFO_FRONT 'Xing' 0000000f0000000600000978 15*17 23*17 4f*16 7b*17 a7*17 d3*16 INFO_REST LONGER_LEAD_IN Y_95 Y_76 Y_57 Y_38 Y_19
# two lead-ins, of which the first is too short for all frames
< d Z Y_381 Y_362 Y_343 Y_324 Y_305
to p01.mp3 p02.mp3 c o
$ split d p 1 3 6
$ cut d 1 6 c
$ join --seamless o p01.mp3 p02.mp3
| p02.mp3: lead-in left out
> p01.mp3 INFO_FRONT THREE_OF_1146 INFO_REST LEAD_IN Y_68 Y_49
> p02.mp3 INFO_FRONT FOUR_OF_1563 INFO_REST LEAD_IN Y_68 Y_49 Y_30
> c FIVE_LED
> o FIVE_LED

# The pieces of both files are the same bytes, so what is joined can be one of the files alone.
# a silent frame like a lead-in that no split wrote
< v Z LEAD_IN Y_68
< u Z Y_81
to p01.mp3 p02.mp3 q01.mp3 q02.mp3 c o
$ split v p 0 1 3
$ split u q 0 1 2
$ cut u 0 2 c
$ join --seamless o p01.mp3 p02.mp3
| p02.mp3: lead-in left out
> p01.mp3 PIECE_OF_Z
> p02.mp3 LED_Y
> q01.mp3 PIECE_OF_Z
> q02.mp3 LED_Y
> c INFO_FRONT TWO INFO_REST Z Y_381
> o INFO_FRONT TWO INFO_REST Z Y_381

# a single piece
< p02.mp3 PIECE_OF_SECOND
$ join --seamless o p02.mp3
> o PIECE_OF_SECOND

# Greater slots. A frame of 881 bytes in the 511 before its area and the 381 in it leaves 11 bytes,
# 000001011, 0580.

FULL_FROM_511 = fffb9000 ff80 OF_1762 ~417
# 400 bytes want 389 of the area behind it, and 160 kbit/s have 522 - 36. Of 208 + 3 * 417 + 522,
# 1,981 bytes, 26, 80, 134 and 188 of 256 are before the frames.
Y_AT_160 = fffba000 0580 OF_800 ~522
BEHIND_FULL = 'Xing' 0000000f00000004000007bd 1a*25 50*25 86*25 bc*25
# a greater slot in place of a lead-in
< x Z Z FULL_FROM_511
< p02.mp3 LED_Y
$ join --seamless o x p02.mp3
| p02.mp3: lead-in left out
> o INFO_FRONT BEHIND_FULL INFO_REST Z Z_FROM_381 FULL_FROM_511 Y_AT_160

# 381 bytes in its own slot would leave 11, and the frame behind it wants 19; of 486 they leave 116,
# 001110100, 3a00. Of 2,398 bytes 22, 66, 111, 155 and 211 of 256 are before the frames.
AREA_FROM_19 = fffb9000 0980 OF_762 ~417
AREA_FROM_68 = fffb9000 2200 OF_762 ~417
AREA_AT_160 = fffba000 0580 OF_762 ~522
# room for the frames behind the first
< x Z Z FULL_FROM_511
< w Z AREA_FROM_19 Y_19
to p01.mp3 p02.mp3 o
$ split w p 0 1 3
$ join --seamless o x p02.mp3
| p02.mp3: lead-in left out
> p01.mp3 PIECE_OF_Z
> p02.mp3 INFO_FRONT THREE_OF_1146 INFO_REST LEAD_IN AREA_FROM_68 Y_68
> o INFO_FRONT 'Xing' 0000000f000000050000095e 16*20 42*20 6f*20 9b*20 d3*20 INFO_REST Z Z_FROM_381 FULL_FROM_511 AREA_AT_160 Y_116

# 496 bytes want 485 of an area that has a check word: 160 kbit/s have 522 - 38, and one more
# padded. Check words, here and below, are those that mp3check finds right. A lead-in of 117 bytes
# or more is that of 48 kbit/s, 156 bytes, whose area has 120: 001111000, 3c00.
WORD_FROM_200 = fffa9000 cebe 6400 OF_992 ~417
WORD_FROM_120 = fffa9000 7ea3 3c00 OF_992 ~417
WORD_AT_160 = fffaa200 8d90 0580 OF_992 ~523
LEAD_IN_48 = fffb3000 ~156
LED_48 = 'Xing' 0000000f000000020000030d 44*50 77*50
# a padded slot
< x Z Z FULL_FROM_511
< w Z WORD_FROM_200
to p01.mp3 p02.mp3 o
$ split w p 0 1 2
$ join --seamless o x p02.mp3
| p02.mp3: lead-in left out
> p01.mp3 PIECE_OF_Z
> p02.mp3 INFO_FRONT LED_48 INFO_REST LEAD_IN_48 WORD_FROM_120
> o INFO_FRONT 'Xing' 0000000f00000004000007be 1a*25 50*25 86*25 bc*25 INFO_REST Z Z_FROM_381 FULL_FROM_511 WORD_AT_160

# At 320 kbit/s, 1,044 bytes, 1,510 bytes of main data leave 511 + 1,008 - 1,510, 9 bytes, 0480.
# 1,100 want 92 more than that area, and the greatest slot has one more. Their lead-in is that of 40
# kbit/s, 130 bytes: 94 are 001011110, 2f00, and 9 + 94 are 103, 001100111, 3380.
Z_AT_320 = fffbe000 ~1044
FULL_AT_320 = fffbe000 ff80 OF_3020 ~1044
LEAD_IN_40 = fffb2000 ~130
LEAD_IN_40_FROM_9 = fffb2000 0480 ~130
OF_1100_FROM_94 = fffbe000 2f00 OF_2200 ~1044
OF_1100_FROM_103 = fffbe000 3380 OF_2200 ~1044
OF_1100_FROM_381 = fffbe000 be80 OF_2200 ~1044
OF_1100_FROM_511 = fffbe000 ff80 OF_2200 ~1044
# 208 + 1,044 bytes, and 256 * 208 / 1,252 gives 42, 2a (hex).
PIECE_OF_Z_AT_320 = INFO_FRONT 'Info' 0000000f00000001000004e4 2a*100 INFO_REST Z_AT_320
PIECE_OF_1100 = INFO_FRONT 'Xing' 0000000f0000000200000566 26*50 3e*50 INFO_REST LEAD_IN_40 OF_1100_FROM_94
# no slot is great enough
< q Z_AT_320 FULL_AT_320
< w Z_AT_320 OF_1100_FROM_511
to p01.mp3 p02.mp3 o
$ split w p 0 1 2
$ join --seamless o q p02.mp3
| p02.mp3: whole
> p01.mp3 PIECE_OF_Z_AT_320
> p02.mp3 PIECE_OF_1100
> o INFO_FRONT 'Xing' 0000000f0000000400000d8e 0f*25 5c*25 a9*25 b2*25 INFO_REST Z_AT_320 FULL_AT_320 LEAD_IN_40_FROM_9 OF_1100_FROM_103

# the same piece behind a frame that leaves enough
< z Z
< w Z_AT_320 OF_1100_FROM_511
to p01.mp3 p02.mp3 o
$ split w p 0 1 2
$ join --seamless o z p02.mp3
| p02.mp3: lead-in left out
> p01.mp3 PIECE_OF_Z_AT_320
> p02.mp3 PIECE_OF_1100
> o INFO_FRONT 'Xing' 0000000f0000000200000685 1f*50 5f*50 INFO_REST Z OF_1100_FROM_381

# The first frame fills its area and leaves nothing. But 511 bytes might be free before it, so that
# the other keeps its slot, and then a lead-in is before both: of the first 313 bytes are in its own
# area.
AREA = fffb9000 0000 OF_762 ~417
AREA_BEFORE_55 = fffb9000 2200 OF_762 ~349 55*68
# a lead-in comes in front of all
< b AREA
< a A
to p01.mp3 p02.mp3 o
$ split a p 0 1 2
$ join --seamless o b p02.mp3
| p02.mp3: lead-in left out
> p01.mp3 PIECE_OF_FIRST
> p02.mp3 PIECE_OF_SECOND
> o INFO_FRONT THREE_OF_1146 INFO_REST LEAD_IN AREA_BEFORE_55 SECOND_FROM_68

# The piece of the first frame alone has a lead-in that its main data don't want, and the other
# wants 100 bytes: 208 + 156 + 2 * 417 are 1,198 bytes. The numbers are those of the text of
# `exact`.
LAME_623_529 = 00*4 'LAME' 00*17 26f211 00*4
AREA_FROM_120 = fffb9000 3c00 OF_762 ~417
OF_481_FROM_120 = fffb9000 3c00 OF_962 ~417
OF_481_FROM_381 = fffb9000 be80 OF_962 ~417
# a lead-in that becomes a greater one
< w AREA
< v Z OF_481_FROM_381
to q p01.mp3 p02.mp3 o
$ cut --exact w 0 EOF q
$ split v p 0 1 2
$ join --seamless o q p02.mp3
| p02.mp3: lead-in left out
> p01.mp3 PIECE_OF_Z
> p02.mp3 INFO_FRONT LED_48 INFO_REST LEAD_IN_48 OF_481_FROM_120
> q INFO_FRONT TWO_OF_729 LAME_623_529 000002d9 0000 cd81 00*16 LEAD_IN AREA_FROM_68
> o INFO_FRONT 'Xing' 0000000f00000003000004ae 2c*34 4d*33 a6*33 LAME_623_529 000004ae 0000 1cb3 00*16 LEAD_IN_48 AREA_FROM_120 OF_481_FROM_120

# 447 bytes are 68 more than the area of a frame with a check word, and as many as that of a lead-in
# of 32 kbit/s, which has none. 379 is 101111011, bd80.
OF_447_FROM_200 = fffa9000 1270 6400 OF_894 ~417
OF_447_FROM_68 = fffa9000 fe68 2200 OF_894 ~417
OF_447_FROM_379 = fffa9000 3958 bd80 OF_894 ~417
# check words
< w PROTECTED_Z OF_447_FROM_200
to p01.mp3 p02.mp3 o
$ split w p 0 1 2
$ join --seamless o p01.mp3 p02.mp3
| p02.mp3: lead-in left out
> p01.mp3 INFO_FRONT ONE INFO_REST PROTECTED_Z
> p02.mp3 INFO_FRONT TWO_OF_729 INFO_REST LEAD_IN OF_447_FROM_68
> o INFO_FRONT TWO INFO_REST PROTECTED_Z OF_447_FROM_379

# Frames that are like a lead-in and stay.

PADDED_SILENCE = fffb1200 ~105
PADDED_SILENCE_FROM_381 = fffb1200 be80 ~105
# in another slot
< v Z PADDED_SILENCE Y_68
to p01.mp3 p02.mp3 o
$ split v p 0 1 3
$ join --seamless o p01.mp3 p02.mp3
| p02.mp3: whole
> p01.mp3 PIECE_OF_Z
> p02.mp3 INFO_FRONT 'Xing' 0000000f00000002000002da 48*50 6d*50 INFO_REST PADDED_SILENCE Y_69
> o INFO_FRONT 'Xing' 0000000f000000030000047b 2e*34 8b*33 a2*33 INFO_REST Z PADDED_SILENCE_FROM_381 Y_450

SILENT_WORD = fffa1000 40eb ~104
SILENT_WORD_FROM_381 = fffa1000 55d4 be80 ~104
# with a check word
< v Z SILENT_WORD Y_68
to p01.mp3 p02.mp3 o
$ split v p 0 1 3
$ join --seamless o p01.mp3 p02.mp3
| p02.mp3: whole
> p01.mp3 PIECE_OF_Z
> p02.mp3 INFO_FRONT TWO_OF_729 INFO_REST SILENT_WORD Y_66
> o INFO_FRONT AMONG_1146 INFO_REST Z SILENT_WORD_FROM_381 Y_447

JOINT_SILENCE = fffb1040 ~104
JOINT_SILENCE_FROM_381 = fffb1040 be80 ~104
# in joint stereo
< v Z JOINT_SILENCE Y_68
to p01.mp3 p02.mp3 o
$ split v p 0 1 3
$ join --seamless o p01.mp3 p02.mp3
| p02.mp3: whole
> p01.mp3 PIECE_OF_Z
> p02.mp3 fffb5040 00*32 TWO_OF_729 INFO_REST JOINT_SILENCE Y_68
> o INFO_FRONT AMONG_1146 INFO_REST Z JOINT_SILENCE_FROM_381 Y_449

# The last gain is 210.
LOUD_SILENCE = fffb1000 00*27 3480 ~104
LOUD_SILENCE_FROM_381 = fffb1000 be80 00*25 3480 ~104
# with a gain
< v Z LOUD_SILENCE Y_68
to p01.mp3 p02.mp3 o
$ split v p 0 1 3
$ join --seamless o p01.mp3 p02.mp3
| p02.mp3: whole
> p01.mp3 PIECE_OF_Z
> p02.mp3 INFO_FRONT TWO_OF_729 INFO_REST LOUD_SILENCE Y_68
> o INFO_FRONT AMONG_1146 INFO_REST Z LOUD_SILENCE_FROM_381 Y_449

# G has room in its own area. Its 4 bytes are at the front of the first area that is free.
LEAD_IN_OF_G = fffb1000 ~36 11223344 ~104
Z_BEFORE_G = fffb9000 ~36 11223344 ~417
G_FROM_68 = fffb9000 2200 000800320000000001000650000000002001fe0000000004001680 ~417
G_FROM_449 = fffb9000 e080 000800320000000001000650000000002001fe0000000004001680 ~417
# where nothing wants one
< v Z LEAD_IN G
to p01.mp3 p02.mp3 o
$ split v p 0 1 3
$ join --seamless o p01.mp3 p02.mp3
| p02.mp3: whole
> p01.mp3 PIECE_OF_Z
> p02.mp3 INFO_FRONT TWO_OF_729 INFO_REST LEAD_IN_OF_G G_FROM_68
> o INFO_FRONT AMONG_1146 INFO_REST Z_BEFORE_G LEAD_IN_FROM_381 G_FROM_449

# Lost frames are written as empty ones, and the line says how many. They aren't lead-ins: not all
# of their side information is 0.

LOST_IN_HEAD = fffb1000 1400 ~104
# main data that begin in the head
< z Z
< b HEAD LOST_IN_HEAD Y_68
$ join --seamless o z b
| b: whole, 1 frames lost
> o INFO_FRONT AMONG_1146 INFO_REST Z LEAD_IN_FROM_381 Y_449

LOST_AT_FRONT = fffb1000 2880 000800320000000001000640000000002000c800000000040019 ~104
# main data that begin before all areas
< z Z
< b LOST_AT_FRONT Y_68
$ join --seamless o z b
| b: whole, 1 frames lost
> o INFO_FRONT AMONG_1146 INFO_REST Z LEAD_IN_FROM_381 Y_449

# Of the 400 bytes of NEARER 40 are in the head of B. So none of them are heard.
# a lost frame behind others
< a A
< b B
$ join --seamless o a b
| b: whole, 1 frames lost
> o INFO_FRONT THREE_OF_1459 INFO_REST FIRST SECOND Z_62

# FIRST begins in the area of the lost frame, and leaves 81 bytes there for SECOND: 381 + 81 are
# 462, 111001110, e700.
Z_OF_FIRST = fffb9000 ~36 55*381
FIRST_FROM_381 = fffb9000 be8002580032000000004b000640000000096000c8000000012c0019 ~36 55*319 ~417
SECOND_FROM_462 = fffb9000 e7000320003200000000640006400000000c8000c800000001900019 ~417
# others behind a lost frame
< a A
< b B
$ join --seamless o b a
| a: whole
> o INFO_FRONT THREE_OF_1459 INFO_REST Z_OF_FIRST FIRST_FROM_381 SECOND_FROM_462

# a lost frame takes no greater slot
< x Z Z FULL_FROM_511
< b B
$ join --seamless o x b
| b: whole, 1 frames lost
> o INFO_FRONT FOUR_OF_1876 INFO_REST Z Z_FROM_381 FULL_FROM_511 Z_11

# It isn't filled from the file before either.
# a frame that is lost without a head
< a A
< b SECOND
$ join --seamless o a b
| b: whole, 1 frames lost
> o INFO_FRONT THREE_OF_1459 INFO_REST FIRST SECOND Z_62

# Of these frames the first points 382 bytes back, behind a head with an area of 381, so it is lost
# in the file. The second, 400 bytes back, points into the head, and the third into the second. 382
# is 101111110, bf00, and 400 is 110010000, c800.
Y_382 = fffb9000 bf00 OF_800 ~417
Y_400 = fffb9000 c800 OF_800 ~417
LOST_TWO = HEAD Y_382 Y_400 Y_381
# lost in the file, and because of the head
< z Z
< b LOST_TWO
$ join --seamless o z b
| b: whole, 2 frames lost
> o INFO_FRONT FOUR_OF_1876 INFO_REST Z Z_FROM_381 Z_FROM_511 Y_511

# Behind 400 of 511 and 381 bytes 492 are free: 111101100, f600.
Z_FROM_492 = fffb9000 f600 ~417
TEN_OF_4378 = 'Info' 0000000f0000000a0000111a 0c*10 24*10 3c*10 55*10 6d*10 86*10 9e*10 b6*10 cf*10 e7*10
# each file has its own count, and the first has no line
< b LOST_TWO
< z Z
$ join --seamless o b b z b
| b: whole, 2 frames lost
| z: whole
| b: whole, 2 frames lost
> o INFO_FRONT TEN_OF_4378 INFO_REST Z Z_FROM_381 Y_511 Z_FROM_492 Z_FROM_511 Y_511 Z_FROM_492 Z_FROM_511*2 Y_511

# 511 bytes back is before the lead-in, whose area has 68, and 449, e080, at its front.
LOST_FROM_511 = fffb9000 ff80 000800320000000001000640000000002000c800000000040019 ~417
LONG_449 = fffb9000 e080 067c003200000000cf80064000000019f000c8000000033e0019 ~417
LONG_511 = fffb9000 ff80 067c003200000000cf80064000000019f000c8000000033e0019 ~417
# a lost frame behind a lead-in
< z Z
< b LEAD_IN LOST_FROM_511 LONG_449
$ join --seamless o z b
| b: lead-in left out, 1 frames lost
> o INFO_FRONT THREE_OF_1459 INFO_REST Z Z_FROM_381 LONG_511

# Only the block before the first file's frames is written.
# tags, zeros and junk
< t ID3V2_BLOCK 00*2 55*100 fffb9000 55*196 Z Z APE ID3V1_BLOCK
$ join --seamless o t t
| t: whole
> o ID3V2_BLOCK INFO_FRONT FOUR_OF_1876 INFO_REST Z Z_FROM_381 Z_FROM_511 Z_FROM_511

# the second file's block isn't written
< z Z
< t ID3V2_BLOCK Z Z
$ join --seamless o z t
| t: whole
> o INFO_FRONT THREE_OF_1459 INFO_REST Z Z_FROM_381 Z_FROM_511

# Pieces of exact splits. Of two neighbours the second begins with frames of the first.

PIECE_1 = INFO_FRONT TWO_OF_729 LAME_623_529 000002d9 0000 cd81 00*16 FULL_LEAD_IN FIRST_FROM_68
PIECE_2 = INFO_FRONT TWO LAME_623_529 00000412 0000 8a70 00*16 A
ALL_OF_A = INFO_FRONT THREE_OF_1146 LAME_623_529 0000047a 0000 cf7d 00*16 FULL_LEAD_IN FILLED_FROM_68 SECOND_FROM_149

# The second piece plays from position 623 + 529 on, 1,152, and the first to its end: one frame.
# pieces in order
< a A
to p01.mp3 p02.mp3 c o
$ split --exact a p 0 1 EOF
$ cut --exact a 0 EOF c
$ join --seamless o p01.mp3 p02.mp3
| p02.mp3: follows, 1 frames left out
> p01.mp3 PIECE_1
> p02.mp3 PIECE_2
> c ALL_OF_A
> o ALL_OF_A

# The shared frame has the gains of the first piece.
LOUDER_FROM_149 = fffb9000 4a800320003280000000640006500000000c8000ca0000000190001940 ~36 55*251 ~417
# one of them louder
< p01.mp3 PIECE_1
< p02.mp3 PIECE_2
to q o
$ gain -s s -g 1 p02.mp3 q
$ join --seamless o p01.mp3 q
| q: follows, 1 frames left out
> q INFO_FRONT TWO LAME_623_529 00000412 0000 8a70 00*16 FIRST_LOUDER SECOND_LOUDER
> o INFO_FRONT THREE_OF_1146 LAME_623_529 0000047a 0000 cf7d 00*16 FULL_LEAD_IN FILLED_FROM_68 LOUDER_FROM_149

# Silence around A. 0.13 s are 5,733 samples, in frame 4: 5 * 1,152 - 5,733 + 529 is 556, 22c (hex),
# and the second piece has frames 4 and 5 behind a lead-in, with the delay 1,152 + 5,733 - 4,608 -
# 529, 1,748, 6d4. It plays from position 2,277 on, and 27 positions of the first are behind its
# last: 2,304 positions, two frames. The lead-in needn't be alike any frame. FIRST begins 511 bytes
# before its area, 251 bytes into that of the second silent frame, and SECOND as many into that of
# the third.
SECOND_OF_THREE = fffb9000 e080 ~36 00*251 55*130
LAST_OF_THREE = fffb9000 ff80 ~36 55*170 00*81 55*130
FIRST_FROM_511 = fffb9000 ff8002580032000000004b000640000000096000c8000000012c0019 ~36 55*270 ~417
SECOND_FROM_511 = fffb9000 ff800320003200000000640006400000000c8000c800000001900019 ~417
# SECOND ends 492 bytes before the area of the last frame, 111101100, f600; and 49 where it is
# behind a lead-in.
Z_492 = fffb9000 f600 ~417
Z_49 = fffb9000 1880 ~417
UP_TO_A = LEAD_IN Z_68 SECOND_OF_THREE LAST_OF_THREE FIRST_FROM_511 SECOND_FROM_511
OF_THE_END = INFO_FRONT THREE_OF_1146 00*4 'LAME' 00*17 6d4211 00*4 0000047a 0000 badb 00*16 FULL_LEAD_IN SECOND_FROM_68 Z_49
SIX_OF_2397 = 'Xing' 0000000f000000060000095d 16*17 21*17 4d*16 7a*17 a6*17 d3*16
SEVEN_OF_2814 = 'Xing' 0000000f0000000700000afe 12*15 1c*14 42*14 68*15 8e*14 b4*14 da*14
ALL_OF_S = INFO_FRONT SEVEN_OF_2814 LAME_623_529 00000afe 0000 a084 00*16 UP_TO_A Z_492
# a piece with a lead-in
< s Z*3 A Z
to p01.mp3 p02.mp3 c o
$ split --exact s p 0 0.00.13 EOF
$ cut --exact s 0 EOF c
$ join --seamless o p01.mp3 p02.mp3
| p02.mp3: follows, 2 frames left out
> p01.mp3 INFO_FRONT SIX_OF_2397 00*4 'LAME' 00*17 26f22c 00*4 0000095d 0000 a1fc 00*16 UP_TO_A
> p02.mp3 OF_THE_END
> c ALL_OF_S
> o ALL_OF_S

# The first 441 samples, with the padding 1,152 - 441 + 529, 1,240, 4d8 (hex), and the same end. Its
# main data begin in the area of the lead-in of the first piece now, 449 bytes before their own.
Z_OF_SECOND = fffb9000 2200 ~36 55*332 ~417
SECOND_FROM_449 = fffb9000 e0800320003200000000640006400000000c8000c800000001900019 ~417
Z_430 = fffb9000 d700 ~417
# without the piece between, whose delay is 1,152 + 441 - 529, 1,064, 428 (hex)
< s Z*3 A Z
to p01.mp3 p02.mp3 p03.mp3 o
$ split --exact s p 0.0 0.00.01 0.00.13 EOF
$ join --seamless o p01.mp3 p03.mp3
| p03.mp3: lead-in left out
> p01.mp3 INFO_FRONT TWO_OF_729 00*4 'LAME' 00*17 26f4d8 00*4 000002d9 0000 5a5b 00*16 LEAD_IN Z_68
> p02.mp3 INFO_FRONT SIX_OF_2397 00*4 'LAME' 00*17 42822c 00*4 0000095d 0000 fa32 00*16 UP_TO_A
> p03.mp3 OF_THE_END
> o INFO_FRONT FOUR_OF_1563 LAME_623_529 0000061b 0000 03b3 00*16 FULL_LEAD_IN Z_OF_SECOND SECOND_FROM_449 Z_430

# A head that counts: the delay 576 and the padding 720, 240 and 2d0 (hex). Positions 1,105 to 4,417
# of four silent frames are played.
LAME_3_100 = 'LAME3.100' 11*12
K_FRONT = fffb9000 ~36 'Info' 0000000f0000000400000825 00*100 00000039
K = K_FRONT LAME_3_100 2402d0 22*12 ~417 Z*4
# 441 samples each, and the rest: positions 1,105, 1,546 and 1,987. The delays are these less 529,
# 576, 1,017 and 1,458, and the paddings of two frames 2,304 - 1,546 + 529, 1,287, and 846.
Z_TWICE = Z Z_FROM_381
Z_FOUR_TIMES = Z Z_FROM_381 Z_FROM_511 Z_FROM_511
ALL_OF_K = INFO_FRONT FOUR_OF_1876 00000039 LAME_3_100 2402d0 22*4 00000754 0000 304a 00*16 Z_FOUR_TIMES
# a piece that brings no frame
< k K
to p01.mp3 p02.mp3 p03.mp3 c o
$ split --exact k p 0 0.00.01 0.00.02 EOF
$ cut --exact k 0 EOF c
$ join --seamless o p01.mp3 p02.mp3 p03.mp3
| p02.mp3: follows, 2 frames left out
| p03.mp3: follows, 2 frames left out
> p01.mp3 INFO_FRONT TWO 00000039 LAME_3_100 240507 22*4 00000412 0000 d124 00*16 Z_TWICE
> p02.mp3 INFO_FRONT TWO 00000039 LAME_3_100 3f934e 22*4 00000412 0000 1eb0 00*16 Z_TWICE
> p03.mp3 INFO_FRONT FOUR_OF_1876 00000039 LAME_3_100 5b22d0 22*4 00000754 0000 b060 00*16 Z_FOUR_TIMES
> c ALL_OF_K
> o ALL_OF_K

# a single file keeps its numbers
< k K
$ join --seamless o k
> o ALL_OF_K

# Samples 2,304 to 3,456 are in frame 2, and 1,056 before is frame 1; those to the end are in frames
# 2 to 5. Of both the delay is 1,152 + 1,152 - 529, 1,775, 6ef.
LAME_1775_529 = 00*4 'LAME' 00*17 6ef211 00*4
Y_94 = fffb9000 2f00 OF_800 ~417
Y_75 = fffb9000 2580 OF_800 ~417
Y_56 = fffb9000 1c00 OF_800 ~417
Y_37 = fffb9000 1280 OF_800 ~417
EXACT_FIVE_LED = INFO_FRONT 'Xing' 0000000f0000000600000978 15*17 23*17 4f*16 7b*17 a7*17 d3*16 LAME_1775_529 00000978 0000 739a 00*16 LONGER_LEAD_IN Y_95 Y_76 Y_57 Y_38 Y_19
# two lead-ins, of which the first is too short for all frames
< d Z Y_381 Y_362 Y_343 Y_324 Y_305
to p01.mp3 p02.mp3 c o
$ split --exact d p 2 3 6
$ cut --exact d 2 6 c
$ join --seamless o p01.mp3 p02.mp3
| p02.mp3: follows, 2 frames left out
> p01.mp3 INFO_FRONT THREE_OF_1146 LAME_1775_529 0000047a 0000 479c 00*16 LEAD_IN Y_68 Y_49
> p02.mp3 INFO_FRONT 'Xing' 0000000f00000005000007d6 1a*20 2b*20 60*20 95*20 ca*20 LAME_1775_529 000007d6 0000 b501 00*16 LEAD_IN_40 Y_94 Y_75 Y_56 Y_37
> c EXACT_FIVE_LED
> o EXACT_FIVE_LED

# The first frame points 100 bytes into the head, so it is lost: an empty frame. The other has 481
# bytes, from 449 before its area on. Samples 0 to 441, and from there on: 1,152 + 441 - 529 is
# 1,064, 428 (hex).
POINTS_INTO_HEAD = fffb9000 3200 OF_762 ~417
OF_481_FROM_100 = fffb9000 3200 OF_962 ~417
OF_481_FROM_449 = fffb9000 e080 OF_962 ~417
ALL_OF_F = INFO_FRONT THREE_OF_1146 LAME_623_529 0000047a 0000 cf7d 00*16 LEAD_IN Z_68 OF_481_FROM_449
# a frame that points into the head
< f HEAD POINTS_INTO_HEAD OF_481_FROM_100
to p01.mp3 p02.mp3 c o
$ split --exact f p 0 0.00.01 EOF
$ cut --exact f 0 EOF c
$ join --seamless o p01.mp3 p02.mp3
| p02.mp3: follows, 2 frames left out
> p01.mp3 INFO_FRONT TWO_OF_729 00*4 'LAME' 00*17 26f4d8 00*4 000002d9 0000 5a5b 00*16 LEAD_IN Z_68
> p02.mp3 INFO_FRONT THREE_OF_1146 00*4 'LAME' 00*17 428211 00*4 0000047a 0000 94b3 00*16 LEAD_IN Z_68 OF_481_FROM_449
> c ALL_OF_F
> o ALL_OF_F

# MPEG-2.5, 8,000 Hz, one channel, 8 kbit/s: 576 positions a frame, an area of 59 bytes, 3b (hex),
# and at most 255 free bytes. 0.30 s are 2,400 samples, in frame 4: 5 * 576 - 2,400 + 529 is 1,009,
# 3f1. 2,400 - 1,056 is in frame 2, and 2,400 - 1,152 - 529 is 719, 2cf: frames 2 to 4 are in both
# pieces. The lead-in of the first piece is no other than they are. The Info frame has 216 bytes.
EIGHT = ffe318c0 ~72
EIGHT_59 = ffe318c0 3b ~72
EIGHT_118 = ffe318c0 76 ~72
EIGHT_177 = ffe318c0 b1 ~72
EIGHT_236 = ffe318c0 ec ~72
EIGHT_255 = ffe318c0 ff ~72
SIX_EIGHTS = EIGHT EIGHT_59 EIGHT_118 EIGHT_177 EIGHT_236 EIGHT_255
EIGHT_INFO = ffe338c0 00*9
SIX_OF_648 = 'Info' 0000000f0000000600000288 55*17 71*17 8e*16 aa*17 c7*17 e3*16 00*4 'LAME' 00*17
NINE_OF_864 = 'Info' 0000000f0000000900000360 40*12 55*11 6a*11 80*11 95*11 aa*11 c0*11 d5*11 ea*11 00*4 'LAME' 00*17
# MPEG-2.5
< m EIGHT*8
to p01.mp3 p02.mp3 o
$ split --exact m p 0.0 0.00.30 EOF
$ join --seamless o p01.mp3 p02.mp3
| p02.mp3: follows, 3 frames left out
> p01.mp3 EIGHT_INFO SIX_OF_648 02f3f1 00*4 00000288 0000 da4e 00*47 SIX_EIGHTS
> p02.mp3 EIGHT_INFO SIX_OF_648 2cf211 00*4 00000288 0000 348d 00*47 SIX_EIGHTS
> o EIGHT_INFO NINE_OF_864 02f211 00*4 00000360 0000 5938 00*47 SIX_EIGHTS EIGHT_255*3

# 300 bytes of main data leave 255 + 59 - 300, 14, and 159 want 145: 16 kbit/s have an area of 131,
# and 24 of 203. Alone they want 100, so that their lead-in is of 16 kbit/s.
OF_300_FROM_255 = ffe318c0 ff4b000190 ~72
LEAD_IN_16 = ffe328c0 ~144
OF_159_FROM_131 = ffe318c0 8327c00190 ~72
OF_159_FROM_14 = ffe338c0 0e27c00190 ~216
# a greater slot
< m EIGHT*9 OF_300_FROM_255
< n LEAD_IN_16 OF_159_FROM_131
$ join --seamless o m n
| n: lead-in left out
> o EIGHT_INFO 'Xing' 0000000f0000000b00000480 30*10 40*9 50*9 60*9 70*9 80*9 90*9 a0*9 b0*9 c0*9 d0*9 00*87 SIX_EIGHTS EIGHT_255*3 OF_300_FROM_255 OF_159_FROM_14

# Numbers: the delay of the first file and the padding of the last, if the head of the first counts.

FIVE_OF_2293 = 'Info' 0000000f00000005000008f5 17*20 45*20 74*20 a2*20 d1*20
SEVEN_OF_3127 = 'Info' 0000000f0000000700000c37 11*15 33*14 55*14 77*15 99*14 bb*14 dd*14
EIGHT_OF_3544 = 'Info' 0000000f0000000800000dd8 0f*13 2d*12 4b*13 69*12 87*13 a5*12 c3*13 e1*12
FIVE_Z = Z Z_FROM_381 Z_FROM_511*3
SEVEN_Z = Z Z_FROM_381 Z_FROM_511*5
EIGHT_Z = Z Z_FROM_381 Z_FROM_511*6
# Bytes 11 to 18 of the extension, peak and ReplayGain, go where they aren't those of all files.
WITHOUT_GAIN = 'LAME3.100' 1111 00*8 1111

# 1,000 is 3e8 (hex), and 1,105 is 451.
# songs that don't follow
< k K
< b K_FRONT LAME_3_100 4513e8 22*12 ~417 Z*4
$ join --seamless o k b
| b: whole
> o INFO_FRONT EIGHT_OF_3544 00000039 LAME_3_100 2403e8 22*4 00000dd8 0000 6e9a 00*16 EIGHT_Z

# the last has no head
< k K
< z Z
$ join --seamless o k z
| z: whole
> o INFO_FRONT FIVE_OF_2293 00000039 WITHOUT_GAIN 240211 22*4 000008f5 0000 4485 00*16 FIVE_Z

# the first has none
< z Z
< k K
$ join --seamless o z k
| k: whole
> o INFO_FRONT FIVE_OF_2293 INFO_REST FIVE_Z

# another peak
< k K
< b K_FRONT 'LAME3.100' 11*6 12 11*5 2402d0 22*12 ~417 Z*4
$ join --seamless o k b
| b: whole
> o INFO_FRONT EIGHT_OF_3544 00000039 WITHOUT_GAIN 2402d0 22*4 00000dd8 0000 91b2 00*16 EIGHT_Z

# The lead-in of PIECE_OF_SECOND goes, and one comes in front of a first file of one frame: its
# delay grows by 1,152, and 2,943 + 1,152 are 4,095, as many as 12 bits can say. 2,943 is b7f (hex).
ONE_FRONT = fffb9000 ~36 'Info' 0000000f0000000100000342 00*100 00000039
# the greatest delay
< a ONE_FRONT LAME_3_100 b7f2d0 22*12 ~417 AREA
< p02.mp3 PIECE_OF_SECOND
$ join --seamless o a p02.mp3
| p02.mp3: lead-in left out
> o INFO_FRONT THREE_OF_1146 00000039 WITHOUT_GAIN fff211 22*4 0000047a 0000 50f0 00*16 LEAD_IN AREA_BEFORE_55 SECOND_FROM_68

# one more
< a ONE_FRONT LAME_3_100 b802d0 22*12 ~417 AREA
< p02.mp3 PIECE_OF_SECOND
$ join --seamless o a p02.mp3
| p02.mp3: lead-in left out
> o INFO_FRONT THREE_OF_1146 INFO_REST LEAD_IN AREA_BEFORE_55 SECOND_FROM_68

# an encoder that doesn't count
< a ONE_FRONT 'GOGO59.27' 11*12 2402d0 22*12 ~417 AREA
< p02.mp3 PIECE_OF_SECOND
$ join --seamless o a p02.mp3
| p02.mp3: lead-in left out
> o INFO_FRONT THREE_OF_1146 INFO_REST LEAD_IN AREA_BEFORE_55 SECOND_FROM_68

# a head that says nothing
< a HEAD AREA
< p02.mp3 PIECE_OF_SECOND
$ join --seamless o a p02.mp3
| p02.mp3: lead-in left out
> o INFO_FRONT THREE_OF_1146 INFO_REST LEAD_IN AREA_BEFORE_55 SECOND_FROM_68

# alone
< b B
$ join --seamless o b
> o INFO_FRONT ONE INFO_REST Z

# Files that follow by their numbers: so many positions are behind the last that the one plays and
# before the first of the other. Of these frames those are compared in which the other plays, at
# least one, with the last that are written.

G_FROM_511 = fffb9000 ff80 000800320000000001000650000000002001fe0000000004001680 ~417
# Its 4 bytes are 251 bytes into the area of the last frame but one before it: 2 * 381 - 511.
Z_OF_NEXT = fffb9000 ~287 11223344 ~417
Z_381_OF_NEXT = fffb9000 be80 ~287 11223344 ~417
K_AND_K = INFO_FRONT SEVEN_OF_3127 00000039 LAME_3_100 2402d0 22*4 00000c37 0000 99a2 00*16 SEVEN_Z

# Four frames less 576 - 529 positions, and 1,105 positions: 1,152.
# alike
< a K_FRONT LAME_3_100 240240 22*12 ~417 Z*4
< k K
$ join --seamless o a k
| k: follows, 1 frames left out
> o K_AND_K

# another frame is at the end
< a K_FRONT LAME_3_100 240240 22*12 ~417 Z*3 G
< k K
$ join --seamless o a k
| k: whole
> o INFO_FRONT EIGHT_OF_3544 00000039 LAME_3_100 2402d0 22*4 00000dd8 0000 cdb2 00*16 Z Z_381_OF_NEXT Z_FROM_511 G_FROM_511 Z_FROM_511*4

# 1,728 is 6c0 (hex): 1,199 + 1,105 are two frames.
# the last but one is another
< a K_FRONT LAME_3_100 2406c0 22*12 ~417 Z*2 G Z
< k K
$ join --seamless o a k
| k: whole
> o INFO_FRONT EIGHT_OF_3544 00000039 LAME_3_100 2402d0 22*4 00000dd8 0000 cdb2 00*16 Z_OF_NEXT Z_FROM_381 G_FROM_511 Z_FROM_511*5

# No position is behind the last one, and 623 + 529, 1,152 are before the first: 623 is 26f, 100
# 064.
# a frame that isn't played is compared
< a K_FRONT LAME_3_100 240064 22*12 ~417 Z*4
< k K_FRONT LAME_3_100 26f2d0 22*12 ~417 Z*4
$ join --seamless o a k
| k: follows, 1 frames left out
> o K_AND_K

< a K_FRONT LAME_3_100 240211 22*12 ~417 Z*3 G
< k K_FRONT LAME_3_100 26f2d0 22*12 ~417 Z*4
$ join --seamless o a k
| k: whole
> o INFO_FRONT EIGHT_OF_3544 00000039 LAME_3_100 2402d0 22*4 00000dd8 0000 cdb2 00*16 Z Z_381_OF_NEXT Z_FROM_511 G_FROM_511 Z_FROM_511*4

# the first has no numbers
< z Z
< k K_FRONT LAME_3_100 26f2d0 22*12 ~417 Z*4
$ join --seamless o z k
| k: whole
> o INFO_FRONT FIVE_OF_2293 INFO_REST FIVE_Z

# 1,681, 691 (hex), are 1,152 and 529, so that one frame isn't played.
# the second has none
< k K_FRONT LAME_3_100 240691 22*12 ~417 Z*4
< z Z
$ join --seamless o k z
| z: whole
> o INFO_FRONT FIVE_OF_2293 00000039 WITHOUT_GAIN 240211 22*4 000008f5 0000 4485 00*16 FIVE_Z

# more frames than there are
< a K_FRONT LAME_3_100 2406c0 22*12 ~417 Z*4
< b ONE_FRONT LAME_3_100 240211 22*12 ~417 Z
$ join --seamless o a b
| b: whole
> o INFO_FRONT FIVE_OF_2293 00000039 LAME_3_100 240211 22*4 000008f5 0000 1885 00*16 FIVE_Z

# The head's area isn't main data: the first frame of the other file points 40 bytes into it.
POINTS_40_INTO_HEAD = fffb9000 1400 OF_800 ~417
# a lost frame is alike a silent one
< a K_FRONT LAME_3_100 240240 22*12 ~417 Z*4
< k K_FRONT LAME_3_100 2402d0 22*12 ~417 POINTS_40_INTO_HEAD Z*3
$ join --seamless o a k
| k: follows, 1 frames left out
> o K_AND_K

# one frame is left out, and another is lost
< a K_FRONT LAME_3_100 240240 22*12 ~417 Z*4
< k K_FRONT LAME_3_100 2402d0 22*12 ~417 Z Y_400 Z*2
$ join --seamless o a k
| k: follows, 1 frames left out, 1 frames lost
> o K_AND_K

# The frames that are left join in greater slots too. The same frame in another slot is alike.
THREE_FRONT_K = fffb9000 ~36 'Info' 0000000f0000000300000684 00*100 00000039
FULL_AT_224 = fffbc000 be80 OF_1762 ~731
LONG_AT_320 = fffbe200 3a00 OF_2218 ~1045
# room in a greater slot
< a THREE_FRONT_K LAME_3_100 2406c0 22*12 ~417 Z Z FULL_FROM_511
< b THREE_FRONT_K LAME_3_100 2402d0 22*12 ~417 Z FULL_AT_224 Y_116
$ join --seamless o a b
| b: follows, 2 frames left out
> o INFO_FRONT BEHIND_FULL 00000039 LAME_3_100 2402d0 22*4 000007bd 0000 b560 00*16 Z Z_FROM_381 FULL_FROM_511 Y_AT_160

# 1,109 bytes want 100 more than the greatest area has. 11 + 381 are 392, 110001000, c400, and 206
# are left behind the 881 bytes in 392 + 695: 011001110, 6700.
FULL_FROM_392 = fffbc000 c400 OF_1762 ~731
LONG_FROM_206 = fffbe200 6700 OF_2218 ~1045
# no room in any slot
< a THREE_FRONT_K LAME_3_100 2406c0 22*12 ~417 Z Z FULL_FROM_511
< b THREE_FRONT_K LAME_3_100 2402d0 22*12 ~417 Z FULL_AT_224 LONG_AT_320
$ join --seamless o a b
| b: whole
> o INFO_FRONT 'Xing' 0000000f0000000600000e44 0e*17 2b*17 49*16 66*17 83*17 b6*16 00000039 LAME_3_100 2402d0 22*4 00000e44 0000 5224 00*16 Z Z_FROM_381 FULL_FROM_511 Z_11 FULL_FROM_392 LONG_FROM_206

# What is compared: headers but their slots, side information but main_data_begin and gains, and
# main data. The first file has Z and a frame, the second G and Z, of which G is compared with that.

TWO_FRONT = fffb9000 ~36 'Info' 0000000f00000002000004e3 00*100 00000039
G_AND_Z = TWO_FRONT LAME_3_100 240211 22*12 ~417 G Z
Z_OF_G = fffb9000 ~36 11223344 ~417
G_FROM_381 = fffb9000 be80 000800320000000001000650000000002001fe0000000004001680 ~417
THREE_K = 00000039 LAME_3_100 240211 22*4 000005b3 0000 559d 00*16
FOUR_K = 00000039 LAME_3_100 240211 22*4 00000754 0000 cfb2 00*16
# the same frame
< a TWO_FRONT LAME_3_100 240240 22*12 ~417 Z G
< b G_AND_Z
$ join --seamless o a b
| b: follows, 1 frames left out
> o INFO_FRONT THREE_OF_1459 THREE_K Z_OF_G G_FROM_381 Z_FROM_511

PADDED_G = fffb9200 0000000800320000000001000650000000002001fe0000000004001680 ~36 11223344 ~418
PADDED_FROM_381 = fffb9200 be80 000800320000000001000650000000002001fe0000000004001680 ~418
# padded
< a TWO_FRONT LAME_3_100 240240 22*12 ~417 Z PADDED_G
< b G_AND_Z
$ join --seamless o a b
| b: follows, 1 frames left out
> o INFO_FRONT 'Info' 0000000f00000003000005b4 24*34 6d*33 b6*33 00000039 LAME_3_100 240211 22*4 000005b4 0000 6c67 00*16 Z_OF_G PADDED_FROM_381 Z_FROM_511

# The last frames that are written needn't be those of the file before: its lead-in is like Z, and G
# is there in its place. Behind G 377 bytes are left, 101111001, bc80; then 358 and 492.
Y_377 = fffb9000 bc80 OF_800 ~417
Z_358 = fffb9000 b300 ~417
# the frames before a file whose lead-in was left out
< g G
< b TWO_FRONT LAME_3_100 2406c0 22*12 ~417 LEAD_IN Y_68
< c THREE_FRONT_K LAME_3_100 2402d0 22*12 ~417 Z Y_381 Z
$ join --seamless o g b c
| b: lead-in left out
| c: whole
> o INFO_FRONT FIVE_OF_2293 INFO_REST G Y_377 Z_358 Y_511 Z_492

Z_OF_BOTH = fffb9000 ~36 11223344 ~287 11223344 ~417
ORIGINAL_FROM_381 = fffb9008 be80 000800320000000001000650000000002001fe0000000004001680 ~417
# the fourth byte of the header
< a TWO_FRONT LAME_3_100 240240 22*12 ~417 Z G@3=08
< b G_AND_Z
$ join --seamless o a b
| b: whole
> o INFO_FRONT FOUR_OF_1876 FOUR_K Z_OF_BOTH ORIGINAL_FROM_381 G_FROM_511 Z_FROM_511

HEADER_BIT_FROM_381 = fffb9100 be80 000800320000000001000650000000002001fe0000000004001680 ~417
# the private bit of the header
< a TWO_FRONT LAME_3_100 240240 22*12 ~417 Z G@2=91
< b G_AND_Z
$ join --seamless o a b
| b: whole
> o INFO_FRONT FOUR_OF_1876 FOUR_K Z_OF_BOTH HEADER_BIT_FROM_381 G_FROM_511 Z_FROM_511

PRIVATE_FROM_381 = fffb9000 be90 000800320000000001000650000000002001fe0000000004001680 ~417
# a private bit of the side information
< a TWO_FRONT LAME_3_100 240240 22*12 ~417 Z G@5=10
< b G_AND_Z
$ join --seamless o a b
| b: whole
> o INFO_FRONT FOUR_OF_1876 FOUR_K Z_OF_BOTH PRIVATE_FROM_381 G_FROM_511 Z_FROM_511

# main data
< a TWO_FRONT LAME_3_100 240240 22*12 ~417 Z G@36=12
< b G_AND_Z
$ join --seamless o a b
| b: whole
> o INFO_FRONT FOUR_OF_1876 FOUR_K Z_OF_BOTH@36=12 G_FROM_381 G_FROM_511 Z_FROM_511

# other bytes of the area
< a TWO_FRONT LAME_3_100 240240 22*12 ~417 Z G@40=55
< b G_AND_Z
$ join --seamless o a b
| b: follows, 1 frames left out
> o INFO_FRONT THREE_OF_1459 THREE_K Z_OF_G G_FROM_381 Z_FROM_511

# What is refused. Nothing is created.

< a A
$ join --seamless
! 2 bad word 3

< a A
$ join --seamless o
! 2 bad word 4

< a A
$ join o --seamless a
! 2 bad word 3

# 65 files
< a A
$ join --seamless o a a a a a a a a a a a a a a a a a a a a a a a a a a a a a a a a a a a a a a a a a a a a a a a a a a a a a a a a a a a a a a a a a
! 2 bad word 68

< a A
< m M
$ join --seamless a m a
! 1 a: input is an output

# another class
< a A
< m M
$ join --seamless o a m
! 1 m: other class than the first input

< a A
$ join --seamless o a x
! 3 x: absent
- x

# Each call of the outside fails in turn. The text is sent after the file, which is whole then.

# pieces
< p01.mp3 PIECE_OF_FIRST
< p02.mp3 PIECE_OF_SECOND
$ join --seamless o p01.mp3 p02.mp3
| p02.mp3: lead-in left out
> o WHOLE_A
each Find 2 p01.mp3: read fault, p02.mp3: read fault
each Create 1 o: write fault
each Write 1 o: write fault
each Send 1 standard output: write fault

# frames that are compared
< p01.mp3 PIECE_1
< p02.mp3 PIECE_2
$ join --seamless o p01.mp3 p02.mp3
| p02.mp3: follows, 1 frames left out
> o ALL_OF_A
each Find 2 p01.mp3: read fault, p02.mp3: read fault
each Create 1 o: write fault
each Write 1 o: write fault
each Send 1 standard output: write fault

# without heads
< a A
< z Z
$ join --seamless o a z
| z: whole
> o INFO_FRONT THREE_OF_1459 INFO_REST FIRST SECOND Z_62
each Read 4 a: read fault, z: read fault, a: read fault, z: read fault

# Long files, of which neither what is read nor what is written is held whole.
< h G*1000
room 834208
$ join --seamless o h h
| h: whole
> o INFO_FRONT 'Info' 0000000f000007d0000cbaa0 000205070a0c0f111417191c1e212326292b2e303335383a3d404245474a4c4f515457595c5e616366686b6e707375787a7d808285878a8c8f919497999c9ea1a3a6a8abaeb0b3b5b8babdc0c2c5c7cacccfd1d4d7d9dcdee1e3e6e8ebeef0f3f5f8fafd INFO_REST G_FIRST G_SECOND G_AMONG*1996 G_LAST*2
each Read 1 after 700000 h: read fault
";
