//! Files that are packed: with the least bit rates, with some alone, and in the fewest bytes. The
//! bytes were worked out by hand from the standard's tables.

pub static ROWS: &str = "
# pack

# How lengths, areas, main_data_begin, Info frames and their tables come about is said in `names`.
# What is packed gets the frames of the least bit rates that its main data fit in; bytes that an
# area has left are the next frame's.

# Z at 32 kbit/s.
LEAST = fffb1000 ~104
# Z at 32 kbit/s, where main data could begin 68 bytes before the area.
LEAST_FROM_68 = fffb1000 22 ~104
# FIRST at 112 kbit/s, with an area of 365 - 36 bytes, 329: behind its 300 bytes are 29 of the frame
# behind it. At 96 kbit/s it would have 313 - 36, 277.
FIRST_AT_112 = fffb8000 000002580032000000004b000640000000096000c8000000012c0019 ~36 55*329 ~365
# SECOND, whose main data begin 29 bytes before its own area: 29 is 000011101, 0e80. The other 371
# fit in the 381 of 128 kbit/s, and don't in the 329 of 112.
SECOND_FROM_29 = fffb9000 0e800320003200000000640006400000000c8000c800000001900019 ~36 55*371 ~417
# 320 kbit/s, padded, 144 * 320 / 44.1 rounded down and 1, 1,045 bytes with an area of 1,009: 498
# bytes of main data, and from byte 498 on 511 of the frame behind it.
FULL_0 = fffbe200 000003e40032000000007c8006400000000f9000c800000001f20019 ~36 55*1009 ~1045
# The same with 1,009 bytes of main data, from 511 bytes before its own area on.
FULL_1 = fffbe200 ff8007e2003200000000fc4006400000001f8800c800000003f10019 ~36 55*1009 ~1045
# The same with 1,520 bytes, 511 + 1,009, up to the end of its area.
FULL_2 = fffbe200 ff800be00032000000017c0006400000002f8000c800000005f00019 ~36 55*1009 ~1045
# The fields in front of the table of two frames of 104 bytes: 208 + 2 * 104. In the table are 256 *
# 208 / 416, 80 (hex), and 256 * 312 / 416, c0.
TWO_OF_416 = 'Info' 0000000f00000002000001a0
# A head's extension, 36 bytes, behind the quality 57.
LAME = 00000039 'LAME3.100abcdefghijklmnopqrstuvwxyz-'
# A granule of 3 bits, and behind them other bits.
THREE_BITS = fffb9000 000000030032 ~36 ffff ~417
# The same at 32 kbit/s, where the other bits are 0.
THREE_BITS_ALONE = fffb1000 000000030032 ~36 e0 ~104

# a lower bit rate: 208 + 365 + 417 bytes; 256 * 208 / 990 gives 35 (hex), 256 * 573 / 990 gives 94
< a A
$ pack a o
> o INFO_FRONT 'Xing' 0000000f00000002000003de 35*50 94*50 INFO_REST FIRST_AT_112 SECOND_FROM_29

# Behind `-n` a file is there also where it has the bytes that would be written.
< a A
< o INFO_FRONT 'Xing' 0000000f00000002000003de 35*50 94*50 INFO_REST FIRST_AT_112 SECOND_FROM_29
$ -n pack a o
! 1 o: exists

# The last frame has need of the two before it: all slots and begins stay.
# the greatest slots: 208 + 3 * 1,045 bytes
< a FULL_0 FULL_1 FULL_2
$ pack a o
> o INFO_FRONT 'Info' 0000000f0000000300000d0f 0f*34 5f*33 af*33 INFO_REST FULL_0 FULL_1 FULL_2

# The quality and the extension of a head are kept.

# quality and extension of a head
< a fffb9000 00*32 'Xing' 0000000f0000000700000007 07*100 LAME 07*225 Z Z
$ pack a o
> o INFO_FRONT TWO_OF_416 80*50 c0*50 LAME 00*16 LEAST LEAST_FROM_68

# Only main data are written.

# bits behind the main data: 208 + 104 bytes, and 256 * 208 / 312 gives aa (hex)
< a THREE_BITS
$ pack a o
> o INFO_FRONT 'Info' 0000000f0000000100000138 aa*100 INFO_REST THREE_BITS_ALONE

# a lost frame, which is empty then
< a LOST Z
$ pack a o
> o INFO_FRONT TWO_OF_416 80*50 c0*50 INFO_REST LEAST LEAST_FROM_68

# It is the whole file: 312 bytes are written.
# a frame alone whose main data begin before the file
< a SECOND
$ pack a o
> o INFO_FRONT 'Info' 0000000f0000000100000138 aa*100 INFO_REST LEAST

# Both frames in the least slots: one of 112 kbit/s, 365 bytes, whose area of 329 has 29 bytes after
# its own main data; and one of 128 kbit/s, whose main data begin in these.
BOTH_PACKED = INFO_FRONT 'Xing' 0000000f00000002000003de 35*50 94*50 INFO_REST fffb8000 00000960 00*28 11*300 22*29 fffb9000 0e800c80 00*28 22*371 00*10

# packed
< a TWO_FRAMES
to b
$ pack a b
> b BOTH_PACKED

# MPEG-2.5, 8,000 Hz, 8 kbit/s, one channel, silent, with an area of 72 - 4 - 9 bytes, 59.
SLOWEST = ffe318c0 ~72
# The same where main data could begin 59 bytes before its area.
SLOWEST_FROM_59 = ffe318c0 3b ~72

# packed: MPEG-2.5, 8,000 Hz, with an Info frame of 24 kbit/s, 216 bytes, since it needs 4 + 9 + 156
# and 16 kbit/s have 144; 216 + 2 * 72 bytes together
< m SLOWEST SLOWEST
$ pack m o
> o ffe338c0 00*9 'Info' 0000000f0000000200000168 99*50 cc*50 00*87 SLOWEST SLOWEST_FROM_59

# Check words are renewed.

# WORD_0 at 112 kbit/s, with an area of 365 - 38 bytes, 327, so 27 are left.
WORD_0_LEAST = fffa8000 f16a 000002580032000000004b000640000000096000c8000000012c0019 ~38 55*327 ~365
# WORD_1 at 160 kbit/s, whose main data begin 27 bytes before its area: 447 - 27 are 420, more than
# the 379 of 128 kbit/s, and it has 522 - 38, 484.
WORD_1_LEAST = fffaa000 195e 0d80037e0032000000006fc006400000000df800c800000001bf0019 ~38 55*420 ~522

# packed: 208 + 365 + 522 bytes
< a WORD_0 WORD_1
$ pack a o
> o INFO_FRONT 'Xing' 0000000f0000000200000447 30*50 85*50 00*56 WORD_0_LEAST WORD_1_LEAST

# Where tags are in a file whose main data are laid anew.

# The two bytes and the junk go. A header stands in the junk, but what is behind it is none.
# zero bytes, junk and tags
< a ID3V2_BLOCK 00*2 55*100 fffb9000 55*196 Z Z APE ID3V1_BLOCK
$ pack a o
> o ID3V2_BLOCK INFO_FRONT 'Info' 0000000f00000002000001a0 80*50 c0*50 INFO_REST LEAST LEAST_FROM_68 APE ID3V1_BLOCK

# Bit rates that are asked for.

# Frames of 96 kbit/s, 313 bytes with areas of 277. FIRST needs 300, so there is a lead-in; 23 are
# in its own area then, which leaves 254 to SECOND, and this has 146 in its own. 277 is 100010101,
# 8a80, and 254 is 011111110, 7f00.
LEAD_IN_OF_96 = fffb7000 ~36 55*277 ~313
FIRST_AT_96 = fffb7000 8a8002580032000000004b000640000000096000c8000000012c0019 ~36 55*277 ~313
SECOND_AT_96 = fffb7000 7f000320003200000000640006400000000c8000c800000001900019 ~36 55*146 ~313

# Packed with one bit rate, with a lead-in, 208 + 3 * 313 bytes; and with bit rates from one on.

< a A
$ pack --constant 96 a o
> o INFO_FRONT 'Info' 0000000f000000030000047b 2e*34 74*33 ba*33 INFO_REST LEAD_IN_OF_96 FIRST_AT_96 SECOND_AT_96

< a A
$ pack --floor 128 a o
> o INFO_FRONT TWO_OF_1042 33*50 99*50 INFO_REST FIRST SECOND

# Refused bit rates. At 64 kbit/s an area has 172 bytes: FIRST leaves 44 of two, and SECOND needs
# 400. At 32 it has 68, and two don't hold the 300 of FIRST.

< a A
$ pack --constant 64 a o
! 1 frame 1 does not fit

< a A
$ pack --constant 32 a o
! 1 frame 0 does not fit

< a A
$ pack --constant 100 a o
! 1 no rate 100

< a A
$ pack --floor 008 a o
! 1 no rate 8

# In the fewest bytes.

# Two frames of 128 kbit/s: 4 times 136 bits, 68 bytes of main data; and 4 times 766 bits, 383
# bytes, two of which are in the area before its own.
SHORT = fffb9000 0000008800000000000011000000000000022000000000000044 ~36 55*381
LONGER = fffb9000 010002fe0000000000005fc000000000000bf80000000000017f ~36 55*381
# The first at 32 kbit/s, padded, with an area of 69 bytes, of which one is left; and the second at
# 128 kbit/s, padded, with an area of 382, which has all but one of its bytes.
SHORT_PADDED = fffb1200 0000008800000000000011000000000000022000000000000044 ~36 55*69
LONG_PADDED = fffb9200 008002fe0000000000005fc000000000000bf80000000000017f ~36 55*382
# The first at 32 kbit/s, with an area of 68 bytes.
SHORT_AT_32 = fffb1000 0000008800000000000011000000000000022000000000000044 ~36 55*68
# The second at 160 kbit/s after it, with an area of 486 bytes.
LONG_AT_160 = fffba000 000002fe0000000000005fc000000000000bf80000000000017f ~36 55*383 ~522
# 4 times 2,020 bits, 1,010 bytes, a byte more than the largest area has. They begin with the last
# byte of the area of the head before it.
LARGE = fffbe200 008007e4000000000000fc8000000000001f90000000000003f2 ~36 55*1009
# A lead-in of 80 kbit/s, whose area of 225 bytes has main data of the frame after it.
LEAD_IN_OF_80 = fffb6000 ~36 55*225
# The frame at 256 kbit/s after it, with an area of 799 bytes: 225 of 1,010 bytes are before it, so
# 785 are in it. 225 is 011100001, 7080.
LARGE_AT_256 = fffbd000 708007e4000000000000fc8000000000001f90000000000003f2 ~36 55*785 ~835
# Z at 32 kbit/s, where main data could begin 136 bytes before the area.
LEAST_FROM_136 = fffb1000 44 ~104
# 300 bytes of main data in an area of 329.
FIRST_ALONE_AT_112 = fffb8000 000002580032000000004b000640000000096000c8000000012c0019 ~36 55*300 ~365

# each the least, 208 + 104 + 522 bytes
< e SHORT LONGER
$ pack e o
> o INFO_FRONT 'Xing' 0000000f0000000200000342 3f*50 5f*50 INFO_REST SHORT_AT_32 LONG_AT_160

# a byte more in front saves 104 behind it: 208 + 105 + 418 bytes
< e SHORT LONGER
$ pack --best e o
> o INFO_FRONT 'Xing' 0000000f00000002000002db 48*50 6d*50 INFO_REST SHORT_PADDED LONG_PADDED

# The fewest bytes that have room are 329 + 381 and 381 + 329, and the list with the lesser area in
# front is taken.
# the same as the least bit rates
< a A
$ pack --best a o
> o INFO_FRONT 'Xing' 0000000f00000002000003de 35*50 94*50 INFO_REST FIRST_AT_112 SECOND_FROM_29

# behind a lead-in, where the head's area is missing: 208 + 261 + 835 bytes
< l INFO_FRONT 'Info' 00*167 55 LARGE
$ pack --best l o
> o INFO_FRONT 'Xing' 0000000f0000000200000518 28*50 5c*50 INFO_REST LEAD_IN_OF_80 LARGE_AT_256

# silent frames: 208 + 3 * 104 bytes
< s Z Z Z
$ pack --best s o
> o INFO_FRONT 'Info' 0000000f0000000300000208 66*34 99*33 cc*33 INFO_REST LEAST LEAST_FROM_68 LEAST_FROM_136

# one frame: 208 + 365 bytes
< a FIRST_ALONE
$ pack --best a o
> o INFO_FRONT 'Info' 0000000f000000010000023d 5c*100 INFO_REST FIRST_ALONE_AT_112

# Equal names and an absent input.

< a A
$ pack a a
! 1 a: input is an output

< a A
$ pack x o
! 3 x: absent
- x

# Want of memory comes before the output is created.

< u ID3V2_BLOCK HEAD Z Z APE
$ pack u o
> o ID3V2_BLOCK INFO_FRONT 'Info' 0000000f00000002000001a0 80*50 c0*50 INFO_REST LEAST LEAST_FROM_68 APE

# Each call fails in turn.

< u ID3V2_BLOCK HEAD Z Z APE
$ pack u o
> o ID3V2_BLOCK INFO_FRONT 'Info' 0000000f00000002000001a0 80*50 c0*50 INFO_REST LEAST LEAST_FROM_68 APE
each Find 1 u: read fault
each Read 2 u: read fault
each Create 1 o: write fault
each Write 1 o: write fault

# Each call fails in turn.
< u A
$ pack u o
> o INFO_FRONT 'Xing' 0000000f00000002000003de 35*50 94*50 INFO_REST FIRST_AT_112 SECOND_FROM_29
each Find 1 u: read fault
each Read 2 u: read fault
each Create 1 o: write fault
each Write 1 o: write fault

< u A
$ pack --constant 96 u o
> o INFO_FRONT 'Info' 0000000f000000030000047b 2e*34 74*33 ba*33 INFO_REST LEAD_IN_OF_96 FIRST_AT_96 SECOND_AT_96
each Find 1 u: read fault
each Read 2 u: read fault
each Create 1 o: write fault
each Write 1 o: write fault

< u A
$ pack --floor 128 u o
> o INFO_FRONT TWO_OF_1042 33*50 99*50 INFO_REST FIRST SECOND
each Find 1 u: read fault
each Read 2 u: read fault
each Create 1 o: write fault
each Write 1 o: write fault

# Each call fails in turn.
< u SHORT LONGER
$ pack --best u o
> o INFO_FRONT 'Xing' 0000000f00000002000002db 48*50 6d*50 INFO_REST SHORT_PADDED LONG_PADDED
each Find 1 u: read fault
each Read 2 u: read fault
each Create 1 o: write fault
each Write 1 o: write fault

# Long files, of which neither what is read nor what is written is held whole.

# G at 32 kbit/s. Each of these frames leaves 68 - 4, 64 bytes free: main data begin 64 bytes farther
# back from frame to frame, at most 511. Those of the first eight fill 32 bytes of the first area, and
# those of the others begin 33 bytes into an area, 8 * 68 - 511. A thousand of them and the Info frame
# have 208 + 1,000 * 104 bytes.
LEAST_G = fffb1000 0000000800320000000001000650000000002001fe0000000004001680 ~36 11223344*8 00 11223344 ~104
LEAST_G_FROM_64 = fffb1000 2000000800320000000001000650000000002001fe0000000004001680 ~69 11223344 ~104
LEAST_G_FROM_128 = fffb1000 4000000800320000000001000650000000002001fe0000000004001680 ~69 11223344 ~104
LEAST_G_FROM_192 = fffb1000 6000000800320000000001000650000000002001fe0000000004001680 ~69 11223344 ~104
LEAST_G_FROM_256 = fffb1000 8000000800320000000001000650000000002001fe0000000004001680 ~69 11223344 ~104
LEAST_G_FROM_320 = fffb1000 a000000800320000000001000650000000002001fe0000000004001680 ~69 11223344 ~104
LEAST_G_FROM_384 = fffb1000 c000000800320000000001000650000000002001fe0000000004001680 ~69 11223344 ~104
LEAST_G_FROM_448 = fffb1000 e000000800320000000001000650000000002001fe0000000004001680 ~69 11223344 ~104
LEAST_G_FROM_511 = fffb1000 ff80000800320000000001000650000000002001fe0000000004001680 ~69 11223344 ~104
LEAST_G_LAST = fffb1000 ff80000800320000000001000650000000002001fe0000000004001680 ~104
LEAST_EIGHT = LEAST_G LEAST_G_FROM_64 LEAST_G_FROM_128 LEAST_G_FROM_192 LEAST_G_FROM_256 LEAST_G_FROM_320 LEAST_G_FROM_384 LEAST_G_FROM_448

< h G*1000
room 104208
$ pack h o
> o INFO_FRONT 'Info' 0000000f000003e800019710 000305080a0d0f1214171a1c1f212426292b2e313336383b3d404245484a4d4f525457595c5f616466696b6e707376787b7d808285878a8d8f929497999c9ea1a4a6a9abaeb0b3b5b8bbbdc0c2c5c7cacccfd2d4d7d9dcdee1e3e6e9ebeef0f3f5f8fafd INFO_REST LEAST_EIGHT LEAST_G_FROM_511*984 LEAST_G_LAST*8
each Read 1 after 65536 h: read fault

# 480 frames of 417 bytes, 200,160, are read by 65,536: in 4 reads by the survey, and in 4 more. The
# output has 208 + 200,160 bytes, which are written by 65,536 too: three writes of them, and a
# fourth.
< u G*480
room 200368
$ pack --constant 128 u o
> o INFO_FRONT 'Info' 0000000f000001e000030eb0 000205070a0d0f111417191b1e212326282b2e303335383a3d404244474a4c4f515457595b5e616366686b6e707375787a7d808284878a8c8f919497999b9ea1a3a6a8abadb0b3b5b8babdc0c2c4c7caccced1d4d6d9dbdee1e3e6e8ebedf0f3f5f8fafd INFO_REST G_FIRST G_SECOND G_AMONG*476 G_LAST*2
each Read 8 after 65536 u: read fault
each Write 4 after 196608 o: write fault

# The same file, of which 208 + 480 * 104, 50,128 bytes are made: they are written at once.
< u G*480
room 50128
$ pack --best u o
> o INFO_FRONT 'Info' 0000000f000001e00000c3d0 010305080b0d0f1215171a1c1f212427292c2e313436383b3e404245484a4d4f5254575a5c5f616467696b6e717375787b7d808285878a8d8f9294979a9c9ea1a4a6a8abaeb0b3b5b8babdc0c2c5c7cacdcfd1d4d7d9dbdee1e3e6e8ebedf0f3f5f8fafd INFO_REST LEAST_EIGHT LEAST_G_FROM_511*464 LEAST_G_LAST*8
each Read 8 u: read fault
each Write 1 o: write fault
";
