//! Files with more frames than any other file of the tests, and splits into as many pieces as there may
//! be: each command finds memory for them. The bytes are those of `checks/laid.py` and
//! `checks/spans.py`, which share nothing with the program.

/// Frames and stretches that the texts here share.
pub static DEFINED: &str = "
# MPEG-2, 8 kbit/s, 24,000 Hz, one channel: 24 bytes and 576 samples, so that 120,000 of them are 48
# minutes. Each has an area of 11 bytes and 8 bits of main data; the gain is 100.
MANY = fff314c0 0000400190 ~13 aa ~24
# The same with the gain 101.
MANY_LOUDER = fff314c0 0000400194 ~13 aa ~24
# The first 26 of these frames where main data are laid anew. Each leaves 10 bytes, so that those of
# the next begin 10 bytes farther back. The first 26 bytes follow one another; the 27th is at 26 * 11
# - 255, 31, which is byte 9 of the third area.
NEAR = fff314c0 0000400190 ~13 aa*11 fff314c0 0a00400190 ~37 aa*11 fff314c0 1400400190 ~61 aa*4 ~70 aa ~72 fff314c0 1e00400190 ~94 aa ~96 fff314c0 2800400190 ~118 aa ~120 fff314c0 3200400190 ~142 aa ~144 fff314c0 3c00400190 ~166 aa ~168 fff314c0 4600400190 ~190 aa ~192 fff314c0 5000400190 ~214 aa ~216 fff314c0 5a00400190 ~238 aa ~240 fff314c0 6400400190 ~262 aa ~264 fff314c0 6e00400190 ~286 aa ~288 fff314c0 7800400190 ~310 aa ~312 fff314c0 8200400190 ~334 aa ~336 fff314c0 8c00400190 ~358 aa ~360 fff314c0 9600400190 ~382 aa ~384 fff314c0 a000400190 ~406 aa ~408 fff314c0 aa00400190 ~430 aa ~432 fff314c0 b400400190 ~454 aa ~456 fff314c0 be00400190 ~478 aa ~480 fff314c0 c800400190 ~502 aa ~504 fff314c0 d200400190 ~526 aa ~528 fff314c0 dc00400190 ~550 aa ~552 fff314c0 e600400190 ~574 aa ~576 fff314c0 f000400190 ~598 aa ~600 fff314c0 fa00400190 ~622 aa ~624
# The others, whose main data begin as far before the area as they may, 255 bytes. An area has the
# byte of the 24th frame after it, and the last 24 have none.
FAR = fff314c0 ff00400190 ~22 aa ~24
FAR_LAST = fff314c0 ff00400190 ~24
# The first 26 behind a lead-in like them, which is the first of these.
LED_NEAR = fff314c0 ~13 aa*11 fff314c0 0b00400190 ~37 aa*11 fff314c0 1500400190 ~61 aa*3 ~70 aa ~72 fff314c0 1f00400190 ~94 aa ~96 fff314c0 2900400190 ~118 aa ~120 fff314c0 3300400190 ~142 aa ~144 fff314c0 3d00400190 ~166 aa ~168 fff314c0 4700400190 ~190 aa ~192 fff314c0 5100400190 ~214 aa ~216 fff314c0 5b00400190 ~238 aa ~240 fff314c0 6500400190 ~262 aa ~264 fff314c0 6f00400190 ~286 aa ~288 fff314c0 7900400190 ~310 aa ~312 fff314c0 8300400190 ~334 aa ~336 fff314c0 8d00400190 ~358 aa ~360 fff314c0 9700400190 ~382 aa ~384 fff314c0 a100400190 ~406 aa ~408 fff314c0 ab00400190 ~430 aa ~432 fff314c0 b500400190 ~454 aa ~456 fff314c0 bf00400190 ~478 aa ~480 fff314c0 c900400190 ~502 aa ~504 fff314c0 d300400190 ~526 aa ~528 fff314c0 dd00400190 ~550 aa ~552 fff314c0 e700400190 ~574 aa ~576 fff314c0 f100400190 ~598 aa ~600 fff314c0 fb00400190 ~622 aa ~624
# The fields of the Info frames up to their numbers of frames and of bytes. They need 4 + 9 + 156
# bytes, and 56 kbit/s have 168 and one padded. Beside so many frames the Info frame is too short to
# change an entry of the table, so that it is the same with more.
INFO_NUMBERS = fff376c0 00*9 'Info' 0000000f
INFO_TABLE = 000205070a0c0f111417191c1e212326282b2e303335383a3d404245474a4c4f515457595c5e616366686b6e707375787a7d808285878a8c8f919497999c9ea1a3a6a8abaeb0b3b5b8babdc0c2c5c7cacccfd1d4d7d9dcdee1e3e6e8ebeef0f3f5f8fafd
LAME = 'LAME' 00*17
";

/// Each command over 120,000 frames or more.
pub static ONE_CHANNEL: &str = "
# many_frames, one channel

MANY_FRAMES = MANY*120000
LOUDER_FRAMES = MANY_LOUDER*120000
# The file that is written of these frames: 169 + 120,000 * 24, 2,880,169 bytes.
LAID = INFO_NUMBERS 0001d4c0002bf2a9 INFO_TABLE 00*40 NEAR FAR*119950 FAR_LAST*24
# The exact piece of all samples: a lead-in of 24 bytes before them, the delay 576 - 529, 02f (hex),
# and the padding 529, 211.
EXACT = INFO_NUMBERS 0001d4c1002bf2c1 INFO_TABLE 00*4 LAME 02f211 00*4 002bf2c1 0000 2c42 LED_NEAR FAR*119951 FAR_LAST*24
# The tag that notes a step up.
NOTE = UNDO_FRONT '-001,-001,N' UNDO_END
# A sheet of one track.
TRACK = 'TRACK_01_AUDIO' 0a 'INDEX_01_00:00:00' 0a

# read

< a MANY_FRAMES
$ list a
| frame 0 at 0: 8 kbit/s, begin 0, bits 8
| ...
| 120000 frames, MPEG-2, 24000 Hz, 1 channels, 48.00.00

< a MANY_FRAMES
$ info a
| MPEG-2, 24000 Hz, 1 channels
| 120000 frames, 0 lost, 48.00.00
| 8 kbit/s
| 120000 of 1320000 bytes are main data
| no head
| plays 69120000 samples
| mono: gains 100 to 100, steps -100 to +155

# with other gains, and back

< a MANY_FRAMES
room 2880000
$ gain -s s -g 1 a o
> o LOUDER_FRAMES

< a MANY_FRAMES
to o p
room 2880096
$ gain -g 1 a o
$ gain -u o p
> o LOUDER_FRAMES NOTE
> p MANY_FRAMES

< a MANY_FRAMES
< s '0_1'
to o p
room 2880000
$ fade a o s
$ fade --back o p s
> o LOUDER_FRAMES
> p MANY_FRAMES

# laid anew

< a MANY_FRAMES
room 2880169
$ cut a 0 EOF o
> o LAID

< a MANY_FRAMES
room 2880169
$ cut --least a 0 EOF o
> o LAID

# two stretches, of one frame each
< a MANY*120002
room 2880169
$ remove a o 40000 40001 80001 80002
> o LAID

< a MANY_FRAMES
room 2880169
$ pack a o
> o LAID

< a MANY_FRAMES
room 2880169
$ pack --constant 8 a o
> o LAID

< a MANY_FRAMES
room 2880169
$ pack --floor 8 a o
> o LAID

< a MANY_FRAMES
to p01.mp3
room 2880169
$ split a p 0 EOF
> p01.mp3 LAID

< a MANY_FRAMES
< s TRACK
to p01.mp3
room 2880169
$ split a p -c s
> p01.mp3 LAID

< a MANY_FRAMES
room 2880169
$ salvage a o
| 120000 frames, 0 gaps, 0 empty
> o LAID

# exact pieces, which end after more than 43 minutes

< a MANY_FRAMES
room 2880193
$ cut --exact a 0 EOF o
> o EXACT

< a MANY_FRAMES
to p01.mp3
room 2880193
$ split --exact a p 0 EOF
> p01.mp3 EXACT

< a MANY_FRAMES
< s TRACK
to p01.mp3
room 2880193
$ split --exact a p -c s
> p01.mp3 EXACT

# 240,000 frames.
# joined

< a MANY_FRAMES
room 5760169
$ join o a a
> o INFO_NUMBERS 0003a9800057e4a9 INFO_TABLE 00*40 NEAR FAR*239950 FAR_LAST*24

< a MANY_FRAMES
room 5760169
$ join --seamless o a a
| a: whole
> o INFO_NUMBERS 0003a9800057e4a9 INFO_TABLE 00*40 NEAR FAR*239950 FAR_LAST*24

# 200,000 frames, as many as may be packed in the fewest bytes.
< a MANY*200000
room 4800169
$ pack --best a o
> o INFO_NUMBERS 00030d4000493ea9 INFO_TABLE 00*40 NEAR FAR*199950 FAR_LAST*24
";

/// The same with two channels.
pub static TWO_CHANNELS: &str = "
# many_frames, two channels

# MPEG-2, 8 kbit/s, 24,000 Hz, two channels: 24 bytes, the last 3 of which are their area. The
# channels have 8 and 16 bits of main data and the gains 100 and 110, so that the area is full and
# nothing can begin before it.
PAIR = fff31400 00002000c800000000008001b8 ~21 aabbcc
# The same with the gains 101 and 111, and with 100 and 111.
PAIR_LOUDER = fff31400 00002000ca00000000008001bc ~21 aabbcc
RIGHT_LOUDER = fff31400 00002000c800000000008001bc ~21 aabbcc
PAIR_FRAMES = PAIR*120000
LOUDER_FRAMES = PAIR_LOUDER*120000
# The Info frame needs 4 + 17 + 156 bytes, and 64 kbit/s have 192.
WIDE_NUMBERS = fff38400 00*17 'Info' 0000000f
LAID = WIDE_NUMBERS 0001d4c0002bf2c0 INFO_TABLE 00*55 PAIR_FRAMES
# Behind a lead-in the main data of each frame are in the area before.
FROM_3 = fff31400 03002000c800000000008001b8 ~21 aabbcc
FROM_3_LAST = fff31400 03002000c800000000008001b8 ~24
EXACT = WIDE_NUMBERS 0001d4c1002bf2d8 INFO_TABLE 00*4 LAME 02f211 00*4 002bf2d8 0000 5e7c 00*15 fff31400 ~213 aabbcc FROM_3*119999 FROM_3_LAST
NOTE = UNDO_FRONT '+000,-001,N' UNDO_END
TRACK = 'TRACK_01_AUDIO' 0a 'INDEX_01_00:00:00' 0a

# read

< a PAIR_FRAMES
$ list a
| frame 0 at 0: 8 kbit/s, begin 0, bits 24
| ...
| 120000 frames, MPEG-2, 24000 Hz, 2 channels, 48.00.00

< a PAIR_FRAMES
$ info a
| MPEG-2, 24000 Hz, 2 channels
| 120000 frames, 0 lost, 48.00.00
| 8 kbit/s
| 360000 of 360000 bytes are main data
| no head
| plays 69120000 samples
| left: gains 100 to 100, steps -100 to +155
| right: gains 110 to 110, steps -110 to +145
| both: steps -100 to +145

# with other gains, and back

< a PAIR_FRAMES
room 2880000
$ gain -s s -g 1 a o
> o LOUDER_FRAMES

< a PAIR_FRAMES
to o p
room 2880096
$ gain -l 1 1 a o
$ gain -u o p
> o RIGHT_LOUDER*120000 NOTE
> p PAIR_FRAMES

< a PAIR_FRAMES
< s '0_1'
to o p
room 2880000
$ fade a o s
$ fade --back o p s
> o LOUDER_FRAMES
> p PAIR_FRAMES

# laid anew

< a PAIR_FRAMES
room 2880192
$ cut a 0 EOF o
> o LAID

< a PAIR_FRAMES
room 2880192
$ cut --least a 0 EOF o
> o LAID

# two stretches, of one frame each
< a PAIR*120002
room 2880192
$ remove a o 40000 40001 80001 80002
> o LAID

< a PAIR_FRAMES
room 2880192
$ pack a o
> o LAID

< a PAIR_FRAMES
room 2880192
$ pack --constant 8 a o
> o LAID

< a PAIR_FRAMES
room 2880192
$ pack --floor 8 a o
> o LAID

< a PAIR_FRAMES
room 2880192
$ pack --best a o
> o LAID

< a PAIR_FRAMES
to p01.mp3
room 2880192
$ split a p 0 EOF
> p01.mp3 LAID

< a PAIR_FRAMES
< s TRACK
to p01.mp3
room 2880192
$ split a p -c s
> p01.mp3 LAID

< a PAIR_FRAMES
room 2880192
$ salvage a o
| 120000 frames, 0 gaps, 0 empty
> o LAID

# exact pieces

< a PAIR_FRAMES
room 2880216
$ cut --exact a 0 EOF o
> o EXACT

< a PAIR_FRAMES
to p01.mp3
room 2880216
$ split --exact a p 0 EOF
> p01.mp3 EXACT

< a PAIR_FRAMES
< s TRACK
to p01.mp3
room 2880216
$ split --exact a p -c s
> p01.mp3 EXACT

# joined
< a PAIR_FRAMES
room 5760192
$ join o a a
> o WIDE_NUMBERS 0003a9800057e4c0 INFO_TABLE 00*55 PAIR_FRAMES*2

< a PAIR_FRAMES
room 5760192
$ join --seamless o a a
| a: whole
> o WIDE_NUMBERS 0003a9800057e4c0 INFO_TABLE 00*55 PAIR_FRAMES*2
";

/// Splits into as many pieces as there may be.
pub static PIECES: &str = "
# many_frames, many pieces

# 99 pieces of 1,200 frames each. 1,200 frames are 28.8 seconds, which are 28:60 in a sheet.
ALL = MANY*118800
PIECE = INFO_NUMBERS 000004b000007129 010406090b0e101315181a1d202225272a2c2f313436393c3e414346484b4d505255585a5d5f626467696c6e717476797b7e808385888a8d909295979a9c9fa1a4a6a9acaeb1b3b6b8bbbdc0c2c5c8cacdcfd2d4d7d9dcdee1e4e6e9ebeef0f3f5f8fafd 00*40 NEAR FAR*1150 FAR_LAST*24
# The first exact piece has a lead-in. Each of the others has the two frames before it, which is the
# delay 2 * 576 - 529, 623, 26f (hex).
EXACT_1 = INFO_NUMBERS 000004b100007141 010406090b0e101315181a1d202225272a2c2f313436393b3e414346484b4d505255575a5d5f626467696c6e717376797b7e808385888a8d8f9294979a9c9fa1a4a6a9abaeb0b3b6b8bbbdc0c2c5c7cacccfd2d4d7d9dcdee1e3e6e8ebedf0f3f5f8fafd 00*4 LAME 02f211 00*4 00007141 0000 bac4 LED_NEAR FAR*1151 FAR_LAST*24
EXACT = INFO_NUMBERS 000004b200007159 010406090b0e101315181a1d1f2225272a2c2f313436393b3e414346484b4d505255575a5c5f626467696c6e717376787b7d808385888a8d8f9295979a9c9fa1a4a6a9abaeb1b3b6b8bbbdc0c2c5c7cacccfd2d4d7d9dcdee1e3e6e8ebeef0f3f5f8fafd 00*4 LAME 26f211 00*4 00007159 0000 1f34 NEAR FAR*1152 FAR_LAST*24
SHEET = 'TRACK_01_AUDIO' 0a 'INDEX_01_00:00:00' 0a 'TRACK_02_AUDIO' 0a 'INDEX_01_00:28:60' 0a 'TRACK_03_AUDIO' 0a 'INDEX_01_00:57:45' 0a 'TRACK_04_AUDIO' 0a 'INDEX_01_01:26:30' 0a 'TRACK_05_AUDIO' 0a 'INDEX_01_01:55:15' 0a 'TRACK_06_AUDIO' 0a 'INDEX_01_02:24:00' 0a 'TRACK_07_AUDIO' 0a 'INDEX_01_02:52:60' 0a 'TRACK_08_AUDIO' 0a 'INDEX_01_03:21:45' 0a 'TRACK_09_AUDIO' 0a 'INDEX_01_03:50:30' 0a 'TRACK_10_AUDIO' 0a 'INDEX_01_04:19:15' 0a 'TRACK_11_AUDIO' 0a 'INDEX_01_04:48:00' 0a 'TRACK_12_AUDIO' 0a 'INDEX_01_05:16:60' 0a 'TRACK_13_AUDIO' 0a 'INDEX_01_05:45:45' 0a 'TRACK_14_AUDIO' 0a 'INDEX_01_06:14:30' 0a 'TRACK_15_AUDIO' 0a 'INDEX_01_06:43:15' 0a 'TRACK_16_AUDIO' 0a 'INDEX_01_07:12:00' 0a 'TRACK_17_AUDIO' 0a 'INDEX_01_07:40:60' 0a 'TRACK_18_AUDIO' 0a 'INDEX_01_08:09:45' 0a 'TRACK_19_AUDIO' 0a 'INDEX_01_08:38:30' 0a 'TRACK_20_AUDIO' 0a 'INDEX_01_09:07:15' 0a 'TRACK_21_AUDIO' 0a 'INDEX_01_09:36:00' 0a 'TRACK_22_AUDIO' 0a 'INDEX_01_10:04:60' 0a 'TRACK_23_AUDIO' 0a 'INDEX_01_10:33:45' 0a 'TRACK_24_AUDIO' 0a 'INDEX_01_11:02:30' 0a 'TRACK_25_AUDIO' 0a 'INDEX_01_11:31:15' 0a 'TRACK_26_AUDIO' 0a 'INDEX_01_12:00:00' 0a 'TRACK_27_AUDIO' 0a 'INDEX_01_12:28:60' 0a 'TRACK_28_AUDIO' 0a 'INDEX_01_12:57:45' 0a 'TRACK_29_AUDIO' 0a 'INDEX_01_13:26:30' 0a 'TRACK_30_AUDIO' 0a 'INDEX_01_13:55:15' 0a 'TRACK_31_AUDIO' 0a 'INDEX_01_14:24:00' 0a 'TRACK_32_AUDIO' 0a 'INDEX_01_14:52:60' 0a 'TRACK_33_AUDIO' 0a 'INDEX_01_15:21:45' 0a 'TRACK_34_AUDIO' 0a 'INDEX_01_15:50:30' 0a 'TRACK_35_AUDIO' 0a 'INDEX_01_16:19:15' 0a 'TRACK_36_AUDIO' 0a 'INDEX_01_16:48:00' 0a 'TRACK_37_AUDIO' 0a 'INDEX_01_17:16:60' 0a 'TRACK_38_AUDIO' 0a 'INDEX_01_17:45:45' 0a 'TRACK_39_AUDIO' 0a 'INDEX_01_18:14:30' 0a 'TRACK_40_AUDIO' 0a 'INDEX_01_18:43:15' 0a 'TRACK_41_AUDIO' 0a 'INDEX_01_19:12:00' 0a 'TRACK_42_AUDIO' 0a 'INDEX_01_19:40:60' 0a 'TRACK_43_AUDIO' 0a 'INDEX_01_20:09:45' 0a 'TRACK_44_AUDIO' 0a 'INDEX_01_20:38:30' 0a 'TRACK_45_AUDIO' 0a 'INDEX_01_21:07:15' 0a 'TRACK_46_AUDIO' 0a 'INDEX_01_21:36:00' 0a 'TRACK_47_AUDIO' 0a 'INDEX_01_22:04:60' 0a 'TRACK_48_AUDIO' 0a 'INDEX_01_22:33:45' 0a 'TRACK_49_AUDIO' 0a 'INDEX_01_23:02:30' 0a 'TRACK_50_AUDIO' 0a 'INDEX_01_23:31:15' 0a 'TRACK_51_AUDIO' 0a 'INDEX_01_24:00:00' 0a 'TRACK_52_AUDIO' 0a 'INDEX_01_24:28:60' 0a 'TRACK_53_AUDIO' 0a 'INDEX_01_24:57:45' 0a 'TRACK_54_AUDIO' 0a 'INDEX_01_25:26:30' 0a 'TRACK_55_AUDIO' 0a 'INDEX_01_25:55:15' 0a 'TRACK_56_AUDIO' 0a 'INDEX_01_26:24:00' 0a 'TRACK_57_AUDIO' 0a 'INDEX_01_26:52:60' 0a 'TRACK_58_AUDIO' 0a 'INDEX_01_27:21:45' 0a 'TRACK_59_AUDIO' 0a 'INDEX_01_27:50:30' 0a 'TRACK_60_AUDIO' 0a 'INDEX_01_28:19:15' 0a 'TRACK_61_AUDIO' 0a 'INDEX_01_28:48:00' 0a 'TRACK_62_AUDIO' 0a 'INDEX_01_29:16:60' 0a 'TRACK_63_AUDIO' 0a 'INDEX_01_29:45:45' 0a 'TRACK_64_AUDIO' 0a 'INDEX_01_30:14:30' 0a 'TRACK_65_AUDIO' 0a 'INDEX_01_30:43:15' 0a 'TRACK_66_AUDIO' 0a 'INDEX_01_31:12:00' 0a 'TRACK_67_AUDIO' 0a 'INDEX_01_31:40:60' 0a 'TRACK_68_AUDIO' 0a 'INDEX_01_32:09:45' 0a 'TRACK_69_AUDIO' 0a 'INDEX_01_32:38:30' 0a 'TRACK_70_AUDIO' 0a 'INDEX_01_33:07:15' 0a 'TRACK_71_AUDIO' 0a 'INDEX_01_33:36:00' 0a 'TRACK_72_AUDIO' 0a 'INDEX_01_34:04:60' 0a 'TRACK_73_AUDIO' 0a 'INDEX_01_34:33:45' 0a 'TRACK_74_AUDIO' 0a 'INDEX_01_35:02:30' 0a 'TRACK_75_AUDIO' 0a 'INDEX_01_35:31:15' 0a 'TRACK_76_AUDIO' 0a 'INDEX_01_36:00:00' 0a 'TRACK_77_AUDIO' 0a 'INDEX_01_36:28:60' 0a 'TRACK_78_AUDIO' 0a 'INDEX_01_36:57:45' 0a 'TRACK_79_AUDIO' 0a 'INDEX_01_37:26:30' 0a 'TRACK_80_AUDIO' 0a 'INDEX_01_37:55:15' 0a 'TRACK_81_AUDIO' 0a 'INDEX_01_38:24:00' 0a 'TRACK_82_AUDIO' 0a 'INDEX_01_38:52:60' 0a 'TRACK_83_AUDIO' 0a 'INDEX_01_39:21:45' 0a 'TRACK_84_AUDIO' 0a 'INDEX_01_39:50:30' 0a 'TRACK_85_AUDIO' 0a 'INDEX_01_40:19:15' 0a 'TRACK_86_AUDIO' 0a 'INDEX_01_40:48:00' 0a 'TRACK_87_AUDIO' 0a 'INDEX_01_41:16:60' 0a 'TRACK_88_AUDIO' 0a 'INDEX_01_41:45:45' 0a 'TRACK_89_AUDIO' 0a 'INDEX_01_42:14:30' 0a 'TRACK_90_AUDIO' 0a 'INDEX_01_42:43:15' 0a 'TRACK_91_AUDIO' 0a 'INDEX_01_43:12:00' 0a 'TRACK_92_AUDIO' 0a 'INDEX_01_43:40:60' 0a 'TRACK_93_AUDIO' 0a 'INDEX_01_44:09:45' 0a 'TRACK_94_AUDIO' 0a 'INDEX_01_44:38:30' 0a 'TRACK_95_AUDIO' 0a 'INDEX_01_45:07:15' 0a 'TRACK_96_AUDIO' 0a 'INDEX_01_45:36:00' 0a 'TRACK_97_AUDIO' 0a 'INDEX_01_46:04:60' 0a 'TRACK_98_AUDIO' 0a 'INDEX_01_46:33:45' 0a 'TRACK_99_AUDIO' 0a 'INDEX_01_47:02:30' 0a

< a ALL
to p01.mp3 p02.mp3 p03.mp3 p04.mp3 p05.mp3 p06.mp3 p07.mp3 p08.mp3 p09.mp3 p10.mp3 p11.mp3 p12.mp3 p13.mp3 p14.mp3 p15.mp3 p16.mp3 p17.mp3 p18.mp3 p19.mp3 p20.mp3 p21.mp3 p22.mp3 p23.mp3 p24.mp3 p25.mp3 p26.mp3 p27.mp3 p28.mp3 p29.mp3 p30.mp3 p31.mp3 p32.mp3 p33.mp3 p34.mp3 p35.mp3 p36.mp3 p37.mp3 p38.mp3 p39.mp3 p40.mp3 p41.mp3 p42.mp3 p43.mp3 p44.mp3 p45.mp3 p46.mp3 p47.mp3 p48.mp3 p49.mp3 p50.mp3 p51.mp3 p52.mp3 p53.mp3 p54.mp3 p55.mp3 p56.mp3 p57.mp3 p58.mp3 p59.mp3 p60.mp3 p61.mp3 p62.mp3 p63.mp3 p64.mp3 p65.mp3 p66.mp3 p67.mp3 p68.mp3 p69.mp3 p70.mp3 p71.mp3 p72.mp3 p73.mp3 p74.mp3 p75.mp3 p76.mp3 p77.mp3 p78.mp3 p79.mp3 p80.mp3 p81.mp3 p82.mp3 p83.mp3 p84.mp3 p85.mp3 p86.mp3 p87.mp3 p88.mp3 p89.mp3 p90.mp3 p91.mp3 p92.mp3 p93.mp3 p94.mp3 p95.mp3 p96.mp3 p97.mp3 p98.mp3 p99.mp3
room 29000
$ split a p 0 1200 2400 3600 4800 6000 7200 8400 9600 10800 12000 13200 14400 15600 16800 18000 19200 20400 21600 22800 24000 25200 26400 27600 28800 30000 31200 32400 33600 34800 36000 37200 38400 39600 40800 42000 43200 44400 45600 46800 48000 49200 50400 51600 52800 54000 55200 56400 57600 58800 60000 61200 62400 63600 64800 66000 67200 68400 69600 70800 72000 73200 74400 75600 76800 78000 79200 80400 81600 82800 84000 85200 86400 87600 88800 90000 91200 92400 93600 94800 96000 97200 98400 99600 100800 102000 103200 104400 105600 106800 108000 109200 110400 111600 112800 114000 115200 116400 117600 118800
> p01.mp3 PIECE
> p02.mp3 PIECE
> p03.mp3 PIECE
> p04.mp3 PIECE
> p05.mp3 PIECE
> p06.mp3 PIECE
> p07.mp3 PIECE
> p08.mp3 PIECE
> p09.mp3 PIECE
> p10.mp3 PIECE
> p11.mp3 PIECE
> p12.mp3 PIECE
> p13.mp3 PIECE
> p14.mp3 PIECE
> p15.mp3 PIECE
> p16.mp3 PIECE
> p17.mp3 PIECE
> p18.mp3 PIECE
> p19.mp3 PIECE
> p20.mp3 PIECE
> p21.mp3 PIECE
> p22.mp3 PIECE
> p23.mp3 PIECE
> p24.mp3 PIECE
> p25.mp3 PIECE
> p26.mp3 PIECE
> p27.mp3 PIECE
> p28.mp3 PIECE
> p29.mp3 PIECE
> p30.mp3 PIECE
> p31.mp3 PIECE
> p32.mp3 PIECE
> p33.mp3 PIECE
> p34.mp3 PIECE
> p35.mp3 PIECE
> p36.mp3 PIECE
> p37.mp3 PIECE
> p38.mp3 PIECE
> p39.mp3 PIECE
> p40.mp3 PIECE
> p41.mp3 PIECE
> p42.mp3 PIECE
> p43.mp3 PIECE
> p44.mp3 PIECE
> p45.mp3 PIECE
> p46.mp3 PIECE
> p47.mp3 PIECE
> p48.mp3 PIECE
> p49.mp3 PIECE
> p50.mp3 PIECE
> p51.mp3 PIECE
> p52.mp3 PIECE
> p53.mp3 PIECE
> p54.mp3 PIECE
> p55.mp3 PIECE
> p56.mp3 PIECE
> p57.mp3 PIECE
> p58.mp3 PIECE
> p59.mp3 PIECE
> p60.mp3 PIECE
> p61.mp3 PIECE
> p62.mp3 PIECE
> p63.mp3 PIECE
> p64.mp3 PIECE
> p65.mp3 PIECE
> p66.mp3 PIECE
> p67.mp3 PIECE
> p68.mp3 PIECE
> p69.mp3 PIECE
> p70.mp3 PIECE
> p71.mp3 PIECE
> p72.mp3 PIECE
> p73.mp3 PIECE
> p74.mp3 PIECE
> p75.mp3 PIECE
> p76.mp3 PIECE
> p77.mp3 PIECE
> p78.mp3 PIECE
> p79.mp3 PIECE
> p80.mp3 PIECE
> p81.mp3 PIECE
> p82.mp3 PIECE
> p83.mp3 PIECE
> p84.mp3 PIECE
> p85.mp3 PIECE
> p86.mp3 PIECE
> p87.mp3 PIECE
> p88.mp3 PIECE
> p89.mp3 PIECE
> p90.mp3 PIECE
> p91.mp3 PIECE
> p92.mp3 PIECE
> p93.mp3 PIECE
> p94.mp3 PIECE
> p95.mp3 PIECE
> p96.mp3 PIECE
> p97.mp3 PIECE
> p98.mp3 PIECE
> p99.mp3 PIECE

< a ALL
< s SHEET
to p01.mp3 p02.mp3 p03.mp3 p04.mp3 p05.mp3 p06.mp3 p07.mp3 p08.mp3 p09.mp3 p10.mp3 p11.mp3 p12.mp3 p13.mp3 p14.mp3 p15.mp3 p16.mp3 p17.mp3 p18.mp3 p19.mp3 p20.mp3 p21.mp3 p22.mp3 p23.mp3 p24.mp3 p25.mp3 p26.mp3 p27.mp3 p28.mp3 p29.mp3 p30.mp3 p31.mp3 p32.mp3 p33.mp3 p34.mp3 p35.mp3 p36.mp3 p37.mp3 p38.mp3 p39.mp3 p40.mp3 p41.mp3 p42.mp3 p43.mp3 p44.mp3 p45.mp3 p46.mp3 p47.mp3 p48.mp3 p49.mp3 p50.mp3 p51.mp3 p52.mp3 p53.mp3 p54.mp3 p55.mp3 p56.mp3 p57.mp3 p58.mp3 p59.mp3 p60.mp3 p61.mp3 p62.mp3 p63.mp3 p64.mp3 p65.mp3 p66.mp3 p67.mp3 p68.mp3 p69.mp3 p70.mp3 p71.mp3 p72.mp3 p73.mp3 p74.mp3 p75.mp3 p76.mp3 p77.mp3 p78.mp3 p79.mp3 p80.mp3 p81.mp3 p82.mp3 p83.mp3 p84.mp3 p85.mp3 p86.mp3 p87.mp3 p88.mp3 p89.mp3 p90.mp3 p91.mp3 p92.mp3 p93.mp3 p94.mp3 p95.mp3 p96.mp3 p97.mp3 p98.mp3 p99.mp3
room 29000
$ split a p -c s
> p01.mp3 PIECE
> p02.mp3 PIECE
> p03.mp3 PIECE
> p04.mp3 PIECE
> p05.mp3 PIECE
> p06.mp3 PIECE
> p07.mp3 PIECE
> p08.mp3 PIECE
> p09.mp3 PIECE
> p10.mp3 PIECE
> p11.mp3 PIECE
> p12.mp3 PIECE
> p13.mp3 PIECE
> p14.mp3 PIECE
> p15.mp3 PIECE
> p16.mp3 PIECE
> p17.mp3 PIECE
> p18.mp3 PIECE
> p19.mp3 PIECE
> p20.mp3 PIECE
> p21.mp3 PIECE
> p22.mp3 PIECE
> p23.mp3 PIECE
> p24.mp3 PIECE
> p25.mp3 PIECE
> p26.mp3 PIECE
> p27.mp3 PIECE
> p28.mp3 PIECE
> p29.mp3 PIECE
> p30.mp3 PIECE
> p31.mp3 PIECE
> p32.mp3 PIECE
> p33.mp3 PIECE
> p34.mp3 PIECE
> p35.mp3 PIECE
> p36.mp3 PIECE
> p37.mp3 PIECE
> p38.mp3 PIECE
> p39.mp3 PIECE
> p40.mp3 PIECE
> p41.mp3 PIECE
> p42.mp3 PIECE
> p43.mp3 PIECE
> p44.mp3 PIECE
> p45.mp3 PIECE
> p46.mp3 PIECE
> p47.mp3 PIECE
> p48.mp3 PIECE
> p49.mp3 PIECE
> p50.mp3 PIECE
> p51.mp3 PIECE
> p52.mp3 PIECE
> p53.mp3 PIECE
> p54.mp3 PIECE
> p55.mp3 PIECE
> p56.mp3 PIECE
> p57.mp3 PIECE
> p58.mp3 PIECE
> p59.mp3 PIECE
> p60.mp3 PIECE
> p61.mp3 PIECE
> p62.mp3 PIECE
> p63.mp3 PIECE
> p64.mp3 PIECE
> p65.mp3 PIECE
> p66.mp3 PIECE
> p67.mp3 PIECE
> p68.mp3 PIECE
> p69.mp3 PIECE
> p70.mp3 PIECE
> p71.mp3 PIECE
> p72.mp3 PIECE
> p73.mp3 PIECE
> p74.mp3 PIECE
> p75.mp3 PIECE
> p76.mp3 PIECE
> p77.mp3 PIECE
> p78.mp3 PIECE
> p79.mp3 PIECE
> p80.mp3 PIECE
> p81.mp3 PIECE
> p82.mp3 PIECE
> p83.mp3 PIECE
> p84.mp3 PIECE
> p85.mp3 PIECE
> p86.mp3 PIECE
> p87.mp3 PIECE
> p88.mp3 PIECE
> p89.mp3 PIECE
> p90.mp3 PIECE
> p91.mp3 PIECE
> p92.mp3 PIECE
> p93.mp3 PIECE
> p94.mp3 PIECE
> p95.mp3 PIECE
> p96.mp3 PIECE
> p97.mp3 PIECE
> p98.mp3 PIECE
> p99.mp3 PIECE

< a ALL
to p01.mp3 p02.mp3 p03.mp3 p04.mp3 p05.mp3 p06.mp3 p07.mp3 p08.mp3 p09.mp3 p10.mp3 p11.mp3 p12.mp3 p13.mp3 p14.mp3 p15.mp3 p16.mp3 p17.mp3 p18.mp3 p19.mp3 p20.mp3 p21.mp3 p22.mp3 p23.mp3 p24.mp3 p25.mp3 p26.mp3 p27.mp3 p28.mp3 p29.mp3 p30.mp3 p31.mp3 p32.mp3 p33.mp3 p34.mp3 p35.mp3 p36.mp3 p37.mp3 p38.mp3 p39.mp3 p40.mp3 p41.mp3 p42.mp3 p43.mp3 p44.mp3 p45.mp3 p46.mp3 p47.mp3 p48.mp3 p49.mp3 p50.mp3 p51.mp3 p52.mp3 p53.mp3 p54.mp3 p55.mp3 p56.mp3 p57.mp3 p58.mp3 p59.mp3 p60.mp3 p61.mp3 p62.mp3 p63.mp3 p64.mp3 p65.mp3 p66.mp3 p67.mp3 p68.mp3 p69.mp3 p70.mp3 p71.mp3 p72.mp3 p73.mp3 p74.mp3 p75.mp3 p76.mp3 p77.mp3 p78.mp3 p79.mp3 p80.mp3 p81.mp3 p82.mp3 p83.mp3 p84.mp3 p85.mp3 p86.mp3 p87.mp3 p88.mp3 p89.mp3 p90.mp3 p91.mp3 p92.mp3 p93.mp3 p94.mp3 p95.mp3 p96.mp3 p97.mp3 p98.mp3 p99.mp3
room 29100
$ split --exact a p 0 1200 2400 3600 4800 6000 7200 8400 9600 10800 12000 13200 14400 15600 16800 18000 19200 20400 21600 22800 24000 25200 26400 27600 28800 30000 31200 32400 33600 34800 36000 37200 38400 39600 40800 42000 43200 44400 45600 46800 48000 49200 50400 51600 52800 54000 55200 56400 57600 58800 60000 61200 62400 63600 64800 66000 67200 68400 69600 70800 72000 73200 74400 75600 76800 78000 79200 80400 81600 82800 84000 85200 86400 87600 88800 90000 91200 92400 93600 94800 96000 97200 98400 99600 100800 102000 103200 104400 105600 106800 108000 109200 110400 111600 112800 114000 115200 116400 117600 118800
> p01.mp3 EXACT_1
> p02.mp3 EXACT
> p03.mp3 EXACT
> p04.mp3 EXACT
> p05.mp3 EXACT
> p06.mp3 EXACT
> p07.mp3 EXACT
> p08.mp3 EXACT
> p09.mp3 EXACT
> p10.mp3 EXACT
> p11.mp3 EXACT
> p12.mp3 EXACT
> p13.mp3 EXACT
> p14.mp3 EXACT
> p15.mp3 EXACT
> p16.mp3 EXACT
> p17.mp3 EXACT
> p18.mp3 EXACT
> p19.mp3 EXACT
> p20.mp3 EXACT
> p21.mp3 EXACT
> p22.mp3 EXACT
> p23.mp3 EXACT
> p24.mp3 EXACT
> p25.mp3 EXACT
> p26.mp3 EXACT
> p27.mp3 EXACT
> p28.mp3 EXACT
> p29.mp3 EXACT
> p30.mp3 EXACT
> p31.mp3 EXACT
> p32.mp3 EXACT
> p33.mp3 EXACT
> p34.mp3 EXACT
> p35.mp3 EXACT
> p36.mp3 EXACT
> p37.mp3 EXACT
> p38.mp3 EXACT
> p39.mp3 EXACT
> p40.mp3 EXACT
> p41.mp3 EXACT
> p42.mp3 EXACT
> p43.mp3 EXACT
> p44.mp3 EXACT
> p45.mp3 EXACT
> p46.mp3 EXACT
> p47.mp3 EXACT
> p48.mp3 EXACT
> p49.mp3 EXACT
> p50.mp3 EXACT
> p51.mp3 EXACT
> p52.mp3 EXACT
> p53.mp3 EXACT
> p54.mp3 EXACT
> p55.mp3 EXACT
> p56.mp3 EXACT
> p57.mp3 EXACT
> p58.mp3 EXACT
> p59.mp3 EXACT
> p60.mp3 EXACT
> p61.mp3 EXACT
> p62.mp3 EXACT
> p63.mp3 EXACT
> p64.mp3 EXACT
> p65.mp3 EXACT
> p66.mp3 EXACT
> p67.mp3 EXACT
> p68.mp3 EXACT
> p69.mp3 EXACT
> p70.mp3 EXACT
> p71.mp3 EXACT
> p72.mp3 EXACT
> p73.mp3 EXACT
> p74.mp3 EXACT
> p75.mp3 EXACT
> p76.mp3 EXACT
> p77.mp3 EXACT
> p78.mp3 EXACT
> p79.mp3 EXACT
> p80.mp3 EXACT
> p81.mp3 EXACT
> p82.mp3 EXACT
> p83.mp3 EXACT
> p84.mp3 EXACT
> p85.mp3 EXACT
> p86.mp3 EXACT
> p87.mp3 EXACT
> p88.mp3 EXACT
> p89.mp3 EXACT
> p90.mp3 EXACT
> p91.mp3 EXACT
> p92.mp3 EXACT
> p93.mp3 EXACT
> p94.mp3 EXACT
> p95.mp3 EXACT
> p96.mp3 EXACT
> p97.mp3 EXACT
> p98.mp3 EXACT
> p99.mp3 EXACT

< a ALL
< s SHEET
to p01.mp3 p02.mp3 p03.mp3 p04.mp3 p05.mp3 p06.mp3 p07.mp3 p08.mp3 p09.mp3 p10.mp3 p11.mp3 p12.mp3 p13.mp3 p14.mp3 p15.mp3 p16.mp3 p17.mp3 p18.mp3 p19.mp3 p20.mp3 p21.mp3 p22.mp3 p23.mp3 p24.mp3 p25.mp3 p26.mp3 p27.mp3 p28.mp3 p29.mp3 p30.mp3 p31.mp3 p32.mp3 p33.mp3 p34.mp3 p35.mp3 p36.mp3 p37.mp3 p38.mp3 p39.mp3 p40.mp3 p41.mp3 p42.mp3 p43.mp3 p44.mp3 p45.mp3 p46.mp3 p47.mp3 p48.mp3 p49.mp3 p50.mp3 p51.mp3 p52.mp3 p53.mp3 p54.mp3 p55.mp3 p56.mp3 p57.mp3 p58.mp3 p59.mp3 p60.mp3 p61.mp3 p62.mp3 p63.mp3 p64.mp3 p65.mp3 p66.mp3 p67.mp3 p68.mp3 p69.mp3 p70.mp3 p71.mp3 p72.mp3 p73.mp3 p74.mp3 p75.mp3 p76.mp3 p77.mp3 p78.mp3 p79.mp3 p80.mp3 p81.mp3 p82.mp3 p83.mp3 p84.mp3 p85.mp3 p86.mp3 p87.mp3 p88.mp3 p89.mp3 p90.mp3 p91.mp3 p92.mp3 p93.mp3 p94.mp3 p95.mp3 p96.mp3 p97.mp3 p98.mp3 p99.mp3
room 29100
$ split --exact a p -c s
> p01.mp3 EXACT_1
> p02.mp3 EXACT
> p03.mp3 EXACT
> p04.mp3 EXACT
> p05.mp3 EXACT
> p06.mp3 EXACT
> p07.mp3 EXACT
> p08.mp3 EXACT
> p09.mp3 EXACT
> p10.mp3 EXACT
> p11.mp3 EXACT
> p12.mp3 EXACT
> p13.mp3 EXACT
> p14.mp3 EXACT
> p15.mp3 EXACT
> p16.mp3 EXACT
> p17.mp3 EXACT
> p18.mp3 EXACT
> p19.mp3 EXACT
> p20.mp3 EXACT
> p21.mp3 EXACT
> p22.mp3 EXACT
> p23.mp3 EXACT
> p24.mp3 EXACT
> p25.mp3 EXACT
> p26.mp3 EXACT
> p27.mp3 EXACT
> p28.mp3 EXACT
> p29.mp3 EXACT
> p30.mp3 EXACT
> p31.mp3 EXACT
> p32.mp3 EXACT
> p33.mp3 EXACT
> p34.mp3 EXACT
> p35.mp3 EXACT
> p36.mp3 EXACT
> p37.mp3 EXACT
> p38.mp3 EXACT
> p39.mp3 EXACT
> p40.mp3 EXACT
> p41.mp3 EXACT
> p42.mp3 EXACT
> p43.mp3 EXACT
> p44.mp3 EXACT
> p45.mp3 EXACT
> p46.mp3 EXACT
> p47.mp3 EXACT
> p48.mp3 EXACT
> p49.mp3 EXACT
> p50.mp3 EXACT
> p51.mp3 EXACT
> p52.mp3 EXACT
> p53.mp3 EXACT
> p54.mp3 EXACT
> p55.mp3 EXACT
> p56.mp3 EXACT
> p57.mp3 EXACT
> p58.mp3 EXACT
> p59.mp3 EXACT
> p60.mp3 EXACT
> p61.mp3 EXACT
> p62.mp3 EXACT
> p63.mp3 EXACT
> p64.mp3 EXACT
> p65.mp3 EXACT
> p66.mp3 EXACT
> p67.mp3 EXACT
> p68.mp3 EXACT
> p69.mp3 EXACT
> p70.mp3 EXACT
> p71.mp3 EXACT
> p72.mp3 EXACT
> p73.mp3 EXACT
> p74.mp3 EXACT
> p75.mp3 EXACT
> p76.mp3 EXACT
> p77.mp3 EXACT
> p78.mp3 EXACT
> p79.mp3 EXACT
> p80.mp3 EXACT
> p81.mp3 EXACT
> p82.mp3 EXACT
> p83.mp3 EXACT
> p84.mp3 EXACT
> p85.mp3 EXACT
> p86.mp3 EXACT
> p87.mp3 EXACT
> p88.mp3 EXACT
> p89.mp3 EXACT
> p90.mp3 EXACT
> p91.mp3 EXACT
> p92.mp3 EXACT
> p93.mp3 EXACT
> p94.mp3 EXACT
> p95.mp3 EXACT
> p96.mp3 EXACT
> p97.mp3 EXACT
> p98.mp3 EXACT
> p99.mp3 EXACT
";

/// What the texts of more than a million frames share.
pub static MILLION: &str = "
# 1,080,000 frames, more than seven hours.
MILLION = MANY*1080000
LAID = INFO_NUMBERS 00107ac0018b82a9 INFO_TABLE 00*40 NEAR FAR*1079950 FAR_LAST*24
";

/// A cut.
pub static MILLION_CUT: &str = "
# many_frames, a million

< a MILLION
room 25920169
$ cut a 0 EOF o
> o LAID
";

/// A stretch of 100 frames that is taken out.
pub static MILLION_REMOVE: &str = "
# many_frames, a million

< a MANY*1080100
room 25920169
$ remove a o 500000 500100
> o LAID
";

/// A join without seams, of 540,000 frames twice.
pub static MILLION_SEAMLESS: &str = "
# many_frames, a million

< a MANY*540000
room 25920169
$ join --seamless o a a
| a: whole
> o LAID
";
