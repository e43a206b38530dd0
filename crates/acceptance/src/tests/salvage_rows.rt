//! Damaged files, what is written of them, and what is reported as missing.

pub static ROWS: &str = "
# salvage

# How lengths, areas, main_data_begin, Info frames and their tables come about is said in `names`.

# The bytes of these were worked out by hand from the standard's tables.

# What is left is written, and what is missing is said.

# SECOND without its last byte.
SHORT = fffb9000 28800320003200000000640006400000000c8000c800000001900019 ~36 55*319 ~416

# a first frame whose third byte is 0, so that the second loses its main data
< a A@2=00
$ salvage a o
| gap at 0: 417 bytes
| empty frame 0 at 417
| 1 frames, 1 gaps, 1 empty
> o INFO_FRONT ONE_OF_625 55*100 INFO_REST Z

# a last frame that has one byte less
< a FIRST SHORT
$ salvage a o
| gap at 417: 416 bytes
| 1 frames, 1 gaps, 0 empty
> o INFO_FRONT ONE_OF_625 55*100 INFO_REST FIRST_ALONE

# a file that isn't damaged
< a FIRST SECOND
$ salvage a o
| 2 frames, 0 gaps, 0 empty
> o INFO_FRONT 'Info' 0000000f0000000200000412 33*50 99*50 INFO_REST FIRST SECOND

# junk alone
< a 55*2000
$ salvage a o
! 1 a: no frame at 0

# The outputs of these are those of `checks/damaged.py` and `checks/laid.py`, which share nothing
# with the program.

# MPEG-2.5, 11,025 Hz, 64 kbit/s, two channels, all bytes after the header 0.
LOWEST_STEREO = ffe38000 ~417
# MPEG-2, 22,050 Hz, 64 kbit/s, one channel, all bytes after the header 0.
LOWER_MONO = fff380c0 ~208

# Where bytes are missing, changed or foreign. What is written has frames whose main data follow one
# another: G has 4 bytes in an area of 381, so the next main_data_begin is 377, 101111001, bc80.
# MONO leaves 396 - 3 bytes, 393; the stream of LOWER 209 - 21 - 3, 185, which is b9; LOWER_MONO
# 208 - 13, 195, which is c3. Where more is left than 9 bits or 8 can say, it is ff80 or ff.

# Two gaps with one frame between, which a block follows.
< a G 55*50 G ID3V1_BLOCK 66*60 G G_LOWER
$ salvage a o
| gap at 417: 50 bytes
| gap at 1012: 60 bytes
| 4 frames, 2 gaps, 0 empty
> o INFO_FRONT 'Info' 0000000f 00000004 00000754 1c*25 55*25 8e*25 c7*25 00*56 fffb9000 0000000800320000000001000650000000002001fe00000000040016800000001122334411223344 00*243 11223344 ~625 fffb9000 bc80000800320000000001000650000000002001fe0000000004001680 00*254 11223344 ~1042 fffb9000 ff80000800320000000001000650000000002001fe0000000004001680 ~1459 fffb9000 ff800008002f8000000001000600000000002001f40000000004001540 ~1876 ID3V1_BLOCK

# A gap at the end.
< a G G_LOWER 55*200
$ salvage a o
| gap at 834: 200 bytes
| 2 frames, 1 gaps, 0 empty
> o INFO_FRONT 'Info' 0000000f 00000002 00000412 33*50 99*50 00*56 fffb9000 0000000800320000000001000650000000002001fe00000000040016800000001122334411223344 ~625 fffb9000 bc800008002f8000000001000600000000002001f40000000004001540 ~1042

# A block in a gap isn't read, and is part of it.
< a G 55*40 ID3V1_BLOCK 55*30 G_LOWER G
$ salvage a o
| gap at 417: 198 bytes
| 3 frames, 1 gaps, 0 empty
> o INFO_FRONT 'Info' 0000000f 00000003 000005b3 24*34 6d*33 b6*33 00*56 fffb9000 0000000800320000000001000650000000002001fe00000000040016800000001122334411223344 00*243 11223344 ~625 fffb9000 bc800008002f8000000001000600000000002001f40000000004001540 ~1042 fffb9000 ff80000800320000000001000650000000002001fe0000000004001680 ~1459

# A frame with a wrong CRC is a gap.
< a PROTECTED_G PROTECTED_G@4=12 PROTECTED_G PROTECTED_Z
$ salvage a o
| gap at 417: 417 bytes
| 3 frames, 1 gaps, 0 empty
> o INFO_FRONT 'Info' 0000000f 00000003 000005b3 24*34 6d*33 b6*33 00*56 fffa9000 11a20000000800320000000001000650000000002001fe00000000040016800000001122334411223344 ~625 fffa9000 5e9dbb80000800320000000001000650000000002001fe0000000004001680 ~1042 fffa9000 c778ff80 ~1459

# Main data that began in a gap: the frame becomes an empty one.
< a G 55*70 BACK_POINTER G G_LOWER
$ salvage a o
| gap at 417: 70 bytes
| empty frame 1 at 487
| 4 frames, 1 gaps, 1 empty
> o INFO_FRONT 'Info' 0000000f 00000004 00000754 1c*25 55*25 8e*25 c7*25 00*56 fffb9000 0000000800320000000001000650000000002001fe000000000400168000000011223344 00*247 11223344 ~625 fffb9000 bc80 00*281 11223344 ~1042 fffb9000 ff80000800320000000001000650000000002001fe0000000004001680 ~1459 fffb9000 ff800008002f8000000001000600000000002001f40000000004001540 ~1876

# A header of another class between frames.
< a G MPEG_2 G_LOWER G
$ salvage a o
| gap at 417: 208 bytes
| 3 frames, 1 gaps, 0 empty
> o INFO_FRONT 'Info' 0000000f 00000003 000005b3 24*34 6d*33 b6*33 00*56 fffb9000 0000000800320000000001000650000000002001fe00000000040016800000001122334411223344 00*243 11223344 ~625 fffb9000 bc800008002f8000000001000600000000002001f40000000004001540 ~1042 fffb9000 ff80000800320000000001000650000000002001fe0000000004001680 ~1459

# MPEG-2, two channels, and a frame that is cut off.
< a LOWER LOWER_QUIETER 55*9 LOWER LOWER@0=fe
$ salvage a o
| gap at 418: 427 bytes
| 2 frames, 1 gaps, 0 empty
> o fff37000 00*17 'Info' 0000000f 00000002 00000258 4d*50 a6*50 00*45 fff38200 00c023fec9ffffffff8087ff23ffffffff112233112233 ~391 fff38200 b9c023febfffffffff8087ff0fffffffff ~600

# One channel.
< a MONO 55*33 MONO_LOWER MONO
$ salvage a o
| gap at 417: 33 bytes
| 3 frames, 1 gaps, 0 empty
> o fffb40c0 00*17 'Info' 0000000f 00000003 00000599 20*34 6b*33 b5*33 00*45 fffb90c0 007e8023fec9fffffff8087ff23fffffff112233112233 00*275 112233 ~599 fffb90c0 c4fe8023febffffffff8087ff0ffffffff ~1016 fffb90c0 fffe8023fec9fffffff8087ff23fffffff ~1433

# MPEG-2.5.
< a LOWEST_STEREO 55*5 LOWEST_STEREO LOWEST_STEREO
$ salvage a o
| gap at 417: 5 bytes
| 3 frames, 1 gaps, 0 empty
> o ffe34000 00*17 'Info' 0000000f 00000003 000005b3 24*34 6d*33 b6*33 00*71 LOWEST_STEREO ffe38000 ff ~1042 ffe38000 ff ~1459

# A gap before a frame whose main data begin in the frame before it: after the gap main data are
# counted from 0.
< a G 55*50 G G_LOWER@4=02 G
$ salvage a o
| gap at 417: 50 bytes
| 4 frames, 1 gaps, 0 empty
> o INFO_FRONT 'Info' 0000000f 00000004 00000754 1c*25 55*25 8e*25 c7*25 00*56 fffb9000 0000000800320000000001000650000000002001fe00000000040016800000001122334411223344 ~625 fffb9000 bc80000800320000000001000650000000002001fe0000000004001680 00*254 11223344 ~1042 fffb9000 ff800008002f8000000001000600000000002001f40000000004001540 ~1459 fffb9000 ff80000800320000000001000650000000002001fe0000000004001680 ~1876

# MPEG-2, one channel.
< a LOWER_MONO 55*5 LOWER_MONO LOWER_MONO
$ salvage a o
| gap at 208: 5 bytes
| 3 frames, 1 gaps, 0 empty
> o fff370c0 00*9 'Info' 0000000f 00000003 00000326 39*34 7b*33 bd*33 00*53 LOWER_MONO fff380c0 c3 ~598 fff380c0 ff ~806

# The output can't be created.
< a G 55*50 G G
fail Create 1
$ salvage a o
! 3 o: write fault

# Each call fails in turn. What is written is by the same two.

# A frame without main data, which could begin 377 bytes before the area: those that G leaves.
Z_FROM_377 = fffb9000 bc80 ~417

# A gap, and after it a frame that becomes an empty one. The text is sent when the file is whole, in
# one write.
< u G 55*70 BACK_POINTER
$ salvage u o
| gap at 417: 70 bytes
| empty frame 1 at 487
| 2 frames, 1 gaps, 1 empty
> o INFO_FRONT 'Info' 0000000f0000000200000412 33*50 99*50 00*56 G Z_FROM_377
each Find 1 u: read fault
each Read 2 u: read fault
each Create 1 o: write fault
each Write 1 o: write fault
each Send 1 after 1042 standard output: write fault

# 480 frames of 417 bytes and a gap of 50, 200,210 bytes, are read by 65,536: in 4 reads by the
# survey, and in 4 more. The output has 208 + 480 * 417, 200,368 bytes, which are written by 65,536
# too: three writes of them, and a fourth.
< u G*240 55*50 G*240
room 200368
$ salvage u o
| gap at 100080: 50 bytes
| 480 frames, 1 gaps, 0 empty
> o INFO_FRONT 'Info' 0000000f000001e000030eb0 000205070a0d0f111417191b1e212326282b2e303335383a3d404244474a4c4f515457595b5e616366686b6e707375787a7d808284878a8c8f919497999b9ea1a3a6a8abadb0b3b5b8babdc0c2c4c7caccced1d4d6d9dbdee1e3e6e8ebedf0f3f5f8fafd 00*56 G_FIRST G_SECOND G_AMONG*476 G_LAST*2
each Read 8 after 65536 u: read fault
each Write 4 after 196608 o: write fault
each Send 1 after 200368 standard output: write fault
";
