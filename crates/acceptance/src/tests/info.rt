//! What a file is, in a few lines, and by how many steps its gains can
//! move. The lines were worked out by hand from the frames' bytes.

pub static ROWS: &str = "
# info

# Main data are in areas, of 381 bytes in a frame of 128 kbit/s at 44,100 Hz, stereo, that of the head
# among them. Steps go down by as many as the least gain of a granule with main data, and up by as many
# as lead the greatest one to 255.

# MPEG-1, 44,100 Hz, 128 kbit/s, stereo: main_data_begin is 81, 2880 with seven more bits, where no
# byte of main data stands before. Four times 800 bits, and the gains 0, 255, 0, 255.
CUT_OFF = fffb9000 2880032000000000000064000ff00000000c8000000000000190003fc0 ~36 55*319 ~417
# Four times 8 bits of main data; the gains are 100, 120, 110, 130.
OF_FOUR = fffb9000 0000000800320000000001000780000000002000dc0000000004002080 ~417

# Plain files.

# in each channel other gains
< g G
$ info g
| MPEG-1, 44100 Hz, 2 channels
| 1 frames, 0 lost, 0.00.02
| 128 kbit/s
| 4 of 381 bytes are main data
| no head
| plays 1152 samples
| left: gains 100 to 255, steps -100 to +0
| right: gains 90 to 101, steps -90 to +154
| both: steps -90 to +0

# 300 and 400 bytes of main data
< a A
$ info a
| MPEG-1, 44100 Hz, 2 channels
| 2 frames, 0 lost, 0.00.05
| 128 kbit/s
| 700 of 762 bytes are main data
| no head
| plays 2304 samples
| left: gains 100 to 100, steps -100 to +155
| right: gains 100 to 100, steps -100 to +155
| both: steps -100 to +155

# silence
< z Z
$ info z
| MPEG-1, 44100 Hz, 2 channels
| 1 frames, 0 lost, 0.00.02
| 128 kbit/s
| 0 of 381 bytes are main data
| no head
| plays 1152 samples
| left: no gains
| right: no gains
| both: no gains

# a block behind it
< z Z ID3V1_BLOCK
$ info z
| MPEG-1, 44100 Hz, 2 channels
| 1 frames, 0 lost, 0.00.02
| 128 kbit/s
| 0 of 381 bytes are main data
| no head
| plays 1152 samples
| left: no gains
| right: no gains
| both: no gains

# blocks, zeros and junk
< t ID3V2_BLOCK 00*2 55*100 fffb9000 55*196 Z Z APE ID3V1_BLOCK
$ info t
| MPEG-1, 44100 Hz, 2 channels
| 2 frames, 0 lost, 0.00.05
| 128 kbit/s
| 0 of 762 bytes are main data
| no head
| plays 2304 samples
| left: no gains
| right: no gains
| both: no gains

# Heads. The area of one counts, and its gains don't.

# a head that says nothing
< b B
$ info b
| MPEG-1, 44100 Hz, 2 channels
| 1 frames, 0 lost, 0.00.02
| 128 kbit/s
| 400 of 762 bytes are main data
| Info head
| plays 1152 samples
| left: gains 100 to 100, steps -100 to +155
| right: gains 100 to 100, steps -100 to +155
| both: steps -100 to +155

# Four frames, and 417 * 5 bytes, which are 2,085, 825 (hex); quality 57. The delay is 576, 240 (hex),
# and the padding 720, 2d0: players leave out 576 + 529 samples, and the last 720 - 529, so of 4,608
# they play 3,312.
FIELDS_OF_K = 00*100 00000039 'LAME3.100' 11*12 2402d0 22*12
K_HEAD = fffb9000 ~36 'Info' 0000000f0000000400000825 FIELDS_OF_K ~417
# a head with all numbers
< k K_HEAD Z*4
$ info k
| MPEG-1, 44100 Hz, 2 channels
| 4 frames, 0 lost, 0.00.10
| 128 kbit/s
| 0 of 1905 bytes are main data
| Info head, 4 frames, 2085 bytes
| delay 576, padding 720, plays 3312 samples
| left: no gains
| right: no gains
| both: no gains

# blocks and zeros don't count
< k K_HEAD Z APE 00*2 Z*3 ID3V1_BLOCK
$ info k
| MPEG-1, 44100 Hz, 2 channels
| 4 frames, 0 lost, 0.00.10
| 128 kbit/s
| 0 of 1905 bytes are main data
| Info head, 4 frames, 2085 bytes
| delay 576, padding 720, plays 3312 samples
| left: no gains
| right: no gains
| both: no gains

# The padding isn't left out where not all frames are there: 4,608 - 1,105.
# more frames are said than there are
< k fffb9000 ~36 'Info' 0000000f0000000500000825 FIELDS_OF_K ~417 Z*4
$ info k
| MPEG-1, 44100 Hz, 2 channels
| 4 frames, 0 lost, 0.00.10
| 128 kbit/s
| 0 of 1905 bytes are main data
| Info head, 5 frames, 2085 bytes
| but 4 frames, 2085 bytes are here
| delay 576, padding 720, plays 3503 samples
| left: no gains
| right: no gains
| both: no gains

# a byte fewer is said
< k fffb9000 ~36 'Info' 0000000f0000000400000824 FIELDS_OF_K ~417 Z*4
$ info k
| MPEG-1, 44100 Hz, 2 channels
| 4 frames, 0 lost, 0.00.10
| 128 kbit/s
| 0 of 1905 bytes are main data
| Info head, 4 frames, 2084 bytes
| but 4 frames, 2085 bytes are here
| delay 576, padding 720, plays 3312 samples
| left: no gains
| right: no gains
| both: no gains

# no frame is said, so delay and padding don't count
< k fffb9000 ~36 'Info' 0000000f0000000000000825 FIELDS_OF_K ~417 Z*4
$ info k
| MPEG-1, 44100 Hz, 2 channels
| 4 frames, 0 lost, 0.00.10
| 128 kbit/s
| 0 of 1905 bytes are main data
| Info head, 0 frames, 2085 bytes
| but 4 frames, 2085 bytes are here
| plays 4608 samples
| left: no gains
| right: no gains
| both: no gains

# The first number is that of the bytes.
# a head with the number of bytes alone
< k fffb9000 ~36 'Xing' 000000020000000400000825 FIELDS_OF_K ~417 Z*4
$ info k
| MPEG-1, 44100 Hz, 2 channels
| 4 frames, 0 lost, 0.00.10
| 128 kbit/s
| 0 of 1905 bytes are main data
| Xing head, 4 bytes
| but 4 frames, 2085 bytes are here
| plays 4608 samples
| left: no gains
| right: no gains
| both: no gains

# The extension follows the number, and no encoder wrote it.
# a head with the number of frames alone
< k fffb9000 ~36 'Xing' 000000010000000400000825 FIELDS_OF_K ~417 Z*4
$ info k
| MPEG-1, 44100 Hz, 2 channels
| 4 frames, 0 lost, 0.00.10
| 128 kbit/s
| 0 of 1905 bytes are main data
| Xing head, 4 frames
| plays 4608 samples
| left: no gains
| right: no gains
| both: no gains

# 6,331 is 18bb (hex), 2,640,444 is 284a3c, and 417 * 3,001 are 1,251,417. 3,000 * 1,152 - 1,105
# samples are played.
# the rest of a download is missing
< k fffb9000 ~36 'Info' 0000000f000018bb00284a3c FIELDS_OF_K ~417 Z*3000
$ info k
| MPEG-1, 44100 Hz, 2 channels
| 3000 frames, 0 lost, 1.18.36
| 128 kbit/s
| 0 of 1143381 bytes are main data
| Info head, 6331 frames, 2640444 bytes
| but 3000 frames, 1251417 bytes are here
| delay 576, padding 720, plays 3454895 samples
| left: no gains
| right: no gains
| both: no gains

# The delay 4,095, fff (hex): 4,624 samples would be left out.
# nothing is played
< k fffb9000 ~36 'Info' 0000000f0000000400000825 00*100 00000039 'LAME3.100' 11*12 fff000 22*12 ~417 Z
$ info k
| MPEG-1, 44100 Hz, 2 channels
| 1 frames, 0 lost, 0.00.02
| 128 kbit/s
| 0 of 762 bytes are main data
| Info head, 4 frames, 2085 bytes
| but 1 frames, 834 bytes are here
| delay 4095, padding 0, plays 0 samples
| left: no gains
| right: no gains
| both: no gains

# Its gains are 1, 2, 254, 253.
# a head with main data of its own
< k fffb9000 0000000800008000000001000020000000002001fc0000000004003f40 ~36 'Info' ~417 OF_FOUR
$ info k
| MPEG-1, 44100 Hz, 2 channels
| 1 frames, 0 lost, 0.00.02
| 128 kbit/s
| 4 of 762 bytes are main data
| Info head
| plays 1152 samples
| left: gains 100 to 110, steps -100 to +145
| right: gains 120 to 130, steps -120 to +125
| both: steps -100 to +125

# The text and its numbers are behind the side information, at 38. Its area has 379 bytes.
# a protected head
< k fffa9000 ~38 'Info' 0000000f0000000100000342 FIELDS_OF_K ~417 Z
$ info k
| MPEG-1, 44100 Hz, 2 channels
| 1 frames, 0 lost, 0.00.02
| 128 kbit/s
| 0 of 760 bytes are main data
| Info head, 1 frames, 834 bytes
| delay 576, padding 720, plays 0 samples
| left: no gains
| right: no gains
| both: no gains

# The text is where a frame without a check word has it, at 36, its first two bytes the last two of the
# side information.
# a protected head with an early text
< k fffa9000 ~36 'Xing' 0000000f0000000200000000 FIELDS_OF_K ~417 Z
$ info k
| MPEG-1, 44100 Hz, 2 channels
| 1 frames, 0 lost, 0.00.02
| 128 kbit/s
| 0 of 760 bytes are main data
| Xing head, 2 frames, 0 bytes
| but 1 frames, 834 bytes are here
| delay 576, padding 720, plays 47 samples
| left: no gains
| right: no gains
| both: no gains

# 32 kbit/s, one channel: of 104 bytes 83 are behind the text's place, 21, and the table has 100. Areas
# of 83 and 396 bytes.
# a head that ends in its table
< k fffb10c0 ~21 'Info' 0000000f0000000100000209 00*67 fffb90c0 ~521
$ info k
| MPEG-1, 44100 Hz, 1 channels
| 1 frames, 0 lost, 0.00.02
| 128 kbit/s
| 0 of 479 bytes are main data
| Info head, 1 frames, 521 bytes
| plays 1152 samples
| mono: no gains

# Frames of several kinds. Neither lost frames nor granules without main data have gains that move.

# a frame whose main data were cut off
< l CUT_OFF OF_FOUR
$ info l
| MPEG-1, 44100 Hz, 2 channels
| 2 frames, 1 lost, 0.00.05
| 128 kbit/s
| 4 of 762 bytes are main data
| no head
| plays 2304 samples
| left: gains 100 to 110, steps -100 to +145
| right: gains 120 to 130, steps -120 to +125
| both: steps -100 to +125

# Four times 400 bits, 200 bytes.
# a frame behind an empty one has its main data
< l Z fffb9000 2880019000000000000032000ff00000000640000000000000c8003fc0 ~453 55*319 ~834 OF_FOUR
$ info l
| MPEG-1, 44100 Hz, 2 channels
| 3 frames, 0 lost, 0.00.07
| 128 kbit/s
| 204 of 1143 bytes are main data
| no head
| plays 3456 samples
| left: gains 0 to 110, steps -0 to +145
| right: gains 120 to 255, steps -120 to +0
| both: steps -0 to +0

# 192 kbit/s have 626 bytes, 320 have 1,044, and a padded frame one more: areas of 590, 381, 382 and
# 1,008 bytes.
# bit rates
< r fffbb000 ~626 OF_FOUR fffb9200 ~1461 fffbe000 ~2505
$ info r
| MPEG-1, 44100 Hz, 2 channels
| 4 frames, 0 lost, 0.00.10
| 128 to 320 kbit/s
| 4 of 2361 bytes are main data
| no head
| plays 4608 samples
| left: gains 100 to 110, steps -100 to +145
| right: gains 120 to 130, steps -120 to +125
| both: steps -100 to +125

# one bit rate, padded and not
< r Z fffb9200 ~835
$ info r
| MPEG-1, 44100 Hz, 2 channels
| 2 frames, 0 lost, 0.00.05
| 128 kbit/s
| 0 of 763 bytes are main data
| no head
| plays 2304 samples
| left: no gains
| right: no gains
| both: no gains

# The right channel of the second granule has no main data, and the gain 255: 8, 8, 8 and 0 bits with
# the gains 100, 101, 50, 255.
# a granule without main data
< s fffb9000 0000000800320000000001000650000000002000640000000000003fc0 ~417
$ info s
| MPEG-1, 44100 Hz, 2 channels
| 1 frames, 0 lost, 0.00.02
| 128 kbit/s
| 3 of 381 bytes are main data
| no head
| plays 1152 samples
| left: gains 50 to 100, steps -50 to +155
| right: gains 101 to 101, steps -101 to +154
| both: steps -50 to +154

# 0, 0, 0 and 8 bits with the gains 0, 7, 255, 9.
# silence on the left
< s fffb9000 0000000000000000000000000070000000000001fe0000000004000240 ~417
$ info s
| MPEG-1, 44100 Hz, 2 channels
| 1 frames, 0 lost, 0.00.02
| 128 kbit/s
| 1 of 381 bytes are main data
| no head
| plays 1152 samples
| left: no gains
| right: gains 9 to 9, steps -9 to +246
| both: steps -9 to +246

# 8, 0, 8 and 0 bits.
# silence on the right
< s fffb9000 0000000800000000000000000070000000002001fe0000000000000240 ~417
$ info s
| MPEG-1, 44100 Hz, 2 channels
| 1 frames, 0 lost, 0.00.02
| 128 kbit/s
| 2 of 381 bytes are main data
| no head
| plays 1152 samples
| left: gains 0 to 255, steps -0 to +0
| right: no gains
| both: steps -0 to +0

# Other classes.

# Two granules of 8 bits with the gains 30 and 40.
# one channel
< m fffb90c0 00000020003c0000000004000a ~417
$ info m
| MPEG-1, 44100 Hz, 1 channels
| 1 frames, 0 lost, 0.00.02
| 128 kbit/s
| 2 of 396 bytes are main data
| no head
| plays 1152 samples
| mono: gains 30 to 40, steps -30 to +215

# the same without main data
< m fffb90c0 00000000003c0000000000000a ~417
$ info m
| MPEG-1, 44100 Hz, 1 channels
| 1 frames, 0 lost, 0.00.02
| 128 kbit/s
| 0 of 396 bytes are main data
| no head
| plays 1152 samples
| mono: no gains

# One granule with two channels of 8 bits and the gains 30 and 40. 208 bytes less 21.
# MPEG-2
< m fff38040 000020003c00000000004000a0 ~208
$ info m
| MPEG-2, 22050 Hz, 2 channels
| 1 frames, 0 lost, 0.00.02
| 64 kbit/s
| 2 of 187 bytes are main data
| no head
| plays 576 samples
| left: gains 30 to 30, steps -30 to +225
| right: gains 40 to 40, steps -40 to +215
| both: steps -30 to +215

# MPEG-2 with a check word, one channel
< m M
$ info m
| MPEG-2, 24000 Hz, 1 channels
| 1 frames, 0 lost, 0.00.02
| 8 kbit/s
| 1 of 9 bytes are main data
| no head
| plays 576 samples
| mono: gains 100 to 100, steps -100 to +155

# MPEG-2.5
< m ffe318c0 00*68 ffe318c0 00*68
$ info m
| MPEG-2.5, 8000 Hz, 1 channels
| 2 frames, 0 lost, 0.00.14
| 8 kbit/s
| 0 of 118 bytes are main data
| no head
| plays 1152 samples
| mono: no gains

# What is refused. Nothing goes to standard output.

< g G
$ info
! 2 bad word 2

< g G
$ info g o
! 2 bad word 3

< g G
$ info x
! 3 x: absent
- x

< x 'abc'
$ info x
! 1 x: no frame at 0

< m WRONG_M
$ info m
! 1 m: check word at 0 is e953, right is e952

< g G
fail Read 1
$ info g
! 3 g: read fault

< g G
fail Send 1
$ info g
! 3 standard output: write fault

# The bytes of a head are read after the file, and the text is one write: nothing of it is sent where
# a call fails.
< k K_HEAD Z*4
$ info k
| MPEG-1, 44100 Hz, 2 channels
| 4 frames, 0 lost, 0.00.10
| 128 kbit/s
| 0 of 1905 bytes are main data
| Info head, 4 frames, 2085 bytes
| delay 576, padding 720, plays 3312 samples
| left: no gains
| right: no gains
| both: no gains
each Find 1 k: read fault
each Read 2 k: read fault
each Send 1 standard output: write fault

# No second write is made, and without a head no second read.
< g G
fail Read 2
fail Send 2
$ info g
| MPEG-1, 44100 Hz, 2 channels
| 1 frames, 0 lost, 0.00.02
| 128 kbit/s
| 4 of 381 bytes are main data
| no head
| plays 1152 samples
| left: gains 100 to 255, steps -100 to +0
| right: gains 90 to 101, steps -90 to +154
| both: steps -90 to +0
";
