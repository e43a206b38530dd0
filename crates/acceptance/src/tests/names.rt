//! Frames, tags and other stretches that the texts of several commands name, besides those of
//! `test_files::named`, worked out by hand from the standard's tables. How their numbers, and those
//! of the texts, come about:
//!
//! - **Lengths.** A frame has 144 bytes for each kbit/s per kHz in MPEG-1, 72 in MPEG-2 and
//!   MPEG-2.5, rounded down, and one more where it is padded: 144 * 128 / 44.1 gives 417, and
//!   32 kbit/s 104.
//! - **Areas.** An area is what the header (4 bytes), a check word (2) and the side information
//!   leave of a frame. The side information has 32 bytes in MPEG-1 and 17 in MPEG-2 and MPEG-2.5;
//!   with one channel 17 and 9. Thus 381 of 417 bytes are left, 379 with a check word, and 396 with
//!   one channel; 68 of 104 bytes are.
//! - **Side information.** main_data_begin has 9 bits in MPEG-1 and 8 otherwise. part2_3_length has
//!   12 bits and counts bits: four times 600 are 300 bytes. Then come 9 bits of big_values, here
//!   mostly 0, and 8 of global_gain: 100 is 64 (hex).
//! - **Reservoir.** 300 bytes in an area of 381 leave 81, so the next frame's main data can begin
//!   81 bytes before its own area. main_data_begin is 81 then: 001010001, with 7 more bits 2880.
//! - **Info frames.** After the side information come a text (4 bytes), flags (4), the number of
//!   frames after this one (4), the length of it and these in bytes (4), a table (100), a quality
//!   (4) and an extension (36), 156 bytes in all. The frame is the shortest with room for them.
//!   Stereo at 44,100 Hz needs 4 + 32 + 156, which is 192; a frame of 56 kbit/s has 182 bytes, and
//!   183 padded, so the Info frame has 208, at 64 kbit/s. The text is `Info` where all frames after
//!   it have one bit rate, otherwise `Xing`.
//! - **Tables.** Entry i is about the frame with the number i * frames / 100, rounded down: 256
//!   times the offset of that frame, counted from the Info frame, by all bytes, rounded down. Two
//!   frames of 417 bytes are 1,042 bytes in all, so 256 * 208 / 1,042 gives 51, 33 (hex), for the
//!   first 50 entries, and 256 * 625 / 1,042 gives 153, 99 (hex), for the others.
//! - **Tags.** An APEv2 tag has a header and a footer of 32 bytes. The size in both counts the
//!   items and the footer. An item has the value's length (4 bytes), flags (4), the key, a zero byte
//!   and the value: the undo item has 8 + 12 + 1 + 11, which is 32. A tag with it alone has the
//!   size 64, 40 (hex), and 96 bytes.

/// Bytes that the rows name.
pub static DEFINED: &str = "
# Main data in the areas of earlier frames.

# MPEG-1, 44,100 Hz, 128 kbit/s, stereo. Four times 600 bits, 300 bytes from its own area on; all
# gains are 100. The 81 bytes that are left in its area are of the next frame.
FIRST = fffb9000 000002580032000000004b000640000000096000c8000000012c0019 ~36 55*381 ~417
# The same with all gains 101.
FIRST_LOUDER = fffb9000 000002580032800000004b000650000000096000ca000000012c001940 ~36 55*381 ~417
# main_data_begin is 81. Four times 800 bits, 400 bytes, of which 319 are in its own area, so that
# 62 are left of it; all gains are 100.
SECOND = fffb9000 28800320003200000000640006400000000c8000c800000001900019 ~36 55*319 ~417
# The same with all gains 101.
SECOND_LOUDER = fffb9000 28800320003280000000640006500000000c8000ca0000000190001940 ~36 55*319 ~417
# The same as SECOND with main_data_begin 40, so that 360 bytes are in its own area.
NEARER = fffb9000 14000320003200000000640006400000000c8000c800000001900019 ~36 55*360 ~417
# The same with all gains 101.
NEARER_LOUDER = fffb9000 14000320003280000000640006500000000c8000ca0000000190001940 ~36 55*360 ~417
# The same as SECOND with main_data_begin 382, one byte more than an area has.
TOO_FAR = fffb9000 bf000320003200000000640006400000000c8000c800000001900019 ~36 55*319 ~417
# main_data_begin is 82, and all else is as in Z.
SILENT_BACK_POINTER = fffb9000 29 ~417
# FIRST without main data of another frame after its own.
FIRST_ALONE = fffb9000 000002580032000000004b000640000000096000c8000000012c0019 ~36 55*300 ~417
# Both frames.
A = FIRST SECOND
# The same with all gains 98.
A_AT_98 = fffb9000 000002580031000000004b000620000000096000c4000000012c001880 ~36 55*381 fffb9000 28800320003100000000640006200000000c8000c40000000190001880 ~453 55*319 ~834
# A head, whose area ends with the first 40 bytes of the main data of the frame after it.
HEAD_OF_B = fffb9000 ~36 'Info' 00*337 55*40
B = HEAD_OF_B NEARER
# The header and the side information of a frame of MPEG-1, 44,100 Hz, 128 kbit/s, stereo, with 300
# bytes of main data from its own area of 381 bytes on.
OF_300 = fffb9000 00000960 00*28
# The same with 400 bytes of main data, which begin 81 bytes before its area. All bits are of one
# granule: 2,400 are 960 (hex), and 3,200 are c80.
OF_400 = fffb9000 28800c80 00*28
# Two such frames: the first 81 bytes of the second's main data are in the first's area, after its
# own.
TWO_FRAMES = OF_300 11*300 22*81 OF_400 22*381
# main_data_begin is 382 where no byte of main data stands before, and a granule has 8 bits and the
# gain 100.
LOST = fffb9000 bf0000080032 ~417

# Silent frames, and such with gains.

# Z in joint stereo.
JOINT = fffb9040 ~417
# Z where main data could begin 381 bytes before its area.
Z_FROM_381 = fffb9000 be80 ~417
# Z where main data could begin 511 bytes before its area, as far as 9 bits can say.
Z_FROM_511 = fffb9000 ff80 ~417
# Many frames like G, one after another. Each has 4 bytes of main data. Those of the second begin 377
# bytes before its area, 101111001, bc80, and those of the others 511, as far as they may: 251 bytes
# into the area of the last frame but one, 2 * 381 - 511. The last two have no main data in their
# areas.
G_FIRST = fffb9000 0000000800320000000001000650000000002001fe0000000004001680 ~36 1122334411223344 ~287 11223344 ~417
G_SECOND = fffb9000 bc80000800320000000001000650000000002001fe0000000004001680 ~287 11223344 ~417
G_AMONG = fffb9000 ff80000800320000000001000650000000002001fe0000000004001680 ~287 11223344 ~417
G_LAST = fffb9000 ff80000800320000000001000650000000002001fe0000000004001680 ~417
# G with the gains 101, 102, 0, 91: one step up, and 255 wraps.
G_WRAPPED_UP = fffb9000 00000008003280000000010006600000000020000000000000040016c0 ~36 11223344 ~417
# G with the gains 255, 0, 154, 245: 101 steps down, and 100 and 90 wrap.
G_WRAPPED_DOWN = fffb9000 00000008007f8000000001000000000000002001340000000004003d40 ~36 11223344 ~417
# G with the gains 100, 102, 255, 91: one step up on the right.
G_RIGHT_LOUDER = fffb9000 0000000800320000000001000660000000002001fe00000000040016c0 ~36 11223344 ~417
# G with the gains 99, 101, 254, 90: one step down on the left.
G_LEFT_LOWER = fffb9000 0000000800318000000001000650000000002001fc0000000004001680 ~36 11223344 ~417
# MPEG-2.5, 8,000 Hz, 8 kbit/s, one channel: 8 bits of main data, and the gain 100.
LOWEST = ffe318c0 0000400190 ~13 aa ~72
# The same with the gain 101.
LOWEST_LOUDER = ffe318c0 0000400194 ~13 aa ~72

# Check words.

# MPEG-2, 24,000 Hz, 8 kbit/s, one channel, with a check word: 8 bits of main data, and the gain
# 100.
M = fff214c0 e952 0000400190 ~15 aa ~24
# The same with the gain 101.
M_LOUDER = fff214c0 68b1 0000400194 ~15 aa ~24
# M with a wrong check word.
WRONG_M = fff214c0e953000040019000000000aa 00*8
# FIRST with a check word: its area has 379 bytes, of which 79 are left to the next frame.
WORD_0 = fffa9000 b17d 000002580032000000004b000640000000096000c8000000012c0019 ~38 55*379 ~417
# 447 bytes of main data, which begin 79 bytes before its own area: 4 times 894 bits, 37e (hex).
WORD_1 = fffa9000 2d6b 2780037e0032000000006fc006400000000df800c800000001bf0019 ~38 55*368 ~417

# Tags.

# A tag with the undo item alone, 96 bytes, around the item's value of 11 bytes.
UNDO_FRONT = 'APETAGEX' d00700004000000001000000000000a0 00*8 0b 00*7 'MP3GAIN' 5f 'UNDO' 00
UNDO_END = 'APETAGEX' d0070000400000000100000000000080 00*8
# A tag with the items `Title`, undo and `Artist`, around the undo item's value. The items have 15,
# 32 and 23 bytes, so the size is 102, 66 (hex), and the tag has 134 bytes. Bit 0 of the flags of
# the tag and bit 1 of those of the undo item are set.
THREE_FRONT = 'APETAGEX' d00700006600000003000000010000a0 00*8 01 00*7 'Title' 00780b00000002000000 'mp3gain' 5f 'Undo' 00
THREE_END = 08 00*7 'Artist' 00 'somebody' 'APETAGEX' d0070000660000000300000001000080 00*8
# The same tag without the undo item, 102 bytes: the size is 70, 46 (hex).
TWO_ITEMS = 'APETAGEX' d00700004600000002000000010000a0 00*8 01 00*7 'Title' 007808 00*7 'Artist' 00 'somebody' 'APETAGEX' d0070000460000000200000001000080 00*8
# A tag without items, 64 bytes.
NO_ITEMS = 'APETAGEX' d007000020 00*10 a0 00*8 'APETAGEX' d007000020 00*10 80 00*8
# A tag of 1,048,576 bytes, as long as one may be, with the item `Title` alone, up to its value. The
# size is 1,048,544, 0fffe0 (hex); the footer takes 32 of them and the item's front 14, so the value
# has 1,048,498, 0fffb2.
LONGEST = 'APETAGEX' d0070000e0ff0f0001000000000000a0 00*8 b2ff0f0000000000 'Title' 00
LONGEST_BACK = 'APETAGEX' d0070000e0ff0f000100000000000080 00*8
# The header of a tag that is one byte longer than that.
TOO_LONG = 'APETAGEX' d0070000e1ff0f0001000000000000a0 00*8
# Such a tag of 1,048,544 bytes: an undo item has room.
ROOM = 'APETAGEX' d0070000c0ff0f0001000000000000a0 00*8 92ff0f0000000000 'Title' 00
ROOM_BACK = 'APETAGEX' d0070000c0ff0f000100000000000080 00*8
# The same tag with an undo item, which stands last, up to the value of `Title`.
FILLED = 'APETAGEX' d0070000e0ff0f0002000000000000a0 00*8 92ff0f0000000000 'Title' 00
FILLED_BACK = 0b 00*7 'MP3GAIN' 5f 'UNDO' 00 '+005,+005,N' 'APETAGEX' d0070000e0ff0f000200000000000080 00*8

# Info frames.

# What is behind the table: the quality 0, an extension of 36 bytes that is all 0, and 16 bytes, as
# 208 are 16 more than 192.
INFO_REST = 00*56
# The fields in front of the table of one frame of 417 bytes, which are 625 with the Info frame; and
# of two.
ONE_OF_625 = 'Info' 0000000f0000000100000271
TWO_OF_1042 = 'Info' 0000000f0000000200000412

# Longer files, which `shrinking` has too.

# MPEG-1, 44,100 Hz, 128 kbit/s, stereo, without check word: four granules of 8 bits of main data,
# with the gains 100, 101, 255 and 90.
PLAIN = fffb9000 0000000800320000000001000650000000002001fe0000000004001680000000 5a*381
# The same with the gains 101, 102, 0 and 91.
PLAIN_LOUDER = fffb9000 00000008003280000000010006600000000020000000000000040016c0000000 5a*381
# The first of these frames with a check word.
PROTECTED_PLAIN = fffa9000 11a20000000800320000000001000650000000002001fe0000000004001680000000 5a*379
PROTECTED_PLAIN_LOUDER = fffa9000 139f00000008003280000000010006600000000020000000000000040016c0000000 5a*379
# A head, and a silent frame.
FULL_HEAD = fffb9000 00*32 'Info' 5a*377
SILENT = fffb9000 00*32 5a*381
# The first 10 bytes of an ID3v2 block of 30.
ID3V2_OF_30 = 'ID3' 03000000000014
# 513 bytes, of which the last 96 are a tag that has only the undo item: G with the gains 95, 96,
# 250, 85.
NOTED_FRAME = fffb9000 00000008002f8000000001000600000000002001f40000000004001540 ~36 11223344 ~417 'APETAGEX' d00700004000000001000000000000a0 00*8 0b 00*7 'MP3GAIN' 5f 'UNDO' 00 '+005,+005,N' 'APETAGEX' d0070000400000000100000000000080 00*8
# 120 frames without check word, ID3v2, 5 zero bytes, 60 frames with check words, a silent frame,
# and ID3v1.
QUIET_FRAMES = PLAIN*120 ID3V2_OF_30 42*20 00*5 PROTECTED_PLAIN*60 SILENT 'TAG' 20*125
# The same with other gains.
LOUD_FRAMES = PLAIN_LOUDER*120 ID3V2_OF_30 42*20 00*5 PROTECTED_PLAIN_LOUDER*60 SILENT 'TAG' 20*125
# ID3v2, 3 zero bytes, 7 bytes of junk, a head at 40, and these frames: 30 + 3 + 7 + 417 + 120 * 417
# + 30 + 5 + 60 * 417 + 417 + 128 are 76,097 bytes.
QUIET_FILE = ID3V2_OF_30 41*20 00*3 55*7 FULL_HEAD QUIET_FRAMES
# The same with other gains, and without the junk: 76,090 bytes.
LOUD_FILE = ID3V2_OF_30 41*20 00*3 FULL_HEAD LOUD_FRAMES
";
