//! The frames and stretches of `frames` and `files` by their names, as words of `texts`.

/// Each was worked out by hand from the standard's tables. Check words are those that the program mp3check finds right.
pub static FILES: &str = "
# All bytes behind the header are 0: its granules are silent.
Z = fffb9000 ~417
# Each granule's channel has 8 bits; the gains are 100, 101, 255, 90.
G = fffb9000 0000000800320000000001000650000000002001fe0000000004001680 ~36 11223344 ~417
# G with the gains 95, 96, 250, 85.
G_LOWER = fffb9000 00000008002f8000000001000600000000002001f40000000004001540 ~36 11223344 ~417
# G with the gains 10, 20, 30, 40, and with a text that only in the first frame is a head's.
QUIET = fffb9000 00000008000500000000010001400000000020003c0000000004000a ~36 'Xing' ~417
# The same with the gains 5, 15, 25, 35.
QUIETER = fffb9000 00000008000280000000010000f00000000020003200000000040008c0 ~36 'Xing' ~417
# G with the gains 100, 254, 255, 90.
LOUD = fffb9000 0000000800320000000001000fe0000000002001fe0000000004001680 ~36 11223344 ~417
# G with the gains 100, 101, 250, 4.
LOW = fffb9000 0000000800320000000001000650000000002001f400000000040001 ~36 11223344 ~417
# The second channel has no bits; the gains are 100, 255, 200, 0.
LEFT_ALONE = fffb9000 0000000800320000000000000ff000000000200190 ~36 11223344 ~417
# The same with the gains 155, 255, 255, 0.
LEFT_ALONE_LOUDER = fffb9000 00000008004d8000000000000ff0000000002001fe ~36 11223344 ~417
# Padded. The granules' channels have 8, 16, 24 and 32 bits and the gains 5, 6, 7, 8; every other bit of the side
# information but main_data_begin is 1.
PADDED = fffb9200 007ff008ff82fffffffe021ff06fffffffc063fe0ffffffff8107fc23fffffff 11223344 ~418
# The same with the gains 0, 1, 2, 3.
PADDED_LOWER = fffb9200 007ff008ff807ffffffe021ff01fffffffc063fe05fffffff8107fc0ffffffff 11223344 ~418
# One channel, with 17 bytes of side information. The granules have 8 and 16 bits and the gains 100 and 200; scfsi is
# 1010, and every other bit but main_data_begin is 1.
MONO = fffb90c0 007e8023fec9fffffff8087ff23fffffff 11223344 ~417
# The same with the gains 95 and 195.
MONO_LOWER = fffb90c0 007e8023febffffffff8087ff0ffffffff 11223344 ~417
# Four times 762 bits, which fill the area of 381 bytes; all gains are 100.
FULL = fffb9000 000002fa0032000000005f4006400000000be800c8000000017d0019 ~36 11223344 ~417
# The same with all gains 101.
FULL_LOUDER = fffb9000 000002fa0032800000005f4006500000000be800ca000000017d001940 ~36 11223344 ~417
# The same as FULL with one bit more, which the area has no byte for.
OVERFULL = fffb9000 000002fa0032000000005f4006400000000be800c8000000017d8019 ~36 11223344 ~417
# main_data_begin is 10, and all else is as in Z.
BACK_POINTER = fffb9000 05 ~417
# G at 48 kHz.
G_AT_48_KHZ = fffb9400 0000000800320000000001000650000000002001fe0000000004001680 ~36 11223344 ~384
# The same with the gains 95, 96, 250, 85.
G_AT_48_KHZ_LOWER = fffb9400 00000008002f8000000001000600000000002001f40000000004001540 ~36 11223344 ~384
# G at 32 kHz.
G_AT_32_KHZ = fffb9800 0000000800320000000001000650000000002001fe0000000004001680 ~36 11223344 ~576
# The same with the gains 95, 96, 250, 85.
G_AT_32_KHZ_LOWER = fffb9800 00000008002f8000000001000600000000002001f40000000004001540 ~36 11223344 ~576
# G at 160 kbit/s, with a text one byte behind the place of a head's.
LONG = fffba000 0000000800320000000001000650000000002001fe0000000004001680 ~36 '-Info' ~522
# The same with the gains 95, 96, 250, 85.
LONG_LOWER = fffba000 00000008002f8000000001000600000000002001f40000000004001540 ~36 '-Info' ~522
# Z with the text of a head.
HEAD = fffb9000 ~36 'Info' ~417
# MONO with the text of a head.
MONO_HEAD = fffb90c0 007e8023fec9fffffff8087ff23fffffff 'Info' ~417
# The same with the gains 95 and 195.
MONO_HEAD_LOWER = fffb90c0 007e8023febffffffff8087ff0ffffffff 'Info' ~417
# G with a wrong check word, and with the text of a head behind the side information.
PROTECTED_HEAD = fffa9000 0000 0000000800320000000001000650000000002001fe0000000004001680 ~38 'Info' ~417
# The same with the text where a frame without a check word has it. Its first two bytes are the last two of the side
# information.
EARLY_HEAD = fffa9000 0000 0000000800320000000001000650000000002001fe0000000004001680005869 6e67 ~417
# Z with a check word.
PROTECTED_Z = fffa9000 c05c ~417
# G with a check word.
PROTECTED_G = fffa9000 11a2 0000000800320000000001000650000000002001fe0000000004001680 ~38 11223344 ~417
# The same with the gains 95, 96, 250, 85.
PROTECTED_G_LOWER = fffa9000 9476 00000008002f8000000001000600000000002001f40000000004001540 ~38 11223344 ~417
# MPEG-2, 22,050 Hz, 64 kbit/s, padded, two channels, with 17 bytes of side information. The channels have 8 and 16 bits
# and the gains 100 and 200; every other bit but main_data_begin is 1.
LOWER = fff38200 00c023fec9ffffffff8087ff23ffffffff 11223344 ~209
# The same with the gains 95 and 195.
LOWER_QUIETER = fff38200 00c023febfffffffff8087ff0fffffffff 11223344 ~209
# LOWER with a check word.
PROTECTED_LOWER = fff28200 4fa8 00c023fec9ffffffff8087ff23ffffffff 11223344 ~209
# The same with the gains 95 and 195.
PROTECTED_LOWER_QUIETER = fff28200 2bff 00c023febfffffffff8087ff0fffffffff 11223344 ~209
# MPEG-2, 22,050 Hz, 64 kbit/s, all bytes behind the header 0.
MPEG_2 = fff38000 ~208
# The same with the version that the standard reserves.
RESERVED_VERSION = ffeb8000 ~208
# Z with the bits of layer II.
LAYER_2 = fffd9000 ~417
# Z in free format.
FREE = fffb0000 ~417
# Z with the forbidden bit rate.
FORBIDDEN_RATE = fffbf000 ~417
# Z with the reserved frequency.
RESERVED_FREQUENCY = fffb9c00 ~417
# An ID3v2 block of 40 bytes: the flag of a footer, and size 20.
ID3V2_BLOCK = 'ID3' 04001000000014 11*30
# An ID3v1 block of 128 bytes.
ID3V1_BLOCK = 'TAG' 20*125
# The header and the side information of an Info frame of MPEG-1, 44,100 Hz, 64 kbit/s, stereo: 36 of its 208 bytes.
INFO_FRONT = fffb5000 00*32
# The first 10 bytes of an ID3v2 block of 40: the flag of a footer, and size 20.
ID3V2 = 'ID3' 04001000000014
# The other 30 bytes of that block.
ID3V2_REST = 11*30
# An APEv2 block of 79 bytes with the item `Title`, `x`.
APE = 'APETAGEX' d00700002f00000001000000000000a0 00*8 01 00*7 'Title' 0078 'APETAGEX' d00700002f0000000100000000000080 00*8
# The first 3 bytes of an ID3v1 block of 128.
ID3V1 = 'TAG'
# The other 125 bytes of that block.
ID3V1_REST = 20*125
";
