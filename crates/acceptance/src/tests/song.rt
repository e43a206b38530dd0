//! A whole song.

pub static ROWS: &str = "
# song

# Four joint stereo frames of changing bit rates at 44,100 Hz, whose main data begin in the areas of
# the frames before them. After them the same four may follow again. The second channel of the third
# is silent. Their lengths are 417, 626, 314 (padded) and 522 bytes, 1,879 in all. Their main data
# have 3,597, 3,198, 4,160 and 2,905 bits, so 450, 400, 520 and 364 bytes, and each main_data_begin
# is the one before it, less that frame's main data, plus its area: 200 - 450 + 381 are 131, 131 -
# 400 + 590 are 321, 321 - 520 + 278 are 79, and 79 - 364 + 486 are 201, so one byte is left before
# the first of the next four, whose is 200.
FRAME_0 = fffb9064 640003e9003c00000000706007900000000d4800f400000001a7801ec0 ~36 5a*381
FRAME_1 = fffbb064 41800320004600000000642005f00000000c7c011a000000018f0018 ~36 5a*590
FRAME_2 = fffb7264 a0800820005a0000000000000ff00000002080016a0000000000003f80 ~36 5a*278
FRAME_3 = fffba064 27800001000000000000fa000fc00000000e10009a0000000002001380 ~36 5a*486
FOUR = FRAME_0 FRAME_1 FRAME_2 FRAME_3
# The same with all gains 3 more, except the silent channel.
LOUDER_0 = fffb9064 640003e9003d80000000706007c00000000d4800fa00000001a7801f80 ~36 5a*381
LOUDER_1 = fffbb064 41800320004780000000642006200000000c7c0120000000018f0018c0 ~36 5a*590
LOUDER_2 = fffb7264 a0800820005b8000000000000ff0000000208001700000000000003f80 ~36 5a*278
LOUDER_3 = fffba064 27800001000180000000fa000ff00000000e1000a00000000002001440 ~36 5a*486
LOUDER_FOUR = LOUDER_0 LOUDER_1 LOUDER_2 LOUDER_3
# The tag that notes these steps.
NOTE = UNDO_FRONT '-003,-003,N' UNDO_END
# The song: an ID3v2 block of 30,000 bytes, and a head of 417 with its text, flags, number of frames
# and number of bytes. Then the four frames 2,300 times, which is 9,200 of them and four minutes of
# sound, and at the end an ID3v1 block. The number of bytes is 417 + 2,300 * 1,879, 4,322,117,
# 41f345 (hex).
BLOCK = 'ID3' 03000000016a26 ff*29990
FRONT = BLOCK fffb9064 00*32 'Xing' 00000003000023f00041f345 2a*365
SONG = FRONT FOUR*2300 ID3V1_BLOCK

# The third command is refused, so what the first two wrote stays. There is room for two songs. The
# first gain that is 0 is in the fourth frame, at 30,417 + 417 + 626 + 314.

< s SONG
to o p
room 5000000
$ gain -s s -g 3 s o
$ gain -s s -g -3 o p
$ gain -s s -g -3 s o
! 1 gain 0 out of range at 31774, granule 0, channel 0
> o FRONT LOUDER_FOUR*2300 ID3V1_BLOCK
> p SONG

# The song is listed.
< s SONG
$ list s
| block ID3v2 at 0: 30000 bytes
| head at 30000: 417 bytes
| frame 0 at 30417: 128 kbit/s, begin 200, bits 3597
| ...
| block ID3v1 at 4352117: 128 bytes
| 9200 frames, MPEG-1, 44100 Hz, 2 channels, 4.00.32

# The change is noted in a tag after the last frame, and undone by it.
< s SONG
to o p
room 5000000
$ gain -g 3 s o
$ gain -u o p
> o FRONT LOUDER_FOUR*2300 NOTE ID3V1_BLOCK
> p SONG

# The first frame in joint stereo is the song's first.
< s SONG
$ gain -l 0 1 s o
! 1 joint stereo at 30417

# What the frames become with the least bit rates, and the Info frame before them. This and what
# follows was worked out by `checks/laid.py`, which shares nothing with the program. The first frame
# alone has main data from the head's area.
INFO_OF_PACKED = fffb5064 00*32 'Xing' 0000000f000023f00041e978 000205070a0c0f111417191c1e212326282b2e303335383a3d404245474a4c4f515457595c5e616366686b6e707375787a7d808285878a8c8f919497999c9ea1a3a6a8abaeb0b3b5b8babdc0c2c5c7cacccfd1d4d7d9dcdee1e3e6e8ebeef0f3f5f8fafd 00*4 2a*36 00*16
PACKED_FIRST = fffba064 000003e9003c00000000706007900000000d4800f400000001a7801ec0 ~36 2a*200 5a*249 58 5a*36
PACKED_0 = fffba064 000003e9003c00000000706007900000000d4800f400000001a7801ec0 ~36 5a*449 58 5a*36
PACKED_1 = fffb9064 12000320004600000000642005f00000000c7c011a000000018f0018 ~36 5a*363 58 5a*17
PACKED_2 = fffbb064 08800820005a0000000000000ff00000002080016a0000000000003f80 ~36 5a*590
PACKED_3 = fffb7064 2b800001000000000000fa000fc00000000e10009a0000000002001380 ~36 5a*276 ~313
PACKED = PACKED_0 PACKED_1 PACKED_2 PACKED_3

# The head's extension is kept.
< s SONG
room 5000000
$ pack s o
> o BLOCK INFO_OF_PACKED PACKED_FIRST PACKED_1 PACKED_2 PACKED_3 PACKED*2299 ID3V1_BLOCK

# Two minutes are 4,593.75 frames: after a lead-in each, 4,593 are in the first piece and 4,607 in
# the second. In the pieces main data begin farther and farther back; packed, the same four frames
# come again and again, except at the front and at the end.
INFO_OF_FIRST = fffb5064 00*32 'Xing' 0000000f000011f20020e8b7 000205070a0c0f111416191c1e212326282b2e303335383a3d3f4245474a4c4f515456595c5e616366686b6e707375787a7d7f8285878a8c8f919497999c9ea1a3a6a8abaeb0b3b5b8babdbfc2c5c7cacccfd1d4d6d9dcdee1e3e6e8ebeef0f3f5f8fafd 00*56
LED = fffb1064 ~36 2a*68
LED_0 = fffb9264 220003e9003c00000000706007900000000d4800f400000001a7801ec0 ~36 2a*132 5a*249 58
LED_1 = fffba064 00000320004600000000642005f00000000c7c011a000000018f0018 ~36 5a*399 58 5a*86
LED_2 = fffba064 2b000820005a0000000000000ff00000002080016a0000000000003f80 ~36 5a*486
LED_3 = fffb8064 1a000001000000000000fa000fc00000000e10009a0000000002001380 ~36 5a*311 00 5a*17
STEADY_0 = fffba064 088003e9003c00000000706007900000000d4800f400000001a7801ec0 ~36 5a*432 58 5a*53
STEADY_1 = fffb9064 1a800320004600000000642005f00000000c7c011a000000018f0018 ~36 5a*346 58 5a*34
STEADY_2 = fffba064 11000820005a0000000000000ff00000002080016a0000000000003f80 ~36 5a*486
STEADY_3 = fffb9064 00000001000000000000fa000fc00000000e10009a0000000002001380 ~36 5a*363 00 5a*17
STEADY_END = fffba064 088003e9003c00000000706007900000000d4800f400000001a7801ec0 ~36 5a*432 58 ~522
STEADY = STEADY_0 STEADY_1 STEADY_2 STEADY_3
INFO_OF_SECOND = fffb5064 00*32 'Xing' 0000000f000012000021022e 000205070a0c0f111416191c1e212326282b2e303335383a3d3f4245474a4c4f515456595c5e616366686b6e707375787a7d7f8285878a8c8f919496999c9ea1a3a6a8abaeb0b3b5b8babdbfc2c5c7cacccfd1d4d6d9dcdee1e3e6e8ebeef0f3f5f8fafd 00*56
LATE = fffb1064 ~36 5a*68
LATE_1 = fffb9064 22000320004600000000642005f00000000c7c011a000000018f0018 ~36 5a*331 58 5a*49
LATE_2 = fffba064 18800820005a0000000000000ff00000002080016a0000000000003f80 ~36 5a*486
LATE_3 = fffb9064 07800001000000000000fa000fc00000000e10009a0000000002001380 ~36 5a*348 00 5a*32
LATE_0 = fffba064 100003e9003c00000000706007900000000d4800f400000001a7801ec0 ~36 5a*417 58 5a*68
LATE_END = fffb9064 07800001000000000000fa000fc00000000e10009a0000000002001380 ~36 5a*348 ~417
STEADY_LATE = LATE_1 LATE_2 LATE_3 LATE_0

< s SONG
to p01.mp3 p02.mp3 c d
room 5000000
$ split s p 0.0 2.00 EOF
$ pack p01.mp3 c
$ pack p02.mp3 d
$ list p01.mp3
| block ID3v2 at 0: 30000 bytes
| head at 30000: 208 bytes
| frame 0 at 30208: 48 kbit/s padded, begin 0, bits 0
| ...
| frame 4593 at 2187457: 128 kbit/s, begin 391, bits 3597
| block ID3v1 at 2187874: 128 bytes
| 4594 frames, MPEG-1, 44100 Hz, 2 channels, 2.00.00
> c BLOCK INFO_OF_FIRST LED LED_0 LED_1 LED_2 LED_3 STEADY*1147 STEADY_END ID3V1_BLOCK
> d BLOCK INFO_OF_SECOND LATE STEADY_LATE*1151 LATE_1 LATE_2 LATE_END ID3V1_BLOCK
~ p01.mp3 SONG
~ p02.mp3 SONG

< s SONG
to p01.mp3 p02.mp3
room 5000000
$ split s p 0.0 2.00 EOF
$ list p02.mp3
| block ID3v2 at 0: 30000 bytes
| head at 30000: 208 bytes
| frame 0 at 30208: 32 kbit/s, begin 0, bits 0
| ...
| frame 4607 at 2193981: 160 kbit/s, begin 269, bits 2905
| block ID3v1 at 2194503: 128 bytes
| 4608 frames, MPEG-1, 44100 Hz, 2 channels, 2.00.37
~ p01.mp3 SONG
~ p02.mp3 SONG
";
