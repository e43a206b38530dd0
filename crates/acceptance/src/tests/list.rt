//! What is in a file, line by line. The lines were worked out by hand from the frames' bytes.

pub static ROWS: &str = "
# list

# A line for each thing. A place is the sum of the bytes before it; bits are those of all granules,
# 4 * 600 and 4 * 800; a frame lasts 1,152 samples, 576 of MPEG-2 and MPEG-2.5, and hundredths are
# rounded down: 2 * 1,152 / 44,100 s are 0.05.

# the bit reservoir
< a FIRST SECOND
$ list a
| frame 0 at 0: 128 kbit/s, begin 0, bits 2400
| frame 1 at 417: 128 kbit/s, begin 81, bits 3200
| 2 frames, MPEG-1, 44100 Hz, 2 channels, 0.00.05

# a head, whose area counts
< a B
$ list a
| head at 0: 417 bytes
| frame 0 at 417: 128 kbit/s, begin 40, bits 3200
| 1 frames, MPEG-1, 44100 Hz, 2 channels, 0.00.02

# a first frame whose main data were cut off
< a SECOND
$ list a
| frame 0 at 0: 128 kbit/s, begin 81, bits 3200, lost
| 1 frames, MPEG-1, 44100 Hz, 2 channels, 0.00.02

# The false frame in the junk isn't anchored: zeros stand at its end.
# blocks, zeros and junk: the latter has 100 + 4 + 196 bytes, from 40 + 2 on
< a ID3V2_BLOCK 00*2 55*100 fffb9000 55*196 Z Z APE ID3V1_BLOCK
$ list a
| block ID3v2 at 0: 40 bytes
| junk at 42: 300 bytes
| frame 0 at 342: 128 kbit/s, begin 0, bits 0
| frame 1 at 759: 128 kbit/s, begin 0, bits 0
| block APEv2 at 1176: 79 bytes
| block ID3v1 at 1255: 128 bytes
| 2 frames, MPEG-1, 44100 Hz, 2 channels, 0.00.05

# a protected head, and blocks and zeros between frames
< a APE EARLY_HEAD Z ID3V2_BLOCK 00*3 PADDED ID3V1_BLOCK PROTECTED_Z 00*1
$ list a
| block APEv2 at 0: 79 bytes
| head at 79: 417 bytes
| frame 0 at 496: 128 kbit/s, begin 0, bits 0
| block ID3v2 at 913: 40 bytes
| frame 1 at 956: 128 kbit/s padded, begin 0, bits 80
| block ID3v1 at 1374: 128 bytes
| frame 2 at 1502: 128 kbit/s, begin 0, bits 0
| 3 frames, MPEG-1, 44100 Hz, 2 channels, 0.00.07

# one channel
< a MONO
$ list a
| frame 0 at 0: 128 kbit/s, begin 0, bits 24
| 1 frames, MPEG-1, 44100 Hz, 1 channels, 0.00.02

# MPEG-2
< a LOWER
$ list a
| frame 0 at 0: 64 kbit/s padded, begin 0, bits 24
| 1 frames, MPEG-2, 22050 Hz, 2 channels, 0.00.02

# 8,000 Hz, 8 kbit/s, one channel, all bytes behind the header 0: 72 bytes and 72 ms each.
# MPEG-2.5
< a ffe318c0 00*68 ffe318c0 00*68
$ list a
| frame 0 at 0: 8 kbit/s, begin 0, bits 0
| frame 1 at 72: 8 kbit/s, begin 0, bits 0
| 2 frames, MPEG-2.5, 8000 Hz, 1 channels, 0.00.14

# The file's end anchors the second frame.
# a first frame of the reserved version, which is junk
< m ffeb18c0 00*68 ffe318c0 00*68
$ list m
| junk at 0: 72 bytes
| frame 0 at 72: 8 kbit/s, begin 0, bits 0
| 1 frames, MPEG-2.5, 8000 Hz, 1 channels, 0.00.07

# Refused files. Nothing goes to standard output.

# that frame alone
< m ffeb18c0 00*68
$ list m
! 1 m: no frame at 0

< a
$ list a
! 1 a: no frame at 0

< a
$ list x
! 3 x: absent
- x

< a
fail Find 1
$ list a
! 3 a: read fault

< a Z ID3V2
$ list a
! 1 a: truncated at 417

< a Z ID3V2
fail Read 1
$ list a
! 3 a: read fault

# The listing is one write: nothing of it is sent where a call fails.
< a FIRST SECOND
$ list a
| frame 0 at 0: 128 kbit/s, begin 0, bits 2400
| frame 1 at 417: 128 kbit/s, begin 81, bits 3200
| 2 frames, MPEG-1, 44100 Hz, 2 channels, 0.00.05
each Find 1 a: read fault
each Read 1 a: read fault
each Send 1 standard output: write fault

# As many frames as take three writes for their lines: each of the writes fails in turn, and a
# prefix of the text was sent.
< z Z*3000
$ list z
| frame 0 at 0: 128 kbit/s, begin 0, bits 0
| ...
| 3000 frames, MPEG-1, 44100 Hz, 2 channels, 1.18.36
each Send 3 by 65000 standard output: write fault

# No fourth write is made.
< z Z*3000
fail Send 4
$ list z
| frame 0 at 0: 128 kbit/s, begin 0, bits 0
| ...
| 3000 frames, MPEG-1, 44100 Hz, 2 channels, 1.18.36
";
