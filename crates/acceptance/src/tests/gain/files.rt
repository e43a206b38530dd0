//! What a change of gains makes of whole files: with bit reservoir, blocks, zero bytes, junk and
//! heads, and with frames that lost their main data.

pub static ROWS: &str = "
# gain/files

# The same as SECOND with main_data_begin 462: the 81 bytes that FIRST leaves, and the area of 381
# of the frame between.
FARTHER = fffb9000 e7000320003200000000640006400000000c8000c800000001900019 ~417
# The same with all gains 101.
FARTHER_LOUDER = fffb9000 e7000320003280000000640006500000000c8000ca0000000190001940 ~417
# The frame M with main_data_begin 1.
M_BACK_POINTER = fff214c0 6f31 0100400190 ~15 aa ~24

# Gains move, and all else stays except junk.

# main data in the area of the frame before
< a FIRST SECOND
$ gain -s s -g 1 a o
> o FIRST_LOUDER SECOND_LOUDER

# a silent frame between, which moves no end of main data
< a FIRST Z FARTHER
$ gain -s s -g 1 a o
> o FIRST_LOUDER Z FARTHER_LOUDER

# main data in the area of a head, which stays
< a B
$ gain -s s -g 1 a o
> o HEAD_OF_B NEARER_LOUDER

# a head whose side information isn't zero
< a MONO_HEAD MONO MONO_HEAD
$ gain -s s -g -5 a o
> o MONO_HEAD MONO_LOWER MONO_HEAD_LOWER

# a protected head with a wrong check word, and its text behind that
< a PROTECTED_HEAD PROTECTED_G
$ gain -s s -g -5 a o
> o PROTECTED_HEAD PROTECTED_G_LOWER

# the same with its text where it would stand without a check word
< a EARLY_HEAD PROTECTED_G
$ gain -s s -g -5 a o
> o EARLY_HEAD PROTECTED_G_LOWER

# 1,383 bytes: 40 + 2 + 300 of junk + 2 * 417 + 79 + 128. The frame 100 bytes behind the beginning
# of the junk ends on zero bytes.
# junk with a false frame, which is dropped: 1,083 bytes are left
< a ID3V2_BLOCK 00*2 55*100 fffb9000 55*196 Z Z APE ID3V1_BLOCK
$ gain -s s -g 1 a o
> o ID3V2_BLOCK 00*2 Z Z APE ID3V1_BLOCK

# the most junk before a frame that moves
< a 55*65536 G
$ gain -s s -g -5 a o
> o G_LOWER

# a frame of the reserved version, which is junk
< a RESERVED_VERSION LOWER
$ gain -s s -g -5 a o
> o LOWER_QUIETER

# blocks and zero bytes between frames, and at the end
< a 00*1 G 00*3 ID3V2_BLOCK G PROTECTED_G APE 00*1 G 00*2
$ gain -s s -g -5 a o
> o 00*1 G_LOWER 00*3 ID3V2_BLOCK G_LOWER PROTECTED_G_LOWER APE 00*1 G_LOWER 00*2

# Gains out of range after other items: 417 + 418, 417 + 417, and 40 + 2 + 10 + 417 + 417 + 1 bytes
# of them.

< a HEAD PADDED G
$ gain -s s -g 1 a o
! 1 gain 255 out of range at 835, granule 1, channel 0

< a MONO_HEAD MONO_LOWER MONO
$ gain -s s -g 56 a o
! 1 gain 200 out of range at 834, granule 1, channel 0

< a ID3V2_BLOCK 00*2 55*10 HEAD Z 00*1 G
$ gain -s s -g 1 a o
! 1 gain 255 out of range at 887, granule 1, channel 0

# Files that were cut out of longer ones: their first frames point to main data that aren't there.
# These frames are lost, and stay as they are; the gains of all others move.

# a silent frame that points before the file
< a BACK_POINTER
$ gain -s s -g 5 a o
> o BACK_POINTER

# a frame that had its main data before the file, with any gains
< a SECOND APE
$ gain -s s -g 200 a o
> o SECOND APE

# frames behind a lost one
< a SECOND FIRST SECOND
$ gain -s s -g 1 a o
> o SECOND FIRST_LOUDER SECOND_LOUDER

# a frame that points before the head
< a HEAD TOO_FAR FIRST
$ gain -s s -g 1 a o
> o HEAD TOO_FAR FIRST_LOUDER

# two lost frames, of which the first is silent, and zero bytes and junk before them
< a 00*2 55*10 SILENT_BACK_POINTER TOO_FAR FIRST Z
$ gain -s s -g 1 a o
> o 00*2 SILENT_BACK_POINTER TOO_FAR FIRST_LOUDER Z

# a lost frame with a check word
< a M_BACK_POINTER M
$ gain -s s -g 1 a o
> o M_BACK_POINTER M_LOUDER

# moved back
< a SECOND FIRST_LOUDER SECOND_LOUDER
$ gain -s s -g -1 a o
> o SECOND FIRST SECOND

# The first gain out of range is after them.

< a SECOND FIRST SECOND
$ gain -s s -g 156 a o
! 1 gain 100 out of range at 417, granule 0, channel 0

# The check word is renewed.

< m M
$ gain -s s -g 1 m o
> o M_LOUDER

# A file longer than what is read at once.

< quiet QUIET_FILE
to loud
room 80000
$ gain -s s -w -g 1 quiet loud
> loud LOUD_FILE
";
