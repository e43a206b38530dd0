//! Faults in the bytes of an input, as each command finds them when it surveys its file, with their
//! lines, before an output is created; tested with `gain`.

pub static ROWS: &str = "
# refused_inputs

# SECOND without its last byte.
SHORT = fffb9000 28800320003200000000640006400000000c8000c800000001900019 ~36 55*319 ~416
# G_AT_48_KHZ without its last byte.
SHORT_AT_48_KHZ = fffb9400 0000000800320000000001000650000000002001fe0000000004001680 ~36 11223344 ~383
# The same as SECOND with main_data_begin 82: its main data begin in the last byte of those of
# FIRST.
OVERLAPPING = fffb9000 29000320003200000000640006400000000c8000c800000001900019 ~36 55*319 ~417
# The same with four times 1,000 bits, which pass the end of its area too.
OVERLAPPING_AND_OVERFULL = fffb9000 290003e80032000000007d0006400000000fa000c800000001f40019 ~36 55*319 ~417
# main_data_begin is 40. Four times 843 bits are 3,372, 4 more than 8 * (40 + 381), up to the end of
# its area.
OVERFULL_BEHIND = fffb9000 1400034b003200000000696006400000000d2c00c800000001a58019 ~36 55*319 ~417
# main_data_begin is 382, and all else is as in Z.
SILENT_TOO_FAR = fffb9000 bf ~417
# Three times 762 bits and once 763, one more than the area of 381 bytes has; all other bits are 0.
SILENT_OVERFULL = fffb9000 000002fa0000000000005f4000000000000be80000000000017d80 ~417
# PROTECTED_G with a wrong check word.
WRONG_G = fffa9000 01a2 0000000800320000000001000650000000002001fe0000000004001680 ~38 11223344 ~417
# The frame M with main_data_begin 1, and with the check word of M, which isn't right then.
WRONG_BACK_POINTER = fff214c0 e952 0100400190 ~15 aa ~24
# The frame M with 73 bits, which pass its area of 24 - 4 - 2 - 9 bytes, 72 bits, but not that of a
# frame without a check word.
M_OVERFULL = fff214c0 41dd 0002480190 ~15 aa ~24
# WRONG_G without its last byte.
WRONG_G_OF_416 = fffa9000 01a2 0000000800320000000001000650000000002001fe0000000004001680 ~38 11223344 ~416

# Files without a frame.

# an empty file
< a
$ gain -s s -g 0 a o
! 1 a: no frame at 0

# fewer bytes than a header has
< a fffb90
$ gain -s s -g 0 a o
! 1 a: no frame at 0

# zero bytes alone
< a 00*3
$ gain -s s -g 0 a o
! 1 a: no frame at 3

# a head alone
< a HEAD
$ gain -s s -g 0 a o
! 1 a: no frame at 417

# the reserved version
< a RESERVED_VERSION RESERVED_VERSION
$ gain -s s -g 0 a o
! 1 a: no frame at 0

# one byte of junk more than there may be
< a 55*65537 Z
$ gain -s s -g 0 a o
! 1 a: no frame at 0

# What is at fault in the input `a`: bytes after a frame that are no item.

# bytes that are no item
< a FIRST SECOND 0041
$ gain -s s -g 0 a o
! 1 a: lost synchronisation at 835

# the beginning of a header
< a Z Z fffb90
$ gain -s s -g 0 a o
! 1 a: lost synchronisation at 834

# layer II, later
< a Z LAYER_2
$ gain -s s -g 0 a o
! 1 a: lost synchronisation at 417

# the forbidden rate, later
< a Z FORBIDDEN_RATE
$ gain -s s -g 0 a o
! 1 a: lost synchronisation at 417

# the reserved frequency, later
< a Z RESERVED_FREQUENCY
$ gain -s s -g 0 a o
! 1 a: lost synchronisation at 417

# What is at fault in the input `a`: an item that passes the end of the file.

# a frame without its last byte
< a FIRST SHORT
$ gain -s s -g 0 a o
! 1 a: truncated at 417

# a header alone
< a fffb9000
$ gain -s s -g 0 a o
! 1 a: truncated at 0

# a frame of another class without its last byte
< a Z SHORT_AT_48_KHZ
$ gain -s s -g 0 a o
! 1 a: truncated at 417

# a block at the front without its last byte
< a 00*2 ID3V2 11*29
$ gain -s s -g 0 a o
! 1 a: truncated at 2

# a block behind a frame without its last byte
< a Z ID3V1 20*124
$ gain -s s -g 0 a o
! 1 a: truncated at 417

# What is at fault in the input `a`: free format, or frames of two classes.

# free format
< a A@2=00
$ gain -s s -g 0 a o
! 1 a: free format at 0

# free format, later
< a Z FREE
$ gain -s s -g 0 a o
! 1 a: free format at 417

# MPEG-1, later
< a MPEG_2 Z
$ gain -s s -g 0 a o
! 1 a: mixed class at 208

# another frequency, later
< a Z G_AT_48_KHZ
$ gain -s s -g 0 a o
! 1 a: mixed class at 417

# one channel, later
< a G MONO
$ gain -s s -g 0 a o
! 1 a: mixed class at 417

# What is at fault in the input `a`: where main data begin or end. The area of FIRST has 381 bytes,
# of which 81 are left; all together 8 * 381, 3,048 bits.

# main data before the stream, behind a frame that has some
< a FIRST TOO_FAR
$ gain -s s -g 0 a o
! 1 a: back pointer at 417 is 382, present 381

# the same of a silent frame
< a FIRST SILENT_TOO_FAR
$ gain -s s -g 0 a o
! 1 a: back pointer at 417 is 382, present 381

# main data within those of the frame before
< a FIRST OVERLAPPING
$ gain -s s -g 0 a o
! 1 a: overlap at 417

# the same of a silent frame
< a FIRST SILENT_BACK_POINTER
$ gain -s s -g 0 a o
! 1 a: overlap at 417

# the same, and past the area
< a FIRST OVERLAPPING_AND_OVERFULL
$ gain -s s -g 0 a o
! 1 a: overlap at 417

# main data past the area
< a SILENT_OVERFULL
$ gain -s s -g 0 a o
! 1 a: overrun at 0, bits 3049, room 3048

# the same with a back pointer
< a Z OVERFULL_BEHIND
$ gain -s s -g 0 a o
! 1 a: overrun at 417, bits 3372, room 3368

# Two faults in the input `a`: the line is about the first.

# a frame at fault before bytes that are no item
< a OVERFULL 41
$ gain -s s -g 0 a o
! 1 a: overrun at 0, bits 3049, room 3048

# bytes that are no item before a frame at fault
< a Z 41 OVERFULL
$ gain -s s -g 0 a o
! 1 a: lost synchronisation at 417

# A wrong check word is refused.

< m WRONG_M
$ gain -s s -g 1 m o
! 1 m: check word at 0 is e953, right is e952

# Frames with check words.

# a wrong word, later, and a gain out of range before
< a LOUD WRONG_G
$ gain -s s -g 5 a o
! 1 a: check word at 417 is 01a2, right is 11a2

# a wrong word in a lost frame
< a WRONG_BACK_POINTER
$ gain -s s -g 5 a o
! 1 a: check word at 0 is e952, right is 6f31

# main data past the area
< a M_OVERFULL
$ gain -s s -g 5 a o
! 1 a: overrun at 0, bits 73, room 72

# a wrong word behind a frame that is at fault
< a M_OVERFULL WRONG_BACK_POINTER
$ gain -s s -g 5 a o
! 1 a: overrun at 0, bits 73, room 72

# a wrong word in a frame of another class
< a Z WRONG_BACK_POINTER
$ gain -s s -g 5 a o
! 1 a: mixed class at 417

# a wrong word in a frame that is cut short
< a WRONG_G_OF_416
$ gain -s s -g 5 a o
! 1 a: truncated at 0
";
