//! Calls of the outside that fail while gains change.

pub static ROWS: &str = "
# gain/failing_calls

# A file in which everything stands that a file may have.
FILE = ID3V2_BLOCK 00*2 55*10 HEAD G Z PROTECTED_G APE ID3V1_BLOCK
# The same with the gains 5 less, without its junk.
LOWER_FILE = ID3V2_BLOCK 00*2 HEAD G_LOWER Z PROTECTED_G_LOWER APE ID3V1_BLOCK
NOTED = G_LOWER UNDO_FRONT '+005,+005,N' UNDO_END

# Each call fails once.

< g FILE
fail Find 1
$ gain -s s -g -5 g o
! 3 g: read fault

< g FILE
fail Read 1
$ gain -s s -g -5 g o
! 3 g: read fault

# The input is read once more when the output is there.
< g FILE
fail Read 2
$ gain -s s -g -5 g o
! 3 g: read fault
> o

< g FILE
fail Create 1
$ gain -s s -g -5 g o
! 3 o: write fault

< g FILE
fail Write 1
$ gain -s s -g -5 g o
! 3 o: write fault
> o

# What stands before the junk is written by itself.
< g FILE
fail Write 2
$ gain -s s -g -5 g o
! 3 o: write fault
> o ID3V2_BLOCK 00*2

# No more calls are made.

< g FILE
fail Find 2
$ gain -s s -g -5 g o
> o LOWER_FILE

< g FILE
fail Read 3
$ gain -s s -g -5 g o
> o LOWER_FILE

< g FILE
fail Create 2
$ gain -s s -g -5 g o
> o LOWER_FILE

< g FILE
fail Write 3
$ gain -s s -g -5 g o
> o LOWER_FILE

# An output that was there.

< g G
< o 'old'
fail Create 1
$ gain -s s -g -5 g o
! 3 o: write fault

< g G
< o 'old'
fail Write 1
$ gain -s s -g -5 g o
! 3 o: write fault
> o

# No room for the output.

< g G
room 416
$ gain -s s -g -5 g o
! 3 o: write fault
> o

< g G
$ gain -s s -g -5 g p
! 3 p: write fault
- p

# Want of memory comes before the output is created.

< g FILE
$ gain -s s -g -5 g o
> o LOWER_FILE

# The file is read once by the survey, and its tag once more. The second pass comes last.

< u NOTED
fail Read 1
$ gain -g -5 u o
! 3 u: read fault

< u NOTED
fail Read 2
$ gain -g -5 u o
! 3 u: read fault

< u NOTED
fail Read 3
$ gain -g -5 u o
! 3 u: read fault
> o

# Want of memory comes before the output is created.

< u ID3V2_BLOCK 00*2 55*10 HEAD G Z PROTECTED_G THREE_FRONT '-003,-003,N' THREE_END ID3V1_BLOCK
$ gain -g -5 u o
> o ID3V2_BLOCK 00*2 HEAD G_LOWER Z PROTECTED_G_LOWER THREE_FRONT '+002,+002,N' THREE_END ID3V1_BLOCK

< u G Z ID3V1_BLOCK
$ gain -g -5 u o
> o G_LOWER Z UNDO_FRONT '+005,+005,N' UNDO_END ID3V1_BLOCK

# Each call fails in turn.

< u G
$ gain -w -g 1 u o
> o G_WRAPPED_UP UNDO_FRONT '-001,-001,W' UNDO_END
each Find 1 u: read fault
each Read 1 u: read fault
each Create 1 o: write fault
each Write 1 o: write fault

< u ID3V2_BLOCK 00*2 55*10 HEAD G Z PROTECTED_G THREE_FRONT '-003,-003,N' THREE_END ID3V1_BLOCK
$ gain -g -5 u o
> o ID3V2_BLOCK 00*2 HEAD G_LOWER Z PROTECTED_G_LOWER THREE_FRONT '+002,+002,N' THREE_END ID3V1_BLOCK
each Find 1 u: read fault
each Read 1 u: read fault
each Create 1 o: write fault
each Write 1 o: write fault

< u G Z ID3V1_BLOCK
$ gain -g -5 u o
> o G_LOWER Z UNDO_FRONT '+005,+005,N' UNDO_END ID3V1_BLOCK
each Find 1 u: read fault
each Read 1 u: read fault
each Create 1 o: write fault
each Write 1 o: write fault

# Where one channel changes, the file is read by the survey and while it is written, and a tag once
# between them.

< u G
$ gain -s s -l 0 -1 u o
> o G_LEFT_LOWER
each Find 1 u: read fault
each Read 2 u: read fault
each Create 1 o: write fault
each Write 1 o: write fault

< u G
$ gain -l 1 1 u o
> o G_RIGHT_LOUDER UNDO_FRONT '+000,-001,N' UNDO_END
each Find 1 u: read fault
each Read 2 u: read fault
each Create 1 o: write fault
each Write 1 o: write fault

< u G UNDO_FRONT '-003,+010,N' UNDO_END
$ gain -w -l 1 1 u o
> o G_RIGHT_LOUDER UNDO_FRONT '-003,+009,W' UNDO_END
each Find 1 u: read fault
each Read 3 u: read fault
each Create 1 o: write fault
each Write 1 o: write fault

# 480 frames of 417 bytes, read by 65,536 and written by the 157 frames that these hold whole: three
# writes of 65,469 bytes, which are 196,407, and one of the rest.
< u G*480
room 200160
$ gain -s s -l 1 1 u o
> o G_RIGHT_LOUDER*480
each Read 8 after 65536 u: read fault
each Write 4 after 196407 o: write fault

# Files longer than what is read and written at once.

# 480 frames of 417 bytes: 200,160 bytes, read twice by 65,536, in 4 calls each, and written once by
# the 157 frames that these hold whole.
< g G*480
room 200160
$ gain -s s -g -5 g o
> o G_LOWER*480
each Find 1 g: read fault
each Read 8 g: read fault
each Create 1 o: write fault
each Write 4 o: write fault

# The output is written while the input is still read: neither is held whole.
< g Z*400
room 166800
$ gain -s s -g 1 g o
> o Z*400
each Read 1 after 65536 g: read fault
";
