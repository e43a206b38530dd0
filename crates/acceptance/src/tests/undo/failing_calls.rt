//! Calls of the outside that fail in an undo.

pub static ROWS: &str = "
# undo/failing_calls

NOTED = G_LOWER UNDO_FRONT '+005,+005,N' UNDO_END

# The file is read once by the survey, and its tag once more. The second pass comes last.

< u NOTED
fail Read 1
$ gain -u u o
! 3 u: read fault

< u NOTED
fail Read 2
$ gain -u u o
! 3 u: read fault

< u NOTED
fail Read 3
$ gain -u u o
! 3 u: read fault
> o

# Want of memory comes before the output is created.

< u ID3V2_BLOCK 55*10 HEAD G_LOWER Z PROTECTED_G_LOWER THREE_FRONT '+005,+005,N' THREE_END ID3V1_BLOCK
$ gain -u u o
> o ID3V2_BLOCK HEAD G Z PROTECTED_G TWO_ITEMS ID3V1_BLOCK

# Each call fails in turn.

< u ID3V2_BLOCK 55*10 HEAD G_LOWER Z PROTECTED_G_LOWER THREE_FRONT '+005,+005,N' THREE_END ID3V1_BLOCK
$ gain -u u o
> o ID3V2_BLOCK HEAD G Z PROTECTED_G TWO_ITEMS ID3V1_BLOCK
each Find 1 u: read fault
each Read 1 u: read fault
each Create 1 o: write fault
each Write 1 o: write fault

# main data that begin in the frame before
< c A_AT_98 UNDO_FRONT '+002,+002,N' UNDO_END
to d
$ gain -u c d
> d A
each Find 1 c: read fault
each Read 3 c: read fault
each Create 1 d: write fault
each Write 1 d: write fault

# The output is written while the input is still read: neither is held whole. The tag has 96 bytes.
< u Z*400 UNDO_FRONT '+000,+000,N' UNDO_END
room 166800
$ gain -u u o
> o Z*400
each Read 1 after 65536 u: read fault
";
