//! Words that no command takes.

pub static ROWS: &str = "
# refused_words

# Words that are refused before any call of the folder, where there is the input `a` alone.

< a G
to b
fail Find 1
fail Read 1
fail Create 1
fail Write 1
$
! 2 bad word 1

< a G
to b
fail Find 1
fail Read 1
fail Create 1
fail Write 1
$ loud
! 2 bad word 1

< a G
to b
fail Find 1
fail Read 1
fail Create 1
fail Write 1
$ gain
! 2 bad word 2

< a G
to b
fail Find 1
fail Read 1
fail Create 1
fail Write 1
$ gain -t -g 5 a b
! 2 bad word 2

< a G
to b
fail Find 1
fail Read 1
fail Create 1
fail Write 1
$ gain -s s -g 300 a b
! 2 bad word 5

< a G
to b
fail Find 1
fail Read 1
fail Create 1
fail Write 1
$ gain -s s -g 3 -a b
! 2 bad word 6

< a G
to b
fail Find 1
fail Read 1
fail Create 1
fail Write 1
$ gain -s s -g 3 a
! 2 bad word 7

< a G
to b
fail Find 1
fail Read 1
fail Create 1
fail Write 1
$ gain -s s -g 3 a b c
! 2 bad word 8

# A command of which a word is missing.

< a A
$ cut a 0 o
! 2 bad word 4
";
