//! Lines on standard error that can't be written.

pub static ROWS: &str = "
# standard_error

# Writes to standard error fail in turn. No line takes fifteen writes: where the fifteenth would
# fail, the line is whole.

< g G
< m WRONG_M
$ gain -s s
! 2 bad word 4
tell 15

< g G
< m WRONG_M
$ gain -s s -g 1 g o
! 1 gain 255 out of range at 0, granule 1, channel 0
tell 15

< g G
< m WRONG_M
$ gain -s s -g 1 a o
! 3 a: absent
tell 15

< g G
< m WRONG_M
$ gain -s s -g 1 m o
! 1 m: check word at 0 is e953, right is e952
tell 15

< g G
< m WRONG_M
$ gain -s s -g 0 g p
! 3 p: write fault
tell 15

< a
$ list a
! 1 a: no frame at 0
tell 15
";
