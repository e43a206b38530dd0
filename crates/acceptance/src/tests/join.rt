//! Files that are joined; the bytes were worked out by hand.

pub static ROWS: &str = "
# join

# How lengths, areas, main_data_begin, Info frames and their tables come about is said in `names`.

# SECOND with 62 bytes of NEARER behind its own main data, up to the end of its area.
SECOND_FULL = fffb9000 28800320003200000000640006400000000c8000c800000001900019 ~36 55*381 ~417
# The lead-in before NEARER, full of its main data. It has none itself, and they could begin 62
# bytes before it: 62 is 000111110, 1f00.
LEAD_IN_FROM_62 = fffb1000 1f ~36 55*68 ~104
# NEARER, whose main data begin 62 + 68, 130 bytes before its own area, which has 400 - 130, 270 of
# them: 130 is 010000010, 4100.
NEARER_FROM_130 = fffb9000 41000320003200000000640006400000000c8000c800000001900019 ~36 55*270 ~417
# 208 + 417 + 417 + 104 + 417, 1,563 bytes.
BOTH = INFO_FRONT 'Xing' 0000000f000000040000061b 22*25 66*25 aa*25 bb*25 INFO_REST FIRST SECOND_FULL LEAD_IN_FROM_62 NEARER_FROM_130

# Files joined.

< a A
< b B
< m M
$ join o a b
> o BOTH

# A head, whose area has 40 bytes of the main data of the one frame after it, and that frame, of 400
# bytes.
HEADED = fffb9000 00*32 'Info' 00*337 33*40 fffb9000 14000c80 00*28 33*381
# A frame of 48,000 Hz, of 384 bytes.
FAST = fffb9400 00*380
# An ID3v2 block of 12 bytes.
BLOCK = 'ID3' 030000000000024142
# An Info frame of 64 kbit/s of four frames and 208 + 4 * 417, 1,876 bytes.
INFO_OF_FOUR = INFO_FRONT 'Info' 0000000f0000000400000754 1c*25 55*25 8e*25 c7*25 INFO_REST
# The frames of the first file twice. The main data of the third begin in the 381 - 319, 62 bytes
# that the second leaves, those of the fourth in 381 - 238, 143, which is 010001111, 4780.
TWICE_0 = OF_300 11*300 22*81
TWICE_1 = OF_400 22*319 11*62
TWICE_2 = fffb9000 1f000960 00*28 11*238 22*143
TWICE_3 = fffb9000 47800c80 00*28 22*257 00*124
TWICE = TWICE_0 TWICE_1 TWICE_2 TWICE_3
# The second frame of the first file; after it a lead-in of 32 kbit/s, with an area of 68, and the
# frame of the headed file, whose main data begin 130 bytes before its own area.
BEHIND = OF_400 22*319 33*62 fffb1000 1f00 00*30 33*68 fffb9000 41000c80 00*28 33*270 00*111
# The first file and the headed one: 1,563 bytes.
BOTH_JOINED = INFO_FRONT 'Xing' 0000000f000000040000061b 22*25 66*25 aa*25 bb*25 INFO_REST TWICE_0 BEHIND
# The first file alone.
ALONE = INFO_FRONT 'Info' 0000000f0000000200000412 33*50 99*50 INFO_REST TWICE_0 OF_400 22*319 00*62

# one file twice
< a TWO_FRAMES
< b HEADED
< f FAST
$ join o a a
> o INFO_OF_FOUR TWICE

# a lead-in between the files, as before the second where it is cut out alone
< a TWO_FRAMES
< b HEADED
< f FAST
$ join o a b
> o BOTH_JOINED

# A single file is joined as it is cut from its first frame to its end.
< a BLOCK TWO_FRAMES
to o p
$ join o a
$ cut a 0 EOF p
> o BLOCK ALONE
> p BLOCK ALONE

# Of several files only the block before the frames of the first is written.
< a BLOCK TWO_FRAMES
to o p
$ cut a 0 EOF p
$ join p a a
> p BLOCK INFO_OF_FOUR TWICE

# Refused joins.

< a A
< b B
< m M
$ join o a m
! 1 m: other class than the first input

< a A
< b B
< m M
$ join b a b
! 1 b: input is an output

< a A
< b B
< m M
$ join o a x m
! 3 x: absent
- x

# another class
< a TWO_FRAMES
< b HEADED
< f FAST
$ join o a f
! 1 f: other class than the first input

# the output's name, before an absent input
< a TWO_FRAMES
< b HEADED
< f FAST
$ join a x a
! 1 a: input is an output
- x

# an absent second input
< a TWO_FRAMES
< b HEADED
< f FAST
$ join o a x
! 3 x: absent
- x

# an absent first input, before another class
< a TWO_FRAMES
< b HEADED
< f FAST
$ join o x f
! 3 x: absent
- x

# Each line names the file of the call that failed. The surveys come first.
< a A
< b B
$ join o a b
> o BOTH
each Find 2 a: read fault, b: read fault
each Read 4 a: read fault, b: read fault, a: read fault, b: read fault
each Create 1 o: write fault
each Write 1 o: write fault

# The fourth read is that of the second file in the second pass: the Info frame was written by then.
< a TWO_FRAMES
< b HEADED
$ join o a b
> o BOTH_JOINED
each Read 4 after 208 a: read fault, b: read fault, a: read fault, b: read fault

# Long files, of which neither what is read nor what is written is held whole.

# Two files of a thousand frames each.
< h G*1000
room 834208
$ join o h h
> o INFO_FRONT 'Info' 0000000f000007d0000cbaa0 000205070a0c0f111417191c1e212326292b2e303335383a3d404245474a4c4f515457595c5e616366686b6e707375787a7d808285878a8c8f919497999c9ea1a3a6a8abaeb0b3b5b8babdc0c2c5c7cacccfd1d4d7d9dcdee1e3e6e8ebeef0f3f5f8fafd INFO_REST G_FIRST G_SECOND G_AMONG*1996 G_LAST*2
each Read 1 after 700000 h: read fault
";
