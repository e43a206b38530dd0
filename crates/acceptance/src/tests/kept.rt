//! Commands behind `-n`, by which what is there is kept.

pub static ROWS: &str = "
# kept

# The file that is there has the four bytes `kept`. It stays where a command is refused, no text is
# sent then, and nothing is created.

# A at the gains 102, and the tag that notes two steps up: 834 + 96 bytes.
TWO_LOUDER = fffb9000 000002580033000000004b000660000000096000cc000000012c001980 ~36 55*381 fffb9000 28800320003300000000640006600000000c8000cc0000000190001980 ~453 55*319 ~834 UNDO_FRONT '-002,-002,N' UNDO_END

# the output isn't there: the file is that of the command without -n
< a A
to b c
$ gain -g 2 a c
$ -n gain -g 2 a b
> b TWO_LOUDER
> c TWO_LOUDER

# Each command that makes one file, without -n and with it, where the file is there.

< a A
< o 'kept'
$ gain -g 2 a o
> o TWO_LOUDER

< a A
< o 'kept'
$ -n gain -g 2 a o
! 1 o: exists

< a A
< o 'kept'
$ gain -s s -w -l 0 2 a o
~ o 'kept'

< a A
< o 'kept'
$ -n gain -s s -w -l 0 2 a o
! 1 o: exists

< i TWO_LOUDER
< o 'kept'
$ gain -u i o
> o A

< i TWO_LOUDER
< o 'kept'
$ -n gain -u i o
! 1 o: exists

< a A
< c '0_1'
< o 'kept'
$ fade a o c
> o FIRST_LOUDER SECOND_LOUDER

< a A
< c '0_1'
< o 'kept'
$ -n fade a o c
! 1 o: exists

< a A
< c '0_1'
< o 'kept'
$ fade --back a o c
~ o 'kept'

< a A
< c '0_1'
< o 'kept'
$ -n fade --back a o c
! 1 o: exists

< a A
< o 'kept'
$ cut a 1 2 o
~ o 'kept'

< a A
< o 'kept'
$ -n cut a 1 2 o
! 1 o: exists

< a A
< o 'kept'
$ cut --least a 0 1 o
~ o 'kept'

< a A
< o 'kept'
$ -n cut --least a 0 1 o
! 1 o: exists

< a A
< o 'kept'
$ cut --exact a 0 1 o
~ o 'kept'

< a A
< o 'kept'
$ -n cut --exact a 0 1 o
! 1 o: exists

< a A
< o 'kept'
$ remove a o 0 1
~ o 'kept'

< a A
< o 'kept'
$ -n remove a o 0 1
! 1 o: exists

< a A
< o 'kept'
$ pack a o
~ o 'kept'

< a A
< o 'kept'
$ -n pack a o
! 1 o: exists

< a A
< o 'kept'
$ pack --best a o
~ o 'kept'

< a A
< o 'kept'
$ -n pack --best a o
! 1 o: exists

< a A
< o 'kept'
$ pack --constant 160 a o
~ o 'kept'

< a A
< o 'kept'
$ -n pack --constant 160 a o
! 1 o: exists

< a A
< o 'kept'
$ pack --floor 64 a o
~ o 'kept'

< a A
< o 'kept'
$ -n pack --floor 64 a o
! 1 o: exists

< a A
< g G
< o 'kept'
$ join o a g
~ o 'kept'

< a A
< g G
< o 'kept'
$ -n join o a g
! 1 o: exists

< a A
< o 'kept'
$ join --seamless o a a
| a: whole
~ o 'kept'

< a A
< o 'kept'
$ -n join --seamless o a a
! 1 o: exists

< a A
< o 'kept'
$ salvage a o
| 2 frames, 0 gaps, 0 empty
~ o 'kept'

< a A
< o 'kept'
$ -n salvage a o
! 1 o: exists

# a file of no bytes is there too
< a A
< o
$ -n pack a o
! 1 o: exists

# Every other refusal and fault of the input comes first.

# A without its last byte.
SHORT = FIRST fffb9000 28800320003200000000640006400000000c8000c800000001900019 ~453 55*319 ~833

< o A
$ -n pack o o
! 1 o: input is an output

< o 'kept'
$ -n pack x o
! 3 x: absent
- x

< t SHORT
< o 'kept'
$ -n pack t o
! 1 t: truncated at 417

< a A
< m M
< o 'kept'
$ -n join o a m
! 1 m: other class than the first input

< a A
< o 'kept'
$ -n cut a 1 1 o
! 1 range 1 to 1 of 2 frames

< a A
< o 'kept'
$ -n cut --exact a 1 1 o
! 1 range 1152 to 1152 of 2304 samples

< a A
< o 'kept'
$ -n remove a o 0 2
! 1 range 0 to 2 of 2 frames

< g G
< o 'kept'
$ -n gain -g 1 g o
! 1 gain 255 out of range at 0, granule 1, channel 0

< a A
< o 'kept'
$ -n gain -u a o
! 1 no undo item

< a A
< o 'kept'
$ -n pack --constant 100 a o
! 1 no rate 100

< a A
< o 'kept'
$ -n pack --constant 32 a o
! 1 frame 0 does not fit

< a A
< s 'TRACK_01_AUDIO'
< o 'kept'
$ -n fade a o s
! 1 s: bad line 1

< a A
< o01.mp3 'kept'
$ -n split a o 0 3
! 1 range 0 to 3 of 2 frames

# Commands that write no file.

< a A
$ -n list a
| frame 0 at 0: 128 kbit/s, begin 0, bits 2400
| frame 1 at 417: 128 kbit/s, begin 81, bits 3200
| 2 frames, MPEG-1, 44100 Hz, 2 channels, 0.00.05

< a A
$ -n info a
| MPEG-1, 44100 Hz, 2 channels
| 2 frames, 0 lost, 0.00.05
| ...

$ -n drill 1 1
| 1 frames, 417 bytes in, 469 bytes out, 0 lead-ins

$ -n --help
| usage: mp3edit COMMAND
| ...

$ -n -h
| usage: mp3edit COMMAND
| ...

$ -n --version
| mp3edit ...

# What the first command made is there for the second, which has the same words.
CUT = INFO_FRONT TWO_OF_1042 33*50 99*50 INFO_REST FIRST SECOND
< a A
$ -n cut a 0 2 o
$ -n cut a 0 2 o
! 1 o: exists
> o CUT

# Calls of the outside that fail. One call asks whether the output is there, before it is created.

< u A
$ -n cut u 0 2 o
> o CUT
each Find 1 u: read fault
each Read 2 u: read fault
each There 1 o: write fault
each Create 1 o: write fault
each Write 2 o: write fault

# the second frame goes
< u A
$ -n remove u o 1 2
> o INFO_FRONT ONE_OF_625 55*100 INFO_REST FIRST_ALONE
each Find 1 u: read fault
each Read 2 u: read fault
each There 1 o: write fault
each Create 1 o: write fault
each Write 1 o: write fault

# an output that is there, of which the question fails
< u A
< o 'kept'
fail There 1
$ -n cut u 0 2 o
! 3 o: write fault

# without -n nothing is asked
< u A
fail There 1
$ cut u 0 2 o
> o CUT

# the second write is that of the frames
< u A
fail Write 2
$ -n cut u 0 2 o
! 3 o: write fault
> o INFO_FRONT TWO_OF_1042 33*50 99*50 INFO_REST

# no room
< u A
$ -n cut u 0 2 q
! 3 q: write fault
- q
";
