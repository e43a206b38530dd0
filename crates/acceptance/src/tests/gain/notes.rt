//! The undo item that notes a change of gains in the tag.

pub static ROWS: &str = "
# gain/notes

# What a change by 255 steps makes of a silent frame.
NOTED_ONCE = Z UNDO_FRONT '-255,-255,N' UNDO_END
# What two make of it.
NOTED_TWICE = Z UNDO_FRONT '-510,-510,N' UNDO_END
# What three make of it.
NOTED_THRICE = Z UNDO_FRONT '-765,-765,N' UNDO_END
# TWO_ITEMS with a new undo item, which stands last, around its value: 15 + 23 + 32 bytes of items
# and a footer are 102, 66 (hex), and the tag has 134.
TWO_AND_UNDO_FRONT = 'APETAGEX' d00700006600000003000000010000a0 00*8 01 00*7 'Title' 007808 00*7 'Artist' 00 'somebody' 0b 00*7 'MP3GAIN' 5f 'UNDO' 00
TWO_AND_UNDO_END = 'APETAGEX' d0070000660000000300000001000080 00*8
# What stands behind the header TOO_LONG, and what the value of `Title` in ROOM is.
TOO_LONG_REST = 00*1048545
ROOM_VALUE = 78*1048466

# Files of one frame, with and without a tag that has only the undo item.

# both channels, and 255 wraps
< a G
$ gain -w -g 1 a o
> o G_WRAPPED_UP UNDO_FRONT '-001,-001,W' UNDO_END

# both channels, and 100 and 90 wrap
< a G
$ gain -w -g -101 a o
> o G_WRAPPED_DOWN UNDO_FRONT '+101,+101,W' UNDO_END

# the right channel
< a G
$ gain -l 1 1 a o
> o G_RIGHT_LOUDER UNDO_FRONT '+000,-001,N' UNDO_END

# the left channel
< a G
$ gain -l 0 -1 a o
> o G_LEFT_LOWER UNDO_FRONT '+001,+000,N' UNDO_END

# silent granules
< a Z
$ gain -g 255 a o
> o Z UNDO_FRONT '-255,-255,N' UNDO_END

# no step
< a G
$ gain -g 0 a o
> o G UNDO_FRONT '+000,+000,N' UNDO_END

# no step, and no gain wraps
< a G
$ gain -w -g 0 a o
> o G UNDO_FRONT '+000,+000,W' UNDO_END

# Each kind of file.

# MPEG-1, one channel
< a MONO
$ gain -g -5 a o
> o MONO_LOWER UNDO_FRONT '+005,+005,N' UNDO_END

# MPEG-2, two channels
< a LOWER
$ gain -g -5 a o
> o LOWER_QUIETER UNDO_FRONT '+005,+005,N' UNDO_END

# MPEG-2, one channel, protected
< a M
$ gain -g 1 a o
> o M_LOUDER UNDO_FRONT '-001,-001,N' UNDO_END

# MPEG-2.5
< a LOWEST
$ gain -g 1 a o
> o LOWEST_LOUDER UNDO_FRONT '-001,-001,N' UNDO_END

# MPEG-1, two channels, protected
< a PROTECTED_G_LOWER
$ gain -g 5 a o
> o PROTECTED_G UNDO_FRONT '-005,-005,N' UNDO_END

# Files that have a note already.

# a note that stands there
< a G UNDO_FRONT '-003,+010,N' UNDO_END
$ gain -g -5 a o
> o G_LOWER UNDO_FRONT '+002,+015,N' UNDO_END

# the same of the right channel, and W from now on
< a G UNDO_FRONT '-003,+010,N' UNDO_END
$ gain -w -l 1 1 a o
> o G_RIGHT_LOUDER UNDO_FRONT '-003,+009,W' UNDO_END

# W stays
< a G UNDO_FRONT '-001,-999,W' UNDO_END
$ gain -g -5 a o
> o G_LOWER UNDO_FRONT '+004,-994,W' UNDO_END

# the least and the greatest sum
< a G_WRAPPED_UP UNDO_FRONT '-999,+998,N' UNDO_END
$ gain -w -g -1 a o
> o G UNDO_FRONT '-998,+999,W' UNDO_END

# Where the note is.

# items before and behind the undo item, whose key and flags stay
< a G THREE_FRONT '-003,-003,N' THREE_END
$ gain -g -5 a o
> o G_LOWER THREE_FRONT '+002,+002,N' THREE_END

# a tag without undo item, which gets it last
< a G TWO_ITEMS
$ gain -g -5 a o
> o G_LOWER TWO_AND_UNDO_FRONT '+005,+005,N' TWO_AND_UNDO_END

# a tag without items
< a G NO_ITEMS
$ gain -g -5 a o
> o G_LOWER UNDO_FRONT '+005,+005,N' UNDO_END

# a tag at the front
< a THREE_FRONT '-003,-003,N' THREE_END G
$ gain -g -5 a o
> o THREE_FRONT '+002,+002,N' THREE_END G_LOWER

# a tag between frames
< a G TWO_ITEMS G
$ gain -g -5 a o
> o G_LOWER TWO_AND_UNDO_FRONT '+005,+005,N' TWO_AND_UNDO_END G_LOWER

# a tag that isn't the first block
< a ID3V2_BLOCK G ID3V1_BLOCK TWO_ITEMS
$ gain -g -5 a o
> o ID3V2_BLOCK G_LOWER ID3V1_BLOCK TWO_AND_UNDO_FRONT '+005,+005,N' TWO_AND_UNDO_END

# two tags, of which the first is read and changed
< a G TWO_ITEMS UNDO_FRONT '-003,-003,N' UNDO_END
$ gain -g -5 a o
> o G_LOWER TWO_AND_UNDO_FRONT '+005,+005,N' TWO_AND_UNDO_END UNDO_FRONT '-003,-003,N' UNDO_END

# a new tag before a block behind the frames
< a G ID3V1_BLOCK
$ gain -g -5 a o
> o G_LOWER UNDO_FRONT '+005,+005,N' UNDO_END ID3V1_BLOCK

# a new tag before zero bytes behind the frames
< a G 00*3 ID3V1_BLOCK
$ gain -g -5 a o
> o G_LOWER UNDO_FRONT '+005,+005,N' UNDO_END 00*3 ID3V1_BLOCK

# a new tag behind the last frame, where a block stands between frames
< a G ID3V1_BLOCK G
$ gain -g -5 a o
> o G_LOWER ID3V1_BLOCK G_LOWER UNDO_FRONT '+005,+005,N' UNDO_END

# a head, zero bytes, and junk, which is dropped
< a ID3V2_BLOCK 00*2 55*10 HEAD G PROTECTED_G THREE_FRONT '-003,-003,N' THREE_END
$ gain -g -5 a o
> o ID3V2_BLOCK 00*2 HEAD G_LOWER PROTECTED_G_LOWER THREE_FRONT '+002,+002,N' THREE_END

# lost frames, which stay
< a LOST G LONG
$ gain -g -5 a o
> o LOST G_LOWER LONG_LOWER UNDO_FRONT '+005,+005,N' UNDO_END

# A sum of more than three digits.

< z Z
to a b c o
$ gain -g 255 z a
$ gain -g 255 a b
$ gain -g 255 b c
> a NOTED_ONCE
> b NOTED_TWICE
> c NOTED_THRICE

< c NOTED_THRICE
$ gain -g 255 c o
! 1 undo sum -1020 is out of range

# Long tags.

# a tag that fills up
< a G ROOM ROOM_VALUE ROOM_BACK
room 2000000
$ gain -g -5 a o
> o G_LOWER FILLED ROOM_VALUE FILLED_BACK

# a tag that is too long, and isn't read
< a G TOO_LONG TOO_LONG_REST
room 2000000
$ gain -s s -g -5 a o
> o G_LOWER TOO_LONG TOO_LONG_REST
";
