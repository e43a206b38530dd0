//! Faulty tags, each with one fault.

pub static ROWS: &str = "
# undo/faulty_tags

# The tag of the undo item `-001,-001,W`.
ALONE = UNDO_FRONT '-001,-001,W' UNDO_END

# A file of 513 bytes, whose tag is at 417: the tag of the undo item `-001,-001,W` with another
# value at one place in its header. The header has 32 bytes, of which the last 8 are at 441, so the
# item is at 449; it has 32 too, so the footer is at 481.

# byte 8 is d1
< a G_WRAPPED_UP ALONE@8=d1
$ gain -u a o
! 1 a: lost synchronisation at 417

# byte 23 is 80
< a G_WRAPPED_UP ALONE@23=80
$ gain -u a o
! 1 a: lost synchronisation at 417

# One of the header's last 8 bytes.
# byte 24 is 01
< a G_WRAPPED_UP ALONE@24=01
$ gain -u a o
! 1 bad tag at 441

# byte 31 is 01
< a G_WRAPPED_UP ALONE@31=01
$ gain -u a o
! 1 bad tag at 441

# Two items.
# byte 16 is 02
< a G_WRAPPED_UP ALONE@16=02
$ gain -u a o
! 1 bad tag at 481

# No items.
# byte 16 is 00
< a G_WRAPPED_UP ALONE@16=00
$ gain -u a o
! 1 bad tag at 449

# The same in the item.

# A value that ends behind the footer's begin.
# byte 32 is 0c
< a G_WRAPPED_UP ALONE@32=0c
$ gain -u a o
! 1 bad tag at 449

# A value that ends before it.
# byte 32 is 0a
< a G_WRAPPED_UP ALONE@32=0a
$ gain -u a o
! 1 bad tag at 480

# byte 35 is 80
< a G_WRAPPED_UP ALONE@35=80
$ gain -u a o
! 1 bad tag at 449

# Keys.
# byte 40 is 1f
< a G_WRAPPED_UP ALONE@40=1f
$ gain -u a o
! 1 bad tag at 449

# byte 40 is 7f
< a G_WRAPPED_UP ALONE@40=7f
$ gain -u a o
! 1 bad tag at 449

# A key of one character.
# byte 41 is 00
< a G_WRAPPED_UP ALONE@41=00
$ gain -u a o
! 1 bad tag at 449

# A key without an end, since the value has no zero byte.
# byte 52 is 41
< a G_WRAPPED_UP ALONE@52=41
$ gain -u a o
! 1 bad tag at 449

# The same after the item.

# The footer.
# byte 64 is 00
< a G_WRAPPED_UP ALONE@64=00
$ gain -u a o
! 1 bad tag at 481

# byte 72 is d1
< a G_WRAPPED_UP ALONE@72=d1
$ gain -u a o
! 1 bad tag at 481

# byte 76 is 41
< a G_WRAPPED_UP ALONE@76=41
$ gain -u a o
! 1 bad tag at 481

# byte 80 is 02
< a G_WRAPPED_UP ALONE@80=02
$ gain -u a o
! 1 bad tag at 481

# Bit 29 of its flags.
# byte 87 is a0
< a G_WRAPPED_UP ALONE@87=a0
$ gain -u a o
! 1 bad tag at 481

# byte 88 is 01
< a G_WRAPPED_UP ALONE@88=01
$ gain -u a o
! 1 bad tag at 481

# byte 95 is ff
< a G_WRAPPED_UP ALONE@95=ff
$ gain -u a o
! 1 bad tag at 481

# The same in the key or the value of the undo item.

# byte 40 is 4e
< a G_WRAPPED_UP ALONE@40=4e
$ gain -u a o
! 1 no undo item

# Values.
# byte 53 is 30
< a G_WRAPPED_UP ALONE@53=30
$ gain -u a o
! 1 bad undo item at 449

# byte 53 is 20
< a G_WRAPPED_UP ALONE@53=20
$ gain -u a o
! 1 bad undo item at 449

# byte 54 is 2f
< a G_WRAPPED_UP ALONE@54=2f
$ gain -u a o
! 1 bad undo item at 449

# byte 56 is 3a
< a G_WRAPPED_UP ALONE@56=3a
$ gain -u a o
! 1 bad undo item at 449

# byte 57 is 2e
< a G_WRAPPED_UP ALONE@57=2e
$ gain -u a o
! 1 bad undo item at 449

# byte 58 is 31
< a G_WRAPPED_UP ALONE@58=31
$ gain -u a o
! 1 bad undo item at 449

# byte 63 is 58
< a G_WRAPPED_UP ALONE@63=58
$ gain -u a o
! 1 bad undo item at 449

# byte 63 is 77
< a G_WRAPPED_UP ALONE@63=77
$ gain -u a o
! 1 bad undo item at 449

# That file with the right tag, cut to its first bytes.

# 417 bytes
< a G_WRAPPED_UP
$ gain -u a o
! 1 no undo item

# 418 bytes
< a G_WRAPPED_UP 41
$ gain -u a o
! 1 a: lost synchronisation at 417

# 448 bytes
< a G_WRAPPED_UP 'APETAGEX' d00700004000000001000000000000a0 00*7
$ gain -u a o
! 1 a: lost synchronisation at 417

# 449 bytes
< a G_WRAPPED_UP 'APETAGEX' d00700004000000001000000000000a0 00*8
$ gain -u a o
! 1 a: truncated at 417

# 512 bytes
< a G_WRAPPED_UP 'APETAGEX' d00700004000000001000000000000a0 00*8 0b 00*7 'MP3GAIN' 5f 'UNDO' 00 '-001,-001,W' 'APETAGEX' d0070000400000000100000000000080 00*7
$ gain -u a o
! 1 a: truncated at 417

# Tags at fault.

# two undo items, the second with a key in other letters
< a Z 'APETAGEX' d00700006000000002000000000000a0 00*8 0b 00*7 'MP3GAIN' 5f 'UNDO' 00 '+000,+000,N' 0b 00*7 'mp3gain' 5f 'undo' 00 '+000,+000,N' 'APETAGEX' d0070000600000000200000000000080 00*8
$ gain -u a o
! 1 bad tag at 481

# a tag at the front without items, and bytes behind them
< a 'APETAGEX' d007000021 00*10 a0 00*8 78 'APETAGEX' d007000021 00*10 80 00*8 Z
$ gain -u a o
! 1 bad tag at 32

# a value of 12 bytes
< a Z 'APETAGEX' d00700004100000001000000000000a0 00*8 0c 00*7 'MP3GAIN' 5f 'UNDO' 00 '+000,+000,N' 4e 'APETAGEX' d0070000410000000100000000000080 00*8
$ gain -u a o
! 1 bad undo item at 449

# an undo item behind another, in a tag that isn't the first block
< a ID3V2_BLOCK Z THREE_FRONT '+000,+000,n' THREE_END
$ gain -u a o
! 1 bad undo item at 504
";
