//! The command that makes a stream from a seed: it makes no call of the folder that it is given,
//! and writes one line.

pub static ROWS: &str = "
# drill

# Each call of the folder would fail. The length of the packed file was worked out by another
# program.

< a Z
fail Find 1
fail Read 1
fail Create 1
fail Write 1
$ drill 1 1
| 1 frames, 417 bytes in, 469 bytes out, 0 lead-ins

# The line is the same. A prefix of it is sent where a write fails.
< a Z
$ drill 1 1
| 1 frames, 417 bytes in, 469 bytes out, 0 lead-ins
each Send 1 standard output: write fault

# As many frames as a drill may have, and the same line each time. The length of the packed file was
# worked out by another program.
$ drill 5 20000
| 20000 frames, 8340000 bytes in, 8132897 bytes out, 0 lead-ins
each Send 1 standard output: write fault

# The greatest seed.
$ drill 2147483647 20000
| 20000 frames, 8340000 bytes in, 8151116 bytes out, 0 lead-ins
";
