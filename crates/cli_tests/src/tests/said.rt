//! Texts that the program sends about itself.

use crate::tests::reading::owned;
use mp3_cli::run;
use outside::{MemFolder, MemSink};
use std::alloc::{AllocError, Global};
use std::test::Fail;
use test_files::table;

const USAGE: &[u8] = b"usage: mp3edit COMMAND
  list IN                list what is in the MP3 file IN: tags, junk, the Xing or Info frame (head), and frames
  info IN                describe IN in a few lines, including how many steps down and up its gains can go
  gain [-s s] [-w] -g N IN OUT
                         write IN to OUT, N steps of 1.5 dB louder (quieter if N is negative)
  gain [-s s] [-w] -l C N IN OUT
                         the same for one channel: C is 0 for left, 1 for right
                         -s s: leave tags alone, and don't record the change
                         -w: wrap gains that would leave the range 0 to 255, instead of refusing the file
  gain -u IN OUT         write IN to OUT, undoing all changes that its tag records
  cut [--least] IN FROM TO OUT
                         write to OUT the frames of IN from FROM up to but not including TO, with all main data
                         FROM, TO: a frame number (from 0), a time in minutes, seconds up to 59 and hundredths of
                         a second (M.S or M.S.H), or EOF. A number without a dot counts frames: a minute and a
                         half is 1.30, not 90
                         --least: give each frame the lowest bit rate at which all main data fit
  cut --exact IN FROM TO OUT
                         write to OUT the frames of IN needed for its samples from FROM up to but not including
                         TO, with an Info frame that tells players to play exactly these samples;
                         FROM, TO: also seconds (90s or 90.5s), a time with thousandths (M.S.TTT), a sample
                         (44100samples), or EOF- and seconds or a time (that long before EOF)
  remove IN OUT FROM TO [FROM TO ..]
                         write IN to OUT without its frames from each FROM up to but not including the TO behind it,
                         up to 50 such stretches; FROM, TO: as for cut --exact, but rounded down to frames
  pack IN OUT            write all frames of IN to OUT, each at the lowest bit rate at which all main data fit
  pack --constant B IN OUT
                         the same with every frame at B kbit/s; refused if that is too low for some frame
  pack --floor B IN OUT  the same with no frame below B kbit/s
  pack --best IN OUT     the same with the bit rates that take the fewest bytes in all
  split IN PREFIX P1 P2 [P3 to P100]
                         write to PREFIX01.mp3 the frames of IN from P1 up to P2, to PREFIX02.mp3 those from P2
                         up to P3, and so on; P1 to P100 are written like FROM and TO of cut
  split IN PREFIX -c CUE the same at the starts of the tracks in the cue sheet CUE; the last piece ends with IN
  split --exact IN PREFIX P1 P2 [P3 to P100]
                         the same with samples instead of frames; each piece is what cut --exact writes
  split --exact IN PREFIX -c CUE
                         the same with the samples of each track
  join [--seamless] OUT IN1 [IN2 to IN64]
                         write to OUT the frames of IN1 to IN64, in order
                         --seamless: leave out the frames that only a piece on its own needs, so that pieces in
                         order are the whole again, and say what was left out of each input but the first
  drill SEED COUNT       generate COUNT frames from the seed SEED, pack them in memory, and print both lengths
  fade [--back] IN OUT SHEET
                         write IN to OUT, with a volume that changes from frame to frame as SHEET says
                         SHEET: lines of a position and steps of 1.5 dB; between lines the steps change evenly
                         --back: change by the same steps the other way, which undoes a fade by the same SHEET
  salvage IN OUT         write what can be read of the damaged file IN to OUT, and say what is missing;
                         a frame whose main data can't be read becomes empty
  --help, -h             print this help
  --version              print the version
  -n COMMAND             run COMMAND, but refuse it and write nothing if a file that it would write exists
An output that exists is overwritten without asking. No input is written to.
examples:
  mp3edit gain -g -2 song.mp3 quieter.mp3       3 dB quieter
  mp3edit cut song.mp3 1.30 2.00.50 clip.mp3    from a minute and a half to half a second after two minutes
  mp3edit split album.mp3 disc/ -c album.cue    disc/01.mp3, disc/02.mp3 and so on, one for each track
status: 0 done; 1 refused; 2 bad arguments; 3 a file is absent, or reading or writing failed;
        4 out of memory
manual: man mp3edit, and MANUAL.md among the documents (such as /usr/local/share/doc/mp3edit/docs)
";

/// Words, whether the first write to standard output fails, and what is sent: `USAGE`, or another text.
struct Said {
    words: &'static [&'static str],
    is_failing: bool,
    status: u8,
    is_usage: bool,
    text: &'static [u8],
    line: &'static [u8],
}

impl Said {
    fn sent(&self) -> &'static [u8] {
        if self.is_usage { USAGE } else { self.text }
    }
}

const FAULT: &[u8] = b"standard output: write fault\n";

// A frame of 174 bytes of main data takes 261 bytes at 80 kbit/s, and the Info frame 208.
static SAID: [Said; 12] = table! {
    Said { words, is_failing, status, is_usage, text, line }
    (&["drill", "1", "1"], false, 0, false, b"1 frames, 417 bytes in, 469 bytes out, 0 lead-ins\n", b"")
    (&["drill", "1", "1"], true, 3, false, b"", FAULT)
    (&["--help"], false, 0, true, b"", b"")
    (&["--help"], true, 3, false, b"", FAULT)
    (&["-h"], false, 0, true, b"", b"")
    (&["-h"], true, 3, false, b"", FAULT)
    (&["--version"], false, 0, false, b"mp3edit 1.0.0\n", b"")
    (&["--version"], true, 3, false, b"", FAULT)
    (&["-n", "drill", "1", "1"], false, 0, false, b"1 frames, 417 bytes in, 469 bytes out, 0 lead-ins\n", b"")
    (&["-n", "--help"], false, 0, true, b"", b"")
    (&["-n", "-h"], false, 0, true, b"", b"")
    (&["-n", "--version"], false, 0, false, b"mp3edit 1.0.0\n", b"")
};

/// The status of a run, and what it sent to both sinks.
#[derive(Drop)]
struct Ran {
    status: u8,
    out: MemSink,
    err: MemSink,
}

fn run_words(alloc: Global, words: &[&str], is_failing: bool) -> Result<Ran, AllocError> {
    let words = owned(alloc, words)?;
    let mut folder = MemFolder::new(alloc);
    let mut out = MemSink::new(alloc);
    let mut err = MemSink::new(alloc);
    out.reserve(USAGE.len() as u64)?;
    err.reserve(100)?;
    if is_failing {
        out.fail(1)?;
    }
    let status = run(alloc, &words, &mut folder, &mut out, &mut err);
    Ok(Ran { status, out, err })
}

#[test]
fn texts(rt: HostRuntime) -> Result<(), Fail> {
    for said in &SAID {
        let ran = run_words(rt.alloc(), said.words, said.is_failing)?;
        assert_eq!(rt; ran.status, said.status, "{:?}", said.words);
        assert_eq!(rt; ran.out.sent(), said.sent(), "{:?}", said.words);
        assert_eq!(rt; ran.err.sent(), said.line, "{:?}", said.words);
    }
    Ok(())
}
