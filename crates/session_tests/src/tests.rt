//! What no clause says: that calls succeed, and the very texts.
//!
//! A test owns its session, and what it asserts is in small functions that borrow it.
use session::Session;
use std::process::Abort;
use std::test::Fail;
use test_files::files::{TWO, bytes_of};

/// Two frames, the second of which points back into the area of the first.
const LISTED: &str = "frame 0 at 0: 128 kbit/s, begin 0, bits 2400
frame 1 at 417: 128 kbit/s, begin 81, bits 3200
2 frames, MPEG-1, 44100 Hz, 2 channels, 0.00.05
";

/// The words of a command, and how it ends.
struct Run {
    words: &'static [&'static str],
    status: u8,
    text: &'static str,
    line: &'static str,
}

// Each is run where the one before has ended: its words are forgotten, and so is what it sent.
static RUNS: [Run; 5] = [
    Run {
        words: &["list", "song"],
        status: 0,
        text: LISTED,
        line: "",
    },
    Run {
        words: &[],
        status: 2,
        text: "",
        line: "bad word 1\n",
    },
    Run {
        words: &["cut", "song", "0", "1", "first"],
        status: 0,
        text: "",
        line: "",
    },
    Run {
        words: &["-n", "cut", "song", "0", "1", "first"],
        status: 1,
        text: "",
        line: "first: exists\n",
    },
    Run {
        words: &["list", "missing"],
        status: 3,
        text: "",
        line: "missing: absent\n",
    },
];

fn start(session: &mut Session, words: &[&'static str]) -> Result<u8, Fail> {
    for word in words {
        session.word(word)?;
    }
    Ok(session.run())
}

fn has_sent(session: &Session, run: &Run) -> bool {
    session.text() == run.text.as_bytes() && session.line() == run.line.as_bytes()
}

fn expect_runs(rt: &impl Abort, session: &mut Session) -> Result<(), Fail> {
    for (number, run) in RUNS.iter().enumerate() {
        let status = start(session, run.words)?;
        assert!(rt;
            status == run.status && has_sent(session, run),
            "run {number}: {status}"
        );
    }
    Ok(())
}

fn has_names(session: &Session, names: &[&'static str]) -> bool {
    for (number, name) in names.iter().enumerate() {
        if session.name(number) != Some(*name) {
            return false;
        }
    }
    session.name(names.len()).is_none()
}

#[test]
fn commands(rt: HostRuntime) -> Result<(), Fail> {
    let alloc = rt.alloc();
    let mut session = Session::new(alloc);
    let song = bytes_of(alloc, TWO)?;
    session.put("song", &song)?;
    expect_runs(&rt, &mut session)?;
    assert!(rt; has_names(&session, &["first", "song"]));
    Ok(())
}

#[test]
fn files(rt: HostRuntime) -> Result<(), Fail> {
    let mut session = Session::new(rt.alloc());
    session.put("b", b"123")?;
    session.put("a", b"")?;
    session.put("b", b"4")?;
    assert!(rt; has_names(&session, &["a", "b"]));
    assert!(rt; session.file("b") == Some(&[b'4'][..]) && session.file("c").is_none());
    assert!(rt; session.remove("a") && !session.remove("a"));
    assert!(rt; has_names(&session, &["b"]));
    Ok(())
}
