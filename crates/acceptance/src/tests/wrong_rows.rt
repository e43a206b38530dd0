//! Rows with one line that is wrong. The runner has to find it, or no other test of this crate shows anything.

use crate::tests::Mp3edit;
use acceptance_kit::scripts::first_unlike;
use std::alloc::{AllocError, AllocGlobal, Global};
use std::test::Fail;

/// A row, and what is found instead of what it says.
struct Wrong {
    row: &'static str,
    what: &'static str,
}

/// G with its gains moved by -5 is G_LOWER, and 41 is a file without a frame; each row has one thing too many, or one
/// that is wrong.
static WRONG: [Wrong; 10] = [
    Wrong {
        row: "< a G\n$ gain -s s -g -5 a o\n! 1\n> o G_LOWER",
        what: "this status",
    },
    Wrong {
        row: "< a 41\n$ gain -s s -g -5 a o\n! 1 a: no frame at 1",
        what: "this line",
    },
    Wrong {
        row: "< a G\n$ gain -s s -g -5 a o\n| 1 frames\n> o G_LOWER",
        what: "this text",
    },
    Wrong {
        row: "< a G\n$ gain -s s -g -5 a o\n> o G",
        what: "other bytes",
    },
    Wrong {
        row: "< a G\nto o p\n$ gain -s s -g -5 a o\n> o G_LOWER\n> p G",
        what: "no file",
    },
    Wrong {
        row: "< a G\n$ gain -s s -g -5 a o",
        what: "a file",
    },
    Wrong {
        row: "< a G\n$ gain -s s -g -5 a o\n~ o G_LOWER",
        what: "the same bytes",
    },
    Wrong {
        row: "< a G\n$ gain -s s -g -5 a o\n> o NOTHING",
        what: "a word that stands for nothing",
    },
    Wrong {
        row: "< a G\n$ gain -s s -g -5 a o\n> o G_LOWER\neach Read 50 a: read fault",
        what: "no more calls, or no more bytes",
    },
    Wrong {
        row: "< a G\n$ gain -s s -g -5 a o\n> o G_LOWER\neach Write 1 o: read fault",
        what: "this line",
    },
];

fn is_found(alloc: Global, wrong: &Wrong) -> Result<bool, AllocError> {
    let unlike = first_unlike::<Mp3edit>(alloc, &[], &[wrong.row])?;
    Ok(match unlike {
        Some(unlike) => unlike.found.what == wrong.what,
        None => false,
    })
}

/// The first row whose wrong line isn't what is found, or `None`.
fn first_missed(alloc: Global) -> Result<Option<&'static str>, AllocError> {
    for wrong in &WRONG {
        if !is_found(alloc, wrong)? {
            return Ok(Some(wrong.row));
        }
    }
    Ok(None)
}

#[test]
fn rows_that_are_wrong(rt: HostRuntime) -> Result<(), Fail> {
    assert_eq!(rt; first_missed(rt.alloc())?, None);
    Ok(())
}
