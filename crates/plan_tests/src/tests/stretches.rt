//! The parts that stay when stretches are taken out, worked out by hand.

use seam_plan::{Part, parts_that_stay};
use std::alloc::{AllocError, Global};
use std::test::Fail;
use test_files::table;

/// What stays, or the two numbers for which the stretches are refused.
#[derive(Clone, Copy)]
enum Answer {
    Parts(&'static [Part]),
    Refused(u64, u64),
}

/// Stretches of a file of six frames.
struct Case {
    name: &'static str,
    stretches: &'static [(u64, u64)],
    answer: Answer,
}

/// Frames 0, 4 and 5.
const ENDS: [Part; 2] = [Part { from: 0, to: 1 }, Part { from: 4, to: 6 }];

static CASES: [Case; 22] = table! {
    Case { name, stretches, answer }
    ("nothing goes", &[], Answer::Parts(&[Part { from: 0, to: 6 }]))
    ("in the midst", &[(1, 4)], Answer::Parts(&ENDS))
    ("stretches that touch", &[(1, 3), (3, 4)], Answer::Parts(&ENDS))
    ("the front", &[(0, 1)], Answer::Parts(&[Part { from: 1, to: 6 }]))
    ("the end", &[(5, 6)], Answer::Parts(&[Part { from: 0, to: 5 }]))
    ("front, midst and end", &[(0, 1), (2, 3), (5, 6)], Answer::Parts(&[Part { from: 1, to: 2 }, Part { from: 3, to: 5 }]))
    ("no frame", &[(1, 1)], Answer::Refused(1, 1))
    ("the wrong way round", &[(2, 1)], Answer::Refused(2, 1))
    ("behind the end", &[(1, 7)], Answer::Refused(1, 7))
    ("from the end", &[(6, 6)], Answer::Refused(6, 6))
    ("in the wrong order", &[(3, 5), (2, 4)], Answer::Refused(5, 2))
    ("one over the other", &[(1, 3), (2, 4)], Answer::Refused(3, 2))
    ("the second behind the end", &[(1, 2), (7, 8)], Answer::Refused(7, 8))
    ("all", &[(0, 6)], Answer::Refused(0, 6))
    ("all, in three", &[(0, 2), (2, 5), (5, 6)], Answer::Refused(0, 6))
    ("all, and behind the end", &[(0, 6), (6, 7)], Answer::Refused(6, 7))
    ("all, and some again", &[(0, 6), (3, 4)], Answer::Refused(6, 3))
    ("the first of two that are wrong", &[(2, 2), (1, 9)], Answer::Refused(2, 2))
    ("no frame, behind the end", &[(9, 9)], Answer::Refused(9, 9))
    ("the same twice", &[(1, 2), (1, 2)], Answer::Refused(2, 1))
    // 2 to the power of 32 is 4,294,967,296.
    ("an end that 32 bits don't hold", &[(1, 4294967298)], Answer::Refused(1, 4294967298))
    ("a beginning that 32 bits don't hold", &[(4294967297, 4294967298)], Answer::Refused(4294967297, 4294967298))
};

fn is_so(case: &Case) -> bool {
    if case.stretches.len() > 50 {
        return false;
    }
    match (parts_that_stay(case.stretches, 6), case.answer) {
        (Ok(parts), Answer::Parts(wanted)) => parts.as_slice() == wanted,
        (Err(pair), Answer::Refused(from, to)) => pair == (from, to),
        _ => false,
    }
}

#[test]
fn stretches_of_six_frames(rt: HostRuntime) -> Result<(), Fail> {
    for case in &CASES {
        assert!(rt; is_so(case), "{}", case.name);
    }
    Ok(())
}

/// Every second frame, from frame 1 on.
fn every_second(alloc: Global) -> Result<Vec<(u64, u64)>, AllocError> {
    let mut stretches = Vec::with_capacity(alloc, 50)?;
    for i in 0..50 {
        stretches.push((2 * i + 1, 2 * i + 2))?;
    }
    Ok(stretches)
}

/// Whether every second frame stays of 101.
fn stay_between(stretches: &[(u64, u64)]) -> bool {
    if stretches.len() != 50 {
        return false;
    }
    let Ok(parts) = parts_that_stay(stretches, 101) else {
        return false;
    };
    let last = Part { from: 100, to: 101 };
    parts.len() == 51 && parts.as_slice()[50] == last
}

#[test]
fn the_most_stretches(rt: HostRuntime) -> Result<(), Fail> {
    let stretches = every_second(rt.alloc())?;
    assert!(rt; stay_between(&stretches));
    Ok(())
}
