//! The program.
#![tactic(auto)]

ghost use Rattle.std.specs.Prelude.{◌≡◌, [], drop, map, string_bytes, Contains, IfOk, OnErr};
ghost use Rattle.std.specs.Process.{exit_status};
ghost use Rattle.on_disk.specs.RealFiles.{stream_heard};
ghost use Rattle.mp3edit.specs.Words.{argument_word, argument_words};
ghost use Rattle.mp3_cli.specs.Run.{world, ProgramRun};

use mp3_cli::run;
use on_disk::{DiskFolder, StdSink};
use outside::{Folder, Sink};
use std::alloc::{AllocError, Global};
use std::env::FillError;
use std::fs::File;
use std::process::ExitCode;
use std::rt::{Env, Files, Stderr, Stdout};
use std::str;

/// The bytes of the argument with this number, where there is one. They are read into a buffer of twice the size until they fit.
fn argument<R: Env>(rt: &R, number: usize, alloc: Global) -> Result<Option<Vec<u8>>, AllocError> {
    let mut size: usize = 256;
    for _ in 0..usize::BITS {
        let mut bytes = vec![in alloc; 0_u8; size]?;
        match rt.arg(number, bytes.as_mut_slice()) {
            Ok(length) => {
                bytes.truncate(length);
                return Ok(Some(bytes));
            }
            Err(FillError::NotPresent) => return Ok(None),
            Err(FillError::TooLong) => size = size.saturating_add(size),
        }
    }
    Err(AllocError)
}

/// The bytes of all arguments, from the program's name on.
fn arguments<R: Env>(rt: &R, alloc: Global) -> Result<Vec<Vec<u8>>, AllocError> {
    let mut arguments = Vec::new(alloc);
    for number in 0..usize::MAX {
        match argument(rt, number, alloc)? {
            Some(bytes) => arguments.push(bytes)?,
            None => break,
        }
    }
    Ok(arguments)
}

/// The word that an argument is. One that isn't UTF-8 counts as an empty word, which is of no kind.
fn word(argument: &[u8], alloc: Global) -> Result<String, AllocError>
    ensures { IfOk result (λ word. string_bytes word ≡ argument_word argument.now) }
{
    match str::from_utf8(argument) {
        Ok(text) => String::from_str(alloc, text),
        Err(_) => Ok(String::new(alloc)),
    }
}

/// The words that these arguments are.
fn words(arguments: &[Vec<u8>], alloc: Global) -> Result<Vec<String>, AllocError>
    ensures { IfOk result (λ words. map string_bytes words.items
        ≡ argument_words (map (λ argument. argument.items) arguments.now)) }
{
    let mut words = Vec::new(alloc);
    for argument in arguments {
        words.push(word(argument, alloc)?)?;
    }
    Ok(words)
}

/// The words that all arguments but the first are, which is the program's name.
fn words_after_name(arguments: &[Vec<u8>], alloc: Global) -> Result<Vec<String>, AllocError>
    ensures { IfOk result (λ words. map string_bytes words.items
        ≡ argument_words (drop 1 (map (λ argument. argument.items) arguments.now))) }
{
    match arguments {
        [_, rest @ ..] => words(rest, alloc),
        [] => Ok(Vec::new(alloc)),
    }
}

/// The words of the program. An error if memory runs out.
fn all_words<R: Env>(rt: &R, alloc: Global) -> Result<Vec<String>, AllocError> {
    words_after_name(&arguments(rt, alloc)?, alloc)
}

/// Does what the words ask for, and returns the status. Without words, as memory ran out, nothing is done and nothing is sent. An
/// empty word is bad wherever it is, and so is one that isn't UTF-8.
#[tactic(auto, using(job_words::proofs::EmptyLemmas::empty_is_bad))]
fn answer<D: Folder, T: Sink, E: Sink>(
    alloc: Global,
    words: Result<Vec<String>, AllocError>,
    folder: &mut D,
    out: &mut T,
    err: &mut E,
) -> u8
    ensures run { IfOk words (λ v. ProgramRun D.keeping (map string_bytes v.items)
        (world (D.seen folder.old)
        (T.heard out.old) (E.heard err.old))
        (world (D.seen folder.new)
        (T.heard out.new) (E.heard err.new))
        result) }

    ensures bad { IfOk words (λ v. Contains (map string_bytes v.items) [] → result ≡ 2) }
    ensures memory { OnErr words (result ≡ 4) }
    ensures untouched { OnErr words (D.seen folder.new ≡ D.seen folder.old) }
    ensures silent { OnErr words (((T.heard out.new).sent ≡ (T.heard out.old).sent)
        × ((E.heard err.new).sent ≡ (E.heard err.old).sent)) }
{
    match words {
        Ok(words) => run(alloc, &words, folder, out, err),
        Err(_) => 4,
    }
}

/// The same, with texts to standard output and lines to standard error, as the program's exit code.
fn answer_on_streams<D: Folder>(
    alloc: Global,
    words: Result<Vec<String>, AllocError>,
    folder: &mut D,
    out: &mut StdSink<Stdout>,
    err: &mut StdSink<Stderr>,
) -> ExitCode
    ensures run { IfOk words (λ v. ProgramRun D.keeping (map string_bytes v.items)
        (world (D.seen folder.old) (stream_heard out.old) (stream_heard err.old))
        (world (D.seen folder.new) (stream_heard out.new) (stream_heard err.new))
        (exit_status result)) }
    ensures bad { IfOk words
        (λ v. Contains (map string_bytes v.items) [] → exit_status result ≡ 2) }
    ensures memory { OnErr words (exit_status result ≡ 4) }
{
    ExitCode::from(answer(alloc, words, folder, out, err))
}

/// Opens `/dev/null` for reading. While it is kept open, no other file gets its descriptor: where standard output or standard
/// error is closed, an output would get the descriptor of that stream, and with it a text or a line that isn't its own.
fn hold_descriptor<R: Files>(rt: &R) -> Option<R::File> {
    File::open(rt, "/dev/null").ok()
}

fn main(rt: HostRuntime) -> ExitCode {
    // One for each standard stream.
    let _kept = (
        hold_descriptor(&rt),
        hold_descriptor(&rt),
        hold_descriptor(&rt),
    );
    let words = all_words(&rt, rt.alloc());
    let mut folder = DiskFolder::new(&rt, rt.alloc());
    let mut out = StdSink::new(rt.stdout());
    let mut err = StdSink::new(rt.stderr());
    answer_on_streams(rt.alloc(), words, &mut folder, &mut out, &mut err)
}
