//! One write to a real file or stream.
ghost use Rattle.std.specs.Prelude.{◌<◌, ◌≤◌, ◌≡◌, ◌↔◌, length, IfOk, Some, None, IsErrAnd, IfSome};
ghost use Rattle.std.specs.IoError.{error_kind};
ghost use Rattle.std.specs.Io.KnownBytes.{WriteAppends};

use outside::Failed;
use std::io;
use std::io::{ErrorKind, Write};

/// Writes a prefix of the bytes, at least one byte if there are any, and tries again if a signal
/// interrupts it.
///
/// # Errors
/// If the writer fails, or if it takes none of the bytes though there are some.
#[tactic(auto, using(crate::proofs::KnownLemmas::none_appended))]
pub fn write_some<W: Write>(writer: &mut W, bytes: &[u8]) -> Result<usize, Failed>
    ensures bound { IfOk result (λ k. k ≤ length bytes.now) }
    ensures some { IfOk result (λ k. 0 < length bytes.now → 0 < k) }
    ensures passed { WriteAppends (W.contents writer.old) (W.contents writer.new) result bytes.now }
{
    let count = write_once(writer, bytes)?;
    if count == 0 && !bytes.is_empty() {
        return Err(Failed);
    }
    Ok(count)
}

// One write, tried again as long as a signal interrupts it.
fn write_once<W: Write>(writer: &mut W, bytes: &[u8]) -> io::Result<usize>
    ensures bound { IfOk result (λ k. k ≤ length bytes.now) }
    ensures passed { WriteAppends (W.contents writer.old) (W.contents writer.new) result bytes.now }
{
    for _ in 0..u64::MAX {
        if let Some(answer) = final_answer(writer.write(bytes)) {
            return answer;
        }
    }
    Err(io::Error::from(ErrorKind::Interrupted))
}

// The answer of a call that is done. A call that a signal interrupted has none, and is tried again.
fn final_answer(answer: io::Result<usize>) -> Option<io::Result<usize>>
    ensures again { result ≡ None
        ↔ IsErrAnd answer (λ error. error_kind error ≡ ErrorKind.Interrupted) }
    ensures same { IfSome result (λ final. final ≡ answer) }
{
    match answer {
        Err(error) if error.kind() == ErrorKind::Interrupted => None,
        answer => Some(answer),
    }
}
