//! The line about a stream that was made and packed.
ghost use Rattle.std.specs.Prelude.{◌≡◌, ◌+◌, ◌≤◌, [], ◌++◌, length, decimal, OnOk, OnErr};
ghost use Rattle.outside.specs.Files.{sent_and_more};
ghost use Rattle.outside.specs.BufferOutput.{SentPrefix};
ghost use Rattle.outside.specs.Counts.{HasCause};
ghost use Rattle.drill.specs.Summary.{summary_text};

use arrayvec::ArrayVec;
use itoa::Buffer;
use outside::{Failed, Sink, send_all};

/// The greatest length of the line in bytes: four numbers of 20 digits, and the words between them.
const ROOM: usize = 128;

/// A stream and the file that it was packed into.
#[derive(Clone, Copy, Debug, PartialEq, Eq)]
pub struct Summary {
    /// The frames of the stream.
    pub frames: u64,
    /// The length of the stream in bytes.
    pub bytes_in: u64,
    /// The length of the packed file in bytes.
    pub bytes_out: u64,
    /// The silent frames of the packed file that come before others to make room for their main
    /// data.
    pub lead_ins: u64,
}

/// Puts a number and a word after a text.
fn put_number(text: &mut ArrayVec<u8, ROOM>, number: u64, word: &[u8])
    requires { length text.old.items + 20 + length word.now ≤ 128 }
    ensures text { text.new.items ≡ text.old.items ++ (decimal number ++ word.now) }
    ensures few { length text.new.items ≤ length text.old.items + 20 + length word.now }
{
    let _ = text.try_extend_from_slice(Buffer::new().format(number).as_bytes());
    let _ = text.try_extend_from_slice(word);
}

/// The line `N frames, A bytes in, B bytes out, L lead-ins`.
#[tactic(auto, unfolding(crate::specs::Summary::summary_text))]
fn line_of(summary: &Summary) -> ArrayVec<u8, ROOM>
    ensures { result.items ≡ summary_text summary.now }
{
    let mut text: ArrayVec<u8, ROOM> = ArrayVec::new();
    put_number(&mut text, summary.frames, b" frames, ");
    put_number(&mut text, summary.bytes_in, b" bytes in, ");
    put_number(&mut text, summary.bytes_out, b" bytes out, ");
    put_number(&mut text, summary.lead_ins, b" lead-ins\n");
    text
}

/// Sends the line `N frames, A bytes in, B bytes out, L lead-ins`, without taking memory.
///
/// # Errors
/// If a write failed. Then a prefix of the line was sent.
pub fn send_summary<T: Sink>(sink: &mut T, summary: &Summary) -> Result<(), Failed>
    ensures sent { OnOk result ((T.heard sink.new).sent ≡
        sent_and_more (T.heard sink.old).sent (summary_text summary.now)) }
    ensures prefix { OnErr result (SentPrefix (summary_text summary.now)
        (T.heard sink.old).sent (T.heard sink.new).sent) }
    ensures cause { HasCause (T.heard sink.old).faults (T.heard sink.new).faults result }
{
    let line = line_of(summary);
    send_all(sink, line.as_slice())
}
