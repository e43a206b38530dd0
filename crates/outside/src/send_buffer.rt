//! Bytes that wait to be sent to a sink.
ghost use Rattle.std.specs.Prelude.{◌≡◌, ◌+◌, ◌<◌, [], ◌++◌, IfOk, OnOk, OnErr};
ghost use Rattle.outside.specs.Files.{sent_and_more};
ghost use Rattle.outside.specs.BufferOutput.{SendsWaiting, SentPrefix};
ghost use Rattle.outside.specs.Counts.{HasCause};

use crate::folder::Failed;
use crate::helpers::send_all;
use crate::sink::Sink;
use crate::sizes::BUFFER_SIZE;
use crate::waiting::WaitingBytes;
use std::alloc::{AllocError, Global};
use std::marker::Model;

/// A buffer of 65,536 bytes for a sink whose writes may each cost much: each write to standard
/// output is followed by a flush. Contracts see it as the bytes that wait.
///
/// Unlike a `WriteBuffer`, it isn't filled before it is sent: each piece is a line, and a reader of
/// the stream gets whole lines.
#[derive(Drop)]
pub struct SendBuffer {
    waiting: WaitingBytes,
}

impl Model for SendBuffer {
    ghost use Rattle.std.specs.Prelude.{ℕ, List};

    ghost Value = { List ℕ };

    ghost view = { λ b. b.waiting };
}

impl SendBuffer {
    /// A buffer in which nothing waits. It takes all its memory here.
    ///
    /// # Errors
    /// If memory runs out.
    pub fn new(alloc: Global) -> Result<SendBuffer, AllocError>
        ensures { IfOk result (λ buffer. buffer ≡ []) }
    {
        Ok(SendBuffer {
            waiting: WaitingBytes::new(alloc)?,
        })
    }

    /// Adds bytes to what waits. If that would be more than 65,536, what waits is sent first, and
    /// then these bytes too if they alone are more than 65,536.
    ///
    /// # Errors
    /// If a write failed. Then a prefix of what waited and the piece was sent, and nothing waits.
    #[inline]
    pub fn push<T: Sink>(&mut self, sink: &mut T, piece: &[u8]) -> Result<(), Failed>
        ensures passed { OnOk result (SendsWaiting (self.old ++ piece.now) self.new
            (T.heard sink.old).sent (T.heard sink.new).sent) }
        ensures prefix { OnErr result (SentPrefix (self.old ++ piece.now) (T.heard sink.old).sent
            (T.heard sink.new).sent) }
        ensures none { OnErr result (self.new ≡ []) }
        ensures cause { HasCause (T.heard sink.old).faults (T.heard sink.new).faults result }
    {
        if piece.len() <= self.waiting.free() {
            self.waiting.add(piece);
            return Ok(());
        }
        self.push_over(sink, piece)
    }

    /// Sends what waits.
    ///
    /// # Errors
    /// If a write failed. Then a prefix of what waited was sent, and nothing waits.
    pub fn finish<T: Sink>(&mut self, sink: &mut T) -> Result<(), Failed>
        ensures sent { OnOk result ((T.heard sink.new).sent
            ≡ sent_and_more (T.heard sink.old).sent self.old) }
        ensures prefix { OnErr result (SentPrefix self.old (T.heard sink.old).sent
            (T.heard sink.new).sent) }
        ensures none { self.new ≡ [] }
        ensures cause { HasCause (T.heard sink.old).faults (T.heard sink.new).faults result }
    {
        let sent = send_all(sink, self.waiting.bytes());
        self.waiting.clear();
        sent
    }

    // Sends what waits, and then adds bytes that didn't fit after it, or sends them too if they
    // alone don't fit.
    #[inline(never)]
    fn push_over<T: Sink>(&mut self, sink: &mut T, piece: &[u8]) -> Result<(), Failed>
        ensures passed { OnOk result (SendsWaiting (self.old ++ piece.now) self.new
            (T.heard sink.old).sent (T.heard sink.new).sent) }
        ensures prefix { OnErr result (SentPrefix (self.old ++ piece.now) (T.heard sink.old).sent
            (T.heard sink.new).sent) }
        ensures none { OnErr result (self.new ≡ []) }
        ensures cause { HasCause (T.heard sink.old).faults (T.heard sink.new).faults result }
    {
        self.finish(sink)?;
        if piece.len() > BUFFER_SIZE {
            return send_all(sink, piece);
        }
        self.waiting.add(piece);
        Ok(())
    }
}
