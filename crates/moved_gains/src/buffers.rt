//! The memory of a pass.
ghost use Rattle.std.specs.Prelude.{◌≡◌, ◌≢◌, ◌+◌, ◌-◌, ◌^◌, ◌<◌, ◌≤◌, ◌++◌, List, ℕ, [], length, take, drop, IfOk, IfErr, OnOk, OnErr};
ghost use Rattle.frame_header.specs.Tables.{class_of};
ghost use Rattle.side_info.specs.Frame.{side_in};
ghost use Rattle.outside.specs.Files.{Files, Holds, IsFileThere, with_appended_bytes};
ghost use Rattle.outside.specs.Seen.{OnFile};
ghost use Rattle.outside.specs.BufferOutput.{AppendsWaiting, AppendedPrefix};
ghost use Rattle.outside.specs.Pass.{IsPassReady, IsReadPassFault, bytes_at, bytes_between, WritesMadeBytes, WritesPrefix, route_of, HasPassCause};
ghost use Rattle.moved_gains.specs.Buffers.{IsPassingFresh};
ghost use Rattle.moved_gains.specs.Moving.{row_overhead, moved_bytes};
ghost use Rattle.outside.specs.Pass.{PassMakes};
ghost use Rattle.moved_gains.specs.Passing.{BuffersFill, HasInput, ReadBehind};
ghost use Rattle.outside.specs.Feed.{buffer_size, most_given};

use crate::front::{MovedRow, move_front};
use frame_header::Class;
use outside::{BUFFER_SIZE, Folder, PIECE_SIZE, Pass, PassFault, keep_from, read_exact, write_all};
use std::alloc::{AllocError, Global};
use std::marker::Model;

/// What waits for the output of a pass, followed by what is held of its input, in one buffer of
/// 65,536 bytes, so that a byte that is passed on isn't copied. Contracts see both parts.
#[derive(Drop)]
pub struct GainBuffers {
    room: Vec<u8>,
    // The offset in the input of the first byte that is held.
    file_offset: u64,
    // How many bytes wait. The bytes that are held follow them.
    done: usize,
    end: usize,
}

impl Model for GainBuffers {
    ghost use Rattle.std.specs.Prelude.{◌-◌, [], take, drop};
    ghost use Rattle.moved_gains.specs.Passing.{Passing, AreBufferBounds};

    ghost Value = { Passing };

    ghost view = { λ b. record {
      feed = record {
        file_offset = b.file_offset;
        held = take (b.end - b.done) (drop b.done b.room.items);
        given = [];
      };
      waiting = take b.done b.room.items;
    } };

    ghost invariant = { λ b. AreBufferBounds b.room.items b.file_offset b.done b.end };
}

/// Appends bytes to the output.
///
/// # Errors
/// `Write` if a write failed.
fn hand_on<D: Folder>(folder: &mut D, pass: &Pass, bytes: &[u8]) -> Result<(), PassFault>
    requires { IsFileThere (D.seen folder.old).files pass.now.output.now }
    ensures appended { OnOk result
        ((D.seen folder.new).files ≡ with_appended_bytes (D.seen folder.old).files
        pass.now.output.now bytes.now) }
    ensures prefix { OnErr result (AppendedPrefix pass.now.output.now bytes.now
        (D.seen folder.old).files (D.seen folder.new).files) }
    ensures done { OnOk result ((D.seen folder.new).counts ≡ (D.seen folder.old).counts) }
    ensures cause { IfErr result (HasPassCause (route_of pass.now) (D.seen folder.old).files
        (D.seen folder.old).counts (D.seen folder.new).counts) }
{
    match write_all(folder, pass.output, bytes) {
        Ok(()) => Ok(()),
        Err(_) => Err(PassFault::Write),
    }
}

/// Reads on after the first `kept` bytes, which are the bytes of the input from offset `at` on,
/// until `room` is full or the input ends, and returns how many bytes are there then: at least `n`.
/// At the end of the input nothing is read.
///
/// # Errors
/// `Read` if a read failed; `Shrunk` if a read gave no byte before the input's length.
fn read_behind<D: Folder>(
    folder: &mut D,
    pass: &Pass,
    at: u64,
    room: &mut [u8],
    kept: usize,
    n: usize,
) -> Result<usize, PassFault>
    requires input { HasInput pass.now (D.seen folder.old) }
    requires size { length room.old ≡ buffer_size }
    requires few { n ≤ most_given }
    requires kept { kept ≤ buffer_size }
    requires within { at + n ≤ pass.now.length }
    ensures { ReadBehind pass.now at kept n room.old room.new (D.seen folder.old)
        (D.seen folder.new) result }
{
    let from = at + kept as u64;
    if pass.length <= from {
        return Ok(kept);
    }
    let more = (pass.length - from).min((BUFFER_SIZE - kept) as u64);
    let end = kept + more as usize;
    read_exact(folder, pass.input, pass.length, from, &mut room[kept..end])?;
    Ok(end)
}

impl GainBuffers {
    /// Empty buffers: nothing is held and nothing waits. All memory of a pass is taken here.
    ///
    /// # Errors
    /// If memory runs out.
    pub fn new(alloc: Global) -> Result<GainBuffers, AllocError>
        ensures fresh { IfOk result (λ buffers. (files : Files) (input : List ℕ) →
            IsPassingFresh buffers files input) }
    {
        Ok(GainBuffers {
            room: vec![in alloc; 0; BUFFER_SIZE]?,
            file_offset: 0,
            done: 0,
            end: 0,
        })
    }

    /// Makes the buffer hold `n` bytes of the input from offset `at` on, at most 4,096, which are
    /// within its length.
    ///
    /// # Errors
    /// `Read` or `Shrunk` if the input can't be read, `Write` if a write failed.
    #[inline(always)]
    pub(crate) fn fill<D: Folder>(
        &mut self,
        folder: &mut D,
        pass: &Pass,
        at: u64,
        n: usize,
    ) -> Result<(), PassFault>
        requires ready { IsPassReady pass.now (D.seen folder.old).files self.old.feed }
        requires few { n ≤ most_given }
        requires within { at + n ≤ pass.now.length }
        ensures { BuffersFill pass.now at n self.old self.new (D.seen folder.old)
            (D.seen folder.new) result }
    {
        if at == self.file_offset && n <= self.end - self.done {
            return Ok(());
        }
        self.refill(folder, pass, at, n)
    }

    // Appends what waits to the output, moves what is held from `at` on to the beginning of the
    // buffer, and reads on after it.
    #[inline(never)]
    fn refill<D: Folder>(
        &mut self,
        folder: &mut D,
        pass: &Pass,
        at: u64,
        n: usize,
    ) -> Result<(), PassFault>
        requires ready { IsPassReady pass.now (D.seen folder.old).files self.old.feed }
        requires few { n ≤ most_given }
        requires within { at + n ≤ pass.now.length }
        ensures { BuffersFill pass.now at n self.old self.new (D.seen folder.old)
            (D.seen folder.new) result }
    {
        hand_on(folder, pass, &self.room[..self.done])?;
        let room = self.room.as_mut_slice();
        let kept = keep_from(room, self.done, self.end, self.file_offset, at);
        self.file_offset = at;
        self.done = 0;
        self.end = 0;
        self.end = read_behind(folder, pass, at, room, kept, n)?;
        Ok(())
    }

    /// Lets the next `n` bytes that are held wait for the output.
    #[inline(always)]
    fn pass_on(&mut self, n: usize)
        requires enough { n ≤ length self.old.feed.held }
        requires early { self.old.feed.file_offset + n ≤ 2 ^ 32 }
        ensures waiting { self.new.waiting ≡ self.old.waiting ++ take n self.old.feed.held }
        ensures file_offset { self.new.feed.file_offset ≡ self.old.feed.file_offset + n }
        ensures held { self.new.feed.held ≡ drop n self.old.feed.held }
    {
        self.done += n;
        self.file_offset += n as u64;
    }

    /// Lets the next `n` bytes that are held, which are a frame of this class, wait for the output,
    /// with the frame's gains moved if it isn't lost.
    #[inline(always)]
    pub(crate) fn pass_moved(&mut self, class: Class, moved: &MovedRow, n: usize)
        requires class { class_of moved.now.row.now.header ≡ class }
        requires reached { row_overhead moved.now.row.now ≤ n }
        requires enough { n ≤ length self.old.feed.held }
        requires early { self.old.feed.file_offset + n ≤ 2 ^ 32 }
        ensures waiting { (piece : List ℕ) × (self.new.waiting ≡ self.old.waiting ++ piece)
            × (side_in moved.now.row.now.header (take n self.old.feed.held)
            ≡ moved.now.row.now.side → piece ≡ moved_bytes moved.now.steps moved.now.row.now
            (take n self.old.feed.held)) }
        ensures file_offset { self.new.feed.file_offset ≡ self.old.feed.file_offset + n }
        ensures held { self.new.feed.held ≡ drop n self.old.feed.held }
    {
        let end = self.done + n;
        move_front(
            class,
            &moved.steps,
            moved.row,
            &mut self.room[self.done..end],
        );
        self.done = end;
        self.file_offset += n as u64;
    }

    /// Appends to the output what waits, and then a piece.
    ///
    /// # Errors
    /// `Write` if a write failed.
    pub(crate) fn push<D: Folder>(
        &mut self,
        folder: &mut D,
        pass: &Pass,
        piece: &[u8],
    ) -> Result<(), PassFault>
        requires ready { IsPassReady pass.now (D.seen folder.old).files self.old.feed }
        ensures passed { OnOk result (AppendsWaiting pass.now.output.now
            (self.old.waiting ++ piece.now) self.new.waiting (D.seen folder.old).files
            (D.seen folder.new).files) }
        ensures prefix { OnErr result (AppendedPrefix pass.now.output.now
            (self.old.waiting ++ piece.now) (D.seen folder.old).files (D.seen folder.new).files) }
        ensures done { OnOk result ((D.seen folder.new).counts ≡ (D.seen folder.old).counts) }
        ensures cause { IfErr result (HasPassCause (route_of pass.now) (D.seen folder.old).files
            (D.seen folder.old).counts (D.seen folder.new).counts) }
        ensures ready { OnOk result (IsPassReady pass.now (D.seen folder.new).files self.new.feed) }
    {
        hand_on(folder, pass, &self.room[..self.done])?;
        // What is held is read again if it is needed.
        self.done = 0;
        self.end = 0;
        hand_on(folder, pass, piece)
    }

    /// Appends to the output what waits.
    ///
    /// # Errors
    /// `Write` if a write failed.
    pub(crate) fn finish<D: Folder>(&mut self, folder: &mut D, pass: &Pass) -> Result<(), PassFault>
        requires { IsFileThere (D.seen folder.old).files pass.now.output.now }
        ensures appended { OnOk result ((D.seen folder.new).files
            ≡ with_appended_bytes (D.seen folder.old).files pass.now.output.now self.old.waiting) }
        ensures prefix { OnErr result (AppendedPrefix pass.now.output.now self.old.waiting
            (D.seen folder.old).files (D.seen folder.new).files) }
        ensures done { OnOk result ((D.seen folder.new).counts ≡ (D.seen folder.old).counts) }
        ensures cause { IfErr result (HasPassCause (route_of pass.now) (D.seen folder.old).files
            (D.seen folder.old).counts (D.seen folder.new).counts) }
    {
        let waits = self.done;
        self.done = 0;
        self.end = 0;
        hand_on(folder, pass, &self.room[..waits])
    }

    /// Copies the bytes of the input from one offset up to another, which are within its length.
    ///
    /// # Errors
    /// As `fill`.
    #[inline]
    pub(crate) fn copy<D: Folder>(
        &mut self,
        folder: &mut D,
        pass: &Pass,
        from: u64,
        to: u64,
    ) -> Result<(), PassFault>
        requires ready { IsPassReady pass.now (D.seen folder.old).files self.old.feed }
        requires ordered { from ≤ to }
        requires within { to ≤ pass.now.length }
        ensures { PassMakes pass.now (λ file. bytes_between file from to) self.old.waiting
            self.new.waiting self.new.feed (D.seen folder.old) (D.seen folder.new) result }
    {
        let mut at = from;
        while at < to {
            let n = (to - at).min(PIECE_SIZE);
            self.copy_piece(folder, pass, at, n as usize)?;
            at += n;
        }
        Ok(())
    }

    // Copies at most 4,096 bytes.
    #[inline(never)]
    fn copy_piece<D: Folder>(
        &mut self,
        folder: &mut D,
        pass: &Pass,
        at: u64,
        n: usize,
    ) -> Result<(), PassFault>
        requires ready { IsPassReady pass.now (D.seen folder.old).files self.old.feed }
        requires few { n ≤ most_given }
        requires within { at + n ≤ pass.now.length }
        ensures { PassMakes pass.now (bytes_at at n) self.old.waiting self.new.waiting self.new.feed
            (D.seen folder.old) (D.seen folder.new) result }
    {
        self.fill(folder, pass, at, n)?;
        self.pass_on(n);
        Ok(())
    }
}
