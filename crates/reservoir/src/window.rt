//! The window, over a ring that drops its oldest bytes.
ghost use Rattle.std.specs.Prelude.{◌≡◌, ℕ, ◌+◌, ◌-◌, ◌*◌, ◌/◌, ◌<◌, ◌≤◌, List, [], ◌++◌, length, take, drop, get_or, IfOk};
ghost use Rattle.circular_buffer.specs.Buffer.{keep_last};
ghost use Rattle.bit_fields.specs.Bits.{AreBytes};
ghost use Rattle.reservoir.specs.Window.{IsWindowOver, AreLastOf, main_bits, AreBitsPacked, byte_of, window_size};

use crate::payload::Payload;
use arrayvec::ArrayVec;
use circular_buffer::HeapCircularBuffer;
use std::alloc::{AllocError, Global};
use std::marker::Model;

/// How many bytes a window holds. A frame's main data begin at most 511 bytes before its area, and an area
/// has at most 1,428 bytes.
const CAPACITY: usize = 2048;

/// The last 2,048 bytes of the areas that were pushed, or all where there are fewer. In contracts it is the
/// list of these bytes, the oldest first.
#[derive(Drop)]
pub struct Window {
    ring: HeapCircularBuffer<u8>,
}

impl Model for Window {
    ghost use Rattle.std.specs.Prelude.{◌≡◌, ◌≤◌, ℕ, List, length};

    ghost Value = { List ℕ };

    ghost view = { λ w. w.ring.items };

    ghost invariant = { λ w. (w.ring.capacity ≡ 2048) × (length w.ring.items ≤ 2048) };
}

impl Window {
    /// A window over no areas. All its memory is allocated here.
    ///
    /// # Errors
    /// If out of memory.
    pub fn new(alloc: Global) -> Result<Window, AllocError>
        ensures none { IfOk result (λ window. window ≡ []) }
        ensures main { IfOk result (λ window. IsWindowOver window []) }
    {
        Ok(Window {
            ring: HeapCircularBuffer::with_capacity(alloc, CAPACITY)?,
        })
    }

    /// Drops all bytes, so that it is over no areas again.
    pub fn clear(&mut self)
        ensures none { self.new ≡ [] }
        ensures main { IsWindowOver self.new [] }
    {
        self.ring.clear();
    }

    /// How many bytes it holds, at most 2,048.
    pub fn held(&self) -> usize
        ensures count { result ≡ length self.now }
        ensures most { result ≤ window_size }
    {
        self.ring.len()
    }

    /// Adds an area: the bytes of a frame after its header, check word and side information. Of what was
    /// held and this area, only the last 2,048 bytes are kept.
    #[inline]
    pub fn push_area(&mut self, area: &[u8])
        ensures held { self.new ≡ keep_last window_size (self.old ++ area.now) }
        ensures main { (main : List ℕ) → IsWindowOver self.old main
            → IsWindowOver self.new (main ++ area.now) }
    {
        self.ring.extend_from_slice(area);
    }

    /// Copies the main data of the frame whose area was pushed last, as `main_data` returns them, into
    /// `into`, where they replace what is in it. They have at most 2,048 bytes, as the window has.
    pub fn payload(&self, area: u32, begin: u32, bits: u32, into: &mut ArrayVec<u8, 2048>)
        requires held { area + begin ≤ length self.now }
        requires within { bits ≤ 8 * (area + begin) }
        ensures payload { (main : List ℕ) → IsWindowOver self.now main
            → AreBitsPacked into.new.items bits (main_bits main (length main - area - begin) bits) }
        ensures bytes { AreBytes into.new.items }
        ensures few { length into.new.items ≤ window_size }
    {
        self.main_data(area, begin, bits).copy_to(into);
    }

    /// The main data of the frame whose area was pushed last, borrowed where they are: `bits` bits that
    /// begin `begin` bytes before its area of `area` bytes, in as few bytes as hold them, with the unused
    /// low bits of the last byte 0. `begin` is the frame's main_data_begin (ISO/IEC 11172-3 and 13818-3,
    /// 2.4.2.7), and `bits` the sum of all its part2_3_length.
    #[inline]
    pub fn main_data(&self, area: u32, begin: u32, bits: u32) -> Payload<'_>
        requires held { area + begin ≤ length self.now }
        requires within { bits ≤ 8 * (area + begin) }
        ensures payload { (main : List ℕ) → IsWindowOver self.now main
            → AreBitsPacked result bits (main_bits main (length main - area - begin) bits) }
        ensures bytes { AreBytes result }
        ensures few { length result ≤ window_size }
    {
        // Looking inside gives the proof the invariant of the window, by which it holds at most 2,048 bytes.
        let _ = &self.ring;
        self.main_data_with(&[], &[], area + begin, bits)
    }

    /// The main data of a frame whose area wasn't pushed, and neither was the area `before` it, if there is
    /// one: what is held, `before` and `area` follow each other. They are `bits` bits that begin `begin`
    /// bytes before the area, borrowed where they are, in the form of `main_data`.
    #[inline]
    pub fn main_data_with<'a>(
        &'a self,
        before: &'a [u8],
        area: &'a [u8],
        begin: u32,
        bits: u32,
    ) -> Payload<'a>
        requires held { begin ≤ length self.now + length before.now }
        requires within { bits ≤ 8 * (begin + length area.now) }
        requires few { begin + length area.now ≤ window_size }
        requires short { length before.now + length area.now ≤ 4096 }
        ensures payload { (main : List ℕ) → AreLastOf self.now main → AreBitsPacked result bits
            (main_bits (main ++ (before.now ++ area.now))
            (length main + length before.now - begin) bits) }
        ensures bytes { AreBytes result }
        ensures few { length result ≤ window_size }
    {
        let (front, back) = self.ring.as_slices();
        let held = self.ring.len();
        let from = held + before.len() - begin as usize;
        let whole = (bits / 8) as usize;
        let last = self.last_byte(before, area, from + whole, bits % 8);
        let passed = from.min(held);
        let first = whole.min(held - passed);
        let (front, back) = part(front, back, passed, first);
        let (before, own) = part(before, area, from - passed, whole - first);
        Payload::new(front, back, before, own, last)
    }

    /// The first `bits` bits, fewer than 8, of byte `at` of what is held and the two areas after it,
    /// followed by zeros; `None` for no bits.
    #[inline]
    fn last_byte(&self, before: &[u8], area: &[u8], at: usize, bits: u32) -> Option<u8>
        requires few { bits < 8 }
        requires within { 8 * at + bits
            ≤ 8 * (length self.now + length before.now + length area.now) }
        ensures packed { AreBitsPacked (byte_of result) bits
            (main_bits (self.now ++ (before.now ++ area.now)) at bits) }
        ensures bytes { AreBytes (byte_of result) }
    {
        if bits == 0 {
            return None;
        }
        let byte = self.byte_at(before, area, at);
        let unused = 8 - bits;
        Some(byte >> unused << unused)
    }

    /// Byte `at` of what is held and the two areas after it.
    #[inline]
    fn byte_at(&self, before: &[u8], area: &[u8], at: usize) -> u8
        requires { at < length self.now + length before.now + length area.now }
        ensures { result ≡ get_or (self.now ++ (before.now ++ area.now)) at 0 }
    {
        match self.ring.get(at) {
            Some(byte) => *byte,
            None => byte_of_two(before, area, at - self.ring.len()),
        }
    }
}

/// Byte `at` of two slices, joined.
#[inline]
fn byte_of_two(front: &[u8], back: &[u8], at: usize) -> u8
    requires { at < length front.now + length back.now }
    ensures { result ≡ get_or (front.now ++ back.now) at 0 }
{
    if at < front.len() {
        front[at]
    } else {
        back[at - front.len()]
    }
}

/// `count` bytes from place `from` on of two slices, joined, again as two slices.
#[inline]
fn part<'a>(front: &'a [u8], back: &'a [u8], from: usize, count: usize) -> (&'a [u8], &'a [u8])
    requires within { from + count ≤ length front.now + length back.now }
    requires short { length front.now + length back.now ≤ 4096 }
    ensures part { result.0.now ++ result.1.now ≡ take count (drop from (front.now ++ back.now)) }
    ensures bytes { AreBytes result.0.now × AreBytes result.1.now }
{
    let passed = from.min(front.len());
    let front = &front[passed..];
    let back = &back[from - passed..];
    let first = count.min(front.len());
    (&front[..first], &back[..count - first])
}
