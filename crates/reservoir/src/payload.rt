//! The main data of a frame, borrowed where they are.
ghost use Rattle.std.specs.Prelude.{◌≡◌, ◌≤◌, ◌++◌, [], length};
ghost use Rattle.reservoir.specs.Window.{window_size};

use arrayvec::ArrayVec;
use std::marker::Model;

/// The main data of a frame, in as few bytes as hold their bits. In contracts they are a list of bytes. The
/// whole bytes are in four slices, in order: two of a window, since it is a ring, and two of areas that
/// aren't in the window.
#[derive(Drop)]
pub struct Payload<'a> {
    front: &'a [u8],
    back: &'a [u8],
    before: &'a [u8],
    own: &'a [u8],
    // The byte that holds the bits after the whole bytes, with zeros after them.
    last: Option<u8>,
}

impl<'a> Model for Payload<'a> {
    ghost use Rattle.std.specs.Prelude.{◌++◌, ℕ, List};
    ghost use Rattle.reservoir.specs.Window.{byte_of};

    ghost Value = { List ℕ };

    ghost view = { λ p. p.front.now
        ++ (p.back.now ++ (p.before.now ++ (p.own.now ++ byte_of p.last))) };
}

impl<'a> Payload<'a> {
    ghost use Rattle.reservoir.specs.Window.{byte_of};

    /// No main data.
    pub fn empty() -> Payload<'a>
        ensures { result ≡ [] }
    {
        Payload::whole(&[])
    }

    /// Main data that are these bytes.
    #[inline]
    pub fn whole(bytes: &'a [u8]) -> Payload<'a>
        ensures { result ≡ bytes.now }
    {
        Payload {
            front: &[],
            back: &[],
            before: &[],
            own: bytes,
            last: None,
        }
    }

    /// These bytes, and one after them if it is there.
    #[inline]
    pub(crate) fn new(
        front: &'a [u8],
        back: &'a [u8],
        before: &'a [u8],
        own: &'a [u8],
        last: Option<u8>,
    ) -> Payload<'a>
        ensures { result ≡ front.now ++ (back.now ++ (before.now ++ (own.now ++ byte_of last))) }
    {
        Payload {
            front,
            back,
            before,
            own,
            last,
        }
    }

    /// How many bytes there are.
    #[inline]
    pub fn len(&self) -> usize
        requires { length self.now ≤ window_size }
        ensures { result ≡ length self.now }
    {
        let areas = self.before.len() + self.own.len();
        self.front.len() + self.back.len() + areas + usize::from(self.last.is_some())
    }

    /// The whole bytes in four slices, in order, and the byte that holds the bits after them if there are
    /// any.
    #[inline]
    pub fn pieces(&self) -> (&[u8], &[u8], &[u8], &[u8], Option<u8>)
        ensures { result.0.now ++ (result.1.now ++
            (result.2.now ++ (result.3.now ++ byte_of result.4))) ≡ self.now }
    {
        (self.front, self.back, self.before, self.own, self.last)
    }

    /// Copies the bytes into a list, where they replace what is in it. There have to be at most 2,048 bytes.
    pub fn copy_to(&self, into: &mut ArrayVec<u8, 2048>)
        requires { length self.now ≤ window_size }
        ensures { into.new.items ≡ self.now }
    {
        into.clear();
        let _ = into.try_extend_from_slice(self.front);
        let _ = into.try_extend_from_slice(self.back);
        let _ = into.try_extend_from_slice(self.before);
        let _ = into.try_extend_from_slice(self.own);
        if let Some(last) = self.last {
            let _ = into.try_extend_from_slice(&[last]);
        }
    }
}
