//! What the undo item of a tag says, and its value.
ghost use Rattle.std.specs.Prelude.{◌≡◌, ◌≤◌, true, length, IsTrue, IfSome, Some, unsigned_abs};
ghost use Rattle.tag_blocks.specs.UndoText.{steps_text, wrap_letter, undo_text, UndoFitsText, is_steps, spelled_steps, is_undo_text, undo_of};

/// The length of the value of an undo item in bytes.
pub(crate) const UNDO_LENGTH: usize = 11;

/// What an undo item says: how many steps undoing applies to each channel. A step is 1.5 dB.
#[derive(Clone, Copy, Debug, PartialEq, Eq)]
pub struct Undo {
    /// Steps for the left channel, from -999 to 999 in a tag.
    pub left: i16,
    /// Steps for the right channel, from -999 to 999 in a tag.
    pub right: i16,
    /// Whether gains wrap around modulo 256 where they would leave the range from 0 to 255.
    pub wrap: bool,
}

/// What the undo item of a tag says.
#[derive(Clone, Copy, Debug, PartialEq, Eq)]
pub enum UndoItem {
    /// There is none.
    Missing,
    /// Its value isn't of the form that `Undo::read` takes. The offset of the item, in bytes from the block's
    /// first byte.
    Bad(u64),
    /// What its value says.
    Found(Undo),
}

/// Whether the bytes are a sign and three digits.
fn is_steps(four: &[u8]) -> bool
    requires { length four.now ≡ 4 }
    ensures { result ≡ is_steps four.now }
{
    (four[0] == b'+' || four[0] == b'-')
        && four[1].is_ascii_digit()
        && four[2].is_ascii_digit()
        && four[3].is_ascii_digit()
}

/// The number that a sign and three digits spell.
fn steps_of(four: &[u8]) -> i16
    requires four { length four.now ≡ 4 }
    requires steps { is_steps four.now ≡ true }
    ensures steps { result ≡ spelled_steps four.now }
    ensures most { unsigned_abs result ≤ 999 }
{
    let number = u16::from(four[1] - b'0') * 100
        + u16::from(four[2] - b'0') * 10
        + u16::from(four[3] - b'0');
    let number = number as i16;
    if four[0] == b'-' { -number } else { number }
}

/// A sign and the three digits of a number.
fn steps_text(steps: i16) -> [u8; 4]
    requires { unsigned_abs steps ≤ 999 }
    ensures { result ≡ steps_text steps }
{
    let number = steps.unsigned_abs();
    [
        if steps < 0 { b'-' } else { b'+' },
        b'0' + (number / 100) as u8,
        b'0' + (number / 10 % 10) as u8,
        b'0' + (number % 10) as u8,
    ]
}

fn wrap_letter(wrap: bool) -> u8
    ensures { result ≡ wrap_letter wrap }
{
    if wrap { b'W' } else { b'N' }
}

/// Whether the bytes have the form of an undo item's value.
#[tactic(auto, unfolding(crate::specs::UndoText::is_undo_text))]
fn is_undo_text(value: &[u8]) -> bool
    ensures { result ≡ is_undo_text value.now }
{
    value.len() == UNDO_LENGTH
        && is_steps(&value[..4])
        && value[4] == b','
        && is_steps(&value[5..9])
        && value[9] == b','
        && (value[10] == b'N' || value[10] == b'W')
}

/// The value of an undo item that says this.
fn text_of(undo: &Undo) -> [u8; 11]
    requires { UndoFitsText undo.now }
    ensures { result ≡ undo_text undo.now }
{
    let left = steps_text(undo.left);
    let right = steps_text(undo.right);
    [
        left[0],
        left[1],
        left[2],
        left[3],
        b',',
        right[0],
        right[1],
        right[2],
        right[3],
        b',',
        wrap_letter(undo.wrap),
    ]
}

impl Undo {
    /// What the value of an undo item says. `None` exactly where the value isn't of this form, 11 bytes: a sign
    /// (`+` or `-`), three digits, a comma, a sign, three digits, a comma, and `N` or `W`. The numbers are the
    /// steps that undoing applies, first left, then right; `W` says that gains wrap.
    #[tactic(auto, unfolding(crate::specs::UndoText::undo_of, crate::specs::UndoText::is_undo_text))]
    pub fn read(value: &[u8]) -> Option<Undo>
        ensures undo { result ≡ undo_of value.now }
        ensures fits { IfSome result UndoFitsText }
    {
        if !is_undo_text(value) {
            return None;
        }
        Some(Undo {
            left: steps_of(&value[..4]),
            right: steps_of(&value[5..9]),
            wrap: value[10] == b'W',
        })
    }

    /// The value of an undo item that says this. A number that isn't negative has `+`. Both numbers have to be
    /// from -999 to 999.
    pub fn text(&self) -> [u8; 11]
        requires { UndoFitsText self.now }
        ensures text { result ≡ undo_text self.now }
        ensures back { undo_of result ≡ Some self.now }
    {
        text_of(self)
    }
}
