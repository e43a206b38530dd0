//! The names of pieces.
ghost use Rattle.std.specs.Prelude.{◌≡◌, ◌<◌, ◌≤◌, IfOk, ◌+◌, [], ◌∷◌, flat_map, string_bytes, bytes_eq};
ghost use Rattle.std.specs.List.{list_any};
ghost use Rattle.requests.specs.Names.{piece_name, piece_names};

use std::alloc::{AllocError, Global};

/// How many names a prefix can give: the number of a piece has two digits, from 01 on.
const MOST_PIECES: u8 = 99;

/// The decimal digits.
static DIGITS: [&str; 10] = ["0", "1", "2", "3", "4", "5", "6", "7", "8", "9"];

/// A number below 10 as a digit.
fn digit<'a>(number: u8) -> &'a str
    requires { number < 10 }
    ensures { result.now ≡ (48 + number) ∷ [] }
{
    DIGITS[usize::from(number)]
}

/// The name of the piece with this number, which is at most 99, as texts to be joined. It allocates
/// nothing.
pub fn name_parts<'a>(prefix: &'a str, number: u8) -> [&'a str; 4]
    requires { number ≤ 99 }
    ensures { flat_map (λ part. part.now) result ≡ piece_name prefix.now number }
{
    [prefix, digit(number / 10), digit(number % 10), ".mp3"]
}

/// The name of the piece with this number, which is at most 99. An error if out of memory.
pub fn piece_name(alloc: Global, prefix: &str, number: u8) -> Result<String, AllocError>
    requires { number ≤ 99 }
    ensures { IfOk result (λ name. string_bytes name ≡ piece_name prefix.now number) }
{
    name_parts(prefix, number).concat(alloc)
}

/// Whether the name is these texts, joined.
fn is_joined(name: &[u8], parts: &[&str]) -> bool
    ensures { result ≡ bytes_eq name.now (flat_map (λ part. part.now) parts.now) }
{
    let mut rest = name;
    for part in parts {
        match rest.strip_prefix(part.as_bytes()) {
            Some(behind) => rest = behind,
            None => return false,
        }
    }
    rest.is_empty()
}

/// Whether this is the name of the piece with this number.
fn is_name_of(prefix: &str, number: u8, name: &str) -> bool
    requires { number ≤ 99 }
    ensures { result ≡ bytes_eq name.now (piece_name prefix.now number) }
{
    is_joined(name.as_bytes(), &name_parts(prefix, number))
}

/// Whether this is the name of a piece of a split into any number of pieces. It allocates nothing.
pub fn is_piece_name(prefix: &str, name: &str) -> bool
    ensures { result ≡ list_any (bytes_eq name.now) (piece_names prefix.now) }
{
    for before in 0..MOST_PIECES {
        if is_name_of(prefix, before + 1, name) {
            return true;
        }
    }
    false
}
