//! Bits and bytes of a file.

pub(crate) fn bit(bytes: &[u8], at: usize) -> bool {
    match bytes.get(at / 8) {
        Some(byte) => *byte >> (7 - at % 8) & 1 == 1,
        None => false,
    }
}

/// The number of `count` bits from this one on; the first is the most significant.
pub(crate) fn number(bytes: &[u8], from: usize, count: usize) -> u32 {
    let mut number = 0;
    for i in 0..count {
        number = number << 1 | u32::from(bit(bytes, from.saturating_add(i)));
    }
    number
}

pub(crate) fn bytes_from(file: &[u8], at: usize) -> &[u8] {
    &file[at.min(file.len())..]
}
