//! Tables and lists on few lines. They are macros, so that a row, or what belongs to a frame, is on one line.

/// Rows of a struct: its name and fields, and the values of each row in this order.
///
/// ```text
/// static CASES: [Case; 2] = table! {
///     Case { name, length }
///     ("a block", 40)
///     ("no block", 0)
/// };
/// ```
#[macro_export]
macro_rules! table {
    (@ $row:ident { $($field:ident),+ } ($($value:expr),+)) => {
        $row { $($field: $value),+ }
    };
    ($row:ident $fields:tt $($values:tt)+) => {
        [$($crate::table!(@ $row $fields $values)),+]
    };
}

/// Stretches, where those of one frame are on one line.
#[macro_export]
macro_rules! end_to_end {
    ($($stretch:expr),+) => {
        [$($stretch),+]
    };
}

/// A frame, on one line.
#[macro_export]
macro_rules! frame {
    ($($field:tt)+) => {
        $crate::frames::Frame { $($field)+ }
    };
}
