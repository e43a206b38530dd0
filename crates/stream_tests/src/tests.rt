//! Whole streams. The bytes were worked out by hand, or are from a program in another language.
mod faded;
mod packed;
mod seeded;
