//! Words, and the lines and texts that are sent.

mod bad_words;
mod lines;
mod reading;
mod said;
mod words_read;
