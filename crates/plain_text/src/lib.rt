//! Plain texts: lines cut at LF, words cut at one blank, and decimal numbers.
#![tactic(auto)]

mod cutting;
mod digits;
mod front;
mod newline;
mod numbers;
#[cfg(test)]
mod tests;

pub use cutting::{goes_on, is_text, next_word, split_line, split_word, strip_front};
pub use digits::{TOO_WIDE, count, is_count, leading_digits, value};
pub use front::{next_digit, next_num};
pub use newline::newline_at;
pub use numbers::{read_count, read_decimal, read_num};
