//! Machine words, and exact division by one word again and again.
#![tactic(auto)]

mod divisor;
mod limits;
mod small;
#[cfg(test)]
mod tests;
mod word;
mod word_cross;

pub use divisor::WordDivisor;
pub use limits::limit_of;
pub use small::SmallCross;
pub use word::{Word, product, wide_cross};
pub use word_cross::{Limits, WordCross};
