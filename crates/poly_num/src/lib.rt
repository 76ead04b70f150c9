//! Exact whole numbers of 127 bits and a sign, the vectors of them, and fractions in lowest terms.
//!
//! A call whose answer could pass 127 bits returns an `Option`, and says exactly when it is `None`.
//! Nothing here takes memory.
#![tactic(auto)]

mod compare;
mod divisors;
mod exact;
mod frac;
mod halves;
mod number;
mod products;
mod signs;
mod sums;
#[cfg(test)]
mod tests;
mod vectors;
mod words;

pub use compare::cmp_cross;
pub use divisors::{gcd, quotient};
pub use exact::Divisor;
pub use frac::Frac;
pub use halves::{are_halves, is_half};
pub use number::Num;
pub use products::{cross, known_cross, known_product, mul};
pub use signs::{dot_sign, lex_sign, sign};
pub use sums::{add, neg, sub};
pub use vectors::{is_primitive, negate, primitive};
pub use words::{are_words, is_word, word_cross, word_product};
