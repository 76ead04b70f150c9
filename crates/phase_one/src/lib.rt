//! Phase one of a search: the root at which it begins, or the answer that no point satisfies the file.
#![tactic(auto)]

mod begin;
mod finish;
mod least;
mod lowering;
mod root;
mod stop;
#[cfg(test)]
mod tests;
mod worst;

pub use root::{Found, first};
pub use stop::FirstStop;
