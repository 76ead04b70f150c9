//! The work by subtrees of a reverse search: a listing that is parted by lexicographically feasible cobases.
//!
//! What is stated stands in `specs/`.
#![tactic(auto)]

mod begin;
mod progress;
mod rows;
mod search;
mod stop;
#[cfg(test)]
mod tests;
mod walk;
mod work;

pub use stop::SubtreeStop;
pub use work::SubtreeWork;
