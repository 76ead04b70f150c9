//! The work by prefixes of subsets of rows: a listing that is parted by ascending lists of rows.
#![tactic(auto)]

mod dead;
mod descend;
mod live;
mod progress;
mod stop;
#[cfg(test)]
mod tests;
mod trail;
mod work;

pub use stop::SubsetStop;
pub use work::SubsetWork;
