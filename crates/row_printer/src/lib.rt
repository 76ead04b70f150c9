//! The exact text of a listing, written piece by piece; and that of labels, keys and overflows.
#![tactic(auto)]

mod counting;
mod head;
mod labels;
mod listing;
mod overflow;
mod point;
mod shown;
mod stop;
mod tally;
mod vector;

pub use labels::{write_key, write_label};
pub use listing::Listing;
pub use overflow::write_overflow;
pub use shown::Shown;
pub use stop::ListStop;
pub use tally::Tally;
pub use vector::write_vector;

#[cfg(test)]
mod tests;
