//! What the records of a run mean: what is searched, which keys wait and which are done, and how many rows are
//! recorded.
#![tactic(auto)]

mod known;
mod laws;
mod payloads;
mod state;
mod stops;
#[cfg(test)]
mod tests;

pub use laws::{
    honest_keys_are_new, legal_keys_lie_side_by_side, legal_records_part, payloads_have_one_meaning,
};
pub use state::RunState;
pub use stops::{AcceptStop, ReplayStop};
