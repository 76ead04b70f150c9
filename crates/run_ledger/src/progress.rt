//! How far a run is.

/// How many jobs of a run are done, how many wait, and how many rows are recorded.
#[derive(Clone, Copy, PartialEq, Eq, Debug)]
pub struct Progress {
    pub done: u64,
    pub waiting: u64,
    /// The number is saturated at `2^64 - 1`.
    pub rows: u64,
}
