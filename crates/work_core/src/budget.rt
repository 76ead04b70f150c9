//! How far a job may go.

/// How many bases a budget may allow at most: so no number of a count passes 64 bits.
pub const MOST_BASES: u64 = 1000000000000;

/// How deep a budget may allow at most.
pub const MOST_DEPTH: u64 = 1000000;

/// How far a job may go before it gives keys back.
#[derive(Clone, Copy, PartialEq, Eq, Debug)]
pub struct Budget {
    /// At most so many bases are visited: from 1 to `MOST_BASES`.
    pub bases: u64,
    /// Keys at this depth under the job's are given back: from 1 to `MOST_DEPTH`, or 0 for no such bound.
    pub depth: u64,
}
