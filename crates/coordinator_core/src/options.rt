//! The options of a call.

/// How a run is parted among workers, and how much may go wrong.
#[derive(Clone, Copy, PartialEq, Eq, Debug)]
pub struct Options {
    /// So many attempts are out at most: from 1 to 256.
    pub workers: u64,
    /// The base budget of each job: from 1 to `MOST_BASES`.
    pub bases: u64,
    /// The depth budget while the queue is short: from 1 to `MOST_DEPTH`.
    pub depth: u64,
    /// The queue is short while it has fewer keys than this for each worker: from 1 to 1000.
    pub lmin: u64,
    /// How many losses and strays together the call allows: from 0 to 1000000.
    pub lost: u64,
}
