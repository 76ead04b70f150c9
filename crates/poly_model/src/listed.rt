//! The sizes of listings and of jobs.

/// What a listing was made of.
#[derive(Clone, Copy, PartialEq, Eq, Debug)]
pub struct Listed {
    /// The shown rows: points and rays, or facets. It stands still at `2^64 - 1`.
    pub rows: u64,
    /// The lines or equations before them.
    pub lines: u32,
}

/// What a job did.
#[derive(Clone, Copy, PartialEq, Eq, Debug)]
pub struct Count {
    /// The rows that it shows.
    pub rows: u64,
    /// The jobs that it gives back.
    pub jobs: u64,
    /// The bases that it visited.
    pub bases: u64,
}
