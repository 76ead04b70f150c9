//! What a call may use: memory, its options, and so many bytes of a ledger.
use coordinator_core::Options;
use std::alloc::Global;

/// What a call may use: its memory, how the work is parted among the workers, and how many bytes the ledger may have, at
/// most 2^40.
#[derive(Clone, Copy)]
pub struct Terms {
    pub alloc: Global,
    pub options: Options,
    pub limit: u64,
}
