//! What a call works on beside its output: its input, the disk of its ledger, its workers.
use coordinator::Terms;

/// The input of a call, the disk of its ledger, and its workers.
#[derive(Drop)]
pub struct Devices<I, D, W> {
    pub input: I,
    pub disk: D,
    pub workers: W,
}

/// A command that works in a ledger: the name of its file, and what the call may use.
#[derive(Clone, Copy)]
pub struct LedgerCall<'a> {
    pub ledger: &'a str,
    pub terms: Terms,
}

/// How many bytes a ledger may have: 2^40.
pub const MOST_LEDGER_BYTES: u64 = 1_099_511_627_776;
