//! Why records or a reply are refused.
use poly_model::Key;

/// Why payloads are not replayed.
#[derive(Clone, Copy, PartialEq, Eq, Debug)]
pub enum ReplayStop {
    /// The first payload that breaks the ledger text, counted from 1.
    BadLedger { place: u64 },
    /// There is no memory.
    Memory,
}

/// Why a reply is not taken.
#[derive(Clone, Copy, PartialEq, Eq, Debug)]
pub enum AcceptStop {
    /// Its job is done.
    Done,
    /// Its job never waited.
    Stranger,
    /// A key that it gives back is known already: the first such one.
    Clash { key: Key },
    /// There is no memory.
    Memory,
}
