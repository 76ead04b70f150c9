//! One start or collect of a history that is kept in memory.
use poly_io::Bytes;

/// A start or a collect, with what it gave.
#[derive(Drop)]
pub enum Told {
    /// This text was given to this attempt.
    Started { attempt: u64, text: Bytes },
    /// The start of this attempt with this text failed.
    Refused { attempt: u64, text: Bytes },
    /// These bytes came for this attempt.
    Replied { attempt: u64, bytes: Bytes },
    /// This attempt failed.
    Broken { attempt: u64 },
}
