//! What a worker gave for an attempt.
use poly_io::Bytes;

/// What was collected, for an attempt of this number.
#[derive(Drop)]
pub enum Collected {
    /// These bytes came: a reply, the beginning of one, or anything.
    Reply { attempt: u64, bytes: Bytes },
    /// The attempt failed.
    Broken { attempt: u64 },
}
