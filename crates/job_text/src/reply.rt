//! What a reply is.
use crate::ReplyRows;
use poly_model::{Count, Key, Keys, Overflow};

/// How a reply ends.
#[derive(Clone, Copy, PartialEq, Eq, Debug)]
pub enum Tail {
    /// The job was run within its budget.
    End(Count),
    /// A product that a pivot needs does not fit.
    Overflow(Overflow),
    /// The worker had no memory.
    Memory,
}

/// What a worker answers to a job: the rows that it shows, the keys that it gives back, and how it ended. The rows stay in
/// the text that was read.
#[derive(Drop)]
pub struct Reply<'a> {
    pub key: Key,
    pub rows: ReplyRows<'a>,
    pub keys: Keys,
    pub tail: Tail,
}
