//! What stands at a gate, as its bytes say.
ghost use Rattle.std.specs.Prelude.{◌≡◌, ◌<◌, ◌+◌, ℕ, List, length, take};
ghost use Rattle.job_ledger.specs.Entries.{IsBehindGate, IsEntry};

use crate::header::size_of;

/// An open gate.
pub(crate) const OPEN: u8 = 0xf5;

/// A gate, 13 digits and LF.
pub(crate) const HEAD: usize = 15;

/// What stands at a gate.
#[derive(Clone, Copy, Debug, PartialEq, Eq)]
pub(crate) enum Entry {
    /// The gate is closed.
    Closed,
    /// The gate is open, and behind it is a record with a payload of so many bytes.
    Record(u64),
    /// The gate is open, and no record is behind it.
    Broken,
}

/// What is behind an open gate, by the header there (less where the file ends) and the bytes from the gate to the file's end.
fn behind_gate(header: &[u8], size: u64) -> Entry
    ensures within { (len : ℕ) → result ≡ Entry.Record len → 15 + len < size }
    ensures entry { (behind : List ℕ) → header.now ≡ take 14 behind → 1 + length behind ≡ size → IsBehindGate result behind }
{
    match size_of(header) {
        Some(len) => {
            if len + HEAD as u64 >= size {
                return Entry::Broken;
            }
            Entry::Record(len)
        }
        None => Entry::Broken,
    }
}

/// What stands at a gate, by its first 15 bytes (less where the file ends) and the bytes from it to the file's end.
pub(crate) fn entry_of(head: &[u8], size: u64) -> Entry
    ensures within { (len : ℕ) → result ≡ Entry.Record len → 15 + len < size }
    ensures entry { (text : List ℕ) → head.now ≡ take 15 text → 0 < length text → length text ≡ size → IsEntry result text }
{
    match head {
        [] => Entry::Closed,
        [gate, header @ ..] => {
            if *gate != OPEN {
                return Entry::Closed;
            }
            behind_gate(header, size)
        }
    }
}
