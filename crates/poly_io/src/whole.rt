//! A source read to its end, under a limit.
ghost use Rattle.std.specs.Prelude.{◌≡◌, ◌≤◌, ◌+◌, length, IfOk, OnOk, IsErrOf};
ghost use Rattle.std.specs.Io.KnownBytes.{Consumes, IsAtEnd};
ghost use Rattle.poly_io.specs.Causes.{Rose};
ghost use Rattle.poly_io.specs.Taken.{Takes, TakesAtMost};

use crate::{Bytes, FrontStop, Source, read_front};
use std::alloc::Global;

/// Why a source was not read as a whole.
#[derive(Clone, Copy, Debug, PartialEq, Eq)]
pub enum WholeStop {
    /// The source failed.
    Fault,
    /// The source has more bytes than the limit.
    TooLong,
    /// The memory was refused.
    Memory,
}

/// Reads a source to its end, or to one byte past the limit. The memory grows with what is read. After an error the bytes
/// that were read are lost.
pub fn read_whole<S: Source>(
    alloc: Global,
    source: &mut S,
    limit: usize,
) -> Result<Bytes, WholeStop>
    ensures bytes { IfOk result (λ b. Consumes (S.left source.old) (S.left source.new) b) }
    ensures end { OnOk result (IsAtEnd (S.left source.new)) }
    ensures within { IfOk result (λ b. length b ≤ limit) }
    ensures long { IsErrOf result WholeStop.TooLong
        → Takes (S.left source.old) (S.left source.new) (limit + 1) }
    ensures fault { IsErrOf result WholeStop.Fault
        → Rose (S.faults source.old) (S.faults source.new) }
    ensures same { ¬ (IsErrOf result WholeStop.Fault)
        → S.faults source.new ≡ S.faults source.old }
    // Whatever the answer is.
    ensures taken { TakesAtMost (S.left source.old) (S.left source.new) (limit + 1) }
    ensures later { S.faults source.old ≤ S.faults source.new }
{
    let text = match read_front(alloc, source, limit.saturating_add(1)) {
        Ok(text) => text,
        Err(FrontStop::Fault) => return Err(WholeStop::Fault),
        Err(FrontStop::Memory) => return Err(WholeStop::Memory),
    };
    if text.len() > limit {
        return Err(WholeStop::TooLong);
    }
    Ok(text)
}
