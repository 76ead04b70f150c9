//! A source read to its end, or as far as one may.
ghost use Rattle.std.specs.Prelude.{◌≡◌, ◌⊎◌, ◌≤◌, length, IfOk, IsErrOf};
ghost use Rattle.std.specs.Io.KnownBytes.{Consumes, IsAtEnd};
ghost use Rattle.poly_io.specs.Causes.{Rose};
ghost use Rattle.poly_io.specs.Taken.{TakesAtMost};

use crate::{Bytes, Source};
use std::alloc::Global;

/// Why the front of a source was not read.
#[derive(Clone, Copy, Debug, PartialEq, Eq)]
pub enum FrontStop {
    /// The source failed.
    Fault,
    /// The memory was refused.
    Memory,
}

/// Reads a source to its end, or until `most` bytes were read. The memory grows with what is read. After an error the
/// bytes that were read are lost.
pub fn read_front<S: Source>(alloc: Global, source: &mut S, most: usize) -> Result<Bytes, FrontStop>
    ensures bytes { IfOk result (λ b. Consumes (S.left source.old) (S.left source.new) b) }
    ensures enough { IfOk result (λ b. IsAtEnd (S.left source.new) ⊎ (length b ≡ most)) }
    ensures within { IfOk result (λ b. length b ≤ most) }
    ensures fault { IsErrOf result FrontStop.Fault → Rose (S.faults source.old) (S.faults source.new) }
    ensures same { ¬ (IsErrOf result FrontStop.Fault) → S.faults source.new ≡ S.faults source.old }
    // Whatever the answer is.
    ensures taken { TakesAtMost (S.left source.old) (S.left source.new) most }
    ensures later { S.faults source.old ≤ S.faults source.new }
{
    let mut all = Vec::new(alloc);
    let mut buf = [0u8; 16384];
    'pieces: while all.len() < most {
        let ask = (most - all.len()).min(buf.len());
        let Ok(count) = source.read(&mut buf[..ask]) else {
            return Err(FrontStop::Fault);
        };
        if count == 0 {
            return Ok(Bytes::from_vec(all));
        }
        if all.extend_from_slice(&buf[..count]).is_err() {
            return Err(FrontStop::Memory);
        }
    }
    Ok(Bytes::from_vec(all))
}
