//! Reads bytes of a file into a vector.
ghost use Rattle.std.specs.Prelude.{◌≡◌, ◌<◌, ◌+◌, ◌^◌, List, ℕ, take, drop, OnOk};
ghost use Rattle.disk_core.specs.Contents.{Told};
ghost use Rattle.disk_core.specs.Moments.{IsQuiet};
ghost use Rattle.job_ledger.specs.Stops.{IsCaused, StopsByDevice};

use crate::LedgerStop;
use disk_core::{Disk, read_full};

/// Puts so many bytes from an offset on in the place of what `bytes` holds; fewer where the file ends early.
pub(crate) fn read_into<D: Disk>(
    disk: &mut D,
    at: u64,
    len: u64,
    bytes: &mut Vec<u8>,
) -> Result<(), LedgerStop>
    requires { at + len < 2 ^ 64 }
    ensures quiet { IsQuiet D.seen D.images D.moment D.since disk.old disk.new }
    ensures bytes { OnOk result (Told (D.seen disk.old) (λ f. bytes.new.items ≡ take len (drop at f))) }
    ensures stops { StopsByDevice result }
    ensures cause { IsCaused (D.faults disk.old) (D.faults disk.new) result }
{
    bytes.resize(len as usize, 0)?;
    let count = read_full(disk, at, bytes)?;
    bytes.truncate(count);
    Ok(())
}
