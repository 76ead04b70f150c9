//! How workers count their faults.
ghost use Rattle.std.specs.Prelude.{◌≤◌};
ghost use Rattle.poly_io.specs.Causes.{HasCause, Rose};
ghost use Rattle.workers_io.specs.Collects.{IsBroken};

use crate::Collected;
use poly_io::Failed;

/// Counts a fault where this is one. A saturated count stays as it is.
pub(crate) fn count_fault(done: Result<(), Failed>, faults: &mut u64)
    ensures { HasCause faults.old faults.new done }
{
    if done.is_err() {
        *faults = faults.saturating_add(1);
    }
}

/// The count of faults once this was collected.
pub(crate) fn faults_after(faults: u64, collected: &Collected) -> u64
    ensures broken { IsBroken collected.now → Rose faults result }
    ensures later { faults ≤ result }
{
    match collected {
        Collected::Broken { .. } => faults.saturating_add(1),
        Collected::Reply { .. } => faults,
    }
}
