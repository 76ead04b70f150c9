//! How a collect takes an attempt off those that are out.
ghost use Rattle.std.specs.Prelude.{◌≡◌};
ghost use Rattle.workers_io.specs.Collects.{collected_attempt, out_after};

use crate::Collected;

/// The attempt that was collected.
pub(crate) fn attempt_of(collected: &Collected) -> u64
    ensures { result ≡ collected_attempt collected.now }
{
    match collected {
        Collected::Reply { attempt, .. } | Collected::Broken { attempt } => *attempt,
    }
}

/// Takes an attempt off those that are out, as often as it is there.
pub(crate) fn take_off(out: &mut Vec<u64>, attempt: u64)
    ensures { out.new.items ≡ out_after out.old.items attempt }
{
    out.retain(|a| *a != attempt);
}
