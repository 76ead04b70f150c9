//! How an accepted reply is written to the ledger.
ghost use Rattle.std.specs.Prelude.{◌≡◌, ◌⊎◌, ◌≤◌, ◌∷◌, [], ℕ, List, length, OnOk, IfSome, IsNone, IsErrOf};
ghost use Rattle.poly_io.specs.Causes.{RisesAt};
ghost use Rattle.poly_model.specs.declared.overflow.Overflow.{Overflow as Passed};
ghost use Rattle.job_ledger.specs.Ledgers.{IsPastLimit, end_of};
ghost use Rattle.workers_io.specs.Collects.{happening_of};
ghost use Rattle.coordinator_laws.specs.Courses.{kept_text};
ghost use Rattle.coordinator.specs.Leaving.{Adds, LeavesFronts};

use crate::TurnStop;
use coordinator_core::Verdict;
use disk_core::Disk;
use job_ledger::{Ledger, LedgerStop};
use workers_io::Collected;

// Adds a record.
fn add<D: Disk>(ledger: &mut Ledger, disk: &mut D, payload: &[u8]) -> Result<(), TurnStop>
    ensures adds { OnOk result (Adds D.Disk disk.old disk.new ledger.old ledger.new (payload.now ∷ [])) }
    ensures leaves { LeavesFronts D.Disk disk.old disk.new ledger.old (payload.now ∷ []) }
    ensures fits { OnOk result (end_of ledger.new.sizes ≤ ledger.new.limit) }
    ensures past { (need most : ℕ) → IsErrOf result (TurnStop.LedgerLimit need most) →
        IsPastLimit ledger.old (length payload.now) need most × (disk.new ≡ disk.old) × (ledger.new ≡ ledger.old) }
    ensures never_passes { (o : Passed) → IsErrOf result (TurnStop.Overflow o) → ⊥ }
    ensures cause { RisesAt TurnStop.DiskFault (D.faults disk.old) (D.faults disk.new) result }
{
    match ledger.append(disk, payload) {
        Ok(()) => Ok(()),
        Err(LedgerStop::DiskFault) => Err(TurnStop::DiskFault),
        Err(LedgerStop::LedgerLimit { need, limit }) => Err(TurnStop::LedgerLimit { need, limit }),
        Err(LedgerStop::Memory) => Err(TurnStop::Memory),
        Err(LedgerStop::NoRun) => unreachable!(),
        Err(LedgerStop::HasRun) => unreachable!(),
        Err(LedgerStop::BadLedger { place: _ }) => unreachable!(),
    }
}

// The bytes of an accepted reply.
fn kept_bytes(verdict: Verdict, collected: &Collected) -> Option<&[u8]>
    ensures some { IfSome result (λ bytes. kept_text verdict (happening_of collected.now) ≡ bytes.now ∷ []) }
    ensures none { IsNone result → kept_text verdict (happening_of collected.now) ≡ [] }
{
    match verdict {
        Verdict::Accepted => match collected {
            Collected::Reply { attempt: _, bytes } => Some(bytes.as_slice()),
            Collected::Broken { attempt: _ } => None,
        },
        Verdict::Stray => None,
        Verdict::Loss => None,
        Verdict::Ends(_) => None,
    }
}

// Puts what was collected into the ledger where it is accepted.
pub(crate) fn keep<D: Disk>(
    ledger: &mut Ledger,
    disk: &mut D,
    verdict: Verdict,
    collected: &Collected,
) -> Result<(), TurnStop>
    ensures adds { OnOk result
        (Adds D.Disk disk.old disk.new ledger.old ledger.new (kept_text verdict (happening_of collected.now))) }
    ensures leaves { LeavesFronts D.Disk disk.old disk.new ledger.old (kept_text verdict (happening_of collected.now)) }
    ensures fits { OnOk result ((ledger.new ≡ ledger.old) ⊎ (end_of ledger.new.sizes ≤ ledger.new.limit)) }
    ensures past { (need most : ℕ) → IsErrOf result (TurnStop.LedgerLimit need most) →
        (bytes : List ℕ) × (kept_text verdict (happening_of collected.now) ≡ bytes ∷ [])
        × IsPastLimit ledger.old (length bytes) need most × (disk.new ≡ disk.old) × (ledger.new ≡ ledger.old) }
    ensures never_passes { (o : Passed) → IsErrOf result (TurnStop.Overflow o) → ⊥ }
    ensures cause { RisesAt TurnStop.DiskFault (D.faults disk.old) (D.faults disk.new) result }
{
    match kept_bytes(verdict, collected) {
        Some(bytes) => add(ledger, disk, bytes),
        None => Ok(()),
    }
}
