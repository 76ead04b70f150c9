//! What comes before the first action of a new run.
ghost use Rattle.std.specs.Prelude.{◌≡◌, ◌⊎◌, ◌≤◌, ◌∷◌, [], ℕ, Some, length, IfOk, OnOk, IsErrOf};
ghost use Rattle.poly_model.specs.declared.overflow.Overflow.{Overflow as Passed};
ghost use Rattle.poly_model.specs.Due.{IsDue, IsAskedBefore};
ghost use Rattle.poly_model.specs.FreeColumns.{AreLines};
ghost use Rattle.poly_model.specs.Limits.{most_columns};
ghost use Rattle.poly_model.specs.Systems.{cone_of};
ghost use Rattle.poly_io.specs.Causes.{RisesAt};
ghost use Rattle.disk_core.specs.Contents.{Told};
ghost use Rattle.disk_core.specs.Moments.{LeavesOnly};
ghost use Rattle.job_text.specs.FirstPayloads.{first_payload};
ghost use Rattle.job_ledger.specs.Ledgers.{IsLedgerAt, IsPastLimit, grown, new_ledger};
ghost use Rattle.job_ledger.specs.Records.{HasNoRun, IsOpen, Records};
ghost use Rattle.run_ledger.specs.Recorded.{search_in};
ghost use Rattle.coordinator.specs.Calls.{AreTerms, MayRun, state_after};

use crate::going::Going;
use crate::lines::lines_of;
use crate::{RunStop, Terms};
use coordinator_core::Core;
use disk_core::Disk;
use job_ledger::LedgerStop;
use job_text::FirstPayload;
use linearity::PrepareStop;
use run_ledger::begin_run;

// What comes before the first action: the lines, then the first record, then the core.
pub(crate) fn begin<D: Disk>(
    terms: &Terms,
    first: FirstPayload,
    disk: &mut D,
) -> Result<Going, RunStop>
    requires terms { AreTerms terms.now }
    requires may { MayRun first }
    ensures moments { Told (D.seen disk.old) (λ f. LeavesOnly D.moment D.since disk.old disk.new
        (λ c. D.images disk.old c ⊎ (HasNoRun c ⊎ Records (first_payload (search_in first) ∷ []) c))) }
    ensures kept { IfOk result (λ g. Told (D.seen disk.old)
        (λ f. IsLedgerAt g.ledger (first_payload (search_in first) ∷ []) (D.seen disk.new) (D.images disk.new))) }
    ensures knows { IfOk result (λ g. g.ledger ≡ grown (new_ledger terms.now.limit) (length (first_payload (search_in first)))) }
    ensures core { IfOk result (λ g. g.core ≡ state_after terms.now.options (search_in first) []) }
    ensures lines { IfOk result (λ g. AreLines (cone_of first.poly) g.lines) }
    ensures few { IfOk result (λ g. length g.lines ≤ most_columns) }
    ensures fresh { OnOk result (Told (D.seen disk.old) HasNoRun) }
    ensures has { IsErrOf result RunStop.HasRun → LeavesOnly D.moment D.since disk.old disk.new (D.images disk.old)
        × Told (D.seen disk.old) (λ f. IsOpen f × (D.seen disk.new ≡ Some f)) }
    ensures past { (need most : ℕ) → IsErrOf result (RunStop.LedgerLimit need most) →
        IsPastLimit (new_ledger terms.now.limit) (length (first_payload (search_in first))) need most }
    ensures overflow { (o : Passed) → IsErrOf result (RunStop.Overflow o) →
        IsDue first.poly o (IsAskedBefore first.poly o) × (disk.new ≡ disk.old) }
    ensures never_lost { (lost strays : ℕ) → IsErrOf result (RunStop.Lost lost strays) → ⊥ }
    ensures never_bad { (place : ℕ) → IsErrOf result (RunStop.BadLedger place) → ⊥ }
    ensures never_write { IsErrOf result RunStop.WriteFault → ⊥ }
    ensures cause { RisesAt RunStop.DiskFault (D.faults disk.old) (D.faults disk.new) result }
{
    let lines = match lines_of(terms.alloc, &first.poly) {
        Ok(lines) => lines,
        Err(PrepareStop::Overflow(overflow)) => return Err(RunStop::Overflow(overflow)),
        Err(PrepareStop::Memory) => return Err(RunStop::Memory),
        Err(PrepareStop::Inconsistent) => unreachable!(),
    };
    match begin_run(terms.alloc, disk, terms.limit, first) {
        Ok(begun) => {
            let (ledger, run) = begun;
            match Core::new(terms.alloc, run, terms.options) {
                Ok(core) => Ok(Going {
                    ledger,
                    core,
                    lines,
                }),
                Err(_) => Err(RunStop::Memory),
            }
        }
        Err(LedgerStop::HasRun) => Err(RunStop::HasRun),
        Err(LedgerStop::LedgerLimit { need, limit }) => Err(RunStop::LedgerLimit { need, limit }),
        Err(LedgerStop::DiskFault) => Err(RunStop::DiskFault),
        Err(LedgerStop::Memory) => Err(RunStop::Memory),
        Err(LedgerStop::NoRun) => unreachable!(),
        Err(LedgerStop::BadLedger { place: _ }) => unreachable!(),
    }
}
