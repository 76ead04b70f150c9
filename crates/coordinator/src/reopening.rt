//! What comes before the first action of a run that goes on from its ledger.
ghost use Rattle.std.specs.Prelude.{◌≡◌, ◌≤◌, ℕ, Some, length, IfOk, IsErrOf};
ghost use Rattle.poly_model.specs.declared.overflow.Overflow.{Overflow as Passed};
ghost use Rattle.poly_model.specs.Due.{IsDue, IsAskedBefore};
ghost use Rattle.poly_model.specs.Equations.{AreConsistent};
ghost use Rattle.poly_model.specs.FreeColumns.{AreLines};
ghost use Rattle.poly_model.specs.Limits.{most_columns};
ghost use Rattle.poly_model.specs.Systems.{cone_of};
ghost use Rattle.poly_io.specs.Causes.{RisesAt};
ghost use Rattle.disk_core.specs.Contents.{Told};
ghost use Rattle.disk_core.specs.Moments.{LeavesOnly};
ghost use Rattle.job_ledger.specs.Ledgers.{IsLedgerAt};
ghost use Rattle.job_ledger.specs.Records.{HasNoRun};
ghost use Rattle.coordinator_core.specs.Machine.{start_of};
ghost use Rattle.run_ledger.specs.Recorded.{IsBadLedger};
ghost use Rattle.coordinator.specs.Calls.{AreTerms, RecordedRun, state_at};
ghost use Rattle.coordinator.specs.Stops.{IsOfLines};

use crate::going::Going;
use crate::lines::lines_of;
use crate::{ResumeStop, Terms};
use coordinator_core::Core;
use disk_core::Disk;
use job_ledger::Ledger;
use linearity::PrepareStop;
use run_ledger::{ReopenStop, reopen_run};
use run_state::RunState;

// The lines and the core of a run that was read again.
fn go_from(terms: &Terms, ledger: Ledger, run: RunState) -> Result<Going, ResumeStop>
    requires { AreTerms terms.now }
    ensures ledger { IfOk result (λ g. g.ledger ≡ ledger) }
    ensures core { IfOk result (λ g. g.core ≡ start_of terms.now.options run) }
    ensures lines { IfOk result (λ g. AreLines (cone_of run.search.polyhedron) g.lines) }
    ensures few { IfOk result (λ g. length g.lines ≤ most_columns) }
    ensures consistent { IfOk result (λ g. AreConsistent run.search.polyhedron) }
    ensures infeasible { IsErrOf result ResumeStop.Infeasible → AreConsistent run.search.polyhedron → ⊥ }
    ensures overflow { (o : Passed) → IsErrOf result (ResumeStop.Overflow o) →
        IsDue run.search.polyhedron o (IsAskedBefore run.search.polyhedron o) }
    ensures stops { IsOfLines result }
{
    match lines_of(terms.alloc, run.poly()) {
        Ok(lines) => match Core::new(terms.alloc, run, terms.options) {
            Ok(core) => Ok(Going {
                ledger,
                core,
                lines,
            }),
            Err(_) => Err(ResumeStop::Memory),
        },
        Err(PrepareStop::Overflow(overflow)) => Err(ResumeStop::Overflow(overflow)),
        Err(PrepareStop::Memory) => Err(ResumeStop::Memory),
        Err(PrepareStop::Inconsistent) => Err(ResumeStop::Infeasible),
    }
}

// What comes before the first action: the records, then the lines of what they search, then the core.
pub(crate) fn reopen<D: Disk>(terms: &Terms, disk: &mut D) -> Result<Going, ResumeStop>
    requires { AreTerms terms.now }
    ensures quiet { LeavesOnly D.moment D.since disk.old disk.new (D.images disk.old) }
    ensures kept { IfOk result (λ g. (r : RecordedRun (D.seen disk.old)) × (g.core ≡ state_at terms.now.options r)
        × AreConsistent r.search.polyhedron
        × Told (D.seen disk.old) (λ f. IsLedgerAt g.ledger r.payloads (D.seen disk.new) (D.images disk.new))) }
    ensures knows { IfOk result (λ g. g.ledger.limit ≡ terms.now.limit) }
    ensures lines { IfOk result (λ g. AreLines (cone_of g.core.run.search.polyhedron) g.lines) }
    ensures few { IfOk result (λ g. length g.lines ≤ most_columns) }
    ensures none { IsErrOf result ResumeStop.NoRun →
        Told (D.seen disk.old) (λ f. HasNoRun f × (D.seen disk.new ≡ Some f)) }
    ensures bad { (place : ℕ) → IsErrOf result (ResumeStop.BadLedger place) →
        Told (D.seen disk.old) (λ f. IsBadLedger place f × (D.seen disk.new ≡ Some f)) }
    ensures infeasible { IsErrOf result ResumeStop.Infeasible → (r : RecordedRun (D.seen disk.old))
        × (AreConsistent r.search.polyhedron → ⊥) × Told (D.seen disk.old) (λ f. D.seen disk.new ≡ Some f) }
    ensures overflow { (o : Passed) → IsErrOf result (ResumeStop.Overflow o) → (r : RecordedRun (D.seen disk.old))
        × IsDue r.search.polyhedron o (IsAskedBefore r.search.polyhedron o)
        × Told (D.seen disk.old) (λ f. D.seen disk.new ≡ Some f) }
    ensures never_lost { (lost strays : ℕ) → IsErrOf result (ResumeStop.Lost lost strays) → ⊥ }
    ensures never_past { (need most : ℕ) → IsErrOf result (ResumeStop.LedgerLimit need most) → ⊥ }
    ensures never_write { IsErrOf result ResumeStop.WriteFault → ⊥ }
    ensures cause { RisesAt ResumeStop.DiskFault (D.faults disk.old) (D.faults disk.new) result }
{
    match reopen_run(terms.alloc, disk, terms.limit) {
        Ok(reopened) => {
            let (ledger, run) = reopened;
            go_from(terms, ledger, run)
        }
        Err(ReopenStop::NoRun) => Err(ResumeStop::NoRun),
        Err(ReopenStop::BadLedger { place }) => Err(ResumeStop::BadLedger { place }),
        Err(ReopenStop::DiskFault) => Err(ResumeStop::DiskFault),
        Err(ReopenStop::Memory) => Err(ResumeStop::Memory),
    }
}
