//! A call that goes on with a run from its ledger.
ghost use Rattle.std.specs.Prelude.{◌≡◌, ◌⊎◌, ◌++◌, [], ℕ, List, Some, IfOk, OnErr, IsErrOf};
ghost use Rattle.poly_model.specs.declared.overflow.Overflow.{Overflow as Passed};
ghost use Rattle.poly_model.specs.Due.{IsDue, IsAskedBefore};
ghost use Rattle.poly_model.specs.Equations.{AreConsistent};
ghost use Rattle.poly_io.specs.Causes.{RisesAt};
ghost use Rattle.disk_core.specs.Contents.{Told};
ghost use Rattle.disk_core.specs.Moments.{LeavesOnly};
ghost use Rattle.job_ledger.specs.Ledgers.{new_ledger};
ghost use Rattle.job_ledger.specs.Records.{HasNoRun};
ghost use Rattle.run_ledger.specs.Recorded.{IsBadLedger};
ghost use Rattle.coordinator.specs.Calls.{AreTerms, PrintsRecords, RecordedRun, state_at};
ghost use Rattle.coordinator.specs.Following.{EndsBy, Finishes, GivesUp, LeadsSomewhere};
ghost use Rattle.coordinator.specs.Leaving.{HasFront, IsRefusedBy};
ghost use Rattle.coordinator.specs.Ending.{Rests};

use crate::going::go_on;
use crate::reopening::reopen;
use crate::stops::GoStop;
use crate::{ResumeStop, Terms};
use disk_core::Disk;
use poly_io::Sink;
use poly_model::Listed;
use workers_io::Workers;

// Why a run that goes on is given up, where its call from the first action to the end is.
fn resume_stop(stop: GoStop) -> ResumeStop
    ensures bad { (place : ℕ) → result ≡ ResumeStop.BadLedger place → stop ≡ GoStop.BadLedger place }
    ensures limit { (need most : ℕ) → result ≡ ResumeStop.LedgerLimit need most → stop ≡ GoStop.LedgerLimit need most }
    ensures overflow { (o : Passed) → result ≡ ResumeStop.Overflow o → stop ≡ GoStop.Overflow o }
    ensures lost { (lost strays : ℕ) → result ≡ ResumeStop.Lost lost strays → stop ≡ GoStop.Lost lost strays }
    ensures disk { result ≡ ResumeStop.DiskFault → stop ≡ GoStop.DiskFault }
    ensures disk_fails { stop ≡ GoStop.DiskFault → result ≡ ResumeStop.DiskFault }
    ensures write { result ≡ ResumeStop.WriteFault → stop ≡ GoStop.WriteFault }
    ensures write_fails { stop ≡ GoStop.WriteFault → result ≡ ResumeStop.WriteFault }
    ensures never_none { result ≡ ResumeStop.NoRun → ⊥ }
    ensures never_infeasible { result ≡ ResumeStop.Infeasible → ⊥ }
{
    match stop {
        GoStop::BadLedger { place } => ResumeStop::BadLedger { place },
        GoStop::LedgerLimit { need, limit } => ResumeStop::LedgerLimit { need, limit },
        GoStop::Overflow(overflow) => ResumeStop::Overflow(overflow),
        GoStop::Lost { lost, strays } => ResumeStop::Lost { lost, strays },
        GoStop::DiskFault => ResumeStop::DiskFault,
        GoStop::WriteFault => ResumeStop::WriteFault,
        GoStop::Memory => ResumeStop::Memory,
    }
}

/// Goes on from the records of a ledger, and prints the listing of what they search.
///
/// First the records are read, where `NoRun` and `BadLedger` come; then the lines of their polyhedron are prepared, where
/// `Infeasible` and an overflow of their own come; and only then a worker is started. Where the call ends by lack of memory, a
/// fault, `Lost`, `LedgerLimit` or an overflow that a reply tells, the records of what was accepted are kept, and `resume`
/// goes on from them. Where all is recorded, nothing is started. Rows are printed at the end alone, from the ledger; a fault
/// of the sink, or of the disk, or lack of memory then leaves the beginning of the listing.
pub fn resume<D: Disk, W: Workers, O: Sink>(
    terms: &Terms,
    disk: &mut D,
    workers: &mut W,
    out: &mut O,
) -> Result<Listed, ResumeStop>
    requires { AreTerms terms.now }
    // Whatever the answer: nothing was started and no image is new; or the starts and collects are steps from the records of
    // the file, and each image is one from before or has these records and then some first ones of the replies that the steps
    // accept.
    ensures goes { ((workers.new ≡ workers.old) × LeavesOnly D.moment D.since disk.old disk.new (D.images disk.old))
        ⊎ ((r : RecordedRun (D.seen disk.old)) × (texts : List (List ℕ)) × AreConsistent r.search.polyhedron
        × LeadsSomewhere (state_at terms.now.options r) (W.history workers.old) (W.history workers.new) texts
        × Told (D.seen disk.old) (λ f. LeavesOnly D.moment D.since disk.old disk.new
        (λ c. D.images disk.old c ⊎ HasFront r.payloads texts c))) }
    // At the end nothing is left to do, the file rests with the records, and what they record is printed.
    ensures done { IfOk result (λ listed. (r : RecordedRun (D.seen disk.old)) × (texts : List (List ℕ))
        × Finishes (state_at terms.now.options r) (W.history workers.old) (W.history workers.new) texts
        × Told (D.seen disk.old) (λ f. Rests (r.payloads ++ texts) (D.seen disk.new) (D.images disk.new)
        × PrintsRecords r.search (r.payloads ++ texts) (O.written out.old) (O.written out.new) result)) }
    ensures part { OnErr result ((out.new ≡ out.old) ⊎ ((r : RecordedRun (D.seen disk.old)) × (texts : List (List ℕ))
        × Finishes (state_at terms.now.options r) (W.history workers.old) (W.history workers.new) texts
        × Told (D.seen disk.old) (λ f. Rests (r.payloads ++ texts) (D.seen disk.new) (D.images disk.new)
        × PrintsRecords r.search (r.payloads ++ texts) (O.written out.old) (O.written out.new) result))) }
    ensures lost { (lost strays : ℕ) → IsErrOf result (ResumeStop.Lost lost strays) → (out.new ≡ out.old)
        × (r : RecordedRun (D.seen disk.old)) × (texts : List (List ℕ))
        × GivesUp (state_at terms.now.options r) lost strays (W.history workers.old) (W.history workers.new) texts
        × Told (D.seen disk.old) (λ f. Rests (r.payloads ++ texts) (D.seen disk.new) (D.images disk.new)) }
    // A pivot of preparing the lines is due; or a reply says that a product passes.
    ensures overflow { (o : Passed) → IsErrOf result (ResumeStop.Overflow o) → (out.new ≡ out.old)
        × (r : RecordedRun (D.seen disk.old))
        × ((IsDue r.search.polyhedron o (IsAskedBefore r.search.polyhedron o) × (workers.new ≡ workers.old)
        × Told (D.seen disk.old) (λ f. D.seen disk.new ≡ Some f))
        ⊎ ((texts : List (List ℕ))
        × EndsBy (state_at terms.now.options r) o (W.history workers.old) (W.history workers.new) texts
        × Told (D.seen disk.old) (λ f. Rests (r.payloads ++ texts) (D.seen disk.new) (D.images disk.new)))) }
    ensures past { (need most : ℕ) → IsErrOf result (ResumeStop.LedgerLimit need most) → (out.new ≡ out.old)
        × (r : RecordedRun (D.seen disk.old)) × (texts : List (List ℕ))
        × LeadsSomewhere (state_at terms.now.options r) (W.history workers.old) (W.history workers.new) texts
        × Told (D.seen disk.old) (λ f. IsRefusedBy (new_ledger terms.now.limit) (r.payloads ++ texts) need most) }
    ensures none { IsErrOf result ResumeStop.NoRun → (out.new ≡ out.old) × (workers.new ≡ workers.old)
        × Told (D.seen disk.old) (λ f. HasNoRun f × (D.seen disk.new ≡ Some f)) }
    // At the end only over a disk that does not keep its model.
    ensures bad { (place : ℕ) → IsErrOf result (ResumeStop.BadLedger place) → Told (D.seen disk.old)
        (λ f. IsBadLedger place f × (D.seen disk.new ≡ Some f) × (out.new ≡ out.old) × (workers.new ≡ workers.old)) }
    ensures infeasible { IsErrOf result ResumeStop.Infeasible → (out.new ≡ out.old) × (workers.new ≡ workers.old)
        × (r : RecordedRun (D.seen disk.old)) × (AreConsistent r.search.polyhedron → ⊥)
        × Told (D.seen disk.old) (λ f. D.seen disk.new ≡ Some f) }
    // Where no key waits nothing is started.
    ensures idle { Told (D.seen disk.old) (λ f. (r : RecordedRun (D.seen disk.old)) →
        (state_at terms.now.options r).run.keys.waiting ≡ [] → workers.new ≡ workers.old) }
    ensures disk_cause { RisesAt ResumeStop.DiskFault (D.faults disk.old) (D.faults disk.new) result }
    ensures sink_cause { RisesAt ResumeStop.WriteFault (O.faults out.old) (O.faults out.new) result }
    ensures honest { W.honest workers.old → W.honest workers.new }
{
    match reopen(terms, disk) {
        Ok(reopened) => {
            let mut going = reopened;
            match go_on(terms.alloc, &mut going, disk, workers, out) {
                Ok(listed) => Ok(listed),
                Err(stop) => Err(resume_stop(stop)),
            }
        }
        Err(stop) => Err(stop),
    }
}
