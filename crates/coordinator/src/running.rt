//! A call that begins a new run.
ghost use Rattle.std.specs.Prelude.{◌≡◌, ◌⊎◌, ◌∷◌, [], ℕ, List, Some, IfOk, OnErr, IsErrOf};
ghost use Rattle.poly_model.specs.declared.overflow.Overflow.{Overflow as Passed};
ghost use Rattle.poly_model.specs.Due.{IsDue, IsAskedBefore};
ghost use Rattle.poly_io.specs.Causes.{RisesAt};
ghost use Rattle.disk_core.specs.Contents.{Told};
ghost use Rattle.disk_core.specs.Moments.{LeavesOnly};
ghost use Rattle.job_text.specs.FirstPayloads.{first_payload};
ghost use Rattle.job_ledger.specs.Ledgers.{new_ledger};
ghost use Rattle.job_ledger.specs.Records.{HasNoRun, IsOpen};
ghost use Rattle.run_ledger.specs.Recorded.{search_in};
ghost use Rattle.coordinator.specs.Calls.{AreTerms, MayRun, PrintsRecords, state_after};
ghost use Rattle.coordinator.specs.Following.{EndsBy, Finishes, GivesUp, LeadsSomewhere};
ghost use Rattle.coordinator.specs.Leaving.{HasFront, IsRefusedBy};
ghost use Rattle.coordinator.specs.Ending.{Rests};

use crate::beginning::begin;
use crate::going::go_on;
use crate::stops::GoStop;
use crate::{RunStop, Terms};
use disk_core::Disk;
use job_text::FirstPayload;
use poly_io::Sink;
use poly_model::Listed;
use workers_io::Workers;

// Why a new run is given up, where its call from the first action to the end is.
fn run_stop(stop: GoStop) -> RunStop
    ensures bad { (place : ℕ) → result ≡ RunStop.BadLedger place → stop ≡ GoStop.BadLedger place }
    ensures limit { (need most : ℕ) → result ≡ RunStop.LedgerLimit need most → stop ≡ GoStop.LedgerLimit need most }
    ensures overflow { (o : Passed) → result ≡ RunStop.Overflow o → stop ≡ GoStop.Overflow o }
    ensures lost { (lost strays : ℕ) → result ≡ RunStop.Lost lost strays → stop ≡ GoStop.Lost lost strays }
    ensures disk { result ≡ RunStop.DiskFault → stop ≡ GoStop.DiskFault }
    ensures disk_fails { stop ≡ GoStop.DiskFault → result ≡ RunStop.DiskFault }
    ensures write { result ≡ RunStop.WriteFault → stop ≡ GoStop.WriteFault }
    ensures write_fails { stop ≡ GoStop.WriteFault → result ≡ RunStop.WriteFault }
    ensures never_has { result ≡ RunStop.HasRun → ⊥ }
{
    match stop {
        GoStop::BadLedger { place } => RunStop::BadLedger { place },
        GoStop::LedgerLimit { need, limit } => RunStop::LedgerLimit { need, limit },
        GoStop::Overflow(overflow) => RunStop::Overflow(overflow),
        GoStop::Lost { lost, strays } => RunStop::Lost { lost, strays },
        GoStop::DiskFault => RunStop::DiskFault,
        GoStop::WriteFault => RunStop::WriteFault,
        GoStop::Memory => RunStop::Memory,
    }
}

/// Runs a work from its root, recorded in a new ledger, and prints the listing.
///
/// The lines are prepared before the disk is touched: an overflow of their own leaves disk and workers as they were. Then come
/// `HasRun`, `LedgerLimit` and the first record, and only then a worker is started. Where lack of memory, a fault, `Lost`,
/// `LedgerLimit` or an overflow that a reply tells ends the call, the records of what was accepted are kept, and `resume`
/// goes on from them. Rows are printed at the end alone, from the ledger; a fault of the sink, or of the disk, or want of
/// memory then leaves the beginning of the listing.
pub fn run<D: Disk, W: Workers, O: Sink>(
    terms: &Terms,
    first: FirstPayload,
    disk: &mut D,
    workers: &mut W,
    out: &mut O,
) -> Result<Listed, RunStop>
    requires terms { AreTerms terms.now }
    requires may { MayRun first }
    // Whatever the answer: the starts and collects are steps from the first record, and each image is one from before, has no
    // run, or has that record and then some first ones of the replies that the steps accept.
    ensures goes { (texts : List (List ℕ))
        × LeadsSomewhere (state_after terms.now.options (search_in first) []) (W.history workers.old) (W.history workers.new) texts
        × Told (D.seen disk.old) (λ f. LeavesOnly D.moment D.since disk.old disk.new
        (λ c. D.images disk.old c ⊎ (HasNoRun c ⊎ HasFront (first_payload (search_in first) ∷ []) texts c))) }
    // At the end nothing is left to do, the file rests with the records, and what they record is printed.
    ensures done { IfOk result (λ listed. (texts : List (List ℕ))
        × Finishes (state_after terms.now.options (search_in first) []) (W.history workers.old) (W.history workers.new) texts
        × Told (D.seen disk.old) (λ f. HasNoRun f
        × Rests (first_payload (search_in first) ∷ texts) (D.seen disk.new) (D.images disk.new)
        × PrintsRecords (search_in first) (first_payload (search_in first) ∷ texts) (O.written out.old) (O.written out.new) result)) }
    ensures part { OnErr result ((out.new ≡ out.old) ⊎ ((texts : List (List ℕ))
        × Finishes (state_after terms.now.options (search_in first) []) (W.history workers.old) (W.history workers.new) texts
        × Told (D.seen disk.old) (λ f. Rests (first_payload (search_in first) ∷ texts) (D.seen disk.new) (D.images disk.new)
        × PrintsRecords (search_in first) (first_payload (search_in first) ∷ texts) (O.written out.old) (O.written out.new) result))) }
    ensures lost { (lost strays : ℕ) → IsErrOf result (RunStop.Lost lost strays) → (out.new ≡ out.old) × (texts : List (List ℕ))
        × GivesUp (state_after terms.now.options (search_in first) []) lost strays (W.history workers.old) (W.history workers.new) texts
        × Told (D.seen disk.old) (λ f. Rests (first_payload (search_in first) ∷ texts) (D.seen disk.new) (D.images disk.new)) }
    // A pivot of preparing the lines is due; or a reply says that a product passes.
    ensures overflow { (o : Passed) → IsErrOf result (RunStop.Overflow o) → (out.new ≡ out.old)
        × ((IsDue first.poly o (IsAskedBefore first.poly o) × (disk.new ≡ disk.old) × (workers.new ≡ workers.old))
        ⊎ ((texts : List (List ℕ))
        × EndsBy (state_after terms.now.options (search_in first) []) o (W.history workers.old) (W.history workers.new) texts
        × Told (D.seen disk.old) (λ f. Rests (first_payload (search_in first) ∷ texts) (D.seen disk.new) (D.images disk.new)))) }
    ensures has { IsErrOf result RunStop.HasRun → (out.new ≡ out.old) × (workers.new ≡ workers.old)
        × LeavesOnly D.moment D.since disk.old disk.new (D.images disk.old)
        × Told (D.seen disk.old) (λ f. IsOpen f × (D.seen disk.new ≡ Some f)) }
    ensures past { (need most : ℕ) → IsErrOf result (RunStop.LedgerLimit need most) → (out.new ≡ out.old) × (texts : List (List ℕ))
        × LeadsSomewhere (state_after terms.now.options (search_in first) []) (W.history workers.old) (W.history workers.new) texts
        × IsRefusedBy (new_ledger terms.now.limit) (first_payload (search_in first) ∷ texts) need most }
    // Only over a disk that does not keep its model.
    ensures bad { (place : ℕ) → IsErrOf result (RunStop.BadLedger place) → Told (D.seen disk.old) (λ f. ⊥) }
    ensures disk_cause { RisesAt RunStop.DiskFault (D.faults disk.old) (D.faults disk.new) result }
    ensures sink_cause { RisesAt RunStop.WriteFault (O.faults out.old) (O.faults out.new) result }
    ensures honest { W.honest workers.old → W.honest workers.new }
{
    match begin(terms, first, disk) {
        Ok(begun) => {
            let mut going = begun;
            match go_on(terms.alloc, &mut going, disk, workers, out) {
                Ok(listed) => Ok(listed),
                Err(stop) => Err(run_stop(stop)),
            }
        }
        Err(stop) => Err(stop),
    }
}
