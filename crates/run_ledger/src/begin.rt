//! How a run begins: the first record of its ledger, and its state before any reply.
ghost use Rattle.std.specs.Prelude.{◌≡◌, ◌⊎◌, ◌≤◌, ◌^◌, ◌∷◌, [], ℕ, Some, length, IfOk, OnOk, OnErr, IsErrOf};
ghost use Rattle.disk_core.specs.Contents.{Told};
ghost use Rattle.disk_core.specs.Moments.{LeavesOnly};
ghost use Rattle.poly_reader.specs.Reading.{IsOfItsText};
ghost use Rattle.job_text.specs.FirstPayloads.{IsRootText, first_payload};
ghost use Rattle.job_ledger.specs.Ledgers.{IsLedgerAt, IsPastLimit, grown, need_of, new_ledger};
ghost use Rattle.job_ledger.specs.Records.{HasNoRun, IsOpen, Records};
ghost use Rattle.job_ledger.specs.Stops.{IsCaused};
ghost use Rattle.run_state.specs.Runs.{IsRunOf, first_run};
ghost use Rattle.run_ledger.specs.Recorded.{search_in};

use disk_core::Disk;
use job_ledger::{Ledger, LedgerStop};
use job_text::{FirstPayload, write_first_payload};
use poly_io::Bytes;
use run_state::RunState;
use std::alloc::{AllocError, Global};

// The first payload as a text, and the state before any reply.
fn staged(alloc: Global, first: FirstPayload) -> Result<(Bytes, RunState), AllocError>
    ensures payload { IfOk result (λ r. r.0 ≡ first_payload (search_in first)) }
    ensures run { IfOk result (λ r. r.1 ≡ first_run (search_in first)) }
{
    let FirstPayload { work, root, poly } = first;
    let payload = write_first_payload(alloc, work, &root, &poly)?;
    let run = RunState::begin(alloc, work, root, poly)?;
    Ok((payload, run))
}

/// Begins a run in a file that has none: a ledger of at most `limit` bytes, whose first record says what is searched,
/// and the state before any reply. `HasRun`, `LedgerLimit` and lack of memory come before anything is written. An image
/// of the call is one from before, has no run, or has that record.
pub fn begin_run<D: Disk>(
    alloc: Global,
    disk: &mut D,
    limit: u64,
    first: FirstPayload,
) -> Result<(Ledger, RunState), LedgerStop>
    requires { limit ≤ 2 ^ 40 }
    ensures moments { Told (D.seen disk.old) (λ f. LeavesOnly D.moment D.since disk.old disk.new
        (λ c. D.images disk.old c ⊎ (HasNoRun c ⊎ Records (first_payload (search_in first) ∷ []) c))) }
    ensures kept { IfOk result (λ r. Told (D.seen disk.old)
        (λ f. IsLedgerAt r.0 (first_payload (search_in first) ∷ []) (D.seen disk.new) (D.images disk.new))) }
    ensures knows { IfOk result (λ r. r.0 ≡ grown (new_ledger limit) (length (first_payload (search_in first)))) }
    ensures run { IfOk result (λ r. r.1 ≡ first_run (search_in first)) }
    ensures is_run { IfOk result (λ r. IsRootText first.work first.root.key → IsOfItsText first.poly
        → IsRunOf r.1 (first_payload (search_in first) ∷ [])) }
    ensures fresh { OnOk result (Told (D.seen disk.old) HasNoRun) }
    ensures fits { OnOk result (need_of (new_ledger limit) (length (first_payload (search_in first))) ≤ limit) }
    ensures has { IsErrOf result LedgerStop.HasRun → Told (D.seen disk.old) IsOpen }
    ensures past { (need most : ℕ) → IsErrOf result (LedgerStop.LedgerLimit need most)
        → IsPastLimit (new_ledger limit) (length (first_payload (search_in first))) need most
        × Told (D.seen disk.old) HasNoRun }
    // What is refused has written nothing.
    ensures unwritten { (IsErrOf result LedgerStop.DiskFault → ⊥) → OnErr result
        (LeavesOnly D.moment D.since disk.old disk.new (D.images disk.old)
        × Told (D.seen disk.old) (λ f. D.seen disk.new ≡ Some f)) }
    ensures never_none { IsErrOf result LedgerStop.NoRun → ⊥ }
    ensures never_bad { (place : ℕ) → IsErrOf result (LedgerStop.BadLedger place) → ⊥ }
    ensures cause { IsCaused (D.faults disk.old) (D.faults disk.new) result }
{
    let (payload, run) = staged(alloc, first)?;
    let ledger = Ledger::create(alloc, disk, limit, payload.as_slice())?;
    Ok((ledger, run))
}
