//! Reads a run again from its ledger.
ghost use Rattle.std.specs.Prelude.{◌≡◌, ◌<◌, ◌≤◌, ◌+◌, ◌^◌, ◌∷◌, ◌++◌, [], List, ℕ, Some, length, slice_get, take, IfOk, OnOk, IsErrOf};
ghost use Rattle.poly_io.specs.Causes.{RisesAt};
ghost use Rattle.disk_core.specs.Contents.{Told};
ghost use Rattle.disk_core.specs.Moments.{IsQuiet, LeavesOnly};
ghost use Rattle.job_ledger.specs.Ledgers.{IsLedgerAt};
ghost use Rattle.job_ledger.specs.Records.{HasNoRun, IsBrokenAt, Records};
ghost use Rattle.run_state.specs.Payloads.{IsBrokenPayload};
ghost use Rattle.run_state.specs.Runs.{IsRunOf};
ghost use Rattle.run_ledger.specs.Recorded.{IsBadLedger, IsPayloadAt, IsRunOfFirst};

use crate::ReopenStop;
use disk_core::Disk;
use job_ledger::{Ledger, LedgerStop};
use job_text::PayloadStop;
use poly_io::Bytes;
use run_state::RunState;
use std::alloc::Global;

// Reads the layout of the file.
fn reopen_ledger<D: Disk>(alloc: Global, disk: &mut D, limit: u64) -> Result<Ledger, ReopenStop>
    requires { limit ≤ 2 ^ 40 }
    ensures quiet { LeavesOnly D.moment D.since disk.old disk.new (D.images disk.old) }
    ensures records { IfOk result (λ l. Told (D.seen disk.old) (λ f. (payloads : List (List ℕ))
        × (0 < length payloads) × Records payloads f × (D.seen disk.new ≡ Some f)
        × IsLedgerAt l payloads (D.seen disk.new) (D.images disk.new))) }
    ensures knows { IfOk result (λ l. l.limit ≡ limit) }
    ensures some { IfOk result (λ l. 0 < length l.sizes) }
    ensures none { IsErrOf result ReopenStop.NoRun
        → Told (D.seen disk.old) (λ f. HasNoRun f × (D.seen disk.new ≡ Some f)) }
    ensures bad { (place : ℕ) → IsErrOf result (ReopenStop.BadLedger place)
        → Told (D.seen disk.old) (λ f. IsBrokenAt place f × (D.seen disk.new ≡ Some f)) }
    ensures cause { RisesAt ReopenStop.DiskFault (D.faults disk.old) (D.faults disk.new) result }
{
    match Ledger::reopen(alloc, disk, limit) {
        Ok(ledger) => Ok(ledger),
        Err(LedgerStop::NoRun) => Err(ReopenStop::NoRun),
        Err(LedgerStop::BadLedger { place }) => Err(ReopenStop::BadLedger { place }),
        Err(LedgerStop::DiskFault) => Err(ReopenStop::DiskFault),
        Err(_) => Err(ReopenStop::Memory),
    }
}

// The payload of this number, from 0.
fn payload_at<D: Disk>(ledger: &Ledger, disk: &mut D, i: u64) -> Result<Bytes, ReopenStop>
    requires { i < length ledger.now.sizes }
    ensures quiet { IsQuiet D.seen D.images D.moment D.since disk.old disk.new }
    ensures bytes { (payloads : List (List ℕ)) → IsLedgerAt ledger.now payloads (D.seen disk.old) (D.images disk.old)
        → IfOk result (λ b. slice_get payloads i ≡ Some b) }
    ensures never_none { IsErrOf result ReopenStop.NoRun → ⊥ }
    ensures never_bad { (place : ℕ) → IsErrOf result (ReopenStop.BadLedger place) → ⊥ }
    ensures cause { RisesAt ReopenStop.DiskFault (D.faults disk.old) (D.faults disk.new) result }
{
    match ledger.payload(disk, i) {
        Ok(payload) => Ok(payload),
        Err(LedgerStop::DiskFault) => Err(ReopenStop::DiskFault),
        Err(_) => Err(ReopenStop::Memory),
    }
}

// The state after the first record.
fn open_first<D: Disk>(alloc: Global, ledger: &Ledger, disk: &mut D) -> Result<RunState, ReopenStop>
    requires { 0 < length ledger.now.sizes }
    ensures quiet { IsQuiet D.seen D.images D.moment D.since disk.old disk.new }
    ensures ok { IfOk result (λ run. IsRunOfFirst run 1 ledger.now (D.seen disk.old) (D.images disk.old)) }
    ensures bad { (place : ℕ) (payloads : List (List ℕ)) → IsErrOf result (ReopenStop.BadLedger place)
        → IsLedgerAt ledger.now payloads (D.seen disk.old) (D.images disk.old) → IsBrokenPayload place payloads }
    ensures never_none { IsErrOf result ReopenStop.NoRun → ⊥ }
    ensures cause { RisesAt ReopenStop.DiskFault (D.faults disk.old) (D.faults disk.new) result }
{
    let payload = payload_at(ledger, disk, 0)?;
    match RunState::open(alloc, payload.as_slice()) {
        Ok(run) => Ok(run),
        Err(PayloadStop::Bad) => Err(ReopenStop::BadLedger { place: 1 }),
        Err(PayloadStop::Memory) => Err(ReopenStop::Memory),
    }
}

// Takes the record of this number, from 0, into the state.
fn follow_record<D: Disk>(
    alloc: Global,
    run: &mut RunState,
    ledger: &Ledger,
    disk: &mut D,
    i: u64,
) -> Result<(), ReopenStop>
    requires at { i < length ledger.now.sizes }
    requires small { i + 1 < 2 ^ 64 }
    ensures quiet { IsQuiet D.seen D.images D.moment D.since disk.old disk.new }
    ensures ok { (before : List (List ℕ)) → IsRunOf run.old before → OnOk result ((payload : List ℕ)
        × IsRunOf run.new (before ++ payload ∷ [])
        × IsPayloadAt i payload ledger.now (D.seen disk.old) (D.images disk.old)) }
    ensures bad { (place : ℕ) (payloads : List (List ℕ)) → IsErrOf result (ReopenStop.BadLedger place)
        → IsLedgerAt ledger.now payloads (D.seen disk.old) (D.images disk.old) → IsRunOf run.old (take i payloads)
        → IsBrokenPayload place payloads }
    ensures never_none { IsErrOf result ReopenStop.NoRun → ⊥ }
    ensures cause { RisesAt ReopenStop.DiskFault (D.faults disk.old) (D.faults disk.new) result }
{
    let payload = payload_at(ledger, disk, i)?;
    match run.follow(alloc, payload.as_slice()) {
        Ok(()) => Ok(()),
        Err(PayloadStop::Bad) => Err(ReopenStop::BadLedger { place: i + 1 }),
        Err(PayloadStop::Memory) => Err(ReopenStop::Memory),
    }
}

// The state after all records.
fn read_run<D: Disk>(alloc: Global, ledger: &Ledger, disk: &mut D) -> Result<RunState, ReopenStop>
    requires { 0 < length ledger.now.sizes }
    ensures quiet { IsQuiet D.seen D.images D.moment D.since disk.old disk.new }
    ensures ok { IfOk result (λ run.
        IsRunOfFirst run (length ledger.now.sizes) ledger.now (D.seen disk.old) (D.images disk.old)) }
    ensures bad { (place : ℕ) (payloads : List (List ℕ)) → IsErrOf result (ReopenStop.BadLedger place)
        → IsLedgerAt ledger.now payloads (D.seen disk.old) (D.images disk.old) → IsBrokenPayload place payloads }
    ensures never_none { IsErrOf result ReopenStop.NoRun → ⊥ }
    ensures cause { RisesAt ReopenStop.DiskFault (D.faults disk.old) (D.faults disk.new) result }
{
    let mut run = open_first(alloc, ledger, disk)?;
    for i in 1..ledger.count() {
        follow_record(alloc, &mut run, ledger, disk, i)?;
    }
    Ok(run)
}

/// Reads a run from the records of a ledger, of which one payload is in memory at a time: the ledger, to which at most
/// `limit` bytes may be written, and the state after its records. No image is new, whatever the answer. `BadLedger`
/// names the first record whose layout is broken or, where none is, the first whose payload breaks the ledger text.
pub fn reopen_run<D: Disk>(
    alloc: Global,
    disk: &mut D,
    limit: u64,
) -> Result<(Ledger, RunState), ReopenStop>
    requires { limit ≤ 2 ^ 40 }
    ensures quiet { LeavesOnly D.moment D.since disk.old disk.new (D.images disk.old) }
    ensures run { IfOk result (λ r. (payloads : List (List ℕ)) × IsRunOf r.1 payloads
        × (length r.0.sizes ≡ length payloads)
        × Told (D.seen disk.old) (λ f. Records payloads f × (D.seen disk.new ≡ Some f)
        × IsLedgerAt r.0 payloads (D.seen disk.new) (D.images disk.new))) }
    ensures knows { IfOk result (λ r. r.0.limit ≡ limit) }
    ensures none { IsErrOf result ReopenStop.NoRun
        → Told (D.seen disk.old) (λ f. HasNoRun f × (D.seen disk.new ≡ Some f)) }
    ensures bad { (place : ℕ) → IsErrOf result (ReopenStop.BadLedger place)
        → Told (D.seen disk.old) (λ f. IsBadLedger place f × (D.seen disk.new ≡ Some f)) }
    ensures cause { RisesAt ReopenStop.DiskFault (D.faults disk.old) (D.faults disk.new) result }
{
    let ledger = reopen_ledger(alloc, disk, limit)?;
    let run = read_run(alloc, &ledger, disk)?;
    Ok((ledger, run))
}
