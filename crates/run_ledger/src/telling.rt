//! Prints how far a run is.
ghost use Rattle.std.specs.Prelude.{◌≡◌, ◌≤◌, ◌^◌, ℕ, Some, IfOk, OnErr, IsErrOf};
ghost use Rattle.std.specs.Io.KnownBytes.{Appends};
ghost use Rattle.poly_io.specs.Written.{AppendsPart, Prints};
ghost use Rattle.poly_io.specs.Causes.{RisesAt};
ghost use Rattle.disk_core.specs.Contents.{Told};
ghost use Rattle.disk_core.specs.Moments.{LeavesOnly};
ghost use Rattle.job_ledger.specs.Records.{HasNoRun};
ghost use Rattle.run_ledger.specs.Progress.{IsProgressOf, progress_text};
ghost use Rattle.run_ledger.specs.Recorded.{IsBadLedger};
ghost use Rattle.run_ledger.specs.declared.progress.Progress.{Progress as Numbers};

use crate::progress::Progress;
use crate::reopen::reopen_run;
use crate::{ReopenStop, StatusStop};
use disk_core::Disk;
use job_text::write_count_line;
use poly_io::{Sink, WriteFault};
use std::alloc::Global;

// Reads how far a run is from its ledger.
fn read_progress<D: Disk>(alloc: Global, disk: &mut D, limit: u64) -> Result<Progress, StatusStop>
    requires { limit ≤ 2 ^ 40 }
    ensures leaves { LeavesOnly D.moment D.since disk.old disk.new (D.images disk.old) }
    ensures progress { IfOk result (λ p. Told (D.seen disk.old) (IsProgressOf p)) }
    ensures none { IsErrOf result StatusStop.NoRun → Told (D.seen disk.old) HasNoRun }
    ensures bad { (place : ℕ) → IsErrOf result (StatusStop.BadLedger place)
        → Told (D.seen disk.old) (IsBadLedger place) }
    ensures never_write { IsErrOf result StatusStop.WriteFault → ⊥ }
    ensures cause { RisesAt StatusStop.DiskFault (D.faults disk.old) (D.faults disk.new) result }
{
    match reopen_run(alloc, disk, limit) {
        Ok((ledger, run)) => Ok(Progress {
            done: ledger.count() - 1,
            waiting: run.waiting_len() as u64,
            rows: run.rows(),
        }),
        Err(ReopenStop::NoRun) => Err(StatusStop::NoRun),
        Err(ReopenStop::BadLedger { place }) => Err(StatusStop::BadLedger { place }),
        Err(ReopenStop::DiskFault) => Err(StatusStop::DiskFault),
        Err(ReopenStop::Memory) => Err(StatusStop::Memory),
    }
}

// Writes the three lines.
fn write_progress<O: Sink>(progress: &Progress, out: &mut O) -> Result<(), WriteFault>
    ensures { Prints O.Sink out.old out.new result (progress_text progress.now) }
{
    write_count_line(b"done ", progress.done, out)?;
    write_count_line(b"waiting ", progress.waiting, out)?;
    write_count_line(b"rows ", progress.rows, out)
}

/// Prints how far the run of a ledger is, in three lines: `done N`, `waiting N` and `rows N`, the jobs that are done,
/// those that wait, and the rows that are recorded; and answers the last number. All is read before anything is
/// written, and no image is new, whatever the answer.
pub fn status<D: Disk, O: Sink>(
    alloc: Global,
    disk: &mut D,
    out: &mut O,
    limit: u64,
) -> Result<u64, StatusStop>
    requires { limit ≤ 2 ^ 40 }
    ensures leaves { LeavesOnly D.moment D.since disk.old disk.new (D.images disk.old) }
    ensures done { IfOk result (λ rows. Told (D.seen disk.old) (λ f. (p : Numbers) × IsProgressOf p f × (rows ≡ p.rows)
        × Appends (O.written out.old) (O.written out.new) (progress_text p))) }
    ensures part { IsErrOf result StatusStop.WriteFault → Told (D.seen disk.old) (λ f. (p : Numbers) × IsProgressOf p f
        × AppendsPart (O.written out.old) (O.written out.new) (progress_text p)) }
    ensures unwritten { OnErr result (¬ (IsErrOf result StatusStop.WriteFault) → out.new ≡ out.old) }
    ensures none { IsErrOf result StatusStop.NoRun → Told (D.seen disk.old) HasNoRun }
    ensures bad { (place : ℕ) → IsErrOf result (StatusStop.BadLedger place)
        → Told (D.seen disk.old) (IsBadLedger place) }
    ensures disk_cause { RisesAt StatusStop.DiskFault (D.faults disk.old) (D.faults disk.new) result }
    ensures sink_cause { RisesAt StatusStop.WriteFault (O.faults out.old) (O.faults out.new) result }
{
    let progress = read_progress(alloc, disk, limit)?;
    match write_progress(&progress, out) {
        Ok(()) => Ok(progress.rows),
        Err(WriteFault) => Err(StatusStop::WriteFault),
    }
}
