//! `status`: writes to the output how far the run of a ledger is.
ghost use Rattle.std.specs.Prelude.{◌≡◌};
ghost use Rattle.lrs_cli.specs.Progress.{AnswersStatus};

use crate::devices::MOST_LEDGER_BYTES;
use crate::status::Status;
use disk_core::Disk;
use poly_io::{Failed, Sink};
use run_ledger::{StatusStop, status};
use std::alloc::Global;

/// Prints how many jobs of the run of a ledger are done, how many wait, and how many rows are recorded, in three lines; gives
/// the sink back. It writes nothing to the disk.
pub fn progress<O: Sink, D: Disk>(alloc: Global, ledger: &str, disk: &mut D, out: O) -> (Status, O)
    ensures { AnswersStatus D.Disk disk.old disk.new (O.written out) (O.written result.1) (O.faults out) (O.faults result.1)
        (result.1 ≡ out) result.0 }
{
    let mut out = out;
    match disk.attach(ledger) {
        Ok(()) => {
            let status = progress_of(alloc, disk, &mut out);
            (status, out)
        }
        Err(Failed) => (Status::DiskFault, out),
    }
}

// Prints how far the run is, of a ledger that is attached.
fn progress_of<O: Sink, D: Disk>(alloc: Global, disk: &mut D, out: &mut O) -> Status
    ensures { AnswersStatus D.Disk disk.old disk.new (O.written out.old) (O.written out.new) (O.faults out.old)
        (O.faults out.new) (out.new ≡ out.old) result }
{
    match status(alloc, disk, out, MOST_LEDGER_BYTES) {
        Ok(rows) => Status::Done { rows, lines: 0 },
        Err(StatusStop::NoRun) => Status::NoRun,
        Err(StatusStop::BadLedger { place }) => Status::BadLedger { place },
        Err(StatusStop::DiskFault) => Status::DiskFault,
        Err(StatusStop::WriteFault) => Status::WriteFault,
        Err(StatusStop::Memory) => Status::OutOfMemory,
    }
}
