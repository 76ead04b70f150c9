//! `resume`: goes on from a ledger, and writes the listing of the polyhedron that it searches.
ghost use Rattle.std.specs.Prelude.{◌≡◌};
ghost use Rattle.coordinator.specs.Calls.{AreTerms};
ghost use Rattle.lrs_cli.specs.Ledgers.{DiskRose, RoseAt, resources};
ghost use Rattle.lrs_cli.specs.Resume.{AnswersResume, GoesOn};

use crate::devices::LedgerCall;
use crate::status::Status;
use crate::through::ended;
use buffered_sink::{Base, Buffered};
use coordinator::{ResumeStop, resume};
use disk_core::Disk;
use poly_io::{Failed, Sink};
use std::marker::Brand;
use workers_io::Workers;

/// Attaches a ledger, goes on from its records and prints the listing of what they search, in large pieces; gives the sink back.
pub fn resume_through<O: Sink, D: Disk, W: Workers>(
    call: &LedgerCall,
    disk: &mut D,
    workers: &mut W,
    out: O,
) -> (Status, O)
    requires terms { AreTerms call.now.terms }
    ensures { AnswersResume D.Disk W.Workers call.now.terms.options call.now.terms.limit
        (resources disk.old workers.old) (resources disk.new workers.new) (O.written out) (O.written result.1) (O.faults out) (O.faults result.1)
        (result.1 ≡ out) result.0 }
{
    match disk.attach(call.ledger) {
        Ok(()) => resume_over::<Brand, O, D, W>(call, disk, workers, out),
        Err(Failed) => (Status::DiskFault, out),
    }
}

// Goes on with the run, of a ledger that is attached. The base is what the sink has written at this call.
fn resume_over<B: Base, O: Sink, D: Disk, W: Workers>(
    call: &LedgerCall,
    disk: &mut D,
    workers: &mut W,
    out: O,
) -> (Status, O)
    requires base { B.base ≡ O.written out }
    requires terms { AreTerms call.now.terms }
    ensures goes_on { GoesOn D.Disk W.Workers call.now.terms.options call.now.terms.limit
        (resources disk.old workers.old) (resources disk.new workers.new) (O.written out) (O.written result.1)
        (result.1 ≡ out) result.0 }
    ensures writes { RoseAt Status.WriteFault result.0 (O.faults out) (O.faults result.1) }
    ensures disk_calls { DiskRose result.0 (D.faults disk.old) (D.faults disk.new) }
{
    let mut sink = Buffered::<B, O>::new(out);
    let status = resume_attached(call, disk, workers, &mut sink);
    let (out, end) = sink.finish();
    (ended(status, end), out)
}

// Goes on from the records of a ledger that is attached.
fn resume_attached<O: Sink, D: Disk, W: Workers>(
    call: &LedgerCall,
    disk: &mut D,
    workers: &mut W,
    out: &mut O,
) -> Status
    requires terms { AreTerms call.now.terms }
    ensures goes_on { GoesOn D.Disk W.Workers call.now.terms.options call.now.terms.limit
        (resources disk.old workers.old) (resources disk.new workers.new) (O.written out.old) (O.written out.new)
        (out.new ≡ out.old) result }
    ensures writes { RoseAt Status.WriteFault result (O.faults out.old) (O.faults out.new) }
    ensures disk_calls { RoseAt Status.DiskFault result (D.faults disk.old) (D.faults disk.new) }
{
    match resume(&call.terms, disk, workers, out) {
        Ok(listed) => Status::Done {
            rows: listed.rows,
            lines: listed.lines,
        },
        Err(ResumeStop::NoRun) => Status::NoRun,
        Err(ResumeStop::BadLedger { place }) => Status::BadLedger { place },
        Err(ResumeStop::Infeasible) => Status::Infeasible,
        Err(ResumeStop::LedgerLimit { need, limit }) => Status::LedgerLimit { need, limit },
        Err(ResumeStop::Overflow(overflow)) => Status::Overflow(overflow),
        Err(ResumeStop::Lost { lost, strays }) => Status::Lost { lost, strays },
        Err(ResumeStop::DiskFault) => Status::DiskFault,
        Err(ResumeStop::WriteFault) => Status::WriteFault,
        Err(ResumeStop::Memory) => Status::OutOfMemory,
    }
}
