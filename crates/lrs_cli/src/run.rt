//! `run`: reads a file from the input, has workers find its listing, and records their replies in a new ledger.
ghost use Rattle.std.specs.Prelude.{◌≡◌, ◌⊎◌, ◌+◌};
ghost use Rattle.poly_io.specs.Taken.{TakesAtMost};
ghost use Rattle.poly_reader.specs.Limits.{most_file_bytes};
ghost use Rattle.coordinator.specs.Calls.{AreTerms};
ghost use Rattle.poly_reader.specs.Reading.{IsOfItsText};
ghost use Rattle.run_ledger.specs.Recorded.{search_in};
ghost use Rattle.work_core.specs.Searches.{Search as Searched};
ghost use Rattle.lrs_cli.specs.Ledgers.{RoseAt, resources};
ghost use Rattle.lrs_cli.specs.Run.{AnswersRun, MaySearch, RefusesPolyhedron, RunsFile, RunsSearch};
ghost use Rattle.lrs_cli.specs.Streams.{streams_at};

use crate::devices::{Devices, LedgerCall};
use crate::status::Status;
use crate::through::ended;
use buffered_sink::{Base, Buffered};
use convert_core::{SearchStop, search_root};
use coordinator::{RunStop, run};
use disk_core::Disk;
use job_text::FirstPayload;
use poly_io::{Failed, Sink, Source};
use poly_model::{Poly, WorkKind};
use poly_reader::{ReadStop, read_poly};
use std::marker::Brand;
use workers_io::Workers;

/// Reads a file to its end, has its search run by workers, each accepted reply recorded in a new ledger, and prints the listing
/// from there, in large pieces; gives the sink back.
pub fn run_through<I: Source, O: Sink, D: Disk, W: Workers>(
    call: &LedgerCall,
    devices: &mut Devices<I, D, W>,
    out: O,
) -> (Status, O)
    requires terms { AreTerms call.now.terms }
    ensures answers { AnswersRun D.Disk W.Workers call.now.terms.options call.now.terms.limit
        (resources devices.old.disk devices.old.workers) (resources devices.new.disk devices.new.workers)
        (streams_at I.Source O.Sink devices.old.input out) (streams_at I.Source O.Sink devices.new.input result.1)
        (result.1 ≡ out) result.0 }
    ensures taken { TakesAtMost (I.left devices.old.input) (I.left devices.new.input) (most_file_bytes + 1) }
{
    run_over::<Brand, I, O, D, W>(call, devices, out)
}

// The base is what the sink has written at this call.
fn run_over<B: Base, I: Source, O: Sink, D: Disk, W: Workers>(
    call: &LedgerCall,
    devices: &mut Devices<I, D, W>,
    out: O,
) -> (Status, O)
    requires base { B.base ≡ O.written out }
    requires terms { AreTerms call.now.terms }
    ensures runs { RunsFile D.Disk W.Workers call.now.terms.options call.now.terms.limit
        (resources devices.old.disk devices.old.workers) (resources devices.new.disk devices.new.workers)
        (streams_at I.Source O.Sink devices.old.input out) (streams_at I.Source O.Sink devices.new.input result.1)
        (result.1 ≡ out) result.0 }
    ensures taken { TakesAtMost (I.left devices.old.input) (I.left devices.new.input) (most_file_bytes + 1) }
{
    let mut sink = Buffered::<B, O>::new(out);
    let status = run_file(call, devices, &mut sink);
    let (out, end) = sink.finish();
    (ended(status, end), out)
}

// Reads the file, and runs its search.
fn run_file<I: Source, O: Sink, D: Disk, W: Workers>(
    call: &LedgerCall,
    devices: &mut Devices<I, D, W>,
    out: &mut O,
) -> Status
    requires terms { AreTerms call.now.terms }
    ensures runs { RunsFile D.Disk W.Workers call.now.terms.options call.now.terms.limit
        (resources devices.old.disk devices.old.workers) (resources devices.new.disk devices.new.workers)
        (streams_at I.Source O.Sink devices.old.input out.old) (streams_at I.Source O.Sink devices.new.input out.new)
        (out.new ≡ out.old) result }
    ensures taken { TakesAtMost (I.left devices.old.input) (I.left devices.new.input) (most_file_bytes + 1) }
{
    match read_poly(call.terms.alloc, &mut devices.input) {
        Ok(poly) => run_poly(call, poly, &mut devices.disk, &mut devices.workers, out),
        Err(ReadStop::Fault) => Status::ReadFault,
        Err(ReadStop::Bad(f)) => Status::BadFile(f),
        Err(ReadStop::Memory) => Status::OutOfMemory,
    }
}

// Runs the search of a polyhedron, by subtrees from the root that phase one gives, in the ledger, which is attached first.
fn run_poly<O: Sink, D: Disk, W: Workers>(
    call: &LedgerCall,
    poly: Poly,
    disk: &mut D,
    workers: &mut W,
    out: &mut O,
) -> Status
    requires terms { AreTerms call.now.terms }
    requires file { IsOfItsText poly }
    ensures runs { (RefusesPolyhedron poly result × (disk.new ≡ disk.old) × (workers.new ≡ workers.old) × (out.new ≡ out.old))
        ⊎ ((s : Searched) × MaySearch s × (s.polyhedron ≡ poly) × RunsSearch D.Disk W.Workers call.now.terms.options call.now.terms.limit s
        (resources disk.old workers.old) (resources disk.new workers.new) (O.written out.old) (O.written out.new)
        (out.new ≡ out.old) result) }
    ensures writes { RoseAt Status.WriteFault result (O.faults out.old) (O.faults out.new) }
    ensures disk_calls { RoseAt Status.DiskFault result (D.faults disk.old) (D.faults disk.new) }
{
    match search_root(call.terms.alloc, &poly) {
        Ok(root) => {
            let first = FirstPayload {
                work: WorkKind::Subtrees,
                root,
                poly,
            };
            match disk.attach(call.ledger) {
                Ok(()) => run_attached(call, first, disk, workers, out),
                Err(Failed) => Status::DiskFault,
            }
        }
        Err(SearchStop::Infeasible) => Status::Infeasible,
        Err(SearchStop::Overflow(overflow)) => Status::Overflow(overflow),
        Err(SearchStop::Memory) => Status::OutOfMemory,
    }
}

// Runs a search in a ledger that is attached.
fn run_attached<O: Sink, D: Disk, W: Workers>(
    call: &LedgerCall,
    first: FirstPayload,
    disk: &mut D,
    workers: &mut W,
    out: &mut O,
) -> Status
    requires terms { AreTerms call.now.terms }
    requires may { MaySearch (search_in first) }
    ensures runs { RunsSearch D.Disk W.Workers call.now.terms.options call.now.terms.limit (search_in first)
        (resources disk.old workers.old) (resources disk.new workers.new) (O.written out.old) (O.written out.new)
        (out.new ≡ out.old) result }
    ensures writes { RoseAt Status.WriteFault result (O.faults out.old) (O.faults out.new) }
    ensures disk_calls { RoseAt Status.DiskFault result (D.faults disk.old) (D.faults disk.new) }
{
    match run(&call.terms, first, disk, workers, out) {
        Ok(listed) => Status::Done {
            rows: listed.rows,
            lines: listed.lines,
        },
        Err(RunStop::HasRun) => Status::HasRun,
        Err(RunStop::BadLedger { place }) => Status::BadLedger { place },
        Err(RunStop::LedgerLimit { need, limit }) => Status::LedgerLimit { need, limit },
        Err(RunStop::Overflow(overflow)) => Status::Overflow(overflow),
        Err(RunStop::Lost { lost, strays }) => Status::Lost { lost, strays },
        Err(RunStop::DiskFault) => Status::DiskFault,
        Err(RunStop::WriteFault) => Status::WriteFault,
        Err(RunStop::Memory) => Status::OutOfMemory,
    }
}
