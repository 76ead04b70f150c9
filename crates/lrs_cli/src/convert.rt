//! `convert`: reads a file from the input, and writes its listing to the output.
ghost use Rattle.std.specs.Prelude.{◌≡◌, ◌⊎◌, ◌+◌, ℕ};
ghost use Rattle.poly_io.specs.Causes.{Rose};
ghost use Rattle.poly_io.specs.Taken.{TakesAtMost};
ghost use Rattle.poly_model.specs.declared.overflow.Overflow.{Overflow as Passed};
ghost use Rattle.poly_model.specs.Systems.{cone_of};
ghost use Rattle.poly_model.specs.Extreme.{IsFeasible};
ghost use Rattle.poly_reader.specs.Limits.{most_file_bytes};
ghost use Rattle.convert_core.specs.Listed.{IsDueInSearch};
ghost use Rattle.lrs_cli.specs.Answers.{WritesWhole, WritesPart, ComesOfPolyhedron, StopsListing, WritesNothing};
ghost use Rattle.lrs_cli.specs.Convert.{AnswersConvert};
ghost use Rattle.lrs_cli.specs.Streams.{streams_at};

use crate::status::Status;
use convert_core::list;
use poly_io::{Sink, Source};
use poly_model::Poly;
use poly_reader::{ReadStop, read_poly};
use row_printer::ListStop;
use std::alloc::Global;

/// Reads a file to its end and prints its listing.
pub fn convert<I: Source, O: Sink>(alloc: Global, input: &mut I, out: &mut O) -> Status
    ensures line { result ≡ Status.Usage → ⊥ }
    ensures answers { AnswersConvert
        (streams_at I.Source O.Sink input.old out.old) (streams_at I.Source O.Sink input.new out.new)
        (out.new ≡ out.old) result }
    ensures taken { TakesAtMost (I.left input.old) (I.left input.new) (most_file_bytes + 1) }
{
    match read_poly(alloc, input) {
        Ok(poly) => print_listing(alloc, &poly, out),
        Err(ReadStop::Fault) => Status::ReadFault,
        Err(ReadStop::Bad(f)) => Status::BadFile(f),
        Err(ReadStop::Memory) => Status::OutOfMemory,
    }
}

// Prints the listing of a polyhedron, once it is known that it has a point.
fn print_listing<O: Sink>(alloc: Global, poly: &Poly, out: &mut O) -> Status
    ensures lists { ComesOfPolyhedron result }
    ensures done { (rows lines : ℕ) → result ≡ Status.Done rows lines →
        WritesWhole (O.written out.old) (O.written out.new) rows lines poly.now }
    ensures infeasible { result ≡ Status.Infeasible → IsFeasible (cone_of poly.now) → ⊥ }
    ensures overflow { (o : Passed) → result ≡ Status.Overflow o → IsDueInSearch poly.now o }
    ensures stopped { StopsListing result → WritesPart (O.written out.old) (O.written out.new) poly.now }
    ensures printed { StopsListing result → (out.new ≡ out.old) ⊎ IsFeasible (cone_of poly.now) }
    ensures write_fault { result ≡ Status.WriteFault → Rose (O.faults out.old) (O.faults out.new) }
    ensures writes { ¬ (result ≡ Status.WriteFault) → O.faults out.new ≡ O.faults out.old }
    ensures unwritten { WritesNothing result → out.new ≡ out.old }
{
    match list(alloc, poly, out) {
        Ok(listed) => Status::Done {
            rows: listed.rows,
            lines: listed.lines,
        },
        Err(ListStop::Infeasible) => Status::Infeasible,
        Err(ListStop::Overflow(overflow)) => Status::Overflow(overflow),
        Err(ListStop::WriteFault) => Status::WriteFault,
        Err(ListStop::Memory) => Status::OutOfMemory,
    }
}
