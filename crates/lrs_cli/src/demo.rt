//! `demo`: writes the totals of the listing of an example to the output.
ghost use Rattle.std.specs.Prelude.{◌≡◌, ◌≤◌};
ghost use Rattle.poly_io.specs.Written.{Prints};
ghost use Rattle.poly_model.specs.Extreme.{IsFeasible};
ghost use Rattle.poly_model.specs.Systems.{cone_of};
ghost use Rattle.example_polys.specs.Examples.{example_of};
ghost use Rattle.lrs_cli.specs.Demo.{AnswersDemo, totals_text};

use crate::counts::{CountBehind, write_counts};
use crate::status::Status;
use convert_core::{SearchStop, Totals, totals_of};
use example_polys::{ExampleKind, example};
use poly_io::{Sink, WriteFault};
use poly_model::Poly;
use std::alloc::Global;

/// Prints the numbers of rows and of lines of the listing of an example, and the sum of the sizes of all entries of its
/// shown vectors. Reads nothing, and gives the output back.
pub fn demo<O: Sink>(alloc: Global, kind: ExampleKind, n: u32, out: O) -> (Status, O)
    requires range { n ≤ 20 }
    ensures line { result.0 ≡ Status.Usage → ⊥ }
    ensures answers { AnswersDemo (example_of kind n) (O.written out) (O.written result.1) (O.faults out)
        (O.faults result.1) (result.1 ≡ out) result.0 }
{
    match example(alloc, kind, n) {
        Ok(poly) => {
            let mut out = out;
            let status = print_totals(alloc, &poly, &mut out);
            (status, out)
        }
        Err(_) => (Status::OutOfMemory, out),
    }
}

// Prints what the listing of a polyhedron comes to, which has a point.
fn print_totals<O: Sink>(alloc: Global, poly: &Poly, out: &mut O) -> Status
    requires point { IsFeasible (cone_of poly.now) }
    ensures line { result ≡ Status.Usage → ⊥ }
    ensures answers { AnswersDemo poly.now (O.written out.old) (O.written out.new) (O.faults out.old) (O.faults out.new)
        (out.new ≡ out.old) result }
{
    let totals = match totals_of(alloc, poly) {
        Ok(totals) => totals,
        Err(SearchStop::Infeasible) => unreachable!(),
        Err(SearchStop::Overflow(overflow)) => return Status::Overflow(overflow),
        Err(SearchStop::Memory) => return Status::OutOfMemory,
    };
    match write_totals(totals, out) {
        Ok(()) => Status::Done {
            rows: totals.rows,
            lines: totals.lines,
        },
        Err(WriteFault) => Status::WriteFault,
    }
}

// Writes the three lines of the totals.
fn write_totals<O: Sink>(totals: Totals, out: &mut O) -> Result<(), WriteFault>
    ensures { Prints O.Sink out.old out.new result (totals_text totals) }
{
    write_counts(
        &[
            CountBehind(b"rows ", totals.rows),
            CountBehind(b"\nlines ", totals.lines as u64),
            CountBehind(b"\nsum ", totals.sum),
        ],
        b"\n",
        out,
    )
}
