//! The walk, and the rows that are printed on it.
ghost use Rattle.std.specs.Prelude.{◌≡◌, ◌+◌, ◌≤◌, length, IfOk, IfErr, IsErrOf};
ghost use Rattle.poly_io.specs.Causes.{RisesAt};
ghost use Rattle.poly_model.specs.declared.overflow.Overflow.{Overflow as Passed};
ghost use Rattle.poly_model.specs.Due.{IsDue, IsAskedInMain};
ghost use Rattle.convert_core.specs.Rows.{ShowsColumns, columns_of};
ghost use Rattle.convert_core.specs.Searches.{IsSearch, IsAtRoot};
ghost use Rattle.convert_core.specs.Listed.{WritesStep, EndsStep, ListsRows, TakesSteps, ended_by};

use crate::rows::{Basis, show_columns};
use crate::search::Search;
use countdown::Countdown;
use dictionary::{PassingProducts, Steps};
use poly_io::{Sink, WriteFault};
use poly_model::Overflow;
use reverse_step::Visit;
use row_printer::Shown;
use std::sync::ledger::Ledger;

/// Why a walk ended before its end: a number of a dictionary would pass 127 bits, or a row could not be written.
#[derive(Clone, Copy, PartialEq, Eq, Debug)]
pub(crate) enum Ended {
    Overflow(Overflow),
    WriteFault,
}

/// Why a step was not carried out: products of its pivot would pass 127 bits, or a row could not be written.
#[derive(Clone, Copy, PartialEq, Eq, Debug)]
pub(crate) enum StepStop {
    Passing(PassingProducts),
    WriteFault,
}

/// Prints the rows of the extreme vectors, each once, in the order of the walk. Takes no memory.
pub(crate) fn list_rows<S: Sink, L: Ledger>(
    search: &mut Search,
    shown: Shown,
    out: &mut S,
    steps: &mut Steps<L>,
) -> Result<Shown, Ended>
    requires search { IsSearch search.old.poly.now search.old.cone search.old.rays search.old.walker
        search.old.vector.items }
    requires at_root { IsAtRoot search.old.poly.now search.old.walker }
    requires kind { shown.listing ≡ search.old.poly.now.kind }
    ensures rows { ListsRows search.old.poly.now (S.written out.old) (S.written out.new) shown.tally result }
    ensures kind { IfOk result (λ s. s.listing ≡ shown.listing) }
    ensures cause { RisesAt Ended.WriteFault (S.faults out.old) (S.faults out.new) result }
    ensures overflow { (o : Passed) → IsErrOf result (Ended.Overflow o) →
        IsDue search.old.poly.now o (IsAskedInMain search.old.poly.now search.old.walker.root o) }
    ensures cost { TakesSteps search.old.poly.now steps.old steps.new }
{
    let mut shown = match show(search, shown, out) {
        Ok(shown) => shown,
        Err(WriteFault) => return Err(Ended::WriteFault),
    };
    let mut left = Countdown::full();
    'steps: loop {
        left.lower();
        let (visit, next) = match step(search, shown, out, steps) {
            Ok(done) => done,
            Err(stop) => return Err(ended_by(search, stop)),
        };
        shown = next;
        if visit.is_end() {
            return Ok(shown);
        }
    }
}

// One step of the walk; at a new cobasis the rows that are shown there are printed.
fn step<S: Sink, L: Ledger>(
    search: &mut Search,
    shown: Shown,
    out: &mut S,
    steps: &mut Steps<L>,
) -> Result<(Visit, Shown), StepStop>
    requires search { IsSearch search.old.poly.now search.old.cone search.old.rays search.old.walker
        search.old.vector.items }
    ensures step { IfOk result (λ r. WritesStep S.written S.faults search.old.cone search.old.walker r.0 search.new.walker
        shown out.old r.1 out.new) }
    ensures ends { IfErr result (λ e. EndsStep S.written S.faults search.old.cone search.old.walker search.new.walker
        shown out.old out.new (ended_by search.new.walker.dict e)) }
    ensures counted { steps.new ≤ steps.old + 1 }
    ensures poly { search.new.poly.now ≡ search.old.poly.now }
    ensures cone { search.new.cone ≡ search.old.cone }
    ensures rays { search.new.rays ≡ search.old.rays }
    ensures width { length search.new.vector.items ≡ length search.old.vector.items }
{
    match search.walker.next(steps) {
        Ok(Visit::New) => match show(search, shown, out) {
            Ok(next) => Ok((Visit::New, next)),
            Err(WriteFault) => Err(StepStop::WriteFault),
        },
        Ok(Visit::Back) => Ok((Visit::Back, shown)),
        Ok(Visit::End) => Ok((Visit::End, shown)),
        Err(products) => Err(StepStop::Passing(products)),
    }
}

// Why the walk ended, where a step was not carried out: products that pass are those of the dictionary where it stands.
fn ended_by(search: &Search, stop: StepStop) -> Ended
    ensures { result ≡ ended_by search.now.walker.dict stop }
{
    match stop {
        StepStop::Passing(products) => Ended::Overflow(search.walker.dict().overflow(products)),
        StepStop::WriteFault => Ended::WriteFault,
    }
}

// Prints the rows that are shown where the walk stands.
fn show<S: Sink>(search: &mut Search, shown: Shown, out: &mut S) -> Result<Shown, WriteFault>
    requires search { IsSearch search.old.poly.now search.old.cone search.old.rays search.old.walker
        search.old.vector.items }
    ensures shows { ShowsColumns S.written S.faults search.old.cone search.old.walker.root search.old.walker.dict
        (columns_of search.old.walker.dict) shown out.old out.new result }
    ensures poly { search.new.poly.now ≡ search.old.poly.now }
    ensures cone { search.new.cone ≡ search.old.cone }
    ensures rays { search.new.rays ≡ search.old.rays }
    ensures walker { search.new.walker ≡ search.old.walker }
    ensures width { length search.new.vector.items ≡ length search.old.vector.items }
{
    let at = Basis {
        cone: &search.cone,
        rays: search.rays,
        dict: search.walker.dict(),
        order: search.walker.order(),
        leads: search.walker.leads(),
    };
    show_columns(&at, &mut search.vector, shown, out)
}
