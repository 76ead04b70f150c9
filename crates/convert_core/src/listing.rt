//! The listing of a file.
ghost use Rattle.std.specs.Prelude.{◌≡◌, ◌≤◌, ◌<◌, length, IsErrOf};
ghost use Rattle.poly_model.specs.declared.overflow.Overflow.{Overflow as Passed};
ghost use Rattle.poly_model.specs.Due.{IsDue, IsAskedInMain};
ghost use Rattle.poly_model.specs.FreeColumns.{AreLines};
ghost use Rattle.poly_model.specs.Limits.{most_columns};
ghost use Rattle.poly_model.specs.Systems.{cone_of};
ghost use Rattle.poly_io.specs.Causes.{RisesAt};
ghost use Rattle.row_printer.specs.Listings.{WritesListing, ListsIfFeasible};
ghost use Rattle.convert_core.specs.Searches.{IsSearch, IsAtRoot};
ghost use Rattle.convert_core.specs.Listed.{IsDueInSearch, TakesSteps};
ghost use Rattle.dictionary.specs.Blanks.{IsBlankOf};

use crate::begin::{SearchStop, begin};
use crate::search::Search;
use crate::walk::{Ended, list_rows};
use dictionary::Steps;
use poly_io::{Sink, WriteFault};
use poly_model::{Listed, Poly, Vector};
use row_printer::{ListStop, Listing, Shown};
use std::alloc::Global;
use std::marker::Brand;
use std::sync::ledger::{Blank, Ledger};

/// Writes the listing of a file that is feasible: its head, the lines by ascending free column, a row for each extreme
/// vector in the order of a reverse search (Avis and Fukuda 1992), its end. The answer says how many rows and lines it
/// has.
///
/// `Infeasible` comes exactly where no point satisfies the file, if no overflow or want of memory came before; nothing is
/// written then. An overflow comes only at a pivot that the search cannot do without: one of Gauss's elimination, one of
/// phase one, or that of the ratio test at a lexicographically feasible cobasis. Want of memory comes before anything is
/// written. Where the listing stops, what was written is the beginning of one.
///
/// `steps` counts the pivots of the walk: at most two for each lexicographically feasible cobasis, less one.
pub fn convert<S: Sink, L: Ledger>(
    alloc: Global,
    poly: &Poly,
    out: &mut S,
    steps: &mut Steps<L>,
) -> Result<Listed, ListStop>
    ensures listed { ListsIfFeasible poly.now (S.written out.old) (S.written out.new) (out.new ≡ out.old)
        (IsDueInSearch poly.now) result }
    ensures infeasible { IsErrOf result ListStop.Infeasible → out.new ≡ out.old }
    ensures memory { IsErrOf result ListStop.Memory → out.new ≡ out.old }
    ensures cause { RisesAt ListStop.WriteFault (S.faults out.old) (S.faults out.new) result }
    ensures cost { TakesSteps poly.now steps.old steps.new }
{
    match begin(alloc, poly) {
        Ok((search, lines)) => {
            let mut search = search;
            print(&mut search, lines.as_slice(), out, steps)
        }
        Err(SearchStop::Infeasible) => Err(ListStop::Infeasible),
        Err(SearchStop::Overflow(overflow)) => Err(ListStop::Overflow(overflow)),
        Err(SearchStop::Memory) => Err(ListStop::Memory),
    }
}

/// The same with a counter of its own, of which nothing is said.
pub fn list<S: Sink>(alloc: Global, poly: &Poly, out: &mut S) -> Result<Listed, ListStop>
    ensures listed { ListsIfFeasible poly.now (S.written out.old) (S.written out.new) (out.new ≡ out.old)
        (IsDueInSearch poly.now) result }
    ensures infeasible { IsErrOf result ListStop.Infeasible → out.new ≡ out.old }
    ensures memory { IsErrOf result ListStop.Memory → out.new ≡ out.old }
    ensures cause { RisesAt ListStop.WriteFault (S.faults out.old) (S.faults out.new) result }
{
    list_counted::<S, Brand>(alloc, poly, out, Blank::new(1))
}

// The same with a blank for the counter.
fn list_counted<S: Sink, L: Ledger>(
    alloc: Global,
    poly: &Poly,
    out: &mut S,
    blank: Blank,
) -> Result<Listed, ListStop>
    requires blank { IsBlankOf blank.name blank.parts L.name L.parts }
    ensures listed { ListsIfFeasible poly.now (S.written out.old) (S.written out.new) (out.new ≡ out.old)
        (IsDueInSearch poly.now) result }
    ensures infeasible { IsErrOf result ListStop.Infeasible → out.new ≡ out.old }
    ensures memory { IsErrOf result ListStop.Memory → out.new ≡ out.old }
    ensures cause { RisesAt ListStop.WriteFault (S.faults out.old) (S.faults out.new) result }
{
    convert(alloc, poly, out, &mut Steps::<L>::new(blank))
}

// Writes the listing of a file with these lines, from the root of its search.
fn print<S: Sink, L: Ledger>(
    search: &mut Search,
    lines: &[Vector],
    out: &mut S,
    steps: &mut Steps<L>,
) -> Result<Listed, ListStop>
    requires search { IsSearch search.old.poly.now search.old.cone search.old.rays search.old.walker
        search.old.vector.items }
    requires at_root { IsAtRoot search.old.poly.now search.old.walker }
    requires lines { AreLines (cone_of search.old.poly.now) lines.now }
    requires few { length lines.now ≤ most_columns }
    ensures listed { WritesListing search.old.poly.now (S.written out.old) (S.written out.new) result }
    ensures overflow { (o : Passed) → IsErrOf result (ListStop.Overflow o) →
        IsDue search.old.poly.now o (IsAskedInMain search.old.poly.now search.old.walker.root o) }
    ensures infeasible { IsErrOf result ListStop.Infeasible → ⊥ }
    ensures memory { IsErrOf result ListStop.Memory → ⊥ }
    ensures cause { RisesAt ListStop.WriteFault (S.faults out.old) (S.faults out.new) result }
    ensures cost { TakesSteps search.old.poly.now steps.old steps.new }
{
    let listing = match Listing::begin(out, search.poly.kind(), search.poly.n(), lines) {
        Ok(listing) => listing,
        Err(WriteFault) => return Err(ListStop::WriteFault),
    };
    let Shown { listing, tally } = match list_rows(search, Shown::none(listing), out, steps) {
        Ok(shown) => shown,
        Err(Ended::Overflow(overflow)) => return Err(ListStop::Overflow(overflow)),
        Err(Ended::WriteFault) => return Err(ListStop::WriteFault),
    };
    match listing.finish(out) {
        Ok(()) => Ok(Listed {
            rows: tally.rows,
            lines: lines.len() as u32,
        }),
        Err(WriteFault) => Err(ListStop::WriteFault),
    }
}
