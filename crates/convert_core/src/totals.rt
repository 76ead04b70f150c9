//! What the listing of a file comes to, without a listing.
ghost use Rattle.std.specs.Prelude.{◌≡◌, ◌≤◌, ◌<◌, length, IfOk, IsErrOf};
ghost use Rattle.poly_model.specs.declared.overflow.Overflow.{Overflow as Passed};
ghost use Rattle.poly_model.specs.Extreme.{IsFeasible};
ghost use Rattle.poly_model.specs.FreeColumns.{AreLines};
ghost use Rattle.poly_model.specs.Limits.{most_columns};
ghost use Rattle.poly_model.specs.Systems.{cone_of};
ghost use Rattle.convert_core.specs.Searches.{IsSearch, IsAtRoot};
ghost use Rattle.convert_core.specs.Listed.{IsDueInSearch};
ghost use Rattle.convert_core.specs.Totals.{AreTotals};
ghost use Rattle.dictionary.specs.Blanks.{IsBlankOf};

use crate::begin::{SearchStop, begin};
use crate::discard::Discard;
use crate::search::Search;
use crate::walk::{Ended, list_rows};
use dictionary::Steps;
use poly_io::WriteFault;
use poly_model::{Poly, Vector};
use row_printer::{Listing, Shown};
use std::alloc::Global;
use std::marker::Brand;
use std::sync::ledger::{Blank, Ledger};

/// What the listing of a file comes to.
#[derive(Clone, Copy, PartialEq, Eq, Debug)]
pub struct Totals {
    /// How many rows are shown; the number stands still at `2^64 - 1`.
    pub rows: u64,
    /// How many lines, or equations, stand before them.
    pub lines: u32,
    /// The sum of the sizes of all entries of the shown primitive vectors, the first entry of each too, modulo `2^64`.
    pub sum: u64,
}

/// What the listing of a file comes to: goes through the search of `convert`, and keeps nothing of the listing.
///
/// `Infeasible` comes exactly where no point satisfies the file, if no overflow or want of memory came before. An overflow
/// comes only at a pivot that the search cannot do without. Want of memory comes before the walk.
pub fn totals_of(alloc: Global, poly: &Poly) -> Result<Totals, SearchStop>
    ensures totals { IfOk result (AreTotals poly.now) }
    ensures infeasible { IsErrOf result SearchStop.Infeasible → IsFeasible (cone_of poly.now) → ⊥ }
    ensures overflow { (o : Passed) → IsErrOf result (SearchStop.Overflow o) → IsDueInSearch poly.now o }
{
    totals_counted::<Brand>(alloc, poly, Blank::new(1))
}

// The same with a blank for a counter of pivots, of which nothing is said.
fn totals_counted<L: Ledger>(alloc: Global, poly: &Poly, blank: Blank) -> Result<Totals, SearchStop>
    requires blank { IsBlankOf blank.name blank.parts L.name L.parts }
    ensures totals { IfOk result (AreTotals poly.now) }
    ensures infeasible { IsErrOf result SearchStop.Infeasible → IsFeasible (cone_of poly.now) → ⊥ }
    ensures overflow { (o : Passed) → IsErrOf result (SearchStop.Overflow o) → IsDueInSearch poly.now o }
{
    match begin(alloc, poly) {
        Ok((search, lines)) => {
            let mut search = search;
            add_up(&mut search, lines.as_slice(), &mut Steps::<L>::new(blank))
        }
        Err(stop) => Err(stop),
    }
}

// The totals of a file with these lines, from the root of its search.
fn add_up<L: Ledger>(
    search: &mut Search,
    lines: &[Vector],
    steps: &mut Steps<L>,
) -> Result<Totals, SearchStop>
    requires search { IsSearch search.old.poly.now search.old.cone search.old.rays search.old.walker
        search.old.vector.items }
    requires at_root { IsAtRoot search.old.poly.now search.old.walker }
    requires lines { AreLines (cone_of search.old.poly.now) lines.now }
    requires few { length lines.now ≤ most_columns }
    ensures totals { IfOk result (AreTotals search.old.poly.now) }
    ensures infeasible { IsErrOf result SearchStop.Infeasible → ⊥ }
    ensures overflow { (o : Passed) → IsErrOf result (SearchStop.Overflow o) → IsDueInSearch search.old.poly.now o }
{
    let mut out = Discard;
    let listing = match Listing::begin(&mut out, search.poly.kind(), search.poly.n(), lines) {
        Ok(listing) => listing,
        Err(WriteFault) => unreachable!(),
    };
    match list_rows(search, Shown::none(listing), &mut out, steps) {
        Ok(shown) => Ok(Totals {
            rows: shown.tally.rows,
            lines: lines.len() as u32,
            sum: shown.tally.sum,
        }),
        Err(Ended::Overflow(overflow)) => Err(SearchStop::Overflow(overflow)),
        Err(Ended::WriteFault) => unreachable!(),
    }
}
