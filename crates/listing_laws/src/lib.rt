//! Laws of the listing of a cone's corners by ascending lists of rows: each is the contract of a function with an
//! empty body.
//!
//! What is stated stands in `specs/`; the crates above cite the lemmas of `proofs/`.
#![tactic(auto)]

ghost use Rattle.listing_laws.specs.ConeLaws.{FirstBasisIsBase, NothingIsBase, ConeIsListable, ExtremeIsShownCorner};
ghost use Rattle.listing_laws.specs.ConeLaws.{ListableConesArePointed, WholeListing};
ghost use Rattle.listing_laws.specs.ConeLaws.{FeasibleByCorners, FeasibleByListing, FeasibleFileByListing};
ghost use Rattle.listing_laws.specs.PrefixLaws.{EachHasOneList, ListIsFull, FollowingIsSkipped, NewIsTakenOrNot, NotBoth};
ghost use Rattle.listing_laws.specs.PrefixLaws.{TakenGrows, TakenStays, NextRowHasNextLabel, LabelsAscend};
ghost use Rattle.listing_laws.specs.PrefixLaws.{LoopBegins, LoopSkips, LoopTakes, LoopEnds};
ghost use Rattle.listing_laws.specs.PrefixLaws.{PrefixHasList, LoopStops, LoopStopsWithin};
ghost use Rattle.listing_laws.specs.ShowLaws.{UnderIsTested, NothingIfItFails, OneIfItPasses, NothingIfNeither};

/// Each system has a cone that is listed: over the first basis of its fixed rows, or over nothing where no row is
/// fixed.
pub fn base()
    ensures first { FirstBasisIsBase }
    ensures nothing { NothingIsBase }
{}

/// The cone of a system holds no line, so that no vector but zero is in it with its opposite; and its shown corners
/// are the extreme vectors.
pub fn cone_of_system()
    ensures listable { ConeIsListable }
    ensures opposite { ListableConesArePointed }
    ensures corners { ExtremeIsShownCorner }
{}

/// Each corner has one list of rows, and the next row of a prefix is in it or is not.
pub fn prefixes()
    ensures one { EachHasOneList }
    ensures full { ListIsFull }
    ensures skipped { FollowingIsSkipped }
    ensures splits { NewIsTakenOrNot }
    ensures apart { NotBoth }
    ensures grows { TakenGrows }
    ensures stays { TakenStays }
    ensures next { NextRowHasNextLabel }
    ensures labels { LabelsAscend }
{}

/// What is listed under a prefix, row by row.
pub fn loop_over_rows()
    ensures begins { LoopBegins }
    ensures skips { LoopSkips }
    ensures takes { LoopTakes }
    ensures ends { LoopEnds }
{}

/// What is under a prefix is a list, and what a loop has listed when it stops is the beginning of it.
pub fn loop_that_stops()
    ensures list { PrefixHasList }
    ensures stops { LoopStops }
    ensures within { LoopStopsWithin }
{}

/// Where one direction is left, the local test and the two primitive vectors along it say what is shown.
pub fn where_one_is_left()
    ensures tested { UnderIsTested }
    ensures fails { NothingIfItFails }
    ensures one { OneIfItPasses }
    ensures neither { NothingIfNeither }
{}

/// What is under the empty prefix, each once, is the listing of the system.
pub fn listing()
    ensures { WholeListing }
{}

/// An H file is feasible exactly where some shown corner, or some vector of its listing, has a positive first entry.
/// Of a system that need not be a file's it is asked that the row at infinity follows from its rows.
pub fn feasible()
    ensures corners { FeasibleByCorners }
    ensures system { FeasibleByListing }
    ensures file { FeasibleFileByListing }
{}
