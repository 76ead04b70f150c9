//! What lrs prints, lrs reads: the text of a listing is read back as the polyhedron of its rows.
//!
//! Each law is the contract of a function with an empty body, and is about every listing within the limits of a file.
#![tactic(auto)]

ghost use Rattle.text_laws.specs.TextLaws.{FeasibleIsReadBack, ListingHasRows, ListingIsReadBack, RowsAreReadBack};

/// The text of lines and shown vectors is a file of the other kind, whose linear rows are the lines and whose other
/// rows are the shown vectors, entry for entry.
pub fn rows()
    ensures { RowsAreReadBack }
{}

/// The lines and the shown vectors of a polyhedron's listing can be such rows, so the listing is read back.
pub fn listing()
    ensures rows { ListingHasRows }
    ensures read { ListingIsReadBack }
    ensures feasible { FeasibleIsReadBack }
{}
