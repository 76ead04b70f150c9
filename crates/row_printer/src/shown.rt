//! Rows of a listing, counted as they are written.
ghost use Rattle.std.specs.Prelude.{◌≡◌, ◌∷◌, [], IfOk};
ghost use Rattle.poly_io.specs.Written.{Prints};
ghost use Rattle.poly_model.specs.ListingText.{row_text};
ghost use Rattle.row_printer.specs.Rows.{Counts};

use crate::listing::Listing;
use crate::tally::Tally;
use poly_io::{Sink, WriteFault};
use poly_num::Num;

/// A listing on its way, and the count of its rows.
#[derive(Drop)]
pub struct Shown {
    pub listing: Listing,
    pub tally: Tally,
}

impl Shown {
    /// A listing without rows.
    pub fn none(listing: Listing) -> Shown
        ensures listing { result.listing ≡ listing }
        ensures rows { result.tally.rows ≡ 0 }
        ensures sum { result.tally.sum ≡ 0 }
    {
        Shown {
            listing,
            tally: Tally::none(),
        }
    }

    /// Writes a row, and counts it.
    pub fn row<S: Sink>(self, out: &mut S, v: &[Num]) -> Result<Shown, WriteFault>
        ensures prints { Prints S.Sink out.old out.new result (row_text self.listing v.now) }
        ensures kind { IfOk result (λ s. s.listing ≡ self.listing) }
        ensures count { IfOk result (λ s. Counts self.tally s.tally (v.now ∷ [])) }
    {
        let Shown { listing, tally } = self;
        let listing = listing.row(out, v)?;
        Ok(Shown {
            listing,
            tally: tally.with_row(v),
        })
    }
}
