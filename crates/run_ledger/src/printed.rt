//! How much of the listing of a run was printed so far.
ghost use Rattle.std.specs.Prelude.{◌<◌, ◌^◌};

use row_printer::Listing;

/// A listing on its way.
#[derive(Drop)]
pub(crate) struct Printed {
    pub listing: Listing,
    /// How many rows it has; the number is saturated at `2^64 - 1`.
    pub rows: u64,
    ghost few: { rows < 2 ^ 64 },
}
