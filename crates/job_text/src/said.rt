//! What a line of a reply says.
use crate::Tail;
use poly_model::Key;

/// What a line behind a reply's head says, where it fits.
#[derive(Clone, Copy, PartialEq, Eq, Debug)]
pub(crate) enum Fit {
    /// It does not fit.
    No,
    /// It shows the row that was read into place.
    Row,
    /// It gives a key back.
    Job(Key),
    /// It is a last line.
    Last(Tail),
}
