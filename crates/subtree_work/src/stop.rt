//! Why the work was not made.
use poly_model::Overflow;

/// Why the work was not made.
#[derive(Clone, Copy, PartialEq, Eq, Debug)]
pub enum SubtreeStop {
    /// The equations have no common point, or the root is no feasible cobasis of rows.
    BadRoot,
    /// A number of a dictionary would pass 127 bits.
    Overflow(Overflow),
    /// There is no memory.
    Memory,
}
