//! Why there is no listing.
use poly_model::Overflow;

/// Why a file was not listed, or its listing given up: no point satisfies it, a number of a dictionary would pass 127
/// bits, a write failed, or there was no memory. What was written by then is left as it is; of a file without a point it
/// is nothing.
#[derive(Clone, Copy, PartialEq, Eq, Debug)]
pub enum ListStop {
    Infeasible,
    Overflow(Overflow),
    WriteFault,
    Memory,
}
