//! Why phase one gives no root.
use poly_model::Overflow;

/// Why phase one gives no root: no point satisfies the file, a number of a dictionary would pass 127 bits, or there was no
/// memory.
#[derive(Clone, Copy, PartialEq, Eq, Debug)]
pub enum FirstStop {
    Infeasible,
    Overflow(Overflow),
    Memory,
}
