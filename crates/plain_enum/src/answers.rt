//! What the lister answers.
use poly_model::Overflow;

/// Why a listing was given up. What was written by then is left as it is.
#[derive(Clone, Copy, PartialEq, Eq, Debug)]
pub enum PlainStop {
    Overflow(Overflow),
    WriteFault,
    Memory,
}

/// Why it was not found out whether a file is feasible: a number of a dictionary would pass 127 bits, or there was no
/// memory for the dictionaries.
#[derive(Clone, Copy, PartialEq, Eq, Debug)]
pub enum FeasibleStop {
    Overflow(Overflow),
    Memory,
}
