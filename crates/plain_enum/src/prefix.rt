//! Where a search stands.
use dictionary::Dict;
use poly_model::{FreeColumns, Overflow, System};

/// A prefix of the rows of a system: those before the label `from`, of which exactly the ones in the cobasis of `at`
/// are taken, beside the labels that are fixed there: linear rows, and coordinates that are free. `free` are the free
/// columns, ascending.
#[derive(Clone, Copy)]
pub struct Prefix<'a> {
    pub sys: &'a System,
    pub free: &'a FreeColumns,
    pub dict: &'a Dict,
    pub from: u32,
}

/// Why a search ended before its end: a number of a dictionary would pass 127 bits, or it was stopped by what is done
/// with what it finds.
#[derive(Drop)]
pub enum Ended<E> {
    Overflow(Overflow),
    Stopped(E),
}
