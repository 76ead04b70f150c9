//! A product that exact arithmetic of 127 bits cannot hold.
use crate::{Key, Label};

/// Which dictionaries are meant: that of the whole cone, or one of those of the search.
#[derive(Clone, Copy, PartialEq, Eq, Debug)]
pub enum Phase {
    /// The whole cone, over all coordinates.
    Cone,
    /// The file's rows, before equations and free columns are divided out.
    Prepare,
    /// What is left to search.
    Main,
    /// The same with the extra variable `t`.
    First,
}

/// A place of a dictionary: a row and a column.
#[derive(Clone, Copy, PartialEq, Eq, Debug)]
pub struct Place {
    pub row: Label,
    pub col: Label,
}

/// Why a pivot was refused. At the dictionary of `key` in `phase`, the product of the entries at `a`
/// and `b`, that of the entries at `c` and `d`, or the difference of the two is greater than
/// `2^127 - 1` in size.
#[derive(Clone, Copy, PartialEq, Eq, Debug)]
pub struct Overflow {
    pub phase: Phase,
    pub key: Key,
    pub a: Place,
    pub b: Place,
    pub c: Place,
    pub d: Place,
}
