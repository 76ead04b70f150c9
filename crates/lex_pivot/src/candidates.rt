//! Rows that may leave in a column.
use poly_model::Label;

/// A row outside the cobasis that is negative in a column, its place among the rows of cells, and minus its entry there, in
/// the type that the cells have: a machine number where all are words.
#[derive(Clone, Copy)]
pub struct Candidate<T> {
    pub row: Label,
    pub place: usize,
    pub over: T,
}

/// Two rows that may leave in a column.
#[derive(Clone, Copy)]
pub struct Pair<T> {
    pub one: Candidate<T>,
    pub other: Candidate<T>,
}
