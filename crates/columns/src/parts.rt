//! What an exchange takes, and what its new cells are over.
use crate::exchange::Exchange;
use crate::multiplier::WideDivisor;
use crate::size::Size;
use poly_num::Num;
use words::{Word, WordDivisor};

/// The common factor of the denominator and of the exchange's row and column, the sign of the pivot's cell, and with
/// that sign over the factor the pivot's cell (`p`) and the denominator (`u`).
#[derive(Clone, Copy)]
pub struct Factors {
    pub p: Num,
    pub u: Num,
    pub sign: Num,
    pub common: Num,
}

/// What the new cells are made of, beside the cells of the table: the factors of the exchange, two of them as the type
/// that the cells have; its column over the common factor with the sign; the size that the cells and that column are
/// known to have; and a limit that no size in that column passes, which says nothing of wide numbers.
#[derive(Clone, Copy)]
pub struct Parts<'a, T> {
    pub x: &'a Exchange,
    pub factors: &'a Factors,
    pub own: &'a [T],
    pub p: T,
    pub u: T,
    pub size: Size,
    pub own_limit: u64,
}

/// What the new words are over: the divisor, which with the factor is the denominator; and the size that the words
/// which are written are known to have.
#[derive(Drop)]
pub struct Scale {
    pub divisor: WordDivisor,
    pub factor: Word,
    pub size: Size,
}

/// What the new wide numbers are over: the divisor, which with the factor is the denominator.
#[derive(Drop)]
pub struct WideScale {
    pub divisor: WideDivisor,
    pub factor: Num,
}

/// The new denominator, and the size that all new words are known to have.
#[derive(Clone, Copy)]
pub struct Written {
    pub denominator: Word,
    pub size: Size,
}
