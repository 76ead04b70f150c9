//! Cells as they lie: one column, in words or in wide numbers, and all of them where they are words.
ghost use Rattle.std.specs.Prelude.{◌≡◌, ◌≢◌, ◌<◌, ◌↔◌, ◌<ℤ◌, IsTrue, pos, length};
ghost use Rattle.std.specs.List.{slice_index_or};
ghost use Rattle.poly_num.specs.Numbers.{IsWord};

use crate::exchange::{at_place, number_at};
use poly_num::Num;
use std::marker::Model;
use words::Word;

/// Numbers that lie one after the other, in words or in wide numbers.
#[derive(Clone, Copy)]
pub(crate) enum Slice<'a> {
    Words(&'a [Word]),
    Wide(&'a [Num]),
}

/// A column of cells, which contracts see as a list of whole numbers. It is read where it lies.
#[derive(Drop)]
pub struct Column<'a> {
    pub(crate) cells: Slice<'a>,
}

impl<'a> Model for Column<'a> {
    ghost use Rattle.std.specs.Prelude.{ℤ, List};
    ghost use Rattle.columns.specs.Slices.{numbers_of};

    ghost Value = { List ℤ };

    ghost view = { λ c. numbers_of c.cells };
}

impl<'a> Column<'a> {
    /// How many cells it has.
    #[inline(always)]
    pub fn len(&self) -> usize
        ensures { result ≡ length self.now }
    {
        match self.cells {
            Slice::Words(words) => words.len(),
            Slice::Wide(wide) => wide.len(),
        }
    }

    /// Its cell in row i.
    #[inline(always)]
    pub fn at(&self, i: usize) -> Num
        requires { i < length self.now }
        ensures { result ≡ slice_index_or self.now i (pos 0) }
    {
        match self.cells {
            Slice::Words(words) => at_place(words, i).wide(),
            Slice::Wide(wide) => number_at(wide, i),
        }
    }

    /// Whether its cell in row i is not 0.
    #[inline(always)]
    pub fn is_nonzero(&self, i: usize) -> bool
        requires { i < length self.now }
        ensures { IsTrue result ↔ (slice_index_or self.now i (pos 0) ≢ pos 0) }
    {
        match self.cells {
            Slice::Words(words) => at_place(words, i) != Word::ZERO,
            Slice::Wide(wide) => number_at(wide, i) != Num::ZERO,
        }
    }

    /// Whether its cell in row i is negative.
    #[inline(always)]
    pub fn is_negative(&self, i: usize) -> bool
        requires { i < length self.now }
        ensures { IsTrue result ↔ (slice_index_or self.now i (pos 0) <ℤ pos 0) }
    {
        self.at(i).get() < 0
    }
}

/// All cells of a table where they are words, one column after the other, which contracts see as a list of whole numbers.
/// They are read where they lie.
#[derive(Drop)]
pub struct WordCells<'a> {
    pub(crate) cells: &'a [Word],
}

impl<'a> Model for WordCells<'a> {
    ghost use Rattle.std.specs.Prelude.{ℤ, List};

    ghost Value = { List ℤ };

    ghost view = { λ c. c.cells.now };
}

impl<'a> WordCells<'a> {
    /// How many there are.
    #[inline(always)]
    pub fn len(&self) -> usize
        ensures { result ≡ length self.now }
    {
        self.cells.len()
    }

    /// The cell at a place.
    #[inline(always)]
    pub fn at(&self, place: usize) -> i64
        requires { place < length self.now }
        ensures value { result ≡ slice_index_or self.now place (pos 0) }
        ensures word { IsWord result }
    {
        at_place(self.cells, place).wide().get() as i64
    }
}
