//! The cells of a dictionary where all of them are words: the tests that go along them ask for places, and for no label.
ghost use Rattle.std.specs.Prelude.{◌≡◌, ◌<◌, ◌↔◌, suc, pos, neg_ℤ, length, IsTrue};
ghost use Rattle.std.specs.List.{slice_index_or};
ghost use Rattle.poly_num.specs.Numbers.{IsWord};
ghost use Rattle.dictionary.specs.Views.{number};
ghost use Rattle.lex_pivot.specs.Tables.{IsTable};

use crate::Order;
use columns::WordCells;
use dictionary::Dict;
use poly_model::Label;

/// A dictionary and its cells, which are words, with an order relative to a root and, where lists are compared, the rows of
/// the cobasis that are outside the root.
#[derive(Clone, Copy)]
pub struct WordTable<'a> {
    pub dict: &'a Dict,
    pub order: &'a Order,
    pub before: &'a [Label],
    pub cells: &'a WordCells<'a>,
}

/// The cell of the row at a place in column j, where column 0 has the constants.
#[inline(always)]
pub(crate) fn cell_at(table: &WordTable, place: usize, j: usize) -> i64
    requires table { IsTable table.now }
    requires place { place < length table.now.dict.now.rows }
    requires column { j < suc (length table.now.dict.now.columns) }
    ensures value { result ≡ number table.now.dict.now (slice_index_or table.now.dict.now.rows place 0) j }
    ensures word { IsWord result }
{
    // so many cells are there that a place is a machine number
    let _count = table.cells.len();
    let height = table.dict.rows().len();
    table.cells.at(j * height + place)
}

/// Whether the cell of the row at a place in column j is 0.
#[inline(always)]
pub fn is_zero_at(table: &WordTable, place: usize, j: usize) -> bool
    requires table { IsTable table.now }
    requires place { place < length table.now.dict.now.rows }
    requires column { j < suc (length table.now.dict.now.columns) }
    ensures { IsTrue result ↔ (number table.now.dict.now (slice_index_or table.now.dict.now.rows place 0) j ≡ pos 0) }
{
    is_zero(cell_at(table, place, j))
}

/// Whether the number is 0.
#[inline(always)]
pub(crate) fn is_zero(a: i64) -> bool
    ensures { IsTrue result ↔ (a ≡ pos 0) }
{
    a == 0
}

/// The number with the other sign.
#[inline(always)]
pub(crate) fn negated(a: i64) -> i64
    requires { IsWord a }
    ensures { result ≡ neg_ℤ a }
{
    -a
}
