//! What is exchanged: a row and a column of a table by columns; and where it can pass.
ghost use Rattle.std.specs.Prelude.{◌≡◌, ◌<◌, ◌*◌, pos, length};
ghost use Rattle.std.specs.List.{slice_index_or};
ghost use Rattle.columns.specs.Cells.{cell_at};

use poly_num::Num;
use words::Word;

/// The exchange of a row and a column, both counted from 0, in a table of `width` columns of `height` cells over a
/// denominator.
#[derive(Clone, Copy)]
pub struct Exchange {
    pub width: usize,
    pub height: usize,
    pub row: usize,
    pub column: usize,
    pub denominator: Num,
}

/// A place of a table: a row and a column, both counted from 0.
#[derive(Clone, Copy, PartialEq, Eq, Debug)]
pub struct Spot {
    pub row: usize,
    pub column: usize,
}

/// Where an exchange passes 127 bits: at the new denominator, or at a cell.
#[derive(Clone, Copy, PartialEq, Eq, Debug)]
pub enum Passing {
    Denominator,
    Cell(Spot),
}

// The word at a place.
#[inline(always)]
pub(crate) fn at_place(cells: &[Word], place: usize) -> Word
    requires { place < length cells.now }
    ensures { result ≡ slice_index_or cells.now place (pos 0) }
{
    cells[place]
}

// The word in row i and column j.
#[inline(always)]
pub(crate) fn word_at(cells: &[Word], x: &Exchange, i: usize, j: usize) -> Word
    requires size { length cells.now ≡ x.now.width * x.now.height }
    requires row { i < x.now.height }
    requires column { j < x.now.width }
    ensures { result ≡ cell_at x.now.height cells.now i j }
{
    cells[j * x.height + i]
}

// The wide number at a place.
#[inline(always)]
pub(crate) fn number_at(cells: &[Num], place: usize) -> Num
    requires { place < length cells.now }
    ensures { result ≡ slice_index_or cells.now place (pos 0) }
{
    cells[place]
}
