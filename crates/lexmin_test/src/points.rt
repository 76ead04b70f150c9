//! Whether the point of a cobasis is shown there.
ghost use Rattle.std.specs.Prelude.{◌≡◌, ◌<◌, ◌↔◌, length, pos, IsTrue};
ghost use Rattle.std.specs.List.{Contains, slice_index_or};
ghost use Rattle.poly_model.specs.Tree.{ShowsPoint};
ghost use Rattle.dictionary.specs.Positions.{IsCellColumn};
ghost use Rattle.dictionary.specs.Views.{table_of};
ghost use Rattle.lex_pivot.specs.Places.{IsRowAt};
ghost use Rattle.lexmin_test.specs.Settled.{RowShowsPoint, IsZeroBefore, IsZeroIfEarlier};

use crate::word_points::shows_point_in_words;
use columns::Column;
use dictionary::Dict;
use lex_pivot::{Order, WordTable, comes_before, row_at};
use poly_model::{Label, Root};

/// Whether the point of the cobasis is shown there: each row outside it with the constant 0 is 0 in the column of each
/// earlier row of the cobasis.
pub fn shows_point(dict: &Dict, root: &Root) -> bool
    ensures { IsTrue result ↔ ShowsPoint dict.now.labels root.now.key dict.now.key (table_of dict.now) }
{
    shows_point_by(dict, &Order::of(root))
}

/// The same by the order relative to the root.
pub fn shows_point_by(dict: &Dict, order: &Order) -> bool
    ensures { IsTrue result ↔ ShowsPoint dict.now.labels order.now dict.now.key (table_of dict.now) }
{
    match dict.word_cells() {
        Some(cells) => shows_point_in_words(&WordTable {
            dict,
            order,
            before: &[],
            cells: &cells,
        }),
        None => shows_point_in_wide(dict, order),
    }
}

// The same where some cell is no word.
#[cold]
fn shows_point_in_wide(dict: &Dict, order: &Order) -> bool
    ensures { IsTrue result ↔ ShowsPoint dict.now.labels order.now dict.now.key (table_of dict.now) }
{
    let constants = dict.column(0);
    'rows: for place in 0..dict.rows().len() {
        if !is_settled(dict, order, &constants, place) {
            return false;
        }
    }
    true
}

// Whether the row at a place of the rows of cells asks nothing of the cobasis, or has what is asked. The cells are those of
// the constants.
fn is_settled(dict: &Dict, order: &Order, constants: &Column, place: usize) -> bool
    requires place { place < length dict.now.rows }
    requires constants { IsCellColumn dict.now 0 constants.now }
    ensures { IsTrue result ↔ RowShowsPoint dict.now order.now (slice_index_or dict.now.rows place 0) }
{
    if constants.is_nonzero(place) {
        return true;
    }
    match row_at(dict, place) {
        Some(row) => is_zero_before(dict, order, row, place),
        None => true,
    }
}

// Whether the row at a place is 0 in the column of each earlier row of the cobasis.
fn is_zero_before(dict: &Dict, order: &Order, row: Label, place: usize) -> bool
    requires { IsRowAt dict.now place row }
    ensures { IsTrue result ↔ IsZeroBefore dict.now order.now row }
{
    let labels = dict.cobasis();
    'columns: for col in labels {
        if !is_zero_if_earlier(dict, order, row, place, *col) {
            return false;
        }
    }
    true
}

// Whether the row at a place is 0 in the column, or that is of no earlier row.
fn is_zero_if_earlier(dict: &Dict, order: &Order, row: Label, place: usize, col: Label) -> bool
    requires row { IsRowAt dict.now place row }
    requires column { Contains dict.now.key col }
    requires label { Contains dict.now.labels col }
    ensures { IsTrue result ↔ IsZeroIfEarlier dict.now order.now row col }
{
    if !dict.column(dict.column_of(col)).is_nonzero(place) {
        return true;
    }
    !comes_before(dict, order, col, row)
}
