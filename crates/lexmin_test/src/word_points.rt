//! Whether the point of a cobasis is shown there, where all cells are words.
ghost use Rattle.std.specs.Prelude.{◌≡◌, ◌<◌, ◌↔◌, length, pos, IsTrue};
ghost use Rattle.std.specs.List.{slice_index_or};
ghost use Rattle.poly_model.specs.Tree.{ShowsPoint};
ghost use Rattle.dictionary.specs.Views.{table_of};
ghost use Rattle.lex_pivot.specs.Places.{IsRowAt};
ghost use Rattle.lex_pivot.specs.Tables.{IsTable};
ghost use Rattle.lexmin_test.specs.Settled.{RowShowsPoint, IsZeroBefore, IsZeroIfEarlier};

use lex_pivot::{WordTable, comes_before, is_zero_at, label_of_column, row_at};
use poly_model::Label;

/// As `shows_point_by` of points.rt.
pub(crate) fn shows_point_in_words(table: &WordTable) -> bool
    requires { IsTable table.now }
    ensures { IsTrue result ↔ ShowsPoint table.now.dict.now.labels table.now.order.now table.now.dict.now.key (table_of table.now.dict.now) }
{
    'rows: for place in 0..table.dict.rows().len() {
        if !is_settled(table, place) {
            return false;
        }
    }
    true
}

// Whether the row at a place of the rows of cells asks nothing of the cobasis, or has what is asked.
#[inline(always)]
fn is_settled(table: &WordTable, place: usize) -> bool
    requires table { IsTable table.now }
    requires place { place < length table.now.dict.now.rows }
    ensures { IsTrue result ↔ RowShowsPoint table.now.dict.now table.now.order.now (slice_index_or table.now.dict.now.rows place 0) }
{
    if !is_zero_at(table, place, 0) {
        return true;
    }
    match row_at(table.dict, place) {
        Some(row) => is_zero_before(table, row, place),
        None => true,
    }
}

// Whether the row at a place is 0 in the column of each earlier row of the cobasis.
fn is_zero_before(table: &WordTable, row: Label, place: usize) -> bool
    requires table { IsTable table.now }
    requires row { IsRowAt table.now.dict.now place row }
    ensures { IsTrue result ↔ IsZeroBefore table.now.dict.now table.now.order.now row }
{
    'columns: for j in 0..table.dict.columns().len() {
        if !is_zero_if_earlier(table, row, place, j) {
            return false;
        }
    }
    true
}

// Whether the row at a place is 0 in column j, or that is of no earlier row.
#[inline(always)]
fn is_zero_if_earlier(table: &WordTable, row: Label, place: usize, j: usize) -> bool
    requires table { IsTable table.now }
    requires row { IsRowAt table.now.dict.now place row }
    requires column { j < length table.now.dict.now.columns }
    ensures { IsTrue result ↔ IsZeroIfEarlier table.now.dict.now table.now.order.now row (slice_index_or table.now.dict.now.columns j 0) }
{
    // the labels of the columns stand once
    let _columns = table.dict.columns();
    if is_zero_at(table, place, j + 1) {
        return true;
    }
    !comes_before(table.dict, table.order, label_of_column(table.dict, j), row)
}
