//! Rows outside a cobasis, and rows that come before others.
ghost use Rattle.std.specs.Prelude.{◌≡◌, ◌<◌, ◌↔◌, IsTrue, length};
ghost use Rattle.std.specs.List.{Contains, slice_index_or};
ghost use Rattle.std.specs.Option.{MatchOption};
ghost use Rattle.poly_model.specs.LexOrder.{rows_in, IsEarlier};
ghost use Rattle.poly_model.specs.Tree.{IsRowOutside};
ghost use Rattle.lex_pivot.specs.Places.{IsRowAt};

use crate::Order;
use dictionary::Dict;
use poly_model::Label;

/// Whether the label is that of a row outside the cobasis.
pub fn is_outside(dict: &Dict, row: Label) -> bool
    requires { Contains dict.now.labels row }
    ensures { IsTrue result ↔ IsRowOutside dict.now.labels dict.now.key row }
{
    row.is_row() && !dict.in_cobasis(row)
}

/// The row at a place of the rows of cells; None where a coordinate stands there.
pub fn row_at(dict: &Dict, place: usize) -> Option<Label>
    requires { place < length dict.now.rows }
    ensures { MatchOption result
        (IsRowOutside dict.now.labels dict.now.key (slice_index_or dict.now.rows place 0) → ⊥)
        (λ r. IsRowAt dict.now place r) }
{
    let row = dict.rows()[place];
    if row.is_row() { Some(row) } else { None }
}

/// The label of column j, counted from 0 without the constants.
pub fn label_of_column(dict: &Dict, j: usize) -> Label
    requires { j < length dict.now.columns }
    ensures value { result ≡ slice_index_or dict.now.columns j 0 }
    ensures key { Contains dict.now.key result }
    ensures label { Contains dict.now.labels result }
{
    // its labels are labels of the dictionary
    let _cobasis = dict.cobasis();
    dict.columns()[j]
}

/// Whether the label is that of a row which comes before another one in the order.
#[inline(always)]
pub fn comes_before(dict: &Dict, order: &Order, label: Label, row: Label) -> bool
    requires label { Contains dict.now.labels label }
    requires row { Contains (rows_in dict.now.labels) row }
    ensures { IsTrue result ↔ IsEarlier dict.now.labels order.now label row }
{
    // the labels ascend
    let _all = dict.labels();
    if !label.is_row() {
        return false;
    }
    order.is_earlier(label, row)
}
