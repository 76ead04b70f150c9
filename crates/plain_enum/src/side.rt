//! Which way along a column the cone lies, and whether the rows of the cobasis are its first list.
ghost use Rattle.std.specs.Prelude.{◌≡◌, ◌-◌, ◌≤◌, ◌<◌, ◌↔◌, ℕ, IsTrue, IsFalse, IsNone, IfSome, false, pos, ◌≤ℤ◌};
ghost use Rattle.std.specs.List.{Contains};
ghost use Rattle.poly_model.specs.Labels.{coordinates_from, IsRow, IsCoordinate, coordinate_index};
ghost use Rattle.poly_model.specs.Dictionaries.{Table};
ghost use Rattle.poly_model.specs.Spaces.{is_member};
ghost use Rattle.poly_model.specs.Systems.{row_of};
ghost use Rattle.dictionary.specs.Views.{table_of, CanPivot};
ghost use Rattle.plain_enum.specs.Begin.{is_kept};
ghost use Rattle.plain_enum.specs.Columns.{HasRows, IsOnSide, IsFirst, IsColumnOf, HasNoColumn, IsLeftCoordinate, LeavesNoCoordinate};

use dictionary::Dict;
use poly_model::{FreeColumns, Label, System};
use poly_num::Num;

/// Which way all rows are at least 0: along a column, or against it.
#[derive(Clone, Copy, PartialEq, Eq, Debug)]
pub enum Side {
    Along,
    Against,
}

/// The side of the cone; none where both ways break a row. A column at which all rows are 0 counts as along.
pub fn side_of(dict: &Dict, rows: u32, col: Label) -> Option<Side>
    requires rows { HasRows rows dict.now }
    requires few { rows < coordinates_from }
    requires column { Contains dict.now.key col }
    ensures some { IfSome result (IsOnSide dict.now rows col) }
    ensures along { IsNone result → IsOnSide dict.now rows col Side.Along → ⊥ }
    ensures against { IsNone result → IsOnSide dict.now rows col Side.Against → ⊥ }
{
    if is_along(dict, rows, col) {
        Some(Side::Along)
    } else if is_against(dict, rows, col) {
        Some(Side::Against)
    } else {
        None
    }
}

fn is_along(dict: &Dict, rows: u32, col: Label) -> bool
    requires rows { HasRows rows dict.now }
    requires few { rows < coordinates_from }
    requires column { Contains dict.now.key col }
    ensures { IsTrue result ↔ IsOnSide dict.now rows col Side.Along }
{
    let column = dict.column_of(col);
    'rows: for i in 0..rows {
        if dict.number(Label::row(i + 1), column).get() < 0 {
            return false;
        }
    }
    true
}

fn is_against(dict: &Dict, rows: u32, col: Label) -> bool
    requires rows { HasRows rows dict.now }
    requires few { rows < coordinates_from }
    requires column { Contains dict.now.key col }
    ensures { IsTrue result ↔ IsOnSide dict.now rows col Side.Against }
{
    let column = dict.column_of(col);
    'rows: for i in 0..rows {
        if dict.number(Label::row(i + 1), column).get() > 0 {
            return false;
        }
    }
    true
}

/// Whether each row that is 0 in the column is 0 at each later row of the cobasis that is not linear.
pub fn is_first(sys: &System, dict: &Dict, rows: u32, col: Label) -> bool
    requires rows { HasRows rows dict.now }
    requires few { rows < coordinates_from }
    requires column { Contains dict.now.key col }
    ensures { IsTrue result ↔ IsFirst sys.now.rows dict.now rows col }
{
    let column = dict.column_of(col);
    let key = dict.key();
    'rows: for i in 0..rows {
        let row = Label::row(i + 1);
        if dict.number(row, column).get() == 0 && !is_zero_at_later(sys, dict, row, key.labels()) {
            return false;
        }
    }
    true
}

// Whether a row is 0 at each later row among these labels of the cobasis, but for those that are linear.
fn is_zero_at_later(sys: &System, dict: &Dict, row: Label, labels: &[Label]) -> bool
    requires row { Contains dict.now.labels row }
    requires labels { labels.now ≡ dict.now.key }
    ensures { IsTrue result ↔ ((k : ℕ) → Contains dict.now.key k → IsRow k → (row_of sys.now.rows k).linear ≡ false →
        row < k → Table.entry (table_of dict.now) row k ≡ pos 0) }
{
    'labels: for label in labels {
        if !is_zero_if_later(sys, dict, row, *label) {
            return false;
        }
    }
    true
}

// Whether a row is 0 at a label of the cobasis, if that is a later row and not linear.
fn is_zero_if_later(sys: &System, dict: &Dict, row: Label, label: Label) -> bool
    requires row { Contains dict.now.labels row }
    requires label { Contains dict.now.key label }
    ensures { IsTrue result ↔ (IsRow label → (row_of sys.now.rows label).linear ≡ false → row < label →
        Table.entry (table_of dict.now) row label ≡ pos 0) }
{
    if label.is_row() && row.number() < label.number() {
        dict.entry(row, label).get() == 0 || sys.is_linear_row(label)
    } else {
        true
    }
}

// Whether a label of the cobasis is a coordinate that is not free, at which a row is not 0: then the row can take its
// place.
fn is_column(dict: &Dict, free: &FreeColumns, row: Label, label: Label) -> bool
    requires label { Contains dict.now.labels row }
    requires row { IsRow row }
    requires column { Contains dict.now.key label }
    ensures column { IsTrue result → IsColumnOf dict.now free.now row label }
    ensures pivots { IsTrue result → CanPivot dict.now row label }
    ensures zero { IsFalse result → IsCoordinate label → is_member (coordinate_index label) free.now ≡ false →
        Table.entry (table_of dict.now) row label ≡ pos 0 }
{
    label.is_coordinate()
        && dict.entry(row, label).get() != 0
        && !free.contains(label.coordinate_index())
}

/// A coordinate in the cobasis that is not free, at which a row is not 0, so that the row can take its place: the last
/// one, since numbers are smallest while `x0` is in the cobasis. `free` are the free columns, ascending.
pub fn column_of(dict: &Dict, free: &FreeColumns, row: Label) -> Option<Label>
    requires label { Contains dict.now.labels row }
    requires row { IsRow row }
    ensures some { IfSome result (λ k. IsColumnOf dict.now free.now row k) }
    ensures pivots { IfSome result (λ k. CanPivot dict.now row k) }
    ensures none { IsNone result → HasNoColumn dict.now free.now row }
{
    let key = dict.key();
    let mut found = None;
    'labels: for label in key.labels() {
        if is_column(dict, free, row, *label) {
            found = Some(*label);
        }
    }
    found
}

// Whether a label is that of a coordinate that is not free.
pub(crate) fn is_kept(free: &FreeColumns, label: Label) -> bool
    ensures value { result ≡ is_kept free.now label }
    ensures coordinate { IsTrue result → IsCoordinate label }
    ensures kept { IsTrue result → is_member (coordinate_index label) free.now ≡ false }
    ensures other { IsFalse result → IsCoordinate label → is_member (coordinate_index label) free.now ≡ false → ⊥ }
{
    label.is_coordinate() && !free.contains(label.coordinate_index())
}

/// The last coordinate in the cobasis that is not free. `free` are the free columns, ascending.
pub fn left_coordinate(dict: &Dict, free: &FreeColumns) -> Option<Label>
    ensures some { IfSome result (λ k. IsLeftCoordinate dict.now free.now k) }
    ensures none { IsNone result → LeavesNoCoordinate dict.now free.now }
{
    let key = dict.key();
    let mut found = None;
    'labels: for label in key.labels() {
        if is_kept(free, *label) {
            found = Some(*label);
        }
    }
    found
}
