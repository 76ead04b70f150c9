//! Whether a label would enter in the place of the row that leaves, where all cells are words: mostly the places of two leads
//! decide.
ghost use Rattle.std.specs.Prelude.{◌≡◌, ◌≢◌, ◌<◌, ◌↔◌, IsTrue, length, map};
ghost use Rattle.std.specs.List.{Contains, slice_index_or};
ghost use Rattle.poly_num.specs.Numbers.{IsWord};
ghost use Rattle.poly_num.specs.Signs.{lex_sign_of};
ghost use Rattle.poly_model.specs.Dictionaries.{Table};
ghost use Rattle.poly_model.specs.Tree.{IsRowOutside};
ghost use Rattle.dictionary.specs.Views.{table_of};
ghost use Rattle.search_laws.specs.ChildTest.{neighbour_entry, downward};
ghost use Rattle.lex_pivot.specs.Children.{EntersInPlace, NoneInPlace};
ghost use Rattle.lex_pivot.specs.Leads.{IsZeroBehind};
ghost use Rattle.lex_pivot.specs.Tables.{IsTable, IsNeighbourhood};

use crate::orderings::{is_less, order_of_words};
use crate::rows::{comes_before, label_of_column};
use crate::word_reading::{entry_at, lead_from};
use crate::word_table::{WordTable, is_zero, negated};
use crate::{Leads, Pivot, Reading};
use dictionary::Position;
use poly_model::Label;
use std::cmp::Ordering;

/// Whether no label before the row that leaves would enter in its place.
pub(crate) fn none_enters_in_words(table: &WordTable, leads: &Leads, pivot: &Pivot) -> bool
    requires { IsNeighbourhood table.now leads.now pivot.now }
    ensures { IsTrue result ↔ NoneInPlace table.now.dict.now table.now.order.now pivot.now.col pivot.now.row }
{
    'columns: for j in 0..table.dict.columns().len() {
        if would_enter(table, leads, pivot, j) {
            return false;
        }
    }
    true
}

// Whether the label of column j is another, is before the row that leaves, and would enter in its place.
#[inline(always)]
fn would_enter(table: &WordTable, leads: &Leads, pivot: &Pivot, j: usize) -> bool
    requires at { IsNeighbourhood table.now leads.now pivot.now }
    requires other { j < length table.now.dict.now.columns }
    ensures { IsTrue result ↔ EntersInPlace table.now.dict.now table.now.order.now pivot.now.col pivot.now.row
        (slice_index_or table.now.dict.now.columns j 0) }
{
    let other = label_of_column(table.dict, j);
    if other.is_same(pivot.col) {
        return false;
    }
    if !comes_before(table.dict, table.order, other, pivot.row) {
        return false;
    }
    is_less(sign_after(table, leads, pivot, j))
}

// The sign of the greatest row of the root that is not 0 in column j after the pivot. Where the leads of the two columns
// are at two rows, the greater row decides: there only the column whose lead it is counts.
#[inline(always)]
fn sign_after(table: &WordTable, leads: &Leads, pivot: &Pivot, j: usize) -> Ordering
    requires at { IsNeighbourhood table.now leads.now pivot.now }
    requires other { j < length table.now.dict.now.columns }
    requires apart { slice_index_or table.now.dict.now.columns j 0 ≢ pivot.now.col }
    ensures { result ≡ lex_sign_of (map (neighbour_entry (table_of table.now.dict.now) pivot.now.col pivot.now.row
        (slice_index_or table.now.dict.now.columns j 0)) (downward table.now.dict.now.labels table.now.order.now)) }
{
    // the labels ascend, those of the root too, and the columns have the labels of the cobasis
    let (_all, _root, _columns) = (
        table.dict.labels(),
        table.order.root_labels(),
        table.dict.columns(),
    );
    let other = label_of_column(table.dict, j);
    let f = row_entry(table, pivot.row, other);
    if is_zero(f) {
        return leads.at(j);
    }
    let own = leads.top(table.dict.column_of(pivot.col) - 1);
    let theirs = leads.top(j);
    if own < theirs {
        return leads.at(j);
    }
    if theirs < own {
        return order_of_words(f, 0);
    }
    scanned_sign(table, leads, pivot, j, own)
}

// The same along the rows of the root, where behind the first so many labels of it all are 0 after the pivot.
fn scanned_sign(table: &WordTable, leads: &Leads, pivot: &Pivot, j: usize, top: usize) -> Ordering
    requires at { IsNeighbourhood table.now leads.now pivot.now }
    requires other { j < length table.now.dict.now.columns }
    requires apart { slice_index_or table.now.dict.now.columns j 0 ≢ pivot.now.col }
    requires behind { IsZeroBehind table.now.dict.now table.now.order.now (neighbour_entry (table_of table.now.dict.now)
        pivot.now.col pivot.now.row (slice_index_or table.now.dict.now.columns j 0)) top }
    ensures { result ≡ lex_sign_of (map (neighbour_entry (table_of table.now.dict.now) pivot.now.col pivot.now.row
        (slice_index_or table.now.dict.now.columns j 0)) (downward table.now.dict.now.labels table.now.order.now)) }
{
    let other = label_of_column(table.dict, j);
    let after = Reading::<i64>::Sum {
        p: negated(row_entry(table, pivot.row, pivot.col)),
        col: other,
        f: row_entry(table, pivot.row, other),
        other: pivot.col,
    };
    lead_from(table, leads.spots(), &after, top).sign
}

// The entry of a row outside the cobasis in the column of a label of it.
#[inline(always)]
fn row_entry(table: &WordTable, row: Label, col: Label) -> i64
    requires table { IsTable table.now }
    requires row { IsRowOutside table.now.dict.now.labels table.now.dict.now.key row }
    requires column { Contains table.now.dict.now.key col }
    ensures value { result ≡ Table.entry (table_of table.now.dict.now) row col }
    ensures word { IsWord result }
{
    match table.dict.position(row) {
        Position::Row(place) => entry_at(table, place as usize, col),
        Position::Column(_) => 0,
    }
}
