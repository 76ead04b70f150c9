//! Whether a neighbour is a child, read from the dictionary of the cobasis itself: no pivot is needed.
ghost use Rattle.std.specs.Prelude.{◌≡◌, ◌<◌, ◌↔◌, IsTrue, length, pos};
ghost use Rattle.std.specs.List.{Contains, slice_index_or};
ghost use Rattle.poly_model.specs.Tree.{Leaves, MayEnter};
ghost use Rattle.dictionary.specs.Views.{table_of};
ghost use Rattle.search_laws.specs.ChildTest.{IsDown, LeadsUp, WouldEnter, downward};
ghost use Rattle.lex_pivot.specs.Children.{DecidesChild, EntersInPlace, NoneInPlace};
ghost use Rattle.lex_pivot.specs.Leads.{AreLeads};
ghost use Rattle.lex_pivot.specs.Ratios.{NoneLeaves};

use crate::orderings::{is_greater, is_less};
use crate::rows::{comes_before, label_of_column};
use crate::scan::root_sign;
use crate::word_child::none_enters_in_words;
use crate::word_table::WordTable;
use crate::{Leads, Order, Pivot, Reading};
use dictionary::Dict;
use poly_model::Label;
use poly_num::{Num, neg};

/// Whether the neighbour in the column of `col`, where `row` leaves, is a child: a lexicographically feasible cobasis
/// whose parent is this one. The leads are those of the dictionary.
pub fn is_child(dict: &Dict, order: &Order, leads: &Leads, col: Label, row: Label) -> bool
    requires leads { AreLeads dict.now order.now leads.now }
    requires column { Contains dict.now.key col }
    requires leaves { Leaves dict.now.labels order.now dict.now.key (table_of dict.now) col row }
    ensures down { IsTrue result ↔ IsDown dict.now.labels order.now dict.now.key (table_of dict.now) col row }
    ensures child { DecidesChild dict.now order.now col row result }
{
    // the labels ascend
    let _all = dict.labels();
    if !leads_up(dict, order, leads, col) {
        return false;
    }
    none_enters_first(dict, order, leads, &Pivot { row, col })
}

/// Whether the greatest row of the root that is not 0 in the column is positive there. Where it is not, no neighbour in the
/// column is a child, and no row has to be found that leaves.
pub fn leads_up(dict: &Dict, order: &Order, leads: &Leads, col: Label) -> bool
    requires leads { AreLeads dict.now order.now leads.now }
    requires column { Contains dict.now.key col }
    ensures { IsTrue result ↔ LeadsUp dict.now.labels order.now (table_of dict.now) col }
{
    is_greater(leads.sign(dict, order, col))
}

/// Whether it is negative. Then some row leaves in the column.
pub fn leads_down(dict: &Dict, order: &Order, leads: &Leads, col: Label) -> bool
    requires leads { AreLeads dict.now order.now leads.now }
    requires column { Contains dict.now.key col }
    ensures may { IsTrue result ↔ MayEnter dict.now.labels order.now (table_of dict.now) col }
    ensures leaves { IsTrue result → NoneLeaves dict.now col → ⊥ }
{
    // each label of the cobasis is positive in its own column, and 0 in the others
    let (_units, _denominator) = (dict.cobasis(), dict.denominator());
    is_less(leads.sign(dict, order, col))
}

// Whether no label before the row that leaves would enter in its place.
fn none_enters_first(dict: &Dict, order: &Order, leads: &Leads, pivot: &Pivot) -> bool
    requires leads { AreLeads dict.now order.now leads.now }
    requires column { Contains dict.now.key pivot.now.col }
    requires up { LeadsUp dict.now.labels order.now (table_of dict.now) pivot.now.col }
    requires leaves { Leaves dict.now.labels order.now dict.now.key (table_of dict.now) pivot.now.col pivot.now.row }
    ensures { IsTrue result ↔ NoneInPlace dict.now order.now pivot.now.col pivot.now.row }
{
    match dict.word_cells() {
        Some(cells) => none_enters_in_words(
            &WordTable {
                dict,
                order,
                before: &[],
                cells: &cells,
            },
            leads,
            pivot,
        ),
        None => none_enters_in_wide(dict, order, leads, pivot),
    }
}

// The same where some cell is no word.
#[cold]
fn none_enters_in_wide(dict: &Dict, order: &Order, leads: &Leads, pivot: &Pivot) -> bool
    requires leads { AreLeads dict.now order.now leads.now }
    requires column { Contains dict.now.key pivot.now.col }
    requires leaves { Leaves dict.now.labels order.now dict.now.key (table_of dict.now) pivot.now.col pivot.now.row }
    ensures { IsTrue result ↔ NoneInPlace dict.now order.now pivot.now.col pivot.now.row }
{
    'columns: for j in 0..dict.columns().len() {
        if would_enter(dict, order, leads, pivot, j) {
            return false;
        }
    }
    true
}

// Whether the label of column j is another, is before the row that leaves, and would enter in its place.
fn would_enter(dict: &Dict, order: &Order, leads: &Leads, pivot: &Pivot, j: usize) -> bool
    requires leads { AreLeads dict.now order.now leads.now }
    requires column { Contains dict.now.key pivot.now.col }
    requires other { j < length dict.now.columns }
    requires leaves { Leaves dict.now.labels order.now dict.now.key (table_of dict.now) pivot.now.col pivot.now.row }
    ensures { IsTrue result ↔
        EntersInPlace dict.now order.now pivot.now.col pivot.now.row (slice_index_or dict.now.columns j 0) }
{
    let other = label_of_column(dict, j);
    if other.is_same(pivot.col) {
        return false;
    }
    if !comes_before(dict, order, other, pivot.row) {
        return false;
    }
    falls_after(dict, order, leads, pivot, j)
}

// Whether after the pivot the greatest row of the root that is not 0 in column j is negative there. Where the row that
// leaves is 0 in it, the column is as it was.
fn falls_after(dict: &Dict, order: &Order, leads: &Leads, pivot: &Pivot, j: usize) -> bool
    requires leads { AreLeads dict.now order.now leads.now }
    requires column { Contains dict.now.key pivot.now.col }
    requires other { j < length dict.now.columns }
    requires leaves { Leaves dict.now.labels order.now dict.now.key (table_of dict.now) pivot.now.col pivot.now.row }
    ensures { IsTrue result ↔ WouldEnter (table_of dict.now) pivot.now.col pivot.now.row
        (slice_index_or dict.now.columns j 0) (downward dict.now.labels order.now) }
{
    let other = label_of_column(dict, j);
    let f = dict.entry(pivot.row, other);
    if is_zero(f) {
        return is_less(leads.at(j));
    }
    let after = Reading::Sum {
        p: neg(dict.entry(pivot.row, pivot.col)),
        col: other,
        f,
        other: pivot.col,
    };
    is_less(root_sign(dict, order, &after))
}

fn is_zero(a: Num) -> bool
    ensures { IsTrue result ↔ (a ≡ pos 0) }
{
    a.get() == 0
}
