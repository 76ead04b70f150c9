//! Whether the ray along a column of a cobasis is shown there.
ghost use Rattle.std.specs.Prelude.{◌≡◌, ◌↔◌, IsTrue};
ghost use Rattle.std.specs.List.{Contains};
ghost use Rattle.poly_model.specs.Tree.{ShowsRay};
ghost use Rattle.dictionary.specs.Views.{table_of};
ghost use Rattle.lex_pivot.specs.Ratios.{NoneLeaves};
ghost use Rattle.lex_pivot.specs.Leads.{AreLeads};
ghost use Rattle.lexmin_test.specs.Zeros.{AreOthersPositive, IsPositiveOnZeros, IsOtherPositive};

use crate::word_rays::is_ray_in_words;
use dictionary::Dict;
use lex_pivot::{
    Leads, Order, Reading, WordTable, differs, is_greater, leads_down, none_leaves, outside_sign,
    root_sign,
};
use poly_model::{Label, Root};
use poly_num::Num;

/// Whether the ray along the column of a label of the cobasis is shown there: no row outside the cobasis is negative in
/// the column, and in the column of each other label, of the rows that are 0 in this one and not 0 there, the greatest
/// is positive.
pub fn shows_ray(dict: &Dict, root: &Root, col: Label) -> bool
    requires { Contains dict.now.key col }
    ensures { IsTrue result ↔ ShowsRay dict.now.labels root.now.key dict.now.key (table_of dict.now) col }
{
    is_ray(dict, &Order::of(root), col)
}

/// The same by the order relative to the root, and by the leads of the dictionary: where that of the column is negative,
/// nothing else is asked.
pub fn shows_ray_by(dict: &Dict, order: &Order, leads: &Leads, col: Label) -> bool
    requires leads { AreLeads dict.now order.now leads.now }
    requires column { Contains dict.now.key col }
    ensures { IsTrue result ↔ ShowsRay dict.now.labels order.now dict.now.key (table_of dict.now) col }
{
    if leads_down(dict, order, leads, col) {
        return false;
    }
    match dict.word_cells() {
        Some(cells) => is_ray_in_words(
            &WordTable {
                dict,
                order,
                before: &[],
                cells: &cells,
            },
            leads,
            col,
        ),
        None => is_ray(dict, order, col),
    }
}

// The same by the order alone.
fn is_ray(dict: &Dict, order: &Order, col: Label) -> bool
    requires { Contains dict.now.key col }
    ensures { IsTrue result ↔ ShowsRay dict.now.labels order.now dict.now.key (table_of dict.now) col }
{
    if !none_leaves(dict, col) {
        return false;
    }
    are_others_positive(dict, order, col)
}

// Whether in each other column the greatest row that is 0 in this one, and not 0 there, is positive.
fn are_others_positive(dict: &Dict, order: &Order, col: Label) -> bool
    requires { Contains dict.now.key col }
    ensures { IsTrue result ↔ AreOthersPositive dict.now order.now col }
{
    let labels = dict.cobasis();
    'columns: for other in labels {
        if !is_other_positive(dict, order, col, *other) {
            return false;
        }
    }
    true
}

// The same for one column, where it is another.
fn is_other_positive(dict: &Dict, order: &Order, col: Label, other: Label) -> bool
    requires column { Contains dict.now.key col }
    requires other { Contains dict.now.key other }
    ensures { IsTrue result ↔ IsOtherPositive dict.now order.now col other }
{
    if other.is_same(col) {
        return true;
    }
    is_positive_on_zeros(dict, order, col, other)
}

// Along the order from its end: the rows of the root, and then those outside it.
fn is_positive_on_zeros(dict: &Dict, order: &Order, col: Label, other: Label) -> bool
    requires column { Contains dict.now.key col }
    requires other { Contains dict.now.key other }
    ensures { IsTrue result ↔ IsPositiveOnZeros dict.now order.now col other }
{
    let reading = Reading::<Num>::Where {
        col: other,
        zero: col,
    };
    let inside = root_sign(dict, order, &reading);
    if differs(inside) {
        return is_greater(inside);
    }
    is_greater(outside_sign(dict, order, &reading))
}
