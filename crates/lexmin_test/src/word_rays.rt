//! Whether the ray along a column of a cobasis is shown there, where all cells are words.
ghost use Rattle.std.specs.Prelude.{◌≡◌, ◌<◌, ◌↔◌, IsTrue, length};
ghost use Rattle.std.specs.List.{Contains, slice_index_or};
ghost use Rattle.poly_model.specs.Tree.{ShowsRay};
ghost use Rattle.dictionary.specs.Views.{table_of};
ghost use Rattle.lex_pivot.specs.Leads.{AreLeads};
ghost use Rattle.lex_pivot.specs.Tables.{IsTable};
ghost use Rattle.lexmin_test.specs.Zeros.{AreOthersPositive, IsOtherPositive};

use lex_pivot::{
    Leads, WordTable, differs, is_greater, none_leaves_in_words, outside_sign_on_zeros,
    root_sign_on_zeros,
};
use poly_model::Label;

/// As `is_ray` of rays.rt.
pub(crate) fn is_ray_in_words(table: &WordTable, leads: &Leads, col: Label) -> bool
    requires table { IsTable table.now }
    requires leads { AreLeads table.now.dict.now table.now.order.now leads.now }
    requires column { Contains table.now.dict.now.key col }
    ensures { IsTrue result ↔ ShowsRay table.now.dict.now.labels table.now.order.now table.now.dict.now.key (table_of table.now.dict.now) col }
{
    if !none_leaves_in_words(table, col) {
        return false;
    }
    are_others_positive_in_words(table, leads, col)
}

// Whether in each other column the greatest row that is 0 in this one, and not 0 there, is positive.
fn are_others_positive_in_words(table: &WordTable, leads: &Leads, col: Label) -> bool
    requires table { IsTable table.now }
    requires leads { AreLeads table.now.dict.now table.now.order.now leads.now }
    requires column { Contains table.now.dict.now.key col }
    ensures { IsTrue result ↔ AreOthersPositive table.now.dict.now table.now.order.now col }
{
    'columns: for j in 0..table.dict.columns().len() {
        if !is_other_positive_in_words(table, leads, col, j) {
            return false;
        }
    }
    true
}

// The same for column j, where it is another: along the order from its end, which begins at the lead of that column.
#[inline(always)]
fn is_other_positive_in_words(table: &WordTable, leads: &Leads, col: Label, j: usize) -> bool
    requires table { IsTable table.now }
    requires leads { AreLeads table.now.dict.now table.now.order.now leads.now }
    requires column { Contains table.now.dict.now.key col }
    requires other { j < length table.now.dict.now.columns }
    ensures { IsTrue result ↔ IsOtherPositive table.now.dict.now table.now.order.now col (slice_index_or table.now.dict.now.columns j 0) }
{
    if table.dict.columns()[j].is_same(col) {
        return true;
    }
    let inside = root_sign_on_zeros(table, leads, col, j);
    if differs(inside) {
        return is_greater(inside);
    }
    is_greater(outside_sign_on_zeros(table, col, j))
}
