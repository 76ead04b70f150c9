//! The sign in one column at the greatest row that counts of those that are 0 in another, where all cells are words.
ghost use Rattle.std.specs.declared.cmp.Ordering.TheVariants.{Equal};
ghost use Rattle.std.specs.Prelude.{◌≡◌, ◌≢◌, ◌<◌, length, map};
ghost use Rattle.std.specs.List.{Contains, slice_index_or};
ghost use Rattle.poly_num.specs.Signs.{sign_of, lex_sign_of};
ghost use Rattle.poly_model.specs.LexOrder.{within, outside, backwards};
ghost use Rattle.dictionary.specs.Views.{table_of};
ghost use Rattle.lex_pivot.specs.Leads.{AreLeads};
ghost use Rattle.lex_pivot.specs.Readings.{reading_at, IsReadable, AreApart};
ghost use Rattle.lex_pivot.specs.declared.reading.Reading.TheVariants.{Where};
ghost use Rattle.lex_pivot.specs.Tables.{IsTable};

use crate::orderings::differs;
use crate::rows::label_of_column;
use crate::word_reading::lead_from;
use crate::word_table::WordTable;
use crate::{Leads, Reading};
use poly_model::Label;
use std::cmp::Ordering;

/// In the column of label j the sign of the greatest row of the root that is 0 in the column of `col` and not 0 there, and else
/// `Equal`: at the lead of that column it begins.
pub fn root_sign_on_zeros(table: &WordTable, leads: &Leads, col: Label, j: usize) -> Ordering
    requires table { IsTable table.now }
    requires leads { AreLeads table.now.dict.now table.now.order.now leads.now }
    requires column { Contains table.now.dict.now.key col }
    requires other { j < length table.now.dict.now.columns }
    requires apart { slice_index_or table.now.dict.now.columns j 0 ≢ col }
    ensures { result ≡ lex_sign_of (map (reading_at (table_of table.now.dict.now) (Where (slice_index_or table.now.dict.now.columns j 0) col))
        (backwards (within table.now.dict.now.labels table.now.order.now))) }
{
    let reading = Reading::<i64>::Where {
        col: label_of_column(table.dict, j),
        zero: col,
    };
    lead_from(table, leads.spots(), &reading, leads.top(j)).sign
}

/// The same of the greatest row outside the root.
pub fn outside_sign_on_zeros(table: &WordTable, col: Label, j: usize) -> Ordering
    requires table { IsTable table.now }
    requires column { Contains table.now.dict.now.key col }
    requires other { j < length table.now.dict.now.columns }
    requires apart { slice_index_or table.now.dict.now.columns j 0 ≢ col }
    ensures { result ≡ lex_sign_of (map (reading_at (table_of table.now.dict.now) (Where (slice_index_or table.now.dict.now.columns j 0) col))
        (backwards (outside table.now.dict.now.labels table.now.order.now))) }
{
    let reading = Reading::<i64>::Where {
        col: label_of_column(table.dict, j),
        zero: col,
    };
    outside_sign(table, &reading)
}

// The sign of the number of the greatest row outside the root at which it is not 0, and else `Equal`.
#[inline(always)]
fn outside_sign(table: &WordTable, reading: &Reading<i64>) -> Ordering
    requires table { IsTable table.now }
    requires columns { IsReadable table.now.dict.now.key reading.now }
    requires apart { AreApart reading.now }
    ensures { result ≡ lex_sign_of (map (reading_at (table_of table.now.dict.now) reading.now)
        (backwards (outside table.now.dict.now.labels table.now.order.now))) }
{
    let labels = table.dict.labels();
    'rows: for n in (0..labels.len()).rev() {
        let here = sign_before_root(table, reading, labels[n]);
        if differs(here) {
            return here;
        }
    }
    Ordering::Equal
}

// The sign of the number of a row outside the root, and else `Equal`.
#[inline(always)]
fn sign_before_root(table: &WordTable, reading: &Reading<i64>, row: Label) -> Ordering
    requires table { IsTable table.now }
    requires row { Contains table.now.dict.now.labels row }
    requires columns { IsReadable table.now.dict.now.key reading.now }
    requires apart { AreApart reading.now }
    ensures value { Contains (outside table.now.dict.now.labels table.now.order.now) row →
        result ≡ sign_of (reading_at (table_of table.now.dict.now) reading.now row) }
    ensures outside { result ≢ Equal → Contains (outside table.now.dict.now.labels table.now.order.now) row }
{
    if table.order.is_before_root(row) {
        reading.sign_at_position(table, row, table.dict.position(row))
    } else {
        Ordering::Equal
    }
}
