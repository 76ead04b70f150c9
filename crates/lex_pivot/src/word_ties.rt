//! The order of the lists of two rows, where all cells are words.
ghost use Rattle.std.specs.declared.cmp.Ordering.TheVariants.{Less, Equal};
ghost use Rattle.std.specs.Ordering.{int_cmp};
ghost use Rattle.std.specs.Prelude.{◌≡◌, ◌≢◌, ◌<◌, ◌↔◌, ◌*ℤ◌, suc, pos, length, IsTrue};
ghost use Rattle.std.specs.List.{Contains};
ghost use Rattle.poly_num.specs.Signs.{sign_of, lex_sign_of};
ghost use Rattle.dictionary.specs.Views.{number, table_of};
ghost use Rattle.lex_pivot.specs.Pairs.{pair_gaps, gap_at, constant_gap, IsPlaced, ArePair};
ghost use Rattle.lex_pivot.specs.Tables.{IsTable, IsTieTable};

use crate::candidates::{Candidate, Pair};
use crate::orderings::{cmp_products, differs};
use crate::ties::{end_of, end_sign, is_behind};
use crate::word_table::{WordTable, cell_at};
use poly_model::Label;
use std::cmp::Ordering;

/// As `compare` of ties.rt.
#[inline(always)]
pub(crate) fn compare_words(table: &WordTable, pair: &Pair<i64>) -> Ordering
    requires table { IsTieTable table.now }
    requires pair { ArePair table.now.dict.now pair.now }
    ensures { pair.now.one.row ≢ pair.now.other.row →
        result ≡ lex_sign_of (pair_gaps table.now.dict.now table.now.order.now pair.now) }
{
    let first = constants_sign(table, pair);
    if differs(first) {
        return first;
    }
    compare_behind(table, pair)
}

// The order of the two constants, each over its factor.
#[inline(always)]
fn constants_sign(table: &WordTable, pair: &Pair<i64>) -> Ordering
    requires table { IsTable table.now }
    requires pair { ArePair table.now.dict.now pair.now }
    ensures { result ≡ sign_of (constant_gap (table_of table.now.dict.now) pair.now) }
{
    cmp_in_column(table, 0, &pair.one, &pair.other)
}

// The order of the numbers of two rows in column j of the cells, each over its factor. Mostly both are 0.
#[inline(always)]
fn cmp_in_column(
    table: &WordTable,
    j: usize,
    one: &Candidate<i64>,
    other: &Candidate<i64>,
) -> Ordering
    requires table { IsTable table.now }
    requires column { j < suc (length table.now.dict.now.columns) }
    requires one { IsPlaced table.now.dict.now one.now }
    requires other { IsPlaced table.now.dict.now other.now }
    ensures { result ≡ int_cmp (number table.now.dict.now one.now.row j *ℤ other.now.over)
        (number table.now.dict.now other.now.row j *ℤ one.now.over) }
{
    cmp_products(
        cell_at(table, one.place, j),
        other.over,
        cell_at(table, other.place, j),
        one.over,
    )
}

// The order by the rows outside the root, where the constants are equal.
fn compare_behind(table: &WordTable, pair: &Pair<i64>) -> Ordering
    requires table { IsTieTable table.now }
    requires pair { ArePair table.now.dict.now pair.now }
    ensures { pair.now.one.row ≢ pair.now.other.row → constant_gap (table_of table.now.dict.now) pair.now ≡ pos 0 →
        result ≡ lex_sign_of (pair_gaps table.now.dict.now table.now.order.now pair.now) }
{
    // the labels ascend, those of the cobasis too, and the denominator is positive
    let (_all, _cobasis, _denominator) = (
        table.dict.labels(),
        table.dict.cobasis(),
        table.dict.denominator(),
    );
    let end = end_of(table.order, pair.one.row, pair.other.row);
    'labels: for k in table.before {
        if is_behind(*k, &end) {
            return end_sign(pair.one.row, &end);
        }
        let here = gap_sign(table, pair, *k);
        if differs(here) {
            return here;
        }
    }
    end_sign(pair.one.row, &end)
}

// The order at a label of the cobasis.
#[inline(always)]
fn gap_sign(table: &WordTable, pair: &Pair<i64>, k: Label) -> Ordering
    requires table { IsTable table.now }
    requires pair { ArePair table.now.dict.now pair.now }
    requires inside { Contains table.now.dict.now.key k }
    ensures { result ≡ sign_of (gap_at table.now.dict.now.key (table_of table.now.dict.now) pair.now k) }
{
    // a list has minus the entry there
    cmp_in_column(table, table.dict.column_of(k), &pair.other, &pair.one)
}
