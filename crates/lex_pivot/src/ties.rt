//! The order of the lists of two rows, each over minus its entry in a column: the constants first, and where these are
//! equal the numbers at the rows outside the root.
ghost use Rattle.std.specs.declared.cmp.Ordering.TheVariants.{Equal};
ghost use Rattle.std.specs.Ordering.{int_cmp};
ghost use Rattle.std.specs.Prelude.{◌≡◌, ◌≢◌, ◌<◌, ◌↔◌, ◌*ℤ◌, suc, pos, length, IsTrue};
ghost use Rattle.std.specs.List.{Contains};
ghost use Rattle.poly_num.specs.Signs.{sign_of, lex_sign_of};
ghost use Rattle.poly_model.specs.LexOrder.{outside};
ghost use Rattle.dictionary.specs.Views.{number, table_of};
ghost use Rattle.lex_pivot.specs.BeforeRoot.{before_root};
ghost use Rattle.lex_pivot.specs.Pairs.{pair_gaps, gap_at, constant_gap, IsPlaced, ArePair, IsEnd, IsPastEnd, end_sign};

use crate::Order;
use crate::candidates::{Candidate, Pair};
use crate::orderings::{cmp_ratios, differs};
use dictionary::Dict;
use poly_model::Label;
use poly_num::Num;
use std::cmp::Ordering;

/// The order of the list of the one row and that of the other, each over minus its entry in the column.
///
/// At a row outside the root that is not in the cobasis both lists are 0, but for the two rows themselves. So the first
/// difference is at a label of the cobasis, or at the first of the two rows that is outside the root.
#[inline(always)]
pub fn compare(dict: &Dict, order: &Order, before: &[Label], pair: &Pair<Num>) -> Ordering
    requires before { before.now ≡ before_root dict.now order.now }
    requires pair { ArePair dict.now pair.now }
    ensures { pair.now.one.row ≢ pair.now.other.row → result ≡ lex_sign_of (pair_gaps dict.now order.now pair.now) }
{
    let first = cmp_constants(dict, pair);
    if differs(first) {
        return first;
    }
    compare_behind(dict, order, before, pair)
}

// The order of the two constants, each over its factor.
#[inline(always)]
fn cmp_constants(dict: &Dict, pair: &Pair<Num>) -> Ordering
    requires { ArePair dict.now pair.now }
    ensures { result ≡ sign_of (constant_gap (table_of dict.now) pair.now) }
{
    cmp_in_column(dict, 0, &pair.one, &pair.other)
}

// The order of the numbers of two rows in column j of the cells, each over its factor.
#[inline(always)]
fn cmp_in_column(dict: &Dict, j: usize, one: &Candidate<Num>, other: &Candidate<Num>) -> Ordering
    requires column { j < suc (length dict.now.columns) }
    requires one { IsPlaced dict.now one.now }
    requires other { IsPlaced dict.now other.now }
    ensures { result ≡ int_cmp (number dict.now one.now.row j *ℤ other.now.over)
        (number dict.now other.now.row j *ℤ one.now.over) }
{
    let column = dict.column(j);
    cmp_ratios(
        column.at(one.place),
        one.over,
        column.at(other.place),
        other.over,
    )
}

// The order by the rows outside the root, where the constants are equal.
fn compare_behind(dict: &Dict, order: &Order, before: &[Label], pair: &Pair<Num>) -> Ordering
    requires before { before.now ≡ before_root dict.now order.now }
    requires pair { ArePair dict.now pair.now }
    ensures { pair.now.one.row ≢ pair.now.other.row → constant_gap (table_of dict.now) pair.now ≡ pos 0 →
        result ≡ lex_sign_of (pair_gaps dict.now order.now pair.now) }
{
    // the labels ascend, those of the cobasis too, and the denominator is positive
    let (_all, _cobasis, _denominator) = (dict.labels(), dict.cobasis(), dict.denominator());
    let end = end_of(order, pair.one.row, pair.other.row);
    'labels: for k in before {
        if is_behind(*k, &end) {
            return end_sign(pair.one.row, &end);
        }
        let here = gap_sign(dict, pair, *k);
        if differs(here) {
            return here;
        }
    }
    end_sign(pair.one.row, &end)
}

/// The first of two rows that is outside the root.
#[inline(always)]
pub(crate) fn end_of(order: &Order, one: Label, other: Label) -> Option<Label>
    ensures { IsEnd order.now one other result }
{
    let (less, greater) = if one.number() < other.number() {
        (one, other)
    } else {
        (other, one)
    };
    if order.is_before_root(less) {
        Some(less)
    } else if order.is_before_root(greater) {
        Some(greater)
    } else {
        None
    }
}

/// Whether there is an end, and the label is greater.
#[inline(always)]
pub(crate) fn is_behind(label: Label, end: &Option<Label>) -> bool
    ensures { IsTrue result ↔ IsPastEnd label end.now }
{
    match *end {
        Some(row) => row.number() < label.number(),
        None => false,
    }
}

/// The order at the end: there the list of the row itself is positive, and that of the other is 0.
#[inline(always)]
pub(crate) fn end_sign(one: Label, end: &Option<Label>) -> Ordering
    ensures { result ≡ end_sign one end.now }
{
    match *end {
        Some(row) if row.is_same(one) => Ordering::Greater,
        Some(_) => Ordering::Less,
        None => Ordering::Equal,
    }
}

// The order at a label of the cobasis.
#[inline(always)]
fn gap_sign(dict: &Dict, pair: &Pair<Num>, k: Label) -> Ordering
    requires pair { ArePair dict.now pair.now }
    requires inside { Contains dict.now.key k }
    ensures { result ≡ sign_of (gap_at dict.now.key (table_of dict.now) pair.now k) }
{
    // a list has minus the entry there
    cmp_in_column(dict, dict.column_of(k), &pair.other, &pair.one)
}
