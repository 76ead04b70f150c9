//! Whether a cobasis is lexicographically feasible.
ghost use Rattle.std.specs.declared.cmp.Ordering.TheVariants.{Equal};
ghost use Rattle.std.specs.Prelude.{◌≡◌, ◌≢◌, ◌↔◌, IsTrue};
ghost use Rattle.std.specs.List.{Contains};
ghost use Rattle.poly_num.specs.Signs.{sign_of, lex_sign_of};
ghost use Rattle.poly_model.specs.LexOrder.{outside, listed_at, list_of};
ghost use Rattle.dictionary.specs.Views.{table_of};
ghost use Rattle.lex_pivot.specs.Feasible.{AreListsPositive, IsListPositive};

use crate::Order;
use crate::orderings::{differs, is_greater};
use crate::rows::is_outside;
use dictionary::Dict;
use poly_model::{Label, Root};
use poly_num::{Num, neg, sign};
use std::cmp::Ordering;

/// Whether the list of each row outside the cobasis is positive.
pub fn is_lex_feasible(dict: &Dict, root: &Root) -> bool
    ensures { IsTrue result ↔ AreListsPositive dict.now root.now.key }
{
    is_lex_feasible_by(dict, &Order::of(root))
}

/// The same by the order relative to the root.
pub fn is_lex_feasible_by(dict: &Dict, order: &Order) -> bool
    ensures { IsTrue result ↔ AreListsPositive dict.now order.now }
{
    let labels = dict.labels();
    'rows: for row in labels {
        if !is_list_positive(dict, order, *row) {
            return false;
        }
    }
    true
}

// Whether the label is no row outside the cobasis, or has a positive list.
fn is_list_positive(dict: &Dict, order: &Order, row: Label) -> bool
    requires { Contains dict.now.labels row }
    ensures { IsTrue result ↔ IsListPositive dict.now order.now row }
{
    !is_outside(dict, row) || is_greater(list_sign(dict, order, row))
}

// The sign of the first number of its list that is not 0.
fn list_sign(dict: &Dict, order: &Order, row: Label) -> Ordering
    requires { Contains dict.now.labels row }
    ensures { result ≡ lex_sign_of (list_of dict.now.labels order.now dict.now.key (table_of dict.now) row) }
{
    let first = sign(dict.constant(row));
    if differs(first) {
        return first;
    }
    let labels = dict.labels();
    'labels: for k in labels {
        let here = sign_listed(dict, order, row, *k);
        if differs(here) {
            return here;
        }
    }
    Ordering::Equal
}

// The sign of the number at a row outside the root, and else `Equal`.
fn sign_listed(dict: &Dict, order: &Order, row: Label, k: Label) -> Ordering
    requires row { Contains dict.now.labels row }
    requires label { Contains dict.now.labels k }
    ensures value { Contains (outside dict.now.labels order.now) k → result ≡ sign_of (listed_at dict.now.key (table_of dict.now) row k) }
    ensures outside { result ≢ Equal → Contains (outside dict.now.labels order.now) k }
{
    if order.is_before_root(k) {
        sign(listed(dict, row, k))
    } else {
        Ordering::Equal
    }
}

// The number at label `k` in the list of a row.
fn listed(dict: &Dict, row: Label, k: Label) -> Num
    requires { Contains dict.now.labels row }
    ensures { result ≡ listed_at dict.now.key (table_of dict.now) row k }
{
    if k.is_same(row) {
        dict.denominator()
    } else if dict.in_cobasis(k) {
        neg(dict.entry(row, k))
    } else {
        Num::ZERO
    }
}
