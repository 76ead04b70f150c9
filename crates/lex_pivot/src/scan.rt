//! The sign of the last number that is not 0, along the rows of the root and along those outside it.
ghost use Rattle.std.specs.declared.cmp.Ordering.TheVariants.{Equal};
ghost use Rattle.std.specs.Prelude.{◌≡◌, ◌≢◌, map};
ghost use Rattle.std.specs.List.{Contains};
ghost use Rattle.poly_num.specs.Signs.{sign_of, lex_sign_of};
ghost use Rattle.poly_model.specs.LexOrder.{rows_in, within, outside, backwards};
ghost use Rattle.dictionary.specs.Views.{table_of};
ghost use Rattle.lex_pivot.specs.Readings.{reading_at, IsReadable};
ghost use Rattle.lex_pivot.specs.Scans.{IsLead};

pub use crate::orderings::{differs, is_greater, is_less};
use crate::{Order, Reading};
use dictionary::Dict;
use poly_model::Label;
use poly_num::Num;
use std::cmp::Ordering;

/// What a scan of the rows of the root finds: the sign at the greatest that counts, or else `Equal`, and how many labels of
/// the root there are up to it, or else 0.
#[derive(Clone, Copy)]
pub struct Lead {
    pub sign: Ordering,
    pub top: usize,
}

/// The sign of the number of the greatest row of the root at which it is not 0, and else `Equal`.
pub fn root_sign(dict: &Dict, order: &Order, reading: &Reading<Num>) -> Ordering
    requires { IsReadable dict.now.key reading.now }
    ensures { result ≡ lex_sign_of (map (reading_at (table_of dict.now) reading.now) (backwards (within dict.now.labels order.now))) }
{
    root_lead(dict, order, reading).sign
}

/// The lead of the numbers of the rows of the root.
pub(crate) fn root_lead(dict: &Dict, order: &Order, reading: &Reading<Num>) -> Lead
    requires { IsReadable dict.now.key reading.now }
    ensures { IsLead dict.now order.now (reading_at (table_of dict.now) reading.now) result }
{
    // the labels of the dictionary ascend
    let _labels = dict.labels();
    let labels = order.root_labels();
    'rows: for n in (0..labels.len()).rev() {
        let here = row_sign(dict, reading, labels[n]);
        if differs(here) {
            return Lead {
                sign: here,
                top: n + 1,
            };
        }
    }
    Lead {
        sign: Ordering::Equal,
        top: 0,
    }
}

// The sign of the number of a row of the dictionary, and else `Equal`.
#[inline(always)]
fn row_sign(dict: &Dict, reading: &Reading<Num>, row: Label) -> Ordering
    requires { IsReadable dict.now.key reading.now }
    ensures value { Contains (rows_in dict.now.labels) row → result ≡ sign_of (reading_at (table_of dict.now) reading.now row) }
    ensures row { result ≢ Equal → Contains (rows_in dict.now.labels) row }
{
    if row.is_row() && dict.has_label(row) {
        reading.sign_at(dict, row)
    } else {
        Ordering::Equal
    }
}

/// The same of the greatest row outside the root.
pub fn outside_sign(dict: &Dict, order: &Order, reading: &Reading<Num>) -> Ordering
    requires { IsReadable dict.now.key reading.now }
    ensures { result ≡ lex_sign_of (map (reading_at (table_of dict.now) reading.now) (backwards (outside dict.now.labels order.now))) }
{
    let labels = dict.labels();
    'rows: for n in (0..labels.len()).rev() {
        let here = sign_before_root(dict, order, reading, labels[n]);
        if differs(here) {
            return here;
        }
    }
    Ordering::Equal
}

// The sign of the number of a row outside the root, and else `Equal`.
#[inline(always)]
fn sign_before_root(dict: &Dict, order: &Order, reading: &Reading<Num>, row: Label) -> Ordering
    requires row { Contains dict.now.labels row }
    requires columns { IsReadable dict.now.key reading.now }
    ensures value { Contains (outside dict.now.labels order.now) row → result ≡ sign_of (reading_at (table_of dict.now) reading.now row) }
    ensures outside { result ≢ Equal → Contains (outside dict.now.labels order.now) row }
{
    if order.is_before_root(row) {
        reading.sign_at(dict, row)
    } else {
        Ordering::Equal
    }
}
