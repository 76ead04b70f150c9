//! The least column in which t has an entry of a kind.
ghost use Rattle.std.specs.Prelude.{◌++◌, ◌∷◌, ◌↔◌, [], ℕ, List, IsTrue, IfSome};
ghost use Rattle.std.specs.List.{Contains};
ghost use Rattle.std.specs.Option.{MatchOption};
ghost use Rattle.poly_model.specs.LexOrder.{rows_in};
ghost use Rattle.lex_pivot.specs.Above.{IsOfRows};
ghost use Rattle.phase_one.specs.SoFar.{NoneOf, IsLeastSoFar};
ghost use Rattle.phase_one.specs.Columns.{IsSought, HasSought, IsNotLater, IsLeastAmong};

use dictionary::Dict;
use lex_pivot::{Order, comes_before};
use poly_model::Label;
use poly_num::Num;

/// The kind of entry that is sought in the row of t: a negative one, by which t can be lowered, or one that is not 0, for
/// which t can come back.
#[derive(Clone, Copy, PartialEq, Eq, Debug)]
pub enum Sought {
    Negative,
    Nonzero,
}

impl Sought {
    // Whether a number is of this kind.
    fn is_met(self, entry: Num) -> bool
        ensures { IsTrue result ↔ IsSought self entry }
    {
        match self {
            Sought::Negative => entry.get() < 0,
            Sought::Nonzero => entry != Num::ZERO,
        }
    }
}

/// The least label of the cobasis, by the order relative to a root, in whose column the entry of t is of the kind. None
/// where no entry is.
pub fn least_column(dict: &Dict, order: &Order, sought: Sought) -> Option<Label>
    requires t { Contains dict.now.labels 0 }
    requires rows { IsOfRows dict.now }
    ensures { MatchOption result (NoneOf (HasSought dict.now sought) dict.now.key)
        (λ s. IsLeastAmong dict.now order.now sought dict.now.key s) }
{
    let labels = dict.cobasis();
    // the labels of the dictionary ascend
    let _all = dict.labels();
    let mut least: Option<Label> = None;
    'columns: for i in 0..labels.len() {
        least = earlier(dict, order, sought, least, labels[i]);
    }
    least
}

// The earlier of the least column so far and another one.
fn earlier(
    dict: &Dict,
    order: &Order,
    sought: Sought,
    least: Option<Label>,
    col: Label,
) -> Option<Label>
    requires t { Contains dict.now.labels 0 }
    requires column { Contains dict.now.key col }
    requires row { Contains (rows_in dict.now.labels) col }
    requires least { IfSome least (λ s. Contains (rows_in dict.now.labels) s) }
    ensures row { IfSome result (λ s. Contains (rows_in dict.now.labels) s) }
    ensures least { (columns : List ℕ) →
        IsLeastSoFar (HasSought dict.now sought) (IsNotLater dict.now.labels order.now) columns least →
        IsLeastSoFar (HasSought dict.now sought) (IsNotLater dict.now.labels order.now) (columns ++ col ∷ []) result }
{
    // the labels of the dictionary ascend
    let _all = dict.labels();
    if !sought.is_met(dict.entry(Label::EXTRA, col)) {
        return least;
    }
    match least {
        None => Some(col),
        Some(s) => {
            if comes_before(dict, order, col, s) {
                Some(col)
            } else {
                Some(s)
            }
        }
    }
}
