//! The way to a key: each pivot takes a label of it into the cobasis, in the place of one that is none of it.
ghost use Rattle.std.specs.Prelude.{◌≡◌, ◌≤◌, ◌↔◌, ◌+◌, ℕ, IsTrue, IsFalse, IfOk, IfErr, pos, length};
ghost use Rattle.std.specs.List.{Contains};
ghost use Rattle.std.specs.Option.{MatchOption};
ghost use Rattle.poly_model.specs.Dictionaries.{Table};
ghost use Rattle.poly_model.specs.Keys.{IsAscending};
ghost use Rattle.poly_model.specs.LexOrder.{rows_in};
ghost use Rattle.poly_model.specs.Spaces.{is_member};
ghost use Rattle.dictionary.specs.Views.{table_of};
ghost use Rattle.lex_pivot.specs.Feasible.{AreListsPositive};
ghost use Rattle.reverse_step.specs.Walks.{AreAlike};
ghost use Rattle.reverse_step.specs.Ways.{LiesBetween, GivesWay, NoneGivesWay, StopsOnTheWay, IsTakenIn, AreTakenIn, Reaches};

use dictionary::{Dict, Steps};
use lex_pivot::{Order, is_lex_feasible_by};
use poly_model::{Key, Label, Overflow};
use std::sync::ledger::Ledger;

/// Goes in the other dictionary from this one to a key: true where it is there, and the key is a lexicographically feasible
/// cobasis, false where it is none. At most one pivot for each of its labels. Takes no memory.
pub(crate) fn reach<L: Ledger>(
    here: &Dict,
    other: &mut Dict,
    order: &Order,
    key: &Key,
    steps: &mut Steps<L>,
) -> Result<bool, Overflow>
    requires { AreAlike here.now other.old }
    ensures reached { IfOk result (λ b. Reaches order.now here.now key.now b other.new) }
    ensures alike { AreAlike here.now other.new }
    ensures stops { IfErr result (λ o. StopsOnTheWay here.now key.now o) }
    ensures counted { steps.new ≤ steps.old + length key.now }
{
    if !are_rows(here, key.labels()) {
        return Ok(false);
    }
    here.copy_into(other);
    if !enter_all(other, key.labels(), steps)? {
        return Ok(false);
    }
    Ok(is_at(other, key) && is_lex_feasible_by(other, order))
}

// Whether its cobasis has these labels.
fn is_at(dict: &Dict, key: &Key) -> bool
    ensures same { IsTrue result ↔ (dict.now.key ≡ key.now) }
    ensures ascending { IsAscending dict.now.key }
{
    dict.cobasis() == key.labels()
}

// Whether each is the label of a row of the dictionary.
fn are_rows(dict: &Dict, labels: &[Label]) -> bool
    ensures { IsTrue result ↔ ((k : ℕ) → Contains labels.now k → Contains (rows_in dict.now.labels) k) }
{
    'labels: for label in labels {
        if !is_row_of(dict, *label) {
            return false;
        }
    }
    true
}

fn is_row_of(dict: &Dict, label: Label) -> bool
    ensures { IsTrue result ↔ Contains (rows_in dict.now.labels) label }
{
    label.is_row() && dict.has_label(label)
}

// Each label of the key enters. False where the key is no cobasis. Where a pivot overflows, the labels before it have
// entered.
fn enter_all<L: Ledger>(
    dict: &mut Dict,
    key: &[Label],
    steps: &mut Steps<L>,
) -> Result<bool, Overflow>
    requires { (k : ℕ) → Contains key.now k → Contains dict.old.labels k }
    ensures way { LiesBetween dict.old key.now dict.new }
    ensures entered { IfOk result (λ b. AreTakenIn dict.old key.now b dict.new) }
    ensures stops { IfErr result (λ o. StopsOnTheWay dict.old key.now o) }
    ensures counted { steps.new ≤ steps.old + length key.now }
{
    'labels: for (i, label) in key.iter().enumerate() {
        if !enter(dict, *label, key, steps)? {
            return Ok(false);
        }
    }
    Ok(true)
}

// A label of the key enters the cobasis, where it is not in it, for one that is none of the key. False where the key is no
// cobasis. Then, and where the pivot overflows, nothing has changed.
fn enter<L: Ledger>(
    dict: &mut Dict,
    label: Label,
    key: &[Label],
    steps: &mut Steps<L>,
) -> Result<bool, Overflow>
    requires label { Contains dict.old.labels label }
    requires key { Contains key.now label }
    ensures way { LiesBetween dict.old key.now dict.new }
    ensures kept { (k : ℕ) → Contains key.now k → Contains dict.old.key k → Contains dict.new.key k }
    ensures entered { IfOk result (λ b. IsTakenIn dict.old key.now label b dict.new) }
    ensures stops { IfErr result (λ o. StopsOnTheWay dict.old key.now o) }
    ensures counted { steps.new ≤ steps.old + 1 }
{
    if dict.in_cobasis(label) {
        return Ok(true);
    }
    match column_for(dict, label, key) {
        Some(col) => {
            dict.pivot(label, col, steps)?;
            Ok(true)
        }
        None => Ok(false),
    }
}

// The first label of the cobasis that is none of the key and whose place the row can take.
fn column_for(dict: &Dict, row: Label, key: &[Label]) -> Option<Label>
    requires label { Contains dict.now.labels row }
    requires outside { Contains dict.now.key row → ⊥ }
    ensures { MatchOption result (NoneGivesWay dict.now key.now row) (λ s. GivesWay dict.now key.now row s) }
{
    let labels = dict.cobasis();
    'labels: for col in labels {
        if gives_way(dict, row, *col, key) {
            return Some(*col);
        }
    }
    None
}

fn gives_way(dict: &Dict, row: Label, col: Label, key: &[Label]) -> bool
    requires label { Contains dict.now.labels row }
    requires outside { Contains dict.now.key row → ⊥ }
    requires column { Contains dict.now.key col }
    ensures yes { IsTrue result → GivesWay dict.now key.now row col }
    ensures no { IsFalse result → (Contains key.now col → ⊥) → Table.entry (table_of dict.now) row col ≡ pos 0 }
{
    dict.entry(row, col).get() != 0 && !is_one_of(key, col)
}

fn is_one_of(labels: &[Label], label: Label) -> bool
    ensures { result ≡ is_member label labels.now }
{
    labels.iter().any(|k| k.is_same(label))
}
