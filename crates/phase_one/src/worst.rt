//! The row of the first exchange: that of least constant.
ghost use Rattle.std.specs.Prelude.{◌++◌, ◌∷◌, ◌<◌, ◌<ℤ◌, ◌↔◌, [], ℕ, List, pos, IsTrue, IfSome};
ghost use Rattle.std.specs.List.{Contains};
ghost use Rattle.std.specs.Option.{MatchOption};
ghost use Rattle.poly_model.specs.Dictionaries.{Table};
ghost use Rattle.dictionary.specs.Views.{table_of};
ghost use Rattle.phase_one.specs.SoFar.{IsLeastSoFar};
ghost use Rattle.phase_one.specs.Worst.{IsNegativeRow, NoneNegative, IsWorstRow, IsWorse};

use dictionary::Dict;
use lex_pivot::is_outside;
use poly_model::Label;

/// Of the rows outside the cobasis with a negative constant that of least constant, and of several of these the least
/// one. None where no constant of a row is negative.
pub fn first_worst(dict: &Dict) -> Option<Label>
    ensures { MatchOption result (NoneNegative dict.now) (λ r. IsWorstRow dict.now r) }
{
    let labels = dict.labels();
    let mut worst: Option<Label> = None;
    'rows: for i in 0..labels.len() {
        worst = worse(dict, worst, labels[i]);
    }
    worst
}

// The worse of the worst row so far and a later one.
fn worse(dict: &Dict, worst: Option<Label>, row: Label) -> Option<Label>
    requires row { Contains dict.now.labels row }
    requires worst { IfSome worst (λ r. Contains dict.now.labels r) }
    ensures label { IfSome result (λ r. Contains dict.now.labels r) }
    ensures worst { (rows : List ℕ) → ((k : ℕ) → Contains rows k → k < row) →
        IsLeastSoFar (IsNegativeRow dict.now) (IsWorse dict.now) rows worst →
        IsLeastSoFar (IsNegativeRow dict.now) (IsWorse dict.now) (rows ++ row ∷ []) result }
{
    if !is_negative_row(dict, row) {
        return worst;
    }
    match worst {
        None => Some(row),
        Some(r) => {
            if is_below(dict, row, r) {
                Some(row)
            } else {
                Some(r)
            }
        }
    }
}

// Whether the row is outside the cobasis and has a negative constant.
fn is_negative_row(dict: &Dict, row: Label) -> bool
    requires { Contains dict.now.labels row }
    ensures { IsTrue result ↔ IsNegativeRow dict.now row }
{
    is_outside(dict, row) && dict.constant(row).get() < 0
}

// Whether the constant of a row is less than that of another.
fn is_below(dict: &Dict, row: Label, other: Label) -> bool
    requires row { Contains dict.now.labels row }
    requires other { Contains dict.now.labels other }
    ensures { IsTrue result ↔ (Table.constant (table_of dict.now) row <ℤ Table.constant (table_of dict.now) other) }
{
    dict.constant(row).get() < dict.constant(other).get()
}
