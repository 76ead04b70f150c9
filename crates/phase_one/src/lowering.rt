//! Steps that lower t, as long as it is negative in some column.
ghost use Rattle.std.specs.Prelude.{◌≡◌, ◌<◌, ◌<ℤ◌, pos, IfOk, IfErr};
ghost use Rattle.std.specs.List.{Contains};
ghost use Rattle.poly_model.specs.Spaces.{Space};
ghost use Rattle.poly_model.specs.Dictionaries.{Table};
ghost use Rattle.dictionary.specs.Views.{table_of};
ghost use Rattle.phase_one.specs.Lowering.{MayLower, IsOnDescent, IsAtLowest, IsStep, StopsStep, StopsLowering};

use crate::least::{Sought, least_column};
use countdown::Countdown;
use dictionary::{Dict, Steps};
use lex_pivot::{Order, leaving_by};
use poly_model::{Label, Overflow};
use std::sync::ledger::Ledger;

/// Lowers t from its root on: as long as it is negative in some column, the row of the ratio test takes the place of the
/// least such column. Where a pivot overflows, the steps before it have been taken. Takes no memory.
pub fn lower_t<L: Ledger>(
    dict: &mut Dict,
    order: &Order,
    steps: &mut Steps<L>,
) -> Result<(), Overflow>
    requires reached { (first : Space) × MayLower first order.now × IsOnDescent first order.now dict.old }
    ensures lowered { IfOk result (λ _. (first : Space) → MayLower first order.now →
        IsOnDescent first order.now dict.old → IsAtLowest first order.now dict.new) }
    ensures overflow { IfErr result (λ o. (first : Space) → MayLower first order.now →
        IsOnDescent first order.now dict.old → StopsLowering first order.now o) }
{
    let mut left = Countdown::full();
    'steps: while let Some(col) = least_column(dict, order, Sought::Negative) {
        left.lower();
        lower_once(dict, order, col, steps)?;
    }
    Ok(())
}

// One step, in a column in which t is negative. Where its pivot overflows, nothing has changed.
fn lower_once<L: Ledger>(
    dict: &mut Dict,
    order: &Order,
    col: Label,
    steps: &mut Steps<L>,
) -> Result<(), Overflow>
    requires t { Contains dict.old.labels 0 }
    requires column { Contains dict.old.key col }
    requires negative { Table.entry (table_of dict.old) 0 col <ℤ pos 0 }
    ensures step { IfOk result (λ _. IsStep dict.old order.now col dict.new) }
    ensures unchanged { IfErr result (λ _. dict.new ≡ dict.old) }
    ensures stops { IfErr result (λ o. StopsStep dict.old order.now col o) }
{
    // the row of t itself is negative in the column, so some row leaves
    let (_cobasis, _denominator) = (dict.cobasis(), dict.denominator());
    match leaving_by(dict, order, col) {
        Some(row) => dict.pivot(row, col, steps),
        None => Ok(()),
    }
}
