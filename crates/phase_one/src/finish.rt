//! The end: t is lowered, comes back where it is 0, and goes.
ghost use Rattle.std.specs.Prelude.{◌≡◌, ℕ, List, IfOk, IfErr, IsErrOf};
ghost use Rattle.std.specs.List.{Contains};
ghost use Rattle.poly_model.specs.declared.overflow.Overflow.{Overflow as Passed};
ghost use Rattle.poly_model.specs.Spaces.{Space};
ghost use Rattle.search_laws.specs.PhaseOne.{MeetsRows};
ghost use Rattle.dictionary.specs.FirstPhase.{DropsT};
ghost use Rattle.phase_one.specs.Ending.{IsOnTheWay, IsEnded, StopsEnding, HasTOutside, IsBroughtBack, StopsComingBack};

use crate::least::{Sought, least_column};
use crate::lowering::lower_t;
use crate::stop::FirstStop;
use dictionary::{Dict, Steps};
use lex_pivot::Order;
use poly_model::{Label, Overflow};
use std::sync::ledger::Ledger;

/// Lowers t from the root on. Where it stays positive no vector meets all rows; else the dictionary without t is that of a
/// feasible root. Takes memory for the new table; the old one is given up.
pub fn finish<L: Ledger>(dict: Dict, order: &Order, steps: &mut Steps<L>) -> Result<Dict, FirstStop>
    requires begun { (space : Space) × (start : List ℕ) × IsOnTheWay space start order.now dict }
    ensures ended { IfOk result (λ d. (space : Space) (start : List ℕ) → IsOnTheWay space start order.now dict →
        IsEnded space start order.now d) }
    ensures infeasible { IsErrOf result FirstStop.Infeasible → (space : Space) (start : List ℕ) →
        IsOnTheWay space start order.now dict → MeetsRows space → ⊥ }
    ensures overflow { (o : Passed) → IsErrOf result (FirstStop.Overflow o) → (space : Space) (start : List ℕ) →
        IsOnTheWay space start order.now dict → StopsEnding space start order.now o }
{
    let mut dict = dict;
    if let Err(overflow) = lower_t(&mut dict, order, steps) {
        return Err(FirstStop::Overflow(overflow));
    }
    if dict.in_cobasis(Label::EXTRA) {
        return without_t(dict);
    }
    if dict.constant(Label::EXTRA).is_positive() {
        return Err(FirstStop::Infeasible);
    }
    if let Err(overflow) = bring_back(&mut dict, order, steps) {
        return Err(FirstStop::Overflow(overflow));
    }
    without_t(dict)
}

// t takes the place of the least column in which it is not 0. Where the pivot overflows, nothing has changed.
fn bring_back<L: Ledger>(
    dict: &mut Dict,
    order: &Order,
    steps: &mut Steps<L>,
) -> Result<(), Overflow>
    requires outside { (space : Space) × (start : List ℕ) × HasTOutside space start dict.old }
    ensures back { IfOk result (λ _. IsBroughtBack dict.old order.now dict.new) }
    ensures unchanged { IfErr result (λ _. dict.new ≡ dict.old) }
    ensures stops { IfErr result (λ o. StopsComingBack dict.old o) }
{
    match least_column(dict, order, Sought::Nonzero) {
        Some(col) => dict.pivot(Label::EXTRA, col, steps),
        None => Ok(()),
    }
}

// The dictionary without t.
fn without_t(dict: Dict) -> Result<Dict, FirstStop>
    ensures dropped { IfOk result (λ d. DropsT dict d) }
    ensures memory { IfErr result (λ e. e ≡ FirstStop.Memory) }
{
    match dict.drop_t() {
        Ok(dict) => Ok(dict),
        Err(_) => Err(FirstStop::Memory),
    }
}
