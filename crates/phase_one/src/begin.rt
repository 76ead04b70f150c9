//! The beginning: t comes, and a row takes its place.
ghost use Rattle.std.specs.Prelude.{IfOk, IsErrOf};
ghost use Rattle.poly_model.specs.declared.overflow.Overflow.{Overflow as Passed};
ghost use Rattle.poly_model.specs.Spaces.{Space};
ghost use Rattle.phase_one.specs.Worst.{IsWorstRow};
ghost use Rattle.phase_one.specs.Beginning.{IsStart, IsAtFirstRoot, StopsBeginning};

use crate::stop::FirstStop;
use dictionary::{Dict, Steps};
use poly_model::Label;
use std::sync::ledger::Ledger;

/// Adds t to the dictionary of a start cobasis, and exchanges it for the row of least constant. Takes memory for the new
/// table; the old one is given up.
pub fn begin<L: Ledger>(start: Dict, worst: Label, steps: &mut Steps<L>) -> Result<Dict, FirstStop>
    requires start { (space : Space) × IsStart space start }
    requires worst { IsWorstRow start worst }
    ensures begun { IfOk result (λ d. (space : Space) → IsStart space start → IsAtFirstRoot space start.key worst d) }
    ensures feasible { IsErrOf result FirstStop.Infeasible → ⊥ }
    ensures overflow { (o : Passed) → IsErrOf result (FirstStop.Overflow o) → (space : Space) → IsStart space start →
        StopsBeginning space start.key worst o }
{
    let Ok(mut dict) = start.add_t() else {
        return Err(FirstStop::Memory);
    };
    // the labels ascend
    let _all = dict.labels();
    match dict.pivot(worst, Label::EXTRA, steps) {
        Ok(()) => Ok(dict),
        Err(overflow) => Err(FirstStop::Overflow(overflow)),
    }
}
