//! Gauss's elimination in a dictionary: rows enter the cobasis, each for the least coordinate at which it is not 0.
ghost use Rattle.std.specs.Prelude.{◌≡◌, ◌≢◌, ◌↔◌, ◌≤◌, ◌<◌, ◌+◌, ℕ, IsTrue, IsFalse, IsNone, IfSome, IfOk, IfErr, IsErrOf, pos, length};
ghost use Rattle.std.specs.List.{Contains};
ghost use Rattle.poly_model.specs.Labels.{IsRow, IsCoordinate};
ghost use Rattle.poly_model.specs.declared.overflow.Overflow.{Overflow as Passed};
ghost use Rattle.poly_model.specs.Dictionaries.{Table};
ghost use Rattle.poly_model.specs.Overflows.{Passes};
ghost use Rattle.poly_model.specs.Systems.{Polyhedron, cone_of, row_of};
ghost use Rattle.dictionary.specs.Blanks.{IsBlankOf};
ghost use Rattle.dictionary.specs.Views.{table_of, CanPivot};
ghost use Rattle.linearity.specs.Columns.{IsLeastColumn, IsZeroAtCoordinates};
ghost use Rattle.linearity.specs.Elimination.{IsDictionaryOf, IsEliminated, tries_others};
ghost use Rattle.linearity.specs.Turns.{KeepsShape, OverflowsFor, IsEntered, Eliminates, StopsAt};

use dictionary::{Dict, Steps};
use poly_model::{Label, Overflow, System};
use std::marker::Brand;
use std::sync::ledger::{Blank, Ledger};

/// Which rows a pass of elimination tries.
#[derive(Clone, Copy, PartialEq, Eq, Debug)]
pub enum Pass {
    /// The linear rows, which are first.
    Linear,
    /// The other rows.
    Others,
}

impl Pass {
    // Whether it tries a row that is linear, or is not.
    fn tries(self, linear: bool) -> bool
        ensures { IsTrue result ↔ (linear ≢ tries_others self) }
    {
        match self {
            Pass::Linear => linear,
            Pass::Others => !linear,
        }
    }
}

// Whether a label of the cobasis is a coordinate at which a row is not 0: then the row can take its place.
fn is_column(dict: &Dict, row: Label, label: Label) -> bool
    requires label { Contains dict.now.labels row }
    requires row { IsRow row }
    requires column { Contains dict.now.key label }
    ensures coordinate { IsTrue result → IsCoordinate label }
    ensures pivots { IsTrue result → CanPivot dict.now row label }
    ensures zero { IsFalse result → IsCoordinate label → Table.entry (table_of dict.now) row label ≡ pos 0 }
{
    label.is_coordinate() && dict.entry(row, label).get() != 0
}

// The least coordinate in the cobasis at which a row is not 0, if any: then the row can take its place.
fn least_column(dict: &Dict, row: Label) -> Option<Label>
    requires label { Contains dict.now.labels row }
    requires row { IsRow row }
    ensures some { IfSome result (λ k. IsLeastColumn dict.now row k) }
    ensures pivots { IfSome result (λ k. CanPivot dict.now row k) }
    ensures none { IsNone result → IsZeroAtCoordinates dict.now row }
{
    let key = dict.key();
    'labels: for label in key.labels() {
        if is_column(dict, row, *label) {
            return Some(*label);
        }
    }
    None
}

// A row enters the cobasis for that coordinate, where there is one. Where the pivot overflows, nothing has changed. The
// blank is for the pivot's counter, of which nothing is said.
fn enter<L: Ledger>(dict: &mut Dict, row: Label, blank: Blank) -> Result<(), Overflow>
    requires label { Contains dict.old.labels row }
    requires row { IsRow row }
    requires blank { IsBlankOf blank.name blank.parts L.name L.parts }
    ensures entered { IfOk result (λ _. IsEntered dict.old row dict.new) }
    ensures unchanged { IfErr result (λ _. dict.new ≡ dict.old) }
    ensures overflows { IfErr result (λ o. (k : ℕ) × OverflowsFor dict.old row k o) }
{
    match least_column(dict, row) {
        Some(col) => dict.pivot(row, col, &mut Steps::<L>::new(blank)),
        None => Ok(()),
    }
}

// Whether a row is tried in a pass: it is a label, and linear in the first pass, not linear in the second.
fn is_tried(dict: &Dict, sys: &System, i: u32, pass: Pass) -> bool
    requires from_one { 0 < i }
    requires within { i ≤ length sys.now.rows }
    requires few { IsRow i }
    ensures label { IsTrue result → Contains dict.now.labels i }
    ensures kind { IsTrue result → (row_of sys.now.rows i).linear ≢ tries_others pass }
    ensures otherwise { IsFalse result → Contains dict.now.labels i → (row_of sys.now.rows i).linear ≡ tries_others pass }
{
    dict.has_label(Label::row(i)) && pass.tries(sys.is_linear(i))
}

// Tries a row in a pass. Where its pivot overflows, nothing has changed.
fn try_row(dict: &mut Dict, sys: &System, i: u32, pass: Pass) -> Result<(), Overflow>
    requires from_one { 0 < i }
    requires within { i ≤ length sys.now.rows }
    requires few { IsRow i }
    ensures tried { IfOk result (λ _. Eliminates sys.now pass i (i + 1) dict.old dict.new) }
    ensures shape { KeepsShape dict.old dict.new }
    ensures unchanged { IfErr result (λ _. dict.new ≡ dict.old) }
    ensures kind { IfErr result (λ _. (row_of sys.now.rows i).linear ≢ tries_others pass) }
    ensures overflows { IfErr result (λ o. (k : ℕ) × OverflowsFor dict.old i k o) }
    ensures passes { (o : Passed) → IsErrOf result o → (p : Polyhedron) → sys.now ≡ cone_of p →
        IsDictionaryOf p dict.old → Passes p o }
    ensures phase { (o : Passed) → IsErrOf result o → o.phase ≡ dict.old.phase }
{
    if is_tried(dict, sys, i, pass) {
        enter::<Brand>(dict, Label::row(i), Blank::new(1))
    } else {
        Ok(())
    }
}

/// Tries rows of a system for the cobasis, in ascending order: each enters for the least coordinate at which it is not
/// 0, where there is one (Gauss). The first pass tries the linear rows, the second one the others. Rows that are no
/// labels of the dictionary are passed over (the row at infinity, where the dictionary has constants). Where a pivot
/// overflows, the rows before it have been tried. Takes no memory.
pub fn enter_rows(dict: &mut Dict, sys: &System, pass: Pass) -> Result<(), Overflow>
    ensures entered { IfOk result (λ _. (p : Polyhedron) → sys.now ≡ cone_of p → IsDictionaryOf p dict.old →
        IsEliminated sys.now.rows pass 1 dict.old →
        IsDictionaryOf p dict.new × IsEliminated sys.now.rows pass (length sys.now.rows + 1) dict.new) }
    ensures stopped { IfErr result (λ o. (i : ℕ) × StopsAt sys.now pass i dict.old dict.new o) }
    ensures fewer { (k : ℕ) → Contains dict.new.key k → IsCoordinate k → Contains dict.old.key k }
    ensures phase { dict.new.phase ≡ dict.old.phase }
    ensures labels { dict.new.labels ≡ dict.old.labels }
    ensures width { length dict.new.columns ≡ length dict.old.columns }
    ensures passes { (o : Passed) → IsErrOf result o → (p : Polyhedron) → sys.now ≡ cone_of p →
        IsDictionaryOf p dict.old → Passes p o }
    ensures passing_phase { (o : Passed) → IsErrOf result o → o.phase ≡ dict.old.phase }
{
    'rows: for i in 1..sys.rows() + 1 {
        try_row(dict, sys, i, pass)?;
    }
    Ok(())
}
