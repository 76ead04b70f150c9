//! Equations and free columns are taken out of a system before it is searched.
ghost use Rattle.std.specs.Prelude.{◌≡◌, ◌≤◌, ◌<◌, ◌↔◌, pos, true, length, IfOk, IsErrOf, IsTrue};
ghost use Rattle.std.specs.Result.{OnOk};
ghost use Rattle.std.specs.List.{Contains};
ghost use Rattle.poly_model.specs.declared.overflow.Overflow.{Overflow as Passed};
ghost use Rattle.poly_model.specs.Systems.{Polyhedron, row_of, cone_of};
ghost use Rattle.poly_model.specs.Dictionaries.{Table};
ghost use Rattle.dictionary.specs.Views.{table_of};
ghost use Rattle.poly_model.specs.Limits.{most_cone_rows};
ghost use Rattle.poly_model.specs.Equations.{AreConsistent};
ghost use Rattle.poly_model.specs.Due.{IsDue, IsAskedBefore};
ghost use Rattle.linearity.specs.Prepared.{HasNoConstants, IsPrepared, EndsElimination, BeginsElimination};

use crate::eliminate::{Pass, enter_rows};
use crate::lines::{free_columns, lines_of};
use crate::prepared::Prepared;
use dictionary::Dict;
use poly_model::{Label, OutOfMemory, Overflow, Phase, System};
use std::alloc::Global;

/// Why a system could not be prepared: its equations have no common point, a number of a dictionary would pass 127
/// bits, or there was no memory.
#[derive(Clone, Copy, PartialEq, Eq, Debug)]
pub enum PrepareStop {
    Inconsistent,
    Overflow(Overflow),
    Memory,
}

/// The free columns of a system, its lines, and the dictionary of its start cobasis in the phase `Main`. `Inconsistent`
/// comes exactly where the equations have no common point, if no overflow or want of memory came before. An overflow
/// comes only at a pivot in which a linear row, or, where the equations have a common point, a row of the start cobasis
/// enters in the place of a coordinate; beside coordinates the cobasis has only such rows. The system is left as it is,
/// whatever the answer; memory that was taken by then is given back.
///
/// Rows enter a dictionary of the phase `Prepare`, each for the least coordinate at which it is not 0: first the linear
/// ones, then the others. What is left are the free columns.
pub fn prepare(alloc: Global, sys: &System) -> Result<Prepared, PrepareStop>
    ensures prepared { IfOk result (λ r. (p : Polyhedron) → sys.now ≡ cone_of p →
        IsPrepared p r.lines r.free r.dictionary) }
    ensures inconsistent { IsErrOf result PrepareStop.Inconsistent → (p : Polyhedron) → sys.now ≡ cone_of p →
        AreConsistent p → ⊥ }
    ensures overflow { (o : Passed) → IsErrOf result (PrepareStop.Overflow o) →
        (p : Polyhedron) → sys.now ≡ cone_of p → IsDue p o (IsAskedBefore p o) }
{
    sys.keeps_limits();
    let Ok(mut dict) = Dict::new(alloc, sys, Phase::Prepare) else {
        return Err(PrepareStop::Memory);
    };
    eliminate_rows(&mut dict, sys)?;
    match enter_main(alloc, sys, dict) {
        Ok(prepared) => Ok(prepared),
        Err(_) => Err(PrepareStop::Memory),
    }
}

// Tries the linear rows, asks whether they have a common point, and then tries the others.
fn eliminate_rows(dict: &mut Dict, sys: &System) -> Result<(), PrepareStop>
    ensures ended { OnOk result ((p : Polyhedron) → sys.now ≡ cone_of p → BeginsElimination p dict.old →
        EndsElimination p dict.new) }
    ensures inconsistent { IsErrOf result PrepareStop.Inconsistent → (p : Polyhedron) → sys.now ≡ cone_of p →
        BeginsElimination p dict.old → AreConsistent p → ⊥ }
    ensures overflow { (o : Passed) → IsErrOf result (PrepareStop.Overflow o) →
        (p : Polyhedron) → sys.now ≡ cone_of p → BeginsElimination p dict.old → IsDue p o (IsAskedBefore p o) }
    ensures memory { IsErrOf result PrepareStop.Memory → ⊥ }
{
    if let Err(overflow) = enter_rows(dict, sys, Pass::Linear) {
        return Err(PrepareStop::Overflow(overflow));
    }
    if !are_consistent(dict, sys) {
        return Err(PrepareStop::Inconsistent);
    }
    match enter_rows(dict, sys, Pass::Others) {
        Ok(()) => Ok(()),
        Err(overflow) => Err(PrepareStop::Overflow(overflow)),
    }
}

// Whether the constant of each linear row is 0.
fn are_consistent(dict: &Dict, sys: &System) -> bool
    ensures { IsTrue result ↔ HasNoConstants sys.now dict.now }
{
    'rows: for i in 0..sys.rows() {
        if !is_consistent_at(dict, sys, i + 1) {
            return false;
        }
    }
    true
}

// Whether the constant of row i, counted from 1, is 0 if it is linear.
fn is_consistent_at(dict: &Dict, sys: &System, i: u32) -> bool
    requires from_one { 0 < i }
    requires within { i ≤ length sys.now.rows }
    requires few { i ≤ most_cone_rows }
    ensures { IsTrue result ↔ (Contains dict.now.labels i → (row_of sys.now.rows i).linear ≡ true →
        Table.constant (table_of dict.now) i ≡ pos 0) }
{
    let row = Label::row(i);
    if dict.has_label(row) && sys.is_linear(i) {
        dict.constant(row).get() == 0
    } else {
        true
    }
}

// What is prepared from a dictionary at which all rows have been tried.
fn enter_main(alloc: Global, sys: &System, dict: Dict) -> Result<Prepared, OutOfMemory>
    ensures { IfOk result (λ r. (p : Polyhedron) → sys.now ≡ cone_of p → EndsElimination p dict →
        IsPrepared p r.lines r.free r.dictionary) }
{
    let n = sys.n();
    let free = free_columns(alloc, &dict)?;
    let lines = lines_of(alloc, &dict, n)?;
    let dict = dict.to_main(sys, &free)?;
    Ok(Prepared { lines, free, dict })
}
