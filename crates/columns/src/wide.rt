//! The exchange of a row and a column in numbers of 127 bits, into another table.
ghost use Rattle.std.specs.Prelude.{◌≡◌, ◌≢◌, ◌<◌, ◌≤◌, ◌+◌, ◌*◌, ◌*ℤ◌, ◌<ℤ◌, IfOk, IfErr, MatchResult, pos, length, unsigned_abs};
ghost use Prim.Native.Nat.{◌∣◌};
ghost use Rattle.columns.specs.Cells.{CellPasses, IsTableAfter, ExchangePasses};
ghost use Rattle.columns.specs.Steps.{AreWideParts, IsScale, IsColumnDone, IsScaled, IsRescaled, PassesScaled, PassesRescaled, IsReached};

use crate::cells::Cells;
use crate::common::is_one;
use crate::exchange::{Passing, Spot, number_at};
use crate::multiplier::WideDivisor;
use crate::parts::{Parts, WideScale};
use crate::wide_column::{
    left_of_column, quotients_of_column, same_column, stays, wide_own_column,
};
use crate::wide_kernel::exact_column;
use poly_num::{Num, mul, quotient};

// The first so many numbers times a factor; the place of the first that passes.
fn scale_numbers(new: &mut [Num], count: usize, factor: Num) -> Result<(), usize>
    requires { count ≤ length new.old }
    ensures { MatchResult result (λ u. IsScaled count factor new.old new.new)
        (λ k. PassesScaled count factor new.old k) }
{
    // new(k) = new(k) factor
    'cells: for k in 0..count {
        match mul(number_at(new, k), factor) {
            Some(z) => new[k] = z,
            None => return Err(k),
        }
    }
    Ok(())
}

// The first so many numbers, which are over a divisor, over a number that divides it; the place of the first that
// passes.
fn numbers_over_less(
    new: &mut [Num],
    count: usize,
    divisor: &WideDivisor,
    less: &WideDivisor,
) -> Result<(), usize>
    requires count { count ≤ length new.old }
    requires divides { unsigned_abs less.now ∣ unsigned_abs divisor.now }
    ensures { MatchResult result (λ u. IsRescaled count divisor.now less.now new.old new.new)
        (λ k. PassesRescaled count divisor.now less.now new.old k) }
{
    let factor = quotient(divisor.number(), less.number());
    if is_one(factor) {
        return Ok(());
    }
    scale_numbers(new, count, factor)
}

// The spot of a place in columns of this height.
fn spot_of(place: usize, height: usize) -> Spot
    requires { 0 < height }
    ensures row { result.row < height }
    ensures same { result.column * height + result.row ≡ place }
{
    Spot {
        row: place % height,
        column: place / height,
    }
}

// The new cells of a column over what is left of the divisor where it is to divide that too, and so the columns
// before; the place at which one passes.
#[cold]
#[inline(never)]
fn column_over_left(
    old: &Cells,
    parts: &Parts<Num>,
    new: &mut [Num],
    column: usize,
    scale: &mut WideScale,
) -> Result<(), Spot>
    requires reached { IsReached old.now parts.now column scale.old.divisor scale.old.factor new.old }
    requires other { column ≢ parts.now.x.now.column }
    ensures done { MatchResult result
        (λ u. IsColumnDone old.now parts.now column scale.old.divisor scale.new.divisor new.old new.new)
        (λ s. CellPasses parts.now.x.now old.now s.row s.column) }
    ensures scale { IfOk result (λ u. IsScale parts.now.x.now scale.new.divisor scale.new.factor) }
{
    let height = parts.x.height;
    let less = left_of_column(old, parts, column, &scale.divisor)?;
    if let Err(place) = numbers_over_less(new, column * height, &scale.divisor, &less) {
        return Err(spot_of(place, height));
    }
    let factor = quotient(parts.x.denominator, less.number());
    let smaller = WideScale {
        divisor: less,
        factor,
    };
    quotients_of_column(old, parts, new, column, &smaller)?;
    *scale = smaller;
    Ok(())
}

// The new cells of a column; where the divisor does not divide it, it shrinks, and the columns before grow. The place
// at which one passes.
fn wide_column(
    old: &Cells,
    parts: &Parts<Num>,
    new: &mut [Num],
    column: usize,
    scale: &mut WideScale,
) -> Result<(), Spot>
    requires reached { IsReached old.now parts.now column scale.old.divisor scale.old.factor new.old }
    ensures done { MatchResult result
        (λ u. IsColumnDone old.now parts.now column scale.old.divisor scale.new.divisor new.old new.new)
        (λ s. CellPasses parts.now.x.now old.now s.row s.column) }
    ensures scale { IfOk result (λ u. IsScale parts.now.x.now scale.new.divisor scale.new.factor) }
{
    if column == parts.x.column {
        return wide_own_column(parts, new, scale);
    }
    if stays(old, parts, column, &scale.divisor) {
        same_column(old, parts, new, column, &scale.divisor);
        return Ok(());
    }
    if exact_column(old, parts, new, column, &scale.divisor) == parts.x.height {
        return Ok(());
    }
    column_over_left(old, parts, new, column, scale)
}

/// Writes the table after the exchange into `new`, and answers the new denominator; where something passes, the place
/// of that, and the numbers there say nothing.
pub(crate) fn wide_into(old: &Cells, parts: &Parts<Num>, new: &mut [Num]) -> Result<Num, Passing>
    requires parts { AreWideParts old.now parts.now }
    requires room { length new.old ≡ parts.now.x.now.width * parts.now.x.now.height }
    ensures exchanged { IfOk result (λ d. IsTableAfter parts.now.x.now old.now d new.new) }
    ensures passes { IfErr result (λ p. ExchangePasses parts.now.x.now old.now p) }
{
    let mut scale = WideScale {
        divisor: WideDivisor::new(parts.x.denominator),
        factor: Num::ONE,
    };
    'columns: for j in 0..parts.x.width {
        if let Err(spot) = wide_column(old, parts, new, j, &mut scale) {
            return Err(Passing::Cell(spot));
        }
    }
    match mul(parts.p, scale.factor) {
        Some(d) => Ok(d),
        None => Err(Passing::Denominator),
    }
}
