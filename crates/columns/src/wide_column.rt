//! The new wide numbers of one column.
ghost use Rattle.std.specs.Prelude.{◌≡◌, ◌≢◌, ◌<◌, ◌*◌, ◌*ℤ◌, ◌<ℤ◌, ℤ, List, IsTrue, IfOk, MatchOption, MatchResult, pos, length};
ghost use Rattle.columns.specs.Cells.{cell_at, CellPasses};
ghost use Rattle.columns.specs.Steps.{AreWideParts, IsOtherColumn, IsScale, IsNumerator, IsLeftOfRow, IsLeftOfColumn, DividesColumn, IsColumnWritten, AreKept};

use crate::cells::Cells;
use crate::common::signed_over;
use crate::exchange::{Spot, number_at};
use crate::multiplier::{WideDivisor, shared_divisor};
use crate::parts::{Parts, WideScale};
use crate::wide_kernel::exact_column;
use poly_num::{Num, cross, mul, neg, quotient};

// What is to be divided in another column and another row than the exchange's; `None` where that passes.
fn numerator(old: &Cells, parts: &Parts<Num>, column: usize, i: usize) -> Option<Num>
    requires parts { AreWideParts old.now parts.now }
    requires within { column < parts.now.x.now.width }
    requires other { column ≢ parts.now.x.now.column }
    requires row { i < parts.now.x.now.height }
    requires other_row { i ≢ parts.now.x.now.row }
    ensures { MatchOption result (CellPasses parts.now.x.now old.now i column)
        (λ n. IsNumerator old.now parts.now column i n) }
{
    let x = parts.x;
    let e = old.at(x.height, i, column);
    let b = old.at(x.height, x.row, column);
    cross(e, parts.p, number_at(parts.own, i), b)
}

// The new cell of the exchange's row in another column, which the divisor always divides; `None` where it passes.
fn leaving_cell(old: &Cells, parts: &Parts<Num>, column: usize, scale: &WideScale) -> Option<Num>
    requires parts { AreWideParts old.now parts.now }
    requires within { column < parts.now.x.now.width }
    requires other { column ≢ parts.now.x.now.column }
    requires scale { IsScale parts.now.x.now scale.now.divisor scale.now.factor }
    ensures { MatchOption result (CellPasses parts.now.x.now old.now parts.now.x.now.row column)
        (λ z. IsNumerator old.now parts.now column parts.now.x.now.row (z *ℤ scale.now.divisor)) }
{
    let x = parts.x;
    let b = old.at(x.height, x.row, column);
    let over = signed_over(b, parts.factors.sign, parts.factors.common);
    mul(neg(over), scale.factor)
}

// What is left of a divisor where it is to divide one row of a column; `None` where what is to be divided passes.
fn left_of_row(
    old: &Cells,
    parts: &Parts<Num>,
    column: usize,
    i: usize,
    divisor: WideDivisor,
) -> Option<WideDivisor>
    requires parts { AreWideParts old.now parts.now }
    requires within { column < parts.now.x.now.width }
    requires other { column ≢ parts.now.x.now.column }
    requires row { i < parts.now.x.now.height }
    ensures { MatchOption result (CellPasses parts.now.x.now old.now i column)
        (λ h. IsLeftOfRow old.now parts.now column i divisor h) }
{
    // a divisor is positive
    let g = divisor.number();
    if i == parts.x.row {
        return Some(divisor);
    }
    let n = numerator(old, parts, column, i)?;
    Some(shared_divisor(divisor, n))
}

// What is left of the divisor where it is to divide a column; the place at which what is to be divided passes.
pub(crate) fn left_of_column(
    old: &Cells,
    parts: &Parts<Num>,
    column: usize,
    divisor: &WideDivisor,
) -> Result<WideDivisor, Spot>
    requires parts { AreWideParts old.now parts.now }
    requires within { column < parts.now.x.now.width }
    requires other { column ≢ parts.now.x.now.column }
    ensures left { MatchResult result
        (λ h. IsLeftOfColumn old.now parts.now column parts.now.x.now.height divisor.now h)
        (λ s. CellPasses parts.now.x.now old.now s.row s.column) }
    ensures divides { IfOk result (λ h. DividesColumn old.now parts.now column parts.now.x.now.height h) }
{
    // a divisor is positive
    let g = divisor.number();
    let mut common = divisor.copied();
    // common = gcd(common, numerator(i))
    'rows: for i in 0..parts.x.height {
        match left_of_row(old, parts, column, i, common) {
            Some(h) => common = h,
            None => return Err(Spot { row: i, column }),
        }
    }
    Ok(common)
}

// The new cell in row i of another column than the exchange's, which the divisor divides; `None` where it passes.
fn new_cell(
    old: &Cells,
    parts: &Parts<Num>,
    column: usize,
    i: usize,
    scale: &WideScale,
) -> Option<Num>
    requires parts { AreWideParts old.now parts.now }
    requires within { column < parts.now.x.now.width }
    requires other { column ≢ parts.now.x.now.column }
    requires row { i < parts.now.x.now.height }
    requires scale { IsScale parts.now.x.now scale.now.divisor scale.now.factor }
    requires divides { DividesColumn old.now parts.now column parts.now.x.now.height scale.now.divisor }
    ensures { MatchOption result (CellPasses parts.now.x.now old.now i column)
        (λ q. IsNumerator old.now parts.now column i (q *ℤ scale.now.divisor)) }
{
    if i == parts.x.row {
        return leaving_cell(old, parts, column, scale);
    }
    let n = numerator(old, parts, column, i)?;
    Some(quotient(n, scale.divisor.number()))
}

// The new cells of another column than the exchange's, which the divisor divides; the place at which one passes.
fn divided_column(
    old: &Cells,
    parts: &Parts<Num>,
    new: &mut [Num],
    column: usize,
    scale: &WideScale,
) -> Result<(), Spot>
    requires parts { AreWideParts old.now parts.now }
    requires inside { IsOtherColumn parts.now.x.now column new.old }
    requires scale { IsScale parts.now.x.now scale.now.divisor scale.now.factor }
    requires divides { DividesColumn old.now parts.now column parts.now.x.now.height scale.now.divisor }
    ensures written { MatchResult result
        (λ u. IsColumnWritten old.now parts.now column parts.now.x.now.height scale.now.divisor new.new)
        (λ s. CellPasses parts.now.x.now old.now s.row s.column) }
    ensures kept { AreKept (column * parts.now.x.now.height) new.old new.new }
{
    let height = parts.x.height;
    // new(i) = (old(i, column) p - own(i) b) / divisor, and in the exchange's row - u b / divisor
    'cells: for i in 0..height {
        match new_cell(old, parts, column, i, scale) {
            Some(q) => new[column * height + i] = q,
            None => return Err(Spot { row: i, column }),
        }
    }
    Ok(())
}

// The same; mostly each of them is an exact quotient.
pub(crate) fn quotients_of_column(
    old: &Cells,
    parts: &Parts<Num>,
    new: &mut [Num],
    column: usize,
    scale: &WideScale,
) -> Result<(), Spot>
    requires parts { AreWideParts old.now parts.now }
    requires inside { IsOtherColumn parts.now.x.now column new.old }
    requires scale { IsScale parts.now.x.now scale.now.divisor scale.now.factor }
    requires divides { DividesColumn old.now parts.now column parts.now.x.now.height scale.now.divisor }
    ensures written { MatchResult result
        (λ u. IsColumnWritten old.now parts.now column parts.now.x.now.height scale.now.divisor new.new)
        (λ s. CellPasses parts.now.x.now old.now s.row s.column) }
    ensures kept { AreKept (column * parts.now.x.now.height) new.old new.new }
{
    if exact_column(old, parts, new, column, &scale.divisor) == parts.x.height {
        return Ok(());
    }
    divided_column(old, parts, new, column, scale)
}

// Whether the exchange takes nothing of a column, and multiplies it by what it divides by.
pub(crate) fn stays(old: &Cells, parts: &Parts<Num>, column: usize, divisor: &WideDivisor) -> bool
    requires parts { AreWideParts old.now parts.now }
    requires within { column < parts.now.x.now.width }
    ensures nothing { IsTrue result →
        cell_at parts.now.x.now.height old.now parts.now.x.now.row column ≡ pos 0 }
    ensures same { IsTrue result → parts.now.p ≡ divisor.now }
{
    let b = old.at(parts.x.height, parts.x.row, column);
    b == Num::ZERO && parts.p == divisor.number()
}

// The cells of a column that stays.
pub(crate) fn same_column(
    old: &Cells,
    parts: &Parts<Num>,
    new: &mut [Num],
    column: usize,
    divisor: &WideDivisor,
)
    requires parts { AreWideParts old.now parts.now }
    requires inside { IsOtherColumn parts.now.x.now column new.old }
    requires nothing { cell_at parts.now.x.now.height old.now parts.now.x.now.row column ≡ pos 0 }
    requires same { parts.now.p ≡ divisor.now }
    ensures written { IsColumnWritten old.now parts.now column parts.now.x.now.height divisor.now new.new }
    ensures kept { AreKept (column * parts.now.x.now.height) new.old new.new }
{
    let height = parts.x.height;
    // new(i) = old(i, column)
    'cells: for i in 0..height {
        let e = old.at(height, i, column);
        new[column * height + i] = e;
    }
}

// The new cells of the exchange's column; the place at which one passes.
pub(crate) fn wide_own_column(
    parts: &Parts<Num>,
    new: &mut [Num],
    scale: &WideScale,
) -> Result<(), Spot>
    requires own { length parts.now.own.now ≡ parts.now.x.now.height }
    requires room { length new.old ≡ parts.now.x.now.width * parts.now.x.now.height }
    requires within { parts.now.x.now.column < parts.now.x.now.width }
    requires scale { IsScale parts.now.x.now scale.now.divisor scale.now.factor }
    ensures written { MatchResult result
        (λ u. (cells : List ℤ) → AreWideParts cells parts.now → IsColumnWritten cells parts.now
        parts.now.x.now.column parts.now.x.now.height scale.now.divisor new.new)
        (λ s. (cells : List ℤ) → AreWideParts cells parts.now → CellPasses parts.now.x.now cells s.row s.column) }
    ensures kept { AreKept (parts.now.x.now.column * parts.now.x.now.height) new.old new.new }
{
    let height = parts.x.height;
    let column = parts.x.column;
    // new(i) = own(i) factor, where the exchange's row has u
    'cells: for i in 0..height {
        match mul(number_at(parts.own, i), scale.factor) {
            Some(q) => new[column * height + i] = q,
            None => return Err(Spot { row: i, column }),
        }
    }
    Ok(())
}
