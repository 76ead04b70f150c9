//! Where the divisor does not divide a column of words: it shrinks, and the columns before grow.
ghost use Rattle.std.specs.Option.{IfSome};
ghost use Rattle.std.specs.Prelude.{◌≡◌, ◌≢◌, ◌<◌, ◌*◌, ◌+◌, ℤ, IsTrue, length};
ghost use Rattle.columns.specs.Sizes.{IsOf};
ghost use Rattle.columns.specs.Steps.{AreWordParts, IsOtherColumn, IsScale, IsNumerator, IsLeftOfRow, IsLeftOfColumn, IsShrunk, IsScaled};

use crate::common::shrink;
use crate::exchange::{Exchange, at_place, word_at};
use crate::parts::{Parts, Scale};
use crate::size::Size;
use poly_num::{Num, quotient};
use words::{Word, WordDivisor, product, wide_cross};

// What is to be divided for row i in another column than the exchange's.
fn word_numerator(cells: &[Word], parts: &Parts<Word>, column: usize, i: usize) -> Num
    requires parts { AreWordParts cells.now parts.now }
    requires within { column < parts.now.x.now.width }
    requires other { column ≢ parts.now.x.now.column }
    requires row { i < parts.now.x.now.height }
    ensures { IsNumerator cells.now parts.now column i result }
{
    let x = parts.x;
    let b = word_at(cells, x, x.row, column);
    wide_cross(
        word_at(cells, x, i, column),
        parts.p,
        at_place(parts.own, i),
        b,
    )
}

// What is left of a divisor where it is to divide row i of another column than the exchange's, if that is less; `None`
// where it is not known to be a positive word.
#[cold]
#[inline(never)]
fn left_in_row(
    cells: &[Word],
    parts: &Parts<Word>,
    column: usize,
    i: usize,
    divisor: &WordDivisor,
) -> Option<WordDivisor>
    requires parts { AreWordParts cells.now parts.now }
    requires within { column < parts.now.x.now.width }
    requires other { column ≢ parts.now.x.now.column }
    requires row { i < parts.now.x.now.height }
    ensures { IfSome result (λ h. IsLeftOfRow cells.now parts.now column i divisor.now h) }
{
    // a divisor is positive
    let g = divisor.word();
    let mut less = divisor.copied();
    if !shrink(&mut less, word_numerator(cells, parts, column, i)) {
        return None;
    }
    if less.word() == g { None } else { Some(less) }
}

// What is left of a divisor where it is to divide the first row of a column that it does not divide; `None` where there
// is none, or that is not known to be a positive word.
fn left_of_words(
    cells: &[Word],
    parts: &Parts<Word>,
    column: usize,
    divisor: &WordDivisor,
) -> Option<WordDivisor>
    requires parts { AreWordParts cells.now parts.now }
    requires within { column < parts.now.x.now.width }
    requires other { column ≢ parts.now.x.now.column }
    ensures { IfSome result (λ h.
        IsLeftOfColumn cells.now parts.now column parts.now.x.now.height divisor.now h) }
{
    let x = parts.x;
    let b = word_at(cells, x, x.row, column);
    // a row that it does not divide: cells(i, column) p - own(i) b
    'rows: for i in 0..x.height {
        let e = word_at(cells, x, i, column);
        let c = at_place(parts.own, i);
        match divisor.exact_cross(e, parts.p, c, b) {
            Some(_) => {}
            None => return left_in_row(cells, parts, column, i, divisor),
        }
    }
    None
}

// The words of the columns before a column times a factor, where all fit; else they are lost. Whether all fit.
fn scale_words(new: &mut [Word], x: &Exchange, column: usize, factor: Word) -> bool
    requires room { length new.old ≡ x.now.width * x.now.height }
    requires within { column < x.now.width }
    ensures length { length new.new ≡ length new.old }
    ensures scaled { IsTrue result → IsScaled (column * x.now.height) factor new.old new.new }
{
    // new(k) = new(k) factor
    'cells: for k in 0..column * x.height {
        match product(at_place(new, k), factor) {
            Some(z) => new[k] = z,
            None => return false,
        }
    }
    true
}

// Makes the divisor what is left of it where it is to divide another row of a column, and the columns before grow.
// Whether there is such a row, and all fit.
#[cold]
#[inline(never)]
pub(crate) fn shrink_scale(
    cells: &[Word],
    parts: &Parts<Word>,
    new: &mut [Word],
    column: usize,
    shrinking: &mut Scale,
) -> bool
    requires parts { AreWordParts cells.now parts.now }
    requires inside { IsOtherColumn parts.now.x.now column new.old }
    requires scale { IsScale parts.now.x.now shrinking.old.divisor shrinking.old.factor }
    ensures shrunk { IsTrue result →
        IsShrunk cells.now parts.now column shrinking.old.divisor shrinking.new.divisor new.old new.new }
    ensures scale { IsTrue result → IsScale parts.now.x.now shrinking.new.divisor shrinking.new.factor }
    ensures size { IsTrue result → (z : ℤ) → IsOf shrinking.new.size z }
{
    let g = shrinking.divisor.word();
    let Some(less) = left_of_words(cells, parts, column, &shrinking.divisor) else {
        return false;
    };
    let Some(k) = Word::of(quotient(g.wide(), less.word().wide())) else {
        return false;
    };
    let Some(grown) = product(shrinking.factor, k) else {
        return false;
    };
    if !scale_words(new, parts.x, column, k) {
        return false;
    }
    *shrinking = Scale {
        divisor: less,
        factor: grown,
        size: Size::Words,
    };
    true
}
