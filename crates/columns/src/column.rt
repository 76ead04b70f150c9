//! The new words of one column, by the quickest way that serves.
ghost use Rattle.std.specs.Option.{IfSome};
ghost use Rattle.std.specs.Prelude.{◌≡◌, ◌≢◌, ◌<◌, ◌*◌, ◌*ℤ◌, ℤ, List, IsTrue, pos, length};
ghost use Rattle.std.specs.List.{slice_index_or};
ghost use Rattle.columns.specs.Cells.{cell_at};
ghost use Rattle.columns.specs.Sizes.{AreOf, IsColumnOfSize};
ghost use Rattle.columns.specs.declared.size.Size.TheVariants.{Small};
ghost use Rattle.columns.specs.Steps.{AreWordParts, IsOtherColumn, IsScale, IsColumnWritten, AreKept};

use crate::exchange::{at_place, word_at};
use crate::kernels::{inside_column, small_column, word_column};
use crate::parts::{Parts, Scale};
use crate::size::{Size, common_size, is_small, size_of};
use words::{Word, WordDivisor, product};

// What the exchange's column takes for row i: in the exchange's row it is u.
#[inline(always)]
fn own_number(parts: &Parts<Word>, i: usize) -> Word
    requires { i < length parts.now.own.now }
    ensures here { i ≡ parts.now.x.now.row → result ≡ parts.now.u }
    ensures other { i ≢ parts.now.x.now.row → result ≡ slice_index_or parts.now.own.now i (pos 0) }
{
    if i == parts.x.row {
        parts.u
    } else {
        at_place(parts.own, i)
    }
}

// The new cells of the exchange's column. Whether all fit.
fn own_column(parts: &Parts<Word>, new: &mut [Word], factor: Word) -> bool
    requires own { length parts.now.own.now ≡ parts.now.x.now.height }
    requires room { length new.old ≡ parts.now.x.now.width * parts.now.x.now.height }
    requires within { parts.now.x.now.column < parts.now.x.now.width }
    ensures written { IsTrue result → (cells : List ℤ) (g : ℤ) → factor *ℤ g ≡ parts.now.x.now.denominator →
        IsColumnWritten cells parts.now parts.now.x.now.column parts.now.x.now.height g new.new }
    ensures kept { AreKept (parts.now.x.now.column * parts.now.x.now.height) new.old new.new }
{
    let height = parts.x.height;
    let base = parts.x.column * height;
    // new(i) = own(i) factor
    'cells: for i in 0..height {
        match product(own_number(parts, i), factor) {
            Some(q) => new[base + i] = q,
            None => return false,
        }
    }
    true
}

// Whether the word is 1.
fn is_one(a: Word) -> bool
    ensures { IsTrue result → a ≡ pos 1 }
{
    a == Word::ONE
}

// The new cells of the exchange's column where the factor is 1; their size.
fn same_own_column(parts: &Parts<Word>, new: &mut [Word]) -> Size
    requires own { length parts.now.own.now ≡ parts.now.x.now.height }
    requires size { AreOf parts.now.size parts.now.x.now.height parts.now.own.now }
    requires room { length new.old ≡ parts.now.x.now.width * parts.now.x.now.height }
    requires within { parts.now.x.now.column < parts.now.x.now.width }
    ensures written { (cells : List ℤ) →
        IsColumnWritten cells parts.now parts.now.x.now.column parts.now.x.now.height parts.now.x.now.denominator
        new.new }
    ensures kept { AreKept (parts.now.x.now.column * parts.now.x.now.height) new.old new.new }
    ensures size { IsColumnOfSize result parts.now.x.now.height parts.now.x.now.column parts.now.x.now.height new.new }
{
    let size = common_size(parts.size, size_of(parts.u));
    let height = parts.x.height;
    let base = parts.x.column * height;
    // new(i) = own(i)
    'cells: for i in 0..height {
        let c = own_number(parts, i);
        new[base + i] = c;
    }
    size
}

// The cells of a column of which the exchange takes nothing, and which it multiplies by what it divides by.
fn copy_column(
    cells: &[Word],
    parts: &Parts<Word>,
    new: &mut [Word],
    column: usize,
    divisor: &WordDivisor,
)
    requires parts { AreWordParts cells.now parts.now }
    requires inside { IsOtherColumn parts.now.x.now column new.old }
    requires nothing { cell_at parts.now.x.now.height cells.now parts.now.x.now.row column ≡ pos 0 }
    requires same { parts.now.p ≡ divisor.now }
    ensures written { IsColumnWritten cells.now parts.now column parts.now.x.now.height divisor.now new.new }
    ensures kept { AreKept (column * parts.now.x.now.height) new.old new.new }
    ensures size { IsColumnOfSize parts.now.size parts.now.x.now.height column parts.now.x.now.height new.new }
{
    let height = parts.x.height;
    let base = column * height;
    // new(i) = cells(i)
    'cells: for i in 0..height {
        let e = at_place(cells, base + i);
        new[base + i] = e;
    }
}

// Whether the exchange takes nothing of a column, and multiplies it by what it divides by.
fn stays(p: Word, b: Word, divisor: &WordDivisor) -> bool
    ensures { IsTrue result → (b ≡ pos 0) × (p ≡ divisor.now) }
{
    b == Word::ZERO && p == divisor.word()
}

// Whether the column is written over the divisor, and all that it takes and gives is small.
fn is_written_small(
    cells: &[Word],
    parts: &Parts<Word>,
    new: &mut [Word],
    column: usize,
    divisor: &WordDivisor,
) -> bool
    requires parts { AreWordParts cells.now parts.now }
    requires inside { IsOtherColumn parts.now.x.now column new.old }
    ensures written { IsTrue result →
        IsColumnWritten cells.now parts.now column parts.now.x.now.height divisor.now new.new }
    ensures kept { AreKept (column * parts.now.x.now.height) new.old new.new }
    ensures size { IsTrue result → IsColumnOfSize Small parts.now.x.now.height column parts.now.x.now.height new.new }
{
    if !is_small(parts.size) {
        return false;
    }
    small_column(cells, parts, new, column, divisor)
}

// The new cells of another column than the exchange's: the size that they are known to have; `None` where the divisor
// does not divide it, or a cell does not fit.
fn other_column(
    cells: &[Word],
    parts: &Parts<Word>,
    new: &mut [Word],
    column: usize,
    divisor: &WordDivisor,
) -> Option<Size>
    requires parts { AreWordParts cells.now parts.now }
    requires inside { IsOtherColumn parts.now.x.now column new.old }
    ensures written { IfSome result (λ h.
        IsColumnWritten cells.now parts.now column parts.now.x.now.height divisor.now new.new) }
    ensures kept { AreKept (column * parts.now.x.now.height) new.old new.new }
    ensures size { IfSome result (λ s.
        IsColumnOfSize s parts.now.x.now.height column parts.now.x.now.height new.new) }
{
    let b = word_at(cells, parts.x, parts.x.row, column);
    if stays(parts.p, b, divisor) {
        copy_column(cells, parts, new, column, divisor);
        return Some(parts.size);
    }
    if is_written_small(cells, parts, new, column, divisor) {
        return Some(Size::Small);
    }
    if let Some(size) = word_column(cells, parts, new, column, divisor) {
        return Some(size);
    }
    if inside_column(cells, parts, new, column, divisor) == parts.x.height {
        Some(Size::Words)
    } else {
        None
    }
}

// The new cells of a column: the size that they are known to have; `None` where the divisor does not divide it, or a
// cell does not fit.
pub(crate) fn write_column(
    cells: &[Word],
    parts: &Parts<Word>,
    new: &mut [Word],
    column: usize,
    scale: &Scale,
) -> Option<Size>
    requires parts { AreWordParts cells.now parts.now }
    requires room { length new.old ≡ parts.now.x.now.width * parts.now.x.now.height }
    requires within { column < parts.now.x.now.width }
    requires scale { IsScale parts.now.x.now scale.now.divisor scale.now.factor }
    ensures written { IfSome result (λ h.
        IsColumnWritten cells.now parts.now column parts.now.x.now.height scale.now.divisor new.new) }
    ensures kept { AreKept (column * parts.now.x.now.height) new.old new.new }
    ensures size { IfSome result (λ s.
        IsColumnOfSize s parts.now.x.now.height column parts.now.x.now.height new.new) }
{
    if column != parts.x.column {
        return other_column(cells, parts, new, column, &scale.divisor);
    }
    if is_one(scale.factor) {
        return Some(same_own_column(parts, new));
    }
    if own_column(parts, new, scale.factor) {
        Some(Size::Words)
    } else {
        None
    }
}
