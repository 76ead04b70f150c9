//! The inner loops: the new cells of one column, over one divisor.
ghost use Rattle.std.specs.Option.{IfSome};
ghost use Rattle.std.specs.Prelude.{◌≤◌, ◌*◌, ℤ, IsTrue};
ghost use Rattle.words.specs.Small.{IsSmall};
ghost use Rattle.columns.specs.Sizes.{IsOf, IsColumnOfSize};
ghost use Rattle.columns.specs.declared.size.Size.TheVariants.{Small};
ghost use Rattle.columns.specs.Steps.{AreWordParts, IsOtherColumn, IsColumnWritten, AreKept};

use crate::exchange::{at_place, word_at};
use crate::parts::Parts;
use crate::size::{Size, limit_within, size_up_to};
use words::{Limits, Word, WordDivisor};

// The new cells of a column from the top, as long as the divisor divides; how many are written.
#[inline(never)]
pub(crate) fn inside_column(
    cells: &[Word],
    parts: &Parts<Word>,
    new: &mut [Word],
    column: usize,
    divisor: &WordDivisor,
) -> usize
    requires parts { AreWordParts cells.now parts.now }
    requires inside { IsOtherColumn parts.now.x.now column new.old }
    ensures count { result ≤ parts.now.x.now.height }
    ensures written { IsColumnWritten cells.now parts.now column result divisor.now new.new }
    ensures kept { AreKept (column * parts.now.x.now.height) new.old new.new }
{
    let own = parts.own;
    let p = parts.p;
    let b = word_at(cells, parts.x, parts.x.row, column);
    let by = divisor.copied();
    let height = parts.x.height;
    let base = column * height;
    // new(i) = (cells(i) p - own(i) b) / divisor
    'cells: for i in 0..height {
        match by.exact_cross(at_place(cells, base + i), p, at_place(own, i), b) {
            Some(q) => new[base + i] = q,
            None => return i,
        }
    }
    height
}

// The new cells of a column where products and their differences fit a machine word: the size that they are known to
// have; `None` where one does not fit, or the divisor does not divide all.
pub(crate) fn word_column(
    cells: &[Word],
    parts: &Parts<Word>,
    new: &mut [Word],
    column: usize,
    divisor: &WordDivisor,
) -> Option<Size>
    requires parts { AreWordParts cells.now parts.now }
    requires inside { IsOtherColumn parts.now.x.now column new.old }
    ensures written { IfSome result (λ s.
        IsColumnWritten cells.now parts.now column parts.now.x.now.height divisor.now new.new) }
    ensures kept { AreKept (column * parts.now.x.now.height) new.old new.new }
    ensures size { IfSome result (λ s.
        IsColumnOfSize s parts.now.x.now.height column parts.now.x.now.height new.new) }
{
    let b = word_at(cells, parts.x, parts.x.row, column);
    let height = parts.x.height;
    let base = column * height;
    let limits = Limits {
        a: limit_within(parts.size, cells, base, height),
        c: parts.own_limit,
    };
    let Some(cross) = divisor.word_cross(parts.p, b, limits) else {
        return None;
    };
    match cross.write(cells, parts.own, new, base) {
        Some(limit) => Some(size_up_to(limit)),
        None => None,
    }
}

// The new cells of a column where all that it takes is small; whether they are written and are small too.
pub(crate) fn small_column(
    cells: &[Word],
    parts: &Parts<Word>,
    new: &mut [Word],
    column: usize,
    divisor: &WordDivisor,
) -> bool
    requires parts { AreWordParts cells.now parts.now }
    requires inside { IsOtherColumn parts.now.x.now column new.old }
    requires small { (z : ℤ) → IsOf parts.now.size z → IsSmall z }
    ensures written { IsTrue result →
        IsColumnWritten cells.now parts.now column parts.now.x.now.height divisor.now new.new }
    ensures kept { AreKept (column * parts.now.x.now.height) new.old new.new }
    ensures small { IsTrue result → IsColumnOfSize Small parts.now.x.now.height column parts.now.x.now.height new.new }
{
    let b = word_at(cells, parts.x, parts.x.row, column);
    let base = column * parts.x.height;
    match divisor.small_cross(parts.p, b) {
        Some(cross) => cross.write(cells, parts.own, new, base),
        None => false,
    }
}
