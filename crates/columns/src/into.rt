//! The exchange of a row and a column of words, into another table.
ghost use Rattle.std.specs.Option.{IfSome};
ghost use Rattle.std.specs.Prelude.{◌≡◌, ◌<◌, ◌*◌, ◌+◌, IsTrue, length};
ghost use Rattle.columns.specs.Cells.{IsTableAfter};
ghost use Rattle.columns.specs.Sizes.{AreOf};
ghost use Rattle.columns.specs.Steps.{AreWordParts, IsScale, IsColumnDone};

use crate::column::write_column;
use crate::parts::{Parts, Scale, Written};
use crate::rescale::shrink_scale;
use crate::size::{Size, common_size};
use words::{Word, WordDivisor, product};

// The new cells of a column; where the divisor does not divide it, it shrinks, and the columns before grow. Whether
// all fit.
fn exchange_column(
    cells: &[Word],
    parts: &Parts<Word>,
    new: &mut [Word],
    column: usize,
    scale: &mut Scale,
) -> bool
    requires parts { AreWordParts cells.now parts.now }
    requires room { length new.old ≡ parts.now.x.now.width * parts.now.x.now.height }
    requires within { column < parts.now.x.now.width }
    requires scale { IsScale parts.now.x.now scale.old.divisor scale.old.factor }
    ensures done { IsTrue result →
        IsColumnDone cells.now parts.now column scale.old.divisor scale.new.divisor new.old new.new }
    ensures scale { IsTrue result → IsScale parts.now.x.now scale.new.divisor scale.new.factor }
    ensures size { IsTrue result → AreOf scale.old.size (column * parts.now.x.now.height) new.old →
        AreOf scale.new.size (column * parts.now.x.now.height + parts.now.x.now.height) new.new }
{
    // each time that it shrinks, the divisor is half as large at most
    'tries: for _ in 0..64 {
        if let Some(size) = write_column(cells, parts, new, column, scale) {
            scale.size = common_size(scale.size, size);
            return true;
        }
        if column == parts.x.column {
            return false;
        }
        if !shrink_scale(cells, parts, new, column, scale) {
            return false;
        }
    }
    false
}

/// Writes the table after the exchange into `new`, where all of it fits; else the numbers there say nothing.
pub(crate) fn exchange_into(
    cells: &[Word],
    parts: &Parts<Word>,
    new: &mut [Word],
) -> Option<Written>
    requires parts { AreWordParts cells.now parts.now }
    requires room { length new.old ≡ parts.now.x.now.width * parts.now.x.now.height }
    ensures written { IfSome result (λ w. IsTableAfter parts.now.x.now cells.now w.denominator new.new) }
    ensures size { IfSome result (λ w.
        AreOf w.size (parts.now.x.now.width * parts.now.x.now.height) new.new) }
{
    let d = Word::of(parts.x.denominator)?;
    let divisor = WordDivisor::new(d);
    let mut scale = Scale {
        divisor,
        factor: Word::ONE,
        size: Size::Small,
    };
    'columns: for j in 0..parts.x.width {
        if !exchange_column(cells, parts, new, j, &mut scale) {
            return None;
        }
    }
    let denominator = product(parts.p, scale.factor)?;
    Some(Written {
        denominator,
        size: scale.size,
    })
}
