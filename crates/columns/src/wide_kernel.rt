//! The inner loop of wide numbers: the new cells of one column, over one divisor.
ghost use Rattle.std.specs.Prelude.{◌≡◌, ◌≢◌, ◌<◌, ◌≤◌, ◌*◌, pos, length};
ghost use Rattle.std.specs.List.{slice_index_or};
ghost use Rattle.columns.specs.Steps.{AreWideParts, IsOtherColumn, IsColumnWritten, AreKept};

use crate::cells::Cells;
use crate::exchange::number_at;
use crate::multiplier::{Multiplier, WideDivisor};
use crate::parts::Parts;
use crate::slices::Column;
use poly_num::Num;

// The cell in row i, but 0 in the exchange's row: there only - u b is to be divided.
#[inline(always)]
fn cell_beside(cells: &Column, row: usize, i: usize) -> Num
    requires { i < length cells.now }
    ensures here { i ≡ row → result ≡ pos 0 }
    ensures other { i ≢ row → result ≡ slice_index_or cells.now i (pos 0) }
{
    if i == row { Num::ZERO } else { cells.at(i) }
}

// The new cells of a column from the top, as long as the divisor divides and nothing passes; how many are written.
#[inline(never)]
pub(crate) fn exact_column(
    old: &Cells,
    parts: &Parts<Num>,
    new: &mut [Num],
    column: usize,
    divisor: &WideDivisor,
) -> usize
    requires parts { AreWideParts old.now parts.now }
    requires inside { IsOtherColumn parts.now.x.now column new.old }
    ensures count { result ≤ parts.now.x.now.height }
    ensures written { IsColumnWritten old.now parts.now column result divisor.now new.new }
    ensures kept { AreKept (column * parts.now.x.now.height) new.old new.new }
{
    let own = parts.own;
    let row = parts.x.row;
    let height = parts.x.height;
    let base = column * height;
    let cells = old.column(height, column);
    let p = Multiplier::new(parts.p);
    let b = Multiplier::new(cells.at(row));
    let by = divisor.copied();
    // new(i) = (cells(i) p - own(i) b) / divisor, and in the exchange's row - u b / divisor
    'cells: for i in 0..height {
        match by.exact_cross(cell_beside(&cells, row, i), &p, number_at(own, i), &b) {
            Some(q) => new[base + i] = q,
            None => return i,
        }
    }
    height
}
