//! Rows of numbers that lie one after the other.
ghost use Rattle.std.specs.Prelude.{◌≡◌, ◌≤◌, ◌+◌, ◌*◌, length, take, drop};

use poly_num::Num;

/// Row i, counted from 0, of cells that are n to a row.
pub(crate) fn row_at(cells: &[Num], n: usize, i: usize) -> &[Num]
    requires { (i + 1) * n ≤ length cells.now }
    ensures { result.now ≡ take n (drop (i * n) cells.now) }
{
    let start = i * n;
    &cells[start..start + n]
}
