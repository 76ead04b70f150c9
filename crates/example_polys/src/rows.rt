//! Rows put behind one another in a list of cells.
ghost use Rattle.std.specs.Prelude.{◌≡◌, ◌<◌, ◌++◌, replicate, OnOk};
ghost use Rattle.std.specs.List.{range_with_len, flat_map};
ghost use Rattle.example_polys.specs.Examples.{one_at, unit_rows, side, sides};
ghost use Rattle.example_polys.specs.Cells.{end_to_end};

use poly_model::OutOfMemory;
use poly_num::{Num, neg};

/// Puts a number behind the cells, so many times. After an error some of them may stand there.
pub fn push_times(cells: &mut Vec<Num>, x: Num, count: usize) -> Result<(), OutOfMemory>
    ensures { OnOk result (cells.new.items ≡ cells.old.items ++ replicate count x) }
{
    for i in 0..count {
        cells.push(x)?;
    }
    Ok(())
}

/// Puts n entries behind the cells: x at place i, and 0 elsewhere.
pub fn push_one_at(cells: &mut Vec<Num>, n: usize, i: usize, x: Num) -> Result<(), OutOfMemory>
    requires { i < n }
    ensures { OnOk result (cells.new.items ≡ cells.old.items ++ one_at n i x) }
{
    push_times(cells, Num::ZERO, i)?;
    cells.push(x)?;
    push_times(cells, Num::ZERO, n - i - 1)
}

/// Puts a row for each of n places behind the cells: the constant, and x at that place.
pub fn push_unit_rows(
    cells: &mut Vec<Num>,
    constant: Num,
    n: usize,
    x: Num,
) -> Result<(), OutOfMemory>
    ensures { OnOk result (cells.new.items ≡ cells.old.items ++ end_to_end (unit_rows constant n x)) }
{
    for i in 0..n {
        cells.push(constant)?;
        push_one_at(cells, n, i, x)?;
    }
    Ok(())
}

/// Puts a row behind the cells that begins with 1 and ends with -1, with x at place i of the n between.
pub fn push_side(cells: &mut Vec<Num>, n: usize, i: usize, x: Num) -> Result<(), OutOfMemory>
    requires { i < n }
    ensures { OnOk result (cells.new.items ≡ cells.old.items ++ side n i x) }
{
    cells.push(Num::ONE)?;
    push_one_at(cells, n, i, x)?;
    cells.push(neg(Num::ONE))?;
    Ok(())
}

/// Puts the two rows for each of n places behind the cells, those of the sides of a pyramid.
pub fn push_sides(cells: &mut Vec<Num>, n: usize) -> Result<(), OutOfMemory>
    ensures { OnOk result (cells.new.items ≡ cells.old.items ++ end_to_end (flat_map (sides n) (range_with_len 0 n))) }
{
    for i in 0..n {
        push_side(cells, n, i, neg(Num::ONE))?;
        push_side(cells, n, i, Num::ONE)?;
    }
    Ok(())
}
