//! The rows of each family, put into a list of cells.
ghost use Rattle.std.specs.Prelude.{◌≡◌, ◌≤◌, IfOk};
ghost use Rattle.example_polys.specs.Examples.{cube, cross, product, pyramid, example_rows};
ghost use Rattle.example_polys.specs.Cells.{end_to_end};

use crate::ExampleKind;
use crate::rows::{push_sides, push_times, push_unit_rows};
use poly_model::OutOfMemory;
use poly_num::{Num, neg};
use std::alloc::Global;

fn cube_cells(alloc: Global, n: usize) -> Result<Vec<Num>, OutOfMemory>
    ensures { IfOk result (λ v. v.items ≡ end_to_end (cube n)) }
{
    let mut cells = Vec::new(alloc);
    push_unit_rows(&mut cells, Num::ZERO, n, Num::ONE)?;
    push_unit_rows(&mut cells, Num::ONE, n, neg(Num::ONE))?;
    Ok(cells)
}

fn cross_cells(alloc: Global, n: usize) -> Result<Vec<Num>, OutOfMemory>
    ensures { IfOk result (λ v. v.items ≡ end_to_end (cross n)) }
{
    let mut cells = Vec::new(alloc);
    push_unit_rows(&mut cells, Num::ONE, n, Num::ONE)?;
    push_unit_rows(&mut cells, Num::ONE, n, neg(Num::ONE))?;
    Ok(cells)
}

fn product_cells(alloc: Global, n: usize) -> Result<Vec<Num>, OutOfMemory>
    requires { n ≤ 20 }
    ensures { IfOk result (λ v. v.items ≡ end_to_end (product n)) }
{
    let mut cells = Vec::new(alloc);
    push_unit_rows(&mut cells, Num::ZERO, 2 * n, Num::ONE)?;
    cells.push(Num::ONE)?;
    push_times(&mut cells, neg(Num::ONE), n)?;
    push_times(&mut cells, Num::ZERO, n)?;
    cells.push(Num::ONE)?;
    push_times(&mut cells, Num::ZERO, n)?;
    push_times(&mut cells, neg(Num::ONE), n)?;
    Ok(cells)
}

fn pyramid_cells(alloc: Global, n: usize) -> Result<Vec<Num>, OutOfMemory>
    ensures { IfOk result (λ v. v.items ≡ end_to_end (pyramid n)) }
{
    let mut cells = Vec::new(alloc);
    cells.push(Num::ZERO)?;
    push_times(&mut cells, Num::ZERO, n)?;
    cells.push(Num::ONE)?;
    push_sides(&mut cells, n)?;
    Ok(cells)
}

/// The cells of an example, row by row.
pub fn cells_of(alloc: Global, kind: ExampleKind, n: usize) -> Result<Vec<Num>, OutOfMemory>
    requires { n ≤ 20 }
    ensures { IfOk result (λ v. v.items ≡ end_to_end (example_rows kind n)) }
{
    match kind {
        ExampleKind::Cube => cube_cells(alloc, n),
        ExampleKind::Cross => cross_cells(alloc, n),
        ExampleKind::Product => product_cells(alloc, n),
        ExampleKind::Pyramid => pyramid_cells(alloc, n),
    }
}
