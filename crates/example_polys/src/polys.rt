//! The example polyhedra.
ghost use Rattle.std.specs.Prelude.{◌≡◌, ◌≤◌, false, replicate, length, IfOk};
ghost use Rattle.example_polys.specs.Examples.{example_rows, example_width, file_kind, example_of};

use crate::ExampleKind;
use crate::families::cells_of;
use poly_model::{Kind, OutOfMemory, Poly};
use std::alloc::Global;

/// The polyhedron of a family at n, as if a file had given its rows in this order: `example_of`. Its rows have as many
/// whole numbers as `example_width` says, and none is linear; it has no text. An error comes where memory was refused.
pub fn example(alloc: Global, kind: ExampleKind, n: u32) -> Result<Poly, OutOfMemory>
    requires { n ≤ 20 }
    ensures { IfOk result (λ p. p ≡ example_of kind n) }
{
    let cells = cells_of(alloc, kind, n as usize)?;
    let marks = unmarked(alloc, row_count(kind, n) as usize)?;
    let text = Vec::new(alloc);
    Ok(Poly::new(kind_of_file(kind), width(kind, n), cells, marks, text))
}

fn kind_of_file(kind: ExampleKind) -> Kind
    ensures { result ≡ file_kind kind }
{
    match kind {
        ExampleKind::Cross => Kind::V,
        _ => Kind::H,
    }
}

// How many numbers a row has.
fn width(kind: ExampleKind, n: u32) -> u32
    requires { n ≤ 20 }
    ensures { result ≡ example_width kind n }
{
    match kind {
        ExampleKind::Cube | ExampleKind::Cross => n + 1,
        ExampleKind::Product => 2 * n + 1,
        ExampleKind::Pyramid => n + 2,
    }
}

// How many rows there are.
fn row_count(kind: ExampleKind, n: u32) -> u32
    requires { n ≤ 20 }
    ensures { result ≡ length (example_rows kind n) }
{
    match kind {
        ExampleKind::Cube | ExampleKind::Cross => 2 * n,
        ExampleKind::Product => 2 * n + 2,
        ExampleKind::Pyramid => 2 * n + 1,
    }
}

// Marks for so many rows, none of which is linear.
fn unmarked(alloc: Global, count: usize) -> Result<Vec<bool>, OutOfMemory>
    ensures { IfOk result (λ v. v.items ≡ replicate count false) }
{
    let mut marks = Vec::new(alloc);
    for i in 0..count {
        marks.push(false)?;
    }
    Ok(marks)
}
