//! No part of `lrs`: the polyhedra that tests write out, made here for the tests of several crates.
#![tactic(auto)]

use poly_model::{Kind, MOST_COLUMNS, MOST_FILE_ROWS, Poly};
use poly_num::Num;
use std::alloc::Global;
use std::test::Fail;

/// The polyhedron of these rows of `n` numbers, one after the other, without a text. A row is linear where its mark says
/// so; one that has no mark is not. A failure comes where the numbers are no whole rows, where they or the rows are too
/// many or too large, and where memory was refused.
pub fn poly_of(
    alloc: Global,
    kind: Kind,
    n: u32,
    entries: &[i128],
    marks: &[bool],
) -> Result<Poly, Fail> {
    if n == 0 || n > MOST_COLUMNS {
        return Err("some columns, and not many")?;
    }
    let mut cells = Vec::new(alloc);
    for x in entries {
        cells.push(Num::new(*x).ok_or("a number of 127 bits")?)?;
    }
    let mut linear = Vec::new(alloc);
    for i in 0..cells.len() / n as usize {
        linear.push(i < marks.len() && marks[i])?;
    }
    if linear.len() > MOST_FILE_ROWS as usize || cells.len() != linear.len() * n as usize {
        return Err("whole rows, and not many")?;
    }
    Ok(Poly::new(kind, n, cells, linear, Vec::new(alloc)))
}
