//! The coordinates in a cobasis, and the vectors of their columns.
ghost use Rattle.std.specs.Prelude.{◌≡◌, ◌≤◌, IfOk, IsTrue, length};
ghost use Rattle.std.specs.List.{Contains};
ghost use Rattle.poly_model.specs.Limits.{most_columns};
ghost use Rattle.poly_model.specs.Keys.{IsAscending};
ghost use Rattle.hull_lift.specs.Facets.{primitive_column};
ghost use Rattle.linearity.specs.Columns.{columns_in, coordinate_vectors};

use dictionary::Dict;
use hull_lift::facet_row;
use poly_model::{FreeColumns, Label, Lines, OutOfMemory, Vector};
use poly_num::Num;
use std::alloc::Global;

/// The columns of the coordinates in the cobasis, ascending. Once all rows have been tried they are the free columns.
/// Takes memory for the list.
pub fn free_columns(alloc: Global, dict: &Dict) -> Result<FreeColumns, OutOfMemory>
    ensures columns { IfOk result (λ free. free ≡ columns_in dict.now.key) }
    ensures ascending { IfOk result (λ free. IsAscending dict.now.key) }
{
    let key = dict.key();
    let mut columns = Vec::new(alloc);
    'labels: for label in key.labels() {
        if label.is_coordinate() {
            columns.push(label.coordinate_index())?;
        }
    }
    Ok(FreeColumns::from_vec(columns))
}

/// For each coordinate in the cobasis, by ascending column, the vector of n entries without common divisor along its
/// column. Once all rows have been tried they are the lines. Takes memory for the vectors.
pub fn lines_of(alloc: Global, dict: &Dict, n: u32) -> Result<Lines, OutOfMemory>
    requires { n ≤ most_columns }
    ensures value { IfOk result (λ lines. lines ≡ coordinate_vectors dict.now n) }
    ensures few { IfOk result (λ lines. length lines ≤ most_columns) }
{
    let key = dict.key();
    let mut lines = Vec::new(alloc);
    'labels: for label in key.labels() {
        if label.is_coordinate() {
            lines.push(line_at(alloc, dict, *label, n)?)?;
        }
    }
    Ok(Lines::from_vec(lines))
}

// The vector of a column.
fn line_at(alloc: Global, dict: &Dict, col: Label, n: u32) -> Result<Vector, OutOfMemory>
    requires column { Contains dict.now.key col }
    requires narrow { n ≤ most_columns }
    ensures { IfOk result (λ line. line ≡ primitive_column dict.now col n) }
{
    let mut vector = Vec::new(alloc);
    vector.resize(n as usize, Num::ZERO)?;
    facet_row(dict, col, &mut vector);
    Ok(Vector::from_vec(vector))
}
