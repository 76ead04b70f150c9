//! The cone of a polyhedron.
ghost use Rattle.std.specs.Prelude.{◌≡◌, ◌<◌, ◌≤◌, ◌==◌, ◌++◌, ◌∷◌, [], false, if◌then◌else◌, pos, length, map, replicate, slice_index_or, IfOk};
ghost use Rattle.std.specs.List.{list_any, range_with_len, All};
ghost use Rattle.poly_model.specs.declared.kind.RowKind.TheVariants.{Ray};
ghost use Rattle.poly_model.specs.Limits.{most_columns, most_cone_rows, most_file_rows};
ghost use Rattle.poly_model.specs.Systems.{all_rows, cone_of, first_unit, no_file_row, nonnegative_row, starts_positive};
ghost use Rattle.poly_model.specs.Tables.{is_point_kind};
ghost use Rattle.hull_lift.specs.Cells.{cells_of, HasWidth, linear_marks, vector_kind, row_kind, row_kinds, added_kind, nonnegative_count};

use poly_model::{Kind, OutOfMemory, Poly, RowKind, System};
use poly_num::Num;
use std::alloc::Global;

/// The cone of a polyhedron: the rows of the file; behind them, where an H file says `nonnegative`, a row for each
/// coordinate; and then the row at infinity `1 0 .. 0` of an H file, or, where no row of a V file is a point, the origin
/// `1 0 .. 0` as a point. Takes memory for the rows; the answer is `Err` only for want of memory.
pub fn system_of(alloc: Global, poly: &Poly) -> Result<System, OutOfMemory>
    ensures { IfOk result (λ s. s ≡ cone_of poly.now) }
{
    let (kind, n) = (poly.kind(), poly.n());
    let mut cells = cells_of(alloc, poly)?;
    let mut linear = linear_marks(alloc, poly)?;
    let mut kinds = row_kinds(alloc, poly)?;
    if has_point(&kinds) {
        return Ok(System::new(kind, n, cells, linear, kinds));
    }
    append_first_unit(&mut cells, n)?;
    linear.push(false)?;
    kinds.push(added_kind(kind))?;
    Ok(System::new(kind, n, cells, linear, kinds))
}

// How many rows `nonnegative` adds: one for each coordinate of an H file.
fn nonnegative_count(poly: &Poly) -> u32
    ensures value { result ≡ nonnegative_count poly.now.kind poly.now.nonnegative poly.now.n }
    ensures within { result < poly.now.n }
    ensures few { result < most_columns }
{
    let coordinates = poly.n() - 1;
    if poly.kind() == Kind::H && poly.nonnegative() {
        coordinates
    } else {
        0
    }
}

// The entries of all rows, one row after the other, with room for one row more.
fn cells_of(alloc: Global, poly: &Poly) -> Result<Vec<Num>, OutOfMemory>
    ensures value { IfOk result (λ v. v.items ≡ cells_of (all_rows poly.now)) }
    ensures width { IfOk result (λ v. All (HasWidth poly.now.n) (all_rows poly.now)) }
{
    let mut cells = file_cells(alloc, poly)?;
    append_nonnegative_rows(&mut cells, poly.n(), nonnegative_count(poly))?;
    Ok(cells)
}

// Appends the rows `x_j >= 0`, of n entries, for each j from 1 to so many.
fn append_nonnegative_rows(cells: &mut Vec<Num>, n: u32, count: u32) -> Result<(), OutOfMemory>
    requires { count < n }
    ensures { IfOk result (λ x. cells.new.items
        ≡ cells.old.items ++ cells_of (map (nonnegative_row n) (range_with_len 1 count))) }
{
    'rows: for i in 0..count {
        append_nonnegative_row(cells, n, i + 1)?;
    }
    Ok(())
}

// Appends 0 but for 1 at place j, n entries.
fn append_nonnegative_row(cells: &mut Vec<Num>, n: u32, j: u32) -> Result<(), OutOfMemory>
    requires { j < n }
    ensures { IfOk result (λ x. cells.new.items ≡ cells.old.items ++ (nonnegative_row n j).entries) }
{
    'entries: for i in 0..n {
        cells.push(unit_entry(i, j))?;
    }
    Ok(())
}

// Entry i of it.
fn unit_entry(i: u32, j: u32) -> Num
    ensures { result ≡ (if i == j then pos 1 else pos 0) }
{
    if i == j { Num::ONE } else { Num::ZERO }
}

// The entries of the file's rows, with room for the others.
fn file_cells(alloc: Global, poly: &Poly) -> Result<Vec<Num>, OutOfMemory>
    ensures value { IfOk result (λ v. v.items ≡ cells_of poly.now.rows) }
    ensures width { IfOk result (λ v. All (HasWidth poly.now.n) poly.now.rows) }
{
    let rows = poly.rows() as usize + nonnegative_count(poly) as usize + 1;
    let mut cells = Vec::with_capacity(alloc, rows * poly.n() as usize)?;
    'rows: for i in 0..poly.rows() {
        cells.extend_from_slice(row_at(poly, i))?;
    }
    Ok(cells)
}

// Row i, counted from 0.
fn row_at(poly: &Poly, i: u32) -> &[Num]
    requires { i < length poly.now.rows }
    ensures value { result.now ≡ (slice_index_or poly.now.rows i no_file_row).entries }
    ensures width { length result.now ≡ poly.now.n }
{
    let _rows = poly.rows();
    poly.row(i + 1)
}

// For each row whether it is linear. Those that are added are not.
fn linear_marks(alloc: Global, poly: &Poly) -> Result<Vec<bool>, OutOfMemory>
    ensures value { IfOk result (λ v. v.items ≡ linear_marks (all_rows poly.now)) }
    ensures few { IfOk result (λ v. length v.items < most_cone_rows) }
{
    let mut marks = file_marks(alloc, poly)?;
    append_unmarked(&mut marks, nonnegative_count(poly))?;
    Ok(marks)
}

// Appends the marks of so many rows that are not linear.
fn append_unmarked(marks: &mut Vec<bool>, count: u32) -> Result<(), OutOfMemory>
    ensures { IfOk result (λ x. marks.new.items ≡ marks.old.items ++ replicate count false) }
{
    let all = marks.len() + count as usize;
    marks.resize(all, false)?;
    Ok(())
}

// The marks of the file's rows.
fn file_marks(alloc: Global, poly: &Poly) -> Result<Vec<bool>, OutOfMemory>
    ensures value { IfOk result (λ v. v.items ≡ linear_marks poly.now.rows) }
    ensures few { IfOk result (λ v. length v.items ≤ most_file_rows) }
{
    let mut marks = Vec::with_capacity(alloc, poly.rows() as usize + 1)?;
    'rows: for i in 0..poly.rows() {
        marks.push(is_linear_at(poly, i))?;
    }
    Ok(marks)
}

// Whether row i, counted from 0, is linear.
fn is_linear_at(poly: &Poly, i: u32) -> bool
    requires { i < length poly.now.rows }
    ensures { result ≡ (slice_index_or poly.now.rows i no_file_row).linear }
{
    let _rows = poly.rows();
    poly.is_linear(i + 1)
}

// For each row whether it is a point or not. Those that are added are not.
fn row_kinds(alloc: Global, poly: &Poly) -> Result<Vec<RowKind>, OutOfMemory>
    ensures { IfOk result (λ v. v.items ≡ row_kinds poly.now.kind (all_rows poly.now)) }
{
    let mut kinds = file_kinds(alloc, poly)?;
    append_rays(&mut kinds, nonnegative_count(poly))?;
    Ok(kinds)
}

// Appends the kinds of so many rows that are no points.
fn append_rays(kinds: &mut Vec<RowKind>, count: u32) -> Result<(), OutOfMemory>
    ensures { IfOk result (λ x. kinds.new.items ≡ kinds.old.items ++ replicate count Ray) }
{
    let all = kinds.len() + count as usize;
    kinds.resize(all, RowKind::Ray)?;
    Ok(())
}

// The kinds of the file's rows.
fn file_kinds(alloc: Global, poly: &Poly) -> Result<Vec<RowKind>, OutOfMemory>
    ensures { IfOk result (λ v. v.items ≡ row_kinds poly.now.kind poly.now.rows) }
{
    let kind = poly.kind();
    let mut kinds = Vec::with_capacity(alloc, poly.rows() as usize + 1)?;
    'rows: for i in 0..poly.rows() {
        kinds.push(row_kind(kind, row_at(poly, i)))?;
    }
    Ok(kinds)
}

fn row_kind(kind: Kind, row: &[Num]) -> RowKind
    ensures { result ≡ row_kind kind row.now }
{
    match kind {
        Kind::H => RowKind::Ray,
        Kind::V => vector_kind(row),
    }
}

fn vector_kind(row: &[Num]) -> RowKind
    ensures { result ≡ vector_kind row.now }
{
    if starts_positive(row) {
        RowKind::Point
    } else {
        RowKind::Ray
    }
}

fn starts_positive(row: &[Num]) -> bool
    ensures { result ≡ starts_positive row.now }
{
    match row.first() {
        Some(x) => 0 < x.get(),
        None => false,
    }
}

// Whether some row is a point.
fn has_point(kinds: &[RowKind]) -> bool
    ensures { result ≡ list_any is_point_kind kinds.now }
{
    kinds.iter().any(|kind| is_point(*kind))
}

fn is_point(kind: RowKind) -> bool
    ensures { result ≡ is_point_kind kind }
{
    match kind {
        RowKind::Point => true,
        RowKind::Ray => false,
    }
}

fn added_kind(kind: Kind) -> RowKind
    ensures { result ≡ added_kind kind }
{
    match kind {
        Kind::H => RowKind::Ray,
        Kind::V => RowKind::Point,
    }
}

// Appends `1 0 .. 0`, of n entries.
fn append_first_unit(cells: &mut Vec<Num>, n: u32) -> Result<(), OutOfMemory>
    requires { 0 < n }
    ensures { IfOk result (λ x. cells.new.items ≡ cells.old.items ++ first_unit n) }
{
    cells.push(Num::ONE)?;
    'zeros: for _ in 1..n {
        cells.push(Num::ZERO)?;
    }
    Ok(())
}
