//! The dictionary of the coordinates, with which a phase begins.
ghost use Rattle.std.specs.Prelude.{◌≡◌, ◌⊎◌, ◌≤◌, ◌<◌, ◌+◌, ◌-◌, ◌++◌, ◌==◌, if◌then◌else◌, pos, length, vec_len, map, IfOk, OnOk};
ghost use Rattle.std.specs.List.{range_with_len, slice_index_or};
ghost use Rattle.poly_model.specs.Limits.{most_columns, most_cone_rows};
ghost use Rattle.poly_model.specs.Keys.{IsKey};
ghost use Rattle.poly_model.specs.declared.overflow.Phase.TheVariants.{Cone, Prepare};
ghost use Rattle.dictionary_laws.specs.Coordinates.{coordinate_key};
ghost use Rattle.dictionary.specs.Views.{by_columns};
ghost use Rattle.dictionary.specs.New.{first_label, has_constants, row_count, row_cells, first_number, first_width, IsCoordinateDictionary};

use crate::Dict;
use crate::arrangement::Arrangement;
use crate::places::key_of;
use poly_model::{Kind, Label, OutOfMemory, Phase, System};
use poly_num::Num;
use std::alloc::Global;

impl Dict {
    /// The dictionary of the coordinates, over the denominator 1, in the phase `Cone` or `Prepare` of a
    /// system: its entries are those of the rows. Takes memory for the table.
    pub fn new(alloc: Global, sys: &System, phase: Phase) -> Result<Dict, OutOfMemory>
        requires { (phase ≡ Cone) ⊎ (phase ≡ Prepare) }
        ensures { IfOk result (λ d. IsCoordinateDictionary sys.now phase d) }
    {
        // the limits of the system
        sys.keeps_limits();
        let constants = has_constants(sys.kind(), phase);
        let count = row_count(sys, constants);
        let columns = coordinate_labels(alloc, constants, sys.n())?;
        let rows = row_labels(alloc, count)?;
        let labels = joined(&rows, &columns)?;
        let key = key_of(&columns);
        let cells = all_cells(alloc, sys, constants, count, columns.len() + 1)?;
        let arrangement = Arrangement {
            labels,
            key,
            columns,
            rows,
        };
        Dict::arranged(phase, arrangement, Num::ONE, cells)
    }
}

// Whether the first entry of a row is a constant: so it is of an H file's rows in the phase `Prepare`.
fn has_constants(kind: Kind, phase: Phase) -> bool
    ensures { result ≡ has_constants phase kind }
{
    match (kind, phase) {
        (Kind::H, Phase::Prepare) => true,
        _ => false,
    }
}

// How many rows the phase has: with constants there is no row at infinity.
fn row_count(sys: &System, constants: bool) -> u32
    ensures value { result ≡ row_count constants (length sys.now.rows) }
    ensures within { result ≤ length sys.now.rows }
    ensures few { result ≤ most_cone_rows }
{
    if constants {
        sys.rows().saturating_sub(1)
    } else {
        sys.rows()
    }
}

// The labels of the coordinates, without the one at infinity where that reads constants.
fn coordinate_labels(alloc: Global, constants: bool, n: u32) -> Result<Vec<Label>, OutOfMemory>
    requires some { 0 < n }
    requires narrow { n ≤ most_columns }
    ensures value { IfOk result (λ v. v.items ≡ coordinate_key (first_label constants) n) }
    ensures narrow { IfOk result (λ v. vec_len v ≤ most_columns) }
    ensures key { IfOk result (λ v. IsKey v.items) }
{
    let first: u32 = if constants { 1 } else { 0 };
    let mut labels = Vec::new(alloc);
    for j in first..n {
        labels.push(Label::coordinate(j))?;
    }
    Ok(labels)
}

// The labels of the first rows.
fn row_labels(alloc: Global, count: u32) -> Result<Vec<Label>, OutOfMemory>
    requires { count ≤ most_cone_rows }
    ensures { IfOk result (λ v. v.items ≡ range_with_len 1 count) }
{
    let mut labels = Vec::with_capacity(alloc, count as usize)?;
    for i in 0..count {
        labels.push(Label::row(i + 1))?;
    }
    Ok(labels)
}

// The labels of the rows, and then those of the columns.
fn joined(rows: &Vec<Label>, columns: &[Label]) -> Result<Vec<Label>, OutOfMemory>
    ensures { IfOk result (λ v. v.items ≡ rows.now.items ++ columns.now) }
{
    let mut labels = rows.clone()?;
    labels.extend_from_slice(columns)?;
    Ok(labels)
}

// The cells of the first rows, `width` columns one after the other.
fn all_cells(
    alloc: Global,
    sys: &System,
    constants: bool,
    count: u32,
    width: usize,
) -> Result<Vec<Num>, OutOfMemory>
    requires rows { count ≤ length sys.now.rows }
    requires few { count ≤ most_cone_rows }
    requires width { width ≡ first_width constants sys.now.n }
    requires narrow { width ≤ most_columns + 1 }
    ensures { IfOk result (λ v. v.items ≡
        by_columns (first_number constants sys.now.rows) (range_with_len 1 count) (range_with_len 0 width)) }
{
    let mut cells = Vec::with_capacity(alloc, count as usize * width)?;
    for j in 0..width {
        push_column(&mut cells, sys, constants, count, j)?;
    }
    Ok(cells)
}

// The cells of the first rows in column j.
fn push_column(
    cells: &mut Vec<Num>,
    sys: &System,
    constants: bool,
    count: u32,
    j: usize,
) -> Result<(), OutOfMemory>
    requires rows { count ≤ length sys.now.rows }
    requires column { j < first_width constants sys.now.n }
    ensures { OnOk result (cells.new.items ≡ cells.old.items ++
        map (λ i. first_number constants sys.now.rows i j) (range_with_len 1 count)) }
{
    for i in 0..count {
        cells.push(row_cell(sys.row(i + 1), constants, j))?;
    }
    Ok(())
}

// The cell of a row in column j: without constants there is a 0 in front.
fn row_cell(row: &[Num], constants: bool, j: usize) -> Num
    requires { j < first_width constants (length row.now) }
    ensures { result ≡ slice_index_or (row_cells constants row.now) j (pos 0) }
{
    if constants {
        row[j]
    } else if j == 0 {
        Num::ZERO
    } else {
        row[j - 1]
    }
}
