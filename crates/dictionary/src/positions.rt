//! Where the labels of a dictionary stand, in a list by labels.
ghost use Rattle.std.specs.Prelude.{◌≡◌, ◌<◌, ◌≤◌, ◌↔◌, ℕ, suc, IsTrue, IfOk, length, set};
ghost use Rattle.std.specs.List.{Contains, slice_index_or};
ghost use Rattle.linear_laws.specs.Distinct.{AreDistinct};
ghost use Rattle.dictionary_laws.specs.Keys.{place_in};
ghost use Rattle.dictionary.specs.declared.positions.Position.TheVariants.{Row, Column};
ghost use Rattle.dictionary.specs.Positions.{index_of, label_count, position_at, StandOnce, AreBelow, ArePositions, HaveRows, HaveColumns};

use poly_model::{Label, MOST_COLUMNS, OutOfMemory};
use std::alloc::Global;

/// Where a label stands: outside the cobasis in a row of cells, and inside in a column. Rows are counted from 0, and so are
/// columns, but column 0 has the constants: the first label of the cobasis has column 1. In 16 bits, as labels are: each
/// dictionary has a list with one for each label that there can be.
#[derive(Clone, Copy, PartialEq, Eq, Debug)]
pub enum Position {
    Row(u16),
    Column(u16),
}

impl Position {
    /// Which row or which column it is.
    pub fn index(self) -> usize
        ensures { result ≡ index_of self }
    {
        match self {
            Position::Row(i) => i as usize,
            Position::Column(j) => j as usize,
        }
    }
}

// How many labels there can be.
fn label_count() -> usize
    ensures { result ≡ label_count }
{
    Label::coordinate(MOST_COLUMNS).number() as usize
}

/// The positions of these labels of rows and of columns, with room for those of all labels. Takes memory for that.
pub fn positions_of(
    alloc: Global,
    rows: &[Label],
    columns: &[Label],
) -> Result<Vec<Position>, OutOfMemory>
    requires { StandOnce rows.now columns.now }
    ensures { IfOk result (λ v. ArePositions rows.now columns.now v.items) }
{
    let mut positions = Vec::new(alloc);
    positions.resize(label_count(), Position::Row(0))?;
    write_positions(&mut positions, rows, columns);
    Ok(positions)
}

/// Writes the positions of these labels. What then stands at other labels says nothing.
pub fn write_positions(positions: &mut [Position], rows: &[Label], columns: &[Label])
    requires room { length positions.old ≡ label_count }
    requires apart { StandOnce rows.now columns.now }
    ensures { ArePositions rows.now columns.now positions.new }
{
    write_rows(positions, rows);
    write_columns(positions, columns);
}

// Writes those of the labels of rows.
fn write_rows(positions: &mut [Position], rows: &[Label])
    requires room { length positions.old ≡ label_count }
    requires once { AreDistinct rows.now }
    requires below { AreBelow rows.now label_count }
    ensures room { length positions.new ≡ length positions.old }
    ensures rows { HaveRows rows.now positions.new }
{
    // positions(rows(i)) = row i
    'rows: for i in 0..rows.len() {
        positions[number_of(rows, i) as usize] = Position::Row(i as u16);
    }
}

// Writes those of the labels of columns; those of the others stay.
fn write_columns(positions: &mut [Position], columns: &[Label])
    requires room { length positions.old ≡ label_count }
    requires once { AreDistinct columns.now }
    requires below { AreBelow columns.now label_count }
    ensures room { length positions.new ≡ length positions.old }
    ensures columns { HaveColumns columns.now positions.new }
    ensures others { (l : ℕ) → (Contains columns.now l → ⊥) → position_at positions.new l ≡ position_at positions.old l }
{
    // positions(columns(j)) = column j + 1
    'columns: for j in 0..columns.len() {
        positions[number_of(columns, j) as usize] = Position::Column(j as u16 + 1);
    }
}

// The number of the label at a place.
fn number_of(labels: &[Label], place: usize) -> u16
    requires { place < length labels.now }
    ensures { result ≡ slice_index_or labels.now place 0 }
{
    labels[place].number()
}

/// Writes that a label has this row now, and another this column.
pub fn exchange_positions(
    positions: &mut [Position],
    leaving: Label,
    row: usize,
    entering: Label,
    column: usize,
)
    requires leaving { leaving < length positions.old }
    requires entering { entering < length positions.old }
    requires row { row < label_count }
    requires column { column ≤ label_count }
    ensures { positions.new ≡ set (set positions.old leaving (Row row)) entering (Column column) }
{
    positions[leaving.number() as usize] = Position::Row(row as u16);
    positions[entering.number() as usize] = Position::Column(column as u16);
}

/// What stands at a label.
pub fn position_at(positions: &[Position], label: Label) -> Position
    requires { label < length positions.now }
    ensures { result ≡ position_at positions.now label }
{
    positions[label.number() as usize]
}

/// Whether a label is one of these of rows, whose positions are there.
pub fn is_in_row(positions: &[Position], rows: &[Label], label: Label) -> bool
    requires below { AreBelow rows.now (length positions.now) }
    requires rows { HaveRows rows.now positions.now }
    ensures { IsTrue result ↔ Contains rows.now label }
{
    if label.number() as usize >= positions.len() {
        return false;
    }
    match position_at(positions, label) {
        Position::Row(i) => has_at(rows, i as usize, label),
        Position::Column(_) => false,
    }
}

/// Whether a label is one of these of columns, whose positions are there.
pub fn is_in_column(positions: &[Position], columns: &[Label], label: Label) -> bool
    requires below { AreBelow columns.now (length positions.now) }
    requires columns { HaveColumns columns.now positions.now }
    ensures { IsTrue result ↔ Contains columns.now label }
{
    if label.number() as usize >= positions.len() {
        return false;
    }
    match position_at(positions, label) {
        Position::Row(_) => false,
        Position::Column(j) => j > 0 && has_at(columns, j as usize - 1, label),
    }
}

// Whether it is the label at this place.
fn has_at(labels: &[Label], place: usize, label: Label) -> bool
    ensures { IsTrue result ↔ (place < length labels.now) × (slice_index_or labels.now place 0 ≡ label) }
{
    place < labels.len() && labels[place].is_same(label)
}
