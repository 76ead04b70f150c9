//! The dictionary of a cobasis in one table by columns.
ghost use Rattle.std.specs.Prelude.{◌≡◌, ◌≢◌, ◌<◌, ◌<ℤ◌, ◌↔◌, IsTrue, ℕ, suc, pos, IfOk, IfSome, length};
ghost use Rattle.std.specs.List.{Contains};
ghost use Rattle.poly_model.specs.Dictionaries.{Table};
ghost use Rattle.poly_model.specs.Keys.{IsAscending};
ghost use Rattle.linear_laws.specs.Distinct.{AreDistinct};
ghost use Rattle.dictionary_laws.specs.Keys.{place_in, HaveSameLabels};
ghost use Rattle.dictionary.specs.Cobases.{HasUnits, AreOutside};
ghost use Rattle.dictionary.specs.Views.{number, table_of};
ghost use Rattle.dictionary.specs.Positions.{IsPosition, IsCellColumn, AreCells};

use crate::places::copied;
use crate::positions::{
    Position, is_in_column, is_in_row, position_at, positions_of, write_positions,
};
use columns::{Cells, Column, WordCells};
use poly_model::{Key, Label, OutOfMemory, Phase};
use poly_num::Num;
use std::marker::Model;

/// The dictionary of a cobasis in its phase: over a common denominator, each label of the phase (its
/// rows and coordinates) is written as a constant and an entry for each label of the cobasis,
///
///     denominator * value(i) = constant(i) + sum of entry(i, k) * value(k)
///
/// (V. Chvatal, "Linear Programming", 1983). The denominator is the least positive one. There are cells for the labels
/// outside the cobasis alone: a label inside is the denominator in its own column, and 0 in the others.
pub struct Dict {
    pub(crate) phase: Phase,
    pub(crate) key: Key,
    // all labels, ascending
    pub(crate) labels: Vec<Label>,
    // a label of the cobasis for each column of cells behind the first, which has the constants
    pub(crate) columns: Vec<Label>,
    // a label outside the cobasis for each row of cells
    pub(crate) rows: Vec<Label>,
    pub(crate) denominator: Num,
    pub(crate) cells: Cells,
    // room for the cells after the next pivot, and for one column
    pub(crate) spare: Cells,
    pub(crate) own: Cells,
    // where each label stands, by its number; what stands at the numbers of no labels is of no account
    pub(crate) positions: Vec<Position>,
}

// Written out, so that to let one go is one step in the proofs of those who hold it.
impl Drop for Dict {
    fn drop(self) {
        let Self {
            phase: _,
            key: _,
            labels: _,
            columns: _,
            rows: _,
            denominator: _,
            cells: _,
            spare: _,
            own: _,
            positions: _,
        } = self;
    }
}

impl Model for Dict {
    ghost use Rattle.std.specs.Prelude.{◌≡◌, length};
    ghost use Rattle.dictionary.specs.Views.{Dictionary, IsWhole};
    ghost use Rattle.dictionary.specs.Positions.{label_count, AreBelow, ArePositions};

    ghost Value = { Dictionary };

    ghost view = { λ d. record { phase = d.phase; labels = d.labels.items; key = d.key; columns = d.columns.items; rows = d.rows.items; denominator = d.denominator; cells = d.cells } };

    ghost invariant = { λ d. (length d.spare ≡ length d.cells) × (length d.own ≡ length d.rows.items) × IsWhole (record { phase = d.phase; labels = d.labels.items; key = d.key; columns = d.columns.items; rows = d.rows.items; denominator = d.denominator; cells = d.cells }) × AreBelow d.labels.items label_count × ArePositions d.rows.items d.columns.items d.positions.items };
}

impl Dict {
    /// The phase that it is of.
    pub fn phase(&self) -> Phase
        ensures { result ≡ self.now.phase }
    {
        self.phase
    }

    /// The cobasis.
    pub fn key(&self) -> Key
        ensures { result ≡ self.now.key }
    {
        self.key
    }

    /// All labels of the phase, ascending.
    pub fn labels(&self) -> &[Label]
        ensures value { result.now ≡ self.now.labels }
        ensures ascending { IsAscending result.now }
    {
        &self.labels
    }

    /// The labels of the cobasis, ascending, each one of the labels of the phase. Each is 1 in its own column, over the
    /// denominator, and 0 in the others.
    pub fn cobasis(&self) -> &[Label]
        ensures value { result.now ≡ self.now.key }
        ensures ascending { IsAscending result.now }
        ensures labels { (k : ℕ) → Contains result.now k → Contains self.now.labels k }
        ensures units { HasUnits self.now }
    {
        self.key.labels()
    }

    /// The common denominator, which is positive.
    pub fn denominator(&self) -> Num
        ensures value { result ≡ self.now.denominator }
        ensures positive { pos 0 <ℤ result }
    {
        self.denominator
    }

    /// Whether it has a row for this label.
    pub fn has_label(&self, label: Label) -> bool
        ensures { IsTrue result ↔ Contains self.now.labels label }
    {
        let _ = &self.phase;
        self.in_cobasis(label) || self.has_row(label)
    }

    /// Whether this label is in the cobasis.
    pub fn in_cobasis(&self, label: Label) -> bool
        ensures { IsTrue result ↔ Contains self.now.key label }
    {
        is_in_column(&self.positions, &self.columns, label)
    }

    /// The constant of a label.
    pub fn constant(&self, row: Label) -> Num
        requires { Contains self.now.labels row }
        ensures { result ≡ Table.constant (table_of self.now) row }
    {
        self.number(row, 0)
    }

    /// The entry of a label in the column of a label of the cobasis. That of such a label itself is the
    /// denominator in its own column, and 0 in the others.
    pub fn entry(&self, row: Label, col: Label) -> Num
        requires row { Contains self.now.labels row }
        requires column { Contains self.now.key col }
        ensures value { result ≡ Table.entry (table_of self.now) row col }
        ensures own { row ≡ col → result ≡ self.now.denominator }
        ensures unit { Contains self.now.key row → row ≢ col → result ≡ pos 0 }
    {
        let _ = &self.phase;
        self.number(row, self.column_of(col))
    }

    /// A dictionary that is equal.
    pub fn copy(&self) -> Result<Dict, OutOfMemory>
        ensures { IfOk result (λ d. d ≡ self.now) }
    {
        let alloc = *self.rows.allocator();
        let positions = positions_of(alloc, &self.rows, &self.columns)?;
        Ok(Dict {
            phase: self.phase,
            key: self.key,
            labels: copied(&self.labels)?,
            columns: copied(&self.columns)?,
            rows: copied(&self.rows)?,
            denominator: self.denominator,
            cells: self.cells.copy()?,
            spare: self.spare.copy()?,
            own: self.own.copy()?,
            positions,
        })
    }

    /// Makes another dictionary of the same shape equal to this one, with no memory taken.
    pub fn copy_into(&self, to: &mut Dict)
        requires rows { length to.old.labels ≡ length self.now.labels }
        requires columns { length to.old.columns ≡ length self.now.columns }
        ensures { to.new ≡ self.now }
    {
        to.phase = self.phase;
        to.key = self.key;
        to.labels.copy_from_slice(&self.labels);
        to.columns.copy_from_slice(&self.columns);
        to.rows.copy_from_slice(&self.rows);
        to.denominator = self.denominator;
        self.cells.copy_into(&mut to.cells);
        write_positions(&mut to.positions, &self.rows, &self.columns);
    }

    /// The labels outside the cobasis, as their rows of cells stand.
    pub fn rows(&self) -> &[Label]
        ensures value { result.now ≡ self.now.rows }
        ensures once { AreDistinct result.now }
        ensures outside { AreOutside self.now result.now }
    {
        &self.rows
    }

    /// The labels of the cobasis, as their columns of cells stand behind that of the constants.
    pub fn columns(&self) -> &[Label]
        ensures value { result.now ≡ self.now.columns }
        ensures key { HaveSameLabels self.now.key result.now }
        ensures once { AreDistinct result.now }
    {
        &self.columns
    }

    /// Where a label stands: outside the cobasis in a row of cells, inside in a column. Nothing is searched.
    pub fn position(&self, label: Label) -> Position
        requires { Contains self.now.labels label }
        ensures { IsPosition self.now label result }
    {
        position_at(&self.positions, label)
    }

    /// Column j of the cells, where column 0 has the constants: the numbers of the labels of `rows` in it.
    pub fn column(&self, j: usize) -> Column<'_>
        requires { j < suc (length self.now.columns) }
        ensures { IsCellColumn self.now j result }
    {
        self.cells.column(self.rows.len(), j)
    }

    /// All cells as they lie, where they are words: that of row i in column j is at place `j height + i`, where the height is
    /// the number of rows.
    #[inline(always)]
    pub fn word_cells(&self) -> Option<WordCells<'_>>
        ensures { IfSome result (λ c. AreCells self.now c) }
    {
        self.cells.word_cells()
    }

    /// The number of a label in column j of the cells, where column 0 has the constants. That of a label of the cobasis is
    /// the denominator in its own column, and 0 in the others.
    pub fn number(&self, label: Label, column: usize) -> Num
        requires label { Contains self.now.labels label }
        requires column { column < suc (length self.now.columns) }
        ensures { result ≡ number self.now label column }
    {
        match self.position(label) {
            Position::Row(i) => self.cells.at(self.rows.len(), i as usize, column),
            Position::Column(own) => self.own_number(own as usize, column),
        }
    }

    // Whether this label has a row of cells.
    fn has_row(&self, label: Label) -> bool
        ensures { IsTrue result ↔ Contains self.now.rows label }
    {
        is_in_row(&self.positions, &self.rows, label)
    }

    // What the label of a column is in a column.
    fn own_number(&self, own: usize, column: usize) -> Num
        ensures own { column ≡ own → result ≡ self.now.denominator }
        ensures other { column ≢ own → result ≡ pos 0 }
    {
        if column == own {
            self.denominator
        } else {
            Num::ZERO
        }
    }

    /// The column of cells of a label of the cobasis, from 1 on: column 0 has the constants. A loop over labels asks for it
    /// once, and then for the `number` of each label there.
    pub fn column_of(&self, col: Label) -> usize
        requires { Contains self.now.key col }
        ensures value { result ≡ suc (place_in self.now.columns col) }
        ensures within { result < suc (length self.now.columns) }
    {
        let _ = &self.phase;
        self.position(col).index()
    }

    // The row of cells of a label outside the cobasis.
    pub(crate) fn row_of(&self, row: Label) -> usize
        requires label { Contains self.now.labels row }
        requires outside { Contains self.now.key row → ⊥ }
        ensures value { result ≡ place_in self.now.rows row }
        ensures within { result < length self.now.rows }
    {
        let _ = &self.phase;
        self.position(row).index()
    }
}
