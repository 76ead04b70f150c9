//! From the phase `prepare` to the phase `main`: equations and free coordinates go.
ghost use Rattle.std.specs.Prelude.{◌≡◌, ◌<◌, ◌<ℤ◌, ◌++◌, ◌&&◌, suc, not, pos, map, [], IfOk, length};
ghost use Rattle.std.specs.Result.{OnOk};
ghost use Rattle.std.specs.List.{All, Contains, filter, slice_index_or};
ghost use Rattle.dictionary_laws.specs.Keys.{place_in};
ghost use Rattle.dictionary.specs.Views.{number, by_columns, IsWhole};
ghost use Rattle.dictionary.specs.Positions.{label_count, AreBelow};
ghost use Rattle.dictionary.specs.Arrangements.{part_of, IsWithoutDivisor};
ghost use Rattle.dictionary.specs.MainPhase.{stays_in, kept_rows, kept_columns, IsDividedOut, EntersMainPhase};

use crate::Dict;
use crate::arrangement::Arrangement;
use crate::places::key_of;
use poly_model::{FreeColumns, Label, OutOfMemory, Phase, System};
use poly_num::{Num, primitive};
use std::alloc::Global;

// Whether a label stays: it is neither that of a linear row nor that of a free coordinate.
fn stays(sys: &System, free: &FreeColumns, label: Label) -> bool
    ensures { result ≡ stays_in sys.now.rows free.now label }
{
    if label.is_row() {
        !sys.is_linear_row(label)
    } else {
        !free.contains(label.coordinate_index())
    }
}

// The labels that stay.
fn kept_labels(
    alloc: Global,
    sys: &System,
    free: &FreeColumns,
    labels: &[Label],
) -> Result<Vec<Label>, OutOfMemory>
    ensures { IfOk result (λ v. v.items ≡ filter (stays_in sys.now.rows free.now) labels.now) }
{
    let mut kept = Vec::new(alloc);
    'labels: for label in labels {
        if stays(sys, free, *label) {
            kept.push(*label)?;
        }
    }
    Ok(kept)
}

// Whether a label stays where no coordinate is free, but not where these are.
fn leaves(sys: &System, free: &FreeColumns, none: &FreeColumns, label: Label) -> bool
    ensures { result ≡ (stays_in sys.now.rows none.now label && not (stays_in sys.now.rows free.now label)) }
{
    stays(sys, none, label) && !stays(sys, free, label)
}

// Puts the labels that do not stay, but would if no coordinate were free, behind those that are kept.
fn push_leaving(
    kept: &mut Vec<Label>,
    sys: &System,
    free: &FreeColumns,
    labels: &[Label],
) -> Result<(), OutOfMemory>
    ensures { OnOk result (kept.new.items ≡ kept.old.items ++
        filter (λ k. stays_in sys.now.rows [] k && not (stays_in sys.now.rows free.now k)) labels.now) }
{
    let none = FreeColumns::from_vec(Vec::new(*kept.allocator()));
    'labels: for label in labels {
        if leaves(sys, free, &none, *label) {
            kept.push(*label)?;
        }
    }
    Ok(())
}

// Divides what is common out of the cells and the denominator. The new denominator.
fn divide_out(cells: &mut Vec<Num>, denominator: Num) -> Result<Num, OutOfMemory>
    requires { pos 0 <ℤ denominator }
    ensures { IfOk result (λ d. IsDividedOut cells.old.items denominator cells.new.items d) }
{
    cells.push(denominator)?;
    primitive(cells);
    let last = cells.len() - 1;
    let least = at_place(cells, last);
    cells.truncate(last);
    Ok(least)
}

fn at_place(numbers: &[Num], place: usize) -> Num
    requires { place < length numbers.now }
    ensures { result ≡ slice_index_or numbers.now place (pos 0) }
{
    numbers[place]
}

impl Dict {
    // The labels that are left and not in the new cobasis: those outside the old one, and those that only leave it.
    fn rows_left(&self, sys: &System, free: &FreeColumns) -> Result<Vec<Label>, OutOfMemory>
        ensures { IfOk result (λ v. v.items ≡ kept_rows self.now (stays_in sys.now.rows []) (stays_in sys.now.rows free.now)) }
    {
        let alloc = *self.rows.allocator();
        let none = FreeColumns::from_vec(Vec::new(alloc));
        let mut rows = kept_labels(alloc, sys, &none, &self.rows)?;
        push_leaving(&mut rows, sys, free, &self.columns)?;
        Ok(rows)
    }

    // The columns of the constants and of these labels.
    fn columns_of(&self, labels: &[Label]) -> Result<Vec<usize>, OutOfMemory>
        requires { All (λ k. Contains self.now.key k) labels.now }
        ensures value { IfOk result (λ v. v.items ≡ kept_columns self.now.columns labels.now) }
        ensures within { IfOk result (λ v. All (λ j. j < suc (length self.now.columns)) v.items) }
    {
        let mut columns = Vec::new(*self.columns.allocator());
        columns.push(0)?;
        'labels: for label in labels {
            columns.push(self.column_of(*label))?;
        }
        Ok(columns)
    }

    // Puts the numbers of these labels in a column behind what is kept.
    fn keep_column(
        &self,
        kept: &mut Vec<Num>,
        rows: &[Label],
        column: usize,
    ) -> Result<(), OutOfMemory>
        requires rows { All (λ l. Contains self.now.labels l) rows.now }
        requires column { column < suc (length self.now.columns) }
        ensures { OnOk result (kept.new.items ≡ kept.old.items ++ map (λ l. number self.now l column) rows.now) }
    {
        'rows: for label in rows {
            kept.push(self.number(*label, column))?;
        }
        Ok(())
    }

    // The numbers of these labels, the constants and the entries at the labels of the cobasis that stay.
    pub(crate) fn kept_cells(
        &self,
        rows: &[Label],
        staying: &[Label],
    ) -> Result<Vec<Num>, OutOfMemory>
        requires rows { All (λ l. Contains self.now.labels l) rows.now }
        requires staying { All (λ k. Contains self.now.key k) staying.now }
        ensures { IfOk result (λ v. v.items ≡ by_columns (number self.now) rows.now (kept_columns self.now.columns staying.now)) }
    {
        let columns = self.columns_of(staying)?;
        let mut kept = Vec::new(*self.rows.allocator());
        'columns: for j in &columns {
            self.keep_column(&mut kept, rows, *j)?;
        }
        Ok(kept)
    }

    // The numbers at some of its labels, in the phase `main`, over their own least denominator.
    pub(crate) fn part(&self, arrangement: Arrangement) -> Result<Dict, OutOfMemory>
        requires rows { All (λ l. Contains self.now.labels l) arrangement.rows.items }
        requires columns { All (λ k. Contains self.now.key k) arrangement.columns.items }
        requires whole { IsWhole (part_of self.now arrangement) }
        requires below { AreBelow arrangement.labels.items label_count }
        ensures { IfOk result (λ d. IsWithoutDivisor (part_of self.now arrangement) d) }
    {
        let mut cells = self.kept_cells(&arrangement.rows, &arrangement.columns)?;
        let denominator = divide_out(&mut cells, self.denominator)?;
        Dict::arranged(Phase::Main, arrangement, denominator, cells)
    }

    /// From the phase `prepare` to the phase `main`: the cobasis without the equations (linear rows) and
    /// the free coordinates, over its own least denominator; the rows of the equations go. `free` are
    /// the free columns of the cone, ascending. Takes memory for the new table; where there is none the
    /// dictionary is given up.
    pub fn to_main(self, sys: &System, free: &FreeColumns) -> Result<Dict, OutOfMemory>
        ensures { IfOk result (λ d. EntersMainPhase self sys.now free.now d) }
    {
        let alloc = *self.rows.allocator();
        let none = FreeColumns::from_vec(Vec::new(alloc));
        // no label of a row is that of a coordinate
        sys.keeps_limits();
        let rows = self.rows_left(sys, free)?;
        let labels = kept_labels(alloc, sys, &none, &self.labels)?;
        let columns = kept_labels(alloc, sys, free, &self.columns)?;
        let key_labels = kept_labels(alloc, sys, free, self.key.labels())?;
        self.part(Arrangement {
            labels,
            key: key_of(&key_labels),
            columns,
            rows,
        })
    }
}
