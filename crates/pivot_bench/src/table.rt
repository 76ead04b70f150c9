//! A plain table of i128, and its pivots.
ghost use Rattle.std.specs.Prelude.{◌≡◌, ◌<◌, ◌*◌, ◌+◌, suc, vec_len, length, OnOk};
ghost use Rattle.std.specs.List.{Contains};

use crate::plan::Plan;
use dictionary::Dict;
use poly_model::{Label, OutOfMemory};
use std::alloc::Global;

/// A row of `width` numbers for each label outside the cobasis, over a denominator: its constant, and its
/// entries at the labels of the cobasis. Which labels have changed places is not kept.
pub struct Table {
    width: usize,
    labels: Vec<Label>,
    cells: Vec<i128>,
    denominator: i128,
    ghost shape: { vec_len cells ≡ vec_len labels * width },
}

// Written out, so that to let one go is one step in the proofs of those who hold it.
impl Drop for Table {
    fn drop(self) {
        let Self {
            width: _,
            labels: _,
            cells: _,
            denominator: _,
        } = self;
    }
}

impl Table {
    /// The numbers of a dictionary.
    pub fn of(alloc: Global, dict: &Dict, plan: &Plan) -> Result<Table, OutOfMemory> {
        let key = dict.key();
        let mut labels = Vec::new(alloc);
        let mut cells = Vec::new(alloc);
        'labels: for place in 0..plan.labels() {
            let label = plan.label(place);
            if dict.has_label(label) && !dict.in_cobasis(label) {
                labels.push(label)?;
                push_row(&mut cells, dict, label, key.labels())?;
            }
        }
        Ok(Table {
            width: key.len() + 1,
            labels,
            cells,
            denominator: dict.denominator().get(),
        })
    }

    /// The labels of the rows, as they stood in the dictionary.
    pub fn labels(&self) -> &[Label] {
        &self.labels
    }

    /// How many numbers a row has.
    pub fn width(&self) -> usize {
        self.width
    }

    /// The numbers, row by row.
    pub fn cells(&self) -> &[i128] {
        &self.cells
    }

    /// The denominator of the numbers.
    pub fn denominator(&self) -> i128 {
        self.denominator
    }

    /// A table that is equal.
    pub fn copy(&self) -> Result<Table, OutOfMemory> {
        Ok(Table {
            width: self.width,
            labels: self.labels.clone()?,
            cells: self.cells.clone()?,
            denominator: self.denominator,
        })
    }

    /// Exchanges a row and a column, both counted from 0: none where they are not there, where their
    /// number is 0, or where a product passes; then the table is of no more use.
    pub fn exchange(&mut self, row: usize, column: usize) -> Option<()> {
        let (height, width) = (self.labels.len(), self.width);
        if row >= height || column >= width {
            return None;
        }
        let old = self.denominator;
        self.denominator = exchange_cells(&mut self.cells, height, width, row, column, old)?;
        Some(())
    }

    /// How many bits its largest number has.
    pub fn bits(&self) -> u32 {
        let mut most = self.denominator.unsigned_abs();
        for cell in &self.cells {
            most = most.max(cell.unsigned_abs());
        }
        128 - most.leading_zeros()
    }

    /// A number that tells the table from most others.
    pub fn checksum(&self) -> i128 {
        let mut sum = self.denominator;
        for cell in &self.cells {
            sum = sum.wrapping_mul(31).wrapping_add(*cell);
        }
        sum
    }
}

// The constant of a label and its entries at these labels.
fn push_row(
    cells: &mut Vec<i128>,
    dict: &Dict,
    row: Label,
    columns: &[Label],
) -> Result<(), OutOfMemory>
    requires { Contains dict.now.labels row }
    ensures { OnOk result (vec_len cells.new ≡ vec_len cells.old + suc (length columns.now)) }
{
    cells.push(dict.constant(row).get())?;
    for column in columns {
        cells.push(if dict.in_cobasis(*column) {
            dict.entry(row, *column).get()
        } else {
            0
        })?;
    }
    Ok(())
}

// Exchanges a row and a column in rows of `width` numbers over a denominator, in place, by Bareiss' step.
// The answer is the new denominator.
fn exchange_cells(
    cells: &mut [i128],
    height: usize,
    width: usize,
    row: usize,
    column: usize,
    denominator: i128,
) -> Option<i128>
    requires size { length cells.old ≡ height * width }
    requires row { row < height }
    requires column { column < width }
{
    let p = cells[row * width + column];
    if p == 0 {
        return None;
    }
    let d = signed(denominator, p < 0)?;
    'rows: for i in 0..height {
        if i != row {
            let c = cells[i * width + column];
            // cell(i, j) becomes (cell(i, j) p - c cell(row, j)) / d
            'columns: for j in 0..width {
                if j != column {
                    let z = stepped(cells[i * width + j], p, c, cells[row * width + j], d)?;
                    cells[i * width + j] = z;
                }
            }
            cells[i * width + column] = signed(c, p < 0)?;
        }
    }
    'pivot_row: for j in 0..width {
        let z = signed(cells[row * width + j], p > 0)?;
        cells[row * width + j] = z;
    }
    cells[row * width + column] = d;
    signed(p, p < 0)
}

// `(a p - c b) / d`.
#[inline(always)]
fn stepped(a: i128, p: i128, c: i128, b: i128, d: i128) -> Option<i128> {
    a.checked_mul(p)?
        .checked_sub(c.checked_mul(b)?)?
        .checked_div(d)
}

// The number, with the other sign where `minus`.
#[inline(always)]
fn signed(number: i128, minus: bool) -> Option<i128> {
    if minus {
        number.checked_neg()
    } else {
        Some(number)
    }
}
