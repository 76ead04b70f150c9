//! Which products of a pivot pass, by their labels.
ghost use Rattle.std.specs.Prelude.{◌≡◌, ◌≢◌, ◌<◌, ◌*ℤ◌, ℕ, suc, length};
ghost use Rattle.std.specs.List.{Contains, slice_index_or};
ghost use Rattle.poly_num.specs.Numbers.{IsNum, Crosses};
ghost use Rattle.poly_model.specs.Dictionaries.{Table};
ghost use Rattle.poly_model.specs.Overflows.{IsPlace};
ghost use Rattle.dictionary_laws.specs.Keys.{place_in};
ghost use Rattle.columns.specs.Cells.{CellPasses, ExchangePasses};
ghost use Rattle.dictionary.specs.Views.{exchange_at, column_label, number, table_of, CanPivot, IsOverflow, overflow_of};

use crate::{Dict, PassingProducts};
use columns::{Passing, Spot};
use poly_model::{Label, Overflow, Place};

fn place(row: Label, col: Label) -> Place
    ensures { IsPlace result row col }
{
    Place { row, col }
}

impl Dict {
    /// The overflow of a pivot of this dictionary that was refused, by the products that pass there.
    pub fn overflow(&self, products: PassingProducts) -> Overflow
        ensures { result ≡ overflow_of self.now products }
    {
        Overflow {
            phase: self.phase,
            key: self.key,
            a: products.a,
            b: products.b,
            c: products.c,
            d: products.d,
        }
    }

    // The products of a pivot that pass, where its exchange of cells passes.
    pub(crate) fn products_at(&self, row: Label, col: Label, passing: Passing) -> PassingProducts
        requires can { CanPivot self.now row col }
        requires passes { ExchangePasses (exchange_at self.now row col) self.now.cells passing }
        ensures { IsOverflow self.now row col (overflow_of self.now result) }
    {
        let _ = &self.phase;
        match passing {
            Passing::Denominator => self.outer_products(row, col),
            Passing::Cell(spot) => self.products_in(row, col, spot),
        }
    }

    // The same at a cell. The exchange's row has the label that leaves the cobasis.
    fn products_in(&self, row: Label, col: Label, spot: Spot) -> PassingProducts
        requires can { CanPivot self.now row col }
        requires passes { CellPasses (exchange_at self.now row col) self.now.cells spot.row spot.column }
        ensures { IsOverflow self.now row col (overflow_of self.now result) }
    {
        let _ = &self.phase;
        let label = self.label_after(self.row_of(row), col, spot.row);
        if spot.column == self.column_of(col) {
            self.outer_products(label, col)
        } else {
            self.inner_products(row, col, label, spot.column)
        }
    }

    // The label of row i of the cells where the exchange's row has another one.
    fn label_after(&self, exchanged: usize, other: Label, i: usize) -> Label
        requires { i < length self.now.rows }
        ensures here { i ≡ exchanged → result ≡ other }
        ensures beside { i ≢ exchanged → result ≡ slice_index_or self.now.rows i 0 }
    {
        if i == exchanged { other } else { self.rows[i] }
    }

    // The product of the entry of `label` and the denominator.
    fn outer_products(&self, label: Label, col: Label) -> PassingProducts
        requires label { Contains self.now.labels label }
        requires column { Contains self.now.key col }
        requires passes { ¬ (IsNum (Table.entry (table_of self.now) label col *ℤ self.now.denominator)) }
        ensures { (r : ℕ) → IsOverflow self.now r col (overflow_of self.now result) }
    {
        let _ = &self.phase;
        // a place cannot be passed twice
        PassingProducts {
            a: place(label, col),
            b: place(col, col),
            c: place(label, col),
            d: place(col, col),
        }
    }

    // The products of the entry of `row` and `col` and the number of `label` in a column, and crosswise.
    fn inner_products(&self, row: Label, col: Label, label: Label, column: usize) -> PassingProducts
        requires inside { Contains self.now.key col }
        requires label { Contains self.now.labels label }
        requires other { label ≢ row }
        requires column { column < suc (length self.now.columns) }
        requires apart { column ≢ suc (place_in self.now.columns col) }
        requires passes { ¬ (Crosses (Table.entry (table_of self.now) row col) (number self.now label column)
            (Table.entry (table_of self.now) label col) (number self.now row column)) }
        ensures { IsOverflow self.now row col (overflow_of self.now result) }
    {
        let _ = &self.phase;
        let other = self.column_label(column);
        PassingProducts {
            a: place(row, col),
            b: place(label, other),
            c: place(label, col),
            d: place(row, other),
        }
    }

    // The label of a column of the cells.
    fn column_label(&self, column: usize) -> Label
        requires { column < suc (length self.now.columns) }
        ensures { result ≡ column_label self.now column }
    {
        if column == 0 {
            Label::CONSTANT
        } else {
            self.columns[column - 1]
        }
    }
}
