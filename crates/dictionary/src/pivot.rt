//! Pivots: a label outside the cobasis takes the place of one inside.
ghost use Rattle.std.specs.Prelude.{◌≡◌, ◌≢◌, ◌↔◌, ◌+◌, IsTrue, IsOk, IfOk, IfErr, MatchResult, length};
ghost use Rattle.std.specs.List.{Contains};
ghost use Rattle.dictionary.specs.Views.{exchange_at, CanPivot, IsPivot, IsOverflow, NothingPasses, overflow_of};

use crate::places::place_of;
use crate::positions::{exchange_positions, write_positions};
use crate::{Dict, PassingProducts, Steps};
use columns::{Exchange, exchange_cells};
use poly_model::{Label, Overflow};
use poly_num::Num;
use std::mem::swap;
use std::sync::ledger::Ledger;

impl Dict {
    /// Whether `row` can take the place of `col`: it is a label outside the cobasis, `col` is in it, and
    /// the entry of the two is not 0.
    pub fn can_pivot(&self, row: Label, col: Label) -> bool
        ensures { IsTrue result ↔ CanPivot self.now row col }
    {
        self.has_label(row)
            && !self.in_cobasis(row)
            && self.in_cobasis(col)
            && self.entry(row, col) != Num::ZERO
    }

    /// Exchanges `row`, which is outside the cobasis, for `col`, which is in it. Takes no memory.
    ///
    /// The new numbers are written into a room of their own. Where a product or a difference of two that the pivot
    /// needs has no 127 bits, the answer names the dictionary and its places, and nothing has changed. `steps` rises by one
    /// where the pivot is carried out.
    pub fn pivot<L: Ledger>(
        &mut self,
        row: Label,
        col: Label,
        steps: &mut Steps<L>,
    ) -> Result<(), Overflow>
        requires { CanPivot self.old row col }
        ensures pivoted { IfOk result (λ _. IsPivot self.old row col self.new) }
        ensures unchanged { IfErr result (λ _. self.new ≡ self.old) }
        ensures passes { IfErr result (λ o. IsOverflow self.old row col o) }
        ensures complete { NothingPasses self.old row col → IsOk result }
        ensures counted { MatchResult result (λ _. steps.new ≡ steps.old + 1) (λ _. steps.new ≡ steps.old) }
    {
        let x = self.exchange_of(row, col);
        match exchange_cells(&self.cells, &mut self.own, &mut self.spare, &x) {
            Ok(denominator) => {
                steps.tick();
                swap(&mut self.cells, &mut self.spare);
                self.denominator = denominator;
                let at = place_of(self.key.labels(), col);
                self.key.exchange_at(at, row);
                self.columns[x.column - 1] = row;
                self.rows[x.row] = col;
                exchange_positions(&mut self.positions, col, x.row, row, x.column);
                Ok(())
            }
            Err(passing) => Err(self.overflow(self.products_at(row, col, passing))),
        }
    }

    /// The same into another dictionary of the same shape, which is written over; this one stays. Where a product or a
    /// difference of two has no 127 bits, the answer names the places alone. Takes no memory.
    pub fn pivot_into<L: Ledger>(
        &self,
        to: &mut Dict,
        row: Label,
        col: Label,
        steps: &mut Steps<L>,
    ) -> Result<(), PassingProducts>
        requires can { CanPivot self.now row col }
        requires rows { length to.old.labels ≡ length self.now.labels }
        requires columns { length to.old.columns ≡ length self.now.columns }
        ensures pivoted { IfOk result (λ _. IsPivot self.now row col to.new) }
        ensures unchanged { IfErr result (λ _. to.new ≡ to.old) }
        ensures passes { IfErr result (λ p. IsOverflow self.now row col (overflow_of self.now p)) }
        ensures complete { NothingPasses self.now row col → IsOk result }
        ensures counted { MatchResult result (λ _. steps.new ≡ steps.old + 1) (λ _. steps.new ≡ steps.old) }
    {
        let x = self.exchange_of(row, col);
        match exchange_cells(&self.cells, &mut to.own, &mut to.spare, &x) {
            Ok(denominator) => {
                steps.tick();
                swap(&mut to.cells, &mut to.spare);
                to.denominator = denominator;
                to.phase = self.phase;
                to.labels.copy_from_slice(&self.labels);
                let at = place_of(self.key.labels(), col);
                to.key = self.key;
                to.key.exchange_at(at, row);
                to.columns.copy_from_slice(&self.columns);
                to.columns[x.column - 1] = row;
                to.rows.copy_from_slice(&self.rows);
                to.rows[x.row] = col;
                write_positions(&mut to.positions, &to.rows, &to.columns);
                Ok(())
            }
            Err(passing) => Err(self.products_at(row, col, passing)),
        }
    }

    // The exchange of their row and column.
    fn exchange_of(&self, row: Label, col: Label) -> Exchange
        requires label { Contains self.now.labels row }
        requires outside { Contains self.now.key row → ⊥ }
        requires column { Contains self.now.key col }
        ensures { result ≡ exchange_at self.now row col }
    {
        Exchange {
            width: self.columns.len() + 1,
            height: self.rows.len(),
            row: self.row_of(row),
            column: self.column_of(col),
            denominator: self.denominator,
        }
    }
}
