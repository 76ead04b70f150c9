//! From the phase `main` to the phase `first` and back: t, which is label 0, comes and goes.
ghost use Rattle.std.specs.Prelude.{◌≡◌, ◌↔◌, ◌++◌, ◌∷◌, [], IsTrue, IfOk, map};
ghost use Rattle.std.specs.Result.{OnOk};
ghost use Rattle.std.specs.List.{filter};
ghost use Rattle.dictionary.specs.FirstPhase.{HasRoomForT, t_entry, cells_with_t, AddsT, is_other, DropsT};

use crate::Dict;
use crate::arrangement::Arrangement;
use crate::places::{copied, key_of};
use poly_model::{Label, MOST_LABELS, OutOfMemory, Phase};
use poly_num::Num;
use std::alloc::Global;

// The label of t, and then these.
fn behind_t(labels: &Vec<Label>) -> Result<Vec<Label>, OutOfMemory>
    ensures { IfOk result (λ v. v.items ≡ 0 ∷ labels.now.items) }
{
    let mut all = Vec::new(*labels.allocator());
    all.push(Label::EXTRA)?;
    all.extend_from_slice(labels)?;
    Ok(all)
}

// These labels, and then that of t.
fn before_t(labels: &Vec<Label>) -> Result<Vec<Label>, OutOfMemory>
    ensures { IfOk result (λ v. v.items ≡ labels.now.items ++ 0 ∷ []) }
{
    let mut all = copied(labels)?;
    all.push(Label::EXTRA)?;
    Ok(all)
}

// These labels without that of t.
fn without_t(alloc: Global, labels: &[Label]) -> Result<Vec<Label>, OutOfMemory>
    ensures { IfOk result (λ v. v.items ≡ filter is_other labels.now) }
{
    let mut others = Vec::new(alloc);
    'labels: for label in labels {
        if is_other(*label) {
            others.push(*label)?;
        }
    }
    Ok(others)
}

fn is_other(label: Label) -> bool
    ensures { result ≡ is_other label }
{
    label.number() != 0
}

impl Dict {
    // Whether no label is that of t, and the key has room for one more.
    fn has_room_for_t(&self) -> bool
        ensures { IsTrue result ↔ HasRoomForT self.now }
    {
        !self.has_label(Label::EXTRA) && self.key.len() < MOST_LABELS
    }

    // The entry of t at a label outside the cobasis.
    fn t_entry(&self, label: Label) -> Num
        ensures { result ≡ t_entry self.now label }
    {
        if label.is_row() {
            self.denominator
        } else {
            Num::ZERO
        }
    }

    // Puts the column of t behind these cells.
    fn push_t(&self, cells: &mut Vec<Num>) -> Result<(), OutOfMemory>
        ensures { OnOk result (cells.new.items ≡ cells.old.items ++ map (λ i. t_entry self.now i) self.now.rows) }
    {
        // entry(i, t) = denominator at a row i, 0 at a coordinate
        'rows: for label in &self.rows {
            cells.push(self.t_entry(*label))?;
        }
        Ok(())
    }

    // The cells, and behind them the column of t.
    fn cells_with_t(&self) -> Result<Vec<Num>, OutOfMemory>
        ensures { IfOk result (λ v. v.items ≡ cells_with_t self.now) }
    {
        let mut cells = self.kept_cells(&self.rows, &self.columns)?;
        self.push_t(&mut cells)?;
        Ok(cells)
    }

    // The dictionary with t, whose column of cells is the last one.
    fn with_t(&self) -> Result<Dict, OutOfMemory>
        requires { HasRoomForT self.now }
        ensures { IfOk result (λ d. AddsT self.now d) }
    {
        let labels = behind_t(&self.labels)?;
        let columns = before_t(&self.columns)?;
        let rows = copied(&self.rows)?;
        let cells = self.cells_with_t()?;
        Dict::arranged(
            Phase::First,
            Arrangement {
                labels,
                key: self.key.with(Label::EXTRA),
                columns,
                rows,
            },
            self.denominator,
            cells,
        )
    }

    /// From the phase `Main` to the phase `First`: t, which is `Label::EXTRA`, comes in front of the labels and of the
    /// cobasis, and is added to each row outside the old cobasis, and to no coordinate. The other numbers and the denominator
    /// stay. Where t is a label already, or the key has no room for one more, the dictionary comes back as it is. Takes
    /// memory for the new table; where there is none the dictionary is given up.
    pub fn add_t(self) -> Result<Dict, OutOfMemory>
        ensures adds { IfOk result (λ d. HasRoomForT self → AddsT self d) }
        ensures stays { IfOk result (λ d. (HasRoomForT self → ⊥) → d ≡ self) }
    {
        if self.has_room_for_t() {
            self.with_t()
        } else {
            Ok(self)
        }
    }

    /// From the phase `First` to the phase `Main`: the dictionary without t, which is in the cobasis, over its own least
    /// denominator. Where t is not in the cobasis, no more is said of what comes back than its phase. Takes memory for the new
    /// table; where there is none the dictionary is given up.
    pub fn drop_t(self) -> Result<Dict, OutOfMemory>
        ensures { IfOk result (λ d. DropsT self d) }
    {
        let alloc = *self.rows.allocator();
        let labels = without_t(alloc, &self.labels)?;
        let columns = without_t(alloc, &self.columns)?;
        let rows = without_t(alloc, &self.rows)?;
        let key_labels = without_t(alloc, self.key.labels())?;
        self.part(Arrangement {
            labels,
            key: key_of(&key_labels),
            columns,
            rows,
        })
    }
}
