//! How the labels of a dictionary stand, and the dictionary of cells that stand so.
ghost use Rattle.std.specs.Prelude.{◌≡◌, IfOk};
ghost use Rattle.dictionary.specs.Views.{IsWhole};
ghost use Rattle.dictionary.specs.Positions.{label_count, AreBelow};
ghost use Rattle.dictionary.specs.Arrangements.{arranged};

use crate::Dict;
use crate::positions::positions_of;
use crate::rooms::rooms_of;
use poly_model::{Key, Label, OutOfMemory, Phase};
use poly_num::Num;

/// The labels of a dictionary, ascending, and those of the cobasis; the labels of the cobasis as their columns stand, and
/// the others as their rows do.
#[derive(Drop)]
pub struct Arrangement {
    pub labels: Vec<Label>,
    pub key: Key,
    pub columns: Vec<Label>,
    pub rows: Vec<Label>,
}

impl Dict {
    // The dictionary of these cells, one column after the other. Takes memory for them and for those of the next pivot.
    pub(crate) fn arranged(
        phase: Phase,
        arrangement: Arrangement,
        denominator: Num,
        cells: Vec<Num>,
    ) -> Result<Dict, OutOfMemory>
        requires whole { IsWhole (arranged phase arrangement denominator cells.items) }
        requires below { AreBelow arrangement.labels.items label_count }
        ensures { IfOk result (λ d. d ≡ arranged phase arrangement denominator cells.items) }
    {
        let Arrangement {
            labels,
            key,
            columns,
            rows,
        } = arrangement;
        let rooms = rooms_of(cells, rows.len())?;
        let positions = positions_of(*rows.allocator(), &rows, &columns)?;
        Ok(Dict {
            phase,
            key,
            labels,
            columns,
            rows,
            denominator,
            cells: rooms.cells,
            spare: rooms.spare,
            own: rooms.own,
            positions,
        })
    }
}
