//! The columns that a system does not settle.
ghost use Rattle.std.specs.Prelude.{◌≡◌};
ghost use Rattle.poly_model.specs.Spaces.{is_member};

use std::marker::Model;

/// The free columns of a cone, ascending, counted from 0: one for each line of it. Contracts see the list of them.
#[derive(Drop)]
pub struct FreeColumns {
    columns: Vec<u32>,
}

impl Model for FreeColumns {
    ghost use Rattle.std.specs.Prelude.{ℕ, List};

    ghost Value = { List ℕ };

    ghost view = { λ f. f.columns.items };
}

impl FreeColumns {
    /// These columns. Takes no memory.
    pub fn from_vec(columns: Vec<u32>) -> FreeColumns
        ensures { result ≡ columns.items }
    {
        FreeColumns { columns }
    }

    pub fn as_slice(&self) -> &[u32]
        ensures { result.now ≡ self.now }
    {
        &self.columns
    }

    /// Whether column j is free.
    pub fn contains(&self, j: u32) -> bool
        ensures { result ≡ is_member j self.now }
    {
        let columns: &[u32] = &self.columns;
        columns.contains(&j)
    }
}
