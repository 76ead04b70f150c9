//! What is prepared before a search.
ghost use Rattle.std.specs.Prelude.{◌≡◌};

use dictionary::Dict;
use poly_model::{FreeColumns, Key, Lines};
use std::marker::Model;

/// The lines of a cone, its free columns, and the dictionary of the start cobasis in the phase `Main`: of what
/// is left of the system where the equations hold and the free coordinates are 0.
pub struct Prepared {
    pub(crate) lines: Lines,
    pub(crate) free: FreeColumns,
    pub(crate) dict: Dict,
}

// Written out, so that to let one go is one step in the proofs of those who hold it.
impl Drop for Prepared {
    fn drop(self) {
        let Self {
            lines: _,
            free: _,
            dict: _,
        } = self;
    }
}

impl Model for Prepared {
    ghost use Rattle.linearity.specs.Prepared.{Preparation};

    ghost Value = { Preparation };

    ghost view = { λ r. record { lines = r.lines; free = r.free; dictionary = r.dict } };
}

impl Prepared {
    /// The lines, one for each free column, by ascending column.
    pub fn lines(&self) -> &Lines
        ensures { result.now ≡ self.now.lines }
    {
        &self.lines
    }

    /// The free columns, ascending.
    pub fn free(&self) -> &FreeColumns
        ensures { result.now ≡ self.now.free }
    {
        &self.free
    }

    /// The dictionary of the start cobasis in the phase `Main`.
    pub fn dict(&self) -> &Dict
        ensures { result.now ≡ self.now.dictionary }
    {
        &self.dict
    }

    /// The start cobasis: the rows that are not linear, in ascending order, each where it is new.
    pub fn start(&self) -> Key
        ensures { result ≡ self.now.dictionary.key }
    {
        self.dict.key()
    }

    /// Its parts, by value: the lines, the free columns, the dictionary of the start cobasis in the phase `Main`.
    pub fn into_parts(self) -> (Lines, FreeColumns, Dict)
        ensures lines { result.0 ≡ self.lines }
        ensures free { result.1 ≡ self.free }
        ensures dict { result.2 ≡ self.dictionary }
    {
        let Self { lines, free, dict } = self;
        (lines, free, dict)
    }
}
