//! Lists that own their memory, for the fields of answers.
ghost use Rattle.std.specs.Prelude.{◌≡◌};

use poly_num::Num;
use std::marker::Model;

/// A vector of numbers. Contracts see the list of its entries.
#[derive(Drop)]
pub struct Vector {
    entries: Vec<Num>,
}

impl Model for Vector {
    ghost use Rattle.std.specs.Prelude.{List};
    ghost use Rattle.poly_num.specs.declared.number.Num.{Num};

    ghost Value = { List Num };

    ghost view = { λ v. v.entries.items };
}

impl Vector {
    /// The vector of these entries. Takes no memory.
    pub fn from_vec(entries: Vec<Num>) -> Vector
        ensures { result ≡ entries.items }
    {
        Vector { entries }
    }

    /// Gives the entries back. Takes no memory.
    pub fn into_vec(self) -> Vec<Num>
        ensures { result.items ≡ self }
    {
        self.entries
    }

    pub fn as_slice(&self) -> &[Num]
        ensures { result.now ≡ self.now }
    {
        &self.entries
    }
}

/// Vectors, one after the other. Contracts see the list of them.
#[derive(Drop)]
pub struct Rows {
    vectors: Vec<Vector>,
}

/// The lines of a cone, or the equations of a hull, by ascending free column.
pub type Lines = Rows;

impl Model for Rows {
    ghost use Rattle.std.specs.Prelude.{List};
    ghost use Rattle.poly_model.specs.declared.lists.Vector.{Vector};

    ghost Value = { List Vector };

    ghost view = { λ r. r.vectors.items };
}

impl Rows {
    /// These vectors. Takes no memory.
    pub fn from_vec(vectors: Vec<Vector>) -> Rows
        ensures { result ≡ vectors.items }
    {
        Rows { vectors }
    }

    /// Gives the vectors back. Takes no memory.
    pub fn into_vec(self) -> Vec<Vector>
        ensures { result.items ≡ self }
    {
        self.vectors
    }

    pub fn as_slice(&self) -> &[Vector]
        ensures { result.now ≡ self.now }
    {
        &self.vectors
    }
}
