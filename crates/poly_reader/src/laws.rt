//! Laws of reading: functions with an empty body.
ghost use Rattle.std.specs.Prelude.{List, ℕ};
ghost use Rattle.poly_reader.specs.Before.{KeepsItsPolyhedron};

/// A text that had a polyhedron while no row had more than 256 numbers and `nonnegative` was refused has it still.
pub fn polyhedra_are_kept()
    ensures { (text : List ℕ) → KeepsItsPolyhedron text }
{}
