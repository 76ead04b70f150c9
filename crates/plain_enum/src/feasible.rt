//! Whether a file is feasible: whether some vector that a listing shows has a positive first entry.
ghost use Rattle.std.specs.Prelude.{◌≡◌, ◌<◌, ◌↔◌, ◌<ℤ◌, pos, length, IfOk, IsErrOf, IsTrue};
ghost use Rattle.poly_model.specs.declared.overflow.Overflow.{Overflow as Passed};
ghost use Rattle.poly_model.specs.Systems.{Polyhedron, cone_of};
ghost use Rattle.cone_laws.specs.FeasibilityLaws.{HasVertex};
ghost use Rattle.dictionary.specs.Views.{Dictionary};
ghost use Rattle.poly_model.specs.Extreme.{IsFeasible};
ghost use Rattle.poly_model.specs.Cones.{at};
ghost use Rattle.plain_enum.specs.Begin.{IsBegun, HasRoomForAll};
ghost use Rattle.plain_enum.specs.Plain.{PassesInCone};

use crate::answers::FeasibleStop;
use crate::begin::{Beginning, Room, begin};
use crate::prefix::{Ended, Prefix};
use crate::visit::{Visit, visit_all};
use poly_model::{Kind, Overflow, System};
use poly_num::Num;
use std::alloc::Global;

/// Seeks a vector with a positive first entry.
#[derive(Drop)]
struct Seeker;

/// Such a vector was found.
#[derive(Drop)]
struct Found;

impl Visit<(), Found> for Seeker {
    ghost visits = { λ _ _ y _ _. ¬ (pos 0 <ℤ at 0 y) };

    ghost ends = { λ _ _ y _ _. pos 0 <ℤ at 0 y };

    fn visit(self, vector: &[Num], _out: &mut ()) -> Result<Seeker, Found> {
        if starts_positive(vector) {
            Err(Found)
        } else {
            Ok(self)
        }
    }
}

// Whether the first entry is positive.
fn starts_positive(vector: &[Num]) -> bool
    requires { 0 < length vector.now }
    ensures { IsTrue result ↔ pos 0 <ℤ at 0 vector.now }
{
    vector[0].get() > 0
}

/// Whether a file is feasible: a V file always is, and no number of it passes; an H file where its cone has a vector
/// with a positive first entry. `sys` is its cone, and is left as it is; the dictionaries are given back before the
/// call returns, whatever it answers.
pub fn feasible_plain(alloc: Global, sys: &System) -> Result<bool, FeasibleStop>
    ensures answer { IfOk result (λ found. (p : Polyhedron) → sys.now ≡ cone_of p →
        IsTrue found ↔ IsFeasible (cone_of p)) }
    ensures overflow { (o : Passed) → IsErrOf result (FeasibleStop.Overflow o) → (p : Polyhedron) →
        sys.now ≡ cone_of p → PassesInCone p o }
    ensures inequalities { (o : Passed) → IsErrOf result (FeasibleStop.Overflow o) → sys.now.kind ≡ Kind.H }
{
    match sys.kind() {
        Kind::H => has_point(alloc, sys),
        Kind::V => Ok(true),
    }
}

// Whether an extreme vector has a positive first entry.
fn has_point(alloc: Global, sys: &System) -> Result<bool, FeasibleStop>
    ensures answer { IfOk result (λ found. (p : Polyhedron) → sys.now ≡ cone_of p →
        IsTrue found ↔ HasVertex (cone_of p)) }
    ensures overflow { (o : Passed) → IsErrOf result (FeasibleStop.Overflow o) → (p : Polyhedron) →
        sys.now ≡ cone_of p → PassesInCone p o }
{
    let Beginning {
        dict,
        last,
        free,
        mut room,
    } = begin(alloc, sys)?;
    let start = Prefix {
        sys,
        free: &free,
        dict: &dict,
        from: 1,
    };
    match has_point_left(&start, &mut room) {
        Ok(found) => Ok(found),
        Err(overflow) => Err(FeasibleStop::Overflow(overflow)),
    }
}

/// The same from a dictionary at which the linear rows have been tried.
pub(crate) fn has_point_left(start: &Prefix, room: &mut Room) -> Result<bool, Overflow>
    requires first { start.now.from ≡ 1 }
    requires room { HasRoomForAll start.now.sys.now start.now.free.now start.now.dict.now
        room.old.deeper.items room.old.vector.items }
    ensures answer { IfOk result (λ found. (p : Polyhedron) (last : Dictionary) → start.now.sys.now ≡ cone_of p →
        IsBegun p start.now.dict.now last start.now.free.now → IsTrue found ↔ HasVertex (cone_of p)) }
    ensures passes { (o : Passed) → IsErrOf result o → (p : Polyhedron) (last : Dictionary) →
        start.now.sys.now ≡ cone_of p → IsBegun p start.now.dict.now last start.now.free.now → PassesInCone p o }
    ensures room { HasRoomForAll start.now.sys.now start.now.free.now start.now.dict.now
        room.new.deeper.items room.new.vector.items }
{
    match visit_all(start, room, Seeker, &mut ()) {
        Ok(_) => Ok(false),
        Err(Ended::Stopped(Found)) => Ok(true),
        Err(Ended::Overflow(overflow)) => Err(overflow),
    }
}
