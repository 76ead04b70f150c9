//! The listing of a file that is feasible.
ghost use Rattle.std.specs.Prelude.{◌≡◌, ◌≤◌, ◌↔◌, length, IfOk, IsErrOf, IsTrue};
ghost use Rattle.poly_io.specs.Causes.{Rose};
ghost use Rattle.poly_model.specs.Limits.{most_columns};
ghost use Rattle.poly_model.specs.declared.overflow.Overflow.{Overflow as Passed};
ghost use Rattle.poly_model.specs.Extreme.{IsFeasible};
ghost use Rattle.poly_model.specs.Systems.{Polyhedron, cone_of};
ghost use Rattle.dictionary.specs.Views.{Dictionary};
ghost use Rattle.linearity.specs.Columns.{coordinate_vectors};
ghost use Rattle.plain_enum.specs.Begin.{IsBegun, HasRoomForAll};
ghost use Rattle.row_printer.specs.Listings.{ListsIfFeasible};
ghost use Rattle.plain_enum.specs.Plain.{PassesInCone};

use crate::answers::FeasibleStop;
use crate::begin::{Beginning, Room, begin};
use crate::feasible::has_point_left;
use crate::plain::print;
use crate::prefix::{Ended, Prefix};
use linearity::lines_of;
use poly_io::{Sink, WriteFault};
use poly_model::{Kind, Listed, Overflow, System, Vector};
use row_printer::ListStop;
use std::alloc::Global;

/// Writes the listing of a file that is feasible, as `list_plain` does; `sys` is its cone. One elimination serves for
/// both, to find out whether the file is feasible and to list it. Nothing is written before it is known to be feasible,
/// and want of memory comes before that too. Where it stops, what was written is the beginning of a listing.
pub fn list_feasible<S: Sink>(alloc: Global, sys: &System, out: &mut S) -> Result<Listed, ListStop>
    ensures listed { (p : Polyhedron) → sys.now ≡ cone_of p →
        ListsIfFeasible p (S.written out.old) (S.written out.new) (out.new ≡ out.old) (PassesInCone p) result }
    ensures infeasible { IsErrOf result ListStop.Infeasible → out.new ≡ out.old }
    ensures memory { IsErrOf result ListStop.Memory → out.new ≡ out.old }
    ensures later { S.faults out.old ≤ S.faults out.new }
    ensures same { ¬ (IsErrOf result ListStop.WriteFault) → S.faults out.new ≡ S.faults out.old }
    ensures fault { IsErrOf result ListStop.WriteFault → Rose (S.faults out.old) (S.faults out.new) }
{
    let Beginning {
        dict,
        last,
        free,
        mut room,
    } = match begin(alloc, sys) {
        Ok(begun) => begun,
        Err(FeasibleStop::Overflow(overflow)) => return Err(ListStop::Overflow(overflow)),
        Err(FeasibleStop::Memory) => return Err(ListStop::Memory),
    };
    let Ok(lines) = lines_of(alloc, &last, sys.n()) else {
        return Err(ListStop::Memory);
    };
    let start = Prefix {
        sys,
        free: &free,
        dict: &dict,
        from: 1,
    };
    print_if_feasible(&start, lines.as_slice(), &mut room, out)
}

// The same from a dictionary at which the linear rows have been tried. The listing has these lines.
fn print_if_feasible<S: Sink>(
    start: &Prefix,
    lines: &[Vector],
    room: &mut Room,
    out: &mut S,
) -> Result<Listed, ListStop>
    requires first { start.now.from ≡ 1 }
    requires room { HasRoomForAll start.now.sys.now start.now.free.now start.now.dict.now
        room.old.deeper.items room.old.vector.items }
    requires lines { length lines.now ≤ most_columns }
    ensures listed { (p : Polyhedron) (last : Dictionary) → start.now.sys.now ≡ cone_of p →
        IsBegun p start.now.dict.now last start.now.free.now →
        lines.now ≡ coordinate_vectors last start.now.sys.now.n →
        ListsIfFeasible p (S.written out.old) (S.written out.new) (out.new ≡ out.old) (PassesInCone p) result }
    ensures infeasible { IsErrOf result ListStop.Infeasible → out.new ≡ out.old }
    ensures memory { IsErrOf result ListStop.Memory → ⊥ }
    ensures later { S.faults out.old ≤ S.faults out.new }
    ensures same { ¬ (IsErrOf result ListStop.WriteFault) → S.faults out.new ≡ S.faults out.old }
    ensures fault { IsErrOf result ListStop.WriteFault → Rose (S.faults out.old) (S.faults out.new) }
{
    match is_feasible(start, room) {
        Ok(true) => {}
        Ok(false) => return Err(ListStop::Infeasible),
        Err(overflow) => return Err(ListStop::Overflow(overflow)),
    }
    match print(start, lines, room, out) {
        Ok(listed) => Ok(listed),
        Err(Ended::Overflow(overflow)) => Err(ListStop::Overflow(overflow)),
        Err(Ended::Stopped(WriteFault)) => Err(ListStop::WriteFault),
    }
}

// Whether a file is feasible, from a dictionary at which the linear rows have been tried.
fn is_feasible(start: &Prefix, room: &mut Room) -> Result<bool, Overflow>
    requires first { start.now.from ≡ 1 }
    requires room { HasRoomForAll start.now.sys.now start.now.free.now start.now.dict.now
        room.old.deeper.items room.old.vector.items }
    ensures answer { IfOk result (λ found. (p : Polyhedron) (last : Dictionary) → start.now.sys.now ≡ cone_of p →
        IsBegun p start.now.dict.now last start.now.free.now → IsTrue found ↔ IsFeasible (cone_of p)) }
    ensures passes { (o : Passed) → IsErrOf result o → (p : Polyhedron) (last : Dictionary) →
        start.now.sys.now ≡ cone_of p → IsBegun p start.now.dict.now last start.now.free.now → PassesInCone p o }
    ensures room { HasRoomForAll start.now.sys.now start.now.free.now start.now.dict.now
        room.new.deeper.items room.new.vector.items }
{
    match start.sys.kind() {
        Kind::H => has_point_left(start, room),
        Kind::V => Ok(true),
    }
}
