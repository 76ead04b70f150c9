//! Rows of a listing, written at each vector that a search finds.
ghost use Rattle.std.specs.Prelude.{◌≡◌, [], IsErrOf};
ghost use Rattle.poly_model.specs.declared.overflow.Overflow.{Overflow as Passed};
ghost use Rattle.poly_model.specs.Systems.{Polyhedron, cone_of};
ghost use Rattle.dictionary.specs.Views.{Dictionary};
ghost use Rattle.listing_laws.specs.Prefixes.{IsCornerUnder};
ghost use Rattle.plain_enum.specs.Begin.{IsBegun, HasRoomForAll, begun_cone};
ghost use Rattle.plain_enum.specs.Listed.{WritesRow, FailsAtRow, HasStopCause, WritesRows};
ghost use Rattle.plain_enum.specs.Plain.{PassesInCone};

use crate::begin::Room;
use crate::prefix::{Ended, Prefix};
use crate::visit::{Visit, visit_all};
use poly_io::{Sink, WriteFault};
use poly_num::Num;
use row_printer::Shown;

impl<S: Sink> Visit<S, WriteFault> for Shown {
    ghost visits = { WritesRow S.written S.faults };

    ghost ends = { λ s o y _ q. FailsAtRow S.written S.faults s o y q };

    fn visit(self, vector: &[Num], out: &mut S) -> Result<Shown, WriteFault> {
        self.row(out, vector)
    }
}

/// Writes the rows of the extreme vectors, from a dictionary at which the linear rows have been tried.
pub(crate) fn list_rows<S: Sink>(
    start: &Prefix,
    room: &mut Room,
    shown: Shown,
    out: &mut S,
) -> Result<Shown, Ended<WriteFault>>
    requires first { start.now.from ≡ 1 }
    requires room { HasRoomForAll start.now.sys.now start.now.free.now start.now.dict.now
        room.old.deeper.items room.old.vector.items }
    requires kind { shown.listing ≡ start.now.sys.now.kind }
    ensures written { (p : Polyhedron) (last : Dictionary) → start.now.sys.now ≡ cone_of p →
        IsBegun p start.now.dict.now last start.now.free.now →
        WritesRows start.now.sys.now.kind shown.tally (S.written out.old) (S.written out.new) result
        (IsCornerUnder (begun_cone p start.now.free.now start.now.dict.now) []) }
    ensures passes { (o : Passed) → IsErrOf result (Ended.Overflow o) → (p : Polyhedron) (last : Dictionary) →
        start.now.sys.now ≡ cone_of p → IsBegun p start.now.dict.now last start.now.free.now → PassesInCone p o }
    ensures cause { HasStopCause (S.faults out.old) (S.faults out.new) result }
{
    visit_all(start, room, shown, out)
}
