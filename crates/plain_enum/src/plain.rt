//! The listing of a system by subsets of its rows: each vector is shown at its lexicographically first independent
//! list of tight rows.
ghost use Rattle.std.specs.Prelude.{◌≡◌, ◌≤◌, length, IsErrOf};
ghost use Rattle.poly_io.specs.Causes.{Rose};
ghost use Rattle.poly_model.specs.Limits.{most_columns};
ghost use Rattle.poly_model.specs.declared.overflow.Overflow.{Overflow as Passed};
ghost use Rattle.poly_model.specs.Systems.{Polyhedron, cone_of};
ghost use Rattle.dictionary.specs.Views.{Dictionary};
ghost use Rattle.linearity.specs.Columns.{coordinate_vectors};
ghost use Rattle.plain_enum.specs.Begin.{IsBegun, HasRoomForAll};
ghost use Rattle.plain_enum.specs.Listed.{HasStopCause};
ghost use Rattle.row_printer.specs.Listings.{WritesListing};
ghost use Rattle.plain_enum.specs.Plain.{PassesInCone};

use crate::answers::{FeasibleStop, PlainStop};
use crate::begin::{Beginning, Room, begin};
use crate::list::list_rows;
use crate::prefix::{Ended, Prefix};
use linearity::lines_of;
use poly_io::{Sink, WriteFault};
use poly_model::{Listed, System, Vector};
use row_printer::{Listing, Shown};
use std::alloc::Global;

/// Writes the listing of a system: its head, the lines by ascending free column, the rows of its extreme vectors, its
/// end. The answer says how many rows and lines it has. Where it stops, what was written is the beginning of a listing;
/// want of memory comes before anything is written.
pub fn list_plain<S: Sink>(alloc: Global, sys: &System, out: &mut S) -> Result<Listed, PlainStop>
    ensures written { (p : Polyhedron) → sys.now ≡ cone_of p →
        WritesListing p (S.written out.old) (S.written out.new) result }
    ensures overflow { (o : Passed) → IsErrOf result (PlainStop.Overflow o) → (p : Polyhedron) →
        sys.now ≡ cone_of p → PassesInCone p o }
    ensures memory { IsErrOf result PlainStop.Memory → out.new ≡ out.old }
    ensures later { S.faults out.old ≤ S.faults out.new }
    ensures same { ¬ (IsErrOf result PlainStop.WriteFault) → S.faults out.new ≡ S.faults out.old }
    ensures fault { IsErrOf result PlainStop.WriteFault → Rose (S.faults out.old) (S.faults out.new) }
{
    let Beginning {
        dict,
        last,
        free,
        mut room,
    } = match begin(alloc, sys) {
        Ok(begun) => begun,
        Err(FeasibleStop::Overflow(overflow)) => return Err(PlainStop::Overflow(overflow)),
        Err(FeasibleStop::Memory) => return Err(PlainStop::Memory),
    };
    let Ok(lines) = lines_of(alloc, &last, sys.n()) else {
        return Err(PlainStop::Memory);
    };
    let start = Prefix {
        sys,
        free: &free,
        dict: &dict,
        from: 1,
    };
    match print(&start, lines.as_slice(), &mut room, out) {
        Ok(listed) => Ok(listed),
        Err(Ended::Overflow(overflow)) => Err(PlainStop::Overflow(overflow)),
        Err(Ended::Stopped(WriteFault)) => Err(PlainStop::WriteFault),
    }
}

/// Writes the listing from a dictionary at which the linear rows have been tried. It has these lines.
pub(crate) fn print<S: Sink>(
    start: &Prefix,
    lines: &[Vector],
    room: &mut Room,
    out: &mut S,
) -> Result<Listed, Ended<WriteFault>>
    requires first { start.now.from ≡ 1 }
    requires room { HasRoomForAll start.now.sys.now start.now.free.now start.now.dict.now
        room.old.deeper.items room.old.vector.items }
    requires lines { length lines.now ≤ most_columns }
    ensures written { (p : Polyhedron) (last : Dictionary) → start.now.sys.now ≡ cone_of p →
        IsBegun p start.now.dict.now last start.now.free.now →
        lines.now ≡ coordinate_vectors last start.now.sys.now.n →
        WritesListing p (S.written out.old) (S.written out.new) result }
    ensures passes { (o : Passed) → IsErrOf result (Ended.Overflow o) → (p : Polyhedron) (last : Dictionary) →
        start.now.sys.now ≡ cone_of p → IsBegun p start.now.dict.now last start.now.free.now → PassesInCone p o }
    ensures cause { HasStopCause (S.faults out.old) (S.faults out.new) result }
{
    let listing = match Listing::begin(out, start.sys.kind(), start.sys.n(), lines) {
        Ok(listing) => listing,
        Err(fault) => return Err(Ended::Stopped(fault)),
    };
    let Shown { listing, tally } = list_rows(start, room, Shown::none(listing), out)?;
    match listing.finish(out) {
        Ok(()) => Ok(Listed {
            rows: tally.rows,
            lines: lines.len() as u32,
        }),
        Err(fault) => Err(Ended::Stopped(fault)),
    }
}
