//! Reading a polyhedron from a source.
ghost use Rattle.std.specs.Prelude.{◌≡◌, ◌≤◌, ◌+◌, IfOk, IsErrOf};
ghost use Rattle.poly_io.specs.Causes.{Rose};
ghost use Rattle.poly_io.specs.Taken.{TakesAtMost};
ghost use Rattle.poly_reader.specs.declared.bad.BadFile.{BadFile};
ghost use Rattle.poly_reader.specs.Limits.{most_file_bytes};
ghost use Rattle.poly_reader.specs.Reading.{IsOfItsText};
ghost use Rattle.poly_reader.specs.Taking.{FindsPolyhedron, FindsFault};

use crate::bad::bad;
use crate::poly::poly_with;
use crate::{BadKind, MOST_FILE_BYTES, ParseStop, ReadStop};
use poly_io::{Source, WholeStop, read_whole};
use poly_model::Poly;
use std::alloc::Global;

/// The polyhedron that a source gives, in whatever pieces. It is read to its end, or to one byte
/// past the longest file. After an error the bytes that were taken are lost.
pub fn read_poly<S: Source>(alloc: Global, source: &mut S) -> Result<Poly, ReadStop>
    ensures ok { IfOk result (FindsPolyhedron (S.left source.old) (S.left source.new)) }
    ensures own_text { IfOk result IsOfItsText }
    ensures bad { (f : BadFile) → IsErrOf result (ReadStop.Bad f)
        → FindsFault (S.left source.old) (S.left source.new) f }
    ensures fault { IsErrOf result ReadStop.Fault → Rose (S.faults source.old) (S.faults source.new) }
    ensures same { ¬ (IsErrOf result ReadStop.Fault) → S.faults source.new ≡ S.faults source.old }
    // Whatever the answer is.
    ensures taken { TakesAtMost (S.left source.old) (S.left source.new) (most_file_bytes + 1) }
    ensures later { S.faults source.old ≤ S.faults source.new }
{
    let text = match read_whole(alloc, source, MOST_FILE_BYTES) {
        Ok(text) => text,
        Err(WholeStop::Fault) => return Err(ReadStop::Fault),
        Err(WholeStop::TooLong) => return Err(ReadStop::Bad(bad(BadKind::TooLong, 0))),
        Err(WholeStop::Memory) => return Err(ReadStop::Memory),
    };
    match poly_with(alloc, text.into_vec()) {
        Ok(poly) => Ok(poly),
        Err(ParseStop::Bad(f)) => Err(ReadStop::Bad(f)),
        Err(ParseStop::Memory) => Err(ReadStop::Memory),
    }
}
