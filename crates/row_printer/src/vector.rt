//! A row of whole entries.
ghost use Rattle.poly_io.specs.Written.{Prints};
ghost use Rattle.poly_model.specs.ListingText.{entry_text, entries_text, vector_text};

use poly_io::{Sink, WriteFault, write_all, write_num};
use poly_num::Num;

/// Writes the entries, each after one blank, and a line end.
pub fn write_vector<S: Sink>(v: &[Num], out: &mut S) -> Result<(), WriteFault>
    ensures { Prints S.Sink out.old out.new result (vector_text v.now) }
{
    write_entries(v, out)?;
    write_all(out, b"\n")
}

fn write_entries<S: Sink>(v: &[Num], out: &mut S) -> Result<(), WriteFault>
    ensures { Prints S.Sink out.old out.new result (entries_text v.now) }
{
    for y in v {
        write_entry(*y, out)?;
    }
    Ok(())
}

/// A number after one blank.
pub(crate) fn write_entry<S: Sink>(y: Num, out: &mut S) -> Result<(), WriteFault>
    ensures { Prints S.Sink out.old out.new result (entry_text y) }
{
    write_all(out, b" ")?;
    write_num(y, out)
}
