//! The text of an overflow.
ghost use Rattle.std.specs.Prelude.{◌++◌, codes};
ghost use Rattle.poly_io.specs.Written.{Prints};
ghost use Rattle.poly_model.specs.LabelText.{place_text, phase_text};
ghost use Rattle.row_printer.specs.OverflowText.{overflow_text, places_text};

use crate::labels::{write_key, write_label};
use poly_io::{Sink, WriteFault, write_all};
use poly_model::{Overflow, Phase, Place};

/// Writes the phase, the key and the four places of an overflow.
pub fn write_overflow<S: Sink>(overflow: &Overflow, out: &mut S) -> Result<(), WriteFault>
    ensures { Prints S.Sink out.old out.new result (overflow_text overflow.now) }
{
    write_phase(overflow.phase, out)?;
    write_all(out, b" ")?;
    write_key(&overflow.key, out)?;
    write_all(out, b" ")?;
    write_places(overflow, out)
}

fn write_phase<S: Sink>(phase: Phase, out: &mut S) -> Result<(), WriteFault>
    ensures { Prints S.Sink out.old out.new result (phase_text phase) }
{
    match phase {
        Phase::Cone => write_all(out, b"cone"),
        Phase::Prepare => write_all(out, b"prepare"),
        Phase::Main => write_all(out, b"main"),
        Phase::First => write_all(out, b"first"),
    }
}

fn write_places<S: Sink>(overflow: &Overflow, out: &mut S) -> Result<(), WriteFault>
    ensures { Prints S.Sink out.old out.new result (places_text overflow.now) }
{
    write_place(overflow.a, out)?;
    write_all(out, b" ")?;
    write_place(overflow.b, out)?;
    write_all(out, b" ")?;
    write_place(overflow.c, out)?;
    write_all(out, b" ")?;
    write_place(overflow.d, out)
}

fn write_place<S: Sink>(place: Place, out: &mut S) -> Result<(), WriteFault>
    ensures { Prints S.Sink out.old out.new result (place_text place) }
{
    write_label(place.row, out)?;
    write_all(out, b",")?;
    write_label(place.col, out)
}
