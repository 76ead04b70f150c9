//! How a caller puts a buffer in front of a sink.
ghost use Rattle.std.specs.Prelude.{◌≡◌};
ghost use Rattle.poly_io.specs.Written.{Prints};

use crate::{Base, Buffered};
use poly_io::{Sink, WriteFault, write_all};
use std::marker::Brand;

/// Writes a text through a buffer, and gives the sink back. It is here as a pattern: in the place of `write_all` may
/// stand any call that takes a sink.
pub fn write_through<S: Sink>(text: &[u8], out: S) -> (S, Result<(), WriteFault>)
    ensures { Prints S.Sink out result.0 result.1 text.now }
{
    write_over::<Brand, S>(text, out)
}

// The base is what the sink has written at this call; the call above picks it.
fn write_over<B: Base, S: Sink>(text: &[u8], out: S) -> (S, Result<(), WriteFault>)
    requires { B.base ≡ S.written out }
    ensures { Prints S.Sink out result.0 result.1 text.now }
{
    let mut sink = Buffered::<B, S>::new(out);
    let written = write_all(&mut sink, text);
    let (out, end) = sink.finish();
    (out, written.and(end))
}
