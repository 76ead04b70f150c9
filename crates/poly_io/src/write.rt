//! Bytes written in as many calls as it takes.
ghost use Rattle.poly_io.specs.Written.{Prints};

use crate::{Sink, WriteFault};

/// Writes all the bytes, in as many calls as the sink wants. At the first failed call it stops.
pub fn write_all<S: Sink>(out: &mut S, bytes: &[u8]) -> Result<(), WriteFault>
    ensures { Prints S.Sink out.old out.new result bytes.now }
{
    let mut rest = bytes;
    while !rest.is_empty() {
        let count = out.write(rest)?;
        rest = &rest[count..];
    }
    Ok(())
}
