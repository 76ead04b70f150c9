//! Numbers as decimal text.
ghost use Rattle.std.specs.Fmt.{decimal, signed_decimal};
ghost use Rattle.poly_io.specs.Written.{Prints};

use crate::{Sink, WriteFault, write_all};
use poly_num::Num;

/// Writes a number: `-` before a negative one, no `+`, no leading zeros.
pub fn write_num<S: Sink>(n: Num, out: &mut S) -> Result<(), WriteFault>
    ensures { Prints S.Sink out.old out.new result (signed_decimal n) }
{
    let mut buffer = itoa::Buffer::new();
    write_all(out, buffer.format(n.get()).as_bytes())
}

/// Writes a count, with no leading zeros.
pub fn write_count<S: Sink>(n: u64, out: &mut S) -> Result<(), WriteFault>
    ensures { Prints S.Sink out.old out.new result (decimal n) }
{
    let mut buffer = itoa::Buffer::new();
    write_all(out, buffer.format(n).as_bytes())
}
