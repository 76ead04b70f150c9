//! Writes the last line of a reply.
ghost use Rattle.std.specs.Prelude.{◌++◌, ◌∷◌, [], codes};
ghost use Rattle.poly_io.specs.Written.{Prints};
ghost use Rattle.row_printer.specs.OverflowText.{overflow_text};
ghost use Rattle.job_text.specs.Replies.{tail_text};
ghost use Rattle.job_text.specs.declared.reply.Tail.TheVariants.{End};

use crate::Tail;
use poly_io::{Sink, WriteFault, write_all, write_count};
use poly_model::{Count, Overflow};
use row_printer::write_overflow;

/// Writes the last line of a reply.
pub fn write_tail<S: Sink>(tail: &Tail, out: &mut S) -> Result<(), WriteFault>
    ensures { Prints S.Sink out.old out.new result (tail_text tail.now) }
{
    match tail {
        Tail::End(count) => write_end(*count, out),
        Tail::Overflow(overflow) => write_overflow_line(overflow, out),
        Tail::Memory => write_all(out, b"memory\n"),
    }
}

fn write_end<S: Sink>(count: Count, out: &mut S) -> Result<(), WriteFault>
    ensures { Prints S.Sink out.old out.new result (tail_text (End count)) }
{
    write_all(out, b"end ")?;
    write_count(count.rows, out)?;
    write_all(out, b" ")?;
    write_count(count.jobs, out)?;
    write_all(out, b" ")?;
    write_count(count.bases, out)?;
    write_all(out, b"\n")
}

fn write_overflow_line<S: Sink>(overflow: &Overflow, out: &mut S) -> Result<(), WriteFault>
    ensures { Prints S.Sink out.old out.new result (codes "overflow " ++ (overflow_text overflow.now ++ 10 ∷ [])) }
{
    write_all(out, b"overflow ")?;
    write_overflow(overflow, out)?;
    write_all(out, b"\n")
}
