//! What stands before the rows of a listing.
ghost use Rattle.poly_io.specs.Written.{Prints};
ghost use Rattle.poly_model.specs.ListingText.{head_text, title_text, size_text};
ghost use Rattle.poly_model.specs.ListingText.{linearity_text, number_text, numbers_text};

use poly_io::{Sink, WriteFault, write_all, write_count};
use poly_model::Kind;

pub(crate) fn write_head<S: Sink>(
    kind: Kind,
    n: u32,
    lines: u32,
    out: &mut S,
) -> Result<(), WriteFault>
    ensures { Prints S.Sink out.old out.new result (head_text kind n lines) }
{
    write_title(kind, out)?;
    write_linearity(lines, out)?;
    write_size(n, out)
}

/// The first line: a listing is of the kind that the input file is not.
#[tactic(auto, unfolding(poly_model::specs::ListingText::title_text))]
fn write_title<S: Sink>(kind: Kind, out: &mut S) -> Result<(), WriteFault>
    ensures { Prints S.Sink out.old out.new result (title_text kind) }
{
    match kind {
        Kind::H => write_all(out, b"V-representation\n"),
        Kind::V => write_all(out, b"H-representation\n"),
    }
}

/// The line that says that the first rows are lines, where there are some.
fn write_linearity<S: Sink>(lines: u32, out: &mut S) -> Result<(), WriteFault>
    ensures { Prints S.Sink out.old out.new result (linearity_text lines) }
{
    if lines == 0 {
        return Ok(());
    }
    write_all(out, b"linearity ")?;
    write_count(lines as u64, out)?;
    write_numbers(lines, out)?;
    write_all(out, b"\n")
}

/// The numbers from 1 to `count`.
fn write_numbers<S: Sink>(count: u32, out: &mut S) -> Result<(), WriteFault>
    ensures { Prints S.Sink out.old out.new result (numbers_text 1 count) }
{
    for i in 0..count {
        write_number(i as u64 + 1, out)?;
    }
    Ok(())
}

fn write_number<S: Sink>(n: u64, out: &mut S) -> Result<(), WriteFault>
    ensures { Prints S.Sink out.old out.new result (number_text n) }
{
    write_all(out, b" ")?;
    write_count(n, out)
}

/// The line before the rows, and the one that says how many entries each has.
fn write_size<S: Sink>(n: u32, out: &mut S) -> Result<(), WriteFault>
    ensures { Prints S.Sink out.old out.new result (size_text n) }
{
    write_all(out, b"begin\n***** ")?;
    write_count(n as u64, out)?;
    write_all(out, b" rational\n")
}
