//! Lines of words and numbers.
ghost use Rattle.std.specs.Prelude.{◌++◌, decimal};
ghost use Rattle.poly_io.specs.Written.{Prints};
ghost use Rattle.lrs_cli.specs.Counts.{counts_text};

use poly_io::{Sink, WriteFault, write_all, write_count};

/// A number behind these words.
#[derive(Clone, Copy)]
pub struct CountBehind<'a>(pub &'a [u8], pub u64);

/// Writes numbers, each behind its words, and the words at the end.
pub fn write_counts<S: Sink>(
    counts: &[CountBehind],
    end: &[u8],
    out: &mut S,
) -> Result<(), WriteFault>
    ensures { Prints S.Sink out.old out.new result (counts_text counts.now end.now) }
{
    for count in counts {
        write_behind(count.0, count.1, out)?;
    }
    write_all(out, end)
}

// The number behind the words.
fn write_behind<S: Sink>(words: &[u8], count: u64, out: &mut S) -> Result<(), WriteFault>
    ensures { Prints S.Sink out.old out.new result (words.now ++ decimal count) }
{
    write_all(out, words)?;
    write_count(count, out)
}
