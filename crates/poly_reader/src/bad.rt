//! What a text that is no polyhedron is refused for, and why a reader stops.
ghost use Rattle.std.specs.Prelude.{◌≡◌};

use std::alloc::{AllocError, AllocFailed};

/// A rule that a file breaks.
#[derive(Clone, Copy, Debug, PartialEq, Eq)]
pub enum BadKind {
    /// More than `MOST_FILE_BYTES` bytes.
    TooLong,
    /// A line `linearity` that is not a count and so many rows of the file.
    BadLinearity,
    /// No line begins with `begin`.
    NoBegin,
    /// A word of the header is missing, or is no number where one is wanted.
    BadHeader,
    /// More than `MOST_FILE_ROWS` rows.
    TooManyRows,
    /// A width of 0 or of more than `MOST_COLUMNS`.
    BadWidth,
    /// A type other than `integer` and `rational`.
    UnsupportedType,
    /// `end` before all numbers of the last row.
    ShortData,
    /// A word other than `end` behind the numbers that were announced.
    LongData,
    /// A word that is no number.
    BadNumber,
    /// A denominator of 0.
    ZeroDenominator,
    /// A numerator or a denominator, as written, above `2^127 - 1`.
    WideNumber,
    /// No word `end`.
    NoEnd,
    /// A line behind `end` that begins with `linearity`.
    MisplacedLinearity,
    /// A line behind `end`, or a line of a V file, that begins with `nonnegative`.
    MisplacedNonnegative,
    /// A V file without rows.
    NoRows,
    /// A row of a V file whose first number is neither 0 nor 1.
    BadFirst,
    /// A point that `linearity` names.
    LinearPoint,
    /// A row whose least common denominator, or whose entry once it is scaled, is above `2^127 - 1`
    /// in size.
    WideRow,
}

/// The first thing that is wrong with a text, and the line on which it stands. Lines are counted
/// from 1; line 0 is the file as a whole.
#[derive(Clone, Copy, Debug, PartialEq, Eq)]
pub struct BadFile {
    pub kind: BadKind,
    pub line: u64,
}

/// Why a text was not made a polyhedron.
#[derive(Clone, Copy, Debug, PartialEq, Eq)]
pub enum ParseStop {
    /// It is none.
    Bad(BadFile),
    /// The memory was refused.
    Memory,
}

/// Why no polyhedron was read from a source.
#[derive(Clone, Copy, Debug, PartialEq, Eq)]
pub enum ReadStop {
    /// The source failed.
    Fault,
    /// What was taken is no polyhedron.
    Bad(BadFile),
    /// The memory was refused.
    Memory,
}

/// The fault of this kind on this line.
pub(crate) fn bad(kind: BadKind, line: u64) -> BadFile
    ensures { result ≡ record { kind = kind; line = line } }
{
    BadFile { kind, line }
}

impl From<BadFile> for ParseStop {
    ghost use Rattle.poly_reader.specs.declared.bad.ParseStop.TheVariants.{Bad};
    ghost use Rattle.std.specs.Prelude.{◌≡◌};

    ghost from_gives = { λ f e. e ≡ Bad f };

    fn from(f: BadFile) -> ParseStop {
        ParseStop::Bad(f)
    }
}

impl From<AllocError> for ParseStop {
    ghost use Rattle.poly_reader.specs.declared.bad.ParseStop.TheVariants.{Memory};
    ghost use Rattle.std.specs.Prelude.{◌≡◌};

    ghost from_gives = { λ _ e. e ≡ Memory };

    fn from(_: AllocError) -> ParseStop {
        ParseStop::Memory
    }
}

impl<T: Drop> From<AllocFailed<T>> for ParseStop {
    ghost use Rattle.poly_reader.specs.declared.bad.ParseStop.TheVariants.{Memory};
    ghost use Rattle.std.specs.Prelude.{◌≡◌};

    ghost from_gives = { λ _ e. e ≡ Memory };

    fn from(_: AllocFailed<T>) -> ParseStop {
        ParseStop::Memory
    }
}
