//! How a call of the program ends: its number and its line.
ghost use Rattle.std.specs.Prelude.{◌≡◌, ◌∷◌, ◌++◌, codes, decimal};
ghost use Rattle.poly_io.specs.Written.{Prints};
ghost use Rattle.lrs_cli.specs.StatusLine.{status_text, status_number, kind_text};

use crate::counts::{CountBehind, write_counts};
use job_text::write_count_line;
use poly_io::{Sink, WriteFault, write_all};
use poly_model::Overflow;
use poly_reader::{BadFile, BadKind};
use row_printer::write_overflow;

/// How a call of the program ended.
#[derive(Clone, Copy, PartialEq, Eq, Debug)]
pub enum Status {
    /// What was asked for was written whole: so many shown rows, and so many lines or equations before them. Of a reply the
    /// rows are its own, of the status of a ledger those that are recorded; then the lines are none.
    Done { rows: u64, lines: u32 },
    /// The words are no command of this program.
    Usage,
    /// The input describes no polyhedron: what is wrong first, and on which line.
    BadFile(BadFile),
    /// The input is no job that can be run: which of its lines is the first that is wrong, 7 for the file behind them.
    BadJob { place: u64 },
    /// No point satisfies the rows of the input, or of a ledger.
    Infeasible,
    /// A product that the listing needs does not fit 127 bits and a sign.
    Overflow(Overflow),
    /// The input could not be read.
    ReadFault,
    /// The output could not be written.
    WriteFault,
    /// The ledger could not be read or written, or another process holds it.
    DiskFault,
    /// So many losses and strays came: more together than the call allows.
    Lost { lost: u64, strays: u64 },
    /// The ledger has no run: its file is empty, or its first gate is closed.
    NoRun,
    /// The ledger has a run already.
    HasRun,
    /// The records of the ledger are none of a run: the first of them that is wrong, from 1.
    BadLedger { place: u64 },
    /// With its next record the ledger would have `need` bytes (2^64 - 1 where that is less), and may have `limit`.
    LedgerLimit { need: u64, limit: u64 },
    /// This process has no memory left.
    OutOfMemory,
}

impl Status {
    /// The exit status of the process.
    pub fn number(&self) -> u8
        ensures { result ≡ status_number self.now }
    {
        match self {
            Status::Done { .. } => 0,
            Status::Usage => 2,
            Status::BadFile(_) => 3,
            Status::Infeasible => 4,
            Status::Overflow(_) => 5,
            Status::ReadFault => 6,
            Status::WriteFault => 7,
            Status::DiskFault => 8,
            Status::Lost { .. } => 9,
            Status::NoRun => 10,
            Status::HasRun => 11,
            Status::BadLedger { .. } => 12,
            Status::BadJob { .. } => 13,
            Status::LedgerLimit { .. } => 14,
            Status::OutOfMemory => 15,
        }
    }
}

/// Writes the line of a status, with its line feed.
#[tactic(auto, unfolding(crate::specs::StatusLine::status_text))]
pub fn status_line<S: Sink>(status: &Status, out: &mut S) -> Result<(), WriteFault>
    ensures { Prints S.Sink out.old out.new result (status_text status.now) }
{
    match status {
        Status::Done { rows, lines } => done_line(*rows, *lines, out),
        Status::Usage => write_all(
            out,
            b"lrs: usage: lrs convert / run LEDGER / resume LEDGER / status LEDGER / job / demo KIND N\n",
        ),
        Status::BadFile(bad) => bad_file_line(*bad, out),
        Status::BadJob { place } => write_count_line(b"lrs: bad job: line ", *place, out),
        Status::Infeasible => write_all(out, b"lrs: infeasible\n"),
        Status::Overflow(overflow) => overflow_line(overflow, out),
        Status::ReadFault => write_all(out, b"lrs: read fault\n"),
        Status::WriteFault => write_all(out, b"lrs: write fault\n"),
        Status::DiskFault => write_all(out, b"lrs: disk fault\n"),
        Status::Lost { lost, strays } => lost_line(*lost, *strays, out),
        Status::NoRun => write_all(out, b"lrs: no run in ledger\n"),
        Status::HasRun => write_all(out, b"lrs: ledger has a run\n"),
        Status::BadLedger { place } => write_count_line(b"lrs: bad ledger: record ", *place, out),
        Status::LedgerLimit { need, limit } => ledger_limit_line(*need, *limit, out),
        Status::OutOfMemory => write_all(out, b"lrs: out of memory\n"),
    }
}

#[tactic(auto, unfolding(crate::specs::StatusLine::status_text))]
fn done_line<S: Sink>(rows: u64, lines: u32, out: &mut S) -> Result<(), WriteFault>
    ensures { Prints S.Sink out.old out.new result (status_text (Status.Done rows lines)) }
{
    write_counts(
        &[
            CountBehind(b"lrs: done ", rows),
            CountBehind(b" rows ", lines as u64),
        ],
        b" lines\n",
        out,
    )
}

fn bad_file_line<S: Sink>(bad: BadFile, out: &mut S) -> Result<(), WriteFault>
    ensures { Prints S.Sink out.old out.new result (status_text (Status.BadFile bad)) }
{
    write_all(out, b"lrs: bad file: ")?;
    write_kind(bad.kind, out)?;
    write_count_line(b" at line ", bad.line, out)
}

#[tactic(auto, unfolding(crate::specs::StatusLine::status_text))]
fn lost_line<S: Sink>(lost: u64, strays: u64, out: &mut S) -> Result<(), WriteFault>
    ensures { Prints S.Sink out.old out.new result (status_text (Status.Lost lost strays)) }
{
    write_counts(
        &[
            CountBehind(b"lrs: lost ", lost),
            CountBehind(b" strays ", strays),
        ],
        b"\n",
        out,
    )
}

#[tactic(auto, unfolding(crate::specs::StatusLine::status_text))]
fn ledger_limit_line<S: Sink>(need: u64, limit: u64, out: &mut S) -> Result<(), WriteFault>
    ensures { Prints S.Sink out.old out.new result (status_text (Status.LedgerLimit need limit)) }
{
    write_counts(
        &[
            CountBehind(b"lrs: ledger limit: need ", need),
            CountBehind(b" limit ", limit),
        ],
        b"\n",
        out,
    )
}

fn write_kind<S: Sink>(kind: BadKind, out: &mut S) -> Result<(), WriteFault>
    ensures { Prints S.Sink out.old out.new result (kind_text kind) }
{
    match kind {
        BadKind::TooLong => write_all(out, b"TooLong"),
        BadKind::BadLinearity => write_all(out, b"BadLinearity"),
        BadKind::NoBegin => write_all(out, b"NoBegin"),
        BadKind::BadHeader => write_all(out, b"BadHeader"),
        BadKind::TooManyRows => write_all(out, b"TooManyRows"),
        BadKind::BadWidth => write_all(out, b"BadWidth"),
        BadKind::UnsupportedType => write_all(out, b"UnsupportedType"),
        BadKind::ShortData => write_all(out, b"ShortData"),
        BadKind::LongData => write_all(out, b"LongData"),
        BadKind::BadNumber => write_all(out, b"BadNumber"),
        BadKind::ZeroDenominator => write_all(out, b"ZeroDenominator"),
        BadKind::WideNumber => write_all(out, b"WideNumber"),
        BadKind::NoEnd => write_all(out, b"NoEnd"),
        BadKind::MisplacedLinearity => write_all(out, b"MisplacedLinearity"),
        BadKind::MisplacedNonnegative => write_all(out, b"MisplacedNonnegative"),
        BadKind::NoRows => write_all(out, b"NoRows"),
        BadKind::BadFirst => write_all(out, b"BadFirst"),
        BadKind::LinearPoint => write_all(out, b"LinearPoint"),
        BadKind::WideRow => write_all(out, b"WideRow"),
    }
}

fn overflow_line<S: Sink>(overflow: &Overflow, out: &mut S) -> Result<(), WriteFault>
    ensures { Prints S.Sink out.old out.new result (status_text (Status.Overflow overflow.now)) }
{
    write_all(out, b"lrs: overflow ")?;
    write_overflow(overflow, out)?;
    write_all(out, b"\n")
}
