//! What the words of a call ask for.
ghost use Rattle.std.specs.Borrow.{Bor};
ghost use Rattle.std.specs.Prelude.{◌≡◌, ◌↔◌, ◌≤◌, [], map, codes, ℕ, IfOk, OnOk, IsErrOf, IfSome, IsNone, Some};
ghost use Rattle.clap.specs.Words.{Text, fault_of, first_of, found_of, kind_of, rows_of};
ghost use Rattle.clap.specs.Words.{subcommand_of, subcommand_rows_of};
ghost use Rattle.example_polys.specs.declared.kind.ExampleKind.{ExampleKind as Family};
ghost use Rattle.command_line.specs.declared.lines.WorkOptions.{WorkOptions as Numbers};
ghost use Rattle.command_line.specs.Lines.{IsAccepted, AskFor, Says, SaysOptions, lrs_app, name_of};
ghost use Rattle.command_line.specs.Lines.{number_found, number_within, word_of};

use crate::commands::lrs_command;
use clap::error::ErrorKind;
use clap::{ArgMatches, Error};
use example_polys::ExampleKind;
use std::alloc::Global;

/// How a run is parted among workers, and how much may go wrong.
#[derive(Clone, Copy, PartialEq, Eq, Debug)]
pub struct WorkOptions {
    /// So many jobs run at once at most, each an attempt that is out: from 1 to 256.
    pub workers: u64,
    /// The base budget of each job, which is how many bases it visits at most: from 1 to 1,000,000,000,000.
    pub bases: u64,
    /// The depth budget of a job, which is how deep it goes, while the queue is short: from 1 to 1,000,000.
    pub depth: u64,
    /// The queue is short while fewer jobs wait than this for each worker: from 1 to 1000.
    pub lmin: u64,
    /// So many losses and stray replies are borne: from 0 to 1,000,000.
    pub lost: u64,
}

/// What the words ask for. The name of a ledger may be any text.
#[derive(Clone, Copy, PartialEq, Eq, Debug)]
pub enum Line<'a> {
    /// A file from the input, its listing to the output.
    Convert,
    /// A job text from the input, its reply to the output.
    Job,
    /// The example of a family at `n`, from 1 to 20, and what its listing comes to.
    Demo {
        kind: ExampleKind,
        n: u32,
    },
    /// A file from the input, its listing through workers to the output, recorded in a new ledger.
    Run {
        ledger: &'a str,
        options: WorkOptions,
    },
    /// The run that a ledger has recorded is taken up again.
    Resume {
        ledger: &'a str,
        options: WorkOptions,
    },
    /// What a ledger has recorded.
    Status {
        ledger: &'a str,
    },
}

/// Why the words were not taken.
#[derive(Clone, Copy, PartialEq, Eq, Debug)]
pub enum LineStop {
    /// They are no line of this program.
    Usage,
    /// There was no memory to read them.
    Memory,
}

/// What the words ask for; they are those after the program's name. They are accepted exactly where clap's definition of
/// the commands takes them and they say a line, so words that ask for help or a version are not. Words that are not
/// accepted give `Usage`, and any words `Memory`, where there was none for clap's tables. What was taken is given back,
/// and the name of a ledger is one of the words. Prints nothing.
pub fn read_line<'a>(alloc: Global, words: &'a [&'a str]) -> Result<Line<'a>, LineStop>
    ensures line { IfOk result (AskFor (map (λ w. w.now) words.entry.now)) }
    ensures usage { IsErrOf result LineStop.Usage → ¬ (IsAccepted (map (λ w. w.now) words.entry.now)) }
{
    let matches = matches_in(alloc, words)?;
    let Some((name, given)) = matches.subcommand() else {
        return Err(LineStop::Usage);
    };
    match line_named(name, given) {
        Some(line) => Ok(line),
        None => Err(LineStop::Usage),
    }
}

// What clap makes of the words.
fn matches_in<'a>(alloc: Global, words: &'a [&'a str]) -> Result<ArgMatches<'a>, LineStop>
    ensures faultless { OnOk result (fault_of lrs_app (map (λ w. w.now) words.entry.now) ≡ []) }
    ensures rows { IfOk result (λ m. subcommand_rows_of m ≡ subcommand_of lrs_app (map (λ w. w.now) words.entry.now)) }
    ensures usage { IsErrOf result LineStop.Usage → ¬ (fault_of lrs_app (map (λ w. w.now) words.entry.now) ≡ []) }
{
    let Ok(command) = lrs_command(alloc) else {
        return Err(LineStop::Memory);
    };
    match command.try_get_matches_from(words) {
        Ok(matches) => Ok(matches),
        Err(error) => Err(stop_of(&error)),
    }
}

// Clap's error as this program's answer. Its text is dropped.
fn stop_of(error: &Error) -> LineStop
    ensures { (result ≡ LineStop.Memory) ↔ (kind_of error.now ≡ ErrorKind.OutOfMemory) }
{
    match error.kind() {
        ErrorKind::OutOfMemory => LineStop::Memory,
        _ => LineStop::Usage,
    }
}

// The line of the command with this name, of what was found for its words.
fn line_named<'a>(name: &str, given: &ArgMatches<'a>) -> Option<Line<'a>>
    ensures some { IfSome result (λ line. (name.now ≡ name_of line) × Says (rows_of (found_of given.now)) line) }
    ensures none { IsNone result → (line : Line) → name.now ≡ name_of line →
        ¬ (Says (rows_of (found_of given.now)) line) }
{
    if name == "convert" {
        Some(Line::Convert)
    } else if name == "job" {
        Some(Line::Job)
    } else if name == "demo" {
        demo_line(given)
    } else if name == "run" {
        run_line(given)
    } else if name == "resume" {
        resume_line(given)
    } else if name == "status" {
        status_line(given)
    } else {
        None
    }
}

// The line of `demo`, of what was found for its words.
fn demo_line<'a>(given: &ArgMatches<'a>) -> Option<Line<'a>>
    ensures some { IfSome result (λ line. (name_of line ≡ codes "demo") × Says (rows_of (found_of given.now)) line) }
    ensures none { IsNone result → (kind : Family) (n : ℕ) → ¬ (Says (rows_of (found_of given.now)) (Line.Demo kind n)) }
{
    match (kind_given(given), size_given(given)) {
        (Some(kind), Some(n)) => Some(Line::Demo { kind, n }),
        _ => None,
    }
}

// The line of `run`.
fn run_line<'a>(given: &ArgMatches<'a>) -> Option<Line<'a>>
    ensures some { IfSome result (λ line. (name_of line ≡ codes "run") × Says (rows_of (found_of given.now)) line) }
    ensures none { IsNone result → (ledger : Bor Text) (options : Numbers) →
        ¬ (Says (rows_of (found_of given.now)) (Line.Run ledger options)) }
{
    let ledger = ledger_given(given)?;
    let options = options_given(given)?;
    Some(Line::Run { ledger, options })
}

// The line of `resume`.
fn resume_line<'a>(given: &ArgMatches<'a>) -> Option<Line<'a>>
    ensures some { IfSome result (λ line. (name_of line ≡ codes "resume") × Says (rows_of (found_of given.now)) line) }
    ensures none { IsNone result → (ledger : Bor Text) (options : Numbers) →
        ¬ (Says (rows_of (found_of given.now)) (Line.Resume ledger options)) }
{
    let ledger = ledger_given(given)?;
    let options = options_given(given)?;
    Some(Line::Resume { ledger, options })
}

// The line of `status`.
fn status_line<'a>(given: &ArgMatches<'a>) -> Option<Line<'a>>
    ensures some { IfSome result (λ line. (name_of line ≡ codes "status") × Says (rows_of (found_of given.now)) line) }
    ensures none { IsNone result → (ledger : Bor Text) → ¬ (Says (rows_of (found_of given.now)) (Line.Status ledger)) }
{
    match ledger_given(given) {
        Some(ledger) => Some(Line::Status { ledger }),
        None => None,
    }
}

// The word that was found for LEDGER: one of the call, which outlives what clap found.
fn ledger_given<'a>(given: &ArgMatches<'a>) -> Option<&'a str>
    ensures some { IfSome result (λ ledger. first_of (codes "LEDGER") (rows_of (found_of given.now)) ≡ Some ledger.now) }
    ensures none { IsNone result → (name : Text) →
        ¬ (first_of (codes "LEDGER") (rows_of (found_of given.now)) ≡ Some name) }
{
    given.get_str("LEDGER")
}

// The numbers that were found for the options.
fn options_given(given: &ArgMatches) -> Option<WorkOptions>
    ensures some { IfSome result (SaysOptions (rows_of (found_of given.now))) }
    ensures none { IsNone result → (options : Numbers) → ¬ (SaysOptions (rows_of (found_of given.now)) options) }
{
    Some(WorkOptions {
        workers: number_given(given, "workers", 1, 256)?,
        bases: number_given(given, "bases", 1, 1_000_000_000_000)?,
        depth: number_given(given, "depth", 1, 1_000_000)?,
        lmin: number_given(given, "lmin", 1, 1000)?,
        lost: number_given(given, "lost", 0, 1_000_000)?,
    })
}

// The family of the word that was found for KIND.
fn kind_given(given: &ArgMatches) -> Option<ExampleKind>
    ensures some { IfSome result (λ kind. first_of (codes "KIND") (rows_of (found_of given.now)) ≡ Some (word_of kind)) }
    ensures none { IsNone result → (kind : Family) →
        ¬ (first_of (codes "KIND") (rows_of (found_of given.now)) ≡ Some (word_of kind)) }
{
    match given.get_str("KIND") {
        Some(word) => kind_named(word),
        None => None,
    }
}

// The number that the word says that was found for N.
fn size_given(given: &ArgMatches) -> Option<u32>
    ensures { result ≡ number_found (codes "N") 1 20 (rows_of (found_of given.now)) }
{
    match number_given(given, "N", 1, 20) {
        Some(n) => Some(n as u32),
        None => None,
    }
}

// The number within these bounds that the word says that was found for this name.
fn number_given(given: &ArgMatches, name: &str, least: u64, most: u64) -> Option<u64>
    ensures number { result ≡ number_found name.now least most (rows_of (found_of given.now)) }
    ensures within { IfSome result (λ n. (least ≤ n) × (n ≤ most)) }
{
    match given.get_str(name) {
        Some(word) => number_said(word, least, most),
        None => None,
    }
}

// The family of this word.
fn kind_named(word: &str) -> Option<ExampleKind>
    ensures some { IfSome result (λ kind. word.now ≡ word_of kind) }
    ensures none { IsNone result → (kind : Family) → ¬ (word.now ≡ word_of kind) }
{
    if word == "cube" {
        Some(ExampleKind::Cube)
    } else if word == "cross" {
        Some(ExampleKind::Cross)
    } else if word == "product" {
        Some(ExampleKind::Product)
    } else if word == "pyramid" {
        Some(ExampleKind::Pyramid)
    } else {
        None
    }
}

// The number within these bounds that the word says.
fn number_said(word: &str, least: u64, most: u64) -> Option<u64>
    ensures number { result ≡ number_within least most word.now }
    ensures within { IfSome result (λ n. (least ≤ n) × (n ≤ most)) }
{
    match word.parse::<u64>() {
        Ok(n) => if_within(n, least, most),
        Err(_) => None,
    }
}

// The number, where it is within these bounds.
fn if_within(n: u64, least: u64, most: u64) -> Option<u64>
    ensures some { IfSome result (λ m. (m ≡ n) × (least ≤ n) × (n ≤ most)) }
    ensures none { IsNone result → least ≤ n → n ≤ most → ⊥ }
{
    if least <= n && n <= most {
        Some(n)
    } else {
        None
    }
}
