//! The commands of `lrs`, as clap's builder makes them.
ghost use Rattle.std.specs.Prelude.{◌≡◌, IfOk, false};
ghost use Rattle.clap.specs.Words.{app_of, rule_of, with_rule, with_subcommand};
ghost use Rattle.clap.specs.declared.builder.command.Command.TheViews.{out-Command};
ghost use Rattle.command_line.specs.Lines.{base_app, demo_app, ledger_app, lrs_app, plain_app, work_app};
ghost use Rattle.command_line.specs.Lines.{kind_rule, ledger_rule, number_rule, option_rule};

use clap::builder::ValueParser;
use clap::{Arg, Command};
use std::alloc::{AllocError, Global};

/// The program with each of its commands. One more command is one more call here, and one in `lrs_app`.
pub(crate) fn lrs_command<'a>(alloc: Global) -> Result<Command<'a>, AllocError>
    ensures { IfOk result (λ c. app_of c ≡ lrs_app) }
{
    let converts = with_command(base_command(alloc), plain_command(alloc, "convert"))?;
    let jobs = with_command(converts, plain_command(alloc, "job"))?;
    let demos = with_command(jobs, demo_command(alloc)?)?;
    let runs = with_command(demos, work_command(alloc, "run")?)?;
    let resumes = with_command(runs, work_command(alloc, "resume")?)?;
    with_command(resumes, ledger_command(alloc, "status")?)
}

// The program without a command. It has no flag of its own, and nothing asks it for help or a version.
fn base_command<'a>(alloc: Global) -> Command<'a>
    ensures app { app_of result ≡ base_app }
    ensures local { (out-Command result).has_globals ≡ false }
{
    Command::new(alloc, "lrs")
        .no_binary_name(true)
        .disable_help_flag(true)
        .disable_help_subcommand(true)
        .disable_version_flag(true)
        .subcommand_required(true)
}

// A command without words of its own.
fn plain_command<'a>(alloc: Global, name: &'a str) -> Command<'a>
    ensures app { app_of result ≡ plain_app name.entry.now }
    ensures local { (out-Command result).has_globals ≡ false }
{
    Command::new(alloc, name)
}

// `demo`, with a word for a family of examples, and a number.
fn demo_command<'a>(alloc: Global) -> Result<Command<'a>, AllocError>
    ensures app { IfOk result (λ c. app_of c ≡ demo_app) }
    ensures local { IfOk result (λ c. (out-Command c).has_globals ≡ false) }
{
    let command = with_word(Command::new(alloc, "demo"), kind_word(alloc))?;
    with_word(command, number_word(alloc))
}

// A command whose one word is the name of a ledger.
fn ledger_command<'a>(alloc: Global, name: &'a str) -> Result<Command<'a>, AllocError>
    ensures app { IfOk result (λ c. app_of c ≡ ledger_app name.entry.now) }
    ensures local { IfOk result (λ c. (out-Command c).has_globals ≡ false) }
{
    with_word(Command::new(alloc, name), ledger_word(alloc))
}

// Such a command with the options of a run.
fn work_command<'a>(alloc: Global, name: &'a str) -> Result<Command<'a>, AllocError>
    ensures app { IfOk result (λ c. app_of c ≡ work_app name.entry.now) }
    ensures local { IfOk result (λ c. (out-Command c).has_globals ≡ false) }
{
    let ledger = ledger_command(alloc, name)?;
    let workers = with_word(ledger, option_word(alloc, "workers", "4", 1, 256))?;
    let bases = with_word(
        workers,
        option_word(alloc, "bases", "10000", 1, 1_000_000_000_000),
    )?;
    let depth = with_word(bases, option_word(alloc, "depth", "2", 1, 1_000_000))?;
    let lmin = with_word(depth, option_word(alloc, "lmin", "3", 1, 1000))?;
    with_word(lmin, option_word(alloc, "lost", "100", 0, 1_000_000))
}

// The word for a family of examples. Clap takes any; which there are is asked of what it found.
fn kind_word<'a>(alloc: Global) -> Arg<'a>
    ensures rule { rule_of result ≡ kind_rule }
    ensures local { result.global ≡ false }
{
    Arg::new(alloc, "KIND").required(true)
}

// The number of an example in its family.
fn number_word<'a>(alloc: Global) -> Arg<'a>
    ensures rule { rule_of result ≡ number_rule }
    ensures local { result.global ≡ false }
{
    Arg::new(alloc, "N")
        .required(true)
        .value_parser(ValueParser::unsigned(1, 20))
}

// The name of a ledger, which is any word.
fn ledger_word<'a>(alloc: Global) -> Arg<'a>
    ensures rule { rule_of result ≡ ledger_rule }
    ensures local { result.global ≡ false }
{
    Arg::new(alloc, "LEDGER").required(true)
}

// An option with a number within these bounds, and its default.
fn option_word<'a>(alloc: Global, name: &'a str, default: &'a str, least: u64, most: u64) -> Arg<'a>
    ensures rule { rule_of result ≡ option_rule name.entry.now default.entry.now least most }
    ensures local { result.global ≡ false }
{
    Arg::new(alloc, name)
        .long(name)
        .default_value(default)
        .value_parser(ValueParser::unsigned(least, most))
}

// One word of its own more.
fn with_word<'a>(command: Command<'a>, word: Arg<'a>) -> Result<Command<'a>, AllocError>
    requires command { (out-Command command).has_globals ≡ false }
    requires word { word.global ≡ false }
    ensures app { IfOk result (λ c. app_of c ≡ with_rule (app_of command.entry) (rule_of word.entry)) }
    ensures local { IfOk result (λ c. (out-Command c).has_globals ≡ false) }
{
    command.arg(word)
}

// One command more. A row of them is proved call by call, each over the app of the one before.
fn with_command<'a>(above: Command<'a>, below: Command<'a>) -> Result<Command<'a>, AllocError>
    requires above { (out-Command above).has_globals ≡ false }
    requires below { (out-Command below).has_globals ≡ false }
    ensures app { IfOk result (λ c. app_of c ≡ with_subcommand (app_of above.entry) (app_of below.entry).top) }
    ensures local { IfOk result (λ c. (out-Command c).has_globals ≡ false) }
{
    above.subcommand(below)
}
