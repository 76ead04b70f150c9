//! All that the program does, over any source, sink, disk and workers.
ghost use Rattle.std.specs.Prelude.{◌≡◌, ◌+◌, map};
ghost use Rattle.command_line.specs.Laws.{AreInRange, IsInRange};
ghost use Rattle.coordinator.specs.Calls.{AreTerms};
ghost use Rattle.job_text.specs.Limits.{most_job_bytes};
ghost use Rattle.poly_io.specs.Taken.{TakesAtMost};
ghost use Rattle.lrs_cli.specs.Ledgers.{resources};
ghost use Rattle.lrs_cli.specs.Lrs.{Answers, AnswersLine, most_ledger_bytes, options_of};
ghost use Rattle.lrs_cli.specs.Streams.{streams_at};

use crate::demo::demo;
use crate::devices::{Devices, LedgerCall, MOST_LEDGER_BYTES};
use crate::job::job_through;
use crate::progress::progress;
use crate::resume::resume_through;
use crate::run::run_through;
use crate::status::Status;
use crate::through::convert_through;
use command_line::{Line, LineStop, WorkOptions, read_line};
use coordinator::Terms;
use coordinator_core::Options;
use disk_core::Disk;
use poly_io::{Sink, Source};
use std::alloc::Global;
use workers_io::Workers;

/// Does what the words ask; they are those after the program's name. Answers, and gives the output back. What is
/// promised of the answer is read in specs/Lrs: `Answers`, with `AnswersConvert` (specs/Convert) for the line `convert`,
/// `AnswersRun` (specs/Run) for `run`, `AnswersResume` (specs/Resume) for `resume`, `AnswersStatus` (specs/Progress) for
/// `status`, `AnswersJob` (specs/Job) for `job` and `AnswersDemo` (specs/Demo) for `demo`.
pub fn lrs<I: Source, O: Sink, D: Disk, W: Workers>(
    alloc: Global,
    words: &[&str],
    devices: &mut Devices<I, D, W>,
    out: O,
) -> (Status, O)
    ensures { Answers D.Disk W.Workers
        (resources devices.old.disk devices.old.workers) (resources devices.new.disk devices.new.workers)
        (streams_at I.Source O.Sink devices.old.input out) (streams_at I.Source O.Sink devices.new.input result.1)
        (devices.new.input ≡ devices.old.input) (result.1 ≡ out) (map (λ w. w.now) words.now) result.0 }
{
    match read_line(alloc, words) {
        Ok(line) => answer_line(alloc, line, devices, out),
        Err(LineStop::Usage) => (Status::Usage, out),
        Err(LineStop::Memory) => (Status::OutOfMemory, out),
    }
}

// Does what the line asks.
fn answer_line<I: Source, O: Sink, D: Disk, W: Workers>(
    alloc: Global,
    line: Line,
    devices: &mut Devices<I, D, W>,
    out: O,
) -> (Status, O)
    requires range { IsInRange line }
    ensures line { result.0 ≡ Status.Usage → ⊥ }
    ensures taken { TakesAtMost (I.left devices.old.input) (I.left devices.new.input) (most_job_bytes + 1) }
    ensures answers { AnswersLine D.Disk W.Workers
        (resources devices.old.disk devices.old.workers) (resources devices.new.disk devices.new.workers)
        (streams_at I.Source O.Sink devices.old.input out) (streams_at I.Source O.Sink devices.new.input result.1)
        (devices.new.input ≡ devices.old.input) (result.1 ≡ out) line.entry result.0 }
{
    match line {
        Line::Convert => convert_through(alloc, &mut devices.input, out),
        Line::Job => job_through(alloc, &mut devices.input, out),
        Line::Demo { kind, n } => demo(alloc, kind, n, out),
        Line::Run { ledger, options } => run_through(
            &call_of(alloc, ledger, options),
            devices,
            out,
        ),
        Line::Resume { ledger, options } => {
            let call = call_of(alloc, ledger, options);
            resume_through(&call, &mut devices.disk, &mut devices.workers, out)
        }
        Line::Status { ledger } => progress(alloc, ledger, &mut devices.disk, out),
    }
}

// The call of a command with options.
fn call_of(alloc: Global, ledger: &str, options: WorkOptions) -> LedgerCall<'_>
    requires { AreInRange options }
    ensures terms { AreTerms result.terms }
    ensures options { result.terms.options ≡ options_of options }
    ensures limit { result.terms.limit ≡ most_ledger_bytes }
{
    LedgerCall {
        ledger,
        terms: Terms {
            alloc,
            options: Options {
                workers: options.workers,
                bases: options.bases,
                depth: options.depth,
                lmin: options.lmin,
                lost: options.lost,
            },
            limit: MOST_LEDGER_BYTES,
        },
    }
}
