//! What a process of the program does, over any arguments, devices and sinks.
ghost use Rattle.std.specs.Prelude.{◌≡◌, map, drop, string_bytes, IfOk};
ghost use Rattle.std.specs.Result.{result_map_both};
ghost use Rattle.lrs_cli.specs.Ledgers.{resources};
ghost use Rattle.lrs_cli.specs.Streams.{streams_at};
ghost use Rattle.lrs_cli.specs.Endings.{AnswersArguments, Ending, IsSaid};

use crate::devices::Devices;
use crate::status::{Status, status_line};
use crate::top::lrs;
use command_line::LineStop;
use disk_core::Disk;
use poly_io::{Sink, Source};
use poly_model::OutOfMemory;
use std::alloc::Global;
use workers_io::Workers;

/// Answers the arguments of a process, its program's name first, or the reason why they could not be read. Says on
/// `errors` how the call ended, and gives the exit status, which says the same: so it matters little where `errors`
/// takes nothing. Gives the output back.
pub fn respond<I: Source, O: Sink, E: Sink, D: Disk, W: Workers>(
    alloc: Global,
    arguments: Result<Vec<String>, LineStop>,
    devices: &mut Devices<I, D, W>,
    out: O,
    errors: &mut E,
) -> (u8, O)
    ensures { Ending D.Disk W.Workers
        (resources devices.old.disk devices.old.workers) (resources devices.new.disk devices.new.workers)
        (streams_at I.Source O.Sink devices.old.input out) (streams_at I.Source O.Sink devices.new.input result.1)
        (devices.new.input ≡ devices.old.input) (result.1 ≡ out)
        (IsSaid (E.written errors.old) (E.written errors.new) (E.faults errors.old) (E.faults errors.new))
        (result_map_both (λ v. map string_bytes (drop 1 v.items)) (λ e. e) arguments) result.0 }
{
    let (status, out) = answer(alloc, arguments, devices, out);
    let _ = status_line(&status, errors);
    (status.number(), out)
}

// The answer to the arguments.
fn answer<I: Source, O: Sink, D: Disk, W: Workers>(
    alloc: Global,
    arguments: Result<Vec<String>, LineStop>,
    devices: &mut Devices<I, D, W>,
    out: O,
) -> (Status, O)
    ensures { AnswersArguments D.Disk W.Workers
        (resources devices.old.disk devices.old.workers) (resources devices.new.disk devices.new.workers)
        (streams_at I.Source O.Sink devices.old.input out) (streams_at I.Source O.Sink devices.new.input result.1)
        (devices.new.input ≡ devices.old.input) (result.1 ≡ out)
        (result_map_both (λ v. map string_bytes (drop 1 v.items)) (λ e. e) arguments) result.0 }
{
    match arguments {
        Ok(given) => match words_of(alloc, &given) {
            Ok(words) => lrs(alloc, &words, devices, out),
            Err(_) => (Status::OutOfMemory, out),
        },
        Err(LineStop::Usage) => (Status::Usage, out),
        Err(LineStop::Memory) => (Status::OutOfMemory, out),
    }
}

// The words behind the program's name.
fn words_of<'a>(alloc: Global, given: &'a [String]) -> Result<Vec<&'a str>, OutOfMemory>
    ensures { IfOk result (λ v. map (λ w. w.now) v.items ≡ map string_bytes (drop 1 given.entry.now)) }
{
    let mut words = Vec::new(alloc);
    let behind = behind_name(given);
    'words: for word in behind {
        words.push(word.as_str())?;
    }
    Ok(words)
}

// The arguments behind the program's name.
fn behind_name(given: &[String]) -> &[String]
    ensures { result.now ≡ drop 1 given.now }
{
    match given {
        [_, others @ ..] => others,
        [] => given,
    }
}
