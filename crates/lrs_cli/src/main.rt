//! The program `lrs`: vertex and facet enumeration.
#![tactic(auto)]

mod chain;
mod convert;
mod counts;
mod demo;
mod devices;
mod job;
mod process;
mod progress;
mod resume;
mod run;
#[cfg(test)]
mod run_tests;
mod status;
#[cfg(test)]
mod tests;
mod through;
mod top;

use command_line::LineStop;
use devices::Devices;
use disk_core::FileDisk;
use poly_io::{StdinSource, StdoutSink};
use process::respond;
use std::alloc::{AllocError, Global};
use std::io::ErrorKind;
use std::path::PathBuf;
use std::process::ExitCode;
use workers_io::ChildWorkers;

/// This program, as its children start it: also where its file has a new name by then.
const SELF: &str = "/proc/self/exe";

/// The folder for files that live no longer than this process, where the environment names none.
const FOLDER: &str = "/tmp";

fn main(rt: HostRuntime) -> ExitCode {
    let (places, arguments) = match find_places(&rt) {
        Ok(places) => (places, arguments(&rt)),
        Err(_) => (Places::none(rt.alloc()), Err(LineStop::Memory)),
    };
    let disk = if only_reads(&arguments) {
        FileDisk::reader(&rt)
    } else {
        FileDisk::writer(&rt)
    };
    let mut devices = Devices {
        input: StdinSource::new(rt.stdin()),
        disk,
        workers: ChildWorkers::new(&rt, rt.alloc(), places.program, &["job"], places.folder),
    };
    let out = StdoutSink::new(rt.stdout());
    let mut errors = StdoutSink::new(rt.stderr());
    let (number, _) = respond(rt.alloc(), arguments, &mut devices, out, &mut errors);
    ExitCode::from(number)
}

/// Where the children of this process find their program, and where their replies are gathered.
#[derive(Drop)]
struct Places {
    program: PathBuf,
    folder: PathBuf,
}

impl Places {
    // No places, for a process that starts none.
    fn none(alloc: Global) -> Places {
        Places {
            program: PathBuf::new(alloc),
            folder: PathBuf::new(alloc),
        }
    }
}

// This program, and the folder that the environment names for such files.
fn find_places(rt: &HostRuntime) -> Result<Places, AllocError> {
    let folder = match std::env::temp_dir(rt) {
        Ok(folder) => folder,
        Err(_) => PathBuf::from_str(rt.alloc(), FOLDER)?,
    };
    Ok(Places {
        program: PathBuf::from_str(rt.alloc(), SELF)?,
        folder,
    })
}

// Whether the first word is `status`: of the commands on a ledger that one alone only reads it, so that it takes no lock.
fn only_reads(arguments: &Result<Vec<String>, LineStop>) -> bool {
    match arguments {
        Ok(given) => given.get(1).is_some_and(|word| word.as_str() == "status"),
        Err(_) => false,
    }
}

// The arguments of this process. One that is no text is no word of a command.
fn arguments(rt: &HostRuntime) -> Result<Vec<String>, LineStop> {
    let args = match std::env::args(rt) {
        Ok(args) => args,
        Err(error) if error.kind() == ErrorKind::OutOfMemory => return Err(LineStop::Memory),
        Err(_) => return Err(LineStop::Usage),
    };
    match args.collect::<Vec<String>>(rt.alloc()) {
        Ok(given) => Ok(given),
        Err(_) => Err(LineStop::Memory),
    }
}
