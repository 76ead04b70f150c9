//! A ledger in a real file, for bench/ledger to time.
#![tactic(auto)]

mod task;

use disk_core::{Disk, FileDisk};
use job_ledger::{Ledger, LedgerStop};
use std::process::ExitCode;
use std::{fs, io};
use task::{Task, task_of};

/// The most bytes that a ledger may have.
const LIMIT: u64 = 1 << 40;

fn main(rt: HostRuntime) -> ExitCode {
    run(&rt).unwrap_or(ExitCode::FAILURE)
}

// Does what the words of the call ask for, and tells of it. Where they ask for nothing the exit status is 2.
fn run(rt: &HostRuntime) -> io::Result<ExitCode> {
    let words = std::env::args(rt)?.collect::<Vec<String>>(rt.alloc())?;
    let Some((name, task)) = task_of(&words) else {
        eprintln!(rt;
            "usage: ledger_bench FILE append RECORDS SIZE | count | payload NUMBER | remove"
        )?;
        return Ok(ExitCode::from(2));
    };
    match done(rt, name, task) {
        Ok(number) => println!(rt; "{number}")?,
        Err(stop) => println!(rt; "{stop:?}")?,
    }
    Ok(ExitCode::SUCCESS)
}

// What a task finds: how many records a ledger has, or how long a payload is.
fn done(rt: &HostRuntime, name: &str, task: Task) -> Result<u64, LedgerStop> {
    match task {
        Task::Append { records, size } => append(rt, name, records, size),
        Task::Count => count(rt, name),
        Task::Payload(number) => payload(rt, name, number),
        Task::Remove => remove(rt, name),
    }
}

// Makes a ledger of so many records of so many bytes.
fn append(rt: &HostRuntime, name: &str, records: u64, size: usize) -> Result<u64, LedgerStop> {
    let alloc = rt.alloc();
    let mut payload = Vec::new(alloc);
    payload.resize(size, b'x')?;
    let mut disk = FileDisk::writer(rt);
    disk.attach(name)?;
    let mut ledger = Ledger::create(alloc, &mut disk, LIMIT, &payload)?;
    for _ in 1..records {
        ledger.append(&mut disk, &payload)?;
    }
    Ok(ledger.count())
}

fn count(rt: &HostRuntime, name: &str) -> Result<u64, LedgerStop> {
    let mut disk = FileDisk::reader(rt);
    disk.attach(name)?;
    Ok(Ledger::reopen(rt.alloc(), &mut disk, LIMIT)?.count())
}

fn payload(rt: &HostRuntime, name: &str, number: u64) -> Result<u64, LedgerStop> {
    let mut disk = FileDisk::reader(rt);
    disk.attach(name)?;
    let ledger = Ledger::reopen(rt.alloc(), &mut disk, LIMIT)?;
    if number >= ledger.count() {
        return Err(LedgerStop::NoRun);
    }
    Ok(ledger.payload(&mut disk, number)?.len() as u64)
}

fn remove(rt: &HostRuntime, name: &str) -> Result<u64, LedgerStop> {
    match fs::remove_file(rt, name) {
        Ok(()) => Ok(0),
        Err(_) => Err(LedgerStop::DiskFault),
    }
}
