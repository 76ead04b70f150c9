//! The coordinator's machine over histories that are read, and a run of many keys: for bench/machine to compare and
//! bench/state to time.
#![tactic(auto)]

mod asks;
mod begin;
mod feed;
mod history;
mod keys;
mod stop;
mod task;
mod told;

use feed::Feed;
use history::play;
use keys::{read_replies, take_replies};
use poly_io::{MemSink, StdinSource, StdoutSink, read_whole, write_all};
use std::io;
use std::process::ExitCode;
use stop::Stop;
use task::{Task, task_of};

/// The most bytes that a batch of histories may have.
const LIMIT: usize = 1 << 30;

fn main(rt: HostRuntime) -> ExitCode {
    run(&rt).unwrap_or(ExitCode::FAILURE)
}

// Does what the words of the call ask for, and tells of it. Where they ask for nothing the exit status is 2.
fn run(rt: &HostRuntime) -> io::Result<ExitCode> {
    let words = std::env::args(rt)?.collect::<Vec<String>>(rt.alloc())?;
    let Some(task) = task_of(&words) else {
        eprintln!(rt; "usage: machine_bench histories | keys KEYS | replies KEYS")?;
        return Ok(ExitCode::from(2));
    };
    let done = match task {
        Task::Histories => play_all(rt),
        Task::Keys(keys) => take_replies(rt.alloc(), keys),
        Task::Replies(keys) => read_replies(rt.alloc(), keys),
    };
    match done {
        Ok(count) => println!(rt; "{count}")?,
        Err(stop) => println!(rt; "{stop:?}")?,
    }
    Ok(ExitCode::SUCCESS)
}

// Plays the histories of standard input, and tells what the machine does, as far as they can be played; counts them.
fn play_all(rt: &HostRuntime) -> Result<u64, Stop> {
    let alloc = rt.alloc();
    let mut input = StdinSource::new(rt.stdin());
    let text = read_whole(alloc, &mut input, LIMIT)?;
    let mut told = MemSink::new(alloc, &[]);
    let mut feed = Feed::new(text.as_slice());
    let done = play(alloc, &mut feed, &mut told);
    let mut out = StdoutSink::new(rt.stdout());
    write_all(&mut out, told.written())?;
    done
}
