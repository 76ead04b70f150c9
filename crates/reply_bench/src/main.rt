//! A reply that is read, for bench/replies to time.
#![tactic(auto)]

mod task;

use job_text::{Reply, ReplyReader, read_key};
use plain_text::{split_line, strip_front};
use poly_io::{Bytes, StdinSource, read_whole};
use poly_model::Key;
use std::io;
use std::process::ExitCode;
use task::{Task, task_of};

/// The most bytes that a reply may have.
const LIMIT: usize = 1 << 32;

fn main(rt: HostRuntime) -> ExitCode {
    run(&rt).unwrap_or(ExitCode::FAILURE)
}

// Does what the words of the call ask for, and tells of it. Where they ask for nothing the exit status is 2.
fn run(rt: &HostRuntime) -> io::Result<ExitCode> {
    let words = std::env::args(rt)?.collect::<Vec<String>>(rt.alloc())?;
    let Some(task) = task_of(&words) else {
        eprintln!(rt; "usage: reply_bench take | read NUMBERS")?;
        return Ok(ExitCode::from(2));
    };
    let mut input = StdinSource::new(rt.stdin());
    match read_whole(rt.alloc(), &mut input, LIMIT) {
        Ok(text) => tell(rt, task, &text)?,
        Err(stop) => println!(rt; "{stop:?}")?,
    }
    Ok(ExitCode::SUCCESS)
}

// Tells how many bytes the text has, or how many rows and keys the reply that it is.
fn tell(rt: &HostRuntime, task: Task, text: &Bytes) -> io::Result<()> {
    let n = match task {
        Task::Take => {
            let bytes = text.len();
            return println!(rt; "{bytes} bytes");
        }
        Task::Read(n) => n,
    };
    let Some(key) = key_of(text.as_slice()) else {
        return println!(rt; "no key");
    };
    match ReplyReader::read(rt.alloc(), &key, n, text.as_slice()) {
        Ok(reply) => {
            let Reply { rows, keys, .. } = reply;
            let (rows, keys) = (rows.len(), keys.len());
            println!(rt; "{rows} rows {keys} keys")
        }
        Err(stop) => println!(rt; "{stop:?}"),
    }
}

// The key that the first line names.
fn key_of(text: &[u8]) -> Option<Key> {
    let (line, _) = split_line(text)?;
    read_key(strip_front(line, b"reply ")?)
}
