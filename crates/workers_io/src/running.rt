//! The trusted edge: child processes that were started, and which of them has ended.
ghost use Rattle.std.specs.Prelude.{◌≡◌, ◌<◌, IfOk, IfSome, length, map};
ghost use Rattle.workers_io.specs.Collects.{collected_attempt};

use crate::Collected;
use crate::launcher::Launcher;
use crate::reply_file::ReplyFile;
use poly_io::Bytes;
use std::alloc::Global;
use std::fs::File;
use std::io::{self, ErrorKind, Write};
use std::process::{Child, OpenProcess, Processes};
use std::rt::Files;
use std::thread;
use std::time::{Clock, Duration};

/// How long is waited before the children are asked again which of them has ended: at first, and at most, in microseconds.
const FIRST_PAUSE: u64 = 100;

const LONGEST_PAUSE: u64 = 10000;

/// A child that was started and waits for its text, and what it is to print.
#[derive(Drop)]
pub(crate) struct Waiting<P: OpenProcess + Drop> {
    pub child: Child<P>,
    pub reply: ReplyFile,
}

/// A child that was started, what it was started for, and what it has printed so far.
#[derive(Drop)]
pub(crate) struct Running<P: OpenProcess + Drop> {
    pub attempt: u64,
    pub child: Child<P>,
    pub reply: ReplyFile,
}

impl<P: OpenProcess + Drop> Waiting<P> {
    // Gives it the text of an attempt. Where it takes none it is ended.
    pub(crate) fn take_up(self, attempt: u64, text: &[u8]) -> io::Result<Running<P>>
        ensures { IfOk result (λ r. r.attempt ≡ attempt) }
    {
        let Waiting { mut child, reply } = self;
        match give(&mut child, text) {
            Ok(()) => Ok(Running {
                attempt,
                child,
                reply,
            }),
            Err(e) => {
                end(child);
                Err(e)
            }
        }
    }
}

// Writes a text to a child's standard input, and closes it.
fn give<P: OpenProcess>(child: &mut Child<P>, text: &[u8]) -> io::Result<()> {
    match child.stdin.take() {
        Some(mut pipe) => pipe.write_all(text),
        None => Err(io::Error::from(ErrorKind::BrokenPipe)),
    }
}

// Kills a child, and waits for its end.
fn end<P: OpenProcess + Drop>(mut child: Child<P>) {
    if child.kill().is_ok() {
        let _ = child.wait();
    }
}

/// What has come of a child that has ended.
#[derive(Drop)]
pub(crate) struct Finished {
    pub collected: Collected,
    /// Where it has printed, emptied; none where its reply could not be read.
    pub file: Option<ReplyFile>,
    /// Whether it ended by itself: a child that is killed does not say that it ends.
    pub spoke: bool,
}

// All that a child has printed, once it has ended, and whether it ended by itself.
fn reply_of<P: OpenProcess + Drop>(
    alloc: Global,
    mut child: Child<P>,
    reply: &ReplyFile,
) -> Option<(Bytes, bool)> {
    match reply.read(alloc) {
        Some(bytes) => {
            let status = child.wait().ok()?;
            Some((bytes, status.code().is_some()))
        }
        None => {
            end(child);
            None
        }
    }
}

impl<P: OpenProcess + Drop> Running<P> {
    // Whether nothing is to be waited for: the child has ended, or prints too much, or cannot be asked.
    fn has_ended(&mut self) -> bool
        ensures { self.new.attempt ≡ self.old.attempt }
    {
        match self.child.try_wait() {
            Ok(None) => self.reply.is_too_long(),
            Ok(Some(_)) | Err(_) => true,
        }
    }

    // What has come of this child, once it has ended.
    pub(crate) fn finish(self, alloc: Global) -> Finished
        ensures { collected_attempt result.collected ≡ self.attempt }
    {
        let Running {
            attempt,
            child,
            reply,
        } = self;
        match reply_of(alloc, child, &reply) {
            Some((bytes, spoke)) => Finished {
                collected: Collected::Reply { attempt, bytes },
                file: reply.emptied().ok(),
                spoke,
            },
            None => Finished {
                collected: Collected::Broken { attempt },
                file: None,
                spoke: false,
            },
        }
    }
}

// The place of the first of these that has ended; none where all go on.
fn first_ended<P: OpenProcess + Drop>(running: &mut [Running<P>]) -> Option<usize>
    ensures same { map (λ r. r.attempt) running.new ≡ map (λ r. r.attempt) running.old }
    ensures some { IfSome result (λ i. i < length running.old) }
{
    for i in 0..running.len() {
        if running[i].has_ended() {
            return Some(i);
        }
    }
    None
}

// Asks these again and again until one has ended. A pause is a 32nd of the time that was waited, so that a child is found soon
// after its end, and a long one costs little.
fn ask_again<R: Clock, P: OpenProcess + Drop>(rt: &R, running: &mut [Running<P>]) -> usize
    requires { 0 < length running.old }
    ensures same { map (λ r. r.attempt) running.new ≡ map (λ r. r.attempt) running.old }
    ensures within { result < length running.old }
{
    let mut pause = FIRST_PAUSE;
    for _ in 0..u64::MAX {
        if let Some(i) = first_ended(running) {
            return i;
        }
        thread::sleep(rt, Duration::from_micros(pause));
        pause = LONGEST_PAUSE.min(pause.saturating_add(pause / 32));
    }
    0
}

// Waits until one of these has ended. Where several are at work one of them says so first; while it ends the next child is
// started. One that is at work alone may be killed, and say nothing, with no other to be heard.
pub(crate) fn wait_for_one<R: Processes + Files<File = File> + Clock>(
    rt: &R,
    launcher: &mut Launcher<R>,
    running: &mut [Running<R::Started>],
) -> usize
    requires { 0 < length running.old }
    ensures same { map (λ r. r.attempt) running.new ≡ map (λ r. r.attempt) running.old }
    ensures within { result < length running.old }
{
    if running.len() > 1 && first_ended(running).is_none() {
        launcher.listen();
    }
    launcher.look_ahead();
    ask_again(rt, running)
}
