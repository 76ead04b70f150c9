//! The trusted edge: workers that are child processes. They tell no history.
ghost use Rattle.std.specs.Prelude.{◌≡◌, ◌<◌, ◌++◌, ◌∷◌, [], None, IfOk, OnOk, OnErr, length, map};
ghost use Rattle.workers_io.specs.Collects.{collected_attempt};
ghost use Rattle.workers_io.specs.Children.{AreRun};

use crate::attempts::{attempt_of, take_off};
use crate::count::{count_fault, faults_after};
use crate::launcher::Launcher;
use crate::running::{Finished, Running, wait_for_one};
use crate::{Collected, Workers};
use poly_io::Failed;
use std::alloc::{AllocError, Global};
use std::fs::File;
use std::path::PathBuf;
use std::process::Processes;
use std::rt::Files;
use std::time::Clock;

/// Workers that are processes of one program, one for each attempt, all beside each other. A process gets the text on
/// its standard input, and what it prints is its reply, whatever its exit status; what it says on its standard error is dropped.
///
/// What a process prints goes to a file without a name in a folder for such files, so that it never waits to be read; once it
/// has ended, a next one has that file, emptied. A start waits until the process has taken its text; one that ends before is
/// a start that failed, as is one for which no such file could be made. A collect waits until some process has ended, and
/// takes the oldest of those. An attempt is broken where reading or waiting fails, where it prints more than
/// `MOST_REPLY_BYTES`, and where there is no memory for what it prints; so no collect answers `AllocError`. Whatever has
/// failed is killed and waited for. Processes that are not collected are left to themselves where these workers are dropped.
///
/// All processes have one pipe as their standard error. A process of this program says there how it ends, as the last thing
/// that it does, and a collect waits for that where several are at work. So one that is killed, and says nothing, is found when another
/// one ends, and so is one that never ends and has printed more than a reply may have. Where one process is at work alone, or
/// the pipe could not be had, it is asked again and again whether it has ended.
///
/// To start a process takes about a millisecond. So a collect in which one says that it ends starts the next, which begins
/// on the processor that is free then, while what was printed is read, judged and recorded, and waits for the text of the
/// next attempt. It does nothing until then, so no more processes are at work than attempts are out. Where it was not started,
/// or takes no text, the next attempt starts its own; that is no fault. It ends where these workers are dropped: it finds its
/// input empty.
#[derive(Drop)]
pub struct ChildWorkers<'r, R: Processes + Files<File = File> + Clock> {
    rt: &'r R,
    alloc: Global,
    launcher: Launcher<'r, R>,
    out: Vec<u64>,
    running: Vec<Running<R::Started>>,
    faults: u64,
    ghost run: { ∥ AreRun (map (λ r. r.attempt) running.items) out.items ∥₁ },
}

impl<'r, R: Processes + Files<File = File> + Clock> ChildWorkers<'r, R> {
    /// Workers that run this program with these words behind its name, with their replies in files of this folder. Nothing is
    /// started yet. Takes no memory.
    pub fn new(
        rt: &'r R,
        alloc: Global,
        program: PathBuf,
        words: &'r [&'r str],
        folder: PathBuf,
    ) -> ChildWorkers<'r, R>
        ensures out { result.out.items ≡ [] }
        ensures faults { result.faults ≡ 0 }
    {
        ChildWorkers {
            rt,
            alloc,
            launcher: Launcher::new(rt, alloc, program, words, folder),
            out: Vec::new(alloc),
            running: Vec::new(alloc),
            faults: 0,
        }
    }

    /// The attempts that are out.
    pub fn out(&self) -> &[u64]
        ensures { result.now ≡ self.now.out.items }
    {
        &self.out
    }

    /// How often a start or an attempt has failed.
    pub fn faults(&self) -> u64
        ensures { result ≡ self.now.faults }
    {
        self.faults
    }

    // Sends an attempt out. There is room for it before the program is started.
    fn begin(&mut self, attempt: u64, text: &[u8]) -> Result<(), Failed>
        ensures out { OnOk result (self.new.out.items ≡ self.old.out.items ++ attempt ∷ []) }
        ensures not_out { OnErr result (self.new.out.items ≡ self.old.out.items) }
        ensures faults { self.new.faults ≡ self.old.faults }
    {
        if self.out.reserve(1).is_err() || self.running.reserve(1).is_err() {
            return Err(Failed);
        }
        let Ok(running) = self.launcher.launch(attempt, text) else {
            return Err(Failed);
        };
        self.out.push_reserved(attempt);
        self.running.push_reserved(running);
        Ok(())
    }
}

impl<'r, R: Processes + Files<File = File> + Clock> Workers for ChildWorkers<'r, R> {
    ghost out = { λ w. w.out.items };

    ghost history = { λ _. None };

    ghost allows = { λ _ _. Unit {0} };

    ghost honest = { λ _. ⊥ };

    ghost faults = { λ w. w.faults };

    ghost honest_history = { λ w happenings honest told. absurd honest };

    fn start(&mut self, attempt: u64, text: &[u8]) -> Result<(), Failed> {
        let begun = self.begin(attempt, text);
        count_fault(begun, &mut self.faults);
        begun
    }

    fn collect(&mut self) -> Result<Collected, AllocError> {
        // A child runs for each attempt that is out.
        let place = wait_for_one(self.rt, &mut self.launcher, &mut self.running);
        let Finished {
            collected,
            file,
            spoke,
        } = self.running.remove(place).finish(self.alloc);
        self.launcher.note_end(file, spoke);
        take_off(&mut self.out, attempt_of(&collected));
        self.faults = faults_after(self.faults, &collected);
        Ok(collected)
    }
}
