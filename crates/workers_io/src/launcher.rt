//! The trusted edge: how child processes are started.
ghost use Rattle.std.specs.Prelude.{◌≡◌, IfOk};

use crate::error_pipe::ErrorPipe;
use crate::reply_file::ReplyFile;
use crate::running::{Running, Waiting};
use std::alloc::Global;
use std::fs::File;
use std::io;
use std::path::PathBuf;
use std::process::{Child, Command, Processes, Stdio};
use std::rt::Files;
use std::time::Clock;

/// Starts processes of one program with these words behind its name, one of them beforehand. Each prints to a file of its own
/// in the folder for such files, and all have one pipe as their standard error.
#[derive(Drop)]
pub(crate) struct Launcher<'r, R: Processes + Files<File = File> + Clock> {
    rt: &'r R,
    alloc: Global,
    program: PathBuf,
    words: &'r [&'r str],
    folder: PathBuf,
    // started beforehand, for the next attempt
    next: Option<Waiting<R::Started>>,
    // the file of the process that was collected last, emptied
    spare: Option<ReplyFile>,
    // made with the first process; none where it could not be had
    errors: Option<ErrorPipe>,
}

impl<'r, R: Processes + Files<File = File> + Clock> Launcher<'r, R> {
    /// Nothing is started yet. Takes no memory.
    pub(crate) fn new(
        rt: &'r R,
        alloc: Global,
        program: PathBuf,
        words: &'r [&'r str],
        folder: PathBuf,
    ) -> Launcher<'r, R> {
        Launcher {
            rt,
            alloc,
            program,
            words,
            folder,
            next: None,
            spare: None,
            errors: None,
        }
    }

    // The standard error of the next process; nothing where there is no pipe.
    fn error_end(&self) -> Stdio {
        let Some(errors) = &self.errors else {
            return Stdio::null();
        };
        match errors.writing_end(self.rt, self.alloc) {
            Ok(end) => Stdio::from(end),
            Err(_) => Stdio::null(),
        }
    }

    // Starts the program, which is to print to this file. Its text is not given yet.
    fn spawn(&self, reply: File) -> io::Result<Child<R::Started>> {
        let mut command = Command::new(self.alloc, self.program.as_path())?;
        for word in self.words {
            command.arg(*word)?;
        }
        command
            .stdin(Stdio::piped())
            .stdout(Stdio::from(reply))
            .stderr(self.error_end());
        command.spawn(self.rt)
    }

    // Starts the program, which waits for its text. The number tells its reply's file apart, where it has a new one.
    fn prepare(&mut self, number: u64) -> io::Result<Waiting<R::Started>> {
        if self.errors.is_none() {
            self.errors = ErrorPipe::new(self.rt).ok();
        }
        let reply = match self.spare.take() {
            Some(file) => file,
            None => ReplyFile::new(self.rt, self.alloc, self.folder.as_path(), number)?,
        };
        let child = self.spawn(reply.writing_end()?)?;
        Ok(Waiting { child, reply })
    }

    /// A process that works on an attempt: the one that was started beforehand, where it takes the text, or else a new one.
    pub(crate) fn launch(&mut self, attempt: u64, text: &[u8]) -> io::Result<Running<R::Started>>
        ensures { IfOk result (λ r. r.attempt ≡ attempt) }
    {
        if let Some(waiting) = self.next.take() {
            if let Ok(running) = waiting.take_up(attempt, text) {
                return Ok(running);
            }
        }
        self.prepare(attempt)?.take_up(attempt, text)
    }

    /// Starts a process for the next attempt, where none waits for it.
    pub(crate) fn look_ahead(&mut self) {
        if self.next.is_none() {
            self.next = self.prepare(u64::MAX).ok();
        }
    }

    /// Waits until one of the processes that work says that it ends, or none of them is left. Returns at once where one has said
    /// so that was not collected yet, and where this cannot be waited for: a process that was started beforehand says nothing.
    pub(crate) fn listen(&mut self) {
        if self.next.is_some() {
            return;
        }
        if let Some(errors) = &mut self.errors {
            errors.listen();
        }
    }

    /// Notes that a process was collected: its file comes back where its reply was read whole, and unless it was killed it has
    /// said that it ends.
    pub(crate) fn note_end(&mut self, file: Option<ReplyFile>, spoke: bool) {
        self.spare = file;
        if let Some(errors) = &mut self.errors {
            if spoke {
                errors.note_end();
            }
        }
    }
}
