//! The standard error of children: one pipe for all of them, on which one can wait until some child ends.
use std::alloc::Global;
use std::fs::{File, OpenOptions};
use std::io::{self, PipeReader, Read, pipe};
use std::os::fd::AsRawFd;
use std::rt::Files;

/// The pipe that is the standard error of each child. A child of this program says there in one line how it ends, as the
/// last thing that it does, so who waits for the first of several can wait for a line. What it says is not looked at.
///
/// Only children hold a writing end. So whoever reads goes on, too, where all of them were killed and said nothing.
#[derive(Drop)]
pub(crate) struct ErrorPipe {
    reader: PipeReader,
    // how many lines were read, and how many children were found at their end that have said theirs
    heard: u64,
    found: u64,
}

impl ErrorPipe {
    /// A pipe that no child holds yet.
    pub(crate) fn new<R: Files<File = File>>(rt: &R) -> io::Result<ErrorPipe> {
        let (reader, _) = pipe(rt)?;
        Ok(ErrorPipe {
            reader,
            heard: 0,
            found: 0,
        })
    }

    /// A writing end for one child more. It is opened by the name that Linux gives to the pipe (proc(5)): so there is no end
    /// that this process would have to keep.
    pub(crate) fn writing_end<R: Files<File = File>>(
        &self,
        rt: &R,
        alloc: Global,
    ) -> io::Result<File> {
        let number = self.reader.as_raw_fd();
        let name = format!(in alloc; "/proc/self/fd/{number}")?;
        OpenOptions::new().write(true).open(rt, name.as_str())
    }

    // Reads some more, and counts the lines; false where no child is left that holds a writing end, or the read fails.
    fn read_lines(&mut self) -> bool {
        let mut text = [0u8; 512];
        match self.reader.read(&mut text) {
            Ok(0) | Err(_) => false,
            Ok(count) => {
                self.heard = self.heard.saturating_add(lines_in(&text[..count]));
                true
            }
        }
    }

    /// Waits until a child says that it ends, and returns at once where one has said so and was not found yet. Returns, too,
    /// where no child is left; then all that was said is forgotten.
    pub(crate) fn listen(&mut self) {
        for _ in 0..u64::MAX {
            if self.heard > self.found {
                return;
            }
            if !self.read_lines() {
                self.heard = 0;
                self.found = 0;
                return;
            }
        }
    }

    /// Notes that a child was found at its end, and that it has said so: its line was read, or is still to be.
    pub(crate) fn note_end(&mut self) {
        self.found = self.found.saturating_add(1);
    }
}

// How many lines end in this text.
fn lines_in(text: &[u8]) -> u64 {
    text.iter().filter(|byte| **byte == b'\n').count() as u64
}
