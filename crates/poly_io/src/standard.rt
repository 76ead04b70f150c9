//! Sources and sinks over the readers and writers of std. They tell the bytes that std tells.
ghost use Rattle.std.specs.Prelude.{◌≡◌};

use crate::{Failed, Sink, Source};
use std::io::{Read, Write};

/// A source over any reader, as standard input. An error of the reader is a fault, also a call that was
/// interrupted.
#[derive(Drop)]
pub struct StdinSource<R: Read> {
    inner: R,
    faults: u64,
}

impl<R: Read> StdinSource<R> {
    pub fn new(inner: R) -> StdinSource<R>
        ensures inner { result.inner ≡ inner }
        ensures faults { result.faults ≡ 0 }
    {
        StdinSource { inner, faults: 0 }
    }
}

impl<R: Read> Source for StdinSource<R> {
    // What the reader will give, where std tells it: of standard input and of a file it tells nothing.
    ghost left = { λ s. R.remaining s.inner };

    ghost faults = { λ s. s.faults };

    fn read(&mut self, buf: &mut [u8]) -> Result<usize, Failed> {
        match self.inner.read(buf) {
            Ok(count) => Ok(count),
            Err(_) => {
                self.faults = self.faults.saturating_add(1);
                Err(Failed)
            }
        }
    }
}

/// A sink over any writer, as standard output. An error of the writer is a fault, and a call that
/// takes nothing of a nonempty piece.
#[derive(Drop)]
pub struct StdoutSink<W: Write> {
    inner: W,
    faults: u64,
}

impl<W: Write> StdoutSink<W> {
    pub fn new(inner: W) -> StdoutSink<W>
        ensures inner { result.inner ≡ inner }
        ensures faults { result.faults ≡ 0 }
    {
        StdoutSink { inner, faults: 0 }
    }
}

impl<W: Write> Sink for StdoutSink<W> {
    // What the writer holds, where std tells it: of standard output and of a file it tells nothing.
    ghost written = { λ s. W.contents s.inner };

    ghost faults = { λ s. s.faults };

    fn write(&mut self, bytes: &[u8]) -> Result<usize, Failed> {
        match self.inner.write(bytes) {
            Ok(count) if count > 0 || bytes.is_empty() => Ok(count),
            _ => {
                self.faults = self.faults.saturating_add(1);
                Err(Failed)
            }
        }
    }
}
