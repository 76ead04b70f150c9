//! A sink that keeps nothing.
ghost use Rattle.std.specs.Prelude.{None};

use poly_io::{Failed, Sink};

/// A sink that takes all that is written to it, and keeps nothing. No write to it fails.
#[derive(Drop)]
pub(crate) struct Discard;

impl Sink for Discard {
    ghost written = { λ _. None };

    ghost faults = { λ _. 0 };

    fn write(&mut self, bytes: &[u8]) -> Result<usize, Failed> {
        Ok(bytes.len())
    }
}
