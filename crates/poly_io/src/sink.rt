//! Where bytes go.
ghost use Rattle.std.specs.Prelude.{◌≤◌, ◌<◌, List, ℕ, Option, length, take, IfOk, OnErr};
ghost use Rattle.std.specs.Io.KnownBytes.{Appends, Keeps};
ghost use Rattle.poly_io.specs.Causes.{HasCause};

use crate::Failed;

/// A sink of bytes.
pub trait Sink {
    /// The bytes that were written, where the sink tells them.
    ghost written: { Self → Option (List ℕ) };

    /// How often a write has failed. Past 2^64 - 1 failures the count may stand still.
    ghost faults: { Self → ℕ };

    /// Takes the first bytes of a piece, and answers how many they are: at least one of a
    /// nonempty piece. A device that takes none of them has failed. A failed call writes nothing.
    fn write(&mut self, bytes: &[u8]) -> Result<usize, Failed>
        ensures bound { IfOk result (λ n. n ≤ length bytes.now) }
        ensures progress { IfOk result (λ n. 0 < length bytes.now → 0 < n) }
        ensures bytes { IfOk result (λ n. Appends (written self.old) (written self.new) (take n bytes.now)) }
        ensures failed { OnErr result (Keeps (written self.old) (written self.new)) }
        ensures cause { HasCause (faults self.old) (faults self.new) result };
}
