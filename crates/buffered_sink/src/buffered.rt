//! A sink with a buffer in front of it.
ghost use Rattle.std.specs.Prelude.{◌≡◌, ℕ, List, [], IsOk, OnOk};
ghost use Rattle.std.specs.Io.KnownBytes.{Keeps, append_known};
ghost use Rattle.poly_io.specs.Causes.{HasCause};
ghost use Rattle.poly_io.specs.Written.{AppendsPart, Prints};
ghost use Rattle.buffered_sink.specs.Growth.{HasGrown, HasGrown-prop};

use crate::Base;
use crate::hand::hand_on;
use crate::room::Room;
use poly_io::{Failed, Sink, WriteFault};
use std::marker::PhantomData;

/// A sink that holds what is written to it, up to 8 KiB, and hands it on to the sink `inner` in large pieces. It takes no
/// memory. It cannot be dropped: what is held at the end goes on, or is lost, at `finish`.
pub struct Buffered<B: Base, S: Sink> {
    inner: S,
    held: Room,
    of: PhantomData<B>,
    // What the inner sink had written at the base is still the beginning of what it has written.
    ghost grown: { HasGrown B.base (S.written inner) } by { HasGrown-prop B.base (S.written inner) },
}

impl<B: Base, S: Sink> Buffered<B, S> {
    /// A buffer with nothing in it, in front of a sink.
    pub fn new(inner: S) -> Buffered<B, S>
        requires { HasGrown B.base (S.written inner) }
        ensures inner { result.inner ≡ inner }
        ensures held { result.held ≡ [] }
        // So far the two sinks tell the same.
        ensures told { append_known (S.written result.inner) result.held ≡ S.written inner }
    {
        Buffered {
            inner,
            held: Room::new(),
            of: PhantomData,
        }
    }

    /// Hands on what is held. At a fault the bytes that did not go on are still held.
    pub fn flush(&mut self) -> Result<(), WriteFault>
        ensures prints { Prints S.Sink self.old.inner self.new.inner result self.old.held }
        ensures kept { Keeps (append_known (S.written self.old.inner) self.old.held)
            (append_known (S.written self.new.inner) self.new.held) }
        ensures empty { OnOk result (self.new.held ≡ []) }
        ensures idle { self.old.held ≡ [] → (self.new.inner ≡ self.old.inner) × IsOk result }
    {
        let (count, end) = hand_on(self.held.as_slice(), &mut self.inner);
        self.held.remove_front(count);
        end
    }

    /// Hands on what is held, and gives the inner sink back. At Ok it has written all that was written to this one.
    /// At a fault the bytes that did not go on are lost: of a text that was written since the base, or of which first
    /// bytes were, it has written first bytes.
    pub fn finish(self) -> (S, Result<(), WriteFault>)
        ensures whole { OnOk result.1
            (Keeps (append_known (S.written self.inner) self.held) (S.written result.0)) }
        ensures part { (text : List ℕ) → AppendsPart B.base (append_known (S.written self.inner) self.held) text
            → AppendsPart B.base (S.written result.0) text }
        ensures cause { HasCause (S.faults self.inner) (S.faults result.0) result.1 }
        // Where nothing is held nothing is done.
        ensures idle { self.held ≡ [] → (result.0 ≡ self.inner) × IsOk result.1 }
    {
        let mut sink = self;
        let end = sink.flush();
        let Buffered {
            inner,
            held: _,
            of: _,
        } = sink;
        (inner, end)
    }
}

impl<B: Base, S: Sink> Sink for Buffered<B, S> {
    // What the inner sink has written, and behind it what is held.
    ghost written = { λ s. append_known (S.written s.inner) s.held };

    ghost faults = { λ s. S.faults s.inner };

    fn write(&mut self, bytes: &[u8]) -> Result<usize, Failed> {
        if self.held.append(bytes) {
            return Ok(bytes.len());
        }
        if self.flush().is_err() {
            return Err(Failed);
        }
        if self.held.append(bytes) {
            return Ok(bytes.len());
        }
        // It is longer than the room.
        self.inner.write(bytes)
    }
}
