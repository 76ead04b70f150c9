//! A source and a sink in memory, whose calls a table can make fail or cut short.
ghost use Rattle.std.specs.Prelude.{◌≡◌, [], Some};

use crate::calls::{next_call, piece_len};
use crate::{Call, Failed, Sink, Source};
use std::alloc::Global;
use std::marker::Model;

/// A source over bytes in memory. Its k-th call does what its table says at k.
#[derive(Drop)]
pub struct MemSource<'a> {
    rest: &'a [u8],
    table: &'a [Call],
    faults: u64,
}

impl<'a> Model for MemSource<'a> {
    ghost use Rattle.poly_io.specs.Memory.{Input};

    ghost Value = { Input };

    ghost view = { λ s. record { left = s.rest.now; faults = s.faults } };
}

impl<'a> MemSource<'a> {
    pub fn new(bytes: &'a [u8], table: &'a [Call]) -> MemSource<'a>
        ensures left { result.left ≡ bytes.now }
        ensures faults { result.faults ≡ 0 }
    {
        MemSource {
            rest: bytes,
            table,
            faults: 0,
        }
    }

    /// The bytes that were not read yet.
    pub fn left(&self) -> &[u8]
        ensures { result.now ≡ self.now.left }
    {
        self.rest
    }

    /// How often a read has failed.
    pub fn faults(&self) -> u64
        ensures { result ≡ self.now.faults }
    {
        self.faults
    }
}

impl<'a> Source for MemSource<'a> {
    ghost left = { λ s. Some s.left };

    ghost faults = { λ s. s.faults };

    fn read(&mut self, buf: &mut [u8]) -> Result<usize, Failed> {
        let call = next_call(&mut self.table);
        if call == Call::Fail {
            self.faults = self.faults.saturating_add(1);
            return Err(Failed);
        }
        let count = piece_len(call, buf.len()).min(self.rest.len());
        buf[..count].copy_from_slice(&self.rest[..count]);
        self.rest = &self.rest[count..];
        Ok(count)
    }
}

/// A sink that keeps what is written to it. Its k-th call does what its table says at k, and
/// fails too where the memory for the bytes is refused.
#[derive(Drop)]
pub struct MemSink<'a> {
    bytes: Vec<u8>,
    table: &'a [Call],
    faults: u64,
}

impl<'a> Model for MemSink<'a> {
    ghost use Rattle.poly_io.specs.Memory.{Output};

    ghost Value = { Output };

    ghost view = { λ s. record { written = s.bytes.items; faults = s.faults } };
}

impl<'a> MemSink<'a> {
    /// A sink to which nothing was written. Takes no memory.
    pub fn new(alloc: Global, table: &'a [Call]) -> MemSink<'a>
        ensures written { result.written ≡ [] }
        ensures faults { result.faults ≡ 0 }
    {
        MemSink {
            bytes: Vec::new(alloc),
            table,
            faults: 0,
        }
    }

    /// The bytes that were written.
    pub fn written(&self) -> &[u8]
        ensures { result.now ≡ self.now.written }
    {
        &self.bytes
    }

    /// How often a write has failed.
    pub fn faults(&self) -> u64
        ensures { result ≡ self.now.faults }
    {
        self.faults
    }
}

impl<'a> Sink for MemSink<'a> {
    ghost written = { λ s. Some s.written };

    ghost faults = { λ s. s.faults };

    fn write(&mut self, bytes: &[u8]) -> Result<usize, Failed> {
        let call = next_call(&mut self.table);
        let count = piece_len(call, bytes.len());
        if call == Call::Fail || self.bytes.extend_from_slice(&bytes[..count]).is_err() {
            self.faults = self.faults.saturating_add(1);
            return Err(Failed);
        }
        Ok(count)
    }
}
