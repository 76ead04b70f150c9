//! Where bytes wait.
ghost use Rattle.std.specs.Prelude.{◌≡◌, ◌≤◌, [], ◌++◌, length, drop, IsTrue};

use std::marker::Model;

/// Bytes that wait to be handed on, in the order in which they came. There is room for 8 KiB, which lies in the value.
#[derive(Drop)]
pub struct Room {
    bytes: [u8; 8192],
    start: usize,
    end: usize,
}

impl Model for Room {
    ghost use Rattle.std.specs.Prelude.{List, ℕ, ◌≤◌, take, drop};

    ghost Value = { List ℕ };

    ghost view = { λ r. drop r.start (take r.end r.bytes) };

    ghost invariant = { λ r. (r.start ≤ r.end) × (r.end ≤ 8192) };
}

impl Room {
    /// No bytes.
    pub fn new() -> Room
        ensures { result ≡ [] }
    {
        Room {
            bytes: [0; 8192],
            start: 0,
            end: 0,
        }
    }

    pub fn as_slice(&self) -> &[u8]
        ensures { result.now ≡ self.now }
    {
        &self.bytes[self.start..self.end]
    }

    /// Takes a piece, where there is room for all of it, and answers whether there is.
    pub fn append(&mut self, bytes: &[u8]) -> bool
        ensures taken { IsTrue result → self.new ≡ self.old ++ bytes.now }
        ensures refused { ¬ (IsTrue result) → self.new ≡ self.old }
    {
        if bytes.len() > self.bytes.len() - self.end {
            return false;
        }
        self.bytes[self.end..self.end + bytes.len()].copy_from_slice(bytes);
        self.end += bytes.len();
        true
    }

    /// Lets the first `count` bytes go. Where none are left there is room for 8 KiB again.
    pub fn remove_front(&mut self, count: usize)
        requires { count ≤ length self.old }
        ensures { self.new ≡ drop count self.old }
    {
        self.start += count;
        if self.start == self.end {
            self.start = 0;
            self.end = 0;
        }
    }
}
