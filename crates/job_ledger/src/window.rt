//! A file read in blocks from its beginning to its end.
ghost use Rattle.std.specs.Prelude.{true, ◌≡◌, ◌≤◌, ◌<◌, ◌+◌, List, ℕ, length, take, drop, OnOk};
ghost use Rattle.disk_core.specs.Contents.{Told};
ghost use Rattle.disk_core.specs.Moments.{IsQuiet};
ghost use Rattle.job_ledger.specs.Entries.{IsWindow, head_in};
ghost use Rattle.job_ledger.specs.Stops.{IsCaused, StopsByDevice};

use crate::LedgerStop;
use crate::entry::HEAD;
use crate::reading::read_into;
use disk_core::Disk;
use std::alloc::Global;

/// How many bytes are read at a time.
const BLOCK: u64 = 65536;

/// Bytes of a file from an offset on.
#[derive(Drop)]
pub(crate) struct Window {
    from: u64,
    bytes: Vec<u8>,
}

impl Window {
    /// No bytes. Takes no memory.
    pub(crate) fn new(alloc: Global) -> Window
        ensures { (file : List ℕ) → IsWindow result file }
    {
        Window {
            from: 0,
            bytes: Vec::new(alloc),
        }
    }

    /// Whether the head of a record at an offset is among the bytes.
    fn has_head(&self, at: u64) -> bool
        ensures { result ≡ true → (self.now.from ≤ at) × (at + 15 ≤ self.now.from + length self.now.bytes.items) }
    {
        at >= self.from
            && self.bytes.len() >= HEAD
            && at - self.from <= (self.bytes.len() - HEAD) as u64
    }

    /// Reads the block at an offset of a file of this size.
    fn fill<D: Disk>(&mut self, disk: &mut D, at: u64, size: u64) -> Result<(), LedgerStop>
        requires { at < size }
        ensures quiet { IsQuiet D.seen D.images D.moment D.since disk.old disk.new }
        ensures from { OnOk result (self.new.from ≡ at) }
        ensures block { OnOk result (Told (D.seen disk.old) (λ f. size ≡ length f → self.new.bytes.items ≡ take 65536 (drop at f))) }
        ensures stops { StopsByDevice result }
        ensures cause { IsCaused (D.faults disk.old) (D.faults disk.new) result }
    {
        read_into(disk, at, (size - at).min(BLOCK), &mut self.bytes)?;
        self.from = at;
        Ok(())
    }

    /// Makes the window hold the head of a record at an offset, all of it that the file has.
    pub(crate) fn reach<D: Disk>(
        &mut self,
        disk: &mut D,
        at: u64,
        size: u64,
    ) -> Result<(), LedgerStop>
        requires { at < size }
        ensures quiet { IsQuiet D.seen D.images D.moment D.since disk.old disk.new }
        ensures head { OnOk result (Told (D.seen disk.old) (λ f. size ≡ length f → IsWindow self.old f
            → IsWindow self.new f × (head_in self.new at ≡ take 15 (drop at f)))) }
        ensures stops { StopsByDevice result }
        ensures cause { IsCaused (D.faults disk.old) (D.faults disk.new) result }
    {
        if self.has_head(at) {
            return Ok(());
        }
        self.fill(disk, at, size)?;
        Ok(())
    }

    /// The bytes of the window from an offset on, at most as many as the head of a record has.
    pub(crate) fn head(&self, at: u64) -> &[u8]
        ensures { result.now ≡ head_in self.now at }
    {
        let start = at.saturating_sub(self.from).min(self.bytes.len() as u64) as usize;
        let end = (self.bytes.len() - start).min(HEAD) + start;
        &self.bytes[start..end]
    }
}
