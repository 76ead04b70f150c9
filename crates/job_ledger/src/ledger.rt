//! The ledger: gate, length, payload, one record after the other.
ghost use Rattle.std.specs.Prelude.{◌≡◌, ◌⊎◌, ◌≤◌, ◌<◌, ◌+◌, ◌^◌, ◌++◌, ◌∷◌, [], List, ℕ, Some, length, take, get_or, slice_get, OnOk, OnErr, IfOk, IsErrOf};
ghost use Rattle.disk_core.specs.Contents.{Told};
ghost use Rattle.disk_core.specs.Images.{Only};
ghost use Rattle.disk_core.specs.Moments.{IsQuiet, LeavesOnly};
ghost use Rattle.job_ledger.specs.Ledgers.{IsLedgerAt, IsPastLimit, bytes_of, end_of, grown, need_of, new_ledger, payload_sizes};
ghost use Rattle.job_ledger.specs.Records.{HasNoRun, IsBrokenAt, IsOpen, IsShort, Records, RecordsOldOrNew, frame};
ghost use Rattle.job_ledger.specs.Stops.{IsCaused, StopsByDevice};

use crate::LedgerStop;
use crate::gate::{without_run, write_first, write_record};
use crate::header::push_header;
use crate::reading::read_into;
use crate::span::Span;
use crate::walk::walk;
use disk_core::{Disk, file_len, sync_file};
use poly_io::Bytes;
use std::alloc::{AllocError, Global};
use std::marker::Model;

/// A ledger whose file is attached. Contracts see the sizes of its payloads and its limit. After a fault of the disk it is
/// given up.
#[derive(Drop)]
pub struct Ledger {
    alloc: Global,
    limit: u64,
    end: u64,
    spans: Vec<Span>,
}

impl Model for Ledger {
    ghost use Rattle.std.specs.Prelude.{◌≤◌, ◌<◌, ◌^◌};
    ghost use Rattle.job_ledger.specs.Ledgers.{Known};
    ghost use Rattle.job_ledger.specs.Spans.{ArePlaced, sizes_in};

    ghost Value = { Known };

    ghost view = { λ l. record { limit = l.limit; sizes = sizes_in l.spans.items } };

    ghost invariant = { λ l. (l.limit ≤ 2 ^ 40) × ArePlaced l.spans.items l.end × (l.end < 2 ^ 64) };
}

/// A payload behind its length, and a closed gate behind it.
fn framed(alloc: Global, payload: &[u8]) -> Result<Vec<u8>, AllocError>
    ensures { IfOk result (λ v. v.items ≡ frame payload.now ++ 0 ∷ []) }
{
    let mut bytes = Vec::new(alloc);
    push_header(&mut bytes, payload.len() as u64)?;
    bytes.extend_from_slice(payload)?;
    bytes.push(0)?;
    Ok(bytes)
}

impl Ledger {
    /// Begins a ledger of at most `limit` bytes by its first record, where the file has no run. The order: the file is
    /// synced, `HasRun`, `LedgerLimit`, lack of memory, and only then is something written. An image of the call is one
    /// from before, has no run, or has that record.
    pub fn create<D: Disk>(
        alloc: Global,
        disk: &mut D,
        limit: u64,
        payload: &[u8],
    ) -> Result<Ledger, LedgerStop>
        requires { limit ≤ 2 ^ 40 }
        ensures moments { Told (D.seen disk.old) (λ f. LeavesOnly D.moment D.since disk.old disk.new
            (λ c. D.images disk.old c ⊎ (HasNoRun c ⊎ Records (payload.now ∷ []) c))) }
        ensures kept { IfOk result (λ l. Told (D.seen disk.old) (λ f. IsLedgerAt l (payload.now ∷ []) (D.seen disk.new) (D.images disk.new))) }
        ensures knows { IfOk result (λ l. l ≡ grown (new_ledger limit) (length payload.now)) }
        ensures fresh { OnOk result (Told (D.seen disk.old) HasNoRun) }
        ensures fits { OnOk result (need_of (new_ledger limit) (length payload.now) ≤ limit) }
        ensures has { IsErrOf result LedgerStop.HasRun → Told (D.seen disk.old) IsOpen }
        ensures past { (need most : ℕ) → IsErrOf result (LedgerStop.LedgerLimit need most)
            → IsPastLimit (new_ledger limit) (length payload.now) need most × Told (D.seen disk.old) HasNoRun }
        // What is refused has written nothing.
        ensures unwritten { (IsErrOf result LedgerStop.DiskFault → ⊥) → OnErr result
            (LeavesOnly D.moment D.since disk.old disk.new (D.images disk.old) × Told (D.seen disk.old) (λ f. D.seen disk.new ≡ Some f)) }
        ensures never_none { IsErrOf result LedgerStop.NoRun → ⊥ }
        ensures never_bad { (place : ℕ) → IsErrOf result (LedgerStop.BadLedger place) → ⊥ }
        ensures cause { IsCaused (D.faults disk.old) (D.faults disk.new) result }
    {
        let size = without_run(disk)?;
        let mut ledger = Ledger::empty(alloc, limit);
        let bytes = ledger.staged(payload)?;
        ledger.grow(payload.len() as u64)?;
        write_first(disk, size, &bytes)?;
        Ok(ledger)
    }

    /// Reads the layout of a file. Whatever the answer, no image is new.
    pub fn reopen<D: Disk>(alloc: Global, disk: &mut D, limit: u64) -> Result<Ledger, LedgerStop>
        requires { limit ≤ 2 ^ 40 }
        ensures quiet { LeavesOnly D.moment D.since disk.old disk.new (D.images disk.old) }
        ensures records { IfOk result (λ l. Told (D.seen disk.old) (λ f. (payloads : List (List ℕ))
            × (0 < length payloads) × Records payloads f × (D.seen disk.new ≡ Some f) × IsLedgerAt l payloads (D.seen disk.new) (D.images disk.new))) }
        ensures knows { IfOk result (λ l. l.limit ≡ limit) }
        ensures some { IfOk result (λ l. 0 < length l.sizes) }
        ensures none { IsErrOf result LedgerStop.NoRun → Told (D.seen disk.old) (λ f. HasNoRun f × (D.seen disk.new ≡ Some f)) }
        ensures bad { (place : ℕ) → IsErrOf result (LedgerStop.BadLedger place) → Told (D.seen disk.old) (λ f. IsBrokenAt place f × (D.seen disk.new ≡ Some f)) }
        ensures never_has { IsErrOf result LedgerStop.HasRun → ⊥ }
        ensures never_past { (need most : ℕ) → IsErrOf result (LedgerStop.LedgerLimit need most) → ⊥ }
        ensures cause { IsCaused (D.faults disk.old) (D.faults disk.new) result }
    {
        sync_file(disk)?;
        let size = file_len(disk)?;
        let (spans, end) = walk(alloc, disk, size)?;
        Ok(Ledger {
            alloc,
            limit,
            end,
            spans,
        })
    }

    /// Adds a record. At `Ok` it is acknowledged: each image has it. At every moment of the call an image has the records
    /// from before, with the new one or without.
    pub fn append<D: Disk>(&mut self, disk: &mut D, payload: &[u8]) -> Result<(), LedgerStop>
        ensures moments { (payloads : List (List ℕ)) → IsLedgerAt self.old payloads (D.seen disk.old) (D.images disk.old)
            → LeavesOnly D.moment D.since disk.old disk.new (RecordsOldOrNew payloads payload.now) }
        ensures kept { (payloads : List (List ℕ)) → IsLedgerAt self.old payloads (D.seen disk.old) (D.images disk.old)
            → OnOk result (IsLedgerAt self.new (payloads ++ payload.now ∷ []) (D.seen disk.new) (D.images disk.new)) }
        ensures knows { OnOk result (self.new ≡ grown self.old (length payload.now)) }
        ensures fits { OnOk result (need_of self.old (length payload.now) ≤ self.old.limit) }
        ensures past { (need most : ℕ) → IsErrOf result (LedgerStop.LedgerLimit need most)
            → IsPastLimit self.old (length payload.now) need most × (disk.new ≡ disk.old) × (self.new ≡ self.old) }
        ensures memory { IsErrOf result LedgerStop.Memory → (disk.new ≡ disk.old) × (self.new ≡ self.old) }
        ensures fault { IsErrOf result LedgerStop.DiskFault → need_of self.old (length payload.now) ≤ self.old.limit }
        ensures never_none { IsErrOf result LedgerStop.NoRun → ⊥ }
        ensures never_has { IsErrOf result LedgerStop.HasRun → ⊥ }
        ensures never_bad { (place : ℕ) → IsErrOf result (LedgerStop.BadLedger place) → ⊥ }
        ensures cause { IsCaused (D.faults disk.old) (D.faults disk.new) result }
    {
        let bytes = self.staged(payload)?;
        let gate = self.gate();
        self.grow(payload.len() as u64)?;
        write_record(disk, gate, &bytes)?;
        Ok(())
    }

    /// The payload of this number, from 0. Where the file ends early it gives the bytes that there were.
    pub fn payload<D: Disk>(&self, disk: &mut D, i: u64) -> Result<Bytes, LedgerStop>
        requires { i < length self.now.sizes }
        ensures quiet { IsQuiet D.seen D.images D.moment D.since disk.old disk.new }
        ensures read { IfOk result (λ b. Told (D.seen disk.old) (λ f. b ≡ bytes_of self.now i f)) }
        ensures bytes { (payloads : List (List ℕ)) → IsLedgerAt self.now payloads (D.seen disk.old) (D.images disk.old)
            → IfOk result (λ b. slice_get payloads i ≡ Some b) }
        ensures stops { StopsByDevice result }
        ensures cause { IsCaused (D.faults disk.old) (D.faults disk.new) result }
    {
        let span = self.span(i);
        let mut bytes = Vec::new(self.alloc);
        read_into(disk, span.at, span.len, &mut bytes)?;
        Ok(Bytes::from_vec(bytes))
    }

    /// How many records there are.
    pub fn count(&self) -> u64
        ensures { result ≡ length self.now.sizes }
    {
        self.spans.len() as u64
    }

    /// Where the payload of this number lies.
    fn span(&self, i: u64) -> Span
        requires { i < length self.now.sizes }
        ensures at { result.at ≡ end_of (take i self.now.sizes) + 15 }
        ensures len { result.len ≡ get_or self.now.sizes i 0 }
        ensures within { result.at + result.len < 2 ^ 64 }
    {
        self.spans[i as usize]
    }

    /// A ledger of no records.
    fn empty(alloc: Global, limit: u64) -> Ledger
        requires { limit ≤ 2 ^ 40 }
        ensures { result ≡ new_ledger limit }
    {
        Ledger {
            alloc,
            limit,
            end: 0,
            spans: Vec::new(alloc),
        }
    }

    /// Where the closed gate stands.
    fn gate(&self) -> u64
        ensures { result ≡ end_of self.now.sizes }
    {
        self.end
    }

    /// The bytes of the next record, with a closed gate behind it. Refused as `LedgerLimit` or for lack of memory.
    fn staged(&self, payload: &[u8]) -> Result<Vec<u8>, LedgerStop>
        ensures bytes { IfOk result (λ v. v.items ≡ frame payload.now ++ 0 ∷ []) }
        ensures fits { OnOk result (need_of self.now (length payload.now) ≤ self.now.limit) }
        ensures short { OnOk result (IsShort payload.now) }
        ensures room { OnOk result (end_of self.now.sizes + 1 < 2 ^ 64) }
        ensures past { (need most : ℕ) → IsErrOf result (LedgerStop.LedgerLimit need most) → IsPastLimit self.now (length payload.now) need most }
        ensures never_none { IsErrOf result LedgerStop.NoRun → ⊥ }
        ensures never_has { IsErrOf result LedgerStop.HasRun → ⊥ }
        ensures never_bad { (place : ℕ) → IsErrOf result (LedgerStop.BadLedger place) → ⊥ }
        ensures never_fault { IsErrOf result LedgerStop.DiskFault → ⊥ }
    {
        let need = self
            .end
            .saturating_add(payload.len() as u64)
            .saturating_add(16);
        if need > self.limit {
            return Err(LedgerStop::LedgerLimit {
                need,
                limit: self.limit,
            });
        }
        Ok(framed(self.alloc, payload)?)
    }

    /// Notes a record more.
    fn grow(&mut self, len: u64) -> Result<(), AllocError>
        requires { need_of self.old len ≤ self.old.limit }
        ensures ok { OnOk result (self.new ≡ grown self.old len) }
        ensures err { OnErr result (self.new ≡ self.old) }
    {
        let start = self.end + 15;
        self.spans.push(Span { at: start, len })?;
        self.end = start + len;
        Ok(())
    }
}
