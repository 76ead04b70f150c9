//! Goes through the records of a file, from gate to gate.
ghost use Rattle.std.specs.Prelude.{◌≡◌, ◌<◌, List, ℕ, Some, length, IfOk, IsErrOf};
ghost use Rattle.disk_core.specs.Contents.{Told};
ghost use Rattle.disk_core.specs.Moments.{IsQuiet};
ghost use Rattle.job_ledger.specs.Records.{HasNoRun, IsBrokenAt};
ghost use Rattle.job_ledger.specs.Spans.{ArePlaced};
ghost use Rattle.job_ledger.specs.Stops.{IsCaused};
ghost use Rattle.job_ledger.specs.Walks.{HasSpans};

use crate::LedgerStop;
use crate::entry::{Entry, HEAD, entry_of};
use crate::span::Span;
use crate::window::Window;
use disk_core::{Disk, file_len};
use std::alloc::Global;

/// Where the payloads of a file of this size lie, and its first closed gate. Reads each block once, but for the head of a
/// record that lies on the seam of two. Beside a writer a gate may be open by then whose record the size leaves out: so the
/// size is asked for again before a record is called broken.
pub(crate) fn walk<D: Disk>(
    alloc: Global,
    disk: &mut D,
    size: u64,
) -> Result<(Vec<Span>, u64), LedgerStop>
    ensures quiet { IsQuiet D.seen D.images D.moment D.since disk.old disk.new }
    ensures placed { IfOk result (λ r. ArePlaced r.0.items r.1) }
    ensures some { IfOk result (λ r. 0 < length r.0.items) }
    ensures records { IfOk result (λ r. Told (D.seen disk.old) (λ f. size ≡ length f → HasSpans r.0.items f)) }
    ensures none { IsErrOf result LedgerStop.NoRun → Told (D.seen disk.old) (λ f. size ≡ length f → HasNoRun f) }
    ensures bad { (place : ℕ) → IsErrOf result (LedgerStop.BadLedger place) → Told (D.seen disk.old) (λ f. size ≡ length f → IsBrokenAt place f) }
    ensures never_has { IsErrOf result LedgerStop.HasRun → ⊥ }
    ensures never_past { (need most : ℕ) → IsErrOf result (LedgerStop.LedgerLimit need most) → ⊥ }
    ensures cause { IsCaused (D.faults disk.old) (D.faults disk.new) result }
{
    let mut spans = Vec::new(alloc);
    let mut at = 0u64;
    let mut size = size;
    if size == 0 {
        return Err(LedgerStop::NoRun);
    }
    let mut window = Window::new(alloc);
    'records: loop {
        window.reach(disk, at, size)?;
        match entry_of(window.head(at), size - at) {
            Entry::Closed => {
                if spans.is_empty() {
                    return Err(LedgerStop::NoRun);
                }
                return Ok((spans, at));
            }
            Entry::Record(len) => {
                let start = at + HEAD as u64;
                spans.push(Span { at: start, len })?;
                at = start + len;
            }
            Entry::Broken => {
                let now = file_len(disk)?;
                if now <= size {
                    return Err(LedgerStop::BadLedger {
                        place: spans.len() as u64 + 1,
                    });
                }
                size = now;
            }
        }
    }
}
