//! The gates of a file: the first one, and the one that is opened once its record is there.
ghost use Rattle.std.specs.Prelude.{true, false, ◌≡◌, ◌⊎◌, ◌<◌, ◌+◌, ◌^◌, ◌++◌, ◌∷◌, [], List, ℕ, Some, length, OnOk, IfOk, IsErrOf};
ghost use Rattle.poly_io.specs.Causes.{HasCause};
ghost use Rattle.disk_core.specs.Contents.{Told};
ghost use Rattle.disk_core.specs.Images.{Only};
ghost use Rattle.disk_core.specs.Moments.{IsQuiet, LeavesOnly};
ghost use Rattle.job_ledger.specs.Records.{HasNoRun, IsOpen, IsShort, Records, RecordsOldOrNew, frame};
ghost use Rattle.job_ledger.specs.Stops.{IsCaused};
ghost use Rattle.job_ledger.specs.Walks.{Stand};

use crate::LedgerStop;
use crate::entry::OPEN;
use disk_core::{Disk, cut_synced, file_len, read_full, sync_file, write_synced};
use poly_io::Failed;

fn begins_open(bytes: &[u8]) -> bool
    ensures open { result ≡ true → IsOpen bytes.now }
    ensures shut { result ≡ false → HasNoRun bytes.now }
{
    match bytes {
        [gate, ..] => *gate == OPEN,
        [] => false,
    }
}

/// Whether the first gate is open.
fn is_open<D: Disk>(disk: &mut D) -> Result<bool, Failed>
    ensures quiet { IsQuiet D.seen D.images D.moment D.since disk.old disk.new }
    ensures open { IfOk result (λ b. Told (D.seen disk.old) (λ f. b ≡ true → IsOpen f)) }
    ensures shut { IfOk result (λ b. Told (D.seen disk.old) (λ f. b ≡ false → HasNoRun f)) }
    ensures cause { HasCause (D.faults disk.old) (D.faults disk.new) result }
{
    let mut gate = [0u8; 1];
    let count = read_full(disk, 0, &mut gate)?;
    Ok(begins_open(&gate[..count]))
}

/// Syncs a file that has no run, and answers its length.
pub(crate) fn without_run<D: Disk>(disk: &mut D) -> Result<u64, LedgerStop>
    ensures leaves { LeavesOnly D.moment D.since disk.old disk.new (D.images disk.old) }
    ensures none { IfOk result (λ n. Told (D.seen disk.old) (λ f. (n ≡ length f) × HasNoRun f)) }
    ensures same { OnOk result (Told (D.seen disk.old) (λ f. (D.seen disk.new ≡ Some f) × Only f (D.images disk.new))) }
    ensures has { IsErrOf result LedgerStop.HasRun → Told (D.seen disk.old) (λ f. IsOpen f × (D.seen disk.new ≡ Some f)) }
    ensures only { (stop : LedgerStop) → IsErrOf result stop → (stop ≡ LedgerStop.HasRun) ⊎ (stop ≡ LedgerStop.DiskFault) }
    ensures cause { IsCaused (D.faults disk.old) (D.faults disk.new) result }
{
    sync_file(disk)?;
    if is_open(disk)? {
        return Err(LedgerStop::HasRun);
    }
    Ok(file_len(disk)?)
}

/// Makes a closed first gate where a file of this size, which has no run, has none.
fn first_gate<D: Disk>(disk: &mut D, size: u64) -> Result<(), Failed>
    ensures moments { Told (D.seen disk.old) (λ f. size ≡ length f → HasNoRun f → Only f (D.images disk.old)
        → LeavesOnly D.moment D.since disk.old disk.new HasNoRun) }
    ensures done { OnOk result (Told (D.seen disk.old) (λ f. size ≡ length f → HasNoRun f → Only f (D.images disk.old)
        → (g : List ℕ) × (D.seen disk.new ≡ Some g) × Records [] g × Only g (D.images disk.new))) }
    ensures cause { HasCause (D.faults disk.old) (D.faults disk.new) result }
{
    if size == 0 {
        return cut_synced(disk, 1);
    }
    Ok(())
}

/// Writes a record and a closed gate behind the closed gate at `end`, and once that is on the disk opens the gate.
pub(crate) fn write_record<D: Disk>(disk: &mut D, end: u64, bytes: &[u8]) -> Result<(), Failed>
    requires { end + 1 < 2 ^ 64 }
    // A crash at any moment leaves the records from before, with the new one or without.
    ensures moments { Told (D.seen disk.old) (λ f. (payloads : List (List ℕ)) (payload : List ℕ)
        → Stand payloads f end → IsShort payload → Only f (D.images disk.old) → bytes.now ≡ frame payload ++ 0 ∷ []
        → LeavesOnly D.moment D.since disk.old disk.new (RecordsOldOrNew payloads payload)) }
    ensures kept { OnOk result (Told (D.seen disk.old) (λ f. (payloads : List (List ℕ)) (payload : List ℕ)
        → Stand payloads f end → IsShort payload → bytes.now ≡ frame payload ++ 0 ∷ []
        → (g : List ℕ) × (D.seen disk.new ≡ Some g) × Only g (D.images disk.new) × Records (payloads ++ payload ∷ []) g)) }
    ensures cause { HasCause (D.faults disk.old) (D.faults disk.new) result }
{
    write_synced(disk, end + 1, bytes)?;
    write_synced(disk, end, &[OPEN])
}

/// Writes the first record of a file of this size, which has no run.
pub(crate) fn write_first<D: Disk>(disk: &mut D, size: u64, bytes: &[u8]) -> Result<(), Failed>
    ensures moments { Told (D.seen disk.old) (λ f. (payload : List ℕ)
        → size ≡ length f → HasNoRun f → IsShort payload → Only f (D.images disk.old) → bytes.now ≡ frame payload ++ 0 ∷ []
        → LeavesOnly D.moment D.since disk.old disk.new (λ c. HasNoRun c ⊎ Records (payload ∷ []) c)) }
    ensures kept { OnOk result (Told (D.seen disk.old) (λ f. (payload : List ℕ)
        → size ≡ length f → HasNoRun f → IsShort payload → Only f (D.images disk.old) → bytes.now ≡ frame payload ++ 0 ∷ []
        → (g : List ℕ) × (D.seen disk.new ≡ Some g) × Only g (D.images disk.new) × Records (payload ∷ []) g)) }
    ensures cause { HasCause (D.faults disk.old) (D.faults disk.new) result }
{
    first_gate(disk, size)?;
    write_record(disk, 0, bytes)
}
