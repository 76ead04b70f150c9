//! One step and the sync after it: a crash within it leaves the file as it was, changed, or on the way.
ghost use Rattle.std.specs.Prelude.{◌≡◌, ◌≤◌, List, ℕ, Some, length, OnOk};
ghost use Rattle.poly_io.specs.Causes.{HasCause};
ghost use Rattle.disk_core.specs.Contents.{Cut, Holds, Told, Torn, resized};
ghost use Rattle.disk_core.specs.Images.{Only};
ghost use Rattle.disk_core.specs.Moments.{LeavesOnly};

use crate::Disk;
use poly_io::Failed;

/// Writes and syncs. An image of the call has the range torn at most.
pub fn write_synced<D: Disk>(disk: &mut D, at: u64, bytes: &[u8]) -> Result<(), Failed>
    ensures moments { Told (D.seen disk.old) (λ f. at ≤ length f → Only f (D.images disk.old)
        → LeavesOnly D.moment D.since disk.old disk.new (Torn at (length bytes.now) f)) }
    ensures done { OnOk result (Told (D.seen disk.old) (λ f. at ≤ length f
        → (g : List ℕ) × (D.seen disk.new ≡ Some g) × Holds f at bytes.now g × Only g (D.images disk.new))) }
    ensures cause { HasCause (D.faults disk.old) (D.faults disk.new) result }
{
    disk.write_at(at, bytes)?;
    disk.sync()
}

/// Cuts and syncs. An image of the call is cut or not.
pub fn cut_synced<D: Disk>(disk: &mut D, len: u64) -> Result<(), Failed>
    ensures moments { Told (D.seen disk.old) (λ f. Only f (D.images disk.old)
        → LeavesOnly D.moment D.since disk.old disk.new (Cut len f)) }
    ensures done { OnOk result (Told (D.seen disk.old) (λ f. (D.seen disk.new ≡ Some (resized len f)) × Only (resized len f) (D.images disk.new))) }
    ensures cause { HasCause (D.faults disk.old) (D.faults disk.new) result }
{
    disk.cut(len)?;
    disk.sync()
}
