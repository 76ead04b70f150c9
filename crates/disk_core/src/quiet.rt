//! Calls of a disk that make no new image, with clauses on every moment within them.
ghost use Rattle.std.specs.Prelude.{◌≡◌, ◌≤◌, ◌<◌, ◌+◌, ◌^◌, List, ℕ, Some, length, take, drop, IfOk, OnOk};
ghost use Rattle.poly_io.specs.Causes.{HasCause};
ghost use Rattle.disk_core.specs.Contents.{Told};
ghost use Rattle.disk_core.specs.Images.{NothingNew, Only};
ghost use Rattle.disk_core.specs.Moments.{IsQuiet, LeavesOnly};

use crate::Disk;
use poly_io::Failed;

/// How many bytes the file has.
pub fn file_len<D: Disk>(disk: &mut D) -> Result<u64, Failed>
    ensures quiet { IsQuiet D.seen D.images D.moment D.since disk.old disk.new }
    ensures len { IfOk result (λ n. Told (D.seen disk.old) (λ f. n ≡ length f)) }
    ensures cause { HasCause (D.faults disk.old) (D.faults disk.new) result }
{
    disk.len()
}

/// Makes what is read the one image.
pub fn sync_file<D: Disk>(disk: &mut D) -> Result<(), Failed>
    ensures durable { OnOk result (Told (D.seen disk.old) (λ f. (D.seen disk.new ≡ Some f) × Only f (D.images disk.new))) }
    ensures crash { NothingNew (D.images disk.old) (D.images disk.new) }
    ensures leaves { LeavesOnly D.moment D.since disk.old disk.new (D.images disk.old) }
    ensures cause { HasCause (D.faults disk.old) (D.faults disk.new) result }
{
    disk.sync()
}

/// Reads some bytes from an offset on.
fn read_some<D: Disk>(disk: &mut D, at: u64, buf: &mut [u8]) -> Result<usize, Failed>
    ensures quiet { IsQuiet D.seen D.images D.moment D.since disk.old disk.new }
    ensures kept { length buf.new ≡ length buf.old }
    ensures bound { IfOk result (λ n. n ≤ length buf.new) }
    ensures bytes { IfOk result (λ n. Told (D.seen disk.old) (λ f. take n buf.new ≡ take n (drop at f))) }
    ensures end { IfOk result (λ n. n ≡ 0 → 0 < length buf.new → Told (D.seen disk.old) (λ f. length f ≤ at)) }
    ensures cause { HasCause (D.faults disk.old) (D.faults disk.new) result }
{
    disk.read(at, buf)
}

/// Reads from an offset on until `buf` is full or the file ends, and answers how many bytes were read.
pub fn read_full<D: Disk>(disk: &mut D, at: u64, buf: &mut [u8]) -> Result<usize, Failed>
    requires { at + length buf.old < 2 ^ 64 }
    ensures quiet { IsQuiet D.seen D.images D.moment D.since disk.old disk.new }
    ensures kept { length buf.new ≡ length buf.old }
    ensures bound { IfOk result (λ n. n ≤ length buf.new) }
    ensures bytes { IfOk result (λ n. Told (D.seen disk.old) (λ f. take n buf.new ≡ take (length buf.new) (drop at f))) }
    ensures cause { HasCause (D.faults disk.old) (D.faults disk.new) result }
{
    let mut done = 0;
    'pieces: while done < buf.len() {
        let count = read_some(disk, at + done as u64, &mut buf[done..])?;
        if count == 0 {
            return Ok(done);
        }
        done += count;
    }
    Ok(done)
}
