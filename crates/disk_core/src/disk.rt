//! The trait of one file that outlives a crash.
ghost use Rattle.std.specs.Prelude.{◌≡◌, ◌≤◌, ◌<◌, List, ℕ, Option, Some, length, take, drop, IfOk, OnOk};
ghost use Rattle.std.specs.Io.{ReadsAtMost};
ghost use Rattle.poly_io.specs.Causes.{HasCause};
ghost use Rattle.disk_core.specs.Contents.{Cut, Holds, Told, TornWithin, resized};
ghost use Rattle.disk_core.specs.Images.{ComesFrom, NothingNew, Only};
ghost use Rattle.disk_core.specs.Moments.{Elapses};

use poly_io::Failed;

/// One file. One that is not there is an empty one. After a failed call the file is attached again before it is used: of
/// what it then reads nothing is said but that it is an image. Content may be untold, as a real file's is; so what a clause
/// says of it stands under that premise, and no call asks for it.
pub trait Disk {
    /// The bytes that a read gives, where the disk tells them.
    ghost seen: { Self → Option (List ℕ) };

    /// The images: what a crash at this moment may leave.
    ghost images: { Self → List ℕ → Type 0 };

    /// The moment, as a number that does not fall.
    ghost moment: { Self → ℕ };

    /// What a crash at some moment from that one on might have left, within a call or between two.
    ghost since: { Self → ℕ → List ℕ → Type 0 };

    /// How often a call has failed. Past 2^64 - 1 failures the count may stand still.
    ghost faults: { Self → ℕ };

    /// Opens the file of that name, an empty one where there is none.
    fn attach(&mut self, name: &str) -> Result<(), Failed>
        ensures seen { OnOk result (seen self.new ≡ seen self.old) }
        ensures crash { NothingNew (images self.old) (images self.new) }
        ensures time { Elapses (moment self.old) (moment self.new) (since self.old) (since self.new) (images self.new) }
        ensures cause { HasCause (faults self.old) (faults self.new) result };

    /// How many bytes the file has.
    fn len(&mut self) -> Result<u64, Failed>
        ensures len { IfOk result (λ n. Told (seen self.old) (λ f. n ≡ length f)) }
        ensures seen { seen self.new ≡ seen self.old }
        ensures crash { NothingNew (images self.old) (images self.new) }
        ensures time { Elapses (moment self.old) (moment self.new) (since self.old) (since self.new) (images self.new) }
        ensures cause { HasCause (faults self.old) (faults self.new) result };

    /// Reads bytes from an offset on to the front of `buf`, and answers how many they are. Fewer than `buf` has room for is
    /// no sign of the end: 0 bytes into a nonempty `buf` are. A failed call may leave anything in `buf`.
    fn read(&mut self, at: u64, buf: &mut [u8]) -> Result<usize, Failed>
        ensures bound { ReadsAtMost result buf.new }
        ensures bytes { IfOk result (λ n. Told (seen self.old) (λ f. take n buf.new ≡ take n (drop at f))) }
        ensures end { IfOk result (λ n. n ≡ 0 → 0 < length buf.new → Told (seen self.old) (λ f. length f ≤ at)) }
        ensures seen { seen self.new ≡ seen self.old }
        ensures crash { NothingNew (images self.old) (images self.new) }
        ensures time { Elapses (moment self.old) (moment self.new) (since self.old) (since self.new) (images self.new) }
        ensures cause { HasCause (faults self.old) (faults self.new) result };

    /// Writes all the bytes at an offset within the file or at its end. Until the next sync a crash may tear them.
    fn write_at(&mut self, at: u64, bytes: &[u8]) -> Result<(), Failed>
        ensures written { OnOk result (Told (seen self.old) (λ f. at ≤ length f
            → (g : List ℕ) × (seen self.new ≡ Some g) × Holds f at bytes.now g)) }
        ensures crash { ComesFrom (TornWithin at (length bytes.now)) (images self.old) (images self.new) }
        ensures time { Elapses (moment self.old) (moment self.new) (since self.old) (since self.new) (images self.new) }
        ensures cause { HasCause (faults self.old) (faults self.new) result };

    /// Gives the file this length: its first bytes, or zeros behind it. Until the next sync a crash leaves it cut or not.
    fn cut(&mut self, len: u64) -> Result<(), Failed>
        ensures cut { OnOk result (Told (seen self.old) (λ f. seen self.new ≡ Some (resized len f))) }
        ensures crash { ComesFrom (Cut len) (images self.old) (images self.new) }
        ensures time { Elapses (moment self.old) (moment self.new) (since self.old) (since self.new) (images self.new) }
        ensures cause { HasCause (faults self.old) (faults self.new) result };

    /// After a sync that succeeds a crash leaves what is read.
    fn sync(&mut self) -> Result<(), Failed>
        ensures durable { OnOk result (Told (seen self.old) (λ f. (seen self.new ≡ Some f) × Only f (images self.new))) }
        ensures crash { NothingNew (images self.old) (images self.new) }
        ensures time { Elapses (moment self.old) (moment self.new) (since self.old) (since self.new) (images self.new) }
        ensures cause { HasCause (faults self.old) (faults self.new) result };

    /// What is read is an image.
    ghost reads_an_image: { (disk : Self) (f : List ℕ) → seen disk ≡ Some f → images disk f };

    /// An image of now is one since any earlier moment.
    ghost counts_now: { (disk : Self) (t : ℕ) (c : List ℕ) → t ≤ moment disk → images disk c → since disk t c };

    /// Since now there is no other.
    ghost only_now: { (disk : Self) (c : List ℕ) → since disk (moment disk) c → images disk c };
}
