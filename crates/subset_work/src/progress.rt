//! How far a walk has come, and where it gives keys back in place of visiting them.
ghost use Rattle.std.specs.Prelude.{◌⊎◌, ◌≤◌, ◌<◌, IsTrue, IsFalse};

use poly_model::Count;

/// At most so many bases are visited, and keys of this length are given back; what was counted until now.
#[derive(Clone, Copy, PartialEq, Eq, Debug)]
pub struct Progress {
    pub most: u64,
    pub longest: u64,
    pub count: Count,
}

/// Whether a key of this length is given back.
pub fn stops(so_far: &Progress, len: usize) -> bool
    ensures back { IsTrue result → (so_far.now.most ≤ so_far.now.count.bases) ⊎ (so_far.now.longest ≤ len) }
    ensures on { IsFalse result → (so_far.now.count.bases < so_far.now.most) × (len < so_far.now.longest) }
{
    so_far.count.bases >= so_far.most || len as u64 >= so_far.longest
}
