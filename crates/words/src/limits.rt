//! How large many words are at most.
ghost use Rattle.std.specs.Prelude.{◌≤◌, ◌+◌, length, unsigned_abs};
ghost use Rattle.words.specs.Limits.{AreUpTo};

use crate::word::Word;

/// A limit that no size of `count` words from place `base` on passes: the bits of all of them together.
#[inline(never)]
pub fn limit_of(words: &[Word], base: usize, count: usize) -> u64
    requires { base + count ≤ length words.now }
    ensures { AreUpTo result base count words.now }
{
    let mut limit = 0;
    // no size of the words before base + k passes the limit
    'words: for k in 0..count {
        let word = words[base + k];
        limit = with_size(limit, word.value);
    }
    limit
}

// The limit, and the bits of one more number.
#[inline(always)]
pub(crate) fn with_size(limit: u64, z: i64) -> u64
    ensures before { limit ≤ result }
    ensures size { unsigned_abs z ≤ result }
{
    limit | z.unsigned_abs()
}
