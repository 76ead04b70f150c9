//! How large cells are known to be.
ghost use Rattle.std.specs.Prelude.{◌≤◌, ◌<◌, ◌+◌, ℕ, ℤ, IsTrue, pos, length, unsigned_abs};
ghost use Rattle.std.specs.List.{slice_index_or};
ghost use Rattle.poly_num.specs.Halves.{IsHalf};
ghost use Rattle.words.specs.Limits.{AreUpTo};
ghost use Rattle.words.specs.Small.{IsSmall};
ghost use Rattle.columns.specs.Sizes.{IsOf, AreOf};

use crate::exchange::at_place;
use words::{Word, limit_of};

/// What is known of the sizes of cells: nothing but that they are words, or that all of them fit half a machine word, or
/// that all are small (`Word::is_small`).
#[derive(Clone, Copy, PartialEq, Eq, Debug)]
pub enum Size {
    Words,
    Halves,
    Small,
}

/// What is known of the numbers of both.
pub(crate) fn common_size(first: Size, second: Size) -> Size
    ensures first { (z : ℤ) → IsOf first z → IsOf result z }
    ensures second { (z : ℤ) → IsOf second z → IsOf result z }
{
    match first {
        Size::Words => Size::Words,
        Size::Halves => half_at_most(second),
        Size::Small => second,
    }
}

// What is known of the numbers of a size and of halves.
fn half_at_most(size: Size) -> Size
    ensures halves { (z : ℤ) → IsHalf z → IsOf result z }
    ensures size { (z : ℤ) → IsOf size z → IsOf result z }
{
    match size {
        Size::Words => Size::Words,
        Size::Halves => Size::Halves,
        Size::Small => Size::Halves,
    }
}

/// Whether numbers of this size are known to be small.
pub(crate) fn is_small(size: Size) -> bool
    ensures { IsTrue result → (z : ℤ) → IsOf size z → IsSmall z }
{
    match size {
        Size::Small => true,
        Size::Halves => false,
        Size::Words => false,
    }
}

/// Whether numbers of this size are known to fit half a machine word.
pub(crate) fn is_half(size: Size) -> bool
    ensures { IsTrue result → (z : ℤ) → IsOf size z → IsHalf z }
{
    match size {
        Size::Small => true,
        Size::Halves => true,
        Size::Words => false,
    }
}

/// The least size of a word.
pub(crate) fn size_of(z: Word) -> Size
    ensures { IsOf result z }
{
    if z.is_small() {
        Size::Small
    } else if z.is_half() {
        Size::Halves
    } else {
        Size::Words
    }
}

// Whether the word is of this size.
fn is_of(size: Size, z: Word) -> bool
    ensures { IsTrue result → IsOf size z }
{
    match size {
        Size::Words => true,
        Size::Halves => z.is_half(),
        Size::Small => z.is_small(),
    }
}

// Whether all words are of this size.
fn are_of(size: Size, words: &[Word]) -> bool
    ensures { IsTrue result → AreOf size (length words.now) words.now }
{
    // all words before k are of this size
    'cells: for k in 0..words.len() {
        if !is_of(size, at_place(words, k)) {
            return false;
        }
    }
    true
}

/// The least size that all words have, where one is known; it is not looked for where nothing can be gained.
pub(crate) fn size_of_all(known: Size, words: &[Word]) -> Size
    requires { AreOf known (length words.now) words.now }
    ensures { AreOf result (length words.now) words.now }
{
    if is_small(known) {
        return known;
    }
    if are_of(Size::Small, words) {
        return Size::Small;
    }
    if is_half(known) {
        return known;
    }
    if are_of(Size::Halves, words) {
        return Size::Halves;
    }
    known
}

/// The least size of numbers up to this limit.
pub(crate) fn size_up_to(limit: u64) -> Size
    ensures { (z : ℤ) → unsigned_abs z ≤ limit → IsOf result z }
{
    if limit < 1 << 14 {
        Size::Small
    } else if limit < 1 << 31 {
        Size::Halves
    } else {
        Size::Words
    }
}

/// A limit that no size of `count` words from place `base` on passes, where their size is known; they are looked at only
/// where that is none.
pub(crate) fn limit_within(known: Size, words: &[Word], base: usize, count: usize) -> u64
    requires within { base + count ≤ length words.now }
    requires known { (k : ℕ) → k < count → IsOf known (slice_index_or words.now (base + k) (pos 0)) }
    ensures { AreUpTo result base count words.now }
{
    match known {
        Size::Small => (1 << 14) - 1,
        Size::Halves => (1 << 31) - 1,
        Size::Words => limit_of(words, base, count),
    }
}
