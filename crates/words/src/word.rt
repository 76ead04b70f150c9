//! Whole numbers of one machine word, and their products.
ghost use Rattle.std.specs.Option.{IfSome, SomeIff};
ghost use Rattle.std.specs.Prelude.{◌≡◌, ◌*ℤ◌, ◌-ℤ◌, ◌↔◌, neg_ℤ, IsTrue};
ghost use Rattle.poly_num.specs.Halves.{IsHalf};
ghost use Rattle.poly_num.specs.Numbers.{IsNum, IsWord};
ghost use Rattle.words.specs.Small.{IsSmall};

use poly_num::{Num, is_half, is_word};
use std::marker::Model;

/// A whole number from `-(2^63 - 1)` to `2^63 - 1`, which contracts see as a whole number.
#[derive(Clone, Copy, PartialEq, Eq, Debug)]
pub struct Word {
    pub(crate) value: i64,
}

impl Model for Word {
    ghost use Rattle.std.specs.Prelude.{ℤ};
    ghost use Rattle.poly_num.specs.Numbers.{IsWord};

    ghost Value = { ℤ };

    ghost view = { λ n. n.value };

    ghost invariant = { λ n. IsWord n.value };

    ghost inverse = { λ z. record { value = z } };
}

impl Word {
    /// The word 0.
    pub const ZERO: Word = Word { value: 0 };

    /// The word 1.
    pub const ONE: Word = Word { value: 1 };

    /// The word -1.
    pub const MINUS_ONE: Word = Word { value: -1 };

    /// The word as a number.
    #[inline(always)]
    pub fn wide(self) -> Num
        ensures value { result ≡ self }
        ensures word { IsWord result }
    {
        number(self.value as i128)
    }

    /// The number as a word; `None` exactly where it is none.
    #[inline(always)]
    pub fn of(n: Num) -> Option<Word>
        ensures { SomeIff result (IsWord n) n }
    {
        if is_word(n) {
            Some(Word {
                value: n.get() as i64,
            })
        } else {
            None
        }
    }

    /// The word with the other sign.
    #[inline(always)]
    pub fn negated(self) -> Word
        ensures { result ≡ neg_ℤ self }
    {
        Word { value: -self.value }
    }

    /// Whether the word is small: its size is at most `2^14 - 1`.
    #[inline(always)]
    pub fn is_small(self) -> bool
        ensures { IsTrue result ↔ IsSmall self }
    {
        self.value.unsigned_abs() < 1 << 14
    }

    /// Whether the word fits half a machine word.
    #[inline(always)]
    pub fn is_half(self) -> bool
        ensures { IsTrue result ↔ IsHalf self }
    {
        is_half(self.wide())
    }
}

/// `a b`; `None` where that is no word.
#[inline(always)]
pub fn product(a: Word, b: Word) -> Option<Word>
    ensures { IfSome result (λ w. w ≡ a *ℤ b) }
{
    narrowed(whole_product(a, b))
}

/// `a p - c b` as a number.
#[tactic(auto, using(poly_num::proofs::WordLemmas::words_cross))]
pub fn wide_cross(a: Word, p: Word, c: Word, b: Word) -> Num
    ensures { result ≡ a *ℤ p -ℤ c *ℤ b }
{
    number(full_cross(a, p, c, b))
}

// `a b` in two words.
#[inline(always)]
fn whole_product(a: Word, b: Word) -> i128
    ensures { result ≡ a *ℤ b }
{
    a.value as i128 * b.value as i128
}

// `a p - c b` in two words, which are always enough.
#[inline(always)]
#[tactic(auto, using(poly_num::proofs::WordLemmas::words_cross))]
pub(crate) fn full_cross(a: Word, p: Word, c: Word, b: Word) -> i128
    ensures { result ≡ a *ℤ p -ℤ c *ℤ b }
{
    full_difference(whole_product(a, p), whole_product(c, b))
}

// `a - b`, where it is known to fit.
#[inline(always)]
fn full_difference(a: i128, b: i128) -> i128
    requires { IsNum (a -ℤ b) }
    ensures { result ≡ a -ℤ b }
{
    a - b
}

// The word of this value, where it is one.
#[inline(always)]
fn narrowed(n: i128) -> Option<Word>
    ensures { IfSome result (λ w. w ≡ n) }
{
    if n.unsigned_abs() < 1 << 63 {
        Some(Word { value: n as i64 })
    } else {
        None
    }
}

// The number of this value.
#[inline(always)]
fn number(n: i128) -> Num
    requires { IsNum n }
    ensures { result ≡ n }
{
    match Num::new(n) {
        Some(z) => z,
        None => Num::ZERO,
    }
}
