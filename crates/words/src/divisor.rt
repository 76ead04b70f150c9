//! Exact division by one word again and again.
ghost use Rattle.std.specs.Option.{IfSome};
ghost use Rattle.std.specs.Prelude.{◌≡◌, ◌*ℤ◌, ◌-ℤ◌, ◌<ℤ◌, pos};

use crate::word::{Word, full_cross};
use std::marker::Model;

/// A positive word that divides, with what it takes to divide by it exactly. Where it divides a number with a
/// quotient of one word, two machine products give the quotient: the low word of the number without the
/// divisor's twos, times the inverse of the divisor's odd part modulo 2^64; and a product that tests it
/// (T. Jebelean, "An algorithm for exact division", 1993; T. Granlund and P. Montgomery, "Division by
/// invariant integers using multiplication", 1994).
#[derive(Drop)]
pub struct WordDivisor {
    pub(crate) value: i64,
    pub(crate) twos: u32,
    pub(crate) inverse: i64,
}

impl Model for WordDivisor {
    ghost use Rattle.std.specs.Prelude.{ℤ, pos, ◌<ℤ◌};

    ghost Value = { ℤ };

    ghost view = { λ d. d.value };

    ghost invariant = { λ d. pos 0 <ℤ d.value };
}

impl WordDivisor {
    /// The divisor `d`.
    pub fn new(d: Word) -> WordDivisor
        requires { pos 0 <ℤ d }
        ensures { result ≡ d }
    {
        let value = d.value;
        let twos = value.trailing_zeros() % 64;
        WordDivisor {
            value,
            twos,
            inverse: inverse_of(value >> twos),
        }
    }

    /// The divisor as a word.
    pub fn word(&self) -> Word
        ensures value { result ≡ self.now }
        ensures positive { pos 0 <ℤ self.now }
    {
        Word { value: self.value }
    }

    /// The same divisor, so that a loop can keep its parts in registers.
    #[inline(always)]
    pub fn copied(&self) -> WordDivisor
        ensures { result ≡ self.now }
    {
        WordDivisor {
            value: self.value,
            twos: self.twos,
            inverse: self.inverse,
        }
    }

    /// `a p - c b` over the divisor, where that is a word; `None` says nothing.
    #[inline(always)]
    pub fn exact_cross(&self, a: Word, p: Word, c: Word, b: Word) -> Option<Word>
        ensures { IfSome result (λ q. q *ℤ self.now ≡ a *ℤ p -ℤ c *ℤ b) }
    {
        self.tested_quotient(full_cross(a, p, c, b))
    }

    /// `a` over the divisor, where that divides it; `None` says nothing.
    #[inline(always)]
    pub fn exact(&self, a: Word) -> Option<Word>
        ensures quotient { IfSome result (λ q. q *ℤ self.now ≡ a) }
        ensures positive { pos 0 <ℤ self.now }
    {
        let _ = &self.value;
        self.tested_quotient(a.value as i128)
    }

    // The number over the divisor, where that is a word; `None` says nothing.
    #[inline(always)]
    fn tested_quotient(&self, n: i128) -> Option<Word>
        ensures { IfSome result (λ q. q *ℤ self.now ≡ n) }
    {
        let without_twos = (n >> (self.twos % 64)).cast_unsigned();
        let low = (without_twos & u64::MAX as u128) as u64;
        let guess = low.cast_signed().wrapping_mul(self.inverse);
        let q = tested_word(guess, self.value, n)?;
        Some(q)
    }
}

// The guess, where it is a word and its product with the divisor is `n`. It is quicker to test the product first.
#[inline(always)]
fn tested_word(guess: i64, divisor: i64, n: i128) -> Option<Word>
    ensures { IfSome result (λ q. q *ℤ divisor ≡ n) }
{
    if full_product(guess, divisor) != n {
        return None;
    }
    let q = word(guess)?;
    Some(q)
}

// `a b` in two words.
#[inline(always)]
fn full_product(a: i64, b: i64) -> i128
    ensures { result ≡ a *ℤ b }
{
    a as i128 * b as i128
}

// The word of this value, where it is one.
#[inline(always)]
pub(crate) fn word(value: i64) -> Option<Word>
    ensures { IfSome result (λ w. w ≡ value) }
{
    if value == i64::MIN {
        None
    } else {
        Some(Word { value })
    }
}

// The inverse of an odd number modulo 2^64. Five bits of the first guess are right, and each step doubles them.
fn inverse_of(odd: i64) -> i64 {
    let mut guess = odd.wrapping_mul(3) ^ 2;
    for _ in 0..4 {
        guess = doubled_bits(guess, odd);
    }
    guess
}

// One of Newton's steps: guess (2 - odd guess).
fn doubled_bits(guess: i64, odd: i64) -> i64 {
    guess.wrapping_mul(2_i64.wrapping_sub(odd.wrapping_mul(guess)))
}
