//! Wide numbers by which many are multiplied or divided.
ghost use Rattle.std.specs.Option.{IfSome};
ghost use Rattle.std.specs.Prelude.{◌≡◌, ◌<◌, ◌*◌, ◌^◌, ◌*ℤ◌, ◌-ℤ◌, ◌<ℤ◌, pos, unsigned_abs, IsTrue};
ghost use Rattle.poly_num.specs.Divisors.{IsGcdOf};

use crate::common::{common_with, is_one};
use poly_num::{Num, cross, known_cross, known_product, mul};
use std::marker::Model;

/// A number, with a size up to which its products with others are known to have at most 126 bits.
#[derive(Drop)]
pub struct Multiplier {
    number: Num,
    limit: u128,
}

impl Model for Multiplier {
    ghost use Rattle.std.specs.Prelude.{ℤ, unsigned_abs, ◌<◌, ◌*◌, ◌^◌};

    ghost Value = { ℤ };

    ghost view = { λ m. m.number };

    ghost invariant = { λ m. m.limit * unsigned_abs m.number < 2 ^ 126 };
}

impl Multiplier {
    /// The multiplier of this value.
    pub(crate) fn new(number: Num) -> Multiplier
        ensures { result ≡ number }
    {
        Multiplier {
            number,
            limit: limit_beside(number.size()),
        }
    }

    // The same multiplier, so that a loop can keep it in registers.
    #[inline(always)]
    fn copied(&self) -> Multiplier
        ensures { result ≡ self.now }
    {
        Multiplier {
            number: self.number,
            limit: self.limit,
        }
    }

    // The multiplier as a number.
    #[inline(always)]
    fn number(&self) -> Num
        ensures { result ≡ self.now }
    {
        self.number
    }

    // Whether the product with a number is known to be small.
    #[inline(always)]
    fn takes(&self, a: Num) -> bool
        ensures { IsTrue result → unsigned_abs (a *ℤ self.now) < 2 ^ 126 }
    {
        a.size() <= self.limit
    }
}

// A size up to which products with a number of this size have at most 126 bits.
fn limit_beside(size: u128) -> u128
    ensures { result * size < 2 ^ 126 }
{
    let bits = 128_u32.saturating_sub(size.leading_zeros());
    let limit = ((1_u128 << 126) - 1) >> (bits % 128);
    match limit.checked_mul(size) {
        Some(product) if product < 1 << 126 => limit,
        _ => 0,
    }
}

// `a p`, where it has 127 bits; `None` says nothing.
#[inline(always)]
fn product_by(a: Num, p: &Multiplier) -> Option<Num>
    ensures { IfSome result (λ n. n ≡ a *ℤ p.now) }
{
    if p.takes(a) {
        return Some(known_product(a, p.number()));
    }
    let n = mul(a, p.number())?;
    Some(n)
}

// `a p - c b`, where the two products and the difference have 127 bits; `None` says nothing.
#[inline(always)]
fn cross_by(a: Num, p: &Multiplier, c: Num, b: &Multiplier) -> Option<Num>
    ensures { IfSome result (λ n. n ≡ a *ℤ p.now -ℤ c *ℤ b.now) }
{
    if p.takes(a) && b.takes(c) {
        return Some(known_cross(a, p.number(), c, b.number()));
    }
    let n = cross(a, p.number(), c, b.number())?;
    Some(n)
}

/// A positive divisor, with what it takes to divide by it exactly. Where it divides a number, the quotient is the
/// number without the divisor's twos, times the inverse of the divisor's odd part modulo 2^128; and a product tests
/// it. Words has the same for a divisor of one word.
#[derive(Drop)]
pub struct WideDivisor {
    divisor: Multiplier,
    twos: u32,
    inverse: u128,
}

impl Model for WideDivisor {
    ghost use Rattle.std.specs.Prelude.{ℤ, pos, ◌<ℤ◌};

    ghost Value = { ℤ };

    ghost view = { λ d. d.divisor };

    ghost invariant = { λ d. pos 0 <ℤ d.divisor };
}

impl WideDivisor {
    /// The divisor `d`.
    pub(crate) fn new(d: Num) -> WideDivisor
        requires { pos 0 <ℤ d }
        ensures { result ≡ d }
    {
        let size = d.size();
        let twos = size.trailing_zeros() % 128;
        WideDivisor {
            divisor: Multiplier::new(d),
            twos,
            inverse: inverse_of(size >> twos),
        }
    }

    /// The divisor as a number.
    #[inline(always)]
    pub(crate) fn number(&self) -> Num
        ensures value { result ≡ self.now }
        ensures positive { pos 0 <ℤ self.now }
    {
        let _ = &self.divisor;
        self.divisor.number()
    }

    /// The same divisor, so that a loop can keep its parts in registers.
    #[inline(always)]
    pub(crate) fn copied(&self) -> WideDivisor
        ensures { result ≡ self.now }
    {
        WideDivisor {
            divisor: self.divisor.copied(),
            twos: self.twos,
            inverse: self.inverse,
        }
    }

    /// `a p - c b` over the divisor, where that divides it and the two products and the difference have 127 bits;
    /// `None` says nothing.
    #[inline(always)]
    pub(crate) fn exact_cross(&self, a: Num, p: &Multiplier, c: Num, b: &Multiplier) -> Option<Num>
        ensures { IfSome result (λ q. q *ℤ self.now ≡ a *ℤ p.now -ℤ c *ℤ b.now) }
    {
        let n = cross_by(a, p, c, b)?;
        let q = self.exact(n)?;
        Some(q)
    }

    // `n` over the divisor, where that divides it; `None` says nothing. By 1 nothing is divided.
    #[inline(always)]
    fn exact(&self, n: Num) -> Option<Num>
        ensures quotient { IfSome result (λ q. q *ℤ self.now ≡ n) }
        ensures positive { pos 0 <ℤ self.now }
    {
        let _ = &self.divisor;
        if is_one(self.divisor.number()) {
            return Some(n);
        }
        let guess = self.guess(n)?;
        tested(guess, &self.divisor, n)
    }

    // What `n` over the divisor is, if that is a whole number.
    #[inline(always)]
    fn guess(&self, n: Num) -> Option<Num> {
        let without_twos = (n.get() >> (self.twos % 128)).cast_unsigned();
        Num::new(without_twos.wrapping_mul(self.inverse).cast_signed())
    }
}

/// The greatest common divisor of a divisor and a number; no division is made where the first divides.
#[inline(always)]
pub(crate) fn shared_divisor(divisor: WideDivisor, n: Num) -> WideDivisor
    ensures { IsGcdOf divisor n result }
{
    match divisor.exact(n) {
        Some(_) => divisor,
        None => less_divisor(&divisor, n),
    }
}

// The same where it does not divide.
#[cold]
#[inline(never)]
fn less_divisor(divisor: &WideDivisor, n: Num) -> WideDivisor
    ensures { IsGcdOf divisor.now n result }
{
    let common = common_with(divisor.number(), n);
    WideDivisor::new(common)
}

// The guess, where its product with the divisor is `n`.
#[inline(always)]
fn tested(guess: Num, divisor: &Multiplier, n: Num) -> Option<Num>
    ensures { IfSome result (λ q. q *ℤ divisor.now ≡ n) }
{
    match product_by(guess, divisor) {
        Some(product) if product == n => Some(guess),
        _ => None,
    }
}

// The inverse of an odd number modulo 2^128. Five bits of the first guess are right, and each step doubles them.
fn inverse_of(odd: u128) -> u128 {
    let mut guess = odd.wrapping_mul(3) ^ 2;
    for _ in 0..5 {
        guess = guess.wrapping_mul(2_u128.wrapping_sub(odd.wrapping_mul(guess)));
    }
    guess
}
