// Exact division by one number again and again.
ghost use Rattle.std.specs.Option.{SomeIff, IfSome};
ghost use Rattle.std.specs.Prelude.{◌≡◌, ◌*ℤ◌, ◌-ℤ◌, ◌<ℤ◌, pos, unsigned_abs, int_div};
ghost use Rattle.poly_num.specs.Halves.{IsHalf};
ghost use Rattle.poly_num.specs.Numbers.{IsWord};
ghost use Prim.Native.Nat.{◌∣◌};

use crate::halves::{half_cross, half_product, half_word};
use crate::products::narrow_product;
use crate::words::{narrow, whole_word};
use crate::{Num, quotient};
use std::marker::Model;

/// A positive divisor of at most 63 bits. Where it divides a number with a quotient of 64 bits, the
/// quotient is found with two machine products: the number's low word without the divisor's twos,
/// times the inverse of the divisor's odd part modulo 2^64, and a product that tests it.
#[derive(Drop)]
pub struct Divisor {
    value: i64,
    twos: u32,
    inverse: u64,
}

impl Model for Divisor {
    ghost use Rattle.std.specs.Prelude.{ℤ, pos, ◌<ℤ◌};

    ghost Value = { ℤ };

    ghost view = { λ d. d.value };

    ghost invariant = { λ d. pos 0 <ℤ d.value };
}

impl Divisor {
    /// The divisor `d`.
    pub fn new(d: Num) -> Divisor
        requires positive { pos 0 <ℤ d }
        requires word { IsWord d }
        ensures { result ≡ d }
    {
        let value = narrow(d);
        let twos = value.trailing_zeros() % 64;
        Divisor {
            value,
            twos,
            inverse: inverse_of(value.cast_unsigned() >> twos),
        }
    }

    /// The divisor as a number.
    pub fn value(&self) -> Num
        ensures value { result ≡ self.now }
        ensures positive { pos 0 <ℤ self.now }
    {
        Num {
            value: self.value as i128,
        }
    }

    /// The number `n` over the divisor; `None` exactly where it does not divide `n`.
    pub fn exact(&self, n: Num) -> Option<Num>
        ensures { SomeIff result (unsigned_abs self.now ∣ unsigned_abs n) (int_div n self.now) }
    {
        let d = self.value();
        match self.exact_word(n) {
            Some(q) => Some(q),
            None => divided(n, d),
        }
    }

    /// `a b - c d` over the divisor, where all that it takes fits half a word; `None` says nothing. No
    /// product takes more than 64 bits, and nothing is tested but the size of `a` and of the quotient.
    pub fn exact_half(&self, a: Num, b: Num, c: Num, d: Num) -> Option<Num>
        requires divisor { IsHalf self.now }
        requires a { IsWord a }
        requires b { IsHalf b }
        requires c { IsHalf c }
        requires d { IsHalf d }
        ensures { IfSome result (λ q. (q *ℤ self.now ≡ a *ℤ b -ℤ c *ℤ d) × IsHalf q) }
    {
        let x = half_word(narrow(a))?;
        let n = half_cross(x, narrow(b), narrow(c), narrow(d));
        let q = self.half_guess(n)?;
        Some(q)
    }

    // A quotient of half a word, where that is right.
    fn half_guess(&self, n: i64) -> Option<Num>
        requires { IsHalf self.now }
        ensures { IfSome result (λ q. (q *ℤ self.now ≡ n) × IsHalf q) }
    {
        let without_twos = (n >> (self.twos % 64)).cast_unsigned();
        let q = without_twos.wrapping_mul(self.inverse).cast_signed();
        let half = half_word(q)?;
        if half_product(half, self.value) == n {
            Some(Num {
                value: half as i128,
            })
        } else {
            None
        }
    }

    /// The number `n` over the divisor, where the quotient fits a machine word; `None` says nothing.
    pub fn exact_word(&self, n: Num) -> Option<Num>
        ensures { IfSome result (λ q. (q *ℤ self.now ≡ n) × IsWord q) }
    {
        let without_twos = n.value.cast_unsigned() >> (self.twos % 64);
        let low = (without_twos & u64::MAX as u128) as u64;
        let q = low.wrapping_mul(self.inverse).cast_signed();
        let word = whole_word(q)?;
        if narrow_product(word, self.value) == n {
            Some(Num {
                value: word as i128,
            })
        } else {
            None
        }
    }
}

// `n / d`, where that is a whole number.
fn divided(n: Num, d: Num) -> Option<Num>
    requires { pos 0 <ℤ d }
    ensures { SomeIff result (unsigned_abs d ∣ unsigned_abs n) (int_div n d) }
{
    if n.size() % d.size() == 0 {
        Some(quotient(n, d))
    } else {
        None
    }
}

// The inverse of an odd number modulo 2^64, by Newton's steps: each doubles the bits that are right.
fn inverse_of(odd: u64) -> u64 {
    let mut inverse = odd.wrapping_mul(3) ^ 2;
    for _ in 0..4 {
        let error = 2_u64.wrapping_sub(odd.wrapping_mul(inverse));
        inverse = inverse.wrapping_mul(error);
    }
    inverse
}
