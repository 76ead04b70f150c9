// Fractions in lowest terms.
ghost use Rattle.std.specs.Prelude.{◌≡◌, ◌↔◌, ◌<ℤ◌, IsNone, IfSome, pos};
ghost use Rattle.poly_num.specs.Fractions.{IsRatio, IsReduced, lowest};

use crate::{Num, gcd, neg, quotient};
use std::marker::Model;

/// A fraction in lowest terms with a positive denominator.
#[derive(Clone, Copy, PartialEq, Eq, Hash, Debug)]
pub struct Frac {
    num: Num,
    den: Num,
}

impl Model for Frac {
    ghost use Rattle.poly_num.specs.Fractions.{Fraction, IsReduced};

    ghost Value = { Fraction };

    ghost view = { λ f. record { num = f.num; den = f.den } };

    ghost invariant = { λ f. IsReduced (record { num = f.num; den = f.den }) };

    ghost inverse = { λ f. record { num = f.num; den = f.den } };
}

impl Frac {
    /// `num / den` in lowest terms; `None` exactly where `den` is 0.
    #[inline(always)]
    pub fn new(num: Num, den: Num) -> Option<Frac>
        ensures none { IsNone result ↔ (den ≡ pos 0) }
        ensures ratio { IfSome result (λ f. IsRatio f num den) }
        ensures value { IfSome result (λ f. f ≡ lowest num den) }
    {
        if den.is_positive() {
            Some(reduced(num, den))
        } else if neg(den).is_positive() {
            Some(reduced(neg(num), neg(den)))
        } else {
            None
        }
    }

    /// The numerator, which has the sign.
    pub fn num(self) -> Num
        ensures value { result ≡ self.num }
        ensures reduced { IsReduced self }
    {
        self.num
    }

    /// The denominator, which is positive.
    pub fn den(self) -> Num
        ensures value { result ≡ self.den }
        ensures reduced { IsReduced self }
    {
        self.den
    }
}

// The fraction for a positive denominator.
fn reduced(num: Num, den: Num) -> Frac
    requires { pos 0 <ℤ den }
    ensures { result ≡ lowest num den }
{
    let g = gcd(num, den);
    Frac {
        num: quotient(num, g),
        den: quotient(den, g),
    }
}
