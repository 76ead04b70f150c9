// The numbers: an i128 other than the least one.
ghost use Rattle.std.specs.Option.{SomeIff};
ghost use Rattle.std.specs.Prelude.{◌≡◌, ◌<◌, ◌^◌, neg_ℤ, pos, unsigned_abs, if◌then◌else◌, ◌↔◌, IsTrue, ◌<ℤ◌};
ghost use Rattle.poly_num.specs.Numbers.{IsNum};

use std::marker::Model;

/// A whole number from `-(2^127 - 1)` to `2^127 - 1`, which contracts see as a whole number.
#[derive(Clone, Copy, PartialEq, Eq, PartialOrd, Ord, Hash, Debug)]
pub struct Num {
    pub(crate) value: i128,
}

impl Model for Num {
    ghost use Rattle.std.specs.Prelude.{ℤ};
    ghost use Rattle.poly_num.specs.Numbers.{IsNum};

    ghost Value = { ℤ };

    ghost view = { λ n. n.value };

    ghost invariant = { λ n. IsNum n.value };

    ghost inverse = { λ z. record { value = z } };
}

impl Num {
    /// The number 0.
    pub const ZERO: Num = Num { value: 0 };

    /// The number 1.
    pub const ONE: Num = Num { value: 1 };

    /// The number; `None` exactly for the least i128, whose size is `2^127`.
    pub fn new(value: i128) -> Option<Num>
        ensures { SomeIff result (IsNum value) value }
    {
        if value == i128::MIN {
            None
        } else {
            Some(Num { value })
        }
    }

    /// The number of this size, with a minus where `negative`.
    pub fn from_parts(negative: bool, size: u128) -> Num
        requires { size < 2 ^ 127 }
        ensures { result ≡ (if negative then neg_ℤ (pos size) else pos size) }
    {
        let value = size as i128;
        Num {
            value: if negative { -value } else { value },
        }
    }

    /// The number as an i128.
    pub fn get(self) -> i128
        ensures value { result ≡ self }
        ensures range { IsNum result }
    {
        self.value
    }

    /// The number without its sign.
    pub fn size(self) -> u128
        ensures value { result ≡ unsigned_abs self }
        ensures range { result < 2 ^ 127 }
    {
        self.value.unsigned_abs()
    }

    /// Whether the number is above 0.
    pub fn is_positive(self) -> bool
        ensures { IsTrue result ↔ (pos 0 <ℤ self) }
    {
        self.value > 0
    }
}
