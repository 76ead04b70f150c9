//! The number in digits of 64 bits.
ghost use Rattle.std.specs.Prelude.{◌≡◌, ◌<◌, ◌≤◌, ◌+◌};
ghost use Rattle.countdown.specs.Digits.{digits_value, enough};

use std::marker::Model;

/// A number that only falls, which contracts see as a whole number. A loop that lowers it at each turn has it as its
/// measure: what bounds the turns is said by an invariant, and running out needs no answer.
#[derive(Drop)]
pub struct Countdown {
    // the least first
    digits: [u64; 129],
}

impl Model for Countdown {
    ghost use Rattle.std.specs.Prelude.{ℕ};
    ghost use Rattle.countdown.specs.Digits.{digits_value};

    ghost Value = { ℕ };

    ghost view = { λ c. digits_value c.digits };
}

impl Countdown {
    /// A number of at least four steps for each set of rows that a cobasis can be.
    pub fn full() -> Countdown
        ensures { enough ≤ result }
    {
        Countdown {
            digits: [u64::MAX; 129],
        }
    }

    /// One less. It takes one step, but for one in 2^64.
    pub fn lower(&mut self)
        requires { 0 < self.old }
        ensures { self.old ≡ self.new + 1 }
    {
        lower_digits(&mut self.digits);
    }
}

// One less: digits that are 0 borrow from the next.
fn lower_digits(digits: &mut [u64])
    requires { 0 < digits_value digits.old }
    ensures { digits_value digits.old ≡ digits_value digits.new + 1 }
{
    'digits: for i in 0..digits.len() {
        if digits[i] != 0 {
            digits[i] -= 1;
            return;
        }
        digits[i] = u64::MAX;
    }
}
