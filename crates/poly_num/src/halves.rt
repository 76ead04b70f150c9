// Numbers that fit half a machine word: their products take one machine word.
ghost use Rattle.std.specs.Int.{w64};
ghost use Rattle.std.specs.List.{All};
ghost use Rattle.std.specs.Option.{IfSome};
ghost use Rattle.std.specs.Prelude.{◌≡◌, ◌↔◌, ◌*ℤ◌, ◌-ℤ◌, IsTrue, FitsSigned};
ghost use Rattle.poly_num.specs.Halves.{IsHalf};

use crate::Num;

/// Whether the size is at most `2^31 - 1`.
pub fn is_half(a: Num) -> bool
    ensures { IsTrue result ↔ IsHalf a }
{
    a.value.unsigned_abs() < 1 << 31
}

/// Whether each entry has at most that size.
pub fn are_halves(v: &[Num]) -> bool
    ensures { IsTrue result ↔ All IsHalf v.now }
{
    v.iter().all(|a| is_half(*a))
}

// The word, where it has at most that size.
pub(crate) fn half_word(a: i64) -> Option<i64>
    ensures { IfSome result (λ h. (h ≡ a) × IsHalf h) }
{
    if -(1 << 31) < a && a < 1 << 31 {
        Some(a)
    } else {
        None
    }
}

// `a b`.
pub(crate) fn half_product(a: i64, b: i64) -> i64
    requires a { IsHalf a }
    requires b { IsHalf b }
    ensures { result ≡ a *ℤ b }
{
    a * b
}

// `a b - c d`.
#[tactic(auto, using(crate::proofs::HalfLemmas::halves_cross))]
pub(crate) fn half_cross(a: i64, b: i64, c: i64, d: i64) -> i64
    requires a { IsHalf a }
    requires b { IsHalf b }
    requires c { IsHalf c }
    requires d { IsHalf d }
    ensures { result ≡ a *ℤ b -ℤ c *ℤ d }
{
    word_difference(half_product(a, b), half_product(c, d))
}

// `a - b`, where it is known to fit.
fn word_difference(a: i64, b: i64) -> i64
    requires { FitsSigned w64 (a -ℤ b) }
    ensures { result ≡ a -ℤ b }
{
    a - b
}
