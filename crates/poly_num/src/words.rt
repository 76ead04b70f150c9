// Numbers that fit a machine word: their products cannot pass, and take one machine product each.
ghost use Rattle.std.specs.List.{All};
ghost use Rattle.std.specs.Option.{IfSome};
ghost use Rattle.std.specs.Prelude.{◌≡◌, ◌↔◌, ◌*ℤ◌, ◌-ℤ◌, IsTrue};
ghost use Rattle.poly_num.specs.Numbers.{IsWord};

use crate::Num;
use crate::products::{difference, narrow_product};

/// Whether the size is at most `2^63 - 1`.
pub fn is_word(a: Num) -> bool
    ensures { IsTrue result ↔ IsWord a }
{
    a.value.unsigned_abs() < 1 << 63
}

/// Whether each entry has at most that size.
pub fn are_words(v: &[Num]) -> bool
    ensures { IsTrue result ↔ All IsWord v.now }
{
    v.iter().all(|a| is_word(*a))
}

/// `a b` of numbers of that size.
pub fn word_product(a: Num, b: Num) -> Num
    requires left { IsWord a }
    requires right { IsWord b }
    ensures { result ≡ a *ℤ b }
{
    narrow_product(narrow(a), narrow(b))
}

/// `a b - c d` of numbers of that size.
#[tactic(auto, using(crate::proofs::WordLemmas::words_cross))]
pub fn word_cross(a: Num, b: Num, c: Num, d: Num) -> Num
    requires a { IsWord a }
    requires b { IsWord b }
    requires c { IsWord c }
    requires d { IsWord d }
    ensures { result ≡ a *ℤ b -ℤ c *ℤ d }
{
    difference(
        narrow_product(narrow(a), narrow(b)),
        narrow_product(narrow(c), narrow(d)),
    )
}

// The number as a machine word.
pub(crate) fn narrow(a: Num) -> i64
    requires { IsWord a }
    ensures { result ≡ a }
{
    a.value as i64
}

// The word, where its size is at most `2^63 - 1`.
pub(crate) fn whole_word(a: i64) -> Option<i64>
    ensures { IfSome result (λ w. (w ≡ a) × IsWord w) }
{
    if a == i64::MIN { None } else { Some(a) }
}
