// Products, and the difference of two products.
ghost use Rattle.std.specs.Int.{w64};
ghost use Rattle.std.specs.Option.{SomeIff};
ghost use Rattle.std.specs.Prelude.{◌≡◌, ◌*ℤ◌, ◌-ℤ◌, ◌^◌, ◌<ℤ◌, ◌≤ℤ◌, neg_ℤ, pos, FitsSigned};
ghost use Rattle.poly_num.specs.Numbers.{IsNum, Crosses};

use crate::{Num, sub};

/// `a b`; `None` exactly where it passes 127 bits. Numbers of 64 bits take one machine product.
pub fn mul(a: Num, b: Num) -> Option<Num>
    ensures { SomeIff result (IsNum (a *ℤ b)) (a *ℤ b) }
{
    if let Some(x) = narrowed(a)
        && let Some(y) = narrowed(b)
    {
        Some(narrow_product(x, y))
    } else {
        checked_mul(a, b)
    }
}

// `a b`, with a test for an overflow.
#[cold]
fn checked_mul(a: Num, b: Num) -> Option<Num>
    ensures { SomeIff result (IsNum (a *ℤ b)) (a *ℤ b) }
{
    match a.value.checked_mul(b.value) {
        Some(product) => Num::new(product),
        None => None,
    }
}

/// `a b - c d`, the entry of a pivot; `None` exactly where `a b`, `c d` or the difference passes
/// 127 bits. Numbers of 64 bits take one machine product each, and no test for an overflow.
pub fn cross(a: Num, b: Num, c: Num, d: Num) -> Option<Num>
    ensures { SomeIff result (Crosses a b c d) (a *ℤ b -ℤ c *ℤ d) }
{
    if let Some(x) = narrowed(a)
        && let Some(y) = narrowed(b)
        && let Some(z) = narrowed(c)
        && let Some(t) = narrowed(d)
    {
        let p = narrow_product(x, y);
        let q = narrow_product(z, t);
        Some(difference(p, q))
    } else {
        checked_cross(a, b, c, d)
    }
}

/// `a b`, where it is known to be a number.
pub fn known_product(a: Num, b: Num) -> Num
    requires { IsNum (a *ℤ b) }
    ensures { result ≡ a *ℤ b }
{
    Num {
        value: a.value * b.value,
    }
}

/// `a b - c d`, where the products and the difference are known to be numbers.
pub fn known_cross(a: Num, b: Num, c: Num, d: Num) -> Num
    requires { Crosses a b c d }
    ensures { result ≡ a *ℤ b -ℤ c *ℤ d }
{
    difference(known_product(a, b), known_product(c, d))
}

// `a b - c d`, each step checked.
fn checked_cross(a: Num, b: Num, c: Num, d: Num) -> Option<Num>
    ensures { SomeIff result (Crosses a b c d) (a *ℤ b -ℤ c *ℤ d) }
{
    let p = checked_mul(a, b)?;
    let q = checked_mul(c, d)?;
    sub(p, q)
}

// The number, where it has 64 bits.
pub(crate) fn narrowed(a: Num) -> Option<i64>
    ensures { SomeIff result (FitsSigned w64 a) a }
{
    i64::try_from(a.value).ok()
}

// The product of two numbers of 64 bits, with its bounds.
pub(crate) fn narrow_product(a: i64, b: i64) -> Num
    ensures value { result ≡ a *ℤ b }
    ensures lower_bound { neg_ℤ (pos (2 ^ 126)) <ℤ result }
    ensures upper_bound { result ≤ℤ pos (2 ^ 126) }
{
    Num {
        value: a as i128 * b as i128,
    }
}

// `a - b`, where it is known not to pass.
pub(crate) fn difference(a: Num, b: Num) -> Num
    requires { IsNum (a -ℤ b) }
    ensures { result ≡ a -ℤ b }
{
    Num {
        value: a.value - b.value,
    }
}
