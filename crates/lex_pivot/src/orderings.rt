// What an order of two numbers is, and that of two fractions.
ghost use Rattle.std.specs.declared.cmp.Ordering.TheVariants.{Less, Equal, Greater};
ghost use Rattle.std.specs.Ordering.{int_cmp};
ghost use Rattle.std.specs.Prelude.{◌≡◌, ◌≢◌, ◌↔◌, ◌*ℤ◌, ◌<ℤ◌, ◌≤ℤ◌, pos, IsTrue, IsFalse};

use poly_num::{Num, cmp_cross, mul};
use std::cmp::Ordering;

/// The order of `a / b` and `c / d`, for positive `b` and `d`: by the signs of `a` and `c` where these decide, by `a` and `c`
/// where `b` and `d` are equal, else by the two products, and only where one of them passes 127 bits by repeated division,
/// which takes longer.
#[inline(always)]
pub(crate) fn cmp_ratios(a: Num, b: Num, c: Num, d: Num) -> Ordering
    requires left { pos 0 <ℤ b }
    requires right { pos 0 <ℤ d }
    ensures { result ≡ int_cmp (a *ℤ d) (c *ℤ b) }
{
    if are_zero(a, c) {
        return Ordering::Equal;
    }
    if are_apart(a, c) {
        return Ordering::Less;
    }
    if are_apart(c, a) {
        return Ordering::Greater;
    }
    if is_same(b, d) {
        return order_of(a, c);
    }
    if let Some(x) = mul(a, d)
        && let Some(y) = mul(c, b)
    {
        return x.get().cmp(&y.get());
    }
    cmp_cross(a, b, c, d)
}

/// The order of `a b` and `c d`, numbers of one machine word: where both a and c are 0, as they mostly are, without a product.
#[inline(always)]
pub(crate) fn cmp_products(a: i64, b: i64, c: i64, d: i64) -> Ordering
    ensures { result ≡ int_cmp (a *ℤ b) (c *ℤ d) }
{
    if a == 0 && c == 0 {
        return Ordering::Equal;
    }
    product(a, b).cmp(&product(c, d))
}

/// The order of two numbers of one machine word.
#[inline(always)]
pub(crate) fn order_of_words(a: i64, b: i64) -> Ordering
    ensures { result ≡ int_cmp a b }
{
    a.cmp(&b)
}

// `a b`, which two words hold.
#[inline(always)]
fn product(a: i64, b: i64) -> i128
    ensures { result ≡ a *ℤ b }
{
    a as i128 * b as i128
}

// Whether both are 0.
#[inline(always)]
fn are_zero(a: Num, c: Num) -> bool
    ensures { IsTrue result ↔ (a ≡ pos 0) × (c ≡ pos 0) }
{
    a.get() == 0 && c.get() == 0
}

// Whether they are equal.
#[inline(always)]
fn is_same(b: Num, d: Num) -> bool
    ensures { IsTrue result → b ≡ d }
{
    b.get() == d.get()
}

// The order of the two.
#[inline(always)]
fn order_of(a: Num, c: Num) -> Ordering
    ensures { result ≡ int_cmp a c }
{
    a.get().cmp(&c.get())
}

// Whether 0 lies between them, `a` below `c`.
#[inline(always)]
fn are_apart(a: Num, c: Num) -> bool
    ensures { IsTrue result → (a ≤ℤ pos 0) × (pos 0 ≤ℤ c) }
{
    a.get() <= 0 && c.get() >= 0
}

/// Whether it is not `Equal`.
pub fn differs(order: Ordering) -> bool
    ensures yes { IsTrue result → order ≢ Equal }
    ensures no { IsFalse result → order ≡ Equal }
{
    match order {
        Ordering::Equal => false,
        _ => true,
    }
}

/// Whether it is `Less`.
pub fn is_less(order: Ordering) -> bool
    ensures yes { IsTrue result → order ≡ Less }
    ensures no { IsFalse result → order ≢ Less }
{
    match order {
        Ordering::Less => true,
        _ => false,
    }
}

/// Whether it is `Greater`.
pub fn is_greater(order: Ordering) -> bool
    ensures yes { IsTrue result → order ≡ Greater }
    ensures no { IsFalse result → order ≢ Greater }
{
    match order {
        Ordering::Greater => true,
        _ => false,
    }
}
