// Greatest common divisors by Euclid's steps, and whole quotients.
ghost use Rattle.std.specs.Prelude.{◌≡◌, ◌<◌, ◌^◌, ◌≤◌, ◌<ℤ◌, pos, max, unsigned_abs, int_div};
ghost use Rattle.poly_num.specs.Divisors.{gcd_of, gcd_of_all, IsGcdOf};

use crate::Num;
use crate::products::narrowed;

/// The greatest common divisor, never negative. Of 0 and `b` it is the size of `b`, of 0 and 0 it
/// is 0.
pub fn gcd(a: Num, b: Num) -> Num
    ensures value { result ≡ pos (gcd_of (unsigned_abs a) (unsigned_abs b)) }
    ensures divisor { IsGcdOf a b result }
{
    Num::from_parts(false, gcd_of_sizes(a.size(), b.size()))
}

/// `a / d` for a positive `d`, rounded toward zero. Numbers of 64 bits take the machine's own
/// division.
pub fn quotient(a: Num, d: Num) -> Num
    requires { pos 0 <ℤ d }
    ensures { result ≡ int_div a d }
{
    if d == Num::ONE {
        return a;
    }
    if let Some(x) = narrowed(a)
        && let Some(y) = narrowed(d)
    {
        narrow_quotient(x, y)
    } else {
        wide_quotient(a, d)
    }
}

// The quotient of numbers of 64 bits.
fn narrow_quotient(a: i64, d: i64) -> Num
    requires { pos 0 <ℤ d }
    ensures { result ≡ int_div a d }
{
    Num {
        value: (a / d) as i128,
    }
}

// The quotient of any numbers.
#[cold]
fn wide_quotient(a: Num, d: Num) -> Num
    requires { pos 0 <ℤ d }
    ensures { result ≡ int_div a d }
{
    Num {
        value: a.value / d.value,
    }
}

// The greatest common divisor of two sizes, in 64 bits where both have no more.
fn gcd_of_sizes(x: u128, y: u128) -> u128
    ensures value { result ≡ gcd_of x y }
    ensures bounded { result ≤ max x y }
{
    if x < 1 << 64 && y < 1 << 64 {
        gcd_of_words(x as u64, y as u64) as u128
    } else {
        gcd_of_wide(x, y)
    }
}

// The same of sizes of 64 bits. No division by 1 is made, with which most often the steps would end.
fn gcd_of_words(mut x: u64, mut y: u64) -> u64
    ensures value { result ≡ gcd_of x y }
    ensures bounded { result ≤ max x y }
{
    while y > 1 {
        let r = x % y;
        x = y;
        y = r;
    }
    if y == 1 { 1 } else { x }
}

// The same of any sizes.
#[cold]
fn gcd_of_wide(mut x: u128, mut y: u128) -> u128
    ensures value { result ≡ gcd_of x y }
    ensures bounded { result ≤ max x y }
{
    while y != 0 {
        let r = x % y;
        x = y;
        y = r;
    }
    x
}

// The greatest common divisor of all entries; of zeros it is 0. Once it is 1, no entry changes it.
pub(crate) fn common_divisor(v: &[Num]) -> Num
    ensures { result ≡ pos (gcd_of_all v.now) }
{
    let mut g: u128 = 0;
    // g becomes gcd(g, x)
    for x in v {
        g = gcd_of_sizes(g, x.size());
        if g == 1 {
            return Num::ONE;
        }
    }
    Num::from_parts(false, g)
}
