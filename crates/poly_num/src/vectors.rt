// Vectors in place: the sign turned, the greatest common divisor taken out.
ghost use Rattle.std.specs.Prelude.{◌≡◌, ◌↔◌, ◌<ℤ◌, IsTrue, map, neg_ℤ, pos};
ghost use Rattle.poly_num.specs.Vectors.{IsPrimitive};
ghost use Rattle.poly_num.specs.Divisors.{MakesPrimitive, quotients, gcd_of_all};

use crate::divisors::common_divisor;
use crate::{Num, neg, quotient};

/// Turns the sign of each entry.
pub fn negate(v: &mut [Num])
    ensures { v.new ≡ map neg_ℤ v.old }
{
    for x in v.iter_mut() {
        *x = neg(*x);
    }
}

/// Divides each entry by the greatest common divisor of all. Signs stay, and so does a vector of
/// zeros.
pub fn primitive(v: &mut [Num])
    ensures value { v.new ≡ quotients v.old (pos (gcd_of_all v.old)) }
    ensures primitive { MakesPrimitive v.old v.new }
{
    let g = common_divisor(v);
    if g.is_positive() {
        divide(v, g);
    }
}

/// Whether 1 is the greatest common divisor of the entries.
pub fn is_primitive(v: &[Num]) -> bool
    ensures { IsTrue result ↔ IsPrimitive v.now }
{
    is_one(common_divisor(v))
}

// Divides each entry, rounded toward zero; by 1 nothing changes.
fn divide(v: &mut [Num], d: Num)
    requires { pos 0 <ℤ d }
    ensures { v.new ≡ quotients v.old d }
{
    if is_one(d) {
        return;
    }
    for x in v.iter_mut() {
        *x = quotient(*x, d);
    }
}

fn is_one(a: Num) -> bool
    ensures { IsTrue result ↔ (a ≡ pos 1) }
{
    a.value == 1
}
