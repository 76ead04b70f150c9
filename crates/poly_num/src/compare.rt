// The order of two fractions, by repeated division: no product is taken, so none can pass.
ghost use Rattle.std.specs.Ordering.{int_cmp};
ghost use Rattle.std.specs.Prelude.{◌≡◌, ◌<◌, ◌*ℤ◌, ◌<ℤ◌, pos};
ghost use Rattle.poly_num.specs.Numbers.{Orders};

use crate::Num;
use std::cmp::Ordering;

/// The order of `a / b` and `c / d`, for positive `b` and `d`: that of `a d` and `c b`, also where
/// these products pass 127 bits.
pub fn cmp_cross(a: Num, b: Num, c: Num, d: Num) -> Ordering
    requires left { pos 0 <ℤ b }
    requires right { pos 0 <ℤ d }
    ensures { result ≡ int_cmp (a *ℤ d) (c *ℤ b) }
{
    let left = a.value.unsigned_abs();
    let right = c.value.unsigned_abs();
    let b = b.value as u128;
    let d = d.value as u128;
    if a.value < 0 {
        if c.value < 0 {
            cmp_fractions(right, d, left, b)
        } else {
            Ordering::Less
        }
    } else if c.value < 0 {
        Ordering::Greater
    } else {
        cmp_fractions(left, b, right, d)
    }
}

// The order of a/b and c/d. Where the whole parts are equal it is that of the remainders r/b and
// s/d, and so that of d/s and b/r.
fn cmp_fractions(mut a: u128, mut b: u128, mut c: u128, mut d: u128) -> Ordering
    requires left { 0 < b }
    requires right { 0 < d }
    ensures { Orders result a b c d }
{
    'steps: loop {
        let p = a / b;
        let q = c / d;
        if p < q {
            return Ordering::Less;
        }
        if q < p {
            return Ordering::Greater;
        }
        let r = a % b;
        let s = c % d;
        if r == 0 || s == 0 {
            return r.cmp(&s);
        }
        a = d;
        c = b;
        b = s;
        d = r;
    }
}
