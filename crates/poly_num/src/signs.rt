// Signs, each an order against 0.
ghost use Rattle.std.specs.Option.{SomeIff};
ghost use Rattle.std.specs.Prelude.{◌≡◌, length};
ghost use Rattle.poly_num.specs.Signs.{sign_of, lex_sign_of, DotFits};
ghost use Rattle.poly_num.specs.Vectors.{◌·◌};

use crate::{Num, add, mul};
use std::cmp::Ordering;

/// The order of `a` and 0.
pub fn sign(a: Num) -> Ordering
    ensures { result ≡ sign_of a }
{
    a.value.cmp(&0)
}

/// The order of the first entry that is not 0 and 0; `Equal` where each entry is 0.
pub fn lex_sign(v: &[Num]) -> Ordering
    ensures { result ≡ lex_sign_of v.now }
{
    for x in v {
        let s = sign(*x);
        if s != Ordering::Equal {
            return s;
        }
    }
    Ordering::Equal
}

/// The sign of the sum of the products of the entries; `None` exactly where, the products added
/// from the first on, a product or the sum so far passes 127 bits.
#[tactic(auto, using(crate::proofs::VectorLemmas::dot_more))]
pub fn dot_sign(a: &[Num], b: &[Num]) -> Option<Ordering>
    requires { length a.now ≡ length b.now }
    ensures { SomeIff result (DotFits a.now b.now) (sign_of (a.now · b.now)) }
{
    let mut sum = Num::ZERO;
    // the sum of a(i) b(i)
    for i in 0..a.len() {
        let p = mul(a[i], b[i])?;
        sum = add(sum, p)?;
    }
    Some(sign(sum))
}
