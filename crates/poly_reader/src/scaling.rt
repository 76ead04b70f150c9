//! The whole vector without common divisor in the direction of a row of fractions.
ghost use Rattle.std.specs.Prelude.{◌≡◌, ℕ, pos, int_div, ◌/◌, ◌%◌, ◌==◌, ◌≤◌, ◌<◌, ◌^◌, IfOk, IfSome, option_map};
ghost use Rattle.std.specs.Option.{SomeIff};
ghost use Rattle.poly_num.specs.Numbers.{IsNum};
ghost use Rattle.poly_num.specs.Divisors.{gcd_of, gcd_of_all};
ghost use Rattle.poly_reader.specs.Scaling.{lcm_of, common_den, numerators, entry_of, AreScaledEntries, IsCapped, AreEntries, IsDen, size_of_den};

use poly_num::{Frac, Num, gcd, mul, quotient};
use std::alloc::{AllocError, Global};

// Most often one of the two is 1.
fn gcd_of_sizes(a: u128, b: u128) -> u128
    requires left { a < 2 ^ 127 }
    requires right { b < 2 ^ 127 }
    ensures value { result ≡ gcd_of a b }
    ensures within { result < 2 ^ 127 }
{
    if a == 1 {
        return 1;
    }
    if b == 1 {
        return 1;
    }
    gcd(Num::from_parts(false, a), Num::from_parts(false, b)).size()
}

// Whether b divides a; in 64 bits where both have no more.
fn is_multiple(a: u128, b: u128) -> bool
    requires { 0 < b }
    ensures { result ≡ (a % b == 0) }
{
    if a < 1 << 64 && b < 1 << 64 {
        a as u64 % b as u64 == 0
    } else {
        a % b == 0
    }
}

// The whole quotient; in 64 bits where both have no more.
fn over_size(a: u128, b: u128) -> u128
    requires { 0 < b }
    ensures { result ≡ a / b }
{
    if a < 1 << 64 && b < 1 << 64 {
        (a as u64 / b as u64) as u128
    } else {
        a / b
    }
}

// Most often b divides a.
fn lcm(a: u128, b: u128) -> Option<u128>
    requires left { IsDen a }
    requires right { IsDen b }
    ensures { SomeIff result (lcm_of a b < 2 ^ 127) (lcm_of a b) }
{
    if is_multiple(a, b) {
        return Some(a);
    }
    let left = over_size(a, gcd_of_sizes(a, b));
    match left.checked_mul(b) {
        Some(m) => { if m < 1 << 127 { Some(m) } else { None } }
        None => None,
    }
}

fn size_of_den(f: Frac) -> u128
    ensures value { result ≡ size_of_den f }
    ensures den { IsDen result }
{
    f.den().size()
}

// The least common multiple of a number, where it is not too wide, and another.
fn next_denominator(q: Option<u128>, den: u128) -> Option<u128>
    requires before { IfSome q IsDen }
    requires den { IsDen den }
    ensures { (n : ℕ) → IsCapped n q → IsCapped (lcm_of n den) result }
{
    match q {
        Some(q) => lcm(q, den),
        None => None,
    }
}

// The least common denominator; none where it is too wide.
fn common_denominator(row: &[Frac]) -> Option<u128>
    ensures { IsCapped (common_den row.now) result }
{
    let mut q = Some(1);
    // q becomes lcm(q, den f)
    'row: for f in row {
        q = next_denominator(q, size_of_den(*f));
    }
    q
}

// The greatest common divisor of the numerators.
fn common_numerator(row: &[Frac]) -> u128
    ensures value { result ≡ gcd_of_all (numerators row.now) }
    ensures within { result < 2 ^ 127 }
{
    let mut p = 0;
    // p becomes gcd(p, num f)
    'row: for f in row {
        p = gcd_of_sizes(p, f.num().size());
    }
    p
}

fn entry(p: u128, q: u128, f: Frac) -> Option<Num>
    requires fits { q < 2 ^ 127 }
    requires divisor { p < 2 ^ 127 }
    requires some { 0 < p }
    ensures { SomeIff result (IsNum (entry_of p q f)) (entry_of p q f) }
{
    let top = quotient(f.num(), Num::from_parts(false, p));
    mul(top, Num::from_parts(false, over_size(q, size_of_den(f))))
}

fn entries(alloc: Global, row: &[Frac], p: u128, q: u128) -> Result<Option<Vec<Num>>, AllocError>
    requires fits { q < 2 ^ 127 }
    requires divisor { p < 2 ^ 127 }
    requires some { 0 < p }
    ensures { IfOk result (λ o. AreEntries p q row.now (option_map (λ v. v.items) o)) }
{
    let mut entries = Vec::with_capacity(alloc, row.len())?;
    // each f becomes (num f / p) (q / den f)
    'row: for f in row {
        match entry(p, q, *f) {
            Some(z) => entries.push(z)?,
            None => return Ok(None),
        }
    }
    Ok(Some(entries))
}

/// The entries of a row of fractions; none where the row is too wide.
pub fn scaled_row(alloc: Global, row: &[Frac]) -> Result<Option<Vec<Num>>, AllocError>
    ensures { IfOk result (λ o. AreScaledEntries row.now (option_map (λ v. v.items) o)) }
{
    match common_denominator(row) {
        Some(q) => entries(alloc, row, common_numerator(row).max(1), q),
        None => Ok(None),
    }
}
