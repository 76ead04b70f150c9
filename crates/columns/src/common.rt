//! What the numbers of an exchange have in common, and its column over that.
ghost use Rattle.std.specs.Prelude.{◌≡◌, ◌<◌, ◌*ℤ◌, ◌+ℤ◌, ◌<ℤ◌, ◌↔◌, IsTrue, pos, length, unsigned_abs};
ghost use Rattle.std.specs.Option.{IfSome};
ghost use Prim.Native.Nat.{◌∣◌};
ghost use Rattle.poly_num.specs.Divisors.{IsGcdOf};
ghost use Rattle.columns.specs.Cells.{AllowsExchange};
ghost use Rattle.columns.specs.Steps.{IsSignOf, IsCommonFactor, IsColumnOver, IsOwnColumn, AreFactors};

use crate::cells::Cells;
use crate::exchange::{Exchange, word_at};
use crate::parts::Factors;
use poly_num::{Num, add, gcd, neg, quotient};
use words::{Word, WordDivisor};

// Whether the number is 1.
#[inline(always)]
#[tactic(auto, using(std::proofs::lemmas::Bool::Decides::nat_tests))]
pub(crate) fn is_one(a: Num) -> bool
    ensures { IsTrue result ↔ a ≡ pos 1 }
{
    a == Num::ONE
}

// The greatest common divisor of the two; no division is made once it is 1, and one where the first divides.
#[inline(always)]
pub(crate) fn common_with(common: Num, c: Num) -> Num
    ensures { IsGcdOf common c result }
{
    if is_one(common) {
        return common;
    }
    gcd(c, common)
}

// Whether the divisor is 1.
#[inline(always)]
fn is_unit(divisor: &WordDivisor) -> bool
    ensures { IsTrue result → divisor.now ≡ pos 1 }
{
    divisor.word() == Word::ONE
}

// Makes of a divisor its greatest common divisor with a word; no division is made where it divides. Whether that is
// known to be a positive word.
#[inline(always)]
fn share(divisor: &mut WordDivisor, c: Word) -> bool
    ensures { IsTrue result → IsGcdOf divisor.old c divisor.new }
{
    match divisor.exact(c) {
        Some(_) => true,
        None => shrink(divisor, c.wide()),
    }
}

// The same with a number, where it does not divide.
#[cold]
#[inline(never)]
pub(crate) fn shrink(divisor: &mut WordDivisor, n: Num) -> bool
    ensures { IsTrue result → IsGcdOf divisor.old n divisor.new }
{
    let common = gcd(n, divisor.word().wide());
    match positive_word(common) {
        Some(less) => {
            *divisor = less;
            true
        }
        None => false,
    }
}

// The divisor of this value; `None` where it is no positive word.
fn positive_word(n: Num) -> Option<WordDivisor>
    ensures { IfSome result (λ g. g ≡ n) }
{
    if !n.is_positive() {
        return None;
    }
    match Word::of(n) {
        Some(word) => Some(WordDivisor::new(word)),
        None => None,
    }
}

// The greatest common divisor of the denominator and of the words of the exchange's column and row.
fn word_factor(cells: &[Word], x: &Exchange) -> Option<Num>
    requires { AllowsExchange x.now cells.now }
    ensures { IfSome result (λ h. IsCommonFactor x.now cells.now x.now.height x.now.width h) }
{
    let v = word_at(cells, x, x.row, x.column).wide();
    let mut common = positive_word(gcd(x.denominator, v))?;
    // common = the greatest common divisor of common and c
    'rows: for i in 0..x.height {
        if is_unit(&common) {
            return Some(Num::ONE);
        }
        if !share(&mut common, word_at(cells, x, i, x.column)) {
            return None;
        }
    }
    'columns: for j in 0..x.width {
        if !share(&mut common, word_at(cells, x, x.row, j)) {
            return None;
        }
    }
    Some(common.word().wide())
}

// The greatest common divisor of the denominator and of the cells of the exchange's column and row.
fn wide_factor(cells: &Cells, x: &Exchange) -> Num
    requires { AllowsExchange x.now cells.now }
    ensures { IsCommonFactor x.now cells.now x.now.height x.now.width result }
{
    let d = x.denominator;
    let v = cells.at(x.height, x.row, x.column);
    let mut common = gcd(d, v);
    // common = the greatest common divisor of common and c
    'rows: for i in 0..x.height {
        let c = cells.at(x.height, i, x.column);
        common = common_with(common, c);
    }
    'columns: for j in 0..x.width {
        let c = cells.at(x.height, x.row, j);
        common = common_with(common, c);
    }
    common
}

// The same, by words where the cells are.
fn common_factor(cells: &Cells, x: &Exchange) -> Num
    requires { AllowsExchange x.now cells.now }
    ensures { IsCommonFactor x.now cells.now x.now.height x.now.width result }
{
    if !cells.is_wide
        && let Some(common) = word_factor(&cells.words, x)
    {
        return common;
    }
    wide_factor(cells, x)
}

// 1 or -1.
fn sign_of(a: Num) -> Num
    ensures { IsSignOf a result }
{
    if a.is_positive() {
        Num::ONE
    } else {
        neg(Num::ONE)
    }
}

// The number with a sign.
#[inline(always)]
fn turned(a: Num, sign: Num) -> Num
    requires { unsigned_abs sign ≡ 1 }
    ensures { result ≡ sign *ℤ a }
{
    if sign.is_positive() { a } else { neg(a) }
}

// `sign a / common`.
#[inline(always)]
pub(crate) fn signed_over(a: Num, sign: Num, common: Num) -> Num
    requires sign { unsigned_abs sign ≡ 1 }
    requires positive { pos 0 <ℤ common }
    requires divides { unsigned_abs common ∣ unsigned_abs a }
    ensures { result *ℤ common ≡ sign *ℤ a }
{
    let q = quotient(a, common);
    turned(q, sign)
}

// What the numbers of the exchange are multiplied by and divided by.
pub(crate) fn factors_of(cells: &Cells, x: &Exchange) -> Factors
    requires { AllowsExchange x.now cells.now }
    ensures { AreFactors x.now cells.now result }
{
    let common = common_factor(cells, x);
    let pivot = cells.at(x.height, x.row, x.column);
    let sign = sign_of(pivot);
    let p = signed_over(pivot, sign, common);
    let u = signed_over(x.denominator, sign, common);
    Factors { p, u, sign, common }
}

// The sum, where it is a word.
fn word_sum(a: Num, b: Num) -> Option<Word>
    ensures { IfSome result (λ z. z ≡ a +ℤ b) }
{
    match add(a, b) {
        Some(n) => Word::of(n),
        None => None,
    }
}

// The word with a sign.
#[inline(always)]
fn turned_word(a: Word, positive: bool, sign: Num) -> Word
    requires sign { unsigned_abs sign ≡ 1 }
    requires positive { IsTrue positive ↔ (pos 0 <ℤ sign) }
    ensures { result ≡ sign *ℤ a }
{
    if positive { a } else { a.negated() }
}

// The word over a divisor, where that divides it; `None` says nothing. By 1 nothing is divided.
#[inline(always)]
fn word_over(c: Word, divisor: &WordDivisor) -> Option<Word>
    ensures { IfSome result (λ q. q *ℤ divisor.now ≡ c) }
{
    if is_unit(divisor) {
        return Some(c);
    }
    let q = divisor.exact(c)?;
    Some(q)
}

// The cells of the exchange's column with the sign, over the common factor. Whether all fit.
fn column_over(cells: &[Word], own: &mut [Word], x: &Exchange, factors: &Factors) -> bool
    requires can { AllowsExchange x.now cells.now }
    requires height { length own.old ≡ x.now.height }
    requires factors { AreFactors x.now cells.now factors.now }
    ensures over { IsTrue result → IsColumnOver x.now cells.now factors.now x.now.height own.new }
{
    let Some(common) = positive_word(factors.common) else {
        return false;
    };
    let positive = factors.sign.is_positive();
    // own(i) = sign cell(i, column) / common
    'cells: for i in 0..x.height {
        match word_over(word_at(cells, x, i, x.column), &common) {
            Some(q) => own[i] = turned_word(q, positive, factors.sign),
            None => return false,
        }
    }
    true
}

// The exchange's column as its words are taken, with p + u in the exchange's row. Whether all fit.
pub(crate) fn own_of(cells: &[Word], own: &mut [Word], x: &Exchange, factors: &Factors) -> bool
    requires can { AllowsExchange x.now cells.now }
    requires height { length own.old ≡ x.now.height }
    requires factors { AreFactors x.now cells.now factors.now }
    ensures own { IsTrue result →
        IsOwnColumn x.now cells.now factors.now (factors.now.p +ℤ factors.now.u) own.new }
{
    if !column_over(cells, own, x, factors) {
        return false;
    }
    match word_sum(factors.p, factors.u) {
        Some(sum) => {
            own[x.row] = sum;
            true
        }
        None => false,
    }
}

// The exchange's column as its wide numbers are taken, with u in the exchange's row.
pub(crate) fn wide_own_of(cells: &Cells, own: &mut [Num], x: &Exchange, factors: &Factors)
    requires can { AllowsExchange x.now cells.now }
    requires height { length own.old ≡ x.now.height }
    requires factors { AreFactors x.now cells.now factors.now }
    ensures own { IsOwnColumn x.now cells.now factors.now factors.now.u own.new }
{
    // own(i) = sign cell(i, column) / common
    'cells: for i in 0..x.height {
        let c = cells.at(x.height, i, x.column);
        let q = signed_over(c, factors.sign, factors.common);
        own[i] = q;
    }
    own[x.row] = factors.u;
}
