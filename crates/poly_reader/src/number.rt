//! Words that are numbers.
ghost use Rattle.std.specs.Prelude.{◌≡◌, pos, position, option_map, Some, Ok, IfOk, IfSome};
ghost use Rattle.plain_text.specs.Digits.{is_negative, signed, capped};
ghost use Rattle.poly_reader.specs.Grammar.{unsigned, is_slash, numerator_of, denominator_of};
ghost use Rattle.poly_num.specs.Fractions.{lowest};
ghost use Rattle.poly_reader.specs.FirstFault.{Checks};
ghost use Rattle.poly_reader.specs.Matrix.{AreSizes, sizes_of, number_of};

use crate::BadKind;
use plain_text::{TOO_WIDE, count, leading_digits};
use poly_num::{Frac, Num};

fn split_sign(word: &[u8]) -> (bool, &[u8])
    ensures sign { result.0 ≡ is_negative word.now }
    ensures rest { result.1.now ≡ unsigned word.now }
{
    match word {
        [b'+', rest @ ..] => (false, rest),
        [b'-', rest @ ..] => (true, rest),
        _ => (false, word),
    }
}

fn slash_at(word: &[u8]) -> Option<usize>
    ensures { result ≡ position is_slash word.now }
{
    word.iter().position(|b| *b == b'/')
}

// The sizes above and below the slash of a word whose numbers are small; it is gone through once.
fn short_parts(word: &[u8]) -> Option<(u64, u64)>
    ensures { IfSome result (λ r. (numerator_of word.now ≡ Some r.0) × (denominator_of word.now ≡ Some r.1)) }
{
    let (above, end) = leading_digits(word);
    if end == 0 {
        return None;
    }
    if end == word.len() {
        return Some((above, 1));
    }
    if word[end] != b'/' {
        return None;
    }
    let rest = &word[end + 1..];
    let (below, taken) = leading_digits(rest);
    if taken == 0 {
        return None;
    }
    if taken < rest.len() {
        return None;
    }
    Some((above, below))
}

// The sizes above and below the slash of any word.
#[cold]
fn long_parts(word: &[u8]) -> (Option<u128>, Option<u128>)
    ensures above { result.0 ≡ option_map capped (numerator_of word.now) }
    ensures below { result.1 ≡ option_map capped (denominator_of word.now) }
{
    match slash_at(word) {
        Some(at) => (count(&word[..at]), count(&word[at + 1..])),
        None => (count(word), Some(1)),
    }
}

// The sizes above and below the slash.
#[inline(always)]
fn parts(word: &[u8]) -> (Option<u128>, Option<u128>)
    ensures above { result.0 ≡ option_map capped (numerator_of word.now) }
    ensures below { result.1 ≡ option_map capped (denominator_of word.now) }
{
    match short_parts(word) {
        Some((above, below)) => (Some(above as u128), Some(below as u128)),
        None => long_parts(word),
    }
}

// The sizes that a number has, or what is wrong with it.
fn sizes(above: Option<u128>, below: Option<u128>) -> Result<(u128, u128), BadKind>
    ensures value { result ≡ sizes_of above below }
    ensures bounds { IfOk result AreSizes }
{
    match (above, below) {
        (Some(p), Some(q)) => {
            if q == 0 {
                Err(BadKind::ZeroDenominator)
            } else if p >= TOO_WIDE || q >= TOO_WIDE {
                Err(BadKind::WideNumber)
            } else {
                Ok((p, q))
            }
        }
        _ => Err(BadKind::BadNumber),
    }
}

fn fraction(negative: bool, above: u128, below: u128) -> Result<Frac, BadKind>
    requires { AreSizes (above, below) }
    ensures { result ≡ Ok (lowest (signed negative above) (pos below)) }
{
    let num = Num::from_parts(negative, above);
    let den = Num::from_parts(false, below);
    Frac::new(num, den).ok_or(BadKind::ZeroDenominator)
}

/// The number that a word is, in lowest terms, or what is wrong with it.
#[tactic(auto, unfolding(crate::specs::Matrix::number_of), using(crate::proofs::CappedValues::sizes_capped))]
pub fn number(word: &[u8]) -> Result<Frac, BadKind>
    ensures { result ≡ number_of word.now }
{
    let (negative, rest) = split_sign(word);
    let (above, below) = parts(rest);
    match sizes(above, below) {
        Ok((p, q)) => fraction(negative, p, q),
        Err(kind) => Err(kind),
    }
}

/// What is wrong with a word as a number. This is faster than to reduce it.
#[tactic(auto, unfolding(crate::specs::Matrix::number_of), using(crate::proofs::CappedValues::sizes_capped))]
pub fn check_number(word: &[u8]) -> Result<(), BadKind>
    ensures { Checks result (number_of word.now) }
{
    let (_, rest) = split_sign(word);
    let (above, below) = parts(rest);
    match sizes(above, below) {
        Ok(_) => Ok(()),
        Err(kind) => Err(kind),
    }
}
