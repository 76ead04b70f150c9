//! Words that are decimal numbers.
ghost use Rattle.std.specs.Prelude.{◌≡◌, ◌<◌, ◌^◌, true, Some, IfSome, IsTrue, IsFalse, option_map, decimal};
ghost use Rattle.std.specs.Fmt.{signed_decimal};
ghost use Rattle.poly_num.specs.Numbers.{IsNum};
ghost use Rattle.plain_text.specs.Digits.{count_of, decimal_of, capped, leads_with_zero, is_negative, without_minus};
ghost use Rattle.plain_text.specs.Texts.{IsReadOf};

use crate::digits::{TOO_WIDE, count, leading_digits};
use poly_num::Num;

pub(crate) fn leads_with_zero(word: &[u8]) -> bool
    ensures { result ≡ leads_with_zero word.now }
{
    match word {
        [b, _, ..] => *b == b'0',
        _ => false,
    }
}

// The value of digits that is small; none says nothing.
fn short_count(word: &[u8]) -> Option<u64>
    ensures { IfSome result (λ v. count_of word.now ≡ Some v) }
{
    let (value, taken) = leading_digits(word);
    if taken == 0 {
        return None;
    }
    if taken < word.len() {
        return None;
    }
    Some(value)
}

/// The value of a word of digits in which no zero stands before others, where 2^127 stands for each greater one too; none
/// where the word is something else.
pub fn read_decimal(word: &[u8]) -> Option<u128>
    ensures { result ≡ option_map capped (decimal_of word.now) }
{
    if leads_with_zero(word) {
        return None;
    }
    match short_count(word) {
        Some(value) => Some(value as u128),
        None => count(word),
    }
}

/// The number below 2^64 whose decimal text this is.
pub fn read_count(word: &[u8]) -> Option<u64>
    ensures { IsReadOf (λ n. n < 2 ^ 64) decimal word.now result }
{
    let size = read_decimal(word)?;
    if size > u64::MAX as u128 {
        return None;
    }
    Some(size as u64)
}

pub(crate) fn split_minus(word: &[u8]) -> (bool, &[u8])
    ensures sign { result.0 ≡ is_negative word.now }
    ensures rest { result.1.now ≡ without_minus word.now }
{
    match word {
        [b'-', rest @ ..] => (true, rest),
        _ => (false, word),
    }
}

// Zero has no sign.
pub(crate) fn is_negative_zero(negative: bool, size: u128) -> bool
    ensures yes { IsTrue result → (negative ≡ true) × (size ≡ 0) }
    ensures no { IsFalse result → negative ≡ true → 0 < size }
{
    negative && size == 0
}

/// The number of 127 bits and a sign whose decimal text this is: `-` before a negative one, no `+`, and zero without a sign.
pub fn read_num(word: &[u8]) -> Option<Num>
    ensures { IsReadOf IsNum signed_decimal word.now result }
{
    let (negative, digits) = split_minus(word);
    let size = read_decimal(digits)?;
    if size >= TOO_WIDE {
        return None;
    }
    if is_negative_zero(negative, size) {
        return None;
    }
    Some(Num::from_parts(negative, size))
}
