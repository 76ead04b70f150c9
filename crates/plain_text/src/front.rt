//! Numbers with which a text goes on, read into place: each byte of a short one is looked at once.
ghost use Rattle.std.specs.Prelude.{◌≡◌, ◌<◌, ℕ, ℤ, true, List, ◌∷◌, ◌++◌, IfSome, IsNone};
ghost use Rattle.std.specs.Fmt.{signed_decimal};
ghost use Rattle.poly_num.specs.Numbers.{IsNum};
ghost use Rattle.plain_text.specs.Cuts.{GoesOnWith};
ghost use Rattle.plain_text.specs.Digits.{is_digit, is_negative, without_minus};
ghost use Rattle.plain_text.specs.Texts.{BeginsWithDecimal};

use crate::cutting::{goes_on, split_word};
use crate::digits::{is_digit_byte, leading_digits};
use crate::numbers::{is_negative_zero, leads_with_zero, read_num, split_minus};
use poly_num::Num;

// The digit with which a text begins, and what stands behind it, where that is a number of one digit; none says nothing.
fn digit_in(text: &[u8]) -> Option<(u64, &[u8])>
    ensures { IfSome result (λ r. BeginsWithDecimal text.now r.0 r.1.now) }
{
    let (digit, rest) = text.split_first()?;
    if !is_digit_byte(*digit) {
        return None;
    }
    if !goes_on(rest) {
        return None;
    }
    Some((digit.saturating_sub(b'0') as u64, rest))
}

// The same of a number of few digits.
fn digits_in(text: &[u8]) -> Option<(u64, &[u8])>
    ensures { IfSome result (λ r. BeginsWithDecimal text.now r.0 r.1.now) }
{
    let (value, taken) = leading_digits(text);
    if taken == 0 {
        return None;
    }
    let (digits, rest) = text.split_at(taken);
    if leads_with_zero(digits) {
        return None;
    }
    if !goes_on(rest) {
        return None;
    }
    Some((value, rest))
}

// The number without a sign with which a text begins, and what stands behind it, where its digits are few; none says nothing.
fn short_count_in(text: &[u8]) -> Option<(u64, &[u8])>
    ensures { IfSome result (λ r. BeginsWithDecimal text.now r.0 r.1.now) }
{
    match digit_in(text) {
        Some(found) => Some(found),
        None => digits_in(text),
    }
}

// The same with a sign: whether the number is negative, and its size.
fn short_num_in(text: &[u8]) -> Option<(bool, u64, &[u8])>
    ensures { IfSome result (λ r. BeginsWithDecimal (without_minus text.now) r.1 r.2.now
        × (r.0 ≡ is_negative text.now) × (r.0 ≡ true → 0 < r.1)) }
{
    let (negative, digits) = split_minus(text);
    let (size, rest) = short_count_in(digits)?;
    if is_negative_zero(negative, size as u128) {
        return None;
    }
    Some((negative, size, rest))
}

// The number with which a text begins, read into its place, and what stands behind it; where there is none the place may
// have anything.
fn read_front<'a>(place: &mut Num, text: &'a [u8]) -> Option<&'a [u8]>
    ensures some { IfSome result (λ rest. IsNum place.new × (text.now ≡ signed_decimal place.new ++ rest.now) × GoesOnWith 32 rest.now) }
    ensures none { IsNone result → (z : ℤ) (more : List ℕ) → IsNum z → GoesOnWith 32 more → text.now ≡ signed_decimal z ++ more → ⊥ }
{
    // most entries have one digit: then nothing is asked about a sign
    if let Some((digit, rest)) = digit_in(text) {
        *place = Num::from_parts(false, digit as u128);
        return Some(rest);
    }
    if let Some((negative, size, rest)) = short_num_in(text) {
        *place = Num::from_parts(negative, size as u128);
        return Some(rest);
    }
    let (word, rest) = split_word(text);
    *place = read_num(word)?;
    Some(rest)
}

/// Reads the number with which a text goes on behind one blank, up to the next blank or the end, into its place, and
/// answers what stands behind it: a number of 127 bits and a sign, as `read_num` reads it. None exactly where the text
/// does not go on so; then the place may have anything.
pub fn next_num<'a>(place: &mut Num, text: &'a [u8]) -> Option<&'a [u8]>
    ensures some { IfSome result (λ rest. IsNum place.new × (text.now ≡ 32 ∷ (signed_decimal place.new ++ rest.now)) × GoesOnWith 32 rest.now) }
    ensures none { IsNone result → (z : ℤ) (more : List ℕ) → IsNum z → GoesOnWith 32 more → text.now ≡ 32 ∷ (signed_decimal z ++ more) → ⊥ }
{
    match text {
        [b' ', written @ ..] => read_front(place, written),
        _ => None,
    }
}

// The digit with which a text begins, read into its place, and what stands behind it. None exactly where there is none.
fn front_digit<'a>(place: &mut Num, text: &'a [u8]) -> Option<&'a [u8]>
    ensures some { IfSome result (λ rest. IsNum place.new × (text.now ≡ signed_decimal place.new ++ rest.now)) }
    ensures none { IsNone result → (digit : ℕ) (more : List ℕ) → is_digit digit ≡ true → text.now ≡ digit ∷ more → ⊥ }
    ensures same { IsNone result → place.new ≡ place.old }
{
    let (digit, rest) = text.split_first()?;
    if !is_digit_byte(*digit) {
        return None;
    }
    *place = Num::from_parts(false, digit.saturating_sub(b'0') as u128);
    Some(rest)
}

/// Reads the digit with which a text goes on behind one blank into its place, and answers what stands behind it, whatever
/// that is. None exactly where the text does not go on so; then the place is as it was.
pub fn next_digit<'a>(place: &mut Num, text: &'a [u8]) -> Option<&'a [u8]>
    ensures some { IfSome result (λ rest. IsNum place.new × (text.now ≡ 32 ∷ (signed_decimal place.new ++ rest.now))) }
    ensures none { IsNone result → (digit : ℕ) (more : List ℕ) → is_digit digit ≡ true → text.now ≡ 32 ∷ digit ∷ more → ⊥ }
    ensures same { IsNone result → place.new ≡ place.old }
{
    match text {
        [b' ', written @ ..] => front_digit(place, written),
        _ => None,
    }
}
