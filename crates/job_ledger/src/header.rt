//! The length in front of a payload: 13 decimal digits and LF.
ghost use Rattle.std.specs.Prelude.{true, false, ◌≡◌, ◌<◌, ◌^◌, ◌-◌, ◌++◌, ℕ, List, length, IsTrue, ◌↔◌, MatchOption, OnOk, min};
ghost use Rattle.job_ledger.specs.Records.{digits, header};
ghost use Rattle.job_ledger.specs.Values.{decimal_value};

use std::alloc::AllocError;

/// How many digits a length has.
const DIGITS: usize = 13;

/// No length is this much.
const TOO_LONG: u64 = 10_000_000_000_000;

fn push_digits(bytes: &mut Vec<u8>, n: u64, count: usize) -> Result<(), AllocError>
    ensures { OnOk result (bytes.new.items ≡ bytes.old.items ++ digits count n) }
{
    if count == 0 {
        return Ok(());
    }
    push_digits(bytes, n / 10, count - 1)?;
    bytes.push(48 + (n % 10) as u8)?;
    Ok(())
}

/// Writes a length behind the bytes. One that 13 digits cannot say is cut to its last 13.
pub(crate) fn push_header(bytes: &mut Vec<u8>, len: u64) -> Result<(), AllocError>
    ensures { OnOk result (bytes.new.items ≡ bytes.old.items ++ header len) }
{
    push_digits(bytes, len, DIGITS)?;
    bytes.push(b'\n')?;
    Ok(())
}

/// The number that a text of digits says, or the greatest one where it passes; any other byte counts as some digit.
fn value(text: &[u8]) -> u64
    ensures { result ≡ min (decimal_value text.now) (2 ^ 64 - 1) }
{
    let mut value = 0u64;
    for byte in text {
        value = value
            .saturating_mul(10)
            .saturating_add(byte.saturating_sub(48) as u64);
    }
    value
}

/// Whether a text is the last digits of a number.
fn is_digits_of(text: &[u8], n: u64) -> bool
    ensures yes { result ≡ true → text.now ≡ digits (length text.now) n }
    ensures no { result ≡ false → text.now ≡ digits (length text.now) n → ⊥ }
{
    match text {
        [] => true,
        [front @ .., last] => {
            if *last != 48 + (n % 10) as u8 {
                return false;
            }
            is_digits_of(front, n / 10)
        }
    }
}

/// The length that a header says; none where the text is no header.
pub(crate) fn size_of(text: &[u8]) -> Option<u64>
    ensures { MatchOption result ((n : ℕ) → n < 10 ^ 13 → text.now ≡ header n → ⊥) (λ n. (text.now ≡ header n) × (n < 10 ^ 13)) }
{
    if text.len() != DIGITS + 1 {
        return None;
    }
    if text[DIGITS] != b'\n' {
        return None;
    }
    let n = value(&text[..DIGITS]);
    if n >= TOO_LONG {
        return None;
    }
    if is_digits_of(&text[..DIGITS], n) {
        Some(n)
    } else {
        None
    }
}
