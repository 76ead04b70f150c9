//! Words of decimal digits.
ghost use Rattle.std.specs.Prelude.{◌≡◌, ◌≤◌, ◌^◌, true, option_map, Some, IfSome, take, length};
ghost use Rattle.std.specs.List.{list_all};
ghost use Rattle.plain_text.specs.Digits.{is_digit, with_digit_of, value_of, is_count, count_of, capped};

/// One past the greatest size of a number: what stands for each greater value too.
pub const TOO_WIDE: u128 = 1 << 127;

pub(crate) fn is_digit_byte(b: u8) -> bool
    ensures { result ≡ is_digit b }
{
    b'0' <= b && b <= b'9'
}

fn is_all_digits(word: &[u8]) -> bool
    ensures { result ≡ list_all is_digit word.now }
{
    word.iter().all(|b| is_digit_byte(*b))
}

/// Whether a word is digits: at least one, and nothing else.
#[tactic(auto, using(crate::proofs::CappedValues::no_length))]
pub fn is_count(word: &[u8]) -> bool
    ensures { result ≡ is_count word.now }
{
    !word.is_empty() && is_all_digits(word)
}

// The value with one more digit, or the cap.
fn with_digit(value: u128, digit: u8) -> u128
    requires { value ≤ 2 ^ 127 }
    ensures { result ≡ capped (with_digit_of value digit) }
{
    if value > TOO_WIDE / 10 {
        TOO_WIDE
    } else {
        (10 * value + digit.saturating_sub(b'0') as u128).min(TOO_WIDE)
    }
}

/// The value of a word of digits, where 2^127 stands for each greater one too.
pub fn value(digits: &[u8]) -> u128
    ensures { result ≡ capped (value_of digits.now) }
{
    let mut value = 0u128;
    'digits: for b in digits {
        value = with_digit(value, *b);
    }
    value
}

/// That value; none where the word is something else.
#[tactic(auto, unfolding(crate::specs::Digits::count_of))]
pub fn count(word: &[u8]) -> Option<u128>
    ensures { result ≡ option_map capped (count_of word.now) }
{
    if is_count(word) {
        Some(value(word))
    } else {
        None
    }
}

// The value with one more digit. None where the byte is no digit; none also where the value before
// is large, so that the value with one more fits the machine's words.
fn with_one_more(value: u64, b: u8) -> Option<u64>
    ensures { IfSome result (λ more. (is_digit b ≡ true) × (more ≡ with_digit_of value b)) }
{
    if value < 1 << 59 && is_digit_byte(b) {
        Some(10 * value + b.saturating_sub(b'0') as u64)
    } else {
        None
    }
}

/// The value of the digits with which a text begins, and how many of them were taken: all, as long as
/// the value is small.
pub fn leading_digits(text: &[u8]) -> (u64, usize)
    ensures value { result.0 ≡ value_of (take result.1 text.now) }
    ensures digits { list_all is_digit (take result.1 text.now) ≡ true }
    ensures within { result.1 ≤ length text.now }
{
    let mut value = 0;
    'digits: for (i, b) in text.iter().enumerate() {
        match with_one_more(value, *b) {
            Some(more) => value = more,
            None => return (value, i),
        }
    }
    (value, text.len())
}
