//! Reads the lines of a job text, each with what comes after it.
ghost use Rattle.std.specs.Prelude.{◌≡◌, ◌≤◌, ◌<◌, ◌^◌, ◌++◌, ◌∷◌, ℕ, List, length, Some, IfSome, IsNone, IsTrue, IsFalse, decimal, codes, ⊤};
ghost use Rattle.plain_text.specs.Digits.{capped, decimal_of};
ghost use Rattle.plain_text.specs.Cuts.{Lacks};
ghost use Rattle.plain_text.specs.Texts.{IsLineReadOf, IsReadOf};
ghost use Rattle.poly_model.specs.LabelText.{key_text};
ghost use Rattle.job_text.specs.KeyTexts.{HasKeyText};
ghost use Rattle.job_text.specs.Jobs.{work_line, input_line};

use crate::read_key;
use plain_text::{is_text, read_count, read_decimal, split_line, strip_front};
use poly_model::{Key, WorkKind};

fn read_work(line: &[u8]) -> Option<WorkKind>
    ensures { IsReadOf (λ _. ⊤) work_line line.now result }
{
    if is_text(line, b"lrs-job 1 subsets") {
        Some(WorkKind::Subsets)
    } else if is_text(line, b"lrs-job 1 subtrees") {
        Some(WorkKind::Subtrees)
    } else {
        None
    }
}

/// The work that the first line names.
pub(crate) fn work_behind(text: &[u8]) -> Option<(WorkKind, &[u8])>
    ensures { IsLineReadOf (λ _. ⊤) work_line text.now result }
{
    let (line, rest) = split_line(text)?;
    let work = read_work(line)?;
    Some((work, rest))
}

/// The key behind this word.
pub(crate) fn key_behind<'a>(text: &'a [u8], word: &[u8]) -> Option<(Key, &'a [u8])>
    requires { Lacks 10 word.now }
    ensures { IsLineReadOf HasKeyText (λ key. word.now ++ key_text key) text.now result }
{
    let (line, rest) = split_line(text)?;
    let written = strip_front(line, word)?;
    let key = read_key(written)?;
    Some((key, rest))
}

/// The number behind this word, at most so large.
pub(crate) fn count_behind<'a>(
    text: &'a [u8],
    word: &[u8],
    least: u64,
    most: u64,
) -> Option<(u64, &'a [u8])>
    requires { Lacks 10 word.now }
    ensures { IsLineReadOf (λ n. (least ≤ n) × (n ≤ most)) (λ n. word.now ++ decimal n) text.now result }
{
    let (line, rest) = split_line(text)?;
    let digits = strip_front(line, word)?;
    let count = read_count(digits)?;
    if count < least {
        return None;
    }
    if count > most {
        return None;
    }
    Some((count, rest))
}

/// The size that the last line says, where 2^127 stands for each greater one too.
pub(crate) fn size_behind(text: &[u8]) -> Option<(u128, &[u8])>
    ensures some { IfSome result (λ r. (digits : List ℕ) × (size : ℕ) × (decimal_of digits ≡ Some size) × (r.0 ≡ capped size)
        × (text.now ≡ input_line digits ++ 10 ∷ r.1.now)) }
    ensures none { IsNone result → (digits rest : List ℕ) (size : ℕ) → decimal_of digits ≡ Some size
        → text.now ≡ input_line digits ++ 10 ∷ rest → ⊥ }
{
    let (line, rest) = split_line(text)?;
    let digits = strip_front(line, b"input ")?;
    let size = read_decimal(digits)?;
    Some((size, rest))
}

/// Whether there are so many bytes.
pub(crate) fn has_size(bytes: &[u8], size: u128) -> bool
    ensures yes { IsTrue result → length bytes.now ≡ size }
    ensures no { IsFalse result → length bytes.now ≡ size → ⊥ }
    ensures small { length bytes.now < 2 ^ 64 }
{
    bytes.len() as u128 == size
}
