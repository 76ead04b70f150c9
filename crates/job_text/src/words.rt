//! Reads what comes after one blank in front of a text, with the rest.
ghost use Rattle.std.specs.Prelude.{◌≡◌, ◌<◌, ◌^◌, ◌∷◌, decimal};
ghost use Rattle.plain_text.specs.Texts.{IsFrontReadOf};
ghost use Rattle.poly_model.specs.LabelText.{key_text};
ghost use Rattle.job_text.specs.KeyTexts.{HasKeyText};

use crate::keys::read_key_front;
use plain_text::{next_word, read_count, strip_front};
use poly_model::Key;

/// A number below 2^64.
pub(crate) fn next_count(text: &[u8]) -> Option<(u64, &[u8])>
    ensures { IsFrontReadOf (λ n. n < 2 ^ 64) (λ n. 32 ∷ decimal n) text.now result }
{
    let (word, rest) = next_word(text)?;
    let count = read_count(word)?;
    Some((count, rest))
}

/// A key.
pub(crate) fn next_key(text: &[u8]) -> Option<(Key, &[u8])>
    ensures { IsFrontReadOf HasKeyText (λ key. 32 ∷ key_text key) text.now result }
{
    let written = strip_front(text, b" ")?;
    read_key_front(written)
}
