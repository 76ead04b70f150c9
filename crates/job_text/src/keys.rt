//! Reads keys from their texts.
ghost use Rattle.std.specs.Prelude.{◌≡◌, ◌≤◌, ◌++◌, length, take, IfSome, IsNone, List, ℕ};
ghost use Rattle.std.specs.List.{AllByRecursion};
ghost use Rattle.plain_text.specs.Cuts.{GoesOnWith};
ghost use Rattle.plain_text.specs.Texts.{IsReadOf, IsFrontReadOf};
ghost use Rattle.poly_model.specs.LabelText.{key_text, labels_text};
ghost use Rattle.poly_model.specs.Limits.{most_labels};
ghost use Rattle.job_text.specs.KeyTexts.{HasKeyText, IsKeyLabel};

use crate::labels::read_label;
use plain_text::{next_word, read_count, split_word};
use poly_model::{Key, Label, MOST_LABELS};

// So many labels, each behind one blank, first in the room; and what stands behind them.
fn read_labels(text: &[u8], count: usize) -> Option<([Label; MOST_LABELS], &[u8])>
    requires few { count ≤ most_labels }
    requires goes_on { GoesOnWith 32 text.now }
    ensures some { IfSome result (λ r. AllByRecursion IsKeyLabel (take count r.0)
        × (text.now ≡ labels_text (take count r.0) ++ r.1.now) × GoesOnWith 32 r.1.now) }
    ensures none { IsNone result → (labels more : List ℕ) → AllByRecursion IsKeyLabel labels → length labels ≡ count
        → GoesOnWith 32 more → text.now ≡ labels_text labels ++ more → ⊥ }
{
    let mut room = [Label::EXTRA; MOST_LABELS];
    let mut rest = text;
    for i in 0..count {
        let (word, behind) = next_word(rest)?;
        let label = read_label(word)?;
        room[i] = label;
        rest = behind;
    }
    Some((room, rest))
}

/// The key whose text stands in front: how many labels it has, and its labels, strictly ascending. Takes no memory.
pub(crate) fn read_key_front(text: &[u8]) -> Option<(Key, &[u8])>
    ensures { IsFrontReadOf HasKeyText key_text text.now result }
{
    let (word, rest) = split_word(text);
    let count = read_count(word)?;
    if count > MOST_LABELS as u64 {
        return None;
    }
    let count = count as usize;
    let (room, behind) = match read_labels(rest, count) {
        Some(found) => found,
        None => return None,
    };
    let key = Key::from_ascending(&room[..count])?;
    Some((key, behind))
}

/// The key of a text: how many labels it has, and its labels, strictly ascending. Takes no memory.
pub fn read_key(text: &[u8]) -> Option<Key>
    ensures { IsReadOf HasKeyText key_text text.now result }
{
    let (key, behind) = match read_key_front(text) {
        Some(found) => found,
        None => return None,
    };
    if behind.is_empty() { Some(key) } else { None }
}
