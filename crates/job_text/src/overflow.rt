//! Reads overflows from their texts.
ghost use Rattle.std.specs.Prelude.{◌≡◌, ◌==◌, ◌++◌, ◌∷◌, position, MatchOption, ⊤};
ghost use Rattle.plain_text.specs.Cuts.{Lacks};
ghost use Rattle.plain_text.specs.Texts.{IsReadOf, IsFrontReadOf};
ghost use Rattle.poly_model.specs.LabelText.{place_text, phase_text};
ghost use Rattle.row_printer.specs.OverflowText.{overflow_text};
ghost use Rattle.job_text.specs.Overflows.{HasOverflowText, HasPlaceText};

use crate::labels::read_place_label;
use crate::words::next_key;
use plain_text::{is_text, next_word, split_word};
use poly_model::{Overflow, Phase, Place};

fn read_phase(word: &[u8]) -> Option<Phase>
    ensures { IsReadOf (λ _. ⊤) phase_text word.now result }
{
    if is_text(word, b"cone") {
        Some(Phase::Cone)
    } else if is_text(word, b"prepare") {
        Some(Phase::Prepare)
    } else if is_text(word, b"main") {
        Some(Phase::Main)
    } else if is_text(word, b"first") {
        Some(Phase::First)
    } else {
        None
    }
}

fn comma_at(word: &[u8]) -> Option<usize>
    ensures { result ≡ position (λ b. b == 44) word.now }
{
    word.iter().position(|b| *b == b',')
}

// What stands before and behind the first comma.
fn split_comma(word: &[u8]) -> Option<(&[u8], &[u8])>
    ensures { MatchOption result (Lacks 44 word.now) (λ r. (word.now ≡ r.0.now ++ 44 ∷ r.1.now) × Lacks 44 r.0.now) }
{
    match comma_at(word) {
        Some(at) => Some((&word[..at], &word[at + 1..])),
        None => None,
    }
}

fn read_place(word: &[u8]) -> Option<Place>
    ensures { IsReadOf HasPlaceText place_text word.now result }
{
    let (before, behind) = split_comma(word)?;
    let row = read_place_label(before)?;
    let col = read_place_label(behind)?;
    Some(Place { row, col })
}

// A place behind one blank, and the rest.
fn next_place(text: &[u8]) -> Option<(Place, &[u8])>
    ensures { IsFrontReadOf HasPlaceText (λ place. 32 ∷ place_text place) text.now result }
{
    let (word, rest) = next_word(text)?;
    let place = read_place(word)?;
    Some((place, rest))
}

/// The overflow of a text: its phase, its key and its four places.
pub(crate) fn read_overflow(text: &[u8]) -> Option<Overflow>
    ensures { IsReadOf HasOverflowText overflow_text text.now result }
{
    let (word, rest) = split_word(text);
    let phase = read_phase(word)?;
    let (key, rest) = match next_key(rest) {
        Some(found) => found,
        None => return None,
    };
    let (a, rest) = match next_place(rest) {
        Some(found) => found,
        None => return None,
    };
    let (b, rest) = match next_place(rest) {
        Some(found) => found,
        None => return None,
    };
    let (c, rest) = match next_place(rest) {
        Some(found) => found,
        None => return None,
    };
    let (d, rest) = match next_place(rest) {
        Some(found) => found,
        None => return None,
    };
    if !rest.is_empty() {
        return None;
    }
    Some(Overflow {
        phase,
        key,
        a,
        b,
        c,
        d,
    })
}
