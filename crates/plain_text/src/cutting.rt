//! Lines and words in front of a text.
ghost use Rattle.std.specs.Prelude.{◌≡◌, ◌≢◌, ◌++◌, ◌∷◌, ℕ, List, position, IsTrue, IsFalse, ◌↔◌, MatchOption};
ghost use Rattle.plain_text.specs.Cuts.{is_newline, is_space, Lacks, GoesOnWith, CutsLine, CutsWord};

use crate::newline_at;

/// Whether both are the same bytes: `==` as a call that says so.
pub fn is_text(text: &[u8], other: &[u8]) -> bool
    ensures { IsTrue result ↔ (text.now ≡ other.now) }
{
    text == other
}

/// What stands behind this front; none where the text has another one.
pub fn strip_front<'a>(text: &'a [u8], front: &[u8]) -> Option<&'a [u8]>
    ensures { MatchOption result ((rest : List ℕ) → text.now ≢ front.now ++ rest) (λ rest. text.now ≡ front.now ++ rest.now) }
{
    if text.len() < front.len() {
        return None;
    }
    let (begin, rest) = text.split_at(front.len());
    if is_text(begin, front) {
        Some(rest)
    } else {
        None
    }
}

/// The first line, without its LF, and what stands behind that; none where the text has no LF.
pub fn split_line(text: &[u8]) -> Option<(&[u8], &[u8])>
    ensures { MatchOption result (Lacks 10 text.now) (λ r. CutsLine text.now r.0.now r.1.now) }
{
    match newline_at(text) {
        Some(at) => Some((&text[..at], &text[at + 1..])),
        None => None,
    }
}

fn space_at(text: &[u8]) -> Option<usize>
    ensures { result ≡ position is_space text.now }
{
    text.iter().position(|b| *b == b' ')
}

/// The bytes before the first blank, or all, and the rest from that blank on.
pub fn split_word(text: &[u8]) -> (&[u8], &[u8])
    ensures { CutsWord text.now result.0.now result.1.now }
{
    match space_at(text) {
        Some(at) => (&text[..at], &text[at..]),
        None => (text, &[]),
    }
}

/// Whether a text is empty or goes on with a blank, as one does behind a word.
pub fn goes_on(text: &[u8]) -> bool
    ensures yes { IsTrue result → GoesOnWith 32 text.now }
    ensures no { IsFalse result → GoesOnWith 32 text.now → ⊥ }
{
    match text {
        [b, ..] => *b == b' ',
        [] => true,
    }
}

/// The word behind a blank, and the rest; none where the text has no blank in front.
pub fn next_word(text: &[u8]) -> Option<(&[u8], &[u8])>
    ensures { MatchOption result ((more : List ℕ) → text.now ≢ 32 ∷ more)
        (λ r. (behind : List ℕ) × (text.now ≡ 32 ∷ behind) × CutsWord behind r.0.now r.1.now) }
{
    match text {
        [b' ', behind @ ..] => Some(split_word(behind)),
        _ => None,
    }
}
