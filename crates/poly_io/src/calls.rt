//! What the calls of a source or a sink in memory do, one after the other.
ghost use Rattle.std.specs.Prelude.{◌≡◌, ◌≤◌, ◌<◌, ℕ};

/// What one call does: it fails, or it moves at most so many bytes, and one where that is 0.
#[derive(Clone, Copy, Debug, PartialEq, Eq)]
pub enum Call {
    Fail,
    AtMost(usize),
}

/// Takes the first call off a table. Past its end each call is whole.
pub(crate) fn next_call(table: &mut &[Call]) -> Call {
    match *table {
        [first, others @ ..] => {
            let call = *first;
            *table = others;
            call
        }
        [] => Call::AtMost(usize::MAX),
    }
}

/// How many of `len` bytes a call moves.
pub(crate) fn piece_len(call: Call, len: usize) -> usize
    ensures most { result ≤ len }
    ensures none { call ≡ Call.Fail → result ≡ 0 }
    ensures progress { (n : ℕ) → call ≡ Call.AtMost n → 0 < len → 0 < result }
{
    match call {
        Call::Fail => 0,
        Call::AtMost(most) => most.max(1).min(len),
    }
}
