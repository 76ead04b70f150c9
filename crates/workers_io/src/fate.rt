//! What becomes of a start at workers in memory.

/// What becomes of a start at workers in memory, and of its reply.
#[derive(Clone, Copy, Debug, PartialEq, Eq)]
pub enum Fate {
    /// Its reply comes.
    Keep,
    /// Its reply does not come: the attempt is broken.
    Lose,
    /// The first bytes of its reply come, so many of them.
    Cut(u64),
    /// Its reply comes twice.
    Twice,
    /// Its reply comes after the next one that is there, at once where there is none.
    Late,
    /// The bytes of this number come in its place.
    Replace(u64),
    /// The start fails, and nothing is run.
    Refuse,
}
