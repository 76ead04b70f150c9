//! The words with which the lines of a reply begin.

/// The first word of a line behind a reply's head.
#[derive(Clone, Copy, PartialEq, Eq, Debug)]
pub(crate) enum Keyword {
    Row,
    Job,
    End,
    Overflow,
    Memory,
}
