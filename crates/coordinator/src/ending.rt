//! How the work of a call ends.

/// Where the work of a call comes to its end.
#[derive(Clone, Copy, PartialEq, Eq, Debug)]
pub(crate) enum Ending {
    /// Nothing is left to do.
    Whole,
    /// So many losses and strays came: more together than the call allows.
    GivenUp { lost: u64, strays: u64 },
}
