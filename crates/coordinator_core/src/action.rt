//! What is to be done next.
use poly_model::Key;
use work_core::Budget;

/// What is to be done next.
#[derive(Clone, Copy, PartialEq, Eq, Debug)]
pub enum Action {
    /// The attempt of this number is to be started, on the job of this key with this budget.
    Hand {
        attempt: u64,
        key: Key,
        budget: Budget,
    },
    /// An attempt is to be waited for.
    Collect,
    /// Nothing is left to do.
    Finish,
    /// So many losses and strays came: more together than the call allows.
    GiveUp {
        lost: u64,
        strays: u64,
    },
}
