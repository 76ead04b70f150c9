//! An attempt, as the core keeps it.
use work_core::Budget;

/// An attempt: the place of its key among those that came, its budget, and whether it is out.
#[derive(Clone, Copy, PartialEq, Eq, Debug)]
pub(crate) struct Sent {
    pub(crate) place: usize,
    pub(crate) budget: Budget,
    pub(crate) is_out: bool,
}
