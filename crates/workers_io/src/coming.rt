//! What an attempt at workers in memory is still to give.
use crate::Collected;

/// What is still to come: at its turn, or after the next one that is there.
#[derive(Drop)]
pub struct Coming {
    pub(crate) late: bool,
    pub(crate) gives: Collected,
}
