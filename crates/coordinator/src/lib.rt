//! The running coordinator: a core, a ledger on a disk, and workers.
#![tactic(auto)]

mod beginning;
mod ending;
mod following;
mod going;
mod keeping;
mod lines;
mod reopening;
mod resuming;
mod running;
mod starting;
mod stops;
mod taking;
mod terms;
#[cfg(test)]
mod tests;
mod turns;

pub use resuming::resume;
pub use running::run;
pub use stops::{ResumeStop, RunStop, TurnStop};
pub use terms::Terms;
pub use turns::turn;
