//! The core of the coordinator: a machine that hands out the jobs of a run and takes in what comes, without a disk and
//! without workers.
#![tactic(auto)]

mod action;
mod event;
mod looks;
mod machine;
mod moves;
mod options;
mod sent;
#[cfg(test)]
mod tests;
mod verdict;

pub use action::Action;
pub use event::Event;
pub use machine::Core;
pub use options::Options;
pub use verdict::Verdict;
