//! The command line of `lrs`: what its words ask for, as clap reads them.
//!
//! What is stated stands in `specs/`.
#![tactic(auto)]

mod commands;
mod laws;
mod lines;
#[cfg(test)]
mod tests;

pub use laws::{asked_is_in_range, asks_for_one_line, convert_is_exact, job_is_exact};
pub use lines::{Line, LineStop, WorkOptions, read_line};
