//! The reply of a job text.
#![tactic(auto)]

mod replying;
mod shipped;
#[cfg(test)]
mod tests;
mod whole;

pub use shipped::{ShippedJob, reply};
pub use whole::job;
