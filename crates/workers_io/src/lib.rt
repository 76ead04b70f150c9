//! Workers that are given job texts and answer with bytes.
#![tactic(auto)]

mod attempts;
mod children;
mod collected;
mod coming;
mod count;
mod error_pipe;
mod fate;
mod fated;
mod launcher;
mod log;
mod memory;
mod queue;
mod reply_file;
mod running;
mod told;
mod workers;

pub use children::ChildWorkers;
pub use collected::Collected;
pub use fate::Fate;
pub use memory::MemWorkers;
pub use reply_file::MOST_REPLY_BYTES;
pub use workers::Workers;

#[cfg(test)]
mod tests;
