//! Bytes in and out, over sources and sinks that count their faults.
#![tactic(auto)]

mod bytes;
mod calls;
mod fault;
mod front;
mod memory;
mod number;
mod sink;
mod source;
mod standard;
mod whole;
mod write;

pub use bytes::Bytes;
pub use calls::Call;
pub use fault::{Failed, WriteFault};
pub use front::{FrontStop, read_front};
pub use memory::{MemSink, MemSource};
pub use number::{write_count, write_num};
pub use sink::Sink;
pub use source::Source;
pub use standard::{StdinSource, StdoutSink};
pub use whole::{WholeStop, read_whole};
pub use write::write_all;

#[cfg(test)]
mod tests;
