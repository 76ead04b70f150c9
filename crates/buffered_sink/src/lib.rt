//! A sink that gathers what is written to it, and hands it on to another sink in large pieces.
#![tactic(auto)]

mod base;
mod buffered;
mod hand;
mod room;
mod through;

pub use base::Base;
pub use buffered::Buffered;
pub use through::write_through;

#[cfg(test)]
mod tests;
