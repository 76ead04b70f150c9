//! Records in one file, which outlive a crash.
#![tactic(auto)]

mod entry;
mod gate;
mod header;
mod laws;
mod ledger;
mod reading;
mod span;
mod stop;
mod walk;
mod window;

pub use laws::one_layout;
pub use ledger::Ledger;
pub use stop::LedgerStop;

#[cfg(test)]
mod tests;
