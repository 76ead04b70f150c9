//! The records of a run in a ledger: begun, read again after a crash, counted and printed.
#![tactic(auto)]

mod begin;
mod printed;
mod printing;
mod progress;
mod reopen;
mod rows;
mod stops;
mod telling;
#[cfg(test)]
mod tests;

pub use begin::begin_run;
pub use printing::{PrintedRun, print_run};
pub use progress::Progress;
pub use reopen::reopen_run;
pub use stops::{PrintStop, ReopenStop, StatusStop};
pub use telling::status;
