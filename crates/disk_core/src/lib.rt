//! A disk as a ledger sees it: one file, what a crash may leave of it, and how often a call failed.
#![tactic(auto)]

mod calls;
mod count;
mod disk;
mod file;
mod mem_file;
mod memory;
mod quiet;
mod steps;
mod synced;

pub use calls::DiskCall;
pub use disk::Disk;
pub use file::FileDisk;
pub use memory::MemDisk;
pub use quiet::{file_len, read_full, sync_file};
pub use synced::{cut_synced, write_synced};

#[cfg(test)]
mod tests;
