//! What the whole program speaks of: polyhedra, their cones, labels, keys, and overflows.
//!
//! The definitions of a listing, an extreme vector, a dictionary and a passing product stand in specs/.
#![tactic(auto)]

mod cells;
mod free;
mod key;
mod keys;
mod kind;
mod label;
mod limits;
mod listed;
mod lists;
mod memory;
mod overflow;
mod poly;
mod root;
mod system;
#[cfg(test)]
mod tests;

pub use free::FreeColumns;
pub use key::Key;
pub use keys::{Keys, KeysLeft};
pub use kind::{Kind, RowKind, WorkKind};
pub use label::Label;
pub use limits::{MOST_COLUMNS, MOST_CONE_ROWS, MOST_FILE_ROWS, MOST_LABELS};
pub use listed::{Count, Listed};
pub use lists::{Lines, Rows, Vector};
pub use memory::OutOfMemory;
pub use overflow::{Overflow, Phase, Place};
pub use poly::Poly;
pub use root::Root;
pub use system::System;
