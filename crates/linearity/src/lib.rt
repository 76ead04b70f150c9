//! Equations, free columns and lines: Gauss's elimination over exact dictionaries.
//!
//! What is stated stands in `specs/`.
#![tactic(auto)]

mod eliminate;
mod lines;
#[cfg(test)]
mod prepare_tests;
mod prepared;
mod preparing;
#[cfg(test)]
mod tests;

ghost use Rattle.linearity.specs.Laws.{EliminationLeavesLines};

pub use eliminate::{Pass, enter_rows};
pub use lines::{free_columns, lines_of};
pub use prepared::Prepared;
pub use preparing::{PrepareStop, prepare};

/// Where every row has been tried, the coordinates that are left in the cobasis are the free columns, and the vectors
/// of their columns, without common divisor, are the lines.
pub fn elimination_leaves_lines()
    ensures { EliminationLeavesLines }
{}
