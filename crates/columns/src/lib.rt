//! Exchanges of a row and a column in a table by columns, written into another table.
#![tactic(auto)]

mod cells;
mod column;
mod common;
mod exchange;
mod into;
mod kernels;
mod multiplier;
mod parts;
mod rescale;
mod size;
mod slices;
mod table;
#[cfg(test)]
mod tests;
mod wide;
mod wide_column;
mod wide_kernel;

pub use cells::Cells;
pub use exchange::{Exchange, Passing, Spot};
pub use slices::{Column, WordCells};
pub use table::exchange_cells;
