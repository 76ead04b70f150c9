//! Reads polyhedra files, and says of each other text what is wrong first.
//!
//! A text is gone through twice. The first pass takes no memory: it looks for a fault in the lines
//! before `begin`, in the header, in the numbers and behind them. The second pass marks the rows that
//! are linear, looks for a line `nonnegative`, and builds the table of whole numbers.
#![tactic(auto)]

mod bad;
mod head;
mod header;
mod late;
mod laws;
mod limits;
mod lines;
mod marks;
mod matrix;
mod nonnegative;
mod number;
mod poly;
mod read;
mod rows;
mod scaling;
#[cfg(test)]
mod tests;
mod words;

pub use bad::{BadFile, BadKind, ParseStop, ReadStop};
pub use laws::polyhedra_are_kept;
pub use limits::MOST_FILE_BYTES;
pub use poly::poly_of;
pub use read::read_poly;
