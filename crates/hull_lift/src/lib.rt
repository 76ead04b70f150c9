//! What a hull is found by: the cone of a polyhedron, and the vectors of a dictionary's columns.
#![tactic(auto)]

mod cone;
mod facet;
#[cfg(test)]
mod facet_tests;
mod laws;
#[cfg(test)]
mod tests;

pub use cone::system_of;
pub use facet::{facet_row, is_shown};
pub use laws::{column_vectors, shown_columns};
