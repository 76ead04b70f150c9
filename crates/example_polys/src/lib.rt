//! Example polyhedra, a family for each kind, made without a file.
#![tactic(auto)]

mod families;
mod kind;
mod laws;
mod polys;
mod rows;

pub use kind::ExampleKind;
pub use laws::examples_have_points;
pub use polys::example;

#[cfg(test)]
mod tests;
