//! The listing of a file by reverse search: its equations and lines, a first cobasis, and a walk through all that are
//! lexicographically feasible, at each of which the vectors are printed that are shown there.
//!
//! What is stated stands in `specs/`.
#![tactic(auto)]

mod begin;
mod discard;
mod listing;
mod rays;
mod rows;
mod search;
#[cfg(test)]
mod tests;
mod totals;
mod walk;

pub use begin::{SearchStop, search_root};
pub use listing::{convert, list};
pub use rays::{Rays, rays_of};
pub use rows::{Basis, shown_vector};
pub use totals::{Totals, totals_of};
