//! The walk of a reverse search through the tree of cobases (Avis and Fukuda 1992), with the dictionaries of the nearest
//! ancestors and no stack.
#![tactic(auto)]

mod children;
mod ring;
mod slots;
#[cfg(test)]
mod tests;
mod walker;
mod way;

pub use walker::{Visit, Walker};
