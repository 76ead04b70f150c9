//! No part of `lrs`, and nothing that a crate can call: tests alone, which compare the listing by reverse search with that
//! by subsets of rows.
#![tactic(auto)]

#[cfg(test)]
mod tests;
