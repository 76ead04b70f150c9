//! Dictionaries of cobases over their least denominator, with pivots in place.
#![tactic(auto)]

mod arrangement;
mod dict;
mod first_phase;
mod lead;
mod main_phase;
mod new;
mod overflow;
mod passing;
mod pivot;
mod places;
mod positions;
mod rooms;
mod steps;
#[cfg(test)]
mod tests;

pub use dict::Dict;
pub use passing::PassingProducts;
pub use positions::Position;
pub use steps::Steps;
