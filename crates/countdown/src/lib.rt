//! A number that falls by one at each step of a loop, and is large enough for every search: the loop's measure.
#![tactic(auto)]

mod digits;

pub use digits::Countdown;
