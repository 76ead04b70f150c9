//! Which vectors are shown at a cobasis: its point, and the rays along its columns.
#![tactic(auto)]

mod points;
mod rays;
#[cfg(test)]
mod tests;
mod word_points;
mod word_rays;

pub use points::{shows_point, shows_point_by};
pub use rays::{shows_ray, shows_ray_by};
