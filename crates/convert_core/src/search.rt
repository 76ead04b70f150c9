//! What a listing by reverse search holds.
use crate::rays::Rays;
use poly_model::{Poly, System};
use poly_num::Num;
use reverse_step::Walker;

/// A file with its cone, which of its rays are shown, a walk through the cobases of its main space, and room for a
/// vector with a number for each column of the file.
#[derive(Drop)]
pub(crate) struct Search<'a> {
    pub poly: &'a Poly,
    pub cone: System,
    pub rays: Rays,
    pub walker: Walker,
    pub vector: Vec<Num>,
}
