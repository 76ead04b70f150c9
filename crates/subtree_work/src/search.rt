//! What a work by subtrees holds.
use convert_core::Rays;
use poly_model::System;
use poly_num::Num;
use reverse_step::Walker;

/// The cone of a file, which of its rays are shown, a walk through the cobases of its main space, and room for a vector
/// with a number for each column of the file.
#[derive(Drop)]
pub(crate) struct Search<'a> {
    pub sys: &'a System,
    pub rays: Rays,
    pub walker: Walker,
    pub vector: Vec<Num>,
}
