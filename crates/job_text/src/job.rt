//! What a job is.
use poly_model::{Key, Poly, Root, WorkKind};
use work_core::Budget;

/// What a job asks for, but for the polyhedron.
#[derive(Clone, Copy, PartialEq, Eq, Debug)]
pub struct JobHead {
    pub work: WorkKind,
    pub root: Root,
    pub key: Key,
    pub budget: Budget,
}

/// What a worker is given.
#[derive(Drop)]
pub struct Job {
    pub head: JobHead,
    pub poly: Poly,
}
