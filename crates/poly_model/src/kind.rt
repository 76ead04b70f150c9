//! The kinds of files, of their rows, and of the work that is done over them.

/// How a file describes its polyhedron.
#[derive(Clone, Copy, PartialEq, Eq, Debug)]
pub enum Kind {
    /// By inequalities and equations.
    H,
    /// By points, rays and lines.
    V,
}

/// What a row of a V file that is no line gives.
#[derive(Clone, Copy, PartialEq, Eq, Debug)]
pub enum RowKind {
    /// A point: its first entry is positive.
    Point,
    /// The direction of a ray: its first entry is 0.
    Ray,
}

/// How a listing is parted into jobs.
#[derive(Clone, Copy, PartialEq, Eq, Debug)]
pub enum WorkKind {
    /// By prefixes of subsets of rows.
    Subsets,
    /// By subtrees of the reverse search.
    Subtrees,
}
