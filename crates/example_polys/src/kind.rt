//! The families of example polyhedra.

/// A family of polyhedra, one for each n.
#[derive(Clone, Copy, PartialEq, Eq, Debug)]
pub enum ExampleKind {
    /// The cube of n dimensions, by inequalities.
    Cube,
    /// The cross polytope of n dimensions, by points.
    Cross,
    /// The product of two simplices of n dimensions each, by inequalities.
    Product,
    /// The pyramid over a cube of n dimensions, by inequalities.
    Pyramid,
}
