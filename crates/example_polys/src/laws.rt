//! Laws of the examples: contracts of functions with an empty body.
ghost use Rattle.example_polys.specs.Laws.{HavePoints};

/// Each example has a point.
pub fn examples_have_points()
    ensures { HavePoints }
{}
