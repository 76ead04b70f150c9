//! What the columns of a dictionary have to do with its space, proved from the definitions.
ghost use Rattle.hull_lift.specs.Laws.{ColumnVectors, ShownColumns};

/// In every phase but that with one unknown more: the direction along a label of the cobasis is, over
/// the coordinates of the cone, proportional to the column of that label, and the point to the column of
/// constants.
pub fn column_vectors()
    ensures { ColumnVectors }
{}

/// A column is shown exactly where that vector is.
pub fn shown_columns()
    ensures { ShownColumns }
{}
