//! Laws of the cones of polyhedra: free columns, lines, extreme vectors, feasibility.
//!
//! Each law is the contract of a function that does nothing, and holds of every system.
#![tactic(auto)]

ghost use Rattle.cone_laws.specs.ExtremeLaws.{ExtremeByRank, ExtremeIsCorner, ExtremeIsOneByTightRows};
ghost use Rattle.cone_laws.specs.FeasibilityLaws.{FeasibleFileHasExtreme, FeasibleHasExtreme};
ghost use Rattle.cone_laws.specs.FreeColumnLaws.{SystemHasFreeColumns};
ghost use Rattle.cone_laws.specs.LineLaws.{EachFreeColumnHasOneLine, LinesAreOneList};
ghost use Rattle.cone_laws.specs.LineLaws.{OnlyLinesVanish, OnlyZeroHasItsOpposite};

/// The free columns of a system are exactly one list.
pub fn free_columns()
    ensures { SystemHasFreeColumns }
{}

/// Each free column has exactly one line, so that a system has exactly one list of lines.
pub fn lines()
    ensures line { EachFreeColumnHasOneLine }
    ensures list { LinesAreOneList }
{}

/// Where the free columns are 0, only zero is 0 on all rows, and only zero is in the cone with its opposite.
pub fn only_lines()
    ensures vanishing { OnlyLinesVanish }
    ensures opposite { OnlyZeroHasItsOpposite }
{}

/// The rows that are tight at a vector say whether it is extreme, and which of the extreme vectors it is.
pub fn extreme_by_tight_rows()
    ensures rank { ExtremeByRank }
    ensures one { ExtremeIsOneByTightRows }
{}

/// The extreme vectors are the corners of the cone that the fixed rows and the other rows give.
pub fn extreme_vectors_are_corners()
    ensures { ExtremeIsCorner }
{}

/// An H file is feasible exactly where some extreme vector has a positive first entry. Of a system that need
/// not be a file's it is asked that the row at infinity follows from its rows.
pub fn feasible_has_extreme()
    ensures system { FeasibleHasExtreme }
    ensures file { FeasibleFileHasExtreme }
{}
