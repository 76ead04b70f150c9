//! Linear algebra over whole numbers, as laws: each is the contract of a function with an empty body.
//!
//! What is stated stands in `specs/`; the crates above cite the lemmas of `proofs/`.
#![tactic(auto)]

ghost use Rattle.linear_laws.specs.BasisLaws.{PrimitiveIsOneUpToSign, PrimitiveFactorDivides, FirstBasisIsOne, AloneByCount};
ghost use Rattle.linear_laws.specs.FrameLaws.{PivotIsFrame, ScaledFrame, NewRowsHaveFrame, FrameRowsAreNew, DualVectorIsOne, RestrictedFrame};
ghost use Rattle.linear_laws.specs.ColumnLaws.{EliminationLeavesSlots, FreeColumnsAreTheSlots, FreeColumnsAreOneList, LineIsOne, SlotGivesLine, ZeroAtFreeColumnsIsZero};
ghost use Rattle.linear_laws.specs.TightLaws.{FirstTightIsOne, AloneByTightCount, RowTest, LocalTest, PositiveCorner};

/// Two primitive vectors, one a multiple of the other, are equal or opposite.
pub fn primitive_is_one_up_to_sign()
    ensures { PrimitiveIsOneUpToSign }
{}

/// Where `p z = q y` and `y` is primitive, `p` divides `q`.
pub fn primitive_factor_divides()
    ensures { PrimitiveFactorDivides }
{}

/// Each list of rows has one first basis, also over rows that are taken before.
pub fn first_basis_is_one()
    ensures { FirstBasisIsOne }
{}

/// Rows determine a vector but for a factor exactly where their first basis has one row less
/// than the width.
pub fn alone_by_count()
    ensures { AloneByCount }
{}

/// A pivot makes of a frame the frame with a new row in the place of its first.
pub fn pivot_is_frame()
    ensures { PivotIsFrame }
{}

/// A frame stays one where all of it is multiplied by a number other than 0, or divided by it.
pub fn scaled_frame()
    ensures { ScaledFrame }
{}

/// As many independent rows as the width have a frame.
pub fn new_rows_have_frame()
    ensures { NewRowsHaveFrame }
{}

/// The rows of a frame are independent, and as many as the width.
pub fn frame_rows_are_new()
    ensures { FrameRowsAreNew }
{}

/// The rows of a frame determine its dual vectors, but for the denominator.
pub fn dual_vector_is_one()
    ensures { DualVectorIsOne }
{}

/// A frame without some of its columns is a frame of the space on which their rows are 0.
pub fn restricted_frame()
    ensures { RestrictedFrame }
{}

/// Each list of rows can be eliminated, each row by the least coordinate at which it is not 0.
pub fn elimination_leaves_slots()
    ensures { EliminationLeavesSlots }
{}

/// The coordinates that elimination leaves are exactly the free columns.
pub fn free_columns_are_the_slots()
    ensures { FreeColumnsAreTheSlots }
{}

/// The free columns, ascending, are one list.
pub fn free_columns_are_one_list()
    ensures { FreeColumnsAreOneList }
{}

/// Each free column has one line.
pub fn line_is_one()
    ensures { LineIsOne }
{}

/// The line of a free column is the primitive vector along the dual vector of its slot.
pub fn slot_gives_line()
    ensures { SlotGivesLine }
{}

/// A vector at which all rows are 0, and that is 0 at the free columns, is zero.
pub fn zero_at_free_columns_is_zero()
    ensures { ZeroAtFreeColumnsIsZero }
{}

/// Each vector has one first independent list of the rows that are tight at it.
pub fn first_tight_is_one()
    ensures { FirstTightIsOne }
{}

/// A vector is alone on what is tight at it exactly where that list has one row less than the
/// width.
pub fn alone_by_tight_count()
    ensures { AloneByTightCount }
{}

/// Over a frame, a row that is 0 in one column follows from the rows of some columns exactly
/// where it is 0 in all others.
pub fn row_test()
    ensures { RowTest }
{}

/// Over a frame, the first independent list of the rows that are tight at a column is read off
/// the entries.
pub fn local_test()
    ensures { LocalTest }
{}

/// A form that is positive somewhere in a cone that holds no line is positive at a corner of
/// it.
pub fn positive_corner()
    ensures { PositiveCorner }
{}
