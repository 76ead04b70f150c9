//! Which way the direction that is left is shown, and its vector.
ghost use Rattle.std.specs.Prelude.{◌≡◌, ◌≤◌, IfSome, IsNone, length};
ghost use Rattle.std.specs.List.{Contains};
ghost use Rattle.poly_model.specs.Limits.{most_columns};
ghost use Rattle.plain_enum.specs.declared.side.Side.{Side as AnySide};
ghost use Rattle.plain_enum.specs.Columns.{HasRows};
ghost use Rattle.hull_lift.specs.Facets.{primitive_column};
ghost use Rattle.plain_enum.specs.Shown.{IsShownOn, vector_on};

use crate::side::{Side, is_first, side_of};
use dictionary::Dict;
use hull_lift::{facet_row, is_shown};
use poly_model::{Label, System};
use poly_num::{Num, negate};

/// The side on which a column is shown, if any.
pub fn shown_side(sys: &System, dict: &Dict, col: Label) -> Option<Side>
    requires rows { HasRows (length sys.now.rows) dict.now }
    requires column { Contains dict.now.key col }
    ensures some { IfSome result (IsShownOn sys.now dict.now col) }
    ensures none { IsNone result → (side : AnySide) → IsShownOn sys.now dict.now col side → ⊥ }
{
    let rows = sys.rows();
    let side = side_of(dict, rows, col)?;
    if is_shown(sys, dict, col) && is_first(sys, dict, rows, col) {
        Some(side)
    } else {
        None
    }
}

/// Writes the vector without common divisor of a column, or its opposite.
pub fn write_direction(dict: &Dict, col: Label, side: Side, vector: &mut [Num])
    requires column { Contains dict.now.key col }
    requires narrow { length vector.old ≤ most_columns }
    ensures value { vector.new ≡ vector_on side (primitive_column dict.now col (length vector.old)) }
    ensures width { length vector.new ≡ length vector.old }
{
    facet_row(dict, col, vector);
    match side {
        Side::Along => {}
        Side::Against => negate(vector),
    }
}
