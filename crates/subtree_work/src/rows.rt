//! The lines of the rows that are shown at a cobasis.
ghost use Rattle.std.specs.Prelude.{◌≡◌, ◌≤◌, ◌<◌, ◌+◌, ◌∷◌, [], length, IfOk, OnErr};
ghost use Rattle.poly_io.specs.Causes.{HasCause};
ghost use Rattle.hull_lift.specs.Facets.{IsColumn};
ghost use Rattle.convert_core.specs.Rows.{columns_of};
ghost use Rattle.work_core.specs.Splits.{most_lines};
ghost use Rattle.subtree_work.specs.Rows.{CanShow, ShowsRows, TearsRows};

use convert_core::{Basis, shown_vector};
use poly_io::{Sink, WriteFault};
use poly_model::{Count, Label};
use poly_num::Num;
use work_core::{one_row, write_row};

// Writes the row of a column, if it is shown.
fn show_column<S: Sink>(
    at: &Basis,
    col: Label,
    vector: &mut [Num],
    count: Count,
    out: &mut S,
) -> Result<Count, WriteFault>
    requires can { CanShow at.now }
    requires column { IsColumn at.now.dict.now col }
    requires width { length vector.old ≡ at.now.cone.now.n }
    requires some { count.rows < most_lines }
    ensures shows { IfOk result (ShowsRows at.now.cone.now at.now.order.now at.now.dict.now (col ∷ []) (S.written out.old)
        (S.written out.new) count) }
    ensures few { IfOk result (λ n. n.rows ≤ count.rows + 1) }
    ensures tears { OnErr result (TearsRows at.now.cone.now at.now.order.now at.now.dict.now (col ∷ []) (S.written out.old)
        (S.written out.new)) }
    ensures width { length vector.new ≡ length vector.old }
    ensures cause { HasCause (S.faults out.old) (S.faults out.new) result }
{
    if !shown_vector(at, col, vector) {
        return Ok(count);
    }
    match write_row(vector, out) {
        Ok(()) => Ok(one_row(count)),
        Err(WriteFault) => Err(WriteFault),
    }
}

/// Writes the rows that are shown at the cobasis: its point, and the rays along its columns. `vector` is written over.
pub(crate) fn show_columns<S: Sink>(
    at: &Basis,
    vector: &mut [Num],
    count: Count,
    out: &mut S,
) -> Result<Count, WriteFault>
    requires can { CanShow at.now }
    requires width { length vector.old ≡ at.now.cone.now.n }
    requires few { count.rows ≤ 9000000000000000 }
    ensures shows { IfOk result (ShowsRows at.now.cone.now at.now.order.now at.now.dict.now (columns_of at.now.dict.now)
        (S.written out.old) (S.written out.new) count) }
    ensures tears { OnErr result (TearsRows at.now.cone.now at.now.order.now at.now.dict.now (columns_of at.now.dict.now)
        (S.written out.old) (S.written out.new)) }
    ensures width { length vector.new ≡ length vector.old }
    ensures cause { HasCause (S.faults out.old) (S.faults out.new) result }
{
    let mut count = show_column(at, Label::CONSTANT, vector, count, out)?;
    let cobasis = at.dict.cobasis();
    'columns: for col in cobasis {
        count = show_column(at, *col, vector, count, out)?;
    }
    Ok(count)
}
