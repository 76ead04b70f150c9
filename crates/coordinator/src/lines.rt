//! The lines of a polyhedron, which a call prepares first.
ghost use Rattle.std.specs.Prelude.{◌≡◌, ◌≤◌, length, IfOk, IsErrOf};
ghost use Rattle.poly_model.specs.declared.overflow.Overflow.{Overflow as Passed};
ghost use Rattle.poly_model.specs.Due.{IsDue, IsAskedBefore};
ghost use Rattle.poly_model.specs.Equations.{AreConsistent};
ghost use Rattle.poly_model.specs.FreeColumns.{AreLines};
ghost use Rattle.poly_model.specs.Limits.{most_columns};
ghost use Rattle.poly_model.specs.Systems.{cone_of};

use hull_lift::system_of;
use linearity::{PrepareStop, prepare};
use poly_model::{Lines, Poly};
use std::alloc::Global;

// The lines, by ascending free column. `Inconsistent` comes exactly where the equations have no common point, if no
// overflow or lack of memory came before.
pub(crate) fn lines_of(alloc: Global, poly: &Poly) -> Result<Lines, PrepareStop>
    ensures lines { IfOk result (AreLines (cone_of poly.now)) }
    ensures few { IfOk result (λ lines. length lines ≤ most_columns) }
    ensures consistent { IfOk result (λ lines. AreConsistent poly.now) }
    ensures inconsistent { IsErrOf result PrepareStop.Inconsistent → AreConsistent poly.now → ⊥ }
    ensures overflow { (o : Passed) → IsErrOf result (PrepareStop.Overflow o) → IsDue poly.now o (IsAskedBefore poly.now o) }
{
    let Ok(cone) = system_of(alloc, poly) else {
        return Err(PrepareStop::Memory);
    };
    cone.keeps_limits();
    match prepare(alloc, &cone) {
        Ok(prepared) => {
            let (lines, _, _) = prepared.into_parts();
            Ok(lines)
        }
        Err(stop) => Err(stop),
    }
}
