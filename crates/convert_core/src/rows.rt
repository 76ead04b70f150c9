//! The rows that are shown at a cobasis.
ghost use Rattle.std.specs.Prelude.{◌≡◌, ◌∷◌, ◌≤◌, ◌↔◌, [], length, IsTrue};
ghost use Rattle.std.specs.List.{Contains};
ghost use Rattle.poly_model.specs.Limits.{most_columns};
ghost use Rattle.hull_lift.specs.Facets.{IsColumn, primitive_column};
ghost use Rattle.lex_pivot.specs.Leads.{AreLeads};
ghost use Rattle.convert_core.specs.Rows.{IsPointShown, IsRayShown, IsColumnShown, CanTest, ShowsColumns, columns_of};

use crate::rays::Rays;
use dictionary::Dict;
use hull_lift::{facet_row, is_shown};
use lex_pivot::{Leads, Order};
use lexmin_test::{shows_point_by, shows_ray_by};
use poly_io::{Sink, WriteFault};
use poly_model::{Kind, Label, System};
use poly_num::Num;
use row_printer::Shown;

/// A cobasis at which a walk stands, by its dictionary, with the cone of the file, which of its rays are shown, the
/// order of rows, and the leads of the dictionary.
#[derive(Clone, Copy)]
pub struct Basis<'a> {
    pub cone: &'a System,
    pub rays: Rays,
    pub dict: &'a Dict,
    pub order: &'a Order,
    pub leads: &'a Leads,
}

// Whether the point of the cobasis is shown. A V file has none.
fn is_point_shown(at: &Basis) -> bool
    ensures { IsTrue result ↔ IsPointShown at.now.cone.now at.now.order.now at.now.dict.now }
{
    match at.cone.kind() {
        Kind::H => shows_point_by(at.dict, at.order),
        Kind::V => false,
    }
}

// Whether the ray along the column of a label of the cobasis is shown.
fn is_ray_shown(at: &Basis, col: Label) -> bool
    requires can { CanTest at.now.cone.now at.now.dict.now at.now.rays }
    requires leads { AreLeads at.now.dict.now at.now.order.now at.now.leads.now }
    requires column { Contains at.now.dict.now.key col }
    ensures { IsTrue result ↔ IsRayShown at.now.cone.now at.now.order.now at.now.dict.now col }
{
    if !shows_ray_by(at.dict, at.order, at.leads, col) {
        return false;
    }
    match at.rays {
        Rays::All => true,
        Rays::Touching => is_shown(at.cone, at.dict, col),
    }
}

// Whether the vector of a column is shown.
fn is_column_shown(at: &Basis, col: Label) -> bool
    requires can { CanTest at.now.cone.now at.now.dict.now at.now.rays }
    requires leads { AreLeads at.now.dict.now at.now.order.now at.now.leads.now }
    requires column { IsColumn at.now.dict.now col }
    ensures { IsTrue result ↔ IsColumnShown at.now.cone.now at.now.order.now at.now.dict.now col }
{
    if col.is_constant() {
        is_point_shown(at)
    } else {
        is_ray_shown(at, col)
    }
}

/// Whether the vector of a column is shown: of a label of the cobasis the ray along its column, of the constant label the
/// point. If so, it is written to `vector`, which has a number for each column of the file. Takes no memory.
pub fn shown_vector(at: &Basis, col: Label, vector: &mut [Num]) -> bool
    requires can { CanTest at.now.cone.now at.now.dict.now at.now.rays }
    requires leads { AreLeads at.now.dict.now at.now.order.now at.now.leads.now }
    requires column { IsColumn at.now.dict.now col }
    requires width { length vector.old ≡ at.now.cone.now.n }
    requires narrow { at.now.cone.now.n ≤ most_columns }
    ensures shown { IsTrue result ↔ IsColumnShown at.now.cone.now at.now.order.now at.now.dict.now col }
    ensures value { IsTrue result → vector.new ≡ primitive_column at.now.dict.now col at.now.cone.now.n }
    ensures width { length vector.new ≡ length vector.old }
{
    if !is_column_shown(at, col) {
        return false;
    }
    facet_row(at.dict, col, vector);
    true
}

// Prints the row of a column, if it is shown.
fn show_column<S: Sink>(
    at: &Basis,
    col: Label,
    vector: &mut [Num],
    shown: Shown,
    out: &mut S,
) -> Result<Shown, WriteFault>
    requires can { CanTest at.now.cone.now at.now.dict.now at.now.rays }
    requires leads { AreLeads at.now.dict.now at.now.order.now at.now.leads.now }
    requires column { IsColumn at.now.dict.now col }
    requires width { length vector.old ≡ at.now.cone.now.n }
    requires narrow { at.now.cone.now.n ≤ most_columns }
    ensures shows { ShowsColumns S.written S.faults at.now.cone.now at.now.order.now at.now.dict.now (col ∷ []) shown
        out.old out.new result }
    ensures width { length vector.new ≡ length vector.old }
{
    if !shown_vector(at, col, vector) {
        return Ok(shown);
    }
    shown.row(out, vector)
}

/// Prints the rows that are shown at the cobasis: its point, and the rays along its columns. `vector` is written over.
pub(crate) fn show_columns<S: Sink>(
    at: &Basis,
    vector: &mut [Num],
    shown: Shown,
    out: &mut S,
) -> Result<Shown, WriteFault>
    requires can { CanTest at.now.cone.now at.now.dict.now at.now.rays }
    requires leads { AreLeads at.now.dict.now at.now.order.now at.now.leads.now }
    requires width { length vector.old ≡ at.now.cone.now.n }
    requires narrow { at.now.cone.now.n ≤ most_columns }
    ensures shows { ShowsColumns S.written S.faults at.now.cone.now at.now.order.now at.now.dict.now
        (columns_of at.now.dict.now) shown out.old out.new result }
    ensures width { length vector.new ≡ length vector.old }
{
    let mut shown = show_column(at, Label::CONSTANT, vector, shown, out)?;
    let cobasis = at.dict.cobasis();
    'columns: for col in cobasis {
        shown = show_column(at, *col, vector, shown, out)?;
    }
    Ok(shown)
}
