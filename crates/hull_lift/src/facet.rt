//! The vectors of the columns of a dictionary, and which of them are shown.
ghost use Rattle.std.specs.Prelude.{◌≡◌, ◌<◌, ◌≤◌, ◌↔◌, suc, pos, true, length, IsTrue};
ghost use Rattle.std.specs.List.{Contains};
ghost use Rattle.poly_num.specs.Divisors.{MakesPrimitive};
ghost use Rattle.poly_model.specs.Limits.{most_columns};
ghost use Rattle.poly_model.specs.declared.kind.Kind.TheVariants.{V};
ghost use Rattle.poly_model.specs.Systems.{row_of};
ghost use Rattle.dictionary.specs.Views.{number};
ghost use Rattle.hull_lift.specs.Facets.{IsColumn, IsPlaceOf, infinity_in, coordinate_in, column_of, primitive_column, HasPointRows, IsShownAs, IsShownColumn};

use dictionary::Dict;
use poly_model::{Kind, Label, System};
use poly_num::{Num, primitive};

/// Writes the vector without common divisor of a column of a dictionary: the values of the coordinates
/// where the label of the column has a positive value and the others of the cobasis are 0. `col` is a
/// label of the cobasis, or that of the column of constants, which gives the point of the dictionary:
/// there all labels of the cobasis are 0. A coordinate that is no label (coordinate 0 of an H file
/// outside the phase `Cone`) is that at infinity: it has the denominator at the point, and 0 in other
/// columns. Takes no memory.
pub fn facet_row(dict: &Dict, col: Label, out: &mut [Num])
    requires column { IsColumn dict.now col }
    requires narrow { length out.old ≤ most_columns }
    ensures value { out.new ≡ primitive_column dict.now col (length out.old) }
    ensures primitive { MakesPrimitive (column_of dict.now col (length out.old)) out.new }
{
    write_column(dict, col, out);
    primitive(out);
}

// Writes the numbers of the coordinates in a column.
fn write_column(dict: &Dict, col: Label, out: &mut [Num])
    requires column { IsColumn dict.now col }
    requires narrow { length out.old ≤ most_columns }
    ensures { out.new ≡ column_of dict.now col (length out.old) }
{
    let column = column_in(dict, col);
    'coordinates: for j in 0..out.len() {
        out[j] = coordinate_in(dict, col, column, j as u32);
    }
}

// The column of cells of a label, or of the constants.
fn column_in(dict: &Dict, col: Label) -> usize
    requires { IsColumn dict.now col }
    ensures { IsPlaceOf dict.now col result }
{
    if col.is_constant() {
        0
    } else {
        dict.column_of(col)
    }
}

// The number of coordinate j in a column, which has this place.
fn coordinate_in(dict: &Dict, col: Label, column: usize, j: u32) -> Num
    requires column { IsPlaceOf dict.now col column }
    requires narrow { j < most_columns }
    ensures { result ≡ coordinate_in dict.now col j }
{
    let label = Label::coordinate(j);
    if dict.has_label(label) {
        dict.number(label, column)
    } else {
        infinity_in(dict, col)
    }
}

// The number at infinity in a column.
fn infinity_in(dict: &Dict, col: Label) -> Num
    ensures { result ≡ infinity_in dict.now col }
{
    if col.is_constant() {
        dict.denominator()
    } else {
        Num::ZERO
    }
}

/// Whether the vector of a column is shown: of an H file always, of a V file where some point row has
/// the entry 0 there. Takes no memory.
pub fn is_shown(sys: &System, dict: &Dict, col: Label) -> bool
    requires column { sys.now.kind ≡ V → Contains dict.now.key col }
    requires points { sys.now.kind ≡ V → HasPointRows sys.now dict.now }
    ensures { IsTrue result ↔ IsShownColumn sys.now dict.now col }
{
    match sys.kind() {
        Kind::H => true,
        Kind::V => touches_point(sys, dict, col),
    }
}

// Whether some point row has the entry 0 in a column.
fn touches_point(sys: &System, dict: &Dict, col: Label) -> bool
    requires column { Contains dict.now.key col }
    requires points { HasPointRows sys.now dict.now }
    ensures { IsTrue result ↔ IsShownAs V sys.now dict.now col }
{
    let column = dict.column_of(col);
    'rows: for i in 1..sys.rows() + 1 {
        if touches(sys, dict, column, i) {
            return true;
        }
    }
    false
}

// Whether row i, counted from 1, is a point whose number in a column of cells is 0.
fn touches(sys: &System, dict: &Dict, column: usize, i: u32) -> bool
    requires column { column < suc (length dict.now.columns) }
    requires points { HasPointRows sys.now dict.now }
    requires from_one { 0 < i }
    requires within { i ≤ length sys.now.rows }
    ensures point { IsTrue result → (row_of sys.now.rows i).point ≡ true }
    ensures zero { IsTrue result → number dict.now i column ≡ pos 0 }
    ensures other { (row_of sys.now.rows i).point ≡ true → number dict.now i column ≡ pos 0 → IsTrue result }
{
    sys.keeps_limits();
    sys.is_point(i) && dict.number(Label::row(i), column).get() == 0
}
