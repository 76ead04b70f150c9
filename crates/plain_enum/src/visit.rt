//! The search over prefixes of rows, and what is done at each vector that it finds. Where just one coordinate is left
//! in the cobasis beside those that are free, its column is the direction on which the linear rows and all rows taken
//! are 0.
ghost use Rattle.std.specs.Prelude.{◌≡◌, ◌≤◌, ◌<◌, ℕ, ℤ, Bool, List, length, IfOk, IfErr, IsErrOf, []};
ghost use Rattle.std.specs.List.{All};
ghost use Rattle.poly_model.specs.declared.overflow.Overflow.{Overflow as Passed};
ghost use Rattle.poly_model.specs.Systems.{Polyhedron, cone_of};
ghost use Rattle.dictionary.specs.Blanks.{IsBlankOf};
ghost use Rattle.dictionary.specs.Views.{Dictionary, CanPivot, IsPivot, IsOverflow};
ghost use Rattle.listing_laws.specs.ListedCone.{ListedCone};
ghost use Rattle.listing_laws.specs.Prefixes.{IsCornerUnder};
ghost use Rattle.plain_enum.specs.Begin.{IsBegun, HasRoomForAll, begun_cone};
ghost use Rattle.plain_enum.specs.Listed.{HasShapeOf, IsAt, HasRoomFor};
ghost use Rattle.plain_enum.specs.Visits.{VisitsUnder, VisitsEach, VisitsSome};
ghost use Rattle.plain_enum.specs.Plain.{PassesInCone};

use crate::begin::Room;
use crate::prefix::{Ended, Prefix};
use crate::shown::{shown_side, write_direction};
use crate::side::{column_of, left_coordinate};
use dictionary::{Dict, Steps};
use poly_model::{Label, Overflow};
use poly_num::Num;
use std::marker::Brand;
use std::sync::ledger::{Blank, Ledger};

/// What is done at each vector that a search finds. It works on an `O`, and may end the search with an `E`.
pub trait Visit<O, E>: Drop {
    /// Which visitor is left behind a vector where the search goes on, and what it has made of the `O`.
    ghost visits: { Self → O → List ℤ → Self → O → Type 0 };

    /// With what it ends the search at a vector, and what it has made of the `O`.
    ghost ends: { Self → O → List ℤ → E → O → Type 0 };

    fn visit(self, vector: &[Num], out: &mut O) -> Result<Self, E>
        requires some { 0 < length vector.now }
        ensures visits { IfOk result (λ next. visits self out.old vector.now next out.new) }
        ensures ends { IfErr result (λ e. ends self out.old vector.now e out.new) };
}

// Visits the direction that is left, if its column is shown on some side.
fn visit_left<O, E, V: Visit<O, E>>(
    prefix: &Prefix,
    vector: &mut [Num],
    visitor: V,
    out: &mut O,
) -> Result<V, Ended<E>>
    requires room { HasRoomFor prefix.now.sys.now prefix.now.dict.now [] vector.old }
    ensures visited { VisitsUnder V.visits V.ends prefix.now.sys.now prefix.now.free.now prefix.now.dict.now
        prefix.now.from 0 visitor out.old out.new result }
    ensures some { VisitsSome V.visits V.ends visitor out.old out.new result }
    ensures passes { (o : Passed) → IsErrOf result (Ended.Overflow o) → ⊥ }
    ensures width { length vector.new ≡ prefix.now.sys.now.n }
{
    let Some(col) = left_coordinate(prefix.dict, prefix.free) else {
        return Ok(visitor);
    };
    let Some(side) = shown_side(prefix.sys, prefix.dict, col) else {
        return Ok(visitor);
    };
    write_direction(prefix.dict, col, side, vector);
    match visitor.visit(vector, out) {
        Ok(next) => Ok(next),
        Err(end) => Err(Ended::Stopped(end)),
    }
}

/// Makes the next dictionary the one of the cobasis in which a row has taken the place of a column. Where that
/// overflows, the next one is as before.
pub fn take_row(dict: &Dict, row: Label, col: Label, next: &mut Dict) -> Result<(), Overflow>
    requires can { CanPivot dict.now row col }
    requires shape { HasShapeOf dict.now next.old }
    ensures pivoted { IfOk result (λ _. IsPivot dict.now row col next.new) }
    ensures passes { IfErr result (λ o. IsOverflow dict.now row col o) }
    ensures shape { HasShapeOf dict.now next.new }
{
    take_row_counted::<Brand>(dict, row, col, next, Blank::new(1))
}

// The same with a blank for the pivot's counter, of which nothing is said.
fn take_row_counted<L: Ledger>(
    dict: &Dict,
    row: Label,
    col: Label,
    next: &mut Dict,
    blank: Blank,
) -> Result<(), Overflow>
    requires can { CanPivot dict.now row col }
    requires shape { HasShapeOf dict.now next.old }
    requires blank { IsBlankOf blank.name blank.parts L.name L.parts }
    ensures pivoted { IfOk result (λ _. IsPivot dict.now row col next.new) }
    ensures passes { IfErr result (λ o. IsOverflow dict.now row col o) }
    ensures shape { HasShapeOf dict.now next.new }
{
    match dict.pivot_into(next, row, col, &mut Steps::<L>::new(blank)) {
        Ok(()) => Ok(()),
        Err(products) => Err(dict.overflow(products)),
    }
}

/// Visits the vectors under a prefix of rows: those whose first list of tight rows has, of the rows before the prefix's
/// end, exactly the ones that are taken. `deeper` has a dictionary of the same shape for each further row that a list
/// takes; what they hold is written over, and so is `vector`.
pub fn visit_under<O, E, V: Visit<O, E>>(
    prefix: &Prefix,
    deeper: &mut [Dict],
    vector: &mut [Num],
    visitor: V,
    out: &mut O,
) -> Result<V, Ended<E>>
    requires from { 0 < prefix.now.from }
    requires room { HasRoomFor prefix.now.sys.now prefix.now.dict.now deeper.old vector.old }
    ensures visited { VisitsUnder V.visits V.ends prefix.now.sys.now prefix.now.free.now prefix.now.dict.now
        prefix.now.from (length deeper.old) visitor out.old out.new result }
    ensures some { VisitsSome V.visits V.ends visitor out.old out.new result }
    ensures passes { (o : Passed) → IsErrOf result (Ended.Overflow o) → (p : Polyhedron) (cone : ListedCone)
        (fixed left : List ℕ) (marks : List Bool) →
        IsAt prefix.now.sys.now prefix.now.free.now prefix.now.dict.now prefix.now.from (length deeper.old)
        p cone fixed left marks → PassesInCone p o }
    ensures room { HasRoomFor prefix.now.sys.now prefix.now.dict.now deeper.new vector.new }
    ensures depth { length deeper.new ≡ length deeper.old }
{
    match deeper.split_first_mut() {
        None => visit_left(prefix, vector, visitor, out),
        Some((next, others)) => {
            let mut visitor = visitor;
            'rows: for i in prefix.from..prefix.sys.rows() + 1 {
                let row = Label::row(i);
                if let Some(col) = column_of(prefix.dict, prefix.free, row) {
                    if let Err(overflow) = take_row(prefix.dict, row, col, next) {
                        return Err(Ended::Overflow(overflow));
                    }
                    let below = Prefix {
                        sys: prefix.sys,
                        free: prefix.free,
                        dict: next,
                        from: i + 1,
                    };
                    visitor = visit_under(&below, others, vector, visitor, out)?;
                }
            }
            Ok(visitor)
        }
    }
}

/// Visits the extreme vectors, from a dictionary at which the linear rows have been tried. Where no coordinate is left
/// there is none.
pub(crate) fn visit_all<O, E, V: Visit<O, E>>(
    start: &Prefix,
    room: &mut Room,
    visitor: V,
    out: &mut O,
) -> Result<V, Ended<E>>
    requires first { start.now.from ≡ 1 }
    requires room { HasRoomForAll start.now.sys.now start.now.free.now start.now.dict.now
        room.old.deeper.items room.old.vector.items }
    ensures visited { (p : Polyhedron) (last : Dictionary) → start.now.sys.now ≡ cone_of p →
        IsBegun p start.now.dict.now last start.now.free.now →
        VisitsEach V.visits V.ends visitor out.old out.new result
        (IsCornerUnder (begun_cone p start.now.free.now start.now.dict.now) []) }
    ensures some { VisitsSome V.visits V.ends visitor out.old out.new result }
    ensures passes { (o : Passed) → IsErrOf result (Ended.Overflow o) → (p : Polyhedron) (last : Dictionary) →
        start.now.sys.now ≡ cone_of p → IsBegun p start.now.dict.now last start.now.free.now → PassesInCone p o }
    ensures room { HasRoomForAll start.now.sys.now start.now.free.now start.now.dict.now
        room.new.deeper.items room.new.vector.items }
{
    match left_coordinate(start.dict, start.free) {
        Some(_) => visit_under(start, &mut room.deeper, &mut room.vector, visitor, out),
        None => Ok(visitor),
    }
}
