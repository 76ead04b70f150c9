//! The lists under one whose rows are independent: a dictionary stands at it.
ghost use Rattle.std.specs.Prelude.{◌≡◌, ◌+◌, ◌-◌, ◌≤◌, ◌<◌, ◌++◌, ℕ, List, length, take, ok_or, IfSome, IsTrue, IsFalse, IsErrOf, []};
ghost use Rattle.poly_io.specs.Causes.{RisesAt};
ghost use Rattle.poly_model.specs.Limits.{most_labels};
ghost use Rattle.poly_model.specs.declared.overflow.Overflow.{Overflow as Passed};
ghost use Rattle.poly_model.specs.Systems.{Polyhedron};
ghost use Rattle.dictionary.specs.Views.{CanPivot, IsPivot, IsOverflow};
ghost use Rattle.plain_enum.specs.Listed.{HasRoomFor, HasShapeOf};
ghost use Rattle.work_core.specs.Splits.{most_bases};
ghost use Rattle.subset_work.specs.Standing.{IsNext, HasRoom, IsLive};
ghost use Rattle.subset_work.specs.Counts.{MayVisit, MayCome, CountsOn, ComesOn};
ghost use Rattle.subset_work.specs.Walked.{WalksUnder};

use crate::dead::{RowList, visit_dead};
use crate::descend::{Way, column_for, left_of};
use crate::progress::{Progress, stops};
use crate::trail::Trail;
use dictionary::Dict;
use plain_enum::{Prefix, left_coordinate, shown_side, take_row, write_direction};
use poly_io::{Sink, WriteFault};
use poly_model::{Count, Label};
use poly_num::Num;
use work_core::{WorkStop, one_base, one_row, write_row};

/// A list whose rows are independent: where the dictionary stands at it, how many rows it has, and how far the walk has come.
#[derive(Clone, Copy)]
pub struct Live<'a> {
    pub prefix: Prefix<'a>,
    pub len: usize,
    pub so_far: &'a Progress,
}

/// Visits a list that is as long as may be: shows the direction that is left, if its column is shown on some side. Where
/// the sink fails, that is noted.
#[inline(never)]
pub fn show_left<S: Sink>(
    prefix: &Prefix,
    vector: &mut [Num],
    before: Count,
    stop: &mut WorkStop,
    out: &mut S,
) -> Option<Count>
    requires room { HasRoomFor prefix.now.sys.now prefix.now.dict.now [] vector.old }
    requires most { before.bases < most_bases }
    requires rows { before.rows ≤ before.bases }
    ensures walked { (p : Polyhedron) (key : List ℕ) (most longest : ℕ) →
        IsLive prefix.now.sys.now prefix.now.free.now prefix.now.dict.now prefix.now.from 0 p key → HasRoom p key 0 →
        before.bases < most → length key < longest →
        WalksUnder p key most longest (S.written out.old) (S.written out.new) before (ok_or result stop.new) }
    ensures on { IfSome result (CountsOn (before.bases + 1) before) }
    ensures overflow { (o : Passed) → IsErrOf (ok_or result stop.new) (WorkStop.Overflow o) → ⊥ }
    ensures width { length vector.new ≡ prefix.now.sys.now.n }
    ensures cause { RisesAt WorkStop.WriteFault (S.faults out.old) (S.faults out.new) (ok_or result stop.new) }
{
    let count = one_base(before);
    let Some(col) = left_coordinate(prefix.dict, prefix.free) else {
        return Some(count);
    };
    let Some(side) = shown_side(prefix.sys, prefix.dict, col) else {
        return Some(count);
    };
    write_direction(prefix.dict, col, side, vector);
    match write_row(vector, out) {
        Ok(()) => Some(one_row(count)),
        Err(WriteFault) => {
            *stop = WorkStop::WriteFault;
            None
        }
    }
}

// Takes a row in the place of a column; where a product passes, that is noted.
#[inline(never)]
fn take_noted(dict: &Dict, row: Label, col: Label, next: &mut Dict, stop: &mut WorkStop) -> bool
    requires can { CanPivot dict.now row col }
    requires shape { HasShapeOf dict.now next.old }
    ensures pivoted { IsTrue result → IsPivot dict.now row col next.new }
    ensures passes { IsFalse result → (o : Passed) × (stop.new ≡ WorkStop.Overflow o) × IsOverflow dict.now row col o }
    ensures shape { HasShapeOf dict.now next.new }
{
    match take_row(dict, row, col, next) {
        Ok(()) => true,
        Err(overflow) => {
            *stop = WorkStop::Overflow(overflow);
            false
        }
    }
}

// Visits the list and those under it. There is one dictionary more for each further row of a list; what they hold is
// written over, and so is `vector`.
#[cycle(live)]
fn visit_live<S: Sink>(
    live: &Live,
    deeper: &mut [Dict],
    vector: &mut [Num],
    trail: &mut Trail,
    out: &mut S,
) -> Option<Count>
    requires room { HasRoomFor live.now.prefix.sys.now live.now.prefix.dict.now deeper.old vector.old }
    requires few { live.now.len + length deeper.old ≤ most_labels }
    requires from { 0 < live.now.prefix.from }
    requires may { MayVisit live.now.so_far.now live.now.len }
    ensures walked { (p : Polyhedron) → IsLive live.now.prefix.sys.now live.now.prefix.free.now live.now.prefix.dict.now
        live.now.prefix.from (length deeper.old) p (take live.now.len trail.old.labels) →
        HasRoom p (take live.now.len trail.old.labels) (length deeper.old) →
        IsNext (take live.now.len trail.old.labels) live.now.prefix.from →
        WalksUnder p (take live.now.len trail.old.labels) live.now.so_far.now.most live.now.so_far.now.longest
        (S.written out.old) (S.written out.new) live.now.so_far.now.count (ok_or result trail.new.stop) }
    ensures on { IfSome result (CountsOn live.now.so_far.now.most live.now.so_far.now.count) }
    ensures room { HasRoomFor live.now.prefix.sys.now live.now.prefix.dict.now deeper.new vector.new }
    ensures depth { length deeper.new ≡ length deeper.old }
    ensures kept { take live.now.len trail.new.labels ≡ take live.now.len trail.old.labels }
    ensures cause { RisesAt WorkStop.WriteFault (S.faults out.old) (S.faults out.new) (ok_or result trail.new.stop) }
{
    let prefix = &live.prefix;
    if deeper.is_empty() {
        return show_left(prefix, vector, live.so_far.count, &mut trail.stop, out);
    }
    let mut count = one_base(live.so_far.count);
    'rows: for i in prefix.from..prefix.sys.rows() + 1 {
        if !prefix.sys.is_linear(i) {
            let row = Label::row(i);
            trail.put(live.len, row);
            let labels = [row];
            let now = Progress {
                count,
                ..*live.so_far
            };
            let way = Way {
                prefix: *prefix,
                list: RowList {
                    sys: prefix.sys,
                    len: live.len + 1,
                    from: i + 1,
                },
                rest: &labels,
                so_far: &now,
            };
            match visit_under(&way, deeper, vector, trail, out) {
                Some(on) => count = on,
                None => return None,
            }
        }
    }
    Some(count)
}

/// Gives the list back where the walk stops at it; else takes the other labels one after the other, and visits the list and
/// those under it.
#[cycle(live)]
pub fn visit_under<S: Sink>(
    way: &Way,
    deeper: &mut [Dict],
    vector: &mut [Num],
    trail: &mut Trail,
    out: &mut S,
) -> Option<Count>
    requires room { HasRoomFor way.now.prefix.sys.now way.now.prefix.dict.now deeper.old vector.old }
    requires fits { way.now.list.len ≤ most_labels }
    requires deep { way.now.list.len + length deeper.old ≤ most_labels + length way.now.rest.now }
    requires from { 0 < way.now.list.from }
    requires may { MayCome way.now.so_far.now way.now.list.len }
    requires sys { way.now.list.sys.now ≡ way.now.prefix.sys.now }
    ensures walked { (p : Polyhedron) (front : List ℕ) → IsLive way.now.prefix.sys.now way.now.prefix.free.now
        way.now.prefix.dict.now way.now.prefix.from (length deeper.old) p front → IsNext front way.now.prefix.from →
        take way.now.list.len trail.old.labels ≡ front ++ way.now.rest.now →
        HasRoom p (take way.now.list.len trail.old.labels) (length deeper.old - length way.now.rest.now) →
        IsNext (take way.now.list.len trail.old.labels) way.now.list.from →
        WalksUnder p (take way.now.list.len trail.old.labels) way.now.so_far.now.most way.now.so_far.now.longest
        (S.written out.old) (S.written out.new) way.now.so_far.now.count (ok_or result trail.new.stop) }
    ensures on { IfSome result (ComesOn way.now.so_far.now.most way.now.so_far.now.count) }
    ensures visits { MayVisit way.now.so_far.now way.now.list.len →
        IfSome result (CountsOn way.now.so_far.now.most way.now.so_far.now.count) }
    ensures room { HasRoomFor way.now.prefix.sys.now way.now.prefix.dict.now deeper.new vector.new }
    ensures depth { length deeper.new ≡ length deeper.old }
    ensures kept { take way.now.list.len trail.new.labels ≡ take way.now.list.len trail.old.labels }
    ensures cause { RisesAt WorkStop.WriteFault (S.faults out.old) (S.faults out.new) (ok_or result trail.new.stop) }
{
    if stops(way.so_far, way.list.len) {
        return trail.give_list(way.list.len, way.so_far.count, out);
    }
    let prefix = &way.prefix;
    let left = left_of(way, deeper.len());
    let Some((label, later)) = way.rest.split_first() else {
        let live = Live {
            prefix: Prefix {
                from: way.list.from,
                ..*prefix
            },
            len: way.list.len,
            so_far: way.so_far,
        };
        return visit_live(&live, deeper, vector, trail, out);
    };
    let Some(col) = column_for(prefix, *label) else {
        return visit_dead(&way.list, left, way.so_far, trail, out);
    };
    let Some((next, others)) = deeper.split_first_mut() else {
        return visit_dead(&way.list, left, way.so_far, trail, out);
    };
    if !take_noted(prefix.dict, *label, col, next, &mut trail.stop) {
        return None;
    }
    let below = Way {
        prefix: Prefix {
            dict: next,
            from: u32::from(label.number()) + 1,
            ..*prefix
        },
        list: way.list,
        rest: later,
        so_far: way.so_far,
    };
    visit_under(&below, others, vector, trail, out)
}
