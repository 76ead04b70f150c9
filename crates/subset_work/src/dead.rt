//! The lists under one that has a dependent row: each is a base, and none shows a vector.
ghost use Rattle.std.specs.Prelude.{◌≡◌, ◌+◌, ◌≤◌, ◌<◌, take, ok_or, IfSome, IsErrOf};
ghost use Rattle.poly_io.specs.Causes.{RisesAt};
ghost use Rattle.poly_model.specs.Limits.{most_labels};
ghost use Rattle.poly_model.specs.declared.overflow.Overflow.{Overflow as Passed};
ghost use Rattle.poly_model.specs.Systems.{Polyhedron, cone_of};
ghost use Rattle.subset_work.specs.Standing.{IsNext, HasRoom, IsDead};
ghost use Rattle.subset_work.specs.Counts.{MayVisit, MayCome, CountsOn, ComesOn};
ghost use Rattle.subset_work.specs.Walked.{WalksUnder};

use crate::progress::{Progress, stops};
use crate::trail::Trail;
use poly_io::Sink;
use poly_model::{Count, Label, System};
use work_core::{WorkStop, one_base};

/// A list of rows of a system: so many of the trail's. And the first row that may be taken after them.
#[derive(Clone, Copy)]
pub struct RowList<'a> {
    pub sys: &'a System,
    pub len: usize,
    pub from: u32,
}

/// Gives the list back where the walk stops at it; else visits it and those under it, which may have so many rows more.
pub fn visit_dead<S: Sink>(
    list: &RowList,
    left: usize,
    so_far: &Progress,
    trail: &mut Trail,
    out: &mut S,
) -> Option<Count>
    requires room { list.now.len + left ≤ most_labels }
    requires from { 0 < list.now.from }
    requires may { MayCome so_far.now list.now.len }
    ensures walked { (p : Polyhedron) → list.now.sys.now ≡ cone_of p →
        HasRoom p (take list.now.len trail.old.labels) left →
        IsNext (take list.now.len trail.old.labels) list.now.from → IsDead p (take list.now.len trail.old.labels) →
        WalksUnder p (take list.now.len trail.old.labels) so_far.now.most so_far.now.longest (S.written out.old)
        (S.written out.new) so_far.now.count (ok_or result trail.new.stop) }
    ensures on { IfSome result (ComesOn so_far.now.most so_far.now.count) }
    ensures visits { MayVisit so_far.now list.now.len → IfSome result (CountsOn so_far.now.most so_far.now.count) }
    ensures kept { take list.now.len trail.new.labels ≡ take list.now.len trail.old.labels }
    ensures overflow { (o : Passed) → IsErrOf (ok_or result trail.new.stop) (WorkStop.Overflow o) → ⊥ }
    ensures cause { RisesAt WorkStop.WriteFault (S.faults out.old) (S.faults out.new) (ok_or result trail.new.stop) }
{
    if stops(so_far, list.len) {
        return trail.give_list(list.len, so_far.count, out);
    }
    let mut count = one_base(so_far.count);
    if left == 0 {
        return Some(count);
    }
    'rows: for i in list.from..list.sys.rows() + 1 {
        if !list.sys.is_linear(i) {
            trail.put(list.len, Label::row(i));
            let below = RowList {
                sys: list.sys,
                len: list.len + 1,
                from: i + 1,
            };
            let now = Progress { count, ..*so_far };
            match visit_dead(&below, left - 1, &now, trail, out) {
                Some(on) => count = on,
                None => return None,
            }
        }
    }
    Some(count)
}
