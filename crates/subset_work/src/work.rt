//! The work by prefixes of subsets.
ghost use Rattle.std.specs.Prelude.{◌≡◌, ◌⊎◌, ◌↔◌, ◌+◌, ◌-◌, ◌≤◌, ◌<◌, ℕ, List, length, false, IsTrue, IsFalse, IfOk, OnErr, IsErrOf, []};
ghost use Rattle.std.specs.List.{Contains};
ghost use Rattle.poly_io.specs.Causes.{RisesAt};
ghost use Rattle.poly_model.specs.declared.kind.WorkKind.TheVariants.{Subsets};
ghost use Rattle.poly_model.specs.declared.overflow.Overflow.{Overflow as Passed};
ghost use Rattle.poly_model.specs.declared.overflow.Phase.TheVariants.{Cone};
ghost use Rattle.poly_model.specs.Keys.{IsKey};
ghost use Rattle.poly_model.specs.Limits.{most_labels};
ghost use Rattle.poly_model.specs.Systems.{Polyhedron, cone_of, row_of};
ghost use Rattle.work_core.specs.Meanings.{Meaning};
ghost use Rattle.work_core.specs.Searches.{Search, meaning_of};
ghost use Rattle.work_core.specs.ReplyLines.{IsWholeRun, IsCutRun, IsTornRun};
ghost use Rattle.work_core.specs.Splits.{most_depth, IsBudget};
ghost use Rattle.plain_enum.specs.Plain.{PassesInCone};
ghost use Rattle.subset_work.specs.Counts.{MayVisit, CountsOn};
ghost use Rattle.subset_work.specs.Made.{IsFit, IsBySubsets, made_with};
ghost use Rattle.subset_work.specs.Standing.{IsNext, IsPlainRow};
ghost use Rattle.subset_work.specs.Walked.{WalksUnder};

use crate::dead::{RowList, visit_dead};
use crate::descend::Way;
use crate::live::visit_under;
use crate::progress::Progress;
use crate::stop::SubsetStop;
use crate::trail::Trail;
use dictionary::Dict;
use plain_enum::{Beginning, FeasibleStop, Prefix, Room, begin_listing, left_coordinate};
use poly_io::Sink;
use poly_model::{Count, FreeColumns, Key, Label, Overflow, System};
use std::alloc::Global;
use std::marker::Model;
use work_core::{Budget, Work, WorkStop};

/// A listing that is parted by prefixes of subsets of rows: the keys are the ascending lists of rows that are not
/// linear, shorter than the space on which linear rows and free coordinates are 0 has dimensions. It keeps one
/// dictionary for each row of a list, and takes no memory once it is made.
#[derive(Drop)]
pub struct SubsetWork<'a> {
    sys: &'a System,
    dict: Box<Dict>,
    free: FreeColumns,
    room: Room,
}

impl<'a> Model for SubsetWork<'a> {
    ghost use Rattle.subset_work.specs.Made.{BySubsets, IsFit, made_with};

    ghost Value = { BySubsets };

    ghost view = { λ w. made_with w.sys.now w.dict.value w.free w.room.deeper.items };

    ghost invariant = { λ w. IsFit w.sys.now w.dict.value w.room.deeper.items w.room.vector.items };
}

impl<'a> SubsetWork<'a> {
    /// The work by subsets of each polyhedron whose cone the system is. No later call takes memory. An overflow comes
    /// only where a product passes in the phase `cone`.
    pub fn new(alloc: Global, sys: &'a System) -> Result<SubsetWork<'a>, SubsetStop>
        ensures work { IfOk result (λ w. (s : Search) → s.work ≡ Subsets → s.root ≡ [] → sys.now ≡ cone_of s.polyhedron →
            IsBySubsets w s) }
        ensures overflow { (o : Passed) → IsErrOf result (SubsetStop.Overflow o) → (p : Polyhedron) →
            sys.now ≡ cone_of p → PassesInCone p o }
    {
        match begin_listing(alloc, sys) {
            Ok(
                Beginning {
                    dict,
                    free,
                    room,
                    ..
                },
            ) => {
                let _few = dict.key().len();
                Ok(SubsetWork {
                    sys,
                    dict,
                    free,
                    room,
                })
            }
            Err(FeasibleStop::Overflow(overflow)) => Err(SubsetStop::Overflow(overflow)),
            Err(FeasibleStop::Memory) => Err(SubsetStop::Memory),
        }
    }
}

// Where a run of this budget under a key of so many labels begins.
fn start_of(len: usize, budget: Budget) -> Progress
    requires len { len ≤ most_labels }
    requires budget { IsBudget budget }
    ensures most { result.most ≡ budget.bases }
    ensures longest { len < result.longest }
    ensures depth { 0 < budget.depth → result.longest ≡ len + budget.depth }
    ensures none { budget.depth ≡ 0 → most_depth < result.longest }
    ensures count { result.count ≡ record { rows = 0; jobs = 0; bases = 0 } }
{
    let longest = if budget.depth == 0 {
        u64::MAX
    } else {
        len as u64 + budget.depth
    };
    Progress {
        most: budget.bases,
        longest,
        count: Count {
            rows: 0,
            jobs: 0,
            bases: 0,
        },
    }
}

// The first row behind those of a list.
fn after_last(labels: &[Label]) -> u32
    requires { IsKey labels.now }
    ensures next { IsNext labels.now result }
    ensures some { 0 < result }
{
    match labels.split_last() {
        Some((label, _)) => u32::from(label.number()) + 1,
        None => 1,
    }
}

// Whether this is the label of a row that is not linear.
fn is_plain(sys: &System, label: Label) -> bool
    ensures { IsTrue result ↔ IsPlainRow sys.now label }
{
    let i = u32::from(label.number());
    0 < i && i <= sys.rows() && !sys.is_linear(i)
}

// Whether these are labels of rows that are not linear.
fn are_plain(sys: &System, labels: &[Label]) -> bool
    ensures { IsTrue result ↔ ((k : ℕ) → Contains labels.now k → IsPlainRow sys.now k) }
{
    'labels: for label in labels {
        if !is_plain(sys, *label) {
            return false;
        }
    }
    true
}

// Whether a key is that of rows that are not linear, at most so many.
fn is_key(sys: &System, depth: usize, key: &Key) -> bool
    ensures key { IsKey key.now }
    ensures value { IsTrue result ↔ ((length key.now ≤ depth) × ((k : ℕ) → Contains key.now k → IsPlainRow sys.now k)) }
{
    let labels = key.labels();
    labels.len() <= depth && are_plain(sys, labels)
}

// Visits the lists under a key of the work that has this dictionary at the empty list.
fn visit_key<S: Sink>(
    start: &Prefix,
    room: &mut Room,
    key: &Key,
    so_far: &Progress,
    out: &mut S,
) -> Result<Count, WorkStop>
    requires first { start.now.from ≡ 1 }
    requires room { IsFit start.now.sys.now start.now.dict.now room.old.deeper.items room.old.vector.items }
    requires may { MayVisit so_far.now (length key.now) }
    ensures walked { (s : Search) →
        IsBySubsets (made_with start.now.sys.now start.now.dict.now start.now.free.now room.old.deeper.items) s →
        Meaning.is_key (meaning_of s) key.now →
        WalksUnder s.polyhedron key.now so_far.now.most so_far.now.longest (S.written out.old) (S.written out.new)
        so_far.now.count result }
    ensures on { IfOk result (CountsOn so_far.now.most so_far.now.count) }
    ensures room { IsFit start.now.sys.now start.now.dict.now room.new.deeper.items room.new.vector.items }
    ensures depth { length room.new.deeper.items ≡ length room.old.deeper.items }
    ensures cause { RisesAt WorkStop.WriteFault (S.faults out.old) (S.faults out.new) result }
{
    let labels = key.labels();
    let list = RowList {
        sys: start.sys,
        len: key.len(),
        from: after_last(labels),
    };
    let mut trail = Trail::of(key);
    match left_coordinate(start.dict, start.free) {
        None => visit_dead(&list, 0, so_far, &mut trail, out).ok_or(trail.stop),
        Some(_) => {
            let way = Way {
                prefix: *start,
                list,
                rest: labels,
                so_far,
            };
            visit_under(&way, &mut room.deeper, &mut room.vector, &mut trail, out).ok_or(trail.stop)
        }
    }
}

// Visits the bases under a key of the work until the budget is used up.
fn run_from<S: Sink>(
    start: &Prefix,
    room: &mut Room,
    key: &Key,
    budget: Budget,
    out: &mut S,
) -> Result<Count, WorkStop>
    requires first { start.now.from ≡ 1 }
    requires room { IsFit start.now.sys.now start.now.dict.now room.old.deeper.items room.old.vector.items }
    requires budget { IsBudget budget }
    ensures whole { (s : Search) →
        IsBySubsets (made_with start.now.sys.now start.now.dict.now start.now.free.now room.old.deeper.items) s →
        Meaning.is_key (meaning_of s) key.now →
        IfOk result (IsWholeRun (meaning_of s) key.now budget (S.written out.old) (S.written out.new)) }
    ensures overflow { (o : Passed) → IsErrOf result (WorkStop.Overflow o) → (s : Search) →
        IsBySubsets (made_with start.now.sys.now start.now.dict.now start.now.free.now room.old.deeper.items) s →
        Meaning.is_key (meaning_of s) key.now →
        PassesInCone s.polyhedron o × IsCutRun (meaning_of s) key.now (S.written out.old) (S.written out.new) }
    ensures torn { (s : Search) →
        IsBySubsets (made_with start.now.sys.now start.now.dict.now start.now.free.now room.old.deeper.items) s →
        Meaning.is_key (meaning_of s) key.now →
        OnErr result (IsTornRun (meaning_of s) key.now (S.written out.old) (S.written out.new)) }
    ensures room { IsFit start.now.sys.now start.now.dict.now room.new.deeper.items room.new.vector.items }
    ensures depth { length room.new.deeper.items ≡ length room.old.deeper.items }
    ensures cause { RisesAt WorkStop.WriteFault (S.faults out.old) (S.faults out.new) result }
{
    let so_far = start_of(key.len(), budget);
    visit_key(start, room, key, &so_far, out)
}

impl<'a> Work for SubsetWork<'a> {
    ghost is_of = { IsBySubsets };

    ghost is_asked_for_key = { λ w s key o passes. ⊥ };

    // A run eliminates in the cone.
    ghost is_asked_in_run = { λ w s key o passes. o.phase ≡ Cone };

    fn first_key(&self) -> Key {
        Key::empty()
    }

    fn has_key(&mut self, key: &Key) -> Result<bool, Overflow> {
        Ok(is_key(self.sys, self.room.deeper.len(), key))
    }

    fn run<S: Sink>(&mut self, key: &Key, budget: Budget, out: &mut S) -> Result<Count, WorkStop> {
        let start = Prefix {
            sys: self.sys,
            free: &self.free,
            dict: &self.dict,
            from: 1,
        };
        run_from(&start, &mut self.room, key, budget, out)
    }
}
