//! A run under a key: the walk, and the lines that are written on it.
ghost use Rattle.std.specs.Prelude.{◌≡◌, ◌≤◌, ◌<◌, length, IfOk, IfErr, OnErr, IsErrOf};
ghost use Rattle.poly_io.specs.Causes.{RisesAt};
ghost use Rattle.poly_model.specs.declared.overflow.Overflow.{Overflow as Passed};
ghost use Rattle.poly_model.specs.Due.{IsDue, IsAskedInMain};
ghost use Rattle.poly_model.specs.Systems.{Polyhedron, cone_of};
ghost use Rattle.reverse_step.specs.Walks.{IsAtStart};
ghost use Rattle.work_core.specs.ReplyLines.{IsWholeRun, IsCutRun, IsTornRun};
ghost use Rattle.work_core.specs.Searches.{by_subtrees};
ghost use Rattle.work_core.specs.Splits.{most_bases, IsBudget};
ghost use Rattle.subtree_work.specs.Counts.{HasFewLines, IsInReach};
ghost use Rattle.subtree_work.specs.Made.{IsSearchOfEach};
ghost use Rattle.subtree_work.specs.Steps.{VisitsBase, VisitsOrGivesBack, FailsAt, MovesOn, StopsRun};

use crate::progress::{Progress, stops};
use crate::rows::show_columns;
use crate::search::Search;
use convert_core::Basis;
use countdown::Countdown;
use dictionary::Steps;
use poly_io::{Sink, WriteFault};
use poly_model::Count;
use reverse_step::Visit;
use std::sync::ledger::Ledger;
use work_core::{Budget, WorkStop, give_back, one_base};

/// Visits the cobases under that where the walk stands, the root of its job, and gives back those that the budget leaves.
/// Takes no memory.
pub(crate) fn run_on<S: Sink, L: Ledger>(
    search: &mut Search,
    budget: Budget,
    out: &mut S,
    steps: &mut Steps<L>,
) -> Result<Count, WorkStop>
    requires search { IsSearchOfEach search.old.sys.now search.old.rays search.old.walker search.old.vector.items }
    requires start { IsAtStart search.old.walker }
    requires budget { IsBudget budget }
    ensures whole { (p : Polyhedron) → search.old.sys.now ≡ cone_of p →
        IfOk result (IsWholeRun (by_subtrees p search.old.walker.root) search.old.walker.job budget (S.written out.old)
        (S.written out.new)) }
    ensures overflow { (o : Passed) → IsErrOf result (WorkStop.Overflow o) → (p : Polyhedron) →
        search.old.sys.now ≡ cone_of p → IsDue p o (IsAskedInMain p search.old.walker.root o)
        × IsCutRun (by_subtrees p search.old.walker.root) search.old.walker.job (S.written out.old) (S.written out.new) }
    ensures torn { (p : Polyhedron) → search.old.sys.now ≡ cone_of p →
        OnErr result (IsTornRun (by_subtrees p search.old.walker.root) search.old.walker.job (S.written out.old)
        (S.written out.new)) }
    ensures search { IsSearchOfEach search.new.sys.now search.new.rays search.new.walker search.new.vector.items }
    ensures root { search.new.walker.root ≡ search.old.walker.root }
    ensures sys { search.new.sys.now ≡ search.old.sys.now }
    ensures cause { RisesAt WorkStop.WriteFault (S.faults out.old) (S.faults out.new) result }
{
    let none = Count {
        rows: 0,
        jobs: 0,
        bases: 0,
    };
    let count = visit(search, none, out)?;
    let mut so_far = Progress { depth: 0, count };
    let mut left = Countdown::full();
    'steps: loop {
        left.lower();
        let (visit, next) = step(search, budget, so_far, out, steps)?;
        so_far = next;
        if visit.is_end() {
            return Ok(so_far.count);
        }
    }
}

// One step of the walk: a new cobasis is visited, or its key given back.
fn step<S: Sink, L: Ledger>(
    search: &mut Search,
    budget: Budget,
    so_far: Progress,
    out: &mut S,
    steps: &mut Steps<L>,
) -> Result<(Visit, Progress), WorkStop>
    requires search { IsSearchOfEach search.old.sys.now search.old.rays search.old.walker search.old.vector.items }
    requires budget { IsBudget budget }
    requires reach { IsInReach so_far }
    ensures takes { IfOk result (λ r. MovesOn budget search.old.sys.now search.old.walker r.0 search.new.walker so_far
        (S.written out.old) r.1 (S.written out.new)) }
    ensures stops { IfErr result (StopsRun search.old.sys.now search.old.walker search.new.walker (S.written out.old)
        (S.written out.new)) }
    ensures sys { search.new.sys.now ≡ search.old.sys.now }
    ensures rays { search.new.rays ≡ search.old.rays }
    ensures width { length search.new.vector.items ≡ length search.old.vector.items }
    ensures cause { RisesAt WorkStop.WriteFault (S.faults out.old) (S.faults out.new) result }
{
    match search.walker.next(steps) {
        Ok(Visit::New) => {
            let depth = so_far.depth + 1;
            match meet(search, budget, depth, so_far.count, out) {
                Ok(count) => Ok((Visit::New, Progress { depth, count })),
                Err(stop) => Err(stop),
            }
        }
        Ok(Visit::Back) => {
            let depth = so_far.depth.saturating_sub(1);
            Ok((Visit::Back, Progress { depth, ..so_far }))
        }
        Ok(Visit::End) => Ok((Visit::End, so_far)),
        Err(products) => Err(WorkStop::Overflow(search.walker.dict().overflow(products))),
    }
}

// At a new cobasis of this depth: it is visited where the budget allows it. Else its key is given back, and its columns
// are passed over.
fn meet<S: Sink>(
    search: &mut Search,
    budget: Budget,
    depth: u64,
    count: Count,
    out: &mut S,
) -> Result<Count, WorkStop>
    requires search { IsSearchOfEach search.old.sys.now search.old.rays search.old.walker search.old.vector.items }
    requires budget { IsBudget budget }
    requires sum { HasFewLines count }
    requires few { count.bases ≤ most_bases }
    ensures meets { IfOk result (VisitsOrGivesBack budget search.old.sys.now search.old.walker search.new.walker depth
        (S.written out.old) (S.written out.new) count) }
    ensures fails { OnErr result (FailsAt search.old.sys.now search.old.walker (S.written out.old) (S.written out.new)) }
    ensures unmoved { OnErr result (search.new.walker ≡ search.old.walker) }
    ensures no_overflow { (o : Passed) → IsErrOf result (WorkStop.Overflow o) → ⊥ }
    ensures sys { search.new.sys.now ≡ search.old.sys.now }
    ensures rays { search.new.rays ≡ search.old.rays }
    ensures width { length search.new.vector.items ≡ length search.old.vector.items }
    ensures cause { RisesAt WorkStop.WriteFault (S.faults out.old) (S.faults out.new) result }
{
    if !stops(budget, depth, count.bases) {
        return visit(search, count, out);
    }
    let key = search.walker.dict().key();
    match give_back(&key, count, out) {
        Ok(count) => {
            search.walker.pass();
            Ok(count)
        }
        Err(stop) => Err(stop),
    }
}

// Writes the rows that are shown where the walk stands, one base more.
fn visit<S: Sink>(search: &mut Search, count: Count, out: &mut S) -> Result<Count, WorkStop>
    requires search { IsSearchOfEach search.old.sys.now search.old.rays search.old.walker search.old.vector.items }
    requires sum { HasFewLines count }
    requires few { count.bases < most_bases }
    ensures visited { IfOk result (VisitsBase search.old.sys.now search.old.walker (S.written out.old) (S.written out.new)
        count) }
    ensures fails { OnErr result (FailsAt search.old.sys.now search.old.walker (S.written out.old) (S.written out.new)) }
    ensures no_overflow { (o : Passed) → IsErrOf result (WorkStop.Overflow o) → ⊥ }
    ensures sys { search.new.sys.now ≡ search.old.sys.now }
    ensures rays { search.new.rays ≡ search.old.rays }
    ensures walker { search.new.walker ≡ search.old.walker }
    ensures width { length search.new.vector.items ≡ length search.old.vector.items }
    ensures cause { RisesAt WorkStop.WriteFault (S.faults out.old) (S.faults out.new) result }
{
    let at = Basis {
        cone: search.sys,
        rays: search.rays,
        dict: search.walker.dict(),
        order: search.walker.order(),
        leads: search.walker.leads(),
    };
    match show_columns(&at, &mut search.vector, one_base(count), out) {
        Ok(count) => Ok(count),
        Err(WriteFault) => Err(WorkStop::WriteFault),
    }
}
