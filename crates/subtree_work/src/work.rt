//! The work by subtrees.
ghost use Rattle.std.specs.Prelude.{◌≡◌, ◌⊎◌, ◌↔◌, ◌<◌, true, IfOk, IfErr, OnErr, IsErrOf};
ghost use Rattle.poly_io.specs.Causes.{RisesAt};
ghost use Rattle.poly_model.specs.declared.kind.WorkKind.TheVariants.{Subtrees};
ghost use Rattle.poly_model.specs.declared.overflow.Overflow.{Overflow as Passed};
ghost use Rattle.poly_model.specs.Due.{IsDue, IsAskedBefore, IsAskedInMain, IsAskedOnTheWay};
ghost use Rattle.poly_model.specs.Subtrees.{IsSubtreeKey};
ghost use Rattle.poly_model.specs.Systems.{Polyhedron, cone_of};
ghost use Rattle.reverse_step.specs.Starts.{Starts};
ghost use Rattle.work_core.specs.ReplyLines.{IsWholeRun, IsCutRun, IsTornRun};
ghost use Rattle.work_core.specs.Searches.{Search as Searched, MayBegin, by_subtrees};
ghost use Rattle.work_core.specs.Splits.{IsBudget};
ghost use Rattle.subtree_work.specs.Made.{IsSearchOfEach, IsBySubtrees, IsAskedForKey, IsAskedInRun, IsDueOnWayToRoot};
ghost use Rattle.dictionary.specs.Blanks.{IsBlankOf};

use crate::begin::begin;
use crate::search::Search;
use crate::stop::SubtreeStop;
use crate::walk::run_on;
use dictionary::Steps;
use poly_io::Sink;
use poly_model::{Count, Key, Overflow, Root, System};
use std::alloc::Global;
use std::marker::{Brand, Model};
use std::sync::ledger::{Blank, Ledger};
use work_core::{Budget, Work, WorkStop};

/// A listing that is parted by subtrees of the reverse search from a root: the keys are the lexicographically feasible
/// cobases, and one lies under another where parents lead from it there. It keeps a fixed number of dictionaries, and
/// takes no memory once it is made.
#[derive(Drop)]
pub struct SubtreeWork<'a> {
    root: Key,
    search: Search<'a>,
}

impl<'a> Model for SubtreeWork<'a> {
    ghost use Rattle.std.specs.Prelude.{◌≡◌};
    ghost use Rattle.subtree_work.specs.Made.{BySubtrees, IsSearchOfEach};

    ghost Value = { BySubtrees };

    ghost view = { λ w. record { sys = w.search.sys.now; root = w.root; at = w.search.walker.dict.key } };

    ghost invariant = { λ w. IsSearchOfEach w.search.sys.now w.search.rays w.search.walker w.search.vector.items × (w.search.walker.root ≡ w.root) };
}

impl<'a> SubtreeWork<'a> {
    /// The work by subtrees from this root of each polyhedron whose cone the system is. No later call takes memory.
    ///
    /// `BadRoot` comes exactly where no such search may begin there: the equations have no common point, or the root is no
    /// feasible cobasis of rows; unless an overflow or want of memory came before. An overflow comes only at a pivot of
    /// Gauss's elimination that cannot be done without, or at one on the way from the start cobasis to the root.
    pub fn new(alloc: Global, sys: &'a System, root: Root) -> Result<SubtreeWork<'a>, SubtreeStop>
        requires file { (p : Polyhedron) × (sys.now ≡ cone_of p) }
        ensures work { IfOk result (λ w. (s : Searched) → s.work ≡ Subtrees → s.root ≡ root.key →
            sys.now ≡ cone_of s.polyhedron → IsBySubtrees w s) }
        ensures bad_root { IsErrOf result SubtreeStop.BadRoot → (s : Searched) → s.work ≡ Subtrees → s.root ≡ root.key →
            sys.now ≡ cone_of s.polyhedron → MayBegin s → ⊥ }
        ensures overflow { (o : Passed) → IsErrOf result (SubtreeStop.Overflow o) → (p : Polyhedron) →
            sys.now ≡ cone_of p → IsDue p o (IsAskedBefore p o) ⊎ IsDueOnWayToRoot p root.key o }
    {
        match begin::<Brand>(alloc, sys, &root, Blank::new(1)) {
            Ok(search) => Ok(SubtreeWork {
                root: root.key(),
                search,
            }),
            Err(stop) => Err(stop),
        }
    }
}

// Goes to a key, if it is one of the work.
fn go_to<L: Ledger>(search: &mut Search, key: &Key, steps: &mut Steps<L>) -> Result<bool, Overflow>
    requires search { IsSearchOfEach search.old.sys.now search.old.rays search.old.walker search.old.vector.items }
    ensures key { (p : Polyhedron) → search.old.sys.now ≡ cone_of p →
        IfOk result (λ b. b ≡ true ↔ IsSubtreeKey p search.old.walker.root key.now) }
    ensures starts { IfOk result (λ b. Starts search.old.walker key.now b search.new.walker) }
    ensures overflow { (p : Polyhedron) → search.old.sys.now ≡ cone_of p →
        IfErr result (λ o. IsDue p o (IsAskedOnTheWay p search.old.walker.dict.key key.now o)) }
    ensures search { IsSearchOfEach search.new.sys.now search.new.rays search.new.walker search.new.vector.items }
    ensures root { search.new.walker.root ≡ search.old.walker.root }
    ensures sys { search.new.sys.now ≡ search.old.sys.now }
{
    search.walker.start(key, steps)
}

// Whether the key is one of the work. The blank is for a counter of pivots, of which nothing is said.
fn is_key<L: Ledger>(search: &mut Search, key: &Key, blank: Blank) -> Result<bool, Overflow>
    requires search { IsSearchOfEach search.old.sys.now search.old.rays search.old.walker search.old.vector.items }
    requires blank { IsBlankOf blank.name blank.parts L.name L.parts }
    ensures key { (p : Polyhedron) → search.old.sys.now ≡ cone_of p →
        IfOk result (λ b. b ≡ true ↔ IsSubtreeKey p search.old.walker.root key.now) }
    ensures overflow { (p : Polyhedron) → search.old.sys.now ≡ cone_of p →
        IfErr result (λ o. IsDue p o (IsAskedOnTheWay p search.old.walker.dict.key key.now o)) }
    ensures search { IsSearchOfEach search.new.sys.now search.new.rays search.new.walker search.new.vector.items }
    ensures root { search.new.walker.root ≡ search.old.walker.root }
    ensures sys { search.new.sys.now ≡ search.old.sys.now }
{
    go_to(search, key, &mut Steps::<L>::new(blank))
}

// Visits the bases under a key of the work.
fn run_under<S: Sink, L: Ledger>(
    search: &mut Search,
    key: &Key,
    budget: Budget,
    out: &mut S,
    blank: Blank,
) -> Result<Count, WorkStop>
    requires search { IsSearchOfEach search.old.sys.now search.old.rays search.old.walker search.old.vector.items }
    requires budget { IsBudget budget }
    requires blank { IsBlankOf blank.name blank.parts L.name L.parts }
    ensures whole { (p : Polyhedron) → search.old.sys.now ≡ cone_of p → IsSubtreeKey p search.old.walker.root key.now →
        IfOk result (IsWholeRun (by_subtrees p search.old.walker.root) key.now budget (S.written out.old)
        (S.written out.new)) }
    ensures overflow { (o : Passed) → IsErrOf result (WorkStop.Overflow o) → (p : Polyhedron) →
        search.old.sys.now ≡ cone_of p → IsSubtreeKey p search.old.walker.root key.now →
        IsDue p o (λ passes. IsAskedOnTheWay p search.old.walker.dict.key key.now o passes
        ⊎ IsAskedInMain p search.old.walker.root o passes)
        × IsCutRun (by_subtrees p search.old.walker.root) key.now (S.written out.old) (S.written out.new) }
    ensures torn { (p : Polyhedron) → search.old.sys.now ≡ cone_of p → IsSubtreeKey p search.old.walker.root key.now →
        OnErr result (IsTornRun (by_subtrees p search.old.walker.root) key.now (S.written out.old) (S.written out.new)) }
    ensures search { IsSearchOfEach search.new.sys.now search.new.rays search.new.walker search.new.vector.items }
    ensures root { search.new.walker.root ≡ search.old.walker.root }
    ensures sys { search.new.sys.now ≡ search.old.sys.now }
    ensures cause { RisesAt WorkStop.WriteFault (S.faults out.old) (S.faults out.new) result }
{
    let mut steps = Steps::<L>::new(blank);
    match go_to(search, key, &mut steps) {
        Ok(true) => run_on(search, budget, out, &mut steps),
        // a key of the work is reached, so that nothing is to be said here
        Ok(false) => Ok(Count {
            rows: 0,
            jobs: 0,
            bases: 0,
        }),
        Err(overflow) => Err(WorkStop::Overflow(overflow)),
    }
}

impl<'a> Work for SubtreeWork<'a> {
    ghost is_of = { IsBySubtrees };

    ghost is_asked_for_key = { IsAskedForKey };

    ghost is_asked_in_run = { IsAskedInRun };

    fn first_key(&self) -> Key {
        self.root
    }

    fn has_key(&mut self, key: &Key) -> Result<bool, Overflow> {
        is_key::<Brand>(&mut self.search, key, Blank::new(1))
    }

    fn run<S: Sink>(&mut self, key: &Key, budget: Budget, out: &mut S) -> Result<Count, WorkStop> {
        run_under::<S, Brand>(&mut self.search, key, budget, out, Blank::new(1))
    }
}
