//! A work: a listing that is parted by keys.
ghost use Rattle.std.specs.Prelude.{◌≡◌, ◌≤◌, ◌↔◌, ℕ, List, IfOk, OnErr, IsErrOf, IfErr, true};
ghost use Rattle.poly_io.specs.Causes.{Rose};
ghost use Rattle.poly_model.specs.declared.overflow.Overflow.{Overflow as Passed};
ghost use Rattle.poly_model.specs.Due.{IsDue};
ghost use Rattle.poly_model.specs.Overflows.{Passes};
ghost use Rattle.work_core.specs.Meanings.{Meaning};
ghost use Rattle.work_core.specs.Searches.{Search, meaning_of};
ghost use Rattle.work_core.specs.Splits.{IsBudget};
ghost use Rattle.work_core.specs.ReplyLines.{IsWholeRun, IsCutRun, IsTornRun};

use crate::{Budget, WorkStop};
use poly_io::Sink;
use poly_model::{Count, Key, Overflow};

/// A listing that is parted by keys. No call takes memory.
pub trait Work {
    /// It is the work of this search. Each implementation's `new` says of which searches it is.
    ghost is_of: { Self → Search → Type 0 };

    /// As the work stands, this pivot is asked for where it tells whether a list is a key: an overflow of `has_key` is that
    /// of such a one.
    ghost is_asked_for_key: { Self → (s : Search) → List ℕ → (o : Passed) → Passes s.polyhedron o → Type 0 };

    /// It is asked for in a run under the key: an overflow of `run` is that of such a one.
    ghost is_asked_in_run: { Self → (s : Search) → List ℕ → (o : Passed) → Passes s.polyhedron o → Type 0 };

    /// The key under which all others lie.
    fn first_key(&self) -> Key
        ensures { (s : Search) → is_of self.now s → result ≡ Meaning.first_key (meaning_of s) };

    /// Whether the key is one of this work.
    fn has_key(&mut self, key: &Key) -> Result<bool, Overflow>
        ensures ok { (s : Search) → is_of self.old s → IfOk result (λ b. b ≡ true ↔ Meaning.is_key (meaning_of s) key.now) }
        ensures overflow { (s : Search) → is_of self.old s →
            IfErr result (λ o. IsDue s.polyhedron o (is_asked_for_key self.old s key.now o)) }
        ensures kept { (s : Search) → is_of self.old s ↔ is_of self.new s };

    /// Visits the bases under a key until the budget is used up. Rows that are shown and keys that are given back are
    /// written as lines. A run that an overflow stops has written whole lines; where the sink fails, the last line may be
    /// a part of one. The work stays one of the same searches, and may go on with any key.
    fn run<S: Sink>(&mut self, key: &Key, budget: Budget, out: &mut S) -> Result<Count, WorkStop>
        requires key { (s : Search) → is_of self.old s → Meaning.is_key (meaning_of s) key.now }
        requires budget { IsBudget budget }
        ensures whole { (s : Search) → is_of self.old s
            → IfOk result (IsWholeRun (meaning_of s) key.now budget (S.written out.old) (S.written out.new)) }
        ensures overflow { (o : Passed) → IsErrOf result (WorkStop.Overflow o) → (s : Search) → is_of self.old s
            → IsDue s.polyhedron o (is_asked_in_run self.old s key.now o)
            × IsCutRun (meaning_of s) key.now (S.written out.old) (S.written out.new) }
        ensures torn { (s : Search) → is_of self.old s
            → OnErr result (IsTornRun (meaning_of s) key.now (S.written out.old) (S.written out.new)) }
        ensures later { S.faults out.old ≤ S.faults out.new }
        ensures fault { IsErrOf result WorkStop.WriteFault → Rose (S.faults out.old) (S.faults out.new) }
        ensures same { ¬ (IsErrOf result WorkStop.WriteFault) → S.faults out.new ≡ S.faults out.old }
        ensures kept { (s : Search) → is_of self.old s ↔ is_of self.new s };
}
