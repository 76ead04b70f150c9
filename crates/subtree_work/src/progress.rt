//! How far a run has come, and where it gives keys back in place of visiting them.
ghost use Rattle.std.specs.Prelude.{IsTrue, IsFalse};
ghost use Rattle.subtree_work.specs.Steps.{AllowsVisit, MustGiveBack};

use poly_model::Count;
use work_core::Budget;

/// How many parents up the key of the job is, and what was counted until now.
#[derive(Clone, Copy, PartialEq, Eq, Debug)]
pub struct Progress {
    pub depth: u64,
    pub count: Count,
}

/// Whether a key at this depth is given back after so many bases.
pub(crate) fn stops(budget: Budget, depth: u64, bases: u64) -> bool
    ensures back { IsTrue result → MustGiveBack budget depth bases }
    ensures on { IsFalse result → AllowsVisit budget depth bases }
{
    bases >= budget.bases || budget.depth > 0 && depth >= budget.depth
}
