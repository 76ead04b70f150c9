//! What a work by subtrees begins with.
ghost use Rattle.std.specs.Prelude.{◌≡◌, ◌⊎◌, ◌<◌, ℕ, List, IfOk, IsErrOf};
ghost use Rattle.poly_num.specs.Vectors.{Vector};
ghost use Rattle.poly_model.specs.declared.overflow.Overflow.{Overflow as Passed};
ghost use Rattle.poly_model.specs.Due.{IsDue, IsAskedBefore};
ghost use Rattle.poly_model.specs.Systems.{Polyhedron, cone_of};
ghost use Rattle.linearity.specs.Prepared.{IsPrepared};
ghost use Rattle.subtree_work.specs.Made.{IsSearchUnder, IsNoRootOf, IsDueOnWayToRoot};
ghost use Rattle.dictionary.specs.Blanks.{IsBlankOf};

use crate::search::Search;
use crate::stop::SubtreeStop;
use convert_core::rays_of;
use dictionary::{Dict, Steps};
use linearity::{PrepareStop, prepare};
use poly_model::{Root, System};
use poly_num::Num;
use reverse_step::Walker;
use std::alloc::Global;
use std::sync::ledger::{Blank, Ledger};

/// The search of a cone from this root. All memory is taken here. The blank is for a counter of pivots, of which nothing
/// is said.
pub(crate) fn begin<'a, L: Ledger>(
    alloc: Global,
    sys: &'a System,
    root: &Root,
    blank: Blank,
) -> Result<Search<'a>, SubtreeStop>
    requires file { (p : Polyhedron) × (sys.now ≡ cone_of p) }
    requires blank { IsBlankOf blank.name blank.parts L.name L.parts }
    ensures begins { IfOk result (λ r. IsSearchUnder sys.now root.now.key r.sys.now r.rays r.walker r.vector.items) }
    ensures bad_root { IsErrOf result SubtreeStop.BadRoot → IsNoRootOf sys.now root.now.key }
    ensures overflow { (o : Passed) → IsErrOf result (SubtreeStop.Overflow o) → (p : Polyhedron) → sys.now ≡ cone_of p →
        IsDue p o (IsAskedBefore p o) ⊎ IsDueOnWayToRoot p root.now.key o }
{
    sys.keeps_limits();
    match prepare(alloc, sys) {
        Ok(prepared) => {
            let (_, _, dict) = prepared.into_parts();
            begin_at::<L>(alloc, sys, root, dict, blank)
        }
        Err(PrepareStop::Inconsistent) => Err(SubtreeStop::BadRoot),
        Err(PrepareStop::Overflow(overflow)) => Err(SubtreeStop::Overflow(overflow)),
        Err(PrepareStop::Memory) => Err(SubtreeStop::Memory),
    }
}

// The same from the dictionary of the start cobasis: a walk goes from there to the root.
fn begin_at<'a, L: Ledger>(
    alloc: Global,
    sys: &'a System,
    root: &Root,
    dict: Dict,
    blank: Blank,
) -> Result<Search<'a>, SubtreeStop>
    requires file { (p : Polyhedron) × (sys.now ≡ cone_of p) }
    requires blank { IsBlankOf blank.name blank.parts L.name L.parts }
    requires prepared { (p : Polyhedron) → sys.now ≡ cone_of p →
        (lines : List Vector) × (free : List ℕ) × IsPrepared p lines free dict }
    ensures begins { IfOk result (λ r. IsSearchUnder sys.now root.now.key r.sys.now r.rays r.walker r.vector.items) }
    ensures bad_root { IsErrOf result SubtreeStop.BadRoot → IsNoRootOf sys.now root.now.key }
    ensures overflow { (o : Passed) → IsErrOf result (SubtreeStop.Overflow o) → (p : Polyhedron) → sys.now ≡ cone_of p →
        IsDueOnWayToRoot p root.now.key o }
{
    let Ok(mut walker) = Walker::new(alloc, dict, root) else {
        return Err(SubtreeStop::Memory);
    };
    let Ok(vector) = Vec::from_elem(alloc, Num::ZERO, sys.n() as usize) else {
        return Err(SubtreeStop::Memory);
    };
    match walker.start(&root.key(), &mut Steps::<L>::new(blank)) {
        Ok(true) => Ok(Search {
            sys,
            rays: rays_of(sys),
            walker,
            vector,
        }),
        Ok(false) => Err(SubtreeStop::BadRoot),
        Err(overflow) => Err(SubtreeStop::Overflow(overflow)),
    }
}
