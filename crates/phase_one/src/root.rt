//! The root of a search, or why there is none.
ghost use Rattle.std.specs.Prelude.{◌≡◌, ◌<◌, ℕ, List, IfOk, IsErrOf};
ghost use Rattle.poly_model.specs.declared.overflow.Overflow.{Overflow as Passed};
ghost use Rattle.poly_model.specs.Systems.{Polyhedron, cone_of};
ghost use Rattle.poly_model.specs.Spaces.{Space, main_space};
ghost use Rattle.poly_model.specs.Extreme.{IsFeasible};
ghost use Rattle.poly_model.specs.Due.{IsDue, IsAskedInFirst};
ghost use Rattle.search_laws.specs.PhaseOne.{MeetsRows};
ghost use Rattle.phase_one.specs.Worst.{IsWorstRow};
ghost use Rattle.phase_one.specs.Beginning.{IsStart};
ghost use Rattle.phase_one.specs.Found.{IsPreparationOf, IsStartOf, IsGivenFrom, IsFound, StopsPhaseOne};
ghost use Rattle.dictionary.specs.Blanks.{IsBlankOf};

use crate::begin::begin;
use crate::finish::finish;
use crate::stop::FirstStop;
use crate::worst::first_worst;
use dictionary::{Dict, Steps};
use lex_pivot::Order;
use linearity::Prepared;
use poly_model::{Label, Lines, Root};
use std::alloc::Global;
use std::marker::Brand;
use std::sync::ledger::{Blank, Ledger};

/// The root of a search, its dictionary in the phase `Main`, and the lines of what was prepared.
#[derive(Drop)]
pub struct Found {
    pub root: Root,
    pub dict: Dict,
    pub lines: Lines,
}

/// The root at which the search of what is prepared of a polyhedron begins: the start cobasis, where no constant is
/// negative there; else what phase one gives. `Infeasible` comes exactly where no point satisfies the file, if no overflow
/// or want of memory came before: a root that is found is feasible. An overflow comes only at a pivot of phase one: the
/// exchange of t for the row of least constant, or, at a lexicographically feasible cobasis on the way, that of the row of
/// the ratio test or of t. What is prepared is given up; memory that was taken by then is given back.
///
/// An unknown t, row 0, is added to each row outside the start cobasis. The row of least constant takes its place; steps
/// lower it, by the lexicographic ratio test, until it is negative in no column; if it is 0 there, it goes.
pub fn first(alloc: Global, prepared: Prepared) -> Result<Found, FirstStop>
    requires prepared { (p : Polyhedron) × IsPreparationOf p prepared }
    ensures found { IfOk result (λ f. (p : Polyhedron) → IsPreparationOf p prepared →
        IsFound p prepared.free f.root.key f.dict) }
    ensures lines { IfOk result (λ f. f.lines ≡ prepared.lines) }
    ensures infeasible { IsErrOf result FirstStop.Infeasible → (p : Polyhedron) → IsPreparationOf p prepared →
        IsFeasible (cone_of p) → ⊥ }
    ensures overflow { (o : Passed) → IsErrOf result (FirstStop.Overflow o) → (p : Polyhedron) →
        IsPreparationOf p prepared → IsDue p o (IsAskedInFirst p o) }
{
    let (lines, _free, start) = prepared.into_parts();
    let dict = root_dictionary(alloc, start)?;
    Ok(Found {
        root: Root::new(dict.key()),
        dict,
        lines,
    })
}

// The dictionary of the root, from that of the start cobasis.
fn root_dictionary(alloc: Global, start: Dict) -> Result<Dict, FirstStop>
    requires start { (p : Polyhedron) × (free : List ℕ) × IsStartOf p free start }
    ensures given { IfOk result (λ d. (p : Polyhedron) (free : List ℕ) → IsStartOf p free start →
        IsGivenFrom (main_space p free) start.key d) }
    ensures infeasible { IsErrOf result FirstStop.Infeasible → (p : Polyhedron) (free : List ℕ) →
        IsStartOf p free start → IsFeasible (cone_of p) → ⊥ }
    ensures overflow { (o : Passed) → IsErrOf result (FirstStop.Overflow o) → (p : Polyhedron) (free : List ℕ) →
        IsStartOf p free start → IsDue p o (IsAskedInFirst p o) }
{
    match first_worst(&start) {
        None => Ok(start),
        Some(worst) => from_worst::<Brand>(alloc, start, worst, Blank::new(1)),
    }
}

// The same where a constant is negative. The blank is for the counter of pivots, of which nothing is said.
fn from_worst<L: Ledger>(
    alloc: Global,
    start: Dict,
    worst: Label,
    blank: Blank,
) -> Result<Dict, FirstStop>
    requires start { (space : Space) × IsStart space start }
    requires worst { IsWorstRow start worst }
    requires blank { IsBlankOf blank.name blank.parts L.name L.parts }
    ensures given { IfOk result (λ d. (space : Space) → IsStart space start →
        IsGivenFrom space start.key d) }
    ensures infeasible { IsErrOf result FirstStop.Infeasible → (space : Space) → IsStart space start →
        MeetsRows space → ⊥ }
    ensures overflow { (o : Passed) → IsErrOf result (FirstStop.Overflow o) → (space : Space) →
        IsStart space start → StopsPhaseOne space start.key worst o }
{
    let mut steps = Steps::<L>::new(blank);
    let dict = begin(start, worst, &mut steps)?;
    let Ok(order) = Order::marked(alloc, &Root::new(dict.key())) else {
        return Err(FirstStop::Memory);
    };
    finish(dict, &order, &mut steps)
}
