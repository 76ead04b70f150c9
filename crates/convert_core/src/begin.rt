//! What a search begins with.
ghost use Rattle.std.specs.Prelude.{◌≡◌, ◌≤◌, ◌⊎◌, length, IfOk, IsErrOf};
ghost use Rattle.poly_model.specs.declared.overflow.Overflow.{Overflow as Passed};
ghost use Rattle.poly_model.specs.Due.{IsDue, IsAskedBefore, IsAskedInFirst};
ghost use Rattle.poly_model.specs.Extreme.{IsFeasible};
ghost use Rattle.poly_model.specs.FreeColumns.{AreLines};
ghost use Rattle.poly_model.specs.Keys.{IsKey};
ghost use Rattle.poly_model.specs.Limits.{most_columns};
ghost use Rattle.poly_model.specs.PhaseOne.{IsSearchRoot};
ghost use Rattle.poly_model.specs.Systems.{Polyhedron, cone_of};
ghost use Rattle.convert_core.specs.Searches.{IsSearch, IsAtRoot, IsRootOf};

use crate::rays::rays_of;
use crate::search::Search;
use hull_lift::system_of;
use linearity::{PrepareStop, prepare};
use phase_one::{FirstStop, Found, first};
use poly_model::{Lines, OutOfMemory, Overflow, Poly, Root, System};
use poly_num::Num;
use reverse_step::Walker;
use std::alloc::Global;

/// Why there is no search, or it was given up: no point satisfies the file, a number of a dictionary would pass 127 bits,
/// or there was no memory.
#[derive(Clone, Copy, PartialEq, Eq, Debug)]
pub enum SearchStop {
    Infeasible,
    Overflow(Overflow),
    Memory,
}

/// A search of a file from the root that phase one gives, with the lines of the file. All memory is taken here.
pub(crate) fn begin<'a>(alloc: Global, poly: &'a Poly) -> Result<(Search<'a>, Lines), SearchStop>
    ensures search { IfOk result (λ r. IsSearch poly.now r.0.cone r.0.rays r.0.walker r.0.vector.items) }
    ensures poly { IfOk result (λ r. r.0.poly.now ≡ poly.now) }
    ensures at_root { IfOk result (λ r. IsAtRoot poly.now r.0.walker) }
    ensures lines { IfOk result (λ r. AreLines (cone_of poly.now) r.1) }
    ensures few { IfOk result (λ r. length r.1 ≤ most_columns) }
    ensures infeasible { IsErrOf result SearchStop.Infeasible → IsFeasible (cone_of poly.now) → ⊥ }
    ensures overflow { (o : Passed) → IsErrOf result (SearchStop.Overflow o) →
        IsDue poly.now o (IsAskedBefore poly.now o) ⊎ IsDue poly.now o (IsAskedInFirst poly.now o) }
{
    let Ok(cone) = system_of(alloc, poly) else {
        return Err(SearchStop::Memory);
    };
    let found = root_of(alloc, &cone)?;
    match search_from(alloc, poly, cone, found) {
        Ok(begun) => Ok(begun),
        Err(_) => Err(SearchStop::Memory),
    }
}

/// The root of the search of a file, from which `list` walks, or why there is none. `Infeasible` comes exactly where no point
/// satisfies the file, if no overflow or want of memory came before. Memory that was taken is given back.
pub fn search_root(alloc: Global, poly: &Poly) -> Result<Root, SearchStop>
    ensures root { IfOk result (λ r. IsSearchRoot poly.now r.key) }
    ensures key { IfOk result (λ r. IsKey r.key) }
    ensures infeasible { IsErrOf result SearchStop.Infeasible → IsFeasible (cone_of poly.now) → ⊥ }
    ensures overflow { (o : Passed) → IsErrOf result (SearchStop.Overflow o) →
        IsDue poly.now o (IsAskedBefore poly.now o) ⊎ IsDue poly.now o (IsAskedInFirst poly.now o) }
{
    let Ok(cone) = system_of(alloc, poly) else {
        return Err(SearchStop::Memory);
    };
    match root_of(alloc, &cone) {
        Ok(found) => {
            is_key(&found.root);
            Ok(found.root)
        }
        Err(stop) => Err(stop),
    }
}

// The labels of a root are those of a key. Nothing is done: a call of this tells the proofs of the caller.
fn is_key(root: &Root)
    ensures { IsKey root.now.key }
{
    root.key().labels();
}

// The root of the search of a cone, or why there is none.
fn root_of(alloc: Global, cone: &System) -> Result<Found, SearchStop>
    requires { (p : Polyhedron) × (cone.now ≡ cone_of p) }
    ensures found { IfOk result (λ f. (p : Polyhedron) → cone.now ≡ cone_of p → IsRootOf p f.root.key f.dict f.lines) }
    ensures infeasible { IsErrOf result SearchStop.Infeasible → (p : Polyhedron) → cone.now ≡ cone_of p →
        IsFeasible (cone_of p) → ⊥ }
    ensures overflow { (o : Passed) → IsErrOf result (SearchStop.Overflow o) → (p : Polyhedron) →
        cone.now ≡ cone_of p → IsDue p o (IsAskedBefore p o) ⊎ IsDue p o (IsAskedInFirst p o) }
{
    cone.keeps_limits();
    let prepared = match prepare(alloc, cone) {
        Ok(prepared) => prepared,
        Err(PrepareStop::Inconsistent) => return Err(SearchStop::Infeasible),
        Err(PrepareStop::Overflow(overflow)) => return Err(SearchStop::Overflow(overflow)),
        Err(PrepareStop::Memory) => return Err(SearchStop::Memory),
    };
    match first(alloc, prepared) {
        Ok(found) => Ok(found),
        Err(FirstStop::Infeasible) => Err(SearchStop::Infeasible),
        Err(FirstStop::Overflow(overflow)) => Err(SearchStop::Overflow(overflow)),
        Err(FirstStop::Memory) => Err(SearchStop::Memory),
    }
}

// The search from a root.
fn search_from<'a>(
    alloc: Global,
    poly: &'a Poly,
    cone: System,
    found: Found,
) -> Result<(Search<'a>, Lines), OutOfMemory>
    requires cone { cone ≡ cone_of poly.now }
    requires root { IsRootOf poly.now found.root.key found.dict found.lines }
    ensures search { IfOk result (λ r. IsSearch poly.now r.0.cone r.0.rays r.0.walker r.0.vector.items) }
    ensures poly { IfOk result (λ r. r.0.poly.now ≡ poly.now) }
    ensures at_root { IfOk result (λ r. IsAtRoot poly.now r.0.walker) }
    ensures lines { IfOk result (λ r. r.1 ≡ found.lines) }
{
    let Found { root, dict, lines } = found;
    let walker = Walker::new(alloc, dict, &root)?;
    let vector = Vec::from_elem(alloc, Num::ZERO, poly.n() as usize)?;
    let rays = rays_of(&cone);
    let search = Search {
        poly,
        cone,
        rays,
        walker,
        vector,
    };
    Ok((search, lines))
}
