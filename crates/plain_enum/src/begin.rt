//! With what a listing begins: equations and free columns, dictionaries to write over, one for each further row that a
//! list takes, and room for a vector.
ghost use Rattle.std.specs.Prelude.{◌≡◌, ◌-◌, ◌<◌, ◌≤◌, IfOk, IsErrOf, length};
ghost use Rattle.std.specs.List.{All};
ghost use Rattle.poly_model.specs.declared.overflow.Overflow.{Overflow as Passed};
ghost use Rattle.poly_model.specs.Keys.{IsAscending};
ghost use Rattle.poly_model.specs.Limits.{most_columns, most_cone_rows};
ghost use Rattle.poly_model.specs.Systems.{Polyhedron, cone_of};
ghost use Rattle.poly_model.specs.declared.overflow.Phase.TheVariants.{Cone};
ghost use Rattle.dictionary.specs.New.{IsCoordinateDictionary};
ghost use Rattle.linearity.specs.Columns.{columns_in};
ghost use Rattle.plain_enum.specs.Begin.{IsBegun, HasRoomForAll, left_in};
ghost use Rattle.plain_enum.specs.Listed.{HasShapeOf};
ghost use Rattle.plain_enum.specs.Plain.{PassesInCone};

use crate::answers::FeasibleStop;
use crate::side::is_kept;
use dictionary::Dict;
use linearity::{Pass, enter_rows, free_columns};
use poly_model::{FreeColumns, Label, OutOfMemory, Phase, System};
use poly_num::Num;
use std::alloc::{AllocError, Global};

/// What a listing begins with.
#[derive(Drop)]
pub struct Beginning {
    /// The dictionary of the cone at which the linear rows have been tried.
    pub dict: Box<Dict>,
    /// The same once all rows have been tried.
    pub last: Box<Dict>,
    /// The free columns, ascending.
    pub free: FreeColumns,
    pub room: Room,
}

/// What a search writes over.
#[derive(Drop)]
pub struct Room {
    /// Dictionaries of one shape, one for each row that a list takes.
    pub deeper: Vec<Dict>,
    pub vector: Vec<Num>,
}

/// What the listing of a system begins with.
pub fn begin(alloc: Global, sys: &System) -> Result<Beginning, FeasibleStop>
    ensures begun { IfOk result (λ b. (p : Polyhedron) → sys.now ≡ cone_of p → IsBegun p b.dict.value b.last.value b.free) }
    ensures room { IfOk result (λ b. HasRoomForAll sys.now b.free b.dict.value b.room.deeper.items b.room.vector.items) }
    ensures overflow { (o : Passed) → IsErrOf result (FeasibleStop.Overflow o) → (p : Polyhedron) →
        sys.now ≡ cone_of p → PassesInCone p o }
{
    sys.keeps_limits();
    let Ok(mut dict) = first_of(alloc, sys) else {
        return Err(FeasibleStop::Memory);
    };
    if let Err(overflow) = enter_rows(&mut dict, sys, Pass::Linear) {
        return Err(FeasibleStop::Overflow(overflow));
    }
    let Ok(mut last) = copy_of(alloc, &dict) else {
        return Err(FeasibleStop::Memory);
    };
    if let Err(overflow) = enter_rows(&mut last, sys, Pass::Others) {
        return Err(FeasibleStop::Overflow(overflow));
    }
    match with_room(alloc, sys, dict, last) {
        Ok(begun) => Ok(begun),
        Err(_) => Err(FeasibleStop::Memory),
    }
}

// The dictionary of the coordinates, with which it begins.
fn first_of(alloc: Global, sys: &System) -> Result<Box<Dict>, OutOfMemory>
    ensures { IfOk result (λ d. IsCoordinateDictionary sys.now Cone d.value) }
{
    Ok(Box::new(alloc, Dict::new(alloc, sys, Phase::Cone)?)?)
}

// A dictionary that is equal.
fn copy_of(alloc: Global, dict: &Dict) -> Result<Box<Dict>, OutOfMemory>
    ensures { IfOk result (λ d. d.value ≡ dict.now) }
{
    Ok(Box::new(alloc, dict.copy()?)?)
}

// The free columns, and room for a listing from these dictionaries. The answer is `Err` only for want of memory.
fn with_room(
    alloc: Global,
    sys: &System,
    dict: Box<Dict>,
    last: Box<Dict>,
) -> Result<Beginning, AllocError>
    ensures dict { IfOk result (λ b. b.dict ≡ dict) }
    ensures last { IfOk result (λ b. b.last ≡ last) }
    ensures columns { IfOk result (λ b. b.free ≡ columns_in last.value.key) }
    ensures ascending { IfOk result (λ b. IsAscending last.value.key) }
    ensures shapes { IfOk result (λ b. All (HasShapeOf dict.value) b.room.deeper.items) }
    ensures depth { IfOk result (λ b. length b.room.deeper.items ≡ length (left_in b.free dict.value.key) - 1) }
    ensures vector { IfOk result (λ b. length b.room.vector.items ≡ sys.now.n) }
{
    let free = free_columns(alloc, &last)?;
    let left = count_left(&dict, &free);
    let deeper = copies(alloc, &dict, left.saturating_sub(1))?;
    let vector = zero_vector(alloc, sys.n())?;
    Ok(Beginning {
        dict,
        last,
        free,
        room: Room { deeper, vector },
    })
}

// So many copies of a dictionary. The answer is `Err` only for want of memory.
fn copies(alloc: Global, dict: &Dict, count: usize) -> Result<Vec<Dict>, AllocError>
    ensures count { IfOk result (λ v. length v.items ≡ count) }
    ensures shapes { IfOk result (λ v. All (HasShapeOf dict.now) v.items) }
{
    let mut made = Vec::new(alloc);
    'copies: for _ in 0..count {
        made.push(dict.copy()?)?;
    }
    Ok(made)
}

// A vector of n zeros. The answer is `Err` only for want of memory.
fn zero_vector(alloc: Global, n: u32) -> Result<Vec<Num>, AllocError>
    ensures { IfOk result (λ v. length v.items ≡ n) }
{
    let mut vector = Vec::new(alloc);
    vector.resize(n as usize, Num::ZERO)?;
    Ok(vector)
}

// How many coordinates in the cobasis are not free.
fn count_left(dict: &Dict, free: &FreeColumns) -> usize
    ensures { result ≡ length (left_in free.now dict.now.key) }
{
    let key = dict.key();
    let mut count: usize = 0;
    'labels: for label in key.labels() {
        if is_kept(free, *label) {
            count += 1;
        }
    }
    count
}
