//! Pivots to neighbors with numbers no larger, and back.
ghost use Rattle.std.specs.Prelude.{◌≤◌};

use crate::plan::Plan;
use crate::prepare::{enlarged, exchange};
use crate::random::Random;
use crate::table::Table;
use dictionary::Dict;
use poly_model::{Label, OutOfMemory};
use std::alloc::Global;

/// A row and a column of a table, both counted from 0, and their labels.
#[derive(Clone, Copy)]
pub struct Spot {
    pub row: usize,
    pub column: usize,
    outside: Label,
    inside: Label,
}

/// A dictionary of rows at random, the same as a plain table, and spots at which both can pivot.
pub struct Prepared {
    pub dict: Dict,
    pub table: Table,
    pub spots: Vec<Spot>,
}

// Written out, so that to let one go is one step in the proofs of those who hold it.
impl Drop for Prepared {
    fn drop(self) {
        let Self {
            dict: _,
            table: _,
            spots: _,
        } = self;
    }
}

impl Prepared {
    /// Those of a plan at a seed.
    pub fn of(alloc: Global, plan: &Plan, seed: u64) -> Result<Prepared, OutOfMemory> {
        let mut random = Random { state: seed };
        let dict = enlarged(alloc, plan, &mut random)?;
        let table = Table::of(alloc, &dict, plan)?;
        let spots = if table.bits() == plan.bits {
            spots_of(alloc, &dict, &table, &mut random)?
        } else {
            Vec::new(alloc)
        };
        Ok(Prepared { dict, table, spots })
    }
}

/// What can pivot at a spot, and back; each says whether that was possible.
pub trait Pivots {
    fn go(&mut self, spot: &Spot) -> bool;

    fn come_back(&mut self, spot: &Spot) -> bool;
}

impl Pivots for Dict {
    fn go(&mut self, spot: &Spot) -> bool {
        exchange(self, spot.outside, spot.inside).unwrap_or(false)
    }

    fn come_back(&mut self, spot: &Spot) -> bool {
        exchange(self, spot.inside, spot.outside).unwrap_or(false)
    }
}

impl Pivots for Table {
    fn go(&mut self, spot: &Spot) -> bool {
        self.exchange(spot.row, spot.column).is_some()
    }

    fn come_back(&mut self, spot: &Spot) -> bool {
        self.exchange(spot.row, spot.column).is_some()
    }
}

/// So many pivots, at the spots in turn, to and fro at each. The answer is how many of them were possible.
pub fn turns<P: Pivots>(numbers: &mut P, spots: &[Spot], pivots: u64) -> u64
    ensures { result ≤ pivots }
{
    let mut done = 0;
    if spots.is_empty() {
        return done;
    }
    for k in 0..pivots {
        let spot = &spots[(k / 2 % spots.len() as u64) as usize];
        let possible = if k % 2 == 0 {
            numbers.go(spot)
        } else {
            numbers.come_back(spot)
        };
        if possible {
            done += 1;
        }
    }
    done
}

// Some spots at random that will do.
fn spots_of(
    alloc: Global,
    dict: &Dict,
    table: &Table,
    random: &mut Random,
) -> Result<Vec<Spot>, OutOfMemory> {
    let key = dict.key();
    let (outside, inside) = (table.labels(), key.labels());
    let mut spots = Vec::new(alloc);
    if outside.is_empty() || inside.is_empty() {
        return Ok(spots);
    }
    for _ in 0..1024 {
        if spots.len() >= 64 {
            break;
        }
        let row = random.below(outside.len() as u64) as usize;
        let j = random.below(inside.len() as u64) as usize;
        let spot = Spot {
            row,
            column: j + 1,
            outside: outside[row],
            inside: inside[j],
        };
        if will_do(&spot, dict, table)? {
            spots.push(spot)?;
        }
    }
    Ok(spots)
}

// Whether a dictionary and its table can pivot there and back, by way of the same numbers, which are no
// larger, and the table is then what it was.
fn will_do(spot: &Spot, dict: &Dict, table: &Table) -> Result<bool, OutOfMemory> {
    let mut numbers = dict.copy()?;
    let mut cells = table.copy()?;
    Ok(
        cells.go(spot)
            && cells.bits() <= table.bits()
            && numbers.go(spot)
            && numbers.denominator().get() == cells.denominator()
            && cells.come_back(spot)
            && cells.checksum() == table.checksum()
            && numbers.come_back(spot),
    )
}
