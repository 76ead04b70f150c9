//! A table and its spots in print, for another program to pivot.
use crate::plan::Plan;
use crate::spots::{Prepared, Spot};
use crate::table::Table;
use std::io;

/// Prints the first table at random that has exactly the bits of the plan and some spots, with its seed,
/// which is that of the plan or one of the next; or nothing where none of them has.
pub fn print_first(rt: &HostRuntime, plan: &Plan) -> io::Result<()> {
    for k in 0..SEEDS {
        let seed = plan.seed.wrapping_add(k);
        let prepared = Prepared::of(rt.alloc(), plan, seed)?;
        if !prepared.spots.is_empty() {
            println!(rt; "{seed}")?;
            print_table(rt, &prepared.table)?;
            return print_spots(rt, &prepared.spots);
        }
    }
    Ok(())
}

// How many seeds are tried.
const SEEDS: u64 = 400;

// How many rows and columns, the denominator, and the numbers row by row.
fn print_table(rt: &HostRuntime, table: &Table) -> io::Result<()> {
    let height = table.labels().len();
    let width = table.width();
    let denominator = table.denominator();
    println!(rt; "{height} {width} {denominator}")?;
    for cell in table.cells() {
        println!(rt; "{cell}")?;
    }
    Ok(())
}

// How many spots, and the row and the column of each.
fn print_spots(rt: &HostRuntime, spots: &[Spot]) -> io::Result<()> {
    let count = spots.len();
    println!(rt; "{count}")?;
    for spot in spots {
        let (row, column) = (spot.row, spot.column);
        println!(rt; "{row} {column}")?;
    }
    Ok(())
}
