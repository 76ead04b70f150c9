//! Pivots at random, each from where the last one led.
ghost use Rattle.std.specs.Prelude.{◌<◌};

use crate::plan::Plan;
use crate::prepare::exchange;
use crate::random::Random;
use crate::table::Table;
use dictionary::Dict;
use poly_model::{Label, Overflow, Place};
use std::io;

/// Exchanges labels at random until the pivots of the plan are done, or so many tries are over, and prints a
/// line for each exchange that was done or refused.
pub fn walk(rt: &HostRuntime, dict: &mut Dict, plan: &Plan, random: &mut Random) -> io::Result<()> {
    let mut done = 0;
    for _ in 0..4096 {
        if done < plan.pivots {
            match exchange(dict, label(plan, random), label(plan, random)) {
                Ok(false) => {}
                Ok(true) => {
                    done += 1;
                    tell_pivot(rt, &Table::of(rt.alloc(), dict, plan)?)?;
                }
                Err(overflow) => tell_overflow(rt, &overflow)?,
            }
        }
    }
    Ok(())
}

// A row or a coordinate, each as likely as the others.
fn label(plan: &Plan, random: &mut Random) -> Label {
    plan.label(random.below(u64::from(plan.labels())) as u32)
}

// The dictionary after a pivot.
fn tell_pivot(rt: &HostRuntime, table: &Table) -> io::Result<()> {
    let bits = table.bits();
    let checksum = table.checksum();
    println!(rt; "pivot to {bits} bits, checksum {checksum}")
}

// The phase, and the numbers of the labels of the four places and of those of the key.
fn tell_overflow(rt: &HostRuntime, overflow: &Overflow) -> io::Result<()> {
    let phase = overflow.phase;
    print!(rt; "overflow in {phase:?} at")?;
    tell_place(rt, &overflow.a)?;
    tell_place(rt, &overflow.b)?;
    tell_place(rt, &overflow.c)?;
    tell_place(rt, &overflow.d)?;
    print!(rt; " of")?;
    for label in overflow.key.labels() {
        let number = label.number();
        print!(rt; " {number}")?;
    }
    println!(rt; "")
}

fn tell_place(rt: &HostRuntime, place: &Place) -> io::Result<()> {
    let row = place.row.number();
    let column = place.col.number();
    print!(rt; " {row} {column}")
}
