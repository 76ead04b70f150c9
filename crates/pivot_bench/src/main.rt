//! Pivots of a dictionary, or of a plain table of i128, for bench/pivot to time and bench/walk to compare.
#![tactic(auto)]

mod plan;
mod prepare;
mod print;
mod random;
mod spots;
mod table;
mod walk;

use plan::{Mode, Plan, plan_of};
use prepare::drawn;
use print::print_first;
use random::Random;
use spots::{Prepared, turns};
use std::io;
use std::process::ExitCode;
use std::time::{CpuClock, Duration};
use table::Table;
use walk::walk;

fn main(rt: HostRuntime) -> ExitCode {
    run(&rt).unwrap_or(ExitCode::FAILURE)
}

// Does what the words of the call ask for, and tells of it. Where they ask for nothing the exit status is 2.
fn run(rt: &HostRuntime) -> io::Result<ExitCode> {
    let words = std::env::args(rt)?.collect::<Vec<String>>(rt.alloc())?;
    let Some(plan) = plan_of(&words) else {
        eprintln!(rt;
            "usage: pivot_bench print|dictionary|checked|walk uniform|graded|smooth ROWS COLUMNS BITS PIVOTS SEED"
        )?;
        return Ok(ExitCode::from(2));
    };
    match plan.mode {
        Mode::Print => print_first(rt, &plan)?,
        Mode::Dictionary => time_dictionary(rt, &plan)?,
        Mode::Checked => time_checked(rt, &plan)?,
        Mode::Walk => {
            let mut random = Random { state: plan.seed };
            let mut dict = drawn(rt.alloc(), &plan, &mut random)?;
            walk(rt, &mut dict, &plan, &mut random)?;
        }
    }
    Ok(ExitCode::SUCCESS)
}

// Pivots of a dictionary, to and fro.
fn time_dictionary(rt: &HostRuntime, plan: &Plan) -> io::Result<()> {
    let alloc = rt.alloc();
    let mut prepared = Prepared::of(alloc, plan, plan.seed)?;
    let start = rt.thread_cpu_time()?;
    let done = turns(&mut prepared.dict, &prepared.spots, plan.pivots);
    let end = rt.thread_cpu_time()?;
    tell(rt, done, &Table::of(alloc, &prepared.dict, plan)?)?;
    tell_time(rt, start, end)
}

// Pivots of a plain table, to and fro.
fn time_checked(rt: &HostRuntime, plan: &Plan) -> io::Result<()> {
    let mut prepared = Prepared::of(rt.alloc(), plan, plan.seed)?;
    let start = rt.thread_cpu_time()?;
    let done = turns(&mut prepared.table, &prepared.spots, plan.pivots);
    let end = rt.thread_cpu_time()?;
    tell(rt, done, &prepared.table)?;
    tell_time(rt, start, end)
}

// How many pivots were done, and what the table is after them.
fn tell(rt: &HostRuntime, pivots: u64, table: &Table) -> io::Result<()> {
    let bits = table.bits();
    let checksum = table.checksum();
    println!(rt; "{pivots} pivots of {bits} bits, checksum {checksum}")
}

// The processor time of the pivots; not among the results, which are the same in each run.
fn tell_time(rt: &HostRuntime, start: Duration, end: Duration) -> io::Result<()> {
    let time = end.as_nanos().wrapping_sub(start.as_nanos());
    eprintln!(rt; "{time} ns")
}
