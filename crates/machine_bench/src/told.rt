//! What the machine does, in print.
use crate::stop::Stop;
use coordinator_core::{Action, Verdict};
use poly_io::{MemSink, WriteFault, write_all, write_count};
use poly_model::Key;
use row_printer::{write_key, write_overflow};
use run_state::RunState;
use work_core::Budget;

/// That a payload of the ledger is broken.
pub fn write_broken(place: u64, out: &mut MemSink) -> Result<(), WriteFault> {
    write_line(b"broken", &[place], out)
}

/// What is next.
pub fn write_action(action: &Action, out: &mut MemSink) -> Result<(), WriteFault> {
    match action {
        Action::Hand {
            attempt,
            key,
            budget,
        } => write_hand(*attempt, key, budget, out),
        Action::Collect => write_all(out, b"collect\n"),
        Action::Finish => write_all(out, b"finish\n"),
        Action::GiveUp { lost, strays } => write_line(b"give up", &[*lost, *strays], out),
    }
}

/// What would become of a reply.
pub fn write_judged(verdict: &Verdict, out: &mut MemSink) -> Result<(), WriteFault> {
    write_all(out, b"judged ")?;
    write_verdict(verdict, out)
}

/// What becomes of what came.
pub fn write_verdict(verdict: &Verdict, out: &mut MemSink) -> Result<(), WriteFault> {
    match verdict {
        Verdict::Accepted => write_all(out, b"accepted\n"),
        Verdict::Stray => write_all(out, b"stray\n"),
        Verdict::Loss => write_all(out, b"loss\n"),
        Verdict::Ends(overflow) => {
            write_all(out, b"ends ")?;
            write_overflow(overflow, out)?;
            write_all(out, b"\n")
        }
    }
}

/// How a run stands: how many keys came, how many rows are recorded, and the keys that wait.
pub fn write_state(run: &RunState, out: &mut MemSink) -> Result<(), Stop> {
    write_numbers(b"state", &[run.len() as u64, run.rows()], out)?;
    for place in &run.waiting_places()? {
        if *place < run.len() {
            write_all(out, b", ")?;
            write_key(&run.key_at(*place), out)?;
        }
    }
    write_all(out, b"\n")?;
    Ok(())
}

// That a job is handed out: the number of its attempt, its budget and its key.
fn write_hand(
    attempt: u64,
    key: &Key,
    budget: &Budget,
    out: &mut MemSink,
) -> Result<(), WriteFault> {
    write_numbers(b"hand", &[attempt, budget.bases, budget.depth], out)?;
    write_all(out, b" ")?;
    write_key(key, out)?;
    write_all(out, b"\n")
}

// A line of a word, and numbers behind it.
fn write_line(word: &[u8], numbers: &[u64], out: &mut MemSink) -> Result<(), WriteFault> {
    write_numbers(word, numbers, out)?;
    write_all(out, b"\n")
}

// A word, and numbers behind it.
fn write_numbers(word: &[u8], numbers: &[u64], out: &mut MemSink) -> Result<(), WriteFault> {
    write_all(out, word)?;
    for number in numbers {
        write_all(out, b" ")?;
        write_count(*number, out)?;
    }
    Ok(())
}
