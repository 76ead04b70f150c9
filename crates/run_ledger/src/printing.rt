//! Prints the recorded rows of a run as a listing.
ghost use Rattle.std.specs.Prelude.{◌≡◌, ◌<◌, ◌≤◌, ◌+◌, ◌^◌, List, ℕ, Some, length, slice_get, IfOk, IsErrOf};
ghost use Rattle.poly_io.specs.Causes.{RisesAt};
ghost use Rattle.disk_core.specs.Moments.{IsQuiet};
ghost use Rattle.poly_model.specs.FreeColumns.{AreLines};
ghost use Rattle.poly_model.specs.Limits.{most_columns};
ghost use Rattle.poly_model.specs.Systems.{cone_of};
ghost use Rattle.work_core.specs.Searches.{Search};
ghost use Rattle.job_text.specs.declared.reply.Reply.{Reply as TheReply};
ghost use Rattle.job_ledger.specs.Ledgers.{IsLedgerAt};
ghost use Rattle.run_state.specs.Payloads.{IsLedgerText};
ghost use Rattle.run_state.specs.Runs.{recorded_rows};
ghost use Rattle.run_ledger.specs.Printing.{PrintsRows, WritesRun};
ghost use Rattle.run_ledger.specs.Recorded.{IsNoReplyAt, IsReplyAt};

use crate::PrintStop;
use crate::printed::Printed;
use crate::rows::print_reply;
use disk_core::Disk;
use job_ledger::{Ledger, LedgerStop};
use job_text::zeros;
use poly_io::{Bytes, Sink};
use poly_model::{Listed, Poly, Vector};
use row_printer::Listing;
use std::alloc::Global;

/// A run that is to be printed: its ledger, the polyhedron that it searches, and the lines of that.
#[derive(Clone, Copy)]
pub struct PrintedRun<'a> {
    pub ledger: &'a Ledger,
    pub poly: &'a Poly,
    pub lines: &'a [Vector],
}

/// The records of a ledger, whose rows have n numbers.
#[derive(Clone, Copy)]
struct Records<'a> {
    alloc: Global,
    ledger: &'a Ledger,
    n: u32,
}

// The payload of this number, from 0.
fn read_payload<D: Disk>(ledger: &Ledger, disk: &mut D, i: u64) -> Result<Bytes, PrintStop>
    requires { i < length ledger.now.sizes }
    ensures quiet { IsQuiet D.seen D.images D.moment D.since disk.old disk.new }
    ensures bytes { (payloads : List (List ℕ)) → IsLedgerAt ledger.now payloads (D.seen disk.old) (D.images disk.old)
        → IfOk result (λ b. slice_get payloads i ≡ Some b) }
    ensures unwritten { IsErrOf result PrintStop.WriteFault → ⊥ }
    ensures never_bad { (place : ℕ) → IsErrOf result (PrintStop.BadLedger place) → ⊥ }
    ensures cause { RisesAt PrintStop.DiskFault (D.faults disk.old) (D.faults disk.new) result }
{
    match ledger.payload(disk, i) {
        Ok(bytes) => Ok(bytes),
        Err(LedgerStop::DiskFault) => Err(PrintStop::DiskFault),
        Err(_) => Err(PrintStop::Memory),
    }
}

// Prints the rows of one record, by its number from 0.
fn print_record<D: Disk, O: Sink>(
    records: &Records,
    i: u64,
    printed: Printed,
    disk: &mut D,
    out: &mut O,
) -> Result<Printed, PrintStop>
    requires at { i < length records.now.ledger.now.sizes }
    requires small { i + 1 < 2 ^ 64 }
    ensures quiet { IsQuiet D.seen D.images D.moment D.since disk.old disk.new }
    ensures rows { (payloads : List (List ℕ)) (r : TheReply)
        → IsLedgerAt records.now.ledger.now payloads (D.seen disk.old) (D.images disk.old)
        → IsReplyAt records.now.n payloads i r
        → PrintsRows r.rows printed (O.written out.old) (O.written out.new) result }
    ensures kind { IfOk result (λ s. s.listing ≡ printed.listing) }
    ensures bad { (place : ℕ) (payloads : List (List ℕ)) → IsErrOf result (PrintStop.BadLedger place)
        → IsLedgerAt records.now.ledger.now payloads (D.seen disk.old) (D.images disk.old)
        → (place ≡ i + 1) × ((r : TheReply) → IsReplyAt records.now.n payloads i r → ⊥) }
    ensures disk_cause { RisesAt PrintStop.DiskFault (D.faults disk.old) (D.faults disk.new) result }
    ensures sink_cause { RisesAt PrintStop.WriteFault (O.faults out.old) (O.faults out.new) result }
{
    let payload = read_payload(records.ledger, disk, i)?;
    let mut row = zeros(records.alloc, records.n)?;
    print_reply(i + 1, payload.as_slice(), &mut row, printed, out)
}

// Prints the rows of all records behind the first.
fn print_records<D: Disk, O: Sink>(
    records: &Records,
    printed: Printed,
    disk: &mut D,
    out: &mut O,
) -> Result<Printed, PrintStop>
    ensures quiet { IsQuiet D.seen D.images D.moment D.since disk.old disk.new }
    ensures rows { (s : Search) (replies : List TheReply) (payloads : List (List ℕ))
        → IsLedgerAt records.now.ledger.now payloads (D.seen disk.old) (D.images disk.old)
        → IsLedgerText s replies payloads → s.polyhedron.n ≡ records.now.n
        → PrintsRows (recorded_rows replies) printed (O.written out.old) (O.written out.new) result }
    ensures kind { IfOk result (λ s. s.listing ≡ printed.listing) }
    ensures bad { (place : ℕ) (payloads : List (List ℕ)) → IsErrOf result (PrintStop.BadLedger place)
        → IsLedgerAt records.now.ledger.now payloads (D.seen disk.old) (D.images disk.old)
        → IsNoReplyAt records.now.n payloads place }
    ensures disk_cause { RisesAt PrintStop.DiskFault (D.faults disk.old) (D.faults disk.new) result }
    ensures sink_cause { RisesAt PrintStop.WriteFault (O.faults out.old) (O.faults out.new) result }
{
    let mut printed = printed;
    for i in 1..records.ledger.count() {
        printed = print_record(records, i, printed, disk, out)?;
    }
    Ok(printed)
}

/// Prints a run as a listing: the lines, and the rows of each record behind the first, of which one payload is in
/// memory at a time. The answer says how many rows and lines it has. Where it stops, first bytes of that listing were
/// written. No image of the disk is new.
///
/// This is for records that were judged when they were recorded or read again: of each line of a record its first word is
/// looked at, and no number is read. `BadLedger` comes where these are not the words of a reply that ends in `end`, and is the
/// number of the record; so it comes for no such reply, and not for each other record. The rows before that line were written.
pub fn print_run<D: Disk, O: Sink>(
    alloc: Global,
    run: &PrintedRun,
    disk: &mut D,
    out: &mut O,
) -> Result<Listed, PrintStop>
    requires few { length run.now.lines.now ≤ most_columns }
    ensures listed { (s : Search) (replies : List TheReply) (payloads : List (List ℕ))
        → IsLedgerAt run.now.ledger.now payloads (D.seen disk.old) (D.images disk.old)
        → IsLedgerText s replies payloads → s.polyhedron ≡ run.now.poly.now
        → AreLines (cone_of run.now.poly.now) run.now.lines.now
        → WritesRun s replies (O.written out.old) (O.written out.new) result }
    ensures bad { (place : ℕ) (payloads : List (List ℕ)) → IsErrOf result (PrintStop.BadLedger place)
        → IsLedgerAt run.now.ledger.now payloads (D.seen disk.old) (D.images disk.old)
        → IsNoReplyAt run.now.poly.now.n payloads place }
    ensures never_bad { (place : ℕ) (s : Search) (replies : List TheReply) (payloads : List (List ℕ))
        → IsErrOf result (PrintStop.BadLedger place)
        → IsLedgerAt run.now.ledger.now payloads (D.seen disk.old) (D.images disk.old)
        → IsLedgerText s replies payloads → s.polyhedron ≡ run.now.poly.now → ⊥ }
    ensures quiet { IsQuiet D.seen D.images D.moment D.since disk.old disk.new }
    ensures disk_cause { RisesAt PrintStop.DiskFault (D.faults disk.old) (D.faults disk.new) result }
    ensures sink_cause { RisesAt PrintStop.WriteFault (O.faults out.old) (O.faults out.new) result }
{
    let records = Records {
        alloc,
        ledger: run.ledger,
        n: run.poly.n(),
    };
    let listing = Listing::begin(out, run.poly.kind(), run.poly.n(), run.lines)?;
    let Printed { listing, rows } = print_records(
        &records,
        Printed { listing, rows: 0 },
        disk,
        out,
    )?;
    listing.finish(out)?;
    Ok(Listed {
        rows,
        lines: run.lines.len() as u32,
    })
}
