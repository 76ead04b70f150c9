//! Prints the rows of a reply.
ghost use Rattle.std.specs.Prelude.{◌≡◌, ℕ, List, IfOk, IsErrOf, IsTrue, length};
ghost use Rattle.std.specs.List.{AllByRecursion};
ghost use Rattle.poly_num.specs.Numbers.{IsNum};
ghost use Rattle.poly_num.specs.Vectors.{Vector};
ghost use Rattle.poly_model.specs.ListingText.{entries_text, row_text, vector_text};
ghost use Rattle.poly_io.specs.Causes.{HasCause, RisesAt};
ghost use Rattle.poly_io.specs.Written.{Prints};
ghost use Rattle.job_text.specs.declared.reply.Reply.{Reply as TheReply};
ghost use Rattle.job_text.specs.LeftRows.{IsEntryLine, LeavesRows};
ghost use Rattle.job_text.specs.Replies.{IsWholeReply};
ghost use Rattle.row_printer.specs.Rows.{counted};
ghost use Rattle.run_state.specs.Payloads.{SaysEnd};
ghost use Rattle.run_ledger.specs.Printing.{PrintsRows};

use crate::PrintStop;
use crate::printed::Printed;
use job_text::{BadReply, next_row, read_entries, rows_behind};
use plain_text::{is_text, next_word};
use poly_io::{Sink, WriteFault};
use poly_model::Kind;
use poly_num::Num;
use row_printer::Listing;

// Whether the line of a row has its entries as they stand in this text: in the listing for a V file each, in that for an H
// file one whose first entry is 0 or 1.
fn is_line(kind: Kind, entries: &[u8]) -> bool
    ensures { IsTrue result → (v : Vector) → AllByRecursion IsNum v → entries.now ≡ entries_text v
        → row_text kind v ≡ vector_text v }
{
    match kind {
        Kind::V => true,
        Kind::H => match next_word(entries) {
            Some((first, _)) => is_text(first, b"0") || is_text(first, b"1"),
            None => false,
        },
    }
}

// Writes the row whose entries this line has; `row` is room for it.
fn write_row<O: Sink>(
    line: &[u8],
    row: &mut [Num],
    listing: Listing,
    out: &mut O,
) -> Result<Listing, WriteFault>
    requires { IsEntryLine line.now }
    ensures prints { (v : Vector) → length v ≡ length row.old → AllByRecursion IsNum v → line.now ≡ vector_text v
        → Prints O.Sink out.old out.new result (row_text listing v) }
    ensures size { length row.new ≡ length row.old }
    ensures kind { IfOk result (λ l. l ≡ listing) }
    ensures cause { HasCause (O.faults out.old) (O.faults out.new) result }
{
    let entries = &line[..line.len() - 1];
    if is_line(listing.kind(), entries) {
        listing.row_by_text(out, line)
    } else {
        // The clause speaks of texts of rows alone, and those are read.
        read_entries(row, entries);
        listing.row(out, row)
    }
}

// Writes the row whose entries this line has, and counts it.
fn print_row<O: Sink>(
    line: &[u8],
    row: &mut [Num],
    printed: Printed,
    out: &mut O,
) -> Result<Printed, WriteFault>
    requires { IsEntryLine line.now }
    ensures prints { (v : Vector) → length v ≡ length row.old → AllByRecursion IsNum v → line.now ≡ vector_text v
        → Prints O.Sink out.old out.new result (row_text printed.listing v) }
    ensures size { length row.new ≡ length row.old }
    ensures kind { IfOk result (λ s. s.listing ≡ printed.listing) }
    ensures count { IfOk result (λ s. s.rows ≡ counted printed.rows 1) }
    ensures cause { HasCause (O.faults out.old) (O.faults out.new) result }
{
    let Printed { listing, rows } = printed;
    let listing = write_row(line, row, listing, out)?;
    Ok(Printed {
        listing,
        rows: rows.saturating_add(1),
    })
}

// Prints the rows of what is left of the reply that the record of this number, from 1, has, and counts them.
fn print_left<O: Sink>(
    place: u64,
    left: &[u8],
    row: &mut [Num],
    printed: Printed,
    out: &mut O,
) -> Result<Printed, PrintStop>
    ensures rows { (rows : List Vector) → LeavesRows (length row.old) rows left.now
        → PrintsRows rows printed (O.written out.old) (O.written out.new) result }
    ensures kind { IfOk result (λ s. s.listing ≡ printed.listing) }
    ensures bad { (number : ℕ) → IsErrOf result (PrintStop.BadLedger number) → (number ≡ place)
        × ((rows : List Vector) → LeavesRows (length row.old) rows left.now → ⊥) }
    ensures never_disk { IsErrOf result PrintStop.DiskFault → ⊥ }
    ensures cause { RisesAt PrintStop.WriteFault (O.faults out.old) (O.faults out.new) result }
{
    let mut left = left;
    let mut printed = printed;
    'rows: loop {
        match next_row(left) {
            Ok(Some((line, rest))) => {
                printed = print_row(line, row, printed, out)?;
                left = rest;
            }
            Ok(None) => return Ok(printed),
            Err(BadReply) => return Err(PrintStop::BadLedger { place }),
        }
    }
}

/// Prints the rows of the reply that the record of this number, from 1, has as its payload, and counts them; `row` is room
/// for one. `BadLedger` comes for no reply that ends in `end`; beyond that the payload is not judged: it was read before.
pub(crate) fn print_reply<O: Sink>(
    place: u64,
    payload: &[u8],
    row: &mut [Num],
    printed: Printed,
    out: &mut O,
) -> Result<Printed, PrintStop>
    ensures rows { (r : TheReply) → IsWholeReply (length row.old) r payload.now → SaysEnd r.tail
        → PrintsRows r.rows printed (O.written out.old) (O.written out.new) result }
    ensures kind { IfOk result (λ s. s.listing ≡ printed.listing) }
    ensures bad { (number : ℕ) → IsErrOf result (PrintStop.BadLedger number) → (number ≡ place)
        × ((r : TheReply) → IsWholeReply (length row.old) r payload.now → SaysEnd r.tail → ⊥) }
    ensures never_disk { IsErrOf result PrintStop.DiskFault → ⊥ }
    ensures cause { RisesAt PrintStop.WriteFault (O.faults out.old) (O.faults out.new) result }
{
    match rows_behind(payload) {
        Some(left) => print_left(place, left, row, printed, out),
        None => Err(PrintStop::BadLedger { place }),
    }
}
