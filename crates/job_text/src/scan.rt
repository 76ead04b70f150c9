//! The lines of a reply behind its head.
ghost use Rattle.std.specs.Prelude.{◌≡◌, ℕ, length, IfOk, IsErrOf};
ghost use Rattle.job_text.specs.Scans.{IsScanOf, StopsScanAt};

use crate::fit::{fit_line, is_row};
use crate::said::Fit;
use crate::{ReplyStop, Tail};
use plain_text::split_line;
use poly_model::Keys;
use poly_num::Num;
use std::alloc::Global;

/// What the lines of a reply say: those before its last one, how many rows they show, the keys, and its end.
#[derive(Drop)]
pub(crate) struct Scan<'a> {
    pub front: &'a [u8],
    pub rows: u64,
    pub keys: Keys,
    pub tail: Tail,
}

/// Reads the lines of a reply to its end, or to the first byte that is of no line that fits; each row into the same place.
pub(crate) fn scan_lines<'a>(
    alloc: Global,
    row: &mut [Num],
    text: &'a [u8],
) -> Result<Scan<'a>, ReplyStop>
    ensures ok { IfOk result (λ s. IsScanOf (length row.old) text.now s) }
    ensures stop { (place : ℕ) → IsErrOf result (ReplyStop.NotWhole place) → StopsScanAt (length row.old) text.now place }
{
    let mut keys = Keys::new(alloc);
    let mut rows = 0u64;
    let mut place = 0u64;
    let mut rest = text;
    'lines: loop {
        let (line, behind) = match split_line(rest) {
            Some(found) => found,
            None => return Err(ReplyStop::NotWhole { place }),
        };
        let next = place + line.len() as u64 + 1;
        // Most lines are rows. What another line says takes room for a key, which is not made for these.
        if is_row(line, row) {
            rows += 1;
        } else {
            match fit_line(line, row, rows, keys.len() as u64) {
                Fit::No => return Err(ReplyStop::NotWhole { place }),
                Fit::Row => rows += 1,
                Fit::Job(key) => keys.push(&key)?,
                Fit::Last(tail) => {
                    if behind.is_empty() {
                        return Ok(Scan {
                            front: &text[..place as usize],
                            rows,
                            keys,
                            tail,
                        });
                    }
                    return Err(ReplyStop::NotWhole { place: next });
                }
            }
        }
        place = next;
        rest = behind;
    }
}
