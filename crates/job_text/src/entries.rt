//! Reads the entries of a row into their places.
ghost use Rattle.std.specs.Prelude.{◌≡◌, ℤ, List, length, IfOk, IsTrue, IsFalse};
ghost use Rattle.std.specs.List.{AllByRecursion};
ghost use Rattle.poly_num.specs.Numbers.{IsNum};
ghost use Rattle.poly_model.specs.ListingText.{entries_text};
ghost use Rattle.plain_text.specs.Cuts.{GoesOnWith};
ghost use Rattle.work_core.specs.ReplyLines.{row_line};
ghost use Rattle.job_text.specs.LineTexts.{IsReplyLine};

use plain_text::{next_digit, next_num};
use poly_num::{Num, is_primitive};
use std::alloc::{AllocError, Global};

/// So many zeros: room for a row that is read. Refused for lack of memory.
pub fn zeros(alloc: Global, n: u32) -> Result<Vec<Num>, AllocError>
    ensures { IfOk result (λ row. length row.items ≡ n) }
{
    let mut row = Vec::new(alloc);
    row.resize(n as usize, Num::ZERO)?;
    Ok(row)
}

// Whether the text is as many digits as the row has, each behind one blank: so are most rows. Then the row has them.
fn read_digits(row: &mut [Num], text: &[u8]) -> bool
    ensures size { length row.new ≡ length row.old }
    ensures yes { IsTrue result → AllByRecursion IsNum row.new × (text.now ≡ entries_text row.new) }
{
    let mut left = text;
    for i in 0..row.len() {
        left = match next_digit(&mut row[i], left) {
            Some(behind) => behind,
            None => return false,
        };
    }
    left.is_empty()
}

/// Whether the text is as many numbers as the row has, each behind one blank. Then the row has them; else it may have
/// anything.
pub fn read_entries(row: &mut [Num], text: &[u8]) -> bool
    requires { GoesOnWith 32 text.now }
    ensures size { length row.new ≡ length row.old }
    ensures yes { IsTrue result → AllByRecursion IsNum row.new × (text.now ≡ entries_text row.new) }
    ensures no { IsFalse result → (v : List ℤ) → length v ≡ length row.old → AllByRecursion IsNum v
        → text.now ≡ entries_text v → ⊥ }
{
    if read_digits(row, text) {
        return true;
    }
    let mut rest = text;
    for i in 0..row.len() {
        rest = match next_num(&mut row[i], rest) {
            Some(behind) => behind,
            None => return false,
        };
    }
    rest.is_empty()
}

/// Whether a primitive vector of as many entries as the row has stands there, each entry behind one blank. Then the row
/// has them; else it may have anything.
pub(crate) fn read_row(row: &mut [Num], text: &[u8]) -> bool
    requires { GoesOnWith 32 text.now }
    ensures size { length row.new ≡ length row.old }
    ensures yes { IsTrue result → IsReplyLine (length row.old) (row_line row.new) × (text.now ≡ entries_text row.new) }
    ensures no { IsFalse result → (v : List ℤ) → IsReplyLine (length row.old) (row_line v) → text.now ≡ entries_text v → ⊥ }
{
    if !read_entries(row, text) {
        return false;
    }
    is_primitive(row)
}
