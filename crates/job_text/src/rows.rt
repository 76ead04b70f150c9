//! The rows of a reply, which stay in its text, and how they are taken from there.
ghost use Rattle.std.specs.Prelude.{◌≡◌, ◌<◌, ℕ, [], List, length, IfOk, IfSome, IsNone, OnErr};
ghost use Rattle.poly_num.specs.Vectors.{Vector};
ghost use Rattle.poly_model.specs.declared.listed.Count.{Count};
ghost use Rattle.job_text.specs.declared.reply.Reply.{Reply as Whole};
ghost use Rattle.job_text.specs.declared.reply.Tail.TheVariants.{End};
ghost use Rattle.job_text.specs.LeftRows.{IsEntryLine, LeavesRows, TakesRow};
ghost use Rattle.job_text.specs.Replies.{IsWholeReply};
ghost use Rattle.job_text.specs.RowTexts.{shown_rows};

use crate::BadReply;
use plain_text::{goes_on, split_line, strip_front};
use std::marker::Model;

/// The rows of a reply, in its text. Contracts see the list of them.
#[derive(Drop)]
pub struct ReplyRows<'a> {
    lines: &'a [u8],
    count: u64,
}

impl<'a> Model for ReplyRows<'a> {
    ghost use Rattle.std.specs.Prelude.{◌≡◌, List, length};
    ghost use Rattle.poly_num.specs.Vectors.{Vector};
    ghost use Rattle.job_text.specs.RowTexts.{shown_rows};

    ghost Value = { List Vector };

    ghost view = { λ r. shown_rows r.lines.now };

    ghost invariant = { λ r. r.count ≡ length (shown_rows r.lines.now) };
}

impl<'a> ReplyRows<'a> {
    // The rows that these lines show, so many.
    pub(crate) fn of_lines(lines: &'a [u8], count: u64) -> ReplyRows<'a>
        requires { count ≡ length (shown_rows lines.now) }
        ensures { result ≡ shown_rows lines.now }
    {
        ReplyRows { lines, count }
    }

    /// How many rows there are.
    pub fn len(&self) -> u64
        ensures { result ≡ length self.now }
    {
        self.count
    }
}

/// What stands behind the first line of a reply; none where another line stands there. The reply is not read: `next_row`
/// takes its rows from there.
pub fn rows_behind(text: &[u8]) -> Option<&[u8]>
    ensures some { IfSome result (λ left. (n : ℕ) (r : Whole) (count : Count) → IsWholeReply n r text.now
        → r.tail ≡ End count → LeavesRows n r.rows left.now) }
    ensures none { IsNone result → (n : ℕ) (r : Whole) → IsWholeReply n r text.now → ⊥ }
{
    let (line, left) = split_line(text)?;
    let _key = strip_front(line, b"reply ")?;
    Some(left)
}

/// The next row of what is left of a reply that ends in `end`: the text of its entries, each behind one blank, as
/// `read_entries` reads them, with the line feed behind them, and what is left then. None where no row is left. The entries
/// are not read here, and whether all lines fit is not judged: this is for a text that was read before. `BadReply` comes where
/// a line is neither one of a row nor one of a key, and no `end`; so it comes for no such reply.
pub fn next_row(left: &[u8]) -> Result<Option<(&[u8], &[u8])>, BadReply>
    ensures row { IfOk result (λ found. IfSome found (λ r. (n : ℕ) (rows : List Vector) → LeavesRows n rows left.now
        → TakesRow n rows r.0.now r.1.now)) }
    ensures blank { IfOk result (λ found. IfSome found (λ r. IsEntryLine r.0.now)) }
    ensures fewer { IfOk result (λ found. IfSome found (λ r. length r.1.now < length left.now)) }
    ensures end { IfOk result (λ found. IsNone found → (n : ℕ) (rows : List Vector) → LeavesRows n rows left.now → rows ≡ []) }
    ensures bad { OnErr result ((n : ℕ) (rows : List Vector) → LeavesRows n rows left.now → ⊥) }
{
    let mut left = left;
    'lines: loop {
        let Some((line, rest)) = split_line(left) else {
            return Err(BadReply);
        };
        if let Some(entries) = strip_front(line, b"row") {
            if !goes_on(entries) {
                return Err(BadReply);
            }
            return Ok(Some((&left[3..line.len() + 1], rest)));
        }
        let Some(_key) = strip_front(line, b"job ") else {
            return match strip_front(line, b"end ") {
                Some(_count) => Ok(None),
                None => Err(BadReply),
            };
        };
        left = rest;
    }
}
