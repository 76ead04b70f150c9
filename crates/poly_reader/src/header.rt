//! The header: the number of rows, the width and the type.
ghost use Rattle.std.specs.Prelude.{◌≡◌, ◌≤◌, ◌<◌, IfOk, IfSome};
ghost use Rattle.poly_model.specs.Limits.{most_columns, most_file_rows};
ghost use Rattle.poly_reader.specs.Lines.{word};
ghost use Rattle.poly_reader.specs.FirstFault.{Gives};
ghost use Rattle.poly_reader.specs.Header.{rows_announced, rows_within, width_of, width_within, type_fault, size_of, size};

use crate::bad::bad;
use crate::lines::{Token, is};
use crate::words::Words;
use crate::{BadFile, BadKind};
use plain_text::count;
use poly_model::{MOST_COLUMNS, MOST_FILE_ROWS};

/// The announced number of rows, where there is one, how many numbers a row has, and the words
/// behind the header.
#[derive(Drop)]
pub struct Header<'a> {
    pub rows: Option<usize>,
    pub width: usize,
    pub words: Words<'a>,
}

fn rows_within(m: u128, line: u64) -> Result<Option<usize>, BadFile>
    ensures gives { Gives (λ x. x) result (rows_within line m) }
    ensures few { IfOk result (λ rows. IfSome rows (λ m. m ≤ most_file_rows)) }
{
    if m > MOST_FILE_ROWS as u128 {
        Err(bad(BadKind::TooManyRows, line))
    } else {
        Ok(Some(m as usize))
    }
}

#[tactic(auto, unfolding(crate::specs::Header::rows_announced), using(crate::proofs::HeaderLemmas::rows_capped))]
fn rows(w: Token) -> Result<Option<usize>, BadFile>
    ensures gives { Gives (λ x. x) result (rows_announced (word w.entry)) }
    ensures few { IfOk result (λ rows. IfSome rows (λ m. m ≤ most_file_rows)) }
{
    if is(w.text, b"*****") {
        return Ok(None);
    }
    match count(w.text) {
        Some(m) => rows_within(m, w.line),
        None => Err(bad(BadKind::BadHeader, w.line)),
    }
}

fn width_within(n: u128, line: u64) -> Result<usize, BadFile>
    ensures gives { Gives (λ x. x) result (width_within line n) }
    ensures some { IfOk result (λ n. 0 < n) }
    ensures narrow { IfOk result (λ n. n ≤ most_columns) }
{
    if n == 0 || n > MOST_COLUMNS as u128 {
        Err(bad(BadKind::BadWidth, line))
    } else {
        Ok(n as usize)
    }
}

#[tactic(auto, unfolding(crate::specs::Header::width_of), using(crate::proofs::HeaderLemmas::width_capped))]
fn width(w: Token) -> Result<usize, BadFile>
    ensures gives { Gives (λ x. x) result (width_of (word w.entry)) }
    ensures some { IfOk result (λ n. 0 < n) }
    ensures narrow { IfOk result (λ n. n ≤ most_columns) }
{
    match count(w.text) {
        Some(n) => width_within(n, w.line),
        None => Err(bad(BadKind::BadHeader, w.line)),
    }
}

#[tactic(auto, unfolding(crate::specs::Header::type_fault))]
fn check_type(w: Token) -> Result<(), BadFile>
    ensures { Gives (λ x. x) result (type_fault (word w.entry)) }
{
    if is(w.text, b"integer") || is(w.text, b"rational") {
        Ok(())
    } else {
        Err(bad(BadKind::UnsupportedType, w.line))
    }
}

/// The header in front of these words; the text ends on line `last`.
#[tactic(auto, unfolding(crate::specs::Header::size_of))]
pub fn header_of<'a>(words: Words<'a>, last: u64) -> Result<Header<'a>, BadFile>
    ensures gives { Gives size result (size_of last words.entry) }
    ensures few { IfOk result (λ h. IfSome h.rows (λ m. m ≤ most_file_rows)) }
    ensures some { IfOk result (λ h. 0 < h.width) }
    ensures narrow { IfOk result (λ h. h.width ≤ most_columns) }
{
    let Some((m, words)) = words.next() else {
        return Err(bad(BadKind::BadHeader, last));
    };
    let rows = rows(m)?;
    let Some((n, words)) = words.next() else {
        return Err(bad(BadKind::BadHeader, last));
    };
    let width = width(n)?;
    let Some((t, words)) = words.next() else {
        return Err(bad(BadKind::BadHeader, last));
    };
    check_type(t)?;
    Ok(Header { rows, width, words })
}
