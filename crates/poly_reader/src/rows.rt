//! The rows: what is wrong with one, and the table of their entries.
ghost use Rattle.std.specs.Prelude.{◌≡◌, ◌≤◌, ◌<◌, ◌*◌, length, drop, IfOk};
ghost use Rattle.poly_model.specs.Limits.{most_columns, most_file_rows};
ghost use Rattle.poly_model.specs.Tables.{file_rows_in};
ghost use Rattle.poly_reader.specs.FirstFault.{Gives, Parses};
ghost use Rattle.poly_reader.specs.Scaling.{scaled_entries};
ghost use Rattle.poly_reader.specs.Rows.{is_zero_fraction, is_one_fraction, first_fault, kind_fault, checked_row, numbers_in, line_of_first, rows_from};

use crate::bad::bad;
use crate::header::Header;
use crate::matrix::number_at;
use crate::scaling::scaled_row;
use crate::words::Words;
use crate::{BadFile, BadKind, ParseStop};
use poly_model::Kind;
use poly_num::{Frac, Num};
use std::alloc::Global;

fn is_zero_fraction(f: Frac) -> bool
    ensures { result ≡ is_zero_fraction f }
{
    f.num() == Num::ZERO
}

fn is_one_fraction(f: Frac) -> bool
    ensures { result ≡ is_one_fraction f }
{
    f.num() == Num::ONE && f.den() == Num::ONE
}

#[tactic(auto, unfolding(crate::specs::Rows::first_fault))]
fn check_first_number(linear: bool, line: u64, f: Frac) -> Result<(), BadFile>
    ensures { Gives (λ x. x) result (first_fault linear line f) }
{
    if is_one_fraction(f) {
        if linear {
            return Err(bad(BadKind::LinearPoint, line));
        }
        return Ok(());
    }
    if !is_zero_fraction(f) {
        return Err(bad(BadKind::BadFirst, line));
    }
    Ok(())
}

fn check_kind(kind: Kind, linear: bool, line: u64, f: Frac) -> Result<(), BadFile>
    ensures { Gives (λ x. x) result (kind_fault kind linear line f) }
{
    match kind {
        Kind::H => Ok(()),
        Kind::V => check_first_number(linear, line, f),
    }
}

// The entries of the row of these numbers, which begin on this line.
#[tactic(auto, unfolding(crate::specs::Rows::checked_row, crate::specs::Rows::row_fault))]
fn entries_of(
    alloc: Global,
    kind: Kind,
    linear: bool,
    line: u64,
    numbers: &[Frac],
) -> Result<Vec<Num>, ParseStop>
    requires { 0 < length numbers.now }
    ensures row { Parses (λ v. record { entries = v.items; linear = linear }) result
        (checked_row kind linear line numbers.now) }
    ensures full { IfOk result (λ v. length v.items ≡ length numbers.now) }
{
    check_kind(kind, linear, line, numbers[0])?;
    match scaled_row(alloc, numbers)? {
        Some(entries) => Ok(entries),
        None => Err(ParseStop::Bad(bad(BadKind::WideRow, line))),
    }
}

// The first so many of these words as numbers, and the words behind them.
fn numbers_of<'a>(
    alloc: Global,
    width: usize,
    words: Words<'a>,
    last: u64,
) -> Result<(Vec<Frac>, Words<'a>), ParseStop>
    ensures numbers { Parses (λ r. r.0.items) result (numbers_in last width words.entry) }
    ensures full { IfOk result (λ r. length r.0.items ≡ width) }
    ensures rest { IfOk result (λ r. r.1 ≡ drop width words.entry) }
{
    let mut numbers = Vec::with_capacity(alloc, width)?;
    let mut words = words;
    let mut left = width;
    'numbers: while left > 0 {
        let (w, rest) = match words.next() {
            Some(next) => next,
            None => return Err(ParseStop::Bad(bad(BadKind::NoEnd, last))),
        };
        numbers.push(number_at(w)?)?;
        words = rest;
        left -= 1;
    }
    Ok((numbers, words))
}

fn line_of_first(words: &Words, last: u64) -> u64
    ensures { result ≡ line_of_first last words.now }
{
    match words.next() {
        Some((w, _)) => w.line,
        None => last,
    }
}

/// The entries of the rows behind a header, one after the other: a row for each mark, which says
/// whether it is linear. The text ends on line `last`.
pub fn table(
    alloc: Global,
    kind: Kind,
    header: Header,
    marks: &[bool],
    last: u64,
) -> Result<Vec<Num>, ParseStop>
    requires some { 0 < header.width }
    requires narrow { header.width ≤ most_columns }
    requires few { length marks.now ≤ most_file_rows }
    ensures rows { Parses (λ v. file_rows_in header.entry.width v.items marks.now) result
        (rows_from last kind header.entry.width marks.now header.entry.words) }
    ensures full { IfOk result (λ v. length v.items ≡ length marks.now * header.entry.width) }
{
    let width = header.width;
    let mut cells = Vec::with_capacity(alloc, marks.len() * width)?;
    let mut words = header.words;
    'rows: for mark in marks {
        let line = line_of_first(&words, last);
        let (numbers, rest) = numbers_of(alloc, width, words, last)?;
        let entries = entries_of(alloc, kind, *mark, line, &numbers)?;
        cells.extend_from_slice(&entries)?;
        words = rest;
    }
    Ok(cells)
}
