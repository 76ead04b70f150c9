//! The numbers up to `end`: how many there are, and what is wrong first. Nothing is kept of them.
ghost use Rattle.std.specs.Prelude.{◌≡◌, ◌≤◌, ◌<◌, ◌*◌, IfOk, IfSome};
ghost use Rattle.poly_model.specs.Limits.{most_columns, most_file_rows};
ghost use Rattle.poly_reader.specs.Lines.{word};
ghost use Rattle.poly_reader.specs.FirstFault.{Gives, Checks};
ghost use Rattle.poly_reader.specs.Matrix.{number_of, number_on, most, excess, is_enough, ended, matrix_of, matrix};

use crate::bad::bad;
use crate::lines::{Token, is};
use crate::number::{check_number, number};
use crate::words::Words;
use crate::{BadFile, BadKind};
use poly_model::MOST_FILE_ROWS;
use poly_num::Frac;

/// How many numbers there are, the line of `end`, and the words behind it.
#[derive(Drop)]
pub struct Extent<'a> {
    pub count: usize,
    pub end_line: u64,
    pub words: Words<'a>,
}

/// The number that a word is, or its fault.
pub fn number_at(w: Token) -> Result<Frac, BadFile>
    ensures { result ≡ number_on (word w.entry).line (number_of (word w.entry).text) }
{
    match number(w.text) {
        Ok(x) => Ok(x),
        Err(kind) => Err(bad(kind, w.line)),
    }
}

fn check_number_at(w: Token) -> Result<(), BadFile>
    ensures { Checks result (number_on (word w.entry).line (number_of (word w.entry).text)) }
{
    match check_number(w.text) {
        Ok(()) => Ok(()),
        Err(kind) => Err(bad(kind, w.line)),
    }
}

// The most numbers that there may be.
fn most_numbers(rows: Option<usize>, width: usize) -> usize
    requires few { IfSome rows (λ m. m ≤ most_file_rows) }
    requires narrow { width ≤ most_columns }
    ensures value { result ≡ most rows width }
    ensures bounded { result ≤ most_file_rows * width }
{
    rows.unwrap_or(MOST_FILE_ROWS as usize) * width
}

// What one more number is.
fn excess_of(rows: Option<usize>) -> BadKind
    ensures { result ≡ excess rows }
{
    match rows {
        Some(_) => BadKind::LongData,
        None => BadKind::TooManyRows,
    }
}

fn is_enough(rows: Option<usize>, width: usize, count: usize) -> bool
    requires few { IfSome rows (λ m. m ≤ most_file_rows) }
    requires narrow { width ≤ most_columns }
    requires some { 0 < width }
    ensures { result ≡ is_enough rows width count }
{
    match rows {
        Some(m) => count == m * width,
        None => count % width == 0,
    }
}

/// The extent of the numbers in front of these words; the text ends on line `last`.
pub fn extent_of<'a>(
    rows: Option<usize>,
    width: usize,
    words: Words<'a>,
    last: u64,
) -> Result<Extent<'a>, BadFile>
    requires few { IfSome rows (λ m. m ≤ most_file_rows) }
    requires narrow { width ≤ most_columns }
    requires some { 0 < width }
    ensures gives { Gives matrix result (matrix_of last rows width 0 words.entry) }
    ensures within { IfOk result (λ e. e.count ≤ most_file_rows * width) }
{
    let most = most_numbers(rows, width);
    let mut words = words;
    let mut count = 0;
    'numbers: loop {
        let (w, rest) = match words.next() {
            Some(next) => next,
            None => return Err(bad(BadKind::NoEnd, last)),
        };
        if is(w.text, b"end") {
            return end_at(rows, width, count, w.line, rest);
        }
        if count == most {
            return Err(bad(excess_of(rows), w.line));
        }
        check_number_at(w)?;
        words = rest;
        count += 1;
    }
}

// The extent of so many numbers before a word `end` on this line.
fn end_at<'a>(
    rows: Option<usize>,
    width: usize,
    count: usize,
    line: u64,
    words: Words<'a>,
) -> Result<Extent<'a>, BadFile>
    requires few { IfSome rows (λ m. m ≤ most_file_rows) }
    requires narrow { width ≤ most_columns }
    requires some { 0 < width }
    ensures gives { Gives matrix result (ended rows width count line words.entry) }
    ensures count { IfOk result (λ e. e.count ≡ count) }
{
    if is_enough(rows, width, count) {
        Ok(Extent {
            count,
            end_line: line,
            words,
        })
    } else {
        Err(bad(BadKind::ShortData, line))
    }
}
