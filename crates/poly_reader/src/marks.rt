//! The rows that lines `linearity` name: a mark for each row of the file.
ghost use Rattle.std.specs.Prelude.{◌≡◌, ◌≤◌, [], ◌∷◌, length, map, take, replicate, false, Ok, IfOk};
ghost use Rattle.poly_model.specs.Limits.{most_file_rows};
ghost use Rattle.poly_reader.specs.Lines.{Word, word};
ghost use Rattle.plain_text.specs.Digits.{value_of};
ghost use Rattle.poly_reader.specs.FirstFault.{Parses};
ghost use Rattle.poly_reader.specs.Head.{head_of, names_behind, names_on, names_of, name_at};
ghost use Rattle.poly_reader.specs.Marks.{checked_marks, Marks};

use crate::bad::bad;
use crate::head::begins_with;
use crate::lines::{LineWords, Lines, Token, is};
use crate::{BadFile, BadKind, ParseStop};
use plain_text::value;
use std::alloc::{AllocError, Global};

// Marks the row that a word names.
fn mark_row(marks: &mut [bool], w: Token, line: u64) -> Result<(), BadFile>
    requires { length marks.old ≤ most_file_rows }
    ensures { Marks result marks.old marks.new (name_at line (word w.entry) ∷ []) }
{
    let row = value(w.text);
    if row == 0 || row > marks.len() as u128 {
        return Err(bad(BadKind::BadLinearity, line));
    }
    marks[row as usize - 1] = true;
    Ok(())
}

// Marks the rows that the first so many of these words name.
fn mark_words(marks: &mut [bool], words: LineWords, count: u128, line: u64) -> Result<(), BadFile>
    requires { length marks.old ≤ most_file_rows }
    ensures { Marks result marks.old marks.new (map (name_at line) (take count words.entry)) }
{
    let mut words = words;
    let mut left = count;
    'words: while left > 0 {
        let (w, rest) = match words.next() {
            Some(next) => next,
            None => return Ok(()),
        };
        mark_row(marks, w, line)?;
        words = rest;
        left -= 1;
    }
    Ok(())
}

// Marks the rows that are named behind a word `linearity` on this line.
fn mark_behind(marks: &mut [bool], words: &LineWords, line: u64) -> Result<(), BadFile>
    requires { length marks.old ≤ most_file_rows }
    ensures { Marks result marks.old marks.new (names_behind line words.now) }
{
    match words.next() {
        Some((w, rest)) => mark_words(marks, rest, value(w.text), line),
        None => Ok(()),
    }
}

// Marks the rows that a line names.
fn mark_line(marks: &mut [bool], line: &LineWords) -> Result<(), BadFile>
    requires { length marks.old ≤ most_file_rows }
    ensures { Marks result marks.old marks.new (names_on line.now) }
{
    match line.next() {
        Some((w, rest)) => {
            if is(w.text, b"linearity") {
                mark_behind(marks, &rest, w.line)
            } else {
                Ok(())
            }
        }
        None => Ok(()),
    }
}

// Marks the rows that the lines before `begin` name.
fn mark_lines(marks: &mut [bool], lines: Lines) -> Result<(), BadFile>
    requires { length marks.old ≤ most_file_rows }
    ensures { Marks result marks.old marks.new (names_of (head_of lines.entry)) }
{
    let mut lines = lines;
    'lines: loop {
        let (line, after) = match lines.next() {
            Some(next) => next,
            None => return Ok(()),
        };
        if begins_with(&line, b"begin") {
            return Ok(());
        }
        mark_line(marks, &line)?;
        lines = after;
    }
}

fn no_marks(alloc: Global, m: usize) -> Result<Vec<bool>, AllocError>
    ensures { IfOk result (λ v. v.items ≡ replicate m false) }
{
    let mut marks = Vec::with_capacity(alloc, m)?;
    marks.resize(m, false)?;
    Ok(marks)
}

/// For each of m rows whether a line before `begin` names it; a fault where one names no row.
pub fn linear_marks(alloc: Global, m: usize, lines: Lines) -> Result<Vec<bool>, ParseStop>
    requires { m ≤ most_file_rows }
    ensures marks { Parses (λ v. v.items) result (checked_marks m (names_of (head_of lines.entry))) }
    ensures full { IfOk result (λ v. length v.items ≡ m) }
{
    let mut marks = no_marks(alloc, m)?;
    mark_lines(&mut marks, lines)?;
    Ok(marks)
}
