//! The lines before the header: the kind, and what is wrong with one of them.
ghost use Rattle.std.specs.Prelude.{◌≡◌};
ghost use Rattle.poly_reader.specs.Lines.{begins_with};
ghost use Rattle.poly_reader.specs.FirstFault.{Gives};
ghost use Rattle.poly_reader.specs.Head.{are_counts, names_rows, kind_said, opening, opening_of, ReadsLine};

use crate::bad::bad;
use crate::lines::{LineWords, Lines, is};
use crate::words::Words;
use crate::{BadFile, BadKind};
use plain_text::{count, is_count};
use poly_model::Kind;

/// The kind of a file, and the words behind `begin`.
#[derive(Drop)]
pub struct Head<'a> {
    pub kind: Kind,
    pub words: Words<'a>,
}

/// What a line before the header is: the one that begins with `begin`, with the words behind it, or
/// another one, with the kind that holds behind it.
#[derive(Drop)]
enum HeadLine<'a> {
    Begin(LineWords<'a>),
    Other(Kind),
}

/// Whether a line begins with this word.
pub fn begins_with(line: &LineWords, text: &[u8]) -> bool
    ensures { result ≡ begins_with text.now line.now }
{
    match line.next() {
        Some((w, _)) => is(w.text, text),
        None => false,
    }
}

// Whether so many words are there, each of digits.
fn are_counts(count: u128, words: LineWords) -> bool
    ensures { result ≡ are_counts count words.entry }
{
    let mut left = count;
    let mut words = words;
    'words: while left > 0 {
        let (w, rest) = match words.next() {
            Some(next) => next,
            None => return false,
        };
        if !is_count(w.text) {
            return false;
        }
        words = rest;
        left -= 1;
    }
    true
}

// Whether these words are a count and so many words of digits.
fn names_rows(words: &LineWords) -> bool
    ensures { result ≡ names_rows words.now }
{
    match words.next() {
        Some((w, rest)) => match count(w.text) {
            Some(k) => are_counts(k, rest),
            None => false,
        },
        None => false,
    }
}

// The kind that a word says, or the one before.
fn kind_after(kind: Kind, word: &[u8]) -> Kind
    ensures { result ≡ kind_said kind word.now }
{
    if is(word, b"H-representation") {
        Kind::H
    } else if is(word, b"V-representation") {
        Kind::V
    } else {
        kind
    }
}

// Reads a line before the header, where the lines before it said this kind.
#[tactic(auto, unfolding(crate::specs::Head::line_fault))]
fn read_line<'a>(kind: Kind, line: &LineWords<'a>) -> Result<HeadLine<'a>, BadFile>
    ensures { ReadsLine kind line.now result }
{
    let (w, rest) = match line.next() {
        Some(next) => next,
        None => return Ok(HeadLine::Other(kind)),
    };
    if is(w.text, b"begin") {
        return Ok(HeadLine::Begin(rest));
    }
    if is(w.text, b"linearity") && !names_rows(&rest) {
        return Err(bad(BadKind::BadLinearity, w.line));
    }
    Ok(HeadLine::Other(kind_after(kind, w.text)))
}

/// What stands before the header of a text that ends on line `last`.
pub fn head_of<'a>(lines: Lines<'a>, last: u64) -> Result<Head<'a>, BadFile>
    ensures { Gives opening result (opening_of last lines.entry) }
{
    let mut kind = Kind::H;
    let mut lines = lines;
    'lines: loop {
        let (line, after) = match lines.next() {
            Some(next) => next,
            None => return Err(bad(BadKind::NoBegin, last)),
        };
        match read_line(kind, &line)? {
            HeadLine::Begin(rest) => {
                let words = Words::new(rest, after);
                return Ok(Head { kind, words });
            }
            HeadLine::Other(next) => kind = next,
        }
        lines = after;
    }
}
