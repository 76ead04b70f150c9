//! What is checked behind `end`: the words that begin a line.
ghost use Rattle.std.specs.Prelude.{◌≡◌, ◌==◌, if◌then◌else◌, Ok};
ghost use Rattle.poly_reader.specs.Lines.{word, firsts};
ghost use Rattle.poly_reader.specs.FirstFault.{Gives, each};
ghost use Rattle.poly_reader.specs.Matrix.{late_fault};

use crate::bad::bad;
use crate::lines::{Token, is};
use crate::words::Words;
use crate::{BadFile, BadKind};

#[tactic(auto, unfolding(crate::specs::Matrix::late_fault))]
fn check_first(w: Token) -> Result<(), BadFile>
    ensures { Gives (λ x. x) result (late_fault (word w.entry)) }
{
    if is(w.text, b"linearity") {
        return Err(bad(BadKind::MisplacedLinearity, w.line));
    }
    if is(w.text, b"nonnegative") {
        return Err(bad(BadKind::MisplacedNonnegative, w.line));
    }
    Ok(())
}

// Nothing is asked of a word behind another on this line.
fn check_word(w: Token, line: u64) -> Result<(), BadFile>
    ensures { Gives (λ x. x) result (if w.entry.line == line then Ok tt else late_fault (word w.entry)) }
{
    if w.line == line {
        Ok(())
    } else {
        check_first(w)
    }
}

/// Checks the words that begin a line, of those behind a word `end` on this line.
pub fn check_late(words: Words, end_line: u64) -> Result<(), BadFile>
    ensures { Gives (λ x. x) result (each late_fault (firsts end_line words.entry)) }
{
    let mut words = words;
    let mut line = end_line;
    'words: loop {
        let (w, rest) = match words.next() {
            Some(next) => next,
            None => return Ok(()),
        };
        check_word(w, line)?;
        line = w.line;
        words = rest;
    }
}
