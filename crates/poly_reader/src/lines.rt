//! The lines of a text, each as its words: two cursors, above which nothing speaks of bytes.
ghost use Rattle.std.specs.Prelude.{position, count_by, ◌≡◌, ◌≤◌, ◌<◌, ◌+◌, ◌^◌, [], ◌∷◌, length, MatchOption};
ghost use Rattle.plain_text.specs.Cuts.{is_newline};
ghost use Rattle.poly_reader.specs.Lines.{is_blank, is_word_byte, is_same, word, words_on, lines_of, last_line};

use plain_text::newline_at;
use std::marker::Model;

/// A word of a text, and the number of its line.
#[derive(Clone, Copy)]
pub struct Token<'a> {
    pub text: &'a [u8],
    pub line: u64,
}

/// The words that are left of one line.
#[derive(Drop)]
pub struct LineWords<'a> {
    rest: &'a [u8],
    line: u64,
}

impl<'a> Model for LineWords<'a> {
    ghost use Rattle.std.specs.Prelude.{length, ◌<◌, ◌^◌};
    ghost use Rattle.poly_reader.specs.Lines.{Line, words_on};

    ghost Value = { Line };

    ghost view = { λ w. words_on w.line w.rest.now };

    ghost invariant = { λ w. length w.rest.now < 2 ^ 40 };
}

/// The lines that are left of a text, each as its words.
#[derive(Drop)]
pub struct Lines<'a> {
    rest: Option<&'a [u8]>,
    line: u64,
}

impl<'a> Model for Lines<'a> {
    ghost use Rattle.std.specs.Prelude.{List, ◌+◌, ◌<◌, ◌^◌};
    ghost use Rattle.poly_reader.specs.Lines.{Line, lines_left, bytes_left};

    ghost Value = { List Line };

    ghost view = { λ l. lines_left l.line l.rest };

    ghost invariant = { λ l. l.line + bytes_left l.rest < 2 ^ 40 };
}

fn is_blank_byte(b: u8) -> bool
    ensures { result ≡ is_blank b }
{
    b == b' ' || b == b'\t' || b == b'\r'
}

fn is_word_byte(b: u8) -> bool
    ensures { result ≡ is_word_byte b }
{
    !is_blank_byte(b)
}

fn word_at(line: &[u8]) -> Option<usize>
    ensures { result ≡ position is_word_byte line.now }
{
    line.iter().position(|b| is_word_byte(*b))
}

fn blank_at(line: &[u8]) -> Option<usize>
    ensures { result ≡ position is_blank line.now }
{
    line.iter().position(|b| is_blank_byte(*b))
}

fn is_newline_byte(b: u8) -> bool
    ensures { result ≡ is_newline b }
{
    b == b'\n'
}

fn newlines(text: &[u8]) -> usize
    ensures count { result ≡ count_by is_newline text.now }
    ensures within { result ≤ length text.now }
{
    let mut count = 0;
    'text: for b in text {
        count += usize::from(is_newline_byte(*b));
    }
    count
}

/// The number of the line on which a text ends.
pub fn last_line_of(text: &[u8]) -> u64
    requires { length text.now < 2 ^ 39 }
    ensures { result ≡ last_line text.now }
{
    newlines(text) as u64 + 1
}

/// Whether a word is this text.
pub fn is(word: &[u8], text: &[u8]) -> bool
    ensures { result ≡ is_same word.now text.now }
{
    word == text
}

impl<'a> LineWords<'a> {
    fn new(rest: &'a [u8], line: u64) -> LineWords<'a>
        requires { length rest.now < 2 ^ 40 }
        ensures { result ≡ words_on line rest.now }
    {
        LineWords { rest, line }
    }

    // The words of a whole line. Blanks in front are passed over here, so that no call of `next` on
    // the same line does it again.
    fn of_line(bytes: &'a [u8], line: u64) -> LineWords<'a>
        requires { length bytes.now < 2 ^ 40 }
        ensures { result ≡ words_on line bytes.now }
    {
        match word_at(bytes) {
            Some(start) => LineWords {
                rest: &bytes[start..],
                line,
            },
            None => LineWords { rest: &[], line },
        }
    }

    /// The same words once more.
    pub fn copied(&self) -> LineWords<'a>
        ensures { result ≡ self.now }
    {
        LineWords {
            rest: self.rest,
            line: self.line,
        }
    }

    /// The first word, and the words after it; none where no word is left. A line has less than
    /// 2^40 words.
    pub fn next(&self) -> Option<(Token<'a>, LineWords<'a>)>
        ensures word { MatchOption result (self.now ≡ []) (λ r. self.now ≡ word r.0 ∷ r.1) }
        ensures few { length self.now < 2 ^ 40 }
    {
        let line = self.line;
        let start = word_at(self.rest)?;
        let (_, text) = self.rest.split_at(start);
        match blank_at(text) {
            Some(end) => {
                let (text, rest) = text.split_at(end);
                Some((Token { text, line }, LineWords::new(rest, line)))
            }
            None => Some((Token { text, line }, LineWords::new(&[], line))),
        }
    }
}

impl<'a> Lines<'a> {
    /// The lines of a text, numbered from 1. A text that ends in a line feed has an empty line
    /// behind it.
    pub fn new(text: &'a [u8]) -> Lines<'a>
        requires { length text.now < 2 ^ 39 }
        ensures { result ≡ lines_of text.now }
    {
        Lines {
            rest: Some(text),
            line: 1,
        }
    }

    /// The same lines once more.
    pub fn copied(&self) -> Lines<'a>
        ensures { result ≡ self.now }
    {
        Lines {
            rest: self.rest,
            line: self.line,
        }
    }

    /// The first line, and the lines after it; none where no line is left.
    #[inline(always)]
    pub fn next(&self) -> Option<(LineWords<'a>, Lines<'a>)>
        ensures { MatchOption result (self.now ≡ []) (λ r. self.now ≡ r.0 ∷ r.1) }
    {
        let line = self.line;
        let text = self.rest?;
        match newline_at(text) {
            Some(end) => {
                let rest = Some(&text[end + 1..]);
                let after = Lines {
                    rest,
                    line: line + 1,
                };
                Some((LineWords::of_line(&text[..end], line), after))
            }
            None => {
                let after = Lines { rest: None, line };
                Some((LineWords::of_line(text, line), after))
            }
        }
    }
}
