//! A text that is taken line by line and piece by piece, and a line by its numbers.
use plain_text::{next_word, read_count, split_line, split_word};

/// What is left of a text.
#[derive(Drop)]
pub struct Feed<'a> {
    rest: &'a [u8],
}

impl<'a> Feed<'a> {
    pub fn new(text: &'a [u8]) -> Feed<'a> {
        Feed { rest: text }
    }

    pub fn is_empty(&self) -> bool {
        self.rest.is_empty()
    }

    /// The next line.
    pub fn line(&mut self) -> Option<Line<'a>> {
        let (line, rest) = split_line(self.rest)?;
        self.rest = rest;
        let (word, numbers) = split_word(line);
        Some(Line { word, numbers })
    }

    /// The next bytes, so many.
    pub fn piece(&mut self, length: u64) -> Option<&'a [u8]> {
        if length > self.rest.len() as u64 {
            return None;
        }
        let (piece, rest) = self.rest.split_at(length as usize);
        self.rest = rest;
        Some(piece)
    }
}

/// The first word of a line, and the numbers behind it that are left.
#[derive(Drop)]
pub struct Line<'a> {
    pub word: &'a [u8],
    numbers: &'a [u8],
}

impl<'a> Line<'a> {
    /// The next number.
    pub fn number(&mut self) -> Option<u64> {
        let (word, rest) = next_word(self.numbers)?;
        self.numbers = rest;
        read_count(word)
    }
}
