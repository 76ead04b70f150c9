//! The words of a text from some place on, however lines are broken.
ghost use Rattle.std.specs.Prelude.{◌≡◌, [], ◌∷◌, ◌++◌, MatchOption};
ghost use Rattle.poly_reader.specs.Lines.{word, joined};

use crate::lines::{LineWords, Lines, Token};
use std::marker::Model;

/// The words that are left of a line and of the lines after it.
#[derive(Drop)]
pub struct Words<'a> {
    here: LineWords<'a>,
    after: Lines<'a>,
}

impl<'a> Model for Words<'a> {
    ghost use Rattle.std.specs.Prelude.{List, ◌++◌};
    ghost use Rattle.poly_reader.specs.Lines.{Word, joined};

    ghost Value = { List Word };

    ghost view = { λ w. w.here ++ joined w.after };
}

impl<'a> Words<'a> {
    /// The words of the rest of a line, and of the lines after it.
    pub fn new(here: LineWords<'a>, after: Lines<'a>) -> Words<'a>
        ensures { result ≡ here.entry ++ joined after.entry }
    {
        Words { here, after }
    }

    /// The same words once more.
    pub fn copied(&self) -> Words<'a>
        ensures { result ≡ self.now }
    {
        Words {
            here: self.here.copied(),
            after: self.after.copied(),
        }
    }

    /// The first word, and the words after it; none where no word is left.
    #[inline(always)]
    pub fn next(&self) -> Option<(Token<'a>, Words<'a>)>
        ensures { MatchOption result (self.now ≡ []) (λ r. self.now ≡ word r.0 ∷ r.1) }
    {
        let mut here = self.here.copied();
        let mut after = self.after.copied();
        'lines: loop {
            match here.next() {
                Some((token, rest)) => return Some((token, Words::new(rest, after))),
                None => {}
            }
            match after.next() {
                Some((line, lines)) => {
                    here = line;
                    after = lines;
                }
                None => return None,
            }
        }
    }
}
