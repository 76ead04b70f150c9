//! How many pivots were carried out.
ghost use Rattle.std.specs.Prelude.{◌≡◌, ◌+◌, ◌<◌, ℕ};
ghost use Rattle.dictionary.specs.Blanks.{IsBlankOf};

use std::marker::Model;
use std::sync::ledger::{Blank, Book, Ledger, Share};

/// How many pivots were carried out: only a pivot raises it. It takes no bytes, so a contract speaks of it and no program
/// can read it.
#[derive(Drop)]
pub struct Steps<L: Ledger> {
    book: Book<L>,
    share: Share<L>,
}

impl<L: Ledger> Model for Steps<L> {
    ghost Value = { ℕ };

    ghost view = { λ s. s.book.total };

    ghost invariant = { λ s. 0 < s.share.parts };
}

impl<L: Ledger> Steps<L> {
    /// No pivot yet. `blank` is of this ledger, and has a part. Who promises no bound calls a function that makes the counter
    /// with `Brand` and `Blank::new(1)`, and picks the blank's ledger in the proof of that call.
    pub fn new(blank: Blank) -> Steps<L>
        requires blank { IsBlankOf blank.name blank.parts L.name L.parts }
        ensures { result ≡ 0 }
    {
        let (book, share) = blank.open::<L>();
        Steps { book, share }
    }

    // One pivot more.
    pub(crate) fn tick(&mut self)
        ensures { self.new ≡ self.old + 1 }
    {
        self.book.add(&mut self.share, 1);
    }
}
