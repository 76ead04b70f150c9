//! Cells that are words while all of them fit, and wide numbers else.
ghost use Rattle.std.specs.Prelude.{◌≡◌, ◌<◌, ◌≤◌, ℕ, pos, IfOk, IfSome, IsTrue, length};
ghost use Rattle.std.specs.List.{slice_index_or};
ghost use Rattle.columns.specs.Cells.{cell_at, place};

use crate::exchange::{at_place, number_at};
use crate::size::{Size, size_of_all};
use crate::slices::{Column, Slice, WordCells};
use poly_num::Num;
use std::alloc::AllocError;
use std::marker::Model;
use words::Word;

/// So many cells, which contracts see as a list of whole numbers. There is room for all of them as words and as wide
/// numbers from the start, and one of the two has them. `size` is what is known of the sizes of the words.
pub struct Cells {
    pub(crate) words: Vec<Word>,
    pub(crate) wide: Vec<Num>,
    pub(crate) is_wide: bool,
    pub(crate) size: Size,
}

// Written out, so that to let one go is one step in the proofs of those who hold it.
impl Drop for Cells {
    fn drop(self) {
        let Self {
            words: _,
            wide: _,
            is_wide: _,
            size: _,
        } = self;
    }
}

impl Model for Cells {
    ghost use Rattle.std.specs.Prelude.{◌≡◌, ℤ, List, length, if◌then◌else◌};
    ghost use Rattle.columns.specs.Sizes.{AreOf};

    ghost Value = { List ℤ };

    ghost view = { λ c. if c.is_wide then c.wide.items else c.words.items };

    ghost invariant = { λ c. (length c.wide.items ≡ length c.words.items) ×
        AreOf c.size (length c.words.items) c.words.items };
}

impl Cells {
    /// These cells; the room for so many words is taken now.
    pub fn new(wide: Vec<Num>) -> Result<Cells, AllocError>
        ensures { IfOk result (λ c. c ≡ wide.items) }
    {
        let mut words = Vec::new(*wide.allocator());
        words.resize(wide.len(), Word::ZERO)?;
        let mut cells = Cells {
            words,
            wide,
            is_wide: true,
            size: Size::Words,
        };
        cells.narrow();
        Ok(cells)
    }

    /// The same cells, with room of their own.
    pub fn copy(&self) -> Result<Cells, AllocError>
        ensures { IfOk result (λ c. c ≡ self.now) }
    {
        let words = self.words.clone()?;
        let wide = self.wide.clone()?;
        Ok(Cells {
            words,
            wide,
            is_wide: self.is_wide,
            size: self.size,
        })
    }

    /// Makes the cells of another table the same. No memory is taken, and only the room that has the cells is copied.
    pub fn copy_into(&self, to: &mut Cells)
        requires { length to.old ≡ length self.now }
        ensures { to.new ≡ self.now }
    {
        to.is_wide = self.is_wide;
        to.size = Size::Words;
        if self.is_wide {
            to.wide.copy_from_slice(&self.wide);
        } else {
            to.words.copy_from_slice(&self.words);
            to.size = self.size;
        }
    }

    /// How many cells there are.
    pub fn len(&self) -> usize
        ensures { result ≡ length self.now }
    {
        self.words.len()
    }

    /// The cell in row i and column j of columns of this height.
    #[inline(always)]
    pub fn at(&self, height: usize, i: usize, j: usize) -> Num
        requires row { i < height }
        requires within { place height i j < length self.now }
        ensures { result ≡ cell_at height self.now i j }
    {
        if self.is_wide {
            number_at(&self.wide, j * height + i)
        } else {
            at_place(&self.words, j * height + i).wide()
        }
    }

    /// The cells of column j, of columns of this height.
    #[inline(always)]
    pub fn column(&self, height: usize, j: usize) -> Column<'_>
        requires { place height height j ≤ length self.now }
        ensures height { length result ≡ height }
        ensures cells { (i : ℕ) → i < height → slice_index_or result i (pos 0) ≡ cell_at height self.now i j }
    {
        let cells = if self.is_wide {
            Slice::Wide(&self.wide[j * height..j * height + height])
        } else {
            Slice::Words(&self.words[j * height..j * height + height])
        };
        Column { cells }
    }

    /// All cells as they lie, where they are words.
    #[inline(always)]
    pub fn word_cells(&self) -> Option<WordCells<'_>>
        ensures { IfSome result (λ c. c ≡ self.now) }
    {
        if self.is_wide {
            None
        } else {
            Some(WordCells { cells: &self.words })
        }
    }

    // Back to words, where all cells are.
    pub(crate) fn narrow(&mut self)
        ensures { self.new ≡ self.old }
    {
        if !self.is_wide {
            return;
        }
        self.size = Size::Words;
        if copy_words(&self.wide, &mut self.words) {
            self.is_wide = false;
            self.size = size_of_all(Size::Words, &self.words);
        }
    }
}

// The numbers as words, where all of them are; else the words are lost.
fn copy_words(wide: &[Num], words: &mut [Word]) -> bool
    requires { length words.old ≡ length wide.now }
    ensures { IsTrue result → words.new ≡ wide.now }
{
    // words(k) = wide(k)
    'cells: for k in 0..wide.len() {
        match Word::of(wide[k]) {
            Some(w) => words[k] = w,
            None => return false,
        }
    }
    true
}
