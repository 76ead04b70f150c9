//! A number that is read off each row of a dictionary.
ghost use Rattle.std.specs.Prelude.{◌≡◌, ◌<ℤ◌, ◌↔◌, ◌*ℤ◌, ◌+ℤ◌, ◌<◌, pos, length, IsTrue};
ghost use Rattle.std.specs.List.{Contains, slice_index_or};
ghost use Rattle.poly_model.specs.Dictionaries.{Table};
ghost use Rattle.poly_num.specs.Signs.{sign_of};
ghost use Rattle.dictionary.specs.Views.{table_of};
ghost use Rattle.lex_pivot.specs.Readings.{reading_at, IsReadable};

use crate::orderings::cmp_ratios;
use dictionary::{Dict, Position};
use poly_model::Label;
use poly_num::{Num, neg, sign};
use std::cmp::Ordering;

/// A number for each row, by its entries. The factors of a sum are of the type that the cells have: machine numbers where
/// all are words.
#[derive(Clone, Copy)]
pub enum Reading<T> {
    /// The entry in the column of `col`.
    Entry {
        col: Label,
    },
    /// `p` times the entry in the column of `col`, and `f` times that in the column of `other`.
    Sum {
        p: T,
        col: Label,
        f: T,
        other: Label,
    },
    /// The entry in the column of `col` where that in the column of `zero` is 0, and else 0.
    Where {
        col: Label,
        zero: Label,
    },
}

impl Reading<Num> {
    /// The sign of the number of a row.
    #[inline(always)]
    pub fn sign_at(&self, dict: &Dict, row: Label) -> Ordering
        requires row { Contains dict.now.labels row }
        requires columns { IsReadable dict.now.key self.now }
        ensures { result ≡ sign_of (reading_at (table_of dict.now) self.now row) }
    {
        match dict.position(row) {
            Position::Row(place) => self.sign_in_cells(dict, place as usize),
            Position::Column(_) => self.sign_of_unit(dict, row),
        }
    }

    // That of the label at a place of the rows of cells.
    #[inline(always)]
    fn sign_in_cells(&self, dict: &Dict, place: usize) -> Ordering
        requires place { place < length dict.now.rows }
        requires columns { IsReadable dict.now.key self.now }
        ensures { result ≡
            sign_of (reading_at (table_of dict.now) self.now (slice_index_or dict.now.rows place 0)) }
    {
        match *self {
            Reading::Entry { col } => sign(cell(dict, place, col)),
            Reading::Sum { p, col, f, other } => {
                sum_sign(p, cell(dict, place, col), f, cell(dict, place, other))
            }
            Reading::Where { col, zero } => {
                if is_zero(cell(dict, place, zero)) {
                    sign(cell(dict, place, col))
                } else {
                    Ordering::Equal
                }
            }
        }
    }

    // That of a label of the cobasis: it is 0 where its own column is not read, and no entry needs to be looked up.
    #[inline(always)]
    fn sign_of_unit(&self, dict: &Dict, row: Label) -> Ordering
        requires row { Contains dict.now.key row }
        requires columns { IsReadable dict.now.key self.now }
        ensures { result ≡ sign_of (reading_at (table_of dict.now) self.now row) }
    {
        if self.is_elsewhere(dict, row) {
            return Ordering::Equal;
        }
        self.sign_of_entries(dict, row)
    }

    // That of a label of the cobasis by its entries.
    fn sign_of_entries(&self, dict: &Dict, row: Label) -> Ordering
        requires row { Contains dict.now.key row }
        requires columns { IsReadable dict.now.key self.now }
        ensures { result ≡ sign_of (reading_at (table_of dict.now) self.now row) }
    {
        // its labels are labels of the dictionary
        let _units = dict.cobasis();
        match *self {
            Reading::Entry { col } => sign(dict.entry(row, col)),
            Reading::Sum { p, col, f, other } => {
                sum_sign(p, dict.entry(row, col), f, dict.entry(row, other))
            }
            Reading::Where { col, zero } => {
                if is_zero(dict.entry(row, zero)) {
                    sign(dict.entry(row, col))
                } else {
                    Ordering::Equal
                }
            }
        }
    }
}

// The number at a place of the rows of cells in the column of a label of the cobasis.
#[inline(always)]
fn cell(dict: &Dict, place: usize, col: Label) -> Num
    requires place { place < length dict.now.rows }
    requires column { Contains dict.now.key col }
    ensures { result ≡ Table.entry (table_of dict.now) (slice_index_or dict.now.rows place 0) col }
{
    dict.column(dict.column_of(col)).at(place)
}

impl Reading<Num> {
    // Whether the own column of a label of the cobasis is not read: then its number is 0.
    #[inline(always)]
    fn is_elsewhere(&self, dict: &Dict, row: Label) -> bool
        requires row { Contains dict.now.key row }
        requires columns { IsReadable dict.now.key self.now }
        ensures { IsTrue result → reading_at (table_of dict.now) self.now row ≡ pos 0 }
    {
        // each label of the cobasis is 0 in the columns of the others
        let _units = dict.cobasis();
        match *self {
            Reading::Entry { col } => !row.is_same(col),
            Reading::Sum { col, other, .. } => !row.is_same(col) && !row.is_same(other),
            Reading::Where { col, .. } => !row.is_same(col),
        }
    }
}

fn is_zero(a: Num) -> bool
    ensures { IsTrue result ↔ (a ≡ pos 0) }
{
    a.get() == 0
}

fn is_negative(a: Num) -> bool
    ensures { IsTrue result ↔ (a <ℤ pos 0) }
{
    a.get() < 0
}

// The sign of `p a + b f`, without products.
fn sum_sign(p: Num, a: Num, f: Num, b: Num) -> Ordering
    requires { pos 0 <ℤ p }
    ensures { result ≡ sign_of (p *ℤ a +ℤ b *ℤ f) }
{
    if f.is_positive() {
        return cmp_ratios(a, f, neg(b), p);
    }
    if is_negative(f) {
        return cmp_ratios(a, neg(f), b, p);
    }
    sign(a)
}
