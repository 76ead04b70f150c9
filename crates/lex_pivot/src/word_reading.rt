//! A number that is read off each row of a dictionary whose cells are all words, and its lead.
ghost use Rattle.std.specs.declared.cmp.Ordering.TheVariants.{Equal, Greater};
ghost use Rattle.std.specs.Prelude.{◌≡◌, ◌≢◌, ◌<◌, ◌≤◌, ◌↔◌, ℕ, ◌+ℤ◌, ◌*ℤ◌, pos, length, IsTrue};
ghost use Rattle.std.specs.List.{Contains, slice_index_or};
ghost use Rattle.poly_num.specs.Numbers.{IsWord};
ghost use Rattle.poly_num.specs.Signs.{sign_of};
ghost use Rattle.poly_model.specs.Dictionaries.{Table};
ghost use Rattle.poly_model.specs.LexOrder.{rows_in};
ghost use Rattle.dictionary.specs.Positions.{IsPosition};
ghost use Rattle.dictionary.specs.Views.{table_of};
ghost use Rattle.lex_pivot.specs.Leads.{IsSpot, AreSpots, IsZeroBehind};
ghost use Rattle.lex_pivot.specs.Readings.{reading_at, IsReadable, AreApart};
ghost use Rattle.lex_pivot.specs.Scans.{IsLead};
ghost use Rattle.lex_pivot.specs.Tables.{IsTable};

use crate::Reading;
use crate::orderings::{cmp_products, differs, order_of_words};
use crate::scan::Lead;
use crate::word_table::{WordTable, cell_at, is_zero, negated};
use dictionary::Position;
use poly_model::Label;
use std::cmp::Ordering;

impl Reading<i64> {
    /// The sign of the number of a label, by where it stands.
    #[inline(always)]
    pub(crate) fn sign_at_position(
        &self,
        table: &WordTable,
        row: Label,
        position: Position,
    ) -> Ordering
        requires table { IsTable table.now }
        requires position { IsPosition table.now.dict.now row position }
        requires columns { IsReadable table.now.dict.now.key self.now }
        requires apart { AreApart self.now }
        ensures { result ≡ sign_of (reading_at (table_of table.now.dict.now) self.now row) }
    {
        match position {
            Position::Row(place) => self.sign_in_words(table, place as usize),
            Position::Column(_) => self.sign_in_own(table, row),
        }
    }

    // That of the label at a place of the rows of cells.
    #[inline(always)]
    fn sign_in_words(&self, table: &WordTable, place: usize) -> Ordering
        requires table { IsTable table.now }
        requires place { place < length table.now.dict.now.rows }
        requires columns { IsReadable table.now.dict.now.key self.now }
        ensures { result ≡
            sign_of (reading_at (table_of table.now.dict.now) self.now (slice_index_or table.now.dict.now.rows place 0)) }
    {
        match *self {
            Reading::Entry { col } => order_of_words(entry_at(table, place, col), 0),
            Reading::Sum { p, col, f, other } => {
                sum_order(
                    entry_at(table, place, col),
                    p,
                    entry_at(table, place, other),
                    f,
                )
            }
            Reading::Where { col, zero } => {
                if is_zero(entry_at(table, place, zero)) {
                    order_of_words(entry_at(table, place, col), 0)
                } else {
                    Ordering::Equal
                }
            }
        }
    }

    // That of a label of the cobasis: it is positive in its own column, and 0 in the others.
    #[inline(always)]
    fn sign_in_own(&self, table: &WordTable, row: Label) -> Ordering
        requires row { Contains table.now.dict.now.key row }
        requires columns { IsReadable table.now.dict.now.key self.now }
        requires apart { AreApart self.now }
        ensures { result ≡ sign_of (reading_at (table_of table.now.dict.now) self.now row) }
    {
        // each label of the cobasis is the denominator in its own column, which is positive, and 0 in the others
        let (_units, _denominator) = (table.dict.cobasis(), table.dict.denominator());
        match *self {
            Reading::Entry { col } | Reading::Where { col, .. } => sign_if_same(row, col),
            Reading::Sum { col, f, other, .. } => {
                if row.is_same(other) {
                    order_of_words(f, 0)
                } else {
                    sign_if_same(row, col)
                }
            }
        }
    }
}

// `Greater` if the labels are the same, and else `Equal`.
#[inline(always)]
fn sign_if_same(row: Label, col: Label) -> Ordering
    ensures same { row ≡ col → result ≡ Greater }
    ensures other { row ≢ col → result ≡ Equal }
{
    if row.is_same(col) {
        Ordering::Greater
    } else {
        Ordering::Equal
    }
}

// The number at a place of the rows of cells in the column of a label of the cobasis.
#[inline(always)]
pub(crate) fn entry_at(table: &WordTable, place: usize, col: Label) -> i64
    requires table { IsTable table.now }
    requires place { place < length table.now.dict.now.rows }
    requires column { Contains table.now.dict.now.key col }
    ensures value { result ≡ Table.entry (table_of table.now.dict.now) (slice_index_or table.now.dict.now.rows place 0) col }
    ensures word { IsWord result }
{
    cell_at(table, place, table.dict.column_of(col))
}

// The sign of `a p + b f`: the order of `a p` and `-b f`.
#[inline(always)]
fn sum_order(a: i64, p: i64, b: i64, f: i64) -> Ordering
    requires { IsWord b }
    ensures { result ≡ sign_of (p *ℤ a +ℤ b *ℤ f) }
{
    cmp_products(a, p, negated(b), f)
}

/// The lead of the numbers of the rows of the root. The spots say where its labels stand.
#[inline(always)]
pub(crate) fn root_lead_in_words(
    table: &WordTable,
    spots: &[Option<Position>],
    reading: &Reading<i64>,
) -> Lead
    requires table { IsTable table.now }
    requires spots { AreSpots table.now.dict.now table.now.order.now spots.now }
    requires columns { IsReadable table.now.dict.now.key reading.now }
    requires apart { AreApart reading.now }
    ensures { IsLead table.now.dict.now table.now.order.now (reading_at (table_of table.now.dict.now) reading.now) result }
{
    lead_from(table, spots, reading, table.order.root_count())
}

/// The same where the numbers of the rows behind the first so many labels of the root are known to be 0.
#[inline(always)]
#[inline(always)]
pub(crate) fn lead_from(
    table: &WordTable,
    spots: &[Option<Position>],
    reading: &Reading<i64>,
    top: usize,
) -> Lead
    requires table { IsTable table.now }
    requires spots { AreSpots table.now.dict.now table.now.order.now spots.now }
    requires columns { IsReadable table.now.dict.now.key reading.now }
    requires apart { AreApart reading.now }
    requires behind { IsZeroBehind table.now.dict.now table.now.order.now (reading_at (table_of table.now.dict.now) reading.now) top }
    ensures { IsLead table.now.dict.now table.now.order.now (reading_at (table_of table.now.dict.now) reading.now) result }
{
    // the labels of the dictionary ascend
    let _labels = table.dict.labels();
    let labels = table.order.root_labels();
    let mut n = top;
    'rows: while n > 0 {
        let here = sign_at_spot(table, reading, labels[n - 1], spots[n - 1]);
        if differs(here) {
            return Lead { sign: here, top: n };
        }
        n -= 1;
    }
    Lead {
        sign: Ordering::Equal,
        top: 0,
    }
}

// The sign of the number of a label of the root, if it is that of a row of the dictionary, and else `Equal`.
#[inline(always)]
fn sign_at_spot(
    table: &WordTable,
    reading: &Reading<i64>,
    row: Label,
    spot: Option<Position>,
) -> Ordering
    requires table { IsTable table.now }
    requires spot { IsSpot table.now.dict.now row spot }
    requires columns { IsReadable table.now.dict.now.key reading.now }
    requires apart { AreApart reading.now }
    ensures value { Contains (rows_in table.now.dict.now.labels) row →
        result ≡ sign_of (reading_at (table_of table.now.dict.now) reading.now row) }
    ensures row { result ≢ Equal → Contains (rows_in table.now.dict.now.labels) row }
{
    match spot {
        Some(position) => reading.sign_at_position(table, row, position),
        None => Ordering::Equal,
    }
}
