//! The ratio test where all cells are words.
ghost use Rattle.std.specs.Prelude.{◌≡◌, ◌≢◌, ◌≤◌, ◌<◌, ◌+◌, ◌↔◌, ◌<ℤ◌, suc, pos, neg_ℤ, length, take, ℕ, IsTrue, IsFalse, IfSome};
ghost use Rattle.std.specs.List.{Contains, slice_index_or};
ghost use Rattle.std.specs.Option.{MatchOption};
ghost use Rattle.poly_model.specs.Dictionaries.{Table};
ghost use Rattle.poly_model.specs.Tree.{Leaves};
ghost use Rattle.dictionary.specs.Views.{table_of};
ghost use Rattle.lex_pivot.specs.Pairs.{IsPlaced};
ghost use Rattle.lex_pivot.specs.Ratios.{NoneLeaves, IsCandidate, IsCandidateAt, IsLess, IsBetter, IsBestAt, candidate_row};
ghost use Rattle.lex_pivot.specs.Tables.{IsTable, IsTieTable};

use crate::candidates::{Candidate, Pair};
use crate::negatives::{above_lowest, lowest_bit, negative_bits};
use crate::orderings::is_less;
use crate::rows::row_at;
use crate::word_table::{WordTable, cell_at, negated};
use crate::word_ties::compare_words;
use poly_model::Label;

/// The row that leaves in the column of a label of the cobasis, and none where no row outside the cobasis is negative
/// there: 64 rows at a time are asked whether they are negative, and then only those that are.
pub(crate) fn leaving_in_words(table: &WordTable, col: Label) -> Option<Label>
    requires table { IsTieTable table.now }
    requires column { Contains table.now.dict.now.key col }
    ensures { MatchOption result (NoneLeaves table.now.dict.now col)
        (λ r. Leaves table.now.dict.now.labels table.now.order.now table.now.dict.now.key (table_of table.now.dict.now) col r) }
{
    // the labels outside the cobasis stand once
    let height = table.dict.rows().len();
    let mut best: Option<Candidate<i64>> = None;
    let mut from = 0;
    'parts: while from < height {
        let count = at_most(height - from, 64);
        best = best_of_part(table, col, best, from, count);
        from += count;
    }
    candidate_row(best)
}

// So many, but no more than that.
#[inline(always)]
fn at_most(count: usize, most: usize) -> usize
    requires some { 0 < count }
    requires most { 0 < most }
    ensures some { 0 < result }
    ensures few { result ≤ most }
    ensures within { result ≤ count }
{
    if count < most { count } else { most }
}

/// Whether no row leaves in the column of a label of the cobasis. Few rows are asked at a time, since mostly one of the first
/// is negative.
pub fn none_leaves_in_words(table: &WordTable, col: Label) -> bool
    requires table { IsTable table.now }
    requires column { Contains table.now.dict.now.key col }
    ensures { IsTrue result ↔ NoneLeaves table.now.dict.now col }
{
    let height = table.dict.rows().len();
    let mut from = 0;
    'parts: while from < height {
        let count = at_most(height - from, 16);
        if has_candidate(table, col, from, count) {
            return false;
        }
        from += count;
    }
    true
}

// Whether one of so many rows from a place on, 64 at most, is a candidate.
#[inline(always)]
fn has_candidate(table: &WordTable, col: Label, from: usize, count: usize) -> bool
    requires table { IsTable table.now }
    requires column { Contains table.now.dict.now.key col }
    requires few { count ≤ 64 }
    requires within { from + count ≤ length table.now.dict.now.rows }
    ensures yes { IsTrue result → NoneLeaves table.now.dict.now col → ⊥ }
    ensures no { IsFalse result → (i : ℕ) → from ≤ i → i < from + count →
        IsCandidate table.now.dict.now col (slice_index_or table.now.dict.now.rows i 0) → ⊥ }
{
    // places are machine numbers
    let _rows = table.dict.rows();
    let mut place = from;
    let mut bits = negative_bits(table, table.dict.column_of(col), from, count);
    'places: while bits > 0 {
        let skip = lowest_bit(bits);
        if is_candidate(table, col, place + skip) {
            return true;
        }
        place = place + skip + 1;
        bits = above_lowest(bits, skip);
    }
    false
}

// Whether the label at a place, which is negative in the column, is that of a row.
#[inline(always)]
fn is_candidate(table: &WordTable, col: Label, place: usize) -> bool
    requires place { place < length table.now.dict.now.rows }
    requires negative { Table.entry (table_of table.now.dict.now) (slice_index_or table.now.dict.now.rows place 0) col <ℤ pos 0 }
    ensures { IsTrue result ↔ IsCandidate table.now.dict.now col (slice_index_or table.now.dict.now.rows place 0) }
{
    row_at(table.dict, place).is_some()
}

// The better of the best candidate so far and those among 64 rows at most.
#[inline(always)]
fn best_of_part(
    table: &WordTable,
    col: Label,
    best: Option<Candidate<i64>>,
    from: usize,
    count: usize,
) -> Option<Candidate<i64>>
    requires table { IsTieTable table.now }
    requires column { Contains table.now.dict.now.key col }
    requires few { count ≤ 64 }
    requires within { from + count ≤ length table.now.dict.now.rows }
    requires best { IsBestAt table.now.dict.now table.now.order.now col (take from table.now.dict.now.rows) best }
    ensures { IsBestAt table.now.dict.now table.now.order.now col (take (from + count) table.now.dict.now.rows) result }
{
    // the labels outside the cobasis stand once
    let _rows = table.dict.rows();
    let mut best = best;
    let mut place = from;
    let mut bits = negative_bits(table, table.dict.column_of(col), from, count);
    'places: while bits > 0 {
        let skip = lowest_bit(bits);
        best = with_place(table, col, best, place + skip);
        place = place + skip + 1;
        bits = above_lowest(bits, skip);
    }
    best
}

// The better of the best candidate so far and the row at a place, which is negative in the column, if it is a row.
#[inline(always)]
fn with_place(
    table: &WordTable,
    col: Label,
    best: Option<Candidate<i64>>,
    place: usize,
) -> Option<Candidate<i64>>
    requires table { IsTieTable table.now }
    requires column { Contains table.now.dict.now.key col }
    requires place { place < length table.now.dict.now.rows }
    requires negative { Table.entry (table_of table.now.dict.now) (slice_index_or table.now.dict.now.rows place 0) col <ℤ pos 0 }
    requires best { IsBestAt table.now.dict.now table.now.order.now col (take place table.now.dict.now.rows) best }
    ensures { IsBestAt table.now.dict.now table.now.order.now col (take (place + 1) table.now.dict.now.rows) result }
{
    // the labels outside the cobasis stand once
    let _rows = table.dict.rows();
    match row_at(table.dict, place) {
        Some(row) => {
            let over = over_at(table, col, place);
            Some(better(table, best, Candidate { row, place, over }))
        }
        None => best,
    }
}

// Minus the entry of the row at a place in the column.
#[inline(always)]
fn over_at(table: &WordTable, col: Label, place: usize) -> i64
    requires table { IsTable table.now }
    requires column { Contains table.now.dict.now.key col }
    requires place { place < length table.now.dict.now.rows }
    ensures { result ≡ neg_ℤ (Table.entry (table_of table.now.dict.now) (slice_index_or table.now.dict.now.rows place 0) col) }
{
    negated(cell_at(table, place, table.dict.column_of(col)))
}

// The better of the best candidate so far and the next one: that with the less list over minus its entry.
#[inline(always)]
fn better(table: &WordTable, best: Option<Candidate<i64>>, next: Candidate<i64>) -> Candidate<i64>
    requires table { IsTieTable table.now }
    requires next { IsPlaced table.now.dict.now next }
    requires best { IfSome best (λ c. IsPlaced table.now.dict.now c) }
    ensures { IsBetter table.now.dict.now table.now.order.now best next result }
{
    let Some(so_far) = best else {
        return next;
    };
    if is_lesser(table, &next, &so_far) {
        return next;
    }
    so_far
}

// Whether the list of the one, over its factor, is less than that of the other.
#[inline(always)]
fn is_lesser(table: &WordTable, one: &Candidate<i64>, other: &Candidate<i64>) -> bool
    requires table { IsTieTable table.now }
    requires one { IsPlaced table.now.dict.now one.now }
    requires other { IsPlaced table.now.dict.now other.now }
    ensures { one.now.row ≢ other.now.row → IsTrue result ↔ IsLess table.now.dict.now table.now.order.now one.now other.now }
{
    let pair = Pair {
        one: *one,
        other: *other,
    };
    is_less(compare_words(table, &pair))
}

// The row of a candidate.
fn candidate_row(best: Option<Candidate<i64>>) -> Option<Label>
    ensures { result ≡ candidate_row best }
{
    match best {
        Some(candidate) => Some(candidate.row),
        None => None,
    }
}
