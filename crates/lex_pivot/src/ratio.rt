//! The ratio test: which row leaves in a column.
ghost use Rattle.std.specs.Prelude.{◌≡◌, ◌≢◌, ◌<◌, ◌≤◌, ◌<ℤ◌, ◌↔◌, ℕ, suc, pos, length, IsTrue, IfSome};
ghost use Rattle.std.specs.List.{Contains, slice_index_or};
ghost use Rattle.std.specs.Option.{MatchOption};
ghost use Rattle.poly_model.specs.Tree.{Leaves};
ghost use Rattle.dictionary_laws.specs.Keys.{place_in};
ghost use Rattle.dictionary.specs.Positions.{IsCellColumn};
ghost use Rattle.dictionary.specs.Views.{table_of};
ghost use Rattle.lex_pivot.specs.BeforeRoot.{before_root};
ghost use Rattle.lex_pivot.specs.Pairs.{IsPlaced};
ghost use Rattle.lex_pivot.specs.Ratios.{NoneLeaves, IsCandidate, IsCandidateAt, IsLess, IsBetter, candidate_row};

use crate::Order;
use crate::before_root::gather;
use crate::candidates::{Candidate, Pair};
use crate::orderings::is_less;
use crate::rows::row_at;
use crate::ties::compare;
use crate::word_ratio::leaving_in_words;
use crate::word_table::WordTable;
use columns::Column;
use dictionary::Dict;
use poly_model::{Label, MOST_LABELS, Root};
use poly_num::{Num, neg};

/// The row that leaves in the column of a label of the cobasis: of the rows outside the cobasis that are negative there,
/// the one with the least list over minus its entry. None where no such row is negative.
pub fn leaving(dict: &Dict, root: &Root, col: Label) -> Option<Label>
    requires { Contains dict.now.key col }
    ensures { MatchOption result (NoneLeaves dict.now col)
        (λ r. Leaves dict.now.labels root.now.key dict.now.key (table_of dict.now) col r) }
{
    leaving_by(dict, &Order::of(root), col)
}

/// The same by the order relative to the root. Takes no memory.
pub fn leaving_by(dict: &Dict, order: &Order, col: Label) -> Option<Label>
    requires { Contains dict.now.key col }
    ensures { MatchOption result (NoneLeaves dict.now col)
        (λ r. Leaves dict.now.labels order.now dict.now.key (table_of dict.now) col r) }
{
    // a key has at most `MOST_LABELS` labels
    let _few = dict.key().len();
    let mut room = [Label::EXTRA; MOST_LABELS];
    let len = gather(dict, order, &mut room);
    leaving_along(dict, order, &room[..len], col)
}

/// The same with the rows of the cobasis that are outside the root, for a caller that keeps them (`Leads::before_root`).
pub fn leaving_along(dict: &Dict, order: &Order, before: &[Label], col: Label) -> Option<Label>
    requires before { before.now ≡ before_root dict.now order.now }
    requires column { Contains dict.now.key col }
    ensures { MatchOption result (NoneLeaves dict.now col)
        (λ r. Leaves dict.now.labels order.now dict.now.key (table_of dict.now) col r) }
{
    match dict.word_cells() {
        Some(cells) => leaving_in_words(
            &WordTable {
                dict,
                order,
                before,
                cells: &cells,
            },
            col,
        ),
        None => leaving_in_wide(dict, order, before, col),
    }
}

// The same where some cell is no word.
#[cold]
fn leaving_in_wide(dict: &Dict, order: &Order, before: &[Label], col: Label) -> Option<Label>
    requires before { before.now ≡ before_root dict.now order.now }
    requires column { Contains dict.now.key col }
    ensures { MatchOption result (NoneLeaves dict.now col)
        (λ r. Leaves dict.now.labels order.now dict.now.key (table_of dict.now) col r) }
{
    // the labels outside the cobasis stand once
    let _rows = dict.rows();
    let column = dict.column(dict.column_of(col));
    let mut best: Option<Candidate<Num>> = None;
    let mut from = 0;
    'rows: loop {
        let place = next_negative(&column, from);
        if place >= column.len() {
            return candidate_row(best);
        }
        if let Some(next) = candidate_at(dict, col, &column, place) {
            best = Some(better(dict, order, before, best, next));
        }
        from = place + 1;
    }
}

// The first place from this one on at which the cell is negative, or how many cells there are: most cells are passed over.
#[inline]
fn next_negative(cells: &Column, from: usize) -> usize
    requires { from ≤ length cells.now }
    ensures within { result ≤ length cells.now }
    ensures behind { from ≤ result }
    ensures passed { (i : ℕ) → from ≤ i → i < result → slice_index_or cells.now i (pos 0) <ℤ pos 0 → ⊥ }
{
    'places: for place in from..cells.len() {
        if cells.is_negative(place) {
            return place;
        }
    }
    cells.len()
}

// The row at a place of the rows of cells, if it is a candidate in the column of a label, whose cells these are.
#[inline(always)]
fn candidate_at(dict: &Dict, col: Label, cells: &Column, place: usize) -> Option<Candidate<Num>>
    requires column { Contains dict.now.key col }
    requires cells { IsCellColumn dict.now (suc (place_in dict.now.columns col)) cells.now }
    requires place { place < length dict.now.rows }
    ensures { MatchOption result (IsCandidate dict.now col (slice_index_or dict.now.rows place 0) → ⊥)
        (λ c. IsCandidateAt dict.now col c × (c.row ≡ slice_index_or dict.now.rows place 0)) }
{
    if !cells.is_negative(place) {
        return None;
    }
    let row = row_at(dict, place)?;
    Some(Candidate {
        row,
        place,
        over: neg(cells.at(place)),
    })
}

// The better of the best candidate so far and the next one: that with the less list over minus its entry.
#[inline(always)]
fn better(
    dict: &Dict,
    order: &Order,
    before: &[Label],
    best: Option<Candidate<Num>>,
    next: Candidate<Num>,
) -> Candidate<Num>
    requires before { before.now ≡ before_root dict.now order.now }
    requires next { IsPlaced dict.now next }
    requires best { IfSome best (λ c. IsPlaced dict.now c) }
    ensures { IsBetter dict.now order.now best next result }
{
    let Some(so_far) = best else {
        return next;
    };
    if is_lesser(dict, order, before, &next, &so_far) {
        return next;
    }
    so_far
}

// Whether the list of the one, over its factor, is less than that of the other.
#[inline(always)]
fn is_lesser(
    dict: &Dict,
    order: &Order,
    before: &[Label],
    one: &Candidate<Num>,
    other: &Candidate<Num>,
) -> bool
    requires before { before.now ≡ before_root dict.now order.now }
    requires one { IsPlaced dict.now one.now }
    requires other { IsPlaced dict.now other.now }
    ensures { one.now.row ≢ other.now.row → IsTrue result ↔ IsLess dict.now order.now one.now other.now }
{
    let pair = Pair {
        one: *one,
        other: *other,
    };
    is_less(compare(dict, order, before, &pair))
}

// The row of a candidate.
fn candidate_row(best: Option<Candidate<Num>>) -> Option<Label>
    ensures { result ≡ candidate_row best }
{
    match best {
        Some(candidate) => Some(candidate.row),
        None => None,
    }
}

/// Whether no row leaves in the column of a label of the cobasis: none outside the cobasis is negative there.
pub fn none_leaves(dict: &Dict, col: Label) -> bool
    requires { Contains dict.now.key col }
    ensures { IsTrue result ↔ NoneLeaves dict.now col }
{
    let column = dict.column(dict.column_of(col));
    'rows: for place in 0..dict.rows().len() {
        if candidate_at(dict, col, &column, place).is_some() {
            return false;
        }
    }
    true
}
