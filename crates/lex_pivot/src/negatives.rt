//! Which cells of a column are negative, without a branch for each.
ghost use Rattle.std.specs.Prelude.{◌≡◌, ◌≤◌, ◌<◌, ◌+◌, ◌/◌, ◌^◌, suc, length, if◌then◌else◌};
ghost use Rattle.std.specs.Int.{w64, trailing_zeros};
ghost use Rattle.lex_pivot.specs.Negatives.{bits_of, negative_in};
ghost use Rattle.lex_pivot.specs.Tables.{IsTable};

use crate::word_table::{WordTable, cell_at};

/// A bit for each of at most 64 rows from a place on, which says whether it is negative in column j; the lowest is that of
/// the first.
#[inline(always)]
pub(crate) fn negative_bits(table: &WordTable, j: usize, from: usize, count: usize) -> u64
    requires table { IsTable table.now }
    requires column { j < suc (length table.now.dict.now.columns) }
    requires within { from + count ≤ length table.now.dict.now.rows }
    requires few { count ≤ 64 }
    ensures { result ≡ bits_of (negative_in table.now.dict.now j) from count }
{
    // places are machine numbers
    let _count = table.dict.rows().len();
    let mut bits = 0;
    let mut left = count;
    // bits = 2 bits + 1 where the cell is negative, from the last cell on
    'cells: while left > 0 {
        left -= 1;
        bits = 2 * bits + negative_bit(table, j, from + left);
    }
    bits
}

// 1 where the row at a place is negative in column j, and else 0.
#[inline(always)]
fn negative_bit(table: &WordTable, j: usize, place: usize) -> u64
    requires table { IsTable table.now }
    requires column { j < suc (length table.now.dict.now.columns) }
    requires place { place < length table.now.dict.now.rows }
    ensures { result ≡ (if negative_in table.now.dict.now j place then 1 else 0) }
{
    if cell_at(table, place, j) < 0 { 1 } else { 0 }
}

/// How many bits are below the lowest that is set.
#[inline(always)]
pub(crate) fn lowest_bit(bits: u64) -> usize
    requires { 0 < bits }
    ensures value { result ≡ trailing_zeros w64 bits }
    ensures within { result < 64 }
{
    bits.trailing_zeros() as usize
}

/// The bits above the lowest that is set.
#[inline(always)]
pub(crate) fn above_lowest(bits: u64, lowest: usize) -> u64
    requires { lowest < 64 }
    ensures { result ≡ bits / 2 ^ lowest / 2 }
{
    bits >> lowest >> 1
}
