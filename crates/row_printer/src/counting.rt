//! Rows that are counted.
ghost use Rattle.std.specs.Prelude.{◌≡◌, ◌^◌, ◌+◌, ◌%◌, ◌∷◌, []};
ghost use Rattle.row_printer.specs.Rows.{Counts, entries_size};

use crate::tally::Tally;
use poly_num::Num;

impl Tally {
    /// Of no rows.
    pub fn none() -> Tally
        ensures rows { result.rows ≡ 0 }
        ensures sum { result.sum ≡ 0 }
    {
        Tally { rows: 0, sum: 0 }
    }

    /// With one row more, that of this vector.
    pub fn with_row(self, v: &[Num]) -> Tally
        ensures { Counts self result (v.now ∷ []) }
    {
        Tally {
            rows: self.rows.saturating_add(1),
            sum: with_sizes(self.sum, v),
        }
    }
}

// The sum with the sizes of these entries, modulo 2^64.
fn with_sizes(sum: u64, v: &[Num]) -> u64
    ensures { result ≡ (sum + entries_size v.now) % 2 ^ 64 }
{
    let mut sum = sum;
    for x in v {
        sum = sum.wrapping_add(low_word(x.size()));
    }
    sum
}

// The size modulo 2^64.
fn low_word(size: u128) -> u64
    ensures { result ≡ size % 2 ^ 64 }
{
    (size % 0x1_0000_0000_0000_0000) as u64
}
