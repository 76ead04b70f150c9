//! Exact division of a whole column where products and their differences fit a machine word.
ghost use Rattle.std.specs.Int.{w64, int_wrap, cast_unsigned};
ghost use Rattle.std.specs.List.{slice_index_or};
ghost use Rattle.std.specs.Option.{IfSome};
ghost use Rattle.std.specs.Prelude.{◌≡◌, ℕ, ◌<◌, ◌≤◌, ◌+◌, ◌*◌, ◌-◌, ◌^◌, ◌%◌, ◌*ℤ◌, ◌-ℤ◌, pos, IsTrue, length, unsigned_abs};
ghost use Rattle.words.specs.Crosses.{IsCrossOf, IsQuotient, AreQuotients};
ghost use Rattle.words.specs.Limits.{AreUpTo, AreInWord};

use crate::divisor::{WordDivisor, word};
use crate::limits::with_size;
use crate::word::Word;
use std::marker::Model;

/// What sizes do not pass: `a` that of each `a`, and `c` that of each `c`.
#[derive(Clone, Copy)]
pub struct Limits {
    pub a: u64,
    pub c: u64,
}

/// `a p - c b` over a divisor for many `a` and `c` up to their limits, where the difference fits a machine word. With the
/// inverse of the divisor's odd part modulo 2^64, `p` and `b` are multiplied once, so that two products give the quotient
/// times the divisor's twos. What makes them right is gathered by `or` and looked at behind a loop: where those twos are in
/// each product, and no quotient passes a word times the divisor, all quotients are right. Times the odd part each has the
/// same low word as `a p - c b`, and both fit a word.
#[derive(Drop)]
pub struct WordCross {
    p: i64,
    b: i64,
    divisor: i64,
    odd: i64,
    twos: u32,
    // p and b times the inverse
    times_p: i64,
    times_b: i64,
    limits: Limits,
}

impl Model for WordCross {
    ghost use Rattle.std.specs.Int.{w64};
    ghost use Rattle.words.specs.Crosses.{Cross, IsInverted};
    ghost use Rattle.words.specs.Limits.{LimitedCross, FitsWord};

    ghost Value = { LimitedCross };

    ghost view = { λ h. record { cross = record { p = h.p; b = h.b; divisor = h.divisor; twos = h.twos }; of_a = h.limits.a; of_c = h.limits.c } };

    ghost invariant = { λ h. IsInverted w64 h.p h.b h.divisor h.odd h.twos h.times_p h.times_b
        × FitsWord (record { cross = record { p = h.p; b = h.b; divisor = h.divisor; twos = h.twos }; of_a = h.limits.a; of_c = h.limits.c }) };
}

// A quotient times the divisor's twos, and the quotient, where both are right.
#[derive(Clone, Copy)]
struct Taken {
    multiple: i64,
    quotient: i64,
}

impl WordCross {
    /// Writes `a p - c b` over the divisor for all numbers `c` of `own`; `a` is read and the quotient is written as
    /// many places behind `base`. A limit that no size of a quotient passes; `None` where one is not right, and what is
    /// written there says nothing.
    #[inline(never)]
    pub fn write(&self, cells: &[Word], own: &[Word], new: &mut [Word], base: usize) -> Option<u64>
        requires cells { base + length own.now ≤ length cells.now }
        requires room { base + length own.now ≤ length new.old }
        requires limit_of_cells { AreUpTo self.now.of_a base (length own.now) cells.now }
        requires limit_of_own { AreUpTo self.now.of_c 0 (length own.now) own.now }
        ensures written { IfSome result (λ l. AreQuotients self.now.cross cells.now own.now base (length own.now) new.new) }
        ensures limit { IfSome result (λ l. AreUpTo l base (length own.now) new.new) }
        ensures same_length { length new.new ≡ length new.old }
        ensures kept { (k : ℕ) → k < base → slice_index_or new.new k (pos 0) ≡ slice_index_or new.old k (pos 0) }
    {
        let by = self.copied();
        let mut limit = 0;
        let mut low = 0;
        // new(base + i) = (cells(base + i) p - own(i) b) / divisor
        'cells: for i in 0..own.len() {
            let taken = by.taken(value_at(cells, base + i), value_at(own, i));
            low = with_bits(low, taken.multiple);
            limit = with_size(limit, taken.quotient);
            match word(taken.quotient) {
                Some(word) => new[base + i] = word,
                None => return None,
            }
        }
        if by.are_in_word(limit, low) {
            Some(limit)
        } else {
            None
        }
    }

    // The same, so that a loop can keep its parts in registers.
    #[inline(always)]
    fn copied(&self) -> WordCross
        ensures { result ≡ self.now }
    {
        WordCross {
            p: self.p,
            b: self.b,
            divisor: self.divisor,
            odd: self.odd,
            twos: self.twos,
            times_p: self.times_p,
            times_b: self.times_b,
            limits: self.limits,
        }
    }

    // `a p - c b` over the divisor, where the multiple has the divisor's twos and the quotient times the divisor fits.
    #[inline(always)]
    fn taken(&self, a: i64, c: i64) -> Taken
        requires a { unsigned_abs a ≤ self.now.of_a }
        requires c { unsigned_abs c ≤ self.now.of_c }
        ensures { cast_unsigned w64 result.multiple % 2 ^ self.now.cross.twos ≡ 0 →
            unsigned_abs result.quotient * unsigned_abs self.now.cross.divisor < 2 ^ 63 →
            IsQuotient self.now.cross a c result.quotient }
    {
        let multiple = low_difference(low_product(a, self.times_p), low_product(c, self.times_b));
        Taken {
            multiple,
            quotient: without_twos(multiple, self.twos),
        }
    }

    // Whether quotients up to the limit, with these bits in all multiples, are right.
    fn are_in_word(&self, limit: u64, low: u64) -> bool
        ensures { IsTrue result → AreInWord limit low self.now.cross.divisor self.now.cross.twos }
    {
        size_product(limit, self.divisor) < 1 << 63 && has_twos(low, self.twos)
    }
}

// The limit times the size of a number.
fn size_product(limit: u64, z: i64) -> u128
    ensures value { result ≡ limit * unsigned_abs z }
    ensures size { result ≤ (2 ^ 64 - 1) * 2 ^ 63 }
{
    limit as u128 * z.unsigned_abs() as u128
}

// Whether so many twos are in the number.
fn has_twos(low: u64, twos: u32) -> bool
    requires { twos < 31 }
    ensures { IsTrue result → low % 2 ^ twos ≡ 0 }
{
    low & ((1 << twos) - 1) == 0
}

// The number at a place.
#[inline(always)]
fn value_at(words: &[Word], place: usize) -> i64
    requires { place < length words.now }
    ensures { result ≡ slice_index_or words.now place (pos 0) }
{
    let word = words[place];
    word.value
}

// The low word of `a b`.
#[inline(always)]
fn low_product(a: i64, b: i64) -> i64
    ensures { result ≡ int_wrap w64 (a *ℤ b) }
{
    a.wrapping_mul(b)
}

// The low word of `a - b`.
#[inline(always)]
fn low_difference(a: i64, b: i64) -> i64
    ensures { result ≡ int_wrap w64 (a -ℤ b) }
{
    a.wrapping_sub(b)
}

// The number over so many twos, where it has them.
#[inline(always)]
fn without_twos(n: i64, twos: u32) -> i64
    requires { twos < 31 }
    ensures { cast_unsigned w64 n % 2 ^ twos ≡ 0 → result *ℤ pos (2 ^ twos) ≡ n }
{
    n >> twos
}

// The bits of many numbers, and of one more.
#[inline(always)]
fn with_bits(low: u64, n: i64) -> u64
    ensures before { (k : ℕ) → result % 2 ^ k ≡ 0 → low % 2 ^ k ≡ 0 }
    ensures bits { (k : ℕ) → result % 2 ^ k ≡ 0 → cast_unsigned w64 n % 2 ^ k ≡ 0 }
{
    low | n.cast_unsigned()
}

impl WordDivisor {
    /// What takes `a p - c b` over the divisor for `a` and `c` up to their limits, where the difference fits a machine
    /// word; `None` says nothing.
    #[inline(always)]
    pub fn word_cross(&self, p: Word, b: Word, limits: Limits) -> Option<WordCross>
        ensures cross { IfSome result (λ h. IsCrossOf h.cross p b self.now) }
        ensures limits { IfSome result (λ h. (h.of_a ≡ limits.a) × (h.of_c ≡ limits.c)) }
    {
        let twos = self.twos;
        if twos >= 31 || !is_in_word(limits, p.value, b.value) {
            return None;
        }
        let odd = self.value >> twos;
        let times_p = low_product(p.value, self.inverse);
        let times_b = low_product(b.value, self.inverse);
        if low_product(odd, times_p) != p.value || low_product(odd, times_b) != b.value {
            return None;
        }
        if with_twos(odd, twos) != self.value {
            return None;
        }
        Some(WordCross {
            p: p.value,
            b: b.value,
            divisor: self.value,
            odd,
            twos,
            times_p,
            times_b,
            limits,
        })
    }
}

// Whether `a p - c b` fits a word for all `a` and `c` up to their limits.
fn is_in_word(limits: Limits, p: i64, b: i64) -> bool
    ensures { IsTrue result → limits.a * unsigned_abs p + limits.c * unsigned_abs b < 2 ^ 63 }
{
    size_product(limits.a, p) + size_product(limits.c, b) < 1 << 63
}

// The low word of the number times so many twos.
fn with_twos(odd: i64, twos: u32) -> i64
    requires { twos < 31 }
    ensures { result ≡ int_wrap w64 (odd *ℤ pos (2 ^ twos)) }
{
    odd << twos
}
