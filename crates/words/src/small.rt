//! Exact division of a whole column where all numbers are small: products take half a machine word, and what makes a
//! quotient right is looked at once for all of them.
ghost use Rattle.std.specs.Int.{w32, int_wrap, cast_unsigned};
ghost use Rattle.std.specs.List.{slice_index_or};
ghost use Rattle.std.specs.Option.{IfSome};
ghost use Rattle.std.specs.Prelude.{◌≡◌, ℕ, ◌<◌, ◌≤◌, ◌+◌, ◌-◌, ◌^◌, ◌%◌, ◌*ℤ◌, ◌-ℤ◌, pos, IsTrue, length, unsigned_abs};
ghost use Rattle.words.specs.Crosses.{IsCrossOf, IsQuotient, AreQuotients};
ghost use Rattle.words.specs.Small.{IsSmall, AreSmallTo, AreSmallFrom, AreGood};

use crate::divisor::WordDivisor;
use crate::word::Word;
use std::marker::Model;

/// `a p - c b` over a divisor for many `a` and `c`, where all of it is small. As in words (`WordCross`) two products give
/// the quotient times the divisor's twos, here modulo 2^32. What would stop a loop is gathered by `or` and looked at behind
/// it, so that a compiler makes vectors of it (H. S. Warren, "Hacker's Delight", 2012, has such tests without branches).
#[derive(Drop)]
pub struct SmallCross {
    p: i32,
    b: i32,
    divisor: i32,
    odd: i32,
    twos: u32,
    // p and b times the inverse
    times_p: i32,
    times_b: i32,
}

impl Model for SmallCross {
    ghost use Rattle.std.specs.Int.{w32};
    ghost use Rattle.words.specs.Crosses.{Cross, IsInverted};
    ghost use Rattle.words.specs.Small.{AreSmallFactors};

    ghost Value = { Cross };

    ghost view = { λ s. record { p = s.p; b = s.b; divisor = s.divisor; twos = s.twos } };

    ghost invariant = { λ s. IsInverted w32 s.p s.b s.divisor s.odd s.twos s.times_p s.times_b
        × AreSmallFactors s.p s.b s.divisor };
}

// A quotient times the divisor's twos, and the quotient, where both are right.
#[derive(Clone, Copy)]
struct Taken {
    multiple: i32,
    quotient: i32,
}

impl SmallCross {
    /// Writes `a p - c b` over the divisor for all numbers `c` of `own`; `a` is read and the quotient is written as
    /// many places behind `base`. Whether each is right and small; else what is written there says nothing.
    #[inline(never)]
    pub fn write(&self, cells: &[Word], own: &[Word], new: &mut [Word], base: usize) -> bool
        requires cells { base + length own.now ≤ length cells.now }
        requires room { base + length own.now ≤ length new.old }
        requires small_cells { AreSmallFrom base (length own.now) cells.now }
        requires small_own { AreSmallTo (length own.now) own.now }
        ensures written { IsTrue result → AreQuotients self.now cells.now own.now base (length own.now) new.new }
        ensures small { IsTrue result → AreSmallFrom base (length own.now) new.new }
        ensures same_length { length new.new ≡ length new.old }
        ensures kept { (k : ℕ) → k < base → slice_index_or new.new k (pos 0) ≡ slice_index_or new.old k (pos 0) }
    {
        let by = self.copied();
        let mut sizes = 0;
        let mut low = 0;
        // new(base + i) = (cells(base + i) p - own(i) b) / divisor
        'cells: for i in 0..own.len() {
            let taken = by.taken(small_at(cells, base + i), small_at(own, i));
            low = with_bits(low, taken.multiple);
            sizes = with_size(sizes, taken.quotient);
            new[base + i] = word_of(taken.quotient);
        }
        are_good(sizes, low, by.twos)
    }

    // The same, so that a loop can keep its parts in registers.
    #[inline(always)]
    fn copied(&self) -> SmallCross
        ensures { result ≡ self.now }
    {
        SmallCross {
            p: self.p,
            b: self.b,
            divisor: self.divisor,
            odd: self.odd,
            twos: self.twos,
            times_p: self.times_p,
            times_b: self.times_b,
        }
    }

    // `a p - c b` over the divisor, where the multiple has the divisor's twos and the quotient is small.
    #[inline(always)]
    fn taken(&self, a: i32, c: i32) -> Taken
        requires a { IsSmall a }
        requires c { IsSmall c }
        ensures { cast_unsigned w32 result.multiple % 2 ^ self.now.twos ≡ 0 → IsSmall result.quotient →
            IsQuotient self.now a c result.quotient }
    {
        let multiple = low_difference(low_product(a, self.times_p), low_product(c, self.times_b));
        Taken {
            multiple,
            quotient: without_twos(multiple, self.twos),
        }
    }
}

// The small word at a place.
#[inline(always)]
fn small_at(words: &[Word], place: usize) -> i32
    requires within { place < length words.now }
    requires small { IsSmall (slice_index_or words.now place (pos 0)) }
    ensures { result ≡ slice_index_or words.now place (pos 0) }
{
    let word = words[place];
    word.value as i32
}

// The word of this value.
#[inline(always)]
fn word_of(value: i32) -> Word
    ensures { result ≡ value }
{
    Word {
        value: value as i64,
    }
}

// The low half of `a b`.
#[inline(always)]
fn low_product(a: i32, b: i32) -> i32
    ensures { result ≡ int_wrap w32 (a *ℤ b) }
{
    a.wrapping_mul(b)
}

// The low half of `a - b`.
#[inline(always)]
fn low_difference(a: i32, b: i32) -> i32
    ensures { result ≡ int_wrap w32 (a -ℤ b) }
{
    a.wrapping_sub(b)
}

// The number over so many twos, where it has them.
#[inline(always)]
fn without_twos(n: i32, twos: u32) -> i32
    requires { twos < 31 }
    ensures { cast_unsigned w32 n % 2 ^ twos ≡ 0 → result *ℤ pos (2 ^ twos) ≡ n }
{
    n >> twos
}

// The bits of the sizes of many numbers, and of one more.
#[inline(always)]
fn with_size(sizes: u32, q: i32) -> u32
    ensures before { sizes ≤ result }
    ensures size { unsigned_abs q ≤ result }
{
    sizes | q.unsigned_abs()
}

// The bits of many numbers, and of one more.
#[inline(always)]
fn with_bits(low: u32, n: i32) -> u32
    ensures before { (k : ℕ) → result % 2 ^ k ≡ 0 → low % 2 ^ k ≡ 0 }
    ensures bits { (k : ℕ) → result % 2 ^ k ≡ 0 → cast_unsigned w32 n % 2 ^ k ≡ 0 }
{
    low | n.cast_unsigned()
}

// Whether all sizes are small, and so many twos are in each number.
fn are_good(sizes: u32, low: u32, twos: u32) -> bool
    requires { twos < 31 }
    ensures { IsTrue result → AreGood sizes low twos }
{
    sizes < 1 << 14 && low & ((1 << twos) - 1) == 0
}

impl WordDivisor {
    /// What takes `a p - c b` over the divisor, where all that it takes is small; `None` says nothing.
    #[inline(always)]
    pub fn small_cross(&self, p: Word, b: Word) -> Option<SmallCross>
        ensures { IfSome result (λ h. IsCrossOf h p b self.now) }
    {
        let divisor = small_number(self.value)?;
        let p = small_number(p.value)?;
        let b = small_number(b.value)?;
        let twos = self.twos;
        if twos >= 31 {
            return None;
        }
        let odd = divisor >> twos;
        let inverse = low_half(self.inverse);
        let times_p = low_product(p, inverse);
        let times_b = low_product(b, inverse);
        if low_product(odd, times_p) != p || low_product(odd, times_b) != b {
            return None;
        }
        if with_twos(odd, twos) != divisor {
            return None;
        }
        Some(SmallCross {
            p,
            b,
            divisor,
            odd,
            twos,
            times_p,
            times_b,
        })
    }
}

// The number in half a machine word, where it is small.
#[inline(always)]
fn small_number(n: i64) -> Option<i32>
    ensures { IfSome result (λ z. (z ≡ n) × IsSmall z) }
{
    if n.unsigned_abs() < 1 << 14 {
        Some(n as i32)
    } else {
        None
    }
}

// The low half of the bits.
#[inline(always)]
fn low_half(n: i64) -> i32 {
    ((n.cast_unsigned() & u32::MAX as u64) as u32).cast_signed()
}

// The low half of the number times so many twos.
fn with_twos(odd: i32, twos: u32) -> i32
    requires { twos < 31 }
    ensures { result ≡ int_wrap w32 (odd *ℤ pos (2 ^ twos)) }
{
    odd << twos
}
