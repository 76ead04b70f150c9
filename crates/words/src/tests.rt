//! Each public function once, with values worked out by hand.
ghost use Rattle.std.specs.Prelude.{◌<ℤ◌, pos};

use crate::{Limits, Word, WordDivisor, limit_of, product, wide_cross};
use poly_num::Num;

fn word(value: i128) -> Word {
    Word::of(Num::new(value).unwrap_or(Num::ZERO)).unwrap_or(Word::ZERO)
}

fn positive(value: i128) -> Word
    ensures { pos 0 <ℤ result }
{
    let found = word(value);
    if found.wide().is_positive() {
        found
    } else {
        Word::ONE
    }
}

// The quotient of a column of one cell whose limits are the sizes of `a` and `c`.
fn quotient_in_words(divisor: &WordDivisor, a: Word, p: Word, c: Word, b: Word) -> Option<i128> {
    let limits = Limits {
        a: limit_of(&[a], 0, 1),
        c: limit_of(&[c], 0, 1),
    };
    let cross = divisor.word_cross(p, b, limits)?;
    let mut new = [Word::ZERO];
    let limit = cross.write(&[a], &[c], &mut new, 0)?;
    let found = new[0].wide().get();
    if limit as u128 == found.unsigned_abs() {
        Some(found)
    } else {
        None
    }
}

// The same where all is small.
fn small_quotient(divisor: &WordDivisor, a: Word, p: Word, c: Word, b: Word) -> Option<i128> {
    if !a.is_small() || !c.is_small() {
        return None;
    }
    let cross = divisor.small_cross(p, b)?;
    let mut new = [Word::ZERO];
    if cross.write(&[a], &[c], &mut new, 0) {
        value_of(Some(new[0]))
    } else {
        None
    }
}

fn value_of(a: Option<Word>) -> Option<i128> {
    Some(a?.wide().get())
}

#[test]
fn products(rt: HostRuntime) {
    let high = 1 << 62;
    let table = [(3, -4, Some(-12)), (high, -1, Some(-high)), (high, 2, None)];
    for (a, b, want) in table {
        assert_eq!(rt; value_of(product(word(a), word(b))), want, "{a} * {b}");
    }
    let most = (1 << 63) - 1;
    let found = wide_cross(word(most), word(most), word(most), word(-most)).get();
    assert_eq!(rt; found, 170141183460469231694793815568465002498);
}

#[test]
fn exact_quotients(rt: HostRuntime) {
    let table = [
        // (5 * 6 - 2 * 3) / 12, and the same over 5
        (5, 6, 2, 3, 12, Some(2)),
        (5, 6, 2, 3, 5, None),
        // (2^40 * 2^41 - 0) / 2^31 is 2^50, which is no half
        (1 << 40, 1 << 41, 0, 0, 1 << 31, Some(1 << 50)),
        // 2^81 / 2 is no word
        (1 << 40, 1 << 41, 0, 0, 2, None),
    ];
    for (a, p, c, b, d, want) in table {
        let divisor = WordDivisor::new(positive(d));
        let found = divisor.exact_cross(word(a), word(p), word(c), word(b));
        assert_eq!(rt; value_of(found), want, "over {d}");
    }
}

#[test]
fn exact_quotients_of_words(rt: HostRuntime) {
    let table = [
        (-36, 12, Some(-3)),
        (0, 12, Some(0)),
        (18, 12, None),
        (-(1 << 62), 1, Some(-(1 << 62))),
    ];
    for (a, d, want) in table {
        let found = WordDivisor::new(positive(d)).exact(word(a));
        assert_eq!(rt; value_of(found), want, "{a} over {d}");
    }
    assert_eq!(rt; word(-7).negated().wide().get(), 7);
}

#[test]
fn exact_quotients_of_columns_in_words(rt: HostRuntime) {
    let most = (1 << 63) - 1;
    let table = [
        (5, 6, 2, 3, 12, Some(2)),
        (5, 6, 2, 3, 1, Some(24)),
        (-5, 6, 2, 3, 12, Some(-3)),
        // 24 has neither a divisor 5 nor 16
        (5, 6, 2, 3, 5, None),
        (5, 6, 2, 3, 16, None),
        // one side at the limit, and the sum of both just beyond it
        (most, 1, 0, 1, 1, Some(most)),
        (-most, 1, 0, 1, most, Some(-1)),
        (most, 1, 1, 1, 1, None),
        (1 << 31, 1 << 31, (1 << 62) - 1, 1, 1, Some(1)),
        (1 << 31, 1 << 31, -(1 << 62), 1, 1, None),
        // a product whose low word alone looks right
        (1 << 40, 1 << 41, 0, 0, 2, None),
        // a divisor with more twos than are taken
        (1 << 40, 1, 0, 0, 1 << 31, None),
        (1 << 40, 1, 0, 0, 1 << 30, Some(1 << 10)),
    ];
    for (a, p, c, b, d, want) in table {
        let divisor = WordDivisor::new(positive(d));
        assert_eq!(rt;
            quotient_in_words(&divisor, word(a), word(p), word(c), word(b)),
            want,
            "{a} * {p} - {c} * {b} over {d}"
        );
    }
}

#[test]
fn limits(rt: HostRuntime) {
    let words = [word(-9), word(4), word(-3), word(0)];
    let table = [(0, 4, 15), (1, 2, 7), (3, 1, 0), (4, 0, 0)];
    for (base, count, want) in table {
        assert_eq!(rt;
            limit_of(&words, base, count),
            want,
            "{count} from {base} on"
        );
    }
}

#[test]
fn exact_quotients_of_small_words(rt: HostRuntime) {
    let most = (1 << 14) - 1;
    let table = [
        (5, 6, 2, 3, 12, Some(2)),
        (5, 6, 2, 3, 1, Some(24)),
        // 24 has neither a divisor 5 nor 16
        (5, 6, 2, 3, 5, None),
        (5, 6, 2, 3, 16, None),
        // -most^2 - most^2 + most over most is too large, and the half of it is not
        (-most, most, most, most - 1, most, None),
        (-most, 8191, most, 8190, most, Some(-16381)),
        // at the limit, and a quotient just too large
        (most, 2, 1, most, 1, Some(most)),
        (most, 2, 1, most - 1, 1, None),
        (-most, 2, -1, most - 1, 1, None),
        (128, 128, 0, 0, 2, Some(1 << 13)),
        (128, 128, 0, 0, 1, None),
        // a cell, a factor and a divisor that are just too large
        (most + 1, 0, 0, 0, 1, None),
        (0, most + 1, 0, 0, 1, None),
        (0, 0, 0, most + 1, 1, None),
        (0, 0, 0, 0, most + 1, None),
    ];
    for (a, p, c, b, d, want) in table {
        let divisor = WordDivisor::new(positive(d));
        assert_eq!(rt;
            small_quotient(&divisor, word(a), word(p), word(c), word(b)),
            want,
            "{a} * {p} - {c} * {b} over {d}"
        );
    }
}
