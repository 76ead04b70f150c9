// Each public function once, with values that Python computed.
ghost use Rattle.std.specs.Prelude.{◌≡◌};
ghost use Rattle.poly_num.specs.Numbers.{IsNum};

use crate::{
    Divisor, Frac, Num, add, are_words, cmp_cross, cross, dot_sign, gcd, is_half, is_word,
    known_cross, known_product, lex_sign, mul, neg, negate, primitive, quotient, sign, sub,
    word_cross, word_product,
};
use std::cmp::Ordering::{self, Equal, Greater, Less};

/// What a function gives.
#[derive(Clone, Copy, PartialEq, Eq, Debug)]
enum Value {
    Nothing,
    Number(i128),
    Order(Ordering),
    Truth(bool),
}

use Value::{Nothing, Number, Order, Truth};

/// A value that was found, and the one that Python computed.
#[derive(Clone, Copy)]
struct Case {
    name: &'static str,
    found: Value,
    want: Value,
}

fn case_of(name: &'static str, found: Value, want: Value) -> Case {
    Case { name, found, want }
}

fn num(value: i128) -> Num
    ensures { IsNum value → result ≡ value }
{
    Num::new(value).unwrap_or(Num::ZERO)
}

fn number_of(a: Num) -> Value {
    Number(a.get())
}

fn number_if_any(a: Option<Num>) -> Value {
    match a {
        Some(a) => number_of(a),
        None => Nothing,
    }
}

fn order_if_any(a: Option<Ordering>) -> Value {
    match a {
        Some(a) => Order(a),
        None => Nothing,
    }
}

fn numerator(a: Option<Frac>) -> Option<Num> {
    Some(a?.num())
}

fn denominator(a: Option<Frac>) -> Option<Num> {
    Some(a?.den())
}

const MOST: i128 = i128::MAX;

fn products() -> [Case; 4] {
    let (a, b) = (num(1 << 64), num(MOST));
    [
        case_of(
            "2^64 * 2^62",
            number_if_any(mul(a, num(1 << 62))),
            Number(1 << 126),
        ),
        case_of(
            "2^64 * -2^63",
            number_if_any(mul(a, num(-(1 << 63)))),
            Nothing,
        ),
        case_of("most * -1", number_if_any(mul(b, num(-1))), Number(-MOST)),
        case_of("most * 2", number_if_any(mul(b, num(2))), Nothing),
    ]
}

fn differences() -> [Case; 4] {
    let wide = 170141183460469231722463931679029329920;
    let low = num(i64::MIN as i128);
    let high = num(i64::MAX as i128);
    let below = num(i64::MIN as i128 - 1);
    let above = num(i64::MAX as i128 + 1);
    [
        case_of(
            "low^2 - high low",
            number_if_any(cross(low, low, high, low)),
            Number(wide),
        ),
        case_of(
            "high low - low^2",
            number_if_any(cross(high, low, low, low)),
            Number(-wide),
        ),
        case_of(
            "(low - 1) low - high^2",
            number_if_any(cross(below, low, high, high)),
            Number(27670116110564327423),
        ),
        case_of(
            "low (high + 1) - low^2",
            number_if_any(cross(low, above, low, low)),
            Nothing,
        ),
    ]
}

fn quotients() -> [Case; 8] {
    let wide = 12 << 100;
    let twelve = Divisor::new(num(12));
    let three = Divisor::new(num(3));
    let half = three.exact_half(num(7), num(2), num(1), num(5));
    [
        case_of("the divisor", number_of(twelve.value()), Number(12)),
        case_of(
            "-144 / 12",
            number_if_any(twelve.exact(num(-144))),
            Number(-12),
        ),
        case_of("0 / 12", number_if_any(twelve.exact(num(0))), Number(0)),
        case_of("18 / 12", number_if_any(twelve.exact(num(18))), Nothing),
        case_of(
            "12 * 2^100 / 12",
            number_if_any(twelve.exact(num(wide))),
            Number(1 << 100),
        ),
        case_of(
            "(12 * 2^100 + 1) / 12",
            number_if_any(twelve.exact(num(wide + 1))),
            Nothing,
        ),
        case_of("(7 * 2 - 1 * 5) / 3", number_if_any(half), Number(3)),
        case_of(
            "-7 / 2, rounded",
            number_of(quotient(num(-7), num(2))),
            Number(-3),
        ),
    ]
}

fn words() -> [Case; 9] {
    let (two, three, four, five) = (num(2), num(3), num(4), num(5));
    let less = num(-3);
    [
        case_of("1 - 2^31", Truth(is_half(num(1 - (1 << 31)))), Truth(true)),
        case_of("2^31", Truth(is_half(num(1 << 31))), Truth(false)),
        case_of("1 - 2^63", Truth(is_word(num(1 - (1 << 63)))), Truth(true)),
        case_of("2^63", Truth(is_word(num(1 << 63))), Truth(false)),
        case_of("5 and -5", Truth(are_words(&[five, num(-5)])), Truth(true)),
        case_of(
            "words: -3 * 4",
            number_of(word_product(less, four)),
            Number(-12),
        ),
        case_of(
            "words: 2 * 3 - 4 * 5",
            number_of(word_cross(two, three, four, five)),
            Number(-14),
        ),
        case_of(
            "known: -3 * 4",
            number_of(known_product(less, four)),
            Number(-12),
        ),
        case_of(
            "known: 2 * 3 - 4 * 5",
            number_of(known_cross(two, three, four, five)),
            Number(-14),
        ),
    ]
}

fn sums_and_divisors() -> [Case; 9] {
    let fraction = Frac::new(num(84), num(-30));
    let same = Frac::new(num(84), num(-30));
    [
        case_of(
            "gcd of -84 and 30",
            number_of(gcd(num(-84), num(30))),
            Number(6),
        ),
        case_of(
            "84 / -30, above",
            number_if_any(numerator(fraction)),
            Number(-14),
        ),
        case_of(
            "84 / -30, below",
            number_if_any(denominator(same)),
            Number(5),
        ),
        case_of("most + 1", number_if_any(add(num(MOST), Num::ONE)), Nothing),
        case_of("-3 - 4", number_if_any(sub(num(-3), num(4))), Number(-7)),
        case_of(
            "the size of -5",
            Number(neg(num(5)).size() as i128),
            Number(5),
        ),
        case_of("-5", number_of(neg(num(5))), Number(-5)),
        case_of(
            "a sign and 9",
            number_of(Num::from_parts(true, 9)),
            Number(-9),
        ),
        case_of("the sign of -2", Order(sign(num(-2))), Order(Less)),
    ]
}

fn rows_and_orders() -> [Case; 7] {
    let (a, b, c) = (num(MOST), num(MOST - 1), num(MOST - 2));
    let mut row = [num(12), num(-18), num(0), num(30)];
    primitive(&mut row);
    negate(&mut row);
    let first = lex_sign(&[num(0), num(3), num(-1)]);
    let product = dot_sign(&[num(2), num(3), num(-2)], &[num(1), num(2), num(4)]);
    [
        case_of(
            "most / (most - 1) before the next",
            Order(cmp_cross(a, b, b, c)),
            Order(Less),
        ),
        case_of(
            "-(12 -18 0 30) / 6, its first",
            number_of(row[0]),
            Number(-2),
        ),
        case_of(
            "-(12 -18 0 30) / 6, its second",
            number_of(row[1]),
            Number(3),
        ),
        case_of(
            "-(12 -18 0 30) / 6, its third",
            number_of(row[2]),
            Number(0),
        ),
        case_of(
            "-(12 -18 0 30) / 6, its fourth",
            number_of(row[3]),
            Number(-5),
        ),
        case_of("the sign of 0 3 -1", Order(first), Order(Greater)),
        case_of("the sign of 2 + 6 - 8", order_if_any(product), Order(Equal)),
    ]
}

#[test]
fn known_values(rt: HostRuntime) {
    let products = products();
    let differences = differences();
    let quotients = quotients();
    let words = words();
    let sums_and_divisors = sums_and_divisors();
    let rows_and_orders = rows_and_orders();
    let tables = [
        products.as_slice(),
        &differences,
        &quotients,
        &words,
        &sums_and_divisors,
        &rows_and_orders,
    ];
    for table in tables {
        for case in table {
            assert_eq!(rt; case.found, case.want, "{}", case.name);
        }
    }
}
