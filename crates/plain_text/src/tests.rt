//! Known texts.
use crate::{next_digit, next_num, read_count, read_num, split_line, split_word};
use poly_num::Num;

#[test]
fn counts(rt: HostRuntime) {
    let cases = [
        ("0", Some(0)),
        ("7", Some(7)),
        ("10", Some(10)),
        ("18446744073709551615", Some(18_446_744_073_709_551_615)),
        ("18446744073709551616", None),
        ("", None),
        ("00", None),
        ("07", None),
        ("+7", None),
        ("7 ", None),
    ];
    for (text, count) in &cases {
        assert_eq!(rt; read_count(text.as_bytes()), *count, "{}", text);
    }
}

#[test]
fn numbers(rt: HostRuntime) {
    let cases = [
        ("0", Some(0)),
        ("-1", Some(-1)),
        ("-10", Some(-10)),
        (
            "170141183460469231731687303715884105727",
            Some(170_141_183_460_469_231_731_687_303_715_884_105_727),
        ),
        ("170141183460469231731687303715884105728", None),
        ("-170141183460469231731687303715884105728", None),
        ("-0", None),
        ("-", None),
        ("-01", None),
        ("1/2", None),
    ];
    for (text, number) in &cases {
        assert_eq!(rt;
            read_num(text.as_bytes()).map(Num::get),
            *number,
            "{}",
            text
        );
    }
}

// The number behind a blank, and what stands behind it.
fn front_of(text: &[u8]) -> Option<(i128, &[u8])> {
    let mut place = Num::ZERO;
    let rest = next_num(&mut place, text)?;
    Some((place.get(), rest))
}

// The same of a digit.
fn digit_of(text: &[u8]) -> Option<(i128, &[u8])> {
    let mut place = Num::ZERO;
    let rest = next_digit(&mut place, text)?;
    Some((place.get(), rest))
}

#[test]
fn fronts(rt: HostRuntime) {
    let cases = [
        (" 7", Some((7, ""))),
        (" 0 1", Some((0, " 1"))),
        (" -12  3", Some((-12, "  3"))),
        (
            " 576460752303423488 1",
            Some((576_460_752_303_423_488, " 1")),
        ),
        (
            " -170141183460469231731687303715884105727 0",
            Some((-170_141_183_460_469_231_731_687_303_715_884_105_727, " 0")),
        ),
        (" 170141183460469231731687303715884105728 0", None),
        ("7", None),
        ("  7", None),
        (" ", None),
        (" 07", None),
        (" -0", None),
        (" -01", None),
        (" 7/2", None),
        (" 7\t", None),
    ];
    for (text, front) in &cases {
        let front = front.map(|(number, rest)| (number, rest.as_bytes()));
        assert_eq!(rt; front_of(text.as_bytes()), front, "{}", text);
    }
    let cases = [
        (" 7", Some((7, ""))),
        (" 07", Some((0, "7"))),
        (" 1/2 ", Some((1, "/2 "))),
        (" -1", None),
        ("7", None),
        ("  7", None),
        (" ", None),
    ];
    for (text, digit) in &cases {
        let digit = digit.map(|(number, rest)| (number, rest.as_bytes()));
        assert_eq!(rt; digit_of(text.as_bytes()), digit, "{}", text);
    }
}

#[test]
fn cuts(rt: HostRuntime) {
    let cut = Some((b"a b".as_slice(), b"\nc".as_slice()));
    assert_eq!(rt; split_line(b"a b\n\nc"), cut);
    assert_eq!(rt; split_line(b"a b").is_none(), true);
    assert_eq!(rt; split_word(b"a  b"), (b"a".as_slice(), b"  b".as_slice()));
    assert_eq!(rt; split_word(b"a"), (b"a".as_slice(), b"".as_slice()));
}
