//! Each type once, on values written by hand.
ghost use Rattle.std.specs.Prelude.{◌≡◌, IfOk, length};

use crate::{Key, Keys, Kind, Label, Lines, Poly, Root, RowKind, Rows, System, Vector};
use poly_num::Num;
use std::alloc::{AllocError, Global};
use std::test::Fail;

/// Six numbers: three rows of two, or two of three.
fn numbers(alloc: Global) -> Result<Vec<Num>, AllocError>
    ensures { IfOk result (λ v. length v.items ≡ 6) }
{
    Vec::from_slice(
        alloc,
        &[
            Num::ZERO,
            Num::ONE,
            Num::ZERO,
            Num::ONE,
            Num::ONE,
            Num::ZERO,
        ],
    )
}

/// The numbers of a key's labels.
fn numbers_of(alloc: Global, key: Key) -> Result<Vec<u16>, AllocError> {
    let mut numbers = Vec::new(alloc);
    for label in key.labels() {
        numbers.push(label.number())?;
    }
    Ok(numbers)
}

/// A key that was found, and the numbers that its labels are to have.
#[derive(Clone, Copy)]
struct KeyCase {
    name: &'static str,
    found: Key,
    want: &'static [u16],
}

#[test]
fn keys_gain_and_lose_labels(rt: HostRuntime) -> Result<(), Fail> {
    let alloc = rt.alloc();
    let (second, fifth, ninth) = (Label::row(2), Label::row(5), Label::row(9));
    let key = Key::from_ascending(&[second, fifth, ninth]).ok_or("ascending")?;
    let cases = [
        KeyCase {
            name: "three labels",
            found: key,
            want: &[2, 5, 9],
        },
        KeyCase {
            name: "a label is added",
            found: key.with(Label::row(7)),
            want: &[2, 5, 7, 9],
        },
        KeyCase {
            name: "a label is there",
            found: key.with(fifth),
            want: &[2, 5, 9],
        },
        KeyCase {
            name: "a label goes",
            found: key.without_at(1),
            want: &[2, 9],
        },
        KeyCase {
            name: "all labels go",
            found: key.without_at(0).without_at(0).without_at(0),
            want: &[],
        },
        KeyCase {
            name: "no label",
            found: Key::empty(),
            want: &[],
        },
        KeyCase {
            name: "a root",
            found: Root::new(key).key(),
            want: &[2, 5, 9],
        },
    ];
    for case in &cases {
        let want = Vec::from_slice(alloc, case.want)?;
        assert_eq!(rt; numbers_of(alloc, case.found)?, want, "{}", case.name);
    }
    Ok(())
}

/// What a method tells.
#[derive(Clone, Copy, PartialEq, Eq, Debug)]
enum Value {
    Number(u32),
    Truth(bool),
}

use Value::{Number, Truth};

#[test]
fn labels_and_keys_tell_what_they_are(rt: HostRuntime) -> Result<(), Fail> {
    let (second, zeroth) = (Label::row(2), Label::coordinate(0));
    let key = Key::from_ascending(&[second, Label::row(5)]).ok_or("ascending")?;
    let more = key.with(Label::row(7));
    let twice = Key::from_ascending(&[second, second]);
    let cases = [
        ("how many labels", Number(key.len() as u32), Number(2)),
        ("no label", Truth(Key::empty().is_empty()), Truth(true)),
        ("another key", Truth(key.is_same(&more)), Truth(false)),
        ("the same key", Truth(key == key.with(second)), Truth(true)),
        (
            "a key with labels",
            Truth(key == Key::empty()),
            Truth(false),
        ),
        ("a label twice", Truth(twice.is_some()), Truth(false)),
        ("row 2", Number(u32::from(second.number())), Number(2)),
        (
            "coordinate 2",
            Number(u32::from(Label::coordinate(2).number())),
            Number(8194),
        ),
        ("a row is a row", Truth(second.is_row()), Truth(true)),
        (
            "a row is no coordinate",
            Truth(second.is_coordinate()),
            Truth(false),
        ),
        (
            "coordinate 0 is one",
            Truth(zeroth.is_coordinate()),
            Truth(true),
        ),
        (
            "coordinate 0 is no row",
            Truth(zeroth.is_row()),
            Truth(false),
        ),
        (
            "which coordinate",
            Number(Label::coordinate(7).coordinate_index()),
            Number(7),
        ),
    ];
    for (name, found, want) in cases {
        assert_eq!(rt; found, want, "{name}");
    }
    Ok(())
}

#[test]
fn a_key_exchanges_its_middle_label(rt: HostRuntime) -> Result<(), Fail> {
    let (second, fifth, ninth) = (Label::row(2), Label::row(5), Label::row(9));
    let key = Key::from_ascending(&[second, fifth, ninth]).ok_or("ascending")?;
    let (first, seventh) = (Label::row(1), Label::row(7));
    let coordinate = Label::coordinate(0);
    let cases = [
        (first, Key::from_ascending(&[first, second, ninth])),
        (seventh, Key::from_ascending(&[second, seventh, ninth])),
        (
            coordinate,
            Key::from_ascending(&[second, ninth, coordinate]),
        ),
        (fifth, Some(key)),
        (ninth, Key::from_ascending(&[second, ninth])),
    ];
    for (label, wanted) in &cases {
        let mut exchanged = key;
        exchanged.exchange_at(1, *label);
        assert_eq!(rt; Some(exchanged), *wanted);
    }
    Ok(())
}

#[test]
fn polyhedra_give_their_rows(rt: HostRuntime) -> Result<(), Fail> {
    let alloc = rt.alloc();
    let marks = Vec::from_slice(alloc, &[false, true])?;
    let text = Vec::from_slice(alloc, b"text")?;
    let poly = Poly::new(Kind::V, 3, numbers(alloc)?, marks, text).with_nonnegative(true);
    if poly.rows() != 2 {
        return Err("two rows")?;
    }
    let found = (
        (poly.kind(), poly.n(), poly.row(2)),
        [poly.is_linear(1), poly.is_linear(2), poly.nonnegative()],
        poly.text(),
    );
    let row = [Num::ONE, Num::ONE, Num::ZERO];
    let want = (
        (Kind::V, 3, row.as_slice()),
        [false, true, true],
        b"text".as_slice(),
    );
    assert_eq!(rt; found, want);
    Ok(())
}

#[test]
fn cones_give_their_rows(rt: HostRuntime) -> Result<(), Fail> {
    let alloc = rt.alloc();
    let marks = Vec::from_slice(alloc, &[true, false, false])?;
    let kinds = Vec::from_slice(alloc, &[RowKind::Ray, RowKind::Point, RowKind::Ray])?;
    let cone = System::new(Kind::V, 2, numbers(alloc)?, marks, kinds);
    if cone.rows() != 3 {
        return Err("three rows")?;
    }
    let found = (
        (cone.kind(), cone.n(), cone.row(2)),
        [cone.is_linear(1), cone.is_linear(3)],
        [cone.is_point(1), cone.is_point(2)],
    );
    let row = [Num::ZERO, Num::ONE];
    let want = ((Kind::V, 2, row.as_slice()), [true, false], [false, true]);
    assert_eq!(rt; found, want);
    Ok(())
}

#[test]
fn lists_give_back_what_they_are_made_of(rt: HostRuntime) -> Result<(), Fail> {
    let alloc = rt.alloc();
    let vector = Vector::from_vec(numbers(alloc)?);
    let entries = vector.as_slice().len();
    let mut vectors = Vec::new(alloc);
    vectors.push(vector)?;
    let lines: Lines = Rows::from_vec(vectors);
    let rows = lines.as_slice().len();
    let mut given = 0;
    for vector in lines.into_vec() {
        given = vector.into_vec().len();
    }
    assert_eq!(rt; (entries, rows, given), (6, 1, 6));
    Ok(())
}

#[test]
fn keys_are_gone_through(rt: HostRuntime) -> Result<(), Fail> {
    let alloc = rt.alloc();
    let two = Key::from_ascending(&[Label::row(2), Label::row(5)]).ok_or("ascending")?;
    let one = Key::from_ascending(&[Label::row(9)]).ok_or("ascending")?;
    let mut keys = Keys::new(alloc);
    keys.push(&two)?;
    keys.push(&Key::empty())?;
    keys.push(&one)?;
    let mut found = Vec::new(alloc);
    let mut left = keys.left();
    for _ in 0..keys.len() {
        let (labels, behind) = left.next().ok_or("a key is left")?;
        found.push(Key::from_ascending(labels).ok_or("ascending")?)?;
        left = behind;
    }
    let want = [two, Key::empty(), one];
    assert_eq!(rt;
        (found.as_slice(), left.next().is_none()),
        (want.as_slice(), true)
    );
    Ok(())
}
