//! The example of each family at 2, with the rows written by hand.
use super::*;
use poly_model::{Kind, OutOfMemory, Poly};
use std::alloc::Global;
use std::test::Fail;

/// A family, and the kind, the width and the numbers of its example at 2, row by row.
#[derive(Clone, Copy)]
struct Case {
    kind: ExampleKind,
    file: Kind,
    width: u32,
    numbers: &'static [i128],
}

const CASES: [Case; 4] = [
    Case {
        kind: ExampleKind::Cube,
        file: Kind::H,
        width: 3,
        numbers: &[0, 1, 0, 0, 0, 1, 1, -1, 0, 1, 0, -1],
    },
    Case {
        kind: ExampleKind::Cross,
        file: Kind::V,
        width: 3,
        numbers: &[1, 1, 0, 1, 0, 1, 1, -1, 0, 1, 0, -1],
    },
    Case {
        kind: ExampleKind::Product,
        file: Kind::H,
        width: 5,
        numbers: &[
            0, 1, 0, 0, 0, 0, 0, 1, 0, 0, 0, 0, 0, 1, 0, 0, 0, 0, 0, 1, 1, -1, -1, 0, 0, 1, 0, 0,
            -1, -1,
        ],
    },
    Case {
        kind: ExampleKind::Pyramid,
        file: Kind::H,
        width: 4,
        numbers: &[
            0, 0, 0, 1, 1, -1, 0, -1, 1, 1, 0, -1, 1, 0, -1, -1, 1, 0, 1, -1,
        ],
    },
];

/// The numbers of the rows that are not linear.
fn numbers_of(alloc: Global, poly: &Poly) -> Result<Vec<i128>, OutOfMemory> {
    let mut numbers = Vec::new(alloc);
    for i in 1..poly.rows() + 1 {
        if poly.is_linear(i) {
            continue;
        }
        for x in poly.row(i) {
            numbers.push(x.get())?;
        }
    }
    Ok(numbers)
}

#[test]
fn makes_each_family_at_two(rt: HostRuntime) -> Result<(), Fail> {
    let alloc = rt.alloc();
    for case in CASES {
        let poly = example(alloc, case.kind, 2)?;
        let found = (poly.kind(), poly.n(), numbers_of(alloc, &poly)?);
        let want = (case.file, case.width, Vec::from_slice(alloc, case.numbers)?);
        assert_eq!(rt; found, want, "{:?}", case.kind);
    }
    Ok(())
}
