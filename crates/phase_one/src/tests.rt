//! Roots of files that can be worked out by hand.
ghost use Rattle.std.specs.Prelude.{◌≡◌, ◌<◌};

use crate::{FirstStop, Found, first};
use hull_lift::system_of;
use linearity::prepare;
use poly_model::{Kind, OutOfMemory};
use std::alloc::Global;
use std::test::Fail;
use test_polys::poly_of;

/// A file, its rows one after the other, and what phase one gives: how that ends; and where there is a root, its labels,
/// the denominator of its dictionary, the constants of the rows that are not linear, and the lines one after the other.
#[derive(Clone, Copy)]
struct Case {
    name: &'static str,
    kind: Kind,
    n: u32,
    entries: &'static [i128],
    linear: &'static [bool],
    end: End,
    root: &'static [u16],
    denominator: i128,
    constants: &'static [i128],
    lines: &'static [i128],
}

#[derive(Clone, Copy, PartialEq, Eq, Debug)]
enum End {
    Found,
    Infeasible,
    Overflow,
}

#[derive(PartialEq, Eq, Debug, Drop)]
struct Answer {
    end: End,
    root: Vec<u16>,
    denominator: i128,
    constants: Vec<i128>,
    lines: Vec<i128>,
}

/// `x >= 0`, `y >= 0`, `x <= 1`, `y <= 1`.
const SQUARE: Case = Case {
    name: "the square: no constant is negative at the start cobasis",
    kind: Kind::H,
    n: 3,
    entries: &[0, 1, 0, 0, 0, 1, 1, -1, 0, 1, 0, -1],
    linear: &[],
    end: End::Found,
    root: &[1, 2],
    denominator: 1,
    constants: &[0, 0, 1, 1],
    lines: &[],
};

/// What is answered where there is no root.
const NONE: Case = Case {
    end: End::Infeasible,
    root: &[],
    denominator: 0,
    constants: &[],
    ..SQUARE
};

const LARGE: i128 = 1 << 126;

const CASES: [Case; 10] = [
    SQUARE,
    Case {
        name: "the pyramid: row 3 depends on rows 1 and 2",
        n: 4,
        entries: &[
            0, 0, 0, 1, 1, -1, 0, -1, 1, 1, 0, -1, 1, 0, -1, -1, 1, 0, 1, -1,
        ],
        root: &[1, 2, 4],
        constants: &[0, 0, 2, 0, 2],
        ..SQUARE
    },
    Case {
        name: "x >= 0 and x >= 1: t comes, and goes in one step",
        n: 2,
        entries: &[0, 1, -1, 1],
        root: &[2],
        constants: &[1, 0],
        ..SQUARE
    },
    Case {
        name: "x >= 1 and x <= 0",
        n: 2,
        entries: &[-1, 1, 0, -1],
        ..NONE
    },
    Case {
        name: "no point: t is lowered in three steps, and stays positive",
        entries: &[-1, -2, -3, 2, 1, 0, -2, 0, 1, 1, 2, 1, 2, 2, -1],
        ..NONE
    },
    Case {
        name: "t is 0 after two steps, and comes back in the least column; the denominator is 2",
        entries: &[1, 0, 1, 1, -1, 3, 0, -2, 3, 0, -3, 1, 0, 1, -1],
        root: &[4, 5],
        denominator: 2,
        constants: &[2, 2, 0, 0, 0],
        ..SQUARE
    },
    Case {
        name: "two rows of least constant: the first takes the place of t",
        n: 2,
        entries: &[1, 2, 0, 0, 1, 3, 0, 1, 1, 1],
        root: &[4],
        constants: &[1, 0, 1, 0, 1],
        ..SQUARE
    },
    Case {
        name: "an equation and a line",
        n: 4,
        entries: &[-1, -2, -1, 0, -1, 0, -2, 0, -1, -2, 1, 0],
        linear: &[false, false, true],
        root: &[2],
        denominator: 4,
        constants: &[4, 0],
        lines: &[0, 0, 0, 1],
        ..SQUARE
    },
    Case {
        name: "a triangle by its points: all constants are 0",
        kind: Kind::V,
        entries: &[1, 0, 0, 1, 1, 0, 1, 0, 1],
        root: &[1, 2, 3],
        constants: &[0, 0, 0],
        ..SQUARE
    },
    Case {
        name: "the first exchange needs twice 2^126",
        n: 2,
        entries: &[0, 1, -1, LARGE, 1, -LARGE],
        end: End::Overflow,
        ..NONE
    },
];

#[test]
fn finds_the_root(rt: HostRuntime) -> Result<(), Fail> {
    let alloc = rt.alloc();
    for case in CASES {
        assert_eq!(rt;
            answer_to(alloc, case)?,
            wanted(alloc, case)?,
            "{}",
            case.name
        );
    }
    Ok(())
}

fn wanted(alloc: Global, case: Case) -> Result<Answer, OutOfMemory> {
    Ok(Answer {
        end: case.end,
        root: Vec::from_slice(alloc, case.root)?,
        denominator: case.denominator,
        constants: Vec::from_slice(alloc, case.constants)?,
        lines: Vec::from_slice(alloc, case.lines)?,
    })
}

fn answer_to(alloc: Global, case: Case) -> Result<Answer, Fail> {
    let poly = poly_of(alloc, case.kind, case.n, case.entries, case.linear)?;
    let cone = system_of(alloc, &poly)?;
    let Ok(prepared) = prepare(alloc, &cone) else {
        return Err("prepared")?;
    };
    match first(alloc, prepared) {
        Ok(found) => Ok(answer_of(alloc, &found)?),
        Err(FirstStop::Infeasible) => Ok(stopped(alloc, End::Infeasible)),
        Err(FirstStop::Overflow(_)) => Ok(stopped(alloc, End::Overflow)),
        Err(FirstStop::Memory) => Err("memory")?,
    }
}

fn answer_of(alloc: Global, found: &Found) -> Result<Answer, OutOfMemory> {
    let mut root = Vec::new(alloc);
    for label in found.root.key().labels() {
        root.push(label.number())?;
    }
    let mut lines = Vec::new(alloc);
    for line in found.lines.as_slice() {
        for x in line.as_slice() {
            lines.push(x.get())?;
        }
    }
    Ok(Answer {
        end: End::Found,
        root,
        denominator: found.dict.denominator().get(),
        constants: constants_of(alloc, found)?,
        lines,
    })
}

/// The constants of the rows of the root's dictionary, by ascending row.
fn constants_of(alloc: Global, found: &Found) -> Result<Vec<i128>, OutOfMemory> {
    let mut constants = Vec::new(alloc);
    for label in found.dict.labels() {
        if label.is_row() && found.dict.has_label(*label) {
            constants.push(found.dict.constant(*label).get())?;
        }
    }
    Ok(constants)
}

fn stopped(alloc: Global, end: End) -> Answer {
    Answer {
        end,
        root: Vec::new(alloc),
        denominator: 0,
        constants: Vec::new(alloc),
        lines: Vec::new(alloc),
    }
}
