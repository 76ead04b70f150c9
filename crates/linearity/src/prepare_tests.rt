//! What is prepared from files that can be worked out by hand.
ghost use Rattle.std.specs.Prelude.{◌≡◌, ◌<◌};

use crate::{PrepareStop, Prepared, prepare};
use hull_lift::system_of;
use poly_model::{Key, Kind, Lines, OutOfMemory};
use std::alloc::Global;
use std::test::Fail;
use test_polys::poly_of;

/// A file, its rows one after the other, and what is prepared from it: how that ends, the labels of the start cobasis,
/// the free columns, and the lines one after the other.
#[derive(Clone, Copy)]
struct Case {
    name: &'static str,
    kind: Kind,
    n: u32,
    entries: &'static [i128],
    linear: &'static [bool],
    end: End,
    start: &'static [u16],
    free: &'static [u32],
    lines: &'static [i128],
}

#[derive(Clone, Copy, PartialEq, Eq, Debug)]
enum End {
    Prepared,
    Inconsistent,
    Overflow,
}

#[derive(PartialEq, Eq, Debug, Drop)]
struct Answer {
    end: End,
    start: Vec<u16>,
    free: Vec<u32>,
    lines: Vec<i128>,
}

const LARGE: i128 = 1 << 64;

const SPACE: Case = Case {
    name: "no inequality: two lines",
    kind: Kind::H,
    n: 3,
    entries: &[],
    linear: &[],
    end: End::Prepared,
    start: &[],
    free: &[1, 2],
    lines: &[0, 1, 0, 0, 0, 1],
};

const POINTS: Case = Case {
    name: "two points: the facets are known up to one equation",
    kind: Kind::V,
    n: 3,
    entries: &[1, 0, 0, 1, 1, 1],
    linear: &[false, false],
    end: End::Prepared,
    start: &[1, 2],
    free: &[2],
    lines: &[0, -1, 1],
};

const NOWHERE: Case = Case {
    name: "x = 1 and 2 x = 2, but 2 x = 4",
    kind: Kind::H,
    n: 2,
    entries: &[-1, 1, -2, 2, -4, 2],
    linear: &[true, true, true],
    end: End::Inconsistent,
    start: &[],
    free: &[],
    lines: &[],
};

const CASES: [Case; 23] = [
    SPACE,
    Case {
        name: "a square",
        entries: &[0, 1, 0, 0, 0, 1, 1, -1, 0, 1, 0, -1],
        linear: &[false, false, false, false],
        start: &[1, 2],
        free: &[],
        lines: &[],
        ..SPACE
    },
    Case {
        name: "a half plane",
        entries: &[0, 1, 0],
        linear: &[false],
        start: &[1],
        free: &[2],
        lines: &[0, 0, 1],
        ..SPACE
    },
    Case {
        name: "2 x >= 4 y: the line is divided by 2",
        entries: &[0, 2, -4],
        linear: &[false],
        start: &[1],
        free: &[2],
        lines: &[0, 2, 1],
        ..SPACE
    },
    Case {
        name: "a segment on the line x + y = 1",
        entries: &[-1, 1, 1, 0, 1, 0, 0, 0, 1],
        linear: &[true, false, false],
        start: &[2],
        free: &[],
        lines: &[],
        ..SPACE
    },
    Case {
        name: "the same, with the equation behind",
        entries: &[0, 1, 0, 0, 0, 1, -1, 1, 1],
        linear: &[false, false, true],
        start: &[1],
        free: &[],
        lines: &[],
        ..SPACE
    },
    Case {
        name: "the line x = y",
        entries: &[0, 1, -1],
        linear: &[true],
        start: &[],
        free: &[2],
        lines: &[0, 1, 1],
        ..SPACE
    },
    Case {
        name: "the same twice, and 3 x + 7 >= 0",
        entries: &[0, 1, -1, 0, -2, 2, 7, 3, 0],
        linear: &[true, true, false],
        start: &[3],
        free: &[],
        lines: &[],
        ..SPACE
    },
    Case {
        name: "-3 >= 0 and 1 >= 0: no equation says no",
        entries: &[-3, 0, 0, 1, 0, 0],
        linear: &[false, false],
        ..SPACE
    },
    Case {
        name: "x and y of no column, then z >= 0",
        n: 4,
        entries: &[0, 0, 0, 1],
        linear: &[false],
        start: &[1],
        free: &[1, 2],
        lines: &[0, 1, 0, 0, 0, 0, 1, 0],
        ..SPACE
    },
    Case {
        name: "0 = 0",
        n: 2,
        entries: &[0, 0],
        linear: &[true],
        free: &[1],
        lines: &[0, 1],
        ..SPACE
    },
    Case {
        name: "the point of no coordinates, by no inequality",
        n: 1,
        free: &[],
        lines: &[],
        ..SPACE
    },
    NOWHERE,
    Case {
        name: "x = 1 and 2 x = 1",
        entries: &[-1, 1, -2, 1],
        linear: &[true, true],
        ..NOWHERE
    },
    Case {
        name: "5 = 0",
        n: 1,
        entries: &[5],
        linear: &[true],
        ..NOWHERE
    },
    Case {
        name: "5 = 0 before rows whose pivot passes",
        n: 3,
        entries: &[5, 0, 0, 0, LARGE, 1, 0, 1, LARGE],
        linear: &[true, false, false],
        ..NOWHERE
    },
    Case {
        name: "5 = 0 behind equations whose pivot passes",
        n: 3,
        entries: &[0, LARGE, 1, 0, 1, LARGE, 5, 0, 0],
        linear: &[true, true, true],
        end: End::Overflow,
        ..NOWHERE
    },
    Case {
        name: "a pivot passes",
        n: 3,
        entries: &[0, LARGE, 1, 0, 1, LARGE],
        linear: &[false, false],
        end: End::Overflow,
        ..NOWHERE
    },
    POINTS,
    Case {
        name: "a point and a line",
        entries: &[1, 0, 0, 0, 0, 1],
        linear: &[false, true],
        start: &[1],
        free: &[1],
        lines: &[0, 1, 0],
        ..POINTS
    },
    Case {
        name: "a ray: the origin is added behind it",
        entries: &[0, 1, 0],
        linear: &[false],
        start: &[1, 2],
        free: &[2],
        lines: &[0, 0, 1],
        ..POINTS
    },
    Case {
        name: "a line through the point 1/2, whose row is 2 1",
        entries: &[2, 1, 0, 0, 0, 1],
        linear: &[false, true],
        start: &[1],
        free: &[1],
        lines: &[-1, 2, 0],
        ..POINTS
    },
    Case {
        name: "the point of no coordinates, as a point",
        n: 1,
        entries: &[1],
        linear: &[false],
        start: &[1],
        free: &[],
        lines: &[],
        ..POINTS
    },
];

#[test]
fn prepares_a_search(rt: HostRuntime) -> Result<(), Fail> {
    let alloc = rt.alloc();
    for case in CASES {
        let want = Answer {
            end: case.end,
            start: Vec::from_slice(alloc, case.start)?,
            free: Vec::from_slice(alloc, case.free)?,
            lines: Vec::from_slice(alloc, case.lines)?,
        };
        assert_eq!(rt; answer_to(alloc, case)?, want, "{}", case.name);
    }
    Ok(())
}

fn answer_to(alloc: Global, case: Case) -> Result<Answer, Fail> {
    let poly = poly_of(alloc, case.kind, case.n, case.entries, case.linear)?;
    let cone = system_of(alloc, &poly)?;
    match prepare(alloc, &cone) {
        Ok(prepared) => Ok(answer_of(alloc, prepared)?),
        Err(PrepareStop::Inconsistent) => Ok(stopped(alloc, End::Inconsistent)),
        Err(PrepareStop::Overflow(_)) => Ok(stopped(alloc, End::Overflow)),
        Err(PrepareStop::Memory) => Err("memory")?,
    }
}

fn answer_of(alloc: Global, prepared: Prepared) -> Result<Answer, OutOfMemory> {
    let start = numbers_of(alloc, prepared.start())?;
    let free = Vec::from_slice(alloc, prepared.free().as_slice())?;
    let (lines, _, _) = prepared.into_parts();
    Ok(Answer {
        end: End::Prepared,
        start,
        free,
        lines: entries_of(alloc, &lines)?,
    })
}

/// The rows of a start cobasis.
fn numbers_of(alloc: Global, start: Key) -> Result<Vec<u16>, OutOfMemory> {
    let mut numbers = Vec::new(alloc);
    for label in start.labels() {
        numbers.push(label.number())?;
    }
    Ok(numbers)
}

fn stopped(alloc: Global, end: End) -> Answer {
    Answer {
        end,
        start: Vec::new(alloc),
        free: Vec::new(alloc),
        lines: Vec::new(alloc),
    }
}

fn entries_of(alloc: Global, lines: &Lines) -> Result<Vec<i128>, OutOfMemory> {
    let mut entries = Vec::new(alloc);
    for line in lines.as_slice() {
        for x in line.as_slice() {
            entries.push(x.get())?;
        }
    }
    Ok(entries)
}
