//! Polyhedra that can be drawn: whether they are feasible, and how many rows and lines their listings have.
use crate::{FeasibleStop, PlainStop, feasible_plain, list_feasible, list_plain};
use hull_lift::system_of;
use poly_io::MemSink;
use poly_model::{Kind, Phase, Poly, System};
use row_printer::ListStop;
use std::alloc::Global;
use std::test::Fail;
use test_polys::poly_of;

/// A file, its rows one after the other, the marks of its first rows that may be linear, and whether it is feasible, if
/// no number passes.
#[derive(Clone, Copy)]
struct Case {
    name: &'static str,
    kind: Kind,
    n: u32,
    entries: &'static [i128],
    linear: &'static [bool],
    feasible: Option<bool>,
}

const LARGE: i128 = 1 << 100;

const CASES: [Case; 24] = [
    Case {
        name: "the point of no coordinates, by no inequality",
        kind: Kind::H,
        n: 1,
        entries: &[],
        linear: &[],
        feasible: Some(true),
    },
    Case {
        name: "the point of no coordinates, by 5 >= 0",
        kind: Kind::H,
        n: 1,
        entries: &[5],
        linear: &[],
        feasible: Some(true),
    },
    Case {
        name: "5 >= 0 and -5 >= 0",
        kind: Kind::H,
        n: 1,
        entries: &[5, -5],
        linear: &[],
        feasible: Some(false),
    },
    Case {
        name: "the point of no coordinates, by 0 = 0",
        kind: Kind::H,
        n: 1,
        entries: &[0],
        linear: &[true],
        feasible: Some(true),
    },
    Case {
        name: "5 = 0",
        kind: Kind::H,
        n: 1,
        entries: &[5],
        linear: &[true],
        feasible: Some(false),
    },
    Case {
        name: "a square",
        kind: Kind::H,
        n: 3,
        entries: &[0, 1, 0, 0, 0, 1, 1, -1, 0, 1, 0, -1],
        linear: &[],
        feasible: Some(true),
    },
    Case {
        name: "x >= 1 and -x >= 0",
        kind: Kind::H,
        n: 2,
        entries: &[-1, 1, 0, -1],
        linear: &[],
        feasible: Some(false),
    },
    Case {
        name: "a segment to 1/2",
        kind: Kind::H,
        n: 2,
        entries: &[1, -2, 0, 1],
        linear: &[],
        feasible: Some(true),
    },
    Case {
        name: "x >= 0 and -1 >= 0, whose cone has a ray",
        kind: Kind::H,
        n: 2,
        entries: &[-1, 0, 0, 1],
        linear: &[],
        feasible: Some(false),
    },
    Case {
        name: "the whole plane",
        kind: Kind::H,
        n: 3,
        entries: &[],
        linear: &[],
        feasible: Some(true),
    },
    Case {
        name: "a half plane",
        kind: Kind::H,
        n: 3,
        entries: &[0, 1, 0],
        linear: &[],
        feasible: Some(true),
    },
    Case {
        name: "a line, x = y",
        kind: Kind::H,
        n: 3,
        entries: &[0, 1, -1],
        linear: &[true],
        feasible: Some(true),
    },
    Case {
        name: "a strip, x + y >= 0 and 1 - x - y >= 0",
        kind: Kind::H,
        n: 3,
        entries: &[0, 1, 1, 1, -1, -1],
        linear: &[],
        feasible: Some(true),
    },
    Case {
        name: "x + y >= 1 and -x - y >= 0",
        kind: Kind::H,
        n: 3,
        entries: &[-1, 1, 1, 0, -1, -1],
        linear: &[],
        feasible: Some(false),
    },
    Case {
        name: "a segment, x + y = 1 where x and y are at least 0",
        kind: Kind::H,
        n: 3,
        entries: &[-1, 1, 1, 0, 1, 0, 0, 0, 1],
        linear: &[true],
        feasible: Some(true),
    },
    Case {
        name: "x + y = -1 where x and y are at least 0",
        kind: Kind::H,
        n: 3,
        entries: &[1, 1, 1, 0, 1, 0, 0, 0, 1],
        linear: &[true],
        feasible: Some(false),
    },
    Case {
        name: "a ray from (0, 1), where x is 2 x + y - 1 and the equation, which is a later row",
        kind: Kind::H,
        n: 3,
        entries: &[-1, 2, 1, 0, 1, 0, 1, -1, -1],
        linear: &[false, false, true],
        feasible: Some(true),
    },
    Case {
        name: "a segment times a line",
        kind: Kind::H,
        n: 4,
        entries: &[1, -1, -1, 0, 0, 1, 0, 0, 0, 0, 1, 0],
        linear: &[true],
        feasible: Some(true),
    },
    Case {
        name: "x = 1 and x = 2",
        kind: Kind::H,
        n: 2,
        entries: &[-1, 1, -2, 1],
        linear: &[true, true],
        feasible: Some(false),
    },
    Case {
        name: "x = 1 and y = 2",
        kind: Kind::H,
        n: 3,
        entries: &[-1, 1, 0, -2, 0, 1],
        linear: &[true, true],
        feasible: Some(true),
    },
    Case {
        name: "x = 1, y = 2 and x + y = 4",
        kind: Kind::H,
        n: 3,
        entries: &[-1, 1, 0, -2, 0, 1, -4, 1, 1],
        linear: &[true, true, true],
        feasible: Some(false),
    },
    Case {
        name: "the origin and a line, as a V file",
        kind: Kind::V,
        n: 2,
        entries: &[1, 0, 0, 1],
        linear: &[false, true],
        feasible: Some(true),
    },
    Case {
        name: "a triangle with corners of 200 bits",
        kind: Kind::H,
        n: 3,
        entries: &[LARGE, LARGE + 1, 3, LARGE + 7, 5, LARGE + 9, 1, -1, -LARGE],
        linear: &[],
        feasible: None,
    },
    Case {
        name: "two equations with a common point of 200 bits",
        kind: Kind::H,
        n: 3,
        entries: &[LARGE, LARGE + 1, 3, LARGE + 7, 5, LARGE + 9],
        linear: &[true, true],
        feasible: None,
    },
];

#[test]
fn tells_whether_a_file_is_feasible(rt: HostRuntime) -> Result<(), Fail> {
    for case in CASES {
        let alloc = rt.alloc();
        let cone = system_of(
            alloc,
            &poly_of(alloc, case.kind, case.n, case.entries, case.linear)?,
        )?;
        let found = (is_feasible(alloc, &cone)?, is_listed(alloc, &cone)?);
        assert_eq!(rt; found, (case.feasible, case.feasible), "{}", case.name);
    }
    Ok(())
}

// Whether a file is feasible, or none where a number passes.
fn is_feasible(alloc: Global, cone: &System) -> Result<Option<bool>, Fail> {
    match feasible_plain(alloc, cone) {
        Ok(feasible) => Ok(Some(feasible)),
        Err(FeasibleStop::Overflow(_)) => Ok(None),
        Err(FeasibleStop::Memory) => Err("memory")?,
    }
}

// The same by the call that lists what is feasible.
fn is_listed(alloc: Global, cone: &System) -> Result<Option<bool>, Fail> {
    let mut out = MemSink::new(alloc, &[]);
    match list_feasible(alloc, cone, &mut out) {
        Ok(_) => Ok(Some(true)),
        Err(ListStop::Infeasible) => Ok(Some(false)),
        Err(ListStop::Overflow(_)) => Ok(None),
        Err(_) => Err("memory, or a fault")?,
    }
}

/// A file without linear rows, how many rows and lines its listing has if no number passes, and how many bytes are
/// written by then.
#[derive(Clone, Copy)]
struct Listing {
    name: &'static str,
    kind: Kind,
    n: u32,
    entries: &'static [i128],
    listed: Option<(u64, u32)>,
    bytes: usize,
}

const LISTINGS: [Listing; 4] = [
    Listing {
        name: "a square",
        kind: Kind::H,
        n: 3,
        entries: &[0, 1, 0, 0, 0, 1, 1, -1, 0, 1, 0, -1],
        listed: Some((4, 0)),
        bytes: 72,
    },
    Listing {
        name: "the plane without rows",
        kind: Kind::H,
        n: 3,
        entries: &[],
        listed: Some((1, 2)),
        bytes: 81,
    },
    Listing {
        name: "the origin is a vertex, and is written; a later list of rows passes",
        kind: Kind::H,
        n: 3,
        entries: &[0, 1, 0, 0, 0, 1, 1, -LARGE, -1, 1, -1, -LARGE - 1],
        listed: None,
        bytes: 47,
    },
    Listing {
        name: "of points nothing is asked before the first row is sought",
        kind: Kind::V,
        n: 3,
        entries: &[1, 0, 0, 1, LARGE, 1, 1, 1, LARGE],
        listed: None,
        bytes: 0,
    },
];

#[test]
fn counts_the_rows_and_lines_of_a_listing(rt: HostRuntime) -> Result<(), Fail> {
    for case in LISTINGS {
        let alloc = rt.alloc();
        let poly = poly_of(alloc, case.kind, case.n, case.entries, &[])?;
        let mut out = MemSink::new(alloc, &[]);
        let listed = listed_of(alloc, &poly, &mut out)?;
        assert_eq!(rt;
            (listed, out.written().len()),
            (case.listed, case.bytes),
            "{}",
            case.name
        );
    }
    Ok(())
}

#[test]
fn lists_a_hundred_points(rt: HostRuntime) -> Result<(), Fail> {
    let alloc = rt.alloc();
    let mut entries = Vec::new(alloc);
    for i in 0..100u32 {
        entries.push(1)?;
        entries.push(i128::from(i))?;
    }
    let poly = poly_of(alloc, Kind::V, 2, &entries, &[])?;
    let mut out = MemSink::new(alloc, &[]);
    assert_eq!(rt; listed_of(alloc, &poly, &mut out)?, Some((2, 0)));
    Ok(())
}

// The rows and lines of the listing, or none where a number passes.
fn listed_of(alloc: Global, poly: &Poly, out: &mut MemSink) -> Result<Option<(u64, u32)>, Fail> {
    let cone = system_of(alloc, poly)?;
    match list_plain(alloc, &cone, out) {
        Ok(listed) => Ok(Some((listed.rows, listed.lines))),
        Err(PlainStop::Overflow(overflow)) if overflow.phase == Phase::Cone => Ok(None),
        Err(_) => Err("memory, or a fault")?,
    }
}
