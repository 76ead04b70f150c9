//! Listings of files that can be drawn, and where they stop.
use crate::list;
use poly_io::{Call, MemSink};
use poly_model::{Kind, Listed, Phase};
use row_printer::ListStop;
use std::alloc::{AllocError, Global};
use std::test::Fail;
use test_polys::poly_of;

/// A file, its rows one after the other, the marks of its first rows that may be linear, the limits of the sink's writes,
/// how the listing ends, and what is written. The rows of a whole listing may stand in any order.
#[derive(Clone, Copy)]
struct Case {
    name: &'static str,
    kind: Kind,
    n: u32,
    entries: &'static [i128],
    linear: &'static [bool],
    writes: &'static [Call],
    end: End,
    written: &'static str,
}

/// How a listing ends: with so many rows and lines, or why it stopped. Of an overflow no more is asked than its phase.
#[derive(Clone, Copy, PartialEq, Eq, Debug)]
enum End {
    Listed(u64, u32),
    Infeasible,
    Overflow(Phase),
    WriteFault,
    Memory,
}

const LARGE: i128 = 1 << 100;

const SQUARE: Case = Case {
    name: "a square",
    kind: Kind::H,
    n: 3,
    entries: &[0, 1, 0, 0, 0, 1, 1, -1, 0, 1, 0, -1],
    linear: &[],
    writes: &[],
    end: End::Listed(4, 0),
    written: "V-representation\nbegin\n***** 3 rational\n 1 0 0\n 1 1 0\n 1 0 1\n 1 1 1\nend\n",
};

/// A file of which nothing is listed.
const NONE: Case = Case {
    end: End::Infeasible,
    written: "",
    ..SQUARE
};

const CASES: [Case; 23] = [
    SQUARE,
    Case {
        name: "a pyramid, four rows of which meet at the apex: six cobases, and five points",
        n: 4,
        entries: &[
            0, 0, 0, 1, 1, -1, 0, -1, 1, 1, 0, -1, 1, 0, -1, -1, 1, 0, 1, -1,
        ],
        end: End::Listed(5, 0),
        written: "V-representation\nbegin\n***** 4 rational\n 1 1 1 0\n 1 1 -1 0\n 1 -1 1 0\n 1 -1 -1 0\n 1 0 0 1\nend\n",
        ..SQUARE
    },
    Case {
        name: "the plane without rows",
        entries: &[],
        end: End::Listed(1, 2),
        written: "V-representation\nlinearity 2 1 2\nbegin\n***** 3 rational\n 0 1 0\n 0 0 1\n 1 0 0\nend\n",
        ..SQUARE
    },
    Case {
        name: "the point of the space without coordinates",
        n: 1,
        entries: &[5],
        end: End::Listed(1, 0),
        written: "V-representation\nbegin\n***** 1 rational\n 1\nend\n",
        ..SQUARE
    },
    Case {
        name: "a segment that does not reach the origin, with a corner of halves",
        n: 2,
        entries: &[-1, 1, 0, 1, 3, -2],
        end: End::Listed(2, 0),
        written: "V-representation\nbegin\n***** 2 rational\n 1 1\n 1 3/2\nend\n",
        ..SQUARE
    },
    Case {
        name: "a quadrant: a vertex and two rays",
        entries: &[0, 1, 0, 0, 0, 1],
        end: End::Listed(3, 0),
        written: "V-representation\nbegin\n***** 3 rational\n 1 0 0\n 0 1 0\n 0 0 1\nend\n",
        ..SQUARE
    },
    Case {
        name: "three vertices and two rays; each ray is that of one vertex alone",
        entries: &[0, 1, 0, 0, 0, 1, -2, 2, 1, -2, 1, 2],
        end: End::Listed(5, 0),
        written: "V-representation\nbegin\n***** 3 rational\n 1 2 0\n 1 2/3 2/3\n 1 0 2\n 0 1 0\n 0 0 1\nend\n",
        ..SQUARE
    },
    Case {
        name: "half a strip: its ray goes from two vertices, and is listed once",
        entries: &[0, 1, 0, 0, 0, 1, 1, 0, -1],
        end: End::Listed(3, 0),
        written: "V-representation\nbegin\n***** 3 rational\n 1 0 0\n 1 0 1\n 0 1 0\nend\n",
        ..SQUARE
    },
    Case {
        name: "the segment of an equation in the quadrant",
        entries: &[-1, 1, 1, 0, 1, 0, 0, 0, 1],
        linear: &[true],
        end: End::Listed(2, 0),
        written: "V-representation\nbegin\n***** 3 rational\n 1 1 0\n 1 0 1\nend\n",
        ..SQUARE
    },
    Case {
        name: "a strip with its line",
        entries: &[0, 1, 1, 1, -1, -1],
        end: End::Listed(2, 1),
        written: "V-representation\nlinearity 1 1\nbegin\n***** 3 rational\n 0 -1 1\n 1 0 0\n 1 1 0\nend\n",
        ..SQUARE
    },
    Case {
        name: "a triangle; the denominator where two rows meet beside it needs 200 bits",
        entries: &[
            0,
            1,
            0,
            0,
            0,
            1,
            1,
            -1,
            -1,
            LARGE,
            -LARGE / 2,
            -1,
            LARGE,
            -1,
            -3 * (LARGE / 4),
        ],
        end: End::Listed(3, 0),
        written: "V-representation\nbegin\n***** 3 rational\n 1 0 0\n 1 1 0\n 1 0 1\nend\n",
        ..SQUARE
    },
    Case {
        name: "three points: three facets, and not `1 0 0`",
        kind: Kind::V,
        entries: &[1, 0, 0, 1, 1, 0, 1, 0, 1],
        end: End::Listed(3, 0),
        written: "H-representation\nbegin\n***** 3 rational\n 0 1 0\n 0 0 1\n 1 -1 -1\nend\n",
        ..SQUARE
    },
    Case {
        name: "the points of a cross polytope",
        kind: Kind::V,
        n: 4,
        entries: &[
            1, 1, 0, 0, 1, -1, 0, 0, 1, 0, 1, 0, 1, 0, -1, 0, 1, 0, 0, 1, 1, 0, 0, -1,
        ],
        end: End::Listed(8, 0),
        written: "H-representation\nbegin\n***** 4 rational\n 1 1 1 1\n 1 1 1 -1\n 1 1 -1 1\n 1 1 -1 -1\n 1 -1 1 1\n 1 -1 1 -1\n 1 -1 -1 1\n 1 -1 -1 -1\nend\n",
        ..SQUARE
    },
    Case {
        name: "a vertex and two rays: `1 0 0` touches no point",
        kind: Kind::V,
        entries: &[1, 0, 0, 0, 1, 0, 0, 0, 1],
        end: End::Listed(2, 0),
        written: "H-representation\nbegin\n***** 3 rational\n 0 1 0\n 0 0 1\nend\n",
        ..SQUARE
    },
    Case {
        name: "a point row that is linear: all facets touch it",
        kind: Kind::V,
        entries: &[1, 0, 0, 0, 1, 0, 0, 0, 1],
        linear: &[true],
        end: End::Listed(2, 0),
        written: "H-representation\nbegin\n***** 3 rational\n 0 1 0\n 0 0 1\nend\n",
        ..SQUARE
    },
    Case {
        name: "x >= 1 and x <= 0",
        n: 2,
        entries: &[-1, 1, 0, -1],
        ..NONE
    },
    Case {
        name: "x = 1 and x = 2",
        n: 2,
        entries: &[-1, 1, -2, 1],
        linear: &[true, true],
        ..NONE
    },
    Case {
        name: "an equation of which no inequality leaves a point",
        entries: &[1, 1, 1, 0, 1, 0, 0, 0, 1],
        linear: &[true],
        ..NONE
    },
    Case {
        name: "two rows whose exchange needs 2^200",
        entries: &[0, LARGE, 1, 0, 1, LARGE],
        end: End::Overflow(Phase::Prepare),
        ..NONE
    },
    Case {
        name: "the first exchange with t needs 2^127",
        n: 2,
        entries: &[0, 1, -1, 1 << 126, 1, -(1 << 126)],
        end: End::Overflow(Phase::First),
        ..NONE
    },
    Case {
        name: "the origin is written; the step to the next vertex needs 2^200",
        entries: &[0, 1, 0, 0, 0, 1, 1, -LARGE, -1, 1, -1, -LARGE - 1],
        end: End::Overflow(Phase::Main),
        written: "V-representation\nbegin\n***** 3 rational\n 1 0 0\n",
        ..SQUARE
    },
    Case {
        name: "the sink fails at its third write",
        writes: &[Call::AtMost(99), Call::AtMost(3), Call::Fail],
        end: End::WriteFault,
        written: "V-representation\nbeg",
        ..SQUARE
    },
    Case {
        name: "a file without a point is not written, so a sink that fails is not called",
        n: 2,
        entries: &[-1, 1, 0, -1],
        writes: &[Call::Fail],
        ..NONE
    },
];

/// How a listing ended, and the lines that were written, those of a whole listing in a fixed order.
#[derive(PartialEq, Eq, Debug, Drop)]
struct Answer<'a> {
    end: End,
    written: Vec<&'a [u8]>,
}

#[test]
fn lists_files(rt: HostRuntime) -> Result<(), Fail> {
    let alloc = rt.alloc();
    for case in CASES {
        let poly = poly_of(alloc, case.kind, case.n, case.entries, case.linear)?;
        let mut out = MemSink::new(alloc, case.writes);
        let end = end_of(list(alloc, &poly, &mut out));
        let found = answered(alloc, end, out.written())?;
        let want = answered(alloc, case.end, case.written.as_bytes())?;
        assert_eq!(rt; found, want, "{}", case.name);
    }
    Ok(())
}

fn answered<'a>(alloc: Global, end: End, text: &'a [u8]) -> Result<Answer<'a>, AllocError> {
    let mut written = text.split(|b| *b == b'\n').collect::<Vec<&[u8]>>(alloc)?;
    if let End::Listed(..) = end {
        written.sort()?;
    }
    Ok(Answer { end, written })
}

fn end_of(listed: Result<Listed, ListStop>) -> End {
    match listed {
        Ok(listed) => End::Listed(listed.rows, listed.lines),
        Err(ListStop::Infeasible) => End::Infeasible,
        Err(ListStop::Overflow(overflow)) => End::Overflow(overflow.phase),
        Err(ListStop::WriteFault) => End::WriteFault,
        Err(ListStop::Memory) => End::Memory,
    }
}

// A row that has no mark is not linear.
