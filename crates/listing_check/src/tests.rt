//! Files that are listed in two ways.
use convert_core::list;
use hull_lift::system_of;
use plain_enum::list_feasible;
use poly_io::MemSink;
use poly_model::{Kind, Listed, Poly};
use row_printer::ListStop;
use std::alloc::{AllocError, Global};
use std::test::Fail;
use test_polys::poly_of;

/// A file, its rows one after the other, the marks of its first rows that may be linear, and how many rows and lines both
/// listings have.
#[derive(Clone, Copy)]
struct Case {
    name: &'static str,
    kind: Kind,
    n: u32,
    entries: &'static [i128],
    linear: &'static [bool],
    listed: (u64, u32),
}

const OCTAHEDRON: Case = Case {
    name: "an octahedron: four rows meet at each vertex",
    kind: Kind::H,
    n: 4,
    entries: &[
        1, 1, 1, 1, 1, 1, 1, -1, 1, 1, -1, 1, 1, 1, -1, -1, 1, -1, 1, 1, 1, -1, 1, -1, 1, -1, -1,
        1, 1, -1, -1, -1,
    ],
    linear: &[],
    listed: (6, 0),
};

const CASES: [Case; 8] = [
    OCTAHEDRON,
    Case {
        name: "a cube that is cut at one corner, beside the origin",
        entries: &[
            -1, 1, 0, 0, -1, 0, 1, 0, -1, 0, 0, 1, 3, -1, 0, 0, 3, 0, -1, 0, 3, 0, 0, -1, 8, -1,
            -1, -1,
        ],
        listed: (10, 0),
        ..OCTAHEDRON
    },
    Case {
        name: "rows that meet at points of fractions, one of them twice, with two rays",
        n: 3,
        entries: &[
            -7, 3, 5, -7, 3, 5, -4, 5, 1, -3, 1, 4, 0, 1, 0, 0, 0, 1, 0, 2, 7,
        ],
        listed: (6, 0),
        ..OCTAHEDRON
    },
    Case {
        name: "a triangle by an equation, times a line",
        n: 5,
        entries: &[
            -2, 1, 1, 1, 0, 0, 1, 0, 0, 0, 0, 0, 1, 0, 0, 0, 0, 0, 1, 0, 9, -1, -1, -1, 0,
        ],
        linear: &[true],
        listed: (3, 1),
        ..OCTAHEDRON
    },
    Case {
        name: "half a prism: the ray goes from three vertices",
        entries: &[0, 1, 0, 0, 0, 0, 1, 0, 2, -1, -1, 0, 0, 0, 0, 1],
        listed: (4, 0),
        ..OCTAHEDRON
    },
    Case {
        name: "six points of a curve of degree four",
        kind: Kind::V,
        n: 5,
        entries: &[
            1, 0, 0, 0, 0, 1, 1, 1, 1, 1, 1, 2, 4, 8, 16, 1, 3, 9, 27, 81, 1, 4, 16, 64, 256, 1, 5,
            25, 125, 625,
        ],
        listed: (9, 0),
        ..OCTAHEDRON
    },
    Case {
        name: "the points of a cube, with its middle",
        kind: Kind::V,
        entries: &[
            1, 0, 0, 0, 1, 0, 0, 2, 1, 0, 2, 0, 1, 0, 2, 2, 1, 2, 0, 0, 1, 2, 0, 2, 1, 2, 2, 0, 1,
            2, 2, 2, 1, 1, 1, 1,
        ],
        listed: (6, 0),
        ..OCTAHEDRON
    },
    Case {
        name: "a square in space, and a ray that leaves its plane",
        kind: Kind::V,
        entries: &[1, 0, 0, 0, 1, 1, 0, 0, 1, 0, 1, 0, 1, 1, 1, 0, 0, 1, 2, 3],
        listed: (5, 0),
        ..OCTAHEDRON
    },
];

/// How many rows and lines were listed, none where there is no listing, and the lines of text in a fixed order.
#[derive(PartialEq, Eq, Debug, Drop)]
struct Answer {
    listed: Option<(u64, u32)>,
    written: Vec<Vec<u8>>,
}

#[test]
fn both_listings_have_the_same_rows(rt: HostRuntime) -> Result<(), Fail> {
    let alloc = rt.alloc();
    for case in CASES {
        let poly = poly_of(alloc, case.kind, case.n, case.entries, case.linear)?;
        let search = by_search(alloc, &poly)?;
        let subsets = by_subsets(alloc, &poly)?;
        let listed = search.listed;
        assert_eq!(rt;
            (search, listed),
            (subsets, Some(case.listed)),
            "{}",
            case.name
        );
    }
    Ok(())
}

fn by_search(alloc: Global, poly: &Poly) -> Result<Answer, Fail> {
    let mut out = MemSink::new(alloc, &[]);
    let listed = sizes_of(list(alloc, poly, &mut out));
    let written = sorted(alloc, out.written())?;
    Ok(Answer { listed, written })
}

fn by_subsets(alloc: Global, poly: &Poly) -> Result<Answer, Fail> {
    let cone = system_of(alloc, poly)?;
    let mut out = MemSink::new(alloc, &[]);
    let listed = sizes_of(list_feasible(alloc, &cone, &mut out));
    let written = sorted(alloc, out.written())?;
    Ok(Answer { listed, written })
}

fn sorted(alloc: Global, text: &[u8]) -> Result<Vec<Vec<u8>>, AllocError> {
    let mut lines = text.split(|b| *b == b'\n').collect::<Vec<&[u8]>>(alloc)?;
    lines.sort()?;
    let mut kept = Vec::new(alloc);
    for line in lines {
        kept.push(Vec::from_slice(alloc, line)?)?;
    }
    Ok(kept)
}

fn sizes_of(ended: Result<Listed, ListStop>) -> Option<(u64, u32)> {
    match ended {
        Ok(listed) => Some((listed.rows, listed.lines)),
        Err(_) => None,
    }
}

// A row that has no mark is not linear.
