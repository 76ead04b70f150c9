//! Polyhedra that can be drawn, and the rows of their cones.
ghost use Rattle.std.specs.Prelude.{◌≡◌, ◌<◌};

use crate::system_of;
use poly_model::{Kind, Poly, System};
use std::alloc::{AllocFailed, Global};
use std::test::Fail;
use test_polys::poly_of;

/// A file: its rows one after the other, and which of them are linear.
#[derive(Clone, Copy)]
pub(crate) struct File {
    pub(crate) kind: Kind,
    pub(crate) n: u32,
    pub(crate) entries: &'static [i128],
    pub(crate) linear: &'static [bool],
}

/// A file, and what its cone has behind or beside its rows: the added entries, and which rows are linear and which are
/// points.
#[derive(Clone, Copy)]
struct Case {
    name: &'static str,
    file: File,
    added: &'static [i128],
    cone_linear: &'static [bool],
    points: &'static [bool],
}

const CASES: [Case; 8] = [
    Case {
        name: "a square",
        file: File {
            kind: Kind::H,
            n: 3,
            entries: &[0, 1, 0, 0, 0, 1, 1, -1, 0, 1, 0, -1],
            linear: &[false, false, false, false],
        },
        added: &[1, 0, 0],
        cone_linear: &[false, false, false, false, false],
        points: &[false, false, false, false, false],
    },
    Case {
        name: "a ray on the line x = 2",
        file: File {
            kind: Kind::H,
            n: 3,
            entries: &[0, 0, 1, 2, -1, 0],
            linear: &[false, true],
        },
        added: &[1, 0, 0],
        cone_linear: &[false, true, false],
        points: &[false, false, false],
    },
    Case {
        name: "a point, a ray and a line",
        file: File {
            kind: Kind::V,
            n: 3,
            entries: &[0, 1, 0, 2, 3, 1, 0, 0, 1],
            linear: &[false, false, true],
        },
        added: &[],
        cone_linear: &[false, false, true],
        points: &[false, true, false],
    },
    Case {
        name: "a ray and a line without a point",
        file: File {
            kind: Kind::V,
            n: 4,
            entries: &[0, 1, 0, 0, 0, 0, 1, -1],
            linear: &[false, true],
        },
        added: &[1, 0, 0, 0],
        cone_linear: &[false, true, false],
        points: &[false, false, true],
    },
    Case {
        name: "the point of no coordinates, by no inequality",
        file: File {
            kind: Kind::H,
            n: 1,
            entries: &[],
            linear: &[],
        },
        added: &[1],
        cone_linear: &[false],
        points: &[false],
    },
    Case {
        name: "nothing, by an inequality -1 >= 0",
        file: File {
            kind: Kind::H,
            n: 1,
            entries: &[-1],
            linear: &[false],
        },
        added: &[1],
        cone_linear: &[false, false],
        points: &[false, false],
    },
    Case {
        name: "the point of no coordinates, as a point",
        file: File {
            kind: Kind::V,
            n: 1,
            entries: &[1],
            linear: &[false],
        },
        added: &[],
        cone_linear: &[false],
        points: &[true],
    },
    Case {
        name: "the point of no coordinates, by a row that is zero",
        file: File {
            kind: Kind::V,
            n: 1,
            entries: &[0],
            linear: &[false],
        },
        added: &[1],
        cone_linear: &[false, false],
        points: &[false, true],
    },
];

/// A cone: its rows one after the other, which are linear, and which are points.
#[derive(PartialEq, Eq, Debug, Drop)]
struct Cone {
    kind: Kind,
    n: u32,
    entries: Vec<i128>,
    linear: Vec<bool>,
    points: Vec<bool>,
}

#[test]
fn gives_the_rows_of_the_cone(rt: HostRuntime) -> Result<(), Fail> {
    let alloc = rt.alloc();
    for case in CASES {
        let poly = poly_in(alloc, &case.file)?;
        let found = cone_of(alloc, &system_of(alloc, &poly)?)?;
        let want = Cone {
            kind: case.file.kind,
            n: case.file.n,
            entries: joined(alloc, case.file.entries, case.added)?,
            linear: Vec::from_slice(alloc, case.cone_linear)?,
            points: Vec::from_slice(alloc, case.points)?,
        };
        assert_eq!(rt; found, want, "{}", case.name);
    }
    Ok(())
}

fn cone_of(alloc: Global, system: &System) -> Result<Cone, Fail> {
    Ok(Cone {
        kind: system.kind(),
        n: system.n(),
        entries: entries_of(alloc, system)?,
        linear: marks_of(alloc, system)?,
        points: points_of(alloc, system)?,
    })
}

pub(crate) fn poly_in(alloc: Global, file: &File) -> Result<Poly, Fail> {
    poly_of(alloc, file.kind, file.n, file.entries, file.linear)
}

fn joined(alloc: Global, front: &[i128], back: &[i128]) -> Result<Vec<i128>, Fail> {
    let mut all = Vec::from_slice(alloc, front)?;
    all.extend_from_slice(back)?;
    Ok(all)
}

fn entries_of(alloc: Global, cone: &System) -> Result<Vec<i128>, AllocFailed<i128>> {
    let mut entries = Vec::new(alloc);
    for i in 0..cone.rows() {
        for x in cone.row(i + 1) {
            entries.push(x.get())?;
        }
    }
    Ok(entries)
}

fn marks_of(alloc: Global, cone: &System) -> Result<Vec<bool>, AllocFailed<bool>> {
    let mut marks = Vec::new(alloc);
    for i in 0..cone.rows() {
        marks.push(cone.is_linear(i + 1))?;
    }
    Ok(marks)
}

fn points_of(alloc: Global, cone: &System) -> Result<Vec<bool>, AllocFailed<bool>> {
    let mut points = Vec::new(alloc);
    for i in 0..cone.rows() {
        points.push(cone.is_point(i + 1))?;
    }
    Ok(points)
}
