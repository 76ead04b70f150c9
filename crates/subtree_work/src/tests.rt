//! The pyramid over a square, a quadrant, a plane without rows, a triangle of points and a polytope with six facets, under
//! several budgets, and a sink that fails; and roots and keys that are none.
use crate::{SubtreeStop, SubtreeWork};
use hull_lift::system_of;
use poly_io::{Call, MemSink, Sink};
use poly_model::{Count, Key, Kind, Label, MOST_LABELS, Root};
use std::alloc::Global;
use std::test::Fail;
use test_polys::poly_of;
use work_core::{Budget, MOST_BASES, MOST_DEPTH, Work};

/// A file of rows of `n` numbers, with the marks of the first ones that may be linear.
#[derive(Clone, Copy)]
struct File {
    kind: Kind,
    n: u32,
    entries: &'static [i128],
    linear: &'static [bool],
}

/// A root, the key of a job, its budget, what the calls of its sink do, what it writes, and what it counts if it ends.
#[derive(Clone, Copy)]
struct Job {
    file: File,
    root: &'static [u32],
    key: &'static [u32],
    bases: u64,
    depth: u64,
    writes: &'static [Call],
    text: &'static str,
    count: Option<Count>,
}

/// The base `z >= 0`, and four sides that meet at the apex, where `z = 1`.
const PYRAMID: File = File {
    kind: Kind::H,
    n: 4,
    entries: &[
        0, 0, 0, 1, 1, -1, 0, -1, 1, 1, 0, -1, 1, 0, -1, -1, 1, 0, 1, -1,
    ],
    linear: &[],
};

/// `x >= 0`, `y >= 0`.
const QUADRANT: File = File {
    kind: Kind::H,
    n: 3,
    entries: &[0, 1, 0, 0, 0, 1],
    linear: &[],
};

const PLANE: File = File {
    kind: Kind::H,
    n: 3,
    entries: &[],
    linear: &[],
};

const TRIANGLE: File = File {
    kind: Kind::V,
    n: 3,
    entries: &[1, 0, 0, 1, 1, 0, 1, 0, 1],
    linear: &[],
};

/// A simple polytope with six facets and eight vertices.
const SIX_FACETS: File = File {
    kind: Kind::H,
    n: 4,
    entries: &[
        1, -3, -3, -3, 1, -1, -3, 1, 1, -1, 0, 0, 1, 1, -3, -1, 1, 1, 3, 1, 1, 3, 0, 2,
    ],
    linear: &[],
};

/// `x >= 0`, `x <= 1`, `x <= 2`.
const SEGMENT: File = File {
    kind: Kind::H,
    n: 2,
    entries: &[0, 1, 1, -1, 2, -1],
    linear: &[],
};

/// `x = 0`, `x = 1`.
const APART: File = File {
    kind: Kind::H,
    n: 2,
    entries: &[0, 1, 1, -1],
    linear: &[true, true],
};

/// A job of the pyramid at its root, with a budget for all of it, before it is known what it writes.
const PYRAMID_JOB: Job = Job {
    file: PYRAMID,
    root: &[1, 2, 4],
    key: &[1, 2, 4],
    bases: 100,
    depth: 0,
    writes: &[],
    text: "",
    count: None,
};

const JOBS: [Job; 9] = [
    Job {
        bases: 1,
        text: "row 1 1 1 0\njob 3 2 4 5\njob 3 1 3 4\njob 3 1 2 5\n",
        count: Some(Count {
            rows: 1,
            jobs: 3,
            bases: 1,
        }),
        ..PYRAMID_JOB
    },
    Job {
        depth: 2,
        text: "row 1 1 1 0\nrow 1 0 0 1\njob 3 3 4 5\nrow 1 -1 1 0\nrow 1 1 -1 0\njob 3 1 3 5\n",
        count: Some(Count {
            rows: 4,
            jobs: 2,
            bases: 4,
        }),
        ..PYRAMID_JOB
    },
    // a child at the depth budget is given back, however many bases are left
    Job {
        bases: 300,
        depth: 1,
        text: "row 1 1 1 0\njob 3 2 4 5\njob 3 1 3 4\njob 3 1 2 5\n",
        count: Some(Count {
            rows: 1,
            jobs: 3,
            bases: 1,
        }),
        ..PYRAMID_JOB
    },
    Job {
        text: "row 1 1 1 0\nrow 1 0 0 1\nrow 1 -1 1 0\nrow 1 1 -1 0\nrow 1 -1 -1 0\n",
        count: Some(Count {
            rows: 5,
            jobs: 0,
            bases: 6,
        }),
        ..PYRAMID_JOB
    },
    Job {
        writes: &[
            Call::AtMost(1),
            Call::AtMost(1),
            Call::AtMost(1),
            Call::Fail,
        ],
        text: "row",
        ..PYRAMID_JOB
    },
    Job {
        file: QUADRANT,
        root: &[1, 2],
        key: &[1, 2],
        bases: 100,
        depth: 0,
        writes: &[],
        text: "row 1 0 0\nrow 0 1 0\nrow 0 0 1\n",
        count: Some(Count {
            rows: 3,
            jobs: 0,
            bases: 1,
        }),
    },
    Job {
        file: PLANE,
        root: &[],
        key: &[],
        bases: 1,
        depth: 1,
        writes: &[],
        text: "row 1 0 0\n",
        count: Some(Count {
            rows: 1,
            jobs: 0,
            bases: 1,
        }),
    },
    Job {
        file: TRIANGLE,
        root: &[1, 2, 3],
        key: &[1, 2, 3],
        bases: 100,
        depth: 0,
        writes: &[],
        text: "row 1 -1 -1\nrow 0 1 0\nrow 0 0 1\n",
        count: Some(Count {
            rows: 3,
            jobs: 0,
            bases: 1,
        }),
    },
    // the base budget ends below the first child of the root: two children on the way there are given back
    Job {
        file: SIX_FACETS,
        root: &[1, 2, 3],
        key: &[1, 2, 3],
        bases: 6,
        depth: 0,
        writes: &[],
        text: "row 6 6 -1 -3\nrow 3 3 -1 -3\nrow 9 3 -1 -9\nrow 3 -3 -1 3\nrow 15 -3 5 -3\nrow 3 3 -2 0\njob 3 1 4 5\njob 3 1 2 4\n",
        count: Some(Count {
            rows: 6,
            jobs: 2,
            bases: 6,
        }),
    },
];

#[test]
fn jobs_by_subtrees(rt: HostRuntime) -> Result<(), Fail> {
    for job in JOBS {
        let alloc = rt.alloc();
        let mut out = MemSink::new(alloc, job.writes);
        let count = run_job(alloc, &job, &mut out)?;
        if count != job.count || out.written() != job.text.as_bytes() {
            return Err("another reply")?;
        }
    }
    Ok(())
}

/// A root of a file, and whether it is one.
#[derive(Clone, Copy)]
struct RootCase {
    file: File,
    rows: &'static [u32],
    coordinates: &'static [u32],
    is_root: bool,
}

const ROOTS: [RootCase; 6] = [
    RootCase {
        file: PYRAMID,
        rows: &[2, 3, 4],
        coordinates: &[],
        is_root: true,
    },
    // a coordinate is no row
    RootCase {
        file: PYRAMID,
        rows: &[2, 3],
        coordinates: &[1],
        is_root: false,
    },
    // three rows that are 0 along one direction
    RootCase {
        file: PYRAMID,
        rows: &[1, 2, 3],
        coordinates: &[],
        is_root: false,
    },
    RootCase {
        file: SEGMENT,
        rows: &[2],
        coordinates: &[],
        is_root: true,
    },
    // x = 2 is no point of the segment
    RootCase {
        file: SEGMENT,
        rows: &[3],
        coordinates: &[],
        is_root: false,
    },
    RootCase {
        file: APART,
        rows: &[],
        coordinates: &[],
        is_root: false,
    },
];

#[test]
fn roots_that_are_none(rt: HostRuntime) -> Result<(), Fail> {
    for case in ROOTS {
        let root = key_of(case.rows, case.coordinates).ok_or("a key")?;
        if is_root(rt.alloc(), &case.file, root)? != Some(case.is_root) {
            return Err("another root")?;
        }
    }
    Ok(())
}

/// Keys of the pyramid, and whether each is one under the root of the rows 1, 2 and 4.
const KEYS: [(&'static [u32], bool); 4] = [
    (&[1, 2, 4], true),
    (&[3, 4, 5], true),
    (&[2, 3, 4], false),
    (&[1, 2, 3], false),
];

#[test]
fn keys_that_are_none(rt: HostRuntime) -> Result<(), Fail> {
    for (rows, want) in KEYS {
        let key = key_of(rows, &[]).ok_or("a key")?;
        let root = key_of(&[1, 2, 4], &[]).ok_or("a root")?;
        if is_key(rt.alloc(), &PYRAMID, root, &key)? != Some(want) {
            return Err("another key")?;
        }
    }
    Ok(())
}

// The key of these rows and coordinates.
fn key_of(rows: &[u32], coordinates: &[u32]) -> Option<Key> {
    let mut key = Key::empty();
    for i in rows {
        if key.len() >= MOST_LABELS || *i == 0 || *i >= 8192 {
            return None;
        }
        key = key.with(Label::row(*i));
    }
    for j in coordinates {
        if key.len() >= MOST_LABELS || *j >= 8192 {
            return None;
        }
        key = key.with(Label::coordinate(*j));
    }
    Some(key)
}

// What a job of a new work counts, if it may be run.
fn run_job(alloc: Global, job: &Job, out: &mut MemSink) -> Result<Option<Count>, Fail> {
    let file = &job.file;
    let poly = poly_of(alloc, file.kind, file.n, file.entries, file.linear)?;
    let sys = system_of(alloc, &poly)?;
    let root = key_of(job.root, &[]).ok_or("a root")?;
    let key = key_of(job.key, &[]).ok_or("a key")?;
    let Ok(mut work) = SubtreeWork::new(alloc, &sys, Root::new(root)) else {
        return Err("no work")?;
    };
    let budget = Budget {
        bases: job.bases,
        depth: job.depth,
    };
    Ok(run_if_key(&mut work, &key, budget, out))
}

// Runs the job if its key and its budget may be run.
fn run_if_key<S: Sink>(
    work: &mut SubtreeWork,
    key: &Key,
    budget: Budget,
    out: &mut S,
) -> Option<Count> {
    if budget.bases == 0 || budget.bases > MOST_BASES || budget.depth > MOST_DEPTH {
        return None;
    }
    match work.has_key(key) {
        Ok(true) => {}
        _ => return None,
    }
    match work.run(key, budget, out) {
        Ok(count) => Some(count),
        Err(_) => None,
    }
}

// Whether a search of the file may begin at the root; none where there is another answer.
fn is_root(alloc: Global, file: &File, root: Key) -> Result<Option<bool>, Fail> {
    let poly = poly_of(alloc, file.kind, file.n, file.entries, file.linear)?;
    let sys = system_of(alloc, &poly)?;
    match SubtreeWork::new(alloc, &sys, Root::new(root)) {
        Ok(_) => Ok(Some(true)),
        Err(SubtreeStop::BadRoot) => Ok(Some(false)),
        Err(_) => Ok(None),
    }
}

// Whether the key is one of the work of the file under the root; none where there is another answer.
fn is_key(alloc: Global, file: &File, root: Key, key: &Key) -> Result<Option<bool>, Fail> {
    let poly = poly_of(alloc, file.kind, file.n, file.entries, file.linear)?;
    let sys = system_of(alloc, &poly)?;
    let Ok(mut work) = SubtreeWork::new(alloc, &sys, Root::new(root)) else {
        return Ok(None);
    };
    match work.has_key(key) {
        Ok(is) => Ok(Some(is)),
        Err(_) => Ok(None),
    }
}
