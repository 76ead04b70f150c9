//! The quadrant, the quadrant with a row twice, a half line in an equation, and a triangle, under several budgets; a
//! product that passes, and a sink that fails.
use crate::SubsetWork;
use hull_lift::system_of;
use poly_io::{Call, MemSink, Sink};
use poly_model::{Count, Key, Kind, Label, MOST_LABELS};
use std::test::Fail;
use test_polys::poly_of;
use work_core::{Budget, MOST_BASES, MOST_DEPTH, Work, WorkStop};

/// How a run ends: its rows, keys given back and bases, or where it stops.
#[derive(Clone, Copy, PartialEq, Eq, Debug)]
enum End {
    Done(u64, u64, u64),
    Overflow,
    Fault,
    NoKey,
}

/// Rows of three numbers, the marks of the first ones that may be linear, the key of a job, its budget, what the calls of the
/// sink do, and what is written.
#[derive(Clone, Copy)]
struct Case {
    name: &'static str,
    kind: Kind,
    linear: &'static [bool],
    entries: &'static [i128],
    labels: &'static [u32],
    bases: u64,
    depth: u64,
    calls: &'static [Call],
    text: &'static str,
    end: End,
}

const QUADRANT: Case = Case {
    name: "the quadrant, one base",
    kind: Kind::H,
    linear: &[],
    entries: &[0, 1, 0, 0, 0, 1],
    labels: &[],
    bases: 1,
    depth: 0,
    calls: &[],
    text: "job 1 1\njob 1 2\njob 1 3\n",
    end: End::Done(0, 3, 1),
};

const TWICE: Case = Case {
    name: "a row twice, so that lists depend",
    entries: &[0, 1, 0, 0, 1, 0, 0, 0, 1],
    bases: 100,
    text: "row 1 0 0\nrow 0 0 1\nrow 0 1 0\n",
    end: End::Done(3, 0, 11),
    ..QUADRANT
};

const CASES: [Case; 14] = [
    QUADRANT,
    Case {
        name: "lists of two rows are given back",
        bases: 100,
        depth: 2,
        text: "job 2 1 2\njob 2 1 3\njob 2 2 3\n",
        end: End::Done(0, 3, 4),
        ..QUADRANT
    },
    Case {
        name: "the whole quadrant",
        bases: 100,
        text: "row 1 0 0\nrow 0 0 1\nrow 0 1 0\n",
        end: End::Done(3, 0, 7),
        ..QUADRANT
    },
    Case {
        name: "a key of one row",
        labels: &[1],
        bases: 2,
        text: "row 1 0 0\njob 2 1 3\n",
        end: End::Done(1, 1, 2),
        ..QUADRANT
    },
    Case {
        name: "a key as long as may be",
        labels: &[2, 3],
        depth: 1,
        text: "row 0 1 0\n",
        end: End::Done(1, 0, 1),
        ..QUADRANT
    },
    Case {
        name: "a key that is longer",
        labels: &[1, 2, 3],
        text: "",
        end: End::NoKey,
        ..QUADRANT
    },
    Case {
        name: "a key with the label of no row",
        labels: &[4],
        text: "",
        end: End::NoKey,
        ..QUADRANT
    },
    TWICE,
    Case {
        name: "keys given back all along the way",
        bases: 3,
        text: "job 2 1 3\njob 2 1 4\njob 1 2\njob 1 3\njob 1 4\n",
        end: End::Done(0, 5, 3),
        ..TWICE
    },
    Case {
        name: "a key of dependent rows",
        labels: &[1, 2],
        bases: 5,
        text: "",
        end: End::Done(0, 0, 1),
        ..TWICE
    },
    Case {
        name: "an equation",
        linear: &[true],
        bases: 100,
        text: "row 1 0 0\nrow 0 0 1\n",
        end: End::Done(2, 0, 3),
        ..QUADRANT
    },
    Case {
        name: "the facets of a triangle",
        kind: Kind::V,
        entries: &[1, 0, 0, 1, 1, 0, 1, 0, 1],
        bases: 100,
        text: "row 0 0 1\nrow 0 1 0\nrow 1 -1 -1\n",
        end: End::Done(3, 0, 7),
        ..QUADRANT
    },
    Case {
        name: "a product passes behind the first list of two rows",
        entries: &[0, 1, 0, 0, 0, 1, 0, 1 << 100, 1, 0, 1, 1 << 100],
        bases: 100,
        text: "row 1 0 0\n",
        end: End::Overflow,
        ..QUADRANT
    },
    Case {
        name: "the sink fails within the first row",
        bases: 100,
        calls: &[Call::AtMost(3), Call::Fail],
        text: "row",
        end: End::Fault,
        ..QUADRANT
    },
];

#[test]
fn jobs_by_subsets(rt: HostRuntime) -> Result<(), Fail> {
    for case in CASES {
        let alloc = rt.alloc();
        let poly = poly_of(alloc, case.kind, 3, case.entries, case.linear)?;
        let sys = system_of(alloc, &poly)?;
        let Ok(mut work) = SubsetWork::new(alloc, &sys) else {
            return Err("no work")?;
        };
        let key = key_of(case.labels).ok_or("a key")?;
        let mut out = MemSink::new(alloc, case.calls);
        let budget = Budget {
            bases: case.bases,
            depth: case.depth,
        };
        let end = end_of(&mut work, &key, budget, &mut out);
        assert_eq!(rt;
            (end, out.written()),
            (case.end, case.text.as_bytes()),
            "{}",
            case.name
        );
    }
    Ok(())
}

// The key of these rows.
fn key_of(rows: &[u32]) -> Option<Key> {
    let mut key = Key::empty();
    for row in rows {
        key = with_row(key, *row)?;
    }
    Some(key)
}

// The key with one row more, if it has room.
fn with_row(key: Key, row: u32) -> Option<Key> {
    if key.len() < MOST_LABELS && 0 < row && row < 8192 {
        Some(key.with(Label::row(row)))
    } else {
        None
    }
}

// Runs the job, if its key and its budget may be run.
fn end_of<S: Sink>(work: &mut SubsetWork, key: &Key, budget: Budget, out: &mut S) -> End {
    if budget.bases == 0 || budget.bases > MOST_BASES || budget.depth > MOST_DEPTH {
        return End::NoKey;
    }
    match work.has_key(key) {
        Ok(true) => ended(work.run(key, budget, out)),
        _ => End::NoKey,
    }
}

fn ended(run: Result<Count, WorkStop>) -> End {
    match run {
        Ok(count) => End::Done(count.rows, count.jobs, count.bases),
        Err(WorkStop::Overflow(_)) => End::Overflow,
        Err(WorkStop::WriteFault) => End::Fault,
    }
}
