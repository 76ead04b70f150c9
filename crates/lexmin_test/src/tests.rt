//! The trees of the square and of the pyramid, and what is shown at their cobases and at those of unbounded polyhedra,
//! worked out by hand.
ghost use Rattle.std.specs.Prelude.{◌≡◌, ◌<◌};
ghost use Rattle.dictionary.specs.Blanks.{IsBlankOf};

use crate::{shows_point, shows_ray};
use dictionary::{Dict, Steps};
use lex_pivot::{Leads, Order, is_child, is_lex_feasible, leaving, parent};
use poly_model::{
    Key, Kind, Label, MOST_COLUMNS, MOST_CONE_ROWS, OutOfMemory, Phase, Root, RowKind, System,
};
use poly_num::Num;
use std::alloc::Global;
use std::marker::Brand;
use std::sync::ledger::{Blank, Ledger};
use std::test::Fail;

/// The rows of an H file and the row at infinity, the root, a cobasis, and what is read off its dictionary.
#[derive(Clone, Copy)]
struct Case {
    name: &'static str,
    n: u32,
    entries: &'static [i128],
    root: &'static [u32],
    key: &'static [u32],
    want: Answer,
}

/// Whether the cobasis is lexicographically feasible, whether its point is shown, the row and the column of the pivot to
/// its parent, and the columns of its first two labels.
#[derive(Clone, Copy, PartialEq, Eq, Debug)]
struct Answer {
    feasible: bool,
    point: bool,
    parent: Option<(u16, u16)>,
    first: Down,
    second: Down,
}

/// What is along a column: the row that leaves, with the neighbour a child or not; or else a ray, shown or not. That a row
/// leaves where the ray is shown cannot be.
#[derive(Clone, Copy, PartialEq, Eq, Debug)]
enum Down {
    Child(u16),
    Other(u16),
    Shown,
    Hidden,
    Both,
}

/// What is read off at a root whose point has no other cobasis before it.
const AT_A_ROOT: Answer = Answer {
    feasible: true,
    point: true,
    parent: None,
    first: Down::Hidden,
    second: Down::Hidden,
};

/// `x >= 0`, `y >= 0`, `x <= 1`, `y <= 1`, at the root.
const SQUARE: Case = Case {
    name: "the square at its root",
    n: 3,
    entries: &[0, 1, 0, 0, 0, 1, 1, -1, 0, 1, 0, -1, 1, 0, 0],
    root: &[1, 2],
    key: &[1, 2],
    want: Answer {
        first: Down::Child(3),
        second: Down::Child(4),
        ..AT_A_ROOT
    },
};

/// A square base, and an apex at which four rows meet.
const PYRAMID: Case = Case {
    name: "the pyramid at its root: rows 3 and 5 tie in the column of row 1",
    n: 4,
    entries: &[
        0, 0, 0, 1, 1, -1, 0, -1, 1, 1, 0, -1, 1, 0, -1, -1, 1, 0, 1, -1, 1, 0, 0, 0,
    ],
    root: &[1, 2, 4],
    key: &[1, 2, 4],
    want: Answer {
        first: Down::Child(5),
        second: Down::Child(3),
        ..AT_A_ROOT
    },
};

/// `x >= 0`, `0 <= y <= 1`.
const HALF_STRIP: Case = Case {
    name: "the half strip: its ray at the root, in the column of x",
    n: 3,
    entries: &[0, 1, 0, 0, 0, 1, 1, 0, -1, 1, 0, 0],
    root: &[1, 2],
    key: &[1, 2],
    want: Answer {
        first: Down::Shown,
        second: Down::Child(3),
        ..AT_A_ROOT
    },
};

const CASES: [Case; 12] = [
    SQUARE,
    Case {
        name: "the square beside its root",
        key: &[1, 4],
        want: Answer {
            feasible: true,
            point: true,
            parent: Some((2, 4)),
            first: Down::Child(3),
            second: Down::Other(2),
        },
        ..SQUARE
    },
    Case {
        name: "the square on the other side: the neighbour opposite is no child",
        key: &[2, 3],
        want: Answer {
            feasible: true,
            point: true,
            parent: Some((1, 3)),
            first: Down::Other(4),
            second: Down::Other(1),
        },
        ..SQUARE
    },
    Case {
        name: "the square opposite: the least of two columns enters",
        key: &[3, 4],
        want: Answer {
            feasible: true,
            point: true,
            parent: Some((1, 3)),
            first: Down::Other(1),
            second: Down::Other(2),
        },
        ..SQUARE
    },
    PYRAMID,
    Case {
        name: "the apex below the root, where it is shown",
        key: &[2, 4, 5],
        want: Answer {
            feasible: true,
            point: true,
            parent: Some((1, 5)),
            first: Down::Child(3),
            second: Down::Other(1),
        },
        ..PYRAMID
    },
    Case {
        name: "the apex again, where it is not",
        key: &[3, 4, 5],
        want: Answer {
            feasible: true,
            point: false,
            parent: Some((2, 3)),
            first: Down::Other(2),
            second: Down::Other(1),
        },
        ..PYRAMID
    },
    Case {
        name: "the apex, with a list that is negative",
        key: &[2, 3, 4],
        want: Answer {
            feasible: false,
            point: false,
            parent: Some((1, 3)),
            first: Down::Other(1),
            second: Down::Other(1),
        },
        ..PYRAMID
    },
    Case {
        name: "the point opposite, with a list that is negative",
        key: &[2, 3, 5],
        want: Answer {
            feasible: false,
            point: false,
            parent: Some((4, 5)),
            first: Down::Other(1),
            second: Down::Other(1),
        },
        ..PYRAMID
    },
    HALF_STRIP,
    Case {
        name: "the half strip at its other point: the ray is not shown again",
        key: &[1, 3],
        want: Answer {
            feasible: true,
            point: true,
            parent: Some((2, 3)),
            first: Down::Hidden,
            second: Down::Other(2),
        },
        ..HALF_STRIP
    },
    Case {
        name: "the quadrant: both rays, each with a row that is 0 along it",
        key: &[1, 2],
        want: Answer {
            feasible: true,
            point: true,
            parent: None,
            first: Down::Shown,
            second: Down::Shown,
        },
        entries: &[0, 1, 0, 0, 0, 1, 1, 0, 0],
        ..HALF_STRIP
    },
];

#[test]
fn trees_worked_out_by_hand(rt: HostRuntime) -> Result<(), Fail> {
    let alloc = rt.alloc();
    for case in CASES {
        assert_eq!(rt; answer_to(alloc, case)?, case.want, "{}", case.name);
    }
    Ok(())
}

fn answer_to(alloc: Global, case: Case) -> Result<Answer, Fail> {
    let sys = system(alloc, case.n, case.entries)?;
    let dict = dictionary_at(alloc, &sys, case.n, case.key)?;
    let root = Root::new(key_of(alloc, case.root)?);
    let labels = labels_of(alloc, case.key)?;
    Ok(Answer {
        feasible: is_lex_feasible(&dict, &root),
        point: shows_point(&dict, &root),
        parent: match parent(&dict, &root) {
            Some(pivot) => Some((pivot.row.number(), pivot.col.number())),
            None => None,
        },
        first: along(alloc, &dict, &root, label_at(&labels, 0))?,
        second: along(alloc, &dict, &root, label_at(&labels, 1))?,
    })
}

fn along(alloc: Global, dict: &Dict, root: &Root, col: Label) -> Result<Down, OutOfMemory> {
    if !dict.in_cobasis(col) {
        return Ok(Down::Both);
    }
    let order = Order::of(root);
    let leads = Leads::of(alloc, dict, &order)?;
    Ok(
        match (leaving(dict, root, col), shows_ray(dict, root, col)) {
            (Some(row), false) if is_child(dict, &order, &leads, col, row) => Down::Child(
                row.number(),
            ),
            (Some(row), false) => Down::Other(row.number()),
            (Some(_), true) => Down::Both,
            (None, true) => Down::Shown,
            (None, false) => Down::Hidden,
        },
    )
}

/// The cone of these cells, n to a row.
fn system(alloc: Global, n: u32, entries: &[i128]) -> Result<System, Fail> {
    let mut cells = Vec::new(alloc);
    for x in entries {
        cells.push(Num::new(*x).ok_or("a number of 127 bits")?)?;
    }
    if n == 0 || n > MOST_COLUMNS {
        return Err("a width")?;
    }
    let rows = entries.len() / n as usize;
    if rows > MOST_CONE_ROWS as usize || cells.len() != rows * n as usize {
        return Err("full rows, not too many")?;
    }
    let mut linear = Vec::new(alloc);
    linear.resize(rows, false)?;
    let mut kinds = Vec::new(alloc);
    kinds.resize(rows, RowKind::Ray)?;
    Ok(System::new(Kind::H, n, cells, linear, kinds))
}

/// The dictionary of a cobasis of rows.
fn dictionary_at(alloc: Global, sys: &System, n: u32, key: &[u32]) -> Result<Dict, Fail> {
    let mut dict = Dict::new(alloc, sys, Phase::Prepare)?;
    for row in key {
        enter(&mut dict, n, label(*row))?;
    }
    Ok(dict)
}

/// The row takes the place of the first coordinate at which it is not 0.
fn enter(dict: &mut Dict, n: u32, row: Label) -> Result<(), Fail> {
    for j in 1..n {
        if j < 8192 && dict.can_pivot(row, Label::coordinate(j)) {
            return exchange(dict, row, Label::coordinate(j));
        }
    }
    Err("a row that is not new")?
}

fn exchange(dict: &mut Dict, row: Label, col: Label) -> Result<(), Fail> {
    exchange_counted::<Brand>(dict, row, col, Blank::new(1))
}

fn exchange_counted<L: Ledger>(
    dict: &mut Dict,
    row: Label,
    col: Label,
    blank: Blank,
) -> Result<(), Fail>
    requires blank { IsBlankOf blank.name blank.parts L.name L.parts }
{
    if !dict.can_pivot(row, col) {
        return Err("no pivot")?;
    }
    match dict.pivot(row, col, &mut Steps::<L>::new(blank)) {
        Ok(()) => Ok(()),
        Err(_) => Err("an overflow")?,
    }
}

fn label(i: u32) -> Label {
    if 0 < i && i < 8192 {
        Label::row(i)
    } else {
        Label::EXTRA
    }
}

fn label_at(labels: &[Label], place: usize) -> Label {
    if place < labels.len() {
        labels[place]
    } else {
        Label::EXTRA
    }
}

fn labels_of(alloc: Global, rows: &[u32]) -> Result<Vec<Label>, OutOfMemory> {
    let mut labels = Vec::new(alloc);
    for row in rows {
        labels.push(label(*row))?;
    }
    Ok(labels)
}

fn key_of(alloc: Global, rows: &[u32]) -> Result<Key, OutOfMemory> {
    let labels = labels_of(alloc, rows)?;
    Ok(Key::from_ascending(&labels).unwrap_or(Key::empty()))
}
