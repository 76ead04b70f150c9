//! Columns of dictionaries of polyhedra that can be drawn.
ghost use Rattle.std.specs.Prelude.{◌≡◌, ◌<◌, ◌≤◌, true, length, IsTrue};
ghost use Rattle.std.specs.List.{Contains};
ghost use Rattle.poly_model.specs.Systems.{row_of};
ghost use Rattle.hull_lift.specs.Facets.{IsColumn, HasPointRows};
ghost use Rattle.dictionary.specs.Blanks.{IsBlankOf};

use crate::tests::{File, poly_in};
use crate::{facet_row, is_shown, system_of};
use dictionary::{Dict, Steps};
use poly_model::{Kind, Label, OutOfMemory, Phase, System};
use poly_num::Num;
use std::alloc::Global;
use std::marker::Brand;
use std::sync::ledger::{Blank, Ledger};
use std::test::Fail;

/// A label, for tables that are constants.
#[derive(Clone, Copy)]
enum Named {
    Row(u32),
    Coordinate(u32),
    Constants,
}

/// A file, the exchanges (a row and a coordinate) that lead to a dictionary, and of a column of it the
/// vector, and whether it is shown. An H file is in the phase `Prepare`, a V file in `Cone`.
#[derive(Clone, Copy)]
struct Case {
    name: &'static str,
    file: File,
    exchanges: &'static [[u32; 2]],
    col: Named,
    vector: &'static [i128],
    shown: Option<bool>,
}

const SQUARE: Case = Case {
    name: "the corner (0, 0) of a square",
    file: File {
        kind: Kind::H,
        n: 3,
        entries: &[0, 1, 0, 0, 0, 1, 1, -1, 0, 1, 0, -1],
        linear: &[false, false, false, false],
    },
    exchanges: &[],
    col: Named::Constants,
    vector: &[1, 0, 0],
    shown: Some(true),
};

const WEDGE: Case = Case {
    name: "the corner (-1/2, 0) of a wedge",
    file: File {
        kind: Kind::H,
        n: 3,
        entries: &[1, 2, -3, 0, 0, 1],
        linear: &[false, false],
    },
    exchanges: &[[1, 1]],
    col: Named::Constants,
    vector: &[2, -1, 0],
    shown: Some(true),
};

const SEGMENT: Case = Case {
    name: "1 - x >= 0, which only the second point of a segment touches",
    file: File {
        kind: Kind::V,
        n: 2,
        entries: &[1, 0, 1, 1],
        linear: &[false, false],
    },
    exchanges: &[[1, 0], [2, 1]],
    col: Named::Row(1),
    vector: &[1, -1],
    shown: Some(true),
};

const HALF_LINE: Case = Case {
    name: "1 >= 0, which only the ray of a half line touches",
    file: File {
        kind: Kind::V,
        n: 2,
        entries: &[1, 0, 0, 1],
        linear: &[false, false],
    },
    exchanges: &[[1, 0], [2, 1]],
    col: Named::Row(1),
    vector: &[1, 0],
    shown: Some(false),
};

const CASES: [Case; 13] = [
    SQUARE,
    Case {
        name: "from there along the first axis",
        col: Named::Coordinate(1),
        vector: &[0, 1, 0],
        ..SQUARE
    },
    Case {
        name: "its corner (1, 0)",
        exchanges: &[[3, 1]],
        vector: &[1, 1, 0],
        ..SQUARE
    },
    Case {
        name: "from there back along the first axis",
        exchanges: &[[3, 1]],
        col: Named::Row(3),
        vector: &[0, -1, 0],
        ..SQUARE
    },
    WEDGE,
    Case {
        name: "from there along the second row",
        col: Named::Row(1),
        vector: &[0, 1, 0],
        ..WEDGE
    },
    Case {
        name: "from there along the first row",
        col: Named::Coordinate(2),
        vector: &[0, 3, 2],
        ..WEDGE
    },
    Case {
        name: "the end 1/2 of a half line, whose column is 4 and 2",
        file: File {
            kind: Kind::H,
            n: 2,
            entries: &[2, -4],
            linear: &[false],
        },
        vector: &[2, 1],
        ..WEDGE
    },
    SEGMENT,
    Case {
        name: "x >= 0, which only the first point touches",
        col: Named::Row(2),
        vector: &[0, 1],
        ..SEGMENT
    },
    Case {
        name: "the point of a cone, which is zero",
        col: Named::Constants,
        vector: &[0, 0],
        shown: None,
        ..SEGMENT
    },
    HALF_LINE,
    Case {
        name: "x >= 0, which the point touches",
        col: Named::Row(2),
        vector: &[0, 1],
        shown: Some(true),
        ..HALF_LINE
    },
];

#[test]
fn reads_columns(rt: HostRuntime) -> Result<(), Fail> {
    let alloc = rt.alloc();
    for case in CASES {
        let want = (Vec::from_slice(alloc, case.vector)?, case.shown);
        assert_eq!(rt; column(alloc, case)?, want, "{}", case.name);
    }
    Ok(())
}

/// The vector of the column, and whether it is shown.
fn column(alloc: Global, case: Case) -> Result<(Vec<i128>, Option<bool>), Fail> {
    let poly = poly_in(alloc, &case.file)?;
    let sys = system_of(alloc, &poly)?;
    let dict = dictionary_at(alloc, &sys, case.exchanges)?;
    let col = label_of(case.col).ok_or("a label")?;
    Ok((vector_of(alloc, &sys, &dict, col)?, shown(&sys, &dict, col)))
}

/// The label; none where the number is too large or 0.
fn label_of(named: Named) -> Option<Label> {
    match named {
        Named::Row(i) if 0 < i && i < 8192 => Some(Label::row(i)),
        Named::Coordinate(j) if j < 8192 => Some(Label::coordinate(j)),
        Named::Constants => Some(Label::CONSTANT),
        _ => None,
    }
}

fn dictionary_at(alloc: Global, sys: &System, exchanges: &[[u32; 2]]) -> Result<Dict, Fail> {
    dictionary_counted::<Brand>(alloc, sys, exchanges, Blank::new(1))
}

fn dictionary_counted<L: Ledger>(
    alloc: Global,
    sys: &System,
    exchanges: &[[u32; 2]],
    blank: Blank,
) -> Result<Dict, Fail>
    requires blank { IsBlankOf blank.name blank.parts L.name L.parts }
{
    let mut steps = Steps::<L>::new(blank);
    let mut dict = match sys.kind() {
        Kind::H => Dict::new(alloc, sys, Phase::Prepare)?,
        Kind::V => Dict::new(alloc, sys, Phase::Cone)?,
    };
    for [row, col] in exchanges {
        let row = label_of(Named::Row(*row)).ok_or("a row")?;
        let col = label_of(Named::Coordinate(*col)).ok_or("a coordinate")?;
        if !dict.can_pivot(row, col) {
            return Err("an exchange of a row and a column")?;
        }
        if dict.pivot(row, col, &mut steps).is_err() {
            return Err("small numbers")?;
        }
    }
    Ok(dict)
}

/// The vector of a column, or none where there is no such column.
fn vector_of(
    alloc: Global,
    sys: &System,
    dict: &Dict,
    col: Label,
) -> Result<Vec<i128>, OutOfMemory> {
    let mut entries = Vec::new(alloc);
    if is_column(dict, col) {
        let mut out = Vec::new(alloc);
        out.resize(sys.n() as usize, Num::ZERO)?;
        facet_row(dict, col, &mut out);
        for x in &out {
            entries.push(x.get())?;
        }
    }
    Ok(entries)
}

fn is_column(dict: &Dict, col: Label) -> bool
    ensures { IsTrue result → IsColumn dict.now col }
{
    if dict.in_cobasis(col) {
        return true;
    }
    col.is_constant()
}

/// Whether the vector of a column is shown, or nothing where that may not be asked.
fn shown(sys: &System, dict: &Dict, col: Label) -> Option<bool> {
    match sys.kind() {
        Kind::H => Some(is_shown(sys, dict, col)),
        Kind::V => shown_of_points(sys, dict, col),
    }
}

fn shown_of_points(sys: &System, dict: &Dict, col: Label) -> Option<bool> {
    if dict.in_cobasis(col) && has_point_rows(sys, dict) {
        Some(is_shown(sys, dict, col))
    } else {
        None
    }
}

fn has_point_rows(sys: &System, dict: &Dict) -> bool
    ensures { IsTrue result → HasPointRows sys.now dict.now }
{
    'rows: for i in 1..sys.rows() + 1 {
        if !stands(sys, dict, i) {
            return false;
        }
    }
    true
}

fn stands(sys: &System, dict: &Dict, i: u32) -> bool
    requires from_one { 0 < i }
    requires within { i ≤ length sys.now.rows }
    ensures { IsTrue result → (row_of sys.now.rows i).point ≡ true → Contains dict.now.labels i }
{
    sys.keeps_limits();
    !sys.is_point(i) || dict.has_label(Label::row(i))
}
