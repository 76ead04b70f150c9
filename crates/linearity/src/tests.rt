//! Elimination worked out by hand.
ghost use Rattle.std.specs.Prelude.{◌≡◌, length};

use crate::{Pass, enter_rows};
use dictionary::Dict;
use poly_model::{Key, Kind, Label, MOST_CONE_ROWS, Phase, RowKind, System};
use poly_num::Num;
use std::alloc::Global;
use std::test::Fail;

/// The rows of a cone in three coordinates, those that are linear, and the cobases after the first pass and after both,
/// if no number passes.
#[derive(Clone, Copy)]
struct Case {
    name: &'static str,
    entries: &'static [i128],
    linear: &'static [bool],
    first: Option<[Label; 3]>,
    both: Option<[Label; 3]>,
}

#[derive(Clone, Copy, PartialEq, Eq, Debug)]
struct Passes {
    first: Option<Key>,
    both: Option<Key>,
}

const LARGE: i128 = 1 << 100;

fn cases() -> [Case; 4] {
    [
        Case {
            name: "the equation enters before the row above it",
            entries: &[0, 0, 1, 0, 1, 1, 1, 0, 0],
            linear: &[false, true, false],
            first: Some([Label::row(2), Label::coordinate(0), Label::coordinate(2)]),
            both: Some([Label::row(1), Label::row(2), Label::row(3)]),
        },
        Case {
            name: "an equation twice, and a free column",
            entries: &[0, 1, 1, 0, 2, 2, 1, 0, 0],
            linear: &[true, true, false],
            first: Some([Label::row(1), Label::coordinate(0), Label::coordinate(2)]),
            both: Some([Label::row(1), Label::row(3), Label::coordinate(2)]),
        },
        Case {
            name: "an equation of 0, and a row that is 0 where the other has entered",
            entries: &[0, 0, 0, 0, -3, 2, 0, 6, -4],
            linear: &[true, false, false],
            first: Some([
                Label::coordinate(0),
                Label::coordinate(1),
                Label::coordinate(2),
            ]),
            both: Some([Label::row(2), Label::coordinate(0), Label::coordinate(2)]),
        },
        Case {
            name: "rows of 200 bits",
            entries: &[1, 0, 0, 0, LARGE, 1, 0, 1, LARGE],
            linear: &[true, false, false],
            first: Some([Label::row(1), Label::coordinate(1), Label::coordinate(2)]),
            both: None,
        },
    ]
}

#[test]
fn rows_enter_the_cobasis(rt: HostRuntime) -> Result<(), Fail> {
    let cases = cases();
    for case in &cases {
        let alloc = rt.alloc();
        let cone = cone_of(alloc, case.entries, case.linear)?;
        let mut dict = Dict::new(alloc, &cone, Phase::Cone)?;
        let first = pass(&mut dict, &cone, Pass::Linear);
        let both = pass(&mut dict, &cone, Pass::Others);
        let want = Passes {
            first: key_of(&case.first),
            both: key_of(&case.both),
        };
        assert_eq!(rt; Passes { first, both }, want, "{}", case.name);
    }
    Ok(())
}

fn pass(dict: &mut Dict, cone: &System, which: Pass) -> Option<Key> {
    match enter_rows(dict, cone, which) {
        Ok(()) => Some(dict.key()),
        Err(_) => None,
    }
}

fn key_of(labels: &Option<[Label; 3]>) -> Option<Key> {
    match labels {
        Some(labels) => Key::from_ascending(labels),
        None => None,
    }
}

fn cone_of(alloc: Global, entries: &[i128], linear: &[bool]) -> Result<System, Fail> {
    let mut cells = Vec::new(alloc);
    for x in entries {
        cells.push(Num::new(*x).ok_or("a number of 127 bits")?)?;
    }
    let linear = Vec::from_slice(alloc, linear)?;
    if linear.len() > MOST_CONE_ROWS as usize || cells.len() != linear.len() * 3 {
        return Err("few rows, each of three entries")?;
    }
    let mut kinds = Vec::new(alloc);
    kinds.resize(linear.len(), RowKind::Ray)?;
    Ok(System::new(Kind::H, 3, cells, linear, kinds))
}
