//! Walks through the trees of the square and of a pyramid, worked out by hand.
ghost use Rattle.std.specs.Prelude.{◌≡◌, ◌<◌};
ghost use Rattle.dictionary.specs.Blanks.{IsBlankOf};

use crate::{Visit, Walker};
use dictionary::{Dict, Steps};
use poly_model::{
    Key, Kind, Label, MOST_COLUMNS, MOST_CONE_ROWS, OutOfMemory, Phase, Root, RowKind, System,
};
use poly_num::Num;
use std::alloc::Global;
use std::marker::Brand;
use std::sync::ledger::{Blank, Ledger};
use std::test::Fail;

/// `x >= 0`, `y >= 0`, `x <= 1`, `y <= 1`, and the row at infinity.
const SQUARE: [i128; 15] = [0, 1, 0, 0, 0, 1, 1, -1, 0, 1, 0, -1, 1, 0, 0];

/// A square base, an apex at which four rows meet, and the row at infinity.
const PYRAMID: [i128; 24] = [
    0, 0, 0, 1, 1, -1, 0, -1, 1, 1, 0, -1, 1, 0, -1, -1, 1, 0, 1, -1, 1, 0, 0, 0,
];

/// What a step did, and the labels of the cobasis where it stands then.
#[derive(PartialEq, Eq, Debug, Drop)]
struct Step {
    visit: Visit,
    key: Vec<u16>,
}

/// The steps of a walk from the root to its end.
fn walk(alloc: Global, dict: Dict) -> Result<Vec<Step>, Fail> {
    walk_counted::<Brand>(alloc, dict, Blank::new(1))
}

fn walk_counted<L: Ledger>(alloc: Global, dict: Dict, blank: Blank) -> Result<Vec<Step>, Fail>
    requires blank { IsBlankOf blank.name blank.parts L.name L.parts }
{
    let mut steps = Steps::<L>::new(blank);
    let root = Root::new(dict.key());
    let mut walker = Walker::new(alloc, dict, &root)?;
    let mut all = Vec::new(alloc);
    for _ in 0..20 {
        let visit = take_step(&mut walker, &mut steps)?;
        all.push(Step {
            visit,
            key: numbers_of(alloc, walker.dict())?,
        })?;
        if visit == Visit::End {
            break;
        }
    }
    Ok(all)
}

fn numbers_of(alloc: Global, dict: &Dict) -> Result<Vec<u16>, OutOfMemory> {
    let mut numbers = Vec::new(alloc);
    for label in dict.cobasis() {
        numbers.push(label.number())?;
    }
    Ok(numbers)
}

fn take_step<L: Ledger>(walker: &mut Walker, steps: &mut Steps<L>) -> Result<Visit, Fail> {
    match walker.next(steps) {
        Ok(visit) => Ok(visit),
        Err(_) => Err("an overflow")?,
    }
}

/// The dictionary at the cobasis of these rows, each in the place of the coordinate beside it.
fn dict_at(alloc: Global, n: u32, entries: &[i128], start: &[(u32, u32)]) -> Result<Dict, Fail> {
    if n == 0 || n > MOST_COLUMNS {
        return Err("some columns, and not many")?;
    }
    let rows = entries.len() / n as usize;
    let mut cells = Vec::new(alloc);
    for x in entries {
        cells.push(Num::new(*x).unwrap_or(Num::ZERO))?;
    }
    if cells.len() != rows * n as usize || rows > MOST_CONE_ROWS as usize {
        return Err("whole rows, and not many")?;
    }
    let linear = Vec::from_elem(alloc, false, rows)?;
    let kinds = Vec::from_elem(alloc, RowKind::Ray, rows)?;
    let sys = System::new(Kind::H, n, cells, linear, kinds);
    let mut dict = Dict::new(alloc, &sys, Phase::Prepare)?;
    for (row, coordinate) in start {
        exchange::<Brand>(&mut dict, *row, *coordinate, Blank::new(1))?;
    }
    Ok(dict)
}

fn exchange<L: Ledger>(dict: &mut Dict, row: u32, coordinate: u32, blank: Blank) -> Result<(), Fail>
    requires blank { IsBlankOf blank.name blank.parts L.name L.parts }
{
    if row == 0 || row >= 8192 || coordinate >= 8192 {
        return Err("labels")?;
    }
    let (row, col) = (Label::row(row), Label::coordinate(coordinate));
    if !dict.can_pivot(row, col) || dict.pivot(row, col, &mut Steps::<L>::new(blank)).is_err() {
        return Err("no pivot")?;
    }
    Ok(())
}

fn step_to(alloc: Global, visit: Visit, key: &[u16]) -> Result<Step, OutOfMemory> {
    Ok(Step {
        visit,
        key: Vec::from_slice(alloc, key)?,
    })
}

#[test]
fn visits_each_cobasis_once(rt: HostRuntime) -> Result<(), Fail> {
    let alloc = rt.alloc();
    let square = dict_at(alloc, 3, &SQUARE, &[(1, 1), (2, 2)])?;
    let mut want = Vec::new(alloc);
    for (visit, key) in [
        (Visit::New, [2, 3]),
        (Visit::Back, [1, 2]),
        (Visit::New, [1, 4]),
        (Visit::New, [3, 4]),
        (Visit::Back, [1, 4]),
        (Visit::Back, [1, 2]),
        (Visit::End, [1, 2]),
    ] {
        want.push(step_to(alloc, visit, &key)?)?;
    }
    assert_eq!(rt; walk(alloc, square)?, want);
    let pyramid = dict_at(alloc, 4, &PYRAMID, &[(1, 3), (2, 1), (4, 2)])?;
    let mut want = Vec::new(alloc);
    for (visit, key) in [
        (Visit::New, [2, 4, 5]),
        (Visit::New, [3, 4, 5]),
        (Visit::Back, [2, 4, 5]),
        (Visit::Back, [1, 2, 4]),
        (Visit::New, [1, 3, 4]),
        (Visit::Back, [1, 2, 4]),
        (Visit::New, [1, 2, 5]),
        (Visit::New, [1, 3, 5]),
        (Visit::Back, [1, 2, 5]),
        (Visit::Back, [1, 2, 4]),
        (Visit::End, [1, 2, 4]),
    ] {
        want.push(step_to(alloc, visit, &key)?)?;
    }
    assert_eq!(rt; walk(alloc, pyramid)?, want);
    Ok(())
}

/// Whether a walk began anew at a key, how many cobases it found from then on, and where it ended.
#[derive(PartialEq, Eq, Debug, Drop)]
struct Start {
    started: bool,
    found: usize,
    end: Vec<u16>,
}

/// A start at the key of these rows, after one step of a walk from the root.
fn start_at(alloc: Global, dict: Dict, rows: &[u16]) -> Result<Start, Fail> {
    start_counted::<Brand>(alloc, dict, rows, Blank::new(1))
}

fn start_counted<L: Ledger>(
    alloc: Global,
    dict: Dict,
    rows: &[u16],
    blank: Blank,
) -> Result<Start, Fail>
    requires blank { IsBlankOf blank.name blank.parts L.name L.parts }
{
    let mut steps = Steps::<L>::new(blank);
    let root = Root::new(dict.key());
    let mut walker = Walker::new(alloc, dict, &root)?;
    take_step(&mut walker, &mut steps)?;
    let key = key_of(alloc, rows)?;
    let started = take_start(&mut walker, &key, &mut steps)?;
    let mut found = 0usize;
    for _ in 0..20 {
        match take_step(&mut walker, &mut steps)? {
            Visit::New => found = found.saturating_add(1),
            Visit::Back => {}
            Visit::End => break,
        }
    }
    Ok(Start {
        started,
        found,
        end: numbers_of(alloc, walker.dict())?,
    })
}

fn key_of(alloc: Global, rows: &[u16]) -> Result<Key, Fail> {
    let mut labels = Vec::new(alloc);
    for i in rows {
        let i = u32::from(*i);
        if i == 0 || i >= 8192 {
            return Err("rows")?;
        }
        labels.push(Label::row(i))?;
    }
    match Key::from_ascending(&labels) {
        Some(key) => Ok(key),
        None => Err("a key")?,
    }
}

fn take_start<L: Ledger>(
    walker: &mut Walker,
    key: &Key,
    steps: &mut Steps<L>,
) -> Result<bool, Fail> {
    match walker.start(key, steps) {
        Ok(started) => Ok(started),
        Err(_) => Err("an overflow")?,
    }
}

// In the pyramid, at 2 4 5, which it finds first under the root 1 2 4: the root again, where it stands, one without children
// and one with a child. Then rows that depend, two cobases at the apex that are not lexicographically feasible, a label of no
// row, and keys that are too short and too long: the four that were left are found.
#[test]
fn starts_at_each_cobasis(rt: HostRuntime) -> Result<(), Fail> {
    let alloc = rt.alloc();
    for (rows, started, found) in [
        (&[1, 2, 4][..], true, 5),
        (&[2, 4, 5][..], true, 1),
        (&[3, 4, 5][..], true, 0),
        (&[1, 2, 5][..], true, 1),
        (&[1, 2, 3][..], false, 4),
        (&[1, 4, 5][..], false, 4),
        (&[2, 3, 4][..], false, 4),
        (&[2, 3, 5][..], false, 4),
        (&[1, 2, 6][..], false, 4),
        (&[1, 2][..], false, 4),
        (&[1, 2, 4, 5][..], false, 4),
    ] {
        let pyramid = dict_at(alloc, 4, &PYRAMID, &[(1, 3), (2, 1), (4, 2)])?;
        let end: &[u16] = if started { rows } else { &[1, 2, 4] };
        let want = Start {
            started,
            found,
            end: Vec::from_slice(alloc, end)?,
        };
        assert_eq!(rt; start_at(alloc, pyramid, rows)?, want);
    }
    Ok(())
}
