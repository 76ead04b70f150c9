//! Dictionaries worked out by hand.
ghost use Rattle.std.specs.Prelude.{◌≡◌, ◌<◌, IfOk, length};
ghost use Rattle.poly_model.specs.Labels.{coordinates_from};
ghost use Rattle.dictionary.specs.Blanks.{IsBlankOf};

use crate::{Dict, Position, Steps};
use poly_model::{
    FreeColumns, Key, Kind, Label, MOST_COLUMNS, OutOfMemory, Overflow, Phase, Place, RowKind,
    System,
};
use poly_num::Num;
use std::alloc::Global;
use std::marker::Brand;
use std::sync::ledger::{Blank, Ledger};
use std::test::Fail;

/// Two rows of three numbers, an exchange, and the dictionary after it: its key, its denominator, and
/// for the labels 1, 2, x1 and x2 the constant and the entry at each label of the key.
#[derive(Clone, Copy)]
struct Case {
    name: &'static str,
    first: [i128; 3],
    second: [i128; 3],
    row: Label,
    col: Label,
    key: [Label; 2],
    denominator: i128,
    numbers: [[i128; 3]; 4],
}

fn row(i: u32) -> Label
    requires positive { 0 < i }
    requires within { i < coordinates_from }
{
    Label::row(i)
}

fn x(j: u32) -> Label
    requires { j < coordinates_from }
{
    Label::coordinate(j)
}

fn num(value: i128) -> Num {
    Num::new(value).unwrap_or(Num::ZERO)
}

/// The cone of an H file of two rows: they, and the row at infinity. The first may be linear.
fn system(
    alloc: Global,
    first: [i128; 3],
    linear: bool,
    second: [i128; 3],
) -> Result<System, OutOfMemory> {
    let [a, b, c] = first;
    let [d, e, f] = second;
    let cells = Vec::from_slice(
        alloc,
        &[
            num(a),
            num(b),
            num(c),
            num(d),
            num(e),
            num(f),
            Num::ONE,
            Num::ZERO,
            Num::ZERO,
        ],
    )?;
    let linear = Vec::from_slice(alloc, &[linear, false, false])?;
    let kinds = Vec::from_slice(alloc, &[RowKind::Ray, RowKind::Ray, RowKind::Ray])?;
    Ok(System::new(Kind::H, 3, cells, linear, kinds))
}

fn constant(dict: &Dict, row: Label) -> Option<i128> {
    if dict.has_label(row) {
        Some(dict.constant(row).get())
    } else {
        None
    }
}

fn entry(dict: &Dict, row: Label, col: Label) -> Option<i128> {
    if dict.has_label(row) && dict.in_cobasis(col) {
        Some(dict.entry(row, col).get())
    } else {
        None
    }
}

fn pivot(dict: &mut Dict, row: Label, col: Label) -> Option<Result<(), Overflow>> {
    pivot_counted::<Brand>(dict, row, col, Blank::new(1))
}

fn pivot_counted<L: Ledger>(
    dict: &mut Dict,
    row: Label,
    col: Label,
    blank: Blank,
) -> Option<Result<(), Overflow>>
    requires blank { IsBlankOf blank.name blank.parts L.name L.parts }
{
    if dict.can_pivot(row, col) {
        Some(dict.pivot(row, col, &mut Steps::<L>::new(blank)))
    } else {
        None
    }
}

/// The dictionary after a pivot into another one, which was a copy.
fn pivoted(dict: &Dict, row: Label, col: Label) -> Result<Dict, OutOfMemory> {
    pivoted_counted::<Brand>(dict, row, col, Blank::new(1))
}

fn pivoted_counted<L: Ledger>(
    dict: &Dict,
    row: Label,
    col: Label,
    blank: Blank,
) -> Result<Dict, OutOfMemory>
    requires blank { IsBlankOf blank.name blank.parts L.name L.parts }
{
    let mut to = dict.copy()?;
    dict.copy_into(&mut to);
    if dict.can_pivot(row, col) {
        let _ = dict.pivot_into(&mut to, row, col, &mut Steps::<L>::new(blank));
    }
    Ok(to)
}

/// The numbers of a label: its constant, and its entries at two labels.
fn numbers(dict: &Dict, row: Label, key: [Label; 2]) -> [Option<i128>; 3] {
    [
        constant(dict, row),
        entry(dict, row, key[0]),
        entry(dict, row, key[1]),
    ]
}

fn known(numbers: [i128; 3]) -> [Option<i128>; 3] {
    [Some(numbers[0]), Some(numbers[1]), Some(numbers[2])]
}

fn cases() -> [Case; 3] {
    [
        Case {
            name: "row 1 for x1",
            first: [1, 2, -3],
            second: [0, 0, 1],
            row: row(1),
            col: x(1),
            key: [row(1), x(2)],
            denominator: 2,
            numbers: [[0, 2, 0], [0, 0, 2], [-1, 1, 3], [0, 0, 2]],
        },
        Case {
            name: "a negative entry turns the signs",
            first: [4, -2, 6],
            second: [1, 1, 1],
            row: row(1),
            col: x(1),
            key: [row(1), x(2)],
            denominator: 2,
            numbers: [[0, 2, 0], [6, -1, 8], [4, -1, 6], [0, 0, 2]],
        },
        Case {
            name: "numbers of more than one word",
            first: [0, 1 << 63, 1],
            second: [1, 0, 3],
            row: row(1),
            col: x(1),
            key: [row(1), x(2)],
            denominator: 1 << 63,
            numbers: [
                [0, 1 << 63, 0],
                [1 << 63, 0, 3 << 63],
                [0, 1, -1],
                [0, 0, 1 << 63],
            ],
        },
    ]
}

/// What a pivot makes of the dictionary of the coordinates, and what the pivot back makes of that.
#[derive(Clone, Copy, PartialEq, Eq, Debug)]
struct Outcome {
    pivoted: Option<Result<(), Overflow>>,
    key: Key,
    denominator: i128,
    first_row: [Option<i128>; 3],
    second_row: [Option<i128>; 3],
    second_row_beside: [Option<i128>; 3],
    x1: [Option<i128>; 3],
    x2: [Option<i128>; 3],
    back: Option<Result<(), Overflow>>,
    first_again: [Option<i128>; 3],
}

fn outcome_of(alloc: Global, case: &Case) -> Result<Outcome, OutOfMemory> {
    let sys = system(alloc, case.first, false, case.second)?;
    let mut dict = Dict::new(alloc, &sys, Phase::Prepare)?;
    let beside = pivoted(&dict, case.row, case.col)?;
    let pivoted = pivot(&mut dict, case.row, case.col);
    let (key, denominator) = (dict.key(), dict.denominator().get());
    let first_row = numbers(&dict, row(1), case.key);
    let second_row = numbers(&dict, row(2), case.key);
    let x1 = numbers(&dict, x(1), case.key);
    let x2 = numbers(&dict, x(2), case.key);
    let back = pivot(&mut dict, case.col, case.row);
    Ok(Outcome {
        pivoted,
        key,
        denominator,
        first_row,
        second_row,
        second_row_beside: numbers(&beside, row(2), case.key),
        x1,
        x2,
        back,
        first_again: numbers(&dict, row(1), [x(1), x(2)]),
    })
}

#[test]
fn pivots_worked_out_by_hand(rt: HostRuntime) -> Result<(), Fail> {
    let cases = cases();
    for case in &cases {
        let [a, b, c, d] = case.numbers;
        let want = Outcome {
            pivoted: Some(Ok(())),
            key: Key::from_ascending(&case.key).unwrap_or(Key::empty()),
            denominator: case.denominator,
            first_row: known(a),
            second_row: known(b),
            second_row_beside: known(b),
            x1: known(c),
            x2: known(d),
            back: Some(Ok(())),
            first_again: known(case.first),
        };
        assert_eq!(rt; outcome_of(rt.alloc(), case)?, want, "{}", case.name);
    }
    Ok(())
}

#[test]
fn refuses_what_passes(rt: HostRuntime) -> Result<(), Fail> {
    let alloc = rt.alloc();
    let (first, second) = ([0, 1 << 64, 1], [0, 1, 1 << 64]);
    let sys = system(alloc, first, false, second)?;
    let mut dict = Dict::new(alloc, &sys, Phase::Prepare)?;
    let key = dict.key();
    assert_eq!(rt; key.labels(), [x(1), x(2)].as_slice());
    let place = |row: Label, col: Label| Place { row, col };
    let overflow = Overflow {
        phase: Phase::Prepare,
        key,
        a: place(row(1), x(1)),
        b: place(row(2), x(2)),
        c: place(row(2), x(1)),
        d: place(row(1), x(2)),
    };
    assert_eq!(rt; pivot(&mut dict, row(1), x(1)), Some(Err(overflow)));
    assert_eq!(rt; dict.key(), key);
    assert_eq!(rt; dict.denominator(), Num::ONE);
    assert_eq!(rt; numbers(&dict, row(1), [x(1), x(2)]), known(first));
    assert_eq!(rt; numbers(&dict, row(2), [x(1), x(2)]), known(second));
    assert_eq!(rt; pivot(&mut dict, x(1), x(2)), None);
    Ok(())
}

/// The cone of an H file of one row of two numbers: it, and the row at infinity.
fn narrow(alloc: Global, first: Num, second: Num) -> Result<System, OutOfMemory> {
    let cells = Vec::from_slice(alloc, &[first, second, Num::ONE, Num::ZERO])?;
    let linear = Vec::from_slice(alloc, &[false, false])?;
    let kinds = Vec::from_slice(alloc, &[RowKind::Ray, RowKind::Ray])?;
    Ok(System::new(Kind::H, 2, cells, linear, kinds))
}

#[test]
fn asks_for_no_square_of_the_denominator(rt: HostRuntime) -> Result<(), Fail> {
    let sys = narrow(rt.alloc(), num(i128::MAX), Num::ONE)?;
    let mut dict = Dict::new(rt.alloc(), &sys, Phase::Cone)?;
    let first = pivot(&mut dict, row(1), x(0));
    let over = dict.denominator().get();
    let second = pivot(&mut dict, row(2), x(1));
    assert_eq!(rt;
        (
            first,
            over,
            second,
            dict.denominator().get(),
            entry(&dict, x(1), row(1)),
            entry(&dict, x(1), row(2))
        ),
        (
            Some(Ok(())),
            i128::MAX,
            Some(Ok(())),
            1,
            Some(1),
            Some(-i128::MAX)
        )
    );
    Ok(())
}

/// What the dictionary of the coordinates has in the phase `Cone`: its key, a row's numbers, those of the row at infinity,
/// and the entry of a coordinate in its own column.
#[derive(Clone, Copy, PartialEq, Eq, Debug)]
struct Beginning {
    phase: Phase,
    key: Key,
    first_row: [Option<i128>; 3],
    at_infinity: [Option<i128>; 3],
    own: Option<i128>,
}

fn beginning_of(alloc: Global) -> Result<Beginning, OutOfMemory> {
    let sys = system(alloc, [1, 2, -3], false, [0, 0, 1])?;
    let dict = Dict::new(alloc, &sys, Phase::Cone)?;
    Ok(Beginning {
        phase: dict.phase(),
        key: dict.key(),
        first_row: numbers(&dict, row(1), [x(0), x(2)]),
        at_infinity: numbers(&dict, row(3), [x(0), x(1)]),
        own: entry(&dict, x(0), x(0)),
    })
}

#[test]
fn the_cone_has_no_constants(rt: HostRuntime) -> Result<(), Fail> {
    let want = Beginning {
        phase: Phase::Cone,
        key: Key::from_ascending(&[x(0), x(1), x(2)]).unwrap_or(Key::empty()),
        first_row: known([0, 1, -3]),
        at_infinity: known([0, 1, 0]),
        own: Some(1),
    };
    assert_eq!(rt; beginning_of(rt.alloc())?, want);
    Ok(())
}

#[test]
fn the_main_phase_has_no_equation(rt: HostRuntime) -> Result<(), Fail> {
    let sys = system(rt.alloc(), [0, 1, -1], true, [3, 2, 1])?;
    let mut dict = Dict::new(rt.alloc(), &sys, Phase::Prepare)?;
    assert_eq!(rt; pivot(&mut dict, row(1), x(1)), Some(Ok(())));
    let main = dict.to_main(&sys, &FreeColumns::from_vec(Vec::new(rt.alloc())))?;
    assert_eq!(rt; main.phase(), Phase::Main);
    assert_eq!(rt; main.key().labels(), [x(2)].as_slice());
    assert_eq!(rt; main.denominator(), Num::ONE);
    assert_eq!(rt; constant(&main, row(1)), None);
    assert_eq!(rt;
        (constant(&main, row(2)), entry(&main, row(2), x(2))),
        (Some(3), Some(3))
    );
    assert_eq!(rt;
        (constant(&main, x(1)), entry(&main, x(1), x(2))),
        (Some(0), Some(1))
    );
    Ok(())
}

/// The cone of an H file of one row, `1 2 3 .. n`: it, and the row at infinity.
fn wide(alloc: Global, n: u32) -> Result<System, Fail> {
    let mut cells = Vec::new(alloc);
    for j in 0..n {
        cells.push(num(i128::from(j) + 1))?;
    }
    for j in 0..n {
        cells.push(num(if j == 0 { 1 } else { 0 }))?;
    }
    if n == 0 || n > MOST_COLUMNS || cells.len() != 2 * n as usize {
        return Err("few columns, and two rows")?;
    }
    let linear = Vec::from_slice(alloc, &[false, false])?;
    let kinds = Vec::from_slice(alloc, &[RowKind::Ray, RowKind::Ray])?;
    Ok(System::new(Kind::H, n, cells, linear, kinds))
}

/// A row of a dictionary: its constant, and its entries at the labels of the cobasis.
fn row_of(alloc: Global, dict: &Dict, row: Label) -> Result<Vec<Option<i128>>, OutOfMemory> {
    let mut numbers = Vec::new(alloc);
    numbers.push(constant(dict, row))?;
    let key = dict.key();
    for label in key.labels() {
        numbers.push(entry(dict, row, *label))?;
    }
    Ok(numbers)
}

/// Whether two dictionaries have one phase, one key and one denominator.
fn are_alike(dict: &Dict, other: &Dict) -> bool {
    dict.phase() == other.phase()
        && dict.key() == other.key()
        && dict.denominator() == other.denominator()
}

/// Of a copy of a hundred columns, which is like the first: how many labels its key has, and a row of it beside that of the
/// first.
fn copied(alloc: Global) -> Result<(usize, Vec<Option<i128>>, Vec<Option<i128>>), Fail> {
    let sys = wide(alloc, 100)?;
    let dict = Dict::new(alloc, &sys, Phase::Prepare)?;
    let copy = dict.copy()?;
    if !are_alike(&dict, &copy) {
        return Err("phase, key or denominator")?;
    }
    let here = row_of(alloc, &copy, row(1))?;
    let there = row_of(alloc, &dict, row(1))?;
    Ok((copy.key().len(), here, there))
}

#[test]
fn copies_a_hundred_columns(rt: HostRuntime) -> Result<(), Fail> {
    let (labels, here, there) = copied(rt.alloc())?;
    assert_eq!(rt; (labels, here.len(), here == there), (99, 100, true));
    Ok(())
}

/// Where rows 1 and 2 and x1 and x2 stand.
type Standing = [Option<Position>; 4];

fn position(dict: &Dict, label: Label) -> Option<Position> {
    if dict.has_label(label) {
        Some(dict.position(label))
    } else {
        None
    }
}

fn standing(dict: &Dict) -> Standing {
    [
        position(dict, row(1)),
        position(dict, row(2)),
        position(dict, x(1)),
        position(dict, x(2)),
    ]
}

/// The positions in the dictionary of the coordinates, after a pivot, after the same pivot into a dictionary that stood
/// elsewhere, and of the phase `Main` without row 1, which is linear.
#[derive(Clone, Copy, PartialEq, Eq, Debug)]
struct Standings {
    first: Standing,
    elsewhere: Standing,
    into: Standing,
    pivoted: Standing,
    main: Standing,
}

fn pivot_over(dict: &Dict, to: &mut Dict, row: Label, col: Label) {
    pivot_over_counted::<Brand>(dict, to, row, col, Blank::new(1));
}

fn pivot_over_counted<L: Ledger>(dict: &Dict, to: &mut Dict, row: Label, col: Label, blank: Blank)
    requires blank { IsBlankOf blank.name blank.parts L.name L.parts }
{
    let same = dict.labels().len() == to.labels().len()
        && dict.columns().len() == to.columns().len();
    if same && dict.can_pivot(row, col) {
        let _ = dict.pivot_into(to, row, col, &mut Steps::<L>::new(blank));
    }
}

fn standings_of(alloc: Global) -> Result<Standings, OutOfMemory> {
    let sys = system(alloc, [0, 1, -1], true, [3, 2, 1])?;
    let mut dict = Dict::new(alloc, &sys, Phase::Prepare)?;
    let first = standing(&dict);
    let mut other = dict.copy()?;
    let _ = pivot(&mut other, row(2), x(1));
    let elsewhere = standing(&other);
    pivot_over(&dict, &mut other, row(1), x(1));
    let into = standing(&other);
    let _ = pivot(&mut dict, row(1), x(1));
    let pivoted = standing(&dict);
    let main = dict.to_main(&sys, &FreeColumns::from_vec(Vec::new(alloc)))?;
    Ok(Standings {
        first,
        elsewhere,
        into,
        pivoted,
        main: standing(&main),
    })
}

#[test]
fn knows_where_labels_stand(rt: HostRuntime) -> Result<(), Fail> {
    let at_row = |i: u16| Some(Position::Row(i));
    let at_column = |j: u16| Some(Position::Column(j));
    let pivoted = [at_column(1), at_row(1), at_row(0), at_column(2)];
    let want = Standings {
        first: [at_row(0), at_row(1), at_column(1), at_column(2)],
        elsewhere: [at_row(0), at_column(1), at_row(1), at_column(2)],
        into: pivoted,
        pivoted,
        main: [None, at_row(1), at_row(0), at_column(1)],
    };
    assert_eq!(rt; standings_of(rt.alloc())?, want);
    Ok(())
}

fn cell(dict: &Dict, i: usize, j: usize) -> Option<i128> {
    if j > dict.columns().len() {
        return None;
    }
    let column = dict.column(j);
    if i < column.len() {
        Some(column.at(i).get())
    } else {
        None
    }
}

/// The cells of the column of x1 in two rows.
fn cells_of(alloc: Global, first: [i128; 3]) -> Result<[Option<i128>; 2], OutOfMemory> {
    let sys = system(alloc, first, false, [0, 0, 1])?;
    let dict = Dict::new(alloc, &sys, Phase::Prepare)?;
    Ok([cell(&dict, 0, 1), cell(&dict, 1, 1)])
}

#[test]
fn reads_a_column(rt: HostRuntime) -> Result<(), Fail> {
    for entry in [2, 1 << 70] {
        let cells = cells_of(rt.alloc(), [1, entry, -3])?;
        assert_eq!(rt; cells, [Some(entry), Some(0)]);
    }
    Ok(())
}

/// The last of all labels, ascending, whose number in column j is not 0.
fn lead(dict: &Dict, j: usize) -> Option<usize> {
    if j <= dict.columns().len() {
        dict.lead(dict.labels(), j)
    } else {
        None
    }
}

fn leads_of(alloc: Global, first: [i128; 3]) -> Result<[Option<usize>; 3], OutOfMemory> {
    let sys = system(alloc, first, false, [0, 0, 1])?;
    let dict = Dict::new(alloc, &sys, Phase::Prepare)?;
    Ok([lead(&dict, 0), lead(&dict, 1), lead(&dict, 2)])
}

#[test]
fn names_the_last_label_that_is_not_0(rt: HostRuntime) -> Result<(), Fail> {
    for (first, constant) in [([1, 2, -3], Some(0)), ([0, 1 << 70, 1], None)] {
        let leads = leads_of(rt.alloc(), first)?;
        assert_eq!(rt; leads, [constant, Some(2), Some(3)]);
    }
    Ok(())
}

/// The cone of an H file of three rows, x1 and x2 at least 0, over different units, and x1 + 2 x2 at least 1: they, and
/// the row at infinity.
fn corner(alloc: Global) -> Result<System, OutOfMemory> {
    let cells = Vec::from_slice(
        alloc,
        &[
            num(0),
            num(2),
            num(0),
            num(0),
            num(0),
            num(1),
            num(-2),
            num(2),
            num(4),
            Num::ONE,
            Num::ZERO,
            Num::ZERO,
        ],
    )?;
    let linear = Vec::from_slice(alloc, &[false, false, false, false])?;
    let kinds = Vec::from_slice(
        alloc,
        &[RowKind::Ray, RowKind::Ray, RowKind::Ray, RowKind::Ray],
    )?;
    Ok(System::new(Kind::H, 3, cells, linear, kinds))
}

/// All of a dictionary: `numbers` has the constant and the entries of each label, label by label.
#[derive(PartialEq, Eq, Debug, Drop)]
struct Whole {
    phase: Phase,
    key: Key,
    denominator: i128,
    numbers: Vec<Option<i128>>,
}

fn whole_of(alloc: Global, dict: &Dict) -> Result<Whole, OutOfMemory> {
    let mut numbers = Vec::new(alloc);
    for label in dict.labels() {
        numbers.extend_from_slice(&row_of(alloc, dict, *label)?)?;
    }
    Ok(Whole {
        phase: dict.phase(),
        key: dict.key(),
        denominator: dict.denominator().get(),
        numbers,
    })
}

/// The dictionary of rows 1 and 2 in the phase `Main`.
fn main_of(alloc: Global) -> Result<Dict, OutOfMemory> {
    let sys = corner(alloc)?;
    let mut dict = Dict::new(alloc, &sys, Phase::Prepare)?;
    let _ = pivot(&mut dict, row(1), x(1));
    let _ = pivot(&mut dict, row(2), x(2));
    dict.to_main(&sys, &FreeColumns::from_vec(Vec::new(alloc)))
}

/// Two pivots after t has come, and what is there then: the key with t and the numbers over 2, label by label, and the same
/// once t has gone.
#[derive(Clone, Copy)]
struct Walk {
    name: &'static str,
    pivots: [(Label, Label); 2],
    key: [Label; 3],
    numbers: [i128; 24],
    key_left: [Label; 2],
    numbers_left: [i128; 15],
}

fn walks() -> [Walk; 2] {
    let t = Label::EXTRA;
    [
        Walk {
            name: "row 3 for t, and back",
            pivots: [(row(3), t), (t, row(3))],
            key: [t, row(1), row(2)],
            // t, rows 1 to 3, x1 and x2
            numbers: [
                0, 2, 0, 0, 0, 0, 2, 0, 0, 0, 0, 2, -4, 2, 2, 8, 0, 0, 1, 0, 0, 0, 0, 2,
            ],
            key_left: [row(1), row(2)],
            numbers_left: [0, 2, 0, 0, 0, 2, -4, 2, 8, 0, 1, 0, 0, 0, 2],
        },
        Walk {
            name: "t is lowered to 0",
            pivots: [(row(3), t), (t, row(1))],
            key: [t, row(2), row(3)],
            numbers: [
                0, 2, 0, 0, 4, -2, -8, 2, 0, 0, 2, 0, 0, 0, 0, 2, 2, -1, -4, 1, 0, 0, 2, 0,
            ],
            key_left: [row(2), row(3)],
            numbers_left: [4, -8, 2, 0, 2, 0, 0, 0, 2, 2, -4, 1, 0, 2, 0],
        },
    ]
}

fn known_whole(
    alloc: Global,
    phase: Phase,
    key: &[Label],
    known: &[i128],
) -> Result<Whole, OutOfMemory> {
    let mut numbers = Vec::new(alloc);
    for number in known {
        numbers.push(Some(*number))?;
    }
    Ok(Whole {
        phase,
        key: Key::from_ascending(key).unwrap_or(Key::empty()),
        denominator: 2,
        numbers,
    })
}

fn wanted(alloc: Global, walk: &Walk) -> Result<(Whole, Whole), OutOfMemory> {
    Ok((
        known_whole(alloc, Phase::First, &walk.key, &walk.numbers)?,
        known_whole(alloc, Phase::Main, &walk.key_left, &walk.numbers_left)?,
    ))
}

fn walked(alloc: Global, walk: &Walk) -> Result<(Whole, Whole), OutOfMemory> {
    let mut dict = main_of(alloc)?.add_t()?;
    for (row, col) in &walk.pivots {
        let _ = pivot(&mut dict, *row, *col);
    }
    let first = whole_of(alloc, &dict)?;
    Ok((first, whole_of(alloc, &dict.drop_t()?)?))
}

#[test]
fn t_comes_and_goes(rt: HostRuntime) -> Result<(), Fail> {
    let walks = walks();
    for walk in &walks {
        let want = wanted(rt.alloc(), walk)?;
        assert_eq!(rt; walked(rt.alloc(), walk)?, want, "{}", walk.name);
    }
    Ok(())
}
