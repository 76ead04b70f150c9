//! Tables of two columns of three cells, exchanged to and fro, against tables worked out by hand.
ghost use Rattle.std.specs.Prelude.{◌≡◌, ◌↔◌, IfOk, IsTrue, length, pos};

use crate::size::Size;
use crate::{Cells, Exchange, Passing, Spot, exchange_cells};
use poly_num::Num;
use std::alloc::{AllocError, Global};
use std::test::Fail;

fn num(value: i128) -> Num {
    Num::new(value).unwrap_or(Num::ZERO)
}

/// The cells of a table: three of the first column, and three of the second.
fn table(alloc: Global, cells: [i128; 6]) -> Result<Cells, AllocError>
    ensures { IfOk result (λ c. length c ≡ 6) }
{
    let [a, b, c, d, e, f] = cells;
    let wide = Vec::from_slice(alloc, &[num(a), num(b), num(c), num(d), num(e), num(f)])?;
    Cells::new(wide)
}

fn numbers(cells: &Cells) -> Option<[i128; 6]> {
    if cells.len() != 6 {
        return None;
    }
    Some([
        cells.at(3, 0, 0).get(),
        cells.at(3, 1, 0).get(),
        cells.at(3, 2, 0).get(),
        cells.at(3, 0, 1).get(),
        cells.at(3, 1, 1).get(),
        cells.at(3, 2, 1).get(),
    ])
}

#[tactic(auto, using(std::proofs::lemmas::Bool::Decides::nat_tests))]
fn is_zero(a: Num) -> bool
    ensures { IsTrue result ↔ (a ≡ pos 0) }
{
    a == Num::ZERO
}

/// What is exchanged: a row and a column, over a denominator.
#[derive(Clone, Copy)]
struct Task {
    row: usize,
    column: usize,
    denominator: i128,
}

/// The exchange, where it can be carried out: the new denominator, or where it passes.
fn exchanged(
    old: &Cells,
    own: &mut Cells,
    new: &mut Cells,
    task: &Task,
) -> Option<Result<i128, Passing>> {
    let denominator = num(task.denominator);
    if old.len() != 6 || new.len() != 6 || own.len() != 3 {
        return None;
    }
    if task.row >= 3 || task.column >= 2 || !denominator.is_positive() {
        return None;
    }
    if is_zero(old.at(3, task.row, task.column)) {
        return None;
    }
    let x = Exchange {
        height: 3,
        width: 2,
        row: task.row,
        column: task.column,
        denominator,
    };
    match exchange_cells(old, own, new, &x) {
        Ok(d) => Some(Ok(d.get())),
        Err(passing) => Some(Err(passing)),
    }
}

/// How the cells are kept; words that are known to be small or halves are told apart.
#[derive(Clone, Copy, PartialEq, Eq, Debug)]
enum Form {
    Small,
    Halves,
    Words,
    Wide,
}

fn form_of(cells: &Cells) -> Form {
    if cells.is_wide {
        return Form::Wide;
    }
    match cells.size {
        Size::Small => Form::Small,
        Size::Halves => Form::Halves,
        Size::Words => Form::Words,
    }
}

/// What an exchange answers, the table after it, and how that is kept.
#[derive(Clone, Copy, PartialEq, Eq, Debug)]
struct Seen {
    answer: Option<Result<i128, Passing>>,
    cells: Option<[i128; 6]>,
    form: Form,
}

fn look_at(answer: Option<Result<i128, Passing>>, cells: &Cells) -> Seen {
    Seen {
        answer,
        cells: numbers(cells),
        form: form_of(cells),
    }
}

/// What an exchange of row 1 and the first column makes of a table, and what the same makes of that.
#[derive(Clone, Copy, PartialEq, Eq, Debug)]
struct Outcome {
    there: Seen,
    back: Seen,
}

fn outcome_of(alloc: Global, case: &Case) -> Result<Outcome, AllocError> {
    let mut old = table(alloc, case.cells)?;
    let mut new = table(alloc, [0; 6])?;
    let mut own = Cells::new(Vec::from_slice(alloc, &[Num::ZERO; 3])?)?;
    let there = Task {
        row: 1,
        column: 0,
        denominator: case.denominator,
    };
    let back = Task {
        row: 1,
        column: 0,
        denominator: case.next,
    };
    let first = exchanged(&old, &mut own, &mut new, &there);
    let there = look_at(first, &new);
    let second = exchanged(&new, &mut own, &mut old, &back);
    let back = look_at(second, &old);
    Ok(Outcome { there, back })
}

/// A table over a denominator, and the table after the exchange, over another.
#[derive(Clone, Copy)]
struct Case {
    name: &'static str,
    cells: [i128; 6],
    denominator: i128,
    new: [i128; 6],
    next: i128,
    form: Form,
    form_again: Form,
}

fn cases() -> [Case; 8] {
    let (a, b, c, most) = (1 << 30, 1 << 40, 1 << 50, i128::MAX);
    [
        Case {
            name: "small",
            cells: [3, 4, 1, 5, 6, -3],
            denominator: 2,
            new: [3, 2, 1, 1, -6, -9],
            next: 4,
            form: Form::Small,
            form_again: Form::Small,
        },
        Case {
            name: "one cell just too large to be small",
            cells: [1, 1, 1, (1 << 14) - 1, -1, 0],
            denominator: 1,
            new: [1, 1, 1, 1 << 14, 1, 1],
            next: 1,
            form: Form::Halves,
            form_again: Form::Small,
        },
        Case {
            name: "halves",
            cells: [1, 1, 2, 1 << 20, 3, 1 << 14],
            denominator: 1,
            new: [1, 1, 2, (1 << 20) - 3, -3, (1 << 14) - 6],
            next: 1,
            form: Form::Halves,
            form_again: Form::Halves,
        },
        Case {
            name: "the divisor shrinks, the signs are turned, and it is found again that all are small",
            cells: [5, -4, 3, 7, 1, 2],
            denominator: 6,
            new: [-30, -36, -18, 33, 6, 11],
            next: 24,
            form: Form::Small,
            form_again: Form::Small,
        },
        Case {
            name: "words",
            cells: [1, b, 3, 0, 32 * a, 1],
            denominator: 1,
            new: [1, 1, 3, -32 * a, -32 * a, 928 * a],
            next: b,
            form: Form::Words,
            form_again: Form::Words,
        },
        Case {
            name: "wide numbers, and back to words",
            cells: [1, b, a, 0, c, 0],
            denominator: 1,
            new: [1, 1, a, -c, -c, -a * c],
            next: b,
            form: Form::Wide,
            form_again: Form::Words,
        },
        Case {
            name: "no product with the denominator where nothing is taken",
            cells: [3, most, -5, 7, 0, 9],
            denominator: most,
            new: [3, most, -5, 7, 0, 9],
            next: most,
            form: Form::Wide,
            form_again: Form::Wide,
        },
        Case {
            name: "the divisor of wide numbers shrinks, and the signs are turned",
            cells: [-most, -most, -most, 7, 0, 9],
            denominator: most,
            new: [most, -most, most, 7, 0, 9],
            next: most,
            form: Form::Wide,
            form_again: Form::Wide,
        },
    ]
}

#[test]
fn exchanges_worked_out_by_hand(rt: HostRuntime) -> Result<(), Fail> {
    let cases = cases();
    for case in &cases {
        let want = Outcome {
            there: Seen {
                answer: Some(Ok(case.next)),
                cells: Some(case.new),
                form: case.form,
            },
            back: Seen {
                answer: Some(Ok(case.denominator)),
                cells: Some(case.cells),
                form: case.form_again,
            },
        };
        let found = outcome_of(rt.alloc(), case)?;
        assert_eq!(rt; found, want, "{}", case.name);
    }
    Ok(())
}

/// A table and an exchange that passes, and where.
#[derive(Clone, Copy)]
struct Refusal {
    name: &'static str,
    cells: [i128; 6],
    task: Task,
    want: Passing,
}

fn refusals() -> [Refusal; 6] {
    let (d, e, f) = (1 << 70, 1 << 60, (1 << 65) + 1);
    [
        Refusal {
            name: "inside",
            cells: [1, d, d, 0, d, d],
            task: Task {
                row: 1,
                column: 0,
                denominator: 1,
            },
            want: Passing::Cell(Spot { row: 2, column: 1 }),
        },
        Refusal {
            name: "column, where the divisor shrinks",
            cells: [f, 1, 0, 1, 0, 1],
            task: Task {
                row: 1,
                column: 0,
                denominator: d,
            },
            want: Passing::Cell(Spot { row: 0, column: 0 }),
        },
        Refusal {
            name: "column, where the divisor has shrunk",
            cells: [1, 0, 1, f, 1, 0],
            task: Task {
                row: 1,
                column: 1,
                denominator: d,
            },
            want: Passing::Cell(Spot { row: 0, column: 1 }),
        },
        Refusal {
            name: "corner",
            cells: [1, 1, 1, 1, 0, 1],
            task: Task {
                row: 1,
                column: 0,
                denominator: d,
            },
            want: Passing::Cell(Spot { row: 1, column: 0 }),
        },
        Refusal {
            name: "leaving",
            cells: [1, e + 1, 1, 0, 1, 0],
            task: Task {
                row: 1,
                column: 1,
                denominator: d,
            },
            want: Passing::Cell(Spot { row: 1, column: 0 }),
        },
        Refusal {
            name: "denominator",
            cells: [1, d + 1, 1, 1, 0, 1],
            task: Task {
                row: 1,
                column: 0,
                denominator: e,
            },
            want: Passing::Denominator,
        },
    ]
}

fn answer_of(
    alloc: Global,
    cells: [i128; 6],
    task: &Task,
) -> Result<Option<Result<i128, Passing>>, AllocError> {
    let old = table(alloc, cells)?;
    let mut new = table(alloc, [0; 6])?;
    let mut own = Cells::new(Vec::from_slice(alloc, &[Num::ZERO; 3])?)?;
    Ok(exchanged(&old, &mut own, &mut new, task))
}

#[test]
fn refuses_what_passes(rt: HostRuntime) -> Result<(), Fail> {
    let refusals = refusals();
    for refusal in &refusals {
        let found = answer_of(rt.alloc(), refusal.cells, &refusal.task)?;
        assert_eq!(rt; found, Some(Err(refusal.want)), "{}", refusal.name);
    }
    Ok(())
}

/// A table copied twice, first into room of its own and then over another table.
fn copies(
    alloc: Global,
    cells: [i128; 6],
) -> Result<(Option<[i128; 6]>, Option<[i128; 6]>), AllocError> {
    let old = table(alloc, cells)?;
    let copy = old.copy()?;
    let mut other = table(alloc, [1 << 70; 6])?;
    if other.len() == copy.len() {
        copy.copy_into(&mut other);
    }
    Ok((numbers(&copy), numbers(&other)))
}

#[test]
fn copies_words_and_wide_numbers(rt: HostRuntime) -> Result<(), Fail> {
    let table = [[1, 2, 3, 4, 5, 6], [1, 2, 3, 4, 5, 1 << 100]];
    for cells in table {
        let found = copies(rt.alloc(), cells)?;
        assert_eq!(rt; found, (Some(cells), Some(cells)));
    }
    Ok(())
}

/// The second column of a table: its form, its cells, and which of them are not 0 and which are negative.
#[derive(Clone, Copy, PartialEq, Eq, Debug)]
struct Read {
    form: Form,
    cells: [i128; 3],
    nonzero: [bool; 3],
    negative: [bool; 3],
}

fn second_of(alloc: Global, cells: [i128; 6]) -> Result<Read, AllocError> {
    let table = table(alloc, cells)?;
    let column = table.column(3, 1);
    Ok(Read {
        form: form_of(&table),
        cells: [column.at(0).get(), column.at(1).get(), column.at(2).get()],
        nonzero: [
            column.is_nonzero(0),
            column.is_nonzero(1),
            column.is_nonzero(2),
        ],
        negative: [
            column.is_negative(0),
            column.is_negative(1),
            column.is_negative(2),
        ],
    })
}

#[test]
fn reads_a_column_in_words_and_in_wide_numbers(rt: HostRuntime) -> Result<(), Fail> {
    let (words, wide) = ([1, 2, 3, -4, 0, 6], [1, 2, 1 << 100, -4, 0, 6]);
    for (cells, form) in [(words, Form::Small), (wide, Form::Wide)] {
        let want = Read {
            form,
            cells: [-4, 0, 6],
            nonzero: [true, false, true],
            negative: [true, false, false],
        };
        assert_eq!(rt; second_of(rt.alloc(), cells)?, want);
    }
    Ok(())
}
