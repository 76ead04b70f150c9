//! What is asked of a cobasis, in print.
ghost use Rattle.std.specs.List.{Contains};
ghost use Rattle.poly_model.specs.Tree.{Leaves};
ghost use Rattle.dictionary.specs.Views.{table_of};

use crate::stop::Stop;
use dictionary::Dict;
use lex_pivot::{Leads, Order, Pivot, is_child, is_lex_feasible, leaving, parent};
use lexmin_test::{shows_point, shows_ray};
use poly_model::{Label, OutOfMemory, Root};
use std::alloc::Global;
use std::io;

/// The labels of the root.
pub fn print_root(rt: &HostRuntime, root: &Root) -> io::Result<()> {
    print!(rt; "root")?;
    print_labels(rt, root.key().labels())?;
    println!(rt; "")
}

/// The labels of a cobasis, and the answer of each test, all on one line.
pub fn print_cobasis(rt: &HostRuntime, dict: &Dict, root: &Root) -> io::Result<()> {
    print!(rt; "cobasis")?;
    print_labels(rt, dict.cobasis())?;
    let feasible = if is_lex_feasible(dict, root) {
        "feasible"
    } else {
        "infeasible"
    };
    let point = shown(shows_point(dict, root));
    print!(rt; ", {feasible}, point {point}")?;
    print_parent(rt, dict, root)?;
    for col in dict.cobasis() {
        print_column(rt, dict, root, *col)?;
    }
    println!(rt; "")
}

fn print_labels(rt: &HostRuntime, labels: &[Label]) -> io::Result<()> {
    for label in labels {
        let number = label.number();
        print!(rt; " {number}")?;
    }
    Ok(())
}

// The row that leaves and the column that enters for it.
fn print_parent(rt: &HostRuntime, dict: &Dict, root: &Root) -> io::Result<()> {
    match parent(dict, root) {
        Some(pivot) => {
            let (row, col) = (pivot.row.number(), pivot.col.number());
            print!(rt; ", parent {row} for {col}")
        }
        None => print!(rt; ", no parent"),
    }
}

// Along a column: the row that leaves, with its neighbour, and the ray.
fn print_column(rt: &HostRuntime, dict: &Dict, root: &Root, col: Label) -> io::Result<()>
    requires { Contains dict.now.key col }
{
    let column = col.number();
    let ray = shown(shows_ray(dict, root, col));
    match leaving(dict, root, col) {
        Some(row) => {
            let neighbour = neighbour_word(rt.alloc(), dict, root, &Pivot { row, col });
            let number = row.number();
            print!(rt; ", at {column} {neighbour} {number} ray {ray}")
        }
        None => print!(rt; ", at {column} ray {ray}"),
    }
}

// What the neighbour of a pivot is.
fn neighbour_word(alloc: Global, dict: &Dict, root: &Root, pivot: &Pivot) -> &'static str
    requires column { Contains dict.now.key pivot.now.col }
    requires leaves { Leaves dict.now.labels root.now.key dict.now.key (table_of dict.now) pivot.now.col pivot.now.row }
{
    let order = Order::of(root);
    match Leads::of(alloc, dict, &order) {
        Ok(leads) if is_child(dict, &order, &leads, pivot.col, pivot.row) => "child",
        Ok(_) => "other",
        Err(OutOfMemory) => Stop::Memory.word(),
    }
}

fn shown(is_shown: bool) -> &'static str {
    if is_shown { "shown" } else { "hidden" }
}
