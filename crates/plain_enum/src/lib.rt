//! The plain program that lists a cone by subsets of its rows, and says whether it has a point; and, as laws
//! (functions with an empty body), what a dictionary of the cone's space tells at a prefix of rows.
//!
//! What is stated stands in `specs/`.
#![tactic(auto)]

mod answers;
mod begin;
mod feasible;
mod feasible_listing;
mod list;
mod plain;
mod prefix;
mod shown;
mod side;
#[cfg(test)]
mod tests;
mod visit;

ghost use Rattle.plain_enum.specs.Laws.{ValuesAtColumns, NewByEntry, FollowsByEntries, OneIsLeft, TestByEntries, BeginsAtEmptyPrefix, PivotTakes, DictionaryStays};

pub use answers::{FeasibleStop, PlainStop};
pub use begin::{Beginning, Room, begin as begin_listing};
pub use feasible::feasible_plain;
pub use feasible_listing::list_feasible;
pub use plain::list_plain;
pub use prefix::{Ended, Prefix};
pub use shown::{shown_side, write_direction};
pub use side::{Side, column_of, left_coordinate};
pub use visit::{Visit, take_row, visit_under};

/// The column of a label of the key is a vector at which each label has its entry there as value.
pub fn values_at_columns()
    ensures { ValuesAtColumns }
{}

/// The next row is new over base and rows taken where its entry at a label that is left is not 0, and follows from them
/// where all are 0.
pub fn next_row_by_entries()
    ensures new { NewByEntry }
    ensures follows { FollowsByEntries }
{}

/// Where one label is left, its column is the direction that is left, the columns of the rows taken are dual to them,
/// and the local test goes by entries.
pub fn where_one_is_left()
    ensures left { OneIsLeft }
    ensures tested { TestByEntries }
{}

/// From prefix to prefix: where the linear rows have been tried the dictionary stands at the empty one, a pivot takes
/// the next row, and where it is not taken the dictionary stays.
pub fn from_prefix_to_prefix()
    ensures begins { BeginsAtEmptyPrefix }
    ensures takes { PivotTakes }
    ensures stays { DictionaryStays }
{}
