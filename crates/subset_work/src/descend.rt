//! The way down to a key.
ghost use Rattle.std.specs.Prelude.{◌≡◌, ◌+◌, ◌-◌, ◌≤◌, ◌<◌, length, IfSome, IsNone};
ghost use Rattle.poly_model.specs.Limits.{most_labels};
ghost use Rattle.dictionary.specs.Views.{CanPivot};
ghost use Rattle.plain_enum.specs.Columns.{HasRows, IsColumnOf, HasNoColumn};

use crate::dead::RowList;
use crate::progress::Progress;
use plain_enum::{Prefix, column_of};
use poly_model::Label;

/// Where the way to a list stands: the dictionary at its first rows, the list itself, and the labels of the others. And how
/// far the walk has come.
#[derive(Clone, Copy)]
pub struct Way<'a> {
    pub prefix: Prefix<'a>,
    pub list: RowList<'a>,
    pub rest: &'a [Label],
    pub so_far: &'a Progress,
}

/// How many rows more a list may have, where so many may follow the first rows of the way.
pub fn left_of(way: &Way, depth: usize) -> usize
    requires fits { way.now.list.len ≤ most_labels }
    requires deep { way.now.list.len + depth ≤ most_labels + length way.now.rest.now }
    ensures value { result ≡ depth - length way.now.rest.now }
    ensures room { way.now.list.len + result ≤ most_labels }
{
    depth.saturating_sub(way.rest.len())
}

/// The column in whose place a row is taken; none where the label is that of no row, or the row depends on those before.
pub fn column_for(prefix: &Prefix, label: Label) -> Option<Label>
    requires { HasRows (length prefix.now.sys.now.rows) prefix.now.dict.now }
    ensures some { IfSome result (λ k. IsColumnOf prefix.now.dict.now prefix.now.free.now label k) }
    ensures pivots { IfSome result (λ k. CanPivot prefix.now.dict.now label k) }
    ensures none { IsNone result → 0 < label → label ≤ length prefix.now.sys.now.rows →
        HasNoColumn prefix.now.dict.now prefix.now.free.now label }
{
    let i = u32::from(label.number());
    if i == 0 || i > prefix.sys.rows() {
        return None;
    }
    column_of(prefix.dict, prefix.free, label)
}
