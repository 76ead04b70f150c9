//! The pivot that leads to the parent.
ghost use Rattle.std.specs.Prelude.{◌≡◌, ◌↔◌, IsTrue, IfSome};
ghost use Rattle.std.specs.List.{Contains};
ghost use Rattle.std.specs.Option.{MatchOption};
ghost use Rattle.poly_model.specs.Tree.{MayEnter};
ghost use Rattle.dictionary.specs.Views.{table_of};
ghost use Rattle.lex_pivot.specs.BeforeRoot.{before_root};
ghost use Rattle.lex_pivot.specs.Above.{NoneEnters, EntersAt, LeadsToParent, IsRootExactly, EntersOn, IsLeastOn, NoneOn};

use crate::before_root::gather;
use crate::orderings::is_less;
use crate::ratio::leaving_along;
use crate::{Order, Reading, root_sign};
use dictionary::Dict;
use poly_model::{Label, MOST_LABELS, Root};
use poly_num::Num;

/// A row that leaves, and the column that enters for it.
#[derive(Clone, Copy, PartialEq, Eq, Debug)]
pub struct Pivot {
    pub row: Label,
    pub col: Label,
}

/// The pivot that leads to the parent. None exactly where no column may enter: then there is no parent. In a column that
/// may enter some row of the root is negative, so a row leaves.
pub fn parent(dict: &Dict, root: &Root) -> Option<Pivot>
    ensures pivot { MatchOption result (NoneEnters dict.now root.now.key) (λ p. LeadsToParent dict.now root.now.key p.col p.row) }
    ensures root { IsRootExactly dict.now root.now.key result }
{
    parent_by(dict, &Order::of(root))
}

/// The same by the order relative to the root. Takes no memory.
pub fn parent_by(dict: &Dict, order: &Order) -> Option<Pivot>
    ensures pivot { MatchOption result (NoneEnters dict.now order.now) (λ p. LeadsToParent dict.now order.now p.col p.row) }
    ensures root { IsRootExactly dict.now order.now result }
{
    // a key has at most `MOST_LABELS` labels
    let _few = dict.key().len();
    let mut room = [Label::EXTRA; MOST_LABELS];
    let len = gather(dict, order, &mut room);
    parent_along(dict, order, &room[..len])
}

/// The same with the rows of the cobasis that are outside the root, for a caller that keeps them (`Leads::before_root`).
pub fn parent_along(dict: &Dict, order: &Order, before: &[Label]) -> Option<Pivot>
    requires { before.now ≡ before_root dict.now order.now }
    ensures pivot { MatchOption result (NoneEnters dict.now order.now) (λ p. LeadsToParent dict.now order.now p.col p.row) }
    ensures root { IsRootExactly dict.now order.now result }
{
    // a label of the cobasis is negative in no column
    let (_cobasis, _denominator) = (dict.cobasis(), dict.denominator());
    match entering(dict, order) {
        Some(col) => match leaving_along(dict, order, before, col) {
            Some(row) => Some(Pivot { row, col }),
            None => None,
        },
        None => None,
    }
}

// The label whose column enters: the least in the order relative to the root.
fn entering(dict: &Dict, order: &Order) -> Option<Label>
    ensures column { IfSome result (λ s. Contains dict.now.key s) }
    ensures enters { MatchOption result (NoneEnters dict.now order.now) (λ s. EntersAt dict.now order.now s) }
{
    // the labels ascend
    let _all = dict.labels();
    match first_on(dict, order, false) {
        Some(col) => Some(col),
        None => first_on(dict, order, true),
    }
}

// The least label, of those in the root or of those outside it, whose column may enter.
fn first_on(dict: &Dict, order: &Order, inside: bool) -> Option<Label>
    ensures { MatchOption result (NoneOn dict.now order.now inside) (λ s. IsLeastOn dict.now order.now inside s) }
{
    let labels = dict.cobasis();
    'columns: for col in labels {
        if enters_on(dict, order, inside, *col) {
            return Some(*col);
        }
    }
    None
}

fn enters_on(dict: &Dict, order: &Order, inside: bool, col: Label) -> bool
    requires { Contains dict.now.key col }
    ensures { IsTrue result ↔ EntersOn dict.now order.now inside col }
{
    order.has(col) == inside && may_enter(dict, order, col)
}

// Whether the greatest row of the root that is not 0 in the column is negative there.
fn may_enter(dict: &Dict, order: &Order, col: Label) -> bool
    requires { Contains dict.now.key col }
    ensures { IsTrue result ↔ MayEnter dict.now.labels order.now (table_of dict.now) col }
{
    is_less(root_sign(dict, order, &Reading::<Num>::Entry { col }))
}
