//! The children in the columns of a cobasis, read off its dictionary.
ghost use Rattle.std.specs.Prelude.{length};
ghost use Rattle.std.specs.List.{Contains};
ghost use Rattle.std.specs.Option.{MatchOption};
ghost use Rattle.lex_pivot.specs.Leads.{AreLeads};
ghost use Rattle.reverse_step.specs.Children.{HasNoChildAt, LeadsToChild, NoneBetween, IsFirstChild};

use dictionary::Dict;
use lex_pivot::{Leads, Order, is_child, leads_up, leaving_along};
use poly_model::Label;

/// The pivot that leads to a child: the row that leaves, the column that it enters for, and the place of that in the key.
#[derive(Clone, Copy, PartialEq, Eq, Debug)]
pub struct ChildPivot {
    pub row: Label,
    pub col: Label,
    pub place: usize,
}

/// The pivot to the first child in the columns from this place of the key on, if there is one. The leads are those of the
/// dictionary.
pub(crate) fn first_child(
    dict: &Dict,
    order: &Order,
    leads: &Leads,
    at: usize,
) -> Option<ChildPivot>
    requires { AreLeads dict.now order.now leads.now }
    ensures { MatchOption result (NoneBetween order.now dict.now at (length dict.now.key))
        (λ p. IsFirstChild order.now dict.now at p) }
{
    let labels = dict.cobasis();
    'columns: for place in at..labels.len() {
        let col = labels[place];
        if let Some(row) = child_at(dict, order, leads, col) {
            return Some(ChildPivot { row, col, place });
        }
    }
    None
}

/// The row that leaves in a column, if the neighbour there is a child. About half of the columns need no ratio test for it.
pub(crate) fn child_at(dict: &Dict, order: &Order, leads: &Leads, col: Label) -> Option<Label>
    requires leads { AreLeads dict.now order.now leads.now }
    requires column { Contains dict.now.key col }
    ensures { MatchOption result (HasNoChildAt order.now dict.now col) (λ r. LeadsToChild order.now dict.now col r) }
{
    if !leads_up(dict, order, leads, col) {
        return None;
    }
    let Some(row) = leaving_along(dict, order, leads.before_root(), col) else {
        return None;
    };
    if is_child(dict, order, leads, col, row) {
        Some(row)
    } else {
        None
    }
}
