//! The rows of a cobasis that are outside the root.
ghost use Rattle.std.specs.Prelude.{◌≡◌, ◌≤◌, ◌<◌, ◌+◌, ◌++◌, ◌∷◌, [], if◌then◌else◌, length, take};
ghost use Rattle.lex_pivot.specs.Earlier.{is_before_root};
ghost use Rattle.lex_pivot.specs.BeforeRoot.{before_root};

use crate::Order;
use dictionary::Dict;
use poly_model::Label;

/// Gathers the labels of the cobasis that are rows outside the root, ascending, at the beginning of the room: how many they
/// are. What stands behind them says nothing. Takes no memory.
pub(crate) fn gather(dict: &Dict, order: &Order, room: &mut [Label]) -> usize
    requires { length dict.now.key ≤ length room.old }
    ensures gathered { take result room.new ≡ before_root dict.now order.now }
    ensures within { result ≤ length room.new }
    ensures room { length room.new ≡ length room.old }
{
    let labels = dict.cobasis();
    let mut len = 0;
    'labels: for label in labels {
        len = add(order, *label, room, len);
    }
    len
}

// The next label of the cobasis comes behind the first so many if it is a row outside the root: how many they are then.
#[inline(always)]
fn add(order: &Order, label: Label, room: &mut [Label], len: usize) -> usize
    requires { len < length room.old }
    ensures gathered { take result room.new ≡
        take len room.old ++ (if is_before_root order.now label then label ∷ [] else []) }
    ensures within { result ≤ len + 1 }
    ensures room { length room.new ≡ length room.old }
{
    if order.is_before_root(label) {
        room[len] = label;
        len + 1
    } else {
        len
    }
}
