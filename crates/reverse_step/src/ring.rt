//! A ring of slots: the places before and behind one, and memory for the slots.
ghost use Rattle.std.specs.Prelude.{◌≡◌, ◌≤◌, ◌<◌, ◌+◌, IfOk, length};
ghost use Rattle.std.specs.List.{All};
ghost use Rattle.reverse_step.specs.Rings.{IsSlotOf, before_in_ring};

use crate::slots::Slot;
use dictionary::Dict;
use lex_pivot::Order;
use poly_model::OutOfMemory;
use std::alloc::Global;

// So many ancestors are kept at most.
const MOST_SLOTS: usize = 15;

// And so many cells of their dictionaries in all, each of 48 bytes.
const MOST_CELLS: usize = 1_000_000;

/// The place behind one in a ring of so many places: behind the last comes the first.
pub(crate) fn place_after(count: usize, place: usize) -> usize
    requires { place < count }
    ensures within { result < count }
    ensures behind { before_in_ring count result ≡ place }
{
    if place + 1 < count { place + 1 } else { 0 }
}

/// The place before one in a ring of so many places: before the first comes the last.
pub(crate) fn place_before(count: usize, place: usize) -> usize
    requires { place < count }
    ensures within { result < count }
    ensures value { result ≡ before_in_ring count place }
{
    if place > 0 { place - 1 } else { count - 1 }
}

/// How many ancestors are known where one is more, in a ring of so many places: where all are taken the farthest is forgotten.
pub(crate) fn one_more(count: usize, known: usize) -> usize
    requires some { 0 < count }
    requires few { known ≤ count }
    ensures some { 0 < result }
    ensures within { result ≤ count }
    ensures more { result ≤ known + 1 }
{
    if known < count { known + 1 } else { count }
}

/// Slots for the ancestors of this dictionary: each has a dictionary of its shape. Takes memory for one, and for further ones
/// while there is memory and they are not too many.
pub(crate) fn slots_for(alloc: Global, dict: &Dict, order: &Order) -> Result<Vec<Slot>, OutOfMemory>
    ensures slots { IfOk result (λ v. All (IsSlotOf dict.now order.now) v.items) }
    ensures some { IfOk result (λ v. 0 < length v.items) }
{
    let mut slots = Vec::new(alloc);
    slots.push(Slot::of(alloc, dict.copy()?, order)?)?;
    add_slots(alloc, &mut slots, dict, order);
    Ok(slots)
}

// Further slots, where there is memory.
fn add_slots(alloc: Global, slots: &mut Vec<Slot>, dict: &Dict, order: &Order)
    requires { All (IsSlotOf dict.now order.now) slots.old.items }
    ensures slots { All (IsSlotOf dict.now order.now) slots.new.items }
    ensures more { length slots.old.items ≤ length slots.new.items }
{
    'slots: for _ in 1..slot_count(dict) {
        if add_slot(alloc, slots, dict, order).is_err() {
            return;
        }
    }
}

// One slot more.
fn add_slot(
    alloc: Global,
    slots: &mut Vec<Slot>,
    dict: &Dict,
    order: &Order,
) -> Result<(), OutOfMemory>
    requires { All (IsSlotOf dict.now order.now) slots.old.items }
    ensures slots { All (IsSlotOf dict.now order.now) slots.new.items }
    ensures more { length slots.old.items ≤ length slots.new.items }
{
    let slot = Slot::of(alloc, dict.copy()?, order)?;
    slots.push(slot)?;
    Ok(())
}

// How many slots there may be, by the cells of a dictionary.
fn slot_count(dict: &Dict) -> usize {
    let height = dict.rows().len().max(1);
    let width = dict.columns().len() + 1;
    (MOST_CELLS / height / width).min(MOST_SLOTS)
}
