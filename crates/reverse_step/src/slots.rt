//! The dictionaries that a walk keeps, each with its leads, and the pivots between them.
ghost use Rattle.std.specs.Prelude.{◌≡◌, ◌≤◌, ◌+◌, true, Ok, IfOk, IfErr, length};
ghost use Rattle.dictionary.specs.Views.{CanPivot, IsPivot, IsOverflow, overflow_of};
ghost use Rattle.lex_pivot.specs.Leads.{AreLeads};
ghost use Rattle.reverse_step.specs.Rings.{IsSlotOf, parent_in};
ghost use Rattle.reverse_step.specs.Walks.{AreAlike};
ghost use Rattle.reverse_step.specs.Ways.{StopsOnTheWay, Reaches};

use crate::way::reach;
use dictionary::{Dict, PassingProducts, Steps};
use lex_pivot::{Leads, Order, Pivot};
use poly_model::{Key, Label, OutOfMemory, Overflow};
use std::alloc::Global;
use std::mem::swap;
use std::sync::ledger::Ledger;

/// A dictionary with its leads; and, where it is an ancestor's, the column in which the next one is its child.
#[derive(Drop)]
pub(crate) struct Slot {
    // in a box, so that two slots change places without a copy of it
    pub dict: Box<Dict>,
    pub leads: Leads,
    pub column: Label,
}

impl Slot {
    /// That of this dictionary. Takes memory for the box and the leads.
    pub(crate) fn of(alloc: Global, dict: Dict, order: &Order) -> Result<Slot, OutOfMemory>
        ensures dict { IfOk result (λ s. s.dict.value ≡ dict) }
        ensures leads { IfOk result (λ s. AreLeads dict order.now s.leads) }
    {
        let leads = Leads::of(alloc, &dict, order)?;
        let dict = Box::new(alloc, dict)?;
        Ok(Slot {
            dict,
            leads,
            column: Label::EXTRA,
        })
    }
}

/// Pivots into the other slot, and then the two change places: `next` has the one from before, with the column of the pivot.
/// Where the pivot is refused, nothing has changed.
pub(crate) fn pivot_over<L: Ledger>(
    here: &mut Slot,
    next: &mut Slot,
    order: &Order,
    pivot: &Pivot,
    steps: &mut Steps<L>,
) -> Result<(), PassingProducts>
    requires can { CanPivot here.old.dict.value pivot.now.row pivot.now.col }
    requires leads { AreLeads here.old.dict.value order.now here.old.leads }
    requires next { IsSlotOf here.old.dict.value order.now next.old }
    ensures pivoted { IfOk result (λ _. IsPivot here.old.dict.value pivot.now.row pivot.now.col here.new.dict.value) }
    ensures leads { AreLeads here.new.dict.value order.now here.new.leads }
    ensures next { IsSlotOf here.new.dict.value order.now next.new }
    ensures alike { AreAlike here.old.dict.value here.new.dict.value }
    ensures parent { IfOk result (λ _. parent_in next.new ≡ record { dict = here.old.dict.value; column = pivot.now.col }) }
    ensures unchanged { IfErr result (λ _. (here.new ≡ here.old) × (parent_in next.new ≡ parent_in next.old)) }
    ensures passes { IfErr result (λ p. IsOverflow here.old.dict.value pivot.now.row pivot.now.col
        (overflow_of here.old.dict.value p)) }
    ensures counted { steps.new ≤ steps.old + 1 }
{
    pivot_into(&here.dict, &mut next.dict, pivot, steps)?;
    swap(here, next);
    next.column = pivot.col;
    here.leads.read(&here.dict, order);
    Ok(())
}

// Pivots into the dictionary in a box.
fn pivot_into<L: Ledger>(
    here: &Dict,
    next: &mut Box<Dict>,
    pivot: &Pivot,
    steps: &mut Steps<L>,
) -> Result<(), PassingProducts>
    requires can { CanPivot here.now pivot.now.row pivot.now.col }
    requires alike { AreAlike here.now next.old.value }
    ensures pivoted { IfOk result (λ _. IsPivot here.now pivot.now.row pivot.now.col next.new.value) }
    ensures unchanged { IfErr result (λ _. next.new.value ≡ next.old.value) }
    ensures passes { IfErr result (λ p. IsOverflow here.now pivot.now.row pivot.now.col (overflow_of here.now p)) }
    ensures counted { steps.new ≤ steps.old + 1 }
{
    here.pivot_into(next, pivot.row, pivot.col, steps)
}

/// Goes in the other slot from this dictionary to a key, and if it is there, and the key is a lexicographically feasible cobasis,
/// the two change places. At most one pivot for each of its labels. Takes no memory.
pub(crate) fn reach_over<L: Ledger>(
    here: &mut Slot,
    next: &mut Slot,
    order: &Order,
    key: &Key,
    steps: &mut Steps<L>,
) -> Result<bool, Overflow>
    requires leads { AreLeads here.old.dict.value order.now here.old.leads }
    requires next { IsSlotOf here.old.dict.value order.now next.old }
    ensures reached { IfOk result (λ b. Reaches order.now here.old.dict.value key.now b here.new.dict.value) }
    ensures unmoved { (result ≡ Ok true → ⊥) → here.new ≡ here.old }
    ensures leads { AreLeads here.new.dict.value order.now here.new.leads }
    ensures next { IsSlotOf here.new.dict.value order.now next.new }
    ensures alike { AreAlike here.old.dict.value here.new.dict.value }
    ensures stops { IfErr result (λ o. StopsOnTheWay here.old.dict.value key.now o) }
    ensures counted { steps.new ≤ steps.old + length key.now }
{
    let found = reach(&here.dict, &mut next.dict, order, key, steps);
    next.leads.read(&next.dict, order);
    if let Ok(true) = found {
        swap(here, next);
    }
    found
}
