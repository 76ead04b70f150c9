//! The walk.
ghost use Rattle.std.specs.Prelude.{◌≡◌, ◌≤◌, ◌↔◌, ◌+◌, IsTrue, IfOk, IfErr, length, [], Some};
ghost use Rattle.dictionary_laws.specs.Keys.{place_in};
ghost use Rattle.reverse_step.specs.Walks.{Walk};
ghost use Rattle.std.specs.List.{Contains};
ghost use Rattle.std.specs.Option.{MatchOption};
ghost use Rattle.dictionary.specs.Views.{overflow_of};
ghost use Rattle.lex_pivot.specs.Above.{NoneEnters, LeadsToParent};
ghost use Rattle.lex_pivot.specs.Leads.{AreLeads};
ghost use Rattle.reverse_step.specs.Children.{LeadsToChild, StopsWalk};
ghost use Rattle.reverse_step.specs.Ways.{StopsOnTheWay};
ghost use Rattle.reverse_step.specs.declared.walker.Visit.TheVariants.{End};
ghost use Rattle.reverse_step.specs.Starts.{unparented, Starts};
ghost use Rattle.reverse_step.specs.Moves.{IsMovedDown, IsMovedUp, IsBackAtParent, KnowsParent, GoesDown, GoesUp, IsVisit, past};

use crate::children::{child_at, first_child};
use crate::ring::{one_more, place_after, place_before, slots_for};
use crate::slots::{Slot, pivot_over, reach_over};
use dictionary::{Dict, PassingProducts, Steps};
use lex_pivot::{Leads, Order, Pivot, parent_along};
use poly_model::{Key, Label, OutOfMemory, Overflow, Root};
use std::alloc::Global;
use std::marker::Model;
use std::mem::swap;
use std::sync::ledger::Ledger;

/// What a step of the walk did.
#[derive(Clone, Copy, PartialEq, Eq, Debug)]
pub enum Visit {
    /// It stands at a cobasis that it had not visited.
    New,
    /// It went back to the parent.
    Back,
    /// All under the job's root are visited.
    End,
}

impl Visit {
    /// Whether all is visited.
    pub fn is_end(self) -> bool
        ensures { IsTrue result ↔ (self ≡ End) }
    {
        match self {
            Visit::End => true,
            Visit::New | Visit::Back => false,
        }
    }
}

/// A walk through the cobases under one of them, the job's root, depth first. It keeps the dictionaries of the nearest
/// ancestors in a ring, so that a step back is seldom a pivot (lrslib's cache of dictionaries: D. Avis, "lrs: a revised
/// implementation of the reverse search vertex enumeration algorithm", 2000).
pub struct Walker {
    // where it stands; its column is of no account
    here: Slot,
    // Slots in a ring. Known are the parent's at `last`, that of its parent at the place before, and so on; the place behind
    // `last` is written over next:
    //
    //     place      0      1      2      3      4      5
    //              known  known   last   next   free  known
    //                2      1      0                    3      parents up from the parent
    slots: Vec<Slot>,
    last: usize,
    known: usize,
    order: Order,
    job: Key,
    // the place in the key of the next column to try
    at: usize,
}

// Written out, so that to let one go is one step in the proofs of those who hold it.
impl Drop for Walker {
    fn drop(self) {
        let Self {
            here: _,
            slots: _,
            last: _,
            known: _,
            order: _,
            job: _,
            at: _,
        } = self;
    }
}

impl Model for Walker {
    ghost use Rattle.reverse_step.specs.Walks.{Walk};
    ghost use Rattle.reverse_step.specs.Rings.{kept_parents, IsRing};

    ghost Value = { Walk };

    ghost view = { λ w. record { dict = w.here.dict.value; root = w.order; job = w.job; at = w.at; parents = kept_parents w.slots.items w.last w.known } };

    ghost invariant = { λ w. IsRing w.here w.slots.items w.last w.known w.order };
}

impl Walker {
    /// A walk under this root that begins at the dictionary, whose cobasis is the job's root. Takes memory for a second
    /// dictionary, for the order of rows, and for the leads of both dictionaries with the rows of the cobasis outside the
    /// root; and for further dictionaries, up to 16 in all and a million cells, where there is memory for them. Where the
    /// cobasis is not lexicographically feasible under the root, it is no walk until a start at a key that is.
    pub fn new(alloc: Global, dict: Dict, root: &Root) -> Result<Walker, OutOfMemory>
        ensures { IfOk result (λ walk.
            walk ≡ record { dict = dict; root = root.now.key; job = dict.key; at = 0; parents = [] }) }
    {
        let order = Order::marked(alloc, root)?;
        let job = dict.key();
        let slots = slots_for(alloc, &dict, &order)?;
        let here = Slot::of(alloc, dict, &order)?;
        Ok(Walker {
            here,
            slots,
            last: 0,
            known: 0,
            order,
            job,
            at: 0,
        })
    }

    /// The dictionary of the cobasis where it stands.
    pub fn dict(&self) -> &Dict
        ensures { result.now ≡ self.now.dict }
    {
        &self.here.dict
    }

    /// The order of rows relative to the root.
    pub fn order(&self) -> &Order
        ensures { result.now ≡ self.now.root }
    {
        &self.order
    }

    /// The leads of the dictionary where it stands.
    pub fn leads(&self) -> &Leads
        ensures { AreLeads self.now.dict self.now.root result.now }
    {
        &self.here.leads
    }

    /// Passes over the columns that are still to be tried: the next step leads to the parent.
    pub fn pass(&mut self)
        ensures { self.new ≡ past self.old }
    {
        self.at = self.here.dict.cobasis().len();
    }

    /// Begins anew at this key, which is the job's root from then on: no column is tried there. At most one pivot for each
    /// of its labels. False where it is the key of no lexicographically feasible cobasis; then, and where a pivot overflows,
    /// it stands where it stood, and the same columns are still to be tried. Its ancestors are forgotten in each case, so a
    /// later step back to one takes a pivot. Takes no memory.
    pub fn start<L: Ledger>(&mut self, key: &Key, steps: &mut Steps<L>) -> Result<bool, Overflow>
        ensures start { IfOk result (λ b. Starts self.old key.now b self.new) }
        ensures unchanged { IfErr result (λ _. self.new ≡ unparented self.old) }
        ensures stops { IfErr result (λ o. StopsOnTheWay self.old.dict key.now o) }
        ensures counted { steps.new ≤ steps.old + length key.now }
    {
        self.known = 0;
        let next = place_after(self.slots.len(), self.last);
        if reach_over(
            &mut self.here,
            &mut self.slots[next],
            &self.order,
            key,
            steps,
        )? {
            self.job = *key;
            self.at = 0;
            Ok(true)
        } else {
            Ok(false)
        }
    }

    /// To the child in the column of `col`, if there is one: then no column of it is tried. False where the neighbour there
    /// is none, and nothing has changed. Where the pivot is refused, the answer says which
    /// products pass there (`Dict::overflow` makes an `Overflow` of them), and nothing has changed. Takes no memory.
    pub fn down<L: Ledger>(
        &mut self,
        col: Label,
        steps: &mut Steps<L>,
    ) -> Result<bool, PassingProducts>
        requires { Contains self.old.dict.key col }
        ensures down { IfOk result (λ b. GoesDown self.old col b self.new) }
        ensures unchanged { IfErr result (λ _. self.new ≡ self.old) }
        ensures stops { IfErr result (λ p. StopsWalk self.old.dict self.old.root (overflow_of self.old.dict p)) }
        ensures counted { steps.new ≤ steps.old + 1 }
    {
        match child_at(&self.here.dict, &self.order, &self.here.leads, col) {
            Some(row) => {
                self.descend(row, col, steps)?;
                Ok(true)
            }
            None => Ok(false),
        }
    }

    /// To the parent, and the label that comes back into the cobasis: the columns behind it are still to be tried. None at
    /// the job's root, and at a cobasis without a parent; then nothing has changed. Where the pivot overflows, nothing has
    /// changed. Takes no memory.
    pub fn up<L: Ledger>(&mut self, steps: &mut Steps<L>) -> Result<Option<Label>, PassingProducts>
        ensures up { IfOk result (λ o. GoesUp self.old o self.new) }
        ensures unchanged { IfErr result (λ _. self.new ≡ self.old) }
        ensures stops { IfErr result (λ p. StopsWalk self.old.dict self.old.root (overflow_of self.old.dict p)) }
        ensures counted { steps.new ≤ steps.old + 1 }
    {
        if self.is_at_job() {
            return Ok(None);
        }
        self.ascend(steps)
    }

    /// One step: to the first child in the columns from the next one on, or else back to the parent. `End` comes where all
    /// under the job's root is visited; it stands there. Where a pivot overflows, nothing has changed. Takes no memory.
    pub fn next<L: Ledger>(&mut self, steps: &mut Steps<L>) -> Result<Visit, PassingProducts>
        ensures visit { IfOk result (λ v. IsVisit self.old v self.new) }
        ensures end { IfOk result (λ v. v ≡ End → self.new ≡ self.old) }
        ensures unchanged { IfErr result (λ _. self.new ≡ self.old) }
        ensures stops { IfErr result (λ p. StopsWalk self.old.dict self.old.root (overflow_of self.old.dict p)) }
        ensures counted { steps.new ≤ steps.old + 1 }
    {
        if let Some(child) = first_child(&self.here.dict, &self.order, &self.here.leads, self.at) {
            self.descend(child.row, child.col, steps)?;
            return Ok(Visit::New);
        }
        match self.up(steps)? {
            Some(_) => Ok(Visit::Back),
            None => Ok(Visit::End),
        }
    }

    // Whether it stands at the job's root.
    fn is_at_job(&self) -> bool
        ensures { IsTrue result ↔ (self.now.dict.key ≡ self.now.job) }
    {
        self.here.dict.cobasis() == self.job.labels()
    }

    // To a child.
    fn descend<L: Ledger>(
        &mut self,
        row: Label,
        col: Label,
        steps: &mut Steps<L>,
    ) -> Result<(), PassingProducts>
        requires { LeadsToChild self.old.root self.old.dict col row }
        ensures down { IfOk result (λ _. IsMovedDown self.old row col self.new) }
        ensures unchanged { IfErr result (λ _. self.new ≡ self.old) }
        ensures stops { IfErr result (λ p. StopsWalk self.old.dict self.old.root (overflow_of self.old.dict p)) }
        ensures counted { steps.new ≤ steps.old + 1 }
    {
        let next = place_after(self.slots.len(), self.last);
        let pivot = Pivot { row, col };
        match pivot_over(
            &mut self.here,
            &mut self.slots[next],
            &self.order,
            &pivot,
            steps,
        ) {
            Ok(()) => {
                self.last = next;
                self.known = one_more(self.slots.len(), self.known);
                self.at = 0;
                Ok(())
            }
            Err(products) => Err(products),
        }
    }

    // To the parent, and the label that comes back into the cobasis.
    fn ascend<L: Ledger>(&mut self, steps: &mut Steps<L>) -> Result<Option<Label>, PassingProducts>
        ensures up { IfOk result (λ o. MatchOption o ((self.new ≡ self.old) × NoneEnters self.old.dict self.old.root)
            (λ s. IsMovedUp self.old s self.new)) }
        ensures unchanged { IfErr result (λ _. self.new ≡ self.old) }
        ensures stops { IfErr result (λ p. StopsWalk self.old.dict self.old.root (overflow_of self.old.dict p)) }
        ensures counted { steps.new ≤ steps.old + 1 }
    {
        if self.known > 0 {
            return Ok(Some(self.return_to_parent()));
        }
        match parent_along(&self.here.dict, &self.order, self.here.leads.before_root()) {
            Some(pivot) => self.pivot_to_parent(pivot, steps),
            None => Ok(None),
        }
    }

    // To the parent that this pivot leads to, where none is known.
    fn pivot_to_parent<L: Ledger>(
        &mut self,
        pivot: Pivot,
        steps: &mut Steps<L>,
    ) -> Result<Option<Label>, PassingProducts>
        requires none { self.old.parents ≡ [] }
        requires leads { LeadsToParent self.old.dict self.old.root pivot.col pivot.row }
        ensures up { IfOk result (λ o. (o ≡ Some pivot.row) × IsMovedUp self.old pivot.row self.new) }
        ensures unchanged { IfErr result (λ _. self.new ≡ self.old) }
        ensures stops { IfErr result (λ p. StopsWalk self.old.dict self.old.root (overflow_of self.old.dict p)) }
        ensures counted { steps.new ≤ steps.old + 1 }
    {
        let next = place_after(self.slots.len(), self.last);
        match pivot_over(
            &mut self.here,
            &mut self.slots[next],
            &self.order,
            &pivot,
            steps,
        ) {
            Ok(()) => {
                self.at = place_of(self.here.dict.cobasis(), pivot.row) + 1;
                Ok(Some(pivot.row))
            }
            Err(products) => Err(products),
        }
    }

    // To the parent that is known, and the column in which the dictionary from before is its child.
    fn return_to_parent(&mut self) -> Label
        requires { KnowsParent self.old }
        ensures { IsBackAtParent self.old result self.new }
    {
        swap(&mut self.here, &mut self.slots[self.last]);
        self.last = place_before(self.slots.len(), self.last);
        self.known -= 1;
        let col = self.here.column;
        self.at = place_of(self.here.dict.cobasis(), col) + 1;
        col
    }
}

// How many labels stand before the first that is `label`.
fn place_of(labels: &[Label], label: Label) -> usize
    ensures value { result ≡ place_in labels.now label }
    ensures within { result ≤ length labels.now }
{
    'labels: for (i, l) in labels.iter().enumerate() {
        if l.is_same(label) {
            return i;
        }
    }
    labels.len()
}
