//! Sets of labels that fit in place.
ghost use Rattle.std.specs.Prelude.{◌≡◌, ◌≢◌, ◌≤◌, ◌<◌, ◌+◌, ◌++◌, ◌∷◌, [], length, IsTrue, IsFalse, ◌↔◌, remove, insert, slice_index};
ghost use Rattle.std.specs.Prelude.{take};
ghost use Rattle.std.specs.Option.{SomeIff};
ghost use Rattle.std.specs.List.Sorted.{IsStrictlyIncreasing};
ghost use Rattle.poly_model.specs.Limits.{most_labels};
ghost use Rattle.poly_model.specs.Keys.{IsKey, lower_of, with_label};

use crate::{Label, MOST_LABELS};
use std::marker::Model;

/// At most `MOST_LABELS` labels, strictly ascending, kept in place. Contracts see the list of their numbers.
#[derive(Clone, Copy, PartialEq, Eq, Hash, Debug)]
pub struct Key {
    labels: [Label; MOST_LABELS],
    len: u16,
}

impl Model for Key {
    ghost use Rattle.std.specs.Prelude.{ℕ, List, take, ◌-◌, ◌++◌, length};
    ghost use Rattle.std.proofs.Math.ListN.{replicate};
    ghost use Rattle.std.proofs.Common.{ap₂};
    ghost use Rattle.poly_model.specs.Limits.{most_labels};
    ghost use Rattle.poly_model.specs.KeyRoom.{Fills, filled, taken};

    ghost Value = { List ℕ };

    ghost view = { λ k. take k.len k.labels };

    ghost invariant = { λ k. Fills k.labels k.len };

    ghost inverse = { λ ls. record { labels = ls ++ replicate (most_labels - length ls) 0; len = length ls } };

    ghost inverse_ok = { λ a h. ap₂ (λ ls n. record { labels = ls; len = n }) (filled a.labels a.len h) (taken a.labels a.len h) };
}

impl Key {
    /// The key without labels.
    pub fn empty() -> Key
        ensures { result ≡ [] }
    {
        Key {
            labels: [Label::EXTRA; MOST_LABELS],
            len: 0,
        }
    }

    /// The key of these labels: none exactly where they are more than `MOST_LABELS` or do not ascend strictly.
    pub fn from_ascending(labels: &[Label]) -> Option<Key>
        ensures { SomeIff result (IsKey labels.now) labels.now }
    {
        if labels.len() <= MOST_LABELS && ascends(labels) {
            Some(Key::of(labels))
        } else {
            None
        }
    }

    /// How many labels it has.
    pub fn len(&self) -> usize
        ensures value { result ≡ length self.now }
        ensures room { result ≤ most_labels }
    {
        self.len as usize
    }

    /// Whether it has no label.
    pub fn is_empty(&self) -> bool
        ensures { IsTrue result ↔ (length self.now ≡ 0) }
    {
        self.len == 0
    }

    /// Its labels, ascending.
    pub fn labels(&self) -> &[Label]
        ensures value { result.now ≡ self.now }
        ensures key { IsKey result.now }
    {
        &self.labels[..self.len as usize]
    }

    /// Whether both have the same labels: `==` as a call that says so.
    pub fn is_same(&self, other: &Key) -> bool
        ensures { IsTrue result ↔ (self.now ≡ other.now) }
    {
        self == other
    }

    /// The same without the label at this place, counted from 0.
    pub fn without_at(&self, at: usize) -> Key
        requires { at < length self.now }
        ensures value { result ≡ remove self.now at }
        ensures room { length result + 1 ≡ length self.now }
    {
        let mut key = *self;
        key.remove_at(at);
        key
    }

    /// The same with this label too.
    pub fn with(&self, label: Label) -> Key
        requires { length self.now < most_labels }
        ensures value { result ≡ with_label label self.now }
        ensures room { length result ≤ length self.now + 1 }
    {
        let mut key = *self;
        key.insert(label);
        key
    }

    /// In place of the label at this place, counted from 0, the key has this one.
    pub fn exchange_at(&mut self, at: usize, label: Label)
        requires { at < length self.old }
        ensures { self.new ≡ with_label label (remove self.old at) }
    {
        self.remove_at(at);
        self.insert(label);
    }

    // The labels behind this place move down over it.
    fn remove_at(&mut self, at: usize)
        requires { at < length self.old }
        ensures value { self.new ≡ remove self.old at }
        ensures len { length self.new + 1 ≡ length self.old }
        ensures room { length self.new < most_labels }
    {
        let last = self.len as usize - 1;
        self.labels.copy_within(at + 1..last + 1, at);
        self.labels[last] = Label::EXTRA;
        self.len -= 1;
    }

    fn insert(&mut self, label: Label)
        requires { length self.old < most_labels }
        ensures value { self.new ≡ with_label label self.old }
        ensures room { length self.new ≤ length self.old + 1 }
    {
        let at = lower(self.labels(), label);
        if !stands_at(self.labels(), at, label) {
            self.insert_at(at, label);
        }
    }

    // The label comes to this place, and those from there on move up.
    fn insert_at(&mut self, at: usize, label: Label)
        requires within { at ≤ length self.old }
        requires key { IsKey (insert self.old at label) }
        ensures { self.new ≡ insert self.old at label }
    {
        self.labels.copy_within(at..self.len as usize, at + 1);
        self.labels[at] = label;
        self.len += 1;
    }

    fn of(labels: &[Label]) -> Key
        requires { IsKey labels.now }
        ensures { result ≡ labels.now }
    {
        let mut room = [Label::EXTRA; MOST_LABELS];
        room[..labels.len()].copy_from_slice(labels);
        Key {
            labels: room,
            len: labels.len() as u16,
        }
    }
}

// Whether the labels ascend strictly.
fn ascends(labels: &[Label]) -> bool
    ensures { IsTrue result ↔ IsStrictlyIncreasing labels.now }
{
    labels
        .windows(2)
        .all(|pair| pair[0].number() < pair[1].number())
}

// How many labels, from the first on, are below this one.
fn lower(labels: &[Label], label: Label) -> usize
    ensures value { result ≡ lower_of label labels.now }
    ensures within { result ≤ length labels.now }
{
    for (i, l) in labels.iter().enumerate() {
        if label.number() <= l.number() {
            return i;
        }
    }
    labels.len()
}

fn stands_at(labels: &[Label], at: usize, label: Label) -> bool
    ensures yes { IsTrue result → (at < length labels.now) × (slice_index labels.now at ≡ label) }
    ensures no { IsFalse result → at < length labels.now → slice_index labels.now at ≢ label }
{
    at < labels.len() && labels[at].is_same(label)
}
