//! Many keys, in the room of their labels.
ghost use Rattle.std.specs.Prelude.{◌≡◌, ◌++◌, ◌∷◌, [], length, MatchOption, OnOk, OnErr};
ghost use Rattle.poly_model.specs.Keys.{IsKey};

use crate::{Key, Label};
use std::alloc::{AllocError, Global};
use std::marker::Model;

/// Keys, one after the other. Contracts see the list of them. Their labels lie one behind the other, two bytes each, and
/// there is no room for labels that a key does not have.
#[derive(Drop)]
pub struct Keys {
    labels: Vec<Label>,
    // how many labels each key has
    counts: Vec<u16>,
}

impl Model for Keys {
    ghost use Rattle.std.specs.Prelude.{ℕ, List};
    ghost use Rattle.poly_model.specs.KeyRoom.{keys_by_count, AreKeysIn};

    ghost Value = { List (List ℕ) };

    ghost view = { λ k. keys_by_count k.counts.items k.labels.items };

    ghost invariant = { λ k. AreKeysIn k.counts.items k.labels.items };
}

impl Keys {
    /// No key. Takes no memory.
    pub fn new(alloc: Global) -> Keys
        ensures { result ≡ [] }
    {
        Keys {
            labels: Vec::new(alloc),
            counts: Vec::new(alloc),
        }
    }

    /// One key more, behind the others. Where there is no memory for it they stay as they are.
    pub fn push(&mut self, key: &Key) -> Result<(), AllocError>
        ensures ok { OnOk result (self.new ≡ self.old ++ key.now ∷ []) }
        ensures err { OnErr result (self.new ≡ self.old) }
    {
        self.counts.try_reserve(1)?;
        self.labels.extend_from_slice(key.labels())?;
        self.counts.push_reserved(key.len() as u16);
        Ok(())
    }

    /// How many keys there are.
    pub fn len(&self) -> usize
        ensures { result ≡ length self.now }
    {
        self.counts.as_slice().len()
    }

    /// All keys, to go through.
    pub fn left(&self) -> KeysLeft
        ensures { result ≡ self.now }
    {
        KeysLeft {
            labels: &self.labels,
            counts: &self.counts,
        }
    }
}

/// The keys that are left where a list of them is gone through. Contracts see the list of them.
#[derive(Drop)]
pub struct KeysLeft<'a> {
    labels: &'a [Label],
    counts: &'a [u16],
}

impl<'a> Model for KeysLeft<'a> {
    ghost use Rattle.std.specs.Prelude.{ℕ, List};
    ghost use Rattle.poly_model.specs.KeyRoom.{keys_by_count, AreKeysIn};

    ghost Value = { List (List ℕ) };

    ghost view = { λ k. keys_by_count k.counts.now k.labels.now };

    ghost invariant = { λ k. AreKeysIn k.counts.now k.labels.now };
}

impl<'a> KeysLeft<'a> {
    /// The labels of the first key, and the keys behind it; none where no key is left.
    pub fn next(&self) -> Option<(&'a [Label], KeysLeft<'a>)>
        ensures keys { MatchOption result (self.now ≡ []) (λ r. self.now ≡ r.0.now ∷ r.1) }
        ensures key { MatchOption result Unit (λ r. IsKey r.0.now) }
    {
        let (count, counts) = self.counts.split_first()?;
        let (key, labels) = self.labels.split_at(*count as usize);
        Some((key, KeysLeft { labels, counts }))
    }
}
