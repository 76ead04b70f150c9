//! The table of the known keys.
ghost use Rattle.std.specs.Prelude.{◌≡◌, ◌^◌, map, ◌<◌, ◌≤◌, ◌+◌, vec_len, vec_capacity, replicate, IfSome, IsNone, Some, slice_get, ◌++◌, ◌∷◌, [], ℕ, List, length, IfOk, OnOk, OnErr, IfErr, IsErrOf, true, false, not, if◌then◌else◌};
ghost use Rattle.std.specs.List.{Contains};
ghost use Rattle.poly_model.specs.Keys.{IsKey};
ghost use Rattle.run_state.specs.KeyLists.{StandApart, are_new, holds, key_at, keys_with};
ghost use Rattle.run_state.specs.Known.{HasMark, IsTaken, RefusesJob, RefusesKeys, labels_in, places_without};
ghost use Rattle.run_state.specs.Stops.{IsRefused};

use crate::AcceptStop;
use indexmap::IndexSet;
use poly_model::{Key, Keys, Label};
use std::alloc::{AllocError, Global};
use std::collections::VecDeque;
use std::marker::Model;

// Adds a key, and says whether it was new.
fn add_key(
    alloc: Global,
    known: &mut IndexSet<Vec<Label>>,
    key: &[Label],
) -> Result<bool, AllocError>
    ensures new { IfOk result (λ b. b ≡ not (holds (labels_in known.old.keys) key.now)) }
    ensures keys { IfOk result (λ b. labels_in known.new.keys
        ≡ (if b then labels_in known.old.keys ++ key.now ∷ [] else labels_in known.old.keys)) }
    ensures err { OnErr result (labels_in known.new.keys ≡ labels_in known.old.keys) }
{
    let labels = Vec::from_slice(alloc, key)?;
    let added = known.insert(labels)?;
    Ok(added)
}

// Adds keys. Where one is known already, or there is no memory, none is added.
fn add_keys(alloc: Global, known: &mut IndexSet<Vec<Label>>, keys: &Keys) -> Result<(), AcceptStop>
    ensures keys { OnOk result (labels_in known.new.keys ≡ labels_in known.old.keys ++ keys.now) }
    ensures new { OnOk result (are_new (labels_in known.old.keys) keys.now ≡ true) }
    ensures are_keys { OnOk result ((k : List ℕ) → Contains keys.now k → IsKey k) }
    ensures err { OnErr result (labels_in known.new.keys ≡ labels_in known.old.keys) }
    ensures stop { IfErr result (RefusesKeys (labels_in known.old.keys) keys.now) }
{
    let was = known.len();
    let mut left = keys.left();
    'keys: while let Some((key, behind)) = left.next() {
        match add_key(alloc, known, key) {
            Ok(true) => {}
            Ok(false) => {
                known.truncate(was);
                return Err(AcceptStop::Clash { key: key_of(key) });
            }
            Err(_) => {
                known.truncate(was);
                return Err(AcceptStop::Memory);
            }
        }
        left = behind;
    }
    Ok(())
}

// Whether keys may be added, without adding them.
fn try_keys(alloc: Global, known: &IndexSet<Vec<Label>>, keys: &Keys) -> Result<(), AcceptStop>
    ensures new { OnOk result (are_new (labels_in known.now.keys) keys.now ≡ true) }
    ensures stop { IfErr result (RefusesKeys (labels_in known.now.keys) keys.now) }
{
    let mut earlier = IndexSet::new(alloc);
    let mut left = keys.left();
    'keys: while let Some((key, behind)) = left.next() {
        if is_known(known, key) {
            return Err(AcceptStop::Clash { key: key_of(key) });
        }
        match add_key(alloc, &mut earlier, key) {
            Ok(true) => {}
            Ok(false) => return Err(AcceptStop::Clash { key: key_of(key) }),
            Err(_) => return Err(AcceptStop::Memory),
        }
        left = behind;
    }
    Ok(())
}

fn is_known(known: &IndexSet<Vec<Label>>, key: &[Label]) -> bool
    ensures { result ≡ holds (labels_in known.now.keys) key.now }
{
    known.contains(key)
}

/// Which of the known keys are done: a mark for each, and the places of those that are, in the order in which they were
/// done.
#[derive(Drop)]
pub(crate) struct DoneKeys {
    marks: Vec<bool>,
    places: Vec<usize>,
}

// Marks a job as done, and adds what it gave back. The room is made before anything changes.
fn take_in(
    alloc: Global,
    known: &mut IndexSet<Vec<Label>>,
    done: &mut DoneKeys,
    job: &Key,
    more: &Keys,
) -> Result<(), AcceptStop>
    requires { length done.old.marks.items ≡ length known.old.keys }
    ensures ok { OnOk result (IsTaken (labels_in known.old.keys) done.old.marks.items done.old.places.items
        (labels_in known.new.keys) done.new.marks.items done.new.places.items job.now more.now) }
    ensures err { OnErr result ((labels_in known.new.keys ≡ labels_in known.old.keys)
        × (done.new.marks.items ≡ done.old.marks.items) × (done.new.places.items ≡ done.old.places.items)) }
    ensures stop { IfErr result (RefusesJob (labels_in known.old.keys) done.old.marks.items job.now more.now) }
{
    let place = waiting_place(known, &done.marks, job)?;
    if done.marks.try_reserve(more.len()).is_err() || done.places.try_reserve(1).is_err() {
        return Err(AcceptStop::Memory);
    }
    add_keys(alloc, known, more)?;
    add_marks(&mut done.marks, more.len());
    done.marks[place] = true;
    done.places.push_reserved(place);
    Ok(())
}

// Where a job stands that waits.
fn waiting_place(
    known: &IndexSet<Vec<Label>>,
    marks: &[bool],
    job: &Key,
) -> Result<usize, AcceptStop>
    requires { length marks.now ≡ length known.now.keys }
    ensures at { IfOk result (λ i. slice_get (labels_in known.now.keys) i ≡ Some job.now) }
    ensures waits { IfOk result (λ i. slice_get marks.now i ≡ Some false) }
    ensures within { IfOk result (λ i. i < length marks.now) }
    ensures stop { (more : List (List ℕ))
        → IfErr result (RefusesJob (labels_in known.now.keys) marks.now job.now more) }
{
    let Some(place) = place_of(known, job) else {
        return Err(AcceptStop::Stranger);
    };
    if mark_at(marks, place) {
        return Err(AcceptStop::Done);
    }
    Ok(place)
}

// Where the key stands.
fn place_of(known: &IndexSet<Vec<Label>>, key: &Key) -> Option<usize>
    ensures some { IfSome result (λ i. slice_get (labels_in known.now.keys) i ≡ Some key.now) }
    ensures none { IsNone result → Contains (labels_in known.now.keys) key.now → ⊥ }
{
    known.get_index_of(key.labels())
}

fn mark_at(marks: &[bool], place: usize) -> bool
    requires { place < length marks.now }
    ensures { slice_get marks.now place ≡ Some result }
{
    marks[place]
}

// Adds marks where there is room.
fn add_marks(marks: &mut Vec<bool>, n: usize)
    requires { vec_len marks.old + n ≤ vec_capacity marks.old }
    ensures items { marks.new.items ≡ marks.old.items ++ replicate n false }
    ensures len { vec_len marks.new ≡ vec_len marks.old + n }
{
    let most = marks.len() + n;
    let _ = marks.resize(most, false);
}

// The places without a mark.
fn places_left(alloc: Global, marks: &[bool]) -> Result<VecDeque<usize>, AllocError>
    ensures { IfOk result (λ places. places.items ≡ places_without 0 marks.now) }
{
    let mut places = VecDeque::new(alloc);
    for (i, mark) in marks.iter().enumerate() {
        if !*mark {
            places.push_back(i)?;
        }
    }
    Ok(places)
}

// The key of these labels.
fn key_of(labels: &[Label]) -> Key
    requires { IsKey labels.now }
    ensures { result ≡ labels.now }
{
    match Key::from_ascending(labels) {
        Some(key) => key,
        None => Key::empty(),
    }
}

/// The known keys. Contracts see all in the order in which they came, those that wait, in this order too, and those
/// that are done, in the order in which they were.
#[derive(Drop)]
pub(crate) struct Known {
    alloc: Global,
    keys: IndexSet<Vec<Label>>,
    done: DoneKeys,
}

impl Model for Known {
    ghost use Rattle.run_state.specs.Known.{IsKeyTable, KeyTable, labels_in, key_table};

    ghost Value = { KeyTable };

    ghost view = { λ k. key_table (labels_in k.keys.keys) k.done.marks.items k.done.places.items };

    ghost invariant = { λ k. IsKeyTable (labels_in k.keys.keys) k.done.marks.items k.done.places.items };
}

impl Known {
    /// One key, which waits.
    pub(crate) fn new(alloc: Global, first: &Key) -> Result<Known, AllocError>
        ensures { IfOk result (λ k. k ≡ record {
          came = first.now ∷ [];
          keys = record { waiting = first.now ∷ []; done = [] };
        }) }
    {
        let mut keys = IndexSet::new(alloc);
        add_key(alloc, &mut keys, first.labels())?;
        let mut marks = Vec::new(alloc);
        marks.push(false)?;
        let done = DoneKeys {
            marks,
            places: Vec::new(alloc),
        };
        Ok(Known { alloc, keys, done })
    }

    /// Takes a job in that is done, with the keys that it gave back.
    pub(crate) fn take(&mut self, job: &Key, more: &Keys) -> Result<(), AcceptStop>
        ensures waits { OnOk result (Contains self.old.keys.waiting job.now) }
        ensures new_keys { OnOk result (are_new (self.old.keys.waiting ++ self.old.keys.done) more.now ≡ true) }
        ensures taken { OnOk result (self.new ≡ record {
          came = self.old.came ++ more.now;
          keys = keys_with self.old.keys job.now more.now;
        }) }
        ensures unchanged { OnErr result (self.new ≡ self.old) }
        ensures refused { IfErr result (IsRefused self.old.keys job.now more.now) }
    {
        take_in(self.alloc, &mut self.keys, &mut self.done, job, more)
    }

    /// Whether `take` would take the job in.
    pub(crate) fn check(&self, job: &Key, more: &Keys) -> Result<(), AcceptStop>
        ensures waits { OnOk result (Contains self.now.keys.waiting job.now) }
        ensures new_keys { OnOk result (are_new (self.now.keys.waiting ++ self.now.keys.done) more.now ≡ true) }
        ensures refused { IfErr result (IsRefused self.now.keys job.now more.now) }
    {
        waiting_place(&self.keys, &self.done.marks, job)?;
        try_keys(self.alloc, &self.keys, more)
    }

    /// How many keys are known.
    pub(crate) fn len(&self) -> usize
        ensures len { result ≡ length self.now.came }
        ensures small { result < 2 ^ 63 }
    {
        self.keys.len()
    }

    /// The place of a key.
    pub(crate) fn place_of(&self, key: &Key) -> Option<usize>
        ensures some { IfSome result (λ i. slice_get self.now.came i ≡ Some key.now) }
        ensures none { IsNone result → Contains self.now.came key.now → ⊥ }
    {
        place_of(&self.keys, key)
    }

    /// The key at a place.
    pub(crate) fn key_at(&self, place: usize) -> Key
        requires { place < length self.now.came }
        ensures { result ≡ key_at self.now.came place }
    {
        let labels = &self.keys.as_slice()[place];
        key_of(labels.as_slice())
    }

    /// The places of the keys that wait.
    pub(crate) fn waiting_places(&self) -> Result<VecDeque<usize>, AllocError>
        ensures keys { IfOk result (λ places. map (key_at self.now.came) places.items ≡ self.now.keys.waiting) }
        ensures within { IfOk result (λ places. (i : ℕ) → Contains places.items i → i < length self.now.came) }
        ensures apart { StandApart self.now.keys }
    {
        places_left(self.alloc, &self.done.marks)
    }

    /// How many keys wait.
    pub(crate) fn waiting_len(&self) -> usize
        ensures { result ≡ length self.now.keys.waiting }
    {
        self.keys.len() - self.done.places.len()
    }

    /// The places of the keys that are done, in the order in which they were.
    pub(crate) fn done_places(&self) -> &[usize]
        ensures { map (key_at self.now.came) result.now ≡ self.now.keys.done }
    {
        self.done.places.as_slice()
    }

    /// Whether the key at a place is done.
    pub(crate) fn is_done(&self, place: usize) -> bool
        requires { place < length self.now.came }
        ensures { result ≡ holds self.now.keys.done (key_at self.now.came place) }
    {
        mark_at(&self.done.marks, place)
    }
}
