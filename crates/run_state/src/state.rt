//! The state of a run.
ghost use Rattle.std.specs.Prelude.{◌≡◌, ◌^◌, ◌<◌, ℕ, List, [], ◌∷◌, ◌++◌, length, map, IfSome, IsNone, Some, slice_get, IfOk, OnOk, OnErr, IfErr, IsErrOf};
ghost use Rattle.std.specs.List.{Contains};
ghost use Rattle.poly_model.specs.Systems.{Polyhedron};
ghost use Rattle.work_core.specs.Searches.{meaning_by};
ghost use Rattle.run_state.specs.KeyLists.{StandApart, holds, key_at};
ghost use Rattle.run_state.specs.Payloads.{FitsIn, IsBadBehind, IsBrokenPayload};
ghost use Rattle.run_state.specs.Runs.{IsRunOf, first_run, run_after};
ghost use Rattle.run_state.specs.Stops.{IsRefused};

use crate::known::Known;
use crate::payloads::read_next_payload;
use crate::{AcceptStop, ReplayStop};
use job_text::{FirstPayload, PayloadStop, Reply, read_first_payload};
use poly_io::Bytes;
use poly_model::{Key, Poly, Root, WorkKind};
use std::alloc::{AllocError, Global};
use std::collections::VecDeque;
use std::marker::Model;

/// The state of a run. Contracts see what is searched, the keys in the order in which they came, which of them wait and
/// which are done, and the count of rows.
#[derive(Drop)]
pub struct RunState {
    work: WorkKind,
    root: Root,
    poly: Poly,
    known: Known,
    rows: u64,
}

impl Model for RunState {
    ghost use Rattle.run_state.specs.Runs.{Run};

    ghost Value = { Run };

    ghost view = { λ s. record {
      search = record { work = s.work; polyhedron = s.poly; root = s.root.key };
      came = s.known.came;
      keys = s.known.keys;
      rows = s.rows;
    } };
}

impl RunState {
    /// Where a run begins: the first key waits. An error is lack of memory.
    pub fn begin(
        alloc: Global,
        work: WorkKind,
        root: Root,
        poly: Poly,
    ) -> Result<RunState, AllocError>
        ensures { IfOk result (λ run. run ≡ first_run (record { work = work; polyhedron = poly; root = root.key })) }
    {
        let known = Known::new(alloc, &first_key(work, &root))?;
        Ok(RunState {
            work,
            root,
            poly,
            known,
            rows: 0,
        })
    }

    /// Takes the reply to a job that waits: the job is done, and the keys that it gives back wait. It costs a step for
    /// each of them. Of the rows only their number is kept, and how the reply ends does not matter here.
    pub fn accept(&mut self, job: &Key, reply: &Reply) -> Result<(), AcceptStop>
        requires job { reply.now.key ≡ job.now }
        ensures fits { OnOk result (FitsIn self.old.keys reply.now) }
        ensures taken { OnOk result (self.new ≡ run_after self.old reply.now) }
        ensures unchanged { OnErr result (self.new ≡ self.old) }
        ensures refused { IfErr result (IsRefused self.old.keys job.now reply.now.keys) }
    {
        let rows = reply.rows.len();
        self.known.take(job, &reply.keys)?;
        self.rows = self.rows.saturating_add(rows);
        Ok(())
    }

    /// What `accept` would answer, where there is memory. It costs a step for each key that is given back.
    pub fn check(&self, reply: &Reply) -> Result<(), AcceptStop>
        ensures fits { OnOk result (FitsIn self.now.keys reply.now) }
        ensures refused { IfErr result (IsRefused self.now.keys reply.now.key reply.now.keys) }
    {
        self.known.check(&reply.key, &reply.keys)
    }

    /// Where the first payload of a ledger leads. `Bad` where it is the first payload of no search.
    pub fn open(alloc: Global, payload: &[u8]) -> Result<RunState, PayloadStop>
        ensures ok { IfOk result (λ run. IsRunOf run (payload.now ∷ [])) }
        ensures bad { IsErrOf result PayloadStop.Bad → IsBadBehind [] payload.now }
    {
        let FirstPayload { work, root, poly } = read_first_payload(alloc, payload)?;
        match RunState::begin(alloc, work, root, poly) {
            Ok(run) => Ok(run),
            Err(_) => Err(PayloadStop::Memory),
        }
    }

    /// Takes the next payload of a ledger. `Bad` where it may not stand behind those that led here; on an error the
    /// state is as it was. So a ledger is replayed payload by payload, without all of them in memory.
    pub fn follow(&mut self, alloc: Global, payload: &[u8]) -> Result<(), PayloadStop>
        ensures ok { (payloads : List (List ℕ)) → IsRunOf self.old payloads
            → OnOk result (IsRunOf self.new (payloads ++ payload.now ∷ [])) }
        ensures bad { (payloads : List (List ℕ)) → IsRunOf self.old payloads
            → IsErrOf result PayloadStop.Bad → IsBadBehind payloads payload.now }
        ensures unchanged { OnErr result (self.new ≡ self.old) }
    {
        let reply = match read_next_payload(alloc, self.poly().n(), payload) {
            Ok(reply) => reply,
            Err(stop) => return Err(stop),
        };
        let job = reply.key;
        match self.accept(&job, &reply) {
            Ok(()) => Ok(()),
            Err(AcceptStop::Memory) => Err(PayloadStop::Memory),
            Err(AcceptStop::Done) => Err(PayloadStop::Bad),
            Err(AcceptStop::Stranger) => Err(PayloadStop::Bad),
            Err(AcceptStop::Clash { key: _ }) => Err(PayloadStop::Bad),
        }
    }

    /// The state after the records of a ledger, or the first payload that breaks the ledger text.
    pub fn replay(alloc: Global, payloads: &[Bytes]) -> Result<RunState, ReplayStop>
        requires { 0 < length payloads.now }
        ensures ok { IfOk result (λ run. IsRunOf run payloads.now) }
        ensures bad { (place : ℕ) → IsErrOf result (ReplayStop.BadLedger place) → IsBrokenPayload place payloads.now }
    {
        let mut run = match RunState::open(alloc, payloads[0].as_slice()) {
            Ok(run) => run,
            Err(PayloadStop::Memory) => return Err(ReplayStop::Memory),
            Err(PayloadStop::Bad) => return Err(ReplayStop::BadLedger { place: 1 }),
        };
        for i in 1..payloads.len() {
            match run.follow(alloc, payloads[i].as_slice()) {
                Ok(()) => {}
                Err(PayloadStop::Memory) => return Err(ReplayStop::Memory),
                Err(PayloadStop::Bad) => {
                    return Err(ReplayStop::BadLedger {
                        place: i as u64 + 1,
                    });
                }
            }
        }
        Ok(run)
    }

    /// By which work it is searched.
    pub fn work(&self) -> WorkKind
        ensures { result ≡ self.now.search.work }
    {
        self.work
    }

    /// The root of the search.
    pub fn root(&self) -> &Root
        ensures { result.now.key ≡ self.now.search.root }
    {
        &self.root
    }

    /// What is searched.
    pub fn poly(&self) -> &Poly
        ensures { result.now ≡ self.now.search.polyhedron }
    {
        &self.poly
    }

    /// How many rows are recorded. The number is saturated at 2^64 - 1.
    pub fn rows(&self) -> u64
        ensures { result ≡ self.now.rows }
    {
        self.rows
    }

    /// How many keys came: the place of the next one.
    pub fn len(&self) -> usize
        ensures len { result ≡ length self.now.came }
        ensures small { result < 2 ^ 63 }
    {
        self.known.len()
    }

    /// The place of a key, for good: later keys get later places.
    pub fn place_of(&self, key: &Key) -> Option<usize>
        ensures some { IfSome result (λ i. slice_get self.now.came i ≡ Some key.now) }
        ensures none { IsNone result → Contains self.now.came key.now → ⊥ }
    {
        self.known.place_of(key)
    }

    /// The key at a place.
    pub fn key_at(&self, place: usize) -> Key
        requires { place < length self.now.came }
        ensures { result ≡ key_at self.now.came place }
    {
        self.known.key_at(place)
    }

    /// The places of the keys that wait, in the order in which they came. It costs a step for each key that came. An
    /// error is lack of memory.
    pub fn waiting_places(&self) -> Result<VecDeque<usize>, AllocError>
        ensures keys { IfOk result (λ places. map (key_at self.now.came) places.items ≡ self.now.keys.waiting) }
        ensures within { IfOk result (λ places. (i : ℕ) → Contains places.items i → i < length self.now.came) }
        ensures apart { StandApart self.now.keys }
    {
        self.known.waiting_places()
    }

    /// How many keys wait: those that came less those that are done.
    pub fn waiting_len(&self) -> usize
        ensures { result ≡ length self.now.keys.waiting }
    {
        self.known.waiting_len()
    }

    /// The places of the keys that are done, in the order in which they were.
    pub fn done_places(&self) -> &[usize]
        ensures { map (key_at self.now.came) result.now ≡ self.now.keys.done }
    {
        self.known.done_places()
    }

    /// Whether the key at a place is done.
    pub fn is_done(&self, place: usize) -> bool
        requires { place < length self.now.came }
        ensures { result ≡ holds self.now.keys.done (key_at self.now.came place) }
    {
        self.known.is_done(place)
    }
}

// The key under which all others lie.
fn first_key(work: WorkKind, root: &Root) -> Key
    ensures { (p : Polyhedron) → result ≡ (meaning_by work p root.now.key).first_key }
{
    match work {
        WorkKind::Subsets => Key::empty(),
        WorkKind::Subtrees => root.key(),
    }
}
