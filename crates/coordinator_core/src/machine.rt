//! The core: the state of the machine, and its calls.
ghost use Rattle.std.specs.Prelude.{◌≡◌, ℕ, if◌then◌else◌, ◌++◌, IfOk, IfSome, IsNone, OnOk, OnErr};
ghost use Rattle.row_printer.specs.Rows.{counted};
ghost use Rattle.run_state.specs.KeyLists.{are_new};
ghost use Rattle.coordinator_core.specs.Events.{IsEventOf};
ghost use Rattle.coordinator_core.specs.Machine.{AreOptions, IsOut, acted, after, after_loss, attempt_of, by_verdict, job_of, judged, next_action, sent_at, start_of, recorded_at, verdict_of};
ghost use Rattle.coordinator_core.specs.Places.{IsDueAt, IsSettledReply, IsSound};

use crate::looks::{attempt_at, first_look, first_of};
use crate::moves::{add_places, end_attempt, hand_back, make_room};
use crate::sent::Sent;
use crate::{Action, Event, Options, Verdict};
use job_text::{Reply, ReplyReader, ReplyStop};
use poly_model::Key;
use run_state::{AcceptStop, RunState};
use std::alloc::{AllocError, Global};
use std::collections::VecDeque;
use std::marker::Model;
use work_core::Budget;

/// The core of a call: what the records of a run say, which jobs are out, and what is to be done next. Contracts see
/// the state of the machine. Its attempts are numbered from 1, in the order in which they are handed out.
#[derive(Drop)]
pub struct Core {
    options: Options,
    run: RunState,
    // The places of the waiting keys for which no attempt is out.
    queue: VecDeque<usize>,
    sent: Vec<Sent>,
    // How many attempts are out.
    out: u64,
    losses: u64,
    strays: u64,
}

impl Model for Core {
    ghost use Rattle.std.specs.Prelude.{vec_capacity};
    ghost use Rattle.coordinator_core.specs.Machine.{State};
    ghost use Rattle.coordinator_core.specs.Places.{IsKept, state_of};

    ghost Value = { State };

    ghost view = { λ c. state_of c.options c.run c.queue.items c.sent.items c.losses c.strays };

    ghost invariant = { λ c. IsKept c.options c.run c.queue.items c.sent.items c.out (vec_capacity c.sent) };
}

impl Core {
    /// The core where a call begins on this state of a run: nothing is out, and all that waits is in the queue.
    pub fn new(alloc: Global, run: RunState, options: Options) -> Result<Core, AllocError>
        requires { AreOptions options }
        ensures { IfOk result (λ core. core ≡ start_of options run) }
    {
        let queue = run.waiting_places()?;
        let mut sent = Vec::new(alloc);
        sent.try_reserve(options.workers as usize)?;
        Ok(Core {
            options,
            run,
            queue,
            sent,
            out: 0,
            losses: 0,
            strays: 0,
        })
    }

    /// What is to be done next; a key that is to be handed out is taken from the queue, and its attempt is out. Takes
    /// no memory.
    pub fn next(&mut self) -> Action
        ensures action { result ≡ next_action self.old }
        ensures state { self.new ≡ acted self.old result }
    {
        if self.losses.saturating_add(self.strays) > self.options.lost {
            return Action::GiveUp {
                lost: self.losses,
                strays: self.strays,
            };
        }
        if self.out < self.options.workers {
            if let Some(place) = first_of(&self.queue) {
                let few = (self.queue.len() as u64) < self.options.lmin * self.options.workers;
                let depth = if few { self.options.depth } else { 0 };
                let budget = Budget {
                    bases: self.options.bases,
                    depth,
                };
                let key = self.run.key_at(place);
                self.sent.push_reserved(Sent {
                    place,
                    budget,
                    is_out: true,
                });
                self.queue.pop_front();
                self.out += 1;
                return Action::Hand {
                    attempt: self.sent.len() as u64,
                    key,
                    budget,
                };
            }
        }
        if self.out > 0 {
            return Action::Collect;
        }
        Action::Finish
    }

    /// What bytes that came for an attempt are to this core: an answer where they are a whole reply of its job, else a
    /// loss.
    pub fn event_of<'a>(
        &self,
        alloc: Global,
        attempt: u64,
        bytes: &'a [u8],
    ) -> Result<Event<'a>, AllocError>
        ensures { IfOk result (IsEventOf self.now attempt bytes.now) }
    {
        let (key, _) = match self.sent(attempt) {
            Some(job) => job,
            None => return Ok(Event::Lost { attempt }),
        };
        match ReplyReader::read(alloc, &key, self.run.poly().n(), bytes) {
            Ok(reply) => Ok(Event::Answer { attempt, reply }),
            Err(ReplyStop::NotWhole { place: _ }) => Ok(Event::Lost { attempt }),
            Err(ReplyStop::Memory) => Err(AllocError),
        }
    }

    /// What `on` would answer of a whole reply that came for this attempt.
    pub fn judge(&self, attempt: u64, reply: &Reply) -> Result<Verdict, AllocError>
        ensures { IfOk result (λ v. v ≡ judged self.now attempt reply.now) }
    {
        match self.look(attempt, reply) {
            Some(verdict) => Ok(verdict),
            None => self.judge_due(attempt, reply),
        }
    }

    /// What came is taken in. Where the memory is refused all is as it was; it is asked for only where the attempt is
    /// out.
    pub fn on(&mut self, event: Event) -> Result<Verdict, AllocError>
        ensures verdict { IfOk result (λ v. v ≡ verdict_of self.old event.entry) }
        ensures state { OnOk result (self.new ≡ after self.old event.entry) }
        ensures unchanged { OnErr result (self.new ≡ self.old) }
        ensures out { OnErr result (IsOut self.old (attempt_of event.entry)) }
    {
        match event {
            Event::Lost { attempt } => {
                self.lose(attempt)?;
                Ok(Verdict::Loss)
            }
            Event::Answer { attempt, reply } => self.answer(attempt, &reply),
        }
    }

    /// The key and the budget of an attempt; none exactly where this call never handed it out. Takes no memory.
    pub fn sent(&self, attempt: u64) -> Option<(Key, Budget)>
        ensures { result ≡ job_of (sent_at self.now attempt) }
    {
        let Some(sent) = attempt_at(&self.sent, attempt) else {
            return None;
        };
        Some((self.run.key_at(sent.place), sent.budget))
    }

    /// A core is sound: its options are in their ranges, and the keys that wait are those of its queue and those that are
    /// out. Nothing is done: a call of this tells the proofs of the caller.
    pub fn is_sound(&self)
        ensures in_range { AreOptions self.now.options }
        ensures sound { IsSound self.now.run self.now.queue self.now.sent }
    {
        let _out = self.out;
    }

    /// The state of the run.
    pub fn state(&self) -> &RunState
        ensures { result.now ≡ self.now.run }
    {
        &self.run
    }

    // What becomes of a reply, where that is seen without the keys that it gives back.
    fn look(&self, attempt: u64, reply: &Reply) -> Option<Verdict>
        ensures some { IfSome result (IsSettledReply self.now.run reply.now (sent_at self.now attempt)) }
        ensures none { IsNone result → IsDueAt self.now attempt reply.now }
    {
        match attempt_at(&self.sent, attempt) {
            Some(sent) => first_look(&self.run, &sent, reply),
            None => Some(Verdict::Loss),
        }
    }

    // What becomes of a reply that is due and ends in `end`.
    fn judge_due(&self, attempt: u64, reply: &Reply) -> Result<Verdict, AllocError>
        requires { IsDueAt self.now attempt reply.now }
        ensures { IfOk result (λ v. v ≡ judged self.now attempt reply.now) }
    {
        match self.run.check(reply) {
            Ok(()) => Ok(Verdict::Accepted),
            Err(AcceptStop::Clash { key: _ }) => Ok(Verdict::Loss),
            Err(AcceptStop::Memory) => Err(AllocError),
            Err(AcceptStop::Done) => unreachable!(),
            Err(AcceptStop::Stranger) => unreachable!(),
        }
    }

    // A whole reply.
    fn answer(&mut self, attempt: u64, reply: &Reply) -> Result<Verdict, AllocError>
        ensures verdict { IfOk result (λ v. v ≡ judged self.old attempt reply.now) }
        ensures state { IfOk result (λ v. self.new ≡ by_verdict self.old (Event.Answer attempt reply.now) v) }
        ensures unchanged { OnErr result (self.new ≡ self.old) }
        ensures out { OnErr result (IsOut self.old attempt) }
    {
        match self.look(attempt, reply) {
            None => self.take(attempt, reply),
            Some(Verdict::Stray) => {
                self.stray();
                Ok(Verdict::Stray)
            }
            Some(Verdict::Ends(overflow)) => Ok(Verdict::Ends(overflow)),
            Some(_) => {
                self.lose(attempt)?;
                Ok(Verdict::Loss)
            }
        }
    }

    // A reply that is due and ends in `end`.
    fn take(&mut self, attempt: u64, reply: &Reply) -> Result<Verdict, AllocError>
        requires { IsDueAt self.old attempt reply.now }
        ensures verdict { IfOk result (λ v. v ≡ judged self.old attempt reply.now) }
        ensures state { IfOk result (λ v. self.new ≡ by_verdict self.old (Event.Answer attempt reply.now) v) }
        ensures unchanged { OnErr result (self.new ≡ self.old) }
    {
        if self.record(attempt, reply)? {
            Ok(Verdict::Accepted)
        } else {
            self.lose(attempt)?;
            Ok(Verdict::Loss)
        }
    }

    // Records a reply that is due, and says whether it gives new keys back. Where it does not, nothing changes.
    fn record(&mut self, attempt: u64, reply: &Reply) -> Result<bool, AllocError>
        requires { IsDueAt self.old attempt reply.now }
        ensures new { IfOk result (λ b. b
            ≡ are_new (self.old.run.keys.waiting ++ self.old.run.keys.done) reply.now.keys) }
        ensures state { IfOk result (λ b. self.new
            ≡ (if b then recorded_at self.old attempt reply.now (sent_at self.old attempt) else self.old)) }
        ensures unchanged { OnErr result (self.new ≡ self.old) }
    {
        let Some(sent) = attempt_at(&self.sent, attempt) else {
            unreachable!()
        };
        let attempts = (self.options.workers - self.out + 1) as usize;
        make_room(&mut self.queue, &mut self.sent, reply.keys.len(), attempts)?;
        let first = self.run.len();
        let key = self.run.key_at(sent.place);
        match self.run.accept(&key, reply) {
            Ok(()) => {}
            Err(AcceptStop::Clash { key: _ }) => return Ok(false),
            Err(AcceptStop::Memory) => return Err(AllocError),
            Err(AcceptStop::Done) => unreachable!(),
            Err(AcceptStop::Stranger) => unreachable!(),
        }
        let end = self.run.len();
        add_places(&mut self.queue, first, end);
        end_attempt(&mut self.sent, (attempt - 1) as usize, &sent);
        self.out -= 1;
        Ok(true)
    }

    // A stray.
    fn stray(&mut self)
        ensures { self.new ≡ record self.old { strays = counted self.old.strays 1 } }
    {
        self.strays = self.strays.saturating_add(1);
    }

    // A loss.
    fn lose(&mut self, attempt: u64) -> Result<(), AllocError>
        ensures lost { OnOk result (self.new ≡ after_loss self.old attempt) }
        ensures unchanged { OnErr result (self.new ≡ self.old) }
        ensures out { OnErr result (IsOut self.old attempt) }
    {
        let losses = self.losses.saturating_add(1);
        let Some(sent) = attempt_at(&self.sent, attempt) else {
            self.losses = losses;
            return Ok(());
        };
        if !sent.is_out {
            self.losses = losses;
            return Ok(());
        }
        let room = (self.options.workers - self.out + 1) as usize;
        let at = (attempt - 1) as usize;
        hand_back(&mut self.queue, &mut self.sent, at, &sent, room)?;
        self.out -= 1;
        self.losses = losses;
        Ok(())
    }
}
