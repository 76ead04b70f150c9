//! Workers in memory, of which a table says what becomes of each start.
ghost use Rattle.std.specs.Prelude.{◌≡◌, [], List, ℕ, Option, Some, map, IfOk, IfSome, IsErr};
ghost use Rattle.std.specs.List.{AllByRecursion};
ghost use Rattle.workers_io.specs.Memory.{IsFaithful, StaysHonest, fated};
ghost use Rattle.workers_io.specs.MemoryLaws.{honest_told};

use crate::coming::Coming;
use crate::count::{count_fault, faults_after};
use crate::fated::{Planned, come_of, next_fate};
use crate::log::Log;
use crate::queue::Queue;
use crate::{Collected, Fate, Workers};
use poly_io::{Bytes, Failed, MemSink};
use std::alloc::{AllocError, Global};
use std::marker::Model;
use work_core::{JobCall, JobStop};

/// Workers in this process over a job call. They tell their history as long as there is memory for it. A start runs the
/// call; what it wrote is given at a collect, as the table of fates says. An attempt whose call makes no whole reply,
/// since the text is no job or the memory is refused, is broken when it is collected. A start drops what is still to come
/// of an earlier start with its number, and one that fails breaks it.
#[derive(Drop)]
pub struct MemWorkers<'a, J: JobCall> {
    alloc: Global,
    call: J,
    fates: &'a [Fate],
    others: &'a [&'a [u8]],
    queue: Queue,
    log: Log,
    starts: u64,
    faults: u64,
}

impl<'a, J: JobCall> Model for MemWorkers<'a, J> {
    ghost use Rattle.workers_io.specs.Memory.{MemWorkersState};

    ghost Value = { MemWorkersState };

    ghost view = { λ w. record { out = w.queue.out; coming = w.queue.coming; history = w.log; fates = w.fates.now; starts = w.starts; faults = w.faults } };
}

impl<'a, J: JobCall> MemWorkers<'a, J> {
    /// Workers of which nothing was asked yet. The k-th start has the fate that the table says at k; past its end each
    /// reply comes. The bytes of `others` are those that may come in a reply's place; past its end that is no byte. Takes
    /// no memory.
    pub fn new(
        alloc: Global,
        call: J,
        fates: &'a [Fate],
        others: &'a [&'a [u8]],
    ) -> MemWorkers<'a, J>
        ensures out { result.out ≡ [] }
        ensures history { result.history ≡ Some [] }
        ensures starts { result.starts ≡ 0 }
        ensures faults { result.faults ≡ 0 }
        // Where no fate replaces a reply they are honest.
        ensures honest { AllByRecursion IsFaithful fates.entry.now → StaysHonest J.allows result }
    {
        MemWorkers {
            alloc,
            call,
            fates,
            others,
            queue: Queue::new(alloc),
            log: Log::new(alloc),
            starts: 0,
            faults: 0,
        }
    }

    /// The attempts that are out.
    pub fn out(&self) -> &[u64]
        ensures { result.now ≡ self.now.out }
    {
        self.queue.out()
    }

    /// How many starts there were, as far as 64 bits can say.
    pub fn starts(&self) -> u64
        ensures { result ≡ self.now.starts }
    {
        self.starts
    }

    /// How often a start or an attempt has failed.
    pub fn faults(&self) -> u64
        ensures { result ≡ self.now.faults }
    {
        self.faults
    }
}

// The whole reply of the call, where it makes one.
fn reply_of<J: JobCall>(alloc: Global, call: &mut J, text: &[u8]) -> Option<Bytes>
    ensures { IfSome result (J.allows text.now) }
{
    let mut sink = MemSink::new(alloc, &[]);
    match call.call(text, &mut sink) {
        Ok(_) | Err(JobStop::Overflow(_)) => {}
        Err(JobStop::Memory) if !sink.written().is_empty() => {}
        Err(_) => return None,
    }
    let bytes = sink.written().to_vec(alloc).ok()?;
    Some(Bytes::from_vec(bytes))
}

// What is to come of an attempt on this text.
fn coming_of<J: JobCall>(
    alloc: Global,
    call: &mut J,
    planned: Planned,
    text: &[u8],
) -> Result<Vec<Coming>, Failed>
    ensures coming { IfOk result (λ v. (reply : Option (List ℕ)) × IfSome reply (J.allows text.now)
        × (v.items ≡ fated planned.entry.fate (map (λ o. o.now) planned.entry.others.now) planned.entry.attempt reply)) }
    ensures refused { planned.entry.fate ≡ Fate.Refuse → IsErr result }
{
    if planned.fate == Fate::Refuse {
        return Err(Failed);
    }
    let reply = reply_of(alloc, call, text);
    match come_of(alloc, planned, reply) {
        Ok(coming) => Ok(coming),
        Err(AllocError) => Err(Failed),
    }
}

impl<'a, J: JobCall> Workers for MemWorkers<'a, J> {
    ghost out = { λ w. w.out };

    ghost history = { λ w. w.history };

    ghost allows = { J.allows };

    ghost honest = { λ w. StaysHonest J.allows w };

    ghost faults = { λ w. w.faults };

    ghost honest_history = { λ w happenings honest told. honest_told J.allows w happenings honest told };

    fn start(&mut self, attempt: u64, text: &[u8]) -> Result<(), Failed> {
        self.starts = self.starts.saturating_add(1);
        let planned = Planned {
            attempt,
            fate: next_fate(&mut self.fates),
            others: self.others,
        };
        let coming = coming_of(self.alloc, &mut self.call, planned, text);
        let begun = self.queue.start(attempt, coming);
        self.log.start(attempt, text, begun);
        count_fault(begun, &mut self.faults);
        begun
    }

    fn collect(&mut self) -> Result<Collected, AllocError> {
        let collected = self.queue.collect();
        self.log.collect(&collected);
        self.faults = faults_after(self.faults, &collected);
        Ok(collected)
    }
}
