//! The attempts that are out at workers in memory, and what is still to come of them.
ghost use Rattle.std.specs.Prelude.{◌≡◌, ◌≤◌, ◌<◌, ◌++◌, ◌∷◌, [], length, IfOk, OnOk, OnErr, IsErr, vec_capacity, vec_len};
ghost use Rattle.workers_io.specs.Collects.{collected_attempt, out_after};
ghost use Rattle.workers_io.specs.Memory.{GivesNext, HasMore, spoiled, spoiled_one, without};

use crate::Collected;
use crate::attempts::{attempt_of, take_off};
use crate::coming::Coming;
use poly_io::Failed;
use std::alloc::{AllocError, Global};
use std::marker::Model;

/// Each attempt that is out has something still to come. What is to come may also be of one that is not.
#[derive(Drop)]
pub(crate) struct Queue {
    out: Vec<u64>,
    coming: Vec<Coming>,
}

impl Model for Queue {
    ghost use Rattle.std.specs.Prelude.{List, ℕ};
    ghost use Rattle.std.specs.List.{AllByRecursion};
    ghost use Rattle.workers_io.specs.Memory.{HasMore, Queued};

    ghost Value = { Queued };

    ghost view = { λ q. record { out = q.out.items; coming = q.coming.items } };

    ghost invariant = { λ q. AllByRecursion (HasMore q.coming.items) q.out.items };
}

// Takes what is given next.
fn take_next(coming: &mut Vec<Coming>) -> Collected
    requires { 0 < length coming.old.items }
    ensures { GivesNext coming.old.items result coming.new.items }
{
    if coming.len() > 1 && coming[0].late {
        coming[0].late = false;
        return coming.remove(1).gives;
    }
    coming.remove(0).gives
}

// Drops what is to come of this attempt. The room stays.
fn drop_attempt(coming: &mut Vec<Coming>, attempt: u64)
    ensures left { coming.new.items ≡ without attempt coming.old.items }
    ensures room { vec_capacity coming.new ≡ vec_capacity coming.old }
    ensures bound { vec_len coming.new ≤ vec_len coming.old }
{
    coming.retain(|c| attempt_of(&c.gives) != attempt);
}

// Breaks what is to come, if it is of this attempt.
fn spoil_one(coming: &mut Coming, attempt: u64)
    ensures { coming.new ≡ spoiled_one attempt coming.old }
{
    if attempt_of(&coming.gives) == attempt {
        *coming = Coming {
            late: false,
            gives: Collected::Broken { attempt },
        };
    }
}

// Breaks what is to come of this attempt.
fn spoil(coming: &mut Vec<Coming>, attempt: u64)
    ensures { coming.new.items ≡ spoiled attempt coming.old.items }
{
    'each: for k in 0..coming.len() {
        spoil_one(&mut coming[k], attempt);
    }
}

// Adds an attempt, and what is to come of it in the place of what was to come of an earlier one with its number. After an
// error all is as it was.
fn send(
    out: &mut Vec<u64>,
    coming: &mut Vec<Coming>,
    attempt: u64,
    more: Result<Vec<Coming>, Failed>,
) -> Result<(), Failed>
    ensures out { OnOk result (out.new.items ≡ out.old.items ++ attempt ∷ []) }
    ensures coming { OnOk result (IfOk more (λ v. coming.new.items ≡ without attempt coming.old.items ++ v.items)) }
    ensures begun { OnErr more (IsErr result) }
    ensures not_out { OnErr result (out.new.items ≡ out.old.items) }
    ensures same { OnErr result (coming.new.items ≡ coming.old.items) }
{
    let mut more = more?;
    if out.reserve(1).is_err() || coming.reserve(more.len()).is_err() {
        return Err(Failed);
    }
    drop_attempt(coming, attempt);
    out.push_reserved(attempt);
    match coming.append(&mut more) {
        Ok(()) => Ok(()),
        // This never comes, since the room is there.
        Err(AllocError) => Err(Failed),
    }
}

impl Queue {
    /// No attempt is out. Takes no memory.
    pub(crate) fn new(alloc: Global) -> Queue
        ensures out { result.out ≡ [] }
        ensures coming { result.coming ≡ [] }
    {
        Queue {
            out: Vec::new(alloc),
            coming: Vec::new(alloc),
        }
    }

    /// The attempts that are out.
    pub(crate) fn out(&self) -> &[u64]
        ensures { result.now ≡ self.now.out }
    {
        &self.out
    }

    /// Sends an attempt out, of which this is to come. What is to come of an earlier one with its number is dropped, or is
    /// broken where this one is not sent.
    pub(crate) fn start(
        &mut self,
        attempt: u64,
        coming: Result<Vec<Coming>, Failed>,
    ) -> Result<(), Failed>
        requires { IfOk coming (λ v. HasMore v.items attempt) }
        ensures out { OnOk result (self.new.out ≡ self.old.out ++ attempt ∷ []) }
        ensures coming { OnOk result (IfOk coming (λ v. self.new.coming ≡ without attempt self.old.coming ++ v.items)) }
        ensures begun { OnErr coming (IsErr result) }
        ensures not_out { OnErr result (self.new.out ≡ self.old.out) }
        ensures spoiled { OnErr result (self.new.coming ≡ spoiled attempt self.old.coming) }
    {
        let sent = send(&mut self.out, &mut self.coming, attempt, coming);
        if sent.is_err() {
            spoil(&mut self.coming, attempt);
        }
        sent
    }

    /// Takes what comes next.
    pub(crate) fn collect(&mut self) -> Collected
        requires { 0 < length self.old.out }
        ensures out { self.new.out ≡ out_after self.old.out (collected_attempt result) }
        ensures coming { GivesNext self.old.coming result self.new.coming }
    {
        let collected = take_next(&mut self.coming);
        take_off(&mut self.out, attempt_of(&collected));
        collected
    }
}
