//! Questions about an attempt or a reply, which change nothing.
ghost use Rattle.std.specs.Prelude.{◌≡◌, ◌<◌, ◌&&◌, not, length, slice_get, Some, IfSome, IsNone};
ghost use Rattle.run_state.specs.KeyLists.{holds};
ghost use Rattle.run_state.specs.KeyLists.{key_at};
ghost use Rattle.coordinator_core.specs.Places.{IsDueReply, IsSettledReply, attempt_at, sent_numbered};

use crate::Verdict;
use crate::sent::Sent;
use job_text::{Reply, Tail};
use run_state::RunState;
use std::collections::VecDeque;

// The first place of the queue.
pub(crate) fn first_of(queue: &VecDeque<usize>) -> Option<usize>
    ensures { result ≡ slice_get queue.now.items 0 }
{
    queue.front().copied()
}

// The attempt of a number.
pub(crate) fn attempt_at(sent: &[Sent], attempt: u64) -> Option<Sent>
    ensures { result ≡ sent_numbered sent.now attempt }
{
    if attempt == 0 {
        return None;
    }
    sent.get((attempt - 1) as usize).copied()
}

// Whether the attempt is out and its job is not done.
fn is_waited_for(run: &RunState, sent: &Sent) -> bool
    requires { sent.now.place < length run.now.came }
    ensures { result ≡ (sent.now.is_out && not (holds run.now.keys.done (key_at run.now.came sent.now.place))) }
{
    sent.is_out && !run.is_done(sent.place)
}

// What becomes of a reply, where that is seen without the keys that it gives back: none exactly where it is due and
// ends in `end`.
pub(crate) fn first_look(run: &RunState, sent: &Sent, reply: &Reply) -> Option<Verdict>
    requires { sent.now.place < length run.now.came }
    ensures some { IfSome result (IsSettledReply run.now reply.now (Some (attempt_at run.now.came sent.now))) }
    ensures none { IsNone result → IsDueReply run.now reply.now (attempt_at run.now.came sent.now) }
{
    let key = run.key_at(sent.place);
    if !reply.key.is_same(&key) {
        return Some(Verdict::Loss);
    }
    if !is_waited_for(run, sent) {
        return Some(Verdict::Stray);
    }
    match reply.tail {
        Tail::Overflow(overflow) => Some(Verdict::Ends(overflow)),
        Tail::Memory => Some(Verdict::Loss),
        Tail::End(_) => None,
    }
}
