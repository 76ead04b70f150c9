//! How an attempt ends, in the queue and in the list of attempts.
ghost use Rattle.std.specs.Prelude.{◌≡◌, ◌-◌, ◌≤◌, ◌<◌, ◌+◌, ◌++◌, ◌∷◌, [], length, slice_set, vec_capacity, OnOk, OnErr};
ghost use Rattle.std.specs.List.{range_with_len};
ghost use Rattle.std.specs.VecDeque.{deque_capacity, deque_len};
ghost use Rattle.coordinator_core.specs.Places.{gone};

use crate::sent::Sent;
use std::alloc::AllocError;
use std::collections::VecDeque;

// The attempt, out no more.
fn gone(sent: &Sent) -> Sent
    ensures { result ≡ gone sent.now }
{
    Sent {
        place: sent.place,
        budget: sent.budget,
        is_out: false,
    }
}

// Ends an attempt, and puts its key at the end of the queue. So many attempts have room then.
pub(crate) fn hand_back(
    queue: &mut VecDeque<usize>,
    sent: &mut Vec<Sent>,
    at: usize,
    last: &Sent,
    room: usize,
) -> Result<(), AllocError>
    requires { at < length sent.old.items }
    ensures queue { OnOk result (queue.new.items ≡ queue.old.items ++ last.now.place ∷ []) }
    ensures sent { OnOk result (sent.new.items ≡ slice_set sent.old.items at (gone last.now)) }
    ensures room { OnOk result (length sent.new.items + room ≤ vec_capacity sent.new) }
    ensures capacity { vec_capacity sent.old ≤ vec_capacity sent.new }
    ensures same_queue { OnErr result (queue.new.items ≡ queue.old.items) }
    ensures same_sent { OnErr result (sent.new.items ≡ sent.old.items) }
{
    sent.try_reserve(room)?;
    queue.push_back(last.place)?;
    sent[at] = gone(last);
    Ok(())
}

// Room for so many keys and so many attempts more.
pub(crate) fn make_room(
    queue: &mut VecDeque<usize>,
    sent: &mut Vec<Sent>,
    keys: usize,
    attempts: usize,
) -> Result<(), AllocError>
    ensures queue { queue.new.items ≡ queue.old.items }
    ensures sent { sent.new.items ≡ sent.old.items }
    ensures capacity { vec_capacity sent.old ≤ vec_capacity sent.new }
    ensures keys { OnOk result (deque_len queue.new + keys ≤ deque_capacity queue.new) }
    ensures attempts { OnOk result (length sent.new.items + attempts ≤ vec_capacity sent.new) }
{
    queue.try_reserve(keys)?;
    sent.try_reserve(attempts)?;
    Ok(())
}

// Puts these places at the end of the queue, which has room for them.
pub(crate) fn add_places(queue: &mut VecDeque<usize>, first: usize, end: usize)
    requires ordered { first ≤ end }
    requires room { deque_len queue.old + (end - first) ≤ deque_capacity queue.old }
    ensures { queue.new.items ≡ queue.old.items ++ range_with_len first (end - first) }
{
    for place in first..end {
        queue.push_back_reserved(place);
    }
}

// Ends an attempt.
pub(crate) fn end_attempt(sent: &mut Vec<Sent>, at: usize, last: &Sent)
    requires { at < length sent.old.items }
    ensures sent { sent.new.items ≡ slice_set sent.old.items at (gone last.now) }
    ensures capacity { vec_capacity sent.new ≡ vec_capacity sent.old }
{
    sent[at] = gone(last);
}
