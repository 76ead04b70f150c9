//! Reads the payloads of a ledger after the first.
ghost use Rattle.std.specs.Prelude.{◌≡◌, IfOk, IsErrOf, IsTrue, IsFalse};
ghost use Rattle.job_text.specs.declared.reply.Reply.{Reply as TheReply};
ghost use Rattle.job_text.specs.Replies.{IsWholeReply};
ghost use Rattle.run_state.specs.Payloads.{SaysEnd};

use job_text::{PayloadStop, Reply, ReplyReader, Tail};
use std::alloc::Global;

// Whether the last line is `end`.
fn says_end(tail: &Tail) -> bool
    ensures yes { IsTrue result → SaysEnd tail.now }
    ensures no { IsFalse result → SaysEnd tail.now → ⊥ }
{
    match tail {
        Tail::End(_) => true,
        Tail::Overflow(_) => false,
        Tail::Memory => false,
    }
}

/// A payload behind the first: a whole reply that ends in `end`, of rows of n numbers. `Bad` where it is none.
pub(crate) fn read_next_payload<'a>(
    alloc: Global,
    n: u32,
    payload: &'a [u8],
) -> Result<Reply<'a>, PayloadStop>
    ensures whole { IfOk result (λ r. IsWholeReply n r payload.now) }
    ensures ends { IfOk result (λ r. SaysEnd r.tail) }
    ensures one { IfOk result (λ r. (other : TheReply) → IsWholeReply n other payload.now → other ≡ r) }
    ensures bad { IsErrOf result PayloadStop.Bad → (other : TheReply)
        → IsWholeReply n other payload.now → SaysEnd other.tail → ⊥ }
{
    let reply = ReplyReader::read_any(alloc, n, payload)?;
    if says_end(&reply.tail) {
        Ok(reply)
    } else {
        Err(PayloadStop::Bad)
    }
}
