//! Reads replies.
ghost use Rattle.std.specs.Prelude.{◌≡◌, ◌<◌, ◌+◌, ◌^◌, ℕ, length, IfOk, IsErrOf};
ghost use Rattle.job_text.specs.Replies.{IsWholeReply, IsNotWhole};
ghost use Rattle.job_text.specs.declared.reply.Reply.{Reply as Whole};

use crate::entries::zeros;
use crate::lines::key_behind;
use crate::scan::scan_lines;
use crate::{PayloadStop, Reply, ReplyRows, ReplyStop};
use poly_model::Key;
use std::alloc::Global;

/// Reads replies.
pub struct ReplyReader;

// The stop of a text that began so many bytes further on.
fn further(stop: ReplyStop, start: u64) -> ReplyStop
    requires { (place : ℕ) → stop ≡ ReplyStop.NotWhole place → start + place < 2 ^ 64 }
    ensures { (place : ℕ) → result ≡ ReplyStop.NotWhole place
        → (inner : ℕ) × (stop ≡ ReplyStop.NotWhole inner) × (place ≡ start + inner) }
{
    match stop {
        ReplyStop::NotWhole { place } => ReplyStop::NotWhole {
            place: start + place,
        },
        ReplyStop::Memory => ReplyStop::Memory,
    }
}

impl ReplyReader {
    /// The reply of this key that a text is, whole, for a file with rows of n numbers.
    pub fn read<'a>(
        alloc: Global,
        key: &Key,
        n: u32,
        text: &'a [u8],
    ) -> Result<Reply<'a>, ReplyStop>
        ensures ok { IfOk result (λ r. (r.key ≡ key.now) × IsWholeReply n r text.now) }
        ensures one { IfOk result (λ r. (other : Whole) → IsWholeReply n other text.now → other ≡ r) }
        ensures not_whole { (place : ℕ) → IsErrOf result (ReplyStop.NotWhole place) → IsNotWhole n key.now text.now place }
    {
        let (head, lines) = match key_behind(text, b"reply ") {
            Some(found) => found,
            None => return Err(ReplyStop::NotWhole { place: 0 }),
        };
        if !head.is_same(key) {
            return Err(ReplyStop::NotWhole { place: 0 });
        }
        let mut row = zeros(alloc, n)?;
        let start = (text.len() - lines.len()) as u64;
        match scan_lines(alloc, &mut row, lines) {
            Ok(scan) => Ok(Reply {
                key: head,
                rows: ReplyRows::of_lines(scan.front, scan.rows),
                keys: scan.keys,
                tail: scan.tail,
            }),
            Err(stop) => Err(further(stop, start)),
        }
    }

    /// The reply that a text is, whole, whatever its key, for a file with rows of n numbers. `Bad` where it is none.
    pub fn read_any<'a>(alloc: Global, n: u32, text: &'a [u8]) -> Result<Reply<'a>, PayloadStop>
        ensures ok { IfOk result (λ r. IsWholeReply n r text.now) }
        ensures one { IfOk result (λ r. (other : Whole) → IsWholeReply n other text.now → other ≡ r) }
        ensures bad { IsErrOf result PayloadStop.Bad → (reply : Whole) → IsWholeReply n reply text.now → ⊥ }
    {
        let (key, _) = match key_behind(text, b"reply ") {
            Some(found) => found,
            None => return Err(PayloadStop::Bad),
        };
        match ReplyReader::read(alloc, &key, n, text) {
            Ok(reply) => Ok(reply),
            Err(ReplyStop::NotWhole { .. }) => Err(PayloadStop::Bad),
            Err(ReplyStop::Memory) => Err(PayloadStop::Memory),
        }
    }
}
