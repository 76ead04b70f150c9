//! What becomes of a reply at workers in memory.
ghost use Rattle.std.specs.Prelude.{◌≡◌, map, drop, IfOk};
ghost use Rattle.workers_io.specs.Memory.{changed, fated, first_fate, prompt};

use crate::coming::Coming;
use crate::{Collected, Fate};
use poly_io::Bytes;
use std::alloc::{AllocError, Global};

/// An attempt, and what becomes of it.
#[derive(Clone, Copy)]
pub(crate) struct Planned<'a> {
    pub(crate) attempt: u64,
    pub(crate) fate: Fate,
    /// What may come in the place of its reply.
    pub(crate) others: &'a [&'a [u8]],
}

/// Takes the first fate off a table. Past its end each reply comes.
pub(crate) fn next_fate(fates: &mut &[Fate]) -> Fate
    ensures first { result ≡ first_fate fates.old.now }
    ensures rest { fates.new.now ≡ drop 1 fates.old.now }
{
    match *fates {
        [first, others @ ..] => {
            let fate = *first;
            *fates = others;
            fate
        }
        [] => Fate::Keep,
    }
}

// The bytes that come of a reply.
fn change(alloc: Global, fate: Fate, others: &[&[u8]], reply: Bytes) -> Result<Bytes, AllocError>
    ensures { IfOk result (λ b. b ≡ changed fate (map (λ o. o.now) others.now) reply) }
{
    let mut bytes = reply.into_vec();
    match fate {
        Fate::Cut(count) => bytes.truncate(count as usize),
        Fate::Replace(number) => {
            bytes = match others.get(number as usize) {
                Some(other) => other.to_vec(alloc)?,
                None => Vec::new(alloc),
            }
        }
        _ => {}
    }
    Ok(Bytes::from_vec(bytes))
}

/// What is to come of an attempt with this reply, or with none.
pub(crate) fn come_of(
    alloc: Global,
    planned: Planned,
    reply: Option<Bytes>,
) -> Result<Vec<Coming>, AllocError>
    ensures { IfOk result (λ v. v.items ≡ fated planned.entry.fate (map (λ o. o.now) planned.entry.others.now) planned.entry.attempt reply) }
{
    let Planned {
        attempt,
        fate,
        others,
    } = planned;
    let mut coming = Vec::new(alloc);
    let Some(reply) = reply else {
        coming.push(broken(attempt))?;
        return Ok(coming);
    };
    match fate {
        Fate::Lose => coming.push(broken(attempt))?,
        Fate::Twice => {
            let again = Bytes::from_vec(reply.as_slice().to_vec(alloc)?);
            coming.push(replied(attempt, again))?;
            coming.push(replied(attempt, reply))?;
        }
        Fate::Late => coming.push(Coming {
            late: true,
            ..replied(attempt, reply)
        })?,
        _ => coming.push(replied(attempt, change(alloc, fate, others, reply)?))?,
    }
    Ok(coming)
}

// A reply that comes at its turn.
fn replied(attempt: u64, bytes: Bytes) -> Coming
    ensures { result ≡ prompt (Collected.Reply attempt bytes) }
{
    Coming {
        late: false,
        gives: Collected::Reply { attempt, bytes },
    }
}

// A failure that comes at its turn.
fn broken(attempt: u64) -> Coming
    ensures { result ≡ prompt (Collected.Broken attempt) }
{
    Coming {
        late: false,
        gives: Collected::Broken { attempt },
    }
}
