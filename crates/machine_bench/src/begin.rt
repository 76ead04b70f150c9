//! Where a history begins: its options, and the payloads of a ledger.
ghost use Rattle.std.specs.Prelude.{IfSome};
ghost use Rattle.coordinator_core.specs.Machine.{AreOptions};

use crate::feed::Feed;
use crate::stop::Stop;
use coordinator_core::{Core, Options};
use plain_text::is_text;
use poly_io::Bytes;
use run_state::{ReplayStop, RunState};
use std::alloc::Global;
use work_core::{MOST_BASES, MOST_DEPTH};

/// A core that takes over the payloads, or the first of them that is broken.
#[derive(Drop)]
pub enum Begun {
    Core(Core),
    Broken { place: u64 },
}

/// Begins the next history.
pub fn begin(alloc: Global, feed: &mut Feed) -> Result<Begun, Stop> {
    let Some((given, count)) = read_head(feed) else {
        return Err(Stop::Text);
    };
    let Some(options) = in_range(given) else {
        return Err(Stop::Text);
    };
    let payloads = read_payloads(alloc, feed, count)?;
    if payloads.is_empty() {
        return Err(Stop::Text);
    }
    match RunState::replay(alloc, &payloads) {
        Ok(run) => Ok(Begun::Core(Core::new(alloc, run, options)?)),
        Err(ReplayStop::BadLedger { place }) => Ok(Begun::Broken { place }),
        Err(ReplayStop::Memory) => Err(Stop::Memory),
    }
}

// The options, and how many payloads follow.
fn read_head(feed: &mut Feed) -> Option<(Options, u64)> {
    let mut line = feed.line()?;
    if !is_text(line.word, b"history") {
        return None;
    }
    let options = Options {
        workers: line.number()?,
        bases: line.number()?,
        depth: line.number()?,
        lmin: line.number()?,
        lost: line.number()?,
    };
    let count = line.number()?;
    Some((options, count))
}

// The options, where they are in their ranges.
fn in_range(options: Options) -> Option<Options>
    ensures { IfSome result AreOptions }
{
    if options.workers == 0 || options.workers > 256 {
        return None;
    }
    if options.bases == 0 || options.bases > MOST_BASES {
        return None;
    }
    if options.depth == 0 || options.depth > MOST_DEPTH {
        return None;
    }
    if options.lmin == 0 || options.lmin > 1000 || options.lost > 1000000 {
        return None;
    }
    Some(options)
}

fn read_payloads(alloc: Global, feed: &mut Feed, count: u64) -> Result<Vec<Bytes>, Stop> {
    let mut payloads = Vec::new(alloc);
    for _ in 0..count {
        let Some(bytes) = read_payload(feed) else {
            return Err(Stop::Text);
        };
        payloads.push(Bytes::from_vec(Vec::from_slice(alloc, bytes)?))?;
    }
    Ok(payloads)
}

fn read_payload<'a>(feed: &mut Feed<'a>) -> Option<&'a [u8]> {
    let mut line = feed.line()?;
    if !is_text(line.word, b"payload") {
        return None;
    }
    let length = line.number()?;
    feed.piece(length)
}
