//! Histories that are played: what is asked of the machine, and what it does.
use crate::asks::{Ask, read_ask};
use crate::begin::{Begun, begin};
use crate::feed::Feed;
use crate::stop::Stop;
use crate::told::{write_action, write_broken, write_judged, write_state, write_verdict};
use coordinator_core::{Core, Event};
use poly_io::{MemSink, write_all};
use std::alloc::Global;

/// Plays all histories of a text, and counts them.
pub fn play(alloc: Global, feed: &mut Feed, out: &mut MemSink) -> Result<u64, Stop> {
    for count in 0..u64::MAX {
        if feed.is_empty() {
            return Ok(count);
        }
        match begin(alloc, feed)? {
            Begun::Core(core) => play_from(alloc, core, feed, out)?,
            Begun::Broken { place } => write_broken(place, out)?,
        }
    }
    Ok(u64::MAX)
}

// Plays a history to its end.
fn play_from(alloc: Global, core: Core, feed: &mut Feed, out: &mut MemSink) -> Result<(), Stop> {
    let mut core = core;
    write_all(out, b"begins\n")?;
    for _ in 0..u64::MAX {
        match read_ask(feed) {
            Some(Ask::End) => return Ok(()),
            Some(ask) => answer(alloc, &mut core, &ask, out)?,
            None => return Err(Stop::Text),
        }
    }
    Ok(())
}

// Tells what the machine answers.
fn answer(alloc: Global, core: &mut Core, ask: &Ask, out: &mut MemSink) -> Result<(), Stop> {
    match ask {
        Ask::Next => write_action(&core.next(), out)?,
        Ask::Reply { attempt, bytes } => take(alloc, core, *attempt, bytes, out)?,
        Ask::Lost { attempt } => {
            let verdict = core.on(Event::Lost { attempt: *attempt })?;
            write_verdict(&verdict, out)?;
        }
        Ask::State => write_state(core.state(), out)?,
        Ask::End => {}
    }
    Ok(())
}

// Takes in bytes that came for an attempt. Where they are a reply it is judged before.
fn take(
    alloc: Global,
    core: &mut Core,
    attempt: u64,
    bytes: &[u8],
    out: &mut MemSink,
) -> Result<(), Stop> {
    let event = core.event_of(alloc, attempt, bytes)?;
    if let Event::Answer { attempt, reply } = &event {
        let verdict = core.judge(*attempt, reply)?;
        write_judged(&verdict, out)?;
    }
    let verdict = core.on(event)?;
    write_verdict(&verdict, out)?;
    Ok(())
}
