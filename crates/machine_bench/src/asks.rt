//! What the lines of a history ask for.
use crate::feed::Feed;
use plain_text::is_text;

/// What is asked of the machine: what is next, what becomes of bytes that came for an attempt or of one that was lost, and
/// how the run stands; or the history is at its end.
#[derive(Drop)]
pub enum Ask<'a> {
    Next,
    Reply { attempt: u64, bytes: &'a [u8] },
    Lost { attempt: u64 },
    State,
    End,
}

/// What the next line asks for.
pub fn read_ask<'a>(feed: &mut Feed<'a>) -> Option<Ask<'a>> {
    let mut line = feed.line()?;
    if is_text(line.word, b"next") {
        return Some(Ask::Next);
    }
    if is_text(line.word, b"state") {
        return Some(Ask::State);
    }
    if is_text(line.word, b"end") {
        return Some(Ask::End);
    }
    let attempt = line.number()?;
    if is_text(line.word, b"lost") {
        return Some(Ask::Lost { attempt });
    }
    if !is_text(line.word, b"reply") {
        return None;
    }
    let length = line.number()?;
    let bytes = feed.piece(length)?;
    Some(Ask::Reply { attempt, bytes })
}
