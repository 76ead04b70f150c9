//! Texts that go through a buffer piece by piece, over sinks that fail or take little at a call: what the sinks have in
//! the end.
use super::*;
use poly_io::{Call, MemSink, Sink, WriteFault, write_all};
use std::marker::Brand;
use std::test::Fail;

/// What the calls of a sink do, how a text of pieces ends there, and how many first bytes of it the sink has then.
#[derive(Clone, Copy)]
struct Case {
    name: &'static str,
    table: &'static [Call],
    pieces: &'static [usize],
    end: Result<(), WriteFault>,
    written: usize,
    faults: u64,
}

/// Many short pieces: the second call of the sink would fail, and there is none.
const SHORT: Case = Case {
    name: "many short pieces in one call",
    table: &[Call::AtMost(usize::MAX), Call::Fail],
    pieces: &[1000, 1000, 1000, 1000, 1000, 1000, 1000, 1000, 192],
    end: Ok(()),
    written: 8192,
    faults: 0,
};

const CASES: [Case; 6] = [
    SHORT,
    Case {
        name: "nothing",
        table: &[Call::Fail],
        pieces: &[0, 0],
        written: 0,
        ..SHORT
    },
    Case {
        name: "a long piece goes behind what is held",
        table: &[Call::AtMost(3), Call::AtMost(4000)],
        pieces: &[5, 9000, 7],
        written: 9012,
        ..SHORT
    },
    Case {
        name: "the end fails",
        table: &[Call::AtMost(3), Call::Fail],
        pieces: &[5, 6],
        end: Err(WriteFault),
        written: 3,
        faults: 1,
    },
    Case {
        name: "a piece fails, and what was held is handed on at the end",
        table: &[Call::AtMost(3), Call::Fail],
        pieces: &[5, 8190, 6],
        end: Err(WriteFault),
        written: 5,
        faults: 1,
    },
    Case {
        name: "a piece fails, and the end too",
        table: &[Call::AtMost(3), Call::Fail, Call::AtMost(1), Call::Fail],
        pieces: &[5, 8190],
        end: Err(WriteFault),
        written: 4,
        faults: 2,
    },
];

/// A text of bytes that count from 0 to 250, again and again.
fn text() -> [u8; 20000] {
    let mut text = [0; 20000];
    let mut next = 0u8;
    for byte in &mut text {
        *byte = next;
        next = if next >= 250 { 0 } else { next + 1 };
    }
    text
}

/// Writes pieces of a text, of such lengths, until a write fails.
fn write_pieces<S: Sink>(text: &[u8], pieces: &[usize], out: &mut S) -> Result<(), WriteFault> {
    let mut rest = text;
    for len in pieces {
        let (piece, others) = rest.split_at((*len).min(rest.len()));
        write_all(out, piece)?;
        rest = others;
    }
    Ok(())
}

#[test]
fn hands_on_what_was_written(rt: HostRuntime) -> Result<(), Fail> {
    let text = text();
    for case in CASES {
        let mut sink = Buffered::<Brand, _>::new(MemSink::new(rt.alloc(), case.table));
        let pieces = write_pieces(text.as_slice(), case.pieces, &mut sink);
        let (out, last) = sink.finish();
        let found = (pieces.and(last), out.written(), out.faults());
        let first = text.get(..case.written).unwrap_or_default();
        assert_eq!(rt; found, (case.end, first, case.faults), "{}", case.name);
    }
    let (out, end) = write_through(b"abc", MemSink::new(rt.alloc(), &[]));
    assert_eq!(rt; (end, out.written()), (Ok(()), b"abc".as_slice()));
    Ok(())
}
