//! Sources and sinks that fail or move little at a call, and those over std: what is read, what goes
//! out, and how often it failed.
use super::*;
use poly_num::Num;
use std::alloc::{AllocError, Global};
use std::io::{self, ErrorKind, Read, Write};
use std::test::Fail;

/// A text, the calls of its source and the limit of the reading, and how that is to end: with a reason or none, how
/// many bytes are left, and how often a read has failed.
#[derive(Clone, Copy)]
struct ReadCase {
    name: &'static str,
    text: &'static [u8],
    table: &'static [Call],
    limit: usize,
    stop: Option<WholeStop>,
    left: usize,
    faults: u64,
}

const WHOLE: ReadCase = ReadCase {
    name: "nothing",
    text: b"",
    table: &[],
    limit: 0,
    stop: None,
    left: 0,
    faults: 0,
};

const READS: [ReadCase; 6] = [
    WHOLE,
    ReadCase {
        name: "as much as the limit says",
        text: b"abc",
        limit: 3,
        ..WHOLE
    },
    ReadCase {
        name: "in pieces",
        text: b"abc",
        table: &[Call::AtMost(2), Call::AtMost(0)],
        limit: 3,
        ..WHOLE
    },
    ReadCase {
        name: "past the limit",
        text: b"abcde",
        limit: 3,
        stop: Some(WholeStop::TooLong),
        left: 1,
        ..WHOLE
    },
    ReadCase {
        name: "past the limit, in pieces",
        text: b"abcde",
        table: &[
            Call::AtMost(2),
            Call::AtMost(1),
            Call::AtMost(1),
            Call::Fail,
        ],
        limit: 3,
        stop: Some(WholeStop::TooLong),
        left: 1,
        ..WHOLE
    },
    ReadCase {
        name: "a read that fails",
        text: b"abcde",
        table: &[Call::AtMost(2), Call::Fail],
        limit: 9,
        stop: Some(WholeStop::Fault),
        left: 3,
        faults: 1,
    },
];

/// Bytes that were read, by each of their methods.
#[derive(PartialEq, Eq, Debug, Drop)]
struct Text {
    len: usize,
    is_empty: bool,
    shown: Vec<u8>,
    given: Vec<u8>,
}

fn text_of(alloc: Global, bytes: Bytes) -> Result<Text, AllocError> {
    Ok(Text {
        len: bytes.len(),
        is_empty: bytes.is_empty(),
        shown: Vec::from_slice(alloc, bytes.as_slice())?,
        given: bytes.into_vec(),
    })
}

/// What is to be found of a case: the text, or the reason for none.
fn wanted(alloc: Global, case: ReadCase) -> Result<Result<Text, WholeStop>, AllocError> {
    match case.stop {
        Some(stop) => Ok(Err(stop)),
        None => Ok(Ok(Text {
            len: case.text.len(),
            is_empty: case.text.is_empty(),
            shown: Vec::from_slice(alloc, case.text)?,
            given: Vec::from_slice(alloc, case.text)?,
        })),
    }
}

#[test]
fn reads_to_the_end_or_past_the_limit(rt: HostRuntime) -> Result<(), Fail> {
    let alloc = rt.alloc();
    for case in READS {
        let mut source = MemSource::new(case.text, case.table);
        let read = match read_whole(alloc, &mut source, case.limit) {
            Ok(bytes) => Ok(text_of(alloc, bytes)?),
            Err(stop) => Err(stop),
        };
        let found = (read, source.left().len(), source.faults());
        let want = (wanted(alloc, case)?, case.left, case.faults);
        assert_eq!(rt; found, want, "{}", case.name);
    }
    Ok(())
}

/// The calls of a sink, and what of a line goes out, with how often a write has failed.
#[derive(Clone, Copy)]
struct WriteCase {
    name: &'static str,
    table: &'static [Call],
    end: Result<(), WriteFault>,
    written: &'static [u8],
    faults: u64,
}

const LINE: WriteCase = WriteCase {
    name: "at once",
    table: &[],
    end: Ok(()),
    written: b"-1207 18446744073709551615",
    faults: 0,
};

const WRITES: [WriteCase; 4] = [
    LINE,
    WriteCase {
        name: "in pieces",
        table: &[Call::AtMost(1), Call::AtMost(0)],
        ..LINE
    },
    WriteCase {
        name: "the second write fails",
        table: &[Call::AtMost(2), Call::Fail],
        end: Err(WriteFault),
        written: b"-1",
        faults: 1,
    },
    WriteCase {
        name: "the fourth write fails",
        table: &[
            Call::AtMost(9),
            Call::AtMost(9),
            Call::AtMost(3),
            Call::Fail,
        ],
        end: Err(WriteFault),
        written: b"-1207 184",
        faults: 1,
    },
];

#[test]
fn writes_prefixes_on_faults(rt: HostRuntime) -> Result<(), Fail> {
    let number = Num::new(-1207).ok_or("a number of 127 bits")?;
    for case in WRITES {
        let mut out = MemSink::new(rt.alloc(), case.table);
        let end = line(number, &mut out);
        let found = (end, out.written(), out.faults());
        assert_eq!(rt;
            found,
            (case.end, case.written, case.faults),
            "{}",
            case.name
        );
    }
    Ok(())
}

fn line<S: Sink>(number: Num, out: &mut S) -> Result<(), WriteFault> {
    write_num(number, out)?;
    write_all(out, b" ")?;
    write_count(u64::MAX, out)
}

/// A reader and a writer that fail at every call.
#[derive(Drop)]
struct Broken;

impl Read for Broken {
    fn read(&mut self, _: &mut [u8]) -> io::Result<usize> {
        Err(io::Error::from(ErrorKind::BrokenPipe))
    }
}

impl Write for Broken {
    fn write(&mut self, _: &[u8]) -> io::Result<usize> {
        Err(io::Error::from(ErrorKind::BrokenPipe))
    }

    fn flush(&mut self) -> io::Result<()> {
        Ok(())
    }
}

#[test]
fn goes_over_the_readers_and_writers_of_std(rt: HostRuntime) -> Result<(), Fail> {
    let alloc = rt.alloc();
    let mut source = StdinSource::new(b"ab".as_slice());
    let read = match read_whole(alloc, &mut source, 2) {
        Ok(bytes) => Ok(bytes.into_vec()),
        Err(stop) => Err(stop),
    };
    let mut broken = StdinSource::new(b"ab".as_slice().chain(Broken));
    let stopped = read_whole(alloc, &mut broken, 9).err();
    let mut room = [0u8; 3];
    let mut out = StdoutSink::new(room.as_mut_slice());
    let full = write_all(&mut out, b"abcd");
    drop(out);
    let mut broken = StdoutSink::new(Broken);
    let failed = write_all(&mut broken, b"a");
    let text = Vec::from_slice(alloc, b"ab")?;
    let fault = Err(WriteFault);
    assert_eq!(rt;
        (read, stopped, full, room, failed),
        (Ok(text), Some(WholeStop::Fault), fault, *b"abc", fault)
    );
    Ok(())
}
