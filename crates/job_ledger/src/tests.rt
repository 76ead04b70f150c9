//! The bytes of a ledger and its refusals; what every image says of a ledger whose disk fails, or whose program stops, at
//! each call; and ledgers longer than a block, in memory and in a file.
ghost use Rattle.std.specs.Prelude.{◌≤◌, ◌^◌};

use super::*;
use crate::entry::OPEN;
use crate::header::push_header;
use disk_core::{Disk, DiskCall, FileDisk, MemDisk};
use poly_io::Bytes;
use std::alloc::{AllocError, Global};
use std::fs;
use std::test::Fail;

/// What a file holds at first, the limit of its ledger, and how a ledger of `ab` and then `c` ends there: which call is
/// refused, or none, and the bytes that are read.
#[derive(Clone, Copy)]
struct Case {
    name: &'static str,
    first: &'static [u8],
    limit: u64,
    end: Result<(), LedgerStop>,
    bytes: &'static [u8],
}

const CASES: [Case; 6] = [
    Case {
        name: "an empty file",
        first: b"",
        limit: 34,
        end: Ok(()),
        bytes: b"\xf50000000000002\nab\xf50000000000001\nc\0",
    },
    Case {
        name: "a closed gate, and bytes behind it",
        first: b"\x01234567890123456789012345678901234567",
        limit: 34,
        end: Ok(()),
        bytes: b"\xf50000000000002\nab\xf50000000000001\nc\x00567",
    },
    Case {
        name: "the second record passes the limit",
        first: b"",
        limit: 33,
        end: Err(LedgerStop::LedgerLimit {
            need: 34,
            limit: 33,
        }),
        bytes: b"\xf50000000000002\nab\0",
    },
    Case {
        name: "the first record fills the limit",
        first: b"\0",
        limit: 18,
        end: Err(LedgerStop::LedgerLimit {
            need: 34,
            limit: 18,
        }),
        bytes: b"\xf50000000000002\nab\0",
    },
    Case {
        name: "the first record passes the limit",
        first: b"",
        limit: 17,
        end: Err(LedgerStop::LedgerLimit {
            need: 18,
            limit: 17,
        }),
        bytes: b"",
    },
    Case {
        name: "an open gate",
        first: b"\xf5",
        limit: 34,
        end: Err(LedgerStop::HasRun),
        bytes: b"\xf5",
    },
];

/// Begins a ledger and adds a record.
fn begin<D: Disk>(alloc: Global, disk: &mut D, limit: u64) -> Result<(), LedgerStop>
    requires { limit ≤ 2 ^ 40 }
{
    let mut ledger = Ledger::create(alloc, disk, limit, b"ab")?;
    ledger.append(disk, b"c")
}

#[test]
fn writes_records_one_after_the_other(rt: HostRuntime) -> Result<(), Fail> {
    let alloc = rt.alloc();
    for case in CASES {
        let mut disk = MemDisk::new(alloc, case.first, &[])?;
        let end = begin(alloc, &mut disk, case.limit.min(99));
        assert_eq!(rt;
            (end, disk.bytes()),
            (case.end, case.bytes),
            "{}",
            case.name
        );
    }
    Ok(())
}

/// Files, and how many records they have, or why they are refused.
const FILES: [(&[u8], Result<u64, LedgerStop>); 9] = [
    (b"", Err(LedgerStop::NoRun)),
    (b"\0", Err(LedgerStop::NoRun)),
    (b"\x000000000000002\nab\0", Err(LedgerStop::NoRun)),
    (b"\xf5", Err(LedgerStop::BadLedger { place: 1 })),
    (
        b"\xf50000000000002\nab",
        Err(LedgerStop::BadLedger { place: 1 }),
    ),
    (
        b"\xf5000000000000:\nab\0",
        Err(LedgerStop::BadLedger { place: 1 }),
    ),
    (
        b"\xf50000000000002\rab\0",
        Err(LedgerStop::BadLedger { place: 1 }),
    ),
    (
        b"\xf50000000000002\nab\xf5",
        Err(LedgerStop::BadLedger { place: 2 }),
    ),
    (b"\xf50000000000002\nab\xf50000000000000\n\x07x", Ok(2)),
];

/// How many records a file has.
fn count<D: Disk>(alloc: Global, disk: &mut D) -> Result<u64, LedgerStop> {
    Ok(Ledger::reopen(alloc, disk, 99)?.count())
}

#[test]
fn reads_the_layout_of_a_file(rt: HostRuntime) -> Result<(), Fail> {
    let alloc = rt.alloc();
    for (bytes, found) in FILES {
        let mut disk = MemDisk::new(alloc, bytes, &[])?;
        assert_eq!(rt; count(alloc, &mut disk), found, "{:?}", bytes);
    }
    Ok(())
}

/// The payloads that a run appends.
const PAYLOADS: [&[u8]; 3] = [b"ab", b"c", b""];

/// Appends the payloads, and answers how many were acknowledged.
fn run<D: Disk>(alloc: Global, disk: &mut D) -> u64 {
    let Ok(mut ledger) = Ledger::create(alloc, disk, 99, PAYLOADS[0]) else {
        return 0;
    };
    if ledger.append(disk, PAYLOADS[1]).is_err() {
        return 1;
    }
    if ledger.append(disk, PAYLOADS[2]).is_err() {
        return 2;
    }
    3
}

/// The payload of this number, where there is one.
fn payload<D: Disk>(ledger: &Ledger, disk: &mut D, number: u64) -> Result<Bytes, LedgerStop> {
    if number >= ledger.count() {
        return Err(LedgerStop::NoRun);
    }
    ledger.payload(disk, number)
}

/// Whether a file has this many first payloads, or one more; where there is none to have, no run.
fn has_kept(alloc: Global, bytes: &[u8], acknowledged: u64) -> Result<bool, LedgerStop> {
    let mut disk = MemDisk::new(alloc, bytes, &[])?;
    let ledger = match Ledger::reopen(alloc, &mut disk, 99) {
        Ok(ledger) => ledger,
        Err(LedgerStop::NoRun) => return Ok(acknowledged == 0),
        Err(_) => return Ok(false),
    };
    let count = ledger.count();
    for number in 0..PAYLOADS.len() {
        if (number as u64) < count
            && payload(&ledger, &mut disk, number as u64)?.as_slice() != PAYLOADS[number]
        {
            return Ok(false);
        }
    }
    Ok(count >= acknowledged && count - acknowledged <= 1)
}

/// The number of the first image that has not kept what was acknowledged.
fn first_lost(alloc: Global, disk: &MemDisk, acknowledged: u64) -> Result<Option<u64>, LedgerStop> {
    for number in 0..disk.image_count() {
        if !has_kept(alloc, disk.image(number)?.as_slice(), acknowledged)? {
            return Ok(Some(number));
        }
    }
    Ok(None)
}

/// How a call ends that is not done: it fails, the program stops before it, or within it after so many bytes.
const ENDS: [[DiskCall; 2]; 5] = [
    [DiskCall::Fail, DiskCall::Do],
    [DiskCall::Stop, DiskCall::Stop],
    [DiskCall::Tear(1), DiskCall::Stop],
    [DiskCall::Tear(9), DiskCall::Stop],
    [DiskCall::Tear(99), DiskCall::Stop],
];

/// More calls than a run of three records makes.
const CALLS: usize = 18;

/// How many records were acknowledged before call `k` ended so, and the first image that has lost one.
fn stopped(alloc: Global, k: usize, end: [DiskCall; 2]) -> Result<(u64, Option<u64>), LedgerStop> {
    let mut table = Vec::new(alloc);
    table.resize(k, DiskCall::Do)?;
    table.extend_from_slice(&end)?;
    let mut disk = MemDisk::new(alloc, b"", &table)?;
    let acknowledged = run(alloc, &mut disk);
    Ok((acknowledged, first_lost(alloc, &disk, acknowledged)?))
}

/// How many records are acknowledged before each call: `create` makes nine and `append` four.
const ACKNOWLEDGED: [u64; CALLS] = [0, 0, 0, 0, 0, 0, 0, 0, 0, 1, 1, 1, 1, 2, 2, 2, 2, 3];

#[test]
fn what_was_acknowledged_survives_every_crash(rt: HostRuntime) -> Result<(), Fail> {
    for k in 0..CALLS {
        for end in ENDS {
            let found = stopped(rt.alloc(), k, end);
            assert_eq!(rt; found, Ok((ACKNOWLEDGED[k], None)), "{} {:?}", k, end);
        }
    }
    Ok(())
}

/// How long the payloads of a long file are: it has as many records, so that their heads lie everywhere in its blocks, and
/// one payload is longer than a block.
fn length_of(number: u64) -> u64 {
    if number == 2000 { 70_000 } else { number % 50 }
}

/// A file of so many records, the bytes of each payload its number.
fn long_file(alloc: Global, records: u64) -> Result<Vec<u8>, AllocError> {
    let mut bytes = Vec::new(alloc);
    for number in 0..records {
        let len = length_of(number);
        bytes.push(OPEN)?;
        push_header(&mut bytes, len)?;
        for _ in 0..len {
            bytes.push((number % 200) as u8)?;
        }
    }
    bytes.push(0)?;
    Ok(bytes)
}

/// The numbers of payloads and what is read of each: its length and its last byte.
const READS: [(u64, usize, Option<u8>); 5] = [
    (0, 0, None),
    (49, 49, Some(49)),
    (2000, 70_000, Some(0)),
    (2001, 1, Some(1)),
    (3999, 49, Some(199)),
];

#[test]
fn reads_records_across_blocks(rt: HostRuntime) -> Result<(), Fail> {
    let alloc = rt.alloc();
    let bytes = long_file(alloc, 4000)?;
    let mut disk = MemDisk::new(alloc, &bytes, &[])?;
    let ledger = Ledger::reopen(alloc, &mut disk, 99).map_err(|_| "a ledger")?;
    for (number, len, last) in READS {
        let payload = payload(&ledger, &mut disk, number).map_err(|_| "a payload")?;
        let found = (
            ledger.count(),
            payload.len(),
            payload.as_slice().last().copied(),
        );
        assert_eq!(rt; found, (4000, len, last), "{}", number);
    }
    Ok(())
}

const NAME: &str = "tests_of_job_ledger.ledger";

#[test]
fn a_file_keeps_a_ledger(rt: HostRuntime) -> Result<(), Fail> {
    let alloc = rt.alloc();
    let mut writer = FileDisk::writer(&rt);
    let unattached = run(alloc, &mut writer);
    let attached = writer.attach(NAME);
    let written = run(alloc, &mut writer);
    let mut reader = FileDisk::reader(&rt);
    let read = reader.attach(NAME);
    let counted = count(alloc, &mut reader);
    let refused = begin(alloc, &mut writer, 99);
    fs::remove_file(&rt, NAME)?;
    assert_eq!(rt;
        (unattached, attached, written, read, counted, refused),
        (0, Ok(()), 3, Ok(()), Ok(3), Err(LedgerStop::HasRun))
    );
    Ok(())
}
