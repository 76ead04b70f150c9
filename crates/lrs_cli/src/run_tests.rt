//! Runs of the pyramid over a square, by workers in memory that lose, cut, repeat and hold back replies, over files that
//! fail and stop; and runs that go on from what these leave.
ghost use Rattle.std.specs.Prelude.{◌<◌};

use crate::devices::Devices;
use crate::status::Status;
use crate::top::lrs;
use disk_core::{DiskCall, MemDisk};
use poly_io::{Call, MemSink, MemSource};
use std::alloc::{AllocError, Global};
use std::test::Fail;
use worker_job::ShippedJob;
use workers_io::{Fate, MemWorkers};

const PYRAMID: &str =
    "H-representation\nbegin\n5 4 integer\n0 0 0 1\n1 -1 0 -1\n1 1 0 -1\n1 0 -1 -1\n1 0 1 -1\nend\n";

const LISTING: &str =
    "V-representation\nbegin\n***** 4 rational\n 1 1 1 0\n 1 1 -1 0\n 1 -1 1 0\n 1 -1 -1 0\n 1 0 0 1\nend\n";

const RUN: &[&str] = &["run", "L", "--workers=2", "--bases=1"];

const RUN_THAT_BEARS_NOTHING: &[&str] = &["run", "L", "--workers=2", "--bases=1", "--lost=0"];

const RESUME: &[&str] = &["resume", "L", "--lost", "0"];

const WHOLE: Status = Status::Done { rows: 5, lines: 0 };

/// A run in an empty file: what becomes of its starts, how its writes go, what it answers and writes.
#[derive(Clone, Copy)]
struct Row {
    name: &'static str,
    words: &'static [&'static str],
    fates: &'static [Fate],
    writes: &'static [Call],
    status: Status,
    written: &'static str,
}

const UNDISTURBED: Row = Row {
    name: "nothing is lost",
    words: RUN,
    fates: &[],
    writes: &[],
    status: WHOLE,
    written: LISTING,
};

const ROWS: [Row; 12] = [
    UNDISTURBED,
    Row {
        name: "the first reply lacks its last line",
        fates: &[Fate::Cut(62)],
        ..UNDISTURBED
    },
    Row {
        name: "replies that end within a line, and nowhere",
        fates: &[Fate::Cut(20), Fate::Cut(0)],
        ..UNDISTURBED
    },
    Row {
        name: "attempts that break, and a start that fails",
        fates: &[Fate::Lose, Fate::Refuse, Fate::Lose],
        ..UNDISTURBED
    },
    Row {
        name: "each reply comes twice",
        fates: &[
            Fate::Twice,
            Fate::Twice,
            Fate::Twice,
            Fate::Twice,
            Fate::Twice,
        ],
        ..UNDISTURBED
    },
    Row {
        name: "replies come in pairs turned round",
        fates: &[Fate::Keep, Fate::Late, Fate::Keep, Fate::Late, Fate::Keep],
        ..UNDISTURBED
    },
    Row {
        name: "a reply that comes twice, where none is borne",
        words: RUN_THAT_BEARS_NOTHING,
        fates: &[Fate::Twice],
        status: Status::Lost { lost: 0, strays: 1 },
        written: "",
        ..UNDISTURBED
    },
    Row {
        name: "a start that fails, where none is borne",
        words: RUN_THAT_BEARS_NOTHING,
        fates: &[Fate::Refuse],
        status: Status::Lost { lost: 1, strays: 0 },
        written: "",
        ..UNDISTURBED
    },
    Row {
        name: "an attempt that breaks, where none is borne",
        words: RUN_THAT_BEARS_NOTHING,
        fates: &[Fate::Lose],
        status: Status::Lost { lost: 1, strays: 0 },
        written: "",
        ..UNDISTURBED
    },
    Row {
        name: "a sink that fails",
        writes: &[Call::Fail],
        status: Status::WriteFault,
        written: "",
        ..UNDISTURBED
    },
    Row {
        name: "a sink that takes 17 bytes and fails",
        writes: &[Call::AtMost(17), Call::Fail],
        status: Status::WriteFault,
        written: "V-representation\n",
        ..UNDISTURBED
    },
    Row {
        name: "jobs of many bases",
        words: &["run", "L"],
        ..UNDISTURBED
    },
];

/// What follows each of these runs in its file.
const BEHIND: [Row; 3] = [
    Row {
        name: "on to the end",
        words: RESUME,
        ..UNDISTURBED
    },
    // no worker is started there: it would be lost, and none is borne
    Row {
        name: "on where nothing is left to do",
        words: RESUME,
        fates: &[Fate::Refuse],
        ..UNDISTURBED
    },
    Row {
        name: "another run",
        status: Status::HasRun,
        written: "",
        ..UNDISTURBED
    },
];

/// A call over a disk, which is given back, with workers of these fates and a sink with this table.
fn ran<'a>(
    alloc: Global,
    words: &[&str],
    disk: MemDisk<'a>,
    fates: &'a [Fate],
    writes: &'a [Call],
) -> (Status, MemSink<'a>, MemDisk<'a>) {
    let mut devices = Devices {
        input: MemSource::new(PYRAMID.as_bytes(), &[]),
        disk,
        workers: MemWorkers::new(alloc, ShippedJob::new(alloc), fates, &[]),
    };
    let (status, out) = lrs(alloc, words, &mut devices, MemSink::new(alloc, writes));
    (status, out, devices.disk)
}

/// The lines of a text, in a fixed order.
fn lines(alloc: Global, text: &[u8]) -> Result<Vec<&[u8]>, AllocError> {
    let mut lines = text.split(|b| *b == b'\n').collect::<Vec<&[u8]>>(alloc)?;
    lines.sort()?;
    Ok(lines)
}

/// Whether two texts have the same lines, in whatever order.
fn are_same_lines(alloc: Global, text: &[u8], other: &str) -> Result<bool, AllocError> {
    Ok(lines(alloc, text)? == lines(alloc, other.as_bytes())?)
}

/// Whether a call over a disk, which is given back, answers as its row says, and writes those lines in whatever order.
fn is_right<'a>(
    alloc: Global,
    row: &'a Row,
    disk: MemDisk<'a>,
) -> Result<(bool, MemDisk<'a>), AllocError> {
    let (status, out, disk) = ran(alloc, row.words, disk, row.fates, row.writes);
    let is_same = are_same_lines(alloc, out.written(), row.written)?;
    Ok((is_same && status == row.status, disk))
}

/// Whether `status` says that all is done.
fn tells_all_done(alloc: Global, disk: MemDisk) -> bool {
    let (status, out, _) = ran(alloc, &["status", "L"], disk, &[], &[]);
    status == WHOLE && out.written().ends_with(b"waiting 0\nrows 5\n")
}

/// Which of these calls are right: the run of a row, those that follow it, and `status`.
fn right_calls(alloc: Global, row: &Row, behind: &[Row; 3]) -> Result<[bool; 5], AllocError> {
    let disk = MemDisk::new(alloc, b"", &[])?;
    let (first, disk) = is_right(alloc, row, disk)?;
    let (again, disk) = is_right(alloc, &behind[0], disk)?;
    let (last, disk) = is_right(alloc, &behind[1], disk)?;
    let (refused, disk) = is_right(alloc, &behind[2], disk)?;
    Ok([first, again, last, refused, tells_all_done(alloc, disk)])
}

/// The first of these runs that is not right or is not followed by right calls, and the place of the first of these.
fn first_wrong(alloc: Global, rows: &[Row]) -> Result<Option<(&'static str, usize)>, AllocError> {
    for row in rows {
        let right = right_calls(alloc, row, &BEHIND)?;
        if let Some(place) = right.iter().position(|is_right| !*is_right) {
            return Ok(Some((row.name, place)));
        }
    }
    Ok(None)
}

#[test]
fn runs_whatever_the_workers_do(rt: HostRuntime) -> Result<(), Fail> {
    assert_eq!(rt; first_wrong(rt.alloc(), &ROWS)?, None);
    Ok(())
}

/// How far apart the images lie that are tried: all are where the last write is the gate of the first reply, that is the
/// second write of one byte.
fn stride(images: u64, gates: &mut u64) -> usize
    ensures { 0 < result }
{
    if images == 258 {
        *gates = gates.saturating_add(1);
        if *gates == 2 {
            return 1;
        }
    }
    (images as usize / 3).max(1)
}

/// The first image of those that are tried from which no run goes on to the whole listing, though it has one.
fn image_lost(alloc: Global, disk: &MemDisk, gates: &mut u64) -> Result<Option<u64>, AllocError> {
    let images = disk.image_count();
    for number in (0..images).step_by(stride(images, gates)) {
        let left = disk.image(number)?;
        let disk = MemDisk::new(alloc, left.as_slice(), &[])?;
        let (status, out, _) = ran(alloc, RESUME, disk, &[], &[]);
        let wanted = if status == Status::NoRun { "" } else { LISTING };
        let goes_on = status == WHOLE || status == Status::NoRun;
        if !goes_on || !are_same_lines(alloc, out.written(), wanted)? {
            return Ok(Some(number));
        }
    }
    Ok(None)
}

/// What a run answers over a disk whose calls are these, and the first image that is lost of those that it leaves.
fn cut_short(
    alloc: Global,
    calls: &[DiskCall],
    gates: &mut u64,
) -> Result<(Status, Option<u64>), AllocError> {
    let disk = MemDisk::new(alloc, b"", calls)?;
    let (status, _, disk) = ran(alloc, RUN, disk, &[Fate::Cut(62)], &[]);
    Ok((status, image_lost(alloc, &disk, gates)?))
}

#[test]
fn goes_on_wherever_a_disk_fails(rt: HostRuntime) -> Result<(), Fail> {
    let alloc = rt.alloc();
    // Each value of the gate is tried once, where the run is stopped.
    let mut gates = 0;
    for wrong in [DiskCall::Stop, DiskCall::Fail, DiskCall::Tear(1)] {
        let mut calls = Vec::new(alloc);
        for count in 0..60 {
            calls.push(wrong)?;
            let (status, lost) = cut_short(alloc, &calls, &mut gates)?;
            assert_eq!(rt; lost, None, "call {count}");
            calls.pop();
            calls.push(DiskCall::Do)?;
            if status == WHOLE {
                assert_eq!(rt; (count > 20, gates > 3), (true, true));
                break;
            }
            assert_eq!(rt; status, Status::DiskFault, "call {count}");
        }
    }
    Ok(())
}
