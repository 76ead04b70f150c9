//! The program on worked files, whose listings were computed elsewhere.
use crate::devices::Devices;
use crate::process::respond;
use crate::status::{Status, status_line};
use crate::top::lrs;
use command_line::LineStop;
use disk_core::MemDisk;
use poly_io::{Call, MemSink, MemSource, WriteFault};
use poly_model::{Key, Label, Overflow, Phase, Place};
use poly_reader::{BadFile, BadKind};
use std::alloc::{AllocError, Global};
use std::test::Fail;
use worker_job::ShippedJob;
use workers_io::MemWorkers;

/// A call, with the limits of its reads and writes, how it ends, and what it writes. The rows of a listing may stand in
/// any order.
#[derive(Clone, Copy)]
struct Case {
    name: &'static str,
    words: &'static [&'static str],
    file: &'static str,
    reads: &'static [Call],
    writes: &'static [Call],
    end: End,
    written: &'static str,
}

/// How a call ends. Of an overflow no more is asked than its phase.
#[derive(Clone, Copy, PartialEq, Eq, Debug)]
enum End {
    Done(u64, u32),
    BadFile(BadKind, u64),
    BadJob(u64),
    Overflow(Phase),
    Other(u8),
}

const USAGE: End = End::Other(2);

const INFEASIBLE: End = End::Other(4);

const USAGE_LINE: &str =
    "lrs: usage: lrs convert / run LEDGER / resume LEDGER / status LEDGER / job / demo KIND N\n";

const SQUARE: Case = Case {
    name: "a square",
    words: &["convert"],
    file: "H-representation\nbegin\n4 3 integer\n0 1 0\n0 0 1\n1 -1 0\n1 0 -1\nend\n",
    reads: &[],
    writes: &[],
    end: End::Done(4, 0),
    written: "V-representation\nbegin\n***** 3 rational\n 1 0 0\n 1 1 0\n 1 0 1\n 1 1 1\nend\n",
};

const LISTED: [Case; 25] = [
    SQUARE,
    Case {
        name: "the square, half of it by `nonnegative`",
        file: "nonnegative\nbegin\n2 3 integer\n 1 -1 0\n 1 0 -1\nend\n",
        ..SQUARE
    },
    Case {
        name: "a segment on a line, between the axes",
        file: "nonnegative\nlinearity 1 1\nbegin\n1 3 integer\n -1 1 1\nend\n",
        end: End::Done(2, 0),
        written: "V-representation\nbegin\n***** 3 rational\n 1 1 0\n 1 0 1\nend\n",
        ..SQUARE
    },
    Case {
        name: "a half line, where `nonnegative` says more than the row",
        file: "nonnegative\nbegin\n1 2 integer\n 1 2\nend\n",
        end: End::Done(2, 0),
        written: "V-representation\nbegin\n***** 2 rational\n 1 0\n 0 1\nend\n",
        ..SQUARE
    },
    Case {
        name: "a row twice, and a row of zeros",
        file: "H-representation\nbegin\n6 3 integer\n0 1 0\n0 1 0\n0 0 1\n1 -1 0\n1 0 -1\n0 0 0\nend\n",
        ..SQUARE
    },
    Case {
        name: "a vertex and two rays",
        file: "H-representation\nbegin\n2 3 integer\n0 1 0\n0 0 1\nend\n",
        end: End::Done(3, 0),
        written: "V-representation\nbegin\n***** 3 rational\n 1 0 0\n 0 1 0\n 0 0 1\nend\n",
        ..SQUARE
    },
    Case {
        name: "a half plane with its line",
        file: "H-representation\nbegin\n1 3 integer\n0 1 0\nend\n",
        end: End::Done(2, 1),
        written: "V-representation\nlinearity 1 1\nbegin\n***** 3 rational\n 0 0 1\n 1 0 0\n 0 1 0\nend\n",
        ..SQUARE
    },
    Case {
        name: "the plane without rows",
        file: "H-representation\nbegin\n0 3 integer\nend\n",
        end: End::Done(1, 2),
        written: "V-representation\nlinearity 2 1 2\nbegin\n***** 3 rational\n 0 1 0\n 0 0 1\n 1 0 0\nend\n",
        ..SQUARE
    },
    Case {
        name: "the point of the space without coordinates",
        file: "H-representation\nbegin\n1 1 integer\n5\nend\n",
        end: End::Done(1, 0),
        written: "V-representation\nbegin\n***** 1 rational\n 1\nend\n",
        ..SQUARE
    },
    Case {
        name: "a triangle with a corner of thirds",
        file: "H-representation\nbegin\n3 3 integer\n0 1 0\n0 0 1\n4 -2 -6\nend\n",
        end: End::Done(3, 0),
        written: "V-representation\nbegin\n***** 3 rational\n 1 0 0\n 1 2 0\n 1 0 2/3\nend\n",
        ..SQUARE
    },
    Case {
        name: "a segment that does not reach the origin",
        file: "H-representation\nbegin\n3 2 integer\n-1 1\n0 1\n2 -1\nend\n",
        end: End::Done(2, 0),
        written: "V-representation\nbegin\n***** 2 rational\n 1 1\n 1 2\nend\n",
        ..SQUARE
    },
    Case {
        name: "no kind, a name, fractions",
        file: "segment\nbegin 2 2 rational 1/2 -1 +0 01 end",
        end: End::Done(2, 0),
        written: "V-representation\nbegin\n***** 2 rational\n 1 0\n 1 1/2\nend\n",
        ..SQUARE
    },
    Case {
        name: "a pyramid over a square",
        file: "H-representation\nbegin\n5 4 integer\n0 0 0 1\n1 -1 0 -1\n1 1 0 -1\n1 0 -1 -1\n1 0 1 -1\nend\n",
        end: End::Done(5, 0),
        written: "V-representation\nbegin\n***** 4 rational\n 1 1 1 0\n 1 1 -1 0\n 1 -1 1 0\n 1 -1 -1 0\n 1 0 0 1\nend\n",
        ..SQUARE
    },
    Case {
        name: "the segment of an equation in the quadrant",
        file: "H-representation\nlinearity 1 1\nbegin\n3 3 integer\n-1 1 1\n0 1 0\n0 0 1\nend\n",
        end: End::Done(2, 0),
        written: "V-representation\nbegin\n***** 3 rational\n 1 1 0\n 1 0 1\nend\n",
        ..SQUARE
    },
    Case {
        name: "a point by as many equations",
        file: "H-representation\nlinearity 2 1 2\nbegin\n2 3 integer\n-1 1 0\n-2 0 3\nend\n",
        end: End::Done(1, 0),
        written: "V-representation\nbegin\n***** 3 rational\n 1 1 2/3\nend\n",
        ..SQUARE
    },
    Case {
        name: "a line by one equation, which is not an axis",
        file: "H-representation\nlinearity 1 1\nbegin\n1 3 integer\n1 1 -2\nend\n",
        end: End::Done(1, 1),
        written: "V-representation\nlinearity 1 1\nbegin\n***** 3 rational\n 0 2 1\n 1 -1 0\nend\n",
        ..SQUARE
    },
    Case {
        name: "the points of a square with an inner one: four facets, and not `1 0 0`",
        file: "V-representation\nbegin\n5 3 rational\n1 0 0\n1 1 0\n1 0 1\n1 1 1\n1 1/2 1/2\nend\n",
        written: "H-representation\nbegin\n***** 3 rational\n 0 1 0\n 0 0 1\n 1 -1 0\n 1 0 -1\nend\n",
        ..SQUARE
    },
    Case {
        name: "the quadrant by its vertex and two rays",
        file: "V-representation\nbegin\n3 3 integer\n1 0 0\n0 1 0\n0 0 1\nend\n",
        end: End::Done(2, 0),
        written: "H-representation\nbegin\n***** 3 rational\n 0 1 0\n 0 0 1\nend\n",
        ..SQUARE
    },
    Case {
        name: "a segment in the plane",
        file: "V-representation\nbegin\n2 3 integer\n1 0 0\n1 1 1\nend\n",
        end: End::Done(2, 1),
        written: "H-representation\nlinearity 1 1\nbegin\n***** 3 rational\n 0 -1 1\n 0 1 0\n 1 -1 0\nend\n",
        ..SQUARE
    },
    Case {
        name: "a half plane by a point, a ray and a line",
        file: "V-representation\nlinearity 1 3\nbegin\n3 3 integer\n1 1 0\n0 1 0\n0 0 1\nend\n",
        end: End::Done(1, 0),
        written: "H-representation\nbegin\n***** 3 rational\n -1 1 0\nend\n",
        ..SQUARE
    },
    Case {
        name: "the point of the space without coordinates, as a point",
        file: "V-representation\nbegin\n1 1 integer\n1\nend\n",
        end: End::Done(0, 0),
        written: "H-representation\nbegin\n***** 1 rational\nend\n",
        ..SQUARE
    },
    Case {
        name: "a ray without a point: the origin is added",
        file: "V-representation\nbegin\n1 2 integer\n0 1\nend\n",
        end: End::Done(1, 0),
        written: "H-representation\nbegin\n***** 2 rational\n 0 1\nend\n",
        ..SQUARE
    },
    Case {
        name: "the square without the number of its rows",
        file: "H-representation\nbegin\n***** 3 integer\n0 1 0\n0 0 1\n1 -1 0\n1 0 -1\nend\n",
        ..SQUARE
    },
    Case {
        name: "a square in one write: the next would fail",
        writes: &[Call::AtMost(usize::MAX), Call::Fail],
        ..SQUARE
    },
    Case {
        name: "the square with its rows broken",
        file: "H-representation\r\nbegin\r\n4 3\ninteger 0\n1 0 0\t0 1\n\n1 -1 0 1 0\n-1 end of it\nmaxoutput 3\n",
        ..SQUARE
    },
];

const WITHOUT_A_LISTING: [Case; 15] = [
    Case {
        name: "5 >= 0 and -5 >= 0",
        file: "H-representation\nbegin\n2 1 integer\n5\n-5\nend\n",
        end: INFEASIBLE,
        written: "",
        ..SQUARE
    },
    Case {
        name: "-5 >= 0",
        file: "H-representation\nbegin\n1 1 integer\n-5\nend\n",
        end: INFEASIBLE,
        written: "",
        ..SQUARE
    },
    Case {
        name: "-1 >= 0 and a ray at infinity",
        file: "H-representation\nbegin\n2 2 integer\n-1 0\n0 1\nend\n",
        end: INFEASIBLE,
        written: "",
        ..SQUARE
    },
    Case {
        name: "x >= 1 and -x >= 0",
        file: "H-representation\nbegin\n2 2 integer\n-1 1\n0 -1\nend\n",
        end: INFEASIBLE,
        written: "",
        ..SQUARE
    },
    Case {
        name: "equations without a common point",
        file: "H-representation\nlinearity 2 1 2\nbegin\n2 2 integer\n-1 1\n-2 1\nend\n",
        end: INFEASIBLE,
        written: "",
        ..SQUARE
    },
    Case {
        name: "5 = 0",
        file: "H-representation\nlinearity 1 1\nbegin\n1 1 integer\n5\nend\n",
        end: INFEASIBLE,
        written: "",
        ..SQUARE
    },
    Case {
        name: "an equation of which no inequality leaves a point",
        file: "H-representation\nlinearity 1 1\nbegin\n3 3 integer\n1 1 1\n0 1 0\n0 0 1\nend\n",
        end: INFEASIBLE,
        written: "",
        ..SQUARE
    },
    Case {
        name: "an extreme point with the denominator 3 * 2^199 - 1",
        file: "H-representation\nbegin\n4 3 integer\n\
         1 -1267650600228229401496703205376 -1\n\
         1 -1 -1901475900342344102245054808064\n0 1 0\n0 0 1\nend\n",
        end: End::Overflow(Phase::Prepare),
        written: "",
        ..SQUARE
    },
    Case {
        name: "the same point, and its rows come after those of the root",
        file: "H-representation\nbegin\n4 3 integer\n0 1 0\n0 0 1\n\
         1 -1267650600228229401496703205376 -1\n\
         1 -1 -1901475900342344102245054808064\nend\n",
        end: End::Overflow(Phase::Main),
        written: "V-representation\nbegin\n***** 3 rational\n 1 0 0\n",
        ..SQUARE
    },
    Case {
        name: "the same point on the way to the root",
        file: "H-representation\nbegin\n4 3 integer\n0 1 0\n0 0 1\n\
         -1 1267650600228229401496703205376 1\n\
         -1 1 1901475900342344102245054808064\nend\n",
        end: End::Overflow(Phase::First),
        written: "",
        ..SQUARE
    },
    Case {
        name: "two rows whose exchange needs 2^128",
        file: "H-representation\nbegin\n2 3 integer\n\
         0 18446744073709551616 1\n0 1 18446744073709551616\nend\n",
        end: End::Overflow(Phase::Prepare),
        written: "",
        ..SQUARE
    },
    Case {
        name: "an empty text",
        file: "",
        end: End::BadFile(BadKind::NoBegin, 1),
        written: "",
        ..SQUARE
    },
    Case {
        name: "a row too short",
        file: "H-representation\nbegin\n4 3 integer\n0 1 0\n0 0 1\n1 -1 0\n1 0\nend\n",
        end: End::BadFile(BadKind::ShortData, 8),
        written: "",
        ..SQUARE
    },
    Case {
        name: "a number with a point",
        file: "begin\n1 2 integer\n 1 1.5\nend\n",
        end: End::BadFile(BadKind::BadNumber, 3),
        written: "",
        ..SQUARE
    },
    Case {
        name: "a type that is not read",
        file: "begin\n1 2 real\n 1 1\nend\n",
        end: End::BadFile(BadKind::UnsupportedType, 2),
        written: "",
        ..SQUARE
    },
];

/// A demo, whose input cannot be read.
const DEMO: Case = Case {
    name: "demo cube 3",
    words: &["demo", "cube", "3"],
    file: "",
    reads: &[Call::Fail],
    writes: &[],
    end: End::Done(8, 0),
    written: "rows 8\nlines 0\nsum 20\n",
};

const DEMOS: [Case; 10] = [
    DEMO,
    Case {
        name: "demo cross 3",
        words: &["demo", "cross", "3"],
        end: End::Done(8, 0),
        written: "rows 8\nlines 0\nsum 32\n",
        ..DEMO
    },
    Case {
        name: "demo product 2",
        words: &["demo", "product", "2"],
        end: End::Done(9, 0),
        written: "rows 9\nlines 0\nsum 21\n",
        ..DEMO
    },
    Case {
        name: "demo pyramid 2",
        words: &["demo", "pyramid", "2"],
        end: End::Done(5, 0),
        written: "rows 5\nlines 0\nsum 14\n",
        ..DEMO
    },
    Case {
        name: "demo cube 8",
        words: &["demo", "cube", "8"],
        end: End::Done(256, 0),
        written: "rows 256\nlines 0\nsum 1280\n",
        ..DEMO
    },
    Case {
        name: "demo cross 5",
        words: &["demo", "cross", "5"],
        end: End::Done(32, 0),
        written: "rows 32\nlines 0\nsum 192\n",
        ..DEMO
    },
    Case {
        name: "demo product 4",
        words: &["demo", "product", "4"],
        end: End::Done(25, 0),
        written: "rows 25\nlines 0\nsum 65\n",
        ..DEMO
    },
    Case {
        name: "demo pyramid 4",
        words: &["demo", "pyramid", "4"],
        end: End::Done(17, 0),
        written: "rows 17\nlines 0\nsum 82\n",
        ..DEMO
    },
    Case {
        name: "a number with a plus and a zero, behind a mark",
        words: &["demo", "--", "cube", "+03"],
        ..DEMO
    },
    Case {
        name: "a sink that fails at its third write",
        writes: &[Call::AtMost(99), Call::AtMost(99), Call::Fail],
        end: End::Other(7),
        written: "rows 8",
        ..DEMO
    },
];

/// A job of the plane without rows.
const PLANE_JOB: Case = Case {
    name: "a job of the plane, by subsets",
    words: &["job"],
    file: "lrs-job 1 subsets\nroot 0\nkey 0\nbases 1\ndepth 0\ninput 39\nH-representation\nbegin\n0 3 integer\nend\n",
    reads: &[],
    writes: &[],
    end: End::Done(1, 0),
    written: "reply 0\nrow 1 0 0\nend 1 0 1\n",
};

const JOBS: [Case; 9] = [
    PLANE_JOB,
    Case {
        name: "a job of the plane, by subtrees",
        file: "lrs-job 1 subtrees\nroot 0\nkey 0\nbases 1\ndepth 0\ninput 39\nH-representation\nbegin\n0 3 integer\nend\n",
        ..PLANE_JOB
    },
    Case {
        name: "a reply in one write: the next would fail",
        writes: &[Call::AtMost(usize::MAX), Call::Fail],
        ..PLANE_JOB
    },
    Case {
        name: "a sink that takes 8 bytes, and then fails",
        writes: &[Call::AtMost(8), Call::Fail],
        end: End::Other(7),
        written: "reply 0\n",
        ..PLANE_JOB
    },
    Case {
        name: "a job whose source fails",
        reads: &[Call::AtMost(40), Call::Fail],
        end: End::Other(6),
        written: "",
        ..PLANE_JOB
    },
    Case {
        name: "a key with the label of no row",
        file: "lrs-job 1 subsets\nroot 0\nkey 1 9\nbases 1\ndepth 0\ninput 39\nH-representation\nbegin\n0 3 integer\nend\n",
        end: End::BadJob(3),
        written: "",
        ..PLANE_JOB
    },
    Case {
        name: "a byte behind the file",
        file: "lrs-job 1 subsets\nroot 0\nkey 0\nbases 1\ndepth 0\ninput 39\nH-representation\nbegin\n0 3 integer\nend\n\n",
        end: End::BadJob(7),
        written: "",
        ..PLANE_JOB
    },
    Case {
        name: "a job whose products pass",
        file: "lrs-job 1 subsets\nroot 0\nkey 0\nbases 9\ndepth 0\ninput 111\nH-representation\nbegin\n2 3 integer\n\
         1 1267650600228229401496703205376 1\n1 1 1267650600228229401496703205376\nend\n",
        end: End::Overflow(Phase::Cone),
        written: "reply 0\noverflow cone 3 1 x1 x2 2,x1 x0,x2 x0,x1 2,x2\n",
        ..PLANE_JOB
    },
    Case {
        name: "job job",
        words: &["job", "job"],
        end: USAGE,
        written: "",
        ..PLANE_JOB
    },
];

const ONE: Call = Call::AtMost(1);

const STOPPED: [Case; 13] = [
    Case {
        name: "a sink that takes 20 bytes, one at a time, and then fails",
        writes: &[
            ONE,
            ONE,
            ONE,
            ONE,
            ONE,
            ONE,
            ONE,
            ONE,
            ONE,
            ONE,
            ONE,
            ONE,
            ONE,
            ONE,
            ONE,
            ONE,
            ONE,
            ONE,
            ONE,
            ONE,
            Call::Fail,
        ],
        end: End::Other(7),
        written: "V-representation\nbeg",
        ..SQUARE
    },
    Case {
        name: "a source that gives 40 bytes, and then fails",
        reads: &[Call::AtMost(40), Call::Fail],
        end: End::Other(6),
        written: "",
        ..SQUARE
    },
    Case {
        name: "fly",
        words: &["fly"],
        end: USAGE,
        written: "",
        ..SQUARE
    },
    Case {
        name: "no words",
        words: &[],
        end: USAGE,
        written: "",
        ..SQUARE
    },
    Case {
        name: "convert convert",
        words: &["convert", "convert"],
        end: USAGE,
        written: "",
        ..SQUARE
    },
    Case {
        name: "--help",
        words: &["--help"],
        end: USAGE,
        written: "",
        ..SQUARE
    },
    Case {
        name: "run",
        words: &["run"],
        end: USAGE,
        written: "",
        ..SQUARE
    },
    Case {
        name: "help",
        words: &["help"],
        end: USAGE,
        written: "",
        ..SQUARE
    },
    Case {
        name: "-h",
        words: &["-h"],
        end: USAGE,
        written: "",
        ..SQUARE
    },
    Case {
        name: "convert --help",
        words: &["convert", "--help"],
        end: USAGE,
        written: "",
        ..SQUARE
    },
    Case {
        name: "--version",
        words: &["--version"],
        end: USAGE,
        written: "",
        ..SQUARE
    },
    Case {
        name: "demo cube 21",
        words: &["demo", "cube", "21"],
        end: USAGE,
        written: "",
        ..SQUARE
    },
    Case {
        name: "demo ball 3",
        words: &["demo", "ball", "3"],
        end: USAGE,
        written: "",
        ..SQUARE
    },
];

#[derive(PartialEq, Eq, Debug, Drop)]
struct Answer<'a> {
    end: End,
    written: Vec<&'a [u8]>,
}

/// An answer with the lines that were written, those of a whole listing in a fixed order.
fn answered<'a>(alloc: Global, end: End, text: &'a [u8]) -> Result<Answer<'a>, AllocError> {
    let mut written = text.split(|b| *b == b'\n').collect::<Vec<&[u8]>>(alloc)?;
    if let End::Done(..) = end {
        written.sort()?;
    }
    Ok(Answer { end, written })
}

fn end_of(status: &Status) -> End {
    match status {
        Status::Done { rows, lines } => End::Done(*rows, *lines),
        Status::BadFile(bad) => End::BadFile(bad.kind, bad.line),
        Status::BadJob { place } => End::BadJob(*place),
        Status::Overflow(overflow) => End::Overflow(overflow.phase),
        other => End::Other(other.number()),
    }
}

/// An input of these bytes, with its reads, an empty file, and workers in memory.
pub(crate) fn devices_of<'a>(
    alloc: Global,
    bytes: &'a [u8],
    reads: &'a [Call],
) -> Result<Devices<MemSource<'a>, MemDisk<'a>, MemWorkers<'a, ShippedJob>>, AllocError> {
    let disk = MemDisk::new(alloc, b"", &[])?;
    Ok(Devices {
        input: MemSource::new(bytes, reads),
        disk,
        workers: MemWorkers::new(alloc, ShippedJob::new(alloc), &[], &[]),
    })
}

#[test]
fn answers_calls(rt: HostRuntime) -> Result<(), Fail> {
    let alloc = rt.alloc();
    let cases = LISTED
        .iter()
        .chain(&WITHOUT_A_LISTING)
        .chain(&DEMOS)
        .chain(&JOBS)
        .chain(&STOPPED);
    for case in cases {
        let mut devices = devices_of(alloc, case.file.as_bytes(), case.reads)?;
        let out = MemSink::new(alloc, case.writes);
        let (status, out) = lrs(alloc, case.words, &mut devices, out);
        let found = answered(alloc, end_of(&status), out.written())?;
        let want = answered(alloc, case.end, case.written.as_bytes())?;
        assert_eq!(rt; found, want, "{}", case.name);
    }
    Ok(())
}

#[test]
fn a_job_text_without_its_end_writes_nothing(rt: HostRuntime) -> Result<(), Fail> {
    let whole = PLANE_JOB.file.as_bytes();
    let lines = [18, 25, 31, 39, 47, 56];
    for len in 0..whole.len() {
        let mut devices = devices_of(rt.alloc(), &whole[..len], &[])?;
        let (status, out) = lrs(
            rt.alloc(),
            &["job"],
            &mut devices,
            MemSink::new(rt.alloc(), &[]),
        );
        let place = lines.iter().filter(|end| **end <= len).count() as u64 + 1;
        assert_eq!(rt;
            (end_of(&status), out.written()),
            (End::BadJob(place), b"".as_slice()),
            "{len}"
        );
    }
    Ok(())
}

// The arguments of a process: the program's name, and these words.
fn arguments(alloc: Global, words: &[&str]) -> Result<Vec<String>, AllocError> {
    let mut given = Vec::new(alloc);
    given.push(String::from_str(alloc, "lrs")?)?;
    for word in words {
        given.push(String::from_str(alloc, word)?)?;
    }
    Ok(given)
}

#[test]
fn a_process_says_how_it_ends(rt: HostRuntime) -> Result<(), Fail> {
    let alloc = rt.alloc();
    let rows = [
        (
            "a listing",
            Ok(["convert"].as_slice()),
            0,
            "lrs: done 4 rows 0 lines\n",
        ),
        ("no words", Ok(&[]), 2, USAGE_LINE),
        (
            "a word too many",
            Ok(&["convert", "convert"]),
            2,
            USAGE_LINE,
        ),
        ("no text", Err(LineStop::Usage), 2, USAGE_LINE),
        (
            "no memory",
            Err(LineStop::Memory),
            15,
            "lrs: out of memory\n",
        ),
    ];
    for (name, words, number, line) in rows {
        let given = match words {
            Ok(words) => Ok(arguments(alloc, words)?),
            Err(stop) => Err(stop),
        };
        let mut devices = devices_of(alloc, SQUARE.file.as_bytes(), &[])?;
        let out = MemSink::new(alloc, &[]);
        let mut errors = MemSink::new(alloc, &[]);
        let (said, _) = respond(alloc, given, &mut devices, out, &mut errors);
        assert_eq!(rt;
            (said, errors.written()),
            (number, line.as_bytes()),
            "{name}"
        );
    }
    Ok(())
}

#[test]
fn prints_status_lines(rt: HostRuntime) -> Result<(), Fail> {
    let place = |row, col| Place { row, col };
    let first = Label::coordinate(1);
    let overflow = Overflow {
        phase: Phase::Cone,
        key: Key::from_ascending(&[Label::row(3), first, Label::coordinate(3)]).ok_or("ascending")?,
        a: place(Label::row(2), first),
        b: place(Label::EXTRA, Label::CONSTANT),
        c: place(Label::coordinate(2), first),
        d: place(Label::row(2), Label::row(3)),
    };
    let rows = [
        (
            Status::Done { rows: 4, lines: 0 },
            "lrs: done 4 rows 0 lines\n",
        ),
        (Status::Usage, USAGE_LINE),
        (
            Status::Overflow(overflow),
            "lrs: overflow cone 3 3 x1 x3 2,x1 t,c x2,x1 2,3\n",
        ),
        (
            Status::BadFile(BadFile {
                kind: BadKind::WideNumber,
                line: 12,
            }),
            "lrs: bad file: WideNumber at line 12\n",
        ),
        (Status::Infeasible, "lrs: infeasible\n"),
        (Status::BadJob { place: 7 }, "lrs: bad job: line 7\n"),
        (Status::DiskFault, "lrs: disk fault\n"),
        (
            Status::Lost { lost: 2, strays: 1 },
            "lrs: lost 2 strays 1\n",
        ),
        (Status::NoRun, "lrs: no run in ledger\n"),
        (Status::HasRun, "lrs: ledger has a run\n"),
        (
            Status::BadLedger { place: 3 },
            "lrs: bad ledger: record 3\n",
        ),
        (
            Status::LedgerLimit {
                need: 92,
                limit: 91,
            },
            "lrs: ledger limit: need 92 limit 91\n",
        ),
    ];
    for (status, line) in rows {
        let mut out = MemSink::new(rt.alloc(), &[]);
        let done: Result<(), WriteFault> = status_line(&status, &mut out);
        assert_eq!(rt; (done, out.written()), (Ok(()), line.as_bytes()), "{line}");
    }
    Ok(())
}
