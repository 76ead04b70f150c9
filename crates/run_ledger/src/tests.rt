//! A run that is begun, goes on, is counted and printed; and files and devices at which these calls stop.
ghost use Rattle.std.specs.Prelude.{◌≡◌, length, IfOk};

use crate::{
    PrintStop, PrintedRun, ReopenStop, StatusStop, begin_run, print_run, reopen_run, status,
};
use disk_core::{DiskCall, MemDisk};
use job_ledger::{Ledger, LedgerStop};
use job_text::{PayloadStop, read_first_payload};
use poly_io::{Bytes, Call, MemSink};
use poly_model::{Listed, Vector};
use poly_num::Num;
use std::alloc::{AllocError, Global};
use std::test::Fail;

const FIRST: &str =
    "lrs-ledger 1 subsets\nroot 0\ninput 39\nH-representation\nbegin\n0 3 integer\nend\n";

const SPLIT: &str = "reply 0\nrow 1 0 0\njob 1 1\njob 1 2\nend 1 2 1\n";

const ROWS: &str = "reply 1 2\nrow 0 1 0\nrow 2 0 1\nend 2 0 3\n";

const CUT: &str = "reply 1 1\nrow 0 1 0\nmemory\n";

/// Payloads behind the first, what the disk and the sink do at each call, and what `status` and `print_run` answer and
/// write.
#[derive(Clone, Copy)]
struct Case {
    name: &'static str,
    payloads: &'static [&'static str],
    disk: &'static [DiskCall],
    sink: &'static [Call],
    told: Result<u64, StatusStop>,
    told_text: &'static str,
    printed: Result<Listed, PrintStop>,
    printed_text: &'static str,
}

const CASES: [Case; 6] = [
    Case {
        name: "no reply yet",
        payloads: &[],
        disk: &[],
        sink: &[],
        told: Ok(0),
        told_text: "done 0\nwaiting 1\nrows 0\n",
        printed: Ok(Listed { rows: 0, lines: 1 }),
        printed_text: "V-representation\nlinearity 1 1\nbegin\n***** 3 rational\n 0 1 0\nend\n",
    },
    Case {
        name: "two replies",
        payloads: &[SPLIT, ROWS],
        disk: &[],
        sink: &[],
        told: Ok(3),
        told_text: "done 2\nwaiting 1\nrows 3\n",
        printed: Ok(Listed { rows: 3, lines: 1 }),
        printed_text: "V-representation\nlinearity 1 1\nbegin\n***** 3 rational\n 0 1 0\n 1 0 0\n 0 1 0\n 1 0 1/2\nend\n",
    },
    Case {
        name: "a reply that ends in memory",
        payloads: &[SPLIT, CUT],
        disk: &[],
        sink: &[],
        told: Err(StatusStop::BadLedger { place: 3 }),
        told_text: "",
        printed: Err(PrintStop::BadLedger { place: 3 }),
        printed_text: "V-representation\nlinearity 1 1\nbegin\n***** 3 rational\n 0 1 0\n 1 0 0\n 0 1 0\n",
    },
    Case {
        name: "a reply twice: its rows are printed all the same",
        payloads: &[SPLIT, SPLIT],
        disk: &[],
        sink: &[],
        told: Err(StatusStop::BadLedger { place: 3 }),
        told_text: "",
        printed: Ok(Listed { rows: 2, lines: 1 }),
        printed_text: "V-representation\nlinearity 1 1\nbegin\n***** 3 rational\n 0 1 0\n 1 0 0\n 1 0 0\nend\n",
    },
    Case {
        name: "a disk that fails",
        payloads: &[SPLIT],
        disk: &[DiskCall::Fail],
        sink: &[],
        told: Err(StatusStop::DiskFault),
        told_text: "",
        printed: Err(PrintStop::DiskFault),
        printed_text: "V-representation\nlinearity 1 1\nbegin\n***** 3 rational\n 0 1 0\n",
    },
    Case {
        name: "a sink that fails",
        payloads: &[SPLIT],
        disk: &[],
        sink: &[Call::AtMost(4), Call::Fail],
        told: Err(StatusStop::WriteFault),
        told_text: "done",
        printed: Err(PrintStop::WriteFault),
        printed_text: "V-re",
    },
];

/// The bytes of a ledger that a run began, with these payloads behind the first.
fn file_of(alloc: Global, payloads: &[&str]) -> Result<Bytes, LedgerStop> {
    let first = match read_first_payload(alloc, FIRST.as_bytes()) {
        Ok(first) => first,
        Err(PayloadStop::Bad) => return Err(LedgerStop::BadLedger { place: 1 }),
        Err(PayloadStop::Memory) => return Err(LedgerStop::Memory),
    };
    let mut disk = MemDisk::new(alloc, b"", &[])?;
    let (mut ledger, _) = begin_run(alloc, &mut disk, 999, first)?;
    for payload in payloads {
        ledger.append(&mut disk, payload.as_bytes())?;
    }
    Ok(Bytes::from_vec(Vec::from_slice(alloc, disk.bytes())?))
}

/// A line along the second column.
fn one_line(alloc: Global) -> Result<Vec<Vector>, AllocError>
    ensures { IfOk result (λ lines. length lines.items ≡ 1) }
{
    let entries = Vec::from_slice(alloc, &[Num::ZERO, Num::ONE, Num::ZERO])?;
    let mut lines = Vec::new(alloc);
    lines.push(Vector::from_vec(entries))?;
    Ok(lines)
}

/// Prints the run of a file, read by a disk that does not fail, over one that may.
fn print(
    alloc: Global,
    file: &[u8],
    case: &Case,
    out: &mut MemSink,
) -> Result<Result<Listed, PrintStop>, AllocError> {
    let mut disk = MemDisk::new(alloc, file, &[])?;
    let mut other = MemDisk::new(alloc, file, case.disk)?;
    let first = match read_first_payload(alloc, FIRST.as_bytes()) {
        Ok(first) => first,
        Err(_) => return Err(AllocError),
    };
    let lines = one_line(alloc)?;
    match Ledger::reopen(alloc, &mut disk, 999) {
        Ok(ledger) => {
            let run = PrintedRun {
                ledger: &ledger,
                poly: &first.poly,
                lines: &lines,
            };
            Ok(print_run(alloc, &run, &mut other, out))
        }
        Err(_) => Err(AllocError),
    }
}

#[test]
fn tells_and_prints_runs(rt: HostRuntime) -> Result<(), Fail> {
    let alloc = rt.alloc();
    for case in &CASES {
        let file = file_of(alloc, case.payloads).map_err(|_| "a file")?;
        let mut disk = MemDisk::new(alloc, file.as_slice(), case.disk)?;
        let mut told = MemSink::new(alloc, case.sink);
        let mut printed = MemSink::new(alloc, case.sink);
        let found = (
            status(alloc, &mut disk, &mut told, 999),
            print(alloc, file.as_slice(), case, &mut printed)?,
        );
        assert_eq!(rt;
            (found, told.written(), printed.written()),
            (
                (case.told, case.printed),
                case.told_text.as_bytes(),
                case.printed_text.as_bytes()
            ),
            "{}",
            case.name
        );
    }
    Ok(())
}

/// Files, and how many records a run has that is read from them, or why none is.
const FILES: [(&str, &[u8], Result<u64, ReopenStop>); 6] = [
    ("an empty file", b"", Err(ReopenStop::NoRun)),
    ("a closed gate", b"\0", Err(ReopenStop::NoRun)),
    (
        "an open gate, and no record",
        b"\xf5",
        Err(ReopenStop::BadLedger { place: 1 }),
    ),
    (
        "a first payload of no search",
        b"\xf50000000000002\nab\0",
        Err(ReopenStop::BadLedger { place: 1 }),
    ),
    (
        "a first payload of no search, and a record whose layout is broken",
        b"\xf50000000000002\nab\xf5",
        Err(ReopenStop::BadLedger { place: 2 }),
    ),
    (
        "a first payload",
        b"\xf50000000000076\nlrs-ledger 1 subsets\nroot 0\ninput 39\nH-representation\nbegin\n0 3 integer\nend\n\0",
        Ok(1),
    ),
];

/// How many records the run of a disk has.
fn count(alloc: Global, disk: &mut MemDisk) -> Result<u64, ReopenStop> {
    let (ledger, _) = reopen_run(alloc, disk, 999)?;
    Ok(ledger.count())
}

#[test]
fn reads_runs_again(rt: HostRuntime) -> Result<(), Fail> {
    let alloc = rt.alloc();
    for (name, bytes, wanted) in &FILES {
        let mut disk = MemDisk::new(alloc, bytes, &[])?;
        assert_eq!(rt; count(alloc, &mut disk), *wanted, "{}", name);
    }
    Ok(())
}
