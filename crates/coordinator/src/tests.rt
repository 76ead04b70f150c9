//! Runs that come to their end, runs that are stopped and go on, and files at which these calls stop.
ghost use Rattle.coordinator.specs.Calls.{AreTerms};

use crate::lines::lines_of;
use crate::{ResumeStop, RunStop, Terms, resume, run};
use coordinator_core::Options;
use disk_core::MemDisk;
use job_text::read_first_payload;
use poly_io::{MemSink, Sink, WriteFault, write_all};
use poly_model::{Count, Listed};
use std::alloc::AllocError;
use std::test::Fail;
use work_core::{JobCall, JobStop};
use workers_io::MemWorkers;

/// A job call that writes these replies, one at each call, and then takes each text for no job.
#[derive(Drop)]
struct Script {
    replies: &'static [&'static str],
    next: usize,
}

impl JobCall for Script {
    ghost allows = { λ text reply. Unit {0} };

    ghost is_bad = { λ text place. Unit {0} };

    fn call<S: Sink>(&mut self, _: &[u8], out: &mut S) -> Result<Count, JobStop> {
        let Some(reply) = self.replies.get(self.next) else {
            return Err(JobStop::BadJob { place: 1 });
        };
        self.next = self.next.saturating_add(1);
        match write_all(out, reply.as_bytes()) {
            Ok(()) => Ok(Count {
                rows: 0,
                jobs: 0,
                bases: 0,
            }),
            Err(WriteFault) => Err(JobStop::WriteFault),
        }
    }
}

const FIRST: &str =
    "lrs-ledger 1 subsets\nroot 0\ninput 39\nH-representation\nbegin\n0 3 integer\nend\n";

const SPLIT: &str = "reply 0\nrow 1 0 0\njob 1 1\njob 1 2\nend 1 2 1\n";

const NONE: &str = "reply 1 1\nend 0 0 1\n";

const ROWS: &str = "reply 1 2\nrow 0 1 0\nrow 0 0 1\nend 2 0 3\n";

const WHOLE: &str =
    "V-representation\nlinearity 2 1 2\nbegin\n***** 3 rational\n 0 1 0\n 0 0 1\n 1 0 0\n 0 1 0\n 0 0 1\nend\n";

const OPTIONS: Options = Options {
    workers: 1,
    bases: 10,
    depth: 1,
    lmin: 1,
    lost: 1,
};

/// A file and a limit, the replies to a new run and what it answers, the replies to the run that goes on and what it
/// answers and prints.
#[derive(Clone, Copy)]
struct Row {
    name: &'static str,
    file: &'static [u8],
    limit: u16,
    replies: &'static [&'static str],
    ran: Result<Listed, RunStop>,
    later: &'static [&'static str],
    resumed: Result<Listed, ResumeStop>,
    printed: &'static str,
}

const CASES: [Row; 5] = [
    Row {
        name: "to the end",
        file: b"",
        limit: 999,
        replies: &[SPLIT, NONE, ROWS],
        ran: Ok(Listed { rows: 3, lines: 2 }),
        later: &[],
        resumed: Ok(Listed { rows: 3, lines: 2 }),
        printed: WHOLE,
    },
    Row {
        name: "the workers break, and later one reply is of another job",
        file: b"",
        limit: 999,
        replies: &[SPLIT],
        ran: Err(RunStop::Lost { lost: 2, strays: 0 }),
        later: &[ROWS, ROWS, NONE],
        resumed: Ok(Listed { rows: 3, lines: 2 }),
        printed: WHOLE,
    },
    Row {
        name: "a file of 150 bytes",
        file: b"",
        limit: 150,
        replies: &[SPLIT],
        ran: Err(RunStop::LedgerLimit {
            need: 151,
            limit: 150,
        }),
        later: &[SPLIT],
        resumed: Err(ResumeStop::LedgerLimit {
            need: 151,
            limit: 150,
        }),
        printed: "",
    },
    Row {
        name: "a file of 90 bytes",
        file: b"",
        limit: 90,
        replies: &[],
        ran: Err(RunStop::LedgerLimit {
            need: 92,
            limit: 90,
        }),
        later: &[],
        resumed: Err(ResumeStop::NoRun),
        printed: "",
    },
    Row {
        name: "an open gate, and no record",
        file: b"\xf5",
        limit: 999,
        replies: &[],
        ran: Err(RunStop::HasRun),
        later: &[],
        resumed: Err(ResumeStop::BadLedger { place: 1 }),
        printed: "",
    },
];

/// What a new run answers.
fn ran(
    terms: &Terms,
    replies: &'static [&'static str],
    disk: &mut MemDisk,
) -> Result<Result<Listed, RunStop>, AllocError>
    requires { AreTerms terms.now }
{
    let Ok(first) = read_first_payload(terms.alloc, FIRST.as_bytes()) else {
        return Err(AllocError);
    };
    let Ok(_) = lines_of(terms.alloc, &first.poly) else {
        return Err(AllocError);
    };
    let script = Script { replies, next: 0 };
    let mut workers = MemWorkers::new(terms.alloc, script, &[], &[]);
    let mut out = MemSink::new(terms.alloc, &[]);
    Ok(run(terms, first, disk, &mut workers, &mut out))
}

#[test]
fn runs_and_goes_on(rt: HostRuntime) -> Result<(), Fail> {
    let alloc = rt.alloc();
    for row in &CASES {
        let terms = Terms {
            alloc,
            options: OPTIONS,
            limit: row.limit as u64,
        };
        let mut disk = MemDisk::new(alloc, row.file, &[])?;
        let first = ran(&terms, row.replies, &mut disk)?;
        let script = Script {
            replies: row.later,
            next: 0,
        };
        let mut workers = MemWorkers::new(alloc, script, &[], &[]);
        let mut out = MemSink::new(alloc, &[]);
        let then = resume(&terms, &mut disk, &mut workers, &mut out);
        assert_eq!(rt;
            (first, then, out.written()),
            (row.ran, row.resumed, row.printed.as_bytes()),
            "{}",
            row.name
        );
    }
    Ok(())
}
