//! The plane, the quadrant, lines and a file whose products pass, by both works; bad jobs, and a sink that fails.
use crate::{job, reply};
use poly_io::{Call, MemSink, MemSource};
use poly_model::Count;
use std::test::Fail;
use work_core::JobStop;

/// How a job ends: its rows, keys given back and bases, or where it stops.
#[derive(Clone, Copy, PartialEq, Eq, Debug)]
enum End {
    Done(u64, u64, u64),
    Bad(u64),
    Overflow,
    ReadFault,
    WriteFault,
    Memory,
}

/// A job text, what the calls of the sink do, and what is written.
struct Case {
    name: &'static str,
    text: &'static str,
    calls: &'static [Call],
    reply: &'static str,
    end: End,
}

const CASES: [Case; 12] = [
    Case {
        name: "the plane, by subsets",
        text: "lrs-job 1 subsets\nroot 0\nkey 0\nbases 1\ndepth 0\ninput 39\nH-representation\nbegin\n0 3 integer\nend\n",
        calls: &[],
        reply: "reply 0\nrow 1 0 0\nend 1 0 1\n",
        end: End::Done(1, 0, 1),
    },
    Case {
        name: "the plane, by subtrees",
        text: "lrs-job 1 subtrees\nroot 0\nkey 0\nbases 1\ndepth 0\ninput 39\nH-representation\nbegin\n0 3 integer\nend\n",
        calls: &[],
        reply: "reply 0\nrow 1 0 0\nend 1 0 1\n",
        end: End::Done(1, 0, 1),
    },
    Case {
        name: "the quadrant, by subsets, one base",
        text: "lrs-job 1 subsets\nroot 0\nkey 0\nbases 1\ndepth 0\ninput 51\nH-representation\nbegin\n2 3 integer\n0 1 0\n0 0 1\nend\n",
        calls: &[],
        reply: "reply 0\njob 1 1\njob 1 2\njob 1 3\nend 0 3 1\n",
        end: End::Done(0, 3, 1),
    },
    Case {
        name: "the quadrant, by subtrees",
        text: "lrs-job 1 subtrees\nroot 2 1 2\nkey 2 1 2\nbases 1\ndepth 0\ninput 51\nH-representation\nbegin\n2 3 integer\n0 1 0\n0 0 1\nend\n",
        calls: &[],
        reply: "reply 2 1 2\nrow 1 0 0\nrow 0 1 0\nrow 0 0 1\nend 3 0 1\n",
        end: End::Done(3, 0, 1),
    },
    Case {
        name: "a root of a search by subsets",
        text: "lrs-job 1 subsets\nroot 1 1\nkey 0\nbases 1\ndepth 0\ninput 51\nH-representation\nbegin\n2 3 integer\n0 1 0\n0 0 1\nend\n",
        calls: &[],
        reply: "",
        end: End::Bad(2),
    },
    Case {
        name: "a root with the label of no row",
        text: "lrs-job 1 subtrees\nroot 2 1 3\nkey 2 1 2\nbases 1\ndepth 0\ninput 51\nH-representation\nbegin\n2 3 integer\n0 1 0\n0 0 1\nend\n",
        calls: &[],
        reply: "",
        end: End::Bad(2),
    },
    Case {
        name: "a key with the label of no row",
        text: "lrs-job 1 subsets\nroot 0\nkey 1 9\nbases 1\ndepth 0\ninput 51\nH-representation\nbegin\n2 3 integer\n0 1 0\n0 0 1\nend\n",
        calls: &[],
        reply: "",
        end: End::Bad(3),
    },
    Case {
        name: "a key that is no cobasis",
        text: "lrs-job 1 subtrees\nroot 2 1 2\nkey 1 1\nbases 1\ndepth 0\ninput 51\nH-representation\nbegin\n2 3 integer\n0 1 0\n0 0 1\nend\n",
        calls: &[],
        reply: "",
        end: End::Bad(3),
    },
    Case {
        name: "no base",
        text: "lrs-job 1 subsets\nroot 0\nkey 0\nbases 0\ndepth 0\ninput 39\nH-representation\nbegin\n0 3 integer\nend\n",
        calls: &[],
        reply: "",
        end: End::Bad(4),
    },
    Case {
        name: "a missing last byte",
        text: "lrs-job 1 subsets\nroot 0\nkey 0\nbases 1\ndepth 0\ninput 39\nH-representation\nbegin\n0 3 integer\nend",
        calls: &[],
        reply: "",
        end: End::Bad(7),
    },
    Case {
        name: "a product that passes",
        text: "lrs-job 1 subsets\nroot 0\nkey 0\nbases 9\ndepth 0\ninput 111\nH-representation\nbegin\n2 3 integer\n1 1267650600228229401496703205376 1\n1 1 1267650600228229401496703205376\nend\n",
        calls: &[],
        reply: "reply 0\noverflow cone 3 1 x1 x2 2,x1 x0,x2 x0,x1 2,x2\n",
        end: End::Overflow,
    },
    Case {
        name: "the sink fails within the first line",
        text: "lrs-job 1 subsets\nroot 0\nkey 0\nbases 1\ndepth 0\ninput 39\nH-representation\nbegin\n0 3 integer\nend\n",
        calls: &[Call::AtMost(6), Call::Fail],
        reply: "reply ",
        end: End::WriteFault,
    },
];

#[test]
fn replies(rt: HostRuntime) -> Result<(), Fail> {
    for case in &CASES {
        let mut out = MemSink::new(rt.alloc(), case.calls);
        let end = end_of(reply(rt.alloc(), case.text.as_bytes(), &mut out));
        assert_eq!(rt;
            (end, out.written()),
            (case.end, case.reply.as_bytes()),
            "{}",
            case.name
        );
        let mut input = MemSource::new(case.text.as_bytes(), &[Call::AtMost(9), Call::AtMost(1)]);
        let mut out = MemSink::new(rt.alloc(), case.calls);
        let end = end_of(job(rt.alloc(), &mut input, &mut out));
        assert_eq!(rt;
            (end, out.written(), input.left()),
            (case.end, case.reply.as_bytes(), b"".as_slice()),
            "{}",
            case.name
        );
    }
    Ok(())
}

#[test]
fn says_that_the_source_fails(rt: HostRuntime) -> Result<(), Fail> {
    let mut input = MemSource::new(b"lrs-job 1 subsets\n", &[Call::AtMost(3), Call::Fail]);
    let mut out = MemSink::new(rt.alloc(), &[]);
    let end = end_of(job(rt.alloc(), &mut input, &mut out));
    assert_eq!(rt;
        (end, out.written(), input.faults()),
        (End::ReadFault, b"".as_slice(), 1)
    );
    Ok(())
}

fn end_of(answer: Result<Count, JobStop>) -> End {
    match answer {
        Ok(count) => End::Done(count.rows, count.jobs, count.bases),
        Err(JobStop::BadJob { place }) => End::Bad(place),
        Err(JobStop::Overflow(_)) => End::Overflow,
        Err(JobStop::ReadFault) => End::ReadFault,
        Err(JobStop::WriteFault) => End::WriteFault,
        Err(JobStop::Memory) => End::Memory,
    }
}
