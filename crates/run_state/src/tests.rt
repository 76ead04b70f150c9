//! Replies that are taken one after the other, with what each call answers, and payloads that are a ledger text or break it.
use crate::{AcceptStop, ReplayStop, RunState};
use job_text::{ReplyReader, read_key};
use poly_io::Bytes;
use poly_model::{Key, Root, WorkKind};
use poly_reader::poly_of;
use std::alloc::{AllocError, Global};
use std::process::Abort;
use std::test::Fail;

const PLANE: &str = "H-representation\nbegin\n0 3 integer\nend\n";

const FIRST: &str =
    "lrs-ledger 1 subsets\nroot 0\ninput 39\nH-representation\nbegin\n0 3 integer\nend\n";

const SPLIT: &str = "reply 0\nrow 1 0 0\njob 1 1\njob 1 2\nend 1 2 1\n";

/// What a reply answers: taken, or why not. A clash has the text of its key.
#[derive(Clone, Copy)]
enum Answer {
    Taken,
    Done,
    Stranger,
    Clash(&'static str),
}

/// A reply, what it answers, and then how many keys wait, how many came and how many rows are recorded, and the place of
/// the key that was done last.
#[derive(Clone, Copy)]
struct Step {
    name: &'static str,
    reply: &'static str,
    answer: Answer,
    counts: (usize, usize, u64),
    last: Option<usize>,
}

const STEPS: [Step; 8] = [
    Step {
        name: "a job that never waited",
        reply: "reply 1 1\nend 0 0 1\n",
        answer: Answer::Stranger,
        counts: (1, 1, 0),
        last: None,
    },
    Step {
        name: "the first job",
        reply: SPLIT,
        answer: Answer::Taken,
        counts: (2, 3, 1),
        last: Some(0),
    },
    Step {
        name: "a job that is done",
        reply: "reply 0\nrow 1 0 0\njob 1 3\nend 1 1 1\n",
        answer: Answer::Done,
        counts: (2, 3, 1),
        last: Some(0),
    },
    Step {
        name: "a key that waits",
        reply: "reply 1 1\njob 2 1 2\njob 1 2\nend 0 2 1\n",
        answer: Answer::Clash("1 2"),
        counts: (2, 3, 1),
        last: Some(0),
    },
    Step {
        name: "a key that is done",
        reply: "reply 1 1\njob 2 1 2\njob 0\nend 0 2 1\n",
        answer: Answer::Clash("0"),
        counts: (2, 3, 1),
        last: Some(0),
    },
    Step {
        name: "a key given back twice",
        reply: "reply 1 1\njob 2 1 2\njob 2 1 3\njob 2 1 2\nend 0 3 1\n",
        answer: Answer::Clash("2 1 2"),
        counts: (2, 3, 1),
        last: Some(0),
    },
    Step {
        name: "rows alone",
        reply: "reply 1 2\nrow 0 1 0\nrow 0 0 1\nend 2 0 3\n",
        answer: Answer::Taken,
        counts: (1, 3, 3),
        last: Some(2),
    },
    Step {
        name: "keys that were refused before",
        reply: "reply 1 1\njob 2 1 2\njob 2 1 3\nend 0 2 1\n",
        answer: Answer::Taken,
        counts: (2, 5, 3),
        last: Some(1),
    },
];

fn key_of(rt: &impl Abort, text: &str) -> Key {
    read_key(text.as_bytes()).expect(rt, "a key")
}

fn stop_of(rt: &impl Abort, answer: Answer) -> Option<AcceptStop> {
    match answer {
        Answer::Taken => None,
        Answer::Done => Some(AcceptStop::Done),
        Answer::Stranger => Some(AcceptStop::Stranger),
        Answer::Clash(text) => Some(AcceptStop::Clash {
            key: key_of(rt, text),
        }),
    }
}

#[test]
fn takes_replies(rt: HostRuntime) -> Result<(), Fail> {
    let alloc = rt.alloc();
    let poly = poly_of(alloc, PLANE.as_bytes()).expect(&rt, "a plane");
    let mut run = RunState::begin(alloc, WorkKind::Subsets, Root::new(Key::empty()), poly)?;
    for step in &STEPS {
        let reply = ReplyReader::read_any(alloc, 3, step.reply.as_bytes()).expect(&rt, "a reply");
        let job = reply.key;
        let told = run.check(&reply).err();
        let stop = run.accept(&job, &reply).err();
        let counts = (run.waiting_places()?.len(), run.len(), run.rows());
        let last = run.done_places().last().copied();
        let wanted = stop_of(&rt, step.answer);
        assert_eq!(rt;
            (told, stop, counts, last),
            (wanted, wanted, step.counts, step.last),
            "{}",
            step.name
        );
    }
    Ok(())
}

/// Payloads, and the place of the first that is broken, or else how many keys wait and how many rows are recorded.
type Ledger = (
    &'static str,
    &'static [&'static str],
    Result<(usize, u64), u64>,
);

const LEDGERS: [Ledger; 13] = [
    ("a first payload", &[FIRST], Ok((1, 0))),
    ("one reply", &[FIRST, SPLIT], Ok((2, 1))),
    (
        "all is done",
        &[
            FIRST,
            SPLIT,
            "reply 1 2\nend 0 0 1\n",
            "reply 1 1\nrow 0 0 1\nend 1 0 1\n",
        ],
        Ok((0, 2)),
    ),
    (
        "subtrees under any root",
        &["lrs-ledger 1 subtrees\nroot 1 7\ninput 39\nH-representation\nbegin\n0 3 integer\nend\n"],
        Ok((1, 0)),
    ),
    ("a reply first", &[SPLIT], Err(1)),
    (
        "another version",
        &["lrs-ledger 2 subsets\nroot 0\ninput 39\nH-representation\nbegin\n0 3 integer\nend\n"],
        Err(1),
    ),
    (
        "subsets under a root",
        &["lrs-ledger 1 subsets\nroot 1 7\ninput 39\nH-representation\nbegin\n0 3 integer\nend\n"],
        Err(1),
    ),
    (
        "a byte too few",
        &["lrs-ledger 1 subsets\nroot 0\ninput 40\nH-representation\nbegin\n0 3 integer\nend\n"],
        Err(1),
    ),
    ("the first payload twice", &[FIRST, FIRST], Err(2)),
    ("a reply twice", &[FIRST, SPLIT, SPLIT], Err(3)),
    (
        "a job that never waited",
        &[FIRST, SPLIT, "reply 1 3\nend 0 0 1\n"],
        Err(3),
    ),
    (
        "a reply that ends in memory",
        &[FIRST, "reply 0\nmemory\n", SPLIT],
        Err(2),
    ),
    (
        "a key given back twice",
        &[FIRST, "reply 0\njob 1 1\njob 1 1\nend 0 2 1\n"],
        Err(2),
    ),
];

fn bytes_of(alloc: Global, texts: &[&str]) -> Result<Vec<Bytes>, AllocError> {
    let mut payloads = Vec::new(alloc);
    for text in texts {
        let bytes = Vec::from_slice(alloc, text.as_bytes())?;
        payloads.push(Bytes::from_vec(bytes))?;
    }
    Ok(payloads)
}

#[test]
fn replays_ledgers(rt: HostRuntime) -> Result<(), Fail> {
    let alloc = rt.alloc();
    for (name, texts, wanted) in &LEDGERS {
        let payloads = bytes_of(alloc, texts)?;
        if payloads.is_empty() {
            continue;
        }
        let replayed = match RunState::replay(alloc, &payloads) {
            Ok(run) => Ok((run.waiting_len(), run.rows())),
            Err(ReplayStop::BadLedger { place }) => Err(place),
            Err(ReplayStop::Memory) => Err(0),
        };
        assert_eq!(rt; replayed, *wanted, "{}", name);
    }
    Ok(())
}
