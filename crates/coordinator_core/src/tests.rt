//! What comes for an attempt and how it is judged, a course from the first key to the end, and when a call gives up.
use crate::{Action, Core, Event, Options, Verdict};
use job_text::read_key;
use poly_model::{Key, Label, Overflow, Phase, Place, Root, WorkKind};
use poly_reader::poly_of;
use run_state::RunState;
use std::alloc::{AllocError, Global};
use std::process::Abort;
use std::test::Fail;
use work_core::Budget;

const PLANE: &str = "H-representation\nbegin\n0 3 integer\nend\n";

const SPLIT: &str = "reply 0\nrow 1 0 0\njob 1 1\njob 1 2\njob 1 3\nend 1 3 1\n";

/// The action that comes next. A key is its text.
#[derive(Clone, Copy)]
enum Next {
    Hand(u64, &'static str, u64),
    Collect,
    Finish,
    GiveUp(u64, u64),
}

/// What becomes of an event.
#[derive(Clone, Copy)]
enum Judged {
    Accepted,
    Stray,
    Loss,
    Ends,
}

fn key_of(rt: &impl Abort, text: &str) -> Key {
    read_key(text.as_bytes()).expect(rt, "a key")
}

fn action_of(rt: &impl Abort, next: Next) -> Action {
    match next {
        Next::Hand(attempt, text, depth) => Action::Hand {
            attempt,
            key: key_of(rt, text),
            budget: Budget { bases: 1, depth },
        },
        Next::Collect => Action::Collect,
        Next::Finish => Action::Finish,
        Next::GiveUp(lost, strays) => Action::GiveUp { lost, strays },
    }
}

fn t_at_the_constants() -> Place {
    Place {
        row: Label::EXTRA,
        col: Label::CONSTANT,
    }
}

// The overflow of the texts below.
fn overflow_of(rt: &impl Abort) -> Overflow {
    Overflow {
        phase: Phase::First,
        key: key_of(rt, "2 9 x12"),
        a: t_at_the_constants(),
        b: t_at_the_constants(),
        c: t_at_the_constants(),
        d: t_at_the_constants(),
    }
}

fn verdict_of(rt: &impl Abort, judged: Judged) -> Verdict {
    match judged {
        Judged::Accepted => Verdict::Accepted,
        Judged::Stray => Verdict::Stray,
        Judged::Loss => Verdict::Loss,
        Judged::Ends => Verdict::Ends(overflow_of(rt)),
    }
}

// The core of the plane without rows, two workers and a queue that is short below two keys.
fn begin(rt: &impl Abort, alloc: Global, lost: u8) -> Result<Core, AllocError> {
    let poly = poly_of(alloc, PLANE.as_bytes()).expect(rt, "a plane");
    let run = RunState::begin(alloc, WorkKind::Subsets, Root::new(Key::empty()), poly)?;
    let options = Options {
        workers: 2,
        bases: 1,
        depth: 2,
        lmin: 1,
        lost: lost as u64,
    };
    Core::new(alloc, run, options)
}

// Takes in what came, and says what `judge` has answered of it before, where it is a reply.
fn take(
    alloc: Global,
    core: &mut Core,
    attempt: u64,
    text: &[u8],
) -> Result<(Verdict, Verdict), AllocError> {
    let event = core.event_of(alloc, attempt, text)?;
    let before = match &event {
        Event::Answer { attempt, reply } => core.judge(*attempt, reply)?,
        Event::Lost { attempt: _ } => Verdict::Loss,
    };
    let verdict = core.on(event)?;
    Ok((before, verdict))
}

/// What comes for an attempt where attempts 1 and 3 are done and 2 is out, how it is judged, and what is next.
type Came = (&'static str, u64, &'static str, Judged, Next);

const CAME: [Came; 13] = [
    ("nothing", 2, "", Judged::Loss, Next::Hand(4, "1 3", 0)),
    (
        "no reply",
        2,
        "end 0 0 1\n",
        Judged::Loss,
        Next::Hand(4, "1 3", 0),
    ),
    (
        "a reply that is cut",
        2,
        "reply 1 1\nend 0 0 1",
        Judged::Loss,
        Next::Hand(4, "1 3", 0),
    ),
    (
        "a reply of another key",
        2,
        "reply 1 2\nend 0 0 1\n",
        Judged::Loss,
        Next::Hand(4, "1 3", 0),
    ),
    (
        "an attempt never handed out",
        9,
        "reply 1 1\nend 0 0 1\n",
        Judged::Loss,
        Next::Hand(4, "1 3", 2),
    ),
    (
        "nothing for an attempt that is done",
        1,
        "",
        Judged::Loss,
        Next::Hand(4, "1 3", 2),
    ),
    (
        "a reply once more",
        1,
        SPLIT,
        Judged::Stray,
        Next::Hand(4, "1 3", 2),
    ),
    (
        "a stray with an overflow",
        1,
        "reply 0\noverflow first 2 9 x12 t,c t,c t,c t,c\n",
        Judged::Stray,
        Next::Hand(4, "1 3", 2),
    ),
    (
        "a stray with want of memory",
        3,
        "reply 1 2\nmemory\n",
        Judged::Stray,
        Next::Hand(4, "1 3", 2),
    ),
    (
        "an overflow behind a known key",
        2,
        "reply 1 1\njob 1 3\noverflow first 2 9 x12 t,c t,c t,c t,c\n",
        Judged::Ends,
        Next::Hand(4, "1 3", 2),
    ),
    (
        "want of memory",
        2,
        "reply 1 1\njob 2 1 2\nmemory\n",
        Judged::Loss,
        Next::Hand(4, "1 3", 0),
    ),
    (
        "a clash",
        2,
        "reply 1 1\njob 2 1 2\njob 1 2\nend 0 2 1\n",
        Judged::Loss,
        Next::Hand(4, "1 3", 0),
    ),
    (
        "a reply that is due",
        2,
        "reply 1 1\njob 2 1 2\nend 0 1 1\n",
        Judged::Accepted,
        Next::Hand(4, "1 3", 0),
    ),
];

#[test]
fn judges_what_comes(rt: HostRuntime) -> Result<(), Fail> {
    let alloc = rt.alloc();
    for case in &CAME {
        let mut core = begin(&rt, alloc, 100)?;
        core.next();
        take(alloc, &mut core, 1, SPLIT.as_bytes())?;
        core.next();
        core.next();
        take(alloc, &mut core, 3, b"reply 1 2\nend 0 0 1\n")?;
        let (before, verdict) = take(alloc, &mut core, case.1, case.2.as_bytes())?;
        assert_eq!(rt; verdict, verdict_of(&rt, case.3), "{}", case.0);
        assert_eq!(rt; before, verdict, "{}", case.0);
        assert_eq!(rt; core.next(), action_of(&rt, case.4), "{}", case.0);
    }
    Ok(())
}

/// What is next, and what comes then for an attempt, if anything.
type Turn = (&'static str, Next, Option<(u64, &'static str)>);

const TURNS: [Turn; 12] = [
    ("the first key", Next::Hand(1, "0", 2), None),
    ("the first key alone", Next::Collect, Some((1, SPLIT))),
    (
        "no depth budget where three keys are queued",
        Next::Hand(2, "1 1", 0),
        None,
    ),
    ("nor where two are", Next::Hand(3, "1 2", 0), None),
    ("both workers", Next::Collect, Some((3, ""))),
    (
        "a lost key waits behind the others",
        Next::Hand(4, "1 3", 0),
        None,
    ),
    (
        "both workers once more",
        Next::Collect,
        Some((2, "reply 1 1\nend 0 0 1\n")),
    ),
    (
        "the lost key, alone in the queue",
        Next::Hand(5, "1 2", 2),
        None,
    ),
    (
        "nothing is queued",
        Next::Collect,
        Some((5, "reply 1 2\nend 0 0 1\n")),
    ),
    (
        "one is still out",
        Next::Collect,
        Some((4, "reply 1 3\nend 0 0 1\n")),
    ),
    ("none is out", Next::Finish, None),
    ("and so it stays", Next::Finish, None),
];

#[test]
fn goes_from_the_first_key_to_the_end(rt: HostRuntime) -> Result<(), Fail> {
    let alloc = rt.alloc();
    let mut core = begin(&rt, alloc, 100)?;
    for turn in &TURNS {
        assert_eq!(rt; core.next(), action_of(&rt, turn.1), "{}", turn.0);
        if let Some((attempt, text)) = turn.2 {
            take(alloc, &mut core, attempt, text.as_bytes())?;
        }
    }
    Ok(())
}

/// How many losses and strays are borne, what comes for the first attempts, and what is next.
type Bears = (&'static str, u8, &'static [&'static str], Next);

const BEARS: [Bears; 6] = [
    ("none came", 0, &[], Next::Collect),
    ("a loss where none is borne", 0, &[""], Next::GiveUp(1, 0)),
    ("a loss where one is", 1, &[""], Next::Hand(2, "0", 2)),
    (
        "a stray where none is borne",
        0,
        &[SPLIT, SPLIT],
        Next::GiveUp(0, 1),
    ),
    (
        "a stray where one is",
        1,
        &[SPLIT, SPLIT],
        Next::Hand(2, "1 1", 0),
    ),
    (
        "a loss and a stray where one is",
        1,
        &[SPLIT, SPLIT, ""],
        Next::GiveUp(1, 1),
    ),
];

#[test]
fn gives_up(rt: HostRuntime) -> Result<(), Fail> {
    let alloc = rt.alloc();
    for case in &BEARS {
        let mut core = begin(&rt, alloc, case.1)?;
        core.next();
        for text in case.2 {
            take(alloc, &mut core, 1, text.as_bytes())?;
        }
        assert_eq!(rt; core.next(), action_of(&rt, case.3), "{}", case.0);
    }
    Ok(())
}
