//! A job and a reply that were written out by hand, and texts that are no job or no reply.
use crate::{
    BadReply, JobHead, JobReadStop, PayloadStop, ReplyReader, ReplyStop, Tail, next_row,
    read_entries, read_first_payload, read_job, read_key, rows_behind, write_first_payload,
    write_job, write_reply_head, write_tail,
};
use poly_io::MemSink;
use poly_model::{Count, Key, Label, Overflow, Phase, Place, Root, WorkKind};
use poly_num::Num;
use poly_reader::poly_of;
use std::test::Fail;
use work_core::Budget;

const PLANE: &str = "H-representation\nbegin\n0 3 integer\nend\n";

const JOB: &str =
    "lrs-job 1 subsets\nroot 0\nkey 0\nbases 1\ndepth 0\ninput 39\nH-representation\nbegin\n0 3 integer\nend\n";

const FIRST: &str =
    "lrs-ledger 1 subsets\nroot 0\ninput 39\nH-representation\nbegin\n0 3 integer\nend\n";

// What makes a job a bad one, a piece of its text, what stands there instead, and the place.
const BAD_JOBS: [(&str, &str, &str, u64); 15] = [
    ("another version", "lrs-job 1", "lrs-job 2", 1),
    ("another work", "subsets", "subtree", 1),
    ("labels that do not ascend", "root 0", "root 2 2 1", 2),
    ("a label too few", "root 0", "root 1", 2),
    ("the constant column", "key 0", "key 1 c", 3),
    ("a row 0", "key 0", "key 1 0", 3),
    ("a leading zero", "key 0", "key 00", 3),
    ("two blanks", "key 0", "key  0", 3),
    ("no base", "bases 1", "bases 0", 4),
    ("too many bases", "bases 1", "bases 1000000000001", 4),
    ("too deep", "depth 0", "depth 1000001", 5),
    ("a size with a sign", "input 39", "input +39", 6),
    (
        "a size that no machine has",
        "input 39",
        "input 39000000000000000000000000000000000000000000",
        7,
    ),
    ("a byte too few", "input 39", "input 40", 7),
    ("no polyhedron", "begin", "began", 7),
];

#[test]
fn writes_and_reads_the_plane(rt: HostRuntime) -> Result<(), Fail> {
    let alloc = rt.alloc();
    let head = JobHead {
        work: WorkKind::Subsets,
        root: Root::new(Key::empty()),
        key: Key::empty(),
        budget: Budget { bases: 1, depth: 0 },
    };
    let poly = poly_of(alloc, PLANE.as_bytes()).expect(&rt, "a plane");
    let text = write_job(alloc, &head, &poly)?;
    assert_eq!(rt; text.as_slice(), JOB.as_bytes());
    let job = read_job(alloc, JOB.as_bytes()).expect(&rt, "a job");
    assert_eq!(rt; job.head, head);
    assert_eq!(rt; job.poly.text(), PLANE.as_bytes());
    Ok(())
}

#[test]
fn a_job_cut_anywhere_is_bad_at_its_line(rt: HostRuntime) {
    let text = JOB.as_bytes();
    let mut line = 1;
    for len in 0..text.len() {
        let stop = read_job(rt.alloc(), &text[..len]).err();
        assert_eq!(rt; stop, Some(JobReadStop::Bad { place: line }), "{}", len);
        if text[len] == b'\n' && line < 7 {
            line += 1;
        }
    }
}

#[test]
fn says_which_line_is_bad(rt: HostRuntime) -> Result<(), Fail> {
    let alloc = rt.alloc();
    for (name, old, new, place) in &BAD_JOBS {
        let (before, after) = JOB.split_once(*old).expect(&rt, "a piece of it");
        let mut text = String::from_str(alloc, before)?;
        text.push_str(new)?;
        text.push_str(after)?;
        let stop = read_job(alloc, text.as_bytes()).err();
        assert_eq!(rt; stop, Some(JobReadStop::Bad { place: *place }), "{}", name);
    }
    // Whether it is a key of the work is judged later.
    let other = b"lrs-job 1 subtrees\nroot 0\nkey 1 9\nbases 1\ndepth 0\ninput 39\n";
    let mut text = Vec::from_slice(alloc, other)?;
    text.extend_from_slice(PLANE.as_bytes())?;
    let job = read_job(alloc, &text).expect(&rt, "a job");
    assert_eq!(rt; job.head.key, Key::empty().with(Label::row(9)));
    Ok(())
}

// What makes a first payload, a piece of that of the plane by subsets, what stands there instead, and whether it is one then.
const FIRST_PAYLOADS: [(&str, &str, &str, bool); 8] = [
    ("as it is", "root 0", "root 0", true),
    ("another work", "subsets", "subtrees", true),
    ("another version", "lrs-ledger 1", "lrs-ledger 2", false),
    ("a job", "lrs-ledger", "lrs-job", false),
    ("a root of subsets", "root 0", "root 1 9", false),
    ("a byte too few", "input 39", "input 40", false),
    ("a leading zero", "input 39", "input 039", false),
    ("no polyhedron", "begin", "began", false),
];

#[test]
fn reads_first_payloads(rt: HostRuntime) -> Result<(), Fail> {
    let alloc = rt.alloc();
    for (name, old, new, is_one) in &FIRST_PAYLOADS {
        let (before, after) = FIRST.split_once(*old).expect(&rt, "a piece of it");
        let mut text = String::from_str(alloc, before)?;
        text.push_str(new)?;
        text.push_str(after)?;
        match read_first_payload(alloc, text.as_bytes()) {
            Ok(first) => {
                assert!(rt; *is_one, "{}", name);
                assert_eq!(rt; first.root, Root::new(Key::empty()));
                assert_eq!(rt; first.poly.text(), PLANE.as_bytes());
            }
            Err(stop) => {
                assert!(rt; !*is_one, "{}", name);
                assert_eq!(rt; stop, PayloadStop::Bad);
            }
        }
    }
    Ok(())
}

// A work, a root, and the lines of the first payload that name them.
const WRITTEN_PAYLOADS: [(&str, WorkKind, &str, &str); 3] = [
    (
        "subsets",
        WorkKind::Subsets,
        "0",
        "lrs-ledger 1 subsets\nroot 0\n",
    ),
    (
        "subtrees",
        WorkKind::Subtrees,
        "0",
        "lrs-ledger 1 subtrees\nroot 0\n",
    ),
    (
        "subtrees under a root",
        WorkKind::Subtrees,
        "2 9 x12",
        "lrs-ledger 1 subtrees\nroot 2 9 x12\n",
    ),
];

#[test]
fn writes_first_payloads_that_are_read_back(rt: HostRuntime) -> Result<(), Fail> {
    let alloc = rt.alloc();
    let poly = poly_of(alloc, PLANE.as_bytes()).expect(&rt, "a plane");
    for (name, work, root, front) in &WRITTEN_PAYLOADS {
        let root = Root::new(read_key(root.as_bytes()).expect(&rt, "a key"));
        let written = write_first_payload(alloc, *work, &root, &poly)?;
        let mut text = String::from_str(alloc, *front)?;
        text.push_str("input 39\n")?;
        text.push_str(PLANE)?;
        assert_eq!(rt; written.as_slice(), text.as_bytes(), "{}", name);
        let first = read_first_payload(alloc, written.as_slice()).expect(&rt, "a first payload");
        assert_eq!(rt; (first.work, first.root), (*work, root), "{}", name);
    }
    Ok(())
}

#[test]
fn keys(rt: HostRuntime) {
    let cases = [
        ("0", Some(Key::empty())),
        ("1 t", Some(Key::empty().with(Label::EXTRA))),
        (
            "2 9 x12",
            Some(Key::empty().with(Label::row(9)).with(Label::coordinate(12))),
        ),
        ("1", None),
        ("0 ", None),
        ("1 9 10", None),
        ("2 9 9", None),
        ("1 8192", None),
        ("1 x8192", None),
        ("1 x", None),
        ("513", None),
        ("99999999999999999999999999 9", None),
    ];
    for (text, key) in &cases {
        assert_eq!(rt; read_key(text.as_bytes()), *key, "{}", text);
    }
}

fn t_at_the_constants() -> Place {
    Place {
        row: Label::EXTRA,
        col: Label::CONSTANT,
    }
}

#[test]
fn writes_a_reply(rt: HostRuntime) {
    let mut sink = MemSink::new(rt.alloc(), &[]);
    let key = Key::empty().with(Label::row(9)).with(Label::coordinate(12));
    let overflow = Overflow {
        phase: Phase::First,
        key,
        a: t_at_the_constants(),
        b: t_at_the_constants(),
        c: t_at_the_constants(),
        d: t_at_the_constants(),
    };
    let count = Count {
        rows: 1,
        jobs: 0,
        bases: 1,
    };
    write_reply_head(&key, &mut sink).expect(&rt, "memory");
    for tail in [Tail::End(count), Tail::Overflow(overflow), Tail::Memory] {
        write_tail(&tail, &mut sink).expect(&rt, "memory");
    }
    let text = b"reply 2 9 x12\nend 1 0 1\noverflow first 2 9 x12 t,c t,c t,c t,c\nmemory\n";
    assert_eq!(rt; sink.written(), text.as_slice());
}

const REPLY: &str = "reply 0\nrow 1 0 0\njob 1 9\nend 1 1 1\n";

// What makes a reply none, a piece of its text, what stands there instead, and how many bytes are lines that fit.
const NO_REPLIES: [(&str, &str, &str, u64); 12] = [
    ("another key", "reply 0", "reply 1 9", 0),
    ("an entry too few", "row 1 0 0", "row 1 0", 8),
    ("an entry too many", "row 1 0 0", "row 1 0 0 0", 8),
    ("a row with a divisor", "row 1 0 0", "row 2 0 0", 8),
    ("a negative zero", "row 1 0 0", "row 1 -0 0", 8),
    ("a leading zero", "row 1 0 0", "row 01 0 0", 8),
    (
        "a wide entry",
        "row 1 0 0",
        "row 1 170141183460469231731687303715884105728 0",
        8,
    ),
    ("a key that is none", "job 1 9", "job 1 9 10", 18),
    ("a row that was not counted", "end 1 1 1", "end 0 1 1", 26),
    ("a key that was not counted", "end 1 1 1", "end 1 0 1", 26),
    ("no base", "end 1 1 1", "end 1 1 0", 26),
    (
        "text behind the last line",
        "end 1 1 1\n",
        "end 1 1 1\nmemory\n",
        36,
    ),
];

fn not_whole(place: u64) -> Option<ReplyStop> {
    Some(ReplyStop::NotWhole { place })
}

#[test]
fn reads_a_reply(rt: HostRuntime) {
    let reply = ReplyReader::read(rt.alloc(), &Key::empty(), 3, REPLY.as_bytes()).expect(
        &rt, "a reply",
    );
    let count = Count {
        rows: 1,
        jobs: 1,
        bases: 1,
    };
    assert_eq!(rt; reply.tail, Tail::End(count));
    assert_eq!(rt; reply.rows.len(), 1);
    let (first, others) = reply.keys.left().next().expect(&rt, "a key");
    assert_eq!(rt; first, [Label::row(9)].as_slice());
    assert_eq!(rt; others.next().is_none(), true);
}

/// What is left of a reply, and its rows up to the first line of another form.
const LEFT: [(&str, &[&str], Result<(), BadReply>); 6] = [
    ("end 0 0 1\n", &[], Ok(())),
    (
        "row 1 0 -12\njob 1 9\nrow 0 1 0\nend 2 1 1\n",
        &[" 1 0 -12\n", " 0 1 0\n"],
        Ok(()),
    ),
    ("row 1 0 -12\nmemory\n", &[" 1 0 -12\n"], Err(BadReply)),
    (
        "row 1 0 -12\nrows 2\nend 2 0 1\n",
        &[" 1 0 -12\n"],
        Err(BadReply),
    ),
    ("row 1 0 -12\nend 1 0 1", &[" 1 0 -12\n"], Err(BadReply)),
    ("", &[], Err(BadReply)),
];

/// Takes these rows, and tells how it goes on behind them; another row is a failure.
fn take_rows(text: &str, rows: &[&str]) -> Result<Result<(), BadReply>, Fail> {
    let mut left = text.as_bytes();
    for row in rows {
        match next_row(left) {
            Ok(Some((line, rest))) if line == row.as_bytes() => left = rest,
            _ => return Err("another row")?,
        }
    }
    match next_row(left) {
        Ok(Some(_)) => Err("one row more")?,
        Ok(None) => Ok(Ok(())),
        Err(stop) => Ok(Err(stop)),
    }
}

#[test]
fn rows_are_taken_one_by_one(rt: HostRuntime) -> Result<(), Fail> {
    for (text, rows, end) in LEFT {
        assert_eq!(rt; take_rows(text, rows)?, end, "{}", text);
    }
    assert_eq!(rt; rows_behind(b"reply 0\nend"), Some(b"end".as_slice()));
    assert_eq!(rt; rows_behind(b"job 0\nend"), None);
    let mut row = [Num::ZERO; 3];
    assert!(rt; read_entries(&mut row, b" 1 0 -12"));
    assert_eq!(rt; row.map(Num::get), [1, 0, -12]);
    Ok(())
}

#[test]
fn a_reply_cut_anywhere_is_whole_to_its_last_line(rt: HostRuntime) {
    let text = REPLY.as_bytes();
    let mut place = 0;
    for len in 0..text.len() {
        let stop = ReplyReader::read(rt.alloc(), &Key::empty(), 3, &text[..len]).err();
        assert_eq!(rt; stop, not_whole(place), "{}", len);
        if text[len] == b'\n' {
            place = len as u64 + 1;
        }
    }
}

#[test]
fn says_how_far_a_text_is_a_reply(rt: HostRuntime) -> Result<(), Fail> {
    let alloc = rt.alloc();
    for (name, old, new, place) in &NO_REPLIES {
        let (before, after) = REPLY.split_once(*old).expect(&rt, "a piece of it");
        let mut text = String::from_str(alloc, before)?;
        text.push_str(new)?;
        text.push_str(after)?;
        let stop = ReplyReader::read(alloc, &Key::empty(), 3, text.as_bytes()).err();
        assert_eq!(rt; stop, not_whole(*place), "{}", name);
    }
    Ok(())
}

#[test]
fn reads_each_last_line(rt: HostRuntime) {
    let texts = [
        "reply 0\nmemory\n",
        "reply 0\noverflow first 2 9 x12 t,c t,c t,c t,c\n",
        "reply 0\nend 0 0 1000000000000\n",
    ];
    for text in &texts {
        let reply = ReplyReader::read(rt.alloc(), &Key::empty(), 3, text.as_bytes()).expect(
            &rt, "a reply",
        );
        let mut sink = MemSink::new(rt.alloc(), &[]);
        write_reply_head(&reply.key, &mut sink).expect(&rt, "memory");
        write_tail(&reply.tail, &mut sink).expect(&rt, "memory");
        assert_eq!(rt; sink.written(), text.as_bytes());
    }
}
