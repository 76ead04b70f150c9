//! A run of many keys.
use crate::stop::Stop;
use job_text::ReplyReader;
use poly_io::{MemSink, WriteFault, write_all, write_count};
use poly_model::{Key, Root, WorkKind};
use poly_reader::poly_of;
use run_state::RunState;
use std::alloc::Global;

/// A polyhedron, which does not matter here.
const PLANE: &[u8] = b"H-representation\nbegin\n0 3 integer\nend\n";

/// How many columns it has.
const COLUMNS: u32 = 3;

/// How many keys each reply gives back.
const GIVEN: u64 = 4;

/// Takes replies in until so many keys are known beside the first, or up to three more; answers how many keys there are then.
pub fn take_replies(alloc: Global, keys: u64) -> Result<u64, Stop> {
    let Ok(poly) = poly_of(alloc, PLANE) else {
        return Err(Stop::Memory);
    };
    let root = Root::new(Key::empty());
    let mut run = RunState::begin(alloc, WorkKind::Subsets, root, poly)?;
    for number in 0..keys.div_ceil(GIVEN) {
        let mut text = MemSink::new(alloc, &[]);
        write_reply(number, &mut text)?;
        let reply = ReplyReader::read_any(alloc, COLUMNS, text.written())?;
        let job = reply.key;
        run.accept(&job, &reply)?;
    }
    Ok(run.len() as u64)
}

/// Makes and reads the same replies, and no more; answers how many keys they give back.
pub fn read_replies(alloc: Global, keys: u64) -> Result<u64, Stop> {
    let mut given = 0u64;
    for number in 0..keys.div_ceil(GIVEN) {
        let mut text = MemSink::new(alloc, &[]);
        write_reply(number, &mut text)?;
        let reply = ReplyReader::read_any(alloc, COLUMNS, text.written())?;
        given = given.saturating_add(reply.keys.len() as u64);
    }
    Ok(given)
}

// The reply to the job of a number, which gives the next keys back.
fn write_reply(number: u64, out: &mut MemSink) -> Result<(), WriteFault> {
    write_all(out, b"reply ")?;
    write_numbered(number, out)?;
    for i in 1..=GIVEN {
        write_all(out, b"job ")?;
        write_numbered(number.saturating_mul(GIVEN).saturating_add(i), out)?;
    }
    write_all(out, b"end 0 ")?;
    write_count(GIVEN, out)?;
    write_all(out, b" 1\n")
}

// The key of a number: that of 0 is empty, and each other one has ten labels, one for each digit.
fn write_numbered(number: u64, out: &mut MemSink) -> Result<(), WriteFault> {
    if number == 0 {
        return write_all(out, b"0\n");
    }
    write_all(out, b"10")?;
    let mut rest = number;
    for place in 0..10 {
        write_all(out, b" ")?;
        write_count(10 * place + rest % 10 + 1, out)?;
        rest /= 10;
    }
    write_all(out, b"\n")
}
