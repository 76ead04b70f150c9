//! Writes job texts, the first line of a reply, and the first payload of a ledger.
ghost use Rattle.std.specs.Prelude.{◌≡◌, ◌++◌, ◌∷◌, [], codes, IfOk, decimal};
ghost use Rattle.poly_io.specs.Written.{Prints};
ghost use Rattle.poly_model.specs.LabelText.{key_text};
ghost use Rattle.poly_reader.specs.Reading.{IsOfItsText};
ghost use Rattle.job_text.specs.Replies.{reply_head};
ghost use Rattle.job_text.specs.FirstPayloads.{IsFirstPayload, IsRootText, first_payload, ledger_line};
ghost use Rattle.job_text.specs.Jobs.{HasHeadText, IsJobText, text_of_job, work_line, root_line, key_line, bases_line, depth_line, input_line, sized};

use crate::JobHead;
use poly_io::{Bytes, MemSink, Sink, WriteFault, write_all, write_count};
use poly_model::{Key, Poly, Root, WorkKind};
use row_printer::write_key;
use std::alloc::{AllocError, Global};

fn write_work_line<S: Sink>(work: WorkKind, out: &mut S) -> Result<(), WriteFault>
    ensures { Prints S.Sink out.old out.new result (work_line work ++ 10 ∷ []) }
{
    match work {
        WorkKind::Subsets => write_all(out, b"lrs-job 1 subsets\n"),
        WorkKind::Subtrees => write_all(out, b"lrs-job 1 subtrees\n"),
    }
}

fn write_ledger_line<S: Sink>(work: WorkKind, out: &mut S) -> Result<(), WriteFault>
    ensures { Prints S.Sink out.old out.new result (ledger_line work ++ 10 ∷ []) }
{
    match work {
        WorkKind::Subsets => write_all(out, b"lrs-ledger 1 subsets\n"),
        WorkKind::Subtrees => write_all(out, b"lrs-ledger 1 subtrees\n"),
    }
}

// The word and the key.
fn write_key_line<S: Sink>(word: &[u8], key: &Key, out: &mut S) -> Result<(), WriteFault>
    ensures { Prints S.Sink out.old out.new result (word.now ++ (key_text key.now ++ 10 ∷ [])) }
{
    write_all(out, word)?;
    write_key(key, out)?;
    write_all(out, b"\n")
}

/// Writes a line: the word, and the number behind it.
pub fn write_count_line<S: Sink>(word: &[u8], count: u64, out: &mut S) -> Result<(), WriteFault>
    ensures { Prints S.Sink out.old out.new result (word.now ++ (decimal count ++ 10 ∷ [])) }
{
    write_all(out, word)?;
    write_count(count, out)?;
    write_all(out, b"\n")
}

/// Writes the first line of a reply.
pub fn write_reply_head<S: Sink>(key: &Key, out: &mut S) -> Result<(), WriteFault>
    ensures { Prints S.Sink out.old out.new result (reply_head key.now) }
{
    write_key_line(b"reply ", key, out)
}

// The line that says how many bytes the file has, and the file.
fn write_sized<S: Sink>(file: &[u8], out: &mut S) -> Result<(), WriteFault>
    ensures { Prints S.Sink out.old out.new result (sized file.now) }
{
    write_count_line(b"input ", file.len() as u64, out)?;
    write_all(out, file)
}

// The six lines, and the file.
fn write_job_text<S: Sink>(head: &JobHead, file: &[u8], out: &mut S) -> Result<(), WriteFault>
    ensures { Prints S.Sink out.old out.new result (text_of_job head.now file.now) }
{
    write_work_line(head.work, out)?;
    write_key_line(b"root ", &head.root.key(), out)?;
    write_key_line(b"key ", &head.key, out)?;
    write_count_line(b"bases ", head.budget.bases, out)?;
    write_count_line(b"depth ", head.budget.depth, out)?;
    write_sized(file, out)
}

/// The text of a job. Where the head has a text and the polyhedron is that of its own text, it is read back as this job.
pub fn write_job(alloc: Global, head: &JobHead, poly: &Poly) -> Result<Bytes, AllocError>
    ensures text { IfOk result (λ bytes. bytes ≡ text_of_job head.now poly.now.text) }
    ensures back { IfOk result (λ bytes. HasHeadText head.now → IsOfItsText poly.now
        → IsJobText (record { head = head.now; poly = poly.now }) bytes) }
{
    let mut sink = MemSink::new(alloc, &[]);
    match write_job_text(head, poly.text(), &mut sink) {
        Ok(()) => Ok(Bytes::from_vec(Vec::from_slice(alloc, sink.written())?)),
        Err(WriteFault) => Err(AllocError),
    }
}

// The three lines of a first payload, and the file.
fn write_first_text<S: Sink>(
    work: WorkKind,
    root: &Root,
    file: &[u8],
    out: &mut S,
) -> Result<(), WriteFault>
    ensures { Prints S.Sink out.old out.new result (ledger_line work ++ 10 ∷ (root_line root.now.key ++ 10 ∷ sized file.now)) }
{
    write_ledger_line(work, out)?;
    write_key_line(b"root ", &root.key(), out)?;
    write_sized(file, out)
}

/// The first payload of a ledger: three lines and the file, as bytes. Where the root may be one of the work and the
/// polyhedron is that of its own text, it is read back as this search. An error is lack of memory.
pub fn write_first_payload(
    alloc: Global,
    work: WorkKind,
    root: &Root,
    poly: &Poly,
) -> Result<Bytes, AllocError>
    ensures text { IfOk result (λ bytes. bytes ≡ first_payload (record { work = work; polyhedron = poly.now; root = root.now.key })) }
    ensures back { IfOk result (λ bytes. IsRootText work root.now.key → IsOfItsText poly.now
        → IsFirstPayload (record { work = work; polyhedron = poly.now; root = root.now.key }) bytes) }
{
    let mut sink = MemSink::new(alloc, &[]);
    match write_first_text(work, root, poly.text(), &mut sink) {
        Ok(()) => Ok(Bytes::from_vec(Vec::from_slice(alloc, sink.written())?)),
        Err(WriteFault) => Err(AllocError),
    }
}
