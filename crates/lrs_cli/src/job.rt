//! `job`: reads a job text from the input, and writes its reply to the output.
ghost use Rattle.std.specs.Prelude.{◌≡◌, ◌≤◌, ◌+◌};
ghost use Rattle.job_text.specs.Limits.{most_job_bytes};
ghost use Rattle.poly_io.specs.Taken.{TakesAtMost};
ghost use Rattle.lrs_cli.specs.Job.{AnswersJob};
ghost use Rattle.lrs_cli.specs.Streams.{streams_at};

use crate::status::Status;
use crate::through::ended;
use buffered_sink::{Base, Buffered};
use poly_io::{Sink, Source};
use std::alloc::Global;
use std::marker::Brand;
use work_core::JobStop;
use worker_job::job;

/// Reads a job text to its end and writes its reply, in large pieces; gives the sink back.
pub fn job_through<I: Source, O: Sink>(alloc: Global, input: &mut I, out: O) -> (Status, O)
    ensures line { result.0 ≡ Status.Usage → ⊥ }
    ensures answers { AnswersJob
        (streams_at I.Source O.Sink input.old out) (streams_at I.Source O.Sink input.new result.1)
        (result.1 ≡ out) result.0 }
    ensures taken { TakesAtMost (I.left input.old) (I.left input.new) (most_job_bytes + 1) }
{
    job_over::<Brand, I, O>(alloc, input, out)
}

// The base is what the sink has written at this call.
fn job_over<B: Base, I: Source, O: Sink>(alloc: Global, input: &mut I, out: O) -> (Status, O)
    requires { B.base ≡ O.written out }
    ensures line { result.0 ≡ Status.Usage → ⊥ }
    ensures answers { AnswersJob
        (streams_at I.Source O.Sink input.old out) (streams_at I.Source O.Sink input.new result.1)
        (result.1 ≡ out) result.0 }
    ensures taken { TakesAtMost (I.left input.old) (I.left input.new) (most_job_bytes + 1) }
{
    let mut sink = Buffered::<B, O>::new(out);
    let status = answer_job(alloc, input, &mut sink);
    let (out, end) = sink.finish();
    (ended(status, end), out)
}

// Reads a job text and writes its reply.
fn answer_job<I: Source, O: Sink>(alloc: Global, input: &mut I, out: &mut O) -> Status
    ensures line { result ≡ Status.Usage → ⊥ }
    ensures answers { AnswersJob
        (streams_at I.Source O.Sink input.old out.old) (streams_at I.Source O.Sink input.new out.new)
        (out.new ≡ out.old) result }
    ensures taken { TakesAtMost (I.left input.old) (I.left input.new) (most_job_bytes + 1) }
    ensures later { O.faults out.old ≤ O.faults out.new }
{
    match job(alloc, input, out) {
        Ok(count) => Status::Done {
            rows: count.rows,
            lines: 0,
        },
        Err(JobStop::BadJob { place }) => Status::BadJob { place },
        Err(JobStop::Overflow(overflow)) => Status::Overflow(overflow),
        Err(JobStop::ReadFault) => Status::ReadFault,
        Err(JobStop::WriteFault) => Status::WriteFault,
        Err(JobStop::Memory) => Status::OutOfMemory,
    }
}
