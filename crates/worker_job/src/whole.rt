//! A job text read from a source, and its reply.
ghost use Rattle.std.specs.Prelude.{◌≡◌, ◌⊎◌, ◌≤◌, ◌+◌, ℕ, IfOk, OnOk, IsErrOf};
ghost use Rattle.std.specs.Io.KnownBytes.{IsAtEnd};
ghost use Rattle.poly_io.specs.Causes.{Rose};
ghost use Rattle.poly_io.specs.Taken.{TakesAtMost};
ghost use Rattle.poly_model.specs.declared.overflow.Overflow.{Overflow as Passed};
ghost use Rattle.job_text.specs.declared.reply.Tail.TheVariants.{End as ended, Overflow as overflowed, Memory as starved};
ghost use Rattle.job_text.specs.Limits.{most_job_bytes};
ghost use Rattle.worker_job.specs.Runs.{IsBadJob, Replies, RepliesInPart, TakesText};

use crate::reply;
use job_text::MOST_JOB_BYTES;
use poly_io::{FrontStop, Sink, Source, read_front};
use poly_model::Count;
use std::alloc::Global;
use work_core::JobStop;

/// Reads a job text to its end, or to one byte more than any has, and writes its reply, as `reply` does. `BadJob` is judged by
/// the bytes that were taken. `ReadFault` comes where the source failed; then nothing is written.
pub fn job<I: Source, O: Sink>(alloc: Global, input: &mut I, out: &mut O) -> Result<Count, JobStop>
    ensures end { OnOk result (IsAtEnd (I.left input.new)) }
    ensures done { IfOk result (λ count. TakesText (I.left input.old) (I.left input.new)
        (Replies (O.written out.old) (O.written out.new) (ended count))) }
    ensures bad { (place : ℕ) → IsErrOf result (JobStop.BadJob place) → (out.new ≡ out.old)
        × TakesText (I.left input.old) (I.left input.new) (λ text. IsBadJob text place) }
    ensures overflow { (o : Passed) → IsErrOf result (JobStop.Overflow o) → TakesText (I.left input.old) (I.left input.new)
        (Replies (O.written out.old) (O.written out.new) (overflowed o)) }
    ensures memory { IsErrOf result JobStop.Memory → (out.new ≡ out.old)
        ⊎ TakesText (I.left input.old) (I.left input.new) (Replies (O.written out.old) (O.written out.new) starved) }
    ensures reads { ¬ (IsErrOf result JobStop.ReadFault) → I.faults input.new ≡ I.faults input.old }
    ensures read { IsErrOf result JobStop.ReadFault → (out.new ≡ out.old) × Rose (I.faults input.old) (I.faults input.new) }
    ensures write { IsErrOf result JobStop.WriteFault → Rose (O.faults out.old) (O.faults out.new)
        × TakesText (I.left input.old) (I.left input.new) (RepliesInPart (O.written out.old) (O.written out.new)) }
    ensures taken { TakesAtMost (I.left input.old) (I.left input.new) (most_job_bytes + 1) }
    ensures writes { ¬ (IsErrOf result JobStop.WriteFault) → O.faults out.new ≡ O.faults out.old }
    ensures later { O.faults out.old ≤ O.faults out.new }
{
    match read_front(alloc, input, MOST_JOB_BYTES + 1) {
        Ok(text) => reply(alloc, text.as_slice(), out),
        Err(FrontStop::Fault) => Err(JobStop::ReadFault),
        Err(FrontStop::Memory) => Err(JobStop::Memory),
    }
}
