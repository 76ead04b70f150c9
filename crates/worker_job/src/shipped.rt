//! The call that the program ships to its workers.
ghost use Rattle.std.specs.Prelude.{◌≡◌, ◌⊎◌, ◌≤◌, ℕ, IfOk, IsErrOf};
ghost use Rattle.poly_io.specs.Causes.{Rose};
ghost use Rattle.poly_model.specs.declared.overflow.Overflow.{Overflow as Passed};
ghost use Rattle.job_text.specs.Rule.{IsReplyFor};
ghost use Rattle.job_text.specs.declared.reply.Tail.TheVariants.{End as ended, Overflow as overflowed, Memory as starved};
ghost use Rattle.worker_job.specs.Runs.{IsBadJob, Replies, RepliesInPart};

use crate::replying::reply_job;
use job_text::{JobReadStop, read_job};
use poly_io::Sink;
use poly_model::Count;
use std::alloc::Global;
use work_core::{JobCall, JobStop};

/// Writes the reply of a job text. A product that passes, and want of memory once the job was read, are also the last line
/// of the reply.
///
/// `BadJob` says which line of the text is the first that is wrong: 1 to 6, 7 for the file behind them; 2 also where no search
/// may begin at the root, 3 where the key is none of the work. Then nothing is written. `ReadFault` never comes.
pub fn reply<O: Sink>(alloc: Global, text: &[u8], out: &mut O) -> Result<Count, JobStop>
    ensures done { IfOk result (λ count. Replies (O.written out.old) (O.written out.new) (ended count) text.now) }
    ensures bad { (place : ℕ) → IsErrOf result (JobStop.BadJob place) → IsBadJob text.now place × (out.new ≡ out.old) }
    ensures overflow { (o : Passed) → IsErrOf result (JobStop.Overflow o) →
        Replies (O.written out.old) (O.written out.new) (overflowed o) text.now }
    ensures memory { IsErrOf result JobStop.Memory →
        (out.new ≡ out.old) ⊎ Replies (O.written out.old) (O.written out.new) starved text.now }
    ensures read { IsErrOf result JobStop.ReadFault → ⊥ }
    ensures write { IsErrOf result JobStop.WriteFault → Rose (O.faults out.old) (O.faults out.new)
        × RepliesInPart (O.written out.old) (O.written out.new) text.now }
    ensures writes { ¬ (IsErrOf result JobStop.WriteFault) → O.faults out.new ≡ O.faults out.old }
    ensures later { O.faults out.old ≤ O.faults out.new }
{
    match read_job(alloc, text) {
        Ok(job) => reply_job(alloc, &job, out),
        Err(JobReadStop::Bad { place }) => Err(JobStop::BadJob { place }),
        Err(JobReadStop::Memory) => Err(JobStop::Memory),
    }
}

/// Writes the reply of a job text.
#[derive(Drop)]
pub struct ShippedJob {
    alloc: Global,
}

impl ShippedJob {
    /// The call that takes its memory here.
    pub fn new(alloc: Global) -> ShippedJob {
        ShippedJob { alloc }
    }
}

impl JobCall for ShippedJob {
    ghost allows = { IsReplyFor };

    ghost is_bad = { IsBadJob };

    fn call<S: Sink>(&mut self, text: &[u8], out: &mut S) -> Result<Count, JobStop> {
        reply(self.alloc, text, out)
    }
}
