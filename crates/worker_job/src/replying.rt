//! The reply of a job.
ghost use Rattle.std.specs.Prelude.{◌≡◌, ◌++◌};
ghost use Rattle.poly_io.specs.Causes.{RisesAt};
ghost use Rattle.poly_io.specs.Written.{Prints};
ghost use Rattle.poly_model.specs.declared.kind.WorkKind.TheVariants.{Subsets, Subtrees};
ghost use Rattle.poly_model.specs.declared.overflow.Overflow.{Overflow as Passed};
ghost use Rattle.work_core.specs.Meanings.{Meaning};
ghost use Rattle.work_core.specs.Searches.{Search, meaning_of, MayBegin};
ghost use Rattle.job_text.specs.declared.reply.Tail.TheVariants.{End, Overflow as Passing, Memory as Starved};
ghost use Rattle.job_text.specs.Replies.{reply_head, tail_text};
ghost use Rattle.poly_model.specs.Keys.{IsKey};
ghost use Rattle.job_text.specs.Rule.{search_of};
ghost use Rattle.job_text.specs.Jobs.{HasHeadText};
ghost use Rattle.worker_job.specs.Due.{IsDueInJob, IsDueInWork};
ghost use Rattle.worker_job.specs.Replies.{EndsJob, IsOfAFile, MayReplyBy};

use hull_lift::system_of;
use job_text::{Job, Tail, write_reply_head, write_tail};
use poly_io::{Sink, WriteFault};
use poly_model::{Count, Overflow, System, WorkKind};
use std::alloc::Global;
use subset_work::{SubsetStop, SubsetWork};
use subtree_work::{SubtreeStop, SubtreeWork};
use work_core::{JobStop, Work, WorkStop};

/// The reply of a job: by the work that it names.
pub(crate) fn reply_job<O: Sink>(alloc: Global, job: &Job, out: &mut O) -> Result<Count, JobStop>
    requires head { HasHeadText job.now.head }
    ensures ends { EndsJob job.now (O.written out.old) (O.written out.new) (out.new ≡ out.old) result }
    ensures cause { RisesAt JobStop.WriteFault (O.faults out.old) (O.faults out.new) result }
{
    let Ok(cone) = system_of(alloc, &job.poly) else {
        return starve(job, out);
    };
    cone.keeps_limits();
    match job.head.work {
        WorkKind::Subsets => by_subsets(alloc, job, &cone, out),
        WorkKind::Subtrees => by_subtrees(alloc, job, &cone, out),
    }
}

fn by_subsets<O: Sink>(
    alloc: Global,
    job: &Job,
    cone: &System,
    out: &mut O,
) -> Result<Count, JobStop>
    requires { MayReplyBy Subsets job.now cone.now }
    ensures ends { EndsJob job.now (O.written out.old) (O.written out.new) (out.new ≡ out.old) result }
    ensures cause { RisesAt JobStop.WriteFault (O.faults out.old) (O.faults out.new) result }
{
    if !job.head.root.key().is_empty() {
        return Err(JobStop::BadJob { place: 2 });
    }
    match SubsetWork::new(alloc, cone) {
        Ok(work) => {
            let mut work = work;
            reply_by(&mut work, job, out)
        }
        Err(SubsetStop::Overflow(overflow)) => pass(job, overflow, out),
        Err(SubsetStop::Memory) => starve(job, out),
    }
}

fn by_subtrees<O: Sink>(
    alloc: Global,
    job: &Job,
    cone: &System,
    out: &mut O,
) -> Result<Count, JobStop>
    requires { MayReplyBy Subtrees job.now cone.now }
    ensures ends { EndsJob job.now (O.written out.old) (O.written out.new) (out.new ≡ out.old) result }
    ensures cause { RisesAt JobStop.WriteFault (O.faults out.old) (O.faults out.new) result }
{
    match SubtreeWork::new(alloc, cone, job.head.root) {
        Ok(work) => {
            let mut work = work;
            reply_by(&mut work, job, out)
        }
        Err(SubtreeStop::BadRoot) => Err(JobStop::BadJob { place: 2 }),
        Err(SubtreeStop::Overflow(overflow)) => pass(job, overflow, out),
        Err(SubtreeStop::Memory) => starve(job, out),
    }
}

// The reply by a work of the job's search.
fn reply_by<W: Work, O: Sink>(work: &mut W, job: &Job, out: &mut O) -> Result<Count, JobStop>
    requires file { IsOfAFile job.now }
    requires begins { MayBegin (search_of job.now) }
    requires work { W.is_of work.old (search_of job.now) }
    requires asked { (w : W) (o : Passed) → W.is_of w (search_of job.now) → IsDueInWork W.Work w job.now o → IsDueInJob job.now o }
    ensures ends { EndsJob job.now (O.written out.old) (O.written out.new) (out.new ≡ out.old) result }
    ensures cause { RisesAt JobStop.WriteFault (O.faults out.old) (O.faults out.new) result }
{
    match work.has_key(&job.head.key) {
        Ok(true) => run(work, job, out),
        Ok(false) => Err(JobStop::BadJob { place: 3 }),
        Err(overflow) => pass(job, overflow, out),
    }
}

// The first line of the reply, the lines of the run, and the last line.
fn run<W: Work, O: Sink>(work: &mut W, job: &Job, out: &mut O) -> Result<Count, JobStop>
    requires file { IsOfAFile job.now }
    requires begins { MayBegin (search_of job.now) }
    requires work { W.is_of work.old (search_of job.now) }
    requires asked { (w : W) (o : Passed) → W.is_of w (search_of job.now) → IsDueInWork W.Work w job.now o → IsDueInJob job.now o }
    requires key { (s : Search) → W.is_of work.old s → Meaning.is_key (meaning_of s) job.now.head.key }
    ensures ends { EndsJob job.now (O.written out.old) (O.written out.new) (out.new ≡ out.old) result }
    ensures cause { RisesAt JobStop.WriteFault (O.faults out.old) (O.faults out.new) result }
{
    if let Err(WriteFault) = write_reply_head(&job.head.key, out) {
        return Err(JobStop::WriteFault);
    }
    match work.run(&job.head.key, job.head.budget, out) {
        Ok(count) => match write_end(count, out) {
            Ok(()) => Ok(count),
            Err(WriteFault) => Err(JobStop::WriteFault),
        },
        Err(WorkStop::Overflow(overflow)) => match write_passed(&overflow, out) {
            Ok(()) => Err(JobStop::Overflow(overflow)),
            Err(WriteFault) => Err(JobStop::WriteFault),
        },
        Err(WorkStop::WriteFault) => Err(JobStop::WriteFault),
    }
}

// A reply of nothing but its first line and the overflow.
fn pass<O: Sink>(job: &Job, overflow: Overflow, out: &mut O) -> Result<Count, JobStop>
    requires file { IsOfAFile job.now }
    requires due { IsDueInJob job.now overflow }
    ensures ends { EndsJob job.now (O.written out.old) (O.written out.new) (out.new ≡ out.old) result }
    ensures cause { RisesAt JobStop.WriteFault (O.faults out.old) (O.faults out.new) result }
{
    match write_alone(job, &overflow, out) {
        Ok(()) => Err(JobStop::Overflow(overflow)),
        Err(WriteFault) => Err(JobStop::WriteFault),
    }
}

// A reply of nothing but its first line and that there was no memory.
fn starve<O: Sink>(job: &Job, out: &mut O) -> Result<Count, JobStop>
    requires head { HasHeadText job.now.head }
    ensures ends { EndsJob job.now (O.written out.old) (O.written out.new) (out.new ≡ out.old) result }
    ensures cause { RisesAt JobStop.WriteFault (O.faults out.old) (O.faults out.new) result }
{
    match write_starved(job, out) {
        Ok(()) => Err(JobStop::Memory),
        Err(WriteFault) => Err(JobStop::WriteFault),
    }
}

// The first line of the reply, and the last.
fn write_starved<O: Sink>(job: &Job, out: &mut O) -> Result<(), WriteFault>
    ensures { Prints O.Sink out.old out.new result (reply_head job.now.head.key ++ tail_text Starved) }
{
    write_reply_head(&job.head.key, out)?;
    write_tail(&Tail::Memory, out)
}

// The last line of a run that ended.
fn write_end<O: Sink>(count: Count, out: &mut O) -> Result<(), WriteFault>
    ensures { Prints O.Sink out.old out.new result (tail_text (End count)) }
{
    write_tail(&Tail::End(count), out)
}

// The last line of a run that an overflow stopped. A key's labels ascend, and it has room for them.
fn write_passed<O: Sink>(overflow: &Overflow, out: &mut O) -> Result<(), WriteFault>
    ensures prints { Prints O.Sink out.old out.new result (tail_text (Passing overflow.now)) }
    ensures key { IsKey overflow.now.key }
{
    let _labels = overflow.key.labels();
    write_tail(&Tail::Overflow(*overflow), out)
}

// The first line of the reply, and the last: the overflow.
fn write_alone<O: Sink>(job: &Job, overflow: &Overflow, out: &mut O) -> Result<(), WriteFault>
    ensures prints { Prints O.Sink out.old out.new result (reply_head job.now.head.key ++ tail_text (Passing overflow.now)) }
    ensures key { IsKey overflow.now.key }
{
    let _labels = overflow.key.labels();
    write_reply_head(&job.head.key, out)?;
    write_passed(overflow, out)
}
