//! Laws of the texts: functions with an empty body.
ghost use Rattle.std.specs.Prelude.{List, ℕ};
ghost use Rattle.poly_model.specs.Systems.{Polyhedron};
ghost use Rattle.job_text.specs.Laws.{EndsWhole, HasTextOfOverflows, IsJobOrBad, IsOneFirstPayload, IsOneJob, IsOneReply, IsShortJob};

/// No whole reply is a proper prefix of another: so a reply that ends in the middle is never taken for a shorter one.
pub fn no_proper_prefix()
    ensures { (n : ℕ) (text more : List ℕ) → EndsWhole n text more }
{}

/// A text is the text of one whole reply, for files with rows of n numbers.
pub fn one_reply()
    ensures { (n : ℕ) (text : List ℕ) → IsOneReply n text }
{}

/// A text is the text of one job.
pub fn one_job()
    ensures { (text : List ℕ) → IsOneJob text }
{}

/// A text is a job, or is bad at a place: never both, and at one place only.
pub fn job_or_bad()
    ensures { (text : List ℕ) → IsJobOrBad text }
{}

/// A job text has at most `MOST_JOB_BYTES` bytes.
pub fn jobs_are_short()
    ensures { (text : List ℕ) → IsShortJob text }
{}

/// Each overflow of a polyhedron has a text that is read again.
pub fn overflows_have_texts()
    ensures { (p : Polyhedron) → HasTextOfOverflows p }
{}

/// The first payload of a ledger is that of one search.
pub fn one_first_payload()
    ensures { (payload : List ℕ) → IsOneFirstPayload payload }
{}
