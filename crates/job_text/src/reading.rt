//! Reads job texts.
ghost use Rattle.std.specs.Prelude.{◌≡◌, ℕ, IfOk, IsErrOf};
ghost use Rattle.job_text.specs.Jobs.{IsBadText, IsJobText};

use crate::head::head_behind;
use crate::lines::{has_size, size_behind};
use crate::{Job, JobReadStop};
use poly_reader::{ParseStop, poly_of};
use std::alloc::Global;

/// The job of a text. Whether the root and the key are ones of the work is not judged.
pub fn read_job(alloc: Global, text: &[u8]) -> Result<Job, JobReadStop>
    ensures ok { IfOk result (λ job. IsJobText job text.now) }
    ensures bad { (place : ℕ) → IsErrOf result (JobReadStop.Bad place) → IsBadText text.now place }
{
    let (head, rest) = match head_behind(text) {
        Ok(found) => found,
        Err(place) => return Err(JobReadStop::Bad { place }),
    };
    let (size, file) = match size_behind(rest) {
        Some(found) => found,
        None => return Err(JobReadStop::Bad { place: 6 }),
    };
    if !has_size(file, size) {
        return Err(JobReadStop::Bad { place: 7 });
    }
    match poly_of(alloc, file) {
        Ok(poly) => Ok(Job { head, poly }),
        Err(ParseStop::Bad(_)) => Err(JobReadStop::Bad { place: 7 }),
        Err(ParseStop::Memory) => Err(JobReadStop::Memory),
    }
}
