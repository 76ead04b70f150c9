//! The first five lines of a job text: its work, root, key and budget.
ghost use Rattle.std.specs.Prelude.{◌≡◌, ◌++◌, ◌∷◌, ℕ, List, Some, IfOk, IfErr};
ghost use Rattle.plain_text.specs.Digits.{capped, decimal_of};
ghost use Rattle.job_text.specs.Jobs.{HasHeadText, IsBadLine, five_lines, input_line};

use crate::JobHead;
use crate::lines::{count_behind, key_behind, size_behind, work_behind};
use poly_model::Root;
use work_core::{Budget, MOST_BASES, MOST_DEPTH};

/// What five lines say, and what stands behind them; or the number of the first that has not its form.
pub(crate) fn head_behind(text: &[u8]) -> Result<(JobHead, &[u8]), u64>
    ensures ok { IfOk result (λ r. HasHeadText r.0 × (text.now ≡ five_lines r.0 r.1.now)) }
    ensures err { IfErr result (λ place. IsBadLine text.now place) }
{
    let (work, text) = match work_behind(text) {
        Some(found) => found,
        None => return Err(1),
    };
    let (root, text) = match key_behind(text, b"root ") {
        Some(found) => found,
        None => return Err(2),
    };
    let (key, text) = match key_behind(text, b"key ") {
        Some(found) => found,
        None => return Err(3),
    };
    let (bases, text) = match count_behind(text, b"bases ", 1, MOST_BASES) {
        Some(found) => found,
        None => return Err(4),
    };
    let (depth, text) = match count_behind(text, b"depth ", 0, MOST_DEPTH) {
        Some(found) => found,
        None => return Err(5),
    };
    let head = JobHead {
        work,
        root: Root::new(root),
        key,
        budget: Budget { bases, depth },
    };
    Ok((head, text))
}
