//! The numbers of a reply's last line.
ghost use Rattle.plain_text.specs.Texts.{IsReadOf};
ghost use Rattle.job_text.specs.Replies.{EndsAt, end_words};

use crate::words::next_count;
use poly_model::Count;
use work_core::MOST_BASES;

/// The numbers behind `end`, where so many rows and jobs were before it.
pub(crate) fn read_end(text: &[u8], rows: u64, jobs: u64) -> Option<Count>
    ensures { IsReadOf (EndsAt rows jobs) end_words text.now result }
{
    let (shown, rest) = match next_count(text) {
        Some(found) => found,
        None => return None,
    };
    let (given, rest) = match next_count(rest) {
        Some(found) => found,
        None => return None,
    };
    let (bases, rest) = match next_count(rest) {
        Some(found) => found,
        None => return None,
    };
    if shown != rows {
        return None;
    }
    if given != jobs {
        return None;
    }
    if bases == 0 {
        return None;
    }
    if bases > MOST_BASES {
        return None;
    }
    if !rest.is_empty() {
        return None;
    }
    Some(Count { rows, jobs, bases })
}
