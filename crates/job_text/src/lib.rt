//! Job texts and replies, written and read.
#![tactic(auto)]

mod ends;
mod entries;
mod first_payload;
mod fit;
mod head;
mod job;
mod keys;
mod keyword;
mod labels;
mod laws;
mod limits;
mod lines;
mod overflow;
mod reader;
mod reading;
mod reply;
mod rows;
mod said;
mod scan;
mod stops;
mod tail;
#[cfg(test)]
mod tests;
mod words;
mod writing;

pub use entries::{read_entries, zeros};
pub use first_payload::{FirstPayload, read_first_payload};
pub use job::{Job, JobHead};
pub use keys::read_key;
pub use laws::{
    job_or_bad, jobs_are_short, no_proper_prefix, one_first_payload, one_job, one_reply,
    overflows_have_texts,
};
pub use limits::MOST_JOB_BYTES;
pub use reader::ReplyReader;
pub use reading::read_job;
pub use reply::{Reply, Tail};
pub use rows::{ReplyRows, next_row, rows_behind};
pub use stops::{BadReply, JobReadStop, PayloadStop, ReplyStop};
pub use tail::write_tail;
pub use writing::{write_count_line, write_first_payload, write_job, write_reply_head};
