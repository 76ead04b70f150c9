//! What came for an attempt.
use job_text::Reply;

/// What came for an attempt. The rows of a reply stay in the bytes that came.
#[derive(Drop)]
pub enum Event<'a> {
    /// A whole reply of its job.
    Answer { attempt: u64, reply: Reply<'a> },
    /// No whole reply: other bytes, or its start or the attempt failed.
    Lost { attempt: u64 },
}
