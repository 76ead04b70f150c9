//! How long a job text may be.

/// A job text has at most so many bytes: its six lines have at most 8192, its file 67,108,864.
pub const MOST_JOB_BYTES: usize = 67_117_056;
