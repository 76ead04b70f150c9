//! How long a file may be.

/// The most bytes of a file.
pub const MOST_FILE_BYTES: usize = 67_108_864;
