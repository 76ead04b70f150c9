//! How large inputs may be.

/// The most columns of a row: one more than the greatest dimension.
pub const MOST_COLUMNS: u32 = 512;

/// The most rows of a file.
pub const MOST_FILE_ROWS: u32 = 4096;

/// The most rows of a cone: those of a file, and at most one that is added for each column.
pub const MOST_CONE_ROWS: u32 = MOST_FILE_ROWS + MOST_COLUMNS;

/// The most labels of a key.
pub const MOST_LABELS: usize = 512;
