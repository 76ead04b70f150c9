//! The steps that were done to a file in memory.
use poly_io::Bytes;

/// A step that changes what a crash may leave.
#[derive(Drop)]
pub enum Step {
    /// A write of so many bytes at an offset.
    Written(usize, usize),
    /// A cut to a length.
    Resized(u64),
    /// A sync, after which a crash leaves these bytes.
    Synced(Bytes),
}
