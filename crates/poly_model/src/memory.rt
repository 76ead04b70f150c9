//! Want of memory.
use std::alloc::AllocError;

/// A growth was refused: the error of a call that can fail in no other way.
pub type OutOfMemory = AllocError;
