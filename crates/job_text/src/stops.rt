//! Why a text was not read.

use std::alloc::{AllocError, AllocFailed};

/// Why a job text was not read.
#[derive(Clone, Copy, PartialEq, Eq, Debug)]
pub enum JobReadStop {
    /// The first line that has not its form, from 1 to 6, or 7 for what stands behind them.
    Bad { place: u64 },
    /// The memory was refused.
    Memory,
}

/// Why a reply was not read.
#[derive(Clone, Copy, PartialEq, Eq, Debug)]
pub enum ReplyStop {
    /// It is no whole reply: so many of its bytes are lines, from the first, that fit.
    NotWhole { place: u64 },
    /// The memory was refused.
    Memory,
}

/// Why a payload of a ledger was not read.
#[derive(Clone, Copy, PartialEq, Eq, Debug)]
pub enum PayloadStop {
    /// It has not the form of such a payload.
    Bad,
    /// The memory was refused.
    Memory,
}

/// A text is not what is left of a reply that ends in `end`.
#[derive(Clone, Copy, PartialEq, Eq, Debug)]
pub struct BadReply;

impl From<AllocError> for ReplyStop {
    ghost use Rattle.job_text.specs.declared.stops.ReplyStop.TheVariants.{Memory};
    ghost use Rattle.std.specs.Prelude.{◌≡◌};

    ghost from_gives = { λ _ e. e ≡ Memory };

    fn from(_: AllocError) -> ReplyStop {
        ReplyStop::Memory
    }
}

impl<T: Drop> From<AllocFailed<T>> for ReplyStop {
    ghost use Rattle.job_text.specs.declared.stops.ReplyStop.TheVariants.{Memory};
    ghost use Rattle.std.specs.Prelude.{◌≡◌};

    ghost from_gives = { λ _ e. e ≡ Memory };

    fn from(_: AllocFailed<T>) -> ReplyStop {
        ReplyStop::Memory
    }
}
