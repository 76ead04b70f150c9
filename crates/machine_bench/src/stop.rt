//! Why nothing more is done.
use job_text::PayloadStop;
use poly_io::{WholeStop, WriteFault};
use run_state::AcceptStop;
use std::alloc::{AllocError, AllocFailed};

/// Why nothing more is done: the text is no batch of histories, a read or a write failed, a reply is not taken, or there is
/// no memory.
#[derive(Clone, Copy, Debug)]
pub enum Stop {
    Text,
    Fault,
    Refused,
    Memory,
}

impl From<AllocError> for Stop {
    fn from(_: AllocError) -> Stop {
        Stop::Memory
    }
}

impl<T: Drop> From<AllocFailed<T>> for Stop {
    fn from(_: AllocFailed<T>) -> Stop {
        Stop::Memory
    }
}

impl From<WriteFault> for Stop {
    fn from(_: WriteFault) -> Stop {
        Stop::Fault
    }
}

impl From<WholeStop> for Stop {
    fn from(stop: WholeStop) -> Stop {
        match stop {
            WholeStop::Fault => Stop::Fault,
            WholeStop::TooLong => Stop::Text,
            WholeStop::Memory => Stop::Memory,
        }
    }
}

impl From<PayloadStop> for Stop {
    fn from(stop: PayloadStop) -> Stop {
        match stop {
            PayloadStop::Bad => Stop::Refused,
            PayloadStop::Memory => Stop::Memory,
        }
    }
}

impl From<AcceptStop> for Stop {
    fn from(stop: AcceptStop) -> Stop {
        match stop {
            AcceptStop::Memory => Stop::Memory,
            _ => Stop::Refused,
        }
    }
}
