//! Why nothing more is printed.
use linearity::PrepareStop;
use phase_one::FirstStop;
use poly_model::{OutOfMemory, Overflow};
use poly_reader::ReadStop;

/// Why there is no root, or no further cobasis.
#[derive(Clone, Copy)]
pub enum Stop {
    File,
    Inconsistent,
    Infeasible,
    Overflow,
    Memory,
}

impl Stop {
    /// What is printed for it.
    pub fn word(self) -> &'static str {
        match self {
            Stop::File => "no polyhedron",
            Stop::Inconsistent => "inconsistent",
            Stop::Infeasible => "infeasible",
            Stop::Overflow => "overflow",
            Stop::Memory => "out of memory",
        }
    }
}

impl From<ReadStop> for Stop {
    fn from(stop: ReadStop) -> Stop {
        match stop {
            ReadStop::Bad(_) | ReadStop::Fault => Stop::File,
            ReadStop::Memory => Stop::Memory,
        }
    }
}

impl From<PrepareStop> for Stop {
    fn from(stop: PrepareStop) -> Stop {
        match stop {
            PrepareStop::Inconsistent => Stop::Inconsistent,
            PrepareStop::Overflow(_) => Stop::Overflow,
            PrepareStop::Memory => Stop::Memory,
        }
    }
}

impl From<FirstStop> for Stop {
    fn from(stop: FirstStop) -> Stop {
        match stop {
            FirstStop::Infeasible => Stop::Infeasible,
            FirstStop::Overflow(_) => Stop::Overflow,
            FirstStop::Memory => Stop::Memory,
        }
    }
}

impl From<Overflow> for Stop {
    fn from(_: Overflow) -> Stop {
        Stop::Overflow
    }
}

impl From<OutOfMemory> for Stop {
    fn from(_: OutOfMemory) -> Stop {
        Stop::Memory
    }
}
