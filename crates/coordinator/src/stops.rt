//! Why a call stopped.
ghost use Rattle.std.specs.Prelude.{◌≡◌};

use poly_model::Overflow;
use std::alloc::AllocError;

/// Why a turn was refused.
#[derive(Clone, Copy, PartialEq, Eq, Debug)]
pub enum TurnStop {
    /// A call of the disk failed.
    DiskFault,
    /// With the reply that was accepted the ledger would have `need` bytes (2^64 - 1 where that is less), and may have
    /// `limit`.
    LedgerLimit { need: u64, limit: u64 },
    /// A reply says that a product passes.
    Overflow(Overflow),
    /// Memory was refused.
    Memory,
}

impl From<AllocError> for TurnStop {
    ghost use Rattle.coordinator.specs.declared.stops.TurnStop.TheVariants.{Memory};
    ghost use Rattle.std.specs.Prelude.{◌≡◌};

    ghost from_gives = { λ _ e. e ≡ Memory };

    fn from(_: AllocError) -> TurnStop {
        TurnStop::Memory
    }
}

/// Why a call from its first action to its end was given up.
#[derive(Clone, Copy, PartialEq, Eq, Debug)]
pub(crate) enum GoStop {
    /// A record read again at the end is no reply, by its number from 1.
    BadLedger { place: u64 },
    LedgerLimit { need: u64, limit: u64 },
    Overflow(Overflow),
    /// So many losses and strays came: more together than the call allows.
    Lost { lost: u64, strays: u64 },
    DiskFault,
    WriteFault,
    Memory,
}

/// Why a new run was refused or given up.
#[derive(Clone, Copy, PartialEq, Eq, Debug)]
pub enum RunStop {
    /// The file has a run already.
    HasRun,
    /// A record that was read again at the end is no reply, by its number from 1: never over a disk that keeps its model.
    BadLedger { place: u64 },
    /// With the next record the file would have `need` bytes (2^64 - 1 where that is less), and may have `limit`.
    LedgerLimit { need: u64, limit: u64 },
    /// A product that a pivot needs passes.
    Overflow(Overflow),
    /// So many losses and strays came: more together than the call allows.
    Lost { lost: u64, strays: u64 },
    /// A call of the disk failed.
    DiskFault,
    /// A write failed.
    WriteFault,
    /// There is no memory.
    Memory,
}

/// Why a run that was to go on was refused or given up.
#[derive(Clone, Copy, PartialEq, Eq, Debug)]
pub enum ResumeStop {
    /// The file has no run.
    NoRun,
    /// The first record that breaks the ledger text, counted from 1; or at the end, over a disk that does not keep its
    /// model, one that is no reply.
    BadLedger { place: u64 },
    /// The equations of the polyhedron have no common point.
    Infeasible,
    /// With the next record the file would have `need` bytes (2^64 - 1 where that is less), and may have `limit`.
    LedgerLimit { need: u64, limit: u64 },
    /// A product that a pivot needs passes.
    Overflow(Overflow),
    /// So many losses and strays came: more together than the call allows.
    Lost { lost: u64, strays: u64 },
    /// A call of the disk failed.
    DiskFault,
    /// A write failed.
    WriteFault,
    /// There is no memory.
    Memory,
}
