//! Why a call of a ledger stopped.
ghost use Rattle.std.specs.Prelude.{◌≡◌};

use poly_io::Failed;
use std::alloc::{AllocError, AllocFailed};

/// Why a call of a ledger was refused.
#[derive(Clone, Copy, Debug, PartialEq, Eq)]
pub enum LedgerStop {
    /// The file is empty, or its first gate is closed.
    NoRun,
    /// The first gate is open.
    HasRun,
    /// The first record whose layout is broken, counted from 1.
    BadLedger { place: u64 },
    /// With the next record the file would have `need` bytes (2^64 - 1 where that is less), and may have `limit`.
    LedgerLimit { need: u64, limit: u64 },
    /// A call of the disk failed. The ledger is given up.
    DiskFault,
    /// Memory was refused.
    Memory,
}

impl From<Failed> for LedgerStop {
    ghost use Rattle.job_ledger.specs.declared.stop.LedgerStop.TheVariants.{DiskFault};
    ghost use Rattle.std.specs.Prelude.{◌≡◌};

    ghost from_gives = { λ _ e. e ≡ DiskFault };

    fn from(_: Failed) -> LedgerStop {
        LedgerStop::DiskFault
    }
}

impl From<AllocError> for LedgerStop {
    ghost use Rattle.job_ledger.specs.declared.stop.LedgerStop.TheVariants.{Memory};
    ghost use Rattle.std.specs.Prelude.{◌≡◌};

    ghost from_gives = { λ _ e. e ≡ Memory };

    fn from(_: AllocError) -> LedgerStop {
        LedgerStop::Memory
    }
}

impl<T: Drop> From<AllocFailed<T>> for LedgerStop {
    ghost use Rattle.job_ledger.specs.declared.stop.LedgerStop.TheVariants.{Memory};
    ghost use Rattle.std.specs.Prelude.{◌≡◌};

    ghost from_gives = { λ _ e. e ≡ Memory };

    fn from(_: AllocFailed<T>) -> LedgerStop {
        LedgerStop::Memory
    }
}
