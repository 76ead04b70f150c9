//! Why a call on the records of a run stopped.
use poly_io::WriteFault;
use std::alloc::{AllocError, AllocFailed};

/// Why the recorded rows were not printed to the end.
#[derive(Clone, Copy, PartialEq, Eq, Debug)]
pub enum PrintStop {
    /// The record of this number, from 1, is no reply that ends in `end`.
    BadLedger { place: u64 },
    /// A call of the disk failed.
    DiskFault,
    /// A write failed.
    WriteFault,
    /// There is no memory.
    Memory,
}

/// Why a run was not read from its ledger.
#[derive(Clone, Copy, PartialEq, Eq, Debug)]
pub enum ReopenStop {
    /// The file is empty, or its first gate is closed.
    NoRun,
    /// The first record that breaks the ledger text, counted from 1: by its layout or, where no layout is broken, by
    /// its payload.
    BadLedger { place: u64 },
    /// A call of the disk failed.
    DiskFault,
    /// There is no memory.
    Memory,
}

/// Why it is not told how far a run is.
#[derive(Clone, Copy, PartialEq, Eq, Debug)]
pub enum StatusStop {
    /// The file is empty, or its first gate is closed.
    NoRun,
    /// The first record that breaks the ledger text, as in `ReopenStop`.
    BadLedger { place: u64 },
    /// A call of the disk failed.
    DiskFault,
    /// A write failed.
    WriteFault,
    /// There is no memory.
    Memory,
}

impl From<WriteFault> for PrintStop {
    ghost use Rattle.run_ledger.specs.declared.stops.PrintStop.TheVariants.{WriteFault as Fault};
    ghost use Rattle.std.specs.Prelude.{◌≡◌};

    ghost from_gives = { λ _ e. e ≡ Fault };

    fn from(_: WriteFault) -> PrintStop {
        PrintStop::WriteFault
    }
}

impl From<AllocError> for PrintStop {
    ghost use Rattle.run_ledger.specs.declared.stops.PrintStop.TheVariants.{Memory};
    ghost use Rattle.std.specs.Prelude.{◌≡◌};

    ghost from_gives = { λ _ e. e ≡ Memory };

    fn from(_: AllocError) -> PrintStop {
        PrintStop::Memory
    }
}

impl<T: Drop> From<AllocFailed<T>> for PrintStop {
    ghost use Rattle.run_ledger.specs.declared.stops.PrintStop.TheVariants.{Memory};
    ghost use Rattle.std.specs.Prelude.{◌≡◌};

    ghost from_gives = { λ _ e. e ≡ Memory };

    fn from(_: AllocFailed<T>) -> PrintStop {
        PrintStop::Memory
    }
}
