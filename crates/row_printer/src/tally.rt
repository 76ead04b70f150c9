//! How many rows were printed, and how large their entries are together.
ghost use Rattle.std.specs.Prelude.{◌<◌, ◌^◌};

/// Rows that were counted.
#[derive(Clone, Copy, PartialEq, Eq, Debug)]
pub struct Tally {
    /// How many they are; the number stands still at `2^64 - 1`.
    pub rows: u64,
    /// The sum of the sizes of all entries of their vectors, modulo `2^64`.
    pub sum: u64,
    ghost few: { rows < 2 ^ 64 },
    ghost small: { sum < 2 ^ 64 },
}
