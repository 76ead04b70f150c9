//! The law that each file has one layout.
ghost use Rattle.std.specs.Prelude.{List, ℕ};
ghost use Rattle.job_ledger.specs.Records.{HasOneLayout};

/// A file is empty, or has one list of records, or has one first record that is broken, and not two of these: so what the
/// clauses of a ledger say by relations is one total reading of the file's bytes.
pub fn one_layout()
    ensures { (file : List ℕ) → HasOneLayout file }
{}
