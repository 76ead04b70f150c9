//! The lines that a run writes.
ghost use Rattle.std.specs.Prelude.{codes, ◌≡◌, ◌≤◌, ◌<◌, ◌+◌, ◌++◌, [], ◌∷◌, ℕ, pos, length, IfOk, OnOk, OnErr, IsErrOf};
ghost use Rattle.std.specs.List.{slice_index_or};
ghost use Rattle.std.specs.Io.KnownBytes.{Appends};
ghost use Rattle.poly_io.specs.Causes.{Rose};
ghost use Rattle.poly_io.specs.Written.{AppendsPart, Prints};
ghost use Rattle.poly_num.specs.Numbers.{IsNum};
ghost use Rattle.poly_model.specs.Keys.{IsKey};
ghost use Rattle.poly_model.specs.declared.overflow.Overflow.{Overflow as Passed};
ghost use Rattle.work_core.specs.ReplyLines.{row_line_text, job_line_text};
ghost use Rattle.work_core.specs.Splits.{most_lines};

use crate::WorkStop;
use crate::counting::one_job;
use poly_io::{Sink, WriteFault, write_all};
use poly_model::{Count, Key};
use poly_num::Num;
use row_printer::{write_key, write_vector};

// Each entry has 127 bits and a sign. A call of this tells the proofs of the caller.
fn are_numbers(v: &[Num])
    ensures { (i : ℕ) → i < length v.now → IsNum (slice_index_or v.now i (pos 0)) }
{
    'entries: for i in 0..v.len() {
        let _entry = v[i].get();
    }
}

/// Writes a `row` line: the entries of a vector, each after a blank.
pub fn write_row<S: Sink>(v: &[Num], out: &mut S) -> Result<(), WriteFault>
    ensures prints { Prints S.Sink out.old out.new result (row_line_text v.now) }
    ensures numbers { (i : ℕ) → i < length v.now → IsNum (slice_index_or v.now i (pos 0)) }
{
    are_numbers(v);
    write_all(out, b"row")?;
    write_vector(v, out)
}

/// Writes a `job` line: a key that is given back.
pub fn write_given<S: Sink>(key: &Key, out: &mut S) -> Result<(), WriteFault>
    ensures prints { Prints S.Sink out.old out.new result (job_line_text key.now) }
    ensures key { IsKey key.now }
{
    // a key's labels ascend, and it has room for them
    let _labels = key.labels();
    write_all(out, b"job ")?;
    write_key(key, out)?;
    write_all(out, b"\n")
}

/// Gives a key back.
pub fn give_back<S: Sink>(key: &Key, count: Count, out: &mut S) -> Result<Count, WorkStop>
    requires few { count.jobs < most_lines }
    ensures whole { OnOk result (Appends (S.written out.old) (S.written out.new) (job_line_text key.now)) }
    ensures part { OnErr result (AppendsPart (S.written out.old) (S.written out.new) (job_line_text key.now)) }
    ensures key { IsKey key.now }
    ensures rows { IfOk result (λ d. d.rows ≡ count.rows) }
    ensures jobs { IfOk result (λ d. d.jobs ≡ count.jobs + 1) }
    ensures bases { IfOk result (λ d. d.bases ≡ count.bases) }
    ensures overflow { (o : Passed) → IsErrOf result (WorkStop.Overflow o) → ⊥ }
    ensures later { S.faults out.old ≤ S.faults out.new }
    ensures fault { IsErrOf result WorkStop.WriteFault → Rose (S.faults out.old) (S.faults out.new) }
    ensures same { ¬ (IsErrOf result WorkStop.WriteFault) → S.faults out.new ≡ S.faults out.old }
{
    match write_given(key, out) {
        Ok(()) => Ok(one_job(count)),
        Err(WriteFault) => Err(WorkStop::WriteFault),
    }
}
