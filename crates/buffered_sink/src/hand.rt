//! Bytes handed on, with a count of those that went out.
ghost use Rattle.std.specs.Prelude.{◌≡◌, ◌≤◌, [], length, take, IsOk, OnOk};
ghost use Rattle.std.specs.Io.KnownBytes.{Appends};
ghost use Rattle.poly_io.specs.Written.{Prints};

use poly_io::{Sink, WriteFault};

/// Writes bytes until all went out or a write failed, and answers how many went out.
pub fn hand_on<S: Sink>(bytes: &[u8], out: &mut S) -> (usize, Result<(), WriteFault>)
    ensures bound { result.0 ≤ length bytes.now }
    ensures bytes { Appends (S.written out.old) (S.written out.new) (take result.0 bytes.now) }
    ensures all { OnOk result.1 (result.0 ≡ length bytes.now) }
    ensures prints { Prints S.Sink out.old out.new result.1 bytes.now }
    ensures idle { bytes.now ≡ [] → (out.new ≡ out.old) × IsOk result.1 }
{
    let mut count = 0;
    while count < bytes.len() {
        match out.write(&bytes[count..]) {
            Ok(taken) => count += taken,
            Err(_) => return (count, Err(WriteFault)),
        }
    }
    (count, Ok(()))
}
