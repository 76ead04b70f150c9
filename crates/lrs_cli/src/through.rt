//! `convert` with a buffer in front of the output.
ghost use Rattle.std.specs.Prelude.{◌≡◌, ◌+◌, OnOk, OnErr};
ghost use Rattle.poly_io.specs.Taken.{TakesAtMost};
ghost use Rattle.poly_reader.specs.Limits.{most_file_bytes};
ghost use Rattle.lrs_cli.specs.Convert.{AnswersConvert};
ghost use Rattle.lrs_cli.specs.Streams.{streams_at};

use crate::convert::convert;
use crate::status::Status;
use buffered_sink::{Base, Buffered};
use poly_io::{Sink, Source, WriteFault};
use std::alloc::Global;
use std::marker::Brand;

/// Reads a file to its end and prints its listing, in large pieces; gives the sink back.
pub fn convert_through<I: Source, O: Sink>(alloc: Global, input: &mut I, out: O) -> (Status, O)
    ensures line { result.0 ≡ Status.Usage → ⊥ }
    ensures answers { AnswersConvert
        (streams_at I.Source O.Sink input.old out) (streams_at I.Source O.Sink input.new result.1)
        (result.1 ≡ out) result.0 }
    ensures taken { TakesAtMost (I.left input.old) (I.left input.new) (most_file_bytes + 1) }
{
    convert_over::<Brand, I, O>(alloc, input, out)
}

// The base is what the sink has written at this call.
fn convert_over<B: Base, I: Source, O: Sink>(alloc: Global, input: &mut I, out: O) -> (Status, O)
    requires { B.base ≡ O.written out }
    ensures line { result.0 ≡ Status.Usage → ⊥ }
    ensures answers { AnswersConvert
        (streams_at I.Source O.Sink input.old out) (streams_at I.Source O.Sink input.new result.1)
        (result.1 ≡ out) result.0 }
    ensures taken { TakesAtMost (I.left input.old) (I.left input.new) (most_file_bytes + 1) }
{
    let mut sink = Buffered::<B, O>::new(out);
    let status = convert(alloc, input, &mut sink);
    let (out, end) = sink.finish();
    (ended(status, end), out)
}

/// A fault at the end of the output is a write fault.
pub(crate) fn ended(status: Status, end: Result<(), WriteFault>) -> Status
    ensures ok { OnOk end (result ≡ status) }
    ensures err { OnErr end (result ≡ Status.WriteFault) }
{
    match end {
        Ok(()) => status,
        Err(WriteFault) => Status::WriteFault,
    }
}
