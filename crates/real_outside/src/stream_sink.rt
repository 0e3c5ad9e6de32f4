// A writer of the system as a sink.
ghost use Rattle.std.specs.Prelude.{◌≡◌, ◌<◌, length, IfOk};
ghost use Rattle.either.specs.declared.Either.TheVariants.{Right};
ghost use Rattle.std.specs.Io.{WritesAtMost};
ghost use Rattle.std.specs.Io.KnownBytes.{WriteAppends};

use crate::cause::{Cause, told};
use crate::fault_count::Faults;
use edge_io::{Failed, Sink};
use either::Either;
use std::fs::File;
use std::io;
use std::io::{ErrorKind, Stdout, Write};

/// Where the program's output goes: to the system's standard output, or into a file that has no name yet.
pub type Outlet = Either<Stdout, File>;

/// Writes to `stream`, and counts the writes that fail.
#[derive(Drop)]
pub struct StreamSink<W> {
    stream: W,
    name: &'static str,
    faults: Faults,
}

impl<W: Write> StreamSink<W> {
    /// A sink over this writer, which has not failed yet. A cause calls it by this name.
    pub fn new(stream: W, name: &'static str) -> Self {
        StreamSink {
            stream,
            name,
            faults: Faults::new(),
        }
    }

    /// Why the last write that failed did so.
    pub fn cause(&self) -> Option<&Cause> {
        self.faults.cause.as_ref()
    }

    // The writer, and why the last write that failed did so.
    pub(crate) fn into_parts(self) -> (W, Option<Cause>) {
        (self.stream, self.faults.cause)
    }
}

impl StreamSink<Outlet> {
    // A sink over this file, which does not tell what was written.
    pub(crate) fn to_file(file: File, name: &'static str) -> Self
        ensures { result.stream ≡ Right file }
    {
        StreamSink {
            stream: Either::Right(file),
            name,
            faults: Faults::new(),
        }
    }
}

impl<W: Write> Sink for StreamSink<W> {
    ghost seen = { λ s. record { told = W.contents s.stream; faults = s.faults.count } };

    /// One write of the whole piece, of which the writer may take a part.
    fn write(&mut self, piece: &[u8]) -> Result<usize, Failed> {
        let result = write_retried(&mut self.stream, piece);
        self.faults.counted(told("write", self.name, result))
    }
}

// One write, begun again as often as a signal interrupts it. A writer that takes nothing of a piece that is not empty
// has failed.
fn write_retried<W: Write>(stream: &mut W, piece: &[u8]) -> io::Result<usize>
    ensures bound { WritesAtMost result piece.now }
    ensures some { IfOk result (λ count. 0 < length piece.now → 0 < count) }
    ensures bytes { WriteAppends (W.contents stream.old) (W.contents stream.new) result piece.now }
{
    for _ in 0..u64::MAX {
        match stream.write(piece) {
            Err(error) if error.kind() == ErrorKind::Interrupted => {}
            Ok(0) if !piece.is_empty() => return Err(io::Error::from(ErrorKind::WriteZero)),
            result => return result,
        }
    }
    Err(io::Error::from(ErrorKind::Interrupted))
}
