// A reader of the system as a source.
ghost use Rattle.std.specs.Io.{ReadsAtMost};
ghost use Rattle.std.specs.Io.KnownBytes.{ReadConsumes};

use crate::cause::{Cause, told};
use crate::fault_count::Faults;
use edge_io::{Failed, Source};
use std::io;
use std::io::{ErrorKind, Read};

/// Reads from `stream`, and counts the reads that fail.
#[derive(Drop)]
pub struct StreamSource<R> {
    stream: R,
    name: &'static str,
    faults: Faults,
}

impl<R: Read> StreamSource<R> {
    /// A source over this reader, which has not failed yet. A cause calls it by this name.
    pub fn new(stream: R, name: &'static str) -> Self {
        StreamSource {
            stream,
            name,
            faults: Faults::new(),
        }
    }

    /// Why the last read that failed did so.
    pub fn cause(&self) -> Option<&Cause> {
        self.faults.cause.as_ref()
    }
}

impl<R: Read> Source for StreamSource<R> {
    ghost seen = { λ s. record { told = R.remaining s.stream; faults = s.faults.count } };

    /// One read straight into `buf`.
    fn read(&mut self, buf: &mut [u8]) -> Result<usize, Failed> {
        let result = read_retried(&mut self.stream, buf);
        self.faults.counted(told("read", self.name, result))
    }
}

/// One read, begun again as often as a signal interrupts it.
pub fn read_retried<R: Read>(stream: &mut R, buf: &mut [u8]) -> io::Result<usize>
    ensures bound { ReadsAtMost result buf.new }
    ensures bytes { ReadConsumes (R.remaining stream.old) (R.remaining stream.new) result buf.new }
{
    for _ in 0..u64::MAX {
        match stream.read(buf) {
            Err(error) if error.kind() == ErrorKind::Interrupted => {}
            result => return result,
        }
    }
    Err(io::Error::from(ErrorKind::Interrupted))
}
