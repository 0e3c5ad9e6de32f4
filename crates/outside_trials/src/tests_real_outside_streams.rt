// Which calls a source and a sink make of their reader and writer.
ghost use Rattle.std.specs.Prelude.{◌≤◌, IfOk};

use edge_io::{Failed, Sink, Source};
use real_outside::{StreamSink, StreamSource};
use std::io;
use std::io::{ErrorKind, Read, Write};
use std::process::Abort;

// A device whose first call is interrupted. The second one moves up to three bytes, the third none, and the rest fail.
#[derive(Drop)]
struct Device {
    calls: u32,
}

impl Device {
    fn turn(&mut self, room: usize) -> io::Result<usize>
        ensures { IfOk result (λ count. count ≤ room) }
    {
        self.calls = self.calls.saturating_add(1);
        match self.calls {
            1 => Err(io::Error::from(ErrorKind::Interrupted)),
            2 => Ok(room.min(3)),
            3 => Ok(0),
            _ => Err(io::Error::from(ErrorKind::BrokenPipe)),
        }
    }
}

impl Read for Device {
    fn read(&mut self, buf: &mut [u8]) -> io::Result<usize> {
        let count = self.turn(buf.len())?;
        buf[..count].fill(b'x');
        Ok(count)
    }
}

impl Write for Device {
    fn write(&mut self, buf: &[u8]) -> io::Result<usize> {
        self.turn(buf.len())
    }

    fn flush(&mut self) -> io::Result<()> {
        Ok(())
    }
}

fn check_reads(rt: &impl Abort, source: &mut StreamSource<Device>) {
    let mut buf = [0u8; 5];
    assert_eq!(rt; source.read(&mut buf), Ok(3));
    assert_eq!(rt; buf, *b"xxx\0\0");
    assert_eq!(rt; source.read(&mut buf), Ok(0));
    assert_eq!(rt; source.read(&mut buf), Err(Failed));
}

#[test]
fn an_interrupted_read_is_begun_again(rt: HostRuntime) {
    let mut source = StreamSource::new(Device { calls: 0 }, "device");
    check_reads(&rt, &mut source);
}

fn check_writes(rt: &impl Abort, sink: &mut StreamSink<Device>) {
    assert_eq!(rt; sink.write(b"tested"), Ok(3));
    assert_eq!(rt; sink.write(b"ted"), Err(Failed));
    assert_eq!(rt; sink.write(b"ted"), Err(Failed));
}

#[test]
fn a_write_that_takes_nothing_fails(rt: HostRuntime) {
    let mut sink = StreamSink::new(Device { calls: 0 }, "device");
    check_writes(&rt, &mut sink);
}

fn check_empty_write(rt: &impl Abort, sink: &mut StreamSink<Device>) {
    assert_eq!(rt; sink.write(b""), Ok(0));
}

#[test]
fn an_empty_piece_is_taken(rt: HostRuntime) {
    let mut sink = StreamSink::new(Device { calls: 2 }, "device");
    check_empty_write(&rt, &mut sink);
}
