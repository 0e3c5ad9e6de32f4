//! A source and a sink in memory.

use crate::fields::{fails_of, field, owned_bytes};
use crate::told::{Calls, make_all, put_line, put_value};
use edge_io::{Failed, ListSink, ListSource, Sink, Source, write_whole};
use row_book::bytes_of;
use std::alloc::Global;

#[derive(Drop)]
struct Stream {
    input: ListSource,
    out: ListSink,
}

// Copies in pieces of two bytes until the end, for at most ten turns.
fn copy(input: &mut ListSource, out: &mut ListSink) -> Result<(), Failed> {
    let mut buf = [0u8; 2];
    for _ in 0..10 {
        let count = input.read(&mut buf)?;
        if count == 0 {
            break;
        }
        write_whole(out, &buf[..count])?;
    }
    Ok(())
}

// A read into a buffer with these bytes, and what stands there then.
fn read(alloc: Global, input: &mut ListSource, words: &str, said: &mut Vec<u8>) -> Option<()> {
    let mut buf = bytes_of(alloc, words)?;
    put_value(alloc, &input.read(&mut buf), said)?;
    put_line(&buf, said)
}

impl Calls for Stream {
    fn call(&mut self, alloc: Global, name: &str, words: &str, said: &mut Vec<u8>) -> Option<()> {
        match name {
            "copy" => put_value(alloc, &copy(&mut self.input, &mut self.out), said),
            "read" => read(alloc, &mut self.input, words, said),
            "write" => put_value(alloc, &self.out.write(&bytes_of(alloc, words)?), said),
            "left" => put_line(self.input.left(), said),
            "taken" => put_line(self.out.taken(), said),
            "short" => put_value(alloc, &self.out.memory_faults(), said),
            _ => None,
        }
    }
}

/// Answers calls of a source of `bytes=`, which come in pieces of at most `piece=`, and of an empty sink. These reads and
/// writes are to fail: `reads=`, `writes=`.
pub fn answer_stream(alloc: Global, words: &str, lines: &[&str], said: &mut Vec<u8>) -> Option<()> {
    let piece: usize = field(words, "piece=")?.parse().ok()?;
    if piece < 1 {
        return None;
    }
    let bytes = owned_bytes(alloc, field(words, "bytes=")?)?;
    let reads = fails_of(alloc, words, "reads=")?;
    let writes = fails_of(alloc, words, "writes=")?;
    let mut stream = Stream {
        input: ListSource::new(bytes, piece, reads),
        out: ListSink::new(alloc, writes),
    };
    make_all(alloc, &mut stream, lines, said)
}
