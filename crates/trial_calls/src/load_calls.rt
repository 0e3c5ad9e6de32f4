//! Calls of the program that read an input, and whether they tell what they should.
//!
//! What is wanted of a call is the status, the bytes of the output, and those of the sink of errors.

use crate::call_outcome::CallOutcome;
use crate::calls::{call, source};
use edge_io::{ListSource, MemShelf, Shelf};
use std::sync::Wait;
use std::test::Fail;
use std::thread::Threads;

/// `testr load` of this input.
pub fn load<R: Threads + Wait + Sync + AllocGlobal, H: Shelf>(
    rt: &R,
    shelf: &mut H,
    input: &[u8],
) -> Result<CallOutcome, Fail> {
    let mut input = source(rt.alloc(), input, 65_536, &[])?;
    call(rt, &["testr", "load"], shelf, &mut input)
}

/// Whether `testr load` of these bytes tells this.
pub fn loads<R: Threads + Wait + Sync + AllocGlobal>(
    rt: &R,
    shelf: &mut MemShelf,
    bytes: &[u8],
    wanted: (u8, &[u8], &[u8]),
) -> Result<bool, Fail> {
    let (status, out, err) = wanted;
    Ok(load(rt, shelf, bytes)?.is(status, out, err))
}

/// Whether the program tells this, over sinks that do not fail.
pub fn tells<R: Threads + Wait + Sync + AllocGlobal>(
    rt: &R,
    words: &[&str],
    shelf: &mut MemShelf,
    input: &mut ListSource,
    wanted: (u8, &[u8], &[u8]),
) -> Result<bool, Fail> {
    let (status, out, err) = wanted;
    Ok(call(rt, words, shelf, input)?.is(status, out, err))
}

/// Whether it tells this of these bytes, in pieces of this size.
pub fn tells_of<R: Threads + Wait + Sync + AllocGlobal>(
    rt: &R,
    words: &[&str],
    shelf: &mut MemShelf,
    bytes: &[u8],
    piece: usize,
    wanted: (u8, &[u8], &[u8]),
) -> Result<bool, Fail> {
    let mut input = source(rt.alloc(), bytes, piece, &[])?;
    tells(rt, words, shelf, &mut input, wanted)
}

/// Whether it tells this of these bytes, and leaves so many of them.
pub fn tells_and_leaves<R: Threads + Wait + Sync + AllocGlobal>(
    rt: &R,
    words: &[&str],
    shelf: &mut MemShelf,
    bytes: &[u8],
    piece: usize,
    wanted: (u8, &[u8], &[u8]),
    left: usize,
) -> Result<bool, Fail> {
    let mut input = source(rt.alloc(), bytes, piece, &[])?;
    Ok(tells(rt, words, shelf, &mut input, wanted)? && input.left().len() == left)
}
