//! Calls of the program over the forms in memory.

use crate::call_outcome::CallOutcome;
use edge_io::{ListSink, ListSource, MapSite, PlanSpawner, Shelf, Spawner};
use std::alloc::Global;
use std::sync::Wait;
use std::test::Fail;
use std::thread::Threads;
use sub_number::Bytes;
use testr_cli::program;

// A loop that owns nothing, so that an early end drops nothing.
fn push_words(alloc: Global, list: &mut Vec<String>, words: &[&str]) -> Result<(), Fail> {
    for word in words {
        let word = String::from_str(alloc, word)?;
        list.push(word)?;
    }
    Ok(())
}

/// These words as owned ones.
pub fn owned(alloc: Global, words: &[&str]) -> Result<Vec<String>, Fail> {
    let mut list = Vec::new(alloc);
    push_words(alloc, &mut list, words)?;
    Ok(list)
}

/// These bytes in pieces of this size, or of one byte where it is 0. Reads of these numbers fail.
pub fn source(
    alloc: Global,
    input: &[u8],
    piece: usize,
    fails: &[u64],
) -> Result<ListSource, Fail> {
    let bytes = Bytes::new(alloc, input)?;
    Ok(ListSource::new(bytes, piece.max(1), fails.to_vec(alloc)?))
}

/// A sink that fails at these writes.
pub fn sink(alloc: Global, fails: &[u64]) -> Result<ListSink, Fail> {
    Ok(ListSink::new(alloc, fails.to_vec(alloc)?))
}

// What a call told that answered this status and wrote to these sinks.
fn told_of(alloc: Global, status: u8, out: &ListSink, err: &ListSink) -> Result<CallOutcome, Fail> {
    let out = out.taken().to_vec(alloc)?;
    let err = err.taken().to_vec(alloc)?;
    Ok(CallOutcome { status, out, err })
}

// The status that the program answers over no files and no programs.
fn status_alone<R: Threads + Wait + Sync + AllocGlobal, H: Shelf>(
    rt: &R,
    words: &[String],
    shelf: &mut H,
    input: &mut ListSource,
    out: &mut ListSink,
    err: &mut ListSink,
) -> u8 {
    let alloc = rt.alloc();
    let mut spawner = PlanSpawner::new(alloc, Vec::new(alloc), Vec::new(alloc));
    let mut site = MapSite::new(alloc, Vec::new(alloc));
    program(
        rt,
        alloc,
        words,
        shelf,
        &mut spawner,
        &mut site,
        input,
        out,
        err,
    )
}

/// Calls the program over no files and no programs, and over an output and a sink of errors that fail at these writes.
pub fn call_over<R: Threads + Wait + Sync + AllocGlobal, H: Shelf>(
    rt: &R,
    words: &[&str],
    shelf: &mut H,
    input: &mut ListSource,
    out_fails: &[u64],
    err_fails: &[u64],
) -> Result<CallOutcome, Fail> {
    let alloc = rt.alloc();
    let words = owned(alloc, words)?;
    let mut out = sink(alloc, out_fails)?;
    let mut err = sink(alloc, err_fails)?;
    let status = status_alone(rt, &words, shelf, input, &mut out, &mut err);
    told_of(alloc, status, &out, &err)
}

/// Calls the program over no files and no programs, and over sinks that do not fail.
pub fn call<R: Threads + Wait + Sync + AllocGlobal, H: Shelf>(
    rt: &R,
    words: &[&str],
    shelf: &mut H,
    input: &mut ListSource,
) -> Result<CallOutcome, Fail> {
    call_over(rt, words, shelf, input, &[], &[])
}

// The status that the program answers over an input that is not to be read.
fn status_with<R: Threads + Wait + Sync + AllocGlobal, H: Shelf, S: Spawner>(
    rt: &R,
    words: &[String],
    shelf: &mut H,
    spawner: &mut S,
    site: &mut MapSite,
    out: &mut ListSink,
    err: &mut ListSink,
) -> Result<u8, Fail> {
    let alloc = rt.alloc();
    let mut input = source(alloc, b"unread", 1, &[0])?;
    Ok(program(rt, alloc, words, shelf, spawner, site, &mut input, out, err))
}

/// Calls the program over an input that is not to be read, and an output that fails at these writes.
pub fn call_with<R: Threads + Wait + Sync + AllocGlobal, H: Shelf, S: Spawner>(
    rt: &R,
    words: &[&str],
    shelf: &mut H,
    spawner: &mut S,
    site: &mut MapSite,
    writes: &[u64],
) -> Result<CallOutcome, Fail> {
    call_beside(rt, words, shelf, spawner, site, writes, &[])
}

/// The same, over a sink of errors that fails at these writes, too.
pub fn call_beside<R: Threads + Wait + Sync + AllocGlobal, H: Shelf, S: Spawner>(
    rt: &R,
    words: &[&str],
    shelf: &mut H,
    spawner: &mut S,
    site: &mut MapSite,
    writes: &[u64],
    errors: &[u64],
) -> Result<CallOutcome, Fail> {
    let alloc = rt.alloc();
    let words = owned(alloc, words)?;
    let mut out = sink(alloc, writes)?;
    let mut err = sink(alloc, errors)?;
    let status = status_with(rt, &words, shelf, spawner, site, &mut out, &mut err)?;
    told_of(alloc, status, &out, &err)
}
