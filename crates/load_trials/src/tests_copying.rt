//! `testr last --subunit` of a run of several pieces.

use crate::runs::front;
use edge_io::MemShelf;
use std::alloc::Global;
use std::process::Abort;
use std::sync::Wait;
use std::test::Fail;
use std::thread::Threads;
use trial_calls::{CallOutcome, NOTHING, SHELF_FAULT, call_over, put, repository, source};

const SINK_FAULT: &[u8] = b"testr: fault writing output\n";

// A run of 200,000 bytes: three whole pieces, and a part of one. It is copied as it is, so it need not be packets.
fn long_run(alloc: Global) -> Result<Vec<u8>, Fail> {
    let mut run = Vec::new(alloc);
    fill(&mut run)?;
    Ok(run)
}

fn fill(run: &mut Vec<u8>) -> Result<(), Fail> {
    for _ in 0..20_000 {
        run.extend_from_slice(b"0123456789")?;
    }
    Ok(())
}

// A repository of this run, whose folder fails at these calls.
fn shelf_of(alloc: Global, run: &[u8], fails: &[u64]) -> Result<MemShelf, Fail> {
    let mut shelf = repository(alloc, fails)?;
    put(alloc, &mut shelf, b"0", run)?;
    Ok(shelf)
}

// Copies the run to a sink that fails at these writes.
fn copy_from<R: Threads + Wait + Sync + AllocGlobal>(
    rt: &R,
    shelf: &mut MemShelf,
    fails: &[u64],
) -> Result<CallOutcome, Fail> {
    let mut input = source(rt.alloc(), NOTHING, 1, &[])?;
    let words = ["testr", "last", "--subunit"];
    call_over(rt, &words, shelf, &mut input, fails, &[])
}

// Copies the run out of a folder and to a sink that fail at these calls.
fn copy_of<R: Threads + Wait + Sync + AllocGlobal>(
    rt: &R,
    run: &[u8],
    shelf_fails: &[u64],
    out_fails: &[u64],
) -> Result<CallOutcome, Fail> {
    let mut shelf = shelf_of(rt.alloc(), run, shelf_fails)?;
    copy_from(rt, &mut shelf, out_fails)
}

// Whether the first bytes of the run, so many, are copied whole.
fn copies_whole<R: Threads + Wait + Sync + AllocGlobal>(
    rt: &R,
    run: &[u8],
    size: usize,
) -> Result<bool, Fail> {
    let part = front(run, size);
    Ok(copy_of(rt, part, &[], &[])?.is(0, part, NOTHING))
}

fn copies_all<R: Threads + Wait + Sync + AllocGlobal + Abort>(
    rt: &R,
    run: &[u8],
) -> Result<(), Fail> {
    for size in [0usize, 65_535, 65_536, 65_537, 131_072, 200_000] {
        assert!(rt; copies_whole(rt, run, size)?, "{size}");
    }
    Ok(())
}

#[test]
fn a_long_run_is_copied_whole(rt: HostRuntime) -> Result<(), Fail> {
    let run = long_run(rt.alloc())?;
    copies_all(&rt, &run)
}

// Whether a copy with these faults gives so many bytes, and this line.
fn copies_part<R: Threads + Wait + Sync + AllocGlobal>(
    rt: &R,
    run: &[u8],
    shelf_fails: &[u64],
    out_fails: &[u64],
    taken: usize,
    line: &[u8],
) -> Result<bool, Fail> {
    let told = copy_of(rt, run, shelf_fails, out_fails)?;
    Ok(told.is(4, front(run, taken), line))
}

fn stops_at_writes<R: Threads + Wait + Sync + AllocGlobal + Abort>(
    rt: &R,
    run: &[u8],
) -> Result<(), Fail> {
    for (write, taken) in [(0u64, 0usize), (1, 65_536), (3, 196_608)] {
        assert!(rt;
            copies_part(rt, run, &[], &[write], taken, SINK_FAULT)?,
            "{write}"
        );
    }
    Ok(())
}

#[test]
fn a_sink_that_fails_has_the_pieces_before(rt: HostRuntime) -> Result<(), Fail> {
    let run = long_run(rt.alloc())?;
    stops_at_writes(&rt, &run)
}

fn stops_at_calls<R: Threads + Wait + Sync + AllocGlobal + Abort>(
    rt: &R,
    run: &[u8],
) -> Result<(), Fail> {
    // The barrier, the length of `format`, its bytes and the names come first.
    for (call, taken) in [(4u64, 0usize), (5, 65_536), (7, 196_608)] {
        assert!(rt;
            copies_part(rt, run, &[call], &[], taken, SHELF_FAULT)?,
            "{call}"
        );
    }
    Ok(())
}

#[test]
fn a_folder_that_fails_leaves_the_pieces_before(rt: HostRuntime) -> Result<(), Fail> {
    let run = long_run(rt.alloc())?;
    stops_at_calls(&rt, &run)
}
