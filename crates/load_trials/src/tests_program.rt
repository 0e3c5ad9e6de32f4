//! The program over the forms in memory, with ample memory: the words, the face, and faults of the sink of errors.

use edge_io::{ListSink, ListSource, MapSite, MemShelf, PlanSpawner, Shelf};
use std::alloc::Global;
use std::process::Abort;
use std::sync::Wait;
use std::test::Fail;
use std::thread::Threads;
use testr_cli::testr;
use trial_calls::{
    CallOutcome, FOO, FOO_KEPT, NOTHING, PASSED_AS_0, WRONG_USAGE, call_over, owned, put,
    repository, sink, source, tells, tells_and_leaves, tells_of,
};

const USAGE: &[u8] = b"usage: testr COMMAND or a subunit filter\n";

const NO_COMMANDS: [(&[&str], &[u8]); 14] = [
    (&["testr", "load", "--partial=1"], WRONG_USAGE),
    (&["testr", "load", "--list"], WRONG_USAGE),
    (&["testr", "init", "x"], WRONG_USAGE),
    (&["testr", "init", "--partial"], WRONG_USAGE),
    (&["testr", "testr"], WRONG_USAGE),
    (&["testr", "runn"], WRONG_USAGE),
    (&["testr", "run", "--concurrency=064"], WRONG_USAGE),
    (&["testr", "run", "--concurrency=x"], WRONG_USAGE),
    (&["testr", ""], WRONG_USAGE),
    (&["testr"], WRONG_USAGE),
    (&["load"], USAGE),
    (&["Testr", "load"], USAGE),
    (&["", "testr", "load"], USAGE),
    (&[], USAGE),
];

// Whether these words are refused with this line, the input is not read, and there is no run.
fn are_refused<R: Threads + Wait + Sync + AllocGlobal>(
    rt: &R,
    words: &[&str],
    line: &[u8],
) -> Result<bool, Fail> {
    let mut shelf = repository(rt.alloc(), &[])?;
    let wanted = (2, NOTHING, line);
    Ok(tells_and_leaves(rt, words, &mut shelf, FOO, 5, wanted, 12)? && shelf.length("0")?.is_none())
}

#[test]
fn other_words_are_no_command(rt: HostRuntime) -> Result<(), Fail> {
    for (row, (words, line)) in NO_COMMANDS.iter().enumerate() {
        assert!(rt; are_refused(&rt, words, line)?, "row {row}");
    }
    Ok(())
}

// What the face alone answers over no files and no programs.
fn face_alone<R: Threads + Wait + Sync + AllocGlobal>(
    rt: &R,
    words: &[String],
    shelf: &mut MemShelf,
    input: &mut ListSource,
    out: &mut ListSink,
    err: &mut ListSink,
) -> u8 {
    let alloc = rt.alloc();
    let mut spawner = PlanSpawner::new(alloc, Vec::new(alloc), Vec::new(alloc));
    let mut site = MapSite::new(alloc, Vec::new(alloc));
    testr(
        rt,
        alloc,
        words,
        shelf,
        &mut spawner,
        &mut site,
        input,
        out,
        err,
    )
}

fn face<R: Threads + Wait + Sync + AllocGlobal>(
    rt: &R,
    words: &[&str],
    shelf: &mut MemShelf,
    input: &mut ListSource,
    out: &mut ListSink,
    err: &mut ListSink,
) -> Result<u8, Fail> {
    let words = owned(rt.alloc(), words)?;
    Ok(face_alone(rt, &words, shelf, input, out, err))
}

// Whether the face answers this status, and the sinks have these bytes then.
fn face_leaves<R: Threads + Wait + Sync + AllocGlobal>(
    rt: &R,
    words: &[&str],
    shelf: &mut MemShelf,
    input: &mut ListSource,
    out: &mut ListSink,
    err: &mut ListSink,
    wanted: (u8, &[u8], &[u8]),
) -> Result<bool, Fail> {
    let (status, told, line) = wanted;
    Ok(
        face(rt, words, shelf, input, out, err)? == status
            && out.taken() == told
            && err.taken() == line,
    )
}

// It takes `load`, and refuses the name of the face before it.
fn face_takes_load<R: Threads + Wait + Sync + AllocGlobal + Abort>(
    rt: &R,
    shelf: &mut MemShelf,
    input: &mut ListSource,
    out: &mut ListSink,
    err: &mut ListSink,
) -> Result<(), Fail> {
    let wanted = (0, PASSED_AS_0, NOTHING);
    assert!(rt; face_leaves(rt, &["load"], shelf, input, out, err, wanted)?);
    assert_eq!(rt; input.left().len(), 0);
    let wanted = (2, PASSED_AS_0, WRONG_USAGE);
    assert!(rt; face_leaves(rt, &["testr", "load"], shelf, input, out, err, wanted)?);
    Ok(())
}

fn face_over<R: Threads + Wait + Sync + AllocGlobal + Abort>(
    rt: &R,
    shelf: &mut MemShelf,
    input: &mut ListSource,
) -> Result<(), Fail> {
    let mut out = sink(rt.alloc(), &[])?;
    let mut err = sink(rt.alloc(), &[])?;
    face_takes_load(rt, shelf, input, &mut out, &mut err)
}

#[test]
fn the_face_alone_takes_the_words_behind_its_name(rt: HostRuntime) -> Result<(), Fail> {
    let mut shelf = repository(rt.alloc(), &[])?;
    let mut input = source(rt.alloc(), FOO, 1, &[])?;
    face_over(&rt, &mut shelf, &mut input)
}

#[test]
fn a_filters_name_leads_to_the_filters(rt: HostRuntime) -> Result<(), Fail> {
    let mut shelf = repository(rt.alloc(), &[])?;
    let text =
        b"Total tests:       1\nPassed tests:      1\nFailed tests:      0\nSkipped tests:     0\nSeen tags: \n";
    let wanted = (0, text.as_slice(), NOTHING);
    assert!(rt; tells_of(&rt, &["subunit-stats"], &mut shelf, FOO, 5, wanted)?);
    Ok(())
}

// What a load of `foo` tells over a sink of errors that fails at these writes.
fn load_over<R: Threads + Wait + Sync + AllocGlobal>(
    rt: &R,
    shelf: &mut MemShelf,
    err_fails: &[u64],
) -> Result<CallOutcome, Fail> {
    let mut input = source(rt.alloc(), FOO, 12, &[])?;
    let words = ["testr", "load"].as_slice();
    call_over(rt, words, shelf, &mut input, &[], err_fails)
}

// Whether a load that lacks run 0 answers 3, and writes a part of its line.
fn writes_a_part<R: Threads + Wait + Sync + AllocGlobal>(
    rt: &R,
    shelf: &mut MemShelf,
    write: u64,
) -> Result<bool, Fail> {
    let line = b"testr: run 0 is missing\n".as_slice();
    let told = load_over(rt, shelf, &[write])?;
    Ok(told.status == 3 && line.starts_with(&told.err) && told.err.len() < line.len())
}

fn lacks_run_0(alloc: Global) -> Result<MemShelf, Fail> {
    let mut shelf = repository(alloc, &[])?;
    put(alloc, &mut shelf, b"1", FOO_KEPT)?;
    Ok(shelf)
}

#[test]
fn a_failed_write_of_a_line_changes_no_status(rt: HostRuntime) -> Result<(), Fail> {
    // The line is written in pieces.
    for write in 0..3 {
        let mut shelf = lacks_run_0(rt.alloc())?;
        assert!(rt; writes_a_part(&rt, &mut shelf, write)?, "write {write}");
    }
    Ok(())
}

// Whether wrong words whose line is not written answer 2.
fn is_wrong_and_silent<R: Threads + Wait + Sync + AllocGlobal>(
    rt: &R,
    words: &[&str],
    shelf: &mut MemShelf,
) -> Result<bool, Fail> {
    let mut input = source(rt.alloc(), FOO, 12, &[])?;
    let told = call_over(rt, words, shelf, &mut input, &[], &[0])?;
    Ok(told.is(2, NOTHING, NOTHING))
}

#[test]
fn a_failed_write_of_the_usage_changes_no_status(rt: HostRuntime) -> Result<(), Fail> {
    let mut shelf = MemShelf::new(rt.alloc(), Vec::new(rt.alloc()));
    assert!(rt; is_wrong_and_silent(&rt, &["testr"], &mut shelf)?);
    assert!(rt; is_wrong_and_silent(&rt, &["load"], &mut shelf)?);
    Ok(())
}
