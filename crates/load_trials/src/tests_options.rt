//! `-q`, which leaves out the report, and `--concurrency` of more workers than there may be.

use edge_io::MemShelf;
use std::sync::Wait;
use std::test::Fail;
use std::thread::Threads;
use trial_calls::{
    FAIL, FAIL_KEPT, FOO, FOO_KEPT, NOTHING, PASSED_AS_0, WRONG_USAGE, call_over, has_file, load,
    repository, source, tells_of,
};

const NO_STORE: &[u8] = b"testr: no repository here\n";

const OUT_FAULT: &[u8] = b"testr: fault writing output\n";

// Whether a load of these words, over an output that fails at its first write, tells this of `FOO` and keeps it.
fn loads_over<R: Threads + Wait + Sync + AllocGlobal>(
    rt: &R,
    words: &[&str],
    wanted: (u8, &[u8], &[u8]),
) -> Result<bool, Fail> {
    let (status, out, err) = wanted;
    let mut shelf = repository(rt.alloc(), &[])?;
    let mut input = source(rt.alloc(), FOO, 5, &[])?;
    let told = call_over(rt, words, &mut shelf, &mut input, &[0], &[])?;
    Ok(told.is(status, out, err) && has_file(&mut shelf, "0", FOO_KEPT)?)
}

#[test]
fn an_output_that_fails_is_no_fault_of_a_load_without_a_report(
    rt: HostRuntime,
) -> Result<(), Fail> {
    let failed = (4, NOTHING, OUT_FAULT);
    assert!(rt; loads_over(&rt, &["testr", "load"], failed)?);
    let passed = (0, NOTHING, NOTHING);
    assert!(rt; loads_over(&rt, &["testr", "load", "-q"], passed)?);
    assert!(rt; loads_over(&rt, &["testr", "load", "--quiet"], passed)?);
    assert!(rt; loads_over(&rt, &["stestr", "load", "-q"], passed)?);
    Ok(())
}

#[test]
fn a_load_without_a_report_says_by_its_status_that_a_test_failed(
    rt: HostRuntime,
) -> Result<(), Fail> {
    let mut shelf = repository(rt.alloc(), &[])?;
    let words = ["testr", "load", "-q"];
    let wanted = (1, NOTHING, NOTHING);
    assert!(rt; tells_of(&rt, &words, &mut shelf, FAIL, 5, wanted)?);
    assert!(rt; has_file(&mut shelf, "0", FAIL_KEPT)?);
    Ok(())
}

#[test]
fn a_refusal_has_its_line_without_a_report(rt: HostRuntime) -> Result<(), Fail> {
    let mut shelf = MemShelf::new(rt.alloc(), Vec::new(rt.alloc()));
    for words in [["testr", "load", "-q"], ["testr", "last", "-q"]] {
        let wanted = (3, NOTHING, NO_STORE);
        assert!(rt; tells_of(&rt, &words, &mut shelf, FOO, 5, wanted)?);
    }
    Ok(())
}

// What is told of a repository of one run, in which `foo` failed.
const TOLD_OF_FAIL: [(&[&str], u8, &[u8]); 5] = [
    (&["testr", "last", "-q"], 1, NOTHING),
    (&["testr", "last", "--quiet"], 1, NOTHING),
    (&["testr", "last", "-q", "--skips"], 1, NOTHING),
    // These bytes are no report.
    (&["testr", "last", "-q", "--subunit"], 0, FAIL_KEPT),
    (
        &["testr", "last", "--subunit", "--skips", "-q"],
        0,
        FAIL_KEPT,
    ),
];

#[test]
fn the_last_run_has_no_report_but_its_bytes(rt: HostRuntime) -> Result<(), Fail> {
    let mut shelf = repository(rt.alloc(), &[])?;
    load(&rt, &mut shelf, FAIL)?;
    for (row, (words, status, out)) in TOLD_OF_FAIL.iter().enumerate() {
        let wanted = (*status, *out, NOTHING);
        assert!(rt;
            tells_of(&rt, words, &mut shelf, NOTHING, 1, wanted)?,
            "row {row}"
        );
    }
    Ok(())
}

// A run of a project that has no configuration: its words, the writes to the sink of errors that fail, the status, and what
// that sink took.
type Run = (&'static [&'static str], &'static [u64], u8, &'static [u8]);

const NO_CONF: &[u8] = b"testr: no .testr.conf or .stestr.conf\n";

const BOTH_LINES: &[u8] =
    b"testr: --concurrency: 64 workers at most\ntestr: no .testr.conf or .stestr.conf\n";

const RUNS: [Run; 9] = [
    (&["testr", "run", "--concurrency=64"], &[], 3, NO_CONF),
    (&["testr", "run", "--concurrency=65"], &[], 3, BOTH_LINES),
    (
        &["testr", "run", "--concurrency=1000000000000000000000"],
        &[],
        3,
        BOTH_LINES,
    ),
    (
        &["testr", "run", "--parallel", "--concurrency", "65", "-q"],
        &[],
        3,
        BOTH_LINES,
    ),
    (
        &["testr", "run", "--concurrency=1", "--concurrency=65"],
        &[],
        3,
        BOTH_LINES,
    ),
    (
        &["testr", "run", "--concurrency=65", "--concurrency=1"],
        &[],
        3,
        NO_CONF,
    ),
    (&["testr", "run", "--concurrency=064"], &[], 2, WRONG_USAGE),
    // That the line could not be written changes nothing else.
    (&["testr", "run", "--concurrency=65"], &[0], 3, NO_CONF),
    (&["testr", "run", "--concurrency=64"], &[0], 3, NOTHING),
];

// Whether the run tells this.
fn runs<R: Threads + Wait + Sync + AllocGlobal>(rt: &R, run: &Run) -> Result<bool, Fail> {
    let (words, fails, status, err) = *run;
    let mut shelf = repository(rt.alloc(), &[])?;
    let mut input = source(rt.alloc(), NOTHING, 1, &[])?;
    let told = call_over(rt, words, &mut shelf, &mut input, &[], fails)?;
    Ok(told.is(status, NOTHING, err))
}

#[test]
fn more_workers_than_64_are_64_and_a_line_tells_so(rt: HostRuntime) -> Result<(), Fail> {
    for (row, run) in RUNS.iter().enumerate() {
        assert!(rt; runs(&rt, run)?, "row {row}");
    }
    Ok(())
}

#[test]
fn a_report_is_printed_where_nothing_is_said_of_it(rt: HostRuntime) -> Result<(), Fail> {
    let mut shelf = repository(rt.alloc(), &[])?;
    let wanted = (0, PASSED_AS_0, NOTHING);
    assert!(rt; tells_of(&rt, &["testr", "load"], &mut shelf, FOO, 5, wanted)?);
    Ok(())
}
