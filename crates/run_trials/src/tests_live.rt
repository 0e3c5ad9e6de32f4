//! `testr run --live=KIND` and `testr run --subunit`: what is said while the tests run.

use crate::configured::{CONF, ENDED};
use edge_io::{Finish, MemShelf};
use std::sync::Wait;
use std::test::Fail;
use std::thread::Threads;
use trial_calls::{
    FAIL, FAIL_KEPT, FOO, FOO_KEPT, NOTHING, WRONG_USAGE, call_failing, has_file, project_of,
    repository,
};

// `a` and `b` failed.
const A_AND_B_FAILED: &[u8] = b"\xb3\x29\x06\n\x01a\xea\x1f7\x88\xb3\x29\x06\n\x01bs\x16f2";

// `a`, `b`, `c` and `d` took 5, 4, 3 and 3 seconds.
const TIMED: &[u8] =
    b"\xb3\x2b\x02\x0f\x00\x00\x00d\x00\x01azok\xb8\xb3\x2b\x03\x0f\x00\x00\x00i\x00\x01a\x9f\x7e\xa7\x26\xb3\x2b\x02\x0f\x00\x00\x00d\x00\x01b\xe3f\x3a\x02\xb3\x2b\x03\x0f\x00\x00\x00h\x00\x01b\xbe\xcb\x91\xf9\xb3\x2b\x02\x0f\x00\x00\x00d\x00\x01c\x94a\n\x94\xb3\x2b\x03\x0f\x00\x00\x00g\x00\x01c\x91\xaf\xb19\xb3\x2b\x02\x0f\x00\x00\x00d\x00\x01d\n\x05\x9f7\xb3\x2b\x03\x0f\x00\x00\x00g\x00\x01d\x0f\xcb\x24\x9a";

// `foo` is in progress.
const BEGUN: &[u8] = b"\xb3\x29\x02\x0c\x03foo\x8e\xc1-\xb5";

const OUT_FAULT: &[u8] = b"testr: fault writing output\n";

const NO_STORE: &[u8] = b"testr: no repository here\n";

const BLOCKS: &[u8] =
    b"======================================================================\nFAIL: a\n----------------------------------------------------------------------\n======================================================================\nFAIL: b\n----------------------------------------------------------------------\n";

const TIMED_LINES: &[u8] =
    b"{0} a [5.000s] ... ok\n{0} b [4.000s] ... ok\n{0} c [3.000s] ... ok\n{0} d [3.000s] ... ok\n";

// What is recorded of a worker that ended with 2 comes before the test that was left open.
const LEFT_OPEN: &[u8] =
    b"{0} process-returncode ... FAILED\n    returncode 2\n{0} foo ... UNFINISHED\n";

// A call of one worker: its words, what the worker gives and how it ends, the status, and what the errors' sink takes.
type Row = (
    &'static [&'static str],
    &'static [u8],
    Finish,
    u8,
    &'static [u8],
);

const ROWS: [Row; 11] = [
    (
        &["testr", "run", "-q", "--live=tests"],
        A_AND_B_FAILED,
        ENDED,
        1,
        b"{0} a ... FAILED\n{0} b ... FAILED\n",
    ),
    (
        &["testr", "run", "-q", "--live", "failures"],
        A_AND_B_FAILED,
        ENDED,
        1,
        BLOCKS,
    ),
    (
        &["testr", "run", "-q", "--live=dots"],
        A_AND_B_FAILED,
        ENDED,
        1,
        b"FF\n",
    ),
    (
        &["testr", "run", "-q", "--live=none"],
        A_AND_B_FAILED,
        ENDED,
        1,
        NOTHING,
    ),
    (&["testr", "run", "-q"], A_AND_B_FAILED, ENDED, 1, NOTHING),
    // The last one stands.
    (
        &["testr", "run", "--live=tests", "-q", "--live=dots"],
        A_AND_B_FAILED,
        ENDED,
        1,
        b"FF\n",
    ),
    (
        &["testr", "run", "-q", "--live=tests"],
        TIMED,
        ENDED,
        0,
        TIMED_LINES,
    ),
    (
        &["testr", "run", "-q", "--live=dots"],
        TIMED,
        ENDED,
        0,
        b"....\n",
    ),
    (
        &["testr", "run", "-q", "--live=failures"],
        TIMED,
        ENDED,
        0,
        NOTHING,
    ),
    (
        &["testr", "run", "-q", "--live=tests"],
        BEGUN,
        Finish::Exit(2),
        1,
        LEFT_OPEN,
    ),
    (
        &["testr", "run", "-q", "--live=dots"],
        BEGUN,
        Finish::Exit(2),
        1,
        b"FF\n",
    ),
];

// Whether the call of the row tells this, and prints nothing.
fn tells<R: Threads + Wait + Sync + AllocGlobal>(rt: &R, row: &Row) -> Result<bool, Fail> {
    let (words, output, finish, status, err) = *row;
    let mut shelf = repository(rt.alloc(), &[])?;
    let mut project = project_of(rt.alloc(), CONF, &[(output, finish)], &[], &[])?;
    let told = call_failing(rt, words, &mut shelf, &mut project, &[], &[])?;
    Ok(told.is(status, NOTHING, err))
}

#[test]
fn each_test_is_told_of_as_it_completes(rt: HostRuntime) -> Result<(), Fail> {
    for (at, row) in ROWS.iter().enumerate() {
        assert!(rt; tells(&rt, row)?, "row {at}");
    }
    Ok(())
}

// A call of one worker: its words, what the worker gives, the writes to the output and to the errors' sink that fail, the
// status, and what the two take.
type Over = (
    &'static [&'static str],
    &'static [u8],
    &'static [u64],
    &'static [u64],
    u8,
    &'static [u8],
    &'static [u8],
);

const FOO_LINE: &[u8] = b"{0} foo ... FAILED\n";

const LINE_AND_FAULT: &[u8] = b"{0} foo ... FAILED\ntestr: fault writing output\n";

const FAIL_REPORT: &[u8] =
    b"======================================================================\nFAIL: foo\n----------------------------------------------------------------------\nRan 1 tests\nFAILED (id=0, failures=1)\n";

const OVER: [Over; 9] = [
    (
        &["testr", "run", "--live=tests"],
        FAIL,
        &[],
        &[],
        1,
        FAIL_REPORT,
        FOO_LINE,
    ),
    // The errors' sink fails: it is told nothing more, and all else is the same.
    (
        &["testr", "run", "--live=tests"],
        FAIL,
        &[],
        &[0],
        1,
        FAIL_REPORT,
        NOTHING,
    ),
    (
        &["testr", "run", "--live=tests"],
        FAIL,
        &[0],
        &[0],
        4,
        NOTHING,
        NOTHING,
    ),
    // A refusal stands behind the lines.
    (
        &["testr", "run", "--live=tests"],
        FAIL,
        &[0],
        &[],
        4,
        NOTHING,
        LINE_AND_FAULT,
    ),
    // The run in place of its report.
    (
        &["testr", "run", "--subunit"],
        FAIL,
        &[],
        &[],
        0,
        FAIL_KEPT,
        NOTHING,
    ),
    (
        &["testr", "run", "--subunit", "-q"],
        FAIL,
        &[],
        &[],
        0,
        FAIL_KEPT,
        NOTHING,
    ),
    (
        &["testr", "run", "--subunit", "--live=tests"],
        FAIL,
        &[],
        &[],
        0,
        FAIL_KEPT,
        FOO_LINE,
    ),
    // The output fails.
    (
        &["testr", "run", "--subunit"],
        FAIL,
        &[0],
        &[],
        4,
        NOTHING,
        OUT_FAULT,
    ),
    (
        &["testr", "run", "--subunit", "--live=tests"],
        FAIL,
        &[0],
        &[0],
        4,
        NOTHING,
        NOTHING,
    ),
];

// Whether the call of the row tells this, and keeps the run.
fn keeps<R: Threads + Wait + Sync + AllocGlobal>(rt: &R, row: &Over) -> Result<bool, Fail> {
    let (words, output, writes, errors, status, out, err) = *row;
    let mut shelf = repository(rt.alloc(), &[])?;
    let mut project = project_of(rt.alloc(), CONF, &[(output, ENDED)], &[], &[])?;
    let told = call_failing(rt, words, &mut shelf, &mut project, writes, errors)?;
    Ok(told.is(status, out, err) && has_file(&mut shelf, "0", FAIL_KEPT)?)
}

#[test]
fn a_sink_that_fails_is_told_no_more_and_the_run_is_kept(rt: HostRuntime) -> Result<(), Fail> {
    for (at, row) in OVER.iter().enumerate() {
        assert!(rt; keeps(&rt, row)?, "row {at}");
    }
    Ok(())
}

#[test]
fn a_stream_of_tests_that_passed_is_the_run(rt: HostRuntime) -> Result<(), Fail> {
    let mut shelf = repository(rt.alloc(), &[])?;
    let mut project = project_of(rt.alloc(), CONF, &[(FOO, ENDED)], &[], &[])?;
    let words = ["testr", "run", "--subunit"];
    let told = call_failing(&rt, &words, &mut shelf, &mut project, &[], &[])?;
    assert!(rt; told.is(0, FOO_KEPT, NOTHING));
    Ok(())
}

const REFUSED: [(&[&str], u8, &[u8]); 4] = [
    (&["testr", "run", "--live=all"], 2, WRONG_USAGE),
    (
        &["testr", "run", "--live=all", "--live=dots"],
        2,
        WRONG_USAGE,
    ),
    (&["testr", "run", "--subunit=1"], 2, WRONG_USAGE),
    (&["testr", "run", "--subunit", "--live=tests"], 3, NO_STORE),
];

// Whether the call is refused so where there is no repository.
fn refuses<R: Threads + Wait + Sync + AllocGlobal>(
    rt: &R,
    words: &[&str],
    status: u8,
    err: &[u8],
) -> Result<bool, Fail> {
    let mut shelf = MemShelf::new(rt.alloc(), Vec::new(rt.alloc()));
    let mut project = project_of(rt.alloc(), CONF, &[(FOO, ENDED)], &[], &[])?;
    let told = call_failing(rt, words, &mut shelf, &mut project, &[], &[])?;
    Ok(told.is(status, NOTHING, err))
}

#[test]
fn a_refusal_stands_as_without_lines(rt: HostRuntime) -> Result<(), Fail> {
    for (at, (words, status, err)) in REFUSED.iter().enumerate() {
        assert!(rt; refuses(&rt, words, *status, err)?, "row {at}");
    }
    Ok(())
}
