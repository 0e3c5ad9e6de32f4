//! `testr load --live=KIND` and `testr load --subunit`: what is said while a stream is recorded.

use edge_io::MemShelf;
use std::sync::Wait;
use std::test::Fail;
use std::thread::Threads;
use trial_calls::{
    CallOutcome, FAIL, FAIL_KEPT, FOO, NOTHING, WRONG_USAGE, call, call_failing, call_over,
    has_file, project_with, repository, source,
};

// `foo` failed, and `bar` was skipped.
const FAIL_SKIP: &[u8] =
    b"\xb3\x29\x06\x0c\x03foo\x15\x50\x6f\xa3\xb3\x29\x05\x0c\x03bar\x69\x48\xf4\x86";

const FAIL_SKIP_KEPT: &[u8] =
    b"\xb3\x2d\x06\x0e\x03foo\x01\x30\xec\x4f\xd5\x84\xb3\x2d\x05\x0e\x03bar\x01\x30\x63\x61\x33\xb7";

// `foo` failed, with a file of text.
const BOOM: &[u8] = b"\xb3\x29\x66\x26\x03foo\x0atext/plain\x09traceback\x04boom\x2f\x8c\x22\xda";

// `foo` was begun.
const OPEN: &[u8] = b"\xb3\x29\x02\x0c\x03foo\x8e\xc1\x2d\xb5";

// `foo` was begun at 100 s and passed at 101.0005 s, and `bar` was skipped.
const TIMED: &[u8] =
    b"\xb3\x2b\x02\x11\x00\x00\x00\x64\x00\x03foo\x1e\xec\x90\x04\xb3\x2b\x03\x13\x00\x00\x00\x65\x87\xa1\x20\x03foo\xa7\x22\xac\x32\xb3\x29\x05\x0c\x03bar\x69\x48\xf4\x86";

const BLOCK: &[u8] =
    b"======================================================================\nFAIL: foo\n----------------------------------------------------------------------\n";

const OPEN_BLOCK: &[u8] =
    b"======================================================================\nUNFINISHED: foo\n----------------------------------------------------------------------\n";

const FAIL_REPORT: &[u8] =
    b"======================================================================\nFAIL: foo\n----------------------------------------------------------------------\nRan 1 tests\nFAILED (id=0, failures=1)\n";

const FOO_LINE: &[u8] = b"{0} foo ... FAILED\n";

const OUT_FAULT: &[u8] = b"testr: fault writing output\n";

const NO_STORE: &[u8] = b"testr: no repository here\n";

// A load without a report: how its lines are asked for, what it reads, the status, and what the errors' sink takes.
type Row = (&'static [&'static str], &'static [u8], u8, &'static [u8]);

const ROWS: [Row; 11] = [
    (
        &["testr", "load", "-q", "--live=tests"],
        FAIL_SKIP,
        1,
        b"{0} foo ... FAILED\n{0} bar ... SKIPPED\n",
    ),
    (
        &["testr", "load", "-q", "--live", "failures"],
        FAIL_SKIP,
        1,
        BLOCK,
    ),
    (
        &["testr", "load", "-q", "--live=dots"],
        FAIL_SKIP,
        1,
        b"FS\n",
    ),
    (
        &["testr", "load", "-q", "--live=none"],
        FAIL_SKIP,
        1,
        NOTHING,
    ),
    (&["testr", "load", "-q"], FAIL_SKIP, 1, NOTHING),
    // The last one stands.
    (
        &["testr", "load", "--live=tests", "-q", "--live=dots"],
        FAIL_SKIP,
        1,
        b"FS\n",
    ),
    (
        &["testr", "load", "-q", "--live=tests"],
        BOOM,
        1,
        b"{0} foo ... FAILED\n    boom\n",
    ),
    (
        &["testr", "load", "-q", "--live=tests"],
        TIMED,
        0,
        b"{0} foo [1.001s] ... ok\n{0} bar ... SKIPPED\n",
    ),
    (
        &["testr", "load", "-q", "--live=tests"],
        OPEN,
        1,
        b"{0} foo ... UNFINISHED\n",
    ),
    (
        &["testr", "load", "-q", "--live=failures"],
        OPEN,
        1,
        OPEN_BLOCK,
    ),
    (&["testr", "load", "-q", "--live=dots"], OPEN, 1, b"F\n"),
];

// Whether the load of the row tells this, in reads of five bytes, and prints nothing.
fn tells_live<R: Threads + Wait + Sync + AllocGlobal>(rt: &R, row: &Row) -> Result<bool, Fail> {
    let (words, bytes, status, err) = *row;
    let mut shelf = repository(rt.alloc(), &[])?;
    let mut input = source(rt.alloc(), bytes, 5, &[])?;
    Ok(call(rt, words, &mut shelf, &mut input)?.is(status, NOTHING, err))
}

#[test]
fn each_test_is_told_of_as_it_is_loaded(rt: HostRuntime) -> Result<(), Fail> {
    for (at, row) in ROWS.iter().enumerate() {
        assert!(rt; tells_live(&rt, row)?, "row {at}");
    }
    Ok(())
}

// A load of one failure: its words, the writes to the output and to the errors' sink that fail, the status, and what the two
// take.
type Over = (
    &'static [&'static str],
    &'static [u64],
    &'static [u64],
    u8,
    &'static [u8],
    &'static [u8],
);

const OVER: [Over; 9] = [
    (
        &["testr", "load", "--live=tests"],
        &[],
        &[],
        1,
        FAIL_REPORT,
        FOO_LINE,
    ),
    // The errors' sink fails: it is told nothing more, and all else is the same.
    (
        &["testr", "load", "--live=tests"],
        &[],
        &[0],
        1,
        FAIL_REPORT,
        NOTHING,
    ),
    (
        &["testr", "load", "--live=tests"],
        &[0],
        &[0],
        4,
        NOTHING,
        NOTHING,
    ),
    // A refusal stands behind the lines.
    (
        &["testr", "load", "--live=tests"],
        &[0],
        &[],
        4,
        NOTHING,
        b"{0} foo ... FAILED\ntestr: fault writing output\n",
    ),
    // The run in place of its report.
    (
        &["testr", "load", "--subunit"],
        &[],
        &[],
        0,
        FAIL_KEPT,
        NOTHING,
    ),
    (
        &["testr", "load", "--subunit", "-q"],
        &[],
        &[],
        0,
        FAIL_KEPT,
        NOTHING,
    ),
    (
        &["testr", "load", "--subunit", "--live=tests"],
        &[],
        &[],
        0,
        FAIL_KEPT,
        FOO_LINE,
    ),
    // The output fails.
    (
        &["testr", "load", "--subunit"],
        &[0],
        &[],
        4,
        NOTHING,
        OUT_FAULT,
    ),
    (
        &["testr", "load", "--subunit", "--live=tests"],
        &[0],
        &[0],
        4,
        NOTHING,
        NOTHING,
    ),
];

// Whether the load of the row tells this, and keeps the run.
fn keeps_live<R: Threads + Wait + Sync + AllocGlobal>(rt: &R, row: &Over) -> Result<bool, Fail> {
    let (words, writes, errors, status, out, err) = *row;
    let mut shelf = repository(rt.alloc(), &[])?;
    let mut input = source(rt.alloc(), FAIL, 5, &[])?;
    let told = call_over(rt, words, &mut shelf, &mut input, writes, errors)?;
    Ok(told.is(status, out, err) && has_file(&mut shelf, "0", FAIL_KEPT)?)
}

#[test]
fn a_sink_that_fails_is_told_no_more_and_the_load_is_kept(rt: HostRuntime) -> Result<(), Fail> {
    for (at, row) in OVER.iter().enumerate() {
        assert!(rt; keeps_live(&rt, row)?, "row {at}");
    }
    Ok(())
}

// What the words tell of this folder and these bytes.
fn told_by<R: Threads + Wait + Sync + AllocGlobal>(
    rt: &R,
    words: &[&str],
    shelf: &mut MemShelf,
    bytes: &[u8],
) -> Result<CallOutcome, Fail> {
    let mut input = source(rt.alloc(), bytes, 7, &[])?;
    call(rt, words, shelf, &mut input)
}

#[test]
fn the_packets_of_a_load_are_those_of_the_last_run(rt: HostRuntime) -> Result<(), Fail> {
    let mut shelf = repository(rt.alloc(), &[])?;
    let words = ["testr", "load", "--subunit"];
    let loaded = told_by(&rt, &words, &mut shelf, FAIL_SKIP)?;
    let last = told_by(&rt, &["testr", "last", "--subunit"], &mut shelf, NOTHING)?;
    assert!(rt; loaded.is(0, FAIL_SKIP_KEPT, NOTHING));
    assert!(rt; last.is(0, FAIL_SKIP_KEPT, NOTHING));
    Ok(())
}

// Loads of the files `a`, where `foo` failed, and `b`, where it passed: the words, the status, and what output and errors take.
const OF_FILES: [(&[&str], u8, &[u8], &[u8]); 4] = [
    (
        &["testr", "load", "-q", "--live=tests", "a", "b"],
        1,
        NOTHING,
        b"{0} foo ... FAILED\n{1} foo ... ok\n",
    ),
    (
        &["testr", "load", "--subunit", "a", "b"],
        0,
        b"\xb3\x2d\x06\x0e\x03foo\x01\x30\xec\x4f\xd5\x84\xb3\x2d\x03\x0e\x03foo\x01\x31\xd3\xa8\xeb\x76",
        NOTHING,
    ),
    // A later file is not there: what was said by then stands, and there is no run.
    (
        &["testr", "load", "--live=tests", "a", "c"],
        3,
        NOTHING,
        b"{0} foo ... FAILED\ntestr: no file c\n",
    ),
    (
        &["testr", "load", "--subunit", "a", "c"],
        3,
        FAIL_KEPT,
        b"testr: no file c\n",
    ),
];

// Whether the load of the row tells this.
fn tells_of_files<R: Threads + Wait + Sync + AllocGlobal>(
    rt: &R,
    words: &[&str],
    status: u8,
    out: &[u8],
    err: &[u8],
) -> Result<bool, Fail> {
    let files: [(&[u8], &[u8]); 2] = [(b"a", FAIL), (b"b", FOO)];
    let mut shelf = repository(rt.alloc(), &[])?;
    let mut project = project_with(rt.alloc(), &files, &[], &[], &[])?;
    let told = call_failing(rt, words, &mut shelf, &mut project, &[], &[])?;
    Ok(told.is(status, out, err))
}

#[test]
fn files_are_said_one_behind_another(rt: HostRuntime) -> Result<(), Fail> {
    for (at, (words, status, out, err)) in OF_FILES.iter().enumerate() {
        assert!(rt; tells_of_files(&rt, words, *status, out, err)?, "row {at}");
    }
    Ok(())
}

#[test]
fn a_read_that_fails_stands_behind_the_lines(rt: HostRuntime) -> Result<(), Fail> {
    let mut shelf = repository(rt.alloc(), &[])?;
    // The first read gives the packet, and the second one fails.
    let mut input = source(rt.alloc(), FAIL, 12, &[1])?;
    let told = call(
        &rt,
        &["testr", "load", "--live=tests"],
        &mut shelf,
        &mut input,
    )?;
    let lines = b"{0} foo ... FAILED\ntestr: fault reading standard input\n";
    assert!(rt; told.is(4, NOTHING, lines));
    assert!(rt; !has_file(&mut shelf, "0", FAIL_KEPT)?);
    Ok(())
}

const REFUSED: [(&[&str], u8, &[u8]); 4] = [
    (&["testr", "load", "--live=all"], 2, WRONG_USAGE),
    (&["testr", "load", "--live"], 2, WRONG_USAGE),
    (&["testr", "load", "--subunit=1"], 2, WRONG_USAGE),
    (&["testr", "load", "--subunit", "--live=tests"], 3, NO_STORE),
];

// Whether the load is refused so where there is no repository.
fn refuses_live<R: Threads + Wait + Sync + AllocGlobal>(
    rt: &R,
    words: &[&str],
    status: u8,
    err: &[u8],
) -> Result<bool, Fail> {
    let mut shelf = MemShelf::new(rt.alloc(), Vec::new(rt.alloc()));
    Ok(told_by(rt, words, &mut shelf, FAIL)?.is(status, NOTHING, err))
}

#[test]
fn a_refusal_of_a_load_stands_as_without_lines(rt: HostRuntime) -> Result<(), Fail> {
    for (at, (words, status, err)) in REFUSED.iter().enumerate() {
        assert!(rt; refuses_live(&rt, words, *status, err)?, "row {at}");
    }
    Ok(())
}
