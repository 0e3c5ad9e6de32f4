//! What `testr run` tells at its end of tests that were asked for and did not run.

use crate::configured::{CONF, ENDED, project_beside};
use edge_io::Finish;
use std::sync::Wait;
use std::test::Fail;
use std::thread::Threads;
use trial_calls::{NOTHING, call_failing, repository};

// `a` passed.
const A_PASSED: &[u8] = b"\xb3\x29\x03\n\x01a\xdd\xc1\xc7\xba";

// `a` and `b` are there.
const A_AND_B: &[u8] = b"\xb3\x29\x01\n\x01aw\xc8\x0f1\xb3\x29\x01\n\x01b\xee\xc1\x5e\x8b";

const ONE_PASSED: &[u8] = b"Ran 1 tests\nPASSED (id=0)\n";

const NO_TESTS: &[u8] = b"Ran 0 tests\nPASSED (id=0)\n";

const LOST_B: &[u8] =
    b"======================================================================\nFAIL: process-returncode\n----------------------------------------------------------------------\nreturncode 7\n======================================================================\nUNFINISHED: b\n----------------------------------------------------------------------\nRan 3 tests\nFAILED (id=0, failures=2)\n";

const B_IS_MISSING: &[u8] = b"testr: 1 of 2 tests that were asked for did not run\n  b\n";

const TWELVE_ARE_MISSING: &[u8] =
    b"testr: 12 of 13 tests that were asked for did not run\n  b\n  c\n  d\n  e\n  f\n  g\n  h\n  i\n  j\n  k\n  and 2 more\n";

const TEN_ARE_MISSING: &[u8] =
    b"testr: 10 of 11 tests that were asked for did not run\n  b\n  c\n  d\n  e\n  f\n  g\n  h\n  i\n  j\n  k\n";

const A_DID_NOT_RUN: &[u8] =
    b"testr: 1 of 1 tests that were asked for did not run\n  a\ntestr: no test ran\n";

const NONE_RAN: &[u8] = b"testr: no test ran\n";

// A run of a project whose list has these ids: its words, the list, what its one program gives and how that ends, the status,
// and what the two sinks take.
type Row = (
    &'static [&'static str],
    &'static [u8],
    &'static [u8],
    Finish,
    u8,
    &'static [u8],
    &'static [u8],
);

const LISTED: &[&str] = &["testr", "run", "--load-list=l"];

const ROWS: [Row; 17] = [
    (LISTED, b"a\n", A_PASSED, ENDED, 0, ONE_PASSED, NOTHING),
    (
        LISTED,
        b"b\na\n",
        A_PASSED,
        ENDED,
        0,
        ONE_PASSED,
        B_IS_MISSING,
    ),
    // An id is asked for once.
    (
        LISTED,
        b"a\nb\na\nb\n",
        A_PASSED,
        ENDED,
        0,
        ONE_PASSED,
        B_IS_MISSING,
    ),
    (
        LISTED,
        b"m\nl\nk\nj\ni\nh\ng\nf\ne\nd\nc\nb\na\n",
        A_PASSED,
        ENDED,
        0,
        ONE_PASSED,
        TWELVE_ARE_MISSING,
    ),
    (
        LISTED,
        b"a\nb\nc\nd\ne\nf\ng\nh\ni\nj\nk\n",
        A_PASSED,
        ENDED,
        0,
        ONE_PASSED,
        TEN_ARE_MISSING,
    ),
    // What a worker lost that did not end with 0 is a row.
    (
        LISTED,
        b"a\nb\n",
        A_PASSED,
        Finish::Exit(7),
        1,
        LOST_B,
        NOTHING,
    ),
    (LISTED, b"a\n", NOTHING, ENDED, 1, NO_TESTS, A_DID_NOT_RUN),
    // A test that is only there did not run.
    (
        LISTED,
        b"a\nb\n",
        A_AND_B,
        ENDED,
        1,
        NO_TESTS,
        b"testr: 2 of 2 tests that were asked for did not run\n  a\n  b\ntestr: no test ran\n",
    ),
    // No id has what the pattern wants.
    (
        &["testr", "run", "c"],
        NOTHING,
        A_AND_B,
        ENDED,
        1,
        NO_TESTS,
        NONE_RAN,
    ),
    (
        &["testr", "run", "--exclude-regex=."],
        NOTHING,
        A_AND_B,
        ENDED,
        1,
        NO_TESTS,
        NONE_RAN,
    ),
    // Nothing is asked for.
    (
        &["testr", "run", "--failing"],
        NOTHING,
        NOTHING,
        ENDED,
        0,
        NO_TESTS,
        NOTHING,
    ),
    (LISTED, NOTHING, NOTHING, ENDED, 0, NO_TESTS, NOTHING),
    (
        &["testr", "run"],
        NOTHING,
        NOTHING,
        ENDED,
        0,
        NO_TESTS,
        NOTHING,
    ),
    (
        &["testr", "run", "--shard=2/2", "a"],
        NOTHING,
        A_AND_B,
        ENDED,
        0,
        NO_TESTS,
        NOTHING,
    ),
    // Without a report, and with the packets in its place.
    (
        &["testr", "run", "-q", "--load-list=l"],
        b"a\nb\n",
        A_PASSED,
        ENDED,
        0,
        NOTHING,
        B_IS_MISSING,
    ),
    (
        &["testr", "run", "--subunit", "--load-list=l"],
        b"a\n",
        NOTHING,
        ENDED,
        0,
        NOTHING,
        A_DID_NOT_RUN,
    ),
    // Behind the live lines.
    (
        &["testr", "run", "--live=tests", "--load-list=l"],
        b"a\nb\n",
        A_PASSED,
        ENDED,
        0,
        ONE_PASSED,
        b"{0} a ... ok\ntestr: 1 of 2 tests that were asked for did not run\n  b\n",
    ),
];

// Whether the run of the row tells this. Writes of these numbers to the sink of errors fail.
fn ends_so<R: Threads + Wait + Sync + AllocGlobal>(
    rt: &R,
    row: &Row,
    errors: &[u64],
) -> Result<bool, Fail> {
    let (words, list, output, finish, status, out, err) = *row;
    let outputs = [(output, finish)];
    let mut project = project_beside(rt.alloc(), CONF, &outputs, b"l", list)?;
    let mut shelf = repository(rt.alloc(), &[])?;
    Ok(call_failing(rt, words, &mut shelf, &mut project, &[], errors)?.is(status, out, err))
}

#[test]
fn tests_that_did_not_run_are_told_of_behind_all_else(rt: HostRuntime) -> Result<(), Fail> {
    for (at, row) in ROWS.iter().enumerate() {
        assert!(rt; ends_so(&rt, row, &[])?, "row {at}");
    }
    Ok(())
}

// The status does not hang on the sink of errors.
const UNHEARD: [Row; 3] = [
    (LISTED, b"a\nb\n", A_PASSED, ENDED, 0, ONE_PASSED, NOTHING),
    (LISTED, b"a\n", NOTHING, ENDED, 1, NO_TESTS, NOTHING),
    // A live line failed.
    (
        &["testr", "run", "--live=tests", "--load-list=l"],
        b"a\nb\n",
        A_PASSED,
        ENDED,
        0,
        ONE_PASSED,
        NOTHING,
    ),
];

#[test]
fn what_is_not_heard_changes_no_status(rt: HostRuntime) -> Result<(), Fail> {
    for (at, row) in UNHEARD.iter().enumerate() {
        assert!(rt; ends_so(&rt, row, &[0])?, "row {at}");
    }
    Ok(())
}
