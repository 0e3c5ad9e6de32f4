//! Lines of the tests of a stream as they complete, and totals, as a command line.

use crate::calls::{Faults, NO_FAULT, ran, status_of};
use crate::sources::source;
use edge_io::ListSink;
use std::alloc::Global;

// In lane 1 `o` begins, and `s` is skipped for a reason of two lines. In lane 10 `f` fails, with a text of two lines.
const LANES: &[u8] =
    b"\xb3-\x02\x0c\x01o\x011\xa8\xfb\xc0x\xb3-e:\x01s\x17text/plain;charset=utf8\x06reason\x0eno time\nat all\x011\xfd\xe6'\xa1\xb3-f9\x01f\x17text/plain;charset=utf8\x09traceback\x07one\ntwo\x0410/x\xa9\x19\xdc8";

const LANES_TEXT: &[u8] =
    b"{1} s ... SKIPPED: no time\n{10} f ... FAILED\n    one\n    two\n{1} o ... UNFINISHED\n";

const LANES_TOTALS: &[u8] =
    b"{1} s ... SKIPPED: no time\n{10} f ... FAILED\n    one\n    two\n{1} o ... UNFINISHED\n\nTotals\nRan: 3 tests\n - Passed: 0\n - Skipped: 1\n - Expected Fail: 0\n - Unexpected Success: 0\n - Failed: 2\n - Worker 1 (2 tests)\n - Worker 10 (1 tests)\n";

const LANES_FAILURES: &[u8] =
    b"======================================================================\nFAIL: f\n----------------------------------------------------------------------\none\ntwo\n======================================================================\nUNFINISHED: o\n----------------------------------------------------------------------\n";

// `x` fails as was expected, and `u` passes against the expectation.
const EXPECTED: &[u8] = b"\xb3)\x07\n\x01x6\xc8\xf8-\xb3)\x04\n\x01uZ\xcc+~";

const EXPECTED_TEXT: &[u8] =
    b"{0} x ... ok\n{0} u ... FAILED\n\nTotals\nRan: 2 tests\n - Passed: 0\n - Skipped: 0\n - Expected Fail: 1\n - Unexpected Success: 1\n - Failed: 0\n - Worker 0 (2 tests)\n";

// `foo` begins at 100 s, and passes 1.5 s later with the tag `x`.
const TIMED: &[u8] =
    b"\xb3\x2b\x02\x11\x00\x00\x00\x64\x00\x03foo\x1e\xec\x90\x04\xb3\x2b\x83\x17\x00\x00\x00\x65\xdd\xcd\x65\x00\x03foo\x01\x01x\xba\x3a\xeb\x64";

const TIMED_TEXT: &[u8] =
    b"{0} foo [1.500s] ... ok\n\nTotals\nRan: 1 tests in 1.500s\n - Passed: 1\n - Skipped: 0\n - Expected Fail: 0\n - Unexpected Success: 0\n - Failed: 0\n - Worker 0 (1 tests) => 1.500s\n";

const NOTHING_TEXT: &[u8] =
    b"\nTotals\nRan: 0 tests\n - Passed: 0\n - Skipped: 0\n - Expected Fail: 0\n - Unexpected Success: 0\n - Failed: 0\n";

// `t` passes.
const ONE: &[u8] = b"\xb3)\x03\n\x01t\xb0\x1c#Q";

const USAGE: &[u8] = b"subunit-trace: wrong usage\n";

const READ_FAULT: &[u8] = b"subunit-trace: fault reading standard input\n";

// Words, a stream, what fails, the text, the line, how many bytes are left of the stream, and the status.
type Row = (
    &'static [&'static str],
    &'static [u8],
    Faults,
    &'static [u8],
    &'static [u8],
    usize,
    u8,
);

const ROWS: [Row; 15] = [
    (&["subunit-trace"], TIMED, NO_FAULT, TIMED_TEXT, b"", 0, 0),
    (&["subunit-trace"], LANES, NO_FAULT, LANES_TOTALS, b"", 0, 1),
    (
        &["subunit-trace"],
        EXPECTED,
        NO_FAULT,
        EXPECTED_TEXT,
        b"",
        0,
        1,
    ),
    (&["subunit-trace"], b"x", NO_FAULT, NOTHING_TEXT, b"", 0, 1),
    (
        &["subunit-trace", "--no-summary"],
        LANES,
        NO_FAULT,
        LANES_TEXT,
        b"",
        0,
        1,
    ),
    (
        &["subunit-trace", "--no-summary"],
        b"x",
        NO_FAULT,
        b"",
        b"",
        0,
        1,
    ),
    (
        &["subunit-trace", "--live=none", "--no-summary"],
        TIMED,
        NO_FAULT,
        b"",
        b"",
        0,
        0,
    ),
    (
        &["subunit-trace", "--live", "failures", "--no-summary"],
        LANES,
        NO_FAULT,
        LANES_FAILURES,
        b"",
        0,
        1,
    ),
    (
        &[
            "subunit-trace",
            "--live=tests",
            "--live=dots",
            "--no-summary",
        ],
        LANES,
        NO_FAULT,
        b"SFF\n",
        b"",
        0,
        1,
    ),
    (
        &["subunit-trace", "--live=dots", "--live=tests"],
        TIMED,
        NO_FAULT,
        TIMED_TEXT,
        b"",
        0,
        0,
    ),
    (
        &["subunit-trace", "--live=all", "--live=tests"],
        TIMED,
        NO_FAULT,
        b"",
        USAGE,
        40,
        2,
    ),
    (
        &["subunit-trace", "--live"],
        TIMED,
        NO_FAULT,
        b"",
        USAGE,
        40,
        2,
    ),
    (
        &["subunit-trace", "--times"],
        TIMED,
        NO_FAULT,
        b"",
        USAGE,
        40,
        2,
    ),
    (
        &["subunit-trace"],
        TIMED,
        (&[0], &[]),
        b"",
        READ_FAULT,
        40,
        4,
    ),
    (
        &["subunit-trace"],
        LANES,
        (&[6], &[]),
        b"{1} s ... SKIPPED: no time\n",
        READ_FAULT,
        49,
        4,
    ),
];

fn does(alloc: Global, row: &Row) -> bool {
    status_of(alloc, row.0, row.1, &row.2, &(row.3, row.4, row.5)) == Some(row.6)
}

#[test]
fn each_test_has_its_line_and_totals_stand_behind(rt: HostRuntime) {
    let alloc = rt.alloc();
    for (number, row) in ROWS.iter().enumerate() {
        assert!(rt; does(alloc, row), "row {number}");
    }
}

// The packet of `t` so many times.
fn passed(alloc: Global, count: usize) -> Option<Vec<u8>> {
    let mut stream = Vec::new(alloc);
    for _ in 0..count {
        stream.extend_from_slice(ONE).ok()?;
    }
    Some(stream)
}

// What `subunit-trace --live=dots` prints of so many tests that passed.
fn dots(alloc: Global, count: usize, text: &[u8]) -> Option<bool> {
    let stream = passed(alloc, count)?;
    let mut input = source(alloc, &stream, &[])?;
    let mut out = ListSink::new(alloc, Vec::new(alloc));
    let mut err = ListSink::new(alloc, Vec::new(alloc));
    let status = ran(
        alloc,
        &["subunit-trace", "--live=dots", "--no-summary"],
        &mut input,
        &mut out,
        &mut err,
    );
    Some(status == Some(0) && out.taken() == text)
}

#[test]
fn a_line_has_seventy_marks(rt: HostRuntime) {
    let alloc = rt.alloc();
    let seventy = b"......................................................................\n";
    assert!(rt; dots(alloc, 70, seventy) == Some(true));
    let more = b"......................................................................\n.\n";
    assert!(rt; dots(alloc, 71, more) == Some(true));
}
