//! Tests of a stream as JUnit XML, as a command line.

use crate::calls::{Faults, NO_FAULT, status_of};
use std::alloc::Global;

// `foo` begins at 100 s, and passes 1.5 s later with the tag `x`.
const TIMED: &[u8] =
    b"\xb3\x2b\x02\x11\x00\x00\x00\x64\x00\x03foo\x1e\xec\x90\x04\xb3\x2b\x83\x17\x00\x00\x00\x65\xdd\xcd\x65\x00\x03foo\x01\x01x\xba\x3a\xeb\x64";

const TIMED_TEXT: &[u8] =
    b"<?xml version=\"1.0\" encoding=\"utf-8\"?>\n<testsuite name=\"\" tests=\"1\" failures=\"0\" errors=\"0\" skipped=\"0\" time=\"1.500\">\n<testcase classname=\"\" name=\"foo\" time=\"1.500\">\n</testcase>\n</testsuite>\n";

// `a,b` passed and `c` failed, without times, behind a byte of a log.
const FAILED: &[u8] =
    b"\n\xb3\x29\x03\x0c\x03a,b\xe5\x37\x88\xee\xb3\x29\x06\x0a\x01c\x04\x11\x56\xa4";

const FAILED_TEXT: &[u8] =
    b"<?xml version=\"1.0\" encoding=\"utf-8\"?>\n<testsuite name=\"\" tests=\"2\" failures=\"1\" errors=\"0\" skipped=\"0\" time=\"0.000\">\n<testcase classname=\"\" name=\"a,b\" time=\"0.000\">\n</testcase>\n<testcase classname=\"\" name=\"c\" time=\"0.000\">\n<failure type=\"fail\"></failure>\n</testcase>\n</testsuite>\n";

// `b` passed under the route `1`, and then `a` failed without a route.
const ROUTED: &[u8] =
    b"\xb3\x2d\x03\x0c\x01b\x011\x6b\x7f\x80\x8e\xb3\x29\x06\x0a\x01a\xea\x1f\x37\x88";

const ROUTED_TEXT: &[u8] =
    b"<?xml version=\"1.0\" encoding=\"utf-8\"?>\n<testsuite name=\"\" tests=\"2\" failures=\"1\" errors=\"0\" skipped=\"0\" time=\"0.000\">\n<testcase classname=\"\" name=\"a\" time=\"0.000\">\n<failure type=\"fail\"></failure>\n</testcase>\n<testcase classname=\"\" name=\"b\" time=\"0.000\">\n</testcase>\n</testsuite>\n";

// Under the route `1` `b` failed with a text that is longer than all else; `a` passed without a route, and `c` under the
// route `2`.
const LONG: &[u8] =
    b"\xb3\x2d\x66\x40\xc4\x01b\x0atext/plain\x09traceback\x40\xa0a line of a text that is rather long, 1\na line of a text that is rather long, 2\na line of a text that is rather long, 3\na line of a text that is rather long, 4\n\x011\x0a\x2f\x68\x0d\xb3\x29\x03\x0a\x01a\xdd\xc1\xc7\xba\xb3\x2d\x03\x0c\x01c\x012\xf3\xb4\xbb\x03";

const LONG_TEXT: &[u8] =
    b"<?xml version=\"1.0\" encoding=\"utf-8\"?>\n<testsuite name=\"\" tests=\"3\" failures=\"1\" errors=\"0\" skipped=\"0\" time=\"0.000\">\n<testcase classname=\"\" name=\"a\" time=\"0.000\">\n</testcase>\n<testcase classname=\"\" name=\"b\" time=\"0.000\">\n<failure type=\"fail\">a line of a text that is rather long, 1\na line of a text that is rather long, 2\na line of a text that is rather long, 3\na line of a text that is rather long, 4\n</failure>\n</testcase>\n<testcase classname=\"\" name=\"c\" time=\"0.000\">\n</testcase>\n</testsuite>\n";

const NOTHING_TEXT: &[u8] =
    b"<?xml version=\"1.0\" encoding=\"utf-8\"?>\n<testsuite name=\"\" tests=\"0\" failures=\"0\" errors=\"0\" skipped=\"0\" time=\"0.000\">\n</testsuite>\n";

const USAGE: &[u8] = b"subunit2junitxml: wrong usage\n";

const READ_FAULT: &[u8] = b"subunit2junitxml: fault reading standard input\n";

// Words, a stream, what fails, the text, the line, how many bytes are left of the stream, and the status.
type Row = (
    &'static [&'static str],
    &'static [u8],
    Faults,
    &'static [u8],
    &'static [u8],
    usize,
    u8,
);

const ROWS: [Row; 10] = [
    (
        &["subunit2junitxml"],
        TIMED,
        NO_FAULT,
        TIMED_TEXT,
        b"",
        0,
        0,
    ),
    (
        &["subunit2junitxml"],
        FAILED,
        NO_FAULT,
        FAILED_TEXT,
        b"",
        0,
        1,
    ),
    (
        &["subunit2junitxml"],
        ROUTED,
        NO_FAULT,
        ROUTED_TEXT,
        b"",
        0,
        1,
    ),
    (&["subunit2junitxml"], LONG, NO_FAULT, LONG_TEXT, b"", 0, 1),
    (
        &["subunit2junitxml"],
        b"x",
        NO_FAULT,
        NOTHING_TEXT,
        b"",
        0,
        0,
    ),
    (
        &["subunit2junitxml", "--no-passthrough"],
        FAILED,
        NO_FAULT,
        FAILED_TEXT,
        b"",
        0,
        1,
    ),
    (
        &["subunit2junitxml", "--times"],
        TIMED,
        NO_FAULT,
        b"",
        USAGE,
        40,
        2,
    ),
    (
        &["subunit2junitxml", "x", "y"],
        TIMED,
        NO_FAULT,
        b"",
        USAGE,
        40,
        2,
    ),
    (
        &["subunit2junitxml"],
        TIMED,
        (&[0], &[]),
        b"",
        READ_FAULT,
        40,
        4,
    ),
    (
        &["subunit2junitxml"],
        TIMED,
        (&[1], &[]),
        b"",
        READ_FAULT,
        27,
        4,
    ),
];

fn does(alloc: Global, row: &Row) -> bool {
    status_of(alloc, row.0, row.1, &row.2, &(row.3, row.4, row.5)) == Some(row.6)
}

#[test]
fn a_document_stands_at_the_end(rt: HostRuntime) {
    let alloc = rt.alloc();
    for (number, row) in ROWS.iter().enumerate() {
        assert!(rt; does(alloc, row), "row {number}");
    }
}
