//! Files in place of the input, and options of one letter, as command lines.

use crate::calls::{Faults, NO_FAULT, site_with, status_over};
use std::alloc::Global;

// `foo` passed, a line of a log, and `foo` failed.
const BOTH: &[u8] =
    b"\xb3\x29\x03\x0c\x03foo\x45\x9d\xfe\x10x\n\xb3\x29\x06\x0c\x03foo\x15\x50\x6f\xa3";

const PASSED: &[u8] = b"\xb3\x29\x03\x0c\x03foo\x45\x9d\xfe\x10";

const FAILED: &[u8] = b"\xb3\x29\x06\x0c\x03foo\x15\x50\x6f\xa3";

const LOG_AND_FAILED: &[u8] = b"x\n\xb3\x29\x06\x0c\x03foo\x15\x50\x6f\xa3";

const PASSED_AND_LOG: &[u8] = b"\xb3\x29\x03\x0c\x03foo\x45\x9d\xfe\x10x\n";

// `foo` with the tag `bar` passed, and the same with the tag `foo`.
const WITH_BAR: &[u8] = b"\xb3\x29\x83\x11\x03foo\x01\x03bar\xbb\x64\x7d\xc9";

const WITH_FOO: &[u8] = b"\xb3\x29\x83\x11\x03foo\x01\x03foo\x41\xe8\x94\x42";

// `a,b` passed and `c` failed, without times.
const COMMA: &[u8] =
    b"\xb3\x29\x03\x0c\x03a,b\xe5\x37\x88\xee\xb3\x29\x06\x0a\x01c\x04\x11\x56\xa4";

const COMMA_RECORDS: &[u8] = b"test,status,start_time,stop_time\n\"a,b\",success,,\nc,fail,,\n";

const C_RECORD: &[u8] = b"test,status,start_time,stop_time\nc,fail,,\n";

const COMMA_DOCUMENT: &[u8] =
    b"<?xml version=\"1.0\" encoding=\"utf-8\"?>\n<testsuite name=\"\" tests=\"2\" failures=\"1\" errors=\"0\" skipped=\"0\" time=\"0.000\">\n<testcase classname=\"\" name=\"a,b\" time=\"0.000\">\n</testcase>\n<testcase classname=\"\" name=\"c\" time=\"0.000\">\n<failure type=\"fail\"></failure>\n</testcase>\n</testsuite>\n";

const COMMA_COUNTS: &[u8] =
    b"Total tests:       2\nPassed tests:      1\nFailed tests:      1\nSkipped tests:     0\nSeen tags: \n";

// `test 1 a` passed.
const TAP_PASSED: &[u8] = b"\xb3)\x03\x11\x08test 1 a \xb9\xbdo";

// `a` begins.
const BEGUN: &[u8] = b"\xb3)\x02\n\x01ae}\xa0\xdf";

// Words, the bytes of `log`, the reads and the writes that fail, what is written, what is said, and the status.
type Row = (
    &'static [&'static str],
    &'static [u8],
    Faults,
    &'static [u8],
    &'static [u8],
    u8,
);

// Whether the words do so, where the input stays as it was.
fn does(alloc: Global, row: &Row) -> Option<bool> {
    let bytes = row.1.to_vec(alloc).ok()?;
    let mut site = site_with(alloc, bytes, row.2.0)?;
    let status = status_over(alloc, row.0, &mut site, row.2.1, &(row.3, row.4));
    Some(status == Some(row.5))
}

const DONE: [Row; 12] = [
    (
        &["subunit-filter", "log"],
        BOTH,
        NO_FAULT,
        LOG_AND_FAILED,
        b"",
        0,
    ),
    (
        &["subunit-tags", "foo", "-bar", "--", "log"],
        WITH_BAR,
        NO_FAULT,
        WITH_FOO,
        b"",
        0,
    ),
    // A file behind the separator alone, and events stay as they are.
    (
        &["subunit-tags", "--", "log"],
        WITH_BAR,
        NO_FAULT,
        WITH_BAR,
        b"",
        0,
    ),
    (
        &["subunit-ls", "log", "--no-passthrough"],
        BOTH,
        NO_FAULT,
        b"foo\nfoo\n",
        b"",
        1,
    ),
    (
        &["subunit-stats", "log"],
        COMMA,
        NO_FAULT,
        COMMA_COUNTS,
        b"",
        1,
    ),
    (
        &["tap2subunit", "log"],
        b"ok 1 a",
        NO_FAULT,
        TAP_PASSED,
        b"",
        0,
    ),
    (
        &["subunit2tap", "log"],
        COMMA,
        NO_FAULT,
        b"ok 1 a,b\nnot ok 2 c\n1..2\n",
        b"",
        1,
    ),
    (
        &["subunit2csv", "log"],
        COMMA,
        NO_FAULT,
        COMMA_RECORDS,
        b"",
        0,
    ),
    (
        &["subunit2junitxml", "log"],
        COMMA,
        NO_FAULT,
        COMMA_DOCUMENT,
        b"",
        1,
    ),
    (
        &["subunit-trace", "--no-summary", "log"],
        COMMA,
        NO_FAULT,
        b"{0} a,b ... ok\n{0} c ... FAILED\n",
        b"",
        1,
    ),
    (
        &["subunit-1to2", "log"],
        b"test: a\n",
        NO_FAULT,
        BEGUN,
        b"",
        0,
    ),
    (
        &["subunit-2to1", "log"],
        BEGUN,
        NO_FAULT,
        b"test: a\nerror: a [\nnot completed\n]\n",
        b"",
        0,
    ),
];

#[test]
fn a_file_stands_in_the_place_of_the_input(rt: HostRuntime) {
    let alloc = rt.alloc();
    for (number, row) in DONE.iter().enumerate() {
        assert!(rt; does(alloc, row) == Some(true), "row {number}");
    }
}

const REFUSED: [Row; 12] = [
    (
        &["subunit-stats", "log", "log"],
        COMMA,
        NO_FAULT,
        b"",
        b"subunit-stats: wrong usage\n",
        2,
    ),
    (
        &["subunit-tags", "foo", "--", "log", "--"],
        WITH_BAR,
        NO_FAULT,
        b"",
        b"subunit-tags: wrong usage\n",
        2,
    ),
    // The separator is none for other filters.
    (
        &["subunit-ls", "--", "log"],
        BOTH,
        NO_FAULT,
        b"",
        b"subunit-ls: wrong usage\n",
        2,
    ),
    // Not even the names of the fields are written.
    (
        &["subunit2csv", "gone"],
        COMMA,
        NO_FAULT,
        b"",
        b"subunit2csv: no file gone\n",
        3,
    ),
    // A dash is the name of a file.
    (
        &["subunit2tap", "-"],
        COMMA,
        NO_FAULT,
        b"",
        b"subunit2tap: no file -\n",
        3,
    ),
    // A pattern is looked at before a file.
    (
        &["subunit-filter", "--with-id=(", "gone"],
        BOTH,
        NO_FAULT,
        b"",
        b"subunit-filter: bad pattern: (\n",
        3,
    ),
    (
        &["subunit-2to1", "log"],
        BEGUN,
        (&[0], &[]),
        b"",
        b"subunit-2to1: fault reading a file\n",
        4,
    ),
    // The read behind the last byte fails: what the bytes decide was written.
    (
        &["subunit-filter", "log"],
        BOTH,
        (&[1], &[]),
        LOG_AND_FAILED,
        b"subunit-filter: fault reading a file\n",
        4,
    ),
    (
        &["subunit2csv", "--no-success", "log"],
        COMMA,
        (&[1], &[]),
        C_RECORD,
        b"subunit2csv: fault reading a file\n",
        4,
    ),
    (
        &["subunit2junitxml", "log"],
        COMMA,
        (&[1], &[]),
        b"",
        b"subunit2junitxml: fault reading a file\n",
        4,
    ),
    (
        &["subunit-stats", "log"],
        COMMA,
        (&[], &[0]),
        b"",
        b"subunit-stats: fault writing output\n",
        4,
    ),
    // Nothing is due before the end, so the first write is that of the document.
    (
        &["subunit2junitxml", "log"],
        COMMA,
        (&[], &[0]),
        b"",
        b"subunit2junitxml: fault writing output\n",
        4,
    ),
];

#[test]
fn files_are_refused_as_the_input_is(rt: HostRuntime) {
    let alloc = rt.alloc();
    for (number, row) in REFUSED.iter().enumerate() {
        assert!(rt; does(alloc, row) == Some(true), "row {number}");
    }
}

// ---- a large file

// The failed `foo`, and a long run of foreign bytes.
fn failed_and_run(alloc: Global) -> Option<Vec<u8>> {
    let mut bytes = FAILED.to_vec(alloc).ok()?;
    for _ in 0..200_000 {
        bytes.push(b'a').ok()?;
    }
    Some(bytes)
}

// The status where this read fails. Each gives 65,536 bytes.
fn status_at(alloc: Global, read: u64) -> Option<u8> {
    let mut site = site_with(alloc, failed_and_run(alloc)?, &[read])?;
    let words = ["subunit-filter", "--no-passthrough", "log"];
    let line = b"subunit-filter: fault reading a file\n";
    status_over(alloc, &words, &mut site, &[], &(FAILED, line))
}

#[test]
fn what_is_decided_is_written_before_the_next_piece(rt: HostRuntime) {
    let alloc = rt.alloc();
    assert!(rt; status_at(alloc, 1) == Some(4));
    assert!(rt; status_at(alloc, 3) == Some(4));
}

// ---- options of one letter

const LETTERS: [Row; 8] = [
    (
        &["subunit-filter", "-s", "-f", "-m", "^f", "log"],
        BOTH,
        NO_FAULT,
        PASSED_AND_LOG,
        b"",
        0,
    ),
    (
        &[
            "subunit-filter",
            "-m^f",
            "-F",
            "-s",
            "--failure",
            "-f",
            "log",
        ],
        BOTH,
        NO_FAULT,
        PASSED,
        b"",
        0,
    ),
    // A stream tells of no errors beside failures.
    (
        &["subunit-filter", "-e", "log"],
        BOTH,
        NO_FAULT,
        LOG_AND_FAILED,
        b"",
        0,
    ),
    // A value stays as it is, whatever it begins with.
    (
        &["subunit-filter", "-m", "-s", "log"],
        BOTH,
        NO_FAULT,
        b"x\n",
        b"",
        0,
    ),
    (
        &["subunit-filter", "--with-id", "-s", "log"],
        BOTH,
        NO_FAULT,
        b"x\n",
        b"",
        0,
    ),
    // An equals sign belongs to the pattern.
    (
        &["subunit-filter", "-m=foo", "log"],
        BOTH,
        NO_FAULT,
        b"x\n",
        b"",
        0,
    ),
    // Each letter is a word of its own.
    (
        &["subunit-filter", "-sf", "log"],
        BOTH,
        NO_FAULT,
        b"",
        b"subunit-filter: wrong usage\n",
        2,
    ),
    // Other filters have none.
    (
        &["subunit-ls", "-s", "log"],
        BOTH,
        NO_FAULT,
        b"",
        b"subunit-ls: wrong usage\n",
        2,
    ),
];

#[test]
fn letters_stand_for_long_options(rt: HostRuntime) {
    let alloc = rt.alloc();
    for (number, row) in LETTERS.iter().enumerate() {
        assert!(rt; does(alloc, row) == Some(true), "row {number}");
    }
}
