//! Lines of version 1 as packets, and tests as such lines, as command lines.

use crate::calls::{Done, Faults, does, status_of};
use std::alloc::Global;

// `foo` begins at 100 s, and passes 1.5 s later with the tag `x`.
const TIMED: &[u8] =
    b"\xb3\x2b\x02\x11\x00\x00\x00\x64\x00\x03foo\x1e\xec\x90\x04\xb3\x2b\x83\x17\x00\x00\x00\x65\xdd\xcd\x65\x00\x03foo\x01\x01x\xba\x3a\xeb\x64";

const TIMED_LINES: &[u8] =
    b"time: 1970-01-01 00:01:40.000000Z\ntest: foo\ntags: x\ntime: 1970-01-01 00:01:41.500000Z\nsuccess: foo\n";

// The same as another producer writes it, with carriage returns.
const OTHER_LINES: &[u8] =
    b"time: 1970-01-01 00:01:40Z\r\ntest: foo\r\ntags: x\r\ntime: 1970-01-01 00:01:41.5Z\r\nsuccessful: foo";

// `a` begins; the byte `x` and a newline as a piece of `stdout`.
const BEGUN: &[u8] = b"\xb3)\x02\n\x01ae}\xa0\xdf";

const X: &[u8] = b"\xb3!@\x12\x06stdout\x02x\n\x96\xc7\xfc~";

// A part of `a` between its begin and its end.
const WITH_PART: &[u8] =
    b"\xb3)\x02\n\x01ae}\xa0\xdf\xb3)`\x1f\x01a\ntext/plain\x03log\x05]\x20x\ny\x9fF\x1f\xfa\xb3)\x03\n\x01a\xdd\xc1\xc7\xba";

// `a` fails with two lines.
const WITH_LINES: &[u8] =
    b"\xb3)\x02\n\x01ae}\xa0\xdf\xb3)f3\x01a\x17text/plain;charset=utf8\x09traceback\x06]\x20x\ny\nh\xb14\x10";

const PART: &[u8] =
    b"test: a\nsuccessful: a [ multipart\nContent-Type: text/plain\nlog\n5\r\n] x\ny0\r\n]\n";

// The byte `z`, and `a` begins.
const OPEN: &[u8] = b"z\xb3)\x02\n\x01ae}\xa0\xdf";

const OPEN_LINES: &[u8] = b"z\ntest: a\nerror: a [\nnot completed\n]\n";

const DONE: [Done; 10] = [
    (&["subunit-1to2"], TIMED_LINES, TIMED, 0),
    (&["subunit-1to2"], OTHER_LINES, TIMED, 0),
    (&["subunit-1to2"], PART, WITH_PART, 0),
    (
        &["subunit-1to2"],
        b"test: a\nfailure: a [\n ] x\ny\n]\n",
        WITH_LINES,
        0,
    ),
    (&["subunit-1to2"], b"x", X, 0),
    (&["subunit-1to2"], b"", b"", 0),
    (&["subunit-2to1"], TIMED, TIMED_LINES, 0),
    (&["subunit-2to1"], OPEN, OPEN_LINES, 0),
    (&["subunit-2to1"], X, b"x\n", 0),
    (&["subunit-2to1"], b"", b"", 0),
];

#[test]
fn lines_become_packets_and_tests_lines(rt: HostRuntime) {
    let alloc = rt.alloc();
    for (number, row) in DONE.iter().enumerate() {
        assert!(rt; does(alloc, row), "row {number}");
    }
}

// Words, a stream, the reads and the writes that fail, the text, the line, how many bytes are left of the stream, and the
// status.
type Refused = (
    &'static [&'static str],
    &'static [u8],
    Faults,
    &'static [u8],
    &'static [u8],
    usize,
    u8,
);

// A read gives 13 bytes.
const REFUSED: [Refused; 5] = [
    (
        &["subunit-1to2", "x", "y"],
        PART,
        (&[], &[]),
        b"",
        b"subunit-1to2: wrong usage\n",
        PART.len(),
        2,
    ),
    (
        &["subunit-2to1", "--times"],
        OPEN,
        (&[], &[]),
        b"",
        b"subunit-2to1: wrong usage\n",
        OPEN.len(),
        2,
    ),
    (
        &["subunit-1to2"],
        PART,
        (&[1], &[]),
        BEGUN,
        b"subunit-1to2: fault reading standard input\n",
        PART.len() - 13,
        4,
    ),
    (
        &["subunit-1to2"],
        b"test: a\n",
        (&[], &[0]),
        b"",
        b"subunit-1to2: fault writing output\n",
        0,
        4,
    ),
    (
        &["subunit-2to1"],
        OPEN,
        (&[1], &[]),
        b"z",
        b"subunit-2to1: fault reading standard input\n",
        0,
        4,
    ),
];

fn refuses(alloc: Global, row: &Refused) -> bool {
    status_of(alloc, row.0, row.1, &row.2, &(row.3, row.4, row.5)) == Some(row.6)
}

#[test]
fn what_the_bytes_read_decide_is_written(rt: HostRuntime) {
    let alloc = rt.alloc();
    for (number, row) in REFUSED.iter().enumerate() {
        assert!(rt; refuses(alloc, row), "row {number}");
    }
}
