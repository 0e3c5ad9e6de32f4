//! Events from words, and records of tests, as command lines.

use crate::calls::{Faults, NO_FAULT, status_of};
use std::alloc::Global;

// ---- streams

const PASSED: &[u8] = b"\xb3\x29\x03\x0c\x03foo\x45\x9d\xfe\x10";

// The same with the tag `foo`.
const PASSED_WITH_TAG: &[u8] = b"\xb3\x29\x83\x11\x03foo\x01\x03foo\x41\xe8\x94\x42";

// It passes at 101.5 s.
const PASSED_AT: &[u8] = b"\xb3\x2b\x03\x14\x00\x00\x00\x65\xdd\xcd\x65\x00\x03foo\x29\xe0\xf2\x1e";

// `foo` begins at 100 s, and passes 1.5 s later with the tag `x`.
const TIMED: &[u8] =
    b"\xb3\x2b\x02\x11\x00\x00\x00\x64\x00\x03foo\x1e\xec\x90\x04\xb3\x2b\x83\x17\x00\x00\x00\x65\xdd\xcd\x65\x00\x03foo\x01\x01x\xba\x3a\xeb\x64";

const TIMED_TEXT: &[u8] =
    b"test,status,start_time,stop_time\nfoo,success,1970-01-01 00:01:40.000000+00:00,1970-01-01 00:01:41.500000+00:00\n";

// Its first packet alone, and a byte of a log.
const OPEN: &[u8] = b"\xb3\x2b\x02\x11\x00\x00\x00\x64\x00\x03foo\x1e\xec\x90\x04\n";

const OPEN_TEXT: &[u8] =
    b"test,status,start_time,stop_time\nfoo,inprogress,1970-01-01 00:01:40.000000+00:00,\n";

// `a,b` passed and `c` failed, without times.
const COMMA: &[u8] =
    b"\xb3\x29\x03\x0c\x03a,b\xe5\x37\x88\xee\xb3\x29\x06\x0a\x01c\x04\x11\x56\xa4";

const COMMA_TEXT: &[u8] = b"test,status,start_time,stop_time\n\"a,b\",success,,\n";

const BOTH_TEXT: &[u8] = b"test,status,start_time,stop_time\n\"a,b\",success,,\nc,fail,,\n";

const C_TEXT: &[u8] = b"test,status,start_time,stop_time\nc,fail,,\n";

// `t1` with the tag `b` passed, `t2` with the tag `a` failed, `t3` was skipped.
const TAGGED: &[u8] =
    b"\xb3\x29\x83\x0e\x02t1\x01\x01b\x97\xfa\xb6\x12\xb3\x29\x86\x0e\x02t2\x01\x01a\x54\xa6\x46\x22\xb3\x29\x05\x0b\x02t3\x44\xb4\xdf\x46";

const T1_TEXT: &[u8] = b"test,status,start_time,stop_time\nt1,success,,\n";

const T3_TEXT: &[u8] = b"test,status,start_time,stop_time\nt3,skip,,\n";

const HEAD: &[u8] = b"test,status,start_time,stop_time\n";

// The end of a file, and before it the file `stdin` of the byte `x`.
const END: &[u8] = b"\xb3\x21\x10\x08\x53\x15\x88\xdc";

const X_AND_END: &[u8] =
    b"\xb3\x21\x40\x10\x05stdin\x01x\x27\x0e\x94\xd9\xb3\x21\x10\x08\x53\x15\x88\xdc";

// ---- what is done

// Words, a stream, the text, and how many bytes are left of the stream.
type Done = (&'static [&'static str], &'static [u8], &'static [u8], usize);

const DONE: [Done; 15] = [
    (&["subunit2csv"], TIMED, TIMED_TEXT, 0),
    (&["subunit2csv"], OPEN, OPEN_TEXT, 0),
    (&["subunit2csv"], b"", HEAD, 0),
    (&["subunit2csv"], b"x", HEAD, 0),
    (&["subunit2csv"], COMMA, BOTH_TEXT, 0),
    (&["subunit2csv", "--no-failure"], COMMA, COMMA_TEXT, 0),
    (&["subunit2csv", "--with-id", "^c"], COMMA, C_TEXT, 0),
    (&["subunit2csv", "--with-tag=b"], TAGGED, T1_TEXT, 0),
    (
        &["subunit2csv", "--no-success", "--without-tag=a"],
        TAGGED,
        T3_TEXT,
        0,
    ),
    (&["subunit-output", "--success=foo"], TIMED, PASSED, 40),
    (
        &["subunit-output", "--success=foo", "--tag=foo"],
        b"x",
        PASSED_WITH_TAG,
        1,
    ),
    (
        &[
            "subunit-output",
            "--timestamp=1970-01-01 00:01:41.5Z",
            "--success=foo",
        ],
        b"",
        PASSED_AT,
        0,
    ),
    (&["subunit-output", "--attach-file=-"], b"", END, 0),
    (&["subunit-output", "--attach-file=-"], b"x", X_AND_END, 0),
    (&["subunit-output", "--success", "foo"], b"", PASSED, 0),
];

fn does(alloc: Global, row: &Done) -> bool {
    status_of(alloc, row.0, row.1, &NO_FAULT, &(row.2, b"", row.3)) == Some(0)
}

#[test]
fn tests_become_records_and_words_events(rt: HostRuntime) {
    let alloc = rt.alloc();
    for (number, row) in DONE.iter().enumerate() {
        assert!(rt; does(alloc, row), "row {number}");
    }
}

// ---- what is refused

// Words, the line that refuses them, and the status. The stream is left as it was, and nothing is written.
type Refused = (&'static [&'static str], &'static [u8], u8);

const OUTPUT_USAGE: &[u8] = b"subunit-output: wrong usage\n";

const REFUSED: [Refused; 7] = [
    (&["subunit-output"], OUTPUT_USAGE, 2),
    (&["subunit-output", "--fail=a", "--skip=a"], OUTPUT_USAGE, 2),
    (
        &["subunit-output", "--tag=x", "--attach-file=-"],
        OUTPUT_USAGE,
        2,
    ),
    (&["subunit2csv", "x", "y"], b"subunit2csv: wrong usage\n", 2),
    (
        &["subunit2csv", "--success"],
        b"subunit2csv: wrong usage\n",
        2,
    ),
    (
        &["subunit2csv", "--with-id=a", "--without-id=("],
        b"subunit2csv: bad pattern: (\n",
        3,
    ),
    (
        &["subunit2txt"],
        b"usage: testr COMMAND or a subunit filter\n",
        2,
    ),
];

fn refuses(alloc: Global, row: &Refused) -> bool {
    status_of(alloc, row.0, TIMED, &NO_FAULT, &(b"", row.1, 40)) == Some(row.2)
}

#[test]
fn refused_words_touch_nothing(rt: HostRuntime) {
    let alloc = rt.alloc();
    for (number, row) in REFUSED.iter().enumerate() {
        assert!(rt; refuses(alloc, row), "row {number}");
    }
}

// ---- what is written where a call fails

// Words, the reads and the writes that fail, the text, the line, and how many bytes are left of the stream.
type Failed = (
    &'static [&'static str],
    Faults,
    &'static [u8],
    &'static [u8],
    usize,
);

const FAILED: [Failed; 5] = [
    (
        &["subunit2csv"],
        (&[0], &[]),
        b"",
        b"subunit2csv: fault reading standard input\n",
        40,
    ),
    (
        &["subunit2csv"],
        (&[1], &[]),
        HEAD,
        b"subunit2csv: fault reading standard input\n",
        27,
    ),
    (
        &["subunit-output", "--attach-file=-"],
        (&[1], &[]),
        b"",
        b"subunit-output: fault reading standard input\n",
        27,
    ),
    (
        &["subunit-output", "--success=foo"],
        (&[0], &[]),
        PASSED,
        b"",
        40,
    ),
    (
        &["subunit-output", "--success=foo"],
        (&[], &[0]),
        b"",
        b"subunit-output: fault writing output\n",
        40,
    ),
];

fn fails(alloc: Global, row: &Failed) -> Option<u8> {
    status_of(alloc, row.0, TIMED, &row.1, &(row.2, row.3, row.4))
}

#[test]
fn what_the_bytes_read_decide_is_written(rt: HostRuntime) {
    let alloc = rt.alloc();
    for (number, row) in FAILED.iter().enumerate() {
        let status = if row.3.is_empty() { 0 } else { 4 };
        assert!(rt; fails(alloc, row) == Some(status), "row {number}");
    }
}
