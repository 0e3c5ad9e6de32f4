//! Filters as command lines, over streams in memory.

use crate::calls::{Done, Faults, Left, NO_FAULT, are_texts, does, gives, ran, status_of};
use crate::sources::source;
use edge_io::{ListSink, ListSource};
use std::alloc::Global;
use sub_number::Bytes;

// `foo` passed, a line of a log, and `foo` failed.
const PASSED: &[u8] = b"\xb3\x29\x03\x0c\x03foo\x45\x9d\xfe\x10";

const FAILED: &[u8] = b"\xb3\x29\x06\x0c\x03foo\x15\x50\x6f\xa3";

const BOTH: &[u8] =
    b"\xb3\x29\x03\x0c\x03foo\x45\x9d\xfe\x10x\n\xb3\x29\x06\x0c\x03foo\x15\x50\x6f\xa3";

const LOG_AND_FAILED: &[u8] = b"x\n\xb3\x29\x06\x0c\x03foo\x15\x50\x6f\xa3";

const PASSED_AND_LOG: &[u8] = b"\xb3\x29\x03\x0c\x03foo\x45\x9d\xfe\x10x\n";

// `t1` with the tag `b` passed, `t2` with the tag `a` failed, `t3` was skipped.
const TAGGED: &[u8] =
    b"\xb3\x29\x83\x0e\x02t1\x01\x01b\x97\xfa\xb6\x12\xb3\x29\x86\x0e\x02t2\x01\x01a\x54\xa6\x46\x22\xb3\x29\x05\x0b\x02t3\x44\xb4\xdf\x46";

// `foo` with the tag `bar` passed, and the same with the tag `foo`.
const WITH_BAR: &[u8] = b"\xb3\x29\x83\x11\x03foo\x01\x03bar\xbb\x64\x7d\xc9";

const WITH_FOO: &[u8] = b"\xb3\x29\x83\x11\x03foo\x01\x03foo\x41\xe8\x94\x42";

// `foo` begins at 100 s, and passes 1.0005 s later.
const TIMED: &[u8] =
    b"\xb3\x2b\x02\x11\x00\x00\x00\x64\x00\x03foo\x1e\xec\x90\x04\xb3\x2b\x03\x13\x00\x00\x00\x65\x87\xa1\x20\x03foo\xa7\x22\xac\x32";

// `a` is known to exist, a line of a log, and `b` failed.
const LOGGED: &[u8] =
    b"\xb3\x29\x01\x0a\x01a\x77\xc8\x0f\x31x\n\xb3\x29\x06\x0a\x01b\x73\x16\x66\x32";

// What the filter writes of the stream, where its status is 0.
fn written(alloc: Global, word: &str, stream: &[u8]) -> Option<ListSink> {
    let mut input = source(alloc, stream, &[])?;
    let mut out = ListSink::new(alloc, Vec::new(alloc));
    let mut err = ListSink::new(alloc, Vec::new(alloc));
    let status = ran(alloc, &[word], &mut input, &mut out, &mut err);
    if status == Some(0) { Some(out) } else { None }
}

// Whether the second filter gives this text and status of what the first one writes of the stream.
fn gives_through(
    alloc: Global,
    first: &str,
    second: &str,
    stream: &[u8],
    text: &[u8],
    status: u8,
) -> bool {
    match written(alloc, first, stream) {
        Some(out) => gives(alloc, &[second], out.taken(), text, status),
        None => false,
    }
}

// Whether the words are refused by this line and status, with the stream as it was.
fn refuses(alloc: Global, words: &[&str], line: &[u8], status: u8) -> bool {
    status_of(alloc, words, BOTH, &NO_FAULT, &(b"", line, 26)) == Some(status)
}

const LET_THROUGH: [Done; 5] = [
    (&["subunit-filter"], BOTH, LOG_AND_FAILED, 0),
    (&["subunit-filter", "--no-passthrough"], BOTH, FAILED, 0),
    (
        &[
            "subunit-filter",
            "--success",
            "--no-failure",
            "--with-id=^f",
        ],
        BOTH,
        PASSED_AND_LOG,
        0,
    ),
    (
        &[
            "subunit-filter",
            "--only-genuine-failures",
            "--success",
            "--failure",
            "--no-failure",
        ],
        BOTH,
        PASSED,
        0,
    ),
    (&["subunit-filter", "--with-tag=a"], FAILED, b"", 0),
];

#[test]
fn tests_are_let_through_as_is_asked_for(rt: HostRuntime) {
    for row in &LET_THROUGH {
        assert!(rt; does(rt.alloc(), row));
    }
}

const RETAGGED: [Done; 2] = [
    (&["subunit-tags", "foo", "-bar"], WITH_BAR, WITH_FOO, 0),
    // Behind the separator may stand nothing.
    (
        &["subunit-tags", "foo", "-bar", "--"],
        WITH_BAR,
        WITH_FOO,
        0,
    ),
];

#[test]
fn tags_are_added_and_removed(rt: HostRuntime) {
    for row in &RETAGGED {
        assert!(rt; does(rt.alloc(), row));
    }
}

const LISTED: [Done; 7] = [
    (&["subunit-ls", "--times"], TIMED, b"foo 1.001\n", 0),
    (&["subunit-ls", "--no-passthrough"], LOGGED, b"b\n", 1),
    (&["subunit-ls"], LOGGED, b"x\nb\n", 1),
    (&["subunit-ls", "--exists"], LOGGED, b"a\nx\nb\n", 1),
    (
        &["subunit-ls", "--exists", "--no-passthrough"],
        LOGGED,
        b"a\nb\n",
        1,
    ),
    (
        &["subunit-stats"],
        TAGGED,
        b"Total tests:       3\nPassed tests:      1\nFailed tests:      1\nSkipped tests:     1\nSeen tags: a, b\n",
        1,
    ),
    (
        &["subunit-stats"],
        b"",
        b"Total tests:       0\nPassed tests:      0\nFailed tests:      0\nSkipped tests:     0\nSeen tags: \n",
        0,
    ),
];

#[test]
fn tests_are_listed_and_counted(rt: HostRuntime) {
    for row in &LISTED {
        assert!(rt; does(rt.alloc(), row));
    }
}

// Words, the line that refuses them, and the status.
const REFUSED: [(&[&str], &[u8], u8); 7] = [
    (
        &["subunit-filter", "--success", "x", "y"],
        b"subunit-filter: wrong usage\n",
        2,
    ),
    (&["subunit-tags", "-"], b"subunit-tags: wrong usage\n", 2),
    (
        &["subunit-stats", "--times"],
        b"subunit-stats: wrong usage\n",
        2,
    ),
    (
        &["subunit-tags", "a", ""],
        b"subunit-tags: wrong usage\n",
        2,
    ),
    (
        &["subunit"],
        b"usage: testr COMMAND or a subunit filter\n",
        2,
    ),
    (
        &["subunit-filter", "--with-id=("],
        b"subunit-filter: bad pattern: (\n",
        3,
    ),
    (
        &[
            "subunit-filter",
            "--with-id=a",
            "--without-id=[",
            "--with-id=(",
        ],
        b"subunit-filter: bad pattern: [\n",
        3,
    ),
];

#[test]
fn words_and_patterns_are_refused_before_the_input_is_read(rt: HostRuntime) {
    for row in &REFUSED {
        assert!(rt; refuses(rt.alloc(), row.0, row.1, row.2));
    }
}

// Words, a stream, the reads and the writes that fail, and what they leave.
type Failing = (
    &'static [&'static str],
    &'static [u8],
    Faults,
    Left<'static>,
);

const INPUT_OF_LS: &[u8] = b"subunit-ls: fault reading standard input\n";

// The reads give 13 bytes each, and the last one what is left.
const FAILING: [Failing; 5] = [
    (
        &["subunit-filter"],
        LOG_AND_FAILED,
        (&[2], &[]),
        (
            LOG_AND_FAILED,
            b"subunit-filter: fault reading standard input\n",
            0,
        ),
    ),
    (&["subunit-ls"], LOGGED, (&[0], &[]), (b"", INPUT_OF_LS, 22)),
    (&["subunit-ls"], LOGGED, (&[1], &[]), (b"", INPUT_OF_LS, 9)),
    (
        &["subunit-ls"],
        LOGGED,
        (&[2], &[]),
        (b"x\nb\n", INPUT_OF_LS, 0),
    ),
    (
        &["subunit-ls"],
        LOGGED,
        (&[], &[0]),
        (b"", b"subunit-ls: fault writing output\n", 0),
    ),
];

fn fails_so(alloc: Global, row: &Failing) -> bool {
    status_of(alloc, row.0, row.1, &row.2, &row.3) == Some(4)
}

#[test]
fn what_is_decided_is_written_before_a_fault(rt: HostRuntime) {
    for row in &FAILING {
        assert!(rt; fails_so(rt.alloc(), row));
    }
}

// The failed `foo`, and a long run of foreign bytes.
fn failed_and_run(alloc: Global) -> Option<Bytes> {
    let mut stream = FAILED.to_vec(alloc).ok()?;
    for _ in 0..200_000 {
        stream.push(b'a').ok()?;
    }
    Bytes::new(alloc, &stream).ok()
}

// The status where these writes fail, where this is the line and at least so many bytes are left.
fn status_of_writes(alloc: Global, fails: &[u64], line: &[u8], left: usize) -> Option<u8> {
    let fails = fails.to_vec(alloc).ok()?;
    let stream = failed_and_run(alloc)?;
    let mut input = ListSource::new(stream, 65_536, Vec::new(alloc));
    let mut out = ListSink::new(alloc, fails);
    let mut err = ListSink::new(alloc, Vec::new(alloc));
    let status = ran(alloc, &["subunit-filter"], &mut input, &mut out, &mut err);
    if are_texts(&out, &err, b"", line) && input.left().len() >= left {
        status
    } else {
        None
    }
}

#[test]
fn what_is_decided_is_written_before_the_next_read(rt: HostRuntime) {
    let alloc = rt.alloc();
    // Of 200,012 bytes at most 65,547 are read: no more than the first piece is, whose test is written.
    let status = status_of_writes(
        alloc,
        &[0],
        b"subunit-filter: fault writing output\n",
        134_465,
    );
    assert!(rt; status == Some(4));
}

#[test]
fn lines_of_tap_come_back(rt: HostRuntime) {
    let alloc = rt.alloc();
    assert!(rt;
        gives_through(
            alloc,
            "tap2subunit",
            "subunit2tap",
            b"1..3\nok 1 - first\nnot ok 3 third # TODO later\n",
            b"ok 1 test 1 - first\nnot ok 2 test 2\nnot ok 3 test 3 third # TODO\n1..3\n",
            1
        )
    );
}
