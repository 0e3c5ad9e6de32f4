//! Streams that end inside a packet, as command lines.

use crate::calls::{Faults, NO_FAULT, are_texts, ran, site_with, status_of, status_over};
use crate::sources::source;
use edge_io::ListSink;
use std::alloc::Global;

// `foo` failed, and the front of the packet that tells that it passed.
const CUT: &[u8] = b"\xb3\x29\x06\x0c\x03foo\x15\x50\x6f\xa3\xb3\x29\x03\x0c\x03foo";

const CUT_LISTED: &[u8] = b"foo\n\xb3\x29\x03\x0c\x03foo";

const CUT_COUNTED: &[u8] =
    b"\xb3\x29\x03\x0c\x03fooTotal tests:       1\nPassed tests:      0\nFailed tests:      1\nSkipped tests:     0\nSeen tags: \n";

// The packet that tells that `foo` passed, with another checksum.
const DAMAGED: &[u8] = b"\xb3\x29\x03\x0c\x03foo\x45\x9d\xfe\x11";

// A length that claims more than there is, in front of that packet as it is to be.
const CLAIMING: &[u8] = b"\xb3\x29\x03\x3c\xb3\x29\x03\x0c\x03foo\x45\x9d\xfe\x10";

// The text `ó el `, in which the signature is the second byte of a character, and the same in front of the packet that tells
// that `foo` passed.
const TEXT: &[u8] = b"\xc3\xb3 el ";

const TEXT_AND_FOO: &[u8] = b"\xc3\xb3 el \xb3\x29\x03\x0c\x03foo\x45\x9d\xfe\x10";

// The signature and a byte of the version as a piece of `stdout`, and the same as a line.
const AS_PIECE: &[u8] = b"\xb3\x21\x40\x12\x06stdout\x02\xb3\x29\x1c\xae\x83\x89";

const AS_LINE: &[u8] = b"\xb3\x21\x40\x13\x06stdout\x03\xb3\x29\n\x85\xb6\xb8\x9e";

const NO_CASES: &[u8] =
    b"<?xml version=\"1.0\" encoding=\"utf-8\"?>\n<testsuite name=\"\" tests=\"0\" failures=\"0\" errors=\"0\" skipped=\"0\" time=\"0.000\">\n</testsuite>\n";

const CSV_HEAD: &[u8] = b"test,status,start_time,stop_time\n";

const LS_LINE: &[u8] = b"subunit-ls: the input ends inside a packet\n";

const STATS_LINE: &[u8] = b"subunit-stats: the input ends inside a packet\n";

const FILTER_LINE: &[u8] = b"subunit-filter: the input ends inside a packet\n";

// Words, a stream, the reads and the writes that fail, what is written, what is said, how many bytes are left, and the status.
type Row = (
    &'static [&'static str],
    &'static [u8],
    Faults,
    &'static [u8],
    &'static [u8],
    usize,
    u8,
);

fn does(alloc: Global, row: &Row) -> bool {
    status_of(alloc, row.0, row.1, &row.2, &(row.3, row.4, row.5)) == Some(row.6)
}

// Each filter that reads packets.
const INSIDE: [Row; 14] = [
    (&["subunit-ls"], CUT, NO_FAULT, CUT_LISTED, LS_LINE, 0, 1),
    (
        &["subunit-ls", "--no-passthrough"],
        CUT,
        NO_FAULT,
        b"foo\n",
        LS_LINE,
        0,
        1,
    ),
    (
        &["subunit-filter"],
        b"x\n\xb3\x2f",
        NO_FAULT,
        b"x\n\xb3\x2f",
        FILTER_LINE,
        0,
        0,
    ),
    // The packet of `foo` is held back by the length in front of it, and let through at the end.
    (
        &["subunit-filter", "--success"],
        CLAIMING,
        NO_FAULT,
        CLAIMING,
        FILTER_LINE,
        0,
        0,
    ),
    (
        &["subunit-tags"],
        b"\xb3\x29",
        NO_FAULT,
        AS_PIECE,
        b"subunit-tags: the input ends inside a packet\n",
        0,
        0,
    ),
    (
        &["subunit-stats"],
        CUT,
        NO_FAULT,
        CUT_COUNTED,
        STATS_LINE,
        0,
        1,
    ),
    (
        &["subunit-trace", "--no-summary"],
        b"\xb3\x29\x03",
        NO_FAULT,
        b"",
        b"subunit-trace: the input ends inside a packet\n",
        0,
        1,
    ),
    (
        &["subunit2tap"],
        b"\xb3\x29",
        NO_FAULT,
        b"1..0\n",
        b"subunit2tap: the input ends inside a packet\n",
        0,
        0,
    ),
    (
        &["subunit2csv"],
        b"\xb3\x29",
        NO_FAULT,
        CSV_HEAD,
        b"subunit2csv: the input ends inside a packet\n",
        0,
        0,
    ),
    (
        &["subunit2junitxml"],
        b"\xb3\x29\x03\x0c\x03foo\x45\x9d\xfe",
        NO_FAULT,
        NO_CASES,
        b"subunit2junitxml: the input ends inside a packet\n",
        0,
        0,
    ),
    (
        &["subunit-2to1"],
        b"\xb3\x20",
        NO_FAULT,
        b"\xb3\x20",
        b"subunit-2to1: the input ends inside a packet\n",
        0,
        0,
    ),
    // Behind a whole character, and behind a packet, in front of which a character was begun.
    (
        &["subunit-ls"],
        b"\xc3\xa9\xb3\x29\x03",
        NO_FAULT,
        b"\xc3\xa9\xb3\x29\x03",
        LS_LINE,
        0,
        0,
    ),
    (
        &["subunit-ls"],
        b"\xc3\xb3\x29\x06\x0c\x03foo\x15\x50\x6f\xa3\xb3\x29\x03",
        NO_FAULT,
        b"\xc3foo\n\xb3\x29\x03",
        LS_LINE,
        0,
        1,
    ),
    // A length in two bytes, of which one is there.
    (
        &["subunit-ls"],
        b"\xb3\x29\x03\x40",
        NO_FAULT,
        b"\xb3\x29\x03\x40",
        LS_LINE,
        0,
        0,
    ),
];

#[test]
fn a_stream_that_ends_inside_a_packet_is_told_of(rt: HostRuntime) {
    for row in &INSIDE {
        assert!(rt; does(rt.alloc(), row));
    }
}

const OUTSIDE: [Row; 13] = [
    // A signature alone, and one with a byte of another version.
    (&["subunit-ls"], b"\xb3", NO_FAULT, b"\xb3", b"", 0, 0),
    (
        &["subunit-ls"],
        b"\xb3\x30",
        NO_FAULT,
        b"\xb3\x30",
        b"",
        0,
        0,
    ),
    (
        &["subunit-ls"],
        b"\xb3\x1f",
        NO_FAULT,
        b"\xb3\x1f",
        b"",
        0,
        0,
    ),
    (&["subunit-ls"], DAMAGED, NO_FAULT, DAMAGED, b"", 0, 0),
    // Flags that no header has, and a length that has no room for the header and a checksum.
    (
        &["subunit-filter"],
        b"\xb3\x29\x0b",
        NO_FAULT,
        b"\xb3\x29\x0b",
        b"",
        0,
        0,
    ),
    (
        &["subunit-filter"],
        b"\xb3\x29\x03\x07",
        NO_FAULT,
        b"\xb3\x29\x03\x07",
        b"",
        0,
        0,
    ),
    // A signature that goes on with a character.
    (&["subunit-ls"], TEXT, NO_FAULT, TEXT, b"", 0, 0),
    (
        &["subunit-filter", "--success"],
        TEXT_AND_FOO,
        NO_FAULT,
        TEXT_AND_FOO,
        b"",
        0,
        0,
    ),
    (
        &["subunit-ls"],
        b"\xc2\xb3/",
        NO_FAULT,
        b"\xc2\xb3/",
        b"",
        0,
        0,
    ),
    (
        &["subunit-filter"],
        b"\xc3\xb3\x29\x03",
        NO_FAULT,
        b"\xc3\xb3\x29\x03",
        b"",
        0,
        0,
    ),
    // Filters that read lines.
    (&["tap2subunit"], b"\xb3\x29", NO_FAULT, AS_LINE, b"", 0, 0),
    (&["subunit-1to2"], b"\xb3\x29", NO_FAULT, AS_LINE, b"", 0, 0),
    // One that reads nothing.
    (
        &["subunit-output", "--success=foo"],
        b"\xb3\x29",
        NO_FAULT,
        b"\xb3\x29\x03\x0c\x03foo\x45\x9d\xfe\x10",
        b"",
        2,
        0,
    ),
];

#[test]
fn no_other_stream_is(rt: HostRuntime) {
    for row in &OUTSIDE {
        assert!(rt; does(rt.alloc(), row));
    }
}

// What could not be read or written is told of, and nothing else.
const REFUSED: [Row; 2] = [
    (
        &["subunit-ls"],
        CUT,
        (&[1], &[]),
        b"foo\n",
        b"subunit-ls: fault reading standard input\n",
        7,
        4,
    ),
    (
        &["subunit-ls"],
        b"\xb3\x29",
        (&[], &[0]),
        b"",
        b"subunit-ls: fault writing output\n",
        0,
        4,
    ),
];

#[test]
fn a_refusal_stands_alone(rt: HostRuntime) {
    for row in &REFUSED {
        assert!(rt; does(rt.alloc(), row));
    }
}

// The status of `subunit-stats log`, where the file has these bytes, this is written and this said.
fn status_named(alloc: Global, bytes: &[u8], text: &[u8], line: &[u8]) -> Option<u8> {
    let mut site = site_with(alloc, bytes.to_vec(alloc).ok()?, &[])?;
    status_over(
        alloc,
        &["subunit-stats", "log"],
        &mut site,
        &[],
        &(text, line),
    )
}

#[test]
fn a_file_that_is_named_is_as_the_input(rt: HostRuntime) {
    let alloc = rt.alloc();
    assert!(rt; status_named(alloc, CUT, CUT_COUNTED, STATS_LINE) == Some(1));
    let whole = &CUT[..12];
    let counted = &CUT_COUNTED[8..];
    assert!(rt; status_named(alloc, whole, counted, b"") == Some(1));
}

// The status where this write to the errors fails, and this was said before it.
fn status_unsaid(alloc: Global, fails: u64, said: &[u8]) -> Option<u8> {
    let mut fail = Vec::new(alloc);
    fail.push(fails).ok()?;
    let mut input = source(alloc, CUT, &[])?;
    let mut out = ListSink::new(alloc, Vec::new(alloc));
    let mut err = ListSink::new(alloc, fail);
    let status = ran(alloc, &["subunit-ls"], &mut input, &mut out, &mut err);
    if are_texts(&out, &err, CUT_LISTED, said) {
        status
    } else {
        None
    }
}

#[test]
fn where_it_cannot_be_told_nothing_else_changes(rt: HostRuntime) {
    let alloc = rt.alloc();
    assert!(rt; status_unsaid(alloc, 0, b"") == Some(1));
    assert!(rt; status_unsaid(alloc, 1, b"subunit-ls") == Some(1));
}
