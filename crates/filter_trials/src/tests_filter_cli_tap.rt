//! Lines as packets and packets as lines, over streams in memory.

ghost use Rattle.std.specs.Prelude.{◌≤◌};

use crate::calls::{Done, does};
use edge_io::{ListSink, ListSource};
use filter_cli::tap_to_subunit;
use std::alloc::Global;
use sub_number::Bytes;

// Whether the lines, of which a read gives 7 bytes, give these packets, with status 0.
fn gives(alloc: Global, lines: &[u8], packets: &[u8]) -> Option<bool> {
    let lines = Bytes::new(alloc, lines).ok()?;
    let mut input = ListSource::new(lines, 7, Vec::new(alloc));
    let mut out = ListSink::new(alloc, Vec::new(alloc));
    let status = tap_to_subunit(alloc, &mut input, &mut out);
    Some(matches!(status, Ok(end) if end.status == 0 && !end.inside) && out.taken() == packets)
}

const THREE: &[u8] =
    b"\xb3)\x03\x17\x0etest 1 - firstY?)\x1e\xb3)f@O\x06test 2\x18text/plain; charset=UTF8\x08tap meta\x1ctest missing from TAP output\xff\x9f\xecs\xb3)g@B\x0ctest 3 third\x18text/plain; charset=UTF8\x0btap comment\x06later\n{$\x02\x8a";

const MISSING: &[u8] =
    b"\xb3)\x03\x0f\x06test 1\xb2\x92\xc6\xab\xb3)f@O\x06test 2\x18text/plain; charset=UTF8\x08tap meta\x1ctest missing from TAP output\xff\x9f\xecs";

// Lines, and the packets that they give.
const LINES: [(&[u8], &[u8]); 5] = [
    (b"1..3\nok 1 - first\nnot ok 3 third # TODO later\n", THREE),
    (b"1..2\nok\n", MISSING),
    (
        b"1..0 # skip none\r\n",
        b"\xb3)\x05\x12\x09file skip\xcf\xb9\xc9$",
    ),
    (b"", b""),
    // The last line needs no newline.
    (
        b"x\nok 1 a",
        b"\xb3!@\x12\x06stdout\x02x\n\x96\xc7\xfc~\xb3)\x03\x11\x08test 1 a \xb9\xbdo",
    ),
];

#[test]
fn lines_and_their_end_give_packets(rt: HostRuntime) {
    for row in &LINES {
        assert!(rt; gives(rt.alloc(), row.0, row.1) == Some(true));
    }
}

// A line of so many `a` behind a test line, and before its comment.
fn long_text(alloc: Global, count: usize) -> Option<Vec<u8>> {
    let mut lines = Vec::new(alloc);
    lines.extend_from_slice(b"ok\n").ok()?;
    for _ in 0..count {
        lines.push(b'a').ok()?;
    }
    lines.extend_from_slice(b"\n# why").ok()?;
    Some(lines)
}

// What it gives.
fn long_line(alloc: Global, count: usize, chunk: usize) -> Option<ListSink>
    requires { 1 ≤ chunk }
{
    let lines = Bytes::from_vec(long_text(alloc, count)?);
    let mut input = ListSource::new(lines, chunk, Vec::new(alloc));
    let mut out = ListSink::new(alloc, Vec::new(alloc));
    let status = tap_to_subunit(alloc, &mut input, &mut out);
    if status.is_ok() { Some(out) } else { None }
}

// Whether the line of 65,537 gives two pieces, and then the test its comment.
fn is_cut(out: &ListSink) -> bool {
    let text = out.taken();
    text.starts_with(b"\xb3!@\x81\x00\x14\x06stdout\x81\x00\x00aaaa")
        && text.ends_with(
            b"aaaa|\x0d\xc4\xbe\xb3!@\x11\x06stdout\x01aeO\xc0f\xb3)c;\x06test 1\x18text/plain; charset=UTF8\x0btap comment\x06# why\n\n'\x16\xc9",
        )
        && text.len() == 65_556 + 17 + 59
}

// Whether it is so where a read gives so many bytes.
fn is_cut_by(alloc: Global, chunk: usize) -> bool
    requires { 1 ≤ chunk }
{
    match long_line(alloc, 65_537, chunk) {
        Some(out) => is_cut(&out),
        None => false,
    }
}

#[test]
fn a_line_that_is_too_long_is_output(rt: HostRuntime) {
    assert!(rt; is_cut_by(rt.alloc(), 65_536));
    assert!(rt; is_cut_by(rt.alloc(), 4_096));
}

const KINDS: &[u8] =
    b"\xb3)\x03\n\x01a\xdd\xc1\xc7\xba\xb3)\x01\n\x01z\xfd\xad\xc6\xddlog\n\xb3)\x04\x0c\x03b\n#8q\xf4-\xb3)\x02\n\x01o\x82\xc5\x8d\xd8\xb3)\x05\n\x01c\x16\xa4\xf9J\xb3)\x06\n\x01d\x9au\xc3\x07\xb3)\x07\n\x01eU\xce\x94\xf4";

const WRITTEN: [Done; 4] = [
    (
        &["subunit2tap"],
        THREE,
        b"ok 1 test 1 - first\nnot ok 2 test 2\nnot ok 3 test 3 third # TODO\n1..3\n",
        1,
    ),
    (
        &["subunit2tap"],
        KINDS,
        b"ok 1 a\nnot ok 2 b??\nok 3 c # SKIP\nnot ok 4 d\nnot ok 5 e # TODO\nnot ok 6 o\n1..6\n",
        1,
    ),
    (
        &["subunit2tap"],
        b"\xb3)\x03\n\x01a\xdd\xc1\xc7\xba\xb3)\x05\n\x01c\x16\xa4\xf9J",
        b"ok 1 a\nok 2 c # SKIP\n1..2\n",
        0,
    ),
    (&["subunit2tap"], b"", b"1..0\n", 0),
];

#[test]
fn each_kind_of_row_has_its_line(rt: HostRuntime) {
    for row in &WRITTEN {
        assert!(rt; does(rt.alloc(), row));
    }
}
