//! Files that `subunit-output` attaches by their names.

use crate::calls::{Faults, NO_FAULT, site_with, status_over};
use crate::slow_site::SlowSite;
use std::alloc::Global;

// ---- small files

// The end of a file.
const END: &[u8] = b"\xb3!\x10\x08S\x15\x88\xdc";

const TEN: &[u8] = b"\xb3!@\x17\x03log\x0a0123456789G\xb8~\xe3\xb3!\x10\x08S\x15\x88\xdc";

const TEN_AS_OUT: &[u8] =
    b"\xb3!@\x17\x03out\x0a0123456789\xce\x07\xa4\xc8\xb3!\x10\x08S\x15\x88\xdc";

// `foo` failed, and so the file ends.
const FAILED: &[u8] = b"\xb3)\x16\x0c\x03foo\x16\x86m8";

// A piece of `foo` with its type, at 101.5 s, and that `foo` failed then, with the tags `y` and `x`.
const ALL_TOLD: &[u8] =
    b"\xb3+`.\x00\x00\x00e\xdd\xcde\x00\x03foo\x0atext/plain\x03log\x0a01234567890\x8c\x9a\xac\xb3+\x96\x19\x00\x00\x00e\xdd\xcde\x00\x03foo\x02\x01y\x01xB\xd2A\x07";

const DIGITS: &[u8] = b"0123456789";

// Words, the bytes of `log`, the reads and the writes that fail, what is written, what is said, and the status.
type Row = (
    &'static [&'static str],
    &'static [u8],
    Faults,
    &'static [u8],
    &'static [u8],
    u8,
);

const ROWS: [Row; 11] = [
    (
        &["subunit-output", "--attach-file=log"],
        b"",
        NO_FAULT,
        END,
        b"",
        0,
    ),
    (
        &["subunit-output", "--attach-file", "log"],
        DIGITS,
        NO_FAULT,
        TEN,
        b"",
        0,
    ),
    (
        &["subunit-output", "--attach-file=-", "--attach-file=log"],
        DIGITS,
        NO_FAULT,
        TEN,
        b"",
        0,
    ),
    (
        &["subunit-output", "--attach-file=log", "--file-name=out"],
        DIGITS,
        NO_FAULT,
        TEN_AS_OUT,
        b"",
        0,
    ),
    (
        &["subunit-output", "--fail=foo", "--attach-file=log"],
        b"",
        NO_FAULT,
        FAILED,
        b"",
        0,
    ),
    (
        &[
            "subunit-output",
            "--timestamp=1970-01-01 00:01:41.5Z",
            "--fail=foo",
            "--tag=y",
            "--tag=x",
            "--attach-file=log",
            "--mimetype=text/plain",
        ],
        DIGITS,
        NO_FAULT,
        ALL_TOLD,
        b"",
        0,
    ),
    (
        &["subunit-output", "--attach-file=gone"],
        DIGITS,
        NO_FAULT,
        b"",
        b"subunit-output: no file gone\n",
        3,
    ),
    // The empty name is a name.
    (
        &["subunit-output", "--attach-file="],
        DIGITS,
        NO_FAULT,
        b"",
        b"subunit-output: no file \n",
        3,
    ),
    // The first read fails, as that of a folder does.
    (
        &["subunit-output", "--attach-file=log"],
        DIGITS,
        (&[0], &[]),
        b"",
        b"subunit-output: fault reading a file\n",
        4,
    ),
    // The read behind the last byte fails: no piece is full.
    (
        &["subunit-output", "--attach-file=log"],
        DIGITS,
        (&[1], &[]),
        b"",
        b"subunit-output: fault reading a file\n",
        4,
    ),
    (
        &["subunit-output", "--attach-file=log"],
        DIGITS,
        (&[], &[0]),
        b"",
        b"subunit-output: fault writing output\n",
        4,
    ),
];

fn status_of_row(alloc: Global, row: &Row) -> Option<u8> {
    let bytes = row.1.to_vec(alloc).ok()?;
    let mut site = site_with(alloc, bytes, row.2.0)?;
    status_over(alloc, row.0, &mut site, row.2.1, &(row.3, row.4))
}

#[test]
fn a_file_is_attached_by_its_name(rt: HostRuntime) {
    let alloc = rt.alloc();
    for (number, row) in ROWS.iter().enumerate() {
        assert!(rt; status_of_row(alloc, row) == Some(row.5), "row {number}");
    }
}

// ---- large files

// So many bytes, of which no two pieces are the same.
fn content(alloc: Global, size: usize) -> Option<Vec<u8>> {
    let mut bytes = Vec::new(alloc);
    for place in 0..size {
        bytes.push((place % 251) as u8).ok()?;
    }
    Some(bytes)
}

// Of the packet of a piece what stands in front of its bytes, and behind them.
type Piece = (&'static [u8], &'static [u8]);

// What stands in front of 65,536 bytes.
const FULL: &[u8] = b"\xb3!@\x81\x00\x11\x03log\x81\x00\x00";

const FIRST: [Piece; 1] = [(FULL, b"\xb5\xa6pg")];

const FIRST_AND_ONE: [Piece; 2] = [
    (FULL, b"\xb5\xa6pg"),
    (b"\xb3!@\x0e\x03log\x01", b"\xe3\x98<\x8f"),
];

const FIRST_TWO: [Piece; 2] = [(FULL, b"\xb5\xa6pg"), (FULL, b"\x1e\xb0\xe2\x8f")];

// Three pieces of 65,536 bytes, and one of 3,392.
const FOUR: [Piece; 4] = [
    (FULL, b"\xb5\xa6pg"),
    (FULL, b"\x1e\xb0\xe2\x8f"),
    (FULL, b"\xed\x86T\xa0"),
    (b"\xb3!@MO\x03logM@", b"x\x9c\xde\x8c"),
];

// Appends the packet of the next piece, and answers what follows it.
fn add_packet<'a>(piece: &Piece, bytes: &'a [u8], packets: &mut Vec<u8>) -> Option<&'a [u8]> {
    let count = bytes.len().min(65_536);
    packets.extend_from_slice(piece.0).ok()?;
    packets.extend_from_slice(&bytes[..count]).ok()?;
    packets.extend_from_slice(piece.1).ok()?;
    Some(&bytes[count..])
}

// The packets of these pieces of the bytes, and then these.
fn packets_of(alloc: Global, pieces: &[Piece], bytes: &[u8], last: &[u8]) -> Option<Vec<u8>> {
    let mut packets = Vec::new(alloc);
    let mut rest = bytes;
    for piece in pieces {
        rest = add_packet(piece, rest, &mut packets)?;
    }
    packets.extend_from_slice(last).ok()?;
    Some(packets)
}

// How many bytes `log` has, the reads and the writes that fail, the pieces that are written, what is written behind them,
// what is said, and the status.
type Large = (
    usize,
    Faults,
    &'static [Piece],
    &'static [u8],
    &'static [u8],
    u8,
);

const LARGE: [Large; 5] = [
    (65_536, NO_FAULT, &FIRST, END, b"", 0),
    (65_537, NO_FAULT, &FIRST_AND_ONE, END, b"", 0),
    (200_000, NO_FAULT, &FOUR, END, b"", 0),
    // The third read fails.
    (
        200_000,
        (&[2], &[]),
        &FIRST_TWO,
        b"",
        b"subunit-output: fault reading a file\n",
        4,
    ),
    (
        200_000,
        (&[], &[1]),
        &FIRST,
        b"",
        b"subunit-output: fault writing output\n",
        4,
    ),
];

const LOG: [&str; 2] = ["subunit-output", "--attach-file=log"];

fn status_of_large(alloc: Global, row: &Large) -> Option<u8> {
    let bytes = content(alloc, row.0)?;
    let packets = packets_of(alloc, row.2, &bytes, row.3)?;
    let mut site = site_with(alloc, bytes, row.1.0)?;
    status_over(alloc, &LOG, &mut site, row.1.1, &(&packets, row.4))
}

#[test]
fn a_large_file_is_cut_every_65536_bytes(rt: HostRuntime) {
    let alloc = rt.alloc();
    for (number, row) in LARGE.iter().enumerate() {
        assert!(rt; status_of_large(alloc, row) == Some(row.5), "row {number}");
    }
}

// ---- a file that is read a little at a time

// The place from which on the file is gone, the pieces that are written, what is written behind them, what is said, and the
// status.
type Slow = (u64, &'static [Piece], &'static [u8], &'static [u8], u8);

const SLOW: [Slow; 2] = [
    // Its pieces are as those of one that is read at once.
    (1_000_000, &FOUR, END, b"", 0),
    (70_000, &FIRST, b"", b"subunit-output: no file log\n", 3),
];

fn status_of_slow(alloc: Global, row: &Slow) -> Option<u8> {
    let bytes = content(alloc, 200_000)?;
    let packets = packets_of(alloc, row.1, &bytes, row.2)?;
    let mut site = SlowSite { bytes, gone: row.0 };
    status_over(alloc, &LOG, &mut site, &[], &(&packets, row.3))
}

#[test]
fn a_piece_is_filled_across_reads(rt: HostRuntime) {
    let alloc = rt.alloc();
    for (number, row) in SLOW.iter().enumerate() {
        assert!(rt; status_of_slow(alloc, row) == Some(row.4), "row {number}");
    }
}
