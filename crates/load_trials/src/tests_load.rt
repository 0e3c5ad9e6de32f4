//! `testr load` of streams: the run that is kept, the report and the status.

use edge_io::{MemShelf, Shelf};
use std::alloc::Global;
use std::process::Abort;
use std::sync::Wait;
use std::test::Fail;
use std::thread::Threads;
use trial_calls::{
    FAIL, FAIL_KEPT, FOO, FOO_KEPT, NOTHING, PASSED_AS_0, PASSED_AS_1, SHELF_FAULT, call,
    call_over, has_at, has_file, has_two, largest_packet, loads, long_log, repository, source,
    tells_and_leaves, tells_of,
};

const NO_TESTS: &[u8] = b"Ran 0 tests\nPASSED (id=0)\n";

const FAIL_REPORT: &[u8] =
    b"======================================================================\nFAIL: foo\n----------------------------------------------------------------------\nRan 1 tests\nFAILED (id=0, failures=1)\n";

// `foo` failed, with a file of text.
const BOOM: &[u8] = b"\xb3\x29\x66\x26\x03foo\x0atext/plain\x09traceback\x04boom\x2f\x8c\x22\xda";

const BOOM_KEPT: &[u8] =
    b"\xb3\x2d\x66\x28\x03foo\x0atext/plain\x09traceback\x04boom\x01\x30\x82\xfc\xe0\xbe";

const BOOM_REPORT: &[u8] =
    b"======================================================================\nFAIL: foo\n----------------------------------------------------------------------\nboom\nRan 1 tests\nFAILED (id=0, failures=1)\n";

// `foo` was begun with a log, and failed as before.
const LOGGED: &[u8] =
    b"\xb3\x29\x62\x1d\x03foo\x0atext/plain\x03log\x01a\x50\x20\xac\x07\xb3\x29\x66\x26\x03foo\x0atext/plain\x09traceback\x04boom\x2f\x8c\x22\xda";

const LOGGED_KEPT: &[u8] =
    b"\xb3\x2d\x62\x1f\x03foo\x0atext/plain\x03log\x01a\x01\x30\x1d\x95\x60\xe7\xb3\x2d\x66\x28\x03foo\x0atext/plain\x09traceback\x04boom\x01\x30\x82\xfc\xe0\xbe";

const LOGGED_REPORT: &[u8] =
    b"======================================================================\nFAIL: foo\n----------------------------------------------------------------------\nlog: {{{\na\n}}}\nboom\nRan 1 tests\nFAILED (id=0, failures=1)\n";

// `foo` was begun.
const OPEN: &[u8] = b"\xb3\x29\x02\x0c\x03foo\x8e\xc1\x2d\xb5";

const OPEN_KEPT: &[u8] = b"\xb3\x2d\x02\x0e\x03foo\x01\x30\x68\x05\xdb\x7e";

const OPEN_REPORT: &[u8] =
    b"======================================================================\nUNFINISHED: foo\n----------------------------------------------------------------------\nRan 1 tests\nFAILED (id=0, failures=1)\n";

// `foo` passed, where it was to fail.
const UNEXPECTED: &[u8] = b"\xb3\x29\x04\x0c\x03foo\x58\x98\xce\xa8";

const UNEXPECTED_KEPT: &[u8] = b"\xb3\x2d\x04\x0e\x03foo\x01\x30\xae\x6a\xd2\xf9";

const UNEXPECTED_REPORT: &[u8] =
    b"======================================================================\nUNEXPECTED SUCCESS: foo\n----------------------------------------------------------------------\nRan 1 tests\nFAILED (id=0, failures=1)\n";

// `foo` was begun at 100 s and passed at 101.0005 s, and `bar` was skipped.
const TIMED: &[u8] =
    b"\xb3\x2b\x02\x11\x00\x00\x00\x64\x00\x03foo\x1e\xec\x90\x04\xb3\x2b\x03\x13\x00\x00\x00\x65\x87\xa1\x20\x03foo\xa7\x22\xac\x32\xb3\x29\x05\x0c\x03bar\x69\x48\xf4\x86";

const TIMED_KEPT: &[u8] =
    b"\xb3\x2f\x02\x13\x00\x00\x00\x64\x00\x03foo\x01\x30\x1f\xef\x4a\x3a\xb3\x2f\x03\x15\x00\x00\x00\x65\x87\xa1\x20\x03foo\x01\x30\x60\xf8\x08\xb3\xb3\x2d\x05\x0e\x03bar\x01\x30\x63\x61\x33\xb7";

const TIMED_REPORT: &[u8] = b"Ran 2 tests in 1.001s\nPASSED (id=0, skips=1)\n";

// `foo` failed, and `bar` was skipped.
const FAIL_SKIP: &[u8] =
    b"\xb3\x29\x06\x0c\x03foo\x15\x50\x6f\xa3\xb3\x29\x05\x0c\x03bar\x69\x48\xf4\x86";

const FAIL_SKIP_KEPT: &[u8] =
    b"\xb3\x2d\x06\x0e\x03foo\x01\x30\xec\x4f\xd5\x84\xb3\x2d\x05\x0e\x03bar\x01\x30\x63\x61\x33\xb7";

const FAIL_SKIP_REPORT: &[u8] =
    b"======================================================================\nFAIL: foo\n----------------------------------------------------------------------\nRan 2 tests\nFAILED (id=0, failures=1, skips=1)\n";

// The end alone.
const END: &[u8] = b"\xb3\x21\x10\x08\x53\x15\x88\xdc";

const END_KEPT: &[u8] = b"\xb3\x25\x10\x0a\x01\x30\x46\xf1\xb3\xa8";

// Foreign bytes, and a packet.
const LOG: &[u8] = b"ab\xb3\x29\x03\x0c\x03foo\x45\x9d\xfe\x10";

const LOG_KEPT: &[u8] =
    b"\xb3\x25\x40\x14\x06stdout\x02ab\x01\x30\x3a\xe0\x57\xa9\xb3\x2d\x03\x0e\x03foo\x01\x30\xa4\xaf\xdb\xe0";

// A packet whose checksum is wrong.
const DAMAGED: &[u8] = b"\xb3\x29\x03\x0c\x03foo\x45\x9d\xfe\x11";

const DAMAGED_KEPT: &[u8] =
    b"\xb3\x25\x40\x1e\x06stdout\x0c\xb3\x29\x03\x0c\x03foo\x45\x9d\xfe\x11\x01\x30\x7c\x95\xa7\xfd";

// A header of 60 bytes, and a packet among them. The stream ends inside the first one.
const CUT: &[u8] = b"\xb3\x29\x03\x3c\xb3\x29\x03\x0c\x03foo\x45\x9d\xfe\x10";

const CUT_KEPT: &[u8] =
    b"\xb3\x25\x40\x16\x06stdout\x04\xb3\x29\x03\x3c\x01\x30\xec\x41\x8b\x3d\xb3\x2d\x03\x0e\x03foo\x01\x30\xa4\xaf\xdb\xe0\xb3\x2d\x66\x40\x5d\x0esubunit.parser\x17text/plain;charset=utf8\x09traceback\x20the output ends inside a packet\x0a\x01\x30\x85\x79\xe1\x8d";

const CUT_REPORT: &[u8] =
    b"======================================================================\nFAIL: subunit.parser\n----------------------------------------------------------------------\nthe output ends inside a packet\nRan 2 tests\nFAILED (id=0, failures=1)\n";

// Streams, and the run, the report and the status of each.
const STREAMS: [(&[u8], &[u8], &[u8], u8); 13] = [
    (FOO, FOO_KEPT, PASSED_AS_0, 0),
    (NOTHING, NOTHING, NO_TESTS, 0),
    (FAIL, FAIL_KEPT, FAIL_REPORT, 1),
    (BOOM, BOOM_KEPT, BOOM_REPORT, 1),
    (LOGGED, LOGGED_KEPT, LOGGED_REPORT, 1),
    (OPEN, OPEN_KEPT, OPEN_REPORT, 1),
    (UNEXPECTED, UNEXPECTED_KEPT, UNEXPECTED_REPORT, 1),
    (TIMED, TIMED_KEPT, TIMED_REPORT, 0),
    (FAIL_SKIP, FAIL_SKIP_KEPT, FAIL_SKIP_REPORT, 1),
    (END, END_KEPT, NO_TESTS, 0),
    (LOG, LOG_KEPT, PASSED_AS_0, 0),
    (DAMAGED, DAMAGED_KEPT, NO_TESTS, 0),
    (CUT, CUT_KEPT, CUT_REPORT, 1),
];

// Whether a load of the whole stream tells this, and keeps this run.
fn becomes<R: Threads + Wait + Sync + AllocGlobal>(
    rt: &R,
    stream: &[u8],
    piece: usize,
    run: &[u8],
    wanted: (u8, &[u8], &[u8]),
) -> Result<bool, Fail> {
    let mut shelf = repository(rt.alloc(), &[])?;
    let words = ["testr", "load"];
    Ok(
        tells_and_leaves(rt, &words, &mut shelf, stream, piece, wanted, 0)?
            && has_file(&mut shelf, "0", run)?,
    )
}

#[test]
fn each_stream_becomes_its_run_and_its_report(rt: HostRuntime) -> Result<(), Fail> {
    for (row, (stream, run, report, status)) in STREAMS.iter().enumerate() {
        let wanted = (*status, *report, NOTHING);
        // In reads of one byte, of seven bytes, and in one read.
        for piece in [1, 7, 100] {
            assert!(rt;
                becomes(&rt, stream, piece, run, wanted)?,
                "row {row}, pieces of {piece}"
            );
        }
    }
    Ok(())
}

// Whether a load by these words passes with this report, and keeps its run under this name.
fn keeps_as<R: Threads + Wait + Sync + AllocGlobal>(
    rt: &R,
    words: &[&str],
    shelf: &mut MemShelf,
    report: &[u8],
    name: &str,
) -> Result<bool, Fail> {
    Ok(
        tells_of(rt, words, shelf, FOO, 12, (0, report, NOTHING))?
            && has_file(shelf, name, FOO_KEPT)?,
    )
}

fn partial_runs_are_named<R: Threads + Wait + Sync + AllocGlobal + Abort>(
    rt: &R,
    shelf: &mut MemShelf,
) -> Result<(), Fail> {
    let words = ["testr", "load", "--partial"];
    assert!(rt; keeps_as(rt, &words, shelf, PASSED_AS_0, "0.part")?);
    assert_eq!(rt; shelf.length("0")?, None);
    let words = ["testr", "load", "--partial", "--partial"];
    assert!(rt; keeps_as(rt, &words, shelf, PASSED_AS_1, "1.part")?);
    assert_eq!(rt; shelf.length("1")?, None);
    let report = b"Ran 1 tests\nPASSED (id=2)\n";
    assert!(rt; keeps_as(rt, &["testr", "load"], shelf, report, "2")?);
    Ok(())
}

#[test]
fn a_partial_run_has_a_name_of_its_own_and_the_next_number(rt: HostRuntime) -> Result<(), Fail> {
    let mut shelf = repository(rt.alloc(), &[])?;
    partial_runs_are_named(&rt, &mut shelf)
}

// Whether the caches have these bytes.
fn has_caches(shelf: &mut MemShelf, failing: &[u8], times: &[u8]) -> Result<bool, Fail> {
    Ok(has_file(shelf, "failing.set", failing)? && has_file(shelf, "times.set", times)?)
}

// The status of a partial load of a failure.
fn partial_status<R: Threads + Wait + Sync + AllocGlobal>(
    rt: &R,
    shelf: &mut MemShelf,
) -> Result<u8, Fail> {
    let mut input = source(rt.alloc(), FAIL, 12, &[])?;
    Ok(call(rt, &["testr", "load", "--partial"], shelf, &mut input)?.status)
}

fn caches_cover<R: Threads + Wait + Sync + AllocGlobal + Abort>(
    rt: &R,
    shelf: &mut MemShelf,
) -> Result<(), Fail> {
    let times = b"subunit-times 1\n1\nfoo\x001000500000\x00";
    assert!(rt; loads(rt, shelf, TIMED, (0, TIMED_REPORT, NOTHING))?);
    assert!(rt; has_caches(shelf, b"subunit-failing 1\n1\n", times)?);
    let times = b"subunit-times 1\n2\nfoo\x001000500000\x00";
    assert_eq!(rt; partial_status(rt, shelf)?, 1);
    assert!(rt; has_caches(shelf, b"subunit-failing 1\n2\nfoo\x00", times)?);
    Ok(())
}

#[test]
fn the_caches_cover_the_runs_behind_each_load(rt: HostRuntime) -> Result<(), Fail> {
    let mut shelf = repository(rt.alloc(), &[])?;
    caches_cover(&rt, &mut shelf)
}

// A test passed whose id has 4,194,290 letters. The checksum is the one that zlib gives for it, here and below.
fn long_id(alloc: Global) -> Result<Vec<u8>, Fail> {
    let front = b"\xb3\x29\x03\xbf\xff\xff\xbf\xff\xf2";
    largest_packet(alloc, front, b'a', b"\x73\x8d\x4f\x8d")
}

// `foo` failed, with a text of 4,194,271 letters.
fn long_text(alloc: Global) -> Result<Vec<u8>, Fail> {
    let front = b"\xb3\x29\x66\xbf\xff\xff\x03foo\x0atext/plain\x03log\xbf\xff\xdf";
    largest_packet(alloc, front, b'x', b"\x99\xe3\x9c\x42")
}

// Whether the file `0` has 64 pieces of the file `stdout`. Around the bytes of each stand 6 of header, the name in 7, the
// count in 3, the route in 2, and 4 of checksum.
fn has_pieces<R: Threads + Wait + Sync + AllocGlobal + Abort>(
    rt: &R,
    shelf: &mut MemShelf,
) -> Result<(), Fail> {
    let whole = b"\xb3\x25\x40\x81\x00\x16\x06stdout\x81\x00\x00";
    for number in 0..63 {
        assert!(rt;
            has_at(shelf, "0", number * 65_558, whole)?,
            "piece {number}"
        );
    }
    let last = b"\xb3\x25\x40\x81\x00\x15\x06stdout\x80\xff\xff";
    assert!(rt; has_at(shelf, "0", 63 * 65_558, last)?);
    Ok(())
}

// Loads it without a test.
fn load_largest<R: Threads + Wait + Sync + AllocGlobal + Abort>(
    rt: &R,
    shelf: &mut MemShelf,
) -> Result<(), Fail> {
    let packet = long_id(rt.alloc())?;
    assert_eq!(rt; packet.len(), 4_194_303);
    assert!(rt; loads(rt, shelf, &packet, (0, NO_TESTS, NOTHING))?);
    Ok(())
}

#[test]
fn the_largest_packet_without_a_file_is_kept_in_64_pieces(rt: HostRuntime) -> Result<(), Fail> {
    let mut shelf = repository(rt.alloc(), &[])?;
    load_largest(&rt, &mut shelf)?;
    assert_eq!(rt; shelf.length("0")?, Some(63 * 65_558 + 65_557));
    has_pieces(&rt, &mut shelf)
}

// Each half has 2,097,141 bytes of the file.
#[test]
fn the_largest_packet_of_a_test_is_kept_in_two_halves(rt: HostRuntime) -> Result<(), Fail> {
    let mut shelf = repository(rt.alloc(), &[])?;
    let packet = long_log(rt.alloc())?;
    assert!(rt; loads(&rt, &mut shelf, &packet, (0, PASSED_AS_0, NOTHING))?);
    let front = b"\xb3\x2d\x40\xa0\x00\x0c\x03foo\x03log\x9f\xff";
    let behind = b"\xb3\x2d\x43\xa0\x00\x0c\x03foo\x03log\x9f\xff";
    assert!(rt; has_two(&mut shelf, "0", 2_097_164, front, behind)?);
    Ok(())
}

const TEXT_FRONT: &[u8] =
    b"======================================================================\nFAIL: foo\n----------------------------------------------------------------------\n";

const TEXT_END: &[u8] = b"\nRan 1 tests\nFAILED (id=0, failures=1)\n";

// The first 65,536 letters of the text, once.
fn text_report(alloc: Global) -> Result<Vec<u8>, Fail> {
    let mut report = Vec::new(alloc);
    report.extend_from_slice(TEXT_FRONT)?;
    report.resize(TEXT_FRONT.len() + 65_536, b'x')?;
    report.extend_from_slice(TEXT_END)?;
    Ok(report)
}

#[test]
fn a_text_in_two_halves_is_told_once(rt: HostRuntime) -> Result<(), Fail> {
    let mut shelf = repository(rt.alloc(), &[])?;
    let packet = long_text(rt.alloc())?;
    let report = text_report(rt.alloc())?;
    assert!(rt; loads(&rt, &mut shelf, &packet, (1, &report, NOTHING))?);
    Ok(())
}

// Whether a load of these bytes tells this, into a folder of which this call fails.
fn loads_where<R: Threads + Wait + Sync + AllocGlobal>(
    rt: &R,
    bytes: &[u8],
    call: u64,
    wanted: (u8, &[u8], &[u8]),
) -> Result<bool, Fail> {
    let mut shelf = repository(rt.alloc(), &[call])?;
    loads(rt, &mut shelf, bytes, wanted)
}

#[test]
fn packets_of_a_piece_or_more_are_added_one_by_one(rt: HostRuntime) -> Result<(), Fail> {
    let packet = long_id(rt.alloc())?;
    // Five calls up to the draft, one for each of the 64 pieces, and the sync, the publish and the barrier.
    assert!(rt; loads_where(&rt, &packet, 71, (4, NOTHING, SHELF_FAULT))?);
    // Eleven calls more bring up the caches.
    assert!(rt; loads_where(&rt, &packet, 83, (0, NO_TESTS, NOTHING))?);
    Ok(())
}

// So many bytes has an id that no buffer of the report holds.
const LONG: usize = 70_000;

// A test of such an id, all of `x`, failed. The checksum is that of zlib.
fn long_failure(alloc: Global) -> Result<Vec<u8>, Fail> {
    let mut packet = Vec::new(alloc);
    packet.extend_from_slice(b"\xb3\x29\x06\x81\x11\x7d\x81\x11\x70")?;
    packet.resize(LONG + 9, b'x')?;
    packet.extend_from_slice(b"\xd8\x53\x44\xb8")?;
    Ok(packet)
}

const LONG_FRONT: &[u8] =
    b"======================================================================\nFAIL: ";

const LONG_END: &[u8] =
    b"\n----------------------------------------------------------------------\nRan 1 tests\nFAILED (id=0, failures=1)\n";

fn long_report(alloc: Global) -> Result<Vec<u8>, Fail> {
    let mut report = Vec::new(alloc);
    report.extend_from_slice(LONG_FRONT)?;
    report.resize(LONG_FRONT.len() + LONG, b'x')?;
    report.extend_from_slice(LONG_END)?;
    Ok(report)
}

// Whether a load tells this, over an output that fails at these writes.
fn loads_over<R: Threads + Wait + Sync + AllocGlobal>(
    rt: &R,
    bytes: &[u8],
    writes: &[u64],
    wanted: (u8, &[u8], &[u8]),
) -> Result<bool, Fail> {
    let (status, out, err) = wanted;
    let mut shelf = repository(rt.alloc(), &[])?;
    let mut input = source(rt.alloc(), bytes, 65_536, &[])?;
    let told = call_over(rt, &["testr", "load"], &mut shelf, &mut input, writes, &[])?;
    Ok(told.is(status, out, err))
}

fn is_written_in_three<R: Threads + Wait + Sync + AllocGlobal + Abort>(
    rt: &R,
    packet: &[u8],
    report: &[u8],
) -> Result<(), Fail> {
    assert!(rt; loads_over(rt, packet, &[], (1, report, NOTHING))?);
    let line = b"testr: fault writing output\n".as_slice();
    // What stands before the id has no room with it, and it has none at all. What follows is written at the end.
    for (write, taken) in [
        (0u64, 0usize),
        (1, LONG_FRONT.len()),
        (2, LONG_FRONT.len() + LONG),
    ] {
        let front = &report[..taken.min(report.len())];
        assert!(rt;
            loads_over(rt, packet, &[write], (4, front, line))?,
            "write {write}"
        );
    }
    Ok(())
}

#[test]
fn what_has_no_room_behind_the_others_has_them_written_first(rt: HostRuntime) -> Result<(), Fail> {
    let packet = long_failure(rt.alloc())?;
    let report = long_report(rt.alloc())?;
    is_written_in_three(&rt, &packet, &report)
}
