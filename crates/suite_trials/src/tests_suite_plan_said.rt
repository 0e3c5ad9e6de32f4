//! What is told of listings that failed, and of children that told no number, over children in memory.

use edge_io::{Finish, Plan, PlanSpawner};
use std::alloc::Global;
use sub_number::Bytes;
use suite_plan::{CallRefusal, ListingRefusal, list_tests, run_count_command};
use testr_conf::Conf;
use trial_events::{file_event, repeated, spelled};

const CONF: &[u8] =
    b"[DEFAULT]\ntest_command=run $LISTOPT\ntest_list_option=--list\ntest_run_concurrency=nproc\n";

// What python's `subunit.run discover --list` writes where a module cannot be imported.
const BROKEN: &[u8] =
    b"\xb3 `@\x85\x17text/plain;charset=utf8\x0dimport errors@TFailed to import test module: test_b\nModuleNotFoundError: No module named 'nothere'\n\x0b\xda[\xec";

// A piece of an output: of the file of this name, or foreign bytes where the name is empty.
type Piece = (&'static [u8], &'static [u8]);

fn put_piece(alloc: Global, piece: &Piece, output: &mut Vec<u8>) -> Option<()> {
    if piece.0.is_empty() {
        return output.extend_from_slice(piece.1).ok();
    }
    let event = file_event(alloc, piece.0, piece.1)?;
    let packet = spelled(alloc, &event)?;
    output.extend_from_slice(&packet).ok()
}

fn output_of(alloc: Global, pieces: &[Piece]) -> Option<Vec<u8>> {
    let mut output = Vec::new(alloc);
    for piece in pieces {
        put_piece(alloc, piece, &mut output)?;
    }
    Some(output)
}

fn conf_of(alloc: Global, text: &[u8]) -> Option<Conf> {
    if text.len() > 16_777_216 {
        return None;
    }
    Conf::read(alloc, text).ok()
}

// A spawner of one child, which ends with 2.
fn failing_child(alloc: Global, output: &[u8], piece: usize) -> Option<PlanSpawner> {
    if piece == 0 {
        return None;
    }
    let output = Bytes::new(alloc, output).ok()?;
    let mut plans = Vec::new(alloc);
    plans
        .push(Plan {
            output,
            piece,
            finish: Finish::Exit(2),
        })
        .ok()?;
    Some(PlanSpawner::new(alloc, plans, Vec::new(alloc)))
}

// What is told of the listing that has this output.
fn said(alloc: Global, output: &[u8], piece: usize) -> Option<Bytes> {
    let conf = conf_of(alloc, CONF)?;
    let mut spawner = failing_child(alloc, output, piece)?;
    match list_tests(alloc, &conf, &mut spawner) {
        Err(ListingRefusal::Failed(2, said)) => Some(said),
        _ => None,
    }
}

fn is_said(alloc: Global, output: &[u8], piece: usize, wanted: &[u8]) -> Option<bool> {
    Some(said(alloc, output, piece)?.bytes() == wanted)
}

// What is told of the count job that has this output.
fn said_of_count(alloc: Global, output: &[u8]) -> Option<Bytes> {
    let conf = conf_of(alloc, CONF)?;
    let mut spawner = failing_child(alloc, output, 7)?;
    match run_count_command(alloc, &conf, &mut spawner) {
        Err(CallRefusal::NoNumber(said)) => Some(said),
        _ => None,
    }
}

fn is_said_of_count(alloc: Global, output: &[u8], wanted: &[u8]) -> Option<bool> {
    Some(said_of_count(alloc, output)?.bytes() == wanted)
}

// Pieces of an output, and what is told of it.
const TOLD: [(&[Piece], &[u8]); 11] = [
    // Nothing was written, or a file without a byte of `stdout`.
    (&[], b""),
    (&[(b"stdout", b"")], b""),
    // Foreign bytes as they stand; a newline at the end where there is none.
    (&[(b"", b"boom")], b"boom\n"),
    (&[(b"", b"a\r\0\xff\n")], b"a\r\0\xff\n"),
    // A file with another name has it in front.
    (&[(b"log", b"one\n")], b"--- log ---\none\n"),
    // The same name again.
    (
        &[(b"log", b"one\n"), (b"log", b"two")],
        b"--- log ---\none\ntwo\n",
    ),
    // Another name behind a line without its end.
    (
        &[(b"log", b"one"), (b"traceback", b"two\n")],
        b"--- log ---\none\n--- traceback ---\ntwo\n",
    ),
    // `stdout` has no line, and the name comes again behind it, and behind foreign bytes.
    (
        &[(b"log", b"1\n"), (b"stdout", b"2\n"), (b"log", b"3\n")],
        b"--- log ---\n1\n2\n--- log ---\n3\n",
    ),
    (
        &[(b"log", b"1"), (b"", b"2"), (b"log", b"3")],
        b"--- log ---\n12\n--- log ---\n3\n",
    ),
    // A file without a byte.
    (&[(b"log", b"")], b"--- log ---\n"),
    (
        &[(b"", b"x"), (b"log", b""), (b"stdout", b"y")],
        b"x\n--- log ---\ny\n",
    ),
];

fn row_is_told(alloc: Global, row: &(&[Piece], &[u8]), piece: usize) -> Option<bool> {
    let output = output_of(alloc, row.0)?;
    is_said(alloc, &output, piece, row.1)
}

fn are_told(alloc: Global, piece: usize) -> bool {
    let mut same = true;
    for row in &TOLD {
        same = same && row_is_told(alloc, row, piece) == Some(true);
    }
    same
}

#[test]
fn what_a_failed_listing_says_is_told_in_pieces_of_every_size(rt: HostRuntime) {
    assert!(rt; are_told(rt.alloc(), 1));
    assert!(rt; are_told(rt.alloc(), 100));
}

#[test]
fn a_broken_import_is_told(rt: HostRuntime) {
    let wanted =
        b"--- import errors ---\nFailed to import test module: test_b\nModuleNotFoundError: No module named 'nothere'\n";
    assert!(rt; is_said(rt.alloc(), BROKEN, 3, wanted) == Some(true));
}

// So many bytes of output, and behind three dots, where there are some, so many bytes of the last ones and the newline.
fn last_are_told(alloc: Global, size: usize, dots: &[u8], left: usize) -> Option<bool> {
    let output = repeated(alloc, b"x", size)?;
    let mut wanted = Vec::from_slice(alloc, dots).ok()?;
    let last = repeated(alloc, b"x", left)?;
    wanted.extend_from_slice(&last).ok()?;
    wanted.push(b'\n').ok()?;
    is_said(alloc, &output, 60_000, &wanted)
}

#[test]
fn the_last_65_536_bytes_are_told(rt: HostRuntime) {
    let alloc = rt.alloc();
    assert!(rt; last_are_told(alloc, 65_535, b"", 65_535) == Some(true));
    assert!(rt; last_are_told(alloc, 65_536, b"...\n", 65_535) == Some(true));
    assert!(rt; last_are_told(alloc, 200_000, b"...\n", 65_535) == Some(true));
}

// A file of so many bytes `x`, and what is told of it.
fn file_is_told(alloc: Global, size: usize, wanted: &[u8]) -> Option<bool> {
    let bytes = repeated(alloc, b"x", size)?;
    let event = file_event(alloc, b"log", &bytes)?;
    let packet = spelled(alloc, &event)?;
    let told = said(alloc, &packet, 60_000)?;
    Some(told.bytes().starts_with(wanted) && told.bytes().len() == 65_540)
}

#[test]
fn of_a_long_file_the_last_bytes_are_told(rt: HostRuntime) {
    let alloc = rt.alloc();
    assert!(rt; file_is_told(alloc, 65_524, b"...\n-- log ---\nx") == Some(true));
    assert!(rt; file_is_told(alloc, 65_536, b"...\nxxx") == Some(true));
    assert!(rt; file_is_told(alloc, 300_000, b"...\nxxx") == Some(true));
}

// What a count job writes that told no number, and what is told of it.
const COUNTS: [(&[u8], &[u8]); 4] = [
    (b"", b""),
    (b"nproc: not found", b"nproc: not found\n"),
    (b"3\n", b"3\n"),
    (b"\r", b"\r\n"),
];

// Its output is no stream, so a packet is told as it stands.
fn packet_is_told(alloc: Global) -> Option<bool> {
    let mut wanted = Vec::from_slice(alloc, BROKEN).ok()?;
    wanted.push(b'\n').ok()?;
    is_said_of_count(alloc, BROKEN, &wanted)
}

#[test]
fn what_a_count_job_says_is_told(rt: HostRuntime) {
    for row in &COUNTS {
        assert!(rt; is_said_of_count(rt.alloc(), row.0, row.1) == Some(true));
    }
    assert!(rt; packet_is_told(rt.alloc()) == Some(true));
}
