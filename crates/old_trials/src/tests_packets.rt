//! The packets that a file gives.

use crate::chunks::chunk_of;
use crate::read::{failing_of, packets_of};
use packet_codec::Status;
use std::alloc::Global;
use trial_events::{file_event, says, spelled};

// The packets of an event of this test, put behind others.
fn put_test(alloc: Global, id: &[u8], status: Status, packets: &mut Vec<u8>) -> Option<()> {
    let event = says(alloc, b"", id, status);
    packets.extend_from_slice(&spelled(alloc, &event)?).ok()
}

fn put_output(alloc: Global, bytes: &[u8], packets: &mut Vec<u8>) -> Option<()> {
    let mut event = file_event(alloc, b"stdout", bytes)?;
    event.runnable = true;
    packets.extend_from_slice(&spelled(alloc, &event)?).ok()
}

// Whether the file gives these packets, and is damaged or not.
fn gives(alloc: Global, file: &[u8], packets: &[u8], damaged: bool) -> Option<bool> {
    let mut given = Vec::new(alloc);
    let found = packets_of(alloc, file, 3, &mut given)?;
    Some(found == damaged && given.as_slice() == packets)
}

fn lines(alloc: Global) -> Option<bool> {
    let mut packets = Vec::new(alloc);
    put_test(alloc, b"foo", Status::InProgress, &mut packets)?;
    put_test(alloc, b"foo", Status::Fail, &mut packets)?;
    gives(alloc, b"test: foo\nfailure: foo\n", &packets, false)
}

#[test]
fn lines_become_packets(rt: HostRuntime) {
    assert_eq!(rt; lines(rt.alloc()), Some(true));
}

// A stream with an id that has a newline stays as it is.
fn stream(alloc: Global) -> Option<bool> {
    let mut packets = Vec::new(alloc);
    put_test(alloc, b"new\nline", Status::Fail, &mut packets)?;
    gives(alloc, &packets, &packets, false)
}

fn failing_in_a_stream(alloc: Global) -> Option<bool> {
    let mut packets = Vec::new(alloc);
    put_test(alloc, b"new\nline", Status::Fail, &mut packets)?;
    let ids = failing_of(alloc, &packets, 4)??;
    match ids.list() {
        [id] => Some(id.bytes() == b"new\nline".as_slice()),
        _ => Some(false),
    }
}

#[test]
fn a_stream_stays_as_it_is(rt: HostRuntime) {
    assert_eq!(rt; stream(rt.alloc()), Some(true));
    assert_eq!(rt; failing_in_a_stream(rt.alloc()), Some(true));
}

// Bytes behind a packet, or in its place, are output. A stream without a packet of a test is damaged.
fn stream_cut_off(alloc: Global, whole: bool) -> Option<bool> {
    let mut file = Vec::new(alloc);
    let mut packets = Vec::new(alloc);
    if whole {
        put_test(alloc, b"a", Status::Fail, &mut file)?;
        put_test(alloc, b"a", Status::Fail, &mut packets)?;
    }
    file.extend_from_slice(b"\xb3)").ok()?;
    put_output(alloc, b"\xb3)", &mut packets)?;
    gives(alloc, &file, &packets, !whole)
}

#[test]
fn a_stream_without_a_test_is_damaged(rt: HostRuntime) {
    assert_eq!(rt; stream_cut_off(rt.alloc(), true), Some(true));
    assert_eq!(rt; stream_cut_off(rt.alloc(), false), Some(true));
}

const PART: &[u8] = b"test: a\nfailure: a [ multipart\nContent-Type: text/plain\nlog\n";

// Whether a file with a part of such a chunk is damaged.
fn is_damaged(alloc: Global, digit: u8, bytes: &[u8]) -> Option<bool> {
    let mut file = Vec::new(alloc);
    file.extend_from_slice(PART).ok()?;
    file.extend_from_slice(&chunk_of(alloc, digit, bytes)?)
        .ok()?;
    file.extend_from_slice(b"]\n").ok()?;
    packets_of(alloc, &file, 7, &mut Vec::new(alloc))
}

#[test]
fn a_chunk_has_as_many_bytes_as_it_says(rt: HostRuntime) {
    assert_eq!(rt; is_damaged(rt.alloc(), b'4', b"]\n]\n"), Some(false));
    assert_eq!(rt; is_damaged(rt.alloc(), b'3', b"]\n]\n"), Some(true));
    assert_eq!(rt; is_damaged(rt.alloc(), b'5', b"]\n]\n"), Some(true));
    assert_eq!(rt; is_damaged(rt.alloc(), b'x', b"]\n]\n"), Some(true));
}
