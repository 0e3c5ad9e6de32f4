//! Lines, details and chunks of as many bytes as they may have, and of one more.

use crate::lines::line_of;
use packet_codec::Event;
use std::alloc::Global;
use trial_events::repeated;
use v1_bridge::{V1Reader, is_short};

// How many events there are, and how many bytes their files have.
type Sizes = (usize, usize);

fn sizes_of(events: &[Event]) -> Sizes {
    let mut size = 0usize;
    for event in events {
        if let Some(file) = &event.file {
            size = size.saturating_add(file.bytes.bytes().len());
        }
    }
    (events.len(), size)
}

fn line_sizes(reader: &mut V1Reader, line: &[u8]) -> Option<Sizes> {
    if !is_short(line) {
        return None;
    }
    let events = reader.line(line).ok()?;
    Some(sizes_of(&events))
}

fn piece_sizes(reader: &mut V1Reader, piece: &[u8], last: bool) -> Option<Sizes> {
    if !is_short(piece) {
        return None;
    }
    let events = reader.long(piece, last).ok()?;
    Some(sizes_of(&events))
}

// What a line of so many bytes `a` and this end gives.
fn of_letters(reader: &mut V1Reader, alloc: Global, count: usize, end: &[u8]) -> Option<Sizes> {
    let line = line_of(alloc, b"", count, end)?;
    line_sizes(reader, &line)
}

// The same of such a line outside a test.
fn alone(alloc: Global, count: usize, end: &[u8]) -> Option<Sizes> {
    let mut reader = V1Reader::new(alloc);
    of_letters(&mut reader, alloc, count, end)
}

// A carriage return is counted, and is not given.
#[test]
fn a_line_has_as_many_bytes_as_it_may(rt: HostRuntime) {
    let alloc = rt.alloc();
    assert_eq!(rt; alone(alloc, 65_536, b"\n"), Some((1, 65_537)));
    assert_eq!(rt; alone(alloc, 65_536, b""), Some((1, 65_537)));
    assert_eq!(rt; alone(alloc, 65_535, b"\r\n"), Some((1, 65_536)));
    assert_eq!(rt; alone(alloc, 65_537, b"\n"), None);
    assert_eq!(rt; alone(alloc, 65_536, b"\r\n"), None);
}

// What 65,536 bytes `a` give that are no whole line, and the piece behind them, which ends it.
fn both_pieces(alloc: Global, reader: &mut V1Reader, last: &[u8]) -> Option<[Sizes; 2]> {
    let piece = repeated(alloc, b"a", 65_536)?;
    let first = piece_sizes(reader, &piece, false)?;
    let second = piece_sizes(reader, last, true)?;
    Some([first, second])
}

fn long_line(alloc: Global, last: &[u8]) -> Option<[Sizes; 2]> {
    let mut reader = V1Reader::new(alloc);
    both_pieces(alloc, &mut reader, last)
}

#[test]
fn a_line_that_is_too_long_is_cut(rt: HostRuntime) {
    assert_eq!(rt; long_line(rt.alloc(), b"a\n"), Some([(1, 65_536), (1, 1)]));
    assert_eq!(rt; long_line(rt.alloc(), b"\n"), Some([(1, 65_536), (0, 0)]));
    assert_eq!(rt; long_line(rt.alloc(), b""), Some([(1, 65_536), (0, 0)]));
}

// Whether all the lines were taken.
fn lead(reader: &mut V1Reader, lines: &[&'static [u8]]) -> Option<()> {
    for line in lines {
        line_sizes(reader, line)?;
    }
    Some(())
}

const DETAILS: [&[u8]; 2] = [b"test: a\n", b"failure: a [\n"];

fn details_in(alloc: Global, reader: &mut V1Reader, count: usize) -> Option<[Sizes; 2]> {
    lead(reader, &DETAILS)?;
    let line = of_letters(reader, alloc, count, b"\n")?;
    let bracket = line_sizes(reader, b"]\n")?;
    Some([line, bracket])
}

// What a line of details of so many bytes gives, and the bracket behind it.
fn details(alloc: Global, count: usize) -> Option<[Sizes; 2]> {
    let mut reader = V1Reader::new(alloc);
    details_in(alloc, &mut reader, count)
}

#[test]
fn details_are_given_in_full_pieces(rt: HostRuntime) {
    let alloc = rt.alloc();
    assert_eq!(rt; details(alloc, 65_534), Some([(0, 0), (1, 65_535)]));
    assert_eq!(rt; details(alloc, 65_535), Some([(1, 65_536), (1, 0)]));
    assert_eq!(rt; details(alloc, 65_536), Some([(1, 65_536), (1, 1)]));
}

fn long_details_in(alloc: Global, reader: &mut V1Reader) -> Option<[Sizes; 3]> {
    lead(reader, &DETAILS)?;
    let [first, second] = both_pieces(alloc, reader, b"]\n")?;
    let bracket = line_sizes(reader, b"]\n")?;
    Some([first, second, bracket])
}

// The same of a line of 65,537 bytes, whose second piece is a bracket.
fn long_details(alloc: Global) -> Option<[Sizes; 3]> {
    let mut reader = V1Reader::new(alloc);
    long_details_in(alloc, &mut reader)
}

#[test]
fn a_bracket_within_a_long_line_ends_nothing(rt: HostRuntime) {
    assert_eq!(rt;
        long_details(rt.alloc()),
        Some([(1, 65_536), (0, 0), (1, 2)])
    );
}

const CHUNK: [&[u8]; 5] = [
    b"test: a\n",
    b"failure: a [ multipart\n",
    b"Content-Type: x\n",
    b"f\n",
    b"10001\r\n",
];

fn chunk_in(alloc: Global, reader: &mut V1Reader) -> Option<[Sizes; 3]> {
    lead(reader, &CHUNK)?;
    let [first, second] = both_pieces(alloc, reader, b"a0\r\n")?;
    let third = piece_sizes(reader, b"", true)?;
    Some([first, second, third])
}

// A chunk of 65,537 bytes in one line, and the size behind it.
fn chunk_in_a_line(alloc: Global) -> Option<[Sizes; 3]> {
    let mut reader = V1Reader::new(alloc);
    chunk_in(alloc, &mut reader)
}

fn chunk_in_three(alloc: Global, reader: &mut V1Reader) -> Option<[Sizes; 3]> {
    lead(reader, &CHUNK)?;
    let first = of_letters(reader, alloc, 32_767, b"\n")?;
    let second = of_letters(reader, alloc, 32_767, b"\n")?;
    let third = line_sizes(reader, b"a0\r\n")?;
    Some([first, second, third])
}

// The same in three lines.
fn chunk_of_lines(alloc: Global) -> Option<[Sizes; 3]> {
    let mut reader = V1Reader::new(alloc);
    chunk_in_three(alloc, &mut reader)
}

#[test]
fn a_chunk_is_given_in_full_pieces(rt: HostRuntime) {
    let alloc = rt.alloc();
    assert_eq!(rt; chunk_in_a_line(alloc), Some([(1, 65_536), (1, 1), (0, 0)]));
    assert_eq!(rt; chunk_of_lines(alloc), Some([(0, 0), (1, 65_536), (1, 1)]));
}

// What a line of tags gives whose one tag has so many bytes.
fn tag_line(alloc: Global, reader: &mut V1Reader, count: usize) -> Option<Sizes> {
    let line = line_of(alloc, b"tags: ", count, b"\n")?;
    line_sizes(reader, &line)
}

// The same behind a tag of 7 bytes.
fn tags_given(alloc: Global, count: usize) -> Option<Sizes> {
    let mut reader = V1Reader::new(alloc);
    lead(&mut reader, &[b"tags: worker0\n"])?;
    tag_line(alloc, &mut reader, count)
}

#[test]
fn a_set_has_as_many_bytes_of_tags_as_it_may(rt: HostRuntime) {
    let alloc = rt.alloc();
    assert_eq!(rt; tags_given(alloc, 65_529), Some((0, 0)));
    assert_eq!(rt; tags_given(alloc, 65_530), Some((1, 65_537)));
}
