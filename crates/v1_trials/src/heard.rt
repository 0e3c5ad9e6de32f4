//! Streams of lines as events.

use packet_codec::Event;
use std::alloc::Global;
use v1_bridge::{V1Reader, is_short};

fn hear(reader: &mut V1Reader, line: &[u8], events: &mut Vec<Event>) -> Option<()> {
    if !is_short(line) {
        return None;
    }
    reader.line_into(line, events).ok()
}

// Each line with its newline, which the last one may lack.
fn hear_all(reader: &mut V1Reader, stream: &[u8], events: &mut Vec<Event>) -> Option<()> {
    let mut place = 0;
    for line in stream.split(|byte| *byte == b'\n') {
        let end = line
            .len()
            .saturating_add(place)
            .saturating_add(1)
            .min(stream.len());
        if place < end {
            hear(reader, &stream[place..end], events)?;
        }
        place = end;
    }
    Some(())
}

// Appends what is told at the end.
fn close_into(reader: V1Reader, events: &mut Vec<Event>) -> Option<()> {
    let mut last = reader.close().ok()?;
    events.append(&mut last).ok()
}

fn hear_stream(alloc: Global, stream: &[u8], events: &mut Vec<Event>) -> Option<()> {
    let mut reader = V1Reader::new(alloc);
    hear_all(&mut reader, stream, events)?;
    close_into(reader, events)
}

/// The events of a stream whose lines are short enough.
pub(crate) fn events_of(alloc: Global, stream: &[u8]) -> Option<Vec<Event>> {
    let mut events = Vec::new(alloc);
    hear_stream(alloc, stream, &mut events)?;
    Some(events)
}
