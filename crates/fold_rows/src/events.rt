//! Events, as lines of the book tell them.
//!
//! A line has the route, the id and the status. Behind them may stand the time in seconds, or in seconds and nanoseconds, as
//! in `at=7:500`, the tags, as in `tags=a,b`, and a MIME type, as in `mime=text/plain`. A file has a name, as in `file=log`,
//! and `bytes=` at the end of the line, behind which each space counts. Of a route and an id `-` stands for none.

use crate::fields::{are_known, field, first_word, parted};
use packet_codec::{Event, FilePart, Stamp, Status, Tags};
use row_book::bytes_of;
use std::alloc::Global;
use sub_number::{Bytes, Text};
use trial_events::{says, text};

/// The text that the word spells.
pub fn text_of(alloc: Global, word: &str) -> Option<Text> {
    let bytes = bytes_of(alloc, word)?;
    text(alloc, &bytes)
}

// The text of a route or an id, which may be none.
fn name_of(alloc: Global, word: &str) -> Option<Option<Text>> {
    match word {
        "" => None,
        "-" => Some(None),
        _ => Some(Some(text_of(alloc, word)?)),
    }
}

fn status_of(word: &str) -> Option<Status> {
    match word {
        "unset" => Some(Status::Unset),
        "exists" => Some(Status::Exists),
        "inprogress" => Some(Status::InProgress),
        "success" => Some(Status::Success),
        "uxsuccess" => Some(Status::UxSuccess),
        "skip" => Some(Status::Skip),
        "fail" => Some(Status::Fail),
        "xfail" => Some(Status::XFail),
        _ => None,
    }
}

fn push_tags(alloc: Global, list: &str, tags: &mut Tags) -> Option<()> {
    for name in list.split(',') {
        tags.push(text_of(alloc, name)?).ok()?;
    }
    Some(())
}

/// The tags of a list, which are none where it is empty.
pub fn tags_of(alloc: Global, list: &str) -> Option<Tags> {
    let mut tags = Tags::new(alloc);
    if !list.is_empty() {
        push_tags(alloc, list, &mut tags)?;
    }
    Some(tags)
}

fn stamp_of(time: &str) -> Option<Stamp> {
    let (seconds, nanos) = match time.split_once(':') {
        Some(parts) => parts,
        None => (time, "0"),
    };
    let seconds = seconds.parse().ok()?;
    let nanos: u32 = nanos.parse().ok()?;
    if nanos >= 1 << 30 {
        return None;
    }
    Some(Stamp { seconds, nanos })
}

fn file_of(alloc: Global, name: &str, bytes: &str) -> Option<FilePart> {
    let name = text_of(alloc, name)?;
    let bytes = bytes_of(alloc, bytes)?;
    Some(FilePart {
        name,
        bytes: Bytes::from_vec(bytes),
    })
}

fn put_fields(alloc: Global, fields: &str, event: &mut Event) -> Option<()> {
    if let Some(time) = field(fields, "at=") {
        event.stamp = Some(stamp_of(time)?);
    }
    if let Some(tags) = field(fields, "tags=") {
        event.tags = Some(tags_of(alloc, tags)?);
    }
    if let Some(mime) = field(fields, "mime=") {
        event.mime = Some(text_of(alloc, mime)?);
    }
    Some(())
}

fn put_file(alloc: Global, fields: &str, bytes: Option<&str>, event: &mut Event) -> Option<()> {
    match (field(fields, "file="), bytes) {
        (Some(name), Some(bytes)) => {
            event.file = Some(file_of(alloc, name, bytes)?);
            Some(())
        }
        (None, None) => Some(()),
        _ => None,
    }
}

/// The event that the line tells.
pub fn event_of(alloc: Global, line: &str) -> Option<Event> {
    let (front, bytes) = parted(line, " bytes=");
    let (route, rest) = first_word(front);
    let (id, rest) = first_word(rest);
    let (status, fields) = first_word(rest);
    if !are_known(fields, &["at=", "tags=", "mime=", "file="]) {
        return None;
    }
    let mut event = says(alloc, b"", b"", status_of(status)?);
    event.route = name_of(alloc, route)?;
    event.id = name_of(alloc, id)?;
    put_fields(alloc, fields, &mut event)?;
    put_file(alloc, fields, bytes, &mut event)?;
    Some(event)
}

fn push_events(alloc: Global, lines: &[&str], events: &mut Vec<Event>) -> Option<()> {
    for line in lines {
        events.push(event_of(alloc, line)?).ok()?;
    }
    Some(())
}

/// The events that the lines tell.
pub fn events_of(alloc: Global, lines: &[&str]) -> Option<Vec<Event>> {
    let mut events = Vec::new(alloc);
    push_events(alloc, lines, &mut events)?;
    Some(events)
}
