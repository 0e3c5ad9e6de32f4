//! Events in words, as rows tell them and as answers do.
//!
//! First comes the status, and behind it what the event has of `id=`, `route=`, `runnable`, the time in seconds and
//! nanoseconds as in `at=5:1000`, `tags` with a `tag=` for each, `mime=`, a file's name and bytes as in `file=log:abc`, and
//! `eof`. A field that is not told is none.

use crate::fields::{first_word, text_of};
use crate::told::put_number;
use packet_codec::{Event, FilePart, Stamp, Status, Tags};
use row_book::{bytes_of, put_all};
use std::alloc::Global;
use sub_number::{Bytes, Text};

// ---- as rows tell them

fn status_of(word: &str) -> Option<Status> {
    match word {
        "unset" => Some(Status::Unset),
        "exists" => Some(Status::Exists),
        "inprogress" => Some(Status::InProgress),
        "success" => Some(Status::Success),
        "uxsuccess" => Some(Status::UxSuccess),
        "skip" => Some(Status::Skip),
        "fail" => Some(Status::Fail),
        "xfail" => Some(Status::XFail),
        _ => None,
    }
}

/// The time of these seconds and nanoseconds, as in `5:1000`.
pub fn stamp_of(word: &str) -> Option<Stamp> {
    let (seconds, nanos) = word.split_once(':')?;
    let seconds = seconds.parse().ok()?;
    let nanos: u32 = nanos.parse().ok()?;
    if nanos >= 1 << 30 {
        return None;
    }
    Some(Stamp { seconds, nanos })
}

fn file_of(alloc: Global, word: &str) -> Option<FilePart> {
    let (name, bytes) = word.split_once(':')?;
    let name = text_of(alloc, name)?;
    let bytes = Bytes::from_vec(bytes_of(alloc, bytes)?);
    Some(FilePart { name, bytes })
}

fn push_tag(alloc: Global, word: &str, tags: &mut Option<Tags>) -> Option<()> {
    let tag = text_of(alloc, word)?;
    match tags {
        Some(tags) => tags.push(tag).ok(),
        None => None,
    }
}

fn set_field(alloc: Global, word: &str, event: &mut Event) -> Option<()> {
    let (name, value) = word.split_once('=').unwrap_or((word, ""));
    match name {
        "id" => event.id = Some(text_of(alloc, value)?),
        "route" => event.route = Some(text_of(alloc, value)?),
        "runnable" => event.runnable = true,
        "at" => event.stamp = Some(stamp_of(value)?),
        "tags" => event.tags = Some(Tags::new(alloc)),
        "tag" => push_tag(alloc, value, &mut event.tags)?,
        "mime" => event.mime = Some(text_of(alloc, value)?),
        "file" => event.file = Some(file_of(alloc, value)?),
        "eof" => event.eof = true,
        _ => return None,
    }
    Some(())
}

fn set_fields(alloc: Global, fields: &str, event: &mut Event) -> Option<()> {
    if fields.is_empty() {
        return Some(());
    }
    for word in fields.split(' ') {
        set_field(alloc, word, event)?;
    }
    Some(())
}

/// The event that the words tell.
pub fn event_of(alloc: Global, words: &str) -> Option<Event> {
    let (status, fields) = first_word(words);
    let status = status_of(status)?;
    let mut event = Event {
        stamp: None,
        id: None,
        tags: None,
        runnable: false,
        status,
        mime: None,
        file: None,
        eof: false,
        route: None,
    };
    set_fields(alloc, fields, &mut event)?;
    Some(event)
}

// ---- as answers do

/// The word of the status.
pub fn status_word(status: Status) -> &'static [u8] {
    match status {
        Status::Unset => b"unset",
        Status::Exists => b"exists",
        Status::InProgress => b"inprogress",
        Status::Success => b"success",
        Status::UxSuccess => b"uxsuccess",
        Status::Skip => b"skip",
        Status::Fail => b"fail",
        Status::XFail => b"xfail",
    }
}

/// Appends the field of this name, where there is one.
pub fn put_field(name: &[u8], value: Option<&[u8]>, said: &mut Vec<u8>) -> Option<()> {
    match value {
        Some(value) => put_all(&[name, value], said),
        None => Some(()),
    }
}

/// Appends the field of this name, where there is one.
pub fn put_text(name: &[u8], text: &Option<Text>, said: &mut Vec<u8>) -> Option<()> {
    match text {
        Some(text) => put_all(&[name, text.bytes()], said),
        None => Some(()),
    }
}

/// Appends the time, where there is one.
pub fn put_stamp(stamp: Option<Stamp>, said: &mut Vec<u8>) -> Option<()> {
    let Some(stamp) = stamp else {
        return Some(());
    };
    put_all(&[b" at="], said)?;
    put_number(u128::from(stamp.seconds), b":", said)?;
    put_number(u128::from(stamp.nanos), b"", said)
}

/// Appends the tags, where there is a list of them.
pub fn put_tags(tags: &Option<Tags>, said: &mut Vec<u8>) -> Option<()> {
    let Some(tags) = tags else {
        return Some(());
    };
    put_all(&[b" tags"], said)?;
    for tag in tags.list() {
        put_all(&[b" tag=", tag.bytes()], said)?;
    }
    Some(())
}

fn put_file(file: &Option<FilePart>, said: &mut Vec<u8>) -> Option<()> {
    match file {
        Some(file) => put_all(
            &[b" file=", file.name.bytes(), b":", file.bytes.bytes()],
            said,
        ),
        None => Some(()),
    }
}

/// Appends the event in words.
pub fn put_event(event: &Event, said: &mut Vec<u8>) -> Option<()> {
    put_all(&[status_word(event.status)], said)?;
    put_text(b" id=", &event.id, said)?;
    put_text(b" route=", &event.route, said)?;
    put_field(b" runnable", event.runnable.then_some(b""), said)?;
    put_stamp(event.stamp, said)?;
    put_tags(&event.tags, said)?;
    put_text(b" mime=", &event.mime, said)?;
    put_file(&event.file, said)?;
    put_field(b" eof", event.eof.then_some(b""), said)
}
