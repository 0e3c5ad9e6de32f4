//! Events as lines that a test compares.

use instants::put_instant;
use packet_codec::{Event, FilePart, Stamp, Status, Tags};
use sub_number::Text;

fn word(status: Status) -> &'static [u8] {
    match status {
        Status::Unset => b"unset",
        Status::Exists => b"exists",
        Status::InProgress => b"inprogress",
        Status::Success => b"success",
        Status::UxSuccess => b"uxsuccess",
        Status::Skip => b"skip",
        Status::Fail => b"fail",
        Status::XFail => b"xfail",
    }
}

// The instant behind an `@`.
fn show_stamp(stamp: Stamp, text: &mut Vec<u8>) -> Option<()> {
    text.extend_from_slice(b" @").ok()?;
    put_instant(stamp.instant(), text).ok()
}

fn show_tag(tag: &Text, text: &mut Vec<u8>) -> Option<()> {
    text.extend_from_slice(b" #").ok()?;
    text.extend_from_slice(tag.bytes()).ok()
}

/// Appends the tags, each behind a `#`.
pub(crate) fn show_tags(tags: &Tags, text: &mut Vec<u8>) -> Option<()> {
    for tag in tags.list() {
        show_tag(tag, text)?;
    }
    Some(())
}

// The name of the file behind a `<`, and its bytes behind a `:`.
fn show_file(file: &FilePart, text: &mut Vec<u8>) -> Option<()> {
    text.extend_from_slice(b" <").ok()?;
    text.extend_from_slice(file.name.bytes()).ok()?;
    text.push(b':').ok()?;
    text.extend_from_slice(file.bytes.bytes()).ok()
}

fn show_test(event: &Event, text: &mut Vec<u8>) -> Option<()> {
    if let Some(id) = &event.id {
        text.push(b' ').ok()?;
        text.extend_from_slice(id.bytes()).ok()?;
    }
    if let Some(tags) = &event.tags {
        show_tags(tags, text)?;
    }
    Some(())
}

// The MIME type behind a `%`, where it is another than that of lines.
fn show_type(event: &Event, text: &mut Vec<u8>) -> Option<()> {
    let Some(mime) = &event.mime else {
        return Some(());
    };
    if mime.bytes() == b"text/plain;charset=utf8".as_slice() {
        return Some(());
    }
    text.extend_from_slice(b" %").ok()?;
    text.extend_from_slice(mime.bytes()).ok()
}

/// Appends the event as a line: its status, its id, its tags, its instant, its MIME type and its file.
pub(crate) fn show(event: &Event, text: &mut Vec<u8>) -> Option<()> {
    text.extend_from_slice(word(event.status)).ok()?;
    show_test(event, text)?;
    if let Some(stamp) = event.stamp {
        show_stamp(stamp, text)?;
    }
    show_type(event, text)?;
    if let Some(file) = &event.file {
        show_file(file, text)?;
    }
    text.push(b'\n').ok()
}

/// Appends the events so.
pub(crate) fn show_all(events: &[Event], text: &mut Vec<u8>) -> Option<()> {
    for event in events {
        show(event, text)?;
    }
    Some(())
}
