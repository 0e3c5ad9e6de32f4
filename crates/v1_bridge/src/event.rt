//! The events of lines.

ghost use Rattle.std.specs.Prelude.{◌≡◌, ◌++◌, ◌∷◌, [], None, IfOk, OnOk};
ghost use Rattle.std.specs.Option.{option_map};
ghost use Rattle.stream_reader.specs.Notes.{stdout_event as event_of_output};
ghost use Rattle.v1_bridge.specs.Events as spec;

use crate::part::{Held, Part};
use packet_codec::{Event, FilePart, Stamp, Status, Tags};
use std::alloc::Global;
use stream_reader::stdout_event;
use sub_number::{Bytes, NoMemory, Text};

/// The name of the file of a test that ended so.
pub(crate) fn file_name(alloc: Global, how: Status) -> Result<Text, NoMemory>
    ensures { IfOk result (λ name. name ≡ spec.outcome_file_name how) }
{
    match how {
        Status::Success | Status::UxSuccess => Text::from_tested(alloc, b"message"),
        Status::Skip => Text::from_tested(alloc, b"reason"),
        Status::Unset | Status::Exists | Status::InProgress | Status::Fail | Status::XFail => {
            Text::from_tested(alloc, b"traceback")
        }
    }
}

/// The part that the lines of a test are that ended so, before the first of them.
pub(crate) fn lines_part(alloc: Global, how: Status) -> Result<Part, NoMemory>
    ensures { IfOk result (λ part. part ≡ spec.lines_part how) }
{
    Ok(Part {
        mime: Text::from_tested(alloc, b"text/plain;charset=utf8")?,
        name: file_name(alloc, how)?,
        held: Held::none(alloc),
    })
}

/// An event of a test, with what is held of this part, which is moved.
pub(crate) fn event_with(
    stamp: Option<Stamp>,
    id: Text,
    tags: Option<Tags>,
    status: Status,
    part: Option<Part>,
) -> Event
    ensures { result ≡ spec.event_with stamp id tags status part }
{
    let (mime, file) = match part {
        Some(Part { mime, name, held }) => (
            Some(mime),
            Some(FilePart {
                name,
                bytes: held.into_bytes(),
            }),
        ),
        None => (None, None),
    };
    Event {
        stamp,
        id: Some(id),
        tags,
        runnable: true,
        status,
        mime,
        file,
        eof: false,
        route: None,
    }
}

/// The tags of an event, where there are any.
pub(crate) fn tags_if_any(tags: Tags) -> Option<Tags>
    ensures { result ≡ spec.tags_told tags }
{
    if tags.list().is_empty() {
        return None;
    }
    Some(tags)
}

/// The event with which the test of this id begins.
pub(crate) fn begun_event(last: Option<Stamp>, id: &Text) -> Result<Event, NoMemory>
    ensures { IfOk result (λ event. event ≡ spec.begun_event last id.now) }
{
    let id = id.copy()?;
    Ok(event_with(last, id, None, Status::InProgress, None))
}

/// The event of bytes of a part of the open test.
pub(crate) fn piece_event(
    alloc: Global,
    id: &Text,
    part: &Part,
    bytes: &[u8],
) -> Result<Event, NoMemory>
    ensures { IfOk result (λ event. event ≡ spec.piece_event id.now part.now bytes.now) }
{
    let id = id.copy()?;
    let mut held = Held::none(alloc);
    held.append(bytes)?;
    let piece = Part {
        mime: part.mime.copy()?,
        name: part.name.copy()?,
        held,
    };
    Ok(event_with(None, id, None, Status::Unset, Some(piece)))
}

/// Appends the event of what is held of the part, where bytes are. The part is over.
pub(crate) fn give_rest(id: &Text, part: Part, events: &mut Vec<Event>) -> Result<(), NoMemory>
    ensures { OnOk result (events.new.items ≡ events.old.items ++ spec.rest_events id.now part) }
{
    if part.held.bytes().is_empty() {
        return Ok(());
    }
    let id = id.copy()?;
    events.push(event_with(None, id, None, Status::Unset, Some(part)))?;
    Ok(())
}

/// The part, where bytes of it are held.
pub(crate) fn left_of(part: Part) -> Option<Part>
    ensures { result ≡ spec.left_of part }
{
    if part.held.bytes().is_empty() {
        return None;
    }
    Some(part)
}

/// Appends the event of a piece that is no part of a test, where it has bytes.
pub(crate) fn add_output(
    alloc: Global,
    bytes: &[u8],
    events: &mut Vec<Event>,
) -> Result<(), NoMemory>
    ensures { OnOk result (events.new.items ≡ events.old.items ++ spec.stdout_events_of bytes.now) }
{
    if bytes.is_empty() {
        return Ok(());
    }
    let bytes = Bytes::new(alloc, bytes)?;
    events.push(stdout_event(alloc, bytes)?)?;
    Ok(())
}

/// Appends the event of a line that is no part of a test: the line and a newline.
pub(crate) fn add_line(alloc: Global, line: &[u8], events: &mut Vec<Event>) -> Result<(), NoMemory>
    ensures { OnOk result (events.new.items ≡ events.old.items ++ spec.line_event line.now ∷ []) }
{
    let mut bytes = Vec::with_capacity(alloc, line.len().saturating_add(1))?;
    bytes.extend_from_slice(line)?;
    bytes.push(b'\n')?;
    events.push(stdout_event(alloc, Bytes::from_vec(bytes))?)?;
    Ok(())
}
