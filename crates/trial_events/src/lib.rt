//! Texts, events and packets that the tests of several crates are made of. No program uses it.
//!
//! Where a function may give none, that is for want of memory, and where it says so.
#![tactic(auto)]

ghost use Rattle.std.specs.Prelude.{◌≡◌, IfSome};
ghost use Rattle.packet_codec.specs.Canonical.{canonical, Fits, IsEvent};

use packet_codec::{Event, FilePart, Stamp, Status, Tags, encode, fits};
use std::alloc::Global;
use sub_number::{Bytes, Text};

/// An event of a test: its route, which is none where it is empty, its id, its status, and its tags of one byte each, if it
/// has any.
pub type Told = (&'static [u8], &'static [u8], Status, Option<&'static [u8]>);

/// The text of these bytes. None where they are no text.
pub fn text(alloc: Global, bytes: &[u8]) -> Option<Text> {
    Text::new(alloc, bytes).ok()
}

// Loops own nothing, so that an early end drops nothing.
fn push_tags(alloc: Global, tags: &mut Tags, names: &[u8]) -> Option<()> {
    for name in names {
        tags.push(text(alloc, &[*name])?).ok()?;
    }
    Some(())
}

/// Tags of one byte each. None where a byte is no text.
pub fn tags_of(alloc: Global, names: &[u8]) -> Option<Tags> {
    let mut tags = Tags::new(alloc);
    push_tags(alloc, &mut tags, names)?;
    Some(tags)
}

/// Whether the texts are these, of one byte each.
pub fn are(texts: &[Text], names: &[u8]) -> bool {
    texts.len() == names.len()
        && texts
            .iter()
            .zip(names.iter())
            .all(|(text, name)| text.bytes() == [*name].as_slice())
}

fn push_repeated(bytes: &mut Vec<u8>, part: &[u8], times: usize) -> Option<()> {
    for _ in 0..times {
        bytes.extend_from_slice(part).ok()?;
    }
    Some(())
}

/// The part, so many times.
pub fn repeated(alloc: Global, part: &[u8], times: usize) -> Option<Vec<u8>> {
    let mut bytes = Vec::new(alloc);
    push_repeated(&mut bytes, part, times)?;
    Some(bytes)
}

/// An event of the test under the route, which is none where it is empty. What is no text is none.
pub fn says(alloc: Global, route: &[u8], id: &[u8], status: Status) -> Event {
    Event {
        stamp: None,
        id: text(alloc, id),
        tags: None,
        runnable: true,
        status,
        mime: None,
        file: None,
        eof: false,
        route: if route.is_empty() {
            None
        } else {
            text(alloc, route)
        },
    }
}

/// The event at this time. A second has no more nanoseconds than it has.
pub fn at(mut event: Event, seconds: u32, nanos: u32) -> Event {
    let nanos = nanos.min(999_999_999);
    event.stamp = Some(Stamp { seconds, nanos });
    event
}

/// The event with these tags of one byte each. None where a byte is no text.
pub fn tagged(alloc: Global, mut event: Event, names: &[u8]) -> Option<Event> {
    event.tags = Some(tags_of(alloc, names)?);
    Some(event)
}

/// The event that is told. None where a tag is no text.
pub fn event_of(alloc: Global, told: &Told) -> Option<Event> {
    let (route, id, status, tags) = *told;
    let event = says(alloc, route, id, status);
    match tags {
        Some(names) => tagged(alloc, event, names),
        None => Some(event),
    }
}

/// An event of a file of this name and these bytes, and of nothing else. None where the name is no text.
pub fn file_event(alloc: Global, name: &[u8], bytes: &[u8]) -> Option<Event> {
    let file = FilePart {
        name: text(alloc, name)?,
        bytes: Bytes::new(alloc, bytes).ok()?,
    };
    Some(Event {
        stamp: None,
        id: None,
        tags: None,
        runnable: false,
        status: Status::Unset,
        mime: None,
        file: Some(file),
        eof: false,
        route: None,
    })
}

/// The packet of the event. None where the event has none, since it is too long.
pub fn spelled(alloc: Global, event: &Event) -> Option<Vec<u8>>
    ensures { IfSome result (λ packet. (packet.items ≡ canonical event.now) × IsEvent event.now × Fits event.now) }
{
    if !fits(event) {
        return None;
    }
    let mut packet = Vec::new(alloc);
    encode(event, &mut packet).ok()?;
    Some(packet)
}
