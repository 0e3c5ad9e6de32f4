//! The notes of a stream.

ghost use Rattle.std.specs.Prelude.{◌≡◌, IfOk};
ghost use Rattle.stream_reader.specs.Notes.{event_of, stdout_event as event_of_bytes};

use packet_codec::{Event, FilePart, Status};
use std::alloc::Global;
use sub_number::{Bytes, NoMemory, Text};

/// One thing that a stream says.
#[derive(Drop)]
pub enum Note {
    /// The event of a packet.
    Event(Event),
    /// Bytes that belong to no packet: 1 to 65,536 of them. More of them that follow one another are several notes, of
    /// which all but the last have 65,536.
    Foreign(Bytes),
}

impl Note {
    /// The event that the note says: its own, or for foreign bytes one with these bytes as a piece of the file `stdout`.
    pub fn into_event(self, alloc: Global) -> Result<Event, NoMemory>
        ensures { IfOk result (λ event. event ≡ event_of self) }
    {
        match self {
            Note::Event(event) => Ok(event),
            Note::Foreign(bytes) => stdout_event(alloc, bytes),
        }
    }
}

/// The bytes as an event: a piece of the file `stdout`, runnable, and nothing else.
pub fn stdout_event(alloc: Global, bytes: Bytes) -> Result<Event, NoMemory>
    ensures { IfOk result (λ event. event ≡ event_of_bytes bytes) }
{
    let name = Text::from_tested(alloc, b"stdout")?;
    Ok(Event {
        stamp: None,
        id: None,
        tags: None,
        runnable: true,
        status: Status::Unset,
        mime: None,
        file: Some(FilePart { name, bytes }),
        eof: false,
        route: None,
    })
}
