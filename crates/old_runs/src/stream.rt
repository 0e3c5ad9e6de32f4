//! A stream of packets, as one of them stands in a file.

ghost use Rattle.std.specs.Prelude.{◌≡◌, ◌≤◌, ◌++◌, ◌||◌, [], ℕ, List, true, false, length, IfOk, OnOk};
ghost use Rattle.std.specs.List.{list_any};
ghost use Rattle.packet_codec.specs.Canonical.{canonical, Fits, IsEvent};
ghost use Rattle.packet_codec.specs.declared.event.Event.{Event as AnEvent};
ghost use Rattle.stream_reader.specs.declared.note.Note.{Note as ANote};
ghost use Rattle.stream_reader.specs.Notes.{event_of, events_of, HasEvents};
ghost use Rattle.stream_reader.specs.Room.{most_held};
ghost use Rattle.stream_reader.specs.Stream.{IsSpent};
ghost use Rattle.old_runs.specs.Files.{has_id};
ghost use Rattle.old_runs.specs.Giving.{AppendsEvents};
ghost use Rattle.old_runs.specs.Streams.{HasFedStream, AreGoingOn, HandsOnNotes};

use crate::packets::put_event;
use packet_codec::are_bytes;
use std::alloc::Global;
use stream_reader::{Note, Reader};
use sub_number::NoMemory;

// So many bytes are fed before notes are taken.
const PART: usize = 65_536;

/// A stream whose bytes come piece by piece.
#[derive(Drop)]
pub(crate) struct OldStream {
    alloc: Global,
    reader: Reader,
    // One of the events was one of a test.
    told: bool,
}

impl OldStream {
    /// Nothing was read.
    pub(crate) fn new(alloc: Global) -> Result<Self, NoMemory>
        ensures fed { IfOk result (λ stream. HasFedStream stream [] []) }
        ensures going_on { IfOk result AreGoingOn }
    {
        let reader = Reader::new(alloc)?;
        Ok(OldStream {
            alloc,
            reader,
            told: false,
        })
    }

    // Appends the packets of all notes that can be told of the bytes held.
    fn take_notes(&mut self, packets: &mut Vec<u8>) -> Result<(), NoMemory>
        ensures taken { (notes : List ANote) → self.old.told ≡ list_any has_id (events_of notes) → OnOk result (HandsOnNotes notes self.old self.new packets.old.items packets.new.items) }
        ensures spent { OnOk result (IsSpent self.new.reader.ended self.new.reader.bytes) }
        ensures ended { self.new.reader.ended ≡ self.old.reader.ended }
    {
        while let Some(note) = self.reader.next()? {
            let told = put_note(self.alloc, note, packets)?;
            self.look(told);
        }
        Ok(())
    }

    // Takes note of whether an event was one of a test.
    fn look(&mut self, told: bool)
        ensures told { self.new.told ≡ (self.old.told || told) }
        ensures reader { self.new.reader ≡ self.old.reader }
    {
        self.told = self.told || told;
    }

    // Takes the next bytes, for which there is room.
    fn feed_part(&mut self, part: &[u8], packets: &mut Vec<u8>) -> Result<(), NoMemory>
        requires going_on { AreGoingOn self.old }
        requires short { length part.now ≤ 65536 }
        ensures going_on { OnOk result (AreGoingOn self.new) }
        ensures fed { (bytes : List ℕ) (given : List AnEvent) → HasFedStream self.old bytes given → OnOk result (AppendsEvents packets.old.items packets.new.items (λ more. HasFedStream self.new (bytes ++ part.now) (given ++ more))) }
    {
        are_bytes(part);
        self.reader.feed(part);
        self.take_notes(packets)?;
        Ok(())
    }

    /// Takes the next bytes, and appends the packets of what they decide.
    pub(crate) fn feed(&mut self, piece: &[u8], packets: &mut Vec<u8>) -> Result<(), NoMemory>
        requires going_on { AreGoingOn self.old }
        ensures going_on { OnOk result (AreGoingOn self.new) }
        ensures fed { (bytes : List ℕ) (given : List AnEvent) → HasFedStream self.old bytes given → OnOk result (AppendsEvents packets.old.items packets.new.items (λ more. HasFedStream self.new (bytes ++ piece.now) (given ++ more))) }
    {
        let mut left = piece;
        while !left.is_empty() {
            let (part, behind) = left.split_at(left.len().min(PART));
            self.feed_part(part, packets)?;
            left = behind;
        }
        Ok(())
    }

    /// Ends the stream, and appends the packets of what the end decides. Answers whether one of the events is one of a test.
    pub(crate) fn close(self, packets: &mut Vec<u8>) -> Result<bool, NoMemory>
        ensures { (bytes : List ℕ) (given : List AnEvent) → HasFedStream self bytes given → IfOk result (λ told. AppendsEvents packets.old.items packets.new.items (λ more. HasEvents bytes (given ++ more) × (told ≡ list_any has_id (given ++ more)))) }
    {
        let mut stream = self;
        stream.reader.finish();
        stream.take_notes(packets)?;
        Ok(stream.told)
    }
}

// Appends the packet of the note's event. Answers whether that is one of a test.
fn put_note(alloc: Global, note: Note, packets: &mut Vec<u8>) -> Result<bool, NoMemory>
    requires { Fits (event_of note) }
    ensures packets { OnOk result (packets.new.items ≡ packets.old.items ++ canonical (event_of note)) }
    ensures event { OnOk result (IsEvent (event_of note)) }
    ensures told { IfOk result (λ told. told ≡ has_id (event_of note)) }
{
    let event = note.into_event(alloc)?;
    put_event(&event, packets)?;
    Ok(event.id.is_some())
}
