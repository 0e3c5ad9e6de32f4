//! Events in turn, and the lines that they give.

ghost use Rattle.std.specs.Prelude.{List, ◌≡◌, ◌++◌, ◌∷◌, [], is_some, IfOk, OnOk};
ghost use Rattle.packet_codec.specs.Packet.{SpellsEvent};
ghost use Rattle.packet_codec.specs.declared.event.Event.{Event as AnEvent};
ghost use Rattle.stream_reader.specs.declared.note.Note.{Note as ANote};
ghost use Rattle.stream_reader.specs.declared.note.Note.TheVariants as note;
ghost use Rattle.outcome_fold.specs.Folded.{HasSeen};
ghost use Rattle.v1_bridge.specs.Writing as spec;
ghost use Rattle.v1_bridge.specs.Written.{HasWrittenNotes};

use crate::part_lines::{last_byte_or, newline_behind, put_part};
use outcome_fold::{Ended, EndedPart, Fold};
use packet_codec::{Event, Packet};
use std::alloc::Global;
use sub_number::NoMemory;

/// The open tests of the events that were written, and the last byte.
///
/// What its calls of `add` and `foreign` append, one after another, and then `close` is the text of the notes, as
/// docs/FORMATS.md says under "Version 1". `out` may be emptied between calls.
///
/// After `NoMemory`, which comes only for want of memory, the writer is given up, and a part of a text may have been
/// appended.
#[derive(Drop)]
pub struct V1Writer {
    fold: Fold,
    // A newline before the first byte.
    last: u8,
}

fn is_written(ended: Ended) -> bool
    ensures { result ≡ spec.is_written ended }
{
    match ended {
        Ended::Exists => false,
        Ended::Success
        | Ended::UxSuccess
        | Ended::Skip
        | Ended::Fail
        | Ended::XFail
        | Ended::Open => true,
    }
}

impl V1Writer {
    /// A writer that was given nothing. It takes no memory yet.
    pub fn new(alloc: Global) -> Self
        ensures { HasWrittenNotes result [] }
    {
        V1Writer {
            fold: Fold::new(alloc),
            last: b'\n',
        }
    }

    // Appends the bytes.
    fn put_bytes(&mut self, bytes: &[u8], out: &mut Vec<u8>) -> Result<(), NoMemory>
        ensures text { OnOk result (out.new.items ≡ out.old.items ++ bytes.now) }
        ensures last { OnOk result (self.new.last ≡ spec.last_byte_behind self.old.last bytes.now) }
        ensures fold { self.new.fold ≡ self.old.fold }
    {
        out.extend_from_slice(bytes)?;
        self.last = last_byte_or(self.last, bytes);
        Ok(())
    }

    // Appends what is written of the part.
    fn put_ended(&mut self, part: EndedPart, out: &mut Vec<u8>) -> Result<(), NoMemory>
        ensures text { OnOk result (out.new.items ≡ out.old.items ++ spec.ended_part_text self.old.last part) }
        ensures last { OnOk result (self.new.last ≡ spec.last_byte_behind self.old.last (spec.ended_part_text self.old.last part)) }
        ensures fold { self.new.fold ≡ self.old.fold }
    {
        self.last = put_behind(self.last, part, out)?;
        Ok(())
    }

    // Appends what is written of an event that speaks of no test.
    fn put_file(&mut self, event: &Event, out: &mut Vec<u8>) -> Result<(), NoMemory>
        ensures text { OnOk result (out.new.items ≡ out.old.items ++ spec.file_bytes event.now.file) }
        ensures last { OnOk result (self.new.last ≡ spec.last_byte_behind self.old.last (spec.file_bytes event.now.file)) }
        ensures fold { self.new.fold ≡ self.old.fold }
    {
        match &event.file {
            Some(file) => self.put_bytes(file.bytes.bytes(), out),
            None => Ok(()),
        }
    }

    // Appends what is written of the part that an event completes, where it completes one.
    fn put_completed(&mut self, part: Option<EndedPart>, out: &mut Vec<u8>) -> Result<(), NoMemory>
        ensures text { OnOk result (out.new.items ≡ out.old.items ++ spec.completed_text self.old.last part) }
        ensures last { OnOk result (self.new.last ≡ spec.last_byte_behind self.old.last (spec.completed_text self.old.last part)) }
        ensures fold { self.new.fold ≡ self.old.fold }
    {
        match part {
            Some(part) => self.put_ended(part, out),
            None => Ok(()),
        }
    }

    /// Takes the next event, and appends what is written of it: the part of its test that it completes, or its file where it
    /// speaks of no test.
    pub fn add(&mut self, event: &Event, out: &mut Vec<u8>) -> Result<(), NoMemory>
        ensures text { (notes : List ANote) → HasWrittenNotes self.old notes → OnOk result (out.new.items ≡ out.old.items ++ spec.added_text notes (note.Event event.now)) }
        ensures written { (notes : List ANote) → HasWrittenNotes self.old notes → OnOk result (HasWrittenNotes self.new (notes ++ note.Event event.now ∷ [])) }
    {
        let part = self.fold.add_part(event)?;
        match &event.id {
            Some(_) => {
                self.put_completed(part, out)?;
                Ok(())
            }
            None => {
                self.put_file(event, out)?;
                Ok(())
            }
        }
    }

    // Appends what is written of the packet's event where it completes no part: its file, where it speaks of no test.
    fn put_outside(&mut self, packet: &Packet<'_>, out: &mut Vec<u8>) -> Result<(), NoMemory>
        ensures text { (event : AnEvent) → SpellsEvent packet.now event → OnOk result (out.new.items ≡ out.old.items ++ spec.outside_bytes event.id event.file) }
        ensures last { (event : AnEvent) → SpellsEvent packet.now event → OnOk result (self.new.last ≡ spec.last_byte_behind self.old.last (spec.outside_bytes event.id event.file)) }
        ensures fold { self.new.fold ≡ self.old.fold }
    {
        let Some(bytes) = packet.file_bytes() else {
            return Ok(());
        };
        let alloc = *out.allocator();
        let named = names_test(alloc, packet)?;
        if named {
            return Ok(());
        }
        self.put_bytes(bytes, out)?;
        Ok(())
    }

    /// The same of the event that the packet spells, which is not made.
    pub fn hear(&mut self, packet: &Packet<'_>, out: &mut Vec<u8>) -> Result<(), NoMemory>
        ensures text { (event : AnEvent) → SpellsEvent packet.now event → (notes : List ANote) → HasWrittenNotes self.old notes → OnOk result (out.new.items ≡ out.old.items ++ spec.added_text notes (note.Event event)) }
        ensures written { (event : AnEvent) → SpellsEvent packet.now event → (notes : List ANote) → HasWrittenNotes self.old notes → OnOk result (HasWrittenNotes self.new (notes ++ note.Event event ∷ [])) }
    {
        match self.fold.hear_part(packet)? {
            Some(part) => {
                self.put_ended(part, out)?;
                Ok(())
            }
            None => {
                self.put_outside(packet, out)?;
                Ok(())
            }
        }
    }

    /// Takes the next foreign bytes, and appends them.
    pub fn foreign(&mut self, bytes: &[u8], out: &mut Vec<u8>) -> Result<(), NoMemory>
        ensures text { OnOk result (out.new.items ≡ out.old.items ++ bytes.now) }
        ensures written { (notes : List ANote) → HasWrittenNotes self.old notes → OnOk result (HasWrittenNotes self.new (notes ++ note.Foreign bytes.now ∷ [])) }
    {
        self.put_bytes(bytes, out)?;
        Ok(())
    }

    /// Ends the notes, and appends the tests that are open, by route, no route first, and then by id.
    pub fn close(self, out: &mut Vec<u8>) -> Result<(), NoMemory>
        ensures text { (notes : List ANote) → HasWrittenNotes self notes → OnOk result (out.new.items ≡ out.old.items ++ spec.text_at_end notes) }
    {
        let V1Writer { fold, last } = self;
        let parts = fold.close_parts()?;
        put_parts(last, parts, out)?;
        Ok(())
    }
}

// Whether the packet's event speaks of a test.
fn names_test(alloc: Global, packet: &Packet<'_>) -> Result<bool, NoMemory>
    ensures { (event : AnEvent) → SpellsEvent packet.now event → IfOk result (λ named. named ≡ is_some event.id) }
{
    let id = packet.id(alloc)?;
    Ok(id.is_some())
}

// Appends what is written of the parts behind this byte.
fn put_parts(last: u8, parts: Vec<EndedPart>, out: &mut Vec<u8>) -> Result<(), NoMemory>
    ensures { OnOk result (out.new.items ≡ out.old.items ++ spec.parts_text last parts.items) }
{
    let mut before = last;
    for part in parts {
        before = put_behind(before, part, out)?;
    }
    Ok(())
}

// Appends what is written of the part behind this byte, and gives the last one then.
fn put_behind(last: u8, part: EndedPart, out: &mut Vec<u8>) -> Result<u8, NoMemory>
    ensures text { OnOk result (out.new.items ≡ out.old.items ++ spec.ended_part_text last part) }
    ensures last { IfOk result (λ now. now ≡ spec.last_byte_behind last (spec.ended_part_text last part)) }
{
    if !is_written(part.ended) {
        return Ok(last);
    }
    out.extend_from_slice(newline_behind(last))?;
    put_part(part, out)?;
    Ok(b'\n')
}
