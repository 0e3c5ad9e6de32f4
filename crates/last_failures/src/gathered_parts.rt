//! The rows of a run, and the packets of the parts of some tests, as a reader gives its notes.

ghost use Rattle.std.specs.Prelude.{◌≡◌, ◌≤◌, ◌∷◌, ◌++◌, [], false, length, ℕ, List, OnOk};
ghost use Rattle.packet_codec.specs.declared.event.Event.{Event as AnEvent};
ghost use Rattle.stream_reader.specs.declared.note.Note.{Note as ANote};
ghost use Rattle.stream_reader.specs.Notes.{event_of, events_of};
ghost use Rattle.stream_reader.specs.Room.{most_held};
ghost use Rattle.stream_reader.specs.Stream.{IsSpent};
ghost use Rattle.last_failures.specs.Gathering.{GathersParts, HasGatheredParts, HasParts, NoteFits};

use crate::ids_without_row::IdsWithoutRow;
use crate::parts::FailedParts;
use outcome_fold::Outcomes;
use std::alloc::Global;
use stream_reader::{Note, Reader};
use sub_number::NoMemory;

/// What is gathered of the events of a run.
#[derive(Drop)]
pub struct GatheredParts {
    /// Its rows.
    pub outcomes: Outcomes,
    /// The packets of the parts of some tests.
    pub parts: FailedParts,
}

impl GatheredParts {
    /// No event came yet. It takes no memory yet.
    pub fn new(alloc: Global) -> Self
        ensures { (wanted : List (List ℕ)) → HasGatheredParts wanted result [] }
    {
        GatheredParts {
            outcomes: Outcomes::new(alloc),
            parts: FailedParts::new(alloc),
        }
    }

    // Takes the event of the note.
    fn take_note(
        &mut self,
        alloc: Global,
        wanted: &IdsWithoutRow,
        note: Note,
    ) -> Result<(), NoMemory>
        requires { NoteFits note }
        ensures { (seen : List AnEvent) → HasGatheredParts wanted.now self.old seen → OnOk result (HasGatheredParts wanted.now self.new (seen ++ event_of note ∷ [])) }
    {
        take_parts(wanted, &note, &mut self.parts)?;
        let event = note.into_event(alloc)?;
        self.outcomes.add(&event)
    }
}

// Takes the event of the note into the parts. Foreign bytes speak of no test.
fn take_parts(wanted: &IdsWithoutRow, note: &Note, parts: &mut FailedParts) -> Result<(), NoMemory>
    requires { NoteFits note.now }
    ensures { (seen : List AnEvent) → HasParts wanted.now parts.old seen → OnOk result (HasParts wanted.now parts.new (seen ++ event_of note.now ∷ [])) }
{
    match note {
        Note::Event(event) => parts.add(wanted, event),
        Note::Foreign(_) => Ok(()),
    }
}

/// Gathers all notes that can be told of the bytes held, in order.
///
/// After `NoMemory` nothing is known of what is gathered.
pub fn gather_notes(
    alloc: Global,
    wanted: &IdsWithoutRow,
    reader: &mut Reader,
    gathered: &mut GatheredParts,
) -> Result<(), NoMemory>
    ensures gathers { (notes : List ANote) → HasGatheredParts wanted.now gathered.old (events_of notes) → OnOk result (GathersParts wanted.now notes reader.old reader.new gathered.new) }
    ensures held { OnOk result (reader.new.ended ≡ false → length reader.new.bytes ≤ most_held) }
    ensures spent { OnOk result (IsSpent reader.new.ended reader.new.bytes) }
    ensures ended { reader.new.ended ≡ reader.old.ended }
{
    while let Some(note) = reader.next()? {
        gathered.take_note(alloc, wanted, note)?;
    }
    Ok(())
}
