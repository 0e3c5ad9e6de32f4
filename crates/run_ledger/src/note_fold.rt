//! The fold of what a reader gives.

ghost use Rattle.std.specs.Prelude.{◌≡◌, List, [], ◌∷◌, ◌++◌, OnOk};
ghost use Rattle.packet_codec.specs.declared.event.Event.{Event};
ghost use Rattle.outcome_fold.specs.Outcome.{HasFolded};
ghost use Rattle.stream_reader.specs.declared.note.Note.{Note as ANote};
ghost use Rattle.stream_reader.specs.Notes.{event_of, events_of};
ghost use Rattle.stream_reader.specs.Stream.{IsSpent};
ghost use Rattle.run_ledger.specs.Reading.{FoldsNotes};

use outcome_fold::Outcomes;
use std::alloc::Global;
use stream_reader::{Note, Reader};
use sub_number::NoMemory;

/// Folds all notes that can be told of the bytes held, in order.
pub fn fold_notes(
    alloc: Global,
    reader: &mut Reader,
    outcomes: &mut Outcomes,
) -> Result<(), NoMemory>
    ensures folded { (notes : List ANote) → HasFolded outcomes.old (events_of notes) → OnOk result (FoldsNotes notes reader.old reader.new outcomes.new) }
    ensures spent { OnOk result (IsSpent reader.new.ended reader.new.bytes) }
    ensures ended { reader.new.ended ≡ reader.old.ended }
{
    while let Some(note) = reader.next()? {
        fold_note(alloc, outcomes, note)?;
    }
    Ok(())
}

// Folds the event of one note.
fn fold_note(alloc: Global, outcomes: &mut Outcomes, note: Note) -> Result<(), NoMemory>
    ensures { (seen : List Event) → HasFolded outcomes.old seen → OnOk result (HasFolded outcomes.new (seen ++ event_of note ∷ [])) }
{
    let event = note.into_event(alloc)?;
    outcomes.add(&event)
}
