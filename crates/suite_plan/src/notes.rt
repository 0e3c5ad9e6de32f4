//! What the notes that a reader gives tell of a listing.

ghost use Rattle.std.specs.Prelude.{◌≡◌, ◌≤◌, false, length, List, OnOk};
ghost use Rattle.stream_reader.specs.declared.note.Note.{Note as ANote};
ghost use Rattle.stream_reader.specs.Notes.{events_of};
ghost use Rattle.stream_reader.specs.Room.{most_held};
ghost use Rattle.stream_reader.specs.Stream.{IsSpent};
ghost use Rattle.suite_plan.specs.Gathering.{GathersListing};
ghost use Rattle.suite_plan.specs.Listed.{HasListed};

use crate::listed::Listed;
use stream_reader::Reader;
use sub_number::NoMemory;

/// Gathers what all notes tell that can be told of the bytes held, in order.
///
/// After `NoMemory` nothing is known of what was gathered.
pub(crate) fn gather_notes(reader: &mut Reader, listed: &mut Listed) -> Result<(), NoMemory>
    ensures gathered { (notes : List ANote) → HasListed listed.old (events_of notes) → OnOk result (GathersListing notes reader.old reader.new listed.new) }
    ensures held { OnOk result (reader.new.ended ≡ false → length reader.new.bytes ≤ most_held) }
    ensures spent { OnOk result (IsSpent reader.new.ended reader.new.bytes) }
    ensures ended { reader.new.ended ≡ reader.old.ended }
{
    while let Some(note) = reader.next()? {
        listed.hear(note)?;
    }
    Ok(())
}
