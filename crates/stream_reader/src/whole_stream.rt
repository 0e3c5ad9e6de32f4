//! The notes of a whole stream.

ghost use Rattle.std.specs.Prelude.{◌≡◌, ◌≤◌, ◌++◌, ℕ, List, false, length, IfOk, OnOk};
ghost use Rattle.std.specs.List.{flat_map};
ghost use Rattle.stream_reader.specs.Notes.{HasNotes};
ghost use Rattle.stream_reader.specs.Room.{most_held};
ghost use Rattle.stream_reader.specs.Stream.{BeginsWithNotes, GivesNotes, IsSpent};

use crate::note::Note;
use crate::reader::Reader;
use packet_codec::are_bytes;
use std::alloc::Global;
use sub_number::{Bytes, NoMemory};

// So many bytes are fed before notes are taken.
const PART: usize = 65_536;

/// Appends all notes that can be told of the bytes held, in order.
fn take_notes(reader: &mut Reader, notes: &mut Vec<Note>) -> Result<(), NoMemory>
    ensures given { OnOk result (GivesNotes reader.old notes.old.items reader.new notes.new.items) }
    ensures spent { OnOk result (IsSpent reader.new.ended reader.new.bytes) }
{
    while let Some(note) = reader.next()? {
        notes.push(note)?;
    }
    Ok(())
}

/// Appends the notes that the next piece decides. It is fed a part at a time, so that there is room for each.
fn read_piece(reader: &mut Reader, notes: &mut Vec<Note>, piece: &[u8]) -> Result<(), NoMemory>
    requires going_on { reader.old.ended ≡ false }
    requires held { length reader.old.bytes ≤ most_held }
    ensures going_on { OnOk result (reader.new.ended ≡ false) }
    ensures held { OnOk result (length reader.new.bytes ≤ most_held) }
    ensures notes { OnOk result ((bytes : List ℕ) → BeginsWithNotes bytes notes.old.items reader.old.bytes → BeginsWithNotes (bytes ++ piece.now) notes.new.items reader.new.bytes) }
{
    let mut left = piece;
    while !left.is_empty() {
        let (part, behind) = left.split_at(left.len().min(PART));
        are_bytes(part);
        reader.feed(part);
        take_notes(reader, notes)?;
        left = behind;
    }
    Ok(())
}

/// The notes of a stream that comes in these pieces. They are those of the joined pieces, however these were cut.
pub fn notes_of_pieces(alloc: Global, pieces: &[Bytes]) -> Result<Vec<Note>, NoMemory>
    ensures { IfOk result (λ notes. HasNotes (flat_map (λ piece. piece) pieces.now) notes.items) }
{
    let mut notes = Vec::new(alloc);
    let mut reader = Reader::new(alloc)?;
    for piece in pieces {
        read_piece(&mut reader, &mut notes, piece.bytes())?;
    }
    reader.finish();
    take_notes(&mut reader, &mut notes)?;
    Ok(notes)
}
