// The notes that a reader can tell, and a filter that takes them.
ghost use Rattle.std.specs.Prelude.{◌≡◌, ◌≤◌, true, false, length, List, IfOk, IfSome, IfNone, OnOk};
ghost use Rattle.stream_reader.specs.Room.{most_held};
ghost use Rattle.stream_reader.specs.declared.note.Note.{Note as ANote};
ghost use Rattle.stream_reader.specs.declared.first_note.First.TheVariants.{Packet, Nothing};
ghost use Rattle.stream_reader.specs.First.{FirstIs, IsCandidate, IsForeignAtFront};
ghost use Rattle.stream_reader.specs.Stream.{IsSpent};
ghost use Rattle.filter_cli.specs.Noted.{TakesFirstNote, TakesNext, TakesNotes};

use crate::notes::NoteFilter;
use packet_codec::Header;
use stream_end::OpenCharacter;
use stream_reader::{First, Reader, Seen};
use sub_number::NoMemory;

// Takes the packet that the candidate is, where it stands, and gives its size. None exactly where it is no packet.
#[inline(always)]
fn take_packet<F: NoteFilter>(
    reader: &Reader,
    header: Header,
    sum: u32,
    filter: &mut F,
    text: &mut Vec<u8>,
) -> Result<Option<usize>, NoMemory>
    requires ready { F.ready filter.old }
    requires candidate { IsCandidate reader.now.bytes header sum }
    ensures ready { OnOk result (F.ready filter.new) }
    ensures first { IfOk result (λ answer. IfSome answer (λ size. FirstIs reader.now.ended reader.now.bytes (Packet size))) }
    ensures some { IfOk result (λ answer. IfSome answer (λ size. TakesFirstNote (F.has filter.old) (F.has filter.new) (F.plan filter.old) reader.now.bytes (Packet size) text.old.items text.new.items)) }
    ensures none { IfOk result (λ answer. IfNone answer (IsForeignAtFront reader.now.ended reader.now.bytes × (filter.new ≡ filter.old) × (text.new.items ≡ text.old.items))) }
    ensures plan { OnOk result (F.plan filter.new ≡ F.plan filter.old) }
{
    let Some(packet) = reader.packet(header, sum) else {
        return Ok(None);
    };
    filter.take(&packet, text)?;
    Ok(Some(packet.size()))
}

// Takes the note that is made of what is first, where it stands. False comes exactly where there is none.
fn take_first<F: NoteFilter>(
    reader: &Reader,
    first: First,
    filter: &mut F,
    text: &mut Vec<u8>,
) -> Result<bool, NoMemory>
    requires ready { F.ready filter.old }
    requires first { FirstIs reader.now.ended reader.now.bytes first }
    ensures ready { OnOk result (F.ready filter.new) }
    ensures some { IfOk result (λ some. some ≡ true → TakesFirstNote (F.has filter.old) (F.has filter.new) (F.plan filter.old) reader.now.bytes first text.old.items text.new.items) }
    ensures none { IfOk result (λ some. some ≡ false → (first ≡ Nothing) × (filter.new ≡ filter.old) × (text.new.items ≡ text.old.items)) }
    ensures plan { OnOk result (F.plan filter.new ≡ F.plan filter.old) }
{
    match first {
        First::Packet(size) => {
            filter.take(&reader.known(size), text)?;
            Ok(true)
        }
        First::Foreign(size, _) => {
            filter.take_foreign(reader.front(size), text)?;
            Ok(true)
        }
        First::Nothing => Ok(false),
    }
}

// Takes the next note where what is first is told. False comes exactly where there is none.
#[inline(never)]
fn take_told<F: NoteFilter>(
    reader: &mut Reader,
    character: &mut OpenCharacter,
    first: First,
    filter: &mut F,
    text: &mut Vec<u8>,
) -> Result<bool, NoMemory>
    requires ready { F.ready filter.old }
    requires first { FirstIs reader.old.ended reader.old.bytes first }
    ensures ready { OnOk result (F.ready filter.new) }
    ensures some { IfOk result (λ some. some ≡ true → TakesNext (F.has filter.old) (F.has filter.new) (F.plan filter.old) reader.old reader.new character.old character.new text.old.items text.new.items) }
    ensures none { IfOk result (λ some. some ≡ false → IsSpent reader.old.ended reader.old.bytes × (reader.new ≡ reader.old) × (character.new ≡ character.old) × (filter.new ≡ filter.old) × (text.new.items ≡ text.old.items)) }
    ensures ended { reader.new.ended ≡ reader.old.ended }
    ensures plan { OnOk result (F.plan filter.new ≡ F.plan filter.old) }
{
    if !take_first(reader, first, filter, text)? {
        return Ok(false);
    }
    character.pass(reader, first);
    Ok(true)
}

// Takes the next note where a candidate stands. False comes exactly where there is none.
#[inline(always)]
fn take_candidate<F: NoteFilter>(
    reader: &mut Reader,
    character: &mut OpenCharacter,
    header: Header,
    sum: u32,
    filter: &mut F,
    text: &mut Vec<u8>,
) -> Result<bool, NoMemory>
    requires ready { F.ready filter.old }
    requires candidate { IsCandidate reader.old.bytes header sum }
    ensures ready { OnOk result (F.ready filter.new) }
    ensures some { IfOk result (λ some. some ≡ true → TakesNext (F.has filter.old) (F.has filter.new) (F.plan filter.old) reader.old reader.new character.old character.new text.old.items text.new.items) }
    ensures none { IfOk result (λ some. some ≡ false → IsSpent reader.old.ended reader.old.bytes × (reader.new ≡ reader.old) × (character.new ≡ character.old) × (filter.new ≡ filter.old) × (text.new.items ≡ text.old.items)) }
    ensures ended { reader.new.ended ≡ reader.old.ended }
    ensures plan { OnOk result (F.plan filter.new ≡ F.plan filter.old) }
{
    if let Some(size) = take_packet(reader, header, sum, filter, text)? {
        character.pass(reader, First::Packet(size));
        return Ok(true);
    }
    let first = reader.foreign_front();
    take_told(reader, character, first, filter, text)
}

// Takes the next note. False comes exactly where there is none.
#[inline(always)]
fn take_next<F: NoteFilter>(
    reader: &mut Reader,
    character: &mut OpenCharacter,
    filter: &mut F,
    text: &mut Vec<u8>,
) -> Result<bool, NoMemory>
    requires { F.ready filter.old }
    ensures ready { OnOk result (F.ready filter.new) }
    ensures some { IfOk result (λ some. some ≡ true → TakesNext (F.has filter.old) (F.has filter.new) (F.plan filter.old) reader.old reader.new character.old character.new text.old.items text.new.items) }
    ensures none { IfOk result (λ some. some ≡ false → IsSpent reader.old.ended reader.old.bytes × (reader.new ≡ reader.old) × (character.new ≡ character.old) × (filter.new ≡ filter.old) × (text.new.items ≡ text.old.items)) }
    ensures ended { reader.new.ended ≡ reader.old.ended }
    ensures plan { OnOk result (F.plan filter.new ≡ F.plan filter.old) }
{
    match reader.first_seen() {
        Seen::Candidate(header, sum) => {
            take_candidate(reader, character, header, sum, filter, text)
        }
        Seen::Told(first) => take_told(reader, character, first, filter, text),
    }
}

/// Takes all notes that can be told of the bytes held, in order.
pub(crate) fn take_notes<F: NoteFilter>(
    reader: &mut Reader,
    character: &mut OpenCharacter,
    filter: &mut F,
    text: &mut Vec<u8>,
) -> Result<(), NoMemory>
    requires { F.ready filter.old }
    ensures ready { OnOk result (F.ready filter.new) }
    ensures taken { (notes : List ANote) → F.has filter.old notes → OnOk result (TakesNotes (F.has filter.new) (F.plan filter.old) notes reader.old reader.new character.old character.new text.old.items text.new.items) }
    ensures held { OnOk result (reader.new.ended ≡ false → length reader.new.bytes ≤ most_held) }
    ensures spent { OnOk result (IsSpent reader.new.ended reader.new.bytes) }
    ensures ended { reader.new.ended ≡ reader.old.ended }
    ensures plan { OnOk result (F.plan filter.new ≡ F.plan filter.old) }
{
    loop {
        let more = take_next(reader, character, filter, text)?;
        if !more {
            return Ok(());
        }
    }
}
