// A filter of notes as a filter of bytes.
ghost use Rattle.std.specs.Prelude.{◌≡◌, false};
ghost use Rattle.stream_end.specs.Inside.{ends_inside_behind as is_inside};

use crate::filter::{Filter, StreamEnd};
use crate::note_taker::take_notes;
use crate::notes::NoteFilter;
use std::alloc::Global;
use stream_end::{OpenCharacter, ends_inside};
use stream_reader::Reader;
use sub_number::NoMemory;

/// A filter of notes, and the reader that gives it the notes of a stream.
pub struct ByteFilter<F: NoteFilter> {
    reader: Reader,
    // The character that the foreign bytes in front of what the reader holds leave open.
    character: OpenCharacter,
    filter: F,
    ghost open: { reader.ended ≡ false },
}

impl<F: NoteFilter> ByteFilter<F> {
    ghost use Rattle.std.specs.Prelude.{[], ◌≤◌, length, IfOk};
    ghost use Rattle.stream_reader.specs.Room.{most_held};
    ghost use Rattle.filter_cli.specs.Noted.{HasFiltered};

    /// Nothing was read yet.
    pub fn new(alloc: Global, filter: F) -> Result<Self, NoMemory>
        requires ready { F.ready filter }
        requires has { F.has filter [] }
        ensures ready { IfOk result (λ made. F.ready made.filter) }
        ensures held { IfOk result (λ made. length made.reader.bytes ≤ most_held) }
        ensures filter { IfOk result (λ made. made.filter ≡ filter) }
        ensures has { IfOk result (λ made. HasFiltered (F.has made.filter) (F.plan made.filter) made.character made.reader.bytes [] []) }
    {
        let Ok(reader) = Reader::new(alloc) else {
            filter.let_go();
            return Err(NoMemory);
        };
        Ok(ByteFilter {
            reader,
            character: OpenCharacter::none(),
            filter,
        })
    }
}

// Whether the stream ends inside a packet, where it ends behind what the reader holds.
fn stands_inside(reader: &Reader, character: OpenCharacter) -> bool
    ensures { result ≡ is_inside character reader.now.bytes }
{
    ends_inside(character, reader.front(reader.held()))
}

impl<F: NoteFilter> Filter for ByteFilter<F> {
    ghost use Rattle.std.specs.Prelude.{◌≤◌, length};
    ghost use Rattle.stream_reader.specs.Room.{most_held};
    ghost use Rattle.stream_end.specs.Inside.{ends_inside};
    ghost use Rattle.filter_cli.specs.Plan.{IsSeen, IsFiltered};
    ghost use Rattle.filter_cli.specs.Noted.{HasFiltered};
    ghost use Rattle.filter_cli.specs.PlanLaws.{plan_seen, plan_front, plan_one};

    ghost seen = { λ f. IsSeen (F.plan f.filter) };

    ghost whole = { λ f. IsFiltered (F.plan f.filter) };

    ghost ready = { λ f. F.ready f.filter × (length f.reader.bytes ≤ most_held) };

    ghost inside = { ends_inside };

    ghost has = { λ f. HasFiltered (F.has f.filter) (F.plan f.filter) f.character f.reader.bytes };

    fn feed(&mut self, piece: &[u8], text: &mut Vec<u8>) -> Result<(), NoMemory> {
        self.reader.feed(piece);
        take_notes(
            &mut self.reader,
            &mut self.character,
            &mut self.filter,
            text,
        )?;
        Ok(())
    }

    fn close(self, text: &mut Vec<u8>) -> Result<StreamEnd, NoMemory> {
        let ByteFilter {
            mut reader,
            mut character,
            mut filter,
        } = self;
        let inside = stands_inside(&reader, character);
        reader.finish();
        let Ok(()) = take_notes(&mut reader, &mut character, &mut filter, text) else {
            filter.let_go();
            return Err(NoMemory);
        };
        let status = filter.close(text)?;
        Ok(StreamEnd { status, inside })
    }

    fn let_go(self) {
        let ByteFilter {
            reader: _reader,
            character: _,
            filter,
        } = self;
        filter.let_go();
    }

    ghost is_seen = { λ f. plan_seen (F.has f.filter) (F.plan f.filter) f.character f.reader.bytes };

    ghost front = { λ f. plan_front (F.plan f.filter) };

    ghost one = { λ f. plan_one (F.plan f.filter) };
}
