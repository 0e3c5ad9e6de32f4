//! A reader of a stream.

ghost use Rattle.std.specs.Prelude.{◌≡◌, ◌<◌, ◌≤◌, ◌+◌, ◌++◌, [], true, false, length, take, drop, IfOk, OnErr, IfSome, IfNone};
ghost use Rattle.packet_codec.specs.Header.{BeginsWithPacket};
ghost use Rattle.packet_codec.specs.Sight.{BeginsWithThis};
ghost use Rattle.stream_reader.specs.declared.note.Note.{Note};
ghost use Rattle.stream_reader.specs.declared.first_note.First.TheVariants.{Nothing};
ghost use Rattle.stream_reader.specs.Notes.{longest_foreign};
ghost use Rattle.stream_reader.specs.First.{FirstIs, HasEvent, IsCandidate, IsForeignAtFront, IsMadeBy, SeenIs, first_of};
ghost use Rattle.stream_reader.specs.Room.{reader_room, most_held};
ghost use Rattle.stream_reader.specs.Run.{AreForeign};
ghost use Rattle.stream_reader.specs.Stream.{GivesNote, IsSpent};

use crate::buffer::Buffer;
use crate::first_note::{First, Made, Seen};
use crate::foreign_bytes::foreign_run;
use crate::note::Note;
use packet_codec::{
    Front, Header, Heading, Packet, Sight, are_bytes, head_of, known_packet, see_front_by,
};
use std::alloc::Global;
use std::marker::Model;
use sub_number::{Bytes, NoMemory};

/// A stream that comes in pieces, and the notes that it is made of. However it is cut into pieces, the notes are those
/// of the whole stream. Contracts see the bytes fed that belong to no note given, and whether the stream has ended.
///
/// Each note is given as soon as the bytes fed decide it, whatever may follow. The bytes of notes that were given are
/// let go of. The reader takes its room when it is made, and holds 4,325,376 bytes at most. So whoever takes all notes
/// that can be told before the next piece may feed pieces of 65,536 bytes.
#[derive(Drop)]
pub struct Reader {
    alloc: Global,
    // The bytes that belong to no note given.
    buffer: Buffer,
    // So many bytes at their front are known to be foreign.
    foreign: usize,
    // The size of a packet that is known to stand there. So it is not tested again.
    packet: Option<usize>,
    ended: bool,
}

impl Model for Reader {
    ghost use Rattle.std.specs.Prelude.{◌≤◌, length, IfSome};
    ghost use Rattle.packet_codec.specs.Header.{BeginsWithPacket};
    ghost use Rattle.stream_reader.specs.Notes.{longest_foreign};
    ghost use Rattle.stream_reader.specs.Stream.{Held};
    ghost use Rattle.stream_reader.specs.Run.{AreForeign};

    ghost Value = { Held };

    ghost view = { λ r. record { bytes = r.buffer; ended = r.ended } };

    ghost invariant = { λ r. (r.foreign ≤ length r.buffer) × (r.foreign ≤ longest_foreign) × AreForeign r.ended r.buffer r.foreign × IfSome r.packet (BeginsWithPacket r.buffer) };
}

impl Reader {
    /// A reader to which nothing was fed, with all the room that it will ever need.
    pub fn new(alloc: Global) -> Result<Self, NoMemory>
        ensures { IfOk result (λ reader. reader ≡ record { bytes = []; ended = false }) }
    {
        Ok(Reader {
            alloc,
            buffer: Buffer::new(alloc)?,
            foreign: 0,
            packet: None,
            ended: false,
        })
    }

    /// The next bytes of the stream. With what is held they are 4,325,376 at most, and the stream has not ended. It
    /// takes no memory.
    pub fn feed(&mut self, piece: &[u8])
        requires going_on { self.old.ended ≡ false }
        requires in_room { length self.old.bytes + length piece.now ≤ reader_room }
        ensures { self.new ≡ record { bytes = self.old.bytes ++ piece.now; ended = false } }
    {
        self.buffer.append(piece);
    }

    /// The first note of the bytes held, whose bytes are then let go of. None where no further note can be told: before
    /// the end, until more bytes are fed; behind the end, where all notes were given.
    ///
    /// Before the end a note is given only where no bytes that may follow would change it. So bytes are held back as
    /// long as they may become a packet, and so are fewer than 65,536 foreign bytes that may be followed by others.
    /// After None before the end at most 4,259,837 bytes are held.
    pub fn next(&mut self) -> Result<Option<Note>, NoMemory>
        ensures some { IfOk result (λ answer. IfSome answer (λ note. GivesNote self.old note self.new)) }
        ensures none { IfOk result (λ answer. IfNone answer (IsSpent self.old.ended self.old.bytes × (self.new ≡ self.old))) }
        ensures held { IfOk result (λ answer. IfNone answer (self.new.ended ≡ false → length self.new.bytes ≤ most_held)) }
        ensures err { OnErr result (self.new ≡ self.old) }
        ensures ended { self.new.ended ≡ self.old.ended }
    {
        let made = self.first_made()?;
        let first = made.first();
        let Some(note) = self.note(made)? else {
            return Ok(None);
        };
        self.pass(first);
        Ok(Some(note))
    }

    /// The stream has ended: nothing is fed any more. A second call changes nothing.
    pub fn finish(&mut self)
        ensures { self.new ≡ record { bytes = self.old.bytes; ended = true } }
    {
        self.ended = true;
    }

    /// How many bytes were fed that belong to no note given. They are 4,325,376 at most.
    pub fn held(&self) -> usize
        ensures held { result ≡ length self.now.bytes }
        ensures in_room { result ≤ reader_room }
    {
        self.buffer.len()
    }
}

/// The steps of `next`, for those who make something else of a note than a value. `first_seen` tells what is first; of a
/// candidate `packet` tells whether it is one, and `foreign_front` what is first where it is none. Then `known` and
/// `front` lend the bytes, and `pass` lets go of them.
impl Reader {
    /// What a look at the bytes held tells of the first note. It takes no memory.
    #[inline(always)]
    pub fn first_seen(&mut self) -> Seen
        ensures same { self.new ≡ self.old }
        ensures seen { SeenIs self.old.ended self.old.bytes result }
    {
        if let Some(size) = self.packet {
            return Seen::Told(First::Packet(size));
        }
        let known = self.foreign;
        if known > 0 {
            return Seen::Told(self.first_run(known));
        }
        if self.held() == 0 {
            return Seen::Told(First::Nothing);
        }
        self.first_unknown()
    }

    /// The packet that the candidate is, which is first then. None where it is no packet. It takes no memory.
    #[inline(always)]
    pub fn packet(&self, header: Header, sum: u32) -> Option<Packet<'_>>
        requires { IsCandidate self.now.bytes header sum }
        ensures some { IfSome result (BeginsWithThis self.now.bytes) }
        ensures none { IfNone result (IsForeignAtFront self.now.ended self.now.bytes) }
    {
        are_bytes(self.buffer.held());
        match see_front_by(header, self.buffer.held(), sum) {
            Sight::Packet(packet) => Some(packet),
            _ => None,
        }
    }

    /// The packet of this size that is first. Nothing is tested again, and it takes no memory.
    pub fn known(&self, size: usize) -> Packet<'_>
        requires { BeginsWithPacket self.now.bytes size }
        ensures { result ≡ take size self.now.bytes }
    {
        known_packet(self.front(size))
    }

    /// What is first where the candidate at the front is no packet. It takes no memory.
    #[inline(never)]
    pub fn foreign_front(&mut self) -> First
        requires { IsForeignAtFront self.old.ended self.old.bytes }
        ensures same { self.new ≡ self.old }
        ensures first { FirstIs self.old.ended self.old.bytes result }
    {
        self.first_run(1)
    }

    /// The first bytes held.
    pub fn front(&self, size: usize) -> &[u8]
        requires { size ≤ length self.now.bytes }
        ensures { result.now ≡ take size self.now.bytes }
    {
        &self.buffer.held()[..size]
    }

    /// The note of this was given: its bytes are let go of. Where there is nothing the reader is as before.
    #[inline(always)]
    pub fn pass(&mut self, first: First)
        requires { FirstIs self.old.ended self.old.bytes first }
        ensures given { (note : Note) → IsMadeBy self.old.bytes first note → GivesNote self.old note self.new }
        ensures nothing { first ≡ Nothing → self.new ≡ self.old }
        ensures ended { self.new.ended ≡ self.old.ended }
    {
        are_bytes(self.buffer.held());
        match first {
            First::Packet(size) => self.let_pass(size, None),
            First::Foreign(size, packet) => self.let_pass(size, packet),
            First::Nothing => (),
        }
    }

    // What a look tells, where bytes are held and nothing is known of them.
    #[inline(always)]
    fn first_unknown(&mut self) -> Seen
        requires { 0 < length self.old.bytes }
        ensures same { self.new ≡ self.old }
        ensures seen { SeenIs self.old.ended self.old.bytes result }
    {
        are_bytes(self.buffer.held());
        match head_of(self.buffer.held()) {
            Heading::Whole(header) => {
                let sum = self.buffer.front_sum(header);
                Seen::Candidate(header, sum)
            }
            Heading::More if self.ended => Seen::Told(self.first_run(1)),
            Heading::More => Seen::Told(First::Nothing),
            Heading::No => Seen::Told(self.first_run(1)),
        }
    }

    // The foreign bytes at the front, of which so many are known. How far they go is kept in mind.
    #[inline(never)]
    fn first_run(&mut self, known: usize) -> First
        requires some { 0 < known }
        requires in_range { known ≤ length self.old.bytes }
        requires short { known ≤ longest_foreign }
        requires are_foreign { AreForeign self.old.ended self.old.bytes known }
        ensures same { self.new ≡ self.old }
        ensures first { FirstIs self.old.ended self.old.bytes result }
    {
        let run = foreign_run(&mut self.buffer, known, self.ended);
        self.foreign = run.count;
        match run.front {
            Front::More => First::Nothing,
            Front::Packet(size) => First::Foreign(run.count, Some(size)),
            Front::No => First::Foreign(run.count, None),
        }
    }

    // What the first note of the bytes held is made of; of a packet its event, made from the parts that were found as the
    // packet was tested. So neither is looked for a second time.
    fn first_made(&mut self) -> Result<Made, NoMemory>
        ensures same { self.new ≡ self.old }
        ensures first { IfOk result (λ made. FirstIs self.old.ended self.old.bytes (first_of made)) }
        ensures event { IfOk result (HasEvent self.old.bytes) }
    {
        match self.first_seen() {
            Seen::Candidate(header, sum) => self.made_by(header, sum),
            Seen::Told(first) => self.made_of(first),
        }
    }

    // The note of what `first_made` told. None where there is nothing.
    fn note(&self, made: Made) -> Result<Option<Note>, NoMemory>
        requires first { FirstIs self.now.ended self.now.bytes (first_of made) }
        requires event { HasEvent self.now.bytes made }
        ensures some { IfOk result (λ answer. IfSome answer (IsMadeBy self.now.bytes (first_of made))) }
        ensures none { IfOk result (λ answer. IfNone answer (first_of made ≡ Nothing)) }
    {
        match made {
            Made::Event(event, _) => Ok(Some(Note::Event(event))),
            Made::Foreign(size, _) => {
                let bytes = Bytes::new(self.alloc, self.front(size))?;
                Ok(Some(Note::Foreign(bytes)))
            }
            Made::Nothing => Ok(None),
        }
    }

    // The event of the candidate, or what is first where it is no packet.
    fn made_by(&mut self, header: Header, sum: u32) -> Result<Made, NoMemory>
        requires { IsCandidate self.old.bytes header sum }
        ensures same { self.new ≡ self.old }
        ensures first { IfOk result (λ made. FirstIs self.old.ended self.old.bytes (first_of made)) }
        ensures event { IfOk result (HasEvent self.old.bytes) }
    {
        if let Some(packet) = self.packet(header, sum) {
            let event = packet.event(self.alloc)?;
            return Ok(Made::Event(event, packet.size()));
        }
        let first = self.foreign_front();
        self.made_of(first)
    }

    // What is first, where that is told, with the event of a packet.
    fn made_of(&self, first: First) -> Result<Made, NoMemory>
        requires { FirstIs self.now.ended self.now.bytes first }
        ensures first { IfOk result (λ made. first_of made ≡ first) }
        ensures event { IfOk result (HasEvent self.now.bytes) }
    {
        match first {
            First::Packet(size) => {
                let event = self.known(size).event(self.alloc)?;
                Ok(Made::Event(event, size))
            }
            First::Foreign(size, packet) => Ok(Made::Foreign(size, packet)),
            First::Nothing => Ok(Made::Nothing),
        }
    }

    // So many bytes belong to a note that is given, and what stands behind them is a packet of this size, if it is known.
    #[inline(always)]
    fn let_pass(&mut self, size: usize, packet: Option<usize>)
        requires in_range { size ≤ length self.old.bytes }
        requires packet { IfSome packet (BeginsWithPacket (drop size self.old.bytes)) }
        ensures { self.new ≡ record { bytes = drop size self.old.bytes; ended = self.old.ended } }
    {
        self.buffer.let_pass(size);
        self.foreign = 0;
        self.packet = packet;
    }
}
