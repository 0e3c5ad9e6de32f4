//! What one stream becomes under a lane.

ghost use Rattle.std.specs.Prelude.{◌≡◌, ◌<◌, ◌≤◌, ◌+◌, ℕ, List, [], ◌++◌, ◌↔◌, true, false, pos, None, length, map, IfOk, OnErr, IfSome, IfNone};
ghost use Rattle.std.specs.Option.{option_to_list};
ghost use Rattle.packet_codec.specs.Canonical.{canonical};
ghost use Rattle.stream_reader.specs.First.{FirstIs, IsCandidate, IsForeignAtFront};
ghost use Rattle.stream_reader.specs.Room.{reader_room};
ghost use Rattle.stream_reader.specs.declared.first_note.First.TheVariants.{Packet as APacket, Nothing as NoNote};
ghost use Rattle.worker_lane.specs.Endings.{ending_events, IsPacketOf};
ghost use Rattle.worker_lane.specs.Inside.{ends_inside_behind as is_inside};
ghost use Rattle.worker_lane.specs.Lost.{longest_id, IsLostPacket};
ghost use Rattle.worker_lane.specs.declared.lot.Ending.TheVariants.{Exit, NoMemory as without_memory};
ghost use Rattle.worker_lane.specs.Scribing.{scribe_holding, finished, GivesOne, GivesPacket, HasNoNote, HasNone, most_left, Recording};
ghost use Rattle.worker_lane.specs.Waiting.{PutsNote};

use crate::end_inside_packet::inside_event;
use crate::end_packet::{ending_text, returncode_event};
use crate::lost_test::lost_event;
use crate::lot::Ending;
use crate::stdout::put_stdout;
use crate::waiting_note::{Waiting, is_nothing, put_first, put_packet};
use packet_codec::{Header, are_bytes, encode};
use std::alloc::Global;
use std::marker::Model;
use stream_end::{OpenCharacter, ends_inside};
use stream_reader::{First, Reader, Seen};
use sub_number::{Bytes, NoMemory, Text};

/// What a stream becomes when it is recorded under a lane: for each note of the stream, packets under the lane's route,
/// and one more where it ends inside a packet. Contracts see the lane, the events that are given before the next note is
/// taken, the bytes fed of which no note was taken, and how many bytes are missing to a character in front of these. They
/// see, too, whether an end inside a packet is still to be told of. A note is taken when its first packet is given.
///
/// With `recording` the clauses say of all calls together what was given: that of `new` holds, each call keeps it, and
/// `recording_in_turn` tells what it comes to at the end.
#[derive(Drop)]
pub struct Scribe {
    alloc: Global,
    lane: u32,
    reader: Reader,
    // The character that the foreign bytes in front of what the reader holds leave open.
    character: OpenCharacter,
    waiting: Waiting,
    // The stream has ended inside a packet, and this is still to be told.
    inside: bool,
}

impl Model for Scribe {
    ghost use Rattle.std.specs.Prelude.{◌≡◌, ◌<◌, true};
    ghost use Rattle.worker_lane.specs.Scribing.{Scribing};
    ghost use Rattle.worker_lane.specs.Waiting.{waiting_events, HasWaitingEvent};

    ghost Value = { Scribing };

    ghost view = { λ s. record { lane = s.lane; waiting = waiting_events s.lane s.waiting; held = s.reader; missing = s.character; inside = s.inside } };

    ghost invariant = { λ s. (s.lane < 64) × HasWaitingEvent s.waiting × (s.inside ≡ true → s.reader.ended ≡ true) };
}

impl Scribe {
    /// A scribe to which nothing was fed. The lane is below 64.
    pub fn new(alloc: Global, lane: u32) -> Result<Self, NoMemory>
        requires { lane < 64 }
        ensures empty { IfOk result (λ scribe. scribe ≡ record { lane = lane; waiting = []; held = record { bytes = []; ended = false }; missing = 0; inside = false }) }
        ensures recording { IfOk result (λ scribe. Recording [] scribe []) }
    {
        Ok(Scribe {
            alloc,
            lane,
            reader: Reader::new(alloc)?,
            character: OpenCharacter::none(),
            waiting: Waiting::Nothing,
            inside: false,
        })
    }

    /// The next bytes of the stream. With what is held they are 4,325,376 at most, and the stream has not ended. It
    /// takes no memory.
    pub fn feed(&mut self, piece: &[u8])
        requires going_on { self.old.held.ended ≡ false }
        requires in_room { length self.old.held.bytes + length piece.now ≤ reader_room }
        ensures ok { self.new ≡ scribe_holding self.old (self.old.held.bytes ++ piece.now) }
        ensures recording { (fed written : List ℕ) → Recording fed self.old written → Recording (fed ++ piece.now) self.new written }
    {
        self.reader.feed(piece);
    }

    /// The stream has ended: nothing is fed any more. Where it ends inside a packet this is told behind all else.
    pub fn finish(&mut self)
        requires { self.old.held.ended ≡ false }
        ensures ended { self.new ≡ finished self.old }
        ensures recording { (fed written : List ℕ) → Recording fed self.old written → Recording fed self.new written }
    {
        self.inside = self.stands_inside();
        self.reader.finish();
    }

    /// How many bytes were fed of which no note was taken. They are 4,325,376 at most.
    pub fn held(&self) -> usize
        ensures held { result ≡ length self.now.held.bytes }
        ensures in_room { result ≤ reader_room }
    {
        self.reader.held()
    }

    /// Appends the next recorded packet, and answers true. The packet stands under the lane, where it fits there, and
    /// is made from the parts that were read. Else it is a half, where the file may be cut in two, or a piece of the
    /// file `stdout`. Last comes the packet that tells of an end inside a packet, where the stream has ended so. False
    /// comes where nothing is left: before the end, until more bytes are fed; behind the end, where all was given. After
    /// false before the end at most 4,259,837 bytes are held.
    pub fn next_into(&mut self, out: &mut Vec<u8>) -> Result<bool, NoMemory>
        ensures given { IfOk result (λ given. given ≡ true → GivesPacket self.old out.old.items self.new out.new.items) }
        ensures packet { IfOk result (λ given. given ≡ true → GivesOne self.old out.old.items self.new out.new.items) }
        ensures shorter { IfOk result (λ given. given ≡ true → most_left self.new < most_left self.old) }
        ensures none { IfOk result (λ given. given ≡ false → HasNone self.old × (self.new ≡ self.old) × (out.new.items ≡ out.old.items)) }
        ensures err { OnErr result ((self.new ≡ self.old) × (out.new.items ≡ out.old.items)) }
    {
        if self.put_next(out)? {
            return Ok(true);
        }
        self.put_inside(out)
    }

    /// The next recorded packet. None comes where `next_into` answers false.
    pub fn next(&mut self) -> Result<Option<Bytes>, NoMemory>
        ensures some { IfOk result (λ answer. IfSome answer (λ packet. GivesPacket self.old [] self.new packet)) }
        ensures shorter { IfOk result (λ answer. IfSome answer (λ packet. most_left self.new < most_left self.old)) }
        ensures none { IfOk result (λ answer. IfNone answer (HasNone self.old × (self.new ≡ self.old))) }
        ensures err { OnErr result (self.new ≡ self.old) }
    {
        let mut packet = Vec::new(self.alloc);
        if self.next_into(&mut packet)? {
            Ok(Some(Bytes::from_vec(packet)))
        } else {
            Ok(None)
        }
    }

    /// The packet that tells of the end of the lane. None exactly where the child ended with 0. The ending is not
    /// `NoMemory`.
    pub fn ending(&self, ending: &Ending) -> Result<Option<Bytes>, NoMemory>
        requires { ending.now ≡ without_memory → ⊥ }
        ensures packet { IfOk result (λ answer. option_to_list answer ≡ map canonical (ending_events self.now.lane ending.now)) }
        ensures none { IfOk result (λ answer. (answer ≡ None) ↔ (ending.now ≡ Exit (pos 0))) }
        ensures under { IfOk result (λ answer. IfSome answer (IsPacketOf self.now.lane)) }
    {
        let Some(text) = ending_text(self.alloc, ending)? else {
            return Ok(None);
        };
        let event = returncode_event(self.alloc, self.lane, text)?;
        let mut packet = Vec::new(self.alloc);
        encode(&event, &mut packet)?;
        Ok(Some(Bytes::from_vec(packet)))
    }

    /// The packet of the event of a test that was lost. The id has 65,536 bytes at most.
    pub(crate) fn lost(&self, id: Text) -> Result<Bytes, NoMemory>
        requires { length id ≤ longest_id }
        ensures { IfOk result (λ packet. IsLostPacket self.now.lane id packet) }
    {
        let event = lost_event(self.alloc, self.lane, id)?;
        let mut packet = Vec::new(self.alloc);
        encode(&event, &mut packet)?;
        Ok(Bytes::from_vec(packet))
    }
}

impl Scribe {
    // Whether the stream ends inside a packet, where it ends behind what is held.
    fn stands_inside(&self) -> bool
        ensures { result ≡ is_inside self.now.missing self.now.held.bytes }
    {
        ends_inside(self.character, self.reader.front(self.reader.held()))
    }

    #[inline(always)]
    fn put_next(&mut self, out: &mut Vec<u8>) -> Result<bool, NoMemory>
        ensures some { IfOk result (λ some. some ≡ true → GivesOne self.old out.old.items self.new out.new.items) }
        ensures none { IfOk result (λ some. some ≡ false → HasNoNote self.old × (self.new ≡ self.old) × (out.new.items ≡ out.old.items)) }
        ensures err { OnErr result ((self.new ≡ self.old) × (out.new.items ≡ out.old.items)) }
    {
        if is_nothing(&self.waiting) {
            self.put_note(out)
        } else {
            put_first(self.lane, &mut self.waiting, out)
        }
    }

    // The first packet of the next note. The note is passed only once the packet is written. So of each function below.
    #[inline(always)]
    fn put_note(&mut self, out: &mut Vec<u8>) -> Result<bool, NoMemory>
        requires { self.old.waiting ≡ [] }
        ensures some { IfOk result (λ some. some ≡ true → GivesOne self.old out.old.items self.new out.new.items) }
        ensures none { IfOk result (λ some. some ≡ false → HasNoNote self.old × (self.new ≡ self.old) × (out.new.items ≡ out.old.items)) }
        ensures err { OnErr result ((self.new ≡ self.old) × (out.new.items ≡ out.old.items)) }
    {
        match self.reader.first_seen() {
            Seen::Candidate(header, sum) => self.put_candidate(header, sum, out),
            Seen::Told(first) => self.put_told(first, out),
        }
    }

    // The same where a candidate stands.
    #[inline(always)]
    fn put_candidate(
        &mut self,
        header: Header,
        sum: u32,
        out: &mut Vec<u8>,
    ) -> Result<bool, NoMemory>
        requires none { self.old.waiting ≡ [] }
        requires candidate { IsCandidate self.old.held.bytes header sum }
        ensures some { IfOk result (λ some. some ≡ true → GivesOne self.old out.old.items self.new out.new.items) }
        ensures none { IfOk result (λ some. some ≡ false → HasNoNote self.old × (self.new ≡ self.old) × (out.new.items ≡ out.old.items)) }
        ensures err { OnErr result ((self.new ≡ self.old) × (out.new.items ≡ out.old.items)) }
    {
        if let Some(size) = self.put_where_packet(header, sum, out)? {
            self.character.pass(&mut self.reader, First::Packet(size));
            return Ok(true);
        }
        let first = self.reader.foreign_front();
        self.put_told(first, out)
    }

    // The same where what is first is told.
    #[inline(never)]
    fn put_told(&mut self, first: First, out: &mut Vec<u8>) -> Result<bool, NoMemory>
        requires none { self.old.waiting ≡ [] }
        requires first { FirstIs self.old.held.ended self.old.held.bytes first }
        ensures some { IfOk result (λ some. some ≡ true → GivesOne self.old out.old.items self.new out.new.items) }
        ensures none { IfOk result (λ some. some ≡ false → HasNoNote self.old × (self.new ≡ self.old) × (out.new.items ≡ out.old.items)) }
        ensures err { OnErr result ((self.new ≡ self.old) × (out.new.items ≡ out.old.items)) }
    {
        if !self.put_first_of(first, out)? {
            return Ok(false);
        }
        self.character.pass(&mut self.reader, first);
        Ok(true)
    }

    // Appends the first packet of what is recorded of the packet that the candidate is, and gives the candidate's size.
    // None comes exactly where it is no packet. The note is not passed yet.
    #[inline(always)]
    fn put_where_packet(
        &mut self,
        header: Header,
        sum: u32,
        out: &mut Vec<u8>,
    ) -> Result<Option<usize>, NoMemory>
        requires none { self.old.waiting ≡ [] }
        requires candidate { IsCandidate self.old.held.bytes header sum }
        ensures lane { self.new.lane ≡ self.old.lane }
        ensures held { self.new.held ≡ self.old.held }
        ensures missing { self.new.missing ≡ self.old.missing }
        ensures inside { self.new.inside ≡ self.old.inside }
        ensures some { IfOk result (λ answer. IfSome answer (λ size. PutsNote self.old.lane self.old.held.bytes (APacket size) out.old.items self.new.waiting out.new.items)) }
        ensures first { IfOk result (λ answer. IfSome answer (λ size. FirstIs self.old.held.ended self.old.held.bytes (APacket size))) }
        ensures none { IfOk result (λ answer. IfNone answer (IsForeignAtFront self.old.held.ended self.old.held.bytes × (self.new ≡ self.old) × (out.new.items ≡ out.old.items))) }
        ensures err { OnErr result ((self.new ≡ self.old) × (out.new.items ≡ out.old.items)) }
    {
        let Some(packet) = self.reader.packet(header, sum) else {
            return Ok(None);
        };
        let size = packet.size();
        are_bytes(self.reader.front(size));
        put_packet(self.alloc, self.lane, &packet, &mut self.waiting, out)?;
        Ok(Some(size))
    }

    // Appends the first packet of what is recorded of the note that is first. False comes exactly where there is none. The
    // note is not passed yet.
    fn put_first_of(&mut self, first: First, out: &mut Vec<u8>) -> Result<bool, NoMemory>
        requires none { self.old.waiting ≡ [] }
        requires first { FirstIs self.old.held.ended self.old.held.bytes first }
        ensures lane { self.new.lane ≡ self.old.lane }
        ensures held { self.new.held ≡ self.old.held }
        ensures missing { self.new.missing ≡ self.old.missing }
        ensures inside { self.new.inside ≡ self.old.inside }
        ensures some { IfOk result (λ some. some ≡ true → PutsNote self.old.lane self.old.held.bytes first out.old.items self.new.waiting out.new.items) }
        ensures none { IfOk result (λ some. some ≡ false → (first ≡ NoNote) × (self.new ≡ self.old) × (out.new.items ≡ out.old.items)) }
        ensures err { OnErr result ((self.new ≡ self.old) × (out.new.items ≡ out.old.items)) }
    {
        match first {
            First::Packet(size) => {
                are_bytes(self.reader.front(size));
                let packet = self.reader.known(size);
                put_packet(self.alloc, self.lane, &packet, &mut self.waiting, out)?;
                Ok(true)
            }
            First::Foreign(size, _) => {
                put_stdout(self.lane, self.reader.front(size), out)?;
                Ok(true)
            }
            First::Nothing => Ok(false),
        }
    }

    // Appends the packet that tells of an end inside a packet, once all else was given. False comes where there is none.
    #[inline(never)]
    fn put_inside(&mut self, out: &mut Vec<u8>) -> Result<bool, NoMemory>
        requires { HasNoNote self.old }
        ensures some { IfOk result (λ some. some ≡ true → GivesOne self.old out.old.items self.new out.new.items) }
        ensures none { IfOk result (λ some. some ≡ false → HasNone self.old × (self.new ≡ self.old) × (out.new.items ≡ out.old.items)) }
        ensures err { OnErr result ((self.new ≡ self.old) × (out.new.items ≡ out.old.items)) }
    {
        if !self.inside {
            return Ok(false);
        }
        let event = inside_event(self.alloc, self.lane)?;
        encode(&event, out)?;
        self.inside = false;
        Ok(true)
    }
}
