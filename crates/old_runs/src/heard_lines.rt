//! Lines of version 1 that are heard: their events, and what tells of damage.

ghost use Rattle.std.specs.Prelude.{◌≡◌, ◌↔◌, ◌++◌, ◌∷◌, ◌≤◌, ◌||◌, ◌&&◌, [], List, length, true, All, IfOk, OnOk};
ghost use Rattle.std.specs.List.{list_any};
ghost use Rattle.packet_codec.specs.declared.event.Event.{Event as AnEvent};
ghost use Rattle.v1_bridge.specs.Lines.{without_newline};
ghost use Rattle.v1_bridge.specs.Events.{longest_v1_line};
ghost use Rattle.v1_bridge.specs.Reading.{Input, line as a_line, piece as a_piece, events_of_inputs};
ghost use Rattle.v1_bridge.specs.Kept.{HoldsLittle};
ghost use Rattle.old_runs.specs.Files.{has_id, lacks_id, HasOpenParts};
ghost use Rattle.old_runs.specs.Giving.{AppendsEvents};
ghost use Rattle.old_runs.specs.Lines.{HasHeardLines, is_parts};

use crate::line_place::Place;
use crate::packets::{any_has_id, any_lacks_id, put_events};
use packet_codec::Event;
use std::alloc::Global;
use sub_number::NoMemory;
use v1_bridge::V1Reader;

/// What the end of some lines tells.
#[derive(Clone, Copy)]
pub(crate) struct Verdict {
    /// One of the events is one of a test.
    pub(crate) told: bool,
    /// The parts of a test are not closed.
    pub(crate) open_parts: bool,
}

/// Lines that are heard.
#[derive(Drop)]
pub(crate) struct Heard {
    reader: V1Reader,
    place: Place,
    // One of the events was one of a test.
    told: bool,
    // Something else than a part stood among the parts of a test.
    broken: bool,
    // What a line gave, kept for its room.
    events: Vec<Event>,
}

impl Heard {
    /// No line was heard.
    pub(crate) fn new(alloc: Global) -> Self
        ensures heard { HasHeardLines result [] [] }
        ensures little { HoldsLittle result.reader }
    {
        Heard {
            reader: V1Reader::new(alloc),
            place: Place::Outside,
            told: false,
            broken: false,
            events: Vec::new(alloc),
        }
    }

    // Takes note of what a line gave.
    fn look(&mut self)
        ensures told { self.new.told ≡ (self.old.told || list_any has_id self.old.events.items) }
        ensures broken { self.new.broken ≡ (self.old.broken || (is_parts self.old.place && list_any lacks_id self.old.events.items)) }
        ensures reader { self.new.reader ≡ self.old.reader }
        ensures place { self.new.place ≡ self.old.place }
        ensures events { self.new.events ≡ self.old.events }
    {
        self.told = self.told || any_has_id(&self.events);
        self.broken = self.broken || (self.place.is_parts() && any_lacks_id(&self.events));
    }

    /// Hears a line with its newline, which the last one may lack, and appends the packets of what it gives.
    pub(crate) fn line(&mut self, line: &[u8], packets: &mut Vec<u8>) -> Result<(), NoMemory>
        requires short { length (without_newline line.now) ≤ longest_v1_line }
        requires little { HoldsLittle self.old.reader }
        ensures heard { (inputs : List Input) (given : List AnEvent) → HasHeardLines self.old inputs given → OnOk result (AppendsEvents packets.old.items packets.new.items (λ more. HasHeardLines self.new (inputs ++ a_line line.now ∷ []) (given ++ more))) }
        ensures little { OnOk result (HoldsLittle self.new.reader) }
    {
        self.events.clear();
        self.reader.line_into(line, &mut self.events)?;
        self.look();
        self.place = self.place.behind(line, &self.events);
        put_events(&self.events, packets)?;
        Ok(())
    }

    /// Hears a piece of a line that is too long, and whether it is the last one.
    pub(crate) fn piece(
        &mut self,
        piece: &[u8],
        last: bool,
        packets: &mut Vec<u8>,
    ) -> Result<(), NoMemory>
        requires short { length (without_newline piece.now) ≤ longest_v1_line }
        requires little { HoldsLittle self.old.reader }
        ensures heard { (inputs : List Input) (given : List AnEvent) → HasHeardLines self.old inputs given → OnOk result (AppendsEvents packets.old.items packets.new.items (λ more. HasHeardLines self.new (inputs ++ a_piece piece.now last ∷ []) (given ++ more))) }
        ensures little { OnOk result (HoldsLittle self.new.reader) }
    {
        self.events.clear();
        self.reader.long_into(piece, last, &mut self.events)?;
        self.look();
        put_events(&self.events, packets)?;
        Ok(())
    }

    /// Ends the lines, and appends the packets of what the end gives.
    pub(crate) fn close(self, packets: &mut Vec<u8>) -> Result<Verdict, NoMemory>
        requires little { HoldsLittle self.reader }
        ensures events { (inputs : List Input) (given : List AnEvent) → HasHeardLines self inputs given → IfOk result (λ verdict. AppendsEvents packets.old.items packets.new.items (λ more. (events_of_inputs inputs ≡ given ++ more) × (verdict.told ≡ list_any has_id (given ++ more)))) }
        ensures open_parts { (inputs : List Input) (given : List AnEvent) → HasHeardLines self inputs given → IfOk result (λ verdict. (verdict.open_parts ≡ true) ↔ HasOpenParts inputs) }
    {
        let Heard {
            reader,
            place,
            told,
            broken,
            events: _events,
        } = self;
        let events = reader.close()?;
        put_events(&events, packets)?;
        Ok(verdict_of(told, broken, place, &events))
    }
}

// What the end tells, where it gave these events.
fn verdict_of(told: bool, broken: bool, place: Place, given: &[Event]) -> Verdict
    ensures told { result.told ≡ (told || list_any has_id given.now) }
    ensures open_parts { result.open_parts ≡ (broken || is_parts place) }
{
    Verdict {
        told: told || any_has_id(given),
        open_parts: broken || place.is_parts(),
    }
}
