//! The ids of a lane's job of which nothing was heard yet.

ghost use Rattle.std.specs.Prelude.{◌≡◌, ◌≤◌, ◌<◌, ◌∷◌, [], true, false, length, Some, IfOk, IfSome, IfNone, IsSomeAnd, slice_index_or, All};
ghost use Rattle.outcome_fold.specs.Order.{without};
ghost use Rattle.packet_codec.specs.Packet.{IsPacket, SpellsEvent};
ghost use Rattle.packet_codec.specs.declared.event.Event.{Event as AnEvent};
ghost use Rattle.worker_lane.specs.Lost.{longest_id, named_ids, lost_ids, is_exists};
ghost use Rattle.worker_lane.specs.Sought.{SaysNothing, IsFirstUnheard};

use outcome_fold::TextSet;
use packet_codec::{Packet, Status, known_packet};
use std::alloc::Global;
use std::marker::Model;
use sub_number::{NoMemory, Text};

/// An id that has more bytes is not named among those that were lost.
pub const LONGEST_ID: usize = 65_536;

/// The ids of a lane's job of which nothing was heard yet, in the order of the job. Contracts see them as the list of
/// their bytes.
#[derive(Drop)]
pub(crate) struct UnheardIds {
    alloc: Global,
    // The ids of the job that can be named.
    ids: Vec<Text>,
    // So many of them were told of as lost, or were heard of.
    passed: usize,
    // Those of which nothing was heard.
    unheard: TextSet,
    // The id that was heard of last. Most events are of the same test as the one before them.
    latest: Option<Text>,
}

impl Model for UnheardIds {
    ghost use Rattle.std.specs.Prelude.{List, ℕ};
    ghost use Rattle.worker_lane.specs.Sought.{unheard_of, IsHeard, AreShort};

    ghost Value = { List (List ℕ) };

    ghost view = { λ s. unheard_of s.ids.items s.passed s.unheard };

    ghost invariant = { λ s. AreShort s.ids.items × IsHeard s.unheard s.latest };
}

impl UnheardIds {
    /// Those of the ids that can be named, of which each is sought.
    pub(crate) fn new(alloc: Global, ids: &[Text]) -> Result<Self, NoMemory>
        ensures { IfOk result (λ sought. sought ≡ named_ids ids.now) }
    {
        let ids = named(alloc, ids)?;
        let mut unheard = TextSet::new(alloc);
        unheard.insert_all(&ids)?;
        Ok(UnheardIds {
            alloc,
            ids,
            passed: 0,
            unheard,
            latest: None,
        })
    }

    /// A packet of the lane was given: the id of its event is sought no more, unless the event only says that the test
    /// exists.
    pub(crate) fn hear(&mut self, packet: &[u8])
        requires { IsPacket packet.now }
        ensures { (e : AnEvent) → SpellsEvent packet.now e → self.new ≡ lost_ids self.old (e ∷ []) }
    {
        if self.ids.is_empty() {
            return;
        }
        self.hear_packet(&known_packet(packet));
    }

    /// Takes the first of the ids out. None where none is left.
    ///
    /// With `NoMemory` nothing is known of the ids.
    pub(crate) fn pop(&mut self) -> Result<Option<Text>, NoMemory>
        ensures some { IfOk result (λ answer. IfSome answer (λ id. self.old ≡ id ∷ self.new)) }
        ensures short { IfOk result (λ answer. IfSome answer (λ id. length id ≤ longest_id)) }
        ensures none { IfOk result (λ answer. IfNone answer (self.old ≡ [])) }
    {
        let place = first_unheard(&self.ids, self.passed, &self.unheard);
        if place < self.ids.len() {
            let id = self.ids[place].copy()?;
            self.passed = place + 1;
            return Ok(Some(id));
        }
        Ok(None)
    }

    // The same of a packet that was read.
    fn hear_packet(&mut self, packet: &Packet<'_>)
        ensures { (e : AnEvent) → SpellsEvent packet.now e → self.new ≡ lost_ids self.old (e ∷ []) }
    {
        if says_nothing(packet, &self.latest) {
            return;
        }
        match packet.id(self.alloc) {
            Ok(Some(id)) => self.take_out(id),
            Ok(None) => {}
            Err(NoMemory) => self.seek(packet),
        }
    }

    // The id is sought no more.
    fn take_out(&mut self, id: Text)
        ensures { self.new ≡ without self.old (id ∷ []) }
    {
        self.unheard.remove(&id);
        self.latest = Some(id);
    }

    // The same of the id of the packet's event, of which there was no memory for a copy.
    fn seek(&mut self, packet: &Packet<'_>)
        ensures { (e : AnEvent) → SpellsEvent packet.now e → is_exists e.status ≡ false → self.new ≡ lost_ids self.old (e ∷ []) }
    {
        if let Some(place) = place_of(packet, &self.ids) {
            self.unheard.remove(&self.ids[place]);
        }
    }
}

// Copies of the ids that can be named.
fn named(alloc: Global, ids: &[Text]) -> Result<Vec<Text>, NoMemory>
    ensures { IfOk result (λ list. list.items ≡ named_ids ids.now) }
{
    let mut list = Vec::new(alloc);
    for id in ids {
        if id.bytes().len() <= LONGEST_ID {
            list.push(id.copy()?)?;
        }
    }
    Ok(list)
}

// The place of the first id that is unheard, behind those that were passed; behind all of them, where there is none.
fn first_unheard(ids: &[Text], passed: usize, unheard: &TextSet) -> usize
    ensures { IsFirstUnheard ids.now unheard.now passed result }
{
    let mut place = passed;
    while place < ids.len() {
        if unheard.contains(&ids[place]) {
            return place;
        }
        place += 1;
    }
    place
}

// Whether the packet's event says no more of a test than that it exists, or is of this id.
#[inline(always)]
fn says_nothing(packet: &Packet<'_>, latest: &Option<Text>) -> bool
    ensures yes { (e : AnEvent) → SpellsEvent packet.now e → result ≡ true → SaysNothing latest.now e }
    ensures no { (e : AnEvent) → SpellsEvent packet.now e → result ≡ false → is_exists e.status ≡ false }
{
    exists_only(packet) || is_latest(packet, latest)
}

// Whether the packet's event says of a test that it exists, and no more.
#[inline(always)]
fn exists_only(packet: &Packet<'_>) -> bool
    ensures { (e : AnEvent) → SpellsEvent packet.now e → result ≡ is_exists e.status }
{
    matches!(packet.status(), Status::Exists)
}

// Whether the packet's event is of this id.
#[inline(always)]
fn is_latest(packet: &Packet<'_>, latest: &Option<Text>) -> bool
    ensures { (e : AnEvent) → SpellsEvent packet.now e → result ≡ true → IsSomeAnd latest.now (λ id. e.id ≡ Some id) }
{
    match latest {
        Some(id) => packet.has_id(id),
        None => false,
    }
}

// The place of the id of the packet's event among the ids.
fn place_of(packet: &Packet<'_>, ids: &[Text]) -> Option<usize>
    ensures place { IfSome result (λ place. place < length ids.now) }
    ensures found { (e : AnEvent) → SpellsEvent packet.now e → IfSome result (λ place. e.id ≡ Some (slice_index_or ids.now place [])) }
    ensures none { (e : AnEvent) → SpellsEvent packet.now e → IfNone result (All (λ id. e.id ≡ Some id → ⊥) ids.now) }
{
    for place in 0..ids.len() {
        if packet.has_id(&ids[place]) {
            return Some(place);
        }
    }
    None
}
