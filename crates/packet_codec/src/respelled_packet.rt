//! Packets written from their parts, where they stand: no event is made of them.

ghost use Rattle.std.specs.Prelude.{◌≡◌, ◌<◌, ◌++◌, true, false, List, ℕ, option_map, IfOk, OnOk, OnErr};
ghost use Rattle.packet_codec.specs.Packet.{SpellsEvent};
ghost use Rattle.packet_codec.specs.Canonical.{canonical, Fits};
ghost use Rattle.packet_codec.specs.Routing.{under};
ghost use Rattle.packet_codec.specs.Shapes.{ShowsRuns};
ghost use Rattle.packet_codec.specs.Retagging.{if_any, lent_bytes, with_tags};
ghost use Rattle.packet_codec.specs.Respelled.{IsChange, changed};
ghost use Rattle.packet_codec.specs.declared.event.Event.{Event};

use crate::event_change::Change;
use crate::header::LARGEST_PACKET;
use crate::packet::Packet;
use crate::parts::run_at;
use crate::respelled_bytes::put_changed;
use crate::respelled_size::fields_size;
use crate::sizes::whole_size;
use std::alloc::Global;
use sub_number::NoMemory;

// `NoMemory` comes only for want of memory, and `out` then has what it had.
impl<'a> Packet<'a> {
    /// Appends the shortest spelling of its event under the route of a lane, as `reroute` gives it, and answers true.
    /// False comes exactly where that event does not fit into a packet, and nothing is appended then.
    pub fn put_under(&self, lane: u32, out: &mut Vec<u8>) -> Result<bool, NoMemory>
        requires { lane < 64 }
        ensures put { (e : Event) → SpellsEvent self.now e → IfOk result (λ put. put ≡ true → Fits (under lane e) × (out.new.items ≡ out.old.items ++ canonical (under lane e))) }
        ensures too_long { (e : Event) → SpellsEvent self.now e → IfOk result (λ put. put ≡ false → (Fits (under lane e) → ⊥) × (out.new.items ≡ out.old.items)) }
        ensures err { OnErr result (out.new.items ≡ out.old.items) }
    {
        self.put_with(Change::Lane(lane), out)
    }

    /// The tags of its event, where they stand, in their order.
    pub fn tag_list(&self, alloc: Global) -> Result<Option<Vec<&'a [u8]>>, NoMemory>
        ensures { (e : Event) → SpellsEvent self.now e → IfOk result (λ tags. option_map (λ list. lent_bytes list.items) tags ≡ e.tags) }
    {
        match self.parts.tags {
            None => Ok(None),
            Some(list) => Ok(Some(slices_of(alloc, list.count, list.bytes)?)),
        }
    }

    /// Appends the shortest spelling of its event with these tags in place of its own, with none where the list is
    /// empty, and answers true. False comes exactly where that event does not fit into a packet, and nothing is appended
    /// then.
    pub fn put_with_tags(&self, tags: &[&[u8]], out: &mut Vec<u8>) -> Result<bool, NoMemory>
        ensures put { (e : Event) → SpellsEvent self.now e → IfOk result (λ put. put ≡ true → Fits (with_tags e (if_any (lent_bytes tags.now))) × (out.new.items ≡ out.old.items ++ canonical (with_tags e (if_any (lent_bytes tags.now))))) }
        ensures too_long { (e : Event) → SpellsEvent self.now e → IfOk result (λ put. put ≡ false → (Fits (with_tags e (if_any (lent_bytes tags.now))) → ⊥) × (out.new.items ≡ out.old.items)) }
        ensures err { OnErr result (out.new.items ≡ out.old.items) }
    {
        self.put_with(Change::Tags(tags), out)
    }

    /// Appends the shortest spelling of its event. That fits, since it is no longer than the packet. A packet of that size
    /// is that spelling, and its bytes are appended as they stand.
    pub fn put_shortest(&self, out: &mut Vec<u8>) -> Result<(), NoMemory>
        ensures ok { (e : Event) → SpellsEvent self.now e → OnOk result (out.new.items ≡ out.old.items ++ canonical e) }
        ensures err { OnErr result (out.new.items ≡ out.old.items) }
    {
        let size = whole_size(fields_size(&self.parts, Change::Nothing));
        if size == self.bytes.len() as u128 {
            out.extend_from_slice(self.bytes)?;
            return Ok(());
        }
        put_changed(self.header, size as u32, &self.parts, Change::Nothing, out)
    }

    // The size is told first, so that memory is taken once.
    #[inline(always)]
    fn put_with(&self, change: Change<'_>, out: &mut Vec<u8>) -> Result<bool, NoMemory>
        requires { IsChange change }
        ensures put { (e : Event) → SpellsEvent self.now e → IfOk result (λ put. put ≡ true → Fits (changed change.entry e) × (out.new.items ≡ out.old.items ++ canonical (changed change.entry e))) }
        ensures too_long { (e : Event) → SpellsEvent self.now e → IfOk result (λ put. put ≡ false → (Fits (changed change.entry e) → ⊥) × (out.new.items ≡ out.old.items)) }
        ensures err { OnErr result (out.new.items ≡ out.old.items) }
    {
        let size = whole_size(fields_size(&self.parts, change));
        if size > LARGEST_PACKET as u128 {
            return Ok(false);
        }
        put_changed(self.header, size as u32, &self.parts, change, out)?;
        Ok(true)
    }
}

// The runs, where they stand.
fn slices_of(alloc: Global, count: u32, bytes: &[u8]) -> Result<Vec<&[u8]>, NoMemory>
    requires { (runs : List (List ℕ)) × ShowsRuns count bytes.now runs }
    ensures { (runs : List (List ℕ)) → ShowsRuns count bytes.now runs → IfOk result (λ slices. lent_bytes slices.items ≡ runs) }
{
    let mut slices = Vec::new(alloc);
    let mut rest = bytes;
    for _ in 0..count {
        let (run, after) = run_at(rest).unwrap();
        slices.push(run)?;
        rest = after;
    }
    Ok(slices)
}
