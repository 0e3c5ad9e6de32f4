//! Packets that are held until their test completes.

ghost use Rattle.std.specs.Prelude.{◌≡◌, List, [], ◌∷◌, ◌++◌, IfOk, OnOk};
ghost use Rattle.std.specs.List.{flat_map};
ghost use Rattle.packet_codec.specs.Packet.{SpellsEvent};
ghost use Rattle.packet_codec.specs.declared.event.Event.{Event as AnEvent};
ghost use Rattle.packet_codec.specs.Canonical.{packets_of};
ghost use Rattle.event_sift.specs.Keeping.{keeps};
ghost use Rattle.event_sift.specs.Released.{released, released_at_end};
ghost use Rattle.outcome_fold.specs.Folded.{HasSeen};
ghost use Rattle.outcome_fold.specs.EndedParts.{completed_part, row_of_part};
ghost use Rattle.event_sift.specs.declared.held_packets.HeldTest.{HeldTest as AHeldTest};
ghost use Rattle.event_sift.specs.PacketSifted.{HasSiftedPackets, IsNext, open_packets, other_packets_in, packets_if_kept, held_packets_in, packet_predicate_of, packet_rules_of};

use crate::held_packets::HeldPackets;
use crate::predicate::Predicate;
use crate::rules::Rules;
use outcome_fold::{EndedPart, Fold, key_in};
use packet_codec::Packet;
use std::alloc::Global;
use sub_number::NoMemory;

/// The tests that are open, with their packets, and a predicate that says which tests are kept. The predicate goes by the
/// rules.
///
/// It is to packets what a `Sift` is to events: no event is made. A packet is copied where it is held, as the shortest
/// spelling of its event, and once more where its test is kept. After want of memory a sift is given up.
///
/// A sift is not dropped, since what drops a predicate beside other things can't be stated. It ends by `close` or by
/// `let_go`.
pub struct PacketSift<'a, P: Predicate + Drop> {
    alloc: Global,
    rules: &'a Rules,
    predicate: P,
    fold: Fold,
    held: HeldPackets,
}

impl<'a, P: Predicate + Drop> PacketSift<'a, P> {
    /// A sift that has taken no event. The predicate goes by the same rules, which it may borrow. It takes no memory yet.
    pub fn new(alloc: Global, rules: &'a Rules, predicate: P) -> Self
        requires faithful { P.rules predicate ≡ rules.now }
        ensures rules { packet_rules_of result ≡ rules.now }
        ensures predicate { packet_predicate_of result ≡ predicate }
        ensures taken { HasSiftedPackets result [] }
    {
        PacketSift {
            alloc,
            rules,
            predicate,
            fold: Fold::new(alloc),
            held: HeldPackets::new(alloc),
        }
    }

    // Whether the test of the part is kept, by the predicate. No row is made of it.
    fn keeps_part(&mut self, part: &EndedPart) -> Result<bool, NoMemory>
        requires faithful { P.rules (packet_predicate_of self.old) ≡ packet_rules_of self.old }
        ensures kept { IfOk result (λ kept. kept ≡ keeps (packet_rules_of self.old) (row_of_part part.now)) }
        ensures held { self.new.held ≡ self.old.held }
        ensures fold { self.new.fold ≡ self.old.fold }
        ensures rules { packet_rules_of self.new ≡ packet_rules_of self.old }
        ensures predicate { P.rules (packet_predicate_of self.new) ≡ P.rules (packet_predicate_of self.old) }
    {
        self.predicate
            .is_kept(&part.key.id, part.ended, &part.started.tags)
    }

    // Takes the packet, whose test was heard last. It completes this part, or none.
    fn hear_last(
        &mut self,
        packet: &Packet<'_>,
        part: &Option<EndedPart>,
        out: &mut Vec<u8>,
    ) -> Result<(), NoMemory>
        requires faithful { P.rules (packet_predicate_of self.old) ≡ packet_rules_of self.old }
        ensures released { (seen : List AnEvent) (e : AnEvent) (last : AHeldTest) → SpellsEvent packet.now e → part.now ≡ completed_part seen e → IsNext self.old.held seen e last → OnOk result (out.new.items ≡ out.old.items ++ packets_of (released (keeps (packet_rules_of self.old)) seen e)) }
        ensures held { (seen : List AnEvent) (e : AnEvent) (last : AHeldTest) → SpellsEvent packet.now e → part.now ≡ completed_part seen e → IsNext self.old.held seen e last → OnOk result (held_packets_in self.new.held ≡ open_packets (seen ++ e ∷ [])) }
        ensures fold { self.new.fold ≡ self.old.fold }
        ensures rules { packet_rules_of self.new ≡ packet_rules_of self.old }
        ensures predicate { P.rules (packet_predicate_of self.new) ≡ P.rules (packet_predicate_of self.old) }
    {
        let Some(part) = part else {
            return self.held.go_on(packet);
        };
        let kept = self.keeps_part(part)?;
        self.held.finish(packet, kept, out)
    }

    // Takes the packet, whatever test its event speaks of. It completes this part, or none.
    #[inline(never)]
    fn hear_other(
        &mut self,
        packet: &Packet<'_>,
        part: &Option<EndedPart>,
        out: &mut Vec<u8>,
    ) -> Result<(), NoMemory>
        requires faithful { P.rules (packet_predicate_of self.old) ≡ packet_rules_of self.old }
        ensures released { (seen : List AnEvent) (e : AnEvent) → SpellsEvent packet.now e → part.now ≡ completed_part seen e → held_packets_in self.old.held ≡ open_packets seen → OnOk result (out.new.items ≡ out.old.items ++ packets_of (released (keeps (packet_rules_of self.old)) seen e)) }
        ensures held { (seen : List AnEvent) (e : AnEvent) → SpellsEvent packet.now e → part.now ≡ completed_part seen e → held_packets_in self.old.held ≡ open_packets seen → OnOk result (held_packets_in self.new.held ≡ open_packets (seen ++ e ∷ [])) }
        ensures fold { self.new.fold ≡ self.old.fold }
        ensures rules { packet_rules_of self.new ≡ packet_rules_of self.old }
        ensures predicate { P.rules (packet_predicate_of self.new) ≡ P.rules (packet_predicate_of self.old) }
    {
        let Some(key) = key_in(self.alloc, packet)? else {
            return packet.put_shortest(out);
        };
        self.held.turn_to(key)?;
        self.hear_last(packet, part, out)
    }

    /// Takes the event that the packet spells, and appends the packets that are released now. The packet of an event
    /// without an id is released at once. Where the event completes its test and this is kept, all packets of the test
    /// are, in order. Else none is.
    ///
    /// After `NoMemory` the sift is given up: its rules are as before, its predicate goes by them, and of the packets
    /// that it held, and of what was appended, nothing is known.
    pub fn hear(&mut self, packet: &Packet<'_>, out: &mut Vec<u8>) -> Result<(), NoMemory>
        requires faithful { P.rules (packet_predicate_of self.old) ≡ packet_rules_of self.old }
        ensures released { (seen : List AnEvent) (e : AnEvent) → SpellsEvent packet.now e → HasSiftedPackets self.old seen → OnOk result (out.new.items ≡ out.old.items ++ packets_of (released (keeps (packet_rules_of self.old)) seen e)) }
        ensures taken { (seen : List AnEvent) (e : AnEvent) → SpellsEvent packet.now e → HasSiftedPackets self.old seen → OnOk result (HasSiftedPackets self.new (seen ++ e ∷ [])) }
        ensures rules { packet_rules_of self.new ≡ packet_rules_of self.old }
        ensures predicate { P.rules (packet_predicate_of self.new) ≡ P.rules (packet_predicate_of self.old) }
    {
        let part = self.fold.hear_part(packet)?;
        if self.held.holds(packet) {
            return self.hear_last(packet, &part, out);
        }
        self.hear_other(packet, &part, out)
    }

    // Appends the packets of the open test of the part, where it is kept.
    fn release_open(
        &mut self,
        part: &EndedPart,
        held: &HeldPackets,
        out: &mut Vec<u8>,
    ) -> Result<(), NoMemory>
        requires faithful { P.rules (packet_predicate_of self.old) ≡ packet_rules_of self.old }
        ensures released { OnOk result (out.new.items ≡ out.old.items ++ packets_if_kept (keeps (packet_rules_of self.old)) (other_packets_in held.now) (row_of_part part.now)) }
        ensures rules { packet_rules_of self.new ≡ packet_rules_of self.old }
        ensures predicate { P.rules (packet_predicate_of self.new) ≡ P.rules (packet_predicate_of self.old) }
    {
        if self.keeps_part(part)? {
            held.put(&part.key, out)
        } else {
            Ok(())
        }
    }

    // Appends the packets of the open tests of the parts, of those that are kept.
    fn release_all(
        &mut self,
        parts: Vec<EndedPart>,
        held: &HeldPackets,
        out: &mut Vec<u8>,
    ) -> Result<(), NoMemory>
        requires faithful { P.rules (packet_predicate_of self.old) ≡ packet_rules_of self.old }
        ensures { OnOk result (out.new.items ≡ out.old.items ++ flat_map (λ part. packets_if_kept (keeps (packet_rules_of self.old)) (other_packets_in held.now) (row_of_part part)) parts.items) }
    {
        for part in parts {
            self.release_open(&part, held, out)?;
        }
        Ok(())
    }

    // Appends the packets of the open tests that are kept.
    fn release(
        &mut self,
        fold: Fold,
        mut held: HeldPackets,
        out: &mut Vec<u8>,
    ) -> Result<(), NoMemory>
        requires faithful { P.rules (packet_predicate_of self.old) ≡ packet_rules_of self.old }
        ensures { (seen : List AnEvent) → HasSeen fold seen → held_packets_in held ≡ open_packets seen → OnOk result (out.new.items ≡ out.old.items ++ packets_of (released_at_end (keeps (packet_rules_of self.old)) seen)) }
    {
        held.set_aside()?;
        let parts = fold.close_parts()?;
        self.release_all(parts, &held, out)
    }

    /// Ends the sift, and appends the packets of the open tests that are kept, by route, no route first, and then by id.
    ///
    /// After `NoMemory` the sift is given up too, and of what was appended nothing is known.
    pub fn close(self, out: &mut Vec<u8>) -> Result<(), NoMemory>
        requires faithful { P.rules (packet_predicate_of self) ≡ packet_rules_of self }
        ensures { (seen : List AnEvent) → HasSiftedPackets self.entry seen → OnOk result (out.new.items ≡ out.old.items ++ packets_of (released_at_end (keeps (packet_rules_of self.entry)) seen)) }
    {
        let PacketSift {
            alloc,
            rules,
            predicate,
            fold,
            held,
        } = self;
        // What is open is moved out, so that the rest can be given up whatever comes of it.
        let mut rest = PacketSift {
            alloc,
            rules,
            predicate,
            fold: Fold::new(alloc),
            held: HeldPackets::new(alloc),
        };
        let released = rest.release(fold, held, out);
        rest.let_go();
        released
    }

    /// Gives the sift up, with the packets that it holds.
    pub fn let_go(self) {
        let PacketSift {
            alloc: _alloc,
            rules: _rules,
            predicate: _predicate,
            fold: _fold,
            held: _held,
        } = self;
    }
}
