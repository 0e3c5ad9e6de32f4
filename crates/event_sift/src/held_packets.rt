//! The packets of the open tests.

ghost use Rattle.std.specs.Prelude.{◌≡◌, [], ◌++◌, Some, None, IsTrue, IsSomeAnd, OnOk, if◌then◌else◌};
ghost use Rattle.std.specs.FinMap as map;
ghost use Rattle.packet_codec.specs.Canonical.{canonical};
ghost use Rattle.packet_codec.specs.Packet.{SpellsEvent};
ghost use Rattle.packet_codec.specs.declared.event.Event.{Event as AnEvent};
ghost use Rattle.outcome_fold.specs.Parts.{test_of};
ghost use Rattle.outcome_fold.specs.TestPackets.{packets_at};
ghost use Rattle.event_sift.specs.declared.held_packets.HeldTest.{HeldTest as AHeldTest};
ghost use Rattle.event_sift.specs.PacketSifted.{begun_at, with_packet, other_packets_in, held_packets_in};

use outcome_fold::TestKey;
use packet_codec::Packet;
use std::alloc::Global;
use std::collections::BTreeMap;
use std::marker::Model;
use std::mem;
use sub_number::NoMemory;

/// Packets, one after another. Contracts see them as their bytes.
#[derive(Drop)]
pub struct Packets {
    bytes: Vec<u8>,
}

impl Model for Packets {
    ghost use Rattle.std.specs.Prelude.{List, ℕ};

    ghost Value = { List ℕ };

    ghost view = { λ p. p.bytes.items };
}

impl Packets {
    // No packet. It takes no memory.
    fn new(alloc: Global) -> Self
        ensures { result ≡ [] }
    {
        Packets {
            bytes: Vec::new(alloc),
        }
    }

    // Without its packets, in the same room.
    fn emptied(mut self) -> Self
        ensures { result ≡ [] }
    {
        self.bytes.clear();
        self
    }

    // Takes one packet more, as the shortest spelling of its event.
    #[inline(always)]
    fn push(&mut self, packet: &Packet<'_>) -> Result<(), NoMemory>
        ensures { (e : AnEvent) → SpellsEvent packet.now e → OnOk result (self.new ≡ self.old ++ canonical e) }
    {
        packet.put_shortest(&mut self.bytes)
    }

    // Appends the packets to those that are written.
    #[inline(always)]
    fn put(&self, out: &mut Vec<u8>) -> Result<(), NoMemory>
        ensures { OnOk result (out.new.items ≡ out.old.items ++ self.now) }
    {
        out.extend_from_slice(&self.bytes)?;
        Ok(())
    }

    // The same, where they are kept, and this packet behind them.
    #[inline(always)]
    fn put_kept(&self, packet: &Packet<'_>, kept: bool, out: &mut Vec<u8>) -> Result<(), NoMemory>
        ensures { (e : AnEvent) → SpellsEvent packet.now e → OnOk result (out.new.items ≡ out.old.items ++ (if kept then self.now ++ canonical e else [])) }
    {
        if !kept {
            return Ok(());
        }
        self.put(out)?;
        packet.put_shortest(out)
    }
}

/// An open test, and its packets.
#[derive(Drop)]
pub struct HeldTest {
    key: TestKey,
    packets: Packets,
}

/// The packets of each open test, over all routes. Those of the test that was heard last are held beside the table of the
/// others, since most packets are of the test of the one before.
#[derive(Drop)]
pub struct HeldPackets {
    alloc: Global,
    last: Option<HeldTest>,
    others: BTreeMap<TestKey, Packets>,
    // the room of a test that is done, for the next one that begins
    spare: Packets,
}

impl HeldPackets {
    /// No packet. It takes no memory yet.
    pub fn new(alloc: Global) -> Self
        ensures { held_packets_in result ≡ map.empty }
    {
        HeldPackets {
            alloc,
            last: None,
            others: BTreeMap::new(alloc),
            spare: Packets::new(alloc),
        }
    }

    /// Whether the packet's event speaks of the test that was heard last. No key is made of it.
    #[inline(always)]
    pub fn holds(&self, packet: &Packet<'_>) -> bool
        ensures { (e : AnEvent) → SpellsEvent packet.now e → IsTrue result → IsSomeAnd self.now.last (λ last. test_of e ≡ Some last.key) }
    {
        match &self.last {
            Some(last) => packet.has_id(&last.key.id) && packet.has_route(&last.key.route),
            None => false,
        }
    }

    /// Puts the test that was heard last, if there is one, among the others.
    ///
    /// With `NoMemory` its packets are lost.
    pub fn set_aside(&mut self) -> Result<(), NoMemory>
        ensures { OnOk result ((self.new.last ≡ None) × (other_packets_in self.new ≡ held_packets_in self.old)) }
    {
        let Some(HeldTest { key, packets }) = self.last.take() else {
            return Ok(());
        };
        self.others.insert(key, packets)?;
        Ok(())
    }

    // Room without a packet, that of a test that is done where there is one.
    fn room(&mut self) -> Packets
        ensures room { result ≡ [] }
        ensures last { self.new.last ≡ self.old.last }
        ensures others { self.new.others ≡ self.old.others }
    {
        mem::replace(&mut self.spare, Packets::new(self.alloc)).emptied()
    }

    // The packets of the test, moved out of the others, and none where it is not among them.
    fn take(&mut self, key: &TestKey) -> Packets
        ensures packets { result ≡ packets_at (other_packets_in self.old) key.now }
        ensures others { other_packets_in self.new ≡ map.remove (other_packets_in self.old) key.now }
    {
        match self.others.remove(key) {
            Some(packets) => packets,
            None => self.room(),
        }
    }

    /// Makes this test the one that was heard last, without a packet where none of it is held.
    ///
    /// After `NoMemory` nothing is known of what is held.
    pub fn turn_to(&mut self, key: TestKey) -> Result<(), NoMemory>
        ensures last { OnOk result (IsSomeAnd self.new.last (λ last. last.key ≡ key)) }
        ensures held { OnOk result (held_packets_in self.new ≡ begun_at (held_packets_in self.old) key) }
    {
        self.set_aside()?;
        let packets = self.take(&key);
        self.last = Some(HeldTest { key, packets });
        Ok(())
    }

    /// Holds the packet behind those of the test that was heard last.
    ///
    /// After `NoMemory` nothing is known of the test that was heard last.
    #[inline(always)]
    pub fn go_on(&mut self, packet: &Packet<'_>) -> Result<(), NoMemory>
        ensures last { (e : AnEvent) (last : AHeldTest) → SpellsEvent packet.now e → self.old.last ≡ Some last → OnOk result (self.new.last ≡ Some (with_packet last (canonical e))) }
        ensures others { other_packets_in self.new ≡ other_packets_in self.old }
    {
        if let Some(last) = &mut self.last {
            last.packets.push(packet)?;
        }
        Ok(())
    }

    // Takes the test out of the others, if it is among them.
    #[inline(always)]
    fn forget(&mut self, key: &TestKey)
        ensures others { other_packets_in self.new ≡ map.remove (other_packets_in self.old) key.now }
        ensures last { self.new.last ≡ self.old.last }
    {
        if self.others.is_empty() {
            return;
        }
        self.others.remove(key);
    }

    // The test that was heard last, and nothing of it is held any more.
    #[inline(always)]
    fn let_go(&mut self) -> Option<HeldTest>
        ensures last { result ≡ self.old.last }
        ensures rest { (last : AHeldTest) → self.old.last ≡ Some last → held_packets_in self.new ≡ map.remove (held_packets_in self.old) last.key }
    {
        let last = self.last.take()?;
        self.forget(&last.key);
        Some(last)
    }

    /// Ends the test that was heard last. Where it is kept, its packets are appended, and this one behind them. Nothing of it
    /// is held any more.
    ///
    /// After `NoMemory` nothing is known of what was appended.
    #[inline(always)]
    pub fn finish(
        &mut self,
        packet: &Packet<'_>,
        kept: bool,
        out: &mut Vec<u8>,
    ) -> Result<(), NoMemory>
        ensures out { (e : AnEvent) (last : AHeldTest) → SpellsEvent packet.now e → self.old.last ≡ Some last → OnOk result (out.new.items ≡ out.old.items ++ (if kept then last.packets ++ canonical e else [])) }
        ensures held { (last : AHeldTest) → self.old.last ≡ Some last → OnOk result (held_packets_in self.new ≡ map.remove (held_packets_in self.old) last.key) }
    {
        let Some(HeldTest { key: _key, packets }) = self.let_go() else {
            return Ok(());
        };
        packets.put_kept(packet, kept, out)?;
        self.spare = packets;
        Ok(())
    }

    /// Appends the packets of the test, if it is among the others.
    ///
    /// After `NoMemory` nothing is known of what was appended.
    pub fn put(&self, key: &TestKey, out: &mut Vec<u8>) -> Result<(), NoMemory>
        ensures { OnOk result (out.new.items ≡ out.old.items ++ packets_at (other_packets_in self.now) key.now) }
    {
        match self.others.get(key) {
            Some(packets) => packets.put(out),
            None => Ok(()),
        }
    }
}
