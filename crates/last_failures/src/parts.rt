//! The packets of the parts of some tests, while the events of a run come.

ghost use Rattle.std.specs.Prelude.{◌≡◌, [], ◌∷◌, ◌++◌, ℕ, List, option_map, IfOk, OnOk, if◌then◌else◌};
ghost use Rattle.std.specs.FinMap as map;
ghost use Rattle.packet_codec.specs.Canonical.{canonical, Fits};
ghost use Rattle.packet_codec.specs.declared.event.Event.{Event as AnEvent};
ghost use Rattle.outcome_fold.specs.Rows.{is_failure};
ghost use Rattle.outcome_fold.specs.TestPackets.{packets_at, test_of_row};
ghost use Rattle.last_failures.specs.Gathering.{open_packets_in, failed_in, packets_held, packets_of_row, speaks_of_one, HasParts};

use crate::ids_without_row::IdsWithoutRow;
use outcome_fold::{Ended, Row, TestKey, ended_by, key_of};
use packet_codec::{Event, encode};
use std::alloc::Global;
use std::collections::BTreeMap;
use std::marker::Model;
use sub_number::{NoMemory, Text};

/// Packets in canonical form, one after another. Contracts see them as their bytes.
#[derive(Drop)]
pub struct Packets {
    bytes: Vec<u8>,
}

impl Model for Packets {
    ghost use Rattle.std.specs.Prelude.{List, ℕ};

    ghost Value = { List ℕ };

    ghost view = { λ p. p.bytes.items };
}

impl Packets {
    // None. It takes no memory.
    fn none(alloc: Global) -> Self
        ensures { result ≡ [] }
    {
        Packets {
            bytes: Vec::new(alloc),
        }
    }

    // Takes the packet of one event more.
    fn push(&mut self, event: &Event) -> Result<(), NoMemory>
        requires { Fits event.now }
        ensures { OnOk result (self.new ≡ self.old ++ canonical event.now) }
    {
        encode(event, &mut self.bytes)
    }

    // A copy of the packets.
    fn copy(&self, alloc: Global) -> Result<Self, NoMemory>
        ensures { IfOk result (λ copy. copy ≡ self.now) }
    {
        let mut bytes = Vec::new(alloc);
        bytes.extend_from_slice(&self.bytes)?;
        Ok(Packets { bytes })
    }

    /// The bytes of the packets.
    pub fn bytes(&self) -> &[u8]
        ensures { result.now ≡ self.now }
    {
        &self.bytes
    }
}

/// Of some tests the packets of the part that is open, and those of the last part by which the test failed.
#[derive(Drop)]
pub struct FailedParts {
    alloc: Global,
    unfinished: BTreeMap<TestKey, Packets>,
    failed: BTreeMap<TestKey, Packets>,
}

impl FailedParts {
    /// No event came yet. It takes no memory yet.
    pub fn new(alloc: Global) -> Self
        ensures { (wanted : List (List ℕ)) → HasParts wanted result [] }
    {
        FailedParts {
            alloc,
            unfinished: BTreeMap::new(alloc),
            failed: BTreeMap::new(alloc),
        }
    }

    /// Takes the event. Only those of tests whose id is wanted are held, and they are the same at each event.
    ///
    /// After `NoMemory` nothing is known of what is held.
    pub fn add(&mut self, wanted: &IdsWithoutRow, event: &Event) -> Result<(), NoMemory>
        requires { Fits event.now }
        ensures { (seen : List AnEvent) → HasParts wanted.now self.old seen → OnOk result (HasParts wanted.now self.new (seen ++ event.now ∷ [])) }
    {
        if !is_wanted(wanted, event) {
            return Ok(());
        }
        let Some(key) = key_of(event)? else {
            return Ok(());
        };
        match ended_by(event.status) {
            Some(ended) => self.finish(key, ended, event),
            None => self.go_on(key, event),
        }
    }

    // Holds the packet behind those of its test, which it does not complete.
    fn go_on(&mut self, key: TestKey, event: &Event) -> Result<(), NoMemory>
        requires { Fits event.now }
        ensures open { OnOk result (open_packets_in self.new ≡ map.insert (map.remove (open_packets_in self.old) key) key (packets_at (open_packets_in self.old) key ++ canonical event.now)) }
        ensures failed { failed_in self.new ≡ failed_in self.old }
    {
        let mut packets = self.take(&key);
        packets.push(event)?;
        self.unfinished.insert(key, packets)?;
        Ok(())
    }

    // Ends the part of the test with this packet. It is held further where the test fails by it.
    fn finish(&mut self, key: TestKey, ended: Ended, event: &Event) -> Result<(), NoMemory>
        requires { Fits event.now }
        ensures open { OnOk result (open_packets_in self.new ≡ map.remove (open_packets_in self.old) key) }
        ensures failed { OnOk result (failed_in self.new ≡ (if is_failure ended then map.insert (failed_in self.old) key (packets_at (open_packets_in self.old) key ++ canonical event.now) else failed_in self.old)) }
    {
        let mut packets = self.take(&key);
        if !ended.fails() {
            return Ok(());
        }
        packets.push(event)?;
        self.failed.insert(key, packets)?;
        Ok(())
    }

    // The packets of the test's open part, moved out.
    fn take(&mut self, key: &TestKey) -> Packets
        ensures packets { result ≡ packets_at (open_packets_in self.old) key.now }
        ensures open { open_packets_in self.new ≡ map.remove (open_packets_in self.old) key.now }
        ensures failed { self.new.failed ≡ self.old.failed }
    {
        match self.unfinished.remove(key) {
            Some(packets) => packets,
            None => Packets::none(self.alloc),
        }
    }

    // The packets of the last part that failed of the test, where one is held.
    fn get(&self, key: &TestKey) -> Option<&Packets>
        ensures { option_map (λ packets. packets.now) result ≡ packets_held self.now key.now }
    {
        match self.unfinished.get(key) {
            Some(packets) => Some(packets),
            None => self.failed.get(key),
        }
    }

    /// A copy of the packets of the last part that failed of the row's test, none where none is held.
    pub fn copy_for(&self, row: &Row) -> Result<Packets, NoMemory>
        ensures { IfOk result (λ packets. packets ≡ packets_of_row self.now row.now) }
    {
        let key = key_of_row(row)?;
        match self.get(&key) {
            Some(packets) => packets.copy(self.alloc),
            None => Ok(Packets::none(self.alloc)),
        }
    }
}

// Whether the event speaks of a test whose id is one of these.
fn is_wanted(wanted: &IdsWithoutRow, event: &Event) -> bool
    ensures { result ≡ speaks_of_one wanted.now event.now }
{
    match &event.id {
        Some(id) => wanted.has(id),
        None => false,
    }
}

// The test of the row.
fn key_of_row(row: &Row) -> Result<TestKey, NoMemory>
    ensures { IfOk result (λ key. key ≡ test_of_row row.now) }
{
    Ok(TestKey {
        route: copy_of_route(&row.route)?,
        id: row.id.copy()?,
    })
}

// A copy of the route, where there is one.
pub(crate) fn copy_of_route(route: &Option<Text>) -> Result<Option<Text>, NoMemory>
    ensures { IfOk result (λ copy. copy ≡ route.now) }
{
    match route {
        Some(route) => Ok(Some(route.copy()?)),
        None => Ok(None),
    }
}
