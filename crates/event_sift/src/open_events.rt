//! The events of the open tests.

ghost use Rattle.std.specs.Prelude.{◌≡◌, [], ◌∷◌, ◌++◌, IfOk, OnOk};
ghost use Rattle.std.specs.FinMap as map;
ghost use Rattle.std.specs.Option.{unwrap_or};
ghost use Rattle.event_sift.specs.Sifted.{Holds, parts_in};

use crate::part::Part;
use outcome_fold::TestKey;
use packet_codec::Event;
use std::alloc::Global;
use std::collections::BTreeMap;
use sub_number::NoMemory;

/// The events of each open test, over all routes, in order.
#[derive(Drop)]
pub struct Held {
    alloc: Global,
    parts: BTreeMap<TestKey, Part>,
}

impl Held {
    /// No event. It takes no memory yet.
    pub fn new(alloc: Global) -> Self
        ensures { Holds result [] }
    {
        Held {
            alloc,
            parts: BTreeMap::new(alloc),
        }
    }

    // Takes the first event of a test.
    fn start(&mut self, key: TestKey, event: Event) -> Result<(), NoMemory>
        ensures { OnOk result (parts_in self.new ≡ map.insert (parts_in self.old) key (event ∷ [])) }
    {
        let part = Part::begun(self.alloc, event)?;
        self.parts.insert(key, part)?;
        Ok(())
    }

    /// Takes an event that does not complete its test, which is open then.
    ///
    /// After `NoMemory` nothing is known of what is held.
    pub fn go_on(&mut self, key: TestKey, event: Event) -> Result<(), NoMemory>
        ensures { OnOk result (parts_in self.new ≡ map.insert (parts_in self.old) key (unwrap_or (map.get (parts_in self.old) key) [] ++ event ∷ [])) }
    {
        match self.parts.get_mut(&key) {
            Some(part) => part.push(event),
            None => self.start(key, event),
        }
    }

    /// The events of the test with this last one, moved out. The test is no longer open.
    ///
    /// With `NoMemory` the events of the test are lost.
    pub fn finish(&mut self, key: &TestKey, event: Event) -> Result<Part, NoMemory>
        ensures part { IfOk result (λ part. part ≡ unwrap_or (map.get (parts_in self.old) key.now) [] ++ event ∷ []) }
        ensures rest { OnOk result (parts_in self.new ≡ map.remove (parts_in self.old) key.now) }
    {
        let mut part = self.take(key);
        part.push(event)?;
        Ok(part)
    }

    // The events of the test, moved out. The test is no longer open.
    fn take(&mut self, key: &TestKey) -> Part
        ensures part { result ≡ unwrap_or (map.get (parts_in self.old) key.now) [] }
        ensures rest { parts_in self.new ≡ map.remove (parts_in self.old) key.now }
    {
        match self.parts.remove(key) {
            Some(part) => part,
            None => Part::new(self.alloc),
        }
    }

    /// The parts by test, moved out.
    pub fn into_parts(self) -> BTreeMap<TestKey, Part>
        ensures { result.entries ≡ self.parts.entries }
    {
        self.parts
    }
}
