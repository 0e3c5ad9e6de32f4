//! The times of ids of tests.

ghost use Rattle.std.specs.Prelude.{◌≡◌, ℕ, IfOk, OnOk, OnErr};
ghost use Rattle.std.specs.FinMap as map;
ghost use Rattle.std.specs.Ordering.{nat_cmp};
ghost use Rattle.std.specs.Cmp.Lexicographic.{slice_cmp};
ghost use Rattle.std.specs.Coded.{coded_ℕ, coded_list};

use crate::NoMemory;
use crate::ids::IdList;
use crate::text::Text;
use std::alloc::Global;
use std::collections::BTreeMap;
use std::marker::Model;

/// The times of some ids, in nanoseconds. Contracts see it as a finite map from the ids' bytes.
#[derive(Drop)]
pub struct TimeMap {
    times: BTreeMap<Text, u64>,
}

impl Model for TimeMap {
    ghost Value = { map.FinMap (slice_cmp nat_cmp) ℕ };

    ghost coded = { map.code (coded_list coded_ℕ) coded_ℕ };

    ghost view = { λ m. map.from_entries m.times.entries };
}

impl TimeMap {
    /// A map in which no id has a time. It takes no memory yet.
    pub fn new(alloc: Global) -> Self
        ensures { result ≡ map.empty }
    {
        TimeMap {
            times: BTreeMap::new(alloc),
        }
    }

    /// The time of the id in nanoseconds, and `None` exactly where it has none.
    pub fn get(&self, id: &Text) -> Option<u64>
        ensures { result ≡ map.get self.now id.now }
    {
        self.times.get(id).copied()
    }
}

impl TimeMap {
    // Gives a copy of the id this time.
    fn start(&mut self, id: &Text, nanos: u64) -> Result<(), NoMemory>
        ensures ok { OnOk result (self.new ≡ map.insert self.old id.now nanos) }
        ensures err { OnErr result (self.new ≡ self.old) }
    {
        self.times.insert(id.copy()?, nanos)?;
        Ok(())
    }

    /// Gives the id this time in place of any earlier one, and leaves the other ids as they are. Where it has one, no
    /// memory is taken.
    pub fn put(&mut self, id: &Text, nanos: u64) -> Result<(), NoMemory>
        ensures ok { OnOk result (self.new ≡ map.insert self.old id.now nanos) }
        ensures err { OnErr result (self.new ≡ self.old) }
    {
        match self.times.get_mut(id) {
            Some(time) => {
                *time = nanos;
                Ok(())
            }
            None => self.start(id, nanos),
        }
    }

    /// The ids that have a time, each once, in the order of their bytes.
    pub fn ids(&self, alloc: Global) -> Result<IdList, NoMemory>
        ensures { IfOk result (λ ids. ids ≡ map.keys self.now) }
    {
        let mut ids = IdList::new(alloc);
        for id in self.times.keys() {
            ids.push(id.copy()?)?;
        }
        Ok(ids)
    }
}
