//! Rows by their ids, and packets with them.

ghost use Rattle.std.specs.Prelude.{◌≡◌, option_map, OnOk};
ghost use Rattle.std.specs.FinMap as map;
ghost use Rattle.last_failures.specs.Last.{failures_in};

use crate::parts::Packets;
use outcome_fold::Row;
use std::alloc::Global;
use std::collections::BTreeMap;
use sub_number::{NoMemory, Text};

/// How a test failed.
#[derive(Drop)]
pub struct Failure {
    /// Its row.
    pub row: Row,
    /// The packets of the row's part, where they are wanted.
    pub packets: Packets,
}

/// How some tests failed last: of each id the failure, where it has one.
#[derive(Drop)]
pub struct LastFailures {
    failures: BTreeMap<Text, Failure>,
}

impl LastFailures {
    // No id has one. It takes no memory yet.
    pub(crate) fn new(alloc: Global) -> Self
        ensures { failures_in result ≡ map.empty }
    {
        LastFailures {
            failures: BTreeMap::new(alloc),
        }
    }

    /// The failure of the id, and None exactly where it has none.
    pub fn get(&self, id: &Text) -> Option<&Failure>
        ensures { option_map (λ failure. failure.now) result ≡ map.get (failures_in self.now) id.now }
    {
        self.failures.get(id)
    }

    // Gives the id of the failure's row this failure.
    pub(crate) fn put(&mut self, failure: Failure) -> Result<(), NoMemory>
        ensures { OnOk result (failures_in self.new ≡ map.insert (failures_in self.old) failure.row.id failure) }
    {
        self.failures.insert(failure.row.id.copy()?, failure)?;
        Ok(())
    }
}
