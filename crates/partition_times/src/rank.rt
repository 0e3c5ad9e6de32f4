//! The order in which groups are given away.

ghost use Rattle.std.specs.Prelude.{◌≡◌, ◌*◌, ◌^◌, ◌≤◌, ◌++◌, [], ◌∷◌, length, IfOk, OnOk};
ghost use Rattle.std.specs.FinMap as fin;
ghost use Rattle.partition_times.specs.Shares.{Ids, known_time, is_some_known, are_all_known};
ghost use Rattle.partition_times.specs.Ranked.{AreRanked, AreGroups, AreNamesInOrder, list_names};

use std::alloc::Global;
use std::cmp::Reverse;
use std::collections::BTreeMap;
use sub_number::{NoMemory, Text, TimeMap};

// What decides when a group is given away.
#[derive(Clone, Copy, Debug, PartialEq, Eq, PartialOrd, Ord)]
pub(crate) struct Rank<'a> {
    // Groups with an unknown time come after those without one.
    pub(crate) partly: bool,
    // The longest comes first.
    pub(crate) time: Reverse<u128>,
    pub(crate) name: &'a str,
}

// What is known of the times of some ids.
#[derive(Clone, Copy)]
struct Known {
    // Some id has a known time.
    some: bool,
    // Each id has one.
    all: bool,
    // The sum of those that are known.
    time: u128,
}

fn known_times(times: &TimeMap, ids: &[Text]) -> Known
    ensures some { result.some ≡ is_some_known (fin.get times.now) ids.now }
    ensures all { result.all ≡ are_all_known (fin.get times.now) ids.now }
    ensures time { result.time ≡ known_time (fin.get times.now) ids.now }
    ensures small { result.time ≤ length ids.now * 2 ^ 64 }
{
    let mut known = Known {
        some: false,
        all: true,
        time: 0,
    };
    for id in ids {
        let time = times.get(id);
        known.some |= time.is_some();
        known.all &= time.is_some();
        known.time += u128::from(time.unwrap_or(0));
    }
    known
}

// Groups as they are given away.
#[derive(Drop)]
pub(crate) struct Ranked<'a> {
    // Those with some known time, by their ranks.
    pub(crate) timed: BTreeMap<Rank<'a>, Vec<Text>>,
    // The others, by their names.
    pub(crate) untimed: Vec<Vec<Text>>,
}

impl<'a> Ranked<'a> {
    // Ranks one more group, whose name comes behind those before.
    fn take(&mut self, times: &TimeMap, name: &'a str, ids: Vec<Text>) -> Result<(), NoMemory>
        ensures { (group : _) (names : _) → AreRanked (fin.get times.now) group names self.old → ids.items ≡ group name.now
            → OnOk result (AreRanked (fin.get times.now) group (names ++ name.now ∷ []) self.new) }
    {
        let known = known_times(times, &ids);
        if known.some {
            let rank = Rank {
                partly: !known.all,
                time: Reverse(known.time),
                name,
            };
            self.timed.insert(rank, ids)?;
        } else {
            self.untimed.push(ids)?;
        }
        Ok(())
    }
}

// Ranks all groups.
pub(crate) fn rank_all<'a>(
    alloc: Global,
    lists: BTreeMap<&'a str, Vec<Text>>,
    times: &TimeMap,
) -> Result<Ranked<'a>, NoMemory>
    ensures names { AreNamesInOrder lists.entry }
    ensures ranked { (group : _) → AreGroups group lists.entry → IfOk result (AreRanked (fin.get times.now) group (list_names lists.entry)) }
{
    let mut ranked = Ranked {
        timed: BTreeMap::new(alloc),
        untimed: Vec::new(alloc),
    };
    for (name, ids) in lists {
        ranked.take(times, name, ids)?;
    }
    Ok(ranked)
}
