//! Groups of ids, given to workers.

ghost use Rattle.std.specs.Prelude.{◌≡◌, ◌++◌, ◌*◌, ◌^◌, ◌≤◌, ◌<◌, [], length, map, replicate, IfOk, OnOk};
ghost use Rattle.partition_times.specs.Shares.{Times, known_time, least_share, with_group, given_to_least, given_in_turn, shares_of};
ghost use Rattle.std.specs.FinMap as fin;
ghost use Rattle.partition_times.specs.Loads.{IsQueue};
ghost use Rattle.partition_times.specs.Ranked.{AreKnown, AreRanksInOrder, ids_by_group};
ghost use Rattle.partition_times.specs.Names.{group_of};
ghost use Rattle.partition_times.specs.Kept.{StandsInOne, StandsAsOften};
ghost use Rattle.partition_times.specs.Bound.{IsWithinBound, IsNearBest};

use crate::groups::Groups;
use crate::rank::{Rank, Ranked, rank_all};
use std::alloc::Global;
use std::collections::{BTreeMap, BTreeSet};
use sub_number::{IdList, NoMemory, Text, TimeMap};

// What a share has to do. The least comes first.
#[derive(Clone, Copy, Debug, PartialEq, Eq, PartialOrd, Ord)]
struct Load {
    // The sum of the known times of its ids.
    time: u128,
    // The number of its ids.
    count: usize,
    // Which share it is.
    index: usize,
}

// Shares of work, and what each of them has to do.
#[derive(Drop)]
struct Shares {
    lists: Vec<IdList>,
    queue: BTreeSet<Load>,
}

impl Shares {
    // So many shares without an id.
    fn new(alloc: Global, workers: u32) -> Result<Self, NoMemory>
        ensures lists { IfOk result (λ s. s.lists.items ≡ replicate workers []) }
        ensures queue { IfOk result (λ s. (times : _) → IsQueue times s.lists.items s.queue.keys) }
    {
        let mut lists = Vec::new(alloc);
        let mut queue = BTreeSet::new(alloc);
        for index in 0..workers as usize {
            lists.push(IdList::new(alloc))?;
            queue.insert(Load {
                time: 0,
                count: 0,
                index,
            })?;
        }
        Ok(Shares { lists, queue })
    }

    // Gives the ids, of which this is the known time, to the share that has least.
    fn give_to_least(&mut self, time: u128, ids: Vec<Text>) -> Result<(), NoMemory>
        requires some { 0 < length self.old.lists.items }
        requires queue { (times : Times) × IsQueue times self.old.lists.items self.old.queue.keys × (time ≡ known_time times ids.items) }
        requires small { time ≤ length ids.items * 2 ^ 64 }
        ensures { (times : _) → IsQueue times self.old.lists.items self.old.queue.keys → time ≡ known_time times ids.items
            → OnOk result ((self.new.lists.items ≡ with_group self.old.lists.items (least_share times self.old.lists.items) ids.items)
            × IsQueue times self.new.lists.items self.new.queue.keys) }
    {
        let Some(least) = self.queue.pop_first() else {
            unreachable!()
        };
        let list = &mut self.lists[least.index];
        append(list, ids)?;
        let count = list.list().len();
        let load = Load {
            time: least.time + time,
            count,
            index: least.index,
        };
        self.queue.insert(load)?;
        Ok(())
    }

    // Gives each group to the share that has least when it comes.
    fn give_timed(&mut self, groups: BTreeMap<Rank<'_>, Vec<Text>>) -> Result<(), NoMemory>
        requires some { 0 < length self.old.lists.items }
        requires queue { (times : Times) × IsQueue times self.old.lists.items self.old.queue.keys × AreKnown times groups }
        ensures ranks { AreRanksInOrder groups.entry }
        ensures lists { (times : _) → IsQueue times self.old.lists.items self.old.queue.keys → AreKnown times groups.entry
            → OnOk result (self.new.lists.items ≡ given_to_least times self.old.lists.items (ids_by_group groups.entry)) }
    {
        for (rank, ids) in groups {
            self.give_to_least(rank.time.0, ids)?;
        }
        Ok(())
    }

    // Gives the groups to the shares in turn.
    fn give_in_turn(&mut self, groups: Vec<Vec<Text>>) -> Result<(), NoMemory>
        requires some { 0 < length self.old.lists.items }
        ensures { OnOk result (self.new.lists.items ≡ given_in_turn self.old.lists.items 0 (map (λ ids. ids.items) groups.items)) }
    {
        let mut turn = 0;
        for ids in groups {
            let index = turn % self.lists.len();
            append(&mut self.lists[index], ids)?;
            turn += 1;
        }
        Ok(())
    }
}

// Puts the ids behind those of the list.
fn append(list: &mut IdList, ids: Vec<Text>) -> Result<(), NoMemory>
    ensures { OnOk result (list.new ≡ list.old ++ ids.items) }
{
    for id in ids {
        list.push(id)?;
    }
    Ok(())
}

/// Shares the ids out among so many workers, at least one, as docs/FORMATS.md says under "Shares". It gives a list for
/// each worker, which may be empty, with its ids in the order in which they came to it.
///
/// Ids of one group stay together, in their order. The groups with the longest known times are given away first, each
/// to the worker that has least to do by then, and the groups without a known time go round in turn. So the known time
/// of the largest share is not far from the best: `bound` and `best` say how far.
pub fn partition(
    alloc: Global,
    ids: &IdList,
    times: &TimeMap,
    groups: &Groups,
    workers: u32,
) -> Result<Vec<IdList>, NoMemory>
    requires { 1 ≤ workers }
    ensures shares { IfOk result (λ shares. shares.items ≡ shares_of (fin.get times.now) (group_of groups.now) ids.now workers) }
    ensures count { IfOk result (λ shares. length shares.items ≡ workers) }
    ensures groups { IfOk result (λ shares. (name : _) → StandsInOne (group_of groups.now) ids.now shares.items name) }
    ensures once { IfOk result (λ shares. (id : _) → StandsAsOften ids.now shares.items id) }
    ensures bound { IfOk result (λ shares. IsWithinBound (fin.get times.now) (group_of groups.now) ids.now workers shares.items) }
    ensures best { IfOk result (λ shares. IsNearBest (fin.get times.now) (group_of groups.now) ids.now workers shares.items) }
{
    let lists = groups.gathered(alloc, ids)?;
    let Ranked { timed, untimed } = rank_all(alloc, lists, times)?;
    let mut shares = Shares::new(alloc, workers)?;
    shares.give_timed(timed)?;
    shares.give_in_turn(untimed)?;
    let Shares { lists, queue: _ } = shares;
    Ok(lists)
}
