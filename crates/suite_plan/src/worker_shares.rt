//! What each worker of a run is given.

ghost use Rattle.std.specs.Prelude.{◌≡◌, ◌≤◌, [], ◌∷◌, length, IfOk};
ghost use Rattle.std.specs.List.{filter};
ghost use Rattle.std.specs.FinMap as fin;
ghost use Rattle.suite_plan.specs.declared.worker_shares.TheConstants.{MOST_WORKERS};
ghost use Rattle.suite_plan.specs.Sharing.{has_ids, dealt_among, ids_of_shard, shares_for};

use partition_times::{Groups, partition};
use std::alloc::Global;
use sub_number::{IdList, NoMemory, TimeMap};
use testr_words::Shard;

/// How many workers a run has at most.
pub const MOST_WORKERS: u32 = 64;

/// The shares of the ids for which a worker is started, in the order of the workers' lanes.
///
/// One worker gets all ids in their order. Among several they are shared out by their groups and known times, as
/// docs/FORMATS.md says under "Shares". No share is empty, so that there may be fewer than workers; where there is no id
/// there is no share.
pub fn share_out_ids(
    alloc: Global,
    ids: IdList,
    times: &TimeMap,
    groups: &Groups,
    workers: u32,
) -> Result<Vec<IdList>, NoMemory>
    requires some { 1 ≤ workers }
    requires most { workers ≤ MOST_WORKERS }
    ensures shares { IfOk result (λ shares. shares.items ≡ shares_for (fin.get times.now) groups.now ids workers) }
    ensures few { IfOk result (λ shares. length shares.items ≤ workers) }
{
    let shares = deal(alloc, ids, times, groups, workers)?;
    without_empty(alloc, shares)
}

/// The ids of the shard, in the order in which they came to it. Where no shard is wanted they are all ids, in their order.
///
/// The shards are the shares of so many workers, as docs/FORMATS.md says under "Shards".
pub fn ids_of_shard(
    alloc: Global,
    ids: IdList,
    times: &TimeMap,
    groups: &Groups,
    shard: Option<Shard>,
) -> Result<IdList, NoMemory>
    ensures { IfOk result (λ kept. kept ≡ ids_of_shard (fin.get times.now) groups.now shard ids) }
{
    match shard {
        Some(shard) => {
            let mut shares = deal(alloc, ids, times, groups, shard.count())?;
            Ok(shares.swap_remove(shard.place()))
        }
        None => Ok(ids),
    }
}

// A share for each of the workers, which may be empty.
fn deal(
    alloc: Global,
    ids: IdList,
    times: &TimeMap,
    groups: &Groups,
    workers: u32,
) -> Result<Vec<IdList>, NoMemory>
    requires { 1 ≤ workers }
    ensures shares { IfOk result (λ shares. shares.items ≡ dealt_among (fin.get times.now) groups.now ids workers) }
    ensures count { IfOk result (λ shares. length shares.items ≡ workers) }
{
    if workers == 1 {
        one_share(alloc, ids)
    } else {
        partition(alloc, &ids, times, groups, workers)
    }
}

// All ids as one share. They are moved.
fn one_share(alloc: Global, ids: IdList) -> Result<Vec<IdList>, NoMemory>
    ensures { IfOk result (λ shares. shares.items ≡ ids ∷ []) }
{
    let mut shares = Vec::new(alloc);
    shares.push(ids)?;
    Ok(shares)
}

// The shares that are not empty. They are moved.
fn without_empty(alloc: Global, shares: Vec<IdList>) -> Result<Vec<IdList>, NoMemory>
    ensures { IfOk result (λ kept. kept.items ≡ filter has_ids shares.items) }
{
    let mut kept = Vec::new(alloc);
    for share in shares {
        if !share.list().is_empty() {
            kept.push(share)?;
        }
    }
    Ok(kept)
}
