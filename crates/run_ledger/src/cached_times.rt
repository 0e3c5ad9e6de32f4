//! The times of the ids in the runs of a store, told with the help of their cache.

ghost use Rattle.std.specs.Prelude.{◌≡◌, ◌≤◌, None, ℕ, length, IfSome, IfNone, IfOk};
ghost use Rattle.std.specs.FinMap.{FinMap};
ghost use Rattle.outcome_fold.specs.Order.{text_cmp};
ghost use Rattle.run_shelf.specs.Outcomes.{TicksUpTo};
ghost use Rattle.run_shelf.specs.Stores.{store_kinds, store_fault, FitsUnlessBroken, seen_store};
ghost use Rattle.run_ledger.specs.Cached.{ReadsSound, SaysItsTimes, HoldsTimes, HoldsNoTimes};
ghost use Rattle.run_ledger.specs.Caches.{SaidOfFirst};
ghost use Rattle.run_ledger.specs.Costs.{ReadsTo, ReadsBehindCache, ReadsBehindCacheTo};
ghost use Rattle.run_ledger.specs.Ledger.{times_after, AreTimes};
ghost use Rattle.run_ledger.specs.Outcomes.{LedgerReads};
ghost use Rattle.run_ledger.specs.SoFar.{SaysTo};

use crate::entries::{Entries, map_of};
use crate::fault::LedgerFault;
use crate::latest_times::{take_times, times_afresh};
use crate::times_cache::{EntriesCache, read_entries_cache};
use edge_io::Shelf;
use run_shelf::{CacheFile, Store};
use std::alloc::Global;
use sub_number::TimeMap;

/// The time of each id that has one in some run, in nanoseconds, in a folder that is sound. It is that of the last run
/// where the id has one, and there the longest of its times. In a sound folder each cache of its form covers at most
/// the runs that there are and holds what these say. A cache is taken for what the runs say that it covers, and the
/// later ones are read and folded on, each once. Without a cache, and where it covers more runs than there are, all are
/// read. Nothing changes in the folder. What is asked of the folder is asked of that cache alone, and only where it
/// covers at most the runs that there are (`times_where_few`).
///
/// `Store` comes only where a call of the folder failed, and where one had failed before, which comes first. `NoMemory`
/// comes for want of memory, or of a run without an end in a folder that tells nothing, and leaves the store open.
pub fn times<H: Shelf>(alloc: Global, store: &mut Store<'_, H>) -> Result<TimeMap, LedgerFault>
    requires fits { FitsUnlessBroken (store_kinds store.old) (store_fault store.old) (H.seen store.old.shelf.now).told }
    ensures same_reference { store.new.shelf.ghost_name ≡ store.old.shelf.ghost_name }
    ensures times { IfSome (H.seen store.old.shelf.now).told ReadsSound → IfOk result (λ times. IfSome (H.seen store.old.shelf.now).told (AreTimes times)) }
    ensures times_where_few { IfSome (H.seen store.old.shelf.now).told (SaysItsTimes (length (store_kinds store.old))) → IfOk result (λ times. IfSome (H.seen store.old.shelf.now).told (AreTimes times)) }
    ensures reads { LedgerReads (seen_store store.old (H.seen store.old.shelf.now)) (seen_store store.new (H.seen store.new.shelf.now)) result }
    ensures spares { IfSome (H.seen store.old.shelf.now).told ReadsSound → IfSome (H.seen store.old.shelf.now).told (λ s. (covers : ℕ) (times : FinMap text_cmp ℕ) → HoldsTimes covers times s → ReadsBehindCache covers (H.clock store.old.shelf.now) (H.clock store.new.shelf.now) s) }
    ensures time { IfSome (H.seen store.old.shelf.now).told (ReadsBehindCache 0 (H.clock store.old.shelf.now) (H.clock store.new.shelf.now)) }
{
    let entries = all_times(alloc, store)?;
    Ok(map_of(alloc, entries.bytes())?)
}

// The same, as entries.
pub(crate) fn all_times<H: Shelf>(
    alloc: Global,
    store: &mut Store<'_, H>,
) -> Result<Entries, LedgerFault>
    requires fits { FitsUnlessBroken (store_kinds store.old) (store_fault store.old) (H.seen store.old.shelf.now).told }
    ensures same_reference { store.new.shelf.ghost_name ≡ store.old.shelf.ghost_name }
    ensures times { IfSome (H.seen store.old.shelf.now).told ReadsSound → IfOk result (λ times. IfSome (H.seen store.old.shelf.now).told (AreTimes times)) }
    ensures times_where_few { IfSome (H.seen store.old.shelf.now).told (SaysItsTimes (length (store_kinds store.old))) → IfOk result (λ times. IfSome (H.seen store.old.shelf.now).told (AreTimes times)) }
    ensures reads { LedgerReads (seen_store store.old (H.seen store.old.shelf.now)) (seen_store store.new (H.seen store.new.shelf.now)) result }
    ensures spares { IfSome (H.seen store.old.shelf.now).told ReadsSound → IfSome (H.seen store.old.shelf.now).told (λ s. (covers : ℕ) (times : FinMap text_cmp ℕ) → HoldsTimes covers times s → ReadsBehindCache covers (H.clock store.old.shelf.now) (H.clock store.new.shelf.now) s) }
    ensures time { IfSome (H.seen store.old.shelf.now).told (ReadsBehindCache 0 (H.clock store.old.shelf.now) (H.clock store.new.shelf.now)) }
{
    let end = store.runs();
    times_to(alloc, store, end)
}

// The times of the runs before this number. A cache is taken where it covers none behind it.
pub(crate) fn times_to<H: Shelf>(
    alloc: Global,
    store: &mut Store<'_, H>,
    end: u32,
) -> Result<Entries, LedgerFault>
    requires fits { FitsUnlessBroken (store_kinds store.old) (store_fault store.old) (H.seen store.old.shelf.now).told }
    requires few { end ≤ length (store_kinds store.old) }
    ensures same_reference { store.new.shelf.ghost_name ≡ store.old.shelf.ghost_name }
    ensures times { IfSome (H.seen store.old.shelf.now).told (SaysItsTimes end) → IfOk result (λ times. IfSome (H.seen store.old.shelf.now).told (SaysTo times_after end times)) }
    ensures reads { LedgerReads (seen_store store.old (H.seen store.old.shelf.now)) (seen_store store.new (H.seen store.new.shelf.now)) result }
    ensures spares { IfSome (H.seen store.old.shelf.now).told (λ s. (covers : ℕ) (times : FinMap text_cmp ℕ) → HoldsTimes covers times s → (store_fault store.old ≡ None → covers ≤ end) → ReadsBehindCacheTo covers end (H.clock store.old.shelf.now) (H.clock store.new.shelf.now) s) }
    ensures time { IfSome (H.seen store.old.shelf.now).told (ReadsBehindCacheTo 0 end (H.clock store.old.shelf.now) (H.clock store.new.shelf.now)) }
{
    if let Some(cache) = read_cache(alloc, store)? {
        if cache.covers <= u64::from(end) {
            return go_on(alloc, store, cache, end);
        }
    }
    times_afresh(alloc, store, end)
}

// What the file of the cache holds.
fn read_cache<H: Shelf>(
    alloc: Global,
    store: &mut Store<'_, H>,
) -> Result<Option<EntriesCache>, LedgerFault>
    requires fits { FitsUnlessBroken (store_kinds store.old) (store_fault store.old) (H.seen store.old.shelf.now).told }
    ensures same_reference { store.new.shelf.ghost_name ≡ store.old.shelf.ghost_name }
    ensures some { IfOk result (λ found. IfSome found (λ cache. IfSome (H.seen store.old.shelf.now).told (HoldsTimes cache.covers cache.times))) }
    ensures none { IfOk result (λ found. IfNone found (IfSome (H.seen store.old.shelf.now).told HoldsNoTimes)) }
    ensures reads { LedgerReads (seen_store store.old (H.seen store.old.shelf.now)) (seen_store store.new (H.seen store.new.shelf.now)) result }
    ensures time { TicksUpTo 2 (H.clock store.old.shelf.now) (H.clock store.new.shelf.now) }
{
    let Some(bytes) = store.cache_file(alloc, CacheFile::Times)? else {
        return Ok(None);
    };
    Ok(read_entries_cache(alloc, bytes.bytes())?)
}

// Takes the runs that the cache does not cover, up to the one before `end`.
fn go_on<H: Shelf>(
    alloc: Global,
    store: &mut Store<'_, H>,
    cache: EntriesCache,
    end: u32,
) -> Result<Entries, LedgerFault>
    requires fits { FitsUnlessBroken (store_kinds store.old) (store_fault store.old) (H.seen store.old.shelf.now).told }
    requires open { store_fault store.old ≡ None }
    requires order { cache.covers ≤ end }
    requires few { end ≤ length (store_kinds store.old) }
    ensures same_reference { store.new.shelf.ghost_name ≡ store.old.shelf.ghost_name }
    ensures times { IfSome (H.seen store.old.shelf.now).told (λ s. SaidOfFirst times_after s.disk.published cache.covers cache.times) → IfOk result (λ times. IfSome (H.seen store.old.shelf.now).told (SaysTo times_after end times)) }
    ensures reads { LedgerReads (seen_store store.old (H.seen store.old.shelf.now)) (seen_store store.new (H.seen store.new.shelf.now)) result }
    ensures time { IfSome (H.seen store.old.shelf.now).told (ReadsTo cache.covers end (H.clock store.old.shelf.now) (H.clock store.new.shelf.now)) }
{
    let EntriesCache { covers, times } = cache;
    let mut latest = times;
    take_times(alloc, store, &mut latest, covers as u32, end)?;
    Ok(latest)
}
