//! The failing set of the runs of a store, told with the help of its cache.

ghost use Rattle.std.specs.Prelude.{◌≡◌, ◌<◌, ◌≤◌, ◌+◌, ◌↔◌, None, ℕ, List, length, IsTrue, IfSome, IfNone, IfOk};
ghost use Rattle.std.specs.List.Sorted.{IsStrictlySortedBy};
ghost use Rattle.outcome_fold.specs.Order.{text_cmp};
ghost use Rattle.run_shelf.specs.Outcomes.{TicksUpTo};
ghost use Rattle.run_shelf.specs.Stores.{store_kinds, store_fault, FitsUnlessBroken, seen_store};
ghost use Rattle.run_ledger.specs.Cached.{ReadsSound, SaysItsFailing, HoldsFailing, HoldsNoFailing, Spares};
ghost use Rattle.run_ledger.specs.Caches.{FailingOfFirst};
ghost use Rattle.run_ledger.specs.Costs.{ReadsTo, ReadsBehindCache, ReadsBehindCacheTo};
ghost use Rattle.run_ledger.specs.Ledger.{IsFailingSet};
ghost use Rattle.run_ledger.specs.Outcomes.{LedgerReads};
ghost use Rattle.run_ledger.specs.Starts.{IsStart, IsLastFull};
ghost use Rattle.run_ledger.specs.SoFar.{FailsTo, CountsUpTo};

use crate::failing_cache::{FailingCache, read_failing_cache};
use crate::failing_set::{failing_afresh, last_full, take_runs};
use crate::fault::LedgerFault;
use edge_io::Shelf;
use outcome_fold::TextSet;
use run_shelf::{CacheFile, Store};
use std::alloc::Global;
use sub_number::IdList;

/// The ids of the failing set of all runs, in the order of their bytes, each once, in a folder that is sound. In such a
/// folder each cache of its form covers at most the runs that there are and holds what these say. A cache is taken for
/// what the runs say that it covers, and the later ones are read and folded on, each once. Without a cache, where it
/// covers more runs than there are, and where the last full run is one that it does not cover, that run and those
/// behind it are read, each once. Where no run is full then, the base is read, and the runs that it does not count. Nothing changes in the folder. What is asked of the folder is asked of that cache
/// alone, and only where it covers at most the runs that there are (`ids_where_few`).
///
/// `Store` comes only where a call of the folder failed, and where one had failed before, which comes first. `NoMemory`
/// comes for want of memory, or of a run without an end in a folder that tells nothing, and leaves the store open.
pub fn failing<H: Shelf>(alloc: Global, store: &mut Store<'_, H>) -> Result<IdList, LedgerFault>
    requires fits { FitsUnlessBroken (store_kinds store.old) (store_fault store.old) (H.seen store.old.shelf.now).told }
    ensures same_reference { store.new.shelf.ghost_name ≡ store.old.shelf.ghost_name }
    ensures ids { IfSome (H.seen store.old.shelf.now).told ReadsSound → IfOk result (λ ids. IfSome (H.seen store.old.shelf.now).told (IsFailingSet ids)) }
    ensures ids_where_few { IfSome (H.seen store.old.shelf.now).told (SaysItsFailing (length (store_kinds store.old))) → IfOk result (λ ids. IfSome (H.seen store.old.shelf.now).told (IsFailingSet ids)) }
    ensures reads { LedgerReads (seen_store store.old (H.seen store.old.shelf.now)) (seen_store store.new (H.seen store.new.shelf.now)) result }
    ensures spares { IfSome (H.seen store.old.shelf.now).told ReadsSound → IfSome (H.seen store.old.shelf.now).told (λ s. (covers : ℕ) (ids : List (List ℕ)) → HoldsFailing covers ids s → ReadsBehindCache covers (H.clock store.old.shelf.now) (H.clock store.new.shelf.now) s) }
    ensures full { IfSome (H.seen store.old.shelf.now).told (λ s. (start : ℕ) → IsLastFull (store_kinds store.old) start → ReadsBehindCache start (H.clock store.old.shelf.now) (H.clock store.new.shelf.now) s) }
    ensures time { IfSome (H.seen store.old.shelf.now).told (λ s. (start : ℕ) → IsStart (store_kinds store.old) start → ReadsBehindCache start (H.clock store.old.shelf.now + 3) (H.clock store.new.shelf.now) s) }
{
    let end = store.runs();
    failing_to(alloc, store, end)
}

// The failing set of the runs before `end`, from which on no run is full. A cache is taken where it covers none of those,
// and saves reads.
pub(crate) fn failing_to<H: Shelf>(
    alloc: Global,
    store: &mut Store<'_, H>,
    end: u32,
) -> Result<IdList, LedgerFault>
    requires fits { FitsUnlessBroken (store_kinds store.old) (store_fault store.old) (H.seen store.old.shelf.now).told }
    requires few { end ≤ length (store_kinds store.old) }
    requires begun { (start : ℕ) → IsStart (store_kinds store.old) start → start ≤ end }
    ensures same_reference { store.new.shelf.ghost_name ≡ store.old.shelf.ghost_name }
    ensures ids { IfSome (H.seen store.old.shelf.now).told (SaysItsFailing end) → IfSome (H.seen store.old.shelf.now).told (CountsUpTo end) → IfOk result (λ ids. IfSome (H.seen store.old.shelf.now).told (FailsTo (store_kinds store.old) end ids)) }
    ensures reads { LedgerReads (seen_store store.old (H.seen store.old.shelf.now)) (seen_store store.new (H.seen store.new.shelf.now)) result }
    ensures spares { IfSome (H.seen store.old.shelf.now).told (λ s. (covers : ℕ) (ids : List (List ℕ)) → HoldsFailing covers ids s → (store_fault store.old ≡ None → covers ≤ end) → ReadsBehindCacheTo covers end (H.clock store.old.shelf.now) (H.clock store.new.shelf.now) s) }
    ensures full { IfSome (H.seen store.old.shelf.now).told (λ s. (start : ℕ) → IsLastFull (store_kinds store.old) start → ReadsBehindCacheTo start end (H.clock store.old.shelf.now) (H.clock store.new.shelf.now) s) }
    ensures time { IfSome (H.seen store.old.shelf.now).told (λ s. (start : ℕ) → IsStart (store_kinds store.old) start → ReadsBehindCacheTo start end (H.clock store.old.shelf.now + 3) (H.clock store.new.shelf.now) s) }
{
    if let Some(cache) = read_cache(alloc, store)? {
        if spares(store, cache.covers, end) {
            return go_on(alloc, store, cache, end);
        }
    }
    failing_afresh(alloc, store, end)
}

// What the file of the cache holds.
fn read_cache<H: Shelf>(
    alloc: Global,
    store: &mut Store<'_, H>,
) -> Result<Option<FailingCache>, LedgerFault>
    requires fits { FitsUnlessBroken (store_kinds store.old) (store_fault store.old) (H.seen store.old.shelf.now).told }
    ensures same_reference { store.new.shelf.ghost_name ≡ store.old.shelf.ghost_name }
    ensures some { IfOk result (λ found. IfSome found (λ cache. IfSome (H.seen store.old.shelf.now).told (HoldsFailing cache.covers cache.ids))) }
    ensures ordered { IfOk result (λ found. IfSome found (λ cache. IsStrictlySortedBy text_cmp cache.ids)) }
    ensures none { IfOk result (λ found. IfNone found (IfSome (H.seen store.old.shelf.now).told HoldsNoFailing)) }
    ensures reads { LedgerReads (seen_store store.old (H.seen store.old.shelf.now)) (seen_store store.new (H.seen store.new.shelf.now)) result }
    ensures time { TicksUpTo 2 (H.clock store.old.shelf.now) (H.clock store.new.shelf.now) }
{
    let Some(bytes) = store.cache_file(alloc, CacheFile::Failing)? else {
        return Ok(None);
    };
    Ok(read_failing_cache(alloc, bytes.bytes())?)
}

// Whether a cache that covers so many runs covers none from `end` on, and saves reads: of runs, or of the base.
fn spares<H: Shelf>(store: &Store<'_, H>, covers: u64, end: u32) -> bool
    ensures { IsTrue result ↔ Spares (store_kinds store.now) end covers }
{
    covers <= u64::from(end) && is_behind(last_full(store), covers)
}

// Whether this number, if there is one, is below the other.
fn is_behind(number: Option<u32>, covers: u64) -> bool
    ensures { IsTrue result ↔ IfSome number (λ n. n < covers) }
{
    match number {
        Some(number) => u64::from(number) < covers,
        None => true,
    }
}

// Takes the runs that the cache does not cover, up to the one before `end`.
fn go_on<H: Shelf>(
    alloc: Global,
    store: &mut Store<'_, H>,
    cache: FailingCache,
    end: u32,
) -> Result<IdList, LedgerFault>
    requires fits { FitsUnlessBroken (store_kinds store.old) (store_fault store.old) (H.seen store.old.shelf.now).told }
    requires open { store_fault store.old ≡ None }
    requires order { cache.covers ≤ end }
    requires few { end ≤ length (store_kinds store.old) }
    requires ordered { IsStrictlySortedBy text_cmp cache.ids }
    ensures same_reference { store.new.shelf.ghost_name ≡ store.old.shelf.ghost_name }
    ensures ids { IfSome (H.seen store.old.shelf.now).told (λ s. FailingOfFirst s.disk.published cache.covers cache.ids) → IfOk result (λ ids. IfSome (H.seen store.old.shelf.now).told (FailsTo (store_kinds store.old) end ids)) }
    ensures reads { LedgerReads (seen_store store.old (H.seen store.old.shelf.now)) (seen_store store.new (H.seen store.new.shelf.now)) result }
    ensures time { IfSome (H.seen store.old.shelf.now).told (ReadsTo cache.covers end (H.clock store.old.shelf.now) (H.clock store.new.shelf.now)) }
{
    let FailingCache { covers, ids } = cache;
    if covers == u64::from(end) {
        return Ok(ids);
    }
    let mut failed = TextSet::new(alloc);
    failed.put_all(ids)?;
    take_runs(alloc, store, &mut failed, covers as u32, end)?;
    Ok(failed.into_ids(alloc)?)
}
