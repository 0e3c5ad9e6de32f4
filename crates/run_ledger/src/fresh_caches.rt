//! The caches, written anew for the runs of a store.

ghost use Rattle.std.specs.Prelude.{◌≡◌, ◌-◌, ◌<◌, ℕ, List, None, true, length, IfSome, IfOk, OnOk};
ghost use Rattle.std.specs.List.Sorted.{IsStrictlySortedBy};
ghost use Rattle.edge_io.specs.Causes.{RisesExactlyIf};
ghost use Rattle.edge_io.specs.Steps.{Goes};
ghost use Rattle.outcome_fold.specs.declared.row.Row.{Row};
ghost use Rattle.outcome_fold.specs.Order.{text_cmp};
ghost use Rattle.outcome_fold.specs.Summed.{Sums};
ghost use Rattle.run_shelf.specs.Outcomes.{TicksUpTo};
ghost use Rattle.run_shelf.specs.Sides.{KeepsCacheFile, PassesCacheFile, KeepsButCaches, PassesButCaches};
ghost use Rattle.run_shelf.specs.Stores.{store_kinds, store_fault, FitsUnlessBroken, seen_store};
ghost use Rattle.run_ledger.specs.Cached.{ReadsSound};
ghost use Rattle.run_ledger.specs.Ledger.{HasNewRows, IsFailingSet, AreTimes, failing_behind as after_run};
ghost use Rattle.run_ledger.specs.Outcomes.{LedgerReads, LedgerCloses, ledger_failed};
ghost use Rattle.run_ledger.specs.Refreshing.{AreFolds, PutsCaches, HoldBoth, KeepsSound};

use crate::cached_failing::{failing, failing_to};
use crate::cached_times::{all_times, times_to};
use crate::entries::Entries;
use crate::failing_cache::write_failing_cache;
use crate::fault::{LedgerFault, check_open};
use crate::merged_times::replace_summed;
use crate::times_cache::write_entries_cache;
use edge_io::Shelf;
use outcome_fold::{Summary, TextSet};
use run_shelf::{CacheFile, Store};
use std::alloc::Global;
use sub_number::{IdList, NoMemory};

/// Writes both caches for the runs as they are: that of the failing set, and then that of the times. What they are to hold is
/// told as by `failing` and `times`, with the help of the caches that are there. Nothing changes but the two files, and that
/// only behind all reads (no clause says when).
///
/// `Store` comes only where a call of the folder failed, and where one had failed before, which comes first. `NoMemory`
/// comes for want of memory, or of a run without an end in a folder that tells nothing, and leaves the store open. A
/// folder that is sound is so at each moment and at each exit.
pub fn refresh<H: Shelf>(alloc: Global, store: &mut Store<'_, H>) -> Result<(), LedgerFault>
    requires fits { FitsUnlessBroken (store_kinds store.old) (store_fault store.old) (H.seen store.old.shelf.now).told }
    ensures same_reference { store.new.shelf.ghost_name ≡ store.old.shelf.ghost_name }
    ensures refreshed { OnOk result (Goes (H.seen store.old.shelf.now).told (H.seen store.new.shelf.now).told (λ s t. ReadsSound s → PutsCaches s t)) }
    ensures others { Goes (H.seen store.old.shelf.now).told (H.seen store.new.shelf.now).told KeepsButCaches }
    ensures any_moment { Goes (H.seen store.old.shelf.now).told (H.seen store.new.shelf.now).told PassesButCaches }
    ensures sound { Goes (H.seen store.old.shelf.now).told (H.seen store.new.shelf.now).told KeepsSound }
    ensures closes { LedgerCloses (store_fault store.old) (store_fault store.new) result }
    ensures kinds { store_kinds store.new ≡ store_kinds store.old }
    ensures fits { FitsUnlessBroken (store_kinds store.new) (store_fault store.new) (H.seen store.new.shelf.now).told }
    ensures cause { RisesExactlyIf (H.seen store.old.shelf.now).faults (H.seen store.new.shelf.now).faults (ledger_failed result) }
{
    let Folds { ids, times } = fold_all(alloc, store)?;
    put_caches(alloc, store, ids, times)
}

/// The same, where what is kept of the rows of the last run, which there must be, is at hand. That run is not read. Where
/// the last run is full, the failing set is told by its rows alone. A cache that covers the last run, or more, is not used.
///
/// Where it is kept of the rows of the last run, which the base does not count, the caches hold what all runs say, and a
/// folder that is sound is so at each moment. Of other rows nothing is said of what the caches hold.
pub fn refresh_behind<H: Shelf>(
    alloc: Global,
    store: &mut Store<'_, H>,
    summary: &Summary,
) -> Result<(), LedgerFault>
    requires some { 0 < length (store_kinds store.old) }
    requires fits { FitsUnlessBroken (store_kinds store.old) (store_fault store.old) (H.seen store.old.shelf.now).told }
    ensures same_reference { store.new.shelf.ghost_name ≡ store.old.shelf.ghost_name }
    ensures refreshed { (filter_tags : List (List ℕ)) (rows : List Row) → Sums filter_tags rows summary.now → OnOk result (Goes (H.seen store.old.shelf.now).told (H.seen store.new.shelf.now).told (λ s t. HasNewRows (length (store_kinds store.old) - 1) rows s → ReadsSound s → PutsCaches s t)) }
    ensures others { Goes (H.seen store.old.shelf.now).told (H.seen store.new.shelf.now).told KeepsButCaches }
    ensures any_moment { Goes (H.seen store.old.shelf.now).told (H.seen store.new.shelf.now).told PassesButCaches }
    ensures sound { (filter_tags : List (List ℕ)) (rows : List Row) → Sums filter_tags rows summary.now → Goes (H.seen store.old.shelf.now).told (H.seen store.new.shelf.now).told (λ s t. HasNewRows (length (store_kinds store.old) - 1) rows s → KeepsSound s t) }
    ensures closes { LedgerCloses (store_fault store.old) (store_fault store.new) result }
    ensures kinds { store_kinds store.new ≡ store_kinds store.old }
    ensures fits { FitsUnlessBroken (store_kinds store.new) (store_fault store.new) (H.seen store.new.shelf.now).told }
    ensures cause { RisesExactlyIf (H.seen store.old.shelf.now).faults (H.seen store.new.shelf.now).faults (ledger_failed result) }
    ensures spares { IfSome (H.seen store.old.shelf.now).told (λ s. HoldBoth (length (store_kinds store.old) - 1) s → TicksUpTo 14 (H.clock store.old.shelf.now) (H.clock store.new.shelf.now)) }
{
    let Folds { ids, times } = fold_behind(alloc, store, summary)?;
    put_caches(alloc, store, ids, times)
}

// What all runs say together: the failing set and the times.
#[derive(Drop)]
struct Folds {
    ids: IdList,
    times: Entries,
}

// Both, by the caches and the runs behind them.
fn fold_all<H: Shelf>(alloc: Global, store: &mut Store<'_, H>) -> Result<Folds, LedgerFault>
    requires fits { FitsUnlessBroken (store_kinds store.old) (store_fault store.old) (H.seen store.old.shelf.now).told }
    ensures same_reference { store.new.shelf.ghost_name ≡ store.old.shelf.ghost_name }
    ensures folds { IfSome (H.seen store.old.shelf.now).told ReadsSound → IfOk result (λ folds. IfSome (H.seen store.old.shelf.now).told (AreFolds folds.ids folds.times)) }
    ensures reads { LedgerReads (seen_store store.old (H.seen store.old.shelf.now)) (seen_store store.new (H.seen store.new.shelf.now)) result }
{
    let ids = failing(alloc, store)?;
    let times = all_times(alloc, store)?;
    Ok(Folds { ids, times })
}

// Both, by the caches, the runs behind them but for the last, and what is kept of the rows of the last.
fn fold_behind<H: Shelf>(
    alloc: Global,
    store: &mut Store<'_, H>,
    summary: &Summary,
) -> Result<Folds, LedgerFault>
    requires some { 0 < length (store_kinds store.old) }
    requires fits { FitsUnlessBroken (store_kinds store.old) (store_fault store.old) (H.seen store.old.shelf.now).told }
    ensures same_reference { store.new.shelf.ghost_name ≡ store.old.shelf.ghost_name }
    ensures folds { (filter_tags : List (List ℕ)) (rows : List Row) → Sums filter_tags rows summary.now → IfSome (H.seen store.old.shelf.now).told (HasNewRows (length (store_kinds store.old) - 1) rows) → IfSome (H.seen store.old.shelf.now).told ReadsSound → IfOk result (λ folds. IfSome (H.seen store.old.shelf.now).told (AreFolds folds.ids folds.times)) }
    ensures reads { LedgerReads (seen_store store.old (H.seen store.old.shelf.now)) (seen_store store.new (H.seen store.new.shelf.now)) result }
    ensures spares { IfSome (H.seen store.old.shelf.now).told (λ s. HoldBoth (length (store_kinds store.old) - 1) s → TicksUpTo 4 (H.clock store.old.shelf.now) (H.clock store.new.shelf.now)) }
{
    check_open(store)?;
    let ids = failing_behind(alloc, store, summary)?;
    let times = times_behind(alloc, store, summary)?;
    Ok(Folds { ids, times })
}

// The failing set, where this is kept of the rows of the last run.
fn failing_behind<H: Shelf>(
    alloc: Global,
    store: &mut Store<'_, H>,
    summary: &Summary,
) -> Result<IdList, LedgerFault>
    requires some { 0 < length (store_kinds store.old) }
    requires fits { FitsUnlessBroken (store_kinds store.old) (store_fault store.old) (H.seen store.old.shelf.now).told }
    requires open { store_fault store.old ≡ None }
    ensures same_reference { store.new.shelf.ghost_name ≡ store.old.shelf.ghost_name }
    ensures ids { (filter_tags : List (List ℕ)) (rows : List Row) → Sums filter_tags rows summary.now → IfSome (H.seen store.old.shelf.now).told (HasNewRows (length (store_kinds store.old) - 1) rows) → IfSome (H.seen store.old.shelf.now).told ReadsSound → IfOk result (λ ids. IfSome (H.seen store.old.shelf.now).told (IsFailingSet ids)) }
    ensures reads { LedgerReads (seen_store store.old (H.seen store.old.shelf.now)) (seen_store store.new (H.seen store.new.shelf.now)) result }
    ensures spares { IfSome (H.seen store.old.shelf.now).told (λ s. HoldBoth (length (store_kinds store.old) - 1) s → TicksUpTo 2 (H.clock store.old.shelf.now) (H.clock store.new.shelf.now)) }
{
    let last = store.runs() - 1;
    if store.partial(last) {
        let earlier = failing_to(alloc, store, last)?;
        Ok(add_partial(alloc, earlier, summary)?)
    } else {
        Ok(summary.failing_ids(alloc)?)
    }
}

// The failing set after one partial run more.
fn add_partial(alloc: Global, earlier: IdList, summary: &Summary) -> Result<IdList, NoMemory>
    ensures { (filter_tags : List (List ℕ)) (rows : List Row) → Sums filter_tags rows summary.now → IfOk result (λ ids. IsStrictlySortedBy text_cmp earlier → ids ≡ after_run earlier (record { partial = true; rows = rows })) }
{
    let mut failed = TextSet::new(alloc);
    failed.put_all(earlier)?;
    summary.change_failing(alloc, &mut failed)?;
    failed.into_ids(alloc)
}

// The times, where this is kept of the rows of the last run.
fn times_behind<H: Shelf>(
    alloc: Global,
    store: &mut Store<'_, H>,
    summary: &Summary,
) -> Result<Entries, LedgerFault>
    requires some { 0 < length (store_kinds store.old) }
    requires fits { FitsUnlessBroken (store_kinds store.old) (store_fault store.old) (H.seen store.old.shelf.now).told }
    requires open { store_fault store.old ≡ None }
    ensures same_reference { store.new.shelf.ghost_name ≡ store.old.shelf.ghost_name }
    ensures times { (filter_tags : List (List ℕ)) (rows : List Row) → Sums filter_tags rows summary.now → IfSome (H.seen store.old.shelf.now).told (HasNewRows (length (store_kinds store.old) - 1) rows) → IfSome (H.seen store.old.shelf.now).told ReadsSound → IfOk result (λ times. IfSome (H.seen store.old.shelf.now).told (AreTimes times)) }
    ensures reads { LedgerReads (seen_store store.old (H.seen store.old.shelf.now)) (seen_store store.new (H.seen store.new.shelf.now)) result }
    ensures spares { IfSome (H.seen store.old.shelf.now).told (λ s. HoldBoth (length (store_kinds store.old) - 1) s → TicksUpTo 2 (H.clock store.old.shelf.now) (H.clock store.new.shelf.now)) }
{
    let last = store.runs() - 1;
    let mut latest = times_to(alloc, store, last)?;
    replace_summed(alloc, &mut latest, summary)?;
    Ok(latest)
}

// Puts both caches. The bytes of both are made before, and take the place of what they are made of.
fn put_caches<H: Shelf>(
    alloc: Global,
    store: &mut Store<'_, H>,
    ids: IdList,
    times: Entries,
) -> Result<(), LedgerFault>
    requires fits { FitsUnlessBroken (store_kinds store.old) (store_fault store.old) (H.seen store.old.shelf.now).told }
    requires open { store_fault store.old ≡ None }
    ensures same_reference { store.new.shelf.ghost_name ≡ store.old.shelf.ghost_name }
    ensures put { OnOk result (Goes (H.seen store.old.shelf.now).told (H.seen store.new.shelf.now).told (λ s t. AreFolds ids times s → PutsCaches s t)) }
    ensures others { Goes (H.seen store.old.shelf.now).told (H.seen store.new.shelf.now).told KeepsButCaches }
    ensures any_moment { Goes (H.seen store.old.shelf.now).told (H.seen store.new.shelf.now).told PassesButCaches }
    ensures sound { Goes (H.seen store.old.shelf.now).told (H.seen store.new.shelf.now).told (λ s t. AreFolds ids times s → KeepsSound s t) }
    ensures closes { LedgerCloses (store_fault store.old) (store_fault store.new) result }
    ensures kinds { store_kinds store.new ≡ store_kinds store.old }
    ensures fits { FitsUnlessBroken (store_kinds store.new) (store_fault store.new) (H.seen store.new.shelf.now).told }
    ensures cause { RisesExactlyIf (H.seen store.old.shelf.now).faults (H.seen store.new.shelf.now).faults (ledger_failed result) }
    ensures time { TicksUpTo 10 (H.clock store.old.shelf.now) (H.clock store.new.shelf.now) }
{
    let covers = u64::from(store.runs());
    let failing = write_failing_cache(alloc, covers, &ids)?;
    drop(ids);
    let latest = write_entries_cache(alloc, covers, times)?;
    put_cache(store, CacheFile::Failing, failing.bytes())?;
    put_cache(store, CacheFile::Times, latest.bytes())
}

// Puts one of them.
fn put_cache<H: Shelf>(
    store: &mut Store<'_, H>,
    side: CacheFile,
    bytes: &[u8],
) -> Result<(), LedgerFault>
    requires fits { FitsUnlessBroken (store_kinds store.old) (store_fault store.old) (H.seen store.old.shelf.now).told }
    ensures same_reference { store.new.shelf.ghost_name ≡ store.old.shelf.ghost_name }
    ensures kept { OnOk result (Goes (H.seen store.old.shelf.now).told (H.seen store.new.shelf.now).told (KeepsCacheFile side bytes.now)) }
    ensures others { Goes (H.seen store.old.shelf.now).told (H.seen store.new.shelf.now).told KeepsButCaches }
    ensures any_moment { Goes (H.seen store.old.shelf.now).told (H.seen store.new.shelf.now).told (PassesCacheFile side bytes.now) }
    ensures closes { LedgerCloses (store_fault store.old) (store_fault store.new) result }
    ensures kinds { store_kinds store.new ≡ store_kinds store.old }
    ensures fits { FitsUnlessBroken (store_kinds store.new) (store_fault store.new) (H.seen store.new.shelf.now).told }
    ensures cause { RisesExactlyIf (H.seen store.old.shelf.now).faults (H.seen store.new.shelf.now).faults (ledger_failed result) }
    ensures time { TicksUpTo 5 (H.clock store.old.shelf.now) (H.clock store.new.shelf.now) }
{
    store.put_cache_file(side, bytes)?;
    Ok(())
}
