//! The failing set of the runs of a store, told without its cache.

ghost use Rattle.std.specs.Prelude.{◌≡◌, ◌≤◌, ◌+◌, min, None, ℕ, length, IfSome, IfNone, IfOk, OnOk};
ghost use Rattle.run_shelf.specs.Looking.{ReadsBase};
ghost use Rattle.run_shelf.specs.Outcomes.{TicksUpTo};
ghost use Rattle.run_shelf.specs.Stores.{store_kinds, store_fault, FitsUnlessBroken, seen_store};
ghost use Rattle.run_ledger.specs.Starts.{IsStart, IsLastFull, AreAllPartial};
ghost use Rattle.run_ledger.specs.SoFar.{FailsTo, CountsUpTo};
ghost use Rattle.run_ledger.specs.Outcomes.{LedgerReads};
ghost use Rattle.run_ledger.specs.Costs.{ReadsTo};

use crate::failing_change::take_run;
use crate::fault::LedgerFault;
use crate::rows::rows_of;
use edge_io::Shelf;
use outcome_fold::TextSet;
use run_shelf::{Base, Store};
use std::alloc::Global;
use sub_number::IdList;

// The failing set of the runs before this number, in the order of its bytes, each id once. A full run replaces the set by
// the ids that fail in it; a partial run takes the ids out that passed in it, and adds those that fail. So the last full
// run is read and those behind it, each once. Where none is full, the base is read, and then all runs that it does not
// count. No run behind `end` is full.
pub(crate) fn failing_afresh<H: Shelf>(
    alloc: Global,
    store: &mut Store<'_, H>,
    end: u32,
) -> Result<IdList, LedgerFault>
    requires fits { FitsUnlessBroken (store_kinds store.old) (store_fault store.old) (H.seen store.old.shelf.now).told }
    requires open { store_fault store.old ≡ None }
    requires few { end ≤ length (store_kinds store.old) }
    requires begun { (start : ℕ) → IsStart (store_kinds store.old) start → start ≤ end }
    ensures same_reference { store.new.shelf.ghost_name ≡ store.old.shelf.ghost_name }
    ensures ids { IfSome (H.seen store.old.shelf.now).told (CountsUpTo end) → IfOk result (λ ids. IfSome (H.seen store.old.shelf.now).told (FailsTo (store_kinds store.old) end ids)) }
    ensures reads { LedgerReads (seen_store store.old (H.seen store.old.shelf.now)) (seen_store store.new (H.seen store.new.shelf.now)) result }
    ensures full { IfSome (H.seen store.old.shelf.now).told (λ s. (start : ℕ) → IsLastFull (store_kinds store.old) start → ReadsTo start end (H.clock store.old.shelf.now) (H.clock store.new.shelf.now) s) }
    ensures time { IfSome (H.seen store.old.shelf.now).told (λ s. (start : ℕ) → IsStart (store_kinds store.old) start → ReadsTo start end (H.clock store.old.shelf.now + 3) (H.clock store.new.shelf.now) s) }
{
    match last_full(store) {
        Some(start) => from_full(alloc, store, start, end),
        None => from_base(alloc, store, end),
    }
}

// The same, where this is the last full run.
fn from_full<H: Shelf>(
    alloc: Global,
    store: &mut Store<'_, H>,
    start: u32,
    end: u32,
) -> Result<IdList, LedgerFault>
    requires fits { FitsUnlessBroken (store_kinds store.old) (store_fault store.old) (H.seen store.old.shelf.now).told }
    requires open { store_fault store.old ≡ None }
    requires few { end ≤ length (store_kinds store.old) }
    requires order { start ≤ end }
    requires full { IsLastFull (store_kinds store.old) start }
    ensures same_reference { store.new.shelf.ghost_name ≡ store.old.shelf.ghost_name }
    ensures ids { IfOk result (λ ids. IfSome (H.seen store.old.shelf.now).told (FailsTo (store_kinds store.old) end ids)) }
    ensures reads { LedgerReads (seen_store store.old (H.seen store.old.shelf.now)) (seen_store store.new (H.seen store.new.shelf.now)) result }
    ensures time { IfSome (H.seen store.old.shelf.now).told (ReadsTo start end (H.clock store.old.shelf.now) (H.clock store.new.shelf.now)) }
{
    let mut failed = TextSet::new(alloc);
    take_runs(alloc, store, &mut failed, start, end)?;
    Ok(failed.into_ids(alloc)?)
}

// The same, where no run is full.
fn from_base<H: Shelf>(
    alloc: Global,
    store: &mut Store<'_, H>,
    end: u32,
) -> Result<IdList, LedgerFault>
    requires fits { FitsUnlessBroken (store_kinds store.old) (store_fault store.old) (H.seen store.old.shelf.now).told }
    requires open { store_fault store.old ≡ None }
    requires few { end ≤ length (store_kinds store.old) }
    ensures same_reference { store.new.shelf.ghost_name ≡ store.old.shelf.ghost_name }
    ensures ids { IfSome (H.seen store.old.shelf.now).told (CountsUpTo end) → IfOk result (λ ids. IfSome (H.seen store.old.shelf.now).told (FailsTo (store_kinds store.old) end ids)) }
    ensures reads { LedgerReads (seen_store store.old (H.seen store.old.shelf.now)) (seen_store store.new (H.seen store.new.shelf.now)) result }
    ensures time { IfSome (H.seen store.old.shelf.now).told (ReadsTo 0 end (H.clock store.old.shelf.now + 3) (H.clock store.new.shelf.now)) }
{
    let Base { count, ids } = read_base(alloc, store)?;
    let mut failed = TextSet::new(alloc);
    failed.put_all(ids)?;
    take_runs(alloc, store, &mut failed, least(count, end), end)?;
    Ok(failed.into_ids(alloc)?)
}

// The base of the repository.
fn read_base<H: Shelf>(alloc: Global, store: &mut Store<'_, H>) -> Result<Base, LedgerFault>
    requires fits { FitsUnlessBroken (store_kinds store.old) (store_fault store.old) (H.seen store.old.shelf.now).told }
    ensures same_reference { store.new.shelf.ghost_name ≡ store.old.shelf.ghost_name }
    ensures found { IfOk result (λ base. IfSome (H.seen store.old.shelf.now).told (ReadsBase base)) }
    ensures reads { LedgerReads (seen_store store.old (H.seen store.old.shelf.now)) (seen_store store.new (H.seen store.new.shelf.now)) result }
    ensures time { TicksUpTo 3 (H.clock store.old.shelf.now) (H.clock store.new.shelf.now) }
{
    Ok(store.base(alloc)?)
}

// The lesser one.
fn least(count: u32, end: u32) -> u32
    ensures { result ≡ min count end }
{
    if count < end { count } else { end }
}

// Takes the runs from `start` on into the set, up to the one before `end`. Each is read once.
pub(crate) fn take_runs<H: Shelf>(
    alloc: Global,
    store: &mut Store<'_, H>,
    failed: &mut TextSet,
    start: u32,
    end: u32,
) -> Result<(), LedgerFault>
    requires fits { FitsUnlessBroken (store_kinds store.old) (store_fault store.old) (H.seen store.old.shelf.now).told }
    requires open { store_fault store.old ≡ None }
    requires order { start ≤ end }
    requires few { end ≤ length (store_kinds store.old) }
    ensures same_reference { store.new.shelf.ghost_name ≡ store.old.shelf.ghost_name }
    ensures ids { IfSome (H.seen store.old.shelf.now).told (FailsTo (store_kinds store.old) start failed.old) → OnOk result (IfSome (H.seen store.old.shelf.now).told (FailsTo (store_kinds store.old) end failed.new)) }
    ensures reads { LedgerReads (seen_store store.old (H.seen store.old.shelf.now)) (seen_store store.new (H.seen store.new.shelf.now)) result }
    ensures time { IfSome (H.seen store.old.shelf.now).told (ReadsTo start end (H.clock store.old.shelf.now) (H.clock store.new.shelf.now)) }
{
    for number in start..end {
        let rows = rows_of(alloc, store, number)?;
        take_run(alloc, failed, store.partial(number), &rows)?;
    }
    Ok(())
}

// The number of the last full run, which replaces what the runs before it say.
pub(crate) fn last_full<H: Shelf>(store: &Store<'_, H>) -> Option<u32>
    ensures some { IfSome result (IsLastFull (store_kinds store.now)) }
    ensures none { IfNone result (AreAllPartial (store_kinds store.now)) }
{
    for number in (0..store.runs()).rev() {
        if !store.partial(number) {
            return Some(number);
        }
    }
    None
}
