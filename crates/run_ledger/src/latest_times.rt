//! The times of the ids in the runs of a store, told without their cache.

ghost use Rattle.std.specs.Prelude.{◌≡◌, ◌≤◌, None, length, IfSome, IfOk, OnOk};
ghost use Rattle.run_shelf.specs.Stores.{store_kinds, store_fault, FitsUnlessBroken, seen_store};
ghost use Rattle.run_ledger.specs.Ledger.{times_after};
ghost use Rattle.run_ledger.specs.Outcomes.{LedgerReads};
ghost use Rattle.run_ledger.specs.Costs.{ReadsTo};
ghost use Rattle.run_ledger.specs.SoFar.{SaysTo};

use crate::entries::Entries;
use crate::fault::LedgerFault;
use crate::merged_times::replace_times;
use crate::rows::rows_of;
use edge_io::Shelf;
use run_shelf::Store;
use std::alloc::Global;

// The time of each id that has one in some run before this number, in nanoseconds: that of the last run where it has one,
// and there the longest of its times. Each run is read once, from the first on.
pub(crate) fn times_afresh<H: Shelf>(
    alloc: Global,
    store: &mut Store<'_, H>,
    end: u32,
) -> Result<Entries, LedgerFault>
    requires fits { FitsUnlessBroken (store_kinds store.old) (store_fault store.old) (H.seen store.old.shelf.now).told }
    requires open { store_fault store.old ≡ None }
    requires few { end ≤ length (store_kinds store.old) }
    ensures same_reference { store.new.shelf.ghost_name ≡ store.old.shelf.ghost_name }
    ensures times { IfOk result (λ times. IfSome (H.seen store.old.shelf.now).told (SaysTo times_after end times)) }
    ensures reads { LedgerReads (seen_store store.old (H.seen store.old.shelf.now)) (seen_store store.new (H.seen store.new.shelf.now)) result }
    ensures time { IfSome (H.seen store.old.shelf.now).told (ReadsTo 0 end (H.clock store.old.shelf.now) (H.clock store.new.shelf.now)) }
{
    let mut latest = Entries::new(alloc);
    take_times(alloc, store, &mut latest, 0, end)?;
    Ok(latest)
}

// Takes the times of the runs from `start` on, up to the one before `end`. Each is read once.
pub(crate) fn take_times<H: Shelf>(
    alloc: Global,
    store: &mut Store<'_, H>,
    latest: &mut Entries,
    start: u32,
    end: u32,
) -> Result<(), LedgerFault>
    requires fits { FitsUnlessBroken (store_kinds store.old) (store_fault store.old) (H.seen store.old.shelf.now).told }
    requires open { store_fault store.old ≡ None }
    requires order { start ≤ end }
    requires few { end ≤ length (store_kinds store.old) }
    ensures same_reference { store.new.shelf.ghost_name ≡ store.old.shelf.ghost_name }
    ensures times { IfSome (H.seen store.old.shelf.now).told (SaysTo times_after start latest.old) → OnOk result (IfSome (H.seen store.old.shelf.now).told (SaysTo times_after end latest.new)) }
    ensures reads { LedgerReads (seen_store store.old (H.seen store.old.shelf.now)) (seen_store store.new (H.seen store.new.shelf.now)) result }
    ensures time { IfSome (H.seen store.old.shelf.now).told (ReadsTo start end (H.clock store.old.shelf.now) (H.clock store.new.shelf.now)) }
{
    for number in start..end {
        let rows = rows_of(alloc, store, number)?;
        replace_times(alloc, latest, &rows)?;
    }
    Ok(())
}
