//! Brings the caches up to the runs.

ghost use Rattle.std.specs.Prelude.{◌≡◌, ◌<◌, ◌-◌, ℕ, None, List, length, IfSome, OnOk};
ghost use Rattle.edge_io.specs.Causes.{RisesExactlyIf};
ghost use Rattle.edge_io.specs.Steps.{Goes};
ghost use Rattle.outcome_fold.specs.Summed.{Sums};
ghost use Rattle.outcome_fold.specs.declared.row.Row.{Row as ARow};
ghost use Rattle.run_ledger.specs.Cached.{ReadsSound};
ghost use Rattle.run_ledger.specs.Ledger.{HasNewRows};
ghost use Rattle.run_ledger.specs.Refreshing.{PutsCaches, HoldBoth, KeepsSound};
ghost use Rattle.run_shelf.specs.Outcomes.{TicksUpTo};
ghost use Rattle.run_shelf.specs.Holds.{kinds_of, FitsWhereTold};
ghost use Rattle.run_shelf.specs.Stores.{store_kinds, store_fault, FitsUnlessBroken};
ghost use Rattle.command_steps.specs.Refreshing.{Refreshes};
ghost use Rattle.command_steps.specs.Told.{tell_failed};

use crate::question_answers::{TellFault, hand_back, ledger_refusal};
use edge_io::Shelf;
use outcome_fold::Summary;
use run_ledger::refresh_behind;
use run_shelf::{Found, Store};
use std::alloc::Global;

/// Brings the caches up to the runs that were found, of the rows of whose last one this is kept: in fourteen calls of the
/// folder at most, where they cover all other runs.
pub fn refresh_caches<H: Shelf>(
    alloc: Global,
    shelf: &mut H,
    found: Found,
    summary: &Summary,
) -> Result<(), TellFault>
    requires some { 0 < length (kinds_of found) }
    requires fits { FitsWhereTold (kinds_of found) (H.seen shelf.old).told }
    ensures step { (filter_tags : List (List ℕ)) (rows : List ARow) → Sums filter_tags rows summary.now → Refreshes (length (kinds_of found) - 1) rows (H.seen shelf.old) (H.seen shelf.new) result }
    ensures fits { OnOk result (FitsWhereTold (kinds_of found) (H.seen shelf.new).told) }
    ensures calls { IfSome (H.seen shelf.old).told (λ s. HoldBoth (length (kinds_of found) - 1) s → TicksUpTo 14 (H.clock shelf.old) (H.clock shelf.new)) }
{
    let mut store = Store::attach(shelf, found);
    let refreshed = refresh_store(alloc, &mut store, summary);
    hand_back(store.into_shelf());
    refreshed
}

fn refresh_store<H: Shelf>(
    alloc: Global,
    store: &mut Store<'_, H>,
    summary: &Summary,
) -> Result<(), TellFault>
    requires unbroken { store_fault store.old ≡ None }
    requires some { 0 < length (store_kinds store.old) }
    requires fits { FitsUnlessBroken (store_kinds store.old) (store_fault store.old) (H.seen store.old.shelf.now).told }
    ensures same_reference { store.new.shelf.ghost_name ≡ store.old.shelf.ghost_name }
    ensures step { (filter_tags : List (List ℕ)) (rows : List ARow) → Sums filter_tags rows summary.now → Refreshes (length (store_kinds store.old) - 1) rows (H.seen store.old.shelf.now) (H.seen store.new.shelf.now) result }
    ensures fits { OnOk result (FitsWhereTold (store_kinds store.old) (H.seen store.new.shelf.now).told) }
    ensures calls { IfSome (H.seen store.old.shelf.now).told (λ s. HoldBoth (length (store_kinds store.old) - 1) s → TicksUpTo 14 (H.clock store.old.shelf.now) (H.clock store.new.shelf.now)) }
{
    match refresh_behind(alloc, store, summary) {
        Ok(()) => Ok(()),
        Err(fault) => Err(ledger_refusal(fault)),
    }
}
