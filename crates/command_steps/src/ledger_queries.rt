//! Asks the runs of a folder that was opened, with the help of the caches.

ghost use Rattle.std.specs.Prelude.{◌≡◌, None, length, IfOk, IfSome};
ghost use Rattle.edge_io.specs.Steps.{Goes, Stays};
ghost use Rattle.edge_io.specs.Causes.{RisesExactlyIf};
ghost use Rattle.run_ledger.specs.Ledger.{IsFailingSet, AreTimes};
ghost use Rattle.run_shelf.specs.Holds.{kinds_of, FitsWhereTold};
ghost use Rattle.run_shelf.specs.Stores.{store_kinds, store_fault, FitsUnlessBroken};
ghost use Rattle.command_steps.specs.Asking.{FindsFailing, FindsTimes};
ghost use Rattle.command_steps.specs.Calls.{AsksByFew};
ghost use Rattle.command_steps.specs.Told.{tell_failed};
ghost use Rattle.command_steps.specs.Trusted.{SoundFailing, SoundTimes};

use crate::question_answers::{TellFault, hand_back, ledger_refusal};
use edge_io::Shelf;
use run_ledger::{failing, times};
use run_shelf::{Found, Store};
use std::alloc::Global;
use sub_number::{IdList, TimeMap};

/// The ids that fail by all of these runs, in the order of their bytes, told with the help of their cache: in two calls of
/// the folder, where both caches cover these runs.
pub fn find_failing<H: Shelf>(
    alloc: Global,
    shelf: &mut H,
    found: &Found,
) -> Result<IdList, TellFault>
    requires { FitsWhereTold (kinds_of found.now) (H.seen shelf.old).told }
    ensures step { FindsFailing (H.seen shelf.old) (H.seen shelf.new) result }
    ensures calls { AsksByFew (length (kinds_of found.now)) 2 (H.seen shelf.old).told (H.seen shelf.new).told (H.clock shelf.old) (H.clock shelf.new) }
{
    let Ok(runs) = found.copy(alloc) else {
        return Err(TellFault::NoMemory);
    };
    let mut store = Store::attach(shelf, runs);
    let ids = failing_of(alloc, &mut store);
    hand_back(store.into_shelf());
    ids
}

fn failing_of<H: Shelf>(alloc: Global, store: &mut Store<'_, H>) -> Result<IdList, TellFault>
    requires unbroken { store_fault store.old ≡ None }
    requires fits { FitsUnlessBroken (store_kinds store.old) (store_fault store.old) (H.seen store.old.shelf.now).told }
    ensures same_reference { store.new.shelf.ghost_name ≡ store.old.shelf.ghost_name }
    ensures ids { IfOk result (λ ids. IfSome (H.seen store.old.shelf.now).told (λ s. SoundFailing s → IsFailingSet ids s)) }
    ensures count { RisesExactlyIf (H.seen store.old.shelf.now).faults (H.seen store.new.shelf.now).faults (tell_failed result) }
    ensures calls { AsksByFew (length (store_kinds store.old)) 2 (H.seen store.old.shelf.now).told (H.seen store.new.shelf.now).told (H.clock store.old.shelf.now) (H.clock store.new.shelf.now) }
    ensures same { Goes (H.seen store.old.shelf.now).told (H.seen store.new.shelf.now).told Stays }
{
    match failing(alloc, store) {
        Ok(ids) => Ok(ids),
        Err(fault) => Err(ledger_refusal(fault)),
    }
}

/// The times of the ids in all of these runs, told with the help of their cache: in two calls of the folder, where both
/// caches cover these runs.
pub fn find_times<H: Shelf>(
    alloc: Global,
    shelf: &mut H,
    found: &Found,
) -> Result<TimeMap, TellFault>
    requires { FitsWhereTold (kinds_of found.now) (H.seen shelf.old).told }
    ensures step { FindsTimes (H.seen shelf.old) (H.seen shelf.new) result }
    ensures calls { AsksByFew (length (kinds_of found.now)) 2 (H.seen shelf.old).told (H.seen shelf.new).told (H.clock shelf.old) (H.clock shelf.new) }
{
    let Ok(runs) = found.copy(alloc) else {
        return Err(TellFault::NoMemory);
    };
    let mut store = Store::attach(shelf, runs);
    let times = times_of(alloc, &mut store);
    hand_back(store.into_shelf());
    times
}

fn times_of<H: Shelf>(alloc: Global, store: &mut Store<'_, H>) -> Result<TimeMap, TellFault>
    requires unbroken { store_fault store.old ≡ None }
    requires fits { FitsUnlessBroken (store_kinds store.old) (store_fault store.old) (H.seen store.old.shelf.now).told }
    ensures same_reference { store.new.shelf.ghost_name ≡ store.old.shelf.ghost_name }
    ensures times { IfOk result (λ times. IfSome (H.seen store.old.shelf.now).told (λ s. SoundTimes s → AreTimes times s)) }
    ensures count { RisesExactlyIf (H.seen store.old.shelf.now).faults (H.seen store.new.shelf.now).faults (tell_failed result) }
    ensures calls { AsksByFew (length (store_kinds store.old)) 2 (H.seen store.old.shelf.now).told (H.seen store.new.shelf.now).told (H.clock store.old.shelf.now) (H.clock store.new.shelf.now) }
    ensures same { Goes (H.seen store.old.shelf.now).told (H.seen store.new.shelf.now).told Stays }
{
    match times(alloc, store) {
        Ok(times) => Ok(times),
        Err(fault) => Err(ledger_refusal(fault)),
    }
}
