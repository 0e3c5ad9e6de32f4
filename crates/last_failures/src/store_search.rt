//! The runs of a store, from the last one back.

ghost use Rattle.std.specs.Prelude.{◌≡◌, ◌<◌, ◌+◌, [], None, length, IfSome, IfOk, OnOk, if◌then◌else◌};
ghost use Rattle.run_shelf.specs.Stores.{store_kinds, store_fault, FitsUnlessBroken, seen_store};
ghost use Rattle.run_ledger.specs.Costs.{ReadsFrom, ReadsOnce};
ghost use Rattle.run_ledger.specs.Outcomes.{LedgerReads};
ghost use Rattle.last_failures.specs.Gathering.{IsGatheredAt};
ghost use Rattle.last_failures.specs.Last.{AreLastFailures, failures_in};
ghost use Rattle.last_failures.specs.Looking.{LooksOn};

use crate::failures::LastFailures;
use crate::ids_without_row::IdsWithoutRow;
use crate::run_parts::RunFailures;
use crate::runs::read_run;
use crate::search_state::SearchState;
use edge_io::Shelf;
use run_ledger::{LedgerFault, check_open};
use run_shelf::Store;
use std::alloc::Global;
use sub_number::IdList;

/// How each of the ids failed last, with the packets of the part that failed, where they are wanted. Such a row may be of each
/// id or of none, and of other ids nothing is said. The runs are read from the last one back, each once, until each id has its
/// row: those, too, that another program had recorded before the folder was taken over. Nothing changes in the folder.
///
/// Of packets no more are held than those of the parts of ids that have no row yet, of each test the open one and the last one
/// that failed, and those that were found.
///
/// `Store` comes only where a call of the folder failed, and where one had failed before, which comes first. `NoMemory`
/// comes for want of memory, or of a run without an end in a folder that tells nothing, and leaves the store open.
pub fn last_failures<H: Shelf>(
    alloc: Global,
    store: &mut Store<'_, H>,
    ids: &IdList,
    packets: bool,
) -> Result<LastFailures, LedgerFault>
    requires fits { FitsUnlessBroken (store_kinds store.old) (store_fault store.old) (H.seen store.old.shelf.now).told }
    ensures same_reference { store.new.shelf.ghost_name ≡ store.old.shelf.ghost_name }
    ensures found { IfOk result (λ found. IfSome (H.seen store.old.shelf.now).told (AreLastFailures packets ids.now (failures_in found))) }
    ensures reads { LedgerReads (seen_store store.old (H.seen store.old.shelf.now)) (seen_store store.new (H.seen store.new.shelf.now)) result }
    ensures time { IfSome (H.seen store.old.shelf.now).told (ReadsFrom 0 (H.clock store.old.shelf.now) (H.clock store.new.shelf.now)) }
{
    check_open(store)?;
    let mut search = SearchState::new(alloc, ids)?;
    read_back(alloc, store, &mut search, packets)?;
    Ok(search.found)
}

// Looks at the rows of the runs from the last one back, until each id has its row.
fn read_back<H: Shelf>(
    alloc: Global,
    store: &mut Store<'_, H>,
    search: &mut SearchState,
    packets: bool,
) -> Result<(), LedgerFault>
    requires fits { FitsUnlessBroken (store_kinds store.old) (store_fault store.old) (H.seen store.old.shelf.now).told }
    requires open { store_fault store.old ≡ None }
    ensures same_reference { store.new.shelf.ghost_name ≡ store.old.shelf.ghost_name }
    ensures found { OnOk result (IfSome (H.seen store.old.shelf.now).told (LooksOn packets (length (store_kinds store.old)) 0 search.old search.new)) }
    ensures reads { LedgerReads (seen_store store.old (H.seen store.old.shelf.now)) (seen_store store.new (H.seen store.new.shelf.now)) result }
    ensures time { IfSome (H.seen store.old.shelf.now).told (ReadsFrom 0 (H.clock store.old.shelf.now) (H.clock store.new.shelf.now)) }
{
    let mut number = store.runs();
    while number > 0 {
        if search.is_done() {
            return Ok(());
        }
        number -= 1;
        take_run(alloc, store, search, number, packets)?;
    }
    Ok(())
}

// Looks at the rows of this run, in front of those behind it.
fn take_run<H: Shelf>(
    alloc: Global,
    store: &mut Store<'_, H>,
    search: &mut SearchState,
    number: u32,
    packets: bool,
) -> Result<(), LedgerFault>
    requires known { number < length (store_kinds store.old) }
    requires fits { FitsUnlessBroken (store_kinds store.old) (store_fault store.old) (H.seen store.old.shelf.now).told }
    requires open { store_fault store.old ≡ None }
    ensures same_reference { store.new.shelf.ghost_name ≡ store.old.shelf.ghost_name }
    ensures found { OnOk result (IfSome (H.seen store.old.shelf.now).told (LooksOn packets (number + 1) number search.old search.new)) }
    ensures reads { LedgerReads (seen_store store.old (H.seen store.old.shelf.now)) (seen_store store.new (H.seen store.new.shelf.now)) result }
    ensures time { IfSome (H.seen store.old.shelf.now).told (ReadsOnce number (H.clock store.old.shelf.now) (H.clock store.new.shelf.now)) }
{
    let run = read_wanted(alloc, store, search, number, packets)?;
    search.take_rows(alloc, run.rows.list(), &run.parts)?;
    Ok(())
}

// The rows of this run, and the packets of the parts of the ids that have no row yet, where they are wanted.
fn read_wanted<H: Shelf>(
    alloc: Global,
    store: &mut Store<'_, H>,
    search: &SearchState,
    number: u32,
    packets: bool,
) -> Result<RunFailures, LedgerFault>
    requires known { number < length (store_kinds store.old) }
    requires fits { FitsUnlessBroken (store_kinds store.old) (store_fault store.old) (H.seen store.old.shelf.now).told }
    requires open { store_fault store.old ≡ None }
    ensures same_reference { store.new.shelf.ghost_name ≡ store.old.shelf.ghost_name }
    ensures gathered { IfOk result (λ run. IfSome (H.seen store.old.shelf.now).told (IsGatheredAt (if packets then search.now.missing else []) number run)) }
    ensures reads { LedgerReads (seen_store store.old (H.seen store.old.shelf.now)) (seen_store store.new (H.seen store.new.shelf.now)) result }
    ensures time { IfSome (H.seen store.old.shelf.now).told (ReadsOnce number (H.clock store.old.shelf.now) (H.clock store.new.shelf.now)) }
{
    if packets {
        read_run(alloc, store, number, &search.missing)
    } else {
        read_run(alloc, store, number, &IdsWithoutRow::none(alloc))
    }
}
