//! Looks for the tests that make others of a run fail.

ghost use Rattle.std.specs.Prelude.{◌≡◌, ◌<◌, ℕ, List, None, true, length, IfOk, IfSome, OnOk};
ghost use Rattle.edge_io.specs.Disk.{Files, Folder};
ghost use Rattle.edge_io.specs.Causes.{RisesExactlyIf};
ghost use Rattle.edge_io.specs.Seen.{Seen};
ghost use Rattle.edge_io.specs.Steps.{Goes, Stays};
ghost use Rattle.outcome_fold.specs.Summed.{Sums};
ghost use Rattle.outcome_fold.specs.declared.row.Row.{Row as ARow};
ghost use Rattle.run_shelf.specs.Holds.{kinds_of, FitsWhereTold};
ghost use Rattle.run_shelf.specs.Stores.{store_kinds, store_fault, FitsUnlessBroken};
ghost use Rattle.suite_causes.specs.Searching.{CanHandIds};
ghost use Rattle.command_steps.specs.Causes.{AreRanLists, FindsAmong, FindsCause, FindsCauses, FindsEach, IsPlaceOf, candidates_in};
ghost use Rattle.command_steps.specs.Outside.{work};
ghost use Rattle.command_steps.specs.Told.{tell_failed};
ghost use Rattle.command_steps.specs.Verdicts.{verdict_of};
ghost use Rattle.command_steps.specs.declared.answer.Verdict.TheVariants.{Passed};

use crate::Refusal;
use crate::question_answers::{TellFault, hand_back, ledger_refusal};
use crate::report_printer::print_cause_line;
use edge_io::{Shelf, Sink, Spawner};
use outcome_fold::Summary;
use run_shelf::{Found, Store};
use std::alloc::Global;
use sub_number::{IdList, NoMemory, Text};
use suite_causes::{Suspect, cause_line, count_before, ran_ids, search_cause, suspects_of};
use testr_conf::Conf;

/// Looks for what makes each test fail that failed in the run of this number, whose rows were summed up so: one after another, each
/// by probes that are run on this thread, and prints the line of each as soon as its verdict is there. What ran on a lane is read
/// once. The folder stays. These are the runs that there are, where there was memory for them.
///
/// Where no test failed, nothing is read and nothing started.
pub fn find_causes<H: Shelf, S: Spawner, O: Sink>(
    alloc: Global,
    conf: &Conf,
    number: u32,
    found: Option<Found>,
    summary: &Summary,
    shelf: &mut H,
    spawner: &mut S,
    out: &mut O,
) -> Result<(), Refusal<'static>>
    requires handed { CanHandIds conf.now }
    requires known { IfSome found (λ runs. number < length (kinds_of runs)) }
    requires fits { IfSome found (λ runs. FitsWhereTold (kinds_of runs) (H.seen shelf.old).told) }
    ensures step { (site : Seen Files) → (input : Seen (List ℕ)) → (filter_tags : List (List ℕ)) (rows : List ARow) → Sums filter_tags rows summary.now → FindsCauses true conf.now number rows
        (work (H.seen shelf.old) site (S.seen spawner.old) input (O.seen out.old))
        (work (H.seen shelf.new) site (S.seen spawner.new) input (O.seen out.new))
        result }
    ensures still { (filter_tags : List (List ℕ)) (rows : List ARow) → Sums filter_tags rows summary.now → verdict_of rows ≡ Passed → (H.seen shelf.new ≡ H.seen shelf.old) × (H.clock shelf.new ≡ H.clock shelf.old) }
{
    let suspects = match suspects_of(alloc, summary.failing()) {
        Ok(suspects) => suspects,
        Err(fault) => return Err(Refusal::Suspects(fault)),
    };
    if suspects.is_empty() {
        return Ok(());
    }
    let Some(found) = found else {
        return Err(Refusal::Suspects(NoMemory));
    };
    let mut store = Store::attach(shelf, found);
    let searched = find_each(alloc, conf, &mut store, number, &suspects, spawner, out);
    hand_back(store.into_shelf());
    searched
}

/// The ids of the tests that began to run on a lane.
#[derive(Drop)]
pub(crate) struct LaneIds {
    /// The lane's number.
    pub lane: u32,
    /// The ids, each once, in the order in which they began.
    pub ids: IdList,
}

// Looks for what makes each of the tests fail, one after another.
fn find_each<H: Shelf, S: Spawner, O: Sink>(
    alloc: Global,
    conf: &Conf,
    store: &mut Store<'_, H>,
    number: u32,
    suspects: &[Suspect],
    spawner: &mut S,
    out: &mut O,
) -> Result<(), Refusal<'static>>
    requires handed { CanHandIds conf.now }
    requires unbroken { store_fault store.old ≡ None }
    requires known { number < length (store_kinds store.old) }
    requires fits { FitsUnlessBroken (store_kinds store.old) (store_fault store.old) (H.seen store.old.shelf.now).told }
    ensures same_reference { store.new.shelf.ghost_name ≡ store.old.shelf.ghost_name }
    ensures step { (site : Seen Files) → (input : Seen (List ℕ)) → FindsEach conf.now number suspects.now
        (work (H.seen store.old.shelf.now) site (S.seen spawner.old) input (O.seen out.old))
        (work (H.seen store.new.shelf.now) site (S.seen spawner.new) input (O.seen out.new))
        result }
{
    let mut lists = Vec::new(alloc);
    for suspect in suspects {
        find_cause(
            alloc, conf, store, number, &mut lists, suspect, spawner, out,
        )?;
    }
    Ok(())
}

// Looks for what makes the test fail, among those that began to run before it on its lane. The ids of lanes that were read are
// kept.
fn find_cause<H: Shelf, S: Spawner, O: Sink>(
    alloc: Global,
    conf: &Conf,
    store: &mut Store<'_, H>,
    number: u32,
    lists: &mut Vec<LaneIds>,
    suspect: &Suspect,
    spawner: &mut S,
    out: &mut O,
) -> Result<(), Refusal<'static>>
    requires handed { CanHandIds conf.now }
    requires unbroken { store_fault store.old ≡ None }
    requires known { number < length (store_kinds store.old) }
    requires fits { FitsUnlessBroken (store_kinds store.old) (store_fault store.old) (H.seen store.old.shelf.now).told }
    requires lists { AreRanLists number lists.old.items (H.seen store.old.shelf.now).told }
    ensures same_reference { store.new.shelf.ghost_name ≡ store.old.shelf.ghost_name }
    ensures step { (site : Seen Files) → (input : Seen (List ℕ)) → FindsCause conf.now number suspect.now
        (work (H.seen store.old.shelf.now) site (S.seen spawner.old) input (O.seen out.old))
        (work (H.seen store.new.shelf.now) site (S.seen spawner.new) input (O.seen out.new))
        result }
    ensures unbroken { OnOk result (store_fault store.new ≡ None) }
    ensures kinds { store_kinds store.new ≡ store_kinds store.old }
    ensures fits { FitsUnlessBroken (store_kinds store.new) (store_fault store.new) (H.seen store.new.shelf.now).told }
    ensures lists { OnOk result (AreRanLists number lists.new.items (H.seen store.new.shelf.now).told) }
{
    match read_lane(alloc, store, number, suspect.lane, lists) {
        Ok(place) => find_among(alloc, conf, &lists[place].ids, &suspect.id, spawner, out),
        Err(fault) => Err(Refusal::Ran(fault)),
    }
}

// Where the ids of the lane stand among those that were read. Where they are not there, the run is read for them.
fn read_lane<H: Shelf>(
    alloc: Global,
    store: &mut Store<'_, H>,
    number: u32,
    lane: u32,
    lists: &mut Vec<LaneIds>,
) -> Result<usize, TellFault>
    requires unbroken { store_fault store.old ≡ None }
    requires known { number < length (store_kinds store.old) }
    requires fits { FitsUnlessBroken (store_kinds store.old) (store_fault store.old) (H.seen store.old.shelf.now).told }
    requires lists { AreRanLists number lists.old.items (H.seen store.old.shelf.now).told }
    ensures same_reference { store.new.shelf.ghost_name ≡ store.old.shelf.ghost_name }
    ensures place { IfOk result (λ place. IsPlaceOf lane lists.new.items place) }
    ensures same { Goes (H.seen store.old.shelf.now).told (H.seen store.new.shelf.now).told Stays }
    ensures count { RisesExactlyIf (H.seen store.old.shelf.now).faults (H.seen store.new.shelf.now).faults (tell_failed result) }
    ensures unbroken { OnOk result (store_fault store.new ≡ None) }
    ensures kinds { store_kinds store.new ≡ store_kinds store.old }
    ensures fits { FitsUnlessBroken (store_kinds store.new) (store_fault store.new) (H.seen store.new.shelf.now).told }
    ensures lists { OnOk result (AreRanLists number lists.new.items (H.seen store.new.shelf.now).told) }
{
    if let Some(place) = place_of(lists, lane) {
        return Ok(place);
    }
    let ids = match ran_ids(alloc, store, number, lane) {
        Ok(ids) => ids,
        Err(fault) => return Err(ledger_refusal(fault)),
    };
    let place = lists.len();
    let Ok(()) = lists.push(LaneIds { lane, ids }) else {
        return Err(TellFault::NoMemory);
    };
    Ok(place)
}

// Where the ids of the lane stand, if they do.
fn place_of(lists: &[LaneIds], lane: u32) -> Option<usize>
    ensures { IfSome result (λ place. IsPlaceOf lane lists.now place) }
{
    for place in 0..lists.len() {
        if lists[place].lane == lane {
            return Some(place);
        }
    }
    None
}

// Searches for what makes the test fail among those before it, and prints what was found.
fn find_among<S: Spawner, O: Sink>(
    alloc: Global,
    conf: &Conf,
    ids: &IdList,
    test: &Text,
    spawner: &mut S,
    out: &mut O,
) -> Result<(), Refusal<'static>>
    requires handed { CanHandIds conf.now }
    ensures { (folder : Seen Folder) → (site : Seen Files) → (input : Seen (List ℕ)) → FindsAmong conf.now test.now (candidates_in test.now ids.now)
        (work folder site (S.seen spawner.old) input (O.seen out.old))
        (work folder site (S.seen spawner.new) input (O.seen out.new))
        result }
{
    let count = count_before(ids, test);
    let found = match search_cause(alloc, conf, spawner, ids, count, test) {
        Ok(found) => found,
        Err(fault) => return Err(Refusal::Search(fault)),
    };
    print_cause_line(out, &cause_line(test, ids, count, found))?;
    Ok(())
}
