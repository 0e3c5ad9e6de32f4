//! What each worker of a run is started with.

ghost use Rattle.std.specs.Prelude.{◌≡◌, ◌≤◌, ◌⊎◌, ℕ, List, length, true, false, IfOk, IfErr, IfSome, OnOk};
ghost use Rattle.suite_causes.specs.Searching.{CanHandIds};
ghost use Rattle.suite_plan.specs.LaneJobs.{lane_jobs};
ghost use Rattle.suite_plan.specs.Processors.{IsInRange};
ghost use Rattle.suite_plan.specs.declared.worker_shares.TheConstants.{MOST_WORKERS};
ghost use Rattle.std.specs.Option.{option_map, unwrap_or};
ghost use Rattle.edge_io.specs.Seen.{Seen};
ghost use Rattle.run_shelf.specs.Holds.{kinds_of, FitsWhereTold};
ghost use Rattle.command_steps.specs.Asking.{FindsTimes};
ghost use Rattle.command_steps.specs.Outside.{work};
ghost use Rattle.command_steps.specs.Perhaps.{when, Perhaps};
ghost use Rattle.command_steps.specs.SuiteTexts.{long_id_text};
ghost use Rattle.command_steps.specs.Telling.{line_text};
ghost use Rattle.suite_run.specs.NoneLost.{AreAllShort};
ghost use Rattle.worker_lane.specs.Sought.{AreShort};
ghost use Rattle.command_steps.specs.Selecting.{HandsIds, NamesIds, Plans, ids_of_shares, planned_in, shares_of_ids, wants_times as are_times_wanted};
ghost use Rattle.command_steps.specs.Calls.{AsksByFew};

use crate::Refusal;
use crate::ledger_queries::find_times;
use crate::question_answers::TellFault;
use crate::refusal_line::Line;
use crate::test_selection::Selected;
use edge_io::{Job, Shelf};
use partition_times::Groups;
use run_shelf::Found;
use std::alloc::Global;
use sub_number::{IdList, NoMemory, Text, TimeMap};
use suite_causes::can_hand_ids;
use suite_plan::{ids_of_shard, jobs_of_lanes, share_out_ids};
use testr_conf::{Conf, JobFault};
use worker_lane::LONGEST_ID;

/// What the workers of a run are started with.
#[derive(Drop)]
pub struct WorkPlan {
    /// The job of each worker.
    pub jobs: Vec<Job>,
    /// The ids that each job names. There are none where the tests are not known.
    pub asked: Vec<IdList>,
}

/// An id of a test has more bytes than those that are told of, should its worker lose it.
#[derive(Clone, Copy, Debug, PartialEq, Eq)]
pub struct LongId;

impl LongId {
    /// The line that tells of it.
    pub fn line(self) -> Line<'static>
        ensures { line_text result ≡ long_id_text }
    {
        Line::of("testr: an id has more than 65536 bytes\n")
    }
}

/// The jobs of a run's workers, in order, with the ids that they name, which are no more than a run may have, made in two calls of the folder at most
/// where both caches cover the runs that were found. The groups are those of the configuration. Where causes are looked for, ids
/// can be handed to a probe, or it is refused.
pub fn plan_workers<H: Shelf>(
    alloc: Global,
    conf: &Conf,
    groups: &Groups,
    find_causes: bool,
    selected: Selected,
    shelf: &mut H,
    found: &Found,
) -> Result<WorkPlan, Refusal<'static>>
    requires groups { groups.now ≡ conf.now.group_regex }
    requires range { IsInRange selected.workers }
    requires fits { FitsWhereTold (kinds_of found.now) (H.seen shelf.old).told }
    ensures step { (site : _) → (spawner : _) → (input out : Seen (List ℕ)) → Plans conf.now find_causes selected
        (work (H.seen shelf.old) site spawner input out)
        (work (H.seen shelf.new) site spawner input out)
        (planned_in result) }
    ensures handed { find_causes ≡ true → OnOk result (CanHandIds conf.now) }
    ensures few { IfOk result (λ plan. length plan.jobs.items ≤ MOST_WORKERS) }
    ensures fits { OnOk result (FitsWhereTold (kinds_of found.now) (H.seen shelf.new).told) }
    ensures calls { AsksByFew (length (kinds_of found.now)) 2 (H.seen shelf.old).told (H.seen shelf.new).told (H.clock shelf.old) (H.clock shelf.new) }
{
    let times = known_times(alloc, wants_times(&selected), shelf, found)?;
    let shares = divide(alloc, groups, &times, selected)?;
    name_ids(&shares)?;
    let jobs = jobs_of(alloc, conf, &shares)?;
    hand_ids(alloc, conf, find_causes)?;
    let asked = ids_of(alloc, shares);
    Ok(WorkPlan { jobs, asked })
}

// The ids of each share.
fn ids_of(alloc: Global, shares: Option<Vec<IdList>>) -> Vec<IdList>
    ensures { result.items ≡ ids_of_shares (option_map (λ list. list.items) shares) }
{
    match shares {
        Some(shares) => shares,
        None => Vec::new(alloc),
    }
}

// Refuses an id of the shares that is too long to be told of.
fn name_ids(shares: &Option<Vec<IdList>>) -> Result<(), LongId>
    ensures { NamesIds (option_map (λ list. list.items) shares.now) result }
{
    match shares {
        Some(shares) => name_each(shares.as_slice()),
        None => Ok(()),
    }
}

// The same of some shares.
#[tactic(auto, using(crate::proofs::PlanLemmas::all_short_more, crate::proofs::PlanLemmas::not_all_short))]
fn name_each(shares: &[IdList]) -> Result<(), LongId>
    ensures named { OnOk result (AreAllShort shares.now) }
    ensures refused { IfErr result (λ _. AreAllShort shares.now → ⊥) }
{
    for ids in shares {
        if !are_short(ids.list()) {
            return Err(LongId);
        }
    }
    Ok(())
}

// Whether none of the ids is too long to be told of.
#[tactic(auto, using(crate::proofs::PlanLemmas::short_more, crate::proofs::PlanLemmas::not_short))]
fn are_short(ids: &[Text]) -> bool
    ensures yes { result ≡ true → AreShort ids.now }
    ensures no { result ≡ false → AreShort ids.now → ⊥ }
{
    for id in ids {
        if id.bytes().len() > LONGEST_ID {
            return false;
        }
    }
    true
}

// Where causes are looked for, asks whether ids can be handed to a probe.
fn hand_ids(alloc: Global, conf: &Conf, find_causes: bool) -> Result<(), JobFault>
    ensures { HandsIds find_causes conf.now result }
{
    if !find_causes {
        return Ok(());
    }
    can_hand_ids(alloc, conf)
}

// The jobs of the shares, which are no more than a run may have workers, or that of all tests where there are none.
fn jobs_of(alloc: Global, conf: &Conf, shares: &Option<Vec<IdList>>) -> Result<Vec<Job>, JobFault>
    requires { IfSome shares.now (λ list. length list.items ≤ MOST_WORKERS) }
    ensures jobs { IfOk result (λ jobs. lane_jobs conf.now (option_map (λ list. list.items) shares.now) ≡ Ok jobs.items) }
    ensures refused { IfErr result (λ fault. (lane_jobs conf.now (option_map (λ list. list.items) shares.now) ≡ Err fault) ⊎ (fault ≡ JobFault.NoMemory)) }
    ensures few { IfOk result (λ jobs. length jobs.items ≤ MOST_WORKERS) }
{
    match shares {
        Some(shares) => jobs_of_lanes(alloc, conf, Some(shares.as_slice())),
        None => jobs_of_lanes(alloc, conf, None),
    }
}

// Whether the times of the runs are wanted: where there are several workers, and no file gives them.
fn wants_times(selected: &Selected) -> bool
    ensures { result ≡ are_times_wanted selected.now }
{
    selected.times.is_none() && selected.workers > 1
}

// The times of the ids in all runs, where they are wanted.
fn known_times<H: Shelf>(
    alloc: Global,
    wanted: bool,
    shelf: &mut H,
    found: &Found,
) -> Result<Option<TimeMap>, TellFault>
    requires { FitsWhereTold (kinds_of found.now) (H.seen shelf.old).told }
    ensures step { Perhaps (when wanted) (λ _. FindsTimes) (H.seen shelf.old) (H.seen shelf.new) result }
    ensures fits { OnOk result (FitsWhereTold (kinds_of found.now) (H.seen shelf.new).told) }
    ensures calls { AsksByFew (length (kinds_of found.now)) 2 (H.seen shelf.old).told (H.seen shelf.new).told (H.clock shelf.old) (H.clock shelf.new) }
{
    if !wanted {
        return Ok(None);
    }
    Ok(Some(find_times(alloc, shelf, found)?))
}

// These times, or the others where they are none.
fn times_or<'a>(times: &'a Option<TimeMap>, others: &'a TimeMap) -> &'a TimeMap
    ensures { result.now ≡ unwrap_or times.now others.now }
{
    match times {
        Some(times) => times,
        None => others,
    }
}

// The shares of the ids, or of those of the shard, where ids are given. A shard goes by no times but those of a file, so that it
// is the same whatever ran before; without times all are unknown.
fn divide(
    alloc: Global,
    groups: &Groups,
    times: &Option<TimeMap>,
    selected: Selected,
) -> Result<Option<Vec<IdList>>, NoMemory>
    requires range { IsInRange selected.workers }
    ensures shares { IfOk result (λ shares. option_map (λ list. list.items) shares ≡ shares_of_ids groups.now times.now selected) }
    ensures few { IfOk result (λ shares. IfSome shares (λ list. length list.items ≤ MOST_WORKERS)) }
{
    let Selected {
        workers,
        ids,
        shard,
        times: given,
    } = selected;
    let Some(ids) = ids else {
        return Ok(None);
    };
    let none = TimeMap::new(alloc);
    let ids = ids_of_shard(alloc, ids, times_or(&given, &none), groups, shard)?;
    let known = times_or(&given, times_or(times, &none));
    let shares = share_out_ids(alloc, ids, known, groups, workers)?;
    Ok(Some(shares))
}
