//! Starts the children of a run, each as the lane of its place.

ghost use Rattle.std.specs.Prelude.{◌≡◌, ◌≤◌, ◌<◌, ◌++◌, ◌∷◌, [], length, map, IfOk, IfErr, OnOk};
ghost use Rattle.std.specs.List.{range_with_len};
ghost use Rattle.edge_io.specs.Causes.{RisesExactlyIf};
ghost use Rattle.edge_io.specs.Steps.{Goes};
ghost use Rattle.suite_run.specs.Starting.{StartsLanes, HasStarted, StartsSome, StartsNext, start_failed, rests_in};
ghost use Rattle.worker_lane.specs.Lanes.{rest, lane_number};
ghost use Rattle.worker_lane.specs.Lost.{AreShortIds};
ghost use Rattle.worker_mux.specs.Outputs.{AreAllTexts, ids_at as ids_of};

use edge_io::{Child, Job, Spawner};
use std::alloc::Global;
use sub_number::{IdList, Text};
use worker_lane::Lane;

/// Why the children of a run were not started.
#[derive(Clone, Copy, Debug, PartialEq, Eq)]
pub enum StartRefusal {
    /// A start failed.
    Spawn,
    /// There is not enough memory.
    NoMemory,
}

/// Starts the jobs in order, each child as the lane of its place: the first is lane 0, the next one lane 1, and so on.
/// There are 64 at most. The job at each place names the ids that stand at that place, and none where no list does.
///
/// `Spawn` comes exactly where a start fails. Then, and for want of memory, no further job is started, and the children
/// that were started are stopped and waited for (no clause says so).
pub fn start_lanes<S: Spawner>(
    alloc: Global,
    spawner: &mut S,
    jobs: &[Job],
    asked: &[IdList],
) -> Result<Vec<Lane<S::Child>>, StartRefusal>
    requires few { length jobs.now ≤ 64 }
    ensures numbers { IfOk result (λ lanes. map lane_number lanes.items ≡ range_with_len 0 (length lanes.items)) }
    ensures count { IfOk result (λ lanes. length lanes.items ≡ length jobs.now) }
    ensures step { StartsLanes jobs.now asked.now (S.seen spawner.old) (S.seen spawner.new) (rests_in S.Child.seen result) }
{
    are_all_texts(asked);
    let mut lanes = Vec::new(alloc);
    match start_each(alloc, spawner, jobs, asked, &mut lanes) {
        Ok(()) => Ok(lanes),
        Err(refusal) => {
            give_up_all(lanes);
            Err(refusal)
        }
    }
}

// Starts each of the jobs. No lane is there before.
fn start_each<S: Spawner>(
    alloc: Global,
    spawner: &mut S,
    jobs: &[Job],
    asked: &[IdList],
    lanes: &mut Vec<Lane<S::Child>>,
) -> Result<(), StartRefusal>
    requires few { length jobs.now ≤ 64 }
    requires texts { AreAllTexts asked.now }
    requires none { lanes.old.items ≡ [] }
    ensures numbers { OnOk result (map lane_number lanes.new.items ≡ range_with_len 0 (length lanes.new.items)) }
    ensures count { OnOk result (length lanes.new.items ≡ length jobs.now) }
    ensures started { OnOk result (Goes (S.seen spawner.old).told (S.seen spawner.new).told (HasStarted jobs.now asked.now (map (rest S.Child.seen) lanes.new.items))) }
    ensures refused { IfErr result (λ refusal. Goes (S.seen spawner.old).told (S.seen spawner.new).told (StartsSome jobs.now refusal)) }
    ensures sum { RisesExactlyIf (S.seen spawner.old).faults (S.seen spawner.new).faults (start_failed result) }
{
    for job in jobs {
        let ids = ids_at(asked, lanes.len());
        start_next(alloc, spawner, job, ids, lanes)?;
    }
    Ok(())
}

// The ids that the job at this place names.
fn ids_at(asked: &[IdList], place: usize) -> &[Text]
    ensures { result.now ≡ ids_of asked.now place }
{
    match asked.get(place) {
        Some(ids) => ids.list(),
        None => &[],
    }
}

// Starts the job, which names these ids, as the lane behind those that are there.
fn start_next<S: Spawner>(
    alloc: Global,
    spawner: &mut S,
    job: &Job,
    ids: &[Text],
    lanes: &mut Vec<Lane<S::Child>>,
) -> Result<(), StartRefusal>
    requires few { length lanes.old.items < 64 }
    ensures number { OnOk result (map lane_number lanes.new.items ≡ map lane_number lanes.old.items ++ length lanes.old.items ∷ []) }
    ensures started { OnOk result (StartsNext job.now ids.now (map (rest S.Child.seen) lanes.old.items) (map (rest S.Child.seen) lanes.new.items) (S.seen spawner.old).told (S.seen spawner.new).told) }
    ensures refused { IfErr result (λ refusal. Goes (S.seen spawner.old).told (S.seen spawner.new).told (StartsSome (job.now ∷ []) refusal)) }
    ensures sum { RisesExactlyIf (S.seen spawner.old).faults (S.seen spawner.new).faults (start_failed result) }
{
    let number = lanes.len() as u32;
    let Ok(child) = spawner.start(job) else {
        return Err(StartRefusal::Spawn);
    };
    let lane = match Lane::new(alloc, number, child, ids) {
        Ok(lane) => lane,
        Err(child) => {
            give_up(child);
            return Err(StartRefusal::NoMemory);
        }
    };
    match lanes.push(lane) {
        Ok(()) => Ok(()),
        Err(failed) => {
            failed.value.give_up();
            Err(StartRefusal::NoMemory)
        }
    }
}

// Stops all children, and waits for each.
fn give_up_all<C: Child + Drop>(lanes: Vec<Lane<C>>) {
    for lane in lanes {
        lane.give_up();
    }
}

// Stops the child, and waits for it.
fn give_up<C: Child + Drop>(child: C) {
    let mut child = child;
    child.stop();
    let _ = child.wait();
}

// What holds of all ids: each is a text.
fn are_all_texts(asked: &[IdList])
    ensures { AreAllTexts asked.now }
{
    for ids in asked {
        are_texts(ids.list());
    }
}

fn are_texts(ids: &[Text])
    ensures { AreShortIds ids.now }
{
    for id in ids {
        let _bytes = id.bytes();
    }
}
