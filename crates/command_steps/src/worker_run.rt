//! Starts the workers of a run, and records them.

ghost use Rattle.std.specs.Prelude.{◌≡◌, ◌≤◌, ◌<◌, ◌++◌, ◌∷◌, [], ℕ, List, length, map, false, IfOk, IfErr, IfSome, OnOk};
ghost use Rattle.std.specs.List.{range_with_len};
ghost use Rattle.edge_io.specs.Steps.{HasDraft};
ghost use Rattle.suite_run.specs.Aloud.{sinks};
ghost use Rattle.suite_run.specs.Recording.{AddsByFew, RecordsLanes};
ghost use Rattle.suite_run.specs.Summed.{GivesSums};
ghost use Rattle.worker_lane.specs.Lanes.{rest, lane_number};
ghost use Rattle.edge_io.specs.Disk.{Files};
ghost use Rattle.edge_io.specs.Seen.{Seen};
ghost use Rattle.run_shelf.specs.Holds.{kinds_of, HasRoom, FitsWhereTold};
ghost use Rattle.run_shelf.specs.Repository.{most_runs};
ghost use Rattle.command_steps.specs.Outside.{work};
ghost use Rattle.command_steps.specs.Refusals.{refusal_exit_status};
ghost use Rattle.command_steps.specs.Speaking.{WritesAloud, SaysPart, SaysRun, SaysSome};
ghost use Rattle.command_steps.specs.Working.{Works, kept_in, summary_in};
ghost use Rattle.command_steps.specs.Calls.{IsCovered, StoresByFew};

use crate::Refusal;
use crate::cache_refresh::refresh_caches;
use crate::live_lines::{Silenced, say_end};
use crate::store::{keep_run, start_run};
use edge_io::{Child, Job, Shelf, Sink, Spawner};
use outcome_fold::Summary;
use packet_codec::Tags;
use run_shelf::Found;
use std::alloc::Global;
use std::sync::Wait;
use std::thread::Threads;
use sub_number::IdList;
use suite_run::{LanesRefusal, Said, Shown, record_lanes, start_lanes};
use worker_lane::Lane;

/// What is known of a run that is kept.
#[derive(Drop)]
pub struct Kept {
    /// The runs that there are with it, where they are wanted and there was memory for them.
    pub found: Option<Found>,
    /// What is kept of its rows.
    pub summary: Summary,
}

// What was recorded of the workers.
#[derive(Drop)]
struct Ran {
    // The runs that there are.
    found: Found,
    // What is kept of the rows of what was recorded.
    summary: Summary,
    // The end of the lines, which is left to say.
    end: Vec<u8>,
}

/// Starts a worker for each of the jobs, 64 at most, of which each names the ids at its place, reads them to their ends,
/// side by side, keeps what is recorded of them as the next run, whose rows are summed up as it is recorded, where these
/// tags filter, and brings the caches up to it. It gives what is kept of the rows, and the runs that there are then where
/// these are wanted. It may wait for the workers. Where both caches cover the runs that were found, the folder is called 18
/// times at most, and once for each packet. No refusal of it has the status 3.
///
/// As it is recorded it is said: its lines to `errors`, and its packets to `out`, as `shown` asks; the end of the lines behind
/// its storing. No sink has failed before; `silenced` tells which of them has then. A sink that fails stops nothing.
pub fn run_workers<R: Threads + Wait + Sync, H: Shelf, S: Spawner, E: Sink, O: Sink>(
    rt: &R,
    alloc: Global,
    jobs: &[Job],
    asked: &[IdList],
    partial: bool,
    wanted: bool,
    shelf: &mut H,
    found: Found,
    spawner: &mut S,
    filter_tags: Tags,
    shown: Shown,
    errors: &mut E,
    out: &mut O,
    silenced: &mut Silenced,
) -> Result<Kept, Refusal<'static>>
    requires few { length jobs.now ≤ 64 }
    requires free { length (kinds_of found) < most_runs }
    requires room { HasRoom found }
    requires fits { FitsWhereTold (kinds_of found) (H.seen shelf.old).told }
    requires speaks { (silenced.old.errors ≡ false) × (silenced.old.out ≡ false) }
    ensures step { GivesSums filter_tags (λ rows. (site : Seen Files) (input printed : Seen (List ℕ)) → Works partial (length (kinds_of found)) (record { jobs = jobs.now; asked = asked.now })
        (work (H.seen shelf.old) site (S.seen spawner.old) input printed)
        (work (H.seen shelf.new) site (S.seen spawner.new) input printed)
        rows) (kept_in result) }
    ensures calls { OnOk result (IsCovered (length (kinds_of found)) (H.seen shelf.old).told → StoresByFew 18 partial (H.seen shelf.old).told (H.seen shelf.new).told (H.clock shelf.old) (H.clock shelf.new)) }
    ensures found { IfOk result (λ kept. IfSome kept.found (λ runs. kinds_of runs ≡ kinds_of found ++ partial ∷ [])) }
    ensures fits { IfOk result (λ kept. IfSome kept.found (λ runs. FitsWhereTold (kinds_of runs) (H.seen shelf.new).told)) }
    ensures code { IfErr result (λ refusal. refusal_exit_status refusal ≡ 3 → ⊥) }
    ensures some { SaysSome shown partial (H.seen shelf.new).told (sinks (E.seen errors.old) (O.seen out.old)) (sinks (E.seen errors.new) (O.seen out.new)) silenced.new }
    ensures whole { OnOk result (SaysRun shown partial (H.seen shelf.new).told (sinks (E.seen errors.old) (O.seen out.old)) (sinks (E.seen errors.new) (O.seen out.new)) silenced.new) }
{
    start_run(shelf)?;
    let lanes = start_lanes(alloc, spawner, jobs, asked)?;
    let Ran {
        mut found,
        summary,
        end,
    } = record_workers(
        rt,
        alloc,
        lanes,
        shelf,
        found,
        partial,
        filter_tags,
        shown,
        errors,
        out,
        silenced,
    )?;
    keep_run(shelf, &mut found, partial)?;
    say_end(&end, errors, silenced);
    let runs = copy_where(alloc, wanted, &found);
    match refresh_caches(alloc, shelf, found, &summary) {
        Ok(()) => Ok(Kept {
            found: runs,
            summary,
        }),
        Err(fault) => Err(Refusal::Refresh(fault)),
    }
}

// The runs that were found, where they are wanted and there is memory for them.
fn copy_where(alloc: Global, wanted: bool, found: &Found) -> Option<Found>
    ensures { IfSome result (λ runs. kinds_of runs ≡ kinds_of found.now) }
{
    if !wanted {
        return None;
    }
    match found.copy(alloc) {
        Ok(runs) => Some(runs),
        Err(_) => None,
    }
}

// Records the lanes of the workers behind the draft that was begun, and gives the runs that there are, and what is kept of
// the rows of what was recorded. It is said as `shown` asks, but for the end of the lines.
fn record_workers<R: Threads + Wait + Sync, C: Child + Send + Drop, H: Shelf, E: Sink, O: Sink>(
    rt: &R,
    alloc: Global,
    lanes: Vec<Lane<C>>,
    shelf: &mut H,
    found: Found,
    partial: bool,
    filter_tags: Tags,
    shown: Shown,
    errors: &mut E,
    out: &mut O,
    silenced: &mut Silenced,
) -> Result<Ran, LanesRefusal>
    requires numbers { map lane_number lanes.items ≡ range_with_len 0 (length lanes.items) }
    requires few { length lanes.items ≤ 64 }
    requires free { length (kinds_of found) < most_runs }
    requires room { HasRoom found }
    requires fits { FitsWhereTold (kinds_of found) (H.seen shelf.old).told }
    requires draft { HasDraft (H.seen shelf.old).told }
    ensures step { GivesSums filter_tags (RecordsLanes (map (rest C.seen) lanes.items) (H.seen shelf.old) (H.seen shelf.new)) (summary_in result) }
    ensures calls { OnOk result (AddsByFew (H.seen shelf.old).told (H.seen shelf.new).told (H.clock shelf.old) (H.clock shelf.new)) }
    ensures draft { OnOk result (HasDraft (H.seen shelf.new).told) }
    ensures fits { IfOk result (λ ran. FitsWhereTold (kinds_of ran.found) (H.seen shelf.new).told) }
    ensures kinds { IfOk result (λ ran. kinds_of ran.found ≡ kinds_of found) }
    ensures room { IfOk result (λ ran. HasRoom ran.found) }
    ensures aloud { IfOk result (λ ran. WritesAloud shown filter_tags (H.seen shelf.old).told (H.seen shelf.new).told (sinks (E.seen errors.old) (O.seen out.old)) (sinks (E.seen errors.new) (O.seen out.new)) silenced.new ran.end.items ran.summary) }
    ensures some { IfErr result (λ _. SaysPart shown (sinks (E.seen errors.old) (O.seen out.old)) (sinks (E.seen errors.new) (O.seen out.new)) silenced.new) }
{
    let (found, said, recorded) = record_lanes(
        rt,
        alloc,
        lanes,
        shelf,
        found,
        partial,
        filter_tags,
        shown,
        errors,
        out,
    );
    let Said {
        end,
        errors_failed,
        out_failed,
    } = said;
    silenced.errors = errors_failed;
    silenced.out = out_failed;
    match recorded {
        Ok(summary) => Ok(Ran {
            found,
            summary,
            end,
        }),
        Err(refusal) => Err(refusal),
    }
}
