//! Records the lanes of a run behind the draft that was begun, folds what is recorded, and says it.

ghost use Rattle.std.specs.Prelude.{◌≡◌, ◌≤◌, ◌<◌, length, map, IfOk, IfErr, OnOk};
ghost use Rattle.std.specs.List.{range_with_len};
ghost use Rattle.edge_io.specs.Steps.{HasDraft};
ghost use Rattle.run_shelf.specs.Holds.{kinds_of, HasRoom, FitsWhereTold};
ghost use Rattle.run_shelf.specs.Repository.{most_runs};
ghost use Rattle.suite_run.specs.Aloud.{AddsAloud, BeganAloud, sinks};
ghost use Rattle.suite_run.specs.Closing.{AnswersLanes, ClosesHearing};
ghost use Rattle.suite_run.specs.Recording.{AddsByFew, RecordsLanes};
ghost use Rattle.suite_run.specs.Summed.{GivesSums};
ghost use Rattle.worker_lane.specs.Lanes.{rest, lane_number};

use crate::lines::{Closed, Hearing};
use crate::run_listener::{RunListener, Said, Shown};
use edge_io::{Child, Shelf, Sink};
use outcome_fold::Summary;
use packet_codec::Tags;
use run_shelf::{Found, Recorder, Recording, ShelfCall};
use std::alloc::Global;
use std::sync::Wait;
use std::thread::Threads;
use sub_number::NoMemory;
use worker_lane::Lane;
use worker_mux::run_lanes_heard;

/// Why the lanes of a run were not recorded whole.
#[derive(Clone, Copy, Debug, PartialEq, Eq)]
pub enum LanesRefusal {
    /// This call of the repository's folder failed.
    Shelf(ShelfCall),
    /// There is not enough memory.
    NoMemory,
}

/// Reads all lanes to their ends, each on a thread of its own, or on the caller's where none can be started, and adds their
/// packets behind the draft that was begun, as they come. It may wait for the children. It hands back what was found, and
/// gives what is kept of the rows of what was added, where these tags filter: the thread that adds a packet folds its event,
/// so that the run need not be read again. At `Ok` it has called the folder at most once for each packet.
///
/// The same thread says, once a lot was added, what `shown` asks: the lines of the tests that complete with it to `errors`, in
/// one write, and its packets to `out`. Where one of these fails it gets nothing more, and all else is as without it. The
/// lines' end is not said yet, since the run is not stored: it comes back.
///
/// `Shelf` comes exactly where a call of the folder failed, also where memory ran out too. Then, and with `NoMemory`, all
/// children were stopped and waited for (no clause says so): a child is stopped by the thread that reads it, as soon as one
/// read of it has come back, so that one that is silent is waited for until it prints or ends.
pub fn record_lanes<R: Threads + Wait + Sync, C: Child + Send + Drop, H: Shelf, E: Sink, O: Sink>(
    rt: &R,
    alloc: Global,
    lanes: Vec<Lane<C>>,
    shelf: &mut H,
    found: Found,
    partial: bool,
    filter_tags: Tags,
    shown: Shown,
    errors: &mut E,
    out: &mut O,
) -> (Found, Said, Result<Summary, LanesRefusal>)
    requires numbers { map lane_number lanes.items ≡ range_with_len 0 (length lanes.items) }
    requires few { length lanes.items ≤ 64 }
    requires free { length (kinds_of found) < most_runs }
    requires room { HasRoom found }
    requires fits { FitsWhereTold (kinds_of found) (H.seen shelf.old).told }
    requires draft { HasDraft (H.seen shelf.old).told }
    ensures step { GivesSums filter_tags (RecordsLanes (map (rest C.seen) lanes.items) (H.seen shelf.old) (H.seen shelf.new)) result.2 }
    ensures calls { OnOk result.2 (AddsByFew (H.seen shelf.old).told (H.seen shelf.new).told (H.clock shelf.old) (H.clock shelf.new)) }
    ensures draft { OnOk result.2 (HasDraft (H.seen shelf.new).told) }
    ensures fits { OnOk result.2 (FitsWhereTold (kinds_of result.0) (H.seen shelf.new).told) }
    ensures kinds { kinds_of result.0 ≡ kinds_of found }
    ensures room { HasRoom result.0 }
    // What was said: of the very events that were added, and at each other exit of those that had been.
    ensures aloud { IfOk result.2 (AddsAloud shown filter_tags (map (rest C.seen) lanes.items) (H.seen shelf.old).told (H.seen shelf.new).told (sinks (E.seen errors.old) (O.seen out.old)) (sinks (E.seen errors.new) (O.seen out.new)) result.1) }
    ensures begun { IfErr result.2 (λ _. BeganAloud shown (H.seen shelf.old).told (H.seen shelf.new).told (sinks (E.seen errors.old) (O.seen out.old)) (sinks (E.seen errors.new) (O.seen out.new)) result.1) }
{
    let recording = Recording {
        found,
        partial,
        fault: None,
    };
    let mut recorder = Recorder { shelf, recording };
    let ear = RunListener {
        hearing: Hearing::new(alloc, filter_tags, shown.live),
        echo: shown.echo,
        errors,
        errors_failed: false,
        out,
        out_failed: false,
    };
    let (ear, done) = run_lanes_heard(rt, alloc, lanes, &mut recorder, ear);
    let Recorder { shelf, recording } = recorder;
    hand_back(shelf);
    let Recording {
        found,
        partial: _,
        fault,
    } = recording;
    let RunListener {
        hearing,
        echo: _,
        errors,
        errors_failed,
        out,
        out_failed,
    } = ear;
    hand_back_sink(errors);
    hand_back_sink(out);
    let (end, answer) = answer_of(alloc, fault, done, hearing);
    let said = Said {
        end,
        errors_failed,
        out_failed,
    };
    (found, said, answer)
}

// The folder is with its lender again.
fn hand_back<H: Shelf>(shelf: &mut H)
    ensures { shelf.new ≡ shelf.old }
{}

// So is the sink.
fn hand_back_sink<E: Sink>(sink: &mut E)
    ensures { sink.new ≡ sink.old }
{}

// A call of the folder that failed decides; then want of memory. Else what was heard is closed, and its end comes back.
fn answer_of(
    alloc: Global,
    fault: Option<ShelfCall>,
    done: Result<(), NoMemory>,
    hearing: Hearing,
) -> (Vec<u8>, Result<Summary, LanesRefusal>)
    ensures { AnswersLanes fault done hearing result.0.items result.1 }
{
    match (fault, done) {
        (Some(call), _) => (Vec::new(alloc), Err(LanesRefusal::Shelf(call))),
        (None, Err(NoMemory)) => (Vec::new(alloc), Err(LanesRefusal::NoMemory)),
        (None, Ok(())) => closed(alloc, hearing),
    }
}

// What was heard, closed.
fn closed(alloc: Global, hearing: Hearing) -> (Vec<u8>, Result<Summary, LanesRefusal>)
    ensures { ClosesHearing hearing result.0.items result.1 }
{
    match hearing.close() {
        Ok(Closed { summary, end }) => (end, Ok(summary)),
        Err(NoMemory) => (Vec::new(alloc), Err(LanesRefusal::NoMemory)),
    }
}
