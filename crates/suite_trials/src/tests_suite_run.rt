//! Runs of children in memory, from their start to the run that is kept.

ghost use Rattle.std.specs.Prelude.{◌≡◌, ◌≤◌, ◌<◌, length, map, None, IfSome};
ghost use Rattle.std.specs.List.{range_with_len};
ghost use Rattle.edge_io.specs.Steps.{HasDraft};
ghost use Rattle.run_shelf.specs.Holds.{kinds_of, HasRoom, FitsWhereTold};
ghost use Rattle.run_shelf.specs.Repository.{most_runs};
ghost use Rattle.run_shelf.specs.Stores.{recorder_kinds, recorder_fault, store_kinds, store_fault, FitsUnlessBroken, RecordsUnlessBroken};
ghost use Rattle.worker_lane.specs.Lanes.{lane_number};

use crate::many_jobs::jobs;
use edge_io::{Child, Finish, Job, ListSink, MemShelf, Plan, PlanSpawner, Shelf};
use live_text::Live;
use packet_codec::Tags;
use run_shelf::{Found, Recorder, Recording, ShelfCall, Store, finish_run, read_run};
use std::alloc::Global;
use std::process::Abort;
use std::sync::Wait;
use std::test::Fail;
use std::thread::Threads;
use sub_number::Bytes;
use suite_run::{Echo, LanesRefusal, Said, Shown, StartRefusal, record_lanes, start_lanes};
use worker_lane::Lane;

// `foo` is in progress, fails, and passes, each without a route.
const BEGUN: &[u8] = b"\xb3\x29\x02\x0c\x03foo\x8e\xc1\x2d\xb5";

const FAILED: &[u8] = b"\xb3\x29\x06\x0c\x03foo\x15\x50\x6f\xa3";

const PASSED: &[u8] = b"\xb3\x29\x03\x0c\x03foo\x45\x9d\xfe\x10";

const BEGUN_UNDER_0: &[u8] = b"\xb3\x2d\x02\x0e\x03foo\x01\x30\x68\x05\xdb\x7e";

const STATUS_2_UNDER_0: &[u8] =
    b"\xb3\x2d\x66\x40\x4d\x12process-returncode\x17text/plain;charset=utf8\x09traceback\x0creturncode 2\x01\x30\xf4\xd0\xd6\x38";

const FAILED_UNDER_0: &[u8] = b"\xb3\x2d\x06\x0e\x03foo\x01\x30\xec\x4f\xd5\x84";

const PASSED_UNDER_1: &[u8] = b"\xb3\x2d\x03\x0e\x03foo\x01\x31\xd3\xa8\xeb\x76";

const PASSED_UNDER_2: &[u8] = b"\xb3\x2d\x03\x0e\x03foo\x01\x32\x4a\xa1\xba\xcc";

// Five packets.
const FIVE: &[u8] =
    b"\xb3\x29\x03\x0c\x03foo\x45\x9d\xfe\x10\xb3\x29\x03\x0c\x03foo\x45\x9d\xfe\x10\xb3\x29\x03\x0c\x03foo\x45\x9d\xfe\x10\xb3\x29\x03\x0c\x03foo\x45\x9d\xfe\x10\xb3\x29\x03\x0c\x03foo\x45\x9d\xfe\x10";

fn plan(alloc: Global, output: &[u8], finish: Finish) -> Option<Plan> {
    let output = Bytes::new(alloc, output).ok()?;
    Some(Plan {
        output,
        piece: 5,
        finish,
    })
}

// What children print, and how they end.
type Planned = (&'static [u8], Finish);

fn push_plans(alloc: Global, plans: &mut Vec<Plan>, all: &[Planned]) -> Option<()> {
    for (output, finish) in all {
        let plan = plan(alloc, output, *finish)?;
        plans.push(plan).ok()?;
    }
    Some(())
}

fn plans(alloc: Global, all: &[Planned]) -> Option<Vec<Plan>> {
    let mut plans = Vec::new(alloc);
    push_plans(alloc, &mut plans, all)?;
    Some(plans)
}

// It starts these children. These starts fail.
fn spawner(alloc: Global, all: &[Planned], fails: &[u64]) -> Result<PlanSpawner, Fail> {
    let plans = plans(alloc, all).ok_or("no memory")?;
    Ok(PlanSpawner::new(alloc, plans, fails.to_vec(alloc)?))
}

// Where a run is said: what is shown, the two sinks, and what became of it.
#[derive(Drop)]
struct Stage {
    shown: Shown,
    errors: ListSink,
    out: ListSink,
    said: Said,
}

// These writes to the errors' sink fail, and none to the output.
fn new_stage(alloc: Global, live: Live, echo: Echo, fails: &[u64]) -> Result<Stage, Fail> {
    Ok(Stage {
        shown: Shown { live, echo },
        errors: ListSink::new(alloc, fails.to_vec(alloc)?),
        out: ListSink::new(alloc, Vec::new(alloc)),
        said: Said {
            end: Vec::new(alloc),
            errors_failed: false,
            out_failed: false,
        },
    })
}

fn silent(alloc: Global) -> Result<Stage, Fail> {
    new_stage(alloc, Live::Nothing, Echo::Nothing, &[])
}

// What became of a run of children.
#[derive(Clone, Copy, Debug, PartialEq, Eq)]
enum Outcome {
    // It was kept, so many of its bytes fit into the buffer, and so many of its rows count.
    Kept(usize, u64),
    NotStarted(StartRefusal),
    NotRecorded(LanesRefusal),
}

// A folder that becomes a repository, opened.
fn open_new<H: Shelf>(alloc: Global, shelf: &mut H) -> Option<Store<'_, H>>
    ensures { IfSome result (λ store. FitsUnlessBroken (store_kinds store) (store_fault store) (H.seen store.shelf.now).told) }
{
    let Ok(()) = Store::init(shelf) else {
        return None;
    };
    let Ok(store) = Store::open(alloc, shelf) else {
        return None;
    };
    Some(store)
}

// A run that is begun in it.
fn begin<H: Shelf>(alloc: Global, shelf: &mut H) -> Option<Recorder<'_, H>>
    ensures fits { IfSome result (λ recorder. RecordsUnlessBroken (recorder_kinds recorder) (recorder_fault recorder) (H.seen recorder.shelf.now).told) }
    ensures unbroken { IfSome result (λ recorder. recorder_fault recorder ≡ None) }
{
    let store = open_new(alloc, shelf)?;
    let Ok(recorder) = store.start_run(alloc, false) else {
        return None;
    };
    Some(recorder)
}

// Keeps the run of so many rows, and reads it back into the buffer.
fn keep<H: Shelf>(
    shelf: &mut H,
    found: &mut Found,
    partial: bool,
    rows: u64,
    buf: &mut [u8],
) -> Option<Outcome>
    requires free { length (kinds_of found.old) < most_runs }
    requires room { HasRoom found.old }
    requires fits { FitsWhereTold (kinds_of found.old) (H.seen shelf.old).told }
    requires draft { HasDraft (H.seen shelf.old).told }
{
    let Ok(number) = finish_run(shelf, found, partial) else {
        return None;
    };
    let size = read_run(shelf, found, number, 0, buf).ok()?;
    Some(Outcome::Kept(size, rows))
}

// Records a run of the lanes.
fn record_started<R: Threads + Wait + Sync, C: Child + Send + Drop, H: Shelf>(
    rt: &R,
    alloc: Global,
    recorder: Recorder<'_, H>,
    lanes: Vec<Lane<C>>,
    stage: &mut Stage,
    buf: &mut [u8],
) -> Option<Outcome>
    requires numbers { map lane_number lanes.items ≡ range_with_len 0 (length lanes.items) }
    requires few { length lanes.items ≤ 64 }
    requires fits { RecordsUnlessBroken (recorder_kinds recorder) (recorder_fault recorder) (H.seen recorder.shelf.now).told }
    requires unbroken { recorder_fault recorder ≡ None }
{
    let Recorder { shelf, recording } = recorder;
    let Recording {
        found,
        partial,
        fault: _,
    } = recording;
    let (mut found, said, answer) = record_lanes(
        rt,
        alloc,
        lanes,
        shelf,
        found,
        partial,
        Tags::new(alloc),
        stage.shown,
        &mut stage.errors,
        &mut stage.out,
    );
    stage.said = said;
    match answer {
        Ok(summary) => keep(shelf, &mut found, partial, summary.counts().total, buf),
        Err(refusal) => Some(Outcome::NotRecorded(refusal)),
    }
}

// Starts the jobs, of which there are three at most, and records a run of their children.
fn record<R: Threads + Wait + Sync>(
    rt: &R,
    alloc: Global,
    shelf: &mut MemShelf,
    spawner: &mut PlanSpawner,
    jobs: &[Job],
    stage: &mut Stage,
    buf: &mut [u8],
) -> Option<Outcome> {
    if jobs.len() > 3 {
        return None;
    }
    let recorder = begin(alloc, shelf)?;
    match start_lanes(alloc, spawner, jobs, &[]) {
        Ok(lanes) => record_started(rt, alloc, recorder, lanes, stage, buf),
        Err(refusal) => Some(Outcome::NotStarted(refusal)),
    }
}

// What becomes of a run of so many jobs that is said.
fn outcome_aloud<R: Threads + Wait + Sync + AllocGlobal>(
    rt: &R,
    shelf: &mut MemShelf,
    spawner: &mut PlanSpawner,
    count: usize,
    stage: &mut Stage,
    buf: &mut [u8],
) -> Result<Outcome, Fail> {
    let alloc = rt.alloc();
    let jobs = jobs(alloc, count).ok_or("no memory")?;
    Ok(record(rt, alloc, shelf, spawner, &jobs, stage, buf).ok_or("no run")?)
}

// What becomes of a run of so many jobs of which nothing is said.
fn outcome_of<R: Threads + Wait + Sync + AllocGlobal>(
    rt: &R,
    shelf: &mut MemShelf,
    spawner: &mut PlanSpawner,
    count: usize,
    buf: &mut [u8],
) -> Result<Outcome, Fail> {
    let mut stage = silent(rt.alloc())?;
    outcome_aloud(rt, shelf, spawner, count, &mut stage, buf)
}

fn is_recorded_with_its_status<R: Threads + Wait + Sync + AllocGlobal + Abort>(
    rt: &R,
    shelf: &mut MemShelf,
    spawner: &mut PlanSpawner,
) -> Result<(), Fail> {
    let mut buf = [0u8; 200];
    let outcome = outcome_of(rt, shelf, spawner, 1, &mut buf)?;
    assert_eq!(rt;
        outcome,
        Outcome::Kept(BEGUN_UNDER_0.len() + STATUS_2_UNDER_0.len(), 2)
    );
    assert!(rt; buf.starts_with(BEGUN_UNDER_0));
    assert!(rt; buf.get(14..).ok_or("size")?.starts_with(STATUS_2_UNDER_0));
    Ok(())
}

#[test]
fn a_worker_that_ends_with_a_status_is_recorded_with_it(rt: HostRuntime) -> Result<(), Fail> {
    let alloc = rt.alloc();
    let mut spawner = spawner(alloc, &[(BEGUN, Finish::Exit(2))], &[])?;
    let mut shelf = MemShelf::new(alloc, Vec::new(alloc));
    is_recorded_with_its_status(&rt, &mut shelf, &mut spawner)
}

// Whether the packet, which has 14 bytes, is one of the first three of the run.
fn is_among(run: &[u8], packet: &[u8]) -> bool {
    for place in [0usize, 14, 28] {
        if let Some(rest) = run.get(place..) {
            if rest.starts_with(packet) {
                return true;
            }
        }
    }
    false
}

const THREE: [Planned; 3] = [
    (FAILED, Finish::Exit(0)),
    (PASSED, Finish::Exit(0)),
    (PASSED, Finish::Exit(0)),
];

fn are_recorded_by_place<R: Threads + Wait + Sync + AllocGlobal + Abort>(
    rt: &R,
    shelf: &mut MemShelf,
    spawner: &mut PlanSpawner,
) -> Result<(), Fail> {
    let mut buf = [0u8; 200];
    let outcome = outcome_of(rt, shelf, spawner, 3, &mut buf)?;
    assert_eq!(rt; outcome, Outcome::Kept(42, 3));
    assert!(rt; is_among(&buf, FAILED_UNDER_0));
    assert!(rt; is_among(&buf, PASSED_UNDER_1));
    assert!(rt; is_among(&buf, PASSED_UNDER_2));
    assert_eq!(rt; spawner.started().len(), 3);
    Ok(())
}

#[test]
fn each_of_three_workers_is_recorded_under_the_lane_of_its_place(
    rt: HostRuntime,
) -> Result<(), Fail> {
    let alloc = rt.alloc();
    let mut spawner = spawner(alloc, &THREE, &[])?;
    let mut shelf = MemShelf::new(alloc, Vec::new(alloc));
    are_recorded_by_place(&rt, &mut shelf, &mut spawner)
}

fn are_not_all_started<R: Threads + Wait + Sync + AllocGlobal + Abort>(
    rt: &R,
    shelf: &mut MemShelf,
    spawner: &mut PlanSpawner,
) -> Result<(), Fail> {
    let mut buf = [0u8; 200];
    let outcome = outcome_of(rt, shelf, spawner, 3, &mut buf)?;
    assert_eq!(rt; outcome, Outcome::NotStarted(StartRefusal::Spawn));
    assert_eq!(rt; spawner.started().len(), 1);
    Ok(())
}

#[test]
fn no_job_is_started_behind_a_start_that_fails(rt: HostRuntime) -> Result<(), Fail> {
    let alloc = rt.alloc();
    let mut spawner = spawner(alloc, &THREE, &[1])?;
    let mut shelf = MemShelf::new(alloc, Vec::new(alloc));
    are_not_all_started(&rt, &mut shelf, &mut spawner)
}

fn is_not_recorded<R: Threads + Wait + Sync + AllocGlobal + Abort>(
    rt: &R,
    shelf: &mut MemShelf,
    spawner: &mut PlanSpawner,
) -> Result<(), Fail> {
    let mut buf = [0u8; 200];
    let outcome = outcome_of(rt, shelf, spawner, 1, &mut buf)?;
    let refusal = LanesRefusal::Shelf(ShelfCall::Append);
    assert_eq!(rt; outcome, Outcome::NotRecorded(refusal));
    Ok(())
}

// A folder whose call of this number fails.
fn failing_shelf(alloc: Global, call: u64) -> Result<MemShelf, Fail> {
    Ok(MemShelf::new(alloc, vec![in alloc; call]?))
}

// The call that fails is the third that adds to the run: seven make the repository, four look at it, and one begins the
// run.
#[test]
fn an_append_that_fails_is_answered(rt: HostRuntime) -> Result<(), Fail> {
    let alloc = rt.alloc();
    let mut spawner = spawner(alloc, &[(FIVE, Finish::Exit(0))], &[])?;
    let mut shelf = failing_shelf(alloc, 14)?;
    is_not_recorded(&rt, &mut shelf, &mut spawner)
}

// `foo` fails and then passes, and `foo` is in progress when its child ends with 2.
const TWICE: &[u8] =
    b"\xb3\x29\x06\x0c\x03foo\x15\x50\x6f\xa3\xb3\x29\x03\x0c\x03foo\x45\x9d\xfe\x10";

// What is shown, which writes fail, and what the sink takes, what is left to say, and whether the sink has failed.
type Spoken = (
    Planned,
    Live,
    &'static [u64],
    &'static [u8],
    &'static [u8],
    bool,
);

const OPENED: Planned = (BEGUN, Finish::Exit(2));

const ENDED: Planned = (TWICE, Finish::Exit(0));

const SPOKEN: [Spoken; 8] = [
    (
        OPENED,
        Live::Tests,
        &[],
        b"{0} process-returncode ... FAILED\n    returncode 2\n",
        b"{0} foo ... UNFINISHED\n",
        false,
    ),
    (OPENED, Live::Dots, &[], b"F", b"F\n", false),
    (OPENED, Live::Nothing, &[0], b"", b"", false),
    (
        OPENED,
        Live::Tests,
        &[0],
        b"",
        b"{0} foo ... UNFINISHED\n",
        true,
    ),
    (
        ENDED,
        Live::Tests,
        &[],
        b"{0} foo ... FAILED\n{0} foo ... ok\n",
        b"",
        false,
    ),
    (ENDED, Live::Tests, &[1], b"{0} foo ... FAILED\n", b"", true),
    (ENDED, Live::Dots, &[], b"F.", b"\n", false),
    (
        ENDED,
        Live::Failures,
        &[],
        b"======================================================================\nFAIL: foo\n----------------------------------------------------------------------\n",
        b"",
        false,
    ),
];

// Whether it was said so.
fn is_said(stage: &Stage, lines: &[u8], end: &[u8], failed: bool) -> bool {
    stage.errors.taken() == lines
        && stage.said.end.as_slice() == end
        && stage.said.errors_failed == failed
        && stage.out.taken().is_empty()
}

fn runs_and_is_said<R: Threads + Wait + Sync + AllocGlobal>(
    rt: &R,
    shelf: &mut MemShelf,
    spawner: &mut PlanSpawner,
    stage: &mut Stage,
    spoken: &Spoken,
) -> Result<bool, Fail> {
    let (_, _, _, lines, end, failed) = *spoken;
    let mut buf = [0u8; 200];
    let outcome = outcome_aloud(rt, shelf, spawner, 1, stage, &mut buf)?;
    let kept = matches!(outcome, Outcome::Kept(_, 2));
    Ok(kept && is_said(stage, lines, end, failed))
}

fn is_spoken<R: Threads + Wait + Sync + AllocGlobal>(
    rt: &R,
    spoken: &Spoken,
) -> Result<bool, Fail> {
    let alloc = rt.alloc();
    let (planned, live, fails, _, _, _) = *spoken;
    let mut stage = new_stage(alloc, live, Echo::Nothing, fails)?;
    let mut spawner = spawner(alloc, &[planned], &[])?;
    let mut shelf = MemShelf::new(alloc, Vec::new(alloc));
    runs_and_is_said(rt, &mut shelf, &mut spawner, &mut stage, spoken)
}

#[test]
fn the_lines_of_a_run_are_said_up_to_its_end(rt: HostRuntime) -> Result<(), Fail> {
    for spoken in &SPOKEN {
        assert!(rt; is_spoken(&rt, spoken)?);
    }
    Ok(())
}

// Whether both lanes' lines were said, and both packets handed on, in one order.
fn is_said_of_two(stage: &Stage, run: &[u8]) -> bool {
    let lines = stage.errors.taken();
    (lines == b"{0} foo ... FAILED\n{1} foo ... ok\n".as_slice()
        || lines == b"{1} foo ... ok\n{0} foo ... FAILED\n".as_slice())
        && stage.out.taken() == run
}

const TWO: [Planned; 2] = [(FAILED, Finish::Exit(0)), (PASSED, Finish::Exit(0))];

fn two_are_said<R: Threads + Wait + Sync + AllocGlobal + Abort>(
    rt: &R,
    shelf: &mut MemShelf,
    spawner: &mut PlanSpawner,
    stage: &mut Stage,
) -> Result<(), Fail> {
    let mut buf = [0u8; 200];
    let outcome = outcome_aloud(rt, shelf, spawner, 2, stage, &mut buf)?;
    assert_eq!(rt; outcome, Outcome::Kept(28, 2));
    assert!(rt; is_said_of_two(stage, buf.get(..28).ok_or("size")?));
    Ok(())
}

#[test]
fn the_lines_and_the_packets_are_those_of_the_stored_run(rt: HostRuntime) -> Result<(), Fail> {
    let alloc = rt.alloc();
    let mut stage = new_stage(alloc, Live::Tests, Echo::Packets, &[])?;
    let mut spawner = spawner(alloc, &TWO, &[])?;
    let mut shelf = MemShelf::new(alloc, Vec::new(alloc));
    two_are_said(&rt, &mut shelf, &mut spawner, &mut stage)
}

fn is_said_up_to_a_fault<R: Threads + Wait + Sync + AllocGlobal + Abort>(
    rt: &R,
    shelf: &mut MemShelf,
    spawner: &mut PlanSpawner,
    stage: &mut Stage,
) -> Result<(), Fail> {
    let mut buf = [0u8; 200];
    let outcome = outcome_aloud(rt, shelf, spawner, 1, stage, &mut buf)?;
    assert_eq!(rt;
        outcome,
        Outcome::NotRecorded(LanesRefusal::Shelf(ShelfCall::Append))
    );
    assert_eq!(rt; stage.errors.taken(), b"{0} foo ... FAILED\n".as_slice());
    assert_eq!(rt; stage.out.taken(), FAILED_UNDER_0);
    Ok(())
}

// The call that fails is the second that adds to the run: its packet is neither said nor handed on.
#[test]
fn a_packet_that_was_not_added_is_not_said(rt: HostRuntime) -> Result<(), Fail> {
    let alloc = rt.alloc();
    let mut stage = new_stage(alloc, Live::Tests, Echo::Packets, &[])?;
    let mut spawner = spawner(alloc, &[ENDED], &[])?;
    let mut shelf = failing_shelf(alloc, 13)?;
    is_said_up_to_a_fault(&rt, &mut shelf, &mut spawner, &mut stage)
}
