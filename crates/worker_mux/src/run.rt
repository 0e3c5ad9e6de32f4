//! All lanes, each on a thread of its own, recorded by the caller.

ghost use Rattle.std.specs.Prelude.{◌≡◌, ◌≤◌, ◌<◌, [], None, false, length, map, IfOk, IsOk, OnOk};
ghost use Rattle.std.specs.List.{AllByRecursion, range_with_len};
ghost use Rattle.std.specs.VecDeque.{deque_capacity};
ghost use Rattle.edge_io.specs.Steps.{Goes};
ghost use Rattle.run_shelf.specs.Images.{PassesOld};
ghost use Rattle.run_shelf.specs.Stores.{recorder_kinds, recorder_partial, recorder_fault, RecordsUnlessBroken};
ghost use Rattle.worker_lane.specs.Lanes.{rest, lane_number};
ghost use Rattle.worker_mux.specs.Callers.{IsNewTaker, KeepsTape, IsOpen, HeardOrKept, WasHanded, tape};
ghost use Rattle.worker_mux.specs.Passes.{number_of, lane_count, IsFresh};
ghost use Rattle.worker_mux.specs.Runs.{share, first_share, IsRunBegun, IsRunRecorded, AddsMerge, HearsMerge};
ghost use Rattle.worker_mux.specs.Works.{IsReady};

use crate::belt::Belt;
use crate::belt_passes::{LanePass, Taker};
use crate::belt_wait::BeltWait;
use crate::caller::Caller;
use crate::lane_threads::run_level;
use crate::listener::{Deaf, Listener};
use crate::run_appender::RunAppender;
use crate::work::{Shared, Work};
use edge_io::{Child, Shelf};
use run_shelf::{Recorder, ShelfCall};
use std::alloc::Global;
use std::collections::VecDeque;
use std::snapshot::Snapshot;
use std::sync::Wait;
use std::sync::atomic::AtomicBool;
use std::thread;
use std::thread::{Scope, Threads};
use sub_number::NoMemory;
use worker_lane::Lane;

// How many lots the belt has room for.
const ROOM: usize = 16;

/// Reads all lanes to their ends, each on a thread of its own, or on the caller's where none can be started, and adds their
/// packets to the run as they come. It may wait for the children. Lane 0 stands first, then lane 1, and so on; there are at
/// most 64.
///
/// At `Ok`, where no call of the folder has failed, the run has grown by the packets of events, each under one of the
/// lanes; of each lane whose child tells they are all its events, once and in order. Where a call of the folder failed,
/// the recorder is closed, nothing more is added, and the children are stopped and waited for (no clause says so), also
/// where they would print for ever.
///
/// With `NoMemory` all children were stopped and waited for (no clause says so), and what was added are packets of some
/// events. It does not come where there is no lane, nor where a call of the folder failed.
///
/// A child is stopped by the thread that reads it, as soon as one read of it has come back: one that is silent is
/// waited for until it prints or ends.
pub fn run_lanes<R: Threads + Wait + Sync, C: Child + Send + Drop, H: Shelf>(
    rt: &R,
    alloc: Global,
    lanes: Vec<Lane<C>>,
    recorder: &mut Recorder<'_, H>,
) -> Result<(), NoMemory>
    requires numbers { map lane_number lanes.items ≡ range_with_len 0 (length lanes.items) }
    requires few { length lanes.items ≤ 64 }
    requires fits { RecordsUnlessBroken (recorder_kinds recorder.old) (recorder_fault recorder.old) (H.seen recorder.old.shelf.now).told }
    ensures same_reference { recorder.new.shelf.ghost_name ≡ recorder.old.shelf.ghost_name }
    // What each exit leaves.
    ensures any_moment { Goes (H.seen recorder.old.shelf.now).told (H.seen recorder.new.shelf.now).told PassesOld }
    ensures keeps { KeepsTape (tape (recorder_fault recorder.old) (H.seen recorder.old.shelf.now) (H.clock recorder.old.shelf.now)) (tape (recorder_fault recorder.new) (H.seen recorder.new.shelf.now) (H.clock recorder.new.shelf.now)) }
    ensures fits { RecordsUnlessBroken (recorder_kinds recorder.new) (recorder_fault recorder.new) (H.seen recorder.new.shelf.now).told }
    ensures kinds { recorder_kinds recorder.new ≡ recorder_kinds recorder.old }
    ensures partial { recorder_partial recorder.new ≡ recorder_partial recorder.old }
    // What was added.
    ensures no_lane { lanes.items ≡ [] → IsOk result }
    ensures merged { OnOk result (recorder_fault recorder.new ≡ None → AddsMerge (map (rest C.seen) lanes.items) (H.seen recorder.old.shelf.now).told (H.seen recorder.new.shelf.now).told) }
{
    let (_, done) = run_lanes_heard(rt, alloc, lanes, recorder, Deaf);
    done
}

/// The same for a listener that has heard nothing: it hears what is added, in pieces of whole packets, and comes back at
/// each exit.
///
/// At `Ok`, where no call of the folder has failed, it has heard all that was added, and the folder was called at most once
/// for each packet. At each exit it has heard the pieces that were added, and no others, or wanted memory at the last one: a
/// piece that a call failed to add is not handed on. Where it wants memory, all children are stopped, as for a lane's want.
pub fn run_lanes_heard<
    R: Threads + Wait + Sync,
    C: Child + Send + Drop,
    H: Shelf,
    L: Listener + Drop,
>(
    rt: &R,
    alloc: Global,
    lanes: Vec<Lane<C>>,
    recorder: &mut Recorder<'_, H>,
    listener: L,
) -> (L, Result<(), NoMemory>)
    requires numbers { map lane_number lanes.items ≡ range_with_len 0 (length lanes.items) }
    requires few { length lanes.items ≤ 64 }
    requires fits { RecordsUnlessBroken (recorder_kinds recorder.old) (recorder_fault recorder.old) (H.seen recorder.old.shelf.now).told }
    requires nothing { L.heard listener listener [] }
    ensures same_reference { recorder.new.shelf.ghost_name ≡ recorder.old.shelf.ghost_name }
    // What each exit leaves.
    ensures any_moment { Goes (H.seen recorder.old.shelf.now).told (H.seen recorder.new.shelf.now).told PassesOld }
    ensures keeps { KeepsTape (tape (recorder_fault recorder.old) (H.seen recorder.old.shelf.now) (H.clock recorder.old.shelf.now)) (tape (recorder_fault recorder.new) (H.seen recorder.new.shelf.now) (H.clock recorder.new.shelf.now)) }
    ensures fits { RecordsUnlessBroken (recorder_kinds recorder.new) (recorder_fault recorder.new) (H.seen recorder.new.shelf.now).told }
    ensures kinds { recorder_kinds recorder.new ≡ recorder_kinds recorder.old }
    ensures partial { recorder_partial recorder.new ≡ recorder_partial recorder.old }
    // What was added, and heard.
    ensures no_lane { lanes.items ≡ [] → IsOk result.1 }
    ensures merged { OnOk result.1 (recorder_fault recorder.new ≡ None → HearsMerge (L.heard listener result.0) (map (rest C.seen) lanes.items) (tape (recorder_fault recorder.old) (H.seen recorder.old.shelf.now) (H.clock recorder.old.shelf.now)) (tape (recorder_fault recorder.new) (H.seen recorder.new.shelf.now) (H.clock recorder.new.shelf.now))) }
    ensures handed { WasHanded (HeardOrKept L.heard L.keeps listener result.0) (H.seen recorder.old.shelf.now).told (tape (recorder_fault recorder.new) (H.seen recorder.new.shelf.now) (H.clock recorder.new.shelf.now)) }
{
    if lanes.len() == 0 {
        return (listener, Ok(()));
    }
    let Ok(stage) = Stage::new(alloc, lanes.len()) else {
        give_up_all(lanes);
        return (listener, Err(NoMemory));
    };
    let Stage {
        belt,
        taker,
        passes,
        works,
        flags,
    } = stage;
    let works = begin(&belt, lanes, passes, works);
    let shared = Shared {
        belt,
        gate: BeltWait::new(ROOM),
        stop: AtomicBool::new(false),
    };
    let (listener, fault, done) = read_all(
        rt,
        &shared,
        flags.as_slice(),
        works,
        taker,
        listener,
        &mut *recorder.shelf,
        recorder.recording.fault,
    );
    recorder.recording.fault = fault;
    (listener, done)
}

// All the memory that a run takes, before a lane begins.
#[derive(Drop)]
struct Stage<C> {
    belt: Belt,
    taker: Taker,
    passes: Vec<LanePass>,
    works: VecDeque<Work<C>>,
    flags: Vec<AtomicBool>,
}

impl<C: Drop> Stage<C> {
    fn new(alloc: Global, count: usize) -> Result<Stage<C>, NoMemory>
        requires count { (0 < count) × (count ≤ 64) }
        ensures taker { IfOk result (λ s. IsNewTaker s.belt s.taker × (lane_count s.taker ≡ count)) }
        ensures numbers { IfOk result (λ s. map number_of s.passes.items ≡ range_with_len 0 count) }
        ensures fresh { IfOk result (λ s. AllByRecursion (IsFresh s.belt) s.passes.items) }
        ensures works { IfOk result (λ s. (s.works.items ≡ []) × (count ≤ deque_capacity s.works)) }
        ensures flags { IfOk result (λ s. length s.flags.items ≡ count) }
    {
        let (belt, taker, passes) = Belt::new(alloc, count as u32, ROOM)?;
        let works = VecDeque::with_capacity(alloc, count)?;
        let flags = unset_flags(alloc, count)?;
        Ok(Stage {
            belt,
            taker,
            passes,
            works,
            flags,
        })
    }
}

// Stops all children.
fn give_up_all<C: Child + Drop>(lanes: Vec<Lane<C>>) {
    for lane in lanes {
        lane.give_up();
    }
}

// The work of each lane, in order.
fn begin<C: Child + Drop>(
    belt: &Belt,
    lanes: Vec<Lane<C>>,
    passes: Vec<LanePass>,
    mut works: VecDeque<Work<C>>,
) -> VecDeque<Work<C>>
    requires numbers { map lane_number lanes.items ≡ map number_of passes.items }
    requires fresh { AllByRecursion (IsFresh belt.now) passes.items }
    requires room { (works.items ≡ []) × (length lanes.items ≤ deque_capacity works) }
    ensures ready { AllByRecursion (IsReady belt.now) result.items }
    ensures shares { map (share C.seen) result.items ≡ map (first_share C.seen) lanes.items }
{
    let _ = belt;
    let mut lanes = lanes.into_iter();
    let mut passes = passes.into_iter();
    while let Some(lane) = lanes.next() {
        let Some(pass) = passes.next() else {
            unreachable!()
        };
        works.push_back_reserved(Work {
            lane,
            pass,
            kept: None,
        });
    }
    works
}

// As many flags, none of which is set.
fn unset_flags(alloc: Global, count: usize) -> Result<Vec<AtomicBool>, NoMemory>
    ensures { IfOk result (λ flags. length flags.items ≡ count) }
{
    let mut flags = Vec::with_capacity(alloc, count)?;
    while flags.len() < count {
        flags.push(AtomicBool::new(false))?;
    }
    Ok(flags)
}

// Reads all works to their ends: the listener, the call of the folder that failed, and whether memory ran out.
fn read_all<R: Threads + Wait + Sync, C: Child + Send + Drop, H: Shelf, L: Listener + Drop>(
    rt: &R,
    shared: &Shared,
    flags: &[AtomicBool],
    works: VecDeque<Work<C>>,
    taker: Taker,
    listener: L,
    shelf: &mut H,
    fault: Option<ShelfCall>,
) -> (L, Option<ShelfCall>, Result<(), NoMemory>)
    requires taker { IsNewTaker shared.now.belt taker }
    requires works { AllByRecursion (IsReady shared.now.belt) works.items }
    requires flags { length works.items ≤ length flags.now }
    requires is_open { IsOpen (tape fault (H.seen shelf.old) (H.clock shelf.old)) }
    requires nothing { L.heard listener listener [] }
    ensures keeps { KeepsTape (tape fault (H.seen shelf.old) (H.clock shelf.old)) (tape result.1 (H.seen shelf.new) (H.clock shelf.new)) }
    ensures recorded { OnOk result.2 (result.1 ≡ None → IsRunRecorded C.seen (L.heard listener result.0) (lane_count taker) works.items (tape fault (H.seen shelf.old) (H.clock shelf.old)) (tape result.1 (H.seen shelf.new) (H.clock shelf.new))) }
    ensures handed { WasHanded (HeardOrKept L.heard L.keeps listener result.0) (H.seen shelf.old).told (tape result.1 (H.seen shelf.new) (H.clock shelf.new)) }
{
    in_scope(rt, shared, flags, works, taker, listener, shelf, fault)
}

// The same. What it asks is one fact, so that the scope's closure asks one.
fn in_scope<R: Threads + Wait + Sync, C: Child + Send + Drop, H: Shelf, L: Listener + Drop>(
    rt: &R,
    shared: &Shared,
    flags: &[AtomicBool],
    works: VecDeque<Work<C>>,
    taker: Taker,
    listener: L,
    shelf: &mut H,
    fault: Option<ShelfCall>,
) -> (L, Option<ShelfCall>, Result<(), NoMemory>)
    requires begun { IsRunBegun shared.now.belt taker works.items (length flags.now) (tape fault (H.seen shelf.old) (H.clock shelf.old)) × L.heard listener listener [] }
    ensures keeps { KeepsTape (tape fault (H.seen shelf.old) (H.clock shelf.old)) (tape result.1 (H.seen shelf.new) (H.clock shelf.new)) }
    ensures recorded { OnOk result.2 (result.1 ≡ None → IsRunRecorded C.seen (L.heard listener result.0) (lane_count taker) works.items (tape fault (H.seen shelf.old) (H.clock shelf.old)) (tape result.1 (H.seen shelf.new) (H.clock shelf.new))) }
    ensures handed { WasHanded (HeardOrKept L.heard L.keeps listener result.0) (H.seen shelf.old).told (tape result.1 (H.seen shelf.new) (H.clock shelf.new)) }
{
    let (shelf, listener, fault, done) = thread::scope(
        thread::scope_env(),
        rt,
        move |scope| -> (&mut H, L, Option<ShelfCall>, Result<(), NoMemory>)
            requires begun { IsRunBegun shared.now.belt taker works.items (length flags.now) (tape fault (H.seen shelf.now) (H.clock shelf.now)) × L.heard listener listener [] }
            ensures same { result.0.ghost_name ≡ shelf.entry.ghost_name }
            ensures keeps { KeepsTape (tape fault (H.seen shelf.entry.now) (H.clock shelf.entry.now)) (tape result.2 (H.seen result.0.now) (H.clock result.0.now)) }
            ensures recorded { OnOk result.3 (result.2 ≡ None → IsRunRecorded C.seen (L.heard listener result.1) (lane_count taker) works.items (tape fault (H.seen shelf.entry.now) (H.clock shelf.entry.now)) (tape result.2 (H.seen result.0.now) (H.clock result.0.now))) }
            ensures handed { WasHanded (HeardOrKept L.heard L.keeps listener result.1) (H.seen shelf.entry.now).told (tape result.2 (H.seen result.0.now) (H.clock result.0.now)) }
        {
            let mut pen = RunAppender { shelf, fault };
            let (listener, done) = all_levels(
                rt, scope, shared, flags, works, taker, listener, &mut pen,
            );
            let RunAppender { shelf, fault } = pen;
            (shelf, listener, fault, done)
        },
    );
    take_back(shelf);
    (listener, fault, done)
}

// All levels, and then what is left on the belt: the listener, and whether memory ran out.
fn all_levels<
    's,
    R: Threads + Wait + Sync,
    C: Child + Send + Drop + 's,
    H: Shelf,
    L: Listener + Drop,
    E,
>(
    rt: &'s R,
    scope: &Scope<'s, E>,
    shared: &'s Shared,
    flags: &'s [AtomicBool],
    mut works: VecDeque<Work<C>>,
    taker: Taker,
    listener: L,
    pen: &mut RunAppender<'_, H>,
) -> (L, Result<(), NoMemory>)
    requires begun { IsRunBegun shared.now.belt taker works.items (length flags.now) (tape pen.old.fault (H.seen pen.old.shelf.now) (H.clock pen.old.shelf.now)) × L.heard listener listener [] }
    ensures loan { pen.new.shelf.ghost_name ≡ pen.old.shelf.ghost_name }
    ensures keeps { KeepsTape (tape pen.old.fault (H.seen pen.old.shelf.now) (H.clock pen.old.shelf.now)) (tape pen.new.fault (H.seen pen.new.shelf.now) (H.clock pen.new.shelf.now)) }
    ensures recorded { OnOk result.1 (pen.new.fault ≡ None → IsRunRecorded C.seen (L.heard listener result.0) (lane_count taker) works.items (tape pen.old.fault (H.seen pen.old.shelf.now) (H.clock pen.old.shelf.now)) (tape pen.new.fault (H.seen pen.new.shelf.now) (H.clock pen.new.shelf.now))) }
    ensures handed { WasHanded (HeardOrKept L.heard L.keeps listener result.0) (H.seen pen.old.shelf.now).told (tape pen.new.fault (H.seen pen.new.shelf.now) (H.clock pen.new.shelf.now)) }
{
    let mut caller = Caller {
        taker,
        begun: Snapshot::of(&listener),
        listener,
        running: works.len(),
        stopped: false,
    };
    run_level(rt, scope, shared, flags, &mut works, &mut caller, pen);
    caller.take_rest(rt, shared, pen);
    let Caller {
        taker: _,
        begun: _,
        listener,
        running: _,
        stopped,
    } = caller;
    (listener, answer_of(stopped, pen.fault))
}

// Lanes that were stopped, and for no fault of the folder, were stopped for want of memory.
fn answer_of(stopped: bool, fault: Option<ShelfCall>) -> Result<(), NoMemory>
    ensures { OnOk result (fault ≡ None → stopped ≡ false) }
{
    if stopped && fault.is_none() {
        Err(NoMemory)
    } else {
        Ok(())
    }
}

// This use of the returned reference ties it to the parameter that lent it.
fn take_back<T>(x: &mut T)
    ensures { x.new ≡ x.old }
{}
