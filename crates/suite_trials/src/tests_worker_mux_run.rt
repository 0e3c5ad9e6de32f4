//! Runs of several lanes over children and folders in memory: what is recorded, and what no clause says of threads.

ghost use Rattle.std.specs.Prelude.{◌≡◌, ◌≤◌, ◌<◌, ◌+◌, [], map, length, IfSome};
ghost use Rattle.std.specs.List.{range_with_len};
ghost use Rattle.run_shelf.specs.Stores.{recorder_kinds, recorder_fault, store_kinds, store_fault, FitsUnlessBroken, RecordsUnlessBroken};
ghost use Rattle.worker_lane.specs.Lanes.{lane_number};

use edge_io::{Child, Failed, Finish, MemShelf, NamesFault, PlanChild, Shelf};
use run_shelf::{Recorder, Store};
use std::alloc::Global;
use std::process::Abort;
use std::sync::atomic::{AtomicBool, AtomicU32, Ordering};
use std::sync::{Arc, Wait};
use std::test::Fail;
use std::thread;
use std::thread::Threads;
use sub_number::{Bytes, NoMemory, Text};
use worker_lane::Lane;
use worker_mux::{Listener, run_lanes, run_lanes_heard};

// Two packets without a route, and each of them under lanes 0 to 3.
const FOO_BAR: &[u8] =
    b"\xb3\x29\x03\x0c\x03\x66\x6f\x6f\x45\x9d\xfe\x10\xb3\x29\x03\x0c\x03\x62\x61\x72\xbf\x11\x17\x9b";

const UNDER: [[&[u8]; 2]; 4] = [
    [
        b"\xb3\x2d\x03\x0e\x03\x66\x6f\x6f\x01\x30\xa4\xaf\xdb\xe0",
        b"\xb3\x2d\x03\x0e\x03\x62\x61\x72\x01\x30\xa5\x0e\x3a\x30",
    ],
    [
        b"\xb3\x2d\x03\x0e\x03\x66\x6f\x6f\x01\x31\xd3\xa8\xeb\x76",
        b"\xb3\x2d\x03\x0e\x03\x62\x61\x72\x01\x31\xd2\x09\x0a\xa6",
    ],
    [
        b"\xb3\x2d\x03\x0e\x03\x66\x6f\x6f\x01\x32\x4a\xa1\xba\xcc",
        b"\xb3\x2d\x03\x0e\x03\x62\x61\x72\x01\x32\x4b\x00\x5b\x1c",
    ],
    [
        b"\xb3\x2d\x03\x0e\x03\x66\x6f\x6f\x01\x33\x3d\xa6\x8a\x5a",
        b"\xb3\x2d\x03\x0e\x03\x62\x61\x72\x01\x33\x3c\x07\x6b\x8a",
    ],
];

const FAULT_UNDER_0: &[u8] =
    b"\xb3\x2df\x40\x4b\x12process\x2dreturncode\x17text/plain;charset=utf\x38\x09traceback\x0aread\x20fault\x01\x30g\xa6\xc6j";

// One lane more.
#[tactic(auto, using(worker_mux::proofs::Lists::numbers_push))]
fn add_lane<C: Child + Drop>(alloc: Global, lanes: &mut Vec<Lane<C>>, child: C) -> Option<()>
    requires few { length lanes.old.items < 64 }
    requires numbers { map lane_number lanes.old.items ≡ range_with_len 0 (length lanes.old.items) }
    ensures numbers { IfSome result (λ done. map lane_number lanes.new.items ≡ range_with_len 0 (length lanes.new.items)) }
    ensures one_more { IfSome result (λ done. length lanes.new.items ≡ length lanes.old.items + 1) }
{
    let number = lanes.len() as u32;
    let lane = Lane::new(alloc, number, child, &[]).ok()?;
    lanes.push(lane).ok()?;
    Some(())
}

// Just this lane.
fn one_lane<C: Child + Drop>(alloc: Global, child: C) -> Option<Vec<Lane<C>>>
    ensures numbers { IfSome result (λ lanes. map lane_number lanes.items ≡ range_with_len 0 (length lanes.items)) }
    ensures one { IfSome result (λ lanes. length lanes.items ≡ 1) }
{
    let mut lanes = Vec::new(alloc);
    add_lane(alloc, &mut lanes, child)?;
    Some(lanes)
}

// A folder that becomes a repository, opened.
fn open_new<H: Shelf>(alloc: Global, shelf: &mut H) -> Option<Store<'_, H>>
    ensures { IfSome result (λ store. FitsUnlessBroken (store_kinds store) (store_fault store) (H.seen store.shelf.now).told) }
{
    let Ok(()) = Store::init(shelf) else {
        return None;
    };
    let Ok(store) = Store::open(alloc, shelf) else {
        return None;
    };
    Some(store)
}

// A run that is begun in it.
fn begin<H: Shelf>(alloc: Global, shelf: &mut H) -> Option<Recorder<'_, H>>
    ensures { IfSome result (λ recorder. RecordsUnlessBroken (recorder_kinds recorder) (recorder_fault recorder) (H.seen recorder.shelf.now).told) }
{
    let store = open_new(alloc, shelf)?;
    let Ok(recorder) = store.start_run(alloc, false) else {
        return None;
    };
    Some(recorder)
}

// How many bytes of the run fit into the buffer.
fn read_back<H: Shelf>(store: &mut Store<'_, H>, number: u32, buf: &mut [u8]) -> Option<usize>
    requires { FitsUnlessBroken (store_kinds store.old) (store_fault store.old) (H.seen store.old.shelf.now).told }
{
    if number >= store.runs() {
        return None;
    }
    store.read_run(number, 0, buf).ok()
}

// Keeps the run, and answers how many of its bytes fit into the buffer.
fn keep<H: Shelf>(recorder: Recorder<'_, H>, buf: &mut [u8]) -> Option<usize>
    requires { RecordsUnlessBroken (recorder_kinds recorder) (recorder_fault recorder) (H.seen recorder.shelf.now).told }
{
    let (mut store, answer) = recorder.commit();
    let Ok(number) = answer else {
        return None;
    };
    read_back(&mut store, number, buf)
}

// Records a run of the lanes, and answers how many of its bytes fit into the buffer.
fn record<R: Threads + Wait + Sync, C: Child + Send + Drop, H: Shelf>(
    rt: &R,
    alloc: Global,
    shelf: &mut H,
    lanes: Vec<Lane<C>>,
    buf: &mut [u8],
) -> Option<usize>
    requires numbers { map lane_number lanes.items ≡ range_with_len 0 (length lanes.items) }
    requires few { length lanes.items ≤ 64 }
{
    let mut recorder = begin(alloc, shelf)?;
    run_lanes(rt, alloc, lanes, &mut recorder).ok()?;
    keep(recorder, buf)
}

// The next packet of one of the lanes stands first: how many bytes it has.
fn next_size(run: &[u8], next: &mut [usize]) -> Option<usize> {
    for lane in 0..next.len().min(4) {
        let at = next[lane];
        if at < 2 && run.starts_with(UNDER[lane][at]) {
            next[lane] = at + 1;
            return Some(UNDER[lane][at].len());
        }
    }
    None
}

// Whether the run is both packets of each of so many lanes, in order, and nothing else.
fn is_merge(run: &[u8], lanes: usize) -> bool {
    let mut next = [0usize; 4];
    let mut rest = run;
    for _ in 0..8 {
        let Some(size) = next_size(rest, &mut next) else {
            break;
        };
        let Some(behind) = rest.get(size..) else {
            break;
        };
        rest = behind;
    }
    let mut all = rest.is_empty();
    for lane in 0..4 {
        all = all && next[lane] == if lane < lanes { 2 } else { 0 };
    }
    all
}

// Lanes whose children each give both packets, in pieces.
fn plain_lanes(alloc: Global, count: usize) -> Option<Vec<Lane<PlanChild>>>
    requires { count ≤ 4 }
    ensures numbers { IfSome result (λ lanes. map lane_number lanes.items ≡ range_with_len 0 (length lanes.items)) }
    ensures few { IfSome result (λ lanes. length lanes.items ≤ 4) }
{
    let mut lanes = Vec::new(alloc);
    while lanes.len() < count {
        let output = Bytes::new(alloc, FOO_BAR).ok()?;
        let child = PlanChild::new(output, 5, Finish::Exit(0));
        add_lane(alloc, &mut lanes, child)?;
    }
    Some(lanes)
}

// Whether a run of the lanes is both packets of each of so many, in order.
fn is_recorded<R: Threads + Wait + Sync + AllocGlobal, C: Child + Send + Drop, H: Shelf>(
    rt: &R,
    shelf: &mut H,
    lanes: Vec<Lane<C>>,
    count: usize,
) -> Result<bool, Fail>
    requires numbers { map lane_number lanes.items ≡ range_with_len 0 (length lanes.items) }
    requires few { length lanes.items ≤ 64 }
{
    let mut buf = [0u8; 200];
    let size = record(rt, rt.alloc(), shelf, lanes, &mut buf).ok_or("no run")?;
    Ok(is_merge(buf.get(..size).ok_or("size")?, count))
}

// Whether that holds of so many lanes.
fn are_recorded<R: Threads + Wait + Sync + AllocGlobal>(rt: &R, count: usize) -> Result<bool, Fail>
    requires { count ≤ 4 }
{
    let alloc = rt.alloc();
    let lanes = plain_lanes(alloc, count).ok_or("no memory")?;
    let mut shelf = MemShelf::new(alloc, Vec::new(alloc));
    is_recorded(rt, &mut shelf, lanes, count)
}

#[test]
fn each_lane_is_recorded_whole_and_in_order(rt: HostRuntime) -> Result<(), Fail> {
    for count in [0usize, 2, 4] {
        assert!(rt; are_recorded(&rt, count)?);
    }
    Ok(())
}

// A lane whose child gives both packets, and then a fault.
fn faulty_lane(alloc: Global) -> Option<Vec<Lane<PlanChild>>>
    ensures numbers { IfSome result (λ lanes. map lane_number lanes.items ≡ range_with_len 0 (length lanes.items)) }
    ensures one { IfSome result (λ lanes. length lanes.items ≡ 1) }
{
    let output = Bytes::new(alloc, FOO_BAR).ok()?;
    one_lane(alloc, PlanChild::new(output, 5, Finish::ReadFault))
}

// Whether the run is both packets of lane 0, and one that tells of the fault.
fn tells_of_fault<R: Abort>(rt: &R, run: &[u8]) -> Result<(), Fail> {
    assert!(rt; run.ends_with(FAULT_UNDER_0));
    assert!(rt; is_merge(run.get(..28).ok_or("size")?, 1));
    Ok(())
}

fn is_recorded_with_fault<R: Threads + Wait + Sync + AllocGlobal + Abort>(
    rt: &R,
    shelf: &mut MemShelf,
    lanes: Vec<Lane<PlanChild>>,
) -> Result<(), Fail>
    requires numbers { map lane_number lanes.items ≡ range_with_len 0 (length lanes.items) }
    requires few { length lanes.items ≤ 64 }
{
    let mut buf = [0u8; 200];
    let size = record(rt, rt.alloc(), shelf, lanes, &mut buf).ok_or("no run")?;
    tells_of_fault(rt, buf.get(..size).ok_or("size")?)
}

#[test]
fn a_lane_whose_reads_fail_ends_with_a_packet_that_tells_of_it(
    rt: HostRuntime,
) -> Result<(), Fail> {
    let alloc = rt.alloc();
    let lanes = faulty_lane(alloc).ok_or("no memory")?;
    let mut shelf = MemShelf::new(alloc, Vec::new(alloc));
    is_recorded_with_fault(&rt, &mut shelf, lanes)
}

// A child that gives some packets, and counts itself when it is read to its end. Of two that are to meet, each one waits
// at its first read until the other was read, too.
#[derive(Drop)]
struct Counted {
    packets: u32,
    meets: bool,
    begun: Arc<AtomicU32>,
    ended: Arc<AtomicU32>,
    faults: u64,
}

impl Counted {
    // Whether both have been read within so many rounds.
    fn has_met(&self) -> bool {
        self.begun.fetch_add(1, Ordering::SeqCst);
        for _ in 0..1_000_000 {
            if self.begun.load(Ordering::SeqCst) >= 2 {
                return true;
            }
            thread::yield_now();
        }
        false
    }
}

impl Child for Counted {
    ghost use Rattle.std.specs.Prelude.{None};

    ghost seen = { λ s. record { told = None; faults = s.faults } };

    fn read(&mut self, buf: &mut [u8]) -> Result<usize, Failed> {
        if self.meets {
            self.meets = false;
            if !self.has_met() {
                self.faults = self.faults.saturating_add(1);
                return Err(Failed);
            }
        }
        if self.packets == 0 || buf.len() < FOO_BAR.len() {
            self.ended.fetch_add(1, Ordering::SeqCst);
            return Ok(0);
        }
        self.packets -= 1;
        buf[..FOO_BAR.len()].copy_from_slice(FOO_BAR);
        Ok(FOO_BAR.len())
    }

    fn wait(&mut self) -> Result<i32, Failed> {
        Ok(0)
    }

    fn stop(&mut self) {}

    ghost are_bytes = { λ s. tt };

    ghost has_finish = { λ s. tt };
}

// Two such children.
fn counted_lanes(alloc: Global, ended: &Arc<AtomicU32>) -> Option<Vec<Lane<Counted>>>
    ensures numbers { IfSome result (λ lanes. map lane_number lanes.items ≡ range_with_len 0 (length lanes.items)) }
    ensures few { IfSome result (λ lanes. length lanes.items ≤ 2) }
{
    let begun = Arc::new(alloc, AtomicU32::new(0)).ok()?;
    let mut lanes = Vec::new(alloc);
    while lanes.len() < 2 {
        let child = Counted {
            packets: 1,
            meets: true,
            begun: Arc::try_clone(&begun).ok()?,
            ended: Arc::try_clone(ended).ok()?,
            faults: 0,
        };
        add_lane(alloc, &mut lanes, child)?;
    }
    Some(lanes)
}

// Whether two children that meet are recorded.
fn both_are_recorded<R: Threads + Wait + Sync + AllocGlobal>(
    rt: &R,
    ended: &Arc<AtomicU32>,
) -> Result<bool, Fail> {
    let alloc = rt.alloc();
    let lanes = counted_lanes(alloc, ended).ok_or("no memory")?;
    let mut shelf = MemShelf::new(alloc, Vec::new(alloc));
    is_recorded(rt, &mut shelf, lanes, 2)
}

fn are_read_at_once<R: Threads + Wait + Sync + AllocGlobal + Abort>(
    rt: &R,
    ended: &Arc<AtomicU32>,
) -> Result<(), Fail> {
    assert!(rt; both_are_recorded(rt, ended)?);
    assert_eq!(rt; ended.load(Ordering::SeqCst), 2);
    Ok(())
}

#[test]
fn all_children_are_read_at_once(rt: HostRuntime) -> Result<(), Fail> {
    let ended = Arc::new(rt.alloc(), AtomicU32::new(0))?;
    are_read_at_once(&rt, &ended)
}

// A folder that notes when a packet is added to it.
#[derive(Drop)]
struct Noting<H> {
    inner: H,
    recorded: Arc<AtomicBool>,
}

impl<H: Shelf> Shelf for Noting<H> {
    ghost seen = { λ s. H.seen s.inner };

    ghost clock = { λ s. H.clock s.inner };

    fn names(&mut self, alloc: Global) -> Result<Vec<Text>, NamesFault> {
        self.inner.names(alloc)
    }

    fn length(&mut self, name: &str) -> Result<Option<u64>, Failed> {
        self.inner.length(name)
    }

    fn read_at(&mut self, name: &str, place: u64, buf: &mut [u8]) -> Result<usize, Failed> {
        self.inner.read_at(name, place, buf)
    }

    fn start_draft(&mut self) -> Result<(), Failed> {
        self.inner.start_draft()
    }

    fn append(&mut self, piece: &[u8]) -> Result<(), Failed> {
        if piece.starts_with(UNDER[0][0]) {
            self.recorded.store(true, Ordering::SeqCst);
        }
        self.inner.append(piece)
    }

    fn sync_draft(&mut self) -> Result<(), Failed> {
        self.inner.sync_draft()
    }

    fn publish(&mut self, name: &str) -> Result<(), Failed> {
        self.inner.publish(name)
    }

    fn sync_folder(&mut self) -> Result<(), Failed> {
        self.inner.sync_folder()
    }

    ghost published_counts = { λ s. H.published_counts s.inner };
}

// A child that gives both packets, and ends once the first of them has been recorded.
#[derive(Drop)]
struct Patient {
    given: bool,
    recorded: Arc<AtomicBool>,
    faults: u64,
}

impl Patient {
    // Whether it has been recorded within so many rounds.
    fn is_recorded(&self) -> bool {
        for _ in 0..1_000_000 {
            if self.recorded.load(Ordering::SeqCst) {
                return true;
            }
            thread::yield_now();
        }
        false
    }
}

impl Child for Patient {
    ghost use Rattle.std.specs.Prelude.{None};

    ghost seen = { λ s. record { told = None; faults = s.faults } };

    fn read(&mut self, buf: &mut [u8]) -> Result<usize, Failed> {
        if self.given || buf.len() < FOO_BAR.len() {
            if self.is_recorded() {
                return Ok(0);
            }
            self.faults = self.faults.saturating_add(1);
            return Err(Failed);
        }
        self.given = true;
        buf[..FOO_BAR.len()].copy_from_slice(FOO_BAR);
        Ok(FOO_BAR.len())
    }

    fn wait(&mut self) -> Result<i32, Failed> {
        Ok(0)
    }

    fn stop(&mut self) {}

    ghost are_bytes = { λ s. tt };

    ghost has_finish = { λ s. tt };
}

// A lane over such a child.
fn patient_lane(alloc: Global, recorded: &Arc<AtomicBool>) -> Option<Vec<Lane<Patient>>>
    ensures numbers { IfSome result (λ lanes. map lane_number lanes.items ≡ range_with_len 0 (length lanes.items)) }
    ensures one { IfSome result (λ lanes. length lanes.items ≡ 1) }
{
    let child = Patient {
        given: false,
        recorded: Arc::try_clone(recorded).ok()?,
        faults: 0,
    };
    one_lane(alloc, child)
}

fn is_recorded_before_its_end<R: Threads + Wait + Sync + AllocGlobal + Abort>(
    rt: &R,
    shelf: &mut Noting<MemShelf>,
    lanes: Vec<Lane<Patient>>,
) -> Result<(), Fail>
    requires numbers { map lane_number lanes.items ≡ range_with_len 0 (length lanes.items) }
    requires few { length lanes.items ≤ 64 }
{
    assert!(rt; is_recorded(rt, shelf, lanes, 1)?);
    Ok(())
}

#[test]
fn packets_are_recorded_before_their_child_ends(rt: HostRuntime) -> Result<(), Fail> {
    let alloc = rt.alloc();
    let recorded = Arc::new(alloc, AtomicBool::new(false))?;
    let lanes = patient_lane(alloc, &recorded).ok_or("no memory")?;
    let inner = MemShelf::new(alloc, Vec::new(alloc));
    let mut shelf = Noting { inner, recorded };
    is_recorded_before_its_end(&rt, &mut shelf, lanes)
}

// Keeps what it hears.
#[derive(Drop)]
struct Keeping {
    bytes: Vec<u8>,
}

impl Listener for Keeping {
    ghost use Rattle.std.specs.Prelude.{◌≡◌, ⊤};
    ghost use Rattle.std.specs.List.{flat_map};

    ghost heard = { λ _ s pieces. s.bytes.items ≡ flat_map (λ piece. piece) pieces };

    ghost keeps = { λ _ _ _. ⊤ };

    #[tactic(auto, using(worker_mux::proofs::Lists::one_piece_more))]
    fn hear(&mut self, piece: &[u8]) -> Result<(), NoMemory> {
        self.bytes.extend_from_slice(piece)?;
        Ok(())
    }
}

// Begins a run, and records the lanes: what the call answers. Nothing is published.
fn record_heard<R: Threads + Wait + Sync, C: Child + Send + Drop, H: Shelf, L: Listener + Drop>(
    rt: &R,
    alloc: Global,
    shelf: &mut H,
    lanes: Vec<Lane<C>>,
    listener: L,
) -> Option<(L, Result<(), NoMemory>)>
    requires numbers { map lane_number lanes.items ≡ range_with_len 0 (length lanes.items) }
    requires few { length lanes.items ≤ 64 }
    requires nothing { L.heard listener listener [] }
{
    let mut recorder = begin(alloc, shelf)?;
    Some(run_lanes_heard(rt, alloc, lanes, &mut recorder, listener))
}

// What is heard of the lanes.
fn heard<R: Threads + Wait + Sync + AllocGlobal>(
    rt: &R,
    shelf: &mut MemShelf,
    lanes: Vec<Lane<PlanChild>>,
) -> Result<Keeping, Fail>
    requires numbers { map lane_number lanes.items ≡ range_with_len 0 (length lanes.items) }
    requires few { length lanes.items ≤ 64 }
{
    let alloc = rt.alloc();
    let bytes = Vec::new(alloc);
    let (heard, done) = record_heard(rt, alloc, shelf, lanes, Keeping { bytes }).ok_or("no run")?;
    done.ok().ok_or("no memory")?;
    Ok(heard)
}

fn both_are_heard<R: Threads + Wait + Sync + AllocGlobal + Abort>(
    rt: &R,
    shelf: &mut MemShelf,
    lanes: Vec<Lane<PlanChild>>,
) -> Result<(), Fail>
    requires numbers { map lane_number lanes.items ≡ range_with_len 0 (length lanes.items) }
    requires few { length lanes.items ≤ 64 }
{
    let heard = heard(rt, shelf, lanes)?;
    assert!(rt; is_merge(heard.bytes.as_slice(), 2));
    Ok(())
}

#[test]
fn what_is_added_of_two_lanes_is_heard(rt: HostRuntime) -> Result<(), Fail> {
    let alloc = rt.alloc();
    let lanes = plain_lanes(alloc, 2).ok_or("no memory")?;
    let mut shelf = MemShelf::new(alloc, Vec::new(alloc));
    both_are_heard(&rt, &mut shelf, lanes)
}

// Wants memory at the second piece.
#[derive(Drop)]
struct Forgetful {
    pieces: u32,
}

impl Listener for Forgetful {
    ghost use Rattle.std.specs.Prelude.{⊤};

    ghost heard = { λ _ _ _. ⊤ };

    ghost keeps = { λ _ _ _. ⊤ };

    fn hear(&mut self, _piece: &[u8]) -> Result<(), NoMemory> {
        if self.pieces == 1 {
            return Err(NoMemory);
        }
        self.pieces = 1;
        Ok(())
    }
}

// A child that gives packets until it is stopped, and counts the waits for its end.
#[derive(Drop)]
struct Endless {
    stopped: bool,
    waits: Arc<AtomicU32>,
    faults: u64,
}

impl Child for Endless {
    ghost use Rattle.std.specs.Prelude.{None};

    ghost seen = { λ s. record { told = None; faults = s.faults } };

    fn read(&mut self, buf: &mut [u8]) -> Result<usize, Failed> {
        if self.stopped || buf.len() < FOO_BAR.len() {
            self.faults = self.faults.saturating_add(1);
            return Err(Failed);
        }
        buf[..FOO_BAR.len()].copy_from_slice(FOO_BAR);
        Ok(FOO_BAR.len())
    }

    fn wait(&mut self) -> Result<i32, Failed> {
        if self.stopped {
            self.waits.fetch_add(1, Ordering::SeqCst);
        }
        Ok(0)
    }

    fn stop(&mut self) {
        self.stopped = true;
    }

    ghost are_bytes = { λ s. tt };

    ghost has_finish = { λ s. tt };
}

fn add_endless(alloc: Global, lanes: &mut Vec<Lane<Endless>>, waits: &Arc<AtomicU32>) -> Option<()>
    requires few { length lanes.old.items < 64 }
    requires numbers { map lane_number lanes.old.items ≡ range_with_len 0 (length lanes.old.items) }
    ensures numbers { IfSome result (λ done. map lane_number lanes.new.items ≡ range_with_len 0 (length lanes.new.items)) }
    ensures one_more { IfSome result (λ done. length lanes.new.items ≡ length lanes.old.items + 1) }
{
    let child = Endless {
        stopped: false,
        waits: Arc::try_clone(waits).ok()?,
        faults: 0,
    };
    add_lane(alloc, lanes, child)
}

fn add_two_endless(
    alloc: Global,
    lanes: &mut Vec<Lane<Endless>>,
    waits: &Arc<AtomicU32>,
) -> Option<()>
    requires none { lanes.old.items ≡ [] }
    ensures numbers { IfSome result (λ done. map lane_number lanes.new.items ≡ range_with_len 0 (length lanes.new.items)) }
    ensures two { IfSome result (λ done. length lanes.new.items ≡ 2) }
{
    add_endless(alloc, lanes, waits)?;
    add_endless(alloc, lanes, waits)
}

// Two such lanes.
fn endless_lanes(alloc: Global, waits: &Arc<AtomicU32>) -> Option<Vec<Lane<Endless>>>
    ensures numbers { IfSome result (λ lanes. map lane_number lanes.items ≡ range_with_len 0 (length lanes.items)) }
    ensures two { IfSome result (λ lanes. length lanes.items ≡ 2) }
{
    let mut lanes = Vec::new(alloc);
    add_two_endless(alloc, &mut lanes, waits)?;
    Some(lanes)
}

// Whether the lanes are not recorded, where the listener wants memory.
fn is_given_up<R: Threads + Wait + Sync + AllocGlobal>(
    rt: &R,
    shelf: &mut MemShelf,
    waits: &Arc<AtomicU32>,
) -> Result<bool, Fail> {
    let alloc = rt.alloc();
    let lanes = endless_lanes(alloc, waits).ok_or("no memory")?;
    let listener = Forgetful { pieces: 0 };
    let (_, done) = record_heard(rt, alloc, shelf, lanes, listener).ok_or("no run")?;
    Ok(done.is_err())
}

fn are_stopped<R: Threads + Wait + Sync + AllocGlobal + Abort>(
    rt: &R,
    shelf: &mut MemShelf,
) -> Result<(), Fail> {
    let waits = Arc::new(rt.alloc(), AtomicU32::new(0))?;
    assert!(rt; is_given_up(rt, shelf, &waits)?);
    assert_eq!(rt; waits.load(Ordering::SeqCst), 2);
    Ok(())
}

#[test]
fn all_children_are_stopped_where_the_listener_wants_memory(rt: HostRuntime) -> Result<(), Fail> {
    let alloc = rt.alloc();
    let mut shelf = MemShelf::new(alloc, Vec::new(alloc));
    are_stopped(&rt, &mut shelf)
}

// Whether the lanes are not recorded in the folder.
fn are_refused<R: Threads + Wait + Sync + AllocGlobal>(
    rt: &R,
    shelf: &mut MemShelf,
    waits: &Arc<AtomicU32>,
) -> Result<bool, Fail> {
    let alloc = rt.alloc();
    let lanes = endless_lanes(alloc, waits).ok_or("no memory")?;
    let mut buf = [0u8; 200];
    Ok(record(rt, alloc, shelf, lanes, &mut buf).is_none())
}

fn are_stopped_and_refused<R: Threads + Wait + Sync + AllocGlobal + Abort>(
    rt: &R,
    shelf: &mut MemShelf,
) -> Result<(), Fail> {
    let waits = Arc::new(rt.alloc(), AtomicU32::new(0))?;
    assert!(rt; are_refused(rt, shelf, &waits)?);
    assert_eq!(rt; waits.load(Ordering::SeqCst), 2);
    Ok(())
}

// The call that fails is the second that adds to the run: seven make the repository, four look at it, and one begins the
// run.
#[test]
fn endless_children_are_stopped_where_the_folder_fails(rt: HostRuntime) -> Result<(), Fail> {
    let alloc = rt.alloc();
    let mut shelf = MemShelf::new(alloc, vec![in alloc; 13u64]?);
    are_stopped_and_refused(&rt, &mut shelf)
}
