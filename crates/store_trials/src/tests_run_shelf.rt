//! Runs through folders in memory: what each moment of a commit leaves, which folders are repositories, and each call of
//! the folder failing in turn.

ghost use Rattle.run_shelf.specs.Stores.{store_kinds, store_fault, FitsUnlessBroken, recorder_kinds, recorder_fault, RecordsUnlessBroken};

use edge_io::{Failed, MemShelf, Shelf};
use itoa::Buffer;
use run_shelf::{
    InitFault, MOST_RUNS, OpenFault, Recorder, ShelfCall, StartFault, Store, StoreFault,
    add_packet, begin_run, finish_run, make_repository, read_run, run_length, survey,
};
use std::alloc::Global;
use std::ops::Range;
use std::process::Abort;
use std::test::Fail;

const FORMAT: &[u8] = b"subunit-store 1\n";

const BASED: &[u8] = b"subunit-store 2\n";

const OLDER: &[u8] = b"1\n";

const LONGER: &[u8] = b"subunit-store 1\n\n";

const NOTHING: &[u64] = &[];

// Keeps a file over any stop, in six calls.
fn keep<H: Shelf>(shelf: &mut H, name: &str, bytes: &[u8]) -> Result<(), Failed> {
    shelf.sync_folder()?;
    shelf.start_draft()?;
    shelf.append(bytes)?;
    shelf.sync_draft()?;
    shelf.publish(name)?;
    shelf.sync_folder()
}

// An empty repository, made in seven calls, or in six with `keep`.
fn empty(alloc: Global, fails: &[u64]) -> Result<MemShelf, Fail> {
    let mut shelf = MemShelf::new(alloc, fails.to_vec(alloc)?);
    make_repository(&mut shelf)?;
    Ok(shelf)
}

// Keeps this `format`, and a file under each of the names.
fn keep_three<H: Shelf>(
    shelf: &mut H,
    format: &[u8],
    first: &str,
    second: &str,
) -> Result<(), Failed> {
    keep(shelf, "format", format)?;
    keep(shelf, first, b"x")?;
    keep(shelf, second, b"y")
}

// Why a look refuses the folder, where it does.
fn refusal<H: Shelf>(alloc: Global, shelf: &mut H) -> Option<OpenFault> {
    survey(alloc, shelf).err()
}

// The answer of a look at a folder with this `format` and a file under each of the names.
fn looked(
    alloc: Global,
    format: &[u8],
    first: &str,
    second: &str,
) -> Result<Option<OpenFault>, Fail> {
    let mut shelf = MemShelf::new(alloc, Vec::new(alloc));
    keep_three(&mut shelf, format, first, second)?;
    Ok(refusal(alloc, &mut shelf))
}

// How many runs a look finds.
fn count<H: Shelf>(alloc: Global, shelf: &mut H) -> Result<u32, Fail> {
    let found = survey(alloc, shelf)?;
    Ok(found.runs())
}

// How many runs a stop leaves.
fn count_after(alloc: Global, shelf: &MemShelf, moment: u64, choice: bool) -> Result<u32, Fail> {
    let mut image = shelf.image(moment, choice)?;
    count(alloc, &mut image)
}

// Adds both packets to the run.
fn add_both<H: Shelf>(
    recorder: &mut Recorder<'_, H>,
    first: &[u8],
    second: &[u8],
) -> Result<(), StoreFault>
    requires { RecordsUnlessBroken (recorder_kinds recorder.old) (recorder_fault recorder.old) (H.seen recorder.old.shelf.now).told }
    ensures { RecordsUnlessBroken (recorder_kinds recorder.new) (recorder_fault recorder.new) (H.seen recorder.new.shelf.now).told }
{
    match recorder.add(first) {
        Ok(()) => recorder.add(second),
        Err(fault) => Err(fault),
    }
}

// Keeps the run, and answers its number.
fn commit<H: Shelf>(recorder: Recorder<'_, H>) -> Result<u32, StoreFault>
    requires { RecordsUnlessBroken (recorder_kinds recorder) (recorder_fault recorder) (H.seen recorder.shelf.now).told }
{
    let (_, answer) = recorder.commit();
    answer
}

// Keeps a run of these packets, and answers its number.
fn commit_both<H: Shelf>(
    recorder: Recorder<'_, H>,
    first: &[u8],
    second: &[u8],
) -> Result<u32, StoreFault>
    requires { RecordsUnlessBroken (recorder_kinds recorder) (recorder_fault recorder) (H.seen recorder.shelf.now).told }
{
    let mut recorder = recorder;
    add_both(&mut recorder, first, second)?;
    commit(recorder)
}

// Records a run of these packets in the store, and answers its number.
fn record_in<H: Shelf>(
    alloc: Global,
    store: Store<'_, H>,
    partial: bool,
    first: &[u8],
    second: &[u8],
) -> Result<u32, StoreFault>
    requires { FitsUnlessBroken (store_kinds store) (store_fault store) (H.seen store.shelf.now).told }
{
    match store.start_run(alloc, partial) {
        Ok(recorder) => commit_both(recorder, first, second),
        Err((_, StartFault::Store(fault))) => Err(fault),
        Err(_) => Ok(9),
    }
}

// Records a run of these packets, and answers its number.
fn record<H: Shelf>(
    alloc: Global,
    shelf: &mut H,
    partial: bool,
    first: &[u8],
    second: &[u8],
) -> Result<u32, StoreFault> {
    match Store::open(alloc, shelf) {
        Ok(store) => record_in(alloc, store, partial, first, second),
        Err(OpenFault::Shelf(call)) => Err(StoreFault::Shelf(call)),
        Err(_) => Ok(9),
    }
}

// Records a run of five packets over a folder that is lent for each call, and answers its number.
fn record_five<H: Shelf>(alloc: Global, shelf: &mut H) -> Result<u32, OpenFault> {
    let mut found = survey(alloc, shelf)?;
    if found.runs() == MOST_RUNS {
        return Ok(9);
    }
    begin_run(shelf).map_err(OpenFault::Shelf)?;
    add_packet(shelf, b"ab").map_err(OpenFault::Shelf)?;
    add_packet(shelf, b"cd").map_err(OpenFault::Shelf)?;
    add_packet(shelf, b"ef").map_err(OpenFault::Shelf)?;
    add_packet(shelf, b"gh").map_err(OpenFault::Shelf)?;
    add_packet(shelf, b"ij").map_err(OpenFault::Shelf)?;
    finish_run(shelf, &mut found, false).map_err(OpenFault::Shelf)
}

// The first bytes of a run, from a place on.
fn part<H: Shelf>(
    alloc: Global,
    shelf: &mut H,
    number: u32,
    place: u64,
    buf: &mut [u8],
) -> Result<usize, Fail> {
    let mut store = Store::open(alloc, shelf)?;
    if number >= store.runs() {
        return Ok(99);
    }
    Ok(store.read_run(number, place, buf)?)
}

// Each stop from one moment up to another leaves so many runs.
fn stops_leave<R: AllocGlobal + Abort>(
    rt: &R,
    shelf: &MemShelf,
    moments: (u64, u64),
    choice: bool,
    runs: u32,
) -> Result<(), Fail> {
    for moment in moments.0..moments.1 {
        assert_eq!(rt; count_after(rt.alloc(), shelf, moment, choice)?, runs);
    }
    Ok(())
}

fn a_run_is_left_wholly_or_not_at_all<R: AllocGlobal + Abort>(
    rt: &R,
    shelf: &mut MemShelf,
) -> Result<(), Fail> {
    // Calls 7 to 10 look, 11 starts, 12 and 13 append, 14 syncs, 15 publishes and 16 settles.
    assert_eq!(rt; record(rt.alloc(), shelf, false, b"ab", b"c")?, 0);
    for choice in [false, true] {
        stops_leave(rt, shelf, (7, 16), choice, 0)?;
        stops_leave(rt, shelf, (17, 19), choice, 1)?;
    }
    assert_eq!(rt; count_after(rt.alloc(), shelf, 16, false)?, 0);
    assert_eq!(rt; count_after(rt.alloc(), shelf, 16, true)?, 1);
    Ok(())
}

#[test]
fn a_stop_leaves_a_run_wholly_or_not_at_all(rt: HostRuntime) -> Result<(), Fail> {
    let mut shelf = empty(rt.alloc(), NOTHING)?;
    a_run_is_left_wholly_or_not_at_all(&rt, &mut shelf)
}

// Records the full run `abcdef` and the partial run `g`. Whether they have their numbers.
fn record_two<H: Shelf>(alloc: Global, shelf: &mut H) -> Result<bool, StoreFault> {
    let full = record(alloc, shelf, false, b"ab", b"cdef")?;
    let partial = record(alloc, shelf, true, b"g", b"")?;
    Ok(full == 0 && partial == 1)
}

fn two_runs_are_numbered<R: AllocGlobal + Abort>(rt: &R, shelf: &mut MemShelf) -> Result<(), Fail> {
    assert!(rt; record_two(rt.alloc(), shelf)?);
    assert_eq!(rt; shelf.length("0")?, Some(6));
    assert_eq!(rt; shelf.length("1.part")?, Some(1));
    assert_eq!(rt; count(rt.alloc(), shelf)?, 2);
    Ok(())
}

#[test]
fn runs_have_their_numbers(rt: HostRuntime) -> Result<(), Fail> {
    let mut shelf = empty(rt.alloc(), NOTHING)?;
    two_runs_are_numbered(&rt, &mut shelf)
}

// The number of a run, a place, how many bytes are read from there on, and what the buffer holds then.
const PARTS: [(u32, u64, usize, &[u8]); 3] = [
    (0, 2, 3, b"cde"),
    (0, 5, 1, b"fde"),
    (1, 1, 0, b"fde"),
];

// Whether so many bytes are read from there on, and the buffer holds these then.
fn is_part<H: Shelf>(
    alloc: Global,
    shelf: &mut H,
    from: (u32, u64),
    buf: &mut [u8],
    wanted: (usize, &[u8]),
) -> Result<bool, Fail> {
    let (number, place) = from;
    let (count, held) = wanted;
    Ok(part(alloc, shelf, number, place, buf)? == count && &*buf == held)
}

fn two_runs_are_read<R: AllocGlobal + Abort>(rt: &R, shelf: &mut MemShelf) -> Result<(), Fail> {
    assert!(rt; record_two(rt.alloc(), shelf)?);
    let mut buf = [0u8; 3];
    for &(number, place, count, held) in &PARTS {
        assert!(rt;
            is_part(rt.alloc(), shelf, (number, place), &mut buf, (count, held))?,
            "run {number} from {place}"
        );
    }
    assert_eq!(rt; part(rt.alloc(), shelf, 1, 0, &mut [])?, 0);
    Ok(())
}

#[test]
fn runs_have_their_bytes(rt: HostRuntime) -> Result<(), Fail> {
    let mut shelf = empty(rt.alloc(), NOTHING)?;
    two_runs_are_read(&rt, &mut shelf)
}

// What stands in `format`, two names of files, and the answer of a look.
const LOOKS: [(&[u8], &str, &str, Option<OpenFault>); 10] = [
    (FORMAT, "0", "2", Some(OpenFault::Gap(1))),
    (FORMAT, "999999", "0.part", Some(OpenFault::Gap(1))),
    (FORMAT, "1.part", "2", Some(OpenFault::Gap(0))),
    (FORMAT, "00", "1000000", None),
    (FORMAT, "draft", "0.parts", None),
    (OLDER, "0", "1", Some(OpenFault::UnknownFormat)),
    (LONGER, "0", "2", Some(OpenFault::UnknownFormat)),
    (FORMAT, "base.set", "0", None),
    (BASED, "base.set", "0", Some(OpenFault::BadBase)),
    (BASED, "0", "2", Some(OpenFault::BadBase)),
];

#[test]
fn names_tell_the_runs(rt: HostRuntime) -> Result<(), Fail> {
    for &(format, first, second, answer) in &LOOKS {
        assert_eq!(rt; looked(rt.alloc(), format, first, second)?, answer);
    }
    Ok(())
}

// What stands in `base.set`, two names of other files, and the answer of a look.
const BASES: [(&[u8], &str, &str, Option<OpenFault>); 13] = [
    (b"subunit-base 1\n1\nfoo\0", "0.part", "1", None),
    (b"subunit-base 1\n2\n", "0.part", "1.part", None),
    (b"subunit-base 1\n0\nfoo\0", "0", "1", None),
    (
        b"subunit-base 1\n1\na\0b\0",
        "0.part",
        "2",
        Some(OpenFault::Gap(1)),
    ),
    (b"subunit-base 1\n1\n", "0", "1", Some(OpenFault::BadBase)),
    (
        b"subunit-base 1\n2\n",
        "0.part",
        "1",
        Some(OpenFault::BadBase),
    ),
    (
        b"subunit-base 1\n2\n",
        "1.part",
        "2",
        Some(OpenFault::BadBase),
    ),
    (
        b"subunit-base 1\n1\nfoo",
        "0.part",
        "1",
        Some(OpenFault::BadBase),
    ),
    (
        b"subunit-base 1\n1\nb\0a\0",
        "0.part",
        "1",
        Some(OpenFault::BadBase),
    ),
    (
        b"subunit-base 1\n01\n",
        "0.part",
        "1",
        Some(OpenFault::BadBase),
    ),
    (
        b"subunit-base 1\n1000001\n",
        "0.part",
        "1",
        Some(OpenFault::BadBase),
    ),
    (
        b"subunit-base 2\n1\n",
        "0.part",
        "1",
        Some(OpenFault::BadBase),
    ),
    (b"", "0.part", "1", Some(OpenFault::BadBase)),
];

// The answer of a look at a folder of the second format with this base and a file under each of the names.
fn looked_behind(
    alloc: Global,
    base: &[u8],
    first: &str,
    second: &str,
) -> Result<Option<OpenFault>, Fail> {
    let mut shelf = MemShelf::new(alloc, Vec::new(alloc));
    keep(&mut shelf, "base.set", base)?;
    keep_three(&mut shelf, BASED, first, second)?;
    Ok(refusal(alloc, &mut shelf))
}

#[test]
fn a_base_has_its_form_and_its_runs(rt: HostRuntime) -> Result<(), Fail> {
    for &(base, first, second, answer) in &BASES {
        assert_eq!(rt; looked_behind(rt.alloc(), base, first, second)?, answer);
    }
    Ok(())
}

// Whether the run of this number has these bytes and no more.
fn is_run<H: Shelf>(
    alloc: Global,
    shelf: &mut H,
    number: u32,
    wanted: &[u8],
) -> Result<bool, Fail> {
    let mut buf = [0u8; 16];
    let count = part(alloc, shelf, number, 0, &mut buf)?;
    Ok(buf.get(..count) == Some(wanted))
}

fn a_full_run_counts<R: AllocGlobal + Abort>(rt: &R, shelf: &mut MemShelf) -> Result<(), Fail> {
    keep(shelf, "0.part", b"partial")?;
    keep(shelf, "0", b"full")?;
    assert_eq!(rt; count(rt.alloc(), shelf)?, 1);
    assert!(rt; is_run(rt.alloc(), shelf, 0, b"full")?);
    Ok(())
}

#[test]
fn a_full_run_counts_before_a_partial_one(rt: HostRuntime) -> Result<(), Fail> {
    let mut shelf = empty(rt.alloc(), NOTHING)?;
    a_full_run_counts(&rt, &mut shelf)
}

// A base of one run. Of both runs there is a full one and a partial one.
fn keep_both_kinds<H: Shelf>(shelf: &mut H) -> Result<(), Failed> {
    keep(shelf, "base.set", b"subunit-base 1\n1\n")?;
    keep(shelf, "0", b"old")?;
    keep(shelf, "0.part", b"new")?;
    keep(shelf, "1", b"full")?;
    keep(shelf, "1.part", b"partial")
}

fn a_partial_run_counts_below_the_base<R: AllocGlobal + Abort>(
    rt: &R,
    shelf: &mut MemShelf,
) -> Result<(), Fail> {
    keep_both_kinds(shelf)?;
    assert_eq!(rt; count(rt.alloc(), shelf)?, 2);
    assert!(rt; is_run(rt.alloc(), shelf, 0, b"new")?);
    assert!(rt; is_run(rt.alloc(), shelf, 1, b"full")?);
    Ok(())
}

#[test]
fn a_converted_run_counts_before_the_old_one(rt: HostRuntime) -> Result<(), Fail> {
    let mut shelf = MemShelf::new(rt.alloc(), Vec::new(rt.alloc()));
    keep(&mut shelf, "format", BASED)?;
    a_partial_run_counts_below_the_base(&rt, &mut shelf)
}

fn is_made_once<R: AllocGlobal + Abort>(rt: &R, shelf: &mut MemShelf) {
    assert_eq!(rt; refusal(rt.alloc(), shelf), Some(OpenFault::NoStore));
    assert_eq!(rt; Store::init(shelf), Ok(()));
    assert_eq!(rt; Store::init(shelf), Err(InitFault::Exists));
}

fn is_made_empty<R: AllocGlobal + Abort>(rt: &R, shelf: &mut MemShelf) -> Result<(), Fail> {
    is_made_once(rt, shelf);
    assert_eq!(rt; count(rt.alloc(), shelf)?, 0);
    assert_eq!(rt; count_after(rt.alloc(), shelf, 100, false)?, 0);
    Ok(())
}

#[test]
fn a_repository_is_made_once(rt: HostRuntime) -> Result<(), Fail> {
    let mut shelf = MemShelf::new(rt.alloc(), Vec::new(rt.alloc()));
    is_made_empty(&rt, &mut shelf)
}

// The calls of the recording of a run beside one that is there, and how many runs there are where one fails.
const CALLS: [(u64, ShelfCall, u32); 13] = [
    (13, ShelfCall::SyncFolder, 1),
    (14, ShelfCall::Length, 1),
    (15, ShelfCall::ReadAt, 1),
    (16, ShelfCall::Names, 1),
    (17, ShelfCall::StartDraft, 1),
    (18, ShelfCall::Append, 1),
    (19, ShelfCall::Append, 1),
    (20, ShelfCall::Append, 1),
    (21, ShelfCall::Append, 1),
    (22, ShelfCall::Append, 1),
    (23, ShelfCall::SyncDraft, 1),
    (24, ShelfCall::Publish, 1),
    (25, ShelfCall::SyncFolder, 2),
];

// A repository of the run `x`, whose folder fails at this call.
fn one_run(alloc: Global, number: u64) -> Result<MemShelf, Fail> {
    let mut shelf = empty(alloc, &[number])?;
    keep(&mut shelf, "0", b"x")?;
    Ok(shelf)
}

// Whether this call fails while a run is recorded, and so many runs are there, as behind a stop.
fn fails_at(alloc: Global, shelf: &mut MemShelf, call: ShelfCall, runs: u32) -> Result<bool, Fail> {
    Ok(
        record_five(alloc, shelf) == Err(OpenFault::Shelf(call))
            && count(alloc, shelf)? == runs
            && count_after(alloc, shelf, 100, false)? == runs,
    )
}

// The same of a new repository, where it is the call of this number.
fn fails_in_turn(alloc: Global, number: u64, call: ShelfCall, runs: u32) -> Result<bool, Fail> {
    let mut shelf = one_run(alloc, number)?;
    fails_at(alloc, &mut shelf, call, runs)
}

#[test]
fn each_call_of_the_folder_fails_in_turn(rt: HostRuntime) -> Result<(), Fail> {
    for &(number, call, runs) in &CALLS {
        assert!(rt; fails_in_turn(rt.alloc(), number, call, runs)?, "{number}");
    }
    Ok(())
}

fn packets_stand_in_order<R: AllocGlobal + Abort>(
    rt: &R,
    shelf: &mut MemShelf,
) -> Result<(), Fail> {
    assert_eq!(rt; record_five(rt.alloc(), shelf)?, 0);
    assert!(rt; is_run(rt.alloc(), shelf, 0, b"abcdefghij")?);
    Ok(())
}

#[test]
fn packets_stand_in_the_order_in_which_they_were_added(rt: HostRuntime) -> Result<(), Fail> {
    let mut shelf = empty(rt.alloc(), NOTHING)?;
    packets_stand_in_order(&rt, &mut shelf)
}

// Adds four packets, and tells whether the third cannot be added, and the fourth is not tried.
fn add_four<H: Shelf>(recorder: &mut Recorder<'_, H>) -> Result<bool, StoreFault>
    requires { RecordsUnlessBroken (recorder_kinds recorder.old) (recorder_fault recorder.old) (H.seen recorder.old.shelf.now).told }
    ensures { RecordsUnlessBroken (recorder_kinds recorder.new) (recorder_fault recorder.new) (H.seen recorder.new.shelf.now).told }
{
    add_both(recorder, b"ab", b"cd")?;
    let third = recorder.add(b"ef");
    let fourth = recorder.add(b"gh");
    Ok(
        third == Err(StoreFault::Shelf(ShelfCall::Append))
            && fourth == Err(StoreFault::Closed(ShelfCall::Append)),
    )
}

// Whether the run is not kept after that fault, and the store of one run is closed.
fn commits_nothing<H: Shelf>(recorder: Recorder<'_, H>) -> bool
    requires { RecordsUnlessBroken (recorder_kinds recorder) (recorder_fault recorder) (H.seen recorder.shelf.now).told }
{
    let (store, answer) = recorder.commit();
    answer == Err(StoreFault::Closed(ShelfCall::Append))
        && store.fault() == Some(ShelfCall::Append)
        && store.runs() == 1
}

// Whether a recorder, the third of whose packets cannot be added, and its store answer so.
fn is_closed_after_a_fault<H: Shelf>(recorder: Recorder<'_, H>) -> Result<bool, StoreFault>
    requires { RecordsUnlessBroken (recorder_kinds recorder) (recorder_fault recorder) (H.seen recorder.shelf.now).told }
{
    let mut recorder = recorder;
    let refused = add_four(&mut recorder)?;
    Ok(refused && commits_nothing(recorder))
}

// The same of a recorder that is started here.
fn add_after_a_fault<H: Shelf>(alloc: Global, shelf: &mut H) -> Result<bool, Fail> {
    let store = Store::open(alloc, shelf)?;
    match store.start_run(alloc, false) {
        Ok(recorder) => Ok(is_closed_after_a_fault(recorder)?),
        Err(_) => Ok(false),
    }
}

fn a_recorder_is_closed<R: AllocGlobal + Abort>(rt: &R, shelf: &mut MemShelf) -> Result<(), Fail> {
    assert!(rt; add_after_a_fault(rt.alloc(), shelf)?);
    assert_eq!(rt; count(rt.alloc(), shelf)?, 1);
    assert_eq!(rt; record(rt.alloc(), shelf, false, b"ab", b"c")?, 1);
    assert_eq!(rt; shelf.length("1")?, Some(3));
    Ok(())
}

#[test]
fn a_recorder_is_closed_after_a_fault(rt: HostRuntime) -> Result<(), Fail> {
    let mut shelf = one_run(rt.alloc(), 20)?;
    a_recorder_is_closed(&rt, &mut shelf)
}

// Whether a read of the only run fails, and what is asked behind it is refused, but for what is known of the runs.
fn reads_are_refused<H: Shelf>(store: &mut Store<'_, H>) -> bool
    requires { FitsUnlessBroken (store_kinds store.old) (store_fault store.old) (H.seen store.old.shelf.now).told }
{
    if store.runs() != 1 {
        return false;
    }
    let mut buf = [0u8; 2];
    let first = store.read_run(0, 0, &mut buf);
    let second = store.run_length(0);
    first == Err(StoreFault::Shelf(ShelfCall::ReadAt))
        && second == Err(StoreFault::Closed(ShelfCall::ReadAt))
        && store.runs() == 1
        && !store.partial(0)
}

// Whether no run is started after that fault.
fn starts_nothing<H: Shelf>(alloc: Global, store: Store<'_, H>) -> bool {
    matches!(
        store.start_run(alloc, false),
        Err((_, StartFault::Store(StoreFault::Closed(ShelfCall::ReadAt))))
    )
}

// Whether a store answers so at a read that fails and behind it.
fn is_closed_after_a_read<H: Shelf>(alloc: Global, shelf: &mut H) -> Result<bool, Fail> {
    let mut store = Store::open(alloc, shelf)?;
    Ok(reads_are_refused(&mut store) && starts_nothing(alloc, store))
}

fn a_store_is_closed<R: AllocGlobal + Abort>(rt: &R, shelf: &mut MemShelf) -> Result<(), Fail> {
    assert!(rt; is_closed_after_a_read(rt.alloc(), shelf)?);
    let mut buf = [0u8; 2];
    assert_eq!(rt; part(rt.alloc(), shelf, 0, 0, &mut buf)?, 1);
    Ok(())
}

#[test]
fn a_store_is_closed_after_a_fault(rt: HostRuntime) -> Result<(), Fail> {
    let mut shelf = one_run(rt.alloc(), 17)?;
    a_store_is_closed(&rt, &mut shelf)
}

// Keeps the run, and answers how many runs there are then.
fn commit_and_count<H: Shelf>(recorder: Recorder<'_, H>) -> Result<u32, StoreFault>
    requires { RecordsUnlessBroken (recorder_kinds recorder) (recorder_fault recorder) (H.seen recorder.shelf.now).told }
{
    let (store, answer) = recorder.commit();
    answer?;
    Ok(store.runs())
}

// Keeps a partial run without a packet, and answers how many runs there are then.
fn record_nothing<H: Shelf>(alloc: Global, store: Store<'_, H>) -> Result<u32, StoreFault>
    requires { FitsUnlessBroken (store_kinds store) (store_fault store) (H.seen store.shelf.now).told }
{
    match store.start_run(alloc, true) {
        Ok(recorder) => commit_and_count(recorder),
        Err(_) => Ok(99),
    }
}

// Adds to a run, drops it, and keeps another.
fn drop_it_and_record<H: Shelf>(alloc: Global, recorder: Recorder<'_, H>) -> Result<u32, StoreFault>
    requires { RecordsUnlessBroken (recorder_kinds recorder) (recorder_fault recorder) (H.seen recorder.shelf.now).told }
{
    let mut recorder = recorder;
    recorder.add(b"dropped")?;
    record_nothing(alloc, recorder.drop_run())
}

// Starts a run, drops it, and keeps another.
fn drop_and_record<H: Shelf>(alloc: Global, shelf: &mut H) -> Result<u32, Fail> {
    let store = Store::open(alloc, shelf)?;
    match store.start_run(alloc, false) {
        Ok(recorder) => Ok(drop_it_and_record(alloc, recorder)?),
        Err(_) => Ok(98),
    }
}

fn nothing_is_left<R: AllocGlobal + Abort>(rt: &R, shelf: &mut MemShelf) -> Result<(), Fail> {
    assert_eq!(rt; drop_and_record(rt.alloc(), shelf)?, 1);
    assert_eq!(rt; shelf.length("0.part")?, Some(0));
    assert_eq!(rt; shelf.length("0")?, None);
    Ok(())
}

#[test]
fn a_dropped_run_leaves_nothing(rt: HostRuntime) -> Result<(), Fail> {
    let mut shelf = empty(rt.alloc(), NOTHING)?;
    nothing_is_left(&rt, &mut shelf)
}

// Publishes an empty run of each of these numbers, in whatever folder.
fn publish_runs<H: Shelf>(shelf: &mut H, numbers: Range<u32>) -> Result<(), Failed> {
    let mut digits = Buffer::new();
    for number in numbers {
        shelf.sync_folder()?;
        shelf.start_draft()?;
        shelf.publish(digits.format(number))?;
    }
    Ok(())
}

// Whether the store refuses one run more, since it is full.
fn is_full<H: Shelf>(alloc: Global, shelf: &mut H) -> Result<bool, Fail> {
    let store = Store::open(alloc, shelf)?;
    Ok(matches!(store.start_run(alloc, false), Err((_, StartFault::Full))))
}

fn the_last_run_has_room<R: AllocGlobal + Abort>(rt: &R, shelf: &mut MemShelf) -> Result<(), Fail> {
    publish_runs(shelf, 0..999_999)?;
    assert!(rt; !is_full(rt.alloc(), shelf)?);
    publish_runs(shelf, 999_999..1_000_000)?;
    assert!(rt; is_full(rt.alloc(), shelf)?);
    Ok(())
}

#[test]
fn a_full_store_takes_no_run(rt: HostRuntime) -> Result<(), Fail> {
    let mut shelf = empty(rt.alloc(), NOTHING)?;
    the_last_run_has_room(&rt, &mut shelf)
}
