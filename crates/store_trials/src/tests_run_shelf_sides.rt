//! Files of caches beside the runs of folders in memory: what they hold, what each moment of a put leaves, and each call of
//! the folder failing in turn.

ghost use Rattle.run_shelf.specs.Stores.{store_kinds, store_fault, FitsUnlessBroken};

use edge_io::{MemShelf, Shelf};
use run_shelf::{
    CacheFile, CacheFileFault, MOST_RUNS, OpenFault, ShelfCall, StartFault, Store, StoreFault,
    add_packet, begin_run, finish_run, make_repository, survey,
};
use std::alloc::Global;
use std::process::Abort;
use std::test::Fail;
use sub_number::Bytes;

const NOTHING: &[u64] = &[];

// A repository of one run of three bytes, made in sixteen calls.
fn one_run(alloc: Global, fails: &[u64]) -> Result<MemShelf, Fail> {
    let mut shelf = MemShelf::new(alloc, fails.to_vec(alloc)?);
    make_and_record(alloc, &mut shelf)?;
    Ok(shelf)
}

fn make_and_record<H: Shelf>(alloc: Global, shelf: &mut H) -> Result<(), Fail> {
    make_repository(shelf)?;
    record(alloc, shelf)
}

// Records the full run `abc`, in nine calls.
fn record<H: Shelf>(alloc: Global, shelf: &mut H) -> Result<(), Fail> {
    let mut found = survey(alloc, shelf)?;
    if found.runs() == MOST_RUNS {
        return Err(StartFault::Full.into());
    }
    begin_run(shelf).map_err(OpenFault::Shelf)?;
    add_packet(shelf, b"abc").map_err(OpenFault::Shelf)?;
    finish_run(shelf, &mut found, false).map_err(OpenFault::Shelf)?;
    Ok(())
}

// Puts the file, in four calls for the look and five more.
fn put<H: Shelf>(alloc: Global, shelf: &mut H, side: CacheFile, bytes: &[u8]) -> Result<(), Fail> {
    let mut store = Store::open(alloc, shelf)?;
    store.put_cache_file(side, bytes)?;
    Ok(())
}

// What the file holds, read in four calls for the look and at most two more.
fn side_of<H: Shelf>(alloc: Global, shelf: &mut H, side: CacheFile) -> Result<Option<Bytes>, Fail> {
    let mut store = Store::open(alloc, shelf)?;
    Ok(store.cache_file(alloc, side)?)
}

// Whether the file is there with exactly these bytes.
fn holds<H: Shelf>(
    alloc: Global,
    shelf: &mut H,
    side: CacheFile,
    bytes: &[u8],
) -> Result<bool, Fail> {
    match side_of(alloc, shelf, side)? {
        Some(found) => Ok(found.bytes() == bytes),
        None => Ok(false),
    }
}

// How many bytes the file has that a stop leaves, and how many runs there are.
fn left<H: Shelf>(
    alloc: Global,
    shelf: &mut H,
    side: CacheFile,
) -> Result<(Option<u64>, u32), Fail> {
    let size = shelf.length(side.name())?;
    let found = survey(alloc, shelf)?;
    Ok((size, found.runs()))
}

fn has_no<H: Shelf>(alloc: Global, shelf: &mut H, side: CacheFile) -> Result<bool, Fail> {
    Ok(side_of(alloc, shelf, side)?.is_none())
}

// Whether no file of a cache is there.
fn has_none<H: Shelf>(alloc: Global, shelf: &mut H) -> Result<bool, Fail> {
    Ok(has_no(alloc, shelf, CacheFile::Failing)? && has_no(alloc, shelf, CacheFile::Times)?)
}

// Whether the files have these bytes once they are put.
fn holds_both<H: Shelf>(
    alloc: Global,
    shelf: &mut H,
    failing: &[u8],
    times: &[u8],
) -> Result<bool, Fail> {
    put(alloc, shelf, CacheFile::Failing, failing)?;
    put(alloc, shelf, CacheFile::Times, times)?;
    Ok(
        holds(alloc, shelf, CacheFile::Failing, failing)?
            && holds(alloc, shelf, CacheFile::Times, times)?,
    )
}

// Whether the second file has these bytes once they are put in place of others, and the first is as it was.
fn holds_anew<H: Shelf>(
    alloc: Global,
    shelf: &mut H,
    failing: &[u8],
    times: &[u8],
) -> Result<bool, Fail> {
    put(alloc, shelf, CacheFile::Times, times)?;
    Ok(
        holds(alloc, shelf, CacheFile::Failing, failing)?
            && holds(alloc, shelf, CacheFile::Times, times)?,
    )
}

fn holds_a_large_one<H: Shelf>(alloc: Global, shelf: &mut H) -> Result<bool, Fail> {
    let large = vec![in alloc; 7u8; 200_000]?;
    holds_anew(alloc, shelf, b"a", &large)
}

fn files_are_read<R: AllocGlobal + Abort>(rt: &R, shelf: &mut MemShelf) -> Result<(), Fail> {
    assert!(rt; has_none(rt.alloc(), shelf)?);
    assert!(rt; holds_both(rt.alloc(), shelf, b"a", b"")?);
    assert!(rt; holds_a_large_one(rt.alloc(), shelf)?);
    assert_eq!(rt; shelf.length("failing.set")?, Some(1));
    assert_eq!(rt; shelf.length("times.set")?, Some(200_000));
    assert_eq!(rt; shelf.length("0")?, Some(3));
    Ok(())
}

#[test]
fn a_file_is_read_as_it_was_put(rt: HostRuntime) -> Result<(), Fail> {
    let mut shelf = one_run(rt.alloc(), NOTHING)?;
    files_are_read(&rt, &mut shelf)
}

// A moment at which the machine stops, whether what was pending is kept, and how many bytes the file has then.
const STOPS: [(u64, bool, u64); 7] = [
    (25, true, 3),
    (29, true, 3),
    (32, true, 3),
    (33, false, 3),
    (33, true, 5),
    (34, false, 5),
    (99, true, 5),
];

// How many bytes the file has that this stop leaves, and how many runs there are.
fn left_after(
    alloc: Global,
    shelf: &MemShelf,
    moment: u64,
    choice: bool,
) -> Result<(Option<u64>, u32), Fail> {
    let mut image = shelf.image(moment, choice)?;
    left(alloc, &mut image, CacheFile::Failing)
}

fn the_old_or_the_new_is_left<R: AllocGlobal + Abort>(
    rt: &R,
    shelf: &mut MemShelf,
) -> Result<(), Fail> {
    put(rt.alloc(), shelf, CacheFile::Failing, b"old")?;
    // Calls 25 to 28 look, 29 starts, 30 appends, 31 syncs, 32 publishes and 33 settles.
    put(rt.alloc(), shelf, CacheFile::Failing, b"newer")?;
    for &(moment, choice, size) in &STOPS {
        assert_eq!(rt;
            left_after(rt.alloc(), shelf, moment, choice)?,
            (Some(size), 1)
        );
    }
    Ok(())
}

#[test]
fn a_stop_leaves_the_old_file_or_the_new_one(rt: HostRuntime) -> Result<(), Fail> {
    let mut shelf = one_run(rt.alloc(), NOTHING)?;
    the_old_or_the_new_is_left(&rt, &mut shelf)
}

// The number of a call, the call, and how many bytes the file has where it failed.
const CALLS: [(u64, ShelfCall, Option<u64>); 5] = [
    (20, ShelfCall::StartDraft, None),
    (21, ShelfCall::Append, None),
    (22, ShelfCall::SyncDraft, None),
    (23, ShelfCall::Publish, None),
    (24, ShelfCall::SyncFolder, Some(2)),
];

// Whether a put fails at this call, and one behind it is refused, and the file has so many bytes then.
fn puts_fail(
    alloc: Global,
    shelf: &mut MemShelf,
    call: ShelfCall,
    size: Option<u64>,
) -> Result<bool, Fail> {
    Ok(put_twice(alloc, shelf, call)? && left(alloc, shelf, CacheFile::Times)? == (size, 1))
}

// The same of a new repository, where it is the call of this number.
fn puts_fail_at(
    alloc: Global,
    number: u64,
    call: ShelfCall,
    size: Option<u64>,
) -> Result<bool, Fail> {
    let mut shelf = one_run(alloc, &[number])?;
    puts_fail(alloc, &mut shelf, call, size)
}

#[test]
fn each_call_of_a_put_fails_in_turn(rt: HostRuntime) -> Result<(), Fail> {
    for &(number, call, size) in &CALLS {
        assert!(rt; puts_fail_at(rt.alloc(), number, call, size)?, "{number}");
    }
    Ok(())
}

// Whether a store fails at this call of a put, and is closed for one behind it.
fn put_twice<H: Shelf>(alloc: Global, shelf: &mut H, call: ShelfCall) -> Result<bool, Fail> {
    let mut store = Store::open(alloc, shelf)?;
    Ok(puts_are_refused(&mut store, call))
}

fn puts_are_refused<H: Shelf>(store: &mut Store<'_, H>, call: ShelfCall) -> bool
    requires { FitsUnlessBroken (store_kinds store.old) (store_fault store.old) (H.seen store.old.shelf.now).told }
{
    let first = store.put_cache_file(CacheFile::Times, b"ab");
    let second = store.put_cache_file(CacheFile::Failing, b"cde");
    first == Err(StoreFault::Shelf(call)) && second == Err(StoreFault::Closed(call))
}

// Whether a read fails at this call, and one behind it is refused, and the file is there as it was put.
fn reads_fail(alloc: Global, shelf: &mut MemShelf, call: ShelfCall) -> Result<bool, Fail> {
    put(alloc, shelf, CacheFile::Failing, b"ab")?;
    Ok(read_twice(alloc, shelf, call)? && holds(alloc, shelf, CacheFile::Failing, b"ab")?)
}

// The same of a new repository, where it is the call of this number.
fn reads_fail_at(alloc: Global, number: u64, call: ShelfCall) -> Result<bool, Fail> {
    let mut shelf = one_run(alloc, &[number])?;
    reads_fail(alloc, &mut shelf, call)
}

#[test]
fn each_call_of_a_read_fails_in_turn(rt: HostRuntime) -> Result<(), Fail> {
    for (number, call) in [(29, ShelfCall::Length), (30, ShelfCall::ReadAt)] {
        assert!(rt; reads_fail_at(rt.alloc(), number, call)?, "{number}");
    }
    Ok(())
}

// Whether a store fails at this call of a read, and is closed for one behind it.
fn read_twice<H: Shelf>(alloc: Global, shelf: &mut H, call: ShelfCall) -> Result<bool, Fail> {
    let mut store = Store::open(alloc, shelf)?;
    Ok(reads_are_refused(alloc, &mut store, call))
}

fn reads_are_refused<H: Shelf>(alloc: Global, store: &mut Store<'_, H>, call: ShelfCall) -> bool
    requires { FitsUnlessBroken (store_kinds store.old) (store_fault store.old) (H.seen store.old.shelf.now).told }
{
    let first = store.cache_file(alloc, CacheFile::Failing).err();
    let second = store.cache_file(alloc, CacheFile::Times).err();
    first == Some(CacheFileFault::Store(StoreFault::Shelf(call)))
        && second == Some(CacheFileFault::Store(StoreFault::Closed(call)))
}
