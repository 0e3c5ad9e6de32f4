//! Both caches are written anew: with which bytes, in how many calls, and what a fault leaves.

use crate::tests_run_ledger::passed_and_failed;
use crate::tests_run_ledger_caches::two_runs;
use edge_io::Shelf;
use outcome_fold::Summary;
use run_ledger::{failing, refresh_behind};
use run_shelf::{CacheFile, Store, read_cache_file};
use std::alloc::Global;
use std::test::Fail;
use trial_events::are;

// Whether the file of the cache has these bytes.
fn holds<H: Shelf>(alloc: Global, shelf: &mut H, side: CacheFile, bytes: &[u8]) -> bool {
    match read_cache_file(alloc, shelf, side) {
        Ok(Some(found)) => found.bytes() == bytes,
        _ => false,
    }
}

// Whether the files hold the caches of both runs.
fn hold_both<H: Shelf>(alloc: Global, shelf: &mut H) -> bool {
    holds(
        alloc,
        shelf,
        CacheFile::Failing,
        b"subunit-failing 1\n2\nb\0c\0",
    ) && holds(
        alloc,
        shelf,
        CacheFile::Times,
        b"subunit-times 1\n2\na\x000\0b\x000\0c\x000\0",
    )
}

// Whether both caches were written, with what is kept of the rows of the second run at hand, where there are no caches yet.
fn refreshes<H: Shelf>(alloc: Global, shelf: &mut H, second: &Summary) -> Result<bool, Fail> {
    let mut store = Store::open(alloc, shelf)?;
    Ok(store.runs() == 2 && refresh_behind(alloc, &mut store, second).is_ok())
}

// The same, where there are caches of the first run. These are put in ten calls; before that four look at the folder.
fn refreshes_on<H: Shelf>(alloc: Global, shelf: &mut H, second: &Summary) -> Result<bool, Fail> {
    let mut store = Store::open(alloc, shelf)?;
    store.put_cache_file(CacheFile::Failing, b"subunit-failing 1\n1\na\0b\0")?;
    store.put_cache_file(CacheFile::Times, b"subunit-times 1\n1\na\x000\0b\x000\0")?;
    Ok(store.runs() == 2 && refresh_behind(alloc, &mut store, second).is_ok())
}

// Whether b and c fail behind both runs.
fn still_fail<H: Shelf>(alloc: Global, shelf: &mut H) -> Result<bool, Fail> {
    let mut store = Store::open(alloc, shelf)?;
    let ids = failing(alloc, &mut store)?;
    Ok(store.runs() == 2 && are(ids.list(), b"bc"))
}

#[test]
fn both_caches_are_written_by_their_forms(rt: HostRuntime) -> Result<(), Fail> {
    let second = passed_and_failed(rt.alloc()).ok_or("memory")?;
    let mut shelf = two_runs(rt.alloc(), &[])?.ok_or("memory")?;
    assert!(rt; refreshes(rt.alloc(), &mut shelf, &second)?);
    assert!(rt; hold_both(rt.alloc(), &mut shelf));
    assert!(rt; still_fail(rt.alloc(), &mut shelf)?);
    Ok(())
}

// Calls 32 to 35 read the caches, and 36 to 45 put them. The next one fails.
#[test]
fn a_refresh_behind_caches_reads_no_run(rt: HostRuntime) -> Result<(), Fail> {
    let second = passed_and_failed(rt.alloc()).ok_or("memory")?;
    let mut shelf = two_runs(rt.alloc(), &[46])?.ok_or("memory")?;
    assert!(rt; refreshes_on(rt.alloc(), &mut shelf, &second)?);
    assert!(rt; shelf.length("0").is_err());
    assert!(rt; hold_both(rt.alloc(), &mut shelf));
    Ok(())
}

// Whether a refresh of which this call fails is refused, and leaves both runs.
fn leaves_the_runs(alloc: Global, number: u64, second: &Summary) -> Result<bool, Fail> {
    let mut shelf = two_runs(alloc, &[number])?.ok_or("memory")?;
    Ok(!refreshes_on(alloc, &mut shelf, second)? && still_fail(alloc, &mut shelf)?)
}

#[test]
fn a_fault_at_each_call_leaves_the_runs(rt: HostRuntime) -> Result<(), Fail> {
    let second = passed_and_failed(rt.alloc()).ok_or("memory")?;
    for number in 32..46u64 {
        assert!(rt;
            leaves_the_runs(rt.alloc(), number, &second)?,
            "call {number}"
        );
    }
    Ok(())
}
