//! Caches of the times: which bytes are one, which bytes are written, and what a run makes of them.

use crate::tests_run_ledger::{keep, repository};
use edge_io::Shelf;
use packet_codec::Status;
use run_ledger::{TimesCache, read_times_cache, refresh, write_times_cache};
use run_shelf::{CacheFile, Store, read_cache_file};
use std::alloc::Global;
use std::test::Fail;
use sub_number::{Text, TimeMap};
use trial_events::{at, spelled};

// Whether the cache covers so many runs, and so many ids have a time.
fn has(alloc: Global, cache: &TimesCache, found: &Option<(u64, usize)>) -> bool {
    match cache.times.ids(alloc) {
        Ok(ids) => *found == Some((cache.covers, ids.list().len())),
        Err(_) => false,
    }
}

// Whether the bytes are such a cache, or none.
fn holds(alloc: Global, bytes: &[u8], found: &Option<(u64, usize)>) -> bool {
    match read_times_cache(alloc, bytes) {
        Ok(Some(cache)) => has(alloc, &cache, found),
        Ok(None) => found.is_none(),
        Err(_) => false,
    }
}

const FORMS: [(&[u8], Option<(u64, usize)>); 13] = [
    (b"subunit-times 1\n0\n", Some((0, 0))),
    (b"subunit-times 1\n2\nb\x000\0c\x0012\0", Some((2, 2))),
    (
        b"subunit-times 1\n2\nb\x0018446744073709551615\0",
        Some((2, 1)),
    ),
    (b"subunit-times 1\n2\nb\x0018446744073709551616\0", None),
    (b"subunit-times 1\n2\nb\x0007\0", None),
    (b"subunit-times 1\n2\nb\0\0", None),
    (b"subunit-times 1\n2\nb\0", None),
    (b"subunit-times 1\n2\nb\x007", None),
    (b"subunit-times 1\n2\nb\x007\0b\x008\0", None),
    (b"subunit-times 1\n2\nc\x007\0b\x008\0", None),
    (b"subunit-times 1\n02\nb\x007\0", None),
    (b"subunit-failing 1\n2\nb\x007\0", None),
    (b"x", None),
];

#[test]
fn a_cache_of_times_is_read_by_its_form_alone(rt: HostRuntime) {
    for row in &FORMS {
        assert!(rt; holds(rt.alloc(), row.0, &row.1));
    }
}

// The time of an id more.
fn put(alloc: Global, times: &mut TimeMap, id: &[u8], nanos: u64) -> Option<()> {
    times.put(&Text::new(alloc, id).ok()?, nanos).ok()
}

// The times of c and b.
fn two_times(alloc: Global) -> Option<TimeMap> {
    let mut times = TimeMap::new(alloc);
    put(alloc, &mut times, b"c", 12)?;
    put(alloc, &mut times, b"b", 0)?;
    Some(times)
}

#[test]
fn a_cache_of_times_is_written_by_its_form(rt: HostRuntime) -> Result<(), Fail> {
    let times = two_times(rt.alloc()).ok_or("memory")?;
    let bytes = write_times_cache(rt.alloc(), 2, &times)?;
    assert_eq!(rt;
        bytes.bytes(),
        b"subunit-times 1\n2\nb\x000\0c\x0012\0".as_slice()
    );
    Ok(())
}

// A test with this id, whether it has a route, and its time in nanoseconds, if it has one.
type Test = (&'static [u8], bool, Option<u32>);

fn route_of(test: &Test) -> &'static [u8] {
    if test.1 { b"r" } else { b"" }
}

// Appends the packet of an event of the test, at so many nanoseconds, or at none.
fn says(
    alloc: Global,
    run: &mut Vec<u8>,
    test: &Test,
    status: Status,
    nanos: Option<u32>,
) -> Option<()> {
    let event = trial_events::says(alloc, route_of(test), test.0, status);
    let event = match nanos {
        Some(nanos) => at(event, 0, nanos),
        None => event,
    };
    run.extend_from_slice(&spelled(alloc, &event)?).ok()
}

// A test without a time is only told to have passed.
fn add_test(alloc: Global, run: &mut Vec<u8>, test: &Test) -> Option<()> {
    if test.2.is_some() {
        says(alloc, run, test, Status::InProgress, Some(0))?;
    }
    says(alloc, run, test, Status::Success, test.2)
}

fn add_tests(alloc: Global, run: &mut Vec<u8>, tests: &[Test]) -> Option<()> {
    for test in tests {
        add_test(alloc, run, test)?;
    }
    Some(())
}

// The run of these tests.
fn run_of(alloc: Global, tests: &[Test]) -> Option<Vec<u8>> {
    let mut run = Vec::new(alloc);
    add_tests(alloc, &mut run, tests)?;
    Some(run)
}

// Keeps a run without tests, and one of these.
fn keep_runs<H: Shelf>(alloc: Global, shelf: &mut H, tests: &[Test]) -> Result<(), Fail> {
    let run = run_of(alloc, tests).ok_or("memory")?;
    keep(shelf, "0", b"")?;
    keep(shelf, "1", &run)?;
    Ok(())
}

// The cache of these entries, of the first run.
fn cache_of(alloc: Global, entries: &[u8]) -> Result<Vec<u8>, Fail> {
    let mut bytes = Vec::from_slice(alloc, b"subunit-times 1\n1\n")?;
    bytes.extend_from_slice(entries)?;
    Ok(bytes)
}

// Puts it, and writes the caches anew for both runs.
fn refresh_from<H: Shelf>(alloc: Global, shelf: &mut H, cache: &[u8]) -> Result<(), Fail> {
    let mut store = Store::open(alloc, shelf)?;
    store.put_cache_file(CacheFile::Times, cache)?;
    refresh(alloc, &mut store)?;
    Ok(())
}

// Whether the cache of both runs has these entries.
fn has_entries<H: Shelf>(alloc: Global, shelf: &mut H, after: &[u8]) -> bool {
    match read_cache_file(alloc, shelf, CacheFile::Times) {
        Ok(Some(found)) => {
            let left = found
                .bytes()
                .strip_prefix(b"subunit-times 1\n2\n".as_slice());
            left == Some(after)
        }
        _ => false,
    }
}

fn leaves_in<H: Shelf>(
    alloc: Global,
    shelf: &mut H,
    row: &(&[u8], &[Test], &[u8]),
) -> Result<bool, Fail> {
    let cache = cache_of(alloc, row.0)?;
    keep_runs(alloc, shelf, row.1)?;
    refresh_from(alloc, shelf, &cache)?;
    Ok(has_entries(alloc, shelf, row.2))
}

// Whether the cache of the entries before has those behind, after a run of the tests.
fn leaves(alloc: Global, row: &(&[u8], &[Test], &[u8])) -> Result<bool, Fail> {
    let mut shelf = repository(alloc, &[])?;
    leaves_in(alloc, &mut shelf, row)
}

const OLD: &[u8] = b"b\x001\0d\x002\0f\x003\0";

// The entries before, the tests of the run, and the entries behind it.
const REPLACED: [(&[u8], &[Test], &[u8]); 6] = [
    // No run, no times so far, and a test without a time.
    (b"", &[], b""),
    (OLD, &[(b"d", false, None)], OLD),
    (b"", &[(b"a", false, Some(5))], b"a\x005\0"),
    // Before, between and behind the earlier ones, and in place of one.
    (
        OLD,
        &[
            (b"g", false, Some(7)),
            (b"d", false, Some(10)),
            (b"c", false, Some(0)),
            (b"a", false, Some(4)),
        ],
        b"a\x004\0b\x001\0c\x000\0d\x0010\0f\x003\0g\x007\0",
    ),
    // Of one id the longest, in whatever order and route it comes.
    (
        OLD,
        &[
            (b"f", false, Some(5)),
            (b"f", true, Some(9)),
            (b"f", false, Some(8)),
        ],
        b"b\x001\0d\x002\0f\x009\0",
    ),
    // One id is the front of another, or empty.
    (
        b"a\x001\0ab\x002\0",
        &[
            (b"abc", false, Some(5)),
            (b"aa", false, Some(6)),
            (b"", false, Some(7)),
        ],
        b"\x007\0a\x001\0aa\x006\0ab\x002\0abc\x005\0",
    ),
];

#[test]
fn the_times_of_a_run_replace_earlier_ones(rt: HostRuntime) -> Result<(), Fail> {
    for row in &REPLACED {
        assert!(rt; leaves(rt.alloc(), row)?);
    }
    Ok(())
}
