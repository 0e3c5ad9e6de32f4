//! Caches of the failing set: which bytes are one, and what is told with their help.

use crate::tests_run_ledger::{keep_ended, repository};
use edge_io::{MemShelf, Shelf};
use packet_codec::Status;
use run_ledger::{FailingCache, failing, read_failing_cache, write_failing_cache};
use run_shelf::{CacheFile, Store};
use std::alloc::Global;
use std::test::Fail;
use sub_number::{IdList, Text};
use trial_events::are;

// Whether the cache covers so many runs, and has so many ids.
fn has(cache: &FailingCache, found: &Option<(u64, usize)>) -> bool {
    *found == Some((cache.covers, cache.ids.list().len()))
}

// Whether the bytes are such a cache, or none.
fn holds(alloc: Global, bytes: &[u8], found: &Option<(u64, usize)>) -> bool {
    match read_failing_cache(alloc, bytes) {
        Ok(Some(cache)) => has(&cache, found),
        Ok(None) => found.is_none(),
        Err(_) => false,
    }
}

const FORMS: [(&[u8], Option<(u64, usize)>); 18] = [
    (b"subunit-failing 1\n2\nb\0c\0", Some((2, 2))),
    (b"subunit-failing 1\n0\n", Some((0, 0))),
    (b"subunit-failing 1\n7\n\0a\0aa\0", Some((7, 3))),
    (
        b"subunit-failing 1\n18446744073709551615\n",
        Some((u64::MAX, 0)),
    ),
    (b"subunit-failing 1\n18446744073709551616\n", None),
    (b"", None),
    (b"x", None),
    (b"subunit-failing 1\n", None),
    (b"subunit-failing 1\n2", None),
    (b"subunit-failing 1\n\nb\0", None),
    (b"subunit-failing 1\n02\nb\0", None),
    (b"subunit-failing 1\n+2\nb\0", None),
    (b"subunit-failing 1\n2\nb\0b\0", None),
    (b"subunit-failing 1\n2\nc\0b\0", None),
    (b"subunit-failing 1\n2\nb\0c", None),
    (b"subunit-failing 1\n2\nb\0\xff\0", None),
    (b"subunit-failing 2\n2\nb\0c\0", None),
    (b"subunit-times 1\n2\nb\0c\0", None),
];

#[test]
fn a_cache_is_read_by_its_form_alone(rt: HostRuntime) {
    for row in &FORMS {
        assert!(rt; holds(rt.alloc(), row.0, &row.1));
    }
}

// The ids b and c.
fn two_ids(alloc: Global) -> Option<IdList> {
    let mut ids = IdList::new(alloc);
    ids.push(Text::new(alloc, b"b").ok()?).ok()?;
    ids.push(Text::new(alloc, b"c").ok()?).ok()?;
    Some(ids)
}

#[test]
fn a_cache_is_written_by_its_form(rt: HostRuntime) -> Result<(), Fail> {
    let ids = two_ids(rt.alloc()).ok_or("memory")?;
    let bytes = write_failing_cache(rt.alloc(), 2, &ids)?;
    assert_eq!(rt; bytes.bytes(), b"subunit-failing 1\n2\nb\0c\0".as_slice());
    Ok(())
}

// Keeps a full run in which a and b fail, and then a partial one in which a passes and c fails.
fn keep_both<H: Shelf>(alloc: Global, shelf: &mut H) -> Result<bool, Fail> {
    let (fail, pass) = (Status::Fail, Status::Success);
    Ok(
        keep_ended(alloc, shelf, "0", (b'b', fail), (b'a', fail))?
            && keep_ended(alloc, shelf, "1.part", (b'a', pass), (b'c', fail))?,
    )
}

// A repository of these two runs, if there is memory for them. It is made in eighteen calls. These calls of all are to fail.
pub(crate) fn two_runs(alloc: Global, fails: &[u64]) -> Result<Option<MemShelf>, Fail> {
    let mut shelf = repository(alloc, fails)?;
    match keep_both(alloc, &mut shelf) {
        Ok(true) => Ok(Some(shelf)),
        Ok(false) => Ok(None),
        Err(fault) => Err(fault),
    }
}

// Whether these ids of one byte each are told where the file of the cache has these bytes.
fn fails<H: Shelf>(alloc: Global, shelf: &mut H, cache: &[u8], names: &[u8]) -> Result<bool, Fail> {
    let mut store = Store::open(alloc, shelf)?;
    store.put_cache_file(CacheFile::Failing, cache)?;
    let ids = failing(alloc, &mut store)?;
    Ok(are(ids.list(), names))
}

const TAKEN: [(&[u8], &[u8]); 8] = [
    (b"x", b"bc"),
    (b"subunit-failing 1\n0\n", b"bc"),
    (b"subunit-failing 1\n1\na\0b\0", b"bc"),
    (b"subunit-failing 1\n1\na\0z\0", b"cz"),
    (b"subunit-failing 1\n2\nb\0c\0", b"bc"),
    (b"subunit-failing 1\n2\nz\0", b"z"),
    (b"subunit-failing 1\n02\nz\0", b"bc"),
    (b"subunit-failing 1\n3\nz\0", b"bc"),
];

#[test]
fn a_cache_is_taken_for_the_runs_that_it_covers(rt: HostRuntime) -> Result<(), Fail> {
    for (cache, names) in TAKEN {
        let mut shelf = two_runs(rt.alloc(), &[])?.ok_or("memory")?;
        assert!(rt; fails(rt.alloc(), &mut shelf, cache, names)?);
    }
    Ok(())
}
