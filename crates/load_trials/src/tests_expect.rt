//! `testr load --expect=FILE`: what is told of the tests that were expected and did not run.

use edge_io::{MapSite, MemShelf, PlanSpawner, Shelf};
use std::alloc::Global;
use std::sync::Wait;
use std::test::Fail;
use std::thread::Threads;
use sub_number::{Bytes, Text};
use trial_calls::{
    FOO, FOO_KEPT, NOTHING, PASSED_AS_0, WRONG_USAGE, call_with, has_file, repository,
};

const BAR_IS_MISSING: &[u8] = b"testr: 1 of 2 tests that were asked for did not run\n  bar\n";

// The file `l` of a load of the file `a`, in which `foo` passed: its words, what the list has, the status, what the two sinks
// take, and the name of the run that is kept then.
type Row = (
    &'static [&'static str],
    &'static [u8],
    u8,
    &'static [u8],
    &'static [u8],
    &'static str,
);

const EXPECT: &[&str] = &["testr", "load", "--expect=l", "a"];

const ROWS: [Row; 8] = [
    (EXPECT, b"foo\n", 0, PASSED_AS_0, NOTHING, "0"),
    (EXPECT, b"foo\nbar\n", 1, PASSED_AS_0, BAR_IS_MISSING, "0"),
    (
        EXPECT,
        b" bar\r\n\nfoo\nbar\n",
        1,
        PASSED_AS_0,
        BAR_IS_MISSING,
        "0",
    ),
    (EXPECT, b"\n", 0, PASSED_AS_0, NOTHING, "0"),
    (
        &["testr", "load", "-q", "--partial", "--expect", "l", "a"],
        b"foo\nbar\n",
        1,
        NOTHING,
        BAR_IS_MISSING,
        "0.part",
    ),
    // The last one stands.
    (
        &["testr", "load", "--expect=m", "a", "--expect=l"],
        b"foo\n",
        0,
        PASSED_AS_0,
        NOTHING,
        "0",
    ),
    (
        &["testr", "load", "--force-init", "--expect=l", "a"],
        b"bar\nfoo\n",
        1,
        PASSED_AS_0,
        BAR_IS_MISSING,
        "0",
    ),
    // What is expected is not told of where it is not asked for.
    (
        &["testr", "load", "a"],
        b"bar\n",
        0,
        PASSED_AS_0,
        NOTHING,
        "0",
    ),
];

fn put_in(alloc: Global, site: &mut MapSite, name: &[u8], bytes: &[u8]) -> Result<(), Fail> {
    let name = Text::new(alloc, name)?;
    let bytes = Bytes::new(alloc, bytes)?;
    site.put(name, bytes)?;
    Ok(())
}

// The two files.
fn site_of(alloc: Global, list: &[u8]) -> Result<MapSite, Fail> {
    let mut site = MapSite::new(alloc, Vec::new(alloc));
    put_in(alloc, &mut site, b"a", FOO)?;
    put_in(alloc, &mut site, b"l", list)?;
    Ok(site)
}

// Whether the program tells this over the two files.
fn tells_of<R: Threads + Wait + Sync + AllocGlobal>(
    rt: &R,
    words: &[&str],
    shelf: &mut MemShelf,
    list: &[u8],
    wanted: (u8, &[u8], &[u8]),
) -> Result<bool, Fail> {
    let alloc = rt.alloc();
    let (status, out, err) = wanted;
    let mut site = site_of(alloc, list)?;
    let mut spawner = PlanSpawner::new(alloc, Vec::new(alloc), Vec::new(alloc));
    Ok(call_with(rt, words, shelf, &mut spawner, &mut site, &[])?.is(status, out, err))
}

fn ends_so<R: Threads + Wait + Sync + AllocGlobal>(rt: &R, row: &Row) -> Result<bool, Fail> {
    let (words, list, status, out, err, run) = *row;
    let mut shelf = repository(rt.alloc(), &[])?;
    Ok(
        tells_of(rt, words, &mut shelf, list, (status, out, err))?
            && has_file(&mut shelf, run, FOO_KEPT)?,
    )
}

#[test]
fn expected_tests_that_did_not_run_are_told_of(rt: HostRuntime) -> Result<(), Fail> {
    for (at, row) in ROWS.iter().enumerate() {
        assert!(rt; ends_so(&rt, row)?, "row {at}");
    }
    Ok(())
}

// Words, what the list has, the status and the line.
const REFUSED: [(&[&str], &[u8], u8, &[u8]); 4] = [
    (
        &["testr", "load", "--expect=m", "a"],
        NOTHING,
        3,
        b"testr: no file m\n",
    ),
    (EXPECT, b"foo\n\xff\n", 3, b"testr: l line 2: not an id\n"),
    // The list is read before a file that is not there.
    (
        &["testr", "load", "--expect=m", "b"],
        NOTHING,
        3,
        b"testr: no file m\n",
    ),
    (&["testr", "run", "--expect=l"], NOTHING, 2, WRONG_USAGE),
];

// Whether it is refused so over no repository, and none is made.
fn refuses<R: Threads + Wait + Sync + AllocGlobal>(
    rt: &R,
    row: &(&[&str], &[u8], u8, &[u8]),
) -> Result<bool, Fail> {
    let (words, list, status, line) = *row;
    let mut shelf = MemShelf::new(rt.alloc(), Vec::new(rt.alloc()));
    Ok(
        tells_of(rt, words, &mut shelf, list, (status, NOTHING, line))?
            && shelf.length("format")?.is_none(),
    )
}

#[test]
fn a_list_that_cannot_be_read_is_refused_before_anything_is_done(
    rt: HostRuntime,
) -> Result<(), Fail> {
    for (at, row) in REFUSED.iter().enumerate() {
        assert!(rt; refuses(&rt, row)?, "row {at}");
    }
    Ok(())
}
