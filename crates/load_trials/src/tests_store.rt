//! The folder of `init` and `load`: what it must have, and what it gets.

use crate::folders::{empty, of_format};
use edge_io::{Failed, Finish, MemShelf, Shelf};
use itoa::Buffer;
use std::alloc::Global;
use std::process::Abort;
use std::sync::Wait;
use std::test::Fail;
use std::thread::Threads;
use trial_calls::{
    CallOutcome, FAIL_KEPT, FOO, FOO_KEPT, NOTHING, PASSED_AS_0, PASSED_AS_1, call, has_file,
    has_started, loads, project_of, put, repository, shows, source, tells_and_leaves, tells_of,
};

const CONF: &[u8] = b"[DEFAULT]\ntest_command=run $LISTOPT\ntest_list_option=--list\n";

const NO_STORE: &[u8] = b"testr: no repository here\n";

const FORMAT: &[u8] = b"subunit-store 1\n";

fn init<R: Threads + Wait + Sync + AllocGlobal, H: Shelf>(
    rt: &R,
    shelf: &mut H,
) -> Result<CallOutcome, Fail> {
    let mut input = source(rt.alloc(), FOO, 12, &[])?;
    call(rt, &["testr", "init"], shelf, &mut input)
}

// Whether `testr init` tells this.
fn inits<R: Threads + Wait + Sync + AllocGlobal>(
    rt: &R,
    shelf: &mut MemShelf,
    status: u8,
    line: &[u8],
) -> Result<bool, Fail> {
    Ok(init(rt, shelf)?.is(status, NOTHING, line))
}

// How many files the folder has.
fn count(alloc: Global, shelf: &mut MemShelf) -> Result<usize, Fail> {
    Ok(shelf.names(alloc)?.len())
}

fn is_made_once<R: Threads + Wait + Sync + AllocGlobal + Abort>(
    rt: &R,
    shelf: &mut MemShelf,
) -> Result<(), Fail> {
    assert!(rt; loads(rt, shelf, FOO, (3, NOTHING, NO_STORE))?);
    assert_eq!(rt; count(rt.alloc(), shelf)?, 0);
    assert!(rt; inits(rt, shelf, 0, NOTHING)?);
    assert!(rt; has_file(shelf, "format", FORMAT)?);
    assert!(rt; inits(rt, shelf, 3, b"testr: a repository is already here\n")?);
    assert_eq!(rt; count(rt.alloc(), shelf)?, 1);
    Ok(())
}

fn takes_two_runs<R: Threads + Wait + Sync + AllocGlobal + Abort>(
    rt: &R,
    shelf: &mut MemShelf,
) -> Result<(), Fail> {
    assert!(rt; loads(rt, shelf, FOO, (0, PASSED_AS_0, NOTHING))?);
    assert!(rt; loads(rt, shelf, FOO, (0, PASSED_AS_1, NOTHING))?);
    assert!(rt; has_file(shelf, "0", FOO_KEPT)?);
    assert!(rt; has_file(shelf, "1", FOO_KEPT)?);
    // The format, the runs and the two caches.
    assert_eq!(rt; count(rt.alloc(), shelf)?, 5);
    Ok(())
}

#[test]
fn a_repository_is_made_once(rt: HostRuntime) -> Result<(), Fail> {
    let mut shelf = empty(rt.alloc(), &[])?;
    is_made_once(&rt, &mut shelf)?;
    takes_two_runs(&rt, &mut shelf)
}

// Whether a load is refused with this line, the input is not read, and there are so many files as before.
fn refuses_load<R: Threads + Wait + Sync + AllocGlobal>(
    rt: &R,
    shelf: &mut MemShelf,
    line: &[u8],
    files: usize,
) -> Result<bool, Fail> {
    let wanted = (3, NOTHING, line);
    Ok(
        tells_and_leaves(rt, &["testr", "load"], shelf, FOO, 12, wanted, 12)?
            && count(rt.alloc(), shelf)? == files,
    )
}

const OTHER_FORMATS: [&[u8]; 4] = [b"1\n", NOTHING, b"subunit-store 1", b"subunit-store 1\n\n"];

#[test]
fn another_format_is_refused(rt: HostRuntime) -> Result<(), Fail> {
    for (row, bytes) in OTHER_FORMATS.iter().enumerate() {
        let mut shelf = of_format(rt.alloc(), bytes)?;
        let line = b"testr: unknown repository format\n";
        assert!(rt; refuses_load(&rt, &mut shelf, line, 1)?, "row {row}");
    }
    Ok(())
}

const BASED: &[u8] = b"subunit-store 2\n";

// A folder of three runs from before, the second of them empty, after which `foo` failed by a base of these bytes.
fn begun_before(alloc: Global, base: &[u8]) -> Result<MemShelf, Fail> {
    let mut shelf = of_format(alloc, BASED)?;
    put(alloc, &mut shelf, b"base.set", base)?;
    put(alloc, &mut shelf, b"0.part", FAIL_KEPT)?;
    put(alloc, &mut shelf, b"1.part", NOTHING)?;
    put(alloc, &mut shelf, b"2.part", FOO_KEPT)?;
    Ok(shelf)
}

// Each command in turn, and what it tells.
const BEHIND_A_BASE: [(&[&str], (u8, &[u8], &[u8])); 5] = [
    (&["testr", "failing", "--list"], (1, b"foo\n", NOTHING)),
    (
        &["testr", "last"],
        (0, b"Ran 1 tests\nPASSED (id=2)\n", NOTHING),
    ),
    (
        &["testr", "load", "--partial"],
        (0, b"Ran 1 tests\nPASSED (id=3)\n", NOTHING),
    ),
    (&["testr", "failing", "--list"], (0, NOTHING, NOTHING)),
    (
        &["testr", "load"],
        (0, b"Ran 1 tests\nPASSED (id=4)\n", NOTHING),
    ),
];

#[test]
fn a_folder_with_a_base_goes_on(rt: HostRuntime) -> Result<(), Fail> {
    let mut shelf = begun_before(rt.alloc(), b"subunit-base 1\n3\nfoo\0")?;
    for &(words, wanted) in &BEHIND_A_BASE {
        assert!(rt; tells_of(&rt, words, &mut shelf, FOO, 12, wanted)?);
    }
    let mut damaged = begun_before(rt.alloc(), b"subunit-base 1\n3\nfoo")?;
    let line = b"testr: the base set is damaged\n";
    assert!(rt; refuses_load(&rt, &mut damaged, line, 5)?);
    Ok(())
}

fn lacks_run_1(alloc: Global) -> Result<MemShelf, Fail> {
    let mut shelf = repository(alloc, &[])?;
    put(alloc, &mut shelf, b"0", FOO_KEPT)?;
    put(alloc, &mut shelf, b"2", FOO_KEPT)?;
    Ok(shelf)
}

#[test]
fn a_missing_run_is_named(rt: HostRuntime) -> Result<(), Fail> {
    let mut shelf = lacks_run_1(rt.alloc())?;
    assert!(rt; refuses_load(&rt, &mut shelf, b"testr: run 1 is missing\n", 3)?);
    Ok(())
}

// A repository of an empty run, and files beside it that are none.
fn with_other_names(alloc: Global) -> Result<MemShelf, Fail> {
    let mut shelf = repository(alloc, &[])?;
    put(alloc, &mut shelf, b"0", NOTHING)?;
    put(alloc, &mut shelf, b"0.part", FOO_KEPT)?;
    put(alloc, &mut shelf, b"01", FOO_KEPT)?;
    put(alloc, &mut shelf, b"lock", FOO_KEPT)?;
    Ok(shelf)
}

fn has_run_1<R: Threads + Wait + Sync + AllocGlobal + Abort>(
    rt: &R,
    shelf: &mut MemShelf,
) -> Result<(), Fail> {
    assert!(rt; loads(rt, shelf, FOO, (0, PASSED_AS_1, NOTHING))?);
    assert!(rt; has_file(shelf, "0", NOTHING)?);
    assert!(rt; has_file(shelf, "0.part", FOO_KEPT)?);
    assert!(rt; has_file(shelf, "1", FOO_KEPT)?);
    Ok(())
}

#[test]
fn a_number_has_one_run_and_other_names_have_none(rt: HostRuntime) -> Result<(), Fail> {
    let mut shelf = with_other_names(rt.alloc())?;
    has_run_1(&rt, &mut shelf)
}

// Publishes an empty file, in whatever folder.
fn publish_empty<H: Shelf>(shelf: &mut H, name: &str) -> Result<(), Failed> {
    shelf.sync_folder()?;
    shelf.start_draft()?;
    shelf.publish(name)
}

// A repository with a run of each number.
fn full(alloc: Global) -> Result<MemShelf, Fail> {
    let mut shelf = repository(alloc, &[])?;
    fill(&mut shelf)?;
    Ok(shelf)
}

fn fill(shelf: &mut MemShelf) -> Result<(), Fail> {
    let mut digits = Buffer::new();
    for number in 0..1_000_000u32 {
        publish_empty(shelf, digits.format(number))?;
    }
    Ok(())
}

// Whether a run is refused with this line, and nothing is started.
fn refuses_run<R: Threads + Wait + Sync + AllocGlobal>(
    rt: &R,
    shelf: &mut MemShelf,
    line: &[u8],
) -> Result<bool, Fail> {
    // A pattern that is none is refused later, and a worker would pass.
    let mut project = project_of(rt.alloc(), CONF, &[(FOO, Finish::Exit(0))], &[], &[])?;
    let words = ["testr", "run", "(p"];
    Ok(shows(rt, &words, shelf, &mut project, (3, NOTHING, line))? && has_started(&project, &[]))
}

fn refuses_both<R: Threads + Wait + Sync + AllocGlobal + Abort>(
    rt: &R,
    shelf: &mut MemShelf,
) -> Result<(), Fail> {
    let line = b"testr: the repository is full\n".as_slice();
    let wanted = (3, NOTHING, line);
    let words = ["testr", "load"];
    assert!(rt; tells_and_leaves(rt, &words, shelf, FOO, 12, wanted, 12)?);
    assert!(rt; refuses_run(rt, shelf, line)?);
    assert_eq!(rt; shelf.length("1000000")?, None);
    Ok(())
}

#[test]
fn a_full_repository_takes_no_run(rt: HostRuntime) -> Result<(), Fail> {
    let mut shelf = full(rt.alloc())?;
    refuses_both(&rt, &mut shelf)
}
