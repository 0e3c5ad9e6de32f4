//! `testr load` of files, and the words of the commands.

use edge_io::{MapSite, MemShelf, PlanSpawner, Shelf};
use std::alloc::Global;
use std::sync::Wait;
use std::test::Fail;
use std::thread::Threads;
use sub_number::{Bytes, Text};
use testr_cli::{Command, Verb, read_command};
use trial_calls::{
    CallOutcome, FOO, FOO_KEPT, NOTHING, PASSED_AS_0, call_with, has_file, owned, repository,
};

// `foo` passed, under lane 1.
const FOO_KEPT_1: &[u8] = b"\xb3\x2d\x03\x0e\x03foo\x01\x31\xd3\xa8\xeb\x76";

// A site with this file.
fn site_a(alloc: Global, a: &[u8]) -> Result<MapSite, Fail> {
    let mut site = MapSite::new(alloc, Vec::new(alloc));
    put_in(alloc, &mut site, b"a", a)?;
    Ok(site)
}

fn put_in(alloc: Global, site: &mut MapSite, name: &[u8], bytes: &[u8]) -> Result<(), Fail> {
    let name = Text::new(alloc, name)?;
    let bytes = Bytes::new(alloc, bytes)?;
    site.put(name, bytes)?;
    Ok(())
}

// Files `a` and `b`.
fn site(alloc: Global, a: &[u8], b: &[u8]) -> Result<MapSite, Fail> {
    let mut site = site_a(alloc, a)?;
    put_in(alloc, &mut site, b"b", b)?;
    Ok(site)
}

// Calls the program over these files.
fn call_at<R: Threads + Wait + Sync + AllocGlobal>(
    rt: &R,
    words: &[&str],
    shelf: &mut MemShelf,
    site: &mut MapSite,
) -> Result<CallOutcome, Fail> {
    let alloc = rt.alloc();
    let mut spawner = PlanSpawner::new(alloc, Vec::new(alloc), Vec::new(alloc));
    call_with(rt, words, shelf, &mut spawner, site, &[])
}

// Whether it tells this over these files.
fn tells_at<R: Threads + Wait + Sync + AllocGlobal>(
    rt: &R,
    words: &[&str],
    shelf: &mut MemShelf,
    site: &mut MapSite,
    wanted: (u8, &[u8], &[u8]),
) -> Result<bool, Fail> {
    let (status, out, err) = wanted;
    Ok(call_at(rt, words, shelf, site)?.is(status, out, err))
}

#[test]
fn one_file_is_recorded_under_lane_0(rt: HostRuntime) -> Result<(), Fail> {
    let mut site = site(rt.alloc(), FOO, NOTHING)?;
    let mut shelf = repository(rt.alloc(), &[])?;
    let words = ["testr", "load", "a"];
    let run = (words.as_slice(), "0", FOO_KEPT);
    assert!(rt; is_kept(&rt, run, &mut shelf, &mut site)?);
    Ok(())
}

// Whether a load of which these are the words, the name and the bytes of its run reports that one test passed.
fn is_kept<R: Threads + Wait + Sync + AllocGlobal>(
    rt: &R,
    run: (&[&str], &str, &[u8]),
    shelf: &mut MemShelf,
    site: &mut MapSite,
) -> Result<bool, Fail> {
    let (words, name, kept) = run;
    Ok(tells_at(rt, words, shelf, site, (0, PASSED_AS_0, NOTHING))? && has_file(shelf, name, kept)?)
}

#[test]
fn each_file_has_a_lane_of_its_own(rt: HostRuntime) -> Result<(), Fail> {
    let mut site = site(rt.alloc(), NOTHING, FOO)?;
    let mut shelf = repository(rt.alloc(), &[])?;
    let words = ["testr", "load", "a", "--partial", "b"];
    let run = (words.as_slice(), "0.part", FOO_KEPT_1);
    assert!(rt; is_kept(&rt, run, &mut shelf, &mut site)?);
    Ok(())
}

// Whether the files `a` and this one are refused so, and there is no run.
fn is_refused<R: Threads + Wait + Sync + AllocGlobal>(
    rt: &R,
    name: &str,
    shelf: &mut MemShelf,
    site: &mut MapSite,
    status: u8,
    line: &[u8],
) -> Result<bool, Fail> {
    let words = ["testr", "load", "a", name];
    Ok(tells_at(rt, &words, shelf, site, (status, NOTHING, line))? && shelf.length("0")?.is_none())
}

#[test]
fn a_missing_file_is_named(rt: HostRuntime) -> Result<(), Fail> {
    let mut site = site(rt.alloc(), FOO, NOTHING)?;
    let mut shelf = repository(rt.alloc(), &[])?;
    let line = b"testr: no file c\n";
    assert!(rt; is_refused(&rt, "c", &mut shelf, &mut site, 3, line)?);
    Ok(())
}

// The command that these words are.
fn read(alloc: Global, words: &[&str]) -> Result<Option<Command>, Fail> {
    let words = owned(alloc, words)?;
    Ok(read_command(alloc, &words)?)
}

// Whether it is a partial load of so many names.
fn is_partial_load(command: &Option<Command>, names: usize) -> bool {
    match command {
        Some(command) => {
            command.verb == Verb::Load && command.partial && command.names.list().len() == names
        }
        None => false,
    }
}

#[test]
fn options_and_names_stand_in_any_order(rt: HostRuntime) -> Result<(), Fail> {
    let words = ["load", "a", "--partial", "-", "--partial"];
    let command = read(rt.alloc(), &words)?;
    assert!(rt; is_partial_load(&command, 2));
    Ok(())
}

const NO_COMMANDS: [&[&str]; 5] = [
    &["last", "--subunit="],
    &["stats", "--all"],
    &["slowest", "-a"],
    &["init", "a"],
    &["load", "a\0"],
];

fn is_no_command(alloc: Global, words: &[&str]) -> Result<bool, Fail> {
    Ok(read(alloc, words)?.is_none())
}

#[test]
fn other_options_and_names_are_refused(rt: HostRuntime) -> Result<(), Fail> {
    for (row, words) in NO_COMMANDS.iter().enumerate() {
        assert!(rt; is_no_command(rt.alloc(), words)?, "row {row}");
    }
    Ok(())
}
