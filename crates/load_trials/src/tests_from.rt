//! `testr upgrade --from=DIR`: the old files of another folder are copied, and the folder is upgraded then.

use crate::folders::empty;
use crate::other_folder::{
    FROM_OLD, OLD_FORMAT, UPGRADED, is_upgraded, put_in, site_of, tells_at, upgrades_from,
};
use edge_io::{MapSite, MemShelf, Shelf};
use std::alloc::Global;
use std::process::Abort;
use std::sync::Wait;
use std::test::Fail;
use std::thread::Threads;
use trial_calls::{FAIL, FOO, NOTHING, WRONG_USAGE, has_file, put, tells_of};

// The folder `old` with these bytes in one file.
fn site_with(alloc: Global, name: &[u8], bytes: &[u8]) -> Result<MapSite, Fail> {
    let mut site = site_of(alloc, &[])?;
    put_in(alloc, &mut site, name, bytes)?;
    Ok(site)
}

fn tells<R: Threads + Wait + Sync + AllocGlobal>(
    rt: &R,
    words: &[&str],
    shelf: &mut MemShelf,
    wanted: (u8, &[u8], &[u8]),
) -> Result<bool, Fail> {
    tells_of(rt, words, shelf, FOO, 12, wanted)
}

// Commands in turn, behind an upgrade, and what each tells.
const BEHIND: [(&[&str], (u8, &[u8], &[u8])); 4] = [
    (&["testr", "failing", "--list"], (1, b"foo\n", NOTHING)),
    (&["testr", "last", "--subunit"], (0, FOO, NOTHING)),
    (&["testr", "stats"], (0, b"runs=3\n", NOTHING)),
    (
        &["testr", "upgrade"],
        (3, NOTHING, b"testr: nothing to upgrade\n"),
    ),
];

fn goes_on<R: Threads + Wait + Sync + AllocGlobal + Abort>(
    rt: &R,
    shelf: &mut MemShelf,
) -> Result<(), Fail> {
    for (row, &(words, wanted)) in BEHIND.iter().enumerate() {
        assert!(rt; tells(rt, words, shelf, wanted)?, "row {row}");
    }
    Ok(())
}

#[test]
fn another_folder_becomes_a_repository_here(rt: HostRuntime) -> Result<(), Fail> {
    let mut shelf = empty(rt.alloc(), &[])?;
    assert!(rt; upgrades_from(&rt, &mut shelf)? && is_upgraded(&mut shelf)?);
    goes_on(&rt, &mut shelf)
}

#[test]
fn the_folder_may_be_a_word_of_its_own(rt: HostRuntime) -> Result<(), Fail> {
    let mut shelf = empty(rt.alloc(), &[])?;
    let mut site = site_of(rt.alloc(), &[])?;
    let words = ["stestr", "upgrade", "--from", "old"];
    assert!(rt;
        tells_at(&rt, &words, &mut shelf, &mut site, UPGRADED)? && is_upgraded(&mut shelf)?
    );
    Ok(())
}

const NO_COMMANDS: [&[&str]; 4] = [
    &["testr", "upgrade", "--from="],
    &["testr", "upgrade", "--from"],
    &["testr", "upgrade", "old"],
    &["testr", "stats", "--from=old"],
];

#[test]
fn words_without_a_folder_are_no_command(rt: HostRuntime) -> Result<(), Fail> {
    let mut shelf = empty(rt.alloc(), &[])?;
    for (row, &words) in NO_COMMANDS.iter().enumerate() {
        assert!(rt;
            tells(&rt, words, &mut shelf, (2, NOTHING, WRONG_USAGE))?,
            "row {row}"
        );
    }
    Ok(())
}

// A file of the other folder with other bytes, and the line then.
const REFUSED: [(&[u8], &[u8], &[u8]); 5] = [
    (
        b"old/format",
        b"2\n",
        b"testr: unknown repository format in old\n",
    ),
    (
        b"old/format",
        b"subunit-store 1\n",
        b"testr: nothing to upgrade in old\n",
    ),
    (
        b"old/next-stream",
        b"x",
        b"testr: next-stream is no number in old\n",
    ),
    (b"old/2", b"x\n", b"testr: run 2 is damaged\n"),
    (
        b"old/failing",
        b"\xb3",
        b"testr: the failing set is damaged\n",
    ),
];

// Whether it is refused, and no repository is made.
fn is_refused<R: Threads + Wait + Sync + AllocGlobal>(
    rt: &R,
    row: &(&[u8], &[u8], &[u8]),
) -> Result<bool, Fail> {
    let &(name, bytes, line) = row;
    let mut shelf = empty(rt.alloc(), &[])?;
    let mut site = site_with(rt.alloc(), name, bytes)?;
    Ok(
        tells_at(rt, FROM_OLD, &mut shelf, &mut site, (3, NOTHING, line))?
            && shelf.length("base.set")?.is_none(),
    )
}

#[test]
fn other_folders_are_refused_by_name(rt: HostRuntime) -> Result<(), Fail> {
    for (row, refused) in REFUSED.iter().enumerate() {
        assert!(rt; is_refused(&rt, refused)?, "row {row}");
    }
    Ok(())
}

// The folder `bare` has a file `format` alone, and the folder `none` no file.
#[test]
fn a_folder_without_its_files_is_refused_by_name(rt: HostRuntime) -> Result<(), Fail> {
    let mut shelf = empty(rt.alloc(), &[])?;
    let mut site = site_with(rt.alloc(), b"bare/format", OLD_FORMAT)?;
    let words = ["testr", "upgrade", "--from=bare"];
    let line = b"testr: next-stream is no number in bare\n";
    assert!(rt; tells_at(&rt, &words, &mut shelf, &mut site, (3, NOTHING, line))?);
    let words = ["testr", "upgrade", "--from=none"];
    let line = b"testr: no repository in none\n";
    assert!(rt; tells_at(&rt, &words, &mut shelf, &mut site, (3, NOTHING, line))?);
    Ok(())
}

#[test]
fn a_refused_upgrade_leaves_the_copies(rt: HostRuntime) -> Result<(), Fail> {
    let mut shelf = empty(rt.alloc(), &[])?;
    let mut site = site_with(rt.alloc(), b"old/2", b"x\n")?;
    let line = b"testr: run 2 is damaged\n";
    assert!(rt; tells_at(&rt, FROM_OLD, &mut shelf, &mut site, (3, NOTHING, line))?);
    assert!(rt; has_file(&mut shelf, "format", OLD_FORMAT)?);
    assert!(rt; tells(&rt, &["testr", "upgrade"], &mut shelf, (3, NOTHING, line))?);
    Ok(())
}

#[test]
fn runs_behind_the_next_number_stay_there(rt: HostRuntime) -> Result<(), Fail> {
    let mut shelf = empty(rt.alloc(), &[])?;
    let mut site = site_with(rt.alloc(), b"old/3", FAIL)?;
    assert!(rt; tells_at(&rt, FROM_OLD, &mut shelf, &mut site, UPGRADED)?);
    assert!(rt; is_upgraded(&mut shelf)? && shelf.length("3")?.is_none());
    Ok(())
}

// A file that stands here, and the line then.
const HERE: [(&str, &[u8], &[u8]); 6] = [
    (
        "format",
        b"subunit-store 1\n",
        b"testr: a repository is already here\n",
    ),
    (
        "format",
        OLD_FORMAT,
        b"testr: an old folder is already here; testr upgrade takes it over\n",
    ),
    ("format", b"2\n", b"testr: unknown repository format\n"),
    ("0", FOO, b"testr: other files are in .testrepository\n"),
    ("1", FOO, b"testr: other files are in .testrepository\n"),
    ("3", FAIL, b"testr: other files are in .testrepository\n"),
];

// Whether it is refused where this file stands here, which keeps its bytes.
fn is_kept<R: Threads + Wait + Sync + AllocGlobal>(
    rt: &R,
    row: &(&str, &[u8], &[u8]),
) -> Result<bool, Fail> {
    let &(name, bytes, line) = row;
    let mut shelf = empty(rt.alloc(), &[])?;
    put(rt.alloc(), &mut shelf, name.as_bytes(), bytes)?;
    let mut site = site_of(rt.alloc(), &[])?;
    Ok(
        tells_at(rt, FROM_OLD, &mut shelf, &mut site, (3, NOTHING, line))?
            && has_file(&mut shelf, name, bytes)?,
    )
}

#[test]
fn what_stands_here_stays(rt: HostRuntime) -> Result<(), Fail> {
    for (row, here) in HERE.iter().enumerate() {
        assert!(rt; is_kept(&rt, here)?, "row {row}");
    }
    Ok(())
}

#[test]
fn copies_that_stand_here_are_taken(rt: HostRuntime) -> Result<(), Fail> {
    let mut shelf = empty(rt.alloc(), &[])?;
    put(rt.alloc(), &mut shelf, b"next-stream", b"3\n")?;
    put(rt.alloc(), &mut shelf, b"0", FAIL)?;
    assert!(rt; upgrades_from(&rt, &mut shelf)? && is_upgraded(&mut shelf)?);
    Ok(())
}
