//! `testr upgrade`: a folder of the original tool becomes a repository of its runs, or stays one of that tool.

ghost use Rattle.std.specs.Prelude.{◌≡◌, None, IfOk};
ghost use Rattle.edge_io.specs.MemState.{folder_of};

use crate::folders::{empty, of_format};
use edge_io::{MemShelf, Shelf};
use std::alloc::Global;
use std::process::Abort;
use std::sync::Wait;
use std::test::Fail;
use std::thread::Threads;
use trial_calls::{FAIL, FOO, NOTHING, SHELF_FAULT, call, has_file, put, source, tells_of};

const OLD_FORMAT: &[u8] = b"1\n";

const NEW_FORMAT: &[u8] = b"subunit-store 2\n";

const UPGRADED: (u8, &[u8], &[u8]) = (0, b"upgraded 3 runs\n", NOTHING);

const NOT_OLD: (u8, &[u8], &[u8]) = (3, NOTHING, b"testr: nothing to upgrade\n");

// `test: a` and `success: a`.
const LINES: &[u8] = b"test: a\nsuccess: a\n";

// The packets of what these tell.
const LINES_KEPT: &[u8] =
    b"\xb3\x29\x02\x0a\x01a\x65\x7d\xa0\xdf\xb3\x29\x03\x0a\x01a\xdd\xc1\xc7\xba";

// Parts that are not closed.
const CUT_OFF: &[u8] = b"test: a\nfailure: a [ multipart\n";

// Three runs, of which the second was removed. `foo` failed in the first one.
fn put_files(alloc: Global, shelf: &mut MemShelf) -> Result<(), Fail>
    requires { (folder_of shelf.old).disk.pending ≡ None }
    ensures { (folder_of shelf.new).disk.pending ≡ None }
{
    put(alloc, shelf, b"format", OLD_FORMAT)?;
    put(alloc, shelf, b"next-stream", b"3\n")?;
    put(alloc, shelf, b"0", FAIL)?;
    put(alloc, shelf, b"failing", FAIL)?;
    put(alloc, shelf, b"2", FOO)
}

// The folder of these, which fails at these calls.
fn old_folder(alloc: Global, fails: &[u64]) -> Result<MemShelf, Fail>
    ensures { IfOk result (λ shelf. (folder_of shelf).disk.pending ≡ None) }
{
    let mut shelf = empty(alloc, fails)?;
    put_files(alloc, &mut shelf)?;
    Ok(shelf)
}

// The same with these bytes in one file.
fn folder_with(alloc: Global, name: &[u8], bytes: &[u8]) -> Result<MemShelf, Fail> {
    let mut shelf = old_folder(alloc, &[])?;
    put(alloc, &mut shelf, name, bytes)?;
    Ok(shelf)
}

fn upgrades<R: Threads + Wait + Sync + AllocGlobal>(
    rt: &R,
    shelf: &mut MemShelf,
    wanted: (u8, &[u8], &[u8]),
) -> Result<bool, Fail> {
    tells_of(rt, &["testr", "upgrade"], shelf, FOO, 12, wanted)
}

// The files that the original tool wrote are there.
fn keeps_old_files(shelf: &mut MemShelf) -> Result<bool, Fail> {
    Ok(
        has_file(shelf, "next-stream", b"3\n")?
            && has_file(shelf, "0", FAIL)?
            && has_file(shelf, "failing", FAIL)?
            && has_file(shelf, "2", FOO)?,
    )
}

// The files that an upgrade makes are there.
fn has_new_files(shelf: &mut MemShelf) -> Result<bool, Fail> {
    Ok(
        has_file(shelf, "format", NEW_FORMAT)?
            && has_file(shelf, "base.set", b"subunit-base 1\n3\nfoo\0")?
            && has_file(shelf, "0.part", FAIL)?
            && has_file(shelf, "1.part", NOTHING)?
            && has_file(shelf, "2.part", FOO)?,
    )
}

// Commands in turn, behind an upgrade, and what each tells.
const BEHIND: [(&[&str], (u8, &[u8], &[u8])); 8] = [
    (&["testr", "failing", "--list"], (1, b"foo\n", NOTHING)),
    (
        &["testr", "last"],
        (0, b"Ran 1 tests\nPASSED (id=2)\n", NOTHING),
    ),
    (&["testr", "last", "--subunit"], (0, FOO, NOTHING)),
    (&["testr", "stats"], (0, b"runs=3\n", NOTHING)),
    (
        &["testr", "load"],
        (0, b"Ran 1 tests\nPASSED (id=3)\n", NOTHING),
    ),
    (&["testr", "failing", "--list"], (0, NOTHING, NOTHING)),
    (&["testr", "stats"], (0, b"runs=4\n", NOTHING)),
    (&["testr", "upgrade"], NOT_OLD),
];

fn goes_on<R: Threads + Wait + Sync + AllocGlobal + Abort>(
    rt: &R,
    shelf: &mut MemShelf,
) -> Result<(), Fail> {
    for (row, &(words, wanted)) in BEHIND.iter().enumerate() {
        assert!(rt; tells_of(rt, words, shelf, FOO, 12, wanted)?, "row {row}");
    }
    Ok(())
}

#[test]
fn a_folder_of_the_original_tool_becomes_a_repository(rt: HostRuntime) -> Result<(), Fail> {
    let mut shelf = old_folder(rt.alloc(), &[])?;
    assert!(rt; upgrades(&rt, &mut shelf, UPGRADED)?);
    assert!(rt; keeps_old_files(&mut shelf)? && has_new_files(&mut shelf)?);
    goes_on(&rt, &mut shelf)
}

#[test]
fn lines_of_version_1_are_kept_as_packets(rt: HostRuntime) -> Result<(), Fail> {
    let mut shelf = folder_with(rt.alloc(), b"2", LINES)?;
    assert!(rt; upgrades(&rt, &mut shelf, UPGRADED)?);
    let words = ["testr", "last", "--subunit"];
    assert!(rt; tells_of(&rt, &words, &mut shelf, FOO, 12, (0, LINES_KEPT, NOTHING))?);
    Ok(())
}

// A file with other bytes, and the line then.
const REFUSED: [(&str, &[u8], &[u8]); 8] = [
    ("next-stream", b"x", b"testr: next-stream is no number\n"),
    (
        "next-stream",
        b"1000001\n",
        b"testr: next-stream is no number\n",
    ),
    ("format", b"2\n", b"testr: unknown repository format\n"),
    (
        "format",
        b"subunit-store 1\n",
        b"testr: nothing to upgrade\n",
    ),
    ("0", CUT_OFF, b"testr: run 0 is damaged\n"),
    ("2", b"x\n", b"testr: run 2 is damaged\n"),
    ("failing", CUT_OFF, b"testr: the failing set is damaged\n"),
    ("failing", b"\xb3", b"testr: the failing set is damaged\n"),
];

// Whether it is refused, the file keeps its bytes, and there is no base.
fn is_refused<R: Threads + Wait + Sync + AllocGlobal>(
    rt: &R,
    row: &(&str, &[u8], &[u8]),
) -> Result<bool, Fail> {
    let &(name, bytes, line) = row;
    let mut shelf = folder_with(rt.alloc(), name.as_bytes(), bytes)?;
    Ok(
        upgrades(rt, &mut shelf, (3, NOTHING, line))?
            && has_file(&mut shelf, name, bytes)?
            && shelf.length("base.set")?.is_none(),
    )
}

#[test]
fn other_folders_are_refused(rt: HostRuntime) -> Result<(), Fail> {
    for (row, refused) in REFUSED.iter().enumerate() {
        assert!(rt; is_refused(&rt, refused)?, "row {row}");
    }
    Ok(())
}

#[test]
fn a_folder_without_its_files_is_refused(rt: HostRuntime) -> Result<(), Fail> {
    let mut shelf = empty(rt.alloc(), &[])?;
    let line = b"testr: no repository here\n";
    assert!(rt; upgrades(&rt, &mut shelf, (3, NOTHING, line))?);
    let mut bare = of_format(rt.alloc(), OLD_FORMAT)?;
    let line = b"testr: next-stream is no number\n";
    assert!(rt; upgrades(&rt, &mut bare, (3, NOTHING, line))?);
    Ok(())
}

// Whether the folder is still the old one, and an upgrade makes it the new one; or it is that already.
fn is_old_or_new<R: Threads + Wait + Sync + AllocGlobal>(
    rt: &R,
    shelf: &mut MemShelf,
) -> Result<bool, Fail> {
    let wanted = if has_file(shelf, "format", OLD_FORMAT)? {
        UPGRADED
    } else {
        NOT_OLD
    };
    Ok(
        keeps_old_files(shelf)?
            && upgrades(rt, shelf, wanted)?
            && keeps_old_files(shelf)?
            && has_new_files(shelf)?,
    )
}

// No upgrade of this folder has more calls of the folder.
const MOST_CALLS: u64 = 64;

// Whether an upgrade tells of a fault of the folder, or that it is done.
fn fails_or_is_done<R: Threads + Wait + Sync + AllocGlobal>(
    rt: &R,
    shelf: &mut MemShelf,
) -> Result<bool, Fail> {
    let mut input = source(rt.alloc(), FOO, 12, &[])?;
    let told = call(rt, &["testr", "upgrade"], shelf, &mut input)?;
    Ok(told.is(4, NOTHING, SHELF_FAULT) || told.is(0, UPGRADED.1, NOTHING))
}

// Whether it does so where the folder fails at this call, and a stop then leaves the old folder or the new one.
fn fails_well<R: Threads + Wait + Sync + AllocGlobal>(rt: &R, number: u64) -> Result<bool, Fail> {
    let mut shelf = old_folder(rt.alloc(), &[number])?;
    Ok(fails_or_is_done(rt, &mut shelf)? && is_left_well(rt, &shelf, MOST_CALLS)?)
}

#[test]
fn each_call_of_the_folder_may_fail(rt: HostRuntime) -> Result<(), Fail> {
    for number in 0..MOST_CALLS {
        assert!(rt; fails_well(&rt, number)?, "call {number}");
    }
    Ok(())
}

// Whether a stop at this moment leaves the old folder or the new one, by either choice.
fn is_left_well<R: Threads + Wait + Sync + AllocGlobal>(
    rt: &R,
    shelf: &MemShelf,
    moment: u64,
) -> Result<bool, Fail> {
    let mut image = shelf.image(moment, false)?;
    let mut other = shelf.image(moment, true)?;
    Ok(is_old_or_new(rt, &mut image)? && is_old_or_new(rt, &mut other)?)
}

#[test]
fn a_stop_leaves_the_old_folder_or_the_new_one(rt: HostRuntime) -> Result<(), Fail> {
    let mut shelf = old_folder(rt.alloc(), &[])?;
    assert!(rt; upgrades(&rt, &mut shelf, UPGRADED)?);
    for moment in 0..MOST_CALLS {
        assert!(rt; is_left_well(&rt, &shelf, moment)?, "moment {moment}");
    }
    Ok(())
}
