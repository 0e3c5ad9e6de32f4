// What no clause says of the folder's lock: who is kept out, and why a call was refused.

use crate::homes::{check_cause, enter_home, holds, is_there, leave_home, shell};
use crate::shelves::{publish_bytes, publish_one, put, shelf_adding, shelf_alone, shelf_together};
use edge_io::{Failed, Shelf};
use real_outside::FolderShelf;
use std::os::unix::fs::symlink;
use std::process::Abort;
use std::test::Fail;
use std::{fs, io};

fn check_beside(
    rt: &impl Abort,
    first: &mut FolderShelf<'_, HostRuntime>,
    second: &mut FolderShelf<'_, HostRuntime>,
) {
    assert_eq!(rt; first.start_draft(), Ok(()));
    assert_eq!(rt; second.length("0"), Err(Failed));
}

fn check_kept_out(
    rt: &impl Abort,
    host: &HostRuntime,
    early: &mut FolderShelf<'_, HostRuntime>,
    second: &mut FolderShelf<'_, HostRuntime>,
) {
    assert_eq!(rt; early.length("0"), Ok(None));
    // The first one, which has the lock, is dropped here.
    check_beside(rt, &mut shelf_alone(host), second);
    assert_eq!(rt; second.length("0"), Err(Failed));
    assert_eq!(rt; early.start_draft(), Err(Failed));
    check_let_in(rt, &mut shelf_alone(host));
}

fn check_let_in(rt: &impl Abort, last: &mut FolderShelf<'_, HostRuntime>) {
    assert_eq!(rt; last.length("0"), Ok(None));
}

// A refusal is for good, though the lock is free in the end. So is one of a shelf that has told of no folder, where the
// folder is another's work.
#[test]
fn other_shelves_are_kept_out(rt: HostRuntime) -> Result<(), Fail> {
    enter_home(&rt, "lock")?;
    check_kept_out(&rt, &rt, &mut shelf_alone(&rt), &mut shelf_alone(&rt));
    leave_home(&rt, "lock")?;
    Ok(())
}

fn check_later(rt: &impl Abort, host: &HostRuntime, early: &mut FolderShelf<'_, HostRuntime>) {
    assert_eq!(rt; early.sync_folder(), Ok(()));
    assert_eq!(rt; publish_one(host, "0"), Ok(()));
    assert_eq!(rt; early.length("0"), Err(Failed));
    assert_eq!(rt; early.start_draft(), Err(Failed));
}

// A folder that another shelf made is its work, also where the lock is free by then.
#[test]
fn a_folder_that_came_later_is_refused(rt: HostRuntime) -> Result<(), Fail> {
    enter_home(&rt, "later")?;
    check_later(&rt, &rt, &mut shelf_alone(&rt));
    leave_home(&rt, "later")?;
    Ok(())
}

fn check_removed(rt: &impl Abort, host: &HostRuntime, first: &mut FolderShelf<'_, HostRuntime>) {
    assert_eq!(rt; first.start_draft(), Ok(()));
    assert_eq!(rt; first.append(b"second"), Ok(()));
    assert!(rt; fs::remove_file(host, ".testrepository/lock").is_ok());
    assert_eq!(rt; publish_one(host, "0"), Ok(()));
    assert_eq!(rt; first.publish("1"), Err(Failed));
    assert_eq!(rt; first.start_draft(), Err(Failed));
}

// Where the lock's file is removed, a second shelf may get a lock of its own. The first one publishes nothing then.
#[test]
fn a_removed_lock_is_no_lock(rt: HostRuntime) -> Result<(), Fail> {
    enter_home(&rt, "removed")?;
    check_removed(&rt, &rt, &mut shelf_alone(&rt));
    assert!(rt; holds(&rt, ".testrepository/0", "first"));
    assert!(rt; !is_there(&rt, ".testrepository/1"));
    leave_home(&rt, "removed")?;
    Ok(())
}

// Gives the lock's name to what the command that begins so makes.
fn make_lock(rt: &HostRuntime, text: &str) -> io::Result<()> {
    let command = format!(in rt.alloc(); "cd .testrepository; rm -rf lock; {text} lock")?;
    shell(rt, command.as_str())
}

fn check_refused(rt: &impl Abort, shelf: &mut FolderShelf<'_, HostRuntime>) {
    assert_eq!(rt; shelf.sync_folder(), Err(Failed));
    assert_eq!(rt; shelf.start_draft(), Err(Failed));
}

fn check_strange_lock(rt: &impl Abort, host: &HostRuntime, text: &str) -> io::Result<()> {
    make_lock(host, text)?;
    check_refused(rt, &mut shelf_alone(host));
    Ok(())
}

// A lock's file that is a link, a folder or a pipe is not opened, and no file is made elsewhere.
#[test]
fn a_lock_is_a_regular_file(rt: HostRuntime) -> Result<(), Fail> {
    enter_home(&rt, "no-file")?;
    fs::create_dir(&rt, ".testrepository")?;
    check_strange_lock(&rt, &rt, "ln -s ../elsewhere")?;
    check_strange_lock(&rt, &rt, "mkfifo")?;
    check_strange_lock(&rt, &rt, "mkdir")?;
    assert!(rt; !is_there(&rt, "elsewhere"));
    leave_home(&rt, "no-file")?;
    Ok(())
}

fn check_shared(
    rt: &impl Abort,
    host: &HostRuntime,
    first: &mut FolderShelf<'_, HostRuntime>,
    second: &mut FolderShelf<'_, HostRuntime>,
) {
    assert_eq!(rt; first.length("0"), Ok(Some(5)));
    assert_eq!(rt; second.length("0"), Ok(Some(5)));
    assert_eq!(rt; second.start_draft(), Err(Failed));
    assert_eq!(rt; publish_one(host, "1"), Err(Failed));
}

#[test]
fn those_that_ask_share_the_lock(rt: HostRuntime) -> Result<(), Fail> {
    enter_home(&rt, "shared")?;
    publish_one(&rt, "0")?;
    check_shared(&rt, &rt, &mut shelf_together(&rt), &mut shelf_together(&rt));
    leave_home(&rt, "shared")?;
    Ok(())
}

// What one asks while the other adds a run and puts a cache anew: its files are those whose length it was told.
fn check_asked(
    rt: &impl Abort,
    adds: &mut FolderShelf<'_, HostRuntime>,
    asks: &mut FolderShelf<'_, HostRuntime>,
) {
    let mut part = [0u8; 9];
    assert_eq!(rt; adds.start_draft(), Ok(()));
    assert_eq!(rt; asks.length("times.set"), Ok(Some(5)));
    assert_eq!(rt; put(adds, "times.set", b"next times"), Ok(()));
    assert_eq!(rt; asks.read_at("times.set", 0, &mut part), Ok(5));
    assert_eq!(rt; part, *b"first\0\0\0\0");
    assert_eq!(rt; asks.length("times.set"), Ok(Some(10)));
    assert_eq!(rt; publish_bytes(adds, "0", b"run"), Ok(()));
    assert_eq!(rt; asks.length("0"), Ok(Some(3)));
    assert_eq!(rt; asks.start_draft(), Err(Failed));
}

fn check_adding(rt: &impl Abort, host: &HostRuntime, adds: &mut FolderShelf<'_, HostRuntime>) {
    check_asked(rt, adds, &mut shelf_together(host));
    check_refused(rt, &mut shelf_adding(host));
    check_refused(rt, &mut shelf_alone(host));
    assert_eq!(rt; adds.sync_folder(), Ok(()));
}

// One that adds runs lets in those that ask, and keeps out all others that write.
#[test]
fn those_that_ask_are_let_in_while_a_run_is_added(rt: HostRuntime) -> Result<(), Fail> {
    enter_home(&rt, "adding")?;
    publish_one(&rt, "times.set")?;
    check_adding(&rt, &rt, &mut shelf_adding(&rt));
    assert!(rt; holds(&rt, ".testrepository/0", "run"));
    leave_home(&rt, "adding")?;
    Ok(())
}

fn check_none_beside(
    rt: &impl Abort,
    host: &HostRuntime,
    first: &mut FolderShelf<'_, HostRuntime>,
) {
    assert_eq!(rt; first.start_draft(), Ok(()));
    assert_eq!(rt; shelf_adding(host).sync_folder(), Err(Failed));
    assert_eq!(rt; shelf_together(host).sync_folder(), Err(Failed));
}

// One that has the folder alone keeps out both, also where it made the folder.
#[test]
fn none_is_let_in_beside_one_alone(rt: HostRuntime) -> Result<(), Fail> {
    enter_home(&rt, "beside")?;
    check_none_beside(&rt, &rt, &mut shelf_alone(&rt));
    leave_home(&rt, "beside")?;
    Ok(())
}

fn check_causes(
    rt: &impl Abort,
    host: &HostRuntime,
    first: &mut FolderShelf<'_, HostRuntime>,
    second: &mut FolderShelf<'_, HostRuntime>,
) -> io::Result<()> {
    assert_eq!(rt; first.start_draft(), Ok(()));
    check_cause(rt, host, first.cause(), "no cause")?;
    assert_eq!(rt; second.length("0"), Err(Failed));
    check_cause(
        rt,
        host,
        second.cause(),
        "lock .testrepository/lock: another testr is at work in this repository; try again when it has ended",
    )?;
    symlink(host, "nowhere", ".testrepository/0")?;
    assert_eq!(rt; first.publish("0"), Err(Failed));
    check_cause(
        rt,
        host,
        first.cause(),
        "make .testrepository/0: File exists (os error 17)",
    )
}

fn check_two_shelves(rt: &impl Abort, host: &HostRuntime) -> io::Result<()> {
    let mut first = shelf_alone(host);
    let mut second = shelf_alone(host);
    check_causes(rt, host, &mut first, &mut second)
}

#[test]
fn a_fault_has_its_cause(rt: HostRuntime) -> Result<(), Fail> {
    enter_home(&rt, "cause")?;
    check_two_shelves(&rt, &rt)?;
    leave_home(&rt, "cause")?;
    Ok(())
}
