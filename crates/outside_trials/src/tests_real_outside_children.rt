// What no clause says of the programs that are started: which calls of the system are made.

use crate::homes::{check_cause, enter_home, holds, is_there, leave_home, shell};
use crate::parts::begins;
use edge_io::{Child, Failed, IdFile, Job, Spawner};
use real_outside::{Errors, Programs, RealChild, RealSpawner};
use std::alloc::Global;
use std::io::ErrorKind;
use std::process::{Abort, Processes};
use std::test::Fail;
use std::{fs, io};
use sub_number::{Bytes, Text};

fn plain_job(alloc: Global, command: &str) -> Option<Job> {
    let command = Bytes::new(alloc, command.as_bytes()).ok()?;
    Some(Job {
        command,
        id_file: None,
    })
}

fn ids_of(alloc: Global, name: &str) -> Option<IdFile> {
    let name = Text::new(alloc, name.as_bytes()).ok()?;
    let bytes = Bytes::new(alloc, b"a\nb c\n").ok()?;
    Some(IdFile { name, bytes })
}

// A job with a file of this name, which holds two ids.
fn job_with_ids(alloc: Global, command: &str, name: &str) -> Option<Job> {
    let command = Bytes::new(alloc, command.as_bytes()).ok()?;
    let ids = ids_of(alloc, name)?;
    Some(Job {
        command,
        id_file: Some(ids),
    })
}

// Whether the child gives exactly these bytes, of which a read takes five at most.
fn gives_all<C: Child>(child: &mut C, wanted: &[u8]) -> bool {
    let mut place = 0;
    for _ in 0..1000 {
        let mut buf = [0u8; 5];
        match child.read(&mut buf) {
            Ok(0) => return place == wanted.len(),
            Ok(count) if begins(wanted, place, &buf[..count]) => place = place.saturating_add(
                count,
            ),
            Ok(_) => return false,
            Err(Failed) => return false,
        }
    }
    false
}

fn started<'r>(rt: &'r HostRuntime, job: &Job) -> Result<RealChild<'r, HostRuntime>, Failed> {
    let mut spawner = RealSpawner::new(rt.alloc(), rt, Errors::Inherited);
    spawner.start(job)
}

// Whether the child gives these bytes and then ends so.
fn ends_so<C: Child>(child: &mut C, wanted: &[u8], status: i32) -> bool {
    gives_all(child, wanted) && child.wait() == Ok(status)
}

fn job_gives(rt: &HostRuntime, job: &Job, wanted: &[u8], status: i32) -> bool {
    match started(rt, job) {
        Ok(mut child) => ends_so(&mut child, wanted, status),
        Err(Failed) => false,
    }
}

// Whether a child of this command gives these bytes and then ends so.
fn gives(rt: &HostRuntime, command: &str, wanted: &[u8], status: i32) -> bool {
    match plain_job(rt.alloc(), command) {
        Some(job) => job_gives(rt, &job, wanted, status),
        None => false,
    }
}

// Whether one that has a file of ids gives these bytes and then exits with 0.
fn gives_with_ids(rt: &HostRuntime, command: &str, name: &str, wanted: &[u8]) -> bool {
    match job_with_ids(rt.alloc(), command, name) {
        Some(job) => job_gives(rt, &job, wanted, 0),
        None => false,
    }
}

const ENDS: [(&str, &[u8], i32); 6] = [
    ("printf 'one\\0two\\377'", b"one\0two\xff", 0),
    ("echo left; exit 7", b"left\n", 7),
    ("exit 255", b"", 255),
    ("no-such-program-here 2>/dev/null", b"", 127),
    ("echo part; kill -9 $$", b"part\n", -9),
    ("kill -TERM $$", b"", -15),
];

#[test]
fn a_child_gives_its_bytes_and_its_end(rt: HostRuntime) {
    for row in &ENDS {
        assert!(rt; gives(&rt, row.0, row.1, row.2));
    }
}

fn check_has_nothing(rt: &impl Abort, host: &HostRuntime) {
    assert!(rt; gives(host, "cat; echo end", b"end\n", 0));
    assert!(rt; gives(host, "ls -l /proc/self/fd | grep -c kept-open", b"0\n", 1));
}

// A child has no input, and no file of this program is open in it.
#[test]
fn a_child_has_nothing_of_the_program(rt: HostRuntime) -> Result<(), Fail> {
    enter_home(&rt, "child")?;
    let file = fs::File::create_new(&rt, "kept-open")?;
    check_has_nothing(&rt, &rt);
    drop(file);
    leave_home(&rt, "child")?;
    Ok(())
}

// Whether the next child of this command gives these bytes and then exits with 0.
fn next_gives(
    spawner: &mut RealSpawner<'_, HostRuntime>,
    alloc: Global,
    command: &str,
    wanted: &[u8],
) -> bool {
    let Some(job) = plain_job(alloc, command) else {
        return false;
    };
    match spawner.start(&job) {
        Ok(mut child) => ends_so(&mut child, wanted, 0),
        Err(Failed) => false,
    }
}

// Whether a child gives these bytes whose errors go there.
fn gives_with(rt: &HostRuntime, errors: Errors, command: &str, wanted: &[u8]) -> bool {
    let mut spawner = RealSpawner::new(rt.alloc(), rt, errors);
    next_gives(&mut spawner, rt.alloc(), command, wanted)
}

const SAME_ERRORS: &str =
    "[ \"$(readlink /proc/$$/fd/2)\" = \"$(readlink /proc/$PPID/fd/2)\" ] && echo same";

#[test]
fn errors_go_where_it_was_said(rt: HostRuntime) {
    let told = "readlink /proc/$$/fd/2";
    assert!(rt; gives_with(&rt, Errors::Dropped, told, b"/dev/null\n"));
    assert!(rt; gives_with(&rt, Errors::Inherited, SAME_ERRORS, b"same\n"));
}

const LEFT: &str = "echo a > .testr-ids.0; echo a > .testr-ids.63; echo a > .testr-ids.64; \
echo a > .testr-ids.07; echo a > .testr-ids.x; mkdir .testr-ids.5; ln -s .testr-ids.x .testr-ids.6";

const KEPT: &[u8] = b".testr-ids.07\n.testr-ids.5\n.testr-ids.6\n.testr-ids.64\n.testr-ids.x\n";

fn check_left(rt: &impl Abort, alloc: Global, spawner: &mut RealSpawner<'_, HostRuntime>) {
    let first = "LC_ALL=C ls -A; echo a > .testr-ids.0";
    assert!(rt; next_gives(spawner, alloc, first, KEPT));
    assert!(rt; next_gives(spawner, alloc, "cat .testr-ids.0", b"a\n"));
}

// The first start removes them, and a later one does not. What is no regular file stays, and so does each other name.
#[test]
fn files_of_ids_that_were_left_are_removed(rt: HostRuntime) -> Result<(), Fail> {
    enter_home(&rt, "left-ids")?;
    shell(&rt, LEFT)?;
    let spawner = RealSpawner::new(rt.alloc(), &rt, Errors::Inherited);
    check_left(&rt, rt.alloc(), &mut spawner.clearing(".testr-ids.", 64));
    leave_home(&rt, "left-ids")?;
    Ok(())
}

// Whether a child that is stopped in mid-stream gives nothing more and was ended by the signal.
fn is_stopped<C: Child>(child: &mut C) -> bool {
    let mut buf = [0u8; 9];
    let ready = child.read(&mut buf);
    child.stop();
    let left = child.read(&mut buf);
    let status = child.wait();
    child.stop();
    ready == Ok(6) && left == Ok(0) && status == Ok(-9) && child.wait() == Ok(-9)
}

fn job_is_stopped(rt: &HostRuntime, job: &Job) -> bool {
    match started(rt, job) {
        Ok(mut child) => is_stopped(&mut child),
        Err(Failed) => false,
    }
}

fn ends_stopped(rt: &HostRuntime, command: &str) -> bool {
    match plain_job(rt.alloc(), command) {
        Some(job) => job_is_stopped(rt, &job),
        None => false,
    }
}

#[test]
fn a_child_is_stopped(rt: HostRuntime) {
    assert!(rt; ends_stopped(&rt, "echo ready; exec sleep 600"));
}

// Whether a child that prints is stopped, and with it the one beside it, of which nothing came.
fn both_are_stopped<C: Child>(silent: &mut C, loud: &mut C) -> bool {
    let mut buf = [0u8; 9];
    is_stopped(loud)
        && silent.read(&mut buf) == Ok(0)
        && silent.wait() == Ok(-9)
        && silent.wait() == Ok(-9)
}

fn starts_both(
    rt: &HostRuntime,
    programs: &Programs<<HostRuntime as Processes>::Started>,
    silent: &Job,
    loud: &Job,
) -> Result<bool, Failed> {
    let mut spawner = RealSpawner::new(rt.alloc(), rt, Errors::Inherited).among(programs);
    let mut silent = spawner.start(silent)?;
    let mut loud = spawner.start(loud)?;
    Ok(both_are_stopped(&mut silent, &mut loud))
}

fn stops_among(rt: &HostRuntime) -> bool {
    let Ok(programs) = Programs::new(rt.alloc(), 2) else {
        return false;
    };
    let (Some(silent), Some(loud)) = (
        plain_job(rt.alloc(), "exec sleep 600"),
        plain_job(rt.alloc(), "echo ready; exec sleep 600"),
    ) else {
        return false;
    };
    starts_both(rt, &programs, &silent, &loud) == Ok(true)
}

// A silent program is stopped with the one beside it.
#[test]
fn programs_are_stopped_together(rt: HostRuntime) {
    assert!(rt; stops_among(&rt));
}

// A program that was waited for has left its place to another.
#[test]
fn a_place_is_taken_again(rt: HostRuntime) -> Result<(), Fail> {
    let programs = Programs::new(rt.alloc(), 1)?;
    let mut spawner = RealSpawner::new(rt.alloc(), &rt, Errors::Inherited).among(&programs);
    assert!(rt; next_gives(&mut spawner, rt.alloc(), "echo one", b"one\n"));
    assert!(rt; next_gives(&mut spawner, rt.alloc(), "echo two", b"two\n"));
    Ok(())
}

fn check_ids(rt: &impl Abort, host: &HostRuntime, before: &str) -> io::Result<()> {
    let show = "cat .testr-ids.0; ls -l .testr-ids.0 | cut -c 1-10";
    shell(host, before)?;
    assert!(rt; gives_with_ids(host, show, ".testr-ids.0", b"a\nb c\n-rw-------\n"));
    assert!(rt; !is_there(host, ".testr-ids.0"));
    Ok(())
}

// The file stands there while the child runs, for its owner alone, and is gone after the wait. Whatever had its name is
// removed and not opened.
#[test]
fn a_child_reads_its_ids(rt: HostRuntime) -> Result<(), Fail> {
    enter_home(&rt, "ids")?;
    fs::write(&rt, "dotfile", "mine")?;
    check_ids(&rt, &rt, "true")?;
    check_ids(&rt, &rt, "ln -s dotfile .testr-ids.0")?;
    check_ids(&rt, &rt, "mkfifo .testr-ids.0")?;
    check_ids(&rt, &rt, "echo old > .testr-ids.0")?;
    assert!(rt; holds(&rt, "dotfile", "mine"));
    leave_home(&rt, "ids")?;
    Ok(())
}

// What another program put in the file's place is left alone.
#[test]
fn a_replaced_file_of_ids_is_left(rt: HostRuntime) -> Result<(), Fail> {
    enter_home(&rt, "replaced-ids")?;
    assert!(rt; gives_with_ids(&rt, "rm ids; echo mine > ids", "ids", b""));
    assert!(rt; holds(&rt, "ids", "mine\n"));
    leave_home(&rt, "replaced-ids")?;
    Ok(())
}

fn check_start(
    rt: &impl Abort,
    host: &HostRuntime,
    spawner: &mut RealSpawner<'_, HostRuntime>,
    job: &Job,
    why: &str,
) -> io::Result<()> {
    assert!(rt; spawner.start(job).is_err());
    check_cause(rt, host, spawner.cause(), why)
}

fn check_job(rt: &impl Abort, host: &HostRuntime, job: &Job, why: &str) -> io::Result<()> {
    let mut spawner = RealSpawner::new(host.alloc(), host, Errors::Inherited);
    check_start(rt, host, &mut spawner, job, why)
}

// Looks at how the start of a command with a file of ids fails.
fn check_no_start(
    rt: &impl Abort,
    host: &HostRuntime,
    command: &str,
    name: &str,
    why: &str,
) -> io::Result<()> {
    match job_with_ids(host.alloc(), command, name) {
        Some(job) => check_job(rt, host, &job, why),
        None => Err(io::Error::from(ErrorKind::OutOfMemory)),
    }
}

#[test]
fn a_start_that_fails_leaves_no_file(rt: HostRuntime) -> Result<(), Fail> {
    enter_home(&rt, "no-start")?;
    let why = "make nowhere/ids: No such file or directory (os error 2)";
    check_no_start(&rt, &rt, "true", "nowhere/ids", why)?;
    check_no_start(
        &rt,
        &rt,
        "true\0",
        "ids",
        "start sh: nul byte found in provided data",
    )?;
    assert!(rt; !is_there(&rt, "ids"));
    fs::create_dir(&rt, "ids")?;
    check_no_start(
        &rt,
        &rt,
        "true",
        "ids",
        "make ids: Is a directory (os error 21)",
    )?;
    leave_home(&rt, "no-start")?;
    Ok(())
}
