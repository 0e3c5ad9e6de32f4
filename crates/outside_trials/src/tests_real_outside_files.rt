// What no clause says of the files by name, and of the folder that names begin at: which calls of the system are made.

use crate::homes::{check_cause, enter_home, is_there, leave_home, shell};
use crate::parts::begins;
use edge_io::{Failed, Found, Site};
use real_outside::{RealSite, enter_folder};
use std::fs;
use std::process::Abort;
use std::test::Fail;

// Whether a read of three bytes at this place finds these.
fn finds(site: &mut RealSite<'_, HostRuntime>, name: &str, place: u64, wanted: &[u8]) -> bool {
    let mut buf = [0u8; 3];
    match site.read_at(name, place, &mut buf) {
        Ok(Found::Read(count)) => count == wanted.len() && begins(&buf, 0, wanted),
        Ok(Found::Absent) | Err(Failed) => false,
    }
}

const FILES: &str =
    "printf abcde > five; : > empty; mkdir folder; ln -s nowhere lost; ln -s five found";

const READS: [(&str, u64, &[u8]); 8] = [
    ("five", 0, b"abc"),
    ("found", 1, b"bcd"),
    ("five", 3, b"de"),
    ("five", 5, b""),
    ("five", 9, b""),
    ("./five", 0, b"abc"),
    ("empty", 0, b""),
    ("/proc/cpuinfo", 0, b"pro"),
];

const UNREAD: [(&str, Result<Found, Failed>); 5] = [
    ("absent", Ok(Found::Absent)),
    ("five/absent", Ok(Found::Absent)),
    ("", Ok(Found::Absent)),
    ("folder", Err(Failed)),
    ("lost", Err(Failed)),
];

fn check_reads(rt: &impl Abort, site: &mut RealSite<'_, HostRuntime>) {
    for row in &READS {
        assert!(rt; finds(site, row.0, row.1, row.2));
    }
}

fn check_unread(rt: &impl Abort, site: &mut RealSite<'_, HostRuntime>) {
    let mut buf = [0u8; 3];
    for row in &UNREAD {
        assert_eq!(rt; site.read_at(row.0, 0, &mut buf), row.1);
    }
}

fn check_files(rt: &impl Abort, site: &mut RealSite<'_, HostRuntime>) {
    check_reads(rt, site);
    check_unread(rt, site);
}

#[test]
fn files_are_read_by_name(rt: HostRuntime) -> Result<(), Fail> {
    enter_home(&rt, "site")?;
    shell(&rt, FILES)?;
    check_files(
        &rt,
        &mut RealSite::new(rt.alloc(), &rt, String::new(rt.alloc())),
    );
    leave_home(&rt, "site")?;
    Ok(())
}

fn check_removed(rt: &impl Abort, host: &HostRuntime, site: &mut RealSite<'_, HostRuntime>) {
    assert!(rt; finds(site, "file", 0, b"abc"));
    assert!(rt; fs::remove_file(host, "file").is_ok());
    assert!(rt; finds(site, "file", 3, b"de"));
}

fn check_pipe(rt: &impl Abort, site: &mut RealSite<'_, HostRuntime>) {
    let mut buf = [0u8; 3];
    assert!(rt; finds(site, "pipe", 0, b"fgh"));
    assert!(rt; finds(site, "pipe", 3, b"ij"));
    assert!(rt; finds(site, "pipe", 5, b""));
    assert_eq!(rt; site.read_at("pipe", 0, &mut buf), Err(Failed));
    assert_eq!(rt; site.read_at("file", 0, &mut buf), Ok(Found::Absent));
}

fn check_open_files(rt: &impl Abort, host: &HostRuntime, site: &mut RealSite<'_, HostRuntime>) {
    check_removed(rt, host, site);
    check_pipe(rt, site);
}

// A file that was opened is read on though its name is gone, and so is a pipe, which ends.
#[test]
fn an_open_file_is_kept(rt: HostRuntime) -> Result<(), Fail> {
    enter_home(&rt, "kept")?;
    shell(
        &rt,
        "printf abcde > file; mkfifo pipe; printf fghij > pipe &",
    )?;
    check_open_files(
        &rt,
        &rt,
        &mut RealSite::new(rt.alloc(), &rt, String::new(rt.alloc())),
    );
    leave_home(&rt, "kept")?;
    Ok(())
}

// Whether the folder is entered; none where that fails.
fn entered(rt: &HostRuntime, path: &str) -> Option<bool> {
    enter_folder(rt.alloc(), rt, path).ok()
}

const FOLDERS: [(&str, Option<bool>); 6] = [
    ("nowhere", Some(false)),
    ("five/absent", Some(false)),
    ("", Some(false)),
    ("five", None),
    ("lost", None),
    ("folder", Some(true)),
];

fn check_enter_cause(rt: &impl Abort, host: &HostRuntime) -> Result<(), Fail> {
    match enter_folder(host.alloc(), host, "five") {
        Ok(_) => assert!(rt; false),
        Err(cause) => check_cause(
            rt,
            host,
            Some(&cause),
            "enter five: Not a directory (os error 20)",
        )?,
    }
    Ok(())
}

// Nothing stands there, or something that is no folder, or a folder.
#[test]
fn a_folder_is_entered(rt: HostRuntime) -> Result<(), Fail> {
    enter_home(&rt, "entered")?;
    shell(&rt, FILES)?;
    check_enter_cause(&rt, &rt)?;
    for row in &FOLDERS {
        assert_eq!(rt; entered(&rt, row.0), row.1);
    }
    assert!(rt; is_there(&rt, "../five"));
    leave_home(&rt, "entered")?;
    Ok(())
}
