// What no clause says of files that take their names at the end: what stands in the folder, and when.

use crate::homes::{check_cause, enter_home, holds, is_there, leave_home, shell};
use edge_io::{Failed, write_whole};
use new_files::NewFiles;
use real_outside::RealNewFiles;
use std::fs;
use std::process::Abort;
use std::test::Fail;

// Writes `new` into a draft of this file, which takes its name or is given up. At the draft's end the file is as it was.
fn made(
    rt: &impl Abort,
    host: &HostRuntime,
    name: &str,
    keeps: bool,
    before: &str,
) -> Result<(), Failed> {
    let mut files = RealNewFiles::new(host.alloc(), host);
    let mut draft = files.begin(name)?;
    write_whole(&mut draft, b"new")?;
    assert!(rt; holds(host, name, before) || !is_there(host, name));
    assert!(rt; is_there(host, "file.0.new"));
    if keeps {
        return files.take_name(name, draft);
    }
    files.give_up(draft);
    Ok(())
}

#[test]
fn a_file_takes_its_name_at_the_end(rt: HostRuntime) -> Result<(), Fail> {
    enter_home(&rt, "named")?;
    assert!(rt; made(&rt, &rt, "file", false, "").is_ok());
    assert!(rt; !is_there(&rt, "file"));
    assert!(rt; made(&rt, &rt, "file", true, "").is_ok());
    assert!(rt; holds(&rt, "file", "new"));
    shell(&rt, "printf old > file")?;
    assert!(rt; made(&rt, &rt, "file", false, "old").is_ok());
    assert!(rt; holds(&rt, "file", "old"));
    assert!(rt; made(&rt, &rt, "file", true, "old").is_ok());
    assert!(rt; holds(&rt, "file", "new"));
    assert!(rt; !is_there(&rt, "file.0.new"));
    leave_home(&rt, "named")?;
    Ok(())
}

// What cannot be made, and why.
const REFUSED: [(&str, &str); 5] = [
    ("", "make : it has no name"),
    ("folder", "make folder: it is no regular file"),
    ("pipe", "make pipe: it is no regular file"),
    ("link", "make link: it is no regular file"),
    (
        "absent/file",
        "make absent/file.0.new: No such file or directory (os error 2)",
    ),
];

fn check_refused(rt: &impl Abort, host: &HostRuntime, row: &(&str, &str)) -> Result<(), Fail> {
    let mut files = RealNewFiles::new(host.alloc(), host);
    assert!(rt; files.begin(row.0).is_err());
    check_cause(rt, host, files.cause(), row.1)?;
    Ok(())
}

#[test]
fn only_a_regular_file_is_replaced(rt: HostRuntime) -> Result<(), Fail> {
    enter_home(&rt, "replaced")?;
    shell(&rt, "mkdir folder; mkfifo pipe; : > old; ln -s old link")?;
    for row in &REFUSED {
        check_refused(&rt, &rt, row)?;
    }
    assert!(rt; !is_there(&rt, ".0.new"));
    leave_home(&rt, "replaced")?;
    Ok(())
}

// A draft that another program left stays, and one that was replaced takes no name.
#[test]
fn a_draft_is_its_own(rt: HostRuntime) -> Result<(), Fail> {
    enter_home(&rt, "own")?;
    shell(&rt, "printf left > file.0.new")?;
    let mut files = RealNewFiles::new(rt.alloc(), &rt);
    let Ok(draft) = files.begin("file") else {
        return Err(Fail::new("no draft"));
    };
    assert!(rt; is_there(&rt, "file.1.new"));
    fs::remove_file(&rt, "file.1.new")?;
    shell(&rt, "printf other > file.1.new")?;
    assert!(rt; files.take_name("file", draft).is_err());
    assert!(rt; !is_there(&rt, "file"));
    assert!(rt; holds(&rt, "file.0.new", "left"));
    assert!(rt; holds(&rt, "file.1.new", "other"));
    leave_home(&rt, "own")?;
    Ok(())
}
