// What the tests of the outside share: a folder for each test, files that the shell makes, looks at files, and causes of
// faults.

use real_outside::Cause;
use std::io::ErrorKind;
use std::path::PathBuf;
use std::process::{Abort, Command};
use std::{env, fs, io, process};

// The folder of a test of this name.
fn home_of(rt: &HostRuntime, name: &str) -> io::Result<PathBuf> {
    let number = process::id(rt.process());
    let text = format!(in rt.alloc(); "outside_trials_{name}_{number}")?;
    let mut home = env::temp_dir(rt)?;
    home.push(text.as_str())?;
    Ok(home)
}

fn make_home(rt: &HostRuntime, home: &PathBuf) -> io::Result<()> {
    let _ = fs::remove_dir_all(rt, home);
    fs::create_dir(rt, home)?;
    env::set_current_dir(rt, home)
}

// Runs a test in a folder of its own, which a failed one leaves behind.
pub fn enter_home(rt: &HostRuntime, name: &str) -> io::Result<()> {
    let home = home_of(rt, name)?;
    make_home(rt, &home)
}

pub fn leave_home(rt: &HostRuntime, name: &str) -> io::Result<()> {
    env::set_current_dir(rt, "/")?;
    let home = home_of(rt, name)?;
    fs::remove_dir_all(rt, &home)
}

fn run_text(rt: &HostRuntime, command: &mut Command, text: &str) -> io::Result<()> {
    let status = command.arg("-c")?.arg(text)?.status(rt)?;
    if status.success() {
        Ok(())
    } else {
        Err(io::Error::from(ErrorKind::Other))
    }
}

// Makes files by the shell, since std takes no path that is not UTF-8, and makes no pipe that has a name.
pub fn shell(rt: &HostRuntime, text: &str) -> io::Result<()> {
    let mut command = Command::new(rt.alloc(), "sh")?;
    run_text(rt, &mut command, text)
}

pub fn is_there(rt: &HostRuntime, path: &str) -> bool {
    fs::symlink_metadata(rt, path).is_ok()
}

pub fn holds(rt: &HostRuntime, path: &str, wanted: &str) -> bool {
    match fs::read_to_string(rt, path) {
        Ok(text) => text.as_str() == wanted,
        Err(_) => false,
    }
}

// The line that tells why the last call failed.
fn said(rt: &HostRuntime, cause: Option<&Cause>) -> io::Result<String> {
    match cause {
        Some(cause) => Ok(format!(in rt.alloc(); "{cause}")?),
        None => Ok(format!(in rt.alloc(); "no cause")?),
    }
}

pub fn check_cause(
    rt: &impl Abort,
    host: &HostRuntime,
    cause: Option<&Cause>,
    line: &str,
) -> io::Result<()> {
    let text = said(host, cause)?;
    assert_eq!(rt; text.as_str(), line);
    Ok(())
}
