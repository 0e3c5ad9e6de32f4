// The folder that the program works in.

use crate::cause::Cause;
use crate::real_site::is_absence;
use std::alloc::Global;
use std::env::Env;
use std::fs::Files;
use std::{env, fs, io};

/// Works in the folder of this path from now on. False where nothing stands there. What is there and can't be entered, as a
/// file, and a link that leads nowhere, is a failure.
pub fn enter_folder<R: Files + Env>(alloc: Global, rt: &R, path: &str) -> Result<bool, Cause> {
    match env::set_current_dir(rt, path) {
        Ok(()) => Ok(true),
        Err(error) if is_absence(error.kind()) && !stands(rt, path) => Ok(false),
        Err(error) => Err(cause_of(alloc, path, error)),
    }
}

// Whether something stands at this path, or it is not known.
fn stands<R: Files>(rt: &R, path: &str) -> bool {
    match fs::symlink_metadata(rt, path) {
        Ok(_) => true,
        Err(error) => !is_absence(error.kind()),
    }
}

fn cause_of(alloc: Global, path: &str, error: io::Error) -> Cause {
    match String::from_str(alloc, path) {
        Ok(path) => Cause::of_path("enter", path, error),
        Err(_) => Cause::new("enter", "a folder", error),
    }
}
