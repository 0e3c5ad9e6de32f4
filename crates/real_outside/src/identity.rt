// Whether a path still leads to a file that is open.

use std::fs::{File, Files};
use std::io::ErrorKind;
use std::os::unix::fs::MetadataExt;
use std::{fs, io};

/// Whether this regular file stands at this path, and no link to it.
pub fn is_at<R: Files>(rt: &R, file: &File, path: &str) -> io::Result<bool> {
    let held = file.metadata()?;
    match fs::symlink_metadata(rt, path) {
        Ok(found) => {
            let is_same = found.dev() == held.dev() && found.ino() == held.ino();
            Ok(found.is_file() && is_same)
        }
        Err(error) if error.kind() == ErrorKind::NotFound => Ok(false),
        Err(error) => Err(error),
    }
}
