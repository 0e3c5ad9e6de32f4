// The file that a child reads the ids of its tests from.

use crate::cause::Cause;
use crate::identity::is_at;
use edge_io::IdFile;
use std::alloc::Global;
use std::fs::{File, Files};
use std::io::{ErrorKind, Write};
use std::os::unix::fs::OpenOptionsExt;
use std::{fs, io};

// It may be read and written by its owner alone.
const MODE: u32 = 0o600;

/// A file that was made for a child. It is kept open, so that it is known again when it is to be removed.
#[derive(Drop)]
pub struct WrittenIds {
    path: String,
    file: File,
}

impl WrittenIds {
    /// Makes a new file of this name, in place of whatever had it, and writes it. What had the name is removed and not
    /// opened, so that nobody can have laid a link or a pipe there; a folder of that name is a failure. No file is left
    /// where it fails.
    pub fn write<R: Files<File = File>>(
        alloc: Global,
        rt: &R,
        ids: &IdFile,
    ) -> Result<Self, Cause> {
        let path = match path_of(alloc, ids) {
            Ok(path) => path,
            Err(error) => return Err(Cause::new("name", "a file of ids", error)),
        };
        match made(rt, path.as_str()) {
            Ok(file) => WrittenIds { path, file }.filled(rt, ids.bytes.bytes()),
            Err(error) => Err(Cause::of_path("make", path, error)),
        }
    }

    /// Removes the file, where its name is still this file's. A failure of that leaves it to the next one of that name.
    pub fn remove<R: Files>(self, rt: &R) {
        if let Ok(true) = is_at(rt, &self.file, self.path.as_str()) {
            let _ = fs::remove_file(rt, self.path.as_str());
        }
    }

    fn filled<R: Files>(mut self, rt: &R, bytes: &[u8]) -> Result<Self, Cause> {
        match self.file.write_all(bytes) {
            Ok(()) => Ok(self),
            Err(error) => {
                let _ = fs::remove_file(rt, self.path.as_str());
                Err(Cause::of_path("write", self.path, error))
            }
        }
    }
}

/// Files of ids that programs have left which were killed: those whose names are `front` and a number below `count`.
#[derive(Clone, Copy, Drop)]
pub struct LeftIds {
    pub front: &'static str,
    pub count: u32,
}

impl LeftIds {
    /// Removes them from the current folder. What has such a name and is no regular file stays. A failure leaves them to a
    /// later call.
    pub fn remove<R: Files>(self, alloc: Global, rt: &R) {
        for number in 0..self.count {
            let front = self.front;
            if let Ok(path) = format!(in alloc; "{front}{number}") {
                remove_regular(rt, path.as_str());
            }
        }
    }
}

fn remove_regular<R: Files>(rt: &R, path: &str) {
    if let Ok(found) = fs::symlink_metadata(rt, path)
        && found.is_file()
    {
        let _ = fs::remove_file(rt, path);
    }
}

fn path_of(alloc: Global, ids: &IdFile) -> io::Result<String> {
    match str::from_utf8(ids.name.bytes()) {
        Ok(name) => Ok(String::from_str(alloc, name)?),
        Err(_) => Err(io::Error::from(ErrorKind::InvalidInput)),
    }
}

fn made<R: Files<File = File>>(rt: &R, path: &str) -> io::Result<File> {
    match fs::remove_file(rt, path) {
        Err(error) if error.kind() != ErrorKind::NotFound => return Err(error),
        _ => {}
    }
    let mut options = File::options();
    options.write(true).create_new(true).mode(MODE);
    options.open(rt, path)
}
