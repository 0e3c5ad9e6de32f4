// The locks that keep other programs out of the folder, or let in those that only ask.

use crate::cause::{Cause, told};
use crate::identity::is_at;
use std::fs::{File, Files};
use std::io::ErrorKind;
use std::{fs, io};

/// The folder that holds the published files, in the current folder.
pub const FOLDER: &str = ".testrepository";

// The file that all lock: alone where nobody else may be there, and else shared.
const LOCK: &str = ".testrepository/lock";

// The file that one locks alone which adds runs.
const WRITER: &str = ".testrepository/writer";

/// Whom the lock keeps out.
#[derive(Clone, Copy, PartialEq, Eq)]
pub enum Sharing {
    /// All others.
    Alone,
    /// Others that write. Those that only ask are let in: what is added changes nothing that they were told of.
    Adding,
    /// Those that want it alone. Nothing is written under it.
    Together,
}

/// The open files that hold the lock.
#[derive(Drop)]
pub struct Keys {
    lock: File,
    writer: Option<File>,
}

/// Why the lock is not held: which file could not be locked, and the cause.
#[derive(Clone, Copy)]
pub struct NotHeld {
    path: &'static str,
    error: io::Error,
}

/// The lock on files of the folder, which lasts as long as this value. After a refusal each later call is refused too,
/// since what was told before it may not be true any more.
#[derive(Drop)]
pub enum Lock {
    /// No call was made.
    Unasked,
    /// The last call found no folder.
    NoFolder,
    /// It is held.
    Held(Keys),
    /// Another program had it, or it could not be asked for.
    Refused(NotHeld),
}

impl Lock {
    /// Asks for the lock, and makes its file, where the folder is there and that was not done yet. An absent folder is no
    /// failure. It is refused where a call before found no folder, and now there is one: that is another program's work,
    /// whose files were not told of.
    pub fn ask<R: Files<File = File>>(&mut self, rt: &R, sharing: Sharing) -> Result<(), Cause> {
        let was_absent = match self {
            Lock::Held(_) => return Ok(()),
            Lock::Refused(refusal) => return Err(cause_of(*refusal)),
            Lock::Unasked => false,
            Lock::NoFolder => true,
        };
        match locked(rt, sharing) {
            Ok(None) => {
                *self = Lock::NoFolder;
                Ok(())
            }
            Ok(Some(_)) if was_absent => self.refuse(of_another()),
            Ok(Some(keys)) => {
                *self = Lock::Held(keys);
                Ok(())
            }
            Err(refusal) => self.refuse(refusal),
        }
    }

    /// Takes the lock for one that writes, and makes the folder before, where it is absent. It is refused where another
    /// program made the folder since a call found none, or where one of the lock's files was removed or replaced since.
    pub fn take<R: Files<File = File>>(&mut self, rt: &R, sharing: Sharing) -> Result<(), Cause> {
        self.ask(rt, sharing)?;
        if matches!(self, Lock::NoFolder) {
            self.make(rt, sharing)?;
        }
        self.confirm(rt)
    }

    /// Refuses unless the lock is held, and its files are still those that other programs find.
    pub fn confirm<R: Files<File = File>>(&mut self, rt: &R) -> Result<(), Cause> {
        let are_found = match self {
            Lock::Held(keys) => keys.are_found(rt),
            Lock::Refused(refusal) => Err(*refusal),
            Lock::Unasked | Lock::NoFolder => Err(removed(LOCK)),
        };
        match are_found {
            Ok(()) => Ok(()),
            Err(refusal) => self.refuse(refusal),
        }
    }

    // Makes the folder and the lock's files in it, all of which must be absent.
    fn make<R: Files<File = File>>(&mut self, rt: &R, sharing: Sharing) -> Result<(), Cause> {
        match fs::create_dir(rt, FOLDER) {
            Err(error) if error.kind() == ErrorKind::AlreadyExists => {
                return self.refuse(of_another());
            }
            result => told("make the folder", FOLDER, result)?,
        }
        match created(rt, sharing) {
            Ok(keys) => {
                *self = Lock::Held(keys);
                Ok(())
            }
            Err(refusal) => self.refuse(refusal),
        }
    }

    fn refuse(&mut self, refusal: NotHeld) -> Result<(), Cause> {
        *self = Lock::Refused(refusal);
        Err(cause_of(refusal))
    }
}

impl Keys {
    // Whether each file is still at its path.
    fn are_found<R: Files>(&self, rt: &R) -> Result<(), NotHeld> {
        found_at(rt, &self.lock, LOCK)?;
        match &self.writer {
            Some(file) => found_at(rt, file, WRITER),
            None => Ok(()),
        }
    }
}

fn cause_of(refusal: NotHeld) -> Cause {
    Cause::new("lock", refusal.path, refusal.error)
}

fn of_another() -> NotHeld {
    NotHeld {
        path: LOCK,
        error: io::Error::new(
            ErrorKind::AlreadyExists,
            "the folder was made by another program, or is a link to nothing",
        ),
    }
}

fn removed(path: &'static str) -> NotHeld {
    NotHeld {
        path,
        error: io::Error::new(
            ErrorKind::NotFound,
            "it was removed or replaced while this program ran",
        ),
    }
}

fn found_at<R: Files>(rt: &R, file: &File, path: &'static str) -> Result<(), NotHeld> {
    match is_at(rt, file, path) {
        Ok(true) => Ok(()),
        Ok(false) => Err(removed(path)),
        Err(error) => Err(NotHeld { path, error }),
    }
}

// The lock's files, open and locked; none where there is no folder. That of one that adds runs is asked for last, so whoever
// has it has the other one, too.
fn locked<R: Files<File = File>>(rt: &R, sharing: Sharing) -> Result<Option<Keys>, NotHeld> {
    let Some(lock) = opened(rt, LOCK)? else {
        return Ok(None);
    };
    hold(rt, &lock, LOCK, sharing == Sharing::Alone)?;
    if sharing != Sharing::Adding {
        return Ok(Some(Keys { lock, writer: None }));
    }
    let Some(writer) = opened(rt, WRITER)? else {
        return Err(removed(LOCK));
    };
    hold(rt, &writer, WRITER, true)?;
    Ok(Some(Keys {
        lock,
        writer: Some(writer),
    }))
}

// The lock's files, made anew and locked.
fn created<R: Files<File = File>>(rt: &R, sharing: Sharing) -> Result<Keys, NotHeld> {
    let lock = made(rt, LOCK)?;
    hold(rt, &lock, LOCK, sharing == Sharing::Alone)?;
    if sharing != Sharing::Adding {
        return Ok(Keys { lock, writer: None });
    }
    let writer = made(rt, WRITER)?;
    hold(rt, &writer, WRITER, true)?;
    Ok(Keys {
        lock,
        writer: Some(writer),
    })
}

// The file of this path, open; none where there is no folder.
fn opened<R: Files<File = File>>(rt: &R, path: &'static str) -> Result<Option<File>, NotHeld> {
    match open_or_create(rt, path) {
        Ok(file) => Ok(file),
        Err(error) => Err(NotHeld { path, error }),
    }
}

// A new file of this path, open.
fn made<R: Files<File = File>>(rt: &R, path: &'static str) -> Result<File, NotHeld> {
    match create(rt, path) {
        Ok(file) => Ok(file),
        Err(error) => Err(NotHeld { path, error }),
    }
}

// Locks the file, which must still be the one at its path then.
fn hold<R: Files>(rt: &R, file: &File, path: &'static str, is_alone: bool) -> Result<(), NotHeld> {
    match try_hold(file, is_alone) {
        Ok(()) => found_at(rt, file, path),
        Err(error) => Err(NotHeld { path, error }),
    }
}

fn try_hold(file: &File, is_alone: bool) -> io::Result<()> {
    let outcome = if is_alone {
        file.try_lock()
    } else {
        file.try_lock_shared()
    };
    match outcome {
        Ok(()) => Ok(()),
        Err(fs::TryLockError::WouldBlock) => Err(in_use()),
        Err(fs::TryLockError::Error(error)) => Err(error),
    }
}

fn in_use() -> io::Error {
    io::Error::new(
        ErrorKind::WouldBlock,
        "another testr is at work in this repository; try again when it has ended",
    )
}

// The file of this path, which is made where it is absent; none where there is no folder. What is there and is no regular
// file, as a link, is not opened.
fn open_or_create<R: Files<File = File>>(rt: &R, path: &str) -> io::Result<Option<File>> {
    match fs::symlink_metadata(rt, path) {
        Ok(found) if found.is_file() => Ok(Some(open(rt, path)?)),
        Ok(_) => Err(io::Error::new(ErrorKind::InvalidData, "it is no regular file")),
        Err(error) if error.kind() == ErrorKind::NotFound => match create(rt, path) {
            Ok(file) => Ok(Some(file)),
            Err(error) if error.kind() == ErrorKind::NotFound => Ok(None),
            Err(error) if error.kind() == ErrorKind::AlreadyExists => Ok(Some(open(rt, path)?)),
            Err(error) => Err(error),
        },
        Err(error) => Err(error),
    }
}

// A file that may not be written can be locked all the same.
fn open<R: Files<File = File>>(rt: &R, path: &str) -> io::Result<File> {
    match File::options().read(true).write(true).open(rt, path) {
        Err(error) if is_unwritable(error.kind()) => File::open(rt, path),
        result => result,
    }
}

fn is_unwritable(kind: ErrorKind) -> bool {
    kind == ErrorKind::PermissionDenied || kind == ErrorKind::ReadOnlyFilesystem
}

// A new file, in place of nothing else.
fn create<R: Files<File = File>>(rt: &R, path: &str) -> io::Result<File> {
    File::create_new(rt, path)
}
