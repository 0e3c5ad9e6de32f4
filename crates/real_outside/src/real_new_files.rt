// Files of the system that take their names at the end.
ghost use Rattle.std.specs.Prelude.{None};

use crate::cause::Cause;
use crate::fault_count::Faults;
use crate::identity::is_at;
use crate::stream_sink::{Outlet, StreamSink};
use edge_io::Failed;
use either::Either;
use new_files::NewFiles;
use std::alloc::Global;
use std::fs::{File, Files};
use std::io::ErrorKind;
use std::{fs, io};

// How many drafts of one name may stand beside each other, each of a program that goes on or was killed.
const MOST_DRAFTS: u32 = 100;

/// Files of the system by their paths. A draft stands beside the file that it is to become, as `NAME.0.new`, or under the
/// next number that is free. One draft is open at a time. Counts the calls that fail.
#[derive(Drop)]
pub struct RealNewFiles<'r, R> {
    drafts: Drafts<'r, R>,
    faults: Faults,
}

impl<'r, R: Files<File = File>> RealNewFiles<'r, R> {
    /// No draft is open yet, and no call has failed.
    pub fn new(alloc: Global, rt: &'r R) -> Self {
        RealNewFiles {
            drafts: Drafts {
                rt,
                alloc,
                path: None,
            },
            faults: Faults::new(),
        }
    }

    /// Why the last call that failed did so, or the last write to a draft that was given up.
    pub fn cause(&self) -> Option<&Cause> {
        self.faults.cause.as_ref()
    }
}

impl<R: Files<File = File>> NewFiles for RealNewFiles<'_, R> {
    type Draft = StreamSink<Outlet>;

    ghost seen = { λ s. record { told = None; faults = s.faults.count } };

    /// An empty name is a fault, and so is what stands under the name and is no regular file, as a device, a pipe or a link.
    fn begin(&mut self, name: &str) -> Result<StreamSink<Outlet>, Failed> {
        let outcome = self.drafts.begin(name);
        let file = self.faults.counted(outcome)?;
        Ok(StreamSink::to_file(file, "the new file"))
    }

    /// The bytes are brought to the disk first.
    fn take_name(&mut self, name: &str, draft: StreamSink<Outlet>) -> Result<(), Failed> {
        let outcome = match &draft.into_parts().0 {
            Either::Right(file) => self.drafts.name(name, file),
            Either::Left(_) => Err(no_draft()),
        };
        self.faults.counted(outcome)
    }

    /// Keeps why a write to it failed.
    fn give_up(&mut self, draft: StreamSink<Outlet>) {
        let parts = draft.into_parts();
        if let Either::Right(file) = &parts.0 {
            self.drafts.give_up(file);
        }
        if parts.1.is_some() {
            self.faults.cause = parts.1;
        }
    }
}

// The draft that is open, by its path.
#[derive(Drop)]
struct Drafts<'r, R> {
    rt: &'r R,
    alloc: Global,
    path: Option<String>,
}

impl<R: Files<File = File>> Drafts<'_, R> {
    // A new file beside that of this name.
    fn begin(&mut self, name: &str) -> Result<File, Cause> {
        if let Err(error) = check_place(self.rt, name) {
            return Err(cause_of(self.alloc, name, error));
        }
        for number in 0..MOST_DRAFTS {
            let path = path_of(self.alloc, name, number)?;
            match File::create_new(self.rt, path.as_str()) {
                Ok(file) => {
                    self.path = Some(path);
                    return Ok(file);
                }
                Err(error) if error.kind() == ErrorKind::AlreadyExists => {}
                Err(error) => return Err(Cause::of_path("make", path, error)),
            }
        }
        Err(cause_of(self.alloc, name, io::Error::from(ErrorKind::AlreadyExists)))
    }

    // Gives the file this name. There is no draft afterwards.
    fn name(&mut self, name: &str, file: &File) -> Result<(), Cause> {
        let Some(path) = self.path.take() else {
            return Err(no_draft());
        };
        match place(self.rt, file, path.as_str(), name) {
            Ok(()) => Ok(()),
            Err(error) => {
                remove(self.rt, file, path.as_str());
                Err(cause_of(self.alloc, name, error))
            }
        }
    }

    // Removes the draft.
    fn give_up(&mut self, file: &File) {
        if let Some(path) = self.path.take() {
            remove(self.rt, file, path.as_str());
        }
    }
}

// Gives the file, which has the path `draft`, this path in one step, in place of whatever file had it.
fn place<R: Files>(rt: &R, file: &File, draft: &str, path: &str) -> io::Result<()> {
    file.sync_all()?;
    if !is_at(rt, file, draft)? {
        return Err(io::Error::new(
            ErrorKind::NotFound,
            "the draft was removed or replaced while this program ran",
        ));
    }
    check_place(rt, path)?;
    fs::rename(rt, draft, path)
}

// Whether a file may take this path: it leads to a regular file, or to nothing. A link is not followed, and a device is not
// replaced. An empty path leads to nothing, too, and no file can take it.
fn check_place<R: Files>(rt: &R, path: &str) -> io::Result<()> {
    if path.is_empty() {
        return Err(io::Error::new(ErrorKind::InvalidInput, "it has no name"));
    }
    match fs::symlink_metadata(rt, path) {
        Ok(found) if found.is_file() => Ok(()),
        Ok(_) => Err(io::Error::new(ErrorKind::AlreadyExists, "it is no regular file")),
        Err(error) if error.kind() == ErrorKind::NotFound => Ok(()),
        Err(error) => Err(error),
    }
}

// Removes the draft's path, where it is still this file's. A failure leaves the file there.
fn remove<R: Files>(rt: &R, file: &File, path: &str) {
    if let Ok(true) = is_at(rt, file, path) {
        let _ = fs::remove_file(rt, path);
    }
}

fn path_of(alloc: Global, name: &str, number: u32) -> Result<String, Cause> {
    match format!(in alloc; "{name}.{number}.new") {
        Ok(path) => Ok(path),
        Err(error) => Err(Cause::new("make", "a file", io::Error::from(error))),
    }
}

fn cause_of(alloc: Global, name: &str, error: io::Error) -> Cause {
    match String::from_str(alloc, name) {
        Ok(path) => Cause::of_path("make", path, error),
        Err(_) => Cause::new("make", "a file", error),
    }
}

fn no_draft() -> Cause {
    Cause::new("make", "a file", io::Error::from(ErrorKind::NotFound))
}
