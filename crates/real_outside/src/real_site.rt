// Files by their names as a site.
ghost use Rattle.std.specs.Prelude.{None};
ghost use Rattle.std.specs.Io.{ReadsAtMost};
ghost use Rattle.edge_io.specs.Sites.{FindsAtMost};

use crate::cause::Cause;
use crate::fault_count::Faults;
use crate::stream_source::read_retried;
use edge_io::{Failed, Found, Site};
use std::alloc::Global;
use std::fs::{File, Files};
use std::io::{ErrorKind, Seek, SeekFrom};
use std::{fs, io};

/// The files of the system by their paths. Counts the reads that fail. The file that was read last is kept open, since
/// reads come in order: so a pipe can be read, and a file that is removed meanwhile is read to its end.
#[derive(Drop)]
pub struct RealSite<'r, R> {
    folder: String,
    files: LastFile<'r, R>,
    faults: Faults,
}

impl<'r, R: Files<File = File>> RealSite<'r, R> {
    /// No file is open yet, and no read has failed. `folder` is the absolute path of the folder that the program works in;
    /// empty where it is not known.
    pub fn new(alloc: Global, rt: &'r R, folder: String) -> Self {
        RealSite {
            folder,
            files: LastFile {
                rt,
                alloc,
                open: None,
            },
            faults: Faults::new(),
        }
    }

    /// Why the last read that failed did so.
    pub fn cause(&self) -> Option<&Cause> {
        self.faults.cause.as_ref()
    }
}

// The file that was read last.
#[derive(Drop)]
struct LastFile<'r, R> {
    rt: &'r R,
    alloc: Global,
    open: Option<OpenFile>,
}

impl<R: Files<File = File>> LastFile<'_, R> {
    // One read of the file of this name, which is opened where it is another one.
    fn find(&mut self, name: &str, place: u64, buf: &mut [u8]) -> Result<Found, Cause>
        ensures { FindsAtMost result buf.new }
    {
        let mut file = match self.open.take() {
            Some(file) if file.is_of(name) => file,
            _ => match OpenFile::find(self.alloc, self.rt, name)? {
                Some(file) => file,
                None => return Ok(Found::Absent),
            },
        };
        let outcome = file.read_from(place, buf);
        self.open = Some(file);
        match outcome {
            Ok(count) => Ok(Found::Read(count)),
            Err(error) => Err(cause_of(self.alloc, name, error)),
        }
    }
}

impl<R: Files<File = File>> Site for RealSite<'_, R> {
    ghost seen = { λ s. record { told = None; faults = s.faults.count } };

    ghost folder = { λ s. s.folder.bytes.items };

    fn folder(&self) -> &str {
        self.folder.as_str()
    }

    /// One read of the file, which is opened where it is not the one that was read last. What is there and cannot be read,
    /// as a folder, and a link that leads nowhere, is a fault.
    fn read_at(&mut self, name: &str, place: u64, buf: &mut [u8]) -> Result<Found, Failed> {
        let result = self.files.find(name, place, buf);
        self.faults.counted(result)
    }
}

// A file that is read from its front on.
#[derive(Drop)]
struct OpenFile {
    name: String,
    file: File,
    // Where its next byte stands.
    place: u64,
}

impl OpenFile {
    // None where there is no such file.
    fn find<R: Files<File = File>>(
        alloc: Global,
        rt: &R,
        name: &str,
    ) -> Result<Option<Self>, Cause> {
        let file = match opened(rt, name) {
            Ok(Some(file)) => file,
            Ok(None) => return Ok(None),
            Err(error) => return Err(cause_of(alloc, name, error)),
        };
        match String::from_str(alloc, name) {
            Ok(name) => Ok(Some(OpenFile {
                name,
                file,
                place: 0,
            })),
            Err(error) => Err(Cause::new("read", "a file", io::Error::from(error))),
        }
    }

    fn is_of(&self, name: &str) -> bool {
        self.name.as_str() == name
    }

    // One read. A pipe can only be read on where its last read ended.
    fn read_from(&mut self, place: u64, buf: &mut [u8]) -> io::Result<usize>
        ensures { ReadsAtMost result buf.new }
    {
        if place != self.place {
            self.file.seek(SeekFrom::Start(place))?;
            self.place = place;
        }
        let count = read_retried(&mut self.file, buf)?;
        self.place = place.saturating_add(count as u64);
        Ok(count)
    }
}

// The file of this path, open; none where nothing stands there.
fn opened<R: Files<File = File>>(rt: &R, path: &str) -> io::Result<Option<File>> {
    match File::open(rt, path) {
        Ok(file) => Ok(Some(file)),
        Err(error) if is_absence(error.kind()) => absent(rt, path),
        Err(error) => Err(error),
    }
}

// None, where nothing stands at this path. A link that leads nowhere does.
fn absent<R: Files>(rt: &R, path: &str) -> io::Result<Option<File>> {
    match fs::symlink_metadata(rt, path) {
        Ok(_) => Err(io::Error::new(ErrorKind::NotFound, "it is a link that leads nowhere")),
        Err(error) if is_absence(error.kind()) => Ok(None),
        Err(error) => Err(error),
    }
}

/// Whether this is an error of a path that leads to nothing. Also one that goes on behind a file does.
pub fn is_absence(kind: ErrorKind) -> bool {
    kind == ErrorKind::NotFound || kind == ErrorKind::NotADirectory
}

fn cause_of(alloc: Global, name: &str, error: io::Error) -> Cause {
    match String::from_str(alloc, name) {
        Ok(path) => Cause::of_path("read", path, error),
        Err(_) => Cause::new("read", "a file", error),
    }
}
