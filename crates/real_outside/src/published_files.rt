// Files under their published names: what they are, what is in them, and how a draft gets such a name.

ghost use Rattle.std.specs.Io.{ReadsAtMost};

use crate::cause::Cause;
use crate::identity::is_at;
use std::fs::{File, Files};
use std::io::ErrorKind;
use std::os::unix::fs::FileExt;
use std::path::Path;
use std::{fs, io};

// What the name of a cache ends in, and that of the base. No run's name does, nor does `format`.
const SET: &str = ".set";

// What the name of a partial run ends in, as a converted one is.
const PART: &str = ".part";

// How the path of the file ends that tells the format.
const FORMAT: &str = "/format";

/// Which published files a draft may take the place of. All others are put once, and stay.
#[derive(Clone, Copy, Debug, PartialEq, Eq)]
pub enum Replaces {
    /// The caches, and the base.
    Sets,
    /// These, partial runs, and the format: where a folder of the original tool is taken over. There the format is another
    /// tool's, and an upgrade that was stopped may have left runs that it had converted.
    Converted,
}

impl Replaces {
    // Whether the file of this path may be replaced.
    fn takes(self, path: &str) -> bool {
        match self {
            Replaces::Sets => path.ends_with(SET),
            Replaces::Converted => {
                path.ends_with(SET) || path.ends_with(PART) || path.ends_with(FORMAT)
            }
        }
    }
}

/// Whether a name is no published file's, since what it leads to is no regular file. A name that leads nowhere, or that
/// can't be followed, is none such.
pub fn is_stranger<R: Files>(rt: &R, path: Path<'_>) -> bool {
    match fs::metadata(rt, path) {
        Ok(found) => !found.is_file(),
        Err(_) => false,
    }
}

// The file of this path, open, with how many bytes it has, or `None` where there is none. What the system says counts only
// where a read finds the last byte and no byte behind it.
fn measured<R: Files<File = File>>(rt: &R, path: &str) -> io::Result<Option<(File, u64)>> {
    let Some(file) = opened(rt, path)? else {
        return Ok(None);
    };
    let length = file.metadata()?.len();
    let ends = !has_byte(&file, length)?;
    if ends && (length == 0 || has_byte(&file, length - 1)?) {
        Ok(Some((file, length)))
    } else {
        Err(io::Error::new(
            ErrorKind::InvalidData,
            "its length is another than reads find",
        ))
    }
}

/// A published file that is open. It ends where it did when it was opened: what is written behind that since is not read.
#[derive(Drop)]
pub struct PublishedFile {
    path: String,
    file: File,
    end: u64,
}

impl PublishedFile {
    /// The file of this path, or `None` where there is none. Fails where reads find another end than the system says.
    pub fn find<R: Files<File = File>>(rt: &R, path: String) -> Result<Option<Self>, Cause> {
        match measured(rt, path.as_str()) {
            Ok(Some((file, end))) => Ok(Some(PublishedFile { path, file, end })),
            Ok(None) => Ok(None),
            Err(error) => Err(Cause::of_path("read", path, error)),
        }
    }

    /// How many bytes it had when it was found.
    pub fn length(&self) -> u64 {
        self.end
    }

    /// The file of this path. Fails where there is none.
    pub fn open<R: Files<File = File>>(rt: &R, path: String) -> Result<Self, Cause> {
        match opened_with_end(rt, path.as_str()) {
            Ok((file, end)) => Ok(PublishedFile { path, file, end }),
            Err(error) => Err(Cause::of_path("read", path, error)),
        }
    }

    /// Whether it is the file of this path.
    pub fn is_of(&self, path: &str) -> bool {
        self.path.as_str() == path
    }

    /// Fills `buf` from the byte number `place` on, as far as there are bytes. Answers how many there were.
    pub fn read_at(&self, place: u64, buf: &mut [u8]) -> io::Result<usize>
        ensures { ReadsAtMost result buf.new }
    {
        let left = self.end.saturating_sub(place);
        let room = match usize::try_from(left) {
            Ok(left) => left.min(buf.len()),
            Err(_) => buf.len(),
        };
        fill(&self.file, place, &mut buf[..room])
    }

    /// Why a read of it failed.
    pub fn cause(self, error: io::Error) -> Cause {
        Cause::of_path("read", self.path, error)
    }
}

/// Gives the file, which has the path `draft`, this path: one that may be replaced in place of whatever file had it, and any
/// other only where it is free. At `Ok` the path leads to this file. Where `draft` is not this file's any more, the call
/// fails.
pub fn publish<R: Files>(
    rt: &R,
    file: &File,
    draft: &str,
    path: &str,
    replaces: Replaces,
) -> io::Result<()> {
    if !is_at(rt, file, draft)? {
        return Err(replaced());
    }
    if replaces.takes(path) {
        // One call of the system, so at each moment the path leads to the old file or to this one.
        fs::rename(rt, draft, path)?;
    } else {
        link(rt, draft, path)?;
    }
    if is_at(rt, file, path)? {
        Ok(())
    } else {
        Err(replaced())
    }
}

// Gives the draft this path too, which no other file may have.
fn link<R: Files>(rt: &R, draft: &str, path: &str) -> io::Result<()> {
    match fs::hard_link(rt, draft, path) {
        Ok(()) => Ok(()),
        Err(error) if error.kind() == ErrorKind::AlreadyExists => Err(error),
        // Not every file system has hard links.
        Err(_) => rename_to_free(rt, draft, path),
    }
}

fn replaced() -> io::Error {
    io::Error::new(
        ErrorKind::NotFound,
        "the draft was removed or replaced while this program ran",
    )
}

// Renames the file, where the new name is free.
fn rename_to_free<R: Files>(rt: &R, draft: &str, path: &str) -> io::Result<()> {
    match fs::symlink_metadata(rt, path) {
        Ok(_) => Err(io::Error::from(ErrorKind::AlreadyExists)),
        Err(error) if error.kind() == ErrorKind::NotFound => fs::rename(rt, draft, path),
        Err(error) => Err(error),
    }
}

// The regular file at this path, open; none where there is nothing. A pipe is not opened, since that might wait.
fn opened<R: Files<File = File>>(rt: &R, path: &str) -> io::Result<Option<File>> {
    match fs::metadata(rt, path) {
        Ok(found) if found.is_file() => Ok(Some(File::open(rt, path)?)),
        Ok(_) => Err(io::Error::new(ErrorKind::InvalidData, "it is no regular file")),
        Err(error) if error.kind() == ErrorKind::NotFound => absent(rt, path),
        Err(error) => Err(error),
    }
}

// None, where nothing stands at this path. A link that leads nowhere does. A file that got the name since the look before is
// opened.
fn absent<R: Files<File = File>>(rt: &R, path: &str) -> io::Result<Option<File>> {
    match fs::symlink_metadata(rt, path) {
        Ok(found) if found.is_file() => Ok(Some(File::open(rt, path)?)),
        Ok(_) => Err(io::Error::new(ErrorKind::NotFound, "it is a link that leads nowhere")),
        Err(error) if error.kind() == ErrorKind::NotFound => Ok(None),
        Err(error) => Err(error),
    }
}

// The file of this path, open, and the place where it ends. The system says it, unless a read finds a byte there, as of
// some files that it makes: these are read as far as they go.
fn opened_with_end<R: Files<File = File>>(rt: &R, path: &str) -> io::Result<(File, u64)> {
    let Some(file) = opened(rt, path)? else {
        return Err(io::Error::from(ErrorKind::NotFound));
    };
    let length = file.metadata()?.len();
    let end = if has_byte(&file, length)? {
        u64::MAX
    } else {
        length
    };
    Ok((file, end))
}

// Whether the file has a byte at this place.
fn has_byte(file: &File, place: u64) -> io::Result<bool> {
    let mut byte = [0u8];
    Ok(fill(file, place, &mut byte)? > 0)
}

fn fill(file: &File, place: u64, buf: &mut [u8]) -> io::Result<usize>
    ensures { ReadsAtMost result buf.new }
{
    let mut done = 0;
    for _ in 0..u64::MAX {
        if done == buf.len() {
            break;
        }
        match file.read_at(&mut buf[done..], place.saturating_add(done as u64)) {
            Ok(0) => break,
            Ok(count) => done += count,
            Err(error) if error.kind() == ErrorKind::Interrupted => {}
            Err(error) => return Err(error),
        }
    }
    Ok(done)
}
