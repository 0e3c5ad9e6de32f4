// The calls of the system behind the repository's folder. What each one gives is counted above.

ghost use Rattle.std.specs.Io.{ReadsAtMost};

use crate::cause::{Cause, told};
use crate::identity::is_at;
use crate::lock::{FOLDER, Lock, Sharing};
use crate::published_files::{PublishedFile, Replaces, is_stranger, publish};
use std::alloc::Global;
use std::collections::BTreeSet;
use std::fs::{DirEntry, File, Files};
use std::io::{BufWriter, ErrorKind, Write};
use std::{fs, io};
use sub_number::{Text, TextFault};

// The draft's file. No published file has this name.
const DRAFT_NAME: &str = "draft";

const DRAFT: &str = ".testrepository/draft";

// The files whose locks keep other programs out. No published file has one of these names.
const LOCK_NAME: &str = "lock";

const WRITER_NAME: &str = "writer";

// How many bytes of a draft may wait in memory for one write.
const ROOM: usize = 65_536;

/// The folder `.testrepository`, and the draft that is open in it. Each call asks for the folder's lock first, until it
/// is held, and fails where that is refused. The file that was asked for last is kept open, as long as no other is and none
/// gets a name: so its bytes are those whose length was told, though another program may put a cache in its place.
#[derive(Drop)]
pub struct Folder<'r, R> {
    rt: &'r R,
    alloc: Global,
    sharing: Sharing,
    lock: Lock,
    draft: Option<BufWriter<File>>,
    read: Option<PublishedFile>,
    is_settled: bool,
    replaces: Replaces,
}

impl<'r, R: Files<File = File>> Folder<'r, R> {
    /// The folder as it stands, without a draft. It need not be there. Where the lock is shared, no draft can be begun.
    pub fn new(alloc: Global, rt: &'r R, sharing: Sharing) -> Self {
        Folder {
            rt,
            alloc,
            sharing,
            lock: Lock::Unasked,
            draft: None,
            read: None,
            is_settled: false,
            replaces: Replaces::Sets,
        }
    }

    /// The same, where a folder of the original tool is taken over: partial runs and the format may be put anew, too.
    pub fn taking_over(self) -> Self {
        Folder {
            replaces: Replaces::Converted,
            ..self
        }
    }

    /// The names of regular files in the folder that are texts, each once, in the order of their bytes, without the draft's
    /// and the locks'. A name that leads nowhere is one of them, so that whoever reads it fails. An absent folder has
    /// none. Where another program may add runs meanwhile, the names are brought to the disk, so that no stop takes one
    /// away that was told. The cause is want of memory only for want of memory.
    pub fn names(&mut self, alloc: Global) -> Result<Vec<Text>, Cause>
    where
        R: AllocGlobal + Clone + Drop,
    {
        self.lock.ask(self.rt, self.sharing)?;
        let found = match self.lock {
            Lock::NoFolder => BTreeSet::new(alloc),
            _ => told("list", FOLDER, found_names(alloc, self.rt))?,
        };
        if self.sharing == Sharing::Together {
            self.sync()?;
        }
        told("list", FOLDER, in_order(alloc, found))
    }

    /// How many bytes the file of this name has, or `None` where there is none. Fails at a name that is there and is no
    /// file that can be read, as a folder, and where reads find another end than the system says.
    pub fn length(&mut self, name: &str) -> Result<Option<u64>, Cause> {
        self.lock.ask(self.rt, self.sharing)?;
        let path = self.path_of(name)?;
        self.read = PublishedFile::find(self.rt, path)?;
        match &self.read {
            Some(file) => Ok(Some(file.length())),
            None => Ok(None),
        }
    }

    /// Fills `buf` from the file of this name, from the byte number `place` on, as far as there were bytes when it was
    /// opened: one that is written to meanwhile, as by a copy of it into itself, has an end. Answers how many there were.
    pub fn read_at(&mut self, name: &str, place: u64, buf: &mut [u8]) -> Result<usize, Cause>
        ensures { ReadsAtMost result buf.new }
    {
        self.lock.ask(self.rt, self.sharing)?;
        let path = self.path_of(name)?;
        let file = match self.read.take() {
            Some(file) if file.is_of(path.as_str()) => file,
            _ => PublishedFile::open(self.rt, path)?,
        };
        match file.read_at(place, buf) {
            Ok(count) => {
                self.read = Some(file);
                Ok(count)
            }
            Err(error) => Err(file.cause(error)),
        }
    }

    /// Makes the folder where it is absent, and a new file for an empty draft, in place of whatever had its name. There
    /// is no draft where it fails.
    pub fn start_draft(&mut self) -> Result<(), Cause> {
        self.give_up();
        if self.sharing == Sharing::Together {
            return Err(Cause::new("write", DRAFT, io::Error::from(ErrorKind::PermissionDenied)));
        }
        self.lock.take(self.rt, self.sharing)?;
        told("remove", DRAFT, removed(self.rt))?;
        let file = told("make", DRAFT, File::create_new(self.rt, DRAFT))?;
        let draft = BufWriter::with_capacity(self.alloc, ROOM, file);
        if draft.is_err() {
            let _ = removed(self.rt);
        }
        self.draft = Some(told("write", DRAFT, draft)?);
        Ok(())
    }

    /// Adds `piece` to the draft. A small one waits in memory. There is no draft where it fails.
    pub fn append(&mut self, piece: &[u8]) -> Result<(), Cause> {
        let Some(draft) = &mut self.draft else {
            return Err(no_draft());
        };
        let outcome = draft.write_all(piece);
        if outcome.is_err() {
            self.give_up();
        }
        told("write", DRAFT, outcome)
    }

    /// Brings the draft to the disk. There is no draft where it fails.
    pub fn sync_draft(&mut self) -> Result<(), Cause> {
        let Some(draft) = &mut self.draft else {
            return Err(no_draft());
        };
        let outcome = synced(draft);
        if outcome.is_err() {
            self.give_up();
        }
        outcome
    }

    /// Makes the draft the file of this name: one that may be replaced in place of an older one, and any other file only
    /// where the name is free. There is no draft afterwards.
    pub fn publish(&mut self, name: &str) -> Result<(), Cause> {
        let Some(mut draft) = self.draft.take() else {
            return Err(no_draft());
        };
        // The file that is open may be replaced.
        self.read = None;
        let outcome = self.place(&mut draft, name);
        self.discard(draft.get_ref());
        outcome
    }

    /// Removes the draft, where there is one. A failure of that leaves its file to the next draft.
    pub fn give_up(&mut self) {
        if let Some(draft) = self.draft.take() {
            self.discard(draft.get_ref());
        }
    }

    /// Brings the folder's names to the disk, and the first time the folder's own name too: whoever made the folder may
    /// have been stopped before that. An absent folder has no names.
    pub fn sync(&mut self) -> Result<(), Cause> {
        self.lock.ask(self.rt, self.sharing)?;
        if matches!(self.lock, Lock::NoFolder) {
            return Ok(());
        }
        told("sync", FOLDER, sync_path(self.rt, FOLDER))?;
        if !self.is_settled {
            told("sync", ".", sync_path(self.rt, "."))?;
            self.is_settled = true;
        }
        Ok(())
    }

    // Writes what waits, and gives the draft's file this name, while the lock is still the one that others find.
    fn place(&mut self, draft: &mut BufWriter<File>, name: &str) -> Result<(), Cause> {
        told("write", DRAFT, draft.flush())?;
        self.lock.confirm(self.rt)?;
        let path = self.path_of(name)?;
        match publish(self.rt, draft.get_ref(), DRAFT, &path, self.replaces) {
            Ok(()) => Ok(()),
            Err(error) => Err(Cause::of_path("make", path, error)),
        }
    }

    // Removes the draft's name, where it is still this file's.
    fn discard(&self, file: &File) {
        if let Ok(true) = is_at(self.rt, file, DRAFT) {
            let _ = fs::remove_file(self.rt, DRAFT);
        }
    }

    fn path_of(&self, name: &str) -> Result<String, Cause> {
        match format!(in self.alloc; "{FOLDER}/{name}") {
            Ok(path) => Ok(path),
            Err(error) => Err(Cause::new("name", FOLDER, io::Error::from(error))),
        }
    }
}

fn no_draft() -> Cause {
    Cause::new("write", DRAFT, io::Error::from(ErrorKind::NotFound))
}

// Removes whatever has the draft's name. It is not opened, so that it may be a link or a pipe.
fn removed<R: Files>(rt: &R) -> io::Result<()> {
    match fs::remove_file(rt, DRAFT) {
        Err(error) if error.kind() == ErrorKind::NotFound => Ok(()),
        result => result,
    }
}

fn synced(draft: &mut BufWriter<File>) -> Result<(), Cause> {
    told("write", DRAFT, draft.flush())?;
    told("sync", DRAFT, draft.get_ref().sync_all())
}

fn sync_path<R: Files<File = File>>(rt: &R, path: &str) -> io::Result<()> {
    File::open(rt, path)?.sync_all()
}

fn in_order(alloc: Global, found: BTreeSet<Text>) -> io::Result<Vec<Text>> {
    let mut names = Vec::new(alloc);
    for name in found {
        names.push(name)?;
    }
    Ok(names)
}

// The names of files in the folder that are texts, without the draft's and the locks'.
fn found_names<R>(alloc: Global, rt: &R) -> io::Result<BTreeSet<Text>>
where
    R: Files<File = File> + AllocGlobal + Clone + Drop,
{
    let mut found = BTreeSet::new(alloc);
    for entry in fs::read_dir(rt, FOLDER)? {
        if let Some(name) = name_of(alloc, rt, entry)? {
            found.insert(name)?;
        }
    }
    Ok(found)
}

// The name of an entry, where it is a text that may be published.
fn name_of<R: Files + Drop>(
    alloc: Global,
    rt: &R,
    entry: io::Result<DirEntry<R>>,
) -> io::Result<Option<Text>> {
    let entry = match entry {
        Ok(entry) => entry,
        // Its name is not UTF-8.
        Err(error) if error.kind() == ErrorKind::InvalidFilename => return Ok(None),
        Err(error) => return Err(error),
    };
    let name = entry.file_name();
    if name == DRAFT_NAME || name == LOCK_NAME || name == WRITER_NAME {
        return Ok(None);
    }
    if is_stranger(rt, entry.path()) {
        return Ok(None);
    }
    match Text::new(alloc, name.as_bytes()) {
        Ok(name) => Ok(Some(name)),
        Err(TextFault::NotText) => Ok(None),
        Err(TextFault::NoMemory) => Err(io::Error::from(ErrorKind::OutOfMemory)),
    }
}
