// The repository's folder as a shelf.
ghost use Rattle.std.specs.Prelude.{None};

use crate::cause::Cause;
use crate::fault_count::Faults;
use crate::folder::Folder;
use crate::lock::Sharing;
use crate::programs::Programs;
use edge_io::{Failed, NamesFault, Shelf};
use std::alloc::Global;
use std::fs::{File, Files};
use std::process::Processes;
use sub_number::Text;

/// The folder `.testrepository` of the current folder. Counts its calls, and those that fail. The first call that finds
/// the folder there, or makes it, takes the lock on the file `lock` in it, and where runs are added that on `writer`, for as
/// long as this value lasts. Where another program keeps it out, that call and all later ones fail.
#[derive(Drop)]
pub struct FolderShelf<'r, R: Processes> {
    folder: Folder<'r, R>,
    // Those that are stopped where nothing can be added to the draft any more.
    programs: Option<&'r Programs<R::Started>>,
    calls: u64,
    faults: Faults,
}

impl<'r, R: Files<File = File> + Processes> FolderShelf<'r, R> {
    /// The folder as it stands, before any call. Where the lock is shared, no draft can be begun.
    pub fn new(alloc: Global, rt: &'r R, sharing: Sharing) -> Self {
        FolderShelf {
            folder: Folder::new(alloc, rt, sharing),
            programs: None,
            calls: 0,
            faults: Faults::new(),
        }
    }

    /// The same, where a folder of the original tool is taken over: partial runs and `format` may be put in place of older
    /// ones, too.
    pub fn taking_over(self) -> Self {
        FolderShelf {
            folder: self.folder.taking_over(),
            programs: self.programs,
            calls: self.calls,
            faults: self.faults,
        }
    }

    /// The same, which stops these programs where nothing can be added to the draft any more: the run that they print is not
    /// kept then, and one that is silent would be waited for else.
    pub fn stopping(self, programs: &'r Programs<R::Started>) -> Self {
        FolderShelf {
            programs: Some(programs),
            ..self
        }
    }

    /// Removes a draft that was not published.
    pub fn give_up(&mut self) {
        self.folder.give_up();
    }

    /// Why the last call that failed did so.
    pub fn cause(&self) -> Option<&Cause> {
        self.faults.cause.as_ref()
    }
}

impl<R: Files<File = File> + Processes + AllocGlobal + Clone + Drop> Shelf for FolderShelf<'_, R> {
    ghost seen = { λ s. record { told = None; faults = s.faults.count } };

    ghost clock = { λ s. s.calls };

    ghost published_counts = { λ _. tt };

    /// Lists the regular files of the folder, without `draft`, `lock` and `writer`.
    fn names(&mut self, alloc: Global) -> Result<Vec<Text>, NamesFault> {
        self.calls = self.calls.saturating_add(1);
        let result = self.folder.names(alloc);
        self.faults.counted_names(result)
    }

    /// The length of the published file in bytes, as the system says it and reads find it.
    fn length(&mut self, name: &str) -> Result<Option<u64>, Failed> {
        self.calls = self.calls.saturating_add(1);
        let result = self.folder.length(name);
        self.faults.counted(result)
    }

    /// Reads from the file at an offset, until `buf` is full or the file ends.
    fn read_at(&mut self, name: &str, place: u64, buf: &mut [u8]) -> Result<usize, Failed> {
        self.calls = self.calls.saturating_add(1);
        let result = self.folder.read_at(name, place, buf);
        self.faults.counted(result)
    }

    /// Makes the file `draft` anew, empty, and the folder where it is absent.
    fn start_draft(&mut self) -> Result<(), Failed> {
        self.calls = self.calls.saturating_add(1);
        let result = self.folder.start_draft();
        self.faults.counted(result)
    }

    /// Adds to the draft. What is small waits in memory until more comes, or until the draft is synced or published. Where it
    /// fails the file is removed, and the programs are stopped that it was said of.
    fn append(&mut self, piece: &[u8]) -> Result<(), Failed> {
        self.calls = self.calls.saturating_add(1);
        let result = self.folder.append(piece);
        if let (Err(_), Some(programs)) = (&result, self.programs) {
            programs.stop();
        }
        self.faults.counted(result)
    }

    /// Writes what waits, and syncs the file. The file is removed where it fails.
    fn sync_draft(&mut self) -> Result<(), Failed> {
        self.calls = self.calls.saturating_add(1);
        let result = self.folder.sync_draft();
        self.faults.counted(result)
    }

    /// Writes what waits, and gives the file this name. A cache is put in place of an older one, and so is the base; where a
    /// folder is taken over, partial runs and `format` are, too. No other name is given twice: it fails where a file has it.
    fn publish(&mut self, name: &str) -> Result<(), Failed> {
        self.calls = self.calls.saturating_add(1);
        let result = self.folder.publish(name);
        self.faults.counted(result)
    }

    /// Syncs the folder, where it is there, and the first time the folder that it stands in.
    fn sync_folder(&mut self) -> Result<(), Failed> {
        self.calls = self.calls.saturating_add(1);
        let result = self.folder.sync();
        self.faults.counted(result)
    }
}
