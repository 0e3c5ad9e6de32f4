//! Why the old files of another folder were not copied.

use run_shelf::ShelfCall;

/// Why the old files of another folder were not copied, or not all of them.
#[derive(Clone, Copy, Debug, PartialEq, Eq)]
pub enum OldCopyFault {
    /// The folder here is a repository of this tool already.
    Here,
    /// The folder here is one of the original tool.
    OldHere,
    /// The file `format` here has other bytes than those of the two tools.
    StrangeHere,
    /// The other folder has no file `format`.
    NoStore,
    /// The other folder is a repository of this tool.
    NotOld,
    /// The file `format` there has other bytes than those of the two tools.
    UnknownFormat,
    /// The file `next-stream` is not there, or is no number of runs.
    BadCount,
    /// A file stands here that is none of the other folder's old ones, or has other bytes.
    OtherFiles,
    /// A file of the other folder was not read.
    Site,
    /// This call of the folder here failed.
    Shelf(ShelfCall),
    /// There is not enough memory.
    NoMemory,
}
