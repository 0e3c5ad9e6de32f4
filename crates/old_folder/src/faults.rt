//! Why a folder is not taken for one of the original tool.

use run_shelf::ShelfCall;

/// Why a folder is not taken for one that the original tool made.
#[derive(Clone, Copy, Debug, PartialEq, Eq)]
pub enum OldFault {
    /// The file `format` is not there.
    NoStore,
    /// The file `format` tells that the folder is a repository of this tool already.
    NotOld,
    /// The file `format` has other bytes than those of the two tools.
    UnknownFormat,
    /// The file `next-stream` is not there, or is no number of runs.
    BadCount,
    /// This call of the folder failed.
    Shelf(ShelfCall),
    /// There is not enough memory.
    NoMemory,
}
