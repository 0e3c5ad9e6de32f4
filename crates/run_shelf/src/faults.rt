//! Which call of the folder failed, and why a call of this crate was refused.

use std::alloc::{AllocError, AllocFailed};
use thiserror::Error;

/// A call of the folder.
#[derive(Clone, Copy, Debug, PartialEq, Eq)]
pub enum ShelfCall {
    /// The list of names.
    Names,
    /// The length of a file.
    Length,
    /// A read of a file.
    ReadAt,
    /// The start of a draft.
    StartDraft,
    /// A piece of a draft.
    Append,
    /// The sync of a draft.
    SyncDraft,
    /// The publish of a draft.
    Publish,
    /// The sync of the folder.
    SyncFolder,
}

/// Why no repository was made.
#[derive(Clone, Copy, Debug, PartialEq, Eq, Error)]
pub enum InitFault {
    /// The file `format` is there.
    #[error("there is a repository")]
    Exists,
    /// This call of the folder failed.
    #[error("fault of the repository folder")]
    Shelf(ShelfCall),
}

/// Why a folder is not taken for a repository.
#[derive(Clone, Copy, Debug, PartialEq, Eq, Error)]
pub enum OpenFault {
    /// The file `format` is not there.
    #[error("there is no repository")]
    NoStore,
    /// The file `format` has other bytes than `subunit-store 1` or `subunit-store 2` and a newline.
    #[error("the repository has an unknown format")]
    UnknownFormat,
    /// The format is the second one, and `base.set` is not there, or holds no base, or a run that it counts is not there.
    #[error("the base set is damaged")]
    BadBase,
    /// This is the least number without a run, and a greater number has one.
    #[error("the repository lacks run {0}")]
    Gap(u32),
    /// This call of the folder failed.
    #[error("fault of the repository folder")]
    Shelf(ShelfCall),
    /// There is not enough memory.
    #[error("out of memory")]
    NoMemory,
}

/// Why a call of a store was not done.
#[derive(Clone, Copy, Debug, PartialEq, Eq, Error)]
pub enum StoreFault {
    /// This call of the folder failed. The store is closed.
    #[error("fault of the repository folder")]
    Shelf(ShelfCall),
    /// The store is closed, since this call of the folder failed before.
    #[error("the repository must be opened again")]
    Closed(ShelfCall),
}

/// Why no recording was started.
#[derive(Clone, Copy, Debug, PartialEq, Eq, Error)]
pub enum StartFault {
    /// There are 1,000,000 runs.
    #[error("the repository is full")]
    Full,
    /// The store is closed.
    #[error("{0}")]
    Store(StoreFault),
    /// There is not enough memory.
    #[error("out of memory")]
    NoMemory,
}

/// Why a whole file was not read.
#[derive(Clone, Copy, Debug, PartialEq, Eq)]
pub enum FileFault {
    /// This call of the folder failed.
    Shelf(ShelfCall),
    /// There is not enough memory.
    NoMemory,
}

impl From<AllocError> for FileFault {
    ghost use Rattle.std.specs.Prelude.{◌≡◌};
    ghost use Rattle.run_shelf.specs.declared.faults.FileFault.TheVariants.{NoMemory};

    ghost from_gives = { λ _ fault. fault ≡ NoMemory };

    fn from(_: AllocError) -> Self {
        FileFault::NoMemory
    }
}

/// Why a file of a cache was not read.
#[derive(Clone, Copy, Debug, PartialEq, Eq, Error)]
pub enum CacheFileFault {
    /// A call of the folder failed, or had failed before.
    #[error("{0}")]
    Store(StoreFault),
    /// There is not enough memory.
    #[error("out of memory")]
    NoMemory,
}

impl From<AllocError> for OpenFault {
    ghost use Rattle.std.specs.Prelude.{◌≡◌};
    ghost use Rattle.run_shelf.specs.declared.faults.OpenFault.TheVariants.{NoMemory};

    ghost from_gives = { λ _ fault. fault ≡ NoMemory };

    fn from(_: AllocError) -> Self {
        OpenFault::NoMemory
    }
}

impl<T: Drop> From<AllocFailed<T>> for OpenFault {
    ghost use Rattle.std.specs.Prelude.{◌≡◌};
    ghost use Rattle.run_shelf.specs.declared.faults.OpenFault.TheVariants.{NoMemory};

    ghost from_gives = { λ _ fault. fault ≡ NoMemory };

    fn from(_: AllocFailed<T>) -> Self {
        OpenFault::NoMemory
    }
}
