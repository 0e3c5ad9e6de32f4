//! The files of the caches, which stand beside the runs.

ghost use Rattle.std.specs.Prelude.{◌≡◌, IfSome, IfOk, IfErr, OnOk};
ghost use Rattle.edge_io.specs.Causes.{HasCause, RisesExactlyIf};
ghost use Rattle.edge_io.specs.Steps.{Goes, Stays};
ghost use Rattle.run_shelf.specs.Clocks.{TicksAsKept};
ghost use Rattle.run_shelf.specs.Images.{AtRest};
ghost use Rattle.run_shelf.specs.Outcomes.{KeepFails, TicksUpTo};
ghost use Rattle.run_shelf.specs.Sides.{cache_file_name, HoldsCacheFile, KeepsCacheFile, PassesCacheFile, CacheFileFails, cache_file_failed};

use crate::file::{keep_file, read_file};
use crate::{CacheFileFault, FileFault, ShelfCall, StoreFault};
use edge_io::Shelf;
use std::alloc::Global;
use sub_number::Bytes;

/// A file of a cache.
#[derive(Clone, Copy, Debug, PartialEq, Eq)]
pub enum CacheFile {
    /// The cache of the failing set, `failing.set`.
    Failing,
    /// The cache of the times, `times.set`.
    Times,
}

impl CacheFile {
    /// The name of the file.
    pub fn name(self) -> &'static str
        ensures { result.now ≡ cache_file_name self }
    {
        match self {
            CacheFile::Failing => "failing.set",
            CacheFile::Times => "times.set",
        }
    }
}

/// The bytes of this file, and `None` exactly where it is not there. It makes at most two calls of the folder, in which
/// nothing changes.
///
/// `Store` comes only with the call of the folder that failed.
pub fn read_cache_file<H: Shelf>(
    alloc: Global,
    shelf: &mut H,
    side: CacheFile,
) -> Result<Option<Bytes>, CacheFileFault>
    ensures found { IfOk result (λ found. IfSome (H.seen shelf.old).told (HoldsCacheFile side found)) }
    ensures failed { IfErr result CacheFileFails }
    ensures same { Goes (H.seen shelf.old).told (H.seen shelf.new).told Stays }
    ensures time { TicksUpTo 2 (H.clock shelf.old) (H.clock shelf.new) }
    ensures cause { RisesExactlyIf (H.seen shelf.old).faults (H.seen shelf.new).faults (cache_file_failed result) }
{
    match read_file(alloc, shelf, side.name()) {
        Ok(found) => Ok(found),
        Err(FileFault::Shelf(call)) => Err(CacheFileFault::Store(StoreFault::Shelf(call))),
        Err(FileFault::NoMemory) => Err(CacheFileFault::NoMemory),
    }
}

/// Puts this file beside the runs, with these bytes and in place of any other, in a folder in which nothing is pending. It
/// takes no memory and makes at most five calls of the folder, those of the keeping of a run.
///
/// At `Ok` each later stop leaves the file. The error is the call of the folder that failed: before the publish the files
/// are as they were, at it the file is there or not, after it the file is there. A stop at any moment leaves what one
/// before the call might have left, or the files as read before it with this one beside them.
pub fn write_cache_file<H: Shelf>(
    shelf: &mut H,
    side: CacheFile,
    bytes: &[u8],
) -> Result<(), ShelfCall>
    requires { IfSome (H.seen shelf.old).told AtRest }
    ensures kept { OnOk result (Goes (H.seen shelf.old).told (H.seen shelf.new).told (KeepsCacheFile side bytes.now)) }
    ensures failed { IfErr result (λ call. Goes (H.seen shelf.old).told (H.seen shelf.new).told (KeepFails (cache_file_name side) bytes.now call)) }
    ensures any_moment { Goes (H.seen shelf.old).told (H.seen shelf.new).told (PassesCacheFile side bytes.now) }
    ensures calls { TicksAsKept result (H.clock shelf.old) (H.clock shelf.new) }
    ensures time { TicksUpTo 5 (H.clock shelf.old) (H.clock shelf.new) }
    ensures cause { HasCause (H.seen shelf.old).faults (H.seen shelf.new).faults result }
{
    keep_file(shelf, side.name(), bytes)
}
