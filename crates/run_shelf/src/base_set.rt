//! The base of a folder that another program began: how many runs it had then, and which tests failed.

ghost use Rattle.std.specs.Prelude.{◌≡◌, ◌≤◌, IfSome, IfNone, IfOk, IfErr};
ghost use Rattle.edge_io.specs.Causes.{RisesExactlyIf};
ghost use Rattle.edge_io.specs.Steps.{Goes, Stays};
ghost use Rattle.run_shelf.specs.Bases.{Base as ABase, IsBase, no_base as no_runs};
ghost use Rattle.run_shelf.specs.Faults.{open_failed};
ghost use Rattle.run_shelf.specs.Looking.{seen_base, ReadsBase, BaseFails};
ghost use Rattle.run_shelf.specs.Outcomes.{TicksUpTo};
ghost use Rattle.run_shelf.specs.Repository.{HasBasedFormat, IsRepository};
ghost use Rattle.run_shelf.specs.Sides.{OfLentFolder, cache_file_failed};

use crate::file::read_file;
use crate::names::{Format, format_again};
use crate::{CacheFileFault, FileFault, IdFile, MOST_RUNS, OpenFault, StoreFault, read_id_file};
use edge_io::Shelf;
use std::alloc::Global;
use sub_number::{IdList, NoMemory};

/// The name of the file.
pub const BASE_NAME: &str = "base.set";

// Its first line.
const TITLE: &[u8] = b"subunit-base 1\n";

/// How many runs the folder had when it was taken over, and the ids that failed then, in the order of their bytes.
#[derive(Drop)]
pub struct Base {
    pub count: u32,
    pub ids: IdList,
}

/// The base of a folder of the second format. It makes at most two calls of the folder, in which nothing changes.
///
/// `BadBase` comes exactly where its file is not there or holds no base, and `Shelf` only with the call of the folder that
/// failed.
pub fn read_base_set<H: Shelf>(alloc: Global, shelf: &mut H) -> Result<Base, OpenFault>
    requires { IfSome (H.seen shelf.old).told (λ s. HasBasedFormat s.disk.published) }
    ensures found { IfOk result (λ base. IfSome (H.seen shelf.old).told (ReadsBase base)) }
    ensures few { IfOk result (λ base. base.count ≤ 1000000) }
    ensures refused { IfErr result (λ fault. Goes (H.seen shelf.old).told (H.seen shelf.new).told (BaseFails fault)) }
    ensures same { Goes (H.seen shelf.old).told (H.seen shelf.new).told Stays }
    ensures time { TicksUpTo 2 (H.clock shelf.old) (H.clock shelf.new) }
    ensures cause { RisesExactlyIf (H.seen shelf.old).faults (H.seen shelf.new).faults (open_failed result) }
{
    let found = match read_file(alloc, shelf, BASE_NAME) {
        Ok(found) => found,
        Err(FileFault::Shelf(call)) => return Err(OpenFault::Shelf(call)),
        Err(FileFault::NoMemory) => return Err(OpenFault::NoMemory),
    };
    let Some(bytes) = found else {
        return Err(OpenFault::BadBase);
    };
    match base_in(alloc, bytes.bytes()) {
        Ok(Some(base)) => Ok(base),
        Ok(None) => Err(OpenFault::BadBase),
        Err(NoMemory) => Err(OpenFault::NoMemory),
    }
}

/// The base of a repository, an empty one under the first format, where `base.set` is not looked at. It makes at most three
/// calls of the folder, one under the first format; nothing changes in the folder.
///
/// `Store` comes only with the call of the folder that failed. `NoMemory` comes for want of memory, or where a folder that
/// tells nothing has other bytes than those of a repository.
pub fn read_base<H: Shelf>(alloc: Global, shelf: &mut H) -> Result<Base, CacheFileFault>
    requires { IfSome (H.seen shelf.old).told (λ s. IsRepository s.disk.published) }
    ensures found { IfOk result (λ base. IfSome (H.seen shelf.old).told (ReadsBase base)) }
    ensures failed { IfErr result OfLentFolder }
    ensures same { Goes (H.seen shelf.old).told (H.seen shelf.new).told Stays }
    ensures time { TicksUpTo 3 (H.clock shelf.old) (H.clock shelf.new) }
    ensures cause { RisesExactlyIf (H.seen shelf.old).faults (H.seen shelf.new).faults (cache_file_failed result) }
{
    match format_again(shelf) {
        Ok(Format::First) => Ok(no_base(alloc)),
        Ok(Format::Second) => match read_base_set(alloc, shelf) {
            Ok(base) => Ok(base),
            Err(OpenFault::Shelf(call)) => Err(CacheFileFault::Store(StoreFault::Shelf(call))),
            Err(_) => Err(CacheFileFault::NoMemory),
        },
        Err(fault) => Err(fault),
    }
}

// A base of no runs and no ids.
fn no_base(alloc: Global) -> Base
    ensures { seen_base result ≡ no_runs }
{
    Base {
        count: 0,
        ids: IdList::new(alloc),
    }
}

// The base that these bytes hold. `None` comes exactly where they hold none.
fn base_in(alloc: Global, bytes: &[u8]) -> Result<Option<Base>, NoMemory>
    ensures some { IfOk result (λ found. IfSome found (λ base. IsBase bytes.now (seen_base base))) }
    ensures none { IfOk result (λ found. IfNone found ((base : ABase) → IsBase bytes.now base → ⊥)) }
{
    let Some(IdFile { number, ids }) = read_id_file(alloc, TITLE, bytes)? else {
        return Ok(None);
    };
    if number > u64::from(MOST_RUNS) {
        return Ok(None);
    }
    Ok(Some(Base {
        count: number as u32,
        ids,
    }))
}
