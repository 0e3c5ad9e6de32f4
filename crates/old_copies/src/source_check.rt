//! The look at the other folder.

ghost use Rattle.std.specs.Prelude.{◌≡◌, ◌≤◌, None, false, IfSome, IfOk, IfErr, OnOk};
ghost use Rattle.edge_io.specs.Causes.{RisesExactlyIf};
ghost use Rattle.edge_io.specs.MemState.{folder_of};
ghost use Rattle.run_shelf.specs.Repository.{most_runs};
ghost use Rattle.old_copies.specs.Copying.{IsOldFolder, folder_in, folder_failed, site_failed};
ghost use Rattle.old_copies.specs.Looking.{CopyLookFails, IsOfSite, TakesUp, copy_fault};

use crate::OldCopyFault;
use crate::file::read_source_file;
use crate::names::{FORMAT_NAME, NEXT_NAME};
use edge_io::{MemShelf, Site};
use old_folder::{OldFault, survey_old};
use std::alloc::Global;
use sub_number::Text;

/// How many runs the folder of this path has, which must be one of the original tool: so many as `next-stream` tells. The two
/// files that it goes by are looked at as those of a folder in memory.
pub(crate) fn count_runs_at<F: Site>(
    alloc: Global,
    site: &mut F,
    from: &str,
) -> Result<u32, OldCopyFault>
    ensures found { IfOk result (λ count. IfSome (F.seen site.old).told (λ files. IsOldFolder count (folder_in from.now files))) }
    ensures few { IfOk result (λ count. count ≤ most_runs) }
    ensures refused { IfErr result (λ fault. IfSome (F.seen site.old).told (λ files. CopyLookFails (folder_in from.now files) fault)) }
    ensures same { (F.seen site.new).told ≡ (F.seen site.old).told }
    ensures quiet { folder_failed result ≡ false }
    ensures cause { RisesExactlyIf (F.seen site.old).faults (F.seen site.new).faults (site_failed result) }
{
    let mut kept = MemShelf::new(alloc, Vec::new(alloc));
    match take_up(alloc, site, from, FORMAT_NAME, &mut kept) {
        Ok(()) => (),
        Err(fault) => return Err(fault),
    }
    match take_up(alloc, site, from, NEXT_NAME, &mut kept) {
        Ok(()) => (),
        Err(fault) => return Err(fault),
    }
    match survey_old(alloc, &mut kept) {
        Ok(count) => Ok(count),
        Err(fault) => Err(fault_of_look(fault)),
    }
}

// The file of this name is kept in memory, too, where it is there.
fn take_up<F: Site>(
    alloc: Global,
    site: &mut F,
    from: &str,
    name: &str,
    kept: &mut MemShelf,
) -> Result<(), OldCopyFault>
    requires settled { (folder_of kept.old).disk.pending ≡ None }
    ensures taken { OnOk result (IfSome (F.seen site.old).told (λ files. TakesUp name.now (folder_in from.now files name.now) (folder_of kept.old) (folder_of kept.new))) }
    ensures settled { OnOk result ((folder_of kept.new).disk.pending ≡ None) }
    ensures failed { IfErr result IsOfSite }
    ensures same { (F.seen site.new).told ≡ (F.seen site.old).told }
    ensures cause { RisesExactlyIf (F.seen site.old).faults (F.seen site.new).faults (site_failed result) }
{
    let there = match read_source_file(alloc, site, from, name) {
        Ok(there) => there,
        Err(fault) => return Err(fault),
    };
    let Some(bytes) = there else {
        return Ok(());
    };
    // The name is a text.
    let Ok(text) = Text::new(alloc, name.as_bytes()) else {
        return Err(OldCopyFault::NoMemory);
    };
    match kept.put(text, bytes) {
        Ok(()) => Ok(()),
        Err(_) => Err(OldCopyFault::NoMemory),
    }
}

// A fault of the look as one of the copy. The folder in memory fails for want of memory alone.
fn fault_of_look(fault: OldFault) -> OldCopyFault
    ensures { result ≡ copy_fault fault }
{
    match fault {
        OldFault::NoStore => OldCopyFault::NoStore,
        OldFault::NotOld => OldCopyFault::NotOld,
        OldFault::UnknownFormat => OldCopyFault::UnknownFormat,
        OldFault::BadCount => OldCopyFault::BadCount,
        OldFault::Shelf(_) => OldCopyFault::NoMemory,
        OldFault::NoMemory => OldCopyFault::NoMemory,
    }
}
