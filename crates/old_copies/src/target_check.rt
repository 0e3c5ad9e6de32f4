//! The folder here must be none of the two tools.

ghost use Rattle.std.specs.Prelude.{◌≡◌, false, IfErr, OnOk};
ghost use Rattle.edge_io.specs.Causes.{RisesExactlyIf};
ghost use Rattle.edge_io.specs.Steps.{Goes};
ghost use Rattle.run_shelf.specs.Images.{PassesOld};
ghost use Rattle.old_copies.specs.Copying.{folder_failed, site_failed};
ghost use Rattle.old_copies.specs.Looking.{IsFree, HereFails};

use crate::OldCopyFault;
use edge_io::Shelf;
use old_folder::{OldFault, survey_old};
use std::alloc::Global;

/// The folder here must have no file `format`. What is pending is brought to the disk first.
pub(crate) fn check_no_format<H: Shelf>(alloc: Global, shelf: &mut H) -> Result<(), OldCopyFault>
    ensures free { OnOk result (Goes (H.seen shelf.old).told (H.seen shelf.new).told IsFree) }
    ensures refused { IfErr result (λ fault. Goes (H.seen shelf.old).told (H.seen shelf.new).told (HereFails fault)) }
    ensures any_moment { Goes (H.seen shelf.old).told (H.seen shelf.new).told PassesOld }
    ensures quiet { site_failed result ≡ false }
    ensures cause { RisesExactlyIf (H.seen shelf.old).faults (H.seen shelf.new).faults (folder_failed result) }
{
    match survey_old(alloc, shelf) {
        Err(OldFault::NoStore) => Ok(()),
        Err(OldFault::NotOld) => Err(OldCopyFault::Here),
        Err(OldFault::UnknownFormat) => Err(OldCopyFault::StrangeHere),
        Ok(_) | Err(OldFault::BadCount) => Err(OldCopyFault::OldHere),
        Err(OldFault::Shelf(call)) => Err(OldCopyFault::Shelf(call)),
        Err(OldFault::NoMemory) => Err(OldCopyFault::NoMemory),
    }
}
