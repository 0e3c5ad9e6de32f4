//! The last steps of taking over a folder that the original tool began.

ghost use Rattle.std.specs.Prelude.{◌<◌, ◌+◌, IfSome, IfErr, OnOk};
ghost use Rattle.edge_io.specs.Causes.{HasCause};
ghost use Rattle.edge_io.specs.Steps.{Goes, HasDraft};
ghost use Rattle.run_shelf.specs.Adoption.{IsReadyToAdopt, Adopts, AdoptFails, PassesAdoption, PassesNew};
ghost use Rattle.run_shelf.specs.Bases.{HoldsBase, base_in};
ghost use Rattle.run_shelf.specs.Clocks.{TicksAsPlaced, TicksAsAdopted};
ghost use Rattle.run_shelf.specs.Drafts.{OfDraft, PlaceFails};
ghost use Rattle.run_shelf.specs.Images.{AtRest, KeepsFile};
ghost use Rattle.run_shelf.specs.Repository.{partial_name, most_runs};

use crate::base_set::BASE_NAME;
use crate::file::{BASED_FORMAT_BYTES, FORMAT_NAME, keep_file, place_draft};
use crate::{ShelfCall, names};
use edge_io::Shelf;

/// The draft, which there must be, becomes the run of this number of a folder of the original tool, converted. It takes no
/// memory and makes at most three calls of the folder, those of the keeping of a run. The error is the call that failed, and
/// no call was made behind it.
///
/// At `Ok` each later stop leaves the run. A stop at any moment leaves what one before the call might have left, or the files
/// as read before it with this run beside them, which is a folder of the original tool where they were one.
pub fn place_converted<H: Shelf>(shelf: &mut H, number: u32) -> Result<(), ShelfCall>
    requires few { number < most_runs }
    requires rest { IfSome (H.seen shelf.old).told AtRest }
    requires draft { HasDraft (H.seen shelf.old).told }
    ensures kept { OnOk result (Goes (H.seen shelf.old).told (H.seen shelf.new).told (OfDraft (KeepsFile (partial_name number)))) }
    ensures failed { IfErr result (λ call. Goes (H.seen shelf.old).told (H.seen shelf.new).told (OfDraft (λ bytes. PlaceFails (partial_name number) bytes call))) }
    ensures any_moment { Goes (H.seen shelf.old).told (H.seen shelf.new).told (PassesNew (number + 1)) }
    ensures time { TicksAsPlaced result (H.clock shelf.old) (H.clock shelf.new) }
    ensures cause { HasCause (H.seen shelf.old).faults (H.seen shelf.new).faults result }
{
    let name = names::run_name(number, true);
    place_draft(shelf, name.as_str())
}

/// Makes a folder, in which nothing is pending and in which the runs stand converted, a repository with this base, whose
/// bytes these are: keeps the file of the base, and then `format`, the second one. It takes no memory and makes at most ten
/// calls of the folder.
///
/// The error is the call of the folder that failed, and no call was made behind it. So the clock tells which of the two files
/// was not kept: the files are then as they were, or have the base beside them, or are the repository, which they can be
/// only where a publish failed or the barrier behind it. A stop at any moment leaves what one before the call might have
/// left, or one of these; after `Ok` each later stop leaves the repository.
pub fn adopt<H: Shelf>(shelf: &mut H, base: &[u8]) -> Result<(), ShelfCall>
    requires base { HoldsBase base.now }
    requires ready { IfSome (H.seen shelf.old).told (IsReadyToAdopt (base_in base.now).count) }
    ensures adopted { OnOk result (Goes (H.seen shelf.old).told (H.seen shelf.new).told (Adopts base.now)) }
    ensures failed { IfErr result (λ call. Goes (H.seen shelf.old).told (H.seen shelf.new).told (AdoptFails base.now call)) }
    ensures any_moment { Goes (H.seen shelf.old).told (H.seen shelf.new).told (PassesAdoption base.now) }
    ensures time { TicksAsAdopted base.now result (H.seen shelf.old).told (H.seen shelf.new).told (H.clock shelf.old) (H.clock shelf.new) }
    ensures cause { HasCause (H.seen shelf.old).faults (H.seen shelf.new).faults result }
{
    keep_file(shelf, BASE_NAME, base)?;
    keep_file(shelf, FORMAT_NAME, BASED_FORMAT_BYTES)
}
