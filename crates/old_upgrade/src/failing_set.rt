//! What failed last.

ghost use Rattle.std.specs.Prelude.{◌≡◌, ◌<◌, [], length, IfSome, IfOk, IfErr, OnOk};
ghost use Rattle.std.specs.Cmp.Lexicographic.{slice_cmp};
ghost use Rattle.std.specs.List.Sorted.{IsStrictlySortedBy};
ghost use Rattle.std.specs.Ordering.{nat_cmp};
ghost use Rattle.edge_io.specs.Causes.{RisesExactlyIf};
ghost use Rattle.edge_io.specs.Steps.{Goes, Stays, HasFile};
ghost use Rattle.old_folder.specs.Olds.{failing_name};
ghost use Rattle.old_runs.specs.Fed.{HasHeardFile, HasHeardSome};
ghost use Rattle.old_upgrade.specs.Recording.{FailedLast, HasHeardAll, HearsPiece, FailingFails};
ghost use Rattle.old_upgrade.specs.Upgrading.{upgrade_failed};

use crate::UpgradeFault;
use crate::pieces::{MOST_PIECES, PIECE, piece_buffer};
use edge_io::Shelf;
use old_folder::{OldName, old_length, read_old};
use old_runs::OldFailing;
use std::alloc::Global;
use sub_number::IdList;

/// The ids that failed last, in the order of their bytes, each once: none where there is no file of them. It is read in
/// pieces, to its end. Nothing changes in the folder.
pub(crate) fn failing_ids<H: Shelf>(alloc: Global, shelf: &mut H) -> Result<IdList, UpgradeFault>
    ensures ids { IfOk result (λ ids. IfSome (H.seen shelf.old).told (FailedLast ids)) }
    ensures ordered { IfOk result (IsStrictlySortedBy (slice_cmp nat_cmp)) }
    ensures refused { IfErr result (λ fault. IfSome (H.seen shelf.old).told (FailingFails fault)) }
    ensures same { Goes (H.seen shelf.old).told (H.seen shelf.new).told Stays }
    ensures cause { RisesExactlyIf (H.seen shelf.old).faults (H.seen shelf.new).faults (upgrade_failed result) }
{
    match old_length(shelf, OldName::Failing) {
        Ok(None) => Ok(IdList::new(alloc)),
        Ok(Some(_)) => hear_file(alloc, shelf),
        Err(call) => Err(UpgradeFault::Shelf(call)),
    }
}

// The same, where there is such a file.
fn hear_file<H: Shelf>(alloc: Global, shelf: &mut H) -> Result<IdList, UpgradeFault>
    requires published { HasFile (H.seen shelf.old).told failing_name }
    ensures ids { IfOk result (λ ids. IfSome (H.seen shelf.old).told (FailedLast ids)) }
    ensures ordered { IfOk result (IsStrictlySortedBy (slice_cmp nat_cmp)) }
    ensures refused { IfErr result (λ fault. IfSome (H.seen shelf.old).told (FailingFails fault)) }
    ensures same { Goes (H.seen shelf.old).told (H.seen shelf.new).told Stays }
    ensures cause { RisesExactlyIf (H.seen shelf.old).faults (H.seen shelf.new).faults (upgrade_failed result) }
{
    let mut failing = OldFailing::new(alloc);
    let mut buf = piece_buffer(alloc)?;
    hear_pieces(shelf, &mut buf, &mut failing)?;
    match failing.close() {
        Ok(Some(ids)) => Ok(ids),
        Ok(None) => Err(UpgradeFault::BadFailing),
        Err(_) => Err(UpgradeFault::NoMemory),
    }
}

// Hears the file piece by piece, until a read gives fewer bytes than were asked for.
fn hear_pieces<H: Shelf>(
    shelf: &mut H,
    buf: &mut [u8],
    failing: &mut OldFailing,
) -> Result<(), UpgradeFault>
    requires room { length buf.old ≡ 65536 }
    requires published { HasFile (H.seen shelf.old).told failing_name }
    requires fresh { HasHeardFile failing.old [] }
    ensures heard { OnOk result (IfSome (H.seen shelf.old).told (HasHeardAll failing.new)) }
    ensures some { OnOk result (HasHeardSome failing.new) }
    ensures refused { IfErr result (λ fault. IfSome (H.seen shelf.old).told (FailingFails fault)) }
    ensures same { Goes (H.seen shelf.old).told (H.seen shelf.new).told Stays }
    ensures cause { RisesExactlyIf (H.seen shelf.old).faults (H.seen shelf.new).faults (upgrade_failed result) }
{
    for piece in 0..MOST_PIECES {
        let count = hear_piece(shelf, piece * PIECE, buf, failing)?;
        if count < buf.len() {
            return Ok(());
        }
    }
    // No folder has such a file.
    Err(UpgradeFault::NoMemory)
}

// Hears the bytes from this place on, as many as the buffer holds, and answers how many there were.
fn hear_piece<H: Shelf>(
    shelf: &mut H,
    place: u64,
    buf: &mut [u8],
    failing: &mut OldFailing,
) -> Result<usize, UpgradeFault>
    requires room { 0 < length buf.old }
    requires published { HasFile (H.seen shelf.old).told failing_name }
    requires going_on { HasHeardSome failing.old }
    ensures heard { IfOk result (λ count. IfSome (H.seen shelf.old).told (HearsPiece place (length buf.old) count failing.old failing.new)) }
    ensures some { OnOk result (HasHeardSome failing.new) }
    ensures refused { IfErr result (λ fault. IfSome (H.seen shelf.old).told (FailingFails fault)) }
    ensures same { Goes (H.seen shelf.old).told (H.seen shelf.new).told Stays }
    ensures cause { RisesExactlyIf (H.seen shelf.old).faults (H.seen shelf.new).faults (upgrade_failed result) }
{
    let count = read_old(shelf, OldName::Failing, place, buf)?;
    failing.feed(&buf[..count])?;
    Ok(count)
}
