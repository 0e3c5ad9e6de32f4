//! The file of a run, read piece by piece, and recorded behind a draft as it is read.

ghost use Rattle.std.specs.Prelude.{◌≡◌, ◌<◌, [], length, IfOk, IfErr, OnOk};
ghost use Rattle.edge_io.specs.Causes.{RisesExactlyIf};
ghost use Rattle.edge_io.specs.Steps.{Goes, Grown, HasDraft, HasFile};
ghost use Rattle.old_runs.specs.Fed.{HasFed, IsFed};
ghost use Rattle.old_upgrade.specs.Recording.{HasRecordedAll, RecordsPiece, RecordsRun, RecordFails, IsShelfFault};
ghost use Rattle.old_upgrade.specs.Upgrading.{upgrade_failed};
ghost use Rattle.run_shelf.specs.Drafts.{SameButDraft};
ghost use Rattle.run_shelf.specs.Repository.{full_name, most_runs};

use crate::UpgradeFault;
use crate::pieces::{MOST_PIECES, PIECE, piece_buffer};
use edge_io::Shelf;
use old_folder::{OldName, old_length, read_old};
use old_runs::OldFile;
use run_shelf::add_packet;
use std::alloc::Global;

/// Records what the file of the run of this number tells behind the draft that was begun: nothing where there is no such file.
/// It is read in pieces, to its end. Of the folder's calls those that read and the one that adds to the draft can fail; only
/// the draft changes.
pub(crate) fn record_run<H: Shelf>(
    alloc: Global,
    shelf: &mut H,
    number: u32,
) -> Result<(), UpgradeFault>
    requires few { number < most_runs }
    requires draft { HasDraft (H.seen shelf.old).told }
    ensures recorded { OnOk result (Goes (H.seen shelf.old).told (H.seen shelf.new).told (RecordsRun number)) }
    ensures draft { OnOk result (HasDraft (H.seen shelf.new).told) }
    ensures rests { Goes (H.seen shelf.old).told (H.seen shelf.new).told SameButDraft }
    ensures refused { IfErr result (λ fault. Goes (H.seen shelf.old).told (H.seen shelf.new).told (RecordFails number fault)) }
    ensures cause { RisesExactlyIf (H.seen shelf.old).faults (H.seen shelf.new).faults (upgrade_failed result) }
{
    match old_length(shelf, OldName::Run(number)) {
        Ok(None) => Ok(()),
        Ok(Some(_)) => record_file(alloc, shelf, number),
        Err(call) => Err(UpgradeFault::Shelf(call)),
    }
}

// The same, where there is such a file.
fn record_file<H: Shelf>(alloc: Global, shelf: &mut H, number: u32) -> Result<(), UpgradeFault>
    requires few { number < most_runs }
    requires draft { HasDraft (H.seen shelf.old).told }
    requires published { HasFile (H.seen shelf.old).told (full_name number) }
    ensures recorded { OnOk result (Goes (H.seen shelf.old).told (H.seen shelf.new).told (RecordsRun number)) }
    ensures draft { OnOk result (HasDraft (H.seen shelf.new).told) }
    ensures rests { Goes (H.seen shelf.old).told (H.seen shelf.new).told SameButDraft }
    ensures refused { IfErr result (λ fault. Goes (H.seen shelf.old).told (H.seen shelf.new).told (RecordFails number fault)) }
    ensures cause { RisesExactlyIf (H.seen shelf.old).faults (H.seen shelf.new).faults (upgrade_failed result) }
{
    let mut file = OldFile::new(alloc);
    let mut packets = Vec::new(alloc);
    let mut buf = piece_buffer(alloc)?;
    record_pieces(shelf, number, &mut buf, &mut file, &mut packets)?;
    let damaged = file.close(&mut packets)?;
    write_packets(shelf, &mut packets)?;
    if damaged {
        return Err(UpgradeFault::BadRun(number));
    }
    Ok(())
}

// Feeds the file piece by piece, until a read gives fewer bytes than were asked for, and records what it tells.
fn record_pieces<H: Shelf>(
    shelf: &mut H,
    number: u32,
    buf: &mut [u8],
    file: &mut OldFile,
    packets: &mut Vec<u8>,
) -> Result<(), UpgradeFault>
    requires few { number < most_runs }
    requires room { length buf.old ≡ 65536 }
    requires draft { HasDraft (H.seen shelf.old).told }
    requires published { HasFile (H.seen shelf.old).told (full_name number) }
    requires fresh { HasFed file.old [] [] }
    requires empty { packets.old.items ≡ [] }
    ensures recorded { OnOk result (Goes (H.seen shelf.old).told (H.seen shelf.new).told (HasRecordedAll (full_name number) file.new)) }
    ensures going_on { OnOk result (IsFed file.new) }
    ensures draft { OnOk result (HasDraft (H.seen shelf.new).told) }
    ensures empty { OnOk result (packets.new.items ≡ []) }
    ensures rests { Goes (H.seen shelf.old).told (H.seen shelf.new).told SameButDraft }
    ensures refused { IfErr result (λ fault. Goes (H.seen shelf.old).told (H.seen shelf.new).told (RecordFails number fault)) }
    ensures cause { RisesExactlyIf (H.seen shelf.old).faults (H.seen shelf.new).faults (upgrade_failed result) }
{
    for piece in 0..MOST_PIECES {
        let count = record_piece(shelf, number, piece * PIECE, buf, file, packets)?;
        if count < buf.len() {
            return Ok(());
        }
    }
    // No folder has such a file.
    Err(UpgradeFault::NoMemory)
}

// Feeds the bytes from this place on, as many as the buffer holds, records what they tell, and answers how many there were.
fn record_piece<H: Shelf>(
    shelf: &mut H,
    number: u32,
    place: u64,
    buf: &mut [u8],
    file: &mut OldFile,
    packets: &mut Vec<u8>,
) -> Result<usize, UpgradeFault>
    requires few { number < most_runs }
    requires room { 0 < length buf.old }
    requires draft { HasDraft (H.seen shelf.old).told }
    requires published { HasFile (H.seen shelf.old).told (full_name number) }
    requires empty { packets.old.items ≡ [] }
    requires going_on { IsFed file.old }
    ensures recorded { IfOk result (λ count. Goes (H.seen shelf.old).told (H.seen shelf.new).told (RecordsPiece (full_name number) place (length buf.old) count file.old file.new)) }
    ensures going_on { OnOk result (IsFed file.new) }
    ensures draft { OnOk result (HasDraft (H.seen shelf.new).told) }
    ensures empty { OnOk result (packets.new.items ≡ []) }
    ensures rests { Goes (H.seen shelf.old).told (H.seen shelf.new).told SameButDraft }
    ensures refused { IfErr result (λ fault. Goes (H.seen shelf.old).told (H.seen shelf.new).told (RecordFails number fault)) }
    ensures cause { RisesExactlyIf (H.seen shelf.old).faults (H.seen shelf.new).faults (upgrade_failed result) }
{
    let count = read_old(shelf, OldName::Run(number), place, buf)?;
    file.feed(&buf[..count], packets)?;
    write_packets(shelf, packets)?;
    Ok(count)
}

// Writes the packets behind the draft. Where there are none the folder is not called.
fn write_packets<H: Shelf>(shelf: &mut H, packets: &mut Vec<u8>) -> Result<(), UpgradeFault>
    requires draft { HasDraft (H.seen shelf.old).told }
    ensures written { OnOk result (Goes (H.seen shelf.old).told (H.seen shelf.new).told (Grown packets.old.items)) }
    ensures draft { OnOk result (HasDraft (H.seen shelf.new).told) }
    ensures empty { OnOk result (packets.new.items ≡ []) }
    ensures rests { Goes (H.seen shelf.old).told (H.seen shelf.new).told SameButDraft }
    ensures refused { IfErr result IsShelfFault }
    ensures cause { RisesExactlyIf (H.seen shelf.old).faults (H.seen shelf.new).faults (upgrade_failed result) }
{
    if packets.is_empty() {
        return Ok(());
    }
    add_packet(shelf, packets)?;
    packets.clear();
    Ok(())
}
