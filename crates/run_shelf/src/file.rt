//! One file more, wholly or not at all, and the file that makes a folder a repository.

ghost use Rattle.std.specs.Prelude.{◌≡◌, IfSome, IfOk, IfErr, OnOk, vec_len};
ghost use Rattle.edge_io.specs.Causes.{HasCause, RisesExactlyIf};
ghost use Rattle.edge_io.specs.Steps.{Goes, Stays, HasDraft};
ghost use Rattle.run_shelf.specs.Clocks.{TicksAsWritten, TicksAsPlaced, TicksAsKept, TicksAsMade};
ghost use Rattle.run_shelf.specs.Drafts.{OfDraft, Writes, DraftFails, PlaceFails};
ghost use Rattle.run_shelf.specs.Faults.{init_failed, file_failed};
ghost use Rattle.run_shelf.specs.Images.{AtRest, KeepsFile, PassesFile, MakesRepository, PassesFormat};
ghost use Rattle.run_shelf.specs.Outcomes.{InitFails, KeepFails, TicksUpTo};
ghost use Rattle.run_shelf.specs.Sides.{FileFails};

use crate::{FileFault, InitFault, ShelfCall};
use edge_io::Shelf;
use std::alloc::Global;
use sub_number::Bytes;

/// The bytes become the file of this name, in a folder in which nothing is pending. At `Ok` each later stop leaves it.
#[tactic(auto, using(crate::proofs::KeepSteps::file_passes))]
pub fn keep_file<H: Shelf>(shelf: &mut H, name: &str, bytes: &[u8]) -> Result<(), ShelfCall>
    requires { IfSome (H.seen shelf.old).told AtRest }
    ensures kept { OnOk result (Goes (H.seen shelf.old).told (H.seen shelf.new).told (KeepsFile name.now bytes.now)) }
    ensures failed { IfErr result (λ call. Goes (H.seen shelf.old).told (H.seen shelf.new).told (KeepFails name.now bytes.now call)) }
    ensures any_moment { Goes (H.seen shelf.old).told (H.seen shelf.new).told (PassesFile name.now bytes.now) }
    ensures time { TicksAsKept result (H.clock shelf.old) (H.clock shelf.new) }
    ensures cause { HasCause (H.seen shelf.old).faults (H.seen shelf.new).faults result }
{
    write_draft(shelf, bytes)?;
    place_draft(shelf, name)
}

/// The bytes of this file, and `None` exactly where it is not there. It makes at most two calls of the folder, in which
/// nothing changes.
pub fn read_file<H: Shelf>(
    alloc: Global,
    shelf: &mut H,
    name: &str,
) -> Result<Option<Bytes>, FileFault>
    ensures found { IfOk result (λ found. IfSome (H.seen shelf.old).told (λ s. found ≡ s.disk.published name.now)) }
    ensures failed { IfErr result FileFails }
    ensures same { Goes (H.seen shelf.old).told (H.seen shelf.new).told Stays }
    ensures time { TicksUpTo 2 (H.clock shelf.old) (H.clock shelf.new) }
    ensures cause { RisesExactlyIf (H.seen shelf.old).faults (H.seen shelf.new).faults (file_failed result) }
{
    let Ok(length) = shelf.length(name) else {
        return Err(FileFault::Shelf(ShelfCall::Length));
    };
    let Some(size) = length else {
        return Ok(None);
    };
    let mut bytes = vec![in alloc; 0u8; size as usize]?;
    if size == 0 {
        return Ok(Some(Bytes::from_vec(bytes)));
    }
    let Ok(count) = shelf.read_at(name, 0, &mut bytes) else {
        return Err(FileFault::Shelf(ShelfCall::ReadAt));
    };
    bytes.truncate(count);
    Ok(Some(Bytes::from_vec(bytes)))
}

// A draft of these bytes.
fn write_draft<H: Shelf>(shelf: &mut H, bytes: &[u8]) -> Result<(), ShelfCall>
    ensures written { OnOk result (Goes (H.seen shelf.old).told (H.seen shelf.new).told (Writes bytes.now)) }
    ensures failed { IfErr result (λ call. Goes (H.seen shelf.old).told (H.seen shelf.new).told (DraftFails call)) }
    ensures time { TicksAsWritten result (H.clock shelf.old) (H.clock shelf.new) }
    ensures cause { HasCause (H.seen shelf.old).faults (H.seen shelf.new).faults result }
{
    let Ok(()) = shelf.start_draft() else {
        return Err(ShelfCall::StartDraft);
    };
    let Ok(()) = shelf.append(bytes) else {
        return Err(ShelfCall::Append);
    };
    Ok(())
}

/// The draft, which there must be, becomes the file of this name, in a folder in which nothing is pending. It is
/// brought to the disk, gets its name, and the name is brought to the disk. At `Ok` each later stop leaves the file. The error
/// is the call that failed, and no call was made behind it.
pub fn place_draft<H: Shelf>(shelf: &mut H, name: &str) -> Result<(), ShelfCall>
    requires rest { IfSome (H.seen shelf.old).told AtRest }
    requires draft { HasDraft (H.seen shelf.old).told }
    ensures kept { OnOk result (Goes (H.seen shelf.old).told (H.seen shelf.new).told (OfDraft (KeepsFile name.now))) }
    ensures failed { IfErr result (λ call. Goes (H.seen shelf.old).told (H.seen shelf.new).told (OfDraft (λ bytes. PlaceFails name.now bytes call))) }
    ensures any_moment { Goes (H.seen shelf.old).told (H.seen shelf.new).told (OfDraft (PassesFile name.now)) }
    ensures time { TicksAsPlaced result (H.clock shelf.old) (H.clock shelf.new) }
    ensures cause { HasCause (H.seen shelf.old).faults (H.seen shelf.new).faults result }
{
    let Ok(()) = shelf.sync_draft() else {
        return Err(ShelfCall::SyncDraft);
    };
    let Ok(()) = shelf.publish(name) else {
        return Err(ShelfCall::Publish);
    };
    let Ok(()) = shelf.sync_folder() else {
        return Err(ShelfCall::SyncFolder);
    };
    Ok(())
}

/// The name of the file that makes a folder a repository.
pub const FORMAT_NAME: &str = "format";

/// The bytes of that file.
pub const FORMAT_BYTES: &[u8] = b"subunit-store 1\n";

/// Those where the repository has a base.
pub const BASED_FORMAT_BYTES: &[u8] = b"subunit-store 2\n";

/// Makes the folder a repository: brings what is pending to the disk, and keeps the file `format` there. It takes no
/// memory.
///
/// `Exists` comes exactly where the file `format` is there, and `Shelf` only where a call of the folder failed. Before the
/// publish the files are then as they were, at it `format` is there or not, after it `format` is there. No call was made
/// behind the one that failed, so the clock tells the first barrier from the last. A stop at any moment leaves what one
/// before the call might have left, or the files as read before it with `format` beside them; after `Ok` each later stop
/// leaves `format`.
pub fn make_repository<H: Shelf>(shelf: &mut H) -> Result<(), InitFault>
    ensures made { OnOk result (Goes (H.seen shelf.old).told (H.seen shelf.new).told MakesRepository) }
    ensures refused { IfErr result (λ fault. Goes (H.seen shelf.old).told (H.seen shelf.new).told (InitFails fault)) }
    ensures any_moment { Goes (H.seen shelf.old).told (H.seen shelf.new).told PassesFormat }
    ensures time { TicksAsMade result (H.seen shelf.old).told (H.seen shelf.new).told (H.clock shelf.old) (H.clock shelf.new) }
    ensures cause { RisesExactlyIf (H.seen shelf.old).faults (H.seen shelf.new).faults (init_failed result) }
{
    let Ok(()) = shelf.sync_folder() else {
        return Err(InitFault::Shelf(ShelfCall::SyncFolder));
    };
    let Ok(found) = shelf.length(FORMAT_NAME) else {
        return Err(InitFault::Shelf(ShelfCall::Length));
    };
    if found.is_some() {
        return Err(InitFault::Exists);
    }
    match keep_file(shelf, FORMAT_NAME, FORMAT_BYTES) {
        Ok(()) => Ok(()),
        Err(call) => Err(InitFault::Shelf(call)),
    }
}
