//! One file, read in the other folder and put here.

ghost use Rattle.std.specs.Prelude.{◌≡◌, IfSome, IfOk, IfErr, OnOk, string_bytes};
ghost use Rattle.edge_io.specs.Causes.{HasCause, RisesExactlyIf};
ghost use Rattle.edge_io.specs.Steps.{Goes, Stays, HasDraft};
ghost use Rattle.run_shelf.specs.Drafts.{OfDraft, Writes, DraftFails, PlaceFails};
ghost use Rattle.run_shelf.specs.Images.{AtRest, KeepsFile, PassesFile};
ghost use Rattle.run_shelf.specs.Outcomes.{KeepFails};
ghost use Rattle.old_copies.specs.Copying.{path_below, folder_in, places, IsName, CopyStep, folder_failed, site_failed};
ghost use Rattle.old_copies.specs.Looking.{Compares, IsOfFolder, IsOfSite};

use crate::OldCopyFault;
use edge_io::{ReadFault, Shelf, Site, read_file};
use run_shelf::ShelfCall;
use std::alloc::Global;
use sub_number::{Bytes, NoMemory};

/// Copies the file of this name from the folder of that path: it is put here where it is not yet, with all its bytes. A file
/// that stands here with the same bytes already stays, and any other one is refused.
pub(crate) fn copy_file<F: Site, H: Shelf>(
    alloc: Global,
    site: &mut F,
    from: &str,
    shelf: &mut H,
    name: &str,
) -> Result<(), OldCopyFault>
    requires rest { IfSome (H.seen shelf.old).told AtRest }
    ensures { CopyStep (IsName name.now) from.now (places (H.seen shelf.old) (F.seen site.old)) (places (H.seen shelf.new) (F.seen site.new)) result }
{
    let there = match read_source_file(alloc, site, from, name) {
        Ok(there) => there,
        Err(fault) => return Err(fault),
    };
    let here = match read_here(alloc, shelf, name) {
        Ok(here) => here,
        Err(fault) => return Err(fault),
    };
    match compare(there, here) {
        Compared::Same => Ok(()),
        Compared::New(wanted) => match keep_file(shelf, name, wanted.bytes()) {
            Ok(()) => Ok(()),
            Err(call) => Err(OldCopyFault::Shelf(call)),
        },
        Compared::Other => Err(OldCopyFault::OtherFiles),
    }
}

// How the file there compares with the one here.
#[derive(Drop)]
enum Compared {
    // It has the same bytes, or is absent in both.
    Same,
    // It has these bytes, and there is none here.
    New(Bytes),
    // There is one here, and it differs.
    Other,
}

// How the file there compares with the one here.
fn compare(there: Option<Bytes>, here: Option<Bytes>) -> Compared
    ensures { Compares there here result }
{
    let Some(bytes) = there else {
        return match here {
            None => Compared::Same,
            Some(_) => Compared::Other,
        };
    };
    let Some(found) = here else {
        return Compared::New(bytes);
    };
    if bytes.bytes() == found.bytes() {
        Compared::Same
    } else {
        Compared::Other
    }
}

/// The bytes of the file of this name in the folder of that path, and `None` exactly where it is not there.
pub(crate) fn read_source_file<F: Site>(
    alloc: Global,
    site: &mut F,
    from: &str,
    name: &str,
) -> Result<Option<Bytes>, OldCopyFault>
    ensures found { IfOk result (λ file. IfSome (F.seen site.old).told (λ files. folder_in from.now files name.now ≡ file)) }
    ensures failed { IfErr result IsOfSite }
    ensures same { (F.seen site.new).told ≡ (F.seen site.old).told }
    ensures cause { RisesExactlyIf (F.seen site.old).faults (F.seen site.new).faults (site_failed result) }
{
    let Ok(path) = path_of(alloc, from, name) else {
        return Err(OldCopyFault::NoMemory);
    };
    match read_file(alloc, site, path.as_str(), usize::MAX) {
        Ok(Some(bytes)) => Ok(Some(Bytes::from_vec(bytes))),
        Ok(None) => Ok(None),
        Err(ReadFault::Failed) => Err(OldCopyFault::Site),
        Err(ReadFault::TooLong) => Err(OldCopyFault::NoMemory),
        Err(ReadFault::NoMemory) => Err(OldCopyFault::NoMemory),
    }
}

// The path of the file of this name in the folder of that path.
fn path_of(alloc: Global, from: &str, name: &str) -> Result<String, NoMemory>
    ensures { IfOk result (λ path. string_bytes path ≡ path_below from.now name.now) }
{
    let mut path = String::from_str(alloc, from)?;
    path.push_str("/")?;
    path.push_str(name)?;
    Ok(path)
}

// The bytes of the file of this name here, and `None` exactly where it is not here. Nothing changes.
fn read_here<H: Shelf>(
    alloc: Global,
    shelf: &mut H,
    name: &str,
) -> Result<Option<Bytes>, OldCopyFault>
    ensures found { IfOk result (λ found. IfSome (H.seen shelf.old).told (λ s. found ≡ s.disk.published name.now)) }
    ensures failed { IfErr result IsOfFolder }
    ensures same { Goes (H.seen shelf.old).told (H.seen shelf.new).told Stays }
    ensures cause { RisesExactlyIf (H.seen shelf.old).faults (H.seen shelf.new).faults (folder_failed result) }
{
    let Ok(length) = shelf.length(name) else {
        return Err(OldCopyFault::Shelf(ShelfCall::Length));
    };
    let Some(size) = length else {
        return Ok(None);
    };
    let Ok(mut bytes) = vec![in alloc; 0u8; size as usize] else {
        return Err(OldCopyFault::NoMemory);
    };
    if size == 0 {
        return Ok(Some(Bytes::from_vec(bytes)));
    }
    let Ok(count) = shelf.read_at(name, 0, &mut bytes) else {
        return Err(OldCopyFault::Shelf(ShelfCall::ReadAt));
    };
    bytes.truncate(count);
    Ok(Some(Bytes::from_vec(bytes)))
}

// The bytes become the file of this name, in a folder in which nothing is pending. At `Ok` each later stop leaves it.
#[tactic(auto, using(crate::proofs::DraftSteps::file_moments))]
fn keep_file<H: Shelf>(shelf: &mut H, name: &str, bytes: &[u8]) -> Result<(), ShelfCall>
    requires { IfSome (H.seen shelf.old).told AtRest }
    ensures kept { OnOk result (Goes (H.seen shelf.old).told (H.seen shelf.new).told (KeepsFile name.now bytes.now)) }
    ensures failed { IfErr result (λ call. Goes (H.seen shelf.old).told (H.seen shelf.new).told (KeepFails name.now bytes.now call)) }
    ensures any_moment { Goes (H.seen shelf.old).told (H.seen shelf.new).told (PassesFile name.now bytes.now) }
    ensures cause { HasCause (H.seen shelf.old).faults (H.seen shelf.new).faults result }
{
    write_draft(shelf, bytes)?;
    place_draft(shelf, name)
}

// A draft of these bytes.
fn write_draft<H: Shelf>(shelf: &mut H, bytes: &[u8]) -> Result<(), ShelfCall>
    ensures written { OnOk result (Goes (H.seen shelf.old).told (H.seen shelf.new).told (Writes bytes.now)) }
    ensures failed { IfErr result (λ call. Goes (H.seen shelf.old).told (H.seen shelf.new).told (DraftFails call)) }
    ensures cause { HasCause (H.seen shelf.old).faults (H.seen shelf.new).faults result }
{
    let Ok(()) = shelf.start_draft() else {
        return Err(ShelfCall::StartDraft);
    };
    let Ok(()) = shelf.append(bytes) else {
        return Err(ShelfCall::Append);
    };
    Ok(())
}

// The draft, which there must be, becomes the file of this name, in a folder in which nothing is pending.
fn place_draft<H: Shelf>(shelf: &mut H, name: &str) -> Result<(), ShelfCall>
    requires rest { IfSome (H.seen shelf.old).told AtRest }
    requires draft { HasDraft (H.seen shelf.old).told }
    ensures kept { OnOk result (Goes (H.seen shelf.old).told (H.seen shelf.new).told (OfDraft (KeepsFile name.now))) }
    ensures failed { IfErr result (λ call. Goes (H.seen shelf.old).told (H.seen shelf.new).told (OfDraft (λ bytes. PlaceFails name.now bytes call))) }
    ensures any_moment { Goes (H.seen shelf.old).told (H.seen shelf.new).told (OfDraft (PassesFile name.now)) }
    ensures cause { HasCause (H.seen shelf.old).faults (H.seen shelf.new).faults result }
{
    let Ok(()) = shelf.sync_draft() else {
        return Err(ShelfCall::SyncDraft);
    };
    let Ok(()) = shelf.publish(name) else {
        return Err(ShelfCall::Publish);
    };
    let Ok(()) = shelf.sync_folder() else {
        return Err(ShelfCall::SyncFolder);
    };
    Ok(())
}
