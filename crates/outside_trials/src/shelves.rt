// Shelves over the folder of a test, and files that are published by them.

use edge_io::{Failed, Shelf};
use real_outside::{FolderShelf, Sharing};

pub fn shelf_alone(rt: &HostRuntime) -> FolderShelf<'_, HostRuntime> {
    FolderShelf::new(rt.alloc(), rt, Sharing::Alone)
}

pub fn shelf_adding(rt: &HostRuntime) -> FolderShelf<'_, HostRuntime> {
    FolderShelf::new(rt.alloc(), rt, Sharing::Adding)
}

pub fn shelf_together(rt: &HostRuntime) -> FolderShelf<'_, HostRuntime> {
    FolderShelf::new(rt.alloc(), rt, Sharing::Together)
}

// Publishes these bytes, and leaves the folder's sync to the caller.
pub fn publish_bytes(
    shelf: &mut FolderShelf<'_, HostRuntime>,
    name: &str,
    bytes: &[u8],
) -> Result<(), Failed> {
    shelf.start_draft()?;
    shelf.append(bytes)?;
    shelf.sync_draft()?;
    shelf.publish(name)
}

// Publishes one small file by a shelf of its own.
pub fn publish_one(rt: &HostRuntime, name: &str) -> Result<(), Failed> {
    let mut shelf = shelf_alone(rt);
    publish_bytes(&mut shelf, name, b"first")
}

// Publishes these bytes by a shelf that goes on.
pub fn put(
    shelf: &mut FolderShelf<'_, HostRuntime>,
    name: &str,
    bytes: &[u8],
) -> Result<(), Failed> {
    publish_bytes(shelf, name, bytes)?;
    shelf.sync_folder()
}
