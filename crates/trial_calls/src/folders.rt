//! Folders in memory, and what stands in them.
ghost use Rattle.std.specs.Prelude.{◌≡◌, None, IfOk};
ghost use Rattle.edge_io.specs.MemState.{folder_of};

use edge_io::{MemShelf, Shelf};
use std::alloc::Global;
use std::test::Fail;
use sub_number::{Bytes, Text};

/// Publishes a file for good in a folder in which nothing is pending.
pub fn put(alloc: Global, shelf: &mut MemShelf, name: &[u8], bytes: &[u8]) -> Result<(), Fail>
    requires { (folder_of shelf.old).disk.pending ≡ None }
    ensures { (folder_of shelf.new).disk.pending ≡ None }
{
    let name = Text::new(alloc, name)?;
    let bytes = Bytes::new(alloc, bytes)?;
    shelf.put(name, bytes)?;
    Ok(())
}

/// An empty repository, whose folder fails at these calls.
pub fn repository(alloc: Global, fails: &[u64]) -> Result<MemShelf, Fail>
    ensures { IfOk result (λ shelf. (folder_of shelf).disk.pending ≡ None) }
{
    let mut shelf = MemShelf::new(alloc, fails.to_vec(alloc)?);
    put(alloc, &mut shelf, b"format", b"subunit-store 1\n")?;
    Ok(shelf)
}

/// Whether the file of this name has these bytes, of which there are at most 256.
pub fn has_file(shelf: &mut MemShelf, name: &str, wanted: &[u8]) -> Result<bool, Fail> {
    let mut buf = [0u8; 256];
    let Some(size) = shelf.length(name)? else {
        return Ok(false);
    };
    let count = shelf.read_at(name, 0, &mut buf)?;
    Ok(size == wanted.len() as u64 && &buf[..count] == wanted)
}

/// Whether the file of this name has these bytes from this place on, of which there are at most 16.
pub fn has_at(shelf: &mut MemShelf, name: &str, place: u64, wanted: &[u8]) -> Result<bool, Fail> {
    let mut buf = [0u8; 16];
    if shelf.length(name)?.is_none() {
        return Ok(false);
    }
    let count = shelf.read_at(name, place, &mut buf)?;
    Ok(buf[..count].starts_with(wanted))
}

/// Whether the file of this name has two packets of this size, which begin so.
pub fn has_two(
    shelf: &mut MemShelf,
    name: &str,
    size: u32,
    first: &[u8],
    second: &[u8],
) -> Result<bool, Fail> {
    let size = u64::from(size);
    Ok(
        shelf.length(name)? == Some(2 * size)
            && has_at(shelf, name, 0, first)?
            && has_at(shelf, name, size, second)?,
    )
}
