//! Folders without a repository, or with one of another format.

ghost use Rattle.std.specs.Prelude.{◌≡◌, None, IfOk};
ghost use Rattle.edge_io.specs.MemState.{folder_of};

use edge_io::MemShelf;
use std::alloc::Global;
use std::test::Fail;
use trial_calls::put;

/// A folder without files, which fails at these calls.
pub fn empty(alloc: Global, fails: &[u64]) -> Result<MemShelf, Fail>
    ensures { IfOk result (λ shelf. (folder_of shelf).disk.pending ≡ None) }
{
    Ok(MemShelf::new(alloc, fails.to_vec(alloc)?))
}

/// A folder that has a file `format` of these bytes, and nothing else.
pub fn of_format(alloc: Global, bytes: &[u8]) -> Result<MemShelf, Fail>
    ensures { IfOk result (λ shelf. (folder_of shelf).disk.pending ≡ None) }
{
    let mut shelf = empty(alloc, &[])?;
    put(alloc, &mut shelf, b"format", bytes)?;
    Ok(shelf)
}
