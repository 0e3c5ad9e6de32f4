//! The ids of a run that a file lists.

ghost use Rattle.suite_plan.specs.LoadList.{ReadsList, ReadsLoadList};

use crate::texts::MOST_TEXT;
use edge_io::{ReadFault, Site, read_file};
use std::alloc::Global;
use sub_number::IdList;
use testr_conf::{IdsFault, read_ids};

/// Why no list of ids was read. Lines are counted from 1.
#[derive(Clone, Copy, Debug, PartialEq, Eq)]
pub enum ListRefusal<'a> {
    /// A read of the file failed.
    Site,
    /// The file of this name has more than 16,777,216 bytes.
    TooLong(&'a str),
    /// There is no file of this name.
    Absent(&'a str),
    /// This line of the file of this name is not UTF-8, or has a NUL.
    NotId(&'a str, u32),
    /// There is not enough memory.
    NoMemory,
}

/// The ids that the file of this name, of at most 16,777,216 bytes, lists: its lines in order, repeats among them, without
/// the white space at both ends of each. Empty lines are left out.
///
/// `Absent` comes exactly where there is no such file, `TooLong` exactly where it has more bytes, and `NotId` exactly where
/// a line is no text, with the first such line; each names the file. `Site` comes only where a read failed, which counts
/// once, and `NoMemory` only for want of memory; each may come before any of the others is seen. No file changes.
pub fn read_load_list<'a, F: Site>(
    alloc: Global,
    site: &mut F,
    name: &'a str,
) -> Result<IdList, ListRefusal<'a>>
    ensures step { ReadsLoadList name.now (F.seen site.old) (F.seen site.new) result }
{
    let text = read_list(alloc, site, name)?;
    match read_ids(alloc, &text) {
        Ok(ids) => Ok(ids),
        Err(IdsFault::NotText(number)) => Err(ListRefusal::NotId(name, number)),
        Err(IdsFault::NoMemory) => Err(ListRefusal::NoMemory),
    }
}

/// The bytes of the list of this name, at most 16,777,216.
pub(crate) fn read_list<'a, F: Site>(
    alloc: Global,
    site: &mut F,
    name: &'a str,
) -> Result<Vec<u8>, ListRefusal<'a>>
    ensures step { ReadsList name.now (F.seen site.old) (F.seen site.new) result }
{
    match read_file(alloc, site, name, MOST_TEXT) {
        Ok(Some(text)) => Ok(text),
        Ok(None) => Err(ListRefusal::Absent(name)),
        Err(ReadFault::Failed) => Err(ListRefusal::Site),
        Err(ReadFault::TooLong) => Err(ListRefusal::TooLong(name)),
        Err(ReadFault::NoMemory) => Err(ListRefusal::NoMemory),
    }
}
