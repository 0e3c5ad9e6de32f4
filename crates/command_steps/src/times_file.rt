//! Times that a file holds, which stand in place of those of the repository.

ghost use Rattle.command_steps.specs.TimesFile.{ReadsBytes, ReadsTimes};

use edge_io::{ReadFault, Site, read_file};
use run_ledger::read_times_cache;
use std::alloc::Global;
use sub_number::{NoMemory, TimeMap};

/// The most bytes of a file of times: 1 GiB.
pub const MOST_TIMES: usize = 1_073_741_824;

/// Why no times were read from a file.
#[derive(Clone, Copy, Debug, PartialEq, Eq)]
pub enum TimesRefusal<'a> {
    /// A read of the file failed.
    Site,
    /// The file of this name has more than 1,073,741,824 bytes.
    TooLong(&'a str),
    /// There is no file of this name.
    Absent(&'a str),
    /// The file of this name has another form than the cache of times.
    NotTimes(&'a str),
    /// There is not enough memory.
    NoMemory,
}

/// The times of the file of this name, which has the form of the cache of times; of how many runs they are is not asked.
///
/// `Absent` comes exactly where there is no such file, `TooLong` exactly where it has more than 1,073,741,824 bytes, and
/// `NotTimes` exactly where it has another form; each names the file. `Site` comes only where a read failed, which counts
/// once, and `NoMemory` only for want of memory; each may come before any of the others is seen. No file changes.
pub(crate) fn read_times<'a, F: Site>(
    alloc: Global,
    site: &mut F,
    name: &'a str,
) -> Result<TimeMap, TimesRefusal<'a>>
    ensures step { ReadsTimes name.now (F.seen site.old) (F.seen site.new) result }
{
    let bytes = read_bytes(alloc, site, name)?;
    match read_times_cache(alloc, &bytes) {
        Ok(Some(cache)) => Ok(cache.times),
        Ok(None) => Err(TimesRefusal::NotTimes(name)),
        Err(NoMemory) => Err(TimesRefusal::NoMemory),
    }
}

// The bytes of the file of this name, at most 1,073,741,824.
fn read_bytes<'a, F: Site>(
    alloc: Global,
    site: &mut F,
    name: &'a str,
) -> Result<Vec<u8>, TimesRefusal<'a>>
    ensures step { ReadsBytes name.now (F.seen site.old) (F.seen site.new) result }
{
    match read_file(alloc, site, name, MOST_TIMES) {
        Ok(Some(bytes)) => Ok(bytes),
        Ok(None) => Err(TimesRefusal::Absent(name)),
        Err(ReadFault::Failed) => Err(TimesRefusal::Site),
        Err(ReadFault::TooLong) => Err(TimesRefusal::TooLong(name)),
        Err(ReadFault::NoMemory) => Err(TimesRefusal::NoMemory),
    }
}
