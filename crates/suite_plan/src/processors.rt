//! The number of processors, as the system's table tells it.

ghost use Rattle.std.specs.Prelude.{◌≡◌, ◌≤◌, length};
ghost use Rattle.suite_plan.specs.Processors.{CountsProcessors, processors_in, clamp_workers};
ghost use Rattle.suite_plan.specs.Texts.{most_text};

use crate::texts::MOST_TEXT;
use crate::worker_shares::MOST_WORKERS;
use bstr::ByteSlice;
use edge_io::{ReadFault, Site, read_file};
use std::alloc::Global;

/// Why the processors were not counted.
#[derive(Clone, Copy, Debug, PartialEq, Eq)]
pub enum TableRefusal {
    /// A read of the table failed.
    Site,
    /// The table has more than 16,777,216 bytes.
    TooLong,
    /// There is not enough memory.
    NoMemory,
}

impl From<ReadFault> for TableRefusal {
    ghost use Rattle.std.specs.Prelude.{◌≡◌};
    ghost use Rattle.suite_plan.specs.Processors.{unread_table};

    ghost from_gives = { λ fault refusal. refusal ≡ unread_table fault };

    fn from(fault: ReadFault) -> Self {
        match fault {
            ReadFault::Failed => TableRefusal::Site,
            ReadFault::TooLong => TableRefusal::TooLong,
            ReadFault::NoMemory => TableRefusal::NoMemory,
        }
    }
}

// How many lines of the table begin a processor.
fn processors_in(table: &[u8]) -> u32
    requires { length table.now ≤ most_text }
    ensures { result ≡ processors_in table.now }
{
    let mut number: u32 = 0;
    let mut lines = table.lines_with_terminator();
    while let Some(line) = lines.next() {
        if line.starts_with(b"processor") {
            number += 1;
        }
    }
    number
}

// At least 1, and at most so many as a run may have.
fn clamp_workers(number: u32) -> u32
    ensures { result ≡ clamp_workers number }
{
    number.clamp(1, MOST_WORKERS)
}

/// How many lines of the table `/proc/cpuinfo` begin with `processor`: at least 1, and at most 64. A table that is not there
/// counts as an empty one.
///
/// `TooLong` comes exactly where the table has more than 16,777,216 bytes. `Site` comes only where a read failed, which
/// counts, and `NoMemory` only for want of memory; each may come before it is seen that the table is too long. No
/// file changes.
pub fn count_processors<F: Site>(alloc: Global, site: &mut F) -> Result<u32, TableRefusal>
    ensures step { CountsProcessors (F.seen site.old) (F.seen site.new) result }
    ensures path { F.folder site.new ≡ F.folder site.old }
{
    match read_file(alloc, site, "/proc/cpuinfo", MOST_TEXT)? {
        Some(table) => Ok(clamp_workers(processors_in(&table))),
        None => Ok(1),
    }
}
