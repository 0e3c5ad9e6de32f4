//! The look at a folder: its format, its names, and its number that comes next.

ghost use Rattle.std.specs.Prelude.{◌≡◌, ◌≤◌, IfSome, IfOk, IfErr, OnOk};
ghost use Rattle.edge_io.specs.Causes.{HasCause, RisesExactlyIf};
ghost use Rattle.edge_io.specs.Steps.{Goes, Stays};
ghost use Rattle.run_shelf.specs.Adoption.{IsOld};
ghost use Rattle.run_shelf.specs.Images.{PassesOld};
ghost use Rattle.run_shelf.specs.Outcomes.{TicksUpTo};
ghost use Rattle.run_shelf.specs.Repository.{most_runs};
ghost use Rattle.run_shelf.specs.Sides.{IsReading};
ghost use Rattle.old_folder.specs.Looking.{layout_of as whose_format, LayoutFails, OldLookFails, OldSurveyFails, SurveysOld, old_failed};
ghost use Rattle.old_folder.specs.Olds.{next_of, IsOldWith};

use crate::OldFault;
use crate::names::run_count;
use crate::next_number::read_count;
use crate::short_file::{MOST_SHORT, Short, read_short};
use edge_io::{NamesFault, Shelf};
use run_shelf::ShelfCall;
use std::alloc::Global;

const FORMAT_NAME: &str = "format";

const NEXT_NAME: &str = "next-stream";

// What `format` holds in a folder of the original tool.
const OLD_BYTES: &[u8] = b"1\n";

// What it holds in a repository of this one.
const FIRST_BYTES: &[u8] = b"subunit-store 1\n";

const SECOND_BYTES: &[u8] = b"subunit-store 2\n";

/// How many runs the folder of the original tool has. It brings what is pending to the disk, reads `format`, lists the names
/// and reads `next-stream`, in six calls of the folder at most. Each name is read once.
///
/// `NoStore` comes exactly where `format` is not there, `NotOld` exactly where it has the bytes of one of the two formats of
/// this tool, and `UnknownFormat` exactly where it has others than these and those of the original one. `BadCount` comes
/// exactly where the folder is one of the original tool and `next-stream` is not there, or has more than 64 bytes, or is no
/// number. `Shelf` comes only where a call of the folder failed. The files are as before at each exit, and but for a failed
/// `SyncFolder` nothing is pending.
pub fn survey_old<H: Shelf>(alloc: Global, shelf: &mut H) -> Result<u32, OldFault>
    ensures found { IfOk result (λ count. Goes (H.seen shelf.old).told (H.seen shelf.new).told (SurveysOld count)) }
    ensures few { IfOk result (λ count. count ≤ most_runs) }
    ensures refused { IfErr result (λ fault. Goes (H.seen shelf.old).told (H.seen shelf.new).told (OldSurveyFails fault)) }
    ensures any_moment { Goes (H.seen shelf.old).told (H.seen shelf.new).told PassesOld }
    ensures time { TicksUpTo 6 (H.clock shelf.old) (H.clock shelf.new) }
    ensures cause { RisesExactlyIf (H.seen shelf.old).faults (H.seen shelf.new).faults (old_failed result) }
{
    let Ok(()) = shelf.sync_folder() else {
        return Err(OldFault::Shelf(ShelfCall::SyncFolder));
    };
    look(alloc, shelf)
}

// How many runs it has.
fn look<H: Shelf>(alloc: Global, shelf: &mut H) -> Result<u32, OldFault>
    ensures found { IfOk result (λ count. IfSome (H.seen shelf.old).told (λ s. IsOldWith count s.disk.published)) }
    ensures few { IfOk result (λ count. count ≤ most_runs) }
    ensures refused { IfErr result (λ fault. Goes (H.seen shelf.old).told (H.seen shelf.new).told (OldLookFails fault)) }
    ensures same { Goes (H.seen shelf.old).told (H.seen shelf.new).told Stays }
    ensures time { TicksUpTo 5 (H.clock shelf.old) (H.clock shelf.new) }
    ensures cause { RisesExactlyIf (H.seen shelf.old).faults (H.seen shelf.new).faults (old_failed result) }
{
    match check_layout(shelf) {
        Ok(()) => (),
        Err(fault) => return Err(fault),
    }
    let names = match shelf.names(alloc) {
        Ok(names) => names,
        Err(NamesFault::Failed) => return Err(OldFault::Shelf(ShelfCall::Names)),
        Err(NamesFault::NoMemory) => return Err(OldFault::NoMemory),
    };
    match read_next(shelf) {
        Ok(Some(next)) => Ok(run_count(&names, next)),
        Ok(None) => Err(OldFault::BadCount),
        Err(call) => Err(OldFault::Shelf(call)),
    }
}

// The number that comes next. `None` comes exactly where `next-stream` tells none.
fn read_next<H: Shelf>(shelf: &mut H) -> Result<Option<u32>, ShelfCall>
    ensures found { IfOk result (λ next. IfSome (H.seen shelf.old).told (λ s. next ≡ next_of s.disk.published)) }
    ensures few { IfOk result (λ next. IfSome next (λ number. number ≤ most_runs)) }
    ensures failed { IfErr result IsReading }
    ensures same { Goes (H.seen shelf.old).told (H.seen shelf.new).told Stays }
    ensures time { TicksUpTo 2 (H.clock shelf.old) (H.clock shelf.new) }
    ensures cause { HasCause (H.seen shelf.old).faults (H.seen shelf.new).faults result }
{
    let mut buf = [0u8; MOST_SHORT];
    match read_short(shelf, NEXT_NAME, &mut buf) {
        Ok(Short::Absent) => Ok(None),
        Ok(Short::Long) => Ok(None),
        Ok(Short::Whole(count)) => Ok(read_count(&buf[..count])),
        Err(call) => Err(call),
    }
}

// The format must be that of the original tool.
fn check_layout<H: Shelf>(shelf: &mut H) -> Result<(), OldFault>
    ensures right { OnOk result (IfSome (H.seen shelf.old).told (λ s. IsOld s.disk.published)) }
    ensures refused { IfErr result (λ fault. Goes (H.seen shelf.old).told (H.seen shelf.new).told (LayoutFails fault)) }
    ensures same { Goes (H.seen shelf.old).told (H.seen shelf.new).told Stays }
    ensures time { TicksUpTo 2 (H.clock shelf.old) (H.clock shelf.new) }
    ensures cause { RisesExactlyIf (H.seen shelf.old).faults (H.seen shelf.new).faults (old_failed result) }
{
    let mut buf = [0u8; MOST_SHORT];
    match read_short(shelf, FORMAT_NAME, &mut buf) {
        Ok(Short::Absent) => Err(OldFault::NoStore),
        Ok(Short::Long) => Err(OldFault::UnknownFormat),
        Ok(Short::Whole(count)) => match layout_of(&buf[..count]) {
            Layout::Old => Ok(()),
            Layout::Ours => Err(OldFault::NotOld),
            Layout::Other => Err(OldFault::UnknownFormat),
        },
        Err(call) => Err(OldFault::Shelf(call)),
    }
}

// Whose format it is.
#[derive(Clone, Copy)]
enum Layout {
    Old,
    Ours,
    Other,
}

// Whose format these bytes are.
fn layout_of(bytes: &[u8]) -> Layout
    ensures { result ≡ whose_format bytes.now }
{
    if bytes == OLD_BYTES {
        Layout::Old
    } else if bytes == FIRST_BYTES || bytes == SECOND_BYTES {
        Layout::Ours
    } else {
        Layout::Other
    }
}
