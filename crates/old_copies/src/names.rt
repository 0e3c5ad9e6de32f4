//! The names that are copied, and whether others stand here.

ghost use Rattle.std.specs.Prelude.{◌≡◌, ◌≤◌, ◌<◌, ◌↔◌, All, true, false, IsTrue, IfSome, IfNone, IfErr, OnOk};
ghost use Rattle.edge_io.specs.Causes.{RisesExactlyIf};
ghost use Rattle.edge_io.specs.Steps.{Goes, Stays};
ghost use Rattle.run_shelf.specs.Names.{SpellsRunNumber, SpellsNoRunNumber};
ghost use Rattle.run_shelf.specs.Repository.{most_runs, full_name};
ghost use Rattle.old_copies.specs.Copying.{IsCopiedFirst, IsRunBelow, folder_failed, site_failed};
ghost use Rattle.old_copies.specs.Looking.{HoldsNoOther, HasOtherIn, CopyNamesFail};

use crate::OldCopyFault;
use arrayvec::ArrayString;
use edge_io::{NamesFault, Shelf};
use itoa::Buffer;
use run_shelf::{MOST_RUNS, ShelfCall};
use std::alloc::Global;
use std::str;
use sub_number::Text;

/// The name of the file that tells the format.
pub(crate) const FORMAT_NAME: &str = "format";

/// The name of the file that tells which number comes next.
pub(crate) const NEXT_NAME: &str = "next-stream";

/// The name of the file of what failed last.
pub(crate) const FAILING_NAME: &str = "failing";

/// The name of the file of the run of this number. It takes no memory.
pub(crate) fn run_name(number: u32) -> ArrayString<16>
    requires { number < most_runs }
    ensures { result.bytes ≡ full_name number }
{
    let mut digits = Buffer::new();
    let mut name = ArrayString::new();
    name.push_str(digits.format(number));
    name
}

/// Each file here must have a name that is copied, where there are so many runs. It makes one call of the folder, in which
/// nothing changes.
pub(crate) fn check_names<H: Shelf>(
    alloc: Global,
    shelf: &mut H,
    count: u32,
) -> Result<(), OldCopyFault>
    requires few { count ≤ most_runs }
    ensures alone { OnOk result (IfSome (H.seen shelf.old).told (HoldsNoOther count)) }
    ensures refused { IfErr result (λ fault. IfSome (H.seen shelf.old).told (CopyNamesFail count fault)) }
    ensures same { Goes (H.seen shelf.old).told (H.seen shelf.new).told Stays }
    ensures quiet { site_failed result ≡ false }
    ensures cause { RisesExactlyIf (H.seen shelf.old).faults (H.seen shelf.new).faults (folder_failed result) }
{
    let names = match shelf.names(alloc) {
        Ok(names) => names,
        Err(NamesFault::Failed) => return Err(OldCopyFault::Shelf(ShelfCall::Names)),
        Err(NamesFault::NoMemory) => return Err(OldCopyFault::NoMemory),
    };
    if are_copied(&names, count) {
        Ok(())
    } else {
        Err(OldCopyFault::OtherFiles)
    }
}

// Whether files of these names are all copied before `format`, where there are so many runs.
fn are_copied(names: &[Text], count: u32) -> bool
    requires few { count ≤ most_runs }
    ensures all { result ≡ true → All (IsCopiedFirst count) names.now }
    ensures other { result ≡ false → HasOtherIn count names.now }
{
    for name in names {
        if !is_copied(name.bytes(), count) {
            return false;
        }
    }
    true
}

// Whether a file of this name is copied before `format`, where there are so many runs.
fn is_copied(name: &[u8], count: u32) -> bool
    requires few { count ≤ most_runs }
    ensures { IsTrue result ↔ IsCopiedFirst count name.now }
{
    name == NEXT_NAME.as_bytes() || name == FAILING_NAME.as_bytes() || is_run_below(name, count)
}

// Whether it is the name of a full run below this number.
fn is_run_below(name: &[u8], count: u32) -> bool
    requires few { count ≤ most_runs }
    ensures { IsTrue result ↔ IsRunBelow count name.now }
{
    match read_number(name) {
        Some(number) => number < count,
        None => false,
    }
}

// The number below 1,000,000 that these digits spell, without leading zeros.
fn read_number(digits: &[u8]) -> Option<u32>
    ensures some { IfSome result (SpellsRunNumber digits.now) }
    ensures none { IfNone result (SpellsNoRunNumber digits.now) }
{
    let Ok(text) = str::from_utf8(digits) else {
        return None;
    };
    let Ok(number) = text.parse::<u32>() else {
        return None;
    };
    let mut buffer = Buffer::new();
    if number < MOST_RUNS && buffer.format(number).as_bytes() == digits {
        Some(number)
    } else {
        None
    }
}
