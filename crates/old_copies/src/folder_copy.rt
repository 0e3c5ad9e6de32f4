//! All files, one after another.

ghost use Rattle.std.specs.Prelude.{◌≤◌, IfSome};
ghost use Rattle.run_shelf.specs.Images.{AtRest};
ghost use Rattle.run_shelf.specs.Repository.{most_runs};
ghost use Rattle.old_copies.specs.Copying.{places, IsRunBelow, IsCopiedFirst, CopyStep, CopiesAll, CopiesOld};

use crate::OldCopyFault;
use crate::file::copy_file;
use crate::names::{FAILING_NAME, FORMAT_NAME, NEXT_NAME, check_names, run_name};
use crate::source_check::count_runs_at;
use crate::target_check::check_no_format;
use edge_io::{Shelf, Site};
use std::alloc::Global;

/// Copies the old files of the folder of this path into this one: the number that comes next, what failed last, the file of each
/// run below that number, and `format` behind them. It is then a folder of the original tool, which an upgrade takes over. No
/// file of the other folder changes.
///
/// `OldHere`, `Here` and `StrangeHere` come where this folder has a file `format`. `NoStore`, `NotOld`, `UnknownFormat` and
/// `BadCount` say of the other one what those of `survey_old` say. `OtherFiles` comes where this one has a file that is none of
/// those to copy, or has other bytes. Files that stand here with the same bytes stay, so a copy that was stopped goes on.
/// `Site` comes only where a read of the other folder failed, and `Shelf` where a call of this one did. A stop at any moment
/// leaves the files as they were, or some of the copies without `format`, or all of them.
pub fn copy_old<F: Site, H: Shelf>(
    alloc: Global,
    site: &mut F,
    from: &str,
    shelf: &mut H,
) -> Result<(), OldCopyFault>
    ensures { CopiesOld from.now (places (H.seen shelf.old) (F.seen site.old)) (places (H.seen shelf.new) (F.seen site.new)) result }
{
    match check_no_format(alloc, shelf) {
        Ok(()) => (),
        Err(fault) => return Err(fault),
    }
    let count = match count_runs_at(alloc, site, from) {
        Ok(count) => count,
        Err(fault) => return Err(fault),
    };
    match check_names(alloc, shelf, count) {
        Ok(()) => (),
        Err(fault) => return Err(fault),
    }
    copy_all(alloc, site, from, shelf, count)
}

// Copies all files, where there are so many runs, `format` last.
fn copy_all<F: Site, H: Shelf>(
    alloc: Global,
    site: &mut F,
    from: &str,
    shelf: &mut H,
    count: u32,
) -> Result<(), OldCopyFault>
    requires few { count ≤ most_runs }
    requires rest { IfSome (H.seen shelf.old).told AtRest }
    ensures { CopiesAll count from.now (places (H.seen shelf.old) (F.seen site.old)) (places (H.seen shelf.new) (F.seen site.new)) result }
{
    match copy_first(alloc, site, from, shelf, count) {
        Ok(()) => (),
        Err(fault) => return Err(fault),
    }
    copy_file(alloc, site, from, shelf, FORMAT_NAME)
}

// Copies all but `format`.
fn copy_first<F: Site, H: Shelf>(
    alloc: Global,
    site: &mut F,
    from: &str,
    shelf: &mut H,
    count: u32,
) -> Result<(), OldCopyFault>
    requires few { count ≤ most_runs }
    requires rest { IfSome (H.seen shelf.old).told AtRest }
    ensures { CopyStep (IsCopiedFirst count) from.now (places (H.seen shelf.old) (F.seen site.old)) (places (H.seen shelf.new) (F.seen site.new)) result }
{
    match copy_file(alloc, site, from, shelf, NEXT_NAME) {
        Ok(()) => (),
        Err(fault) => return Err(fault),
    }
    match copy_file(alloc, site, from, shelf, FAILING_NAME) {
        Ok(()) => (),
        Err(fault) => return Err(fault),
    }
    copy_runs(alloc, site, from, shelf, count)
}

// Copies the files of the runs below this number, in the order of their numbers.
fn copy_runs<F: Site, H: Shelf>(
    alloc: Global,
    site: &mut F,
    from: &str,
    shelf: &mut H,
    count: u32,
) -> Result<(), OldCopyFault>
    requires few { count ≤ most_runs }
    requires rest { IfSome (H.seen shelf.old).told AtRest }
    ensures { CopyStep (IsRunBelow count) from.now (places (H.seen shelf.old) (F.seen site.old)) (places (H.seen shelf.new) (F.seen site.new)) result }
{
    for number in 0..count {
        let name = run_name(number);
        match copy_file(alloc, site, from, shelf, name.as_str()) {
            Ok(()) => (),
            Err(fault) => return Err(fault),
        }
    }
    Ok(())
}
