//! The whole of an upgrade.

ghost use Rattle.std.specs.Prelude.{◌≡◌, ◌≤◌, IfSome, IfOk, IfErr, OnOk};
ghost use Rattle.edge_io.specs.Causes.{RisesExactlyIf};
ghost use Rattle.edge_io.specs.Steps.{Goes};
ghost use Rattle.old_upgrade.specs.Recording.{IsFoundOld, FoundFails, fault_of_look};
ghost use Rattle.run_shelf.specs.Repository.{most_runs};
ghost use Rattle.old_upgrade.specs.Upgrading.{Upgrades, UpgradeFails, PassesUpgrade, upgrade_failed};

use crate::UpgradeFault;
use crate::conversion::convert_runs;
use crate::failing_set::failing_ids;
use edge_io::Shelf;
use old_folder::{OldFault, base_bytes, survey_old};
use run_shelf::adopt;
use std::alloc::Global;

/// Makes a folder of the original tool a repository of its runs, and answers how many there are. It brings what is pending to
/// the disk and looks at the folder; converts each run, from 0 on, which it keeps as a partial one beside the old file; reads
/// what failed last; keeps the base, and then the format. The old files stay as they were.
///
/// `NoStore`, `NotOld`, `UnknownFormat` and `BadCount` come as from `survey_old`, before anything is written. `BadRun` comes
/// with the least number whose file is damaged, and `BadFailing` where no run is damaged and the file of what failed last is.
/// `Shelf` comes only where a call of the folder failed. A stop at any moment, and each refusal behind the look, leaves a folder
/// that both tools open as before, or the repository.
pub fn upgrade<H: Shelf>(alloc: Global, shelf: &mut H) -> Result<u32, UpgradeFault>
    ensures upgraded { IfOk result (λ count. Goes (H.seen shelf.old).told (H.seen shelf.new).told (Upgrades count)) }
    ensures refused { IfErr result (λ fault. Goes (H.seen shelf.old).told (H.seen shelf.new).told (UpgradeFails fault)) }
    ensures any_moment { Goes (H.seen shelf.old).told (H.seen shelf.new).told PassesUpgrade }
    ensures cause { RisesExactlyIf (H.seen shelf.old).faults (H.seen shelf.new).faults (upgrade_failed result) }
{
    let count = match survey_old(alloc, shelf) {
        Ok(count) => count,
        Err(fault) => return Err(look_fault(fault)),
    };
    match convert_found(alloc, shelf, count) {
        Ok(()) => Ok(count),
        Err(fault) => Err(fault),
    }
}

// The same of a folder that was looked at: it has so many runs.
fn convert_found<H: Shelf>(alloc: Global, shelf: &mut H, count: u32) -> Result<(), UpgradeFault>
    requires few { count ≤ most_runs }
    requires found { IfSome (H.seen shelf.old).told (IsFoundOld count) }
    ensures upgraded { OnOk result (Goes (H.seen shelf.old).told (H.seen shelf.new).told (Upgrades count)) }
    ensures refused { IfErr result (λ fault. Goes (H.seen shelf.old).told (H.seen shelf.new).told (FoundFails fault)) }
    ensures any_moment { Goes (H.seen shelf.old).told (H.seen shelf.new).told PassesUpgrade }
    ensures cause { RisesExactlyIf (H.seen shelf.old).faults (H.seen shelf.new).faults (upgrade_failed result) }
{
    match convert_runs(alloc, shelf, count) {
        Ok(()) => (),
        Err(fault) => return Err(fault),
    }
    let ids = match failing_ids(alloc, shelf) {
        Ok(ids) => ids,
        Err(fault) => return Err(fault),
    };
    let Ok(base) = base_bytes(alloc, count, &ids) else {
        return Err(UpgradeFault::NoMemory);
    };
    match adopt(shelf, base.bytes()) {
        Ok(()) => Ok(()),
        Err(call) => Err(UpgradeFault::Shelf(call)),
    }
}

// A fault of the look as one of the upgrade.
fn look_fault(fault: OldFault) -> UpgradeFault
    ensures { result ≡ fault_of_look fault }
{
    match fault {
        OldFault::NoStore => UpgradeFault::NoStore,
        OldFault::NotOld => UpgradeFault::NotOld,
        OldFault::UnknownFormat => UpgradeFault::UnknownFormat,
        OldFault::BadCount => UpgradeFault::BadCount,
        OldFault::Shelf(call) => UpgradeFault::Shelf(call),
        OldFault::NoMemory => UpgradeFault::NoMemory,
    }
}
