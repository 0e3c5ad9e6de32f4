//! The runs, converted one after another.

ghost use Rattle.std.specs.Prelude.{◌≡◌, ◌+◌, ◌<◌, ◌≤◌, IfSome, IfErr, OnOk};
ghost use Rattle.edge_io.specs.Causes.{RisesExactlyIf};
ghost use Rattle.edge_io.specs.Steps.{Goes};
ghost use Rattle.old_upgrade.specs.Recording.{ConvertsRun, ConvertFails, HasConvertedTo, AllFail, IsFoundOld};
ghost use Rattle.old_upgrade.specs.Upgrading.{upgrade_failed};
ghost use Rattle.run_shelf.specs.Adoption.{PassesNew};
ghost use Rattle.run_shelf.specs.Images.{AtRest};
ghost use Rattle.run_shelf.specs.Repository.{most_runs};

use crate::UpgradeFault;
use crate::converted_run::record_run;
use edge_io::Shelf;
use run_shelf::{begin_run, place_converted};
use std::alloc::Global;

/// Converts all runs of the folder, so many, in the order of their numbers.
pub(crate) fn convert_runs<H: Shelf>(
    alloc: Global,
    shelf: &mut H,
    count: u32,
) -> Result<(), UpgradeFault>
    requires few { count ≤ most_runs }
    requires found { IfSome (H.seen shelf.old).told (IsFoundOld count) }
    ensures converted { OnOk result (Goes (H.seen shelf.old).told (H.seen shelf.new).told (HasConvertedTo count)) }
    ensures refused { IfErr result (λ fault. Goes (H.seen shelf.old).told (H.seen shelf.new).told (AllFail fault)) }
    ensures any_moment { Goes (H.seen shelf.old).told (H.seen shelf.new).told (PassesNew count) }
    ensures cause { RisesExactlyIf (H.seen shelf.old).faults (H.seen shelf.new).faults (upgrade_failed result) }
{
    for number in 0..count {
        match convert_run(alloc, shelf, number) {
            Ok(()) => (),
            Err(fault) => return Err(fault),
        }
    }
    Ok(())
}

// Converts one run: it is kept, partial, beside the file of its number.
fn convert_run<H: Shelf>(alloc: Global, shelf: &mut H, number: u32) -> Result<(), UpgradeFault>
    requires few { number < most_runs }
    requires rest { IfSome (H.seen shelf.old).told AtRest }
    ensures converted { OnOk result (Goes (H.seen shelf.old).told (H.seen shelf.new).told (ConvertsRun number)) }
    ensures refused { IfErr result (λ fault. Goes (H.seen shelf.old).told (H.seen shelf.new).told (ConvertFails number fault)) }
    ensures any_moment { Goes (H.seen shelf.old).told (H.seen shelf.new).told (PassesNew (number + 1)) }
    ensures cause { RisesExactlyIf (H.seen shelf.old).faults (H.seen shelf.new).faults (upgrade_failed result) }
{
    begin_run(shelf)?;
    record_run(alloc, shelf, number)?;
    place_converted(shelf, number)?;
    Ok(())
}
