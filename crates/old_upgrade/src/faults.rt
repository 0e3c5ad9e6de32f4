//! Why a folder was not upgraded.

use run_shelf::ShelfCall;

/// Why a folder of the original tool was not made a repository.
#[derive(Clone, Copy, Debug, PartialEq, Eq)]
pub enum UpgradeFault {
    /// The file `format` is not there.
    NoStore,
    /// The folder is a repository of this tool already.
    NotOld,
    /// The file `format` has other bytes than those of the two tools.
    UnknownFormat,
    /// The file `next-stream` is not there, or is no number of runs.
    BadCount,
    /// The run of this number is damaged, and none before it.
    BadRun(u32),
    /// No run is damaged, and the file of what failed last is.
    BadFailing,
    /// This call of the folder failed.
    Shelf(ShelfCall),
    /// There is not enough memory.
    NoMemory,
}

impl From<ShelfCall> for UpgradeFault {
    ghost use Rattle.std.specs.Prelude.{◌≡◌};
    ghost use Rattle.old_upgrade.specs.declared.faults.UpgradeFault.TheVariants.{Shelf};

    ghost from_gives = { λ call fault. fault ≡ Shelf call };

    fn from(call: ShelfCall) -> Self {
        UpgradeFault::Shelf(call)
    }
}

impl From<sub_number::NoMemory> for UpgradeFault {
    ghost use Rattle.std.specs.Prelude.{◌≡◌};
    ghost use Rattle.old_upgrade.specs.declared.faults.UpgradeFault.TheVariants.{NoMemory};

    ghost from_gives = { λ _ fault. fault ≡ NoMemory };

    fn from(_: sub_number::NoMemory) -> Self {
        UpgradeFault::NoMemory
    }
}

impl From<std::alloc::AllocError> for UpgradeFault {
    ghost use Rattle.std.specs.Prelude.{◌≡◌};
    ghost use Rattle.old_upgrade.specs.declared.faults.UpgradeFault.TheVariants.{NoMemory};

    ghost from_gives = { λ _ fault. fault ≡ NoMemory };

    fn from(_: std::alloc::AllocError) -> Self {
        UpgradeFault::NoMemory
    }
}
