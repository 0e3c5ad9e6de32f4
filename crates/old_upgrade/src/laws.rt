//! What an upgrade leaves is sound, where no cache of this tool stands in the folder.

ghost use Rattle.std.specs.Prelude.{ℕ};
ghost use Rattle.edge_io.specs.Disk.{Files};
ghost use Rattle.run_ledger.specs.Caches.{IsSound};
ghost use Rattle.old_folder.specs.Converting.{StaysOld};
ghost use Rattle.old_upgrade.specs.Upgrading.{BecomesOne, LacksCaches};

/// Where neither cache stands in the folder of the original tool, neither does in what a stop leaves: it is sound, the folder as
/// both tools open it and the repository alike. Nothing is said of one in which a cache of this tool stands.
pub fn upgraded_folders_are_sound()
    ensures before { (files image : Files) → StaysOld files image → LacksCaches files → IsSound image }
    ensures behind { (files image : Files) → BecomesOne files image → LacksCaches files → IsSound image }
{}
