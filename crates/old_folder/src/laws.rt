//! What stays of a folder of the original tool while its runs are converted, and what it is behind that.

ghost use Rattle.std.specs.Prelude.{◌≡◌, ◌<◌, ◌++◌, ◌∷◌, [], ℕ, List, length};
ghost use Rattle.edge_io.specs.Disk.{Files, put};
ghost use Rattle.run_shelf.specs.Adoption.{IsConverted, IsAdopted, SameButNew};
ghost use Rattle.run_shelf.specs.Bases.{base_in};
ghost use Rattle.run_shelf.specs.Repository.{partial_name};
ghost use Rattle.old_folder.specs.Converting.{HasConverted, StaysOld, IsUpgraded};
ghost use Rattle.old_folder.specs.Olds.{IsOldWith};

/// A folder of the original tool stays one, with as many runs, where it differs in converted runs below that number and in
/// the file of a base alone. So both tools open it as before, and an upgrade may begin again.
pub fn old_folders_stay_open()
    ensures { (count : ℕ) (files image : Files) → IsOldWith count files → SameButNew count files image → StaysOld files image }
{}

/// None is converted at first, and one more is where one more converted run is put. Where all are, the folder is ready to be
/// taken over, and then it is the repository of its runs.
pub fn conversions_go_on()
    ensures none { (files : Files) → HasConverted [] files files }
    ensures more { (count : ℕ) (runs : List (List ℕ)) (files now : Files) (bytes : List ℕ) → IsOldWith count files → length runs < count → HasConverted runs files now → HasConverted (runs ++ bytes ∷ []) files (put now (partial_name (length runs)) bytes) }
    ensures all { (runs : List (List ℕ)) (files now : Files) → IsOldWith (length runs) files → HasConverted runs files now → IsConverted (length runs) now }
    ensures taken { (runs ids : List (List ℕ)) (bytes : List ℕ) (files now image : Files) → IsOldWith (length runs) files → HasConverted runs files now → base_in bytes ≡ record { count = length runs; ids = ids } → IsAdopted bytes now image → IsUpgraded runs ids files image }
{}
