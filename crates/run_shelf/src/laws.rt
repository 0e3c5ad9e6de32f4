//! Laws of repositories and the runs that they show.

ghost use Rattle.std.specs.Prelude.{◌≡◌, ◌<◌, ◌≤◌, ◌++◌, ◌∷◌, [], ℕ, Bool, List, length, map};
ghost use Rattle.edge_io.specs.Disk.{Files, put};
ghost use Rattle.run_shelf.specs.Adoption.{IsOld, SameButNew};
ghost use Rattle.run_shelf.specs.Bases.{base_name};
ghost use Rattle.run_shelf.specs.Images.{HasRunBeside};
ghost use Rattle.run_shelf.specs.Repository.{Run, Shows, HasKinds, IsRepository, full_name, partial_name, most_runs};
ghost use Rattle.run_shelf.specs.Sides.{cache_file_name, SameButCaches};
ghost use Rattle.run_shelf.specs.declared.cache_file.CacheFile.{CacheFile as ASide};

/// A repository shows one list of runs, and the kinds that a look at it finds are theirs, in the same order.
pub fn repositories_show_runs()
    ensures shown { (files : Files) → IsRepository files → (runs : List Run) × Shows files runs }
    ensures one_list { (files : Files) (runs others : List Run) → Shows files runs → Shows files others → others ≡ runs }
    ensures kinds { (files : Files) (runs : List Run) (kinds : List Bool) → Shows files runs → HasKinds files kinds → kinds ≡ map (λ run. run.partial) runs }
{}

/// A folder of the original tool stays one, with the runs that it had, where it differs in what an upgrade makes alone. So it
/// is with one converted run put, with a base, with none, and with several, one after another.
pub fn old_folders_stay_old()
    ensures format { (count : ℕ) (files image : Files) → count ≤ most_runs → SameButNew count files image → IsOld files → IsOld image }
    ensures runs { (count number : ℕ) (files image : Files) → count ≤ most_runs → number < most_runs → SameButNew count files image → image (full_name number) ≡ files (full_name number) }
    ensures run { (count number : ℕ) (files : Files) (bytes : List ℕ) → number < count → SameButNew count files (put files (partial_name number) bytes) }
    ensures base { (count : ℕ) (files : Files) (bytes : List ℕ) → SameButNew count files (put files base_name bytes) }
    ensures same { (count : ℕ) (files : Files) → SameButNew count files files }
    ensures join { (count : ℕ) (files middle image : Files) → SameButNew count files middle → SameButNew count middle image → SameButNew count files image }
{}

/// Files that differ in the files of the caches alone show the same runs, and are a repository where they were one. So it
/// is with one such file put, with none, and with several, one after another.
pub fn caches_keep_the_runs()
    ensures runs { (files image : Files) (runs : List Run) → SameButCaches files image → Shows files runs → Shows image runs }
    ensures repository { (files image : Files) → SameButCaches files image → IsRepository files → IsRepository image }
    ensures kinds { (files image : Files) (kinds : List Bool) → SameButCaches files image → HasKinds files kinds → HasKinds image kinds }
    ensures put { (files : Files) (side : ASide) (bytes : List ℕ) → SameButCaches files (put files (cache_file_name side) bytes) }
    ensures same { (files : Files) → SameButCaches files files }
    ensures join { (files middle image : Files) → SameButCaches files middle → SameButCaches middle image → SameButCaches files image }
{}
