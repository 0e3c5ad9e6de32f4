//! Laws of the caches.

ghost use Rattle.std.specs.Prelude.{◌≡◌, None, ℕ, List};
ghost use Rattle.std.specs.FinMap.{FinMap};
ghost use Rattle.edge_io.specs.Disk.{Files, put};
ghost use Rattle.outcome_fold.specs.Order.{text_cmp};
ghost use Rattle.run_shelf.specs.Images.{HasRunBeside, HasFormatBeside};
ghost use Rattle.run_shelf.specs.Repository.{Run, IsRepository};
ghost use Rattle.run_shelf.specs.Sides.{cache_file_name};
ghost use Rattle.run_shelf.specs.declared.cache_file.CacheFile.TheVariants.{Failing, Times};
ghost use Rattle.run_ledger.specs.Caches.{IsFailingCache, IsTimesCache, SaidOfFirst, FailingOfFirst, IsSound};
ghost use Rattle.run_ledger.specs.Ledger.{times_after};

/// The bytes of a cache tell how many runs it covers, and its ids or times.
pub fn caches_hold_one_thing()
    ensures failing { (bytes : List ℕ) (covers also : ℕ) (ids others : List (List ℕ)) → IsFailingCache bytes covers ids → IsFailingCache bytes also others → (also ≡ covers) × (others ≡ ids) }
    ensures times { (bytes : List ℕ) (covers also : ℕ) (times others : FinMap text_cmp ℕ) → IsTimesCache bytes covers times → IsTimesCache bytes also others → (also ≡ covers) × (others ≡ times) }
{}

/// Files without caches are sound. Sound files stay so with one run more behind all others, with `format`, and with the
/// file of a cache that holds what its runs say, or is of no cache's form.
pub fn what_keeps_files_sound()
    ensures none { (files : Files) → files (cache_file_name Failing) ≡ None → files (cache_file_name Times) ≡ None → IsSound files }
    ensures run { (files image : Files) (number : ℕ) (run : Run) → HasRunBeside files number run image → IsRepository files → IsSound files → IsSound image }
    ensures format { (files image : Files) → HasFormatBeside files image → IsSound files → IsSound image }
    ensures failing { (files : Files) (bytes : List ℕ) → ((covers : ℕ) (ids : List (List ℕ)) → IsFailingCache bytes covers ids → FailingOfFirst files covers ids) → IsSound files → IsSound (put files (cache_file_name Failing) bytes) }
    ensures times { (files : Files) (bytes : List ℕ) → ((covers : ℕ) (times : FinMap text_cmp ℕ) → IsTimesCache bytes covers times → SaidOfFirst times_after files covers times) → IsSound files → IsSound (put files (cache_file_name Times) bytes) }
{}
