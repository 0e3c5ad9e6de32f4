//! How far the largest share is from the best, of every division by the rule of docs/FORMATS.md, "Shares".

ghost use Rattle.std.specs.Prelude.{◌<◌, ℕ, List};
ghost use Rattle.partition_times.specs.Bound.{IsWithinBound, IsNearBest};
ghost use Rattle.partition_times.specs.Shares.{Ids, Times, shares_of};

/// Laws of the shares of any ids among so many workers, at least one, by any times and any names of groups. Of m
/// workers, m times the known time of the largest share is at most the time of all ids and m - 1 times that of the
/// longest group. It is at most 2m - 1 times the largest share of any other division of the same groups, too.
pub fn shares_are_near_best()
    ensures bound { (times : Times) (name_of : List ℕ → List ℕ) (ids : Ids) (workers : ℕ) → 0 < workers → IsWithinBound times name_of ids workers (shares_of times name_of ids workers) }
    ensures best { (times : Times) (name_of : List ℕ → List ℕ) (ids : Ids) (workers : ℕ) → 0 < workers → IsNearBest times name_of ids workers (shares_of times name_of ids workers) }
{}
