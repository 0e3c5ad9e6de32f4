//! The law of the tests that did not run.

ghost use Rattle.std.specs.Prelude.{◌≡◌, ◌&&◌, ℕ, List, not};
ghost use Rattle.outcome_fold.specs.Order.{among};
ghost use Rattle.outcome_fold.specs.declared.row.Row.{Row};
ghost use Rattle.missing_tests.specs.Missing.{missing_ids, ids_that_ran};

/// An id is told of as missing where it was asked for and no row tells that its test ran; and no other id is.
pub fn the_missing_are_told_of()
    ensures { (asked : List (List ℕ)) (rows : List Row) (id : List ℕ) → among (missing_ids asked rows) id ≡ (among asked id && not (among (ids_that_ran rows) id)) }
{}
