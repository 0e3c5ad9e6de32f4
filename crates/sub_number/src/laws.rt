//! Laws of orders.

ghost use Rattle.std.specs.Cmp.{IsTotalOrder};
ghost use Rattle.std.specs.Cmp.Lexicographic.{slice_cmp};
ghost use Rattle.std.specs.FinMap.{IsAntisymmetric};
ghost use Rattle.std.specs.Ordering.{nat_cmp};

/// The order of texts by their bytes is total, and only equal ones tie. On it rests what a finite map from texts is, as
/// contracts see `TimeMap`.
pub fn texts_are_ordered()
    ensures total { IsTotalOrder (slice_cmp nat_cmp) }
    ensures exact { IsAntisymmetric (slice_cmp nat_cmp) }
{}
